//! The end of a talk: the open step is installed, what is active is withdrawn, and the last bundle is handed out.

ghost use Rattle.std.specs.Prelude.{◌≡◌, ◌≤◌, List, length, map};
ghost use Rattle.sgt_names.specs.Limits.{max_sites};
ghost use Rattle.std.specs.List.{range_with_len};
ghost use Rattle.sgt_notation.specs.declared.event.Event.TheVariants.{Install as AnInstall, Withdraw as AWithdraw};
ghost use Rattle.sgt_core_model.specs.Core.{CoreState};
ghost use Rattle.sgt_core_model.specs.Step.{Run};
ghost use Rattle.sgt_core_model.specs.declared.reply.Reply.{Reply as AReply};
ghost use Rattle.sgt_core_machine.specs.Machine.{GoesOn, StandsFor};
ghost use Rattle.sgt_serve.specs.Ended.{installs_of, open_tx};
ghost use Rattle.sgt_serve.specs.Place.{kept_at};
ghost use Rattle.sgt_serve.specs.private.Closing.{ClosesSo, HandsOut, lost_by};

use crate::bundles::Bundles;
use crate::last::Last;
use sgt_core_machine::Core;
use sgt_core_model::CoreFault;
use sgt_names::{SiteNo, Tx};
use sgt_notation::Event;
use sgt_pipe::{KeepFault, Refusals};
use std::alloc::Global;

/// Installs the open step at each site, where it lacks.
fn install_open(core: &mut Core)
    ensures { GoesOn (λ c d. (replies : List AReply)
        × Run c (installs_of (open_tx c) (length c.items)) replies d) core.old core.new }
{
    if let Some(tx) = core.open_step() {
        let sites = core.sites();
        install_at(core, tx, sites);
    }
}

/// Installs a transaction at so many sites, where it lacks.
fn install_at(core: &mut Core, tx: Tx, sites: usize)
    requires { sites ≤ max_sites }
    ensures { GoesOn (λ c d. (replies : List AReply)
        × Run c (map (AnInstall tx) (range_with_len 0 sites)) replies d) core.old core.new }
{
    for number in 0..sites {
        let Ok(site) = SiteNo::new(number as u64) else {
            unreachable!();
        };
        let _installed = core.step(Event::Install { tx, site });
    }
}

/// Withdraws each transaction up to this number that is active, by rising number.
fn withdraw_active(core: &mut Core, begun: u32)
    ensures { GoesOn (λ c d. (replies : List AReply)
        × Run c (map AWithdraw (range_with_len 1 begun)) replies d) core.old core.new }
{
    for number in 0..begun {
        let Ok(tx) = Tx::new(u64::from(number) + 1) else {
            unreachable!();
        };
        let _withdrawn = core.step(Event::Withdraw { tx });
    }
}

/// What becomes of a bundle that isn't kept.
fn lost(fault: KeepFault) -> Last
    ensures { result ≡ lost_by fault }
{
    match fault {
        KeepFault::Memory => Last::Memory,
        KeepFault::Refused => Last::Unwritten,
    }
}

/// Hands out the bundle of a core that is given up, and of which all was withdrawn: where a transaction is active yet,
/// a growth was refused to its withdrawal.
fn hand_out<B: Bundles>(alloc: Global, core: Core, bundles: &mut B, refusals: &mut Refusals) -> Last
    ensures { (c : CoreState) → StandsFor core c
        → HandsOut result c (kept_at (B.handed bundles.old) refusals.old)
        (kept_at (B.handed bundles.new) refusals.new) }
{
    let Ok(text) = core.into_text(alloc) else {
        refusals.note();
        return Last::Memory;
    };
    match bundles.keep(text.as_slice()) {
        Ok(_) => Last::Done,
        Err(fault) => lost(fault),
    }
}

/// Ends a talk whose core is this one.
pub(crate) fn close<B: Bundles>(
    alloc: Global,
    mut core: Core,
    bundles: &mut B,
    refusals: &mut Refusals,
) -> Last
    ensures { (c : CoreState) → StandsFor core c
        → ClosesSo result c (kept_at (B.handed bundles.old) refusals.old)
        (kept_at (B.handed bundles.new) refusals.new) }
{
    let begun = core.begun();
    if begun == 0 {
        return Last::Done;
    }
    install_open(&mut core);
    withdraw_active(&mut core, begun);
    hand_out(alloc, core, bundles, refusals)
}
