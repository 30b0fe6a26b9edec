//! A transaction is committed or refused as a whole: gathered at each site that it touches, decided, and its block
//! written there.

ghost use Rattle.std.specs.Prelude.{◌≡◌, ◌<◌, ◌≤◌, ◌+◌, suc, Some, None, All, length, slice_get, IfOk, IfErr, OnOk, OnErr};
ghost use Rattle.sgt_names.specs.Draft.{AreRising, IsUsed};
ghost use Rattle.sgt_names.specs.Limits.{max_sites};
ghost use Rattle.sgt_notation.specs.declared.event.Event.TheVariants as event;
ghost use Rattle.sgt_core_model.specs.Core.{CoreState};
ghost use Rattle.sgt_core_model.specs.Step.{MayStep, MayDecide};
ghost use Rattle.sgt_core_machine.specs.Machine.{parts_of, StandsFor, Stands, GoesOn, IsSlotOf};
ghost use Rattle.sgt_core_machine.specs.private.Whole.{AreTouched, IsWhole, RefusesWhole, GathersAll, AwaitsBlocks, DecidesWhole, InstallsAll};
ghost use Rattle.sgt_core_machine.specs.declared.machine.Running.{Running as ARunning};

use crate::machine::{Machine, Running, refused};
use sgt_core_model::{CoreFault, Reply};
use sgt_names::{Draft, SiteNo, Touch, Tx};
use sgt_step::TouchedSites;
use std::alloc::AllocError;
use std::mem;

impl Machine {
    /// The transaction is committed or refused, as a whole.
    pub(crate) fn commit(&mut self, tx: Tx) -> Reply
        requires { Stands (parts_of self.old) }
        ensures { GoesOn (λ c d. MayStep c (event.Commit tx) result d) (parts_of self.old)
            (parts_of self.new) }
    {
        let mut sites = mem::replace(&mut self.sites, Vec::new(self.alloc));
        let slot = match self.whole_sites(tx, &mut sites) {
            Ok(slot) => slot,
            Err(fault) => return refused(fault),
        };
        match self.decide_whole(tx, slot, sites.as_slice()) {
            Reply::Fault { fault } => refused(fault),
            verdict => {
                self.install_all(tx, slot, sites.as_slice());
                self.sites = sites;
                verdict
            }
        }
    }

    /// The transaction is gathered wherever it touches, and decided.
    pub(crate) fn to_decide(&mut self, tx: Tx) -> Reply
        requires { Stands (parts_of self.old) }
        ensures { GoesOn (λ c d. MayDecide c tx result d) (parts_of self.old) (parts_of self.new) }
    {
        let mut sites = Vec::new(self.alloc);
        match self.whole_sites(tx, &mut sites) {
            Ok(slot) => self.decide_whole(tx, slot, sites.as_slice()),
            Err(fault) => refused(fault),
        }
    }

    // Lists the sites that a transaction touches that may be committed, and tells its place in the table.
    #[inline(always)]
    fn whole_sites(&self, tx: Tx, sites: &mut Vec<SiteNo>) -> Result<usize, CoreFault>
        requires { Stands (parts_of self.now) }
        ensures slot { IfOk result (λ slot. IsSlotOf (parts_of self.now) tx slot) }
        ensures ok { OnOk result
            ((c : CoreState) → StandsFor (parts_of self.now) c
            → IsWhole c tx sites.new.items) }
        ensures err { IfErr result
            (λ f. (c : CoreState) → StandsFor (parts_of self.now) c → RefusesWhole c tx f) }
    {
        let slot = match self.slot_of(tx) {
            Ok(slot) => slot,
            Err(fault) => return Err(fault),
        };
        if self.step.is_some() {
            return Err(CoreFault::StepOpen);
        }
        match touched_sites(sites, self.running.as_slice(), slot, self.places.len()) {
            Ok(()) => Ok(slot),
            Err(_) => Err(CoreFault::Memory),
        }
    }

    // Gathers the transaction at each of its sites, and decides it.
    fn decide_whole(&mut self, tx: Tx, slot: usize, sites: &[SiteNo]) -> Reply
        requires stands { Stands (parts_of self.old) }
        requires slot { IsSlotOf (parts_of self.old) tx slot }
        requires whole { (c : CoreState) → StandsFor (parts_of self.old) c
            → IsWhole c tx sites.now }
        ensures goes { GoesOn (λ c d. DecidesWhole c tx sites.now result d) (parts_of self.old)
            (parts_of self.new) }
        ensures number { tx ≡ suc (self.new.before + slot) }
    {
        match self.gather_all(tx, slot, sites) {
            Ok(()) => self.decide_gathered(tx, slot),
            Err(_) => refused(CoreFault::Memory),
        }
    }

    // Gathers the transaction at each of its sites. It errs for want of memory alone, and the step is closed then.
    fn gather_all(&mut self, tx: Tx, slot: usize, sites: &[SiteNo]) -> Result<(), AllocError>
        requires stands { Stands (parts_of self.old) }
        requires slot { IsSlotOf (parts_of self.old) tx slot }
        requires whole { (c : CoreState) → StandsFor (parts_of self.old) c
            → IsWhole c tx sites.now }
        ensures ok { OnOk result
            (GoesOn (λ c d. GathersAll c tx sites.now d) (parts_of self.old) (parts_of self.new)) }
        ensures err { OnErr result
            (GoesOn (λ c d. d ≡ record c { step = None }) (parts_of self.old) (parts_of self.new)) }
        ensures slot { IsSlotOf (parts_of self.new) tx slot }
    {
        for site in sites {
            match self.gather_allowed(tx, slot, *site) {
                Reply::Gathered => {}
                _ => return Err(AllocError),
            }
        }
        Ok(())
    }

    // Writes the blocks that are due of the transaction at these sites.
    fn install_all(&mut self, tx: Tx, slot: usize, sites: &[SiteNo])
        requires number { tx ≡ suc (self.old.before + slot) }
        requires awaits { (c : CoreState) × StandsFor (parts_of self.old) c
            × AwaitsBlocks c tx sites.now }
        ensures { (c : CoreState) → StandsFor (parts_of self.old) c → AwaitsBlocks c tx sites.now
            → (d : CoreState) × InstallsAll c tx sites.now d × StandsFor (parts_of self.new) d }
    {
        // where nothing is touched the step has ended
        let Some(verdict) = self.verdict() else {
            return;
        };
        for at in 0..sites.len() {
            self.install_due(tx, slot, sites[at], verdict, at + 1 < sites.len());
        }
    }
}

// Lists the sites below this number that the transaction at a place of the table touches, rising.
#[inline(always)]
fn touched_sites(
    sites: &mut Vec<SiteNo>,
    table: &[Option<Running>],
    slot: usize,
    count: usize,
) -> Result<(), AllocError>
    requires slot { slot < length table.now }
    requires few { count ≤ max_sites }
    ensures { (r : ARunning) → slice_get table.now slot ≡ Some (Some r)
        → OnOk result (AreTouched r.draft.touched count sites.new.items) }
{
    match &table[slot] {
        Some(running) => list_touched(sites, &running.draft, count),
        None => Ok(()),
    }
}

// Lists the sites below this number that the draft touches, rising. While it is one list, that is gone over.
fn list_touched(sites: &mut Vec<SiteNo>, draft: &Draft, count: usize) -> Result<(), AllocError>
    requires { count ≤ max_sites }
    ensures { OnOk result (AreTouched draft.now.touched count sites.new.items) }
{
    let (few, parts) = draft.touched();
    if parts.is_empty() {
        return list_few(sites, few, count);
    }
    TouchedSites::of(draft).list_below(sites, count)
}

// Lists the sites below this number of these touched items, rising.
fn list_few(sites: &mut Vec<SiteNo>, touched: &[Touch], count: usize) -> Result<(), AllocError>
    requires rising { AreRising touched.now }
    requires used { All IsUsed touched.now }
    ensures { OnOk result (AreTouched touched.now count sites.new.items) }
{
    sites.clear();
    let mut next = 0;
    for touch in touched {
        let number = touch.site.number() as usize;
        if next <= number && number < count {
            sites.push(touch.site)?;
            next = number + 1;
        }
    }
    Ok(())
}
