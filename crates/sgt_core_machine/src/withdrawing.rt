//! A transaction is withdrawn: its block at each site that it touches, for which room is made before.

ghost use Rattle.std.specs.Prelude.{◌≡◌, ℕ, Some, None, slice_get, IfOk, IfErr, OnOk, OnErr};
ghost use Rattle.sgt_notation.specs.declared.event.Event.TheVariants as event;
ghost use Rattle.sgt_site.specs.Refused.{MayPledge};
ghost use Rattle.sgt_core_machine.specs.Gathered.{MayPledgeAt};
ghost use Rattle.sgt_core_model.specs.Step.{MayStep};
ghost use Rattle.sgt_core_machine.specs.Machine.{parts_of, Stands, GoesOn};
ghost use Rattle.sgt_core_machine.specs.private.Withdrawing.{IsOffered, AreOffered, IsPledgedBy, ArePledgedBy, IsWithdrawn, AreWithdrawn, MayWithdrawAt, OffersAt, WithdrawsAt};
ghost use Rattle.sgt_core_machine.specs.declared.machine.Place.{Place as APlace};
ghost use Rattle.sgt_core_machine.specs.declared.machine.Running.{Running as ARunning};

use crate::gathering::release_all;
use crate::machine::{Machine, Place, Running, refused};
use sgt_arena::Handle;
use sgt_certifier::CertifierFault;
use sgt_core_model::{CoreFault, Reply};
use sgt_names::{Draft, Tx};
use sgt_site::SiteFault;
use std::alloc::AllocError;

impl Machine {
    /// The transaction is withdrawn.
    pub(crate) fn withdraw(&mut self, tx: Tx) -> Reply
        requires { Stands (parts_of self.old) }
        ensures { GoesOn (λ c d. MayStep c (event.Withdraw tx) result d) (parts_of self.old)
            (parts_of self.new) }
    {
        let slot = match self.slot_of(tx) {
            Ok(slot) => slot,
            Err(fault) => return refused(fault),
        };
        if self.step.is_some() {
            return refused(CoreFault::StepOpen);
        }
        match self.withdraw_at(tx, slot) {
            Ok(()) => Reply::Withdrawn,
            Err(_) => {
                release_all(&mut self.places, tx);
                refused(CoreFault::Memory)
            }
        }
    }

    // Withdraws the transaction at a place of the table. It errs for want of memory alone: pledges of it may stand
    // then, and nothing else has changed.
    fn withdraw_at(&mut self, tx: Tx, slot: usize) -> Result<(), AllocError>
        requires slot { (r : ARunning) × (slice_get self.old.running.items slot ≡ Some (Some r)) }
        requires may { (t : ℕ)
            → MayPledgeAt self.old.places.items self.old.running.items t slot tx }
        requires allowed { MayWithdrawAt self.old.certifier self.old.running.items slot }
        ensures ok { OnOk result (WithdrawsAt (parts_of self.old) (parts_of self.new) tx slot) }
        ensures offered { OnErr result (AreOffered tx self.old.places.items self.new.places.items) }
        ensures rest { OnErr result
            (parts_of self.new ≡ record (parts_of self.old) { places = self.new.places.items }) }
    {
        let table = self.running.as_slice();
        let handle = match offer_at(&mut self.places, table, slot, tx) {
            Ok(handle) => handle,
            Err(SiteFault::Memory) => return Err(AllocError),
            Err(_) => unreachable!(),
        };
        match self.certifier.withdraw(handle) {
            Ok(_number) => {}
            Err(fault) => match fault {
                CertifierFault::Memory => return Err(AllocError),
                _ => unreachable!(),
            },
        }
        withdraw_all(&mut self.places, tx);
        self.running[slot] = None;
        Ok(())
    }
}

// Makes room for the block of a transaction at a site that its draft touches. It errs for want of memory alone.
fn offer(place: &mut Place, tx: Tx, draft: &Draft) -> Result<(), SiteFault>
    requires { MayPledge place.old.site tx draft.now.touched }
    ensures memory { IfErr result (λ f. f ≡ SiteFault.Memory) }
    ensures offered { IsOffered tx place.old place.new }
    ensures ok { OnOk result (IsPledgedBy tx draft.now.touched place.old place.new) }
{
    if draft.touches(place.site.number()) {
        place.site.pledge(tx, draft)
    } else {
        Ok(())
    }
}

// Makes room for the block of a transaction at each site that its draft touches. It errs for want of memory alone.
fn offer_all(places: &mut Vec<Place>, tx: Tx, draft: &Draft) -> Result<(), SiteFault>
    requires { (t : ℕ) (p : APlace) → slice_get places.old.items t ≡ Some p
        → MayPledge p.site tx draft.now.touched }
    ensures memory { IfErr result (λ f. f ≡ SiteFault.Memory) }
    ensures offered { AreOffered tx places.old.items places.new.items }
    ensures ok { OnOk result (ArePledgedBy tx draft.now.touched places.old.items places.new.items) }
{
    for at in 0..places.len() {
        match offer(&mut places[at], tx, draft) {
            Ok(()) => {}
            Err(fault) => return Err(fault),
        }
    }
    Ok(())
}

// Makes room for the block of the transaction at a place of the table at each site that it touches, and answers its
// handle. It errs for want of memory alone.
fn offer_at(
    places: &mut Vec<Place>,
    table: &[Option<Running>],
    slot: usize,
    tx: Tx,
) -> Result<Handle, SiteFault>
    requires slot { (r : ARunning) × (slice_get table.now slot ≡ Some (Some r)) }
    requires may { (t : ℕ) → MayPledgeAt places.old.items table.now t slot tx }
    ensures memory { IfErr result (λ f. f ≡ SiteFault.Memory) }
    ensures offered { AreOffered tx places.old.items places.new.items }
    ensures ok { IfOk result
        (λ handle. OffersAt places.old.items places.new.items table.now slot tx handle) }
{
    match &table[slot] {
        Some(running) => match offer_all(places, tx, &running.draft) {
            Ok(()) => Ok(running.handle),
            Err(fault) => Err(fault),
        },
        None => unreachable!(),
    }
}

// Writes the block of a transaction at a site where its pledge stands.
fn write_withdrawal(place: &mut Place, tx: Tx)
    ensures { IsWithdrawn tx place.old place.new }
{
    match place.site.withdraw(tx) {
        Ok(()) => {}
        Err(_) => {}
    }
}

// Writes the block of a transaction at each site where its pledge stands.
fn withdraw_all(places: &mut Vec<Place>, tx: Tx)
    ensures { AreWithdrawn tx places.old.items places.new.items }
{
    for at in 0..places.len() {
        write_withdrawal(&mut places[at], tx);
    }
}
