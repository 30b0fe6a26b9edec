//! The blocks of a decided transaction are written, and its step ends behind the last.

ghost use Rattle.std.specs.Prelude.{◌≡◌, ◌<◌, Some, length, slice_get};
ghost use Rattle.sgt_core_machine.specs.declared.machine.Place.{Place as APlace};
ghost use Rattle.sgt_core_machine.specs.private.Installing.{IsPledgedAt, WritesAt, AwaitsAt, IsNotedBy, IsAtRest, AreAtRest};

use crate::deciding::is_due;
use crate::machine::{Machine, Part, Phase, Place, Running, refused};
use sgt_certifier::Judge;
use sgt_core_model::{CoreFault, Reply};
use sgt_names::{SiteNo, Tx};
use sgt_step::{Ending, end};

impl Machine {
    ghost use Rattle.sgt_notation.specs.declared.event.Event.TheVariants as event;
    ghost use Rattle.std.specs.Prelude.{IsTrue};
    ghost use Rattle.sgt_core_model.specs.Core.{CoreState};
    ghost use Rattle.sgt_core_model.specs.Step.{IsAllowed, MayStep};
    ghost use Rattle.sgt_core_machine.specs.Machine.{parts_of, StandsFor, Stands, GoesOn, IsSlotOf};
    ghost use Rattle.sgt_core_machine.specs.private.Installing.{verdict_of, IsPledgedAt, AwaitsAt, IsAnotherDue, Writes, Ends};

    /// The transaction's block is written at the site, and the transaction ends behind the last block of its step.
    pub(crate) fn install(&mut self, tx: Tx, site: SiteNo) -> Reply
        requires { Stands (parts_of self.old) }
        ensures { GoesOn (λ c d. MayStep c (event.Install tx site) result d) (parts_of self.old)
            (parts_of self.new) }
    {
        let slot = match self.slot_of(tx) {
            Ok(slot) => slot,
            Err(fault) => return refused(fault),
        };
        if self.other_step(tx) {
            return refused(CoreFault::StepOpen);
        }
        let at = site.number() as usize;
        if at >= self.places.len() {
            return refused(CoreFault::UnknownItem);
        }
        let verdict = match self.verdict() {
            Some(verdict) => verdict,
            None => return refused(CoreFault::NotGathered),
        };
        match part_at(self.places.as_slice(), at) {
            Part::Idle => refused(CoreFault::NotTouched),
            Part::Written => refused(CoreFault::AlreadyDone),
            Part::Due => {
                self.install_due(tx, slot, site, verdict, false);
                Reply::Installed
            }
        }
    }

    // Writes the block of a transaction at a site where it is due. The step ends behind the last, which this isn't
    // where a block is known to be due at another site.
    #[inline(always)]
    pub(crate) fn install_due(
        &mut self,
        tx: Tx,
        slot: usize,
        site: SiteNo,
        verdict: Ending,
        is_another_due: bool,
    )
        requires stands { Stands (parts_of self.old) }
        requires slot { IsSlotOf (parts_of self.old) tx slot }
        requires allowed { (c : CoreState) → StandsFor (parts_of self.old) c
            → IsAllowed c (event.Install tx site) }
        requires verdict { verdict_of self.old.step ≡ Some verdict }
        requires another { IsTrue is_another_due → IsAnotherDue self.old.places.items site }
        ensures goes { GoesOn (λ c d. MayStep c (event.Install tx site) Reply.Installed d)
            (parts_of self.old) (parts_of self.new) }
        ensures slot { IsTrue is_another_due → IsSlotOf (parts_of self.new) tx slot }
        ensures verdict { IsTrue is_another_due → verdict_of self.new.step ≡ Some verdict }
    {
        self.write(tx, site, slot, verdict);
        if is_another_due || is_due(self.places.as_slice()) {
            return;
        }
        self.end_step(tx, slot);
    }

    // What was decided of the open step's transaction.
    pub(crate) fn verdict(&self) -> Option<Ending>
        ensures { result ≡ verdict_of self.now.step }
    {
        match &self.step {
            Some(open) => match open.phase {
                Phase::Gathering(_) => None,
                Phase::Committed => Some(Ending::Committed),
                Phase::Refused => Some(Ending::Refused),
            },
            None => None,
        }
    }

    // Writes the block of the transaction that was decided so at the site, and notes its install.
    fn write(&mut self, tx: Tx, site: SiteNo, slot: usize, verdict: Ending)
        requires pledge { IsPledgedAt self.old.places.items self.old.running.items site slot tx }
        requires awaits { verdict ≡ Ending.Committed → AwaitsAt self.old.certifier site tx }
        ensures { Writes verdict (parts_of self.old) (parts_of self.new) site slot tx }
    {
        let table = self.running.as_slice();
        note_install(&mut self.certifier, tx, site, verdict);
        write_at(&mut self.places, table, slot, tx, site, verdict);
    }

    // Ends the step, and its transaction with it.
    fn end_step(&mut self, tx: Tx, slot: usize)
        requires step { self.old.certifier.step ≡ Some tx }
        requires slot { slot < length self.old.running.items }
        ensures { Ends (parts_of self.old) (parts_of self.new) slot tx }
    {
        self.end(tx, slot);
        rest_all(&mut self.places);
        self.step = None;
    }
}

// The part of the open step at a site.
fn part_at(places: &[Place], at: usize) -> Part
    requires { at < length places.now }
    ensures { (p : APlace) → slice_get places.now at ≡ Some p → result ≡ p.part }
{
    places[at].part
}

// Notes the install of the transaction, if it is committed.
fn note_install(certifier: &mut Judge, tx: Tx, site: SiteNo, verdict: Ending)
    requires { verdict ≡ Ending.Committed → AwaitsAt certifier.old site tx }
    ensures { IsNotedBy verdict certifier.old certifier.new site tx }
{
    if let Ending::Committed = verdict {
        certifier.note(tx, site);
    }
}

// Writes the block of the transaction at a place of the table, by the pledge that the site has of it.
fn write_at(
    places: &mut Vec<Place>,
    table: &[Option<Running>],
    slot: usize,
    tx: Tx,
    site: SiteNo,
    verdict: Ending,
)
    requires { IsPledgedAt places.old.items table.now site slot tx }
    ensures { WritesAt verdict places.old.items places.new.items table.now site slot tx }
{
    let place = &mut places[site.number() as usize];
    match &table[slot] {
        Some(running) => {
            let written = end(&mut place.site, tx, running.handle, &running.draft, verdict);
            match written {
                Ok(()) => place.part = Part::Written,
                Err(_) => unreachable!(),
            }
        }
        None => unreachable!(),
    }
}

// The site has no part of a step any more.
fn rest(place: &mut Place)
    ensures { IsAtRest place.old place.new }
{
    place.part = Part::Idle;
}

fn rest_all(places: &mut Vec<Place>)
    ensures { AreAtRest places.old.items places.new.items }
{
    for at in 0..places.len() {
        rest(&mut places[at]);
    }
}
