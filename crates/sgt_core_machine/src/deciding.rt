//! A gathered transaction is decided.

ghost use Rattle.std.specs.Prelude.{◌≡◌, ◌↔◌, ◌<◌, ◌≤◌, ◌+◌, ◌++◌, ◌∷◌, [], suc, None, Some, Any, length, slice_get, vec_len, vec_capacity, IsTrue, IfOk, IfErr, IfSome, OnErr};
ghost use Rattle.sgt_notation.specs.declared.event.Event.TheVariants as event;
ghost use Rattle.sgt_core_model.specs.Core.{CoreState};
ghost use Rattle.sgt_core_model.specs.Step.{IsAllowed, MayStep};
ghost use Rattle.sgt_core_machine.specs.Machine.{parts_of, StandsFor, Stands, GoesOn, IsSlotOf};
ghost use Rattle.sgt_core_machine.specs.private.Decided.{edges_in, IsRuled, MayRuleAt, most_drafts, phase_after, reply_after, RulesAt, EndsAt};
ghost use Rattle.sgt_core_machine.specs.declared.machine.Part.TheVariants.{Due};
ghost use Rattle.sgt_core_machine.specs.declared.machine.Running.{Running as ARunning};

use crate::gathering::misses;
use crate::machine::{DRAFTS, Machine, Open, Part, Phase, Place, Running, refused};
use sgt_certifier::{CertifierFault, Judge};
use sgt_core_model::{CoreFault, Reply};
use sgt_edges::EdgeList;
use sgt_names::{Draft, Tx};
use std::alloc::Global;

impl Machine {
    /// The transaction is decided, where it is gathered wherever it touches. Where it touches nothing, its step ends
    /// at once.
    pub(crate) fn decide(&mut self, tx: Tx) -> Reply
        requires { Stands (parts_of self.old) }
        ensures { GoesOn (λ c d. MayStep c (event.Decide tx) result d) (parts_of self.old)
            (parts_of self.new) }
    {
        let slot = match self.slot_of(tx) {
            Ok(slot) => slot,
            Err(fault) => return refused(fault),
        };
        if self.other_step(tx) {
            return refused(CoreFault::StepOpen);
        }
        if misses(self.places.as_slice(), self.running.as_slice(), slot) {
            return refused(CoreFault::NotGathered);
        }
        if is_ruled(&self.step) {
            return refused(CoreFault::AlreadyDone);
        }
        self.decide_gathered(tx, slot)
    }

    // Decides a transaction that may be decided.
    pub(crate) fn decide_gathered(&mut self, tx: Tx, slot: usize) -> Reply
        requires stands { Stands (parts_of self.old) }
        requires slot { IsSlotOf (parts_of self.old) tx slot }
        requires allowed { (c : CoreState) → StandsFor (parts_of self.old) c
            → IsAllowed c (event.Decide tx) }
        ensures goes { GoesOn (λ c d. MayStep c (event.Decide tx) result d) (parts_of self.old)
            (parts_of self.new) }
        ensures number { tx ≡ suc (self.new.before + slot) }
    {
        let edges = edges_of(self.alloc, self.step.take());
        match rule(&mut self.certifier, self.running.as_slice(), slot, &edges) {
            Ok(is_committed) => {
                self.spare = edges;
                if is_due(self.places.as_slice()) {
                    self.step = Some(Open {
                        tx,
                        phase: phase_of(is_committed),
                    });
                } else {
                    self.end(tx, slot);
                }
                reply_of(is_committed)
            }
            Err(CertifierFault::Memory) => {
                self.give_up(tx);
                refused(CoreFault::Memory)
            }
            Err(_) => unreachable!(),
        }
    }

    // Ends the transaction at a place of the table, of which no block is due.
    pub(crate) fn end(&mut self, tx: Tx, slot: usize)
        requires step { self.old.certifier.step ≡ Some tx }
        requires slot { slot < length self.old.running.items }
        ensures { EndsAt (parts_of self.old) (parts_of self.new) tx slot }
    {
        match self.certifier.finish_step(tx) {
            Ok(()) => {}
            Err(_) => unreachable!(),
        }
        keep_draft(&mut self.drafts, self.running[slot].take());
    }
}

// Keeps the draft of a transaction that has ended, for another, where there is room for it. It takes no memory.
fn keep_draft(drafts: &mut Vec<Draft>, ended: Option<Running>)
    ensures none { ended ≡ None → drafts.new.items ≡ drafts.old.items }
    ensures kept { IfSome ended (λ r. vec_len drafts.old < most_drafts
        → vec_len drafts.old < vec_capacity drafts.old
        → drafts.new.items ≡ drafts.old.items ++ r.draft ∷ []) }
    ensures full { most_drafts ≤ vec_len drafts.old → drafts.new.items ≡ drafts.old.items }
    ensures narrow { vec_capacity drafts.old ≤ vec_len drafts.old
        → drafts.new.items ≡ drafts.old.items }
    ensures room { vec_capacity drafts.new ≡ vec_capacity drafts.old }
{
    if let Some(running) = ended {
        if drafts.len() < DRAFTS && drafts.len() < drafts.capacity() {
            drafts.push_reserved(running.draft);
        }
    }
}

// Whether the open step's transaction is decided.
fn is_ruled(step: &Option<Open>) -> bool
    ensures { IsTrue result ↔ IsRuled step.now }
{
    match step {
        Some(open) => match open.phase {
            Phase::Gathering(_) => false,
            _ => true,
        },
        None => false,
    }
}

// The edges that are gathered.
fn edges_of(alloc: Global, step: Option<Open>) -> EdgeList
    ensures { result ≡ edges_in step }
{
    match step {
        Some(open) => match open.phase {
            Phase::Gathering(edges) => edges,
            _ => EdgeList::new(alloc),
        },
        None => EdgeList::new(alloc),
    }
}

// Decides the transaction at a place of the table, and tells whether it is committed. It errs for want of memory alone.
fn rule(
    certifier: &mut Judge,
    table: &[Option<Running>],
    slot: usize,
    edges: &EdgeList,
) -> Result<bool, CertifierFault>
    requires slot { (r : ARunning) × (slice_get table.now slot ≡ Some (Some r)) }
    requires may { MayRuleAt certifier.old table.now slot edges.now }
    ensures ok { IfOk result
        (λ told. RulesAt certifier.old certifier.new table.now slot edges.now told) }
    ensures err { OnErr result (certifier.new ≡ certifier.old) }
    ensures memory { IfErr result (λ f. f ≡ CertifierFault.Memory) }
{
    match &table[slot] {
        Some(running) => certifier.rule(running.handle, edges),
        None => unreachable!(),
    }
}

fn phase_of(is_committed: bool) -> Phase
    ensures { result ≡ phase_after is_committed }
{
    if is_committed {
        Phase::Committed
    } else {
        Phase::Refused
    }
}

fn reply_of(is_committed: bool) -> Reply
    ensures { result ≡ reply_after is_committed }
{
    if is_committed { Reply::Yes } else { Reply::No }
}

// Whether a block of the open step is still due. Blocks are mostly written by rising site, so the last sites are
// looked at first.
pub(crate) fn is_due(places: &[Place]) -> bool
    ensures { IsTrue result ↔ Any (λ p. p.part ≡ Due) places.now }
{
    places.iter().rev().any(|place| is_due_at(place))
}

fn is_due_at(place: &Place) -> bool
    ensures { IsTrue result ↔ (place.now.part ≡ Due) }
{
    match place.part {
        Part::Due => true,
        _ => false,
    }
}
