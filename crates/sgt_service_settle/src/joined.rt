//! Whether the conflicting operations on each item are joined by edges, as far as they are neighbours: those that a
//! service hands its edges to. Then all conflicts are carried: to the others walks lead over neighbours.

ghost use Rattle.std.specs.Prelude.{◌≡◌, ◌⊎◌, ◌≤◌, ◌+◌, length, IsTrue, IfOk, Contains, slice_set};
ghost use Rattle.std.specs.List.Sorted.{IsNonDecreasingBy};
ghost use Rattle.sgt_service_settle.specs.private.Deeds.{IsSound};
ghost use Rattle.sgt_service_settle.specs.private.Joined.{AreUnder, AreDeedsCarried, AreSound, AreTracksCarried};
ghost use Rattle.sgt_service_settle.specs.declared.deeds.Deed.{Deed as ADeed};

use crate::course::{Course, Marks, add, fits, follows, restart};
use crate::deeds::{Deed, Track, are_in_order, by_number};
use crate::link::Link;
use sgt_names::Tx;
use std::alloc::{AllocError, Global};

// The place of the first of the edges from this place on that were handed no earlier.
fn first_since(links: &[Link], start: usize, number: u64) -> usize
    ensures { result ≤ length links.now }
{
    for at in start..links.len() {
        if number <= links[at].number {
            return at;
        }
    }
    links.len()
}

/// No marks yet, for so many transactions.
pub(crate) fn no_marks(alloc: Global, all: usize) -> Result<Marks, AllocError>
    ensures { IfOk result (λ marks. AreUnder marks (marks.step + 1)) }
{
    Ok(Marks {
        from: Vec::from_elem(alloc, 0, all)?,
        to: Vec::from_elem(alloc, 0, all)?,
        step: 0,
    })
}

// Marks the far end of an edge, where the near end is the transaction.
fn mark_far(marks: &mut Vec<usize>, step: usize, near: usize, far: usize, tx: Tx)
    ensures { (marks.new.items ≡ marks.old.items)
        ⊎ ((near ≡ tx) × (marks.new.items ≡ slice_set marks.old.items far step)) }
{
    if near == tx.number() as usize && far < marks.len() {
        marks[far] = step;
    }
}

impl Marks {
    ghost use Rattle.std.specs.Prelude.{◌≡◌, ◌+◌, ◌++◌, ◌∷◌, [], List, IsTrue, IfOk};
    ghost use Rattle.sgt_service_settle.specs.private.Course.{IsShaped, IsCourse, Fits, Follows};
    ghost use Rattle.sgt_service_settle.specs.private.Joined.{AreUnder, AreNoted, ComesTo, LeadsTo};
    ghost use Rattle.sgt_service_settle.specs.declared.deeds.Deed.{Deed as ADeed};

    // Notes the edges to and from the transaction among the first ones, those that were handed until it was decided.
    fn note(&mut self, links: &[Link], deed: &Deed)
        requires { AreUnder self.old self.old.step }
        ensures step { self.new.step ≡ self.old.step }
        ensures under { AreUnder self.new (self.new.step + 1) }
        ensures noted { AreNoted links.now deed.now self.new }
    {
        for link in links {
            if link.number > deed.number {
                return;
            }
            mark_far(&mut self.from, self.step, link.to, link.from, deed.tx);
            mark_far(&mut self.to, self.step, link.from, link.to, deed.tx);
        }
    }

    // Takes the next operation of an item. False where it doesn't follow those before.
    fn join(
        &mut self,
        alloc: Global,
        course: &mut Course,
        links: &[Link],
        deed: &Deed,
    ) -> Result<bool, AllocError>
        requires shaped { IsShaped course.old }
        requires under { AreUnder self.old (self.old.step + 1) }
        ensures under { AreUnder self.new (self.new.step + 1) }
        ensures fits { IfOk result (λ yes. IsTrue yes → Fits course.old deed.now) }
        ensures follows { IfOk result (λ yes. IsTrue yes
            → Follows (ComesTo links.now deed.now)
            (LeadsTo links.now deed.now) course.old deed.now) }
        ensures course { IfOk result (λ yes. IsTrue yes
            → (done : List ADeed) → IsCourse done course.old
            → IsCourse (done ++ deed.now ∷ []) course.new) }
    {
        let Some(step) = self.step.checked_add(1) else {
            return Ok(false);
        };
        self.step = step;
        if !fits(course, deed) {
            return Ok(false);
        }
        self.note(links, deed);
        if !follows(course, deed, self) {
            return Ok(false);
        }
        add(alloc, course, deed)?;
        Ok(true)
    }
}

// Whether each operation of an item follows those before, which were decided before.
fn follow_all(
    alloc: Global,
    marks: &mut Marks,
    course: &mut Course,
    deeds: &[Deed],
    links: &[Link],
) -> Result<bool, AllocError>
    requires under { AreUnder marks.old (marks.old.step + 1) }
    requires sound { (d : ADeed) → Contains deeds.now d → IsSound d }
    requires sorted { IsNonDecreasingBy (λ (d : ADeed). d.number) deeds.now }
    ensures under { AreUnder marks.new (marks.new.step + 1) }
    ensures carried { IfOk result (λ yes. IsTrue yes → AreDeedsCarried links.now deeds.now) }
{
    restart(alloc, course)?;
    let mut start = 0;
    for deed in deeds {
        start = first_since(links, start, deed.number);
        let joined = marks.join(alloc, course, &links[start..], deed)?;
        if !joined {
            return Ok(false);
        }
    }
    Ok(true)
}

// The same in the order in which they were decided.
fn is_item_joined(
    alloc: Global,
    marks: &mut Marks,
    course: &mut Course,
    deeds: &[Deed],
    links: &[Link],
) -> Result<bool, AllocError>
    requires under { AreUnder marks.old (marks.old.step + 1) }
    requires sound { (d : ADeed) → Contains deeds.now d → IsSound d }
    ensures under { AreUnder marks.new (marks.new.step + 1) }
    ensures carried { IfOk result (λ yes. IsTrue yes → AreDeedsCarried links.now deeds.now) }
{
    if are_in_order(deeds) {
        return follow_all(alloc, marks, course, deeds, links);
    }
    let order = by_number(alloc, deeds)?;
    follow_all(alloc, marks, course, order.as_slice(), links)
}

/// Whether the operations of committed transactions on each item, in the order in which they were decided, are joined
/// to their neighbours among those before, by these edges. Then all conflicts between committed transactions are
/// carried; false tells nothing. Sorts what was done to each item, and then goes over it and over the edges there.
pub(crate) fn are_joined(
    alloc: Global,
    marks: &mut Marks,
    course: &mut Course,
    tracks: &[Track],
    rows: &[Vec<Link>],
) -> Result<bool, AllocError>
    requires under { AreUnder marks.old (marks.old.step + 1) }
    requires long { length tracks.now ≡ length rows.now }
    requires sound { AreSound tracks.now }
    ensures carried { IfOk result (λ yes. IsTrue yes → AreTracksCarried rows.now tracks.now) }
    ensures under { AreUnder marks.new (marks.new.step + 1) }
{
    for at in 0..tracks.len() {
        let deeds = tracks[at].deeds.as_slice();
        let joined = is_item_joined(alloc, marks, course, deeds, rows[at].as_slice())?;
        if !joined {
            return Ok(false);
        }
    }
    Ok(true)
}
