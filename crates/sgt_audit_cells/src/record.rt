//! What a transaction did at the site whose section is open.

ghost use Rattle.std.specs.Prelude.{◌≡◌, ◌==◌, ◌&&◌, ◌||◌, ◌+◌, ◌<◌, ◌≤◌, ◌^◌, false, not, if◌then◌else◌};
ghost use Rattle.sgt_audit_cells.specs.private.Linked.{last_here};

use crate::act::Done;

/// What is kept of a transaction: the stamp of the section in which it came last; whether it ended there; and where
/// the last that it did there stands among the nodes, counted from 1, if it did anything.
#[derive(Clone, Copy)]
pub struct Slot {
    pub stamp: u16,
    pub ended: bool,
    /// How many entries of it were counted, as far as they are.
    pub count: u8,
    pub last: u32,
    /// The number of its row, if it has one. Nothing need be known of it.
    pub row: u32,
}

/// A transaction with as many entries in a section gets a row.
const MANY: u8 = 32;

/// What an entry does, and where the one before it of the same transaction stands, counted from 1 over the section; 0
/// is none. A node stands where its entry does. Nothing is linked to that of an end.
#[derive(Clone, Copy)]
pub struct Node {
    pub done: Done,
    pub before: u32,
}

/// What an entry of a transaction changes at the open section: whether it is its first there, and whether it is its
/// first end.
#[derive(Clone, Copy)]
pub(crate) struct Turn {
    pub comes: bool,
    pub leaves: bool,
}

impl Slot {
    /// Of a transaction that no section has met.
    pub(crate) fn fresh() -> Slot
        ensures { result ≡ record { stamp = 0; ended = false; count = 0; last = 0; row = 0 } }
    {
        Slot {
            stamp: 0,
            ended: false,
            count: 0,
            last: 0,
            row: 0,
        }
    }

    /// What it is in the section of this stamp: as it stands, or without an entry there.
    #[inline(always)]
    pub(crate) fn here(&self, stamp: u16) -> Slot
        ensures stamp { result.stamp ≡ stamp }
        ensures ended { result.ended ≡ ((self.now.stamp == stamp) && self.now.ended) }
        ensures last { result.last ≡ last_here stamp self.now }
    {
        if self.stamp == stamp {
            return *self;
        }
        Slot {
            stamp,
            ended: false,
            count: 0,
            last: 0,
            row: 0,
        }
    }

    /// Whether many entries of it were counted.
    #[inline(always)]
    pub(crate) fn is_long(&self) -> bool {
        self.count >= MANY
    }

    /// What one more entry of it changes at the section of this stamp, where it ends it or not.
    #[inline(always)]
    pub(crate) fn turn(&self, stamp: u16, ends: bool) -> Turn
        ensures comes { result.comes ≡ not (self.now.stamp == stamp) }
        ensures leaves { result.leaves ≡ (ends && not ((self.now.stamp == stamp) && self.now.ended)) }
    {
        Turn {
            comes: self.stamp != stamp,
            leaves: ends && !(self.stamp == stamp && self.ended),
        }
    }

    /// Whether it ended in the section of this stamp.
    #[inline(always)]
    pub(crate) fn has_ended(&self, stamp: u16) -> bool
        ensures { result ≡ ((self.now.stamp == stamp) && self.now.ended) }
    {
        self.stamp == stamp && self.ended
    }

    /// Where the last that it did in the section of this stamp stands, counted from 1. 0 is none.
    #[inline(always)]
    pub(crate) fn last_in(&self, stamp: u16) -> u32
        ensures { result ≡ last_here stamp self.now }
    {
        if self.stamp == stamp { self.last } else { 0 }
    }
}

/// How many are live, where so many were, and with an entry one comes or not, and one leaves or not.
#[inline(always)]
pub(crate) fn live_after(live: usize, comes: bool, leaves: bool) -> usize
    ensures { let more = live + (if comes then 1 else 0) in
        let less = if leaves then 1 else 0 in
        more < 2 ^ 64 → less ≤ more → result + less ≡ more }
{
    let more = if comes { live.wrapping_add(1) } else { live };
    if leaves { more.wrapping_sub(1) } else { more }
}
