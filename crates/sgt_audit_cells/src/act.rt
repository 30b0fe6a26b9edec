//! One operation at the site whose section is open.

ghost use Rattle.std.specs.Prelude.{◌≡◌, ◌↔◌, ◌<◌, ℕ, List, IsTrue, IfOk, option_map};
ghost use Rattle.sgt_names.specs.declared.entry.Entry.{Entry};
ghost use Rattle.sgt_names.specs.Entry.{item_of};
ghost use Rattle.sgt_audit_cells.specs.Records.{deed_of};
ghost use Rattle.sgt_audit_cells.specs.private.Deeds.{act_of, done, changes, adds, deeds_clash, IsOf, ClashesWith};

use sgt_names::{Entry, Item, Kind};
use std::alloc::AllocError;

/// What an operation does to its item, or asks for: it reads it, puts a value into it, or adds to it.
#[derive(Clone, Copy)]
pub enum Deed {
    Read,
    Put,
    Add,
}

/// What is done to the item at this place among the items.
#[derive(Clone, Copy)]
pub struct Done {
    pub place: u16,
    pub deed: Deed,
}

/// An operation: its own place among the entries, the place of its item among the items, and what it does to it.
#[derive(Clone, Copy)]
pub struct Act {
    pub at: usize,
    pub place: u16,
    pub deed: Deed,
}

/// The item of an operation. An end has none. It is compiled where it is used, so that no copy of the item is made
/// there.
#[inline(always)]
pub fn item_in(entry: &Entry) -> Option<Item>
    ensures { result ≡ item_of entry.now }
{
    match *entry {
        Entry::Read { item, .. } | Entry::Write { item, .. } | Entry::Add { item, .. } => {
            Some(item)
        }
        Entry::Want { item, .. } | Entry::WantAdd { item, .. } => Some(item),
        Entry::Commit { .. } | Entry::Refuse { .. } | Entry::Withdraw { .. } => None,
    }
}

/// What the entry does to its item, if it has one.
#[inline(always)]
pub(crate) fn deed_of(entry: &Entry) -> Deed
    ensures { result ≡ deed_of entry.now }
{
    match entry {
        Entry::Read { .. } => Deed::Read,
        Entry::Add { .. } | Entry::WantAdd { .. } => Deed::Add,
        _ => Deed::Put,
    }
}

/// What the entry does, on the item at this place, if it has one.
#[inline(always)]
pub(crate) fn done_by(place: Option<usize>, entry: &Entry) -> Result<Option<Done>, AllocError>
    ensures { IfOk result (λ found. found ≡ option_map (λ i. done i entry.now) place) }
{
    match place {
        Some(place) => match u16::try_from(place) {
            Ok(place) => Ok(Some(Done {
                place,
                deed: deed_of(entry),
            })),
            Err(_) => Err(AllocError),
        },
        None => Ok(None),
    }
}

impl Deed {
    /// Whether it changes the item.
    #[inline(always)]
    pub(crate) fn changes(self) -> bool
        ensures { result ≡ changes self }
    {
        match self {
            Deed::Read => false,
            Deed::Put | Deed::Add => true,
        }
    }

    /// Whether it adds to the item.
    fn adds(self) -> bool
        ensures { result ≡ adds self }
    {
        match self {
            Deed::Add => true,
            Deed::Read | Deed::Put => false,
        }
    }
}

/// Whether the one and then the other, on one item, are a conflict of this kind.
fn deeds_clash(kind: Kind, first: Deed, second: Deed) -> bool
    ensures { result ≡ deeds_clash kind first second }
{
    match kind {
        Kind::Wr => first.changes() && !second.changes(),
        Kind::Rw => !first.changes() && second.changes(),
        Kind::Ww => first.changes() && second.changes() && !(first.adds() && second.adds()),
    }
}

impl Done {
    /// Whether it is done to the item at this place, and changes it or not.
    #[inline(always)]
    pub(crate) fn is_of(&self, place: usize, change: bool) -> bool
        ensures { (at : ℕ) → IsTrue result ↔ IsOf place change (act_of at self.now) }
    {
        if self.place as usize != place {
            return false;
        }
        match self.deed {
            Deed::Read => !change,
            Deed::Put | Deed::Add => change,
        }
    }

    /// The operation, where it stands at this place among the entries.
    #[inline(always)]
    pub(crate) fn act(self, at: usize) -> Act
        ensures { result ≡ act_of at self }
    {
        let Done { place, deed } = self;
        Act { at, place, deed }
    }
}

impl Act {
    /// Whether the other comes later, on the same item, and they are a conflict of this kind.
    pub(crate) fn clashes_with(&self, kind: Kind, other: &Act) -> bool
        ensures { IsTrue result ↔ ClashesWith kind self.now other.now }
    {
        other.place == self.place && self.at < other.at && deeds_clash(kind, self.deed, other.deed)
    }
}
