//! The entries of a log, each in 24 bytes.

ghost use Rattle.std.specs.Prelude.{◌≡◌, ◌++◌, List, Some, IfOk, IsTrue, slice_get};
ghost use Rattle.sgt_names.specs.Name.{Name};
ghost use Rattle.sgt_compact_entry.specs.Compact.{IsNumberOf};

use sgt_compact_entry::{Act, CompactEntry, compact, entry_of};
use sgt_names::{Entry, Item, Tx, Value};
use std::alloc::{AllocError, Global};
use std::marker::Model;

/// The entries of a log, the oldest first, each in 24 bytes where `Entry` takes 32: an item is told by its number in a
/// list of items. Contracts see the entries.
#[derive(Drop)]
pub struct CompactEntries {
    items: Vec<Item>,
    entries: Vec<CompactEntry>,
}

impl Model for CompactEntries {
    ghost use Rattle.std.specs.Prelude.{List, All, map};
    ghost use Rattle.sgt_names.specs.declared.entry.Entry.{Entry};
    ghost use Rattle.sgt_compact_entry.specs.Compact.{IsNumbered, named};

    ghost Value = { List Entry };

    ghost view = { λ s. map (named s.items.items) s.entries.items };

    ghost invariant = { λ s. All (IsNumbered s.items.items) s.entries.items };
}

/// The number of the item, if there is one: this number, or else a new one.
#[inline(always)]
fn number_of(items: &mut Vec<Item>, item: Option<Item>, number: usize) -> Result<usize, AllocError>
    ensures number { IfOk result (IsNumberOf items.new.items item) }
    ensures more { (more : List Name) × (items.new.items ≡ items.old.items ++ more) }
{
    let Some(item) = item else {
        return Ok(0);
    };
    if is_at(items.as_slice(), item, number) {
        return Ok(number);
    }
    let next = items.len();
    items.push(item)?;
    Ok(next)
}

/// Whether this is the number of the item.
#[inline(always)]
fn is_at(items: &[Item], item: Item, number: usize) -> bool
    ensures { IsTrue result → slice_get items.now number ≡ Some item }
{
    match items.get(number) {
        Some(named) => *named == item,
        None => false,
    }
}

impl CompactEntries {
    ghost use Rattle.std.specs.Prelude.{◌≡◌, ◌++◌, ◌∷◌, [], ℕ, ◌<◌, ◌≤◌, All, Some, length, map, slice_get, OnOk, OnErr, IfOk};
    ghost use Rattle.sgt_names.specs.Entry.{tx_of};
    ghost use Rattle.sgt_names.specs.declared.entry.Entry.{Entry as AnyEntry};
    ghost use Rattle.sgt_compact.specs.Said.{added_said, lent, read_said, written_said};

    /// No entries.
    pub fn new(alloc: Global) -> CompactEntries
        ensures { result ≡ [] }
    {
        CompactEntries {
            items: Vec::new(alloc),
            entries: Vec::new(alloc),
        }
    }

    /// Gives the item the next number, from 0 on.
    pub fn name(&mut self, item: Item) -> Result<(), AllocError>
        ensures { self.new ≡ self.old }
    {
        self.items.push(item)?;
        Ok(())
    }

    /// How many entries there are.
    pub fn len(&self) -> usize
        ensures { result ≡ length self.now }
    {
        self.entries.len()
    }

    /// One more entry. Its item has this number, or else takes one more.
    #[inline(always)]
    pub fn push(&mut self, entry: Entry, number: usize) -> Result<(), AllocError>
        ensures ok { OnOk result (self.new ≡ self.old ++ entry ∷ []) }
        ensures err { OnErr result (self.new ≡ self.old) }
    {
        let number = number_of(&mut self.items, entry.item(), number)?;
        self.entries.push(compact(&entry, number))?;
        Ok(())
    }

    /// The entry at a place.
    #[inline(always)]
    pub fn at(&self, place: usize) -> Entry
        requires { place < length self.now }
        ensures { slice_get self.now place ≡ Some result }
    {
        entry_of(self.items.as_slice(), &self.entries[place])
    }

    /// The transaction whose entry stands at a place.
    #[inline(always)]
    pub fn tx_at(&self, place: usize) -> Tx
        requires { place < length self.now }
        ensures { (e : AnyEntry) → slice_get self.now place ≡ Some e → result ≡ tx_of e }
    {
        self.entries[place].tx
    }

    /// The item that the entry at a place reads, with the value, if it is a read.
    #[inline(always)]
    pub fn read_at(&self, place: usize) -> Option<(&Item, Value)>
        requires { place < length self.now }
        ensures { (e : AnyEntry) → slice_get self.now place ≡ Some e → lent result ≡ read_said e }
    {
        let own = &self.entries[place];
        match own.act {
            Act::Read => Some((&self.items[own.item], own.value)),
            _ => None,
        }
    }

    /// The item that the entry at a place writes, with the value, if it is a write.
    #[inline(always)]
    pub fn written_at(&self, place: usize) -> Option<(&Item, Value)>
        requires { place < length self.now }
        ensures { (e : AnyEntry) → slice_get self.now place ≡ Some e → lent result ≡ written_said e }
    {
        let own = &self.entries[place];
        match own.act {
            Act::Write => Some((&self.items[own.item], own.value)),
            _ => None,
        }
    }

    /// The item that the entry at a place adds to, with what is added, if it is an increment.
    #[inline(always)]
    pub fn added_at(&self, place: usize) -> Option<(&Item, Value)>
        requires { place < length self.now }
        ensures { (e : AnyEntry) → slice_get self.now place ≡ Some e → lent result ≡ added_said e }
    {
        let own = &self.entries[place];
        match own.act {
            Act::Add => Some((&self.items[own.item], own.value)),
            _ => None,
        }
    }

    /// The entries, each in 32 bytes.
    pub fn to_vec(&self, alloc: Global) -> Result<Vec<Entry>, AllocError>
        ensures { IfOk result (λ entries. entries.items ≡ self.now) }
    {
        let mut entries = Vec::with_capacity(alloc, self.len())?;
        for place in 0..self.len() {
            entries.push(self.at(place))?;
        }
        Ok(entries)
    }
}
