//! The entries of a site's log, each in 16 bytes.

ghost use Rattle.std.specs.Prelude.{◌≡◌, ◌<◌, ◌≤◌, IfOk};
ghost use Rattle.std.specs.List.{list_any};
ghost use Rattle.sgt_names.specs.Limits.{max_items};
ghost use Rattle.sgt_names.specs.Log.{names};
ghost use Rattle.sgt_site.specs.private.Short.{adds_by, handle_in, whole};

use sgt_arena::Handle;
use sgt_compact_entry::{Act, CompactEntry, compact, entry_of};
use sgt_names::{Entry, Holding, Item, Tx, Value};
use std::alloc::{AllocError, Global};
use std::marker::Model;

/// A `CompactEntry` in 16 bytes. A commit's value is the handle that was given for it.
#[derive(Clone, Copy)]
pub(crate) struct ShortEntry {
    pub(crate) value: Value,
    pub(crate) tx: Tx,
    pub(crate) item: u16,
    pub(crate) act: Act,
}

/// The entries of a site's log, the oldest first, and for each commit the handle that was given. An entry takes 16
/// bytes, where an `Entry` takes 32: an item is told by its place among those of the site.
#[derive(Drop)]
pub struct EntryLog {
    items: Vec<Item>,
    entries: Vec<ShortEntry>,
}

impl Model for EntryLog {
    ghost use Rattle.std.specs.Prelude.{◌-◌, ◌≤◌, length, map, All, vec_len, vec_capacity};
    ghost use Rattle.std.specs.List.{filter_map};
    ghost use Rattle.sgt_names.specs.Limits.{max_items};
    ghost use Rattle.sgt_site.specs.State.{LogState};
    ghost use Rattle.sgt_site.specs.private.Short.{IsMeant, install_in, meant};

    ghost Value = { LogState };

    ghost view = { λ s. record {
      items = s.items.items;
      entries = map (meant s.items.items) s.entries.items;
      installed = filter_map install_in s.entries.items;
      spare = vec_capacity s.entries - vec_len s.entries;
    } };

    ghost invariant = { λ s. (length s.items.items ≤ max_items)
        × All (IsMeant s.items.items) s.entries.items };
}

impl EntryLog {
    ghost use Rattle.std.specs.Prelude.{◌≡◌, ◌-◌, ◌++◌, ◌∷◌, [], ◌<◌, ◌≤◌, Some, None, length, slice_get, IsTrue, IfOk};
    ghost use Rattle.std.specs.List.{list_any};
    ghost use Rattle.sgt_names.specs.Limits.{max_items};
    ghost use Rattle.sgt_names.specs.Log.{names};
    ghost use Rattle.sgt_names.specs.Entry.{item_of, is_increment};
    ghost use Rattle.sgt_names.specs.declared.entry.Entry.TheVariants.{Commit as CommitEntry};
    ghost use Rattle.sgt_site.specs.State.{committed_in};
    ghost use Rattle.sgt_site.specs.private.Short.{IsPlaced};

    /// A log of a site with these items, without entries.
    pub(crate) fn new(alloc: Global, items: &[Holding]) -> Result<EntryLog, AllocError>
        requires { length items.now ≤ max_items }
        ensures items { IfOk result (λ log. log.items ≡ names items.now) }
        ensures entries { IfOk result (λ log. log.entries ≡ []) }
        ensures installed { IfOk result (λ log. log.installed ≡ []) }
    {
        Ok(EntryLog {
            items: names_of(alloc, items)?,
            entries: Vec::new(alloc),
        })
    }

    /// Whether room for so many more entries was had. Where it was there, no memory is taken.
    pub(crate) fn make_room(&mut self, more: usize) -> bool
        ensures items { self.new.items ≡ self.old.items }
        ensures entries { self.new.entries ≡ self.old.entries }
        ensures installed { self.new.installed ≡ self.old.installed }
        ensures room { IsTrue result → more ≤ self.new.spare }
        ensures spare { self.old.spare ≤ self.new.spare }
    {
        self.entries.reserve(more).is_ok()
    }

    /// One more entry, whose item is at this place among those of the site.
    #[inline(always)]
    pub(crate) fn push(&mut self, entry: Entry, place: usize)
        requires room { 0 < self.old.spare }
        requires placed { IsPlaced self.old.items entry place }
        ensures { self.new ≡ record self.old {
          entries = self.old.entries ++ entry ∷ [];
          spare = self.old.spare - 1;
        } }
    {
        self.entries
            .push_reserved(shortened(compact(&entry, place)));
    }

    /// The end of a transaction that isn't committed.
    pub(crate) fn push_end(&mut self, end: Entry)
        requires room { 0 < self.old.spare }
        requires end { item_of end ≡ None }
        requires uncommitted { committed_in end ≡ None }
        ensures { self.new ≡ record self.old {
          entries = self.old.entries ++ end ∷ [];
          spare = self.old.spare - 1;
        } }
    {
        self.entries.push_reserved(shortened(compact(&end, 0)));
    }

    /// The commit of a transaction, for which this handle was given.
    pub(crate) fn push_commit(&mut self, tx: Tx, handle: Handle)
        requires { 0 < self.old.spare }
        ensures { self.new ≡ record self.old {
          entries = self.old.entries ++ CommitEntry tx ∷ [];
          installed = self.old.installed ++ record { tx = tx; handle = handle } ∷ [];
          spare = self.old.spare - 1;
        } }
    {
        self.entries.push_reserved(ShortEntry {
            value: packed(handle),
            tx,
            item: 0,
            act: Act::Commit,
        });
    }

    /// How many entries there are.
    pub fn len(&self) -> usize
        ensures { result ≡ length self.now.entries }
    {
        self.entries.len()
    }

    /// The entry at a place.
    #[inline(always)]
    pub fn at(&self, place: usize) -> Entry
        requires { place < length self.now.entries }
        ensures { slice_get self.now.entries place ≡ Some result }
    {
        entry_of(self.items.as_slice(), &restored(&self.entries[place]))
    }

    /// Whether an entry is an increment, or asks for one.
    pub fn any_increment(&self) -> bool
        ensures { result ≡ list_any is_increment self.now.entries }
    {
        any_add(self.entries.as_slice())
    }

    /// The entries, each in 32 bytes. Err: memory ran out.
    pub fn to_vec(&self, alloc: Global) -> Result<Vec<Entry>, AllocError>
        ensures { IfOk result (λ entries. entries.items ≡ self.now.entries) }
    {
        let mut entries = Vec::with_capacity(alloc, self.len())?;
        for place in 0..self.len() {
            entries.push(self.at(place))?;
        }
        Ok(entries)
    }
}

fn names_of(alloc: Global, items: &[Holding]) -> Result<Vec<Item>, AllocError>
    ensures { IfOk result (λ own. own.items ≡ names items.now) }
{
    items.iter().map(item_in).collect(alloc)
}

fn item_in(holding: &Holding) -> Item
    ensures { result ≡ holding.now.item }
{
    holding.item
}

// Whether one of these adds to its item, or asks to.
fn any_add(entries: &[ShortEntry]) -> bool
    ensures { result ≡ list_any (λ e. adds_by e.act) entries.now }
{
    entries.iter().any(|entry| adds(entry.act))
}

fn adds(act: Act) -> bool
    ensures { result ≡ adds_by act }
{
    matches!(act, Act::Add | Act::WantAdd)
}

#[inline(always)]
fn shortened(entry: CompactEntry) -> ShortEntry
    requires { entry.item < max_items }
    ensures { whole result ≡ entry }
{
    let CompactEntry {
        value,
        item,
        tx,
        act,
    } = entry;
    ShortEntry {
        value,
        tx,
        item: item as u16,
        act,
    }
}

#[inline(always)]
fn restored(entry: &ShortEntry) -> CompactEntry
    ensures { result ≡ whole entry.now }
{
    CompactEntry {
        value: entry.value,
        item: entry.item as usize,
        tx: entry.tx,
        act: entry.act,
    }
}

// The handle as one number.
fn packed(handle: Handle) -> u64
    ensures { handle_in result ≡ handle }
{
    u64::from(handle.generation) * 4_294_967_296 + u64::from(handle.index)
}
