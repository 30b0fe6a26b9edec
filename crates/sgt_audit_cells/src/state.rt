//! What is kept of the site whose section is open, in place of its entries.

ghost use Rattle.std.specs.Prelude.{◌≡◌, ◌≢◌, ◌↔◌, ◌∷◌, ◌++◌, ◌<◌, ◌+◌, [], ℕ, List, IsTrue, IfSome, IfNone, IfOk, OnOk, Some, None, All, AllPairs, Contains, length, slice_get, option_map};
ghost use Rattle.sgt_names.specs.Name.{Name};
ghost use Rattle.sgt_names.specs.Entry.{tx_of, item_of, IsEnd, Repeats};
ghost use Rattle.sgt_names.specs.Log.{names, value_at, AllEnded, Conflicts};
ghost use Rattle.sgt_names.specs.declared.entry.Entry.{Entry};
ghost use Rattle.sgt_names.specs.declared.entry.Holding.{Holding};
ghost use Rattle.std.specs.Option.{ForSome};
ghost use Rattle.sgt_bundle.specs.Certificate.{IsDecidedOnce, AreRanks, ranks};
ghost use Rattle.sgt_bundle.specs.Valid.{IsDecided, EndInOrder, RiseInRank};
ghost use Rattle.sgt_bundle.specs.declared.certificate.Decision.{Decision};
ghost use Rattle.sgt_audit_cells.specs.Cells.{AreCells, IsRankOf};
ghost use Rattle.sgt_audit_cells.specs.private.Noted.{IsPlaceOf, IsUpTo, raised};
ghost use Rattle.sgt_audit_cells.specs.Records.{AreActs};
ghost use Rattle.sgt_audit_decisions.specs.Decided.{Decides};
ghost use Rattle.sgt_audit_cells.specs.Tracks.{TracksOpen, IsReadyFor, IsNumberOf, IsPlaceAmong};

use crate::act::{done_by, item_in};
use crate::cell::{self, Cell};
use crate::record::live_after;
use crate::record_table::RecordTable;
use sgt_names::{Entry, Holding, Item, Kind, Value};
use std::alloc::{AllocError, Global};

/// How many hints there are.
const HINTS: usize = 8192;

/// What is kept of the site whose section is open: a cell for each item, a record for each decision's transaction with
/// how many entries there are, how many transactions have an entry there and no end, and the greatest number of a
/// decision that ended one there.
#[derive(Drop)]
pub struct SiteState {
    /// The number of the section, from 1.
    pub section: usize,
    pub cells: Vec<Cell>,
    /// Where the cell of an item may be, by a hash of its name.
    pub hints: Vec<u16>,
    pub records: RecordTable,
    pub live: usize,
    pub last_end: Option<usize>,
}

/// Where the hint for an item is.
#[inline(always)]
fn slot_of(item: &Item) -> usize {
    let spread = item.key().wrapping_mul(0x9e37_79b9_7f4a_7c15);
    (spread >> 51) as usize % HINTS
}

/// Hints this place for an item.
fn set_hint(hints: &mut [u16], item: &Item, place: usize) {
    if let Some(hint) = hints.get_mut(slot_of(item)) {
        if let Ok(short) = u16::try_from(place) {
            *hint = short;
        }
    }
}

/// The item without an entry.
fn fresh_cell(holding: &Holding) -> Cell
    ensures { result ≡ record {
      name = holding.now.item;
      value = holding.now.value;
      reader = None;
      writer =
          None;
      adder = None;
    } }
{
    Cell {
        name: holding.item,
        value: holding.value,
        reader: None,
        writer: None,
        adder: None,
    }
}

/// The greatest number of a decision that ended a transaction, after one more end, decided by this number.
#[inline(always)]
fn later_end(last: Option<usize>, number: usize) -> Option<usize>
    ensures { result ≡ raised last (Some number) }
{
    match last {
        Some(last) => Some(last.max(number)),
        None => Some(number),
    }
}

/// Takes in one more entry, decided by this number, if it is an end.
#[inline(always)]
fn note_end(last: &mut Option<usize>, entry: &Entry, number: usize)
    ensures end { IsEnd entry.now → last.new ≡ raised last.old (Some number) }
    ensures other { (IsEnd entry.now → ⊥) → last.new ≡ last.old }
{
    if entry.is_end() {
        *last = later_end(*last, number);
    }
}

/// Whether the greatest number is no greater than this one.
#[inline(always)]
fn is_up_to(last: Option<usize>, number: usize) -> bool
    ensures { IsTrue result ↔ IsUpTo number last }
{
    match last {
        Some(last) => last <= number,
        None => true,
    }
}

impl SiteState {
    /// Before the first section, for the transactions of so many decisions.
    pub fn new(alloc: Global, count: usize) -> Result<SiteState, AllocError>
        ensures { IfOk result (λ s. (ds : List Decision) → length ds ≡ count → IsReadyFor ds 1 s) }
    {
        Ok(SiteState {
            section: 0,
            cells: Vec::new(alloc),
            hints: vec![in alloc; 0u16; HINTS]?,
            records: RecordTable::new(alloc, count)?,
            live: 0,
            last_end: None,
        })
    }

    /// The section of this number begins.
    pub fn begin(&mut self, section: usize)
        ensures section { self.new.section ≡ section }
        ensures tracks { (ds : List Decision) → IsReadyFor ds section self.old → TracksOpen ds [] [] self.new }
    {
        self.section = section;
        self.cells.clear();
        self.records.clear();
        self.live = 0;
        self.last_end = None;
    }

    /// One more item, before any entry.
    pub fn list(&mut self, holding: &Holding) -> Result<(), AllocError>
        ensures section { self.new.section ≡ self.old.section }
        ensures tracks { OnOk result ((ds : List Decision) (items : List Holding)
            → All (λ x. x ≢ holding.now.item) (names items)
            → TracksOpen ds items [] self.old → TracksOpen ds (items ++ holding.now ∷ []) [] self.new) }
    {
        set_hint(self.hints.as_mut_slice(), &holding.item, self.cells.len());
        self.cells.push(fresh_cell(holding))?;
        Ok(())
    }

    /// The place of the item.
    #[inline(always)]
    pub fn place_of(&self, item: &Item) -> Option<usize>
        ensures some { IfSome result (λ place. (ds : List Decision) (items : List Holding) (entries : List Entry)
            → TracksOpen ds items entries self.now → slice_get (names items) place ≡ Some item.now) }
        ensures none { IfNone result ((ds : List Decision) (items : List Holding) (entries : List Entry)
            → TracksOpen ds items entries self.now → Contains (names items) item.now → ⊥) }
    {
        let hint = match self.hints.get(slot_of(item)) {
            Some(hint) => *hint as usize,
            None => 0,
        };
        let cells = self.cells.as_slice();
        match cell::checked(cells, hint, item) {
            Some(place) => Some(place),
            None => cell::search(cells, item),
        }
    }

    /// The place of the entry's item, if it has one that is listed.
    #[inline(always)]
    pub fn place_of_entry(&self, entry: &Entry) -> Option<usize>
        ensures { (ds : List Decision) (items : List Holding) (entries : List Entry)
            → TracksOpen ds items entries self.now
            → IsPlaceAmong (names items) entry.now result }
    {
        match item_in(entry) {
            Some(item) => self.place_of(&item),
            None => None,
        }
    }

    /// The same, where the hint of its item leads there or it has none.
    #[inline(always)]
    pub fn place_at_hand(&self, entry: &Entry) -> Option<Option<usize>>
        ensures { IfSome result (λ place. (ds : List Decision) (items : List Holding) (entries : List Entry)
            → TracksOpen ds items entries self.now → IsPlaceAmong (names items) entry.now place) }
    {
        let Some(item) = item_in(entry) else {
            return Some(None);
        };
        let hint = *self.hints.get(slot_of(&item))?;
        let place = cell::checked(self.cells.as_slice(), hint as usize, &item)?;
        Some(Some(place))
    }

    /// Whether one more entry, decided by this number, needs no memory. Nothing is proved of it: a wrong yes makes
    /// `enter_plain` answer want of memory, and a wrong no costs time.
    #[inline(always)]
    pub fn has_room(&self, number: usize) -> bool {
        self.records.has_room(number)
    }

    /// Whether the item at this place has this value.
    #[inline(always)]
    pub fn has_value(&self, place: usize, value: Value) -> bool
        ensures { (ds : List Decision) (items : List Holding) (entries : List Entry) (x : Name)
            → TracksOpen ds items entries self.now
            → slice_get (names items) place ≡ Some x → (IsTrue result ↔ (value_at items entries x ≡ Some value)) }
    {
        match self.cells.get(place) {
            Some(cell) => cell::has_value(cell, value),
            None => false,
        }
    }

    /// Whether the entry, on the item at this place, is not its transaction's second read of the item, nor its second
    /// change, made or asked for. The transaction is decided by this number, if it is.
    #[inline(always)]
    pub fn is_first(&self, place: usize, entry: &Entry, number: Option<usize>) -> bool
        ensures { (ds : List Decision) (items : List Holding) (entries : List Entry) (x : Name)
            → TracksOpen ds items entries self.now
            → slice_get (names items) place ≡ Some x → item_of entry.now ≡ Some x
            → IsNumberOf ds (tx_of entry.now) number
            → (IsTrue result ↔ All (λ f. (y : Name) → Repeats y f entry.now → ⊥) entries) }
    {
        let Some(number) = number else {
            return true;
        };
        self.records.is_first(number, place, entry)
    }

    /// Whether the entry, on the item at this place, conflicts with no entry before it of a committed transaction of
    /// greater rank, if its own is committed with this one.
    #[inline(always)]
    pub fn is_in_rank(&self, place: usize, entry: &Entry, rank: Option<u32>) -> bool
        ensures { (ds : List Decision) (items : List Holding) (entries : List Entry) (x : Name) → IsDecidedOnce ds
            → AreRanks (ranks ds)
            → TracksOpen ds items entries self.now → slice_get (names items) place ≡ Some x → item_of entry.now ≡ Some x
            → IsRankOf ds (tx_of entry.now) rank → (IsTrue result ↔ All (λ f. RiseInRank ds f entry.now) entries) }
    {
        if place < self.cells.len() {
            cell::is_in_rank(&self.cells[place], entry, rank)
        } else {
            false
        }
    }

    /// Whether the transaction, decided by this number, has no end yet.
    #[inline(always)]
    pub fn is_active(&self, number: usize) -> bool
        ensures { (ds : List Decision) (items : List Holding) (entries : List Entry) (tx : ℕ)
            → TracksOpen ds items entries self.now
            → Decides ds number tx → (IsTrue result ↔ All (λ f. IsEnd f → tx_of f ≢ tx) entries) }
    {
        !self.records.has_ended(number)
    }

    /// Whether no end before the entry, if it is one, was decided later. The entry is decided by this number.
    #[inline(always)]
    pub fn is_in_order(&self, entry: &Entry, number: usize) -> bool
        ensures { (ds : List Decision) (items : List Holding) (entries : List Entry) → IsDecidedOnce ds
            → TracksOpen ds items entries self.now → IsDecided ds entry.now number
            → (IsTrue result ↔ All (λ f. EndInOrder ds f entry.now) entries) }
    {
        !entry.is_end() || is_up_to(self.last_end, number)
    }

    /// Whether an entry of one transaction precedes and conflicts with one of another, as operations of this kind on
    /// the item. The two are decided by these numbers, if they are.
    pub fn have_conflict(
        &self,
        kind: Kind,
        item: &Item,
        from: Option<usize>,
        to: Option<usize>,
    ) -> bool
        ensures { (ds : List Decision) (items : List Holding) (entries : List Entry) (a b : ℕ)
            → TracksOpen ds items entries self.now
            → IsNumberOf ds a from → IsNumberOf ds b to → a ≢ b
            → (IsTrue result ↔ Conflicts entries kind item.now a b) }
    {
        let Some(first) = from else {
            return false;
        };
        let Some(second) = to else {
            return false;
        };
        match self.place_of(item) {
            Some(place) => self.records.have_clash((first, second), kind, place),
            None => false,
        }
    }

    /// Whether each transaction with an entry has an end.
    pub fn have_all_ended(&self) -> bool
        ensures { (ds : List Decision) (items : List Holding) (entries : List Entry)
            → TracksOpen ds items entries self.now
            → (IsTrue result ↔ AllEnded entries) }
    {
        self.live == 0
    }

    /// One more entry, as `enter` takes it, where it needs no memory (`has_room`). Where it does, the answer is an Err.
    #[inline(always)]
    pub fn enter_plain(
        &mut self,
        place: Option<usize>,
        entry: &Entry,
        number: usize,
        rank: Option<u32>,
    ) -> Result<(), AllocError>
        ensures section { self.new.section ≡ self.old.section }
        ensures tracks { OnOk result ((ds : List Decision) (items : List Holding) (entries : List Entry)
            → IsDecidedOnce ds
            → AllPairs (λ x y. x ≢ y) (names items) → ForSome (item_of entry.now) (Contains (names items))
            → IsPlaceAmong (names items) entry.now place → IsDecided ds entry.now number
            → IsRankOf ds (tx_of entry.now) rank
            → TracksOpen ds items entries self.old → TracksOpen ds items (entries ++ entry.now ∷ []) self.new) }
    {
        let done = done_by(place, entry)?;
        let turn = self.records.enter(number, done, entry.is_end())?;
        self.live = live_after(self.live, turn.comes, turn.leaves);
        cell::enter(self.cells.as_mut_slice(), place, entry, rank);
        note_end(&mut self.last_end, entry, number);
        Ok(())
    }

    /// One more entry, on the item at this place or an end, decided by this number, of a transaction that is
    /// committed with this rank or isn't.
    #[inline(never)]
    pub fn enter(
        &mut self,
        place: Option<usize>,
        entry: &Entry,
        number: usize,
        rank: Option<u32>,
    ) -> Result<(), AllocError>
        ensures section { self.new.section ≡ self.old.section }
        ensures tracks { OnOk result ((ds : List Decision) (items : List Holding) (entries : List Entry)
            → IsDecidedOnce ds
            → AllPairs (λ x y. x ≢ y) (names items) → ForSome (item_of entry.now) (Contains (names items))
            → IsPlaceAmong (names items) entry.now place → IsDecided ds entry.now number
            → IsRankOf ds (tx_of entry.now) rank
            → TracksOpen ds items entries self.old → TracksOpen ds items (entries ++ entry.now ∷ []) self.new) }
    {
        let plain = self.records.make_room(number)?;
        self.enter_plain(place, entry, number, rank)?;
        if plain {
            return Ok(());
        }
        self.records.keep_row(number)
    }
}
