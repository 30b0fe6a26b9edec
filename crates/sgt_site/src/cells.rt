//! The cells of a site.

ghost use Rattle.std.specs.Prelude.{◌≡◌, ◌↔◌, ◌+◌, ◌<◌, ◌≤◌, [], Some, length, map, slice_get, vec_len, vec_capacity, All, Contains, IsTrue, IfOk, IfSome, IfNone, OnErr};
ghost use Rattle.std.specs.Ordering.{nat_cmp};
ghost use Rattle.std.specs.Cmp.Lexicographic.{slice_cmp};
ghost use Rattle.sgt_names.specs.Ordered.{IsAt};
ghost use Rattle.sgt_site.specs.private.Cells.{Contents, CellsRise, HasItem, values_of, versions_of, IsFresh, ItemsRise, HasSeen, IsThere, IsTouched, touch_in, AreChanged, ChangesAt, SameButRoom, HasPlace, IsNoted, NotesItem};

use crate::cell::{Cell, Install};
use sgt_names::{Holding, Item, Seen, Touch, Tx};
use std::alloc::{AllocError, Global};
use std::cmp::Ordering;
use std::marker::Model;

/// The cells of a site, by rising name.
#[derive(Drop)]
pub(crate) struct Cells {
    cells: Vec<Cell>,
    // where the cell of an item may be, by a hash of its name
    hints: Vec<u16>,
    // the version of each item, side by side
    versions: Vec<u64>,
}

// How many hints there are for each item.
const HINTS_EACH: usize = 8;

// A hint of no item.
const NONE: u16 = u16::MAX;

impl Model for Cells {
    ghost use Rattle.std.specs.Prelude.{List};
    ghost use Rattle.sgt_site.specs.private.Cells.{Contents, AreCells};

    ghost Value = { List Contents };

    ghost view = { λ c. c.cells.items };

    ghost invariant = { λ c. AreCells c.cells.items c.versions.items };
}

impl Cells {
    ghost use Rattle.std.specs.Prelude.{◌≡◌, ◌↔◌, ◌<◌, [], length, Some, slice_get, All, IsTrue, IfOk, OnOk, OnErr, IfSome, IfNone};
    ghost use Rattle.std.specs.Ordering.{nat_cmp};
    ghost use Rattle.std.specs.Cmp.Lexicographic.{slice_cmp};
    ghost use Rattle.sgt_names.specs.Ordered.{IsRisingBy, IsAt};
    ghost use Rattle.sgt_names.specs.declared.draft.Seen.{Seen as Answer};
    ghost use Rattle.sgt_site.specs.private.Cells.{Contents, CellsRise, HasItem, InCells, values_of, versions_of, IsFresh, IsAnswering, AnswersAt, ItemsRise, IsThere, IsTouched, touch_in, AreChanged, SameButRoom, IsNoted};

    /// Cells of these items, which nobody has written or read.
    pub(crate) fn new(alloc: Global, items: &[Holding]) -> Result<Cells, AllocError>
        requires { IsRisingBy (λ h. h.item) (slice_cmp nat_cmp) items.now }
        ensures items { IfOk result (λ cells. values_of cells ≡ items.now) }
        ensures fresh { IfOk result (All IsFresh) }
    {
        let mut cells = Vec::new(alloc);
        cells.reserve(items.len())?;
        add_cells(alloc, &mut cells, items);
        let hints = hints_of(alloc, items)?;
        let versions = versions_in(alloc, cells.as_slice())?;
        Ok(Cells {
            cells,
            hints,
            versions,
        })
    }

    pub(crate) fn as_slice(&self) -> &[Cell]
        ensures cells { result.now ≡ self.now }
        ensures rising { CellsRise self.now }
    {
        self.cells.as_slice()
    }

    /// The version of each item.
    pub(crate) fn versions(&self) -> &[u64]
        ensures { result.now ≡ versions_of self.now }
    {
        self.versions.as_slice()
    }

    /// Where the item is.
    pub(crate) fn find(&self, item: Item) -> Option<usize>
        ensures found { IfSome result (IsAt (λ c. c.item) self.now item) }
        ensures absent { IfNone result (HasItem self.now item → ⊥) }
    {
        search(self.cells.as_slice(), self.hints.as_slice(), &item)
    }

    pub(crate) fn has(&self, item: Item) -> bool
        ensures { IsTrue result ↔ HasItem self.now item }
    {
        self.find(item).is_some()
    }

    /// What the transaction's read of the item answered, if it has read it.
    pub(crate) fn seen_by(&self, tx: Tx, item: Item) -> Option<Seen>
        ensures { (seen : Answer) → (result ≡ Some seen) ↔ InCells self.now tx item seen }
    {
        match self.find(item) {
            Some(at) => self.cells[at].seen_by(tx),
            None => None,
        }
    }

    /// Answers a transaction that has not read the item of this cell, and keeps the answer at this place, if it goes
    /// there.
    #[inline(always)]
    pub(crate) fn answer(&mut self, at: usize, tx: Tx, place: usize) -> Result<Seen, AllocError>
        requires within { at < length self.old }
        requires first { (c : Contents) → slice_get self.old at ≡ Some c → IsAnswering c.readings tx
            → ⊥ }
        ensures ok { IfOk result (λ seen. AnswersAt self.old self.new at tx seen) }
        ensures err { OnErr result (self.new ≡ self.old) }
    {
        self.cells[at].answer(tx, place)
    }

    /// Makes room in the cells of the items that are touched, if all of them are there and each kept read is the
    /// transaction's. Finds each item once.
    pub(crate) fn prepare(&mut self, tx: Tx, part: &[Touch]) -> bool
        ensures same { AreChanged SameButRoom self.old self.new }
        ensures there { IsTrue result → All (IsThere self.old tx) part.now }
        ensures room { IsTrue result
            → All (λ c. IsTouched part.now c.item → 0 < c.has_room) self.new }
    {
        prepare_all(&mut self.cells, self.hints.as_slice(), tx, part)
    }

    /// Notes a commit in the cells of the items that it touches, each once.
    pub(crate) fn note(&mut self, by: &Install, part: &[Touch])
        requires once { ItemsRise part.now }
        requires room { All (λ c. IsTouched part.now c.item → 0 < c.has_room) self.old }
        ensures { AreChanged
            (λ c d. IsNoted by.now (touch_in part.now c.item) c d) self.old self.new }
    {
        let versions = self.versions.as_mut_slice();
        note_all(&mut self.cells, versions, self.hints.as_slice(), by, part)
    }
}

fn add_cells(alloc: Global, cells: &mut Vec<Cell>, items: &[Holding])
    requires empty { cells.old.items ≡ [] }
    requires room { vec_len cells.old + length items.now ≤ vec_capacity cells.old }
    ensures items { values_of cells.new.items ≡ items.now }
    ensures fresh { All IsFresh cells.new.items }
{
    for holding in items {
        cells.push_reserved(Cell::new(alloc, *holding));
    }
}

fn versions_in(alloc: Global, cells: &[Cell]) -> Result<Vec<u64>, AllocError>
    ensures { IfOk result (λ versions. versions.items ≡ versions_of cells.now) }
{
    cells.iter().map(Cell::version).collect(alloc)
}

// Which of so many hints is the item's.
#[inline(always)]
fn slot_of(item: &Item, slots: usize) -> usize {
    let spread = item.key().wrapping_mul(0x9e37_79b9_7f4a_7c15);
    ((spread >> 32).wrapping_mul(slots as u64) >> 32) as usize
}

// The hint in this slot.
#[inline(always)]
fn hint_at(hints: &[u16], slot: usize) -> usize {
    match hints.get(slot) {
        Some(hint) => *hint as usize,
        None => NONE as usize,
    }
}

// Hints this place for an item: in the item's slot, or in the one beside it where that is taken.
fn set_hint(hints: &mut [u16], item: &Item, place: usize) {
    let slot = slot_of(item, hints.len());
    let own = hint_at(hints, slot) == NONE as usize;
    if let Some(hint) = hints.get_mut(if own { slot } else { slot ^ 1 }) {
        if let Ok(short) = u16::try_from(place) {
            *hint = short;
        }
    }
}

// The hints for these items, each at its place. Nothing need be known of them.
fn hints_of(alloc: Global, items: &[Holding]) -> Result<Vec<u16>, AllocError> {
    let mut hints = vec![in alloc; NONE; items.len().saturating_mul(HINTS_EACH)]?;
    for place in 0..items.len() {
        set_hint(hints.as_mut_slice(), &items[place].item, place);
    }
    Ok(hints)
}

#[inline(always)]
fn is_of(cell: &Cell, item: &Item) -> bool
    ensures { IsTrue result ↔ (cell.now.item ≡ item.now) }
{
    cell.item() == *item
}

// Whether the item is at this place.
#[inline(always)]
fn is_at(cells: &[Cell], place: usize, item: &Item) -> bool
    ensures { IsTrue result
        → (c : Contents) × (slice_get cells.now place ≡ Some c) × (c.item ≡ item.now) }
{
    match cells.get(place) {
        Some(cell) => is_of(cell, item),
        None => false,
    }
}

// Where the item is. The hints are tried first.
#[inline(always)]
fn search(cells: &[Cell], hints: &[u16], item: &Item) -> Option<usize>
    requires { CellsRise cells.now }
    ensures found { IfSome result (IsAt (λ c. c.item) cells.now item.now) }
    ensures absent { IfNone result (HasItem cells.now item.now → ⊥) }
{
    let slot = slot_of(item, hints.len());
    let hint = hint_at(hints, slot);
    if is_at(cells, hint, item) {
        return Some(hint);
    }
    search_on(cells, hints, slot ^ 1, item)
}

// Where the item is. The hint in this slot is tried first.
#[inline(never)]
fn search_on(cells: &[Cell], hints: &[u16], slot: usize, item: &Item) -> Option<usize>
    requires { CellsRise cells.now }
    ensures found { IfSome result (IsAt (λ c. c.item) cells.now item.now) }
    ensures absent { IfNone result (HasItem cells.now item.now → ⊥) }
{
    let hint = hint_at(hints, slot);
    if is_at(cells, hint, item) {
        return Some(hint);
    }
    match search_all(cells, *item) {
        Ok(at) => Some(at),
        Err(_) => None,
    }
}

// Where the item is, or where it would go, by a binary search.
#[inline(never)]
fn search_all(cells: &[Cell], item: Item) -> Result<usize, usize>
    requires { CellsRise cells.now }
    ensures found { IfOk result (IsAt (λ c. c.item) cells.now item) }
    ensures absent { OnErr result (HasItem cells.now item → ⊥) }
{
    cells.binary_search_by(|c| order(c, &item))
}

fn order(cell: &Cell, item: &Item) -> Ordering
    ensures { result ≡ slice_cmp nat_cmp cell.now.item item.now }
{
    cell.item().cmp(item)
}

// Makes room in the cells of the items, if all of them are there and each kept read is the transaction's.
fn prepare_all(cells: &mut Vec<Cell>, hints: &[u16], tx: Tx, part: &[Touch]) -> bool
    requires { CellsRise cells.old.items }
    ensures same { AreChanged SameButRoom cells.old.items cells.new.items }
    ensures there { IsTrue result → All (IsThere cells.old.items tx) part.now }
    ensures room { IsTrue result
        → All (λ c. IsTouched part.now c.item → 0 < c.has_room) cells.new.items }
{
    for t in part {
        if !prepare_for(cells, hints, tx, t) {
            return false;
        }
    }
    true
}

// Makes room in the cell of the item, if there is one and the kept read is the transaction's.
fn prepare_for(cells: &mut Vec<Cell>, hints: &[u16], tx: Tx, touch: &Touch) -> bool
    requires { CellsRise cells.old.items }
    ensures same { AreChanged SameButRoom cells.old.items cells.new.items }
    ensures there { IsTrue result → IsThere cells.old.items tx touch.now }
    ensures room { IsTrue result
        → All (λ c. c.item ≡ touch.now.item → 0 < c.has_room) cells.new.items }
{
    match search(cells.as_slice(), hints, &touch.item) {
        Some(at) => prepare_at(cells, at, tx, touch),
        None => false,
    }
}

fn prepare_at(cells: &mut Vec<Cell>, at: usize, tx: Tx, touch: &Touch) -> bool
    requires { at < length cells.old.items }
    ensures same { ChangesAt SameButRoom at cells.old.items cells.new.items }
    ensures seen { IsTrue result → (c : Contents) → slice_get cells.old.items at ≡ Some c
        → HasSeen tx touch.now c }
    ensures room { IsTrue result → ChangesAt HasPlace at cells.old.items cells.new.items }
{
    prepare(&mut cells[at], tx, touch)
}

fn prepare(cell: &mut Cell, tx: Tx, touch: &Touch) -> bool
    ensures same { SameButRoom cell.old cell.new }
    ensures seen { IsTrue result → HasSeen tx touch.now cell.old }
    ensures room { IsTrue result → HasPlace cell.old cell.new }
{
    is_seen(cell, tx, touch) && cell.reserve().is_ok()
}

// Whether the kept read, if there is one, is the transaction's.
fn is_seen(cell: &Cell, tx: Tx, touch: &Touch) -> bool
    ensures { IsTrue result ↔ HasSeen tx touch.now cell.now }
{
    match touch.seen {
        Some(seen) => is_same(cell.seen_by(tx), seen),
        None => true,
    }
}

// Whether this is what the transaction was answered.
pub(crate) fn is_same(there: Option<Seen>, seen: Seen) -> bool
    ensures { IsTrue result ↔ (there ≡ Some seen) }
{
    there == Some(seen)
}

// Notes a commit in the cells of the items that it touches, one after another.
fn note_all(
    cells: &mut Vec<Cell>,
    versions: &mut [u64],
    hints: &[u16],
    by: &Install,
    part: &[Touch],
)
    requires rising { CellsRise cells.old.items }
    requires once { ItemsRise part.now }
    requires room { All (λ c. IsTouched part.now c.item → 0 < c.has_room) cells.old.items }
    requires versions { versions.old ≡ versions_of cells.old.items }
    ensures noted { AreChanged
        (λ c d. IsNoted by.now (touch_in part.now c.item) c d) cells.old.items cells.new.items }
    ensures versions { versions.new ≡ versions_of cells.new.items }
{
    for t in part {
        note_in(cells, versions, hints, by, t);
    }
}

// Notes a commit that touches an item in the item's cell, if there is one.
fn note_in(cells: &mut Vec<Cell>, versions: &mut [u64], hints: &[u16], by: &Install, touch: &Touch)
    requires rising { CellsRise cells.old.items }
    requires room { All (λ c. c.item ≡ touch.now.item → 0 < c.has_room) cells.old.items }
    requires versions { versions.old ≡ versions_of cells.old.items }
    ensures noted { AreChanged (NotesItem by.now touch.now) cells.old.items cells.new.items }
    ensures versions { versions.new ≡ versions_of cells.new.items }
{
    match search(cells.as_slice(), hints, &touch.item) {
        Some(at) => note_at(cells, versions, at, by, touch),
        None => {}
    }
}

fn note_at(cells: &mut Vec<Cell>, versions: &mut [u64], at: usize, by: &Install, touch: &Touch)
    requires within { at < length cells.old.items }
    requires room { (c : Contents) → slice_get cells.old.items at ≡ Some c → 0 < c.has_room }
    requires versions { versions.old ≡ versions_of cells.old.items }
    ensures noted { ChangesAt (IsNoted by.now (Some touch.now)) at cells.old.items cells.new.items }
    ensures versions { versions.new ≡ versions_of cells.new.items }
{
    cells[at].note(by, touch);
    versions[at] = cells[at].version();
}
