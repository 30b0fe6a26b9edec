//! One item of the site whose section is open.

ghost use Rattle.std.specs.Prelude.{◌≡◌, ◌≢◌, ◌↔◌, ◌∷◌, ◌++◌, [], List, IsTrue, IfSome, IfNone, Some, All, AllPairs, slice_get};
ghost use Rattle.sgt_names.specs.Entry.{tx_of, item_of};
ghost use Rattle.sgt_names.specs.Log.{value_at, names};
ghost use Rattle.sgt_names.specs.declared.entry.Entry.{Entry};
ghost use Rattle.sgt_names.specs.declared.entry.Holding.{Holding};
ghost use Rattle.sgt_bundle.specs.Certificate.{IsDecidedOnce, AreRanks, ranks};
ghost use Rattle.sgt_bundle.specs.Valid.{RiseInRank};
ghost use Rattle.sgt_bundle.specs.declared.certificate.Decision.{Decision};
ghost use Rattle.sgt_audit_cells.specs.Cells.{IsCell, AreCells, IsRankOf};
ghost use Rattle.sgt_audit_cells.specs.private.Noted.{IsPlaceOf, IsUpTo, Passes, raised, noted};
ghost use Rattle.sgt_audit_cells.specs.declared.cell.Cell.{Cell};

use sgt_names::{Entry, Item, Value};

/// What is kept of an item: its value, and the greatest rank of a committed transaction that read it, that wrote it,
/// and that incremented it.
#[derive(Clone, Copy)]
pub struct Cell {
    pub name: Item,
    pub value: Value,
    pub reader: Option<u32>,
    pub writer: Option<u32>,
    pub adder: Option<u32>,
}

/// Whether the greatest rank is no greater than this one.
#[inline(always)]
fn is_up_to(top: Option<u32>, rank: u32) -> bool
    ensures { IsTrue result ↔ IsUpTo rank top }
{
    match top {
        Some(top) => top <= rank,
        None => true,
    }
}

#[inline(always)]
fn passes(cell: &Cell, entry: &Entry, rank: Option<u32>) -> bool
    ensures { IsTrue result ↔ Passes cell.now entry.now rank }
{
    let Some(rank) = rank else {
        return true;
    };
    match entry {
        Entry::Read { .. } => is_up_to(cell.writer, rank) && is_up_to(cell.adder, rank),
        Entry::Write { .. } | Entry::Want { .. } => {
            is_up_to(cell.reader, rank) && is_up_to(cell.writer, rank) && is_up_to(cell.adder, rank)
        }
        Entry::Add { .. } | Entry::WantAdd { .. } => {
            is_up_to(cell.reader, rank) && is_up_to(cell.writer, rank)
        }
        Entry::Commit { .. } | Entry::Refuse { .. } | Entry::Withdraw { .. } => true,
    }
}

/// Whether the entry conflicts with no entry before it of a committed transaction of greater rank, if its own has
/// this one.
#[inline(always)]
pub(crate) fn is_in_rank(cell: &Cell, entry: &Entry, rank: Option<u32>) -> bool
    ensures { (ds : List Decision) (items : List Holding) (entries : List Entry) → IsDecidedOnce ds
        → AreRanks (ranks ds)
        → IsCell ds items entries cell.now → item_of entry.now ≡ Some cell.now.name → IsRankOf ds (tx_of entry.now) rank
        → (IsTrue result ↔ All (λ f. RiseInRank ds f entry.now) entries) }
{
    passes(cell, entry, rank)
}

/// Whether the item has this value.
#[inline(always)]
pub(crate) fn has_value(cell: &Cell, value: Value) -> bool
    ensures { (ds : List Decision) (items : List Holding) (entries : List Entry) → IsCell ds items entries cell.now
        → (IsTrue result ↔ (value_at items entries cell.now.name ≡ Some value)) }
{
    cell.value == value
}

#[inline(always)]
fn raise(top: Option<u32>, rank: Option<u32>) -> Option<u32>
    ensures { result ≡ raised top rank }
{
    match rank {
        Some(rank) => match top {
            Some(top) => Some(top.max(rank)),
            None => Some(rank),
        },
        None => top,
    }
}

/// One more entry, on the cell's item.
#[inline(always)]
fn note(cell: &mut Cell, entry: &Entry, rank: Option<u32>)
    ensures { cell.new ≡ noted cell.old entry.now rank }
{
    match *entry {
        Entry::Read { .. } => cell.reader = raise(cell.reader, rank),
        Entry::Write { value, .. } => {
            cell.value = value;
            cell.writer = raise(cell.writer, rank);
        }
        Entry::Want { .. } => cell.writer = raise(cell.writer, rank),
        Entry::Add { value, .. } => {
            cell.value = cell.value.wrapping_add(value);
            cell.adder = raise(cell.adder, rank);
        }
        Entry::WantAdd { .. } => cell.adder = raise(cell.adder, rank),
        Entry::Commit { .. } | Entry::Refuse { .. } | Entry::Withdraw { .. } => (),
    }
}

/// The place, where it is that of the item's cell.
#[inline(always)]
pub(crate) fn checked(cells: &[Cell], place: usize, item: &Item) -> Option<usize>
    ensures { IfSome result (λ n. (c : Cell) × (slice_get cells.now n ≡ Some c) × (c.name ≡ item.now)) }
{
    let cell = cells.get(place)?;
    if cell.name == *item {
        Some(place)
    } else {
        None
    }
}

/// The place of the item's cell, where no hint led to it: by halves, and one by one where that finds none, since
/// nothing need be known of the order. A name that is not listed costs a look at each cell.
#[inline(never)]
pub(crate) fn search(cells: &[Cell], item: &Item) -> Option<usize>
    ensures some { IfSome result (λ n. (c : Cell) × (slice_get cells.now n ≡ Some c) × (c.name ≡ item.now)) }
    ensures none { IfNone result (All (λ c. c.name ≢ item.now) cells.now) }
{
    if let Ok(place) = cells.binary_search_by(|cell| cell.name.cmp(item)) {
        if let Some(place) = checked(cells, place, item) {
            return Some(place);
        }
    }
    cells.iter().position(
        |cell: &Cell| -> bool
            ensures { IsTrue result ↔ (cell.now.name ≡ item.entry.now) }
        { cell.name == *item },
    )
}

/// One more entry, on the item at this place, if it has one.
#[inline(always)]
pub(crate) fn enter(cells: &mut [Cell], place: Option<usize>, entry: &Entry, rank: Option<u32>)
    ensures { (ds : List Decision) (items : List Holding) (entries : List Entry) → IsDecidedOnce ds
        → AllPairs (λ x y. x ≢ y) (names items) → AreCells ds items entries cells.old
        → IsPlaceOf (names items) entry.now place
        → IsRankOf ds (tx_of entry.now) rank → AreCells ds items (entries ++ entry.now ∷ []) cells.new }
{
    if let Some(place) = place {
        if place < cells.len() {
            note(&mut cells[place], entry, rank);
        }
    }
}
