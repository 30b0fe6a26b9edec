//! Whether an edge is a conflict of a log.

ghost use Rattle.std.specs.Prelude.{◌≡◌, ◌↔◌, ◌<◌, ℕ, List, IsTrue, Some, length, slice_get};
ghost use Rattle.std.specs.Ordering.{nat_cmp};
ghost use Rattle.std.specs.Cmp.Lexicographic.{slice_cmp};
ghost use Rattle.sgt_names.specs.Ordered.{IsRisingBy};
ghost use Rattle.sgt_names.specs.Entry.{Clash};
ghost use Rattle.sgt_names.specs.Log.{Conflicts};
ghost use Rattle.sgt_names.specs.declared.entry.Entry.{Entry as AnEntry};
ghost use Rattle.sgt_service_settle.specs.declared.acts.Act.{Act as AnAct};
ghost use Rattle.sgt_service_settle.specs.private.Index.{IsLoggedBy};
ghost use Rattle.sgt_service_settle.specs.private.Acts.{AreKnown, AreActs, AreByActor, AreBetween};

use crate::acts::{Act, place_near};
use crate::names::tx_under;
use crate::points::{Near, Nears, acts_from, start_of};
use sgt_edges::Edge;
use sgt_names::{Holding, Item, Kind, Label, Tx};

// Whether one of these acts, behind the first, is in such a conflict with it.
fn is_followed(first: &Act, acts: &[Act], kind: Kind, item: &Item) -> bool
    ensures { IsTrue result
        ↔ ((m : ℕ) × (b : AnAct) × (slice_get acts.now m ≡ Some b) × (first.now.place < b.place)
        × Clash kind item.now first.now.entry b.entry) }
{
    for second in acts {
        if first.place < second.place && first.entry.clashes(kind, item, &second.entry) {
            return true;
        }
    }
    false
}

// Whether one of these acts precedes and conflicts with one of the others.
fn are_between(from: &[Act], to: &[Act], kind: Kind, item: &Item) -> bool
    ensures { IsTrue result ↔ AreBetween from.now to.now kind item.now }
{
    for first in from {
        if is_followed(first, to, kind, item) {
            return true;
        }
    }
    false
}

// Whether an entry of one transaction precedes and conflicts with one of the other.
fn is_between(
    items: &[Holding],
    acts: &[Vec<Act>],
    near: &mut Nears,
    from: Tx,
    to: Tx,
    label: &Label,
) -> bool
    requires rising { IsRisingBy (λ h. h.item) (slice_cmp nat_cmp) items.now }
    requires long { length acts.now ≡ length items.now }
    requires near { length near.old.rows.items ≡ length items.now }
    requires sorted { AreByActor acts.now }
    ensures near { length near.new.rows.items ≡ length near.old.rows.items }
    ensures told { (log : List AnEntry) → AreKnown items.now log → AreActs items.now log acts.now
        → IsTrue result ↔ Conflicts log label.now.kind label.now.item from to }
{
    if from == to {
        return false;
    }
    let Some(at) = place_near(items, near.item, label.item) else {
        return false;
    };
    let row = acts[at].as_slice();
    let last = near.rows[at];
    let first = start_of(row, from, last.from);
    let second = start_of(row, to, last.to);
    near.item = at;
    near.rows[at] = Near {
        from: first,
        to: second,
    };
    are_between(
        acts_from(row, from, first),
        acts_from(row, to, second),
        label.kind,
        &label.item,
    )
}

/// Whether the edge is a conflict of the log with its label, and its ends have names. The cost is a search of the
/// items, and of what was done to its item: a few steps where that stands near what the last edge on the item asked
/// for, else a binary search.
pub(crate) fn is_logged(
    windows: &[Vec<Tx>],
    items: &[Holding],
    acts: &[Vec<Act>],
    near: &mut Nears,
    edge: &Edge,
) -> bool
    requires rising { IsRisingBy (λ h. h.item) (slice_cmp nat_cmp) items.now }
    requires long { length acts.now ≡ length items.now }
    requires near { length near.old.rows.items ≡ length items.now }
    requires sorted { AreByActor acts.now }
    ensures near { length near.new.rows.items ≡ length near.old.rows.items }
    ensures told { (log : List AnEntry) → AreKnown items.now log → AreActs items.now log acts.now
        → IsTrue result ↔ IsLoggedBy windows.now log edge.now }
{
    let Some(from) = tx_under(windows, edge.from) else {
        return false;
    };
    let Some(to) = tx_under(windows, edge.to) else {
        return false;
    };
    is_between(items, acts, near, from, to, &edge.label)
}
