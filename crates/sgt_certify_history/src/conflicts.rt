//! Conflicts of two transactions, in the order of sites, items and kinds.

use crate::history::{Act, History, Place};
use sgt_names::{Kind, Label};

/// A conflict, and the lines of its two entries.
#[derive(Clone, Copy, Debug)]
pub struct Conflict {
    pub label: Label,
    pub first: u32,
    pub second: u32,
}

/// The kind of conflict of two operations in this order, if they are in conflict.
pub fn kind_of(first: Act, second: Act) -> Option<Kind> {
    match (first, second) {
        (Act::Read, Act::Read) => None,
        (Act::Add, Act::Add) => None,
        (Act::Read, _) => Some(Kind::Rw),
        (_, Act::Read) => Some(Kind::Wr),
        (_, _) => Some(Kind::Ww),
    }
}

/// The place of a kind among the kinds: `rw`, `wr`, `ww`.
fn order_of(kind: Kind) -> u8 {
    match kind {
        Kind::Rw => 0,
        Kind::Wr => 1,
        Kind::Ww => 2,
    }
}

/// The conflict of two operations, if they are on one item and in conflict in this order.
fn conflict_of(history: &History, first: &Place, second: &Place) -> Option<Conflict> {
    if first.item != second.item || first.line >= second.line {
        return None;
    }
    let kind = kind_of(first.act, second.act)?;
    let named = history.items.get(usize::from(first.item))?;
    Some(Conflict {
        label: Label {
            site: named.site,
            item: named.item,
            kind,
        },
        first: first.line,
        second: second.line,
    })
}

/// The one of the lesser kind.
fn lesser(old: Option<Conflict>, new: Conflict) -> Conflict {
    match old {
        Some(old) if order_of(old.label.kind) <= order_of(new.label.kind) => old,
        _ => new,
    }
}

/// The places on the item among these, which rise by item.
fn on_item(places: &[Place], item: u16) -> &[Place] {
    let start = places.partition_point(|place| place.item < item);
    match places.get(start..) {
        Some(rest) => match rest.get(..2) {
            Some(two) => two,
            None => rest,
        },
        None => &[],
    }
}

/// The least conflict of the first transaction with the second, by site, item and kind.
pub fn least_conflict(history: &History, from: u32, to: u32) -> Option<Conflict> {
    if from == to {
        return None;
    }
    let others = history.places(to);
    let mut best: Option<Conflict> = None;
    let mut item = None;
    for first in history.places(from) {
        if item != Some(first.item) {
            if best.is_some() {
                return best;
            }
            item = Some(first.item);
        }
        for second in on_item(others, first.item) {
            if let Some(conflict) = conflict_of(history, first, second) {
                best = Some(lesser(best, conflict));
            }
        }
    }
    best
}
