//! What the entries of a site have of a step of a walk.

ghost use Rattle.std.specs.Prelude.{◌≡◌, ◌↔◌, All, Any, Contains, IfSome, IfNone, IsTrue, IsFalse};
ghost use Rattle.sgt_names.specs.Entry.{tx_of, Clash};
ghost use Rattle.sgt_names.specs.Log.{Conflicts};
ghost use Rattle.sgt_explain_lines.specs.Clashing.{InNoConflict};
ghost use Rattle.sgt_explain_lines.specs.Values.{entries_of};
ghost use Rattle.sgt_explain_steps.specs.Unmet.{Does, ShowsOwn, StepsTo, MeetsThere, ShowsOther};

use crate::told::ends_with_read;
use crate::unmet::Met;
use sgt_bundle::Step;
use sgt_explain_lines::Logged;
use sgt_names::{Entry, Item, Tx};

/// Whether the entry reads the item, or else changes it or asks to.
fn does(reads: bool, item: &Item, entry: &Entry) -> bool
    ensures { IsTrue result ↔ Does reads item.now entry.now }
{
    if reads {
        entry.reads(item)
    } else {
        entry.writes(item)
    }
}

/// Whether the entry is the transaction's, and reads or changes the item.
fn is_own(entry: &Entry, tx: Tx, item: &Item, reads: bool) -> bool
    ensures { IsTrue result ↔ (tx_of entry.now ≡ tx) × Does reads item.now entry.now }
{
    entry.tx() == tx && does(reads, item, entry)
}

/// The first of these entries that is the transaction's, and reads or changes the item.
pub fn own_in(entries: &[Logged], tx: Tx, item: &Item, reads: bool) -> Option<Logged>
    ensures { ShowsOwn entries.now tx reads item.now result }
{
    for logged in entries {
        if is_own(&logged.entry, tx, item, reads) {
            return Some(*logged);
        }
    }
    None
}

/// Whether the first entry is the transaction's, and in conflict with the second as the step says.
fn clashes(step: &Step, from: Tx, first: &Entry, second: &Entry) -> bool
    ensures { IsTrue result ↔ StepsTo from step.now first.now second.now }
{
    first.tx() == from && first.clashes(step.label.kind, &step.label.item, second)
}

/// Whether the second entry is of the transaction that the step leads to, and one of these is in conflict with it as
/// the step says.
fn clashes_with(entries: &[Logged], from: Tx, step: &Step, second: &Entry) -> bool
    ensures to { IsTrue result → tx_of second.now ≡ step.now.to }
    ensures among { IsTrue result → Any (λ l. StepsTo from step.now l.entry second.now) entries.now }
    ensures none { IsFalse result → tx_of second.now ≡ step.now.to
        → All (λ l. StepsTo from step.now l.entry second.now → ⊥) entries.now }
{
    let item = &step.label.item;
    if !is_own(second, step.to, item, ends_with_read(step.label.kind)) {
        return false;
    }
    for first in entries {
        if clashes(step, from, &first.entry, second) {
            return true;
        }
    }
    false
}

/// Whether these entries have the conflict of the step from this transaction.
pub fn is_met(entries: &[Logged], from: Tx, step: &Step) -> bool
    ensures { IsTrue result
        ↔ Conflicts (entries_of entries.now) step.now.label.kind step.now.label.item from step.now.to }
{
    if from == step.to {
        return false;
    }
    for (place, second) in entries.iter().enumerate() {
        if clashes_with(&entries[..place], from, step, &second.entry) {
            return true;
        }
    }
    false
}

/// The conflict that the second entry is in with the first, of the transactions of the step and on its item.
fn met_by(from: Tx, step: &Step, first: &Logged, second: &Logged) -> Option<Met>
    ensures some { IfSome result
        (λ m. (m.first ≡ first.now) × (m.second ≡ second.now) × (tx_of m.first.entry ≡ from)
        × Clash m.kind step.now.label.item m.first.entry m.second.entry) }
    ensures none { IfNone result (tx_of first.now.entry ≡ from
        → InNoConflict step.now.label.item first.now.entry second.now.entry) }
{
    if first.entry.tx() != from {
        return None;
    }
    match first.entry.clash_on(&step.label.item, &second.entry) {
        Some(kind) => Some(Met {
            kind,
            first: *first,
            second: *second,
        }),
        None => None,
    }
}

/// The first conflict of one of these entries with the second entry, of the transactions of the step and on its item.
fn met_with(entries: &[Logged], from: Tx, step: &Step, second: &Logged) -> Option<Met>
    ensures second { IfSome result (λ m. m.second ≡ second.now) }
    ensures among { IfSome result (λ m. Contains entries.now m.first) }
    ensures from { IfSome result (λ m. tx_of m.first.entry ≡ from) }
    ensures to { IfSome result (λ m. tx_of m.second.entry ≡ step.now.to) }
    ensures clash { IfSome result
        (λ m. Clash m.kind step.now.label.item m.first.entry m.second.entry) }
    ensures none { IfNone result (tx_of second.now.entry ≡ step.now.to
        → All (λ l. tx_of l.entry ≡ from
        → InNoConflict step.now.label.item l.entry second.now.entry) entries.now) }
{
    let item = &step.label.item;
    let is_on_it = second.entry.reads(item) || second.entry.writes(item);
    if second.entry.tx() != step.to || !is_on_it {
        return None;
    }
    for first in entries {
        if let Some(met) = met_by(from, step, first, second) {
            return Some(met);
        }
    }
    None
}

/// The first conflict of these entries of the transactions of the step and on its item, of whatever kind.
pub fn met_in(entries: &[Logged], from: Tx, step: &Step) -> Option<Met>
    ensures { ShowsOther entries.now from step.now result }
{
    for (place, second) in entries.iter().enumerate() {
        if let Some(met) = met_with(&entries[..place], from, step, second) {
            return Some(met);
        }
    }
    None
}
