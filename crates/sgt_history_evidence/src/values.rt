//! Which operations give a value of a version of an item.

ghost use Rattle.std.specs.Prelude.{◌<◌, ◌^◌, ◌↔◌, ℕ, IsTrue, IfSome, IfNone, length};
ghost use Rattle.sgt_history.specs.History.{closed_of};
ghost use Rattle.sgt_history_evidence.specs.Values.{GivesAt, GivesIn, IsFirstGiven, IsFirstGivenIn, IsFirstInLine, IsGift};

use crate::lines::transaction_of;
use sgt_history::{History, Operation};

/// Whether the operation gives a value of this version of the item.
fn is_gift(operation: &Operation<u32, u32>, item: u32, version: u64) -> bool
    ensures { IsTrue result ↔ IsGift operation.now item version }
{
    operation.item == item && operation.version == version && operation.value.is_some()
}

/// The first place at which a value of this version of the item is given.
fn first_place(operations: &[Operation<u32, u32>], item: u32, version: u64) -> Option<u32>
    requires { length operations.now < 2 ^ 32 }
    ensures some { IfSome result (IsFirstGivenIn operations.now item version) }
    ensures none { IfNone result ((place : ℕ) → GivesIn operations.now item version place → ⊥) }
{
    for place in 0..operations.len() {
        if is_gift(&operations[place], item, version) {
            return Some(place as u32);
        }
    }
    None
}

/// The first place of the line at which its transaction gives a value of this version of the item, if it commits.
fn place_in_line(history: &History, item: u32, version: u64, line: usize) -> Option<u32>
    requires { line < length history.now.lines.items }
    ensures some { IfSome result (IsFirstInLine (closed_of history.now) item version line) }
    ensures none { IfNone result ((place : ℕ) → GivesAt (closed_of history.now) item version line place → ⊥) }
{
    let (commits, operations) = transaction_of(history, line);
    if !commits {
        return None;
    }
    first_place(operations, item, version)
}

/// The first line, and place in it, at which a transaction that commits gives a value of this version of the item.
pub fn first_given(history: &History, item: u32, version: u64) -> Option<(u32, u32)>
    ensures some { IfSome result (λ at. IsFirstGiven (closed_of history.now) item version at.0 at.1) }
    ensures none { IfNone result ((line place : ℕ) → GivesAt (closed_of history.now) item version line place → ⊥) }
{
    for line in 0..history.lines.len() {
        if let Some(place) = place_in_line(history, item, version, line) {
            return Some((line as u32, place));
        }
    }
    None
}
