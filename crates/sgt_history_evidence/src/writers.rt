//! Which operations write a version of an item.

ghost use Rattle.std.specs.Prelude.{◌≡◌, ◌<◌, ◌≤◌, ◌+◌, ◌↔◌, ℕ, IsTrue, IfSome, IfNone, List, Some, length, slice_get};
ghost use Rattle.sgt_history.specs.History.{closed_of};
ghost use Rattle.sgt_history.specs.Serial.{IsLastWritten, IsWriteOf, NoneWrites};
ghost use Rattle.sgt_history_evidence.specs.Writers.{IsFirstAs, TellsLeast, WritesAs, WritesIn};
ghost use Rattle.sgt_history.specs.declared.history.Operation.{Operation};

use crate::lines::transaction_of;
use sgt_history::{History, Kind, Operation};

/// Whether the operation writes the item.
fn is_write_of(operation: &Operation<u32, u32>, item: u32) -> bool
    ensures { IsTrue result ↔ IsWriteOf operation.now item }
{
    operation.kind == Kind::Write && operation.item == item
}

/// Whether one of the operations writes this version of the item.
fn writes(operations: &[Operation<u32, u32>], item: u32, version: u64) -> bool
    ensures { IsTrue result ↔ WritesIn operations.now item version }
{
    for operation in operations {
        if is_write_of(operation, item) && operation.version == version {
            return true;
        }
    }
    false
}

/// Whether the line commits, or doesn't, and writes this version of the item.
fn writes_as(history: &History, commits: bool, item: u32, version: u64, line: usize) -> bool
    requires { line < length history.now.lines.items }
    ensures { IsTrue result ↔ WritesAs commits (closed_of history.now) item version line }
{
    let (commit, operations) = transaction_of(history, line);
    commit == commits && writes(operations, item, version)
}

/// The first line that writes this version of the item, of those that commit, or of those that don't.
pub fn first_writer(history: &History, commits: bool, item: u32, version: u64) -> Option<u32>
    ensures some { IfSome result (IsFirstAs commits (closed_of history.now) item version) }
    ensures none { IfNone result ((line : ℕ) → WritesAs commits (closed_of history.now) item version line → ⊥) }
{
    for line in 0..history.lines.len() {
        if writes_as(history, commits, item, version, line) {
            return Some(line as u32);
        }
    }
    None
}

/// What was written last of the item before the place.
pub fn last_written(operations: &[Operation<u32, u32>], place: usize, item: u32) -> Option<u64>
    requires { place ≤ length operations.now }
    ensures some { IfSome result (IsLastWritten operations.now place item) }
    ensures none { IfNone result (NoneWrites operations.now 0 place item) }
{
    let mut at = place;
    while at > 0 {
        at -= 1;
        if is_write_of(&operations[at], item) {
            return Some(operations[at].version);
        }
    }
    None
}

/// The least so far of the versions of the item that are greater than this one, with that of one more operation.
fn with_greater(
    least: Option<u64>,
    operation: &Operation<u32, u32>,
    item: u32,
    version: u64,
) -> Option<u64>
    ensures { (operations : List (Operation ℕ ℕ)) (n : ℕ) → slice_get operations n ≡ Some operation.now
        → TellsLeast operations item version n least → TellsLeast operations item version (n + 1) result }
{
    if !is_write_of(operation, item) || operation.version <= version {
        return least;
    }
    match least {
        Some(other) if other <= operation.version => least,
        _ => Some(operation.version),
    }
}

/// The least version of the item that is written and is greater than this one.
pub fn least_greater(operations: &[Operation<u32, u32>], item: u32, version: u64) -> Option<u64>
    ensures { TellsLeast operations.now item version (length operations.now) result }
{
    let mut least = None;
    for at in 0..operations.len() {
        least = with_greater(least, &operations[at], item, version);
    }
    least
}
