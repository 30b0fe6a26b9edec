//! What stands behind a fault.

ghost use Rattle.std.specs.Prelude.{◌≡◌, ◌<◌, ℕ, true, false, List, length};
ghost use Rattle.sgt_history.specs.Conflicts.{IsOperation};
ghost use Rattle.sgt_history.specs.Flaws.{HasFlaw, IsFirstFault};
ghost use Rattle.sgt_history.specs.History.{closed_of};
ghost use Rattle.sgt_history.specs.Transaction.{Transaction};
ghost use Rattle.sgt_history.specs.declared.history.Operation.{Operation};
ghost use Rattle.sgt_history_evidence.specs.Evidence.{IsEvidence};

use crate::lines::{operation_at, transaction_of};
use crate::values::first_given;
use crate::writers::{first_writer, last_written, least_greater};
use sgt_history::{Flaw, History, Operation};

/// What stands behind a fault. Lines and places are counted from 0.
#[derive(Clone, Copy, Debug, PartialEq, Eq)]
pub enum Evidence {
    /// Nothing.
    Nothing,
    /// The version that the transaction wrote last before.
    Wrote(u64),
    /// That the transaction writes the version later.
    WritesLater,
    /// The line that wrote the version.
    Writer(u32),
    /// The line that wrote the version, and the least greater one that it wrote.
    Surpassed(u32, u64),
    /// The line and place of an operation that gives another value.
    Gives(u32, u32),
}

/// What an operation contradicts of its own transaction.
fn own_evidence(operations: &[Operation<u32, u32>], place: u32) -> Evidence
    requires { place < length operations.now }
    ensures { (h : List (Transaction ℕ ℕ)) (line : ℕ) (t : Transaction ℕ ℕ) (o : Operation ℕ ℕ)
        → IsOperation h line place t o
        → t.operations ≡ operations.now → HasFlaw h line place t o Flaw.Internal
        → IsEvidence h line place t o Flaw.Internal result }
{
    let item = operations[place as usize].item;
    match last_written(operations, place as usize, item) {
        Some(version) => Evidence::Wrote(version),
        None => Evidence::WritesLater,
    }
}

/// The first line that writes what an operation writes or reads: one that commits, or one that doesn't.
fn writer(history: &History, commits: bool, operation: Operation<u32, u32>) -> Evidence
    ensures duplicate { (line place : ℕ) (t : Transaction ℕ ℕ) → commits ≡ true
        → HasFlaw (closed_of history.now) line place t operation Flaw.Duplicate
        → IsEvidence (closed_of history.now) line place t operation Flaw.Duplicate result }
    ensures aborted { (line place : ℕ) (t : Transaction ℕ ℕ) → commits ≡ false
        → HasFlaw (closed_of history.now) line place t operation Flaw.AbortedRead
        → IsEvidence (closed_of history.now) line place t operation Flaw.AbortedRead result }
{
    match first_writer(history, commits, operation.item, operation.version) {
        Some(line) => Evidence::Writer(line),
        None => Evidence::Nothing,
    }
}

/// The first line that commits and writes what an operation reads, and the least greater version that it writes.
fn surpassed(history: &History, operation: Operation<u32, u32>) -> Evidence
    ensures { (line place : ℕ) (t : Transaction ℕ ℕ)
        → HasFlaw (closed_of history.now) line place t operation Flaw.IntermediateRead
        → IsEvidence (closed_of history.now) line place t operation Flaw.IntermediateRead result }
{
    let Some(line) = first_writer(history, true, operation.item, operation.version) else {
        return Evidence::Nothing;
    };
    let (_, operations) = transaction_of(history, line as usize);
    match least_greater(operations, operation.item, operation.version) {
        Some(version) => Evidence::Surpassed(line, version),
        None => Evidence::Nothing,
    }
}

/// The first operation of a transaction that commits that gives a value of what an operation reads or writes.
fn giver(history: &History, operation: Operation<u32, u32>) -> Evidence
    ensures { (line place : ℕ) (t : Transaction ℕ ℕ) → IsFirstFault (closed_of history.now) line Flaw.Value place
        → IsOperation (closed_of history.now) line place t operation
        → IsEvidence (closed_of history.now) line place t operation Flaw.Value result }
{
    match first_given(history, operation.item, operation.version) {
        Some((line, place)) => Evidence::Gives(line, place),
        None => Evidence::Nothing,
    }
}

/// What stands behind the first fault of a history.
pub fn evidence_of(history: &History, line: u32, flaw: Flaw, place: u32) -> Evidence
    requires { IsFirstFault (closed_of history.now) line flaw place }
    ensures { (t : Transaction ℕ ℕ) (o : Operation ℕ ℕ) → IsOperation (closed_of history.now) line place t o
        → IsEvidence (closed_of history.now) line place t o flaw result }
{
    let operation = operation_at(history, line, place);
    match flaw {
        Flaw::Internal => {
            let (_, operations) = transaction_of(history, line as usize);
            own_evidence(operations, place)
        }
        Flaw::Duplicate => writer(history, true, operation),
        Flaw::AbortedRead => writer(history, false, operation),
        Flaw::Unwritten => Evidence::Nothing,
        Flaw::IntermediateRead => surpassed(history, operation),
        Flaw::Value => giver(history, operation),
    }
}
