//! The values that operations of committed transactions give.

ghost use Rattle.std.specs.Prelude.{◌≡◌, ◌+◌, ◌<◌, ◌≤◌, ◌^◌, ℕ, List, OnOk, IfOk, Some, length, take, slice_get};
ghost use Rattle.std.specs.List.Sorted.{IsPermutation};
ghost use Rattle.sgt_history.specs.Cut.{end_of};
ghost use Rattle.sgt_history.specs.History.{closed_of};
ghost use Rattle.sgt_history.specs.Transaction.{Transaction};
ghost use Rattle.sgt_history.specs.declared.history.Operation.{Operation};
ghost use Rattle.sgt_history_faults.specs.Given.{AreGivenTo, AreGivenInOrder, TakesGiven};
ghost use Rattle.sgt_history_faults.specs.declared.giving.Given.{Given};

use crate::collecting::line_at;
use sgt_history::{History, Line, Operation};
use std::alloc::{AllocError, Global};

/// That an operation gives a value of a version of an item.
#[derive(Clone, Copy, Debug, PartialEq, Eq)]
pub struct Given {
    pub version: u64,
    pub item: u32,
    /// The transaction's line, from 0.
    pub line: u32,
    /// The operation's place among the transaction's.
    pub place: u32,
    pub value: u32,
}

/// Puts what an operation gives behind what was given before, if it gives a value.
fn put_given(
    operation: &Operation<u32, u32>,
    line: u32,
    place: u32,
    given: &mut Vec<Given>,
) -> Result<(), AllocError>
    ensures { OnOk result ((done : List (Operation ℕ ℕ)) (before : List Given)
        → slice_get done place ≡ Some operation.now
        → TakesGiven line done place before given.old.items → TakesGiven line done (place + 1) before given.new.items) }
{
    let Some(value) = operation.value else {
        return Ok(());
    };
    given.push(Given {
        version: operation.version,
        item: operation.item,
        line,
        place,
        value,
    })?;
    Ok(())
}

/// Puts what the operations of a line give behind what was given before.
fn take_given(
    operations: &[Operation<u32, u32>],
    line: u32,
    given: &mut Vec<Given>,
) -> Result<(), AllocError>
    requires { length operations.now < 2 ^ 32 }
    ensures { OnOk result (TakesGiven line operations.now (length operations.now) given.old.items given.new.items) }
{
    for place in 0..operations.len() {
        put_given(&operations[place], line, place as u32, given)?;
    }
    Ok(())
}

/// Puts what the next line gives behind what was given before, if its transaction commits.
fn give_line(
    history: &History,
    line: usize,
    begin: usize,
    given: &mut Vec<Given>,
) -> Result<(), AllocError>
    requires line { line < length history.now.lines.items }
    requires begin { begin ≡ end_of 0 (take line history.now.lines.items) }
    requires given { AreGivenTo (closed_of history.now) line given.old.items }
    ensures { OnOk result (AreGivenTo (closed_of history.now) (line + 1) given.new.items) }
{
    let Line { end, commits } = line_at(history, line, begin);
    if !commits {
        return Ok(());
    }
    let operations = &history.operations.as_slice()[begin..end];
    take_given(operations, line as u32, given)?;
    Ok(())
}

/// All that operations of committed transactions give.
pub fn given_of(alloc: Global, history: &History) -> Result<Vec<Given>, AllocError>
    ensures { IfOk result (λ given. AreGivenTo (closed_of history.now) (length history.now.lines.items) given.items) }
{
    let mut given = Vec::with_capacity(alloc, history.operations.len())?;
    let mut begin = 0;
    for line in 0..history.lines.len() {
        give_line(history, line, begin, &mut given)?;
        begin = history.lines[line].end;
    }
    Ok(given)
}

/// Sorts what is given by item, by version, by line, by place.
pub fn sort_given(given: &mut Vec<Given>)
    ensures permutation { IsPermutation given.old.items given.new.items }
    ensures sorted { AreGivenInOrder given.new.items }
{
    given.sort_unstable_by_key(|one| (one.item, one.version, one.line, one.place));
}
