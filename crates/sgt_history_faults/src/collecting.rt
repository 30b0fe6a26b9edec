//! The touches of a history.

ghost use Rattle.std.specs.Prelude.{◌≡◌, ◌+◌, ◌<◌, ◌≤◌, ℕ, IsTrue, List, Some, OnOk, IfOk, length, take, slice_get, All};
ghost use Rattle.sgt_history.specs.Cut.{end_of};
ghost use Rattle.sgt_history.specs.History.{closed_of};
ghost use Rattle.sgt_history.specs.Transaction.{Transaction};
ghost use Rattle.sgt_history.specs.declared.history.Operation.{Operation};
ghost use Rattle.sgt_history_faults.specs.Collected.{IsCollected};
ghost use Rattle.sgt_history_faults.specs.Mine.{IsItemBelow, StampedTo};
ghost use Rattle.sgt_history_faults.specs.Noted.{Covers, IsReal};
ghost use Rattle.sgt_history_faults.specs.Touch.{IsContradicted, TellsContradiction};

use crate::fault::{Fault, with_fault};
use crate::mine::Mine;
use crate::touch::Touch;
use crate::touching::{Whose, mark_surpassed, take_line};
use sgt_history::{Flaw, History, Line, Operation};
use std::alloc::{AllocError, Global};

/// The touches so far, and the first fault.
#[derive(Drop)]
pub struct Collected {
    pub touches: Vec<Touch>,
    pub first: Option<Fault>,
}

/// The greater of the two.
fn greater(one: usize, other: usize) -> usize
    ensures one { one ≤ result }
    ensures other { other ≤ result }
{
    if one < other { other } else { one }
}

/// One more than the greatest item.
fn items_of(operations: &[Operation<u32, u32>]) -> usize
    ensures { All (IsItemBelow result) operations.now }
{
    let mut items = 0;
    for operation in operations {
        items = greater(items, operation.item as usize + 1);
    }
    items
}

/// The first fault, where one more operation of a line contradicts what its transaction wrote before.
fn with_contradiction(
    first: Option<Fault>,
    whose: Whose,
    contradicted: Option<u32>,
) -> Option<Fault>
    ensures kept { (line rank place : ℕ) → Covers first line rank place → Covers result line rank place }
    ensures real { (h : List (Transaction ℕ ℕ)) (t : Transaction ℕ ℕ) → slice_get h whose.line ≡ Some t
        → t.commits ≡ whose.commits
        → TellsContradiction t.operations (length t.operations) contradicted → IsReal h first → IsReal h result }
    ensures noted { IsTrue whose.commits → (done : List (Operation ℕ ℕ)) (place : ℕ)
        → TellsContradiction done (length done) contradicted → place < length done → IsContradicted done place
        → Covers result whose.line 0 place }
{
    if !whose.commits {
        return first;
    }
    match contradicted {
        None => first,
        Some(place) => {
            let fault = Fault {
                line: whose.line,
                flaw: Flaw::Internal,
                place,
            };
            with_fault(first, fault)
        }
    }
}

/// The line, whose operations begin there.
pub fn line_at(history: &History, line: usize, begin: usize) -> Line
    requires line { line < length history.now.lines.items }
    requires begin { begin ≡ end_of 0 (take line history.now.lines.items) }
    ensures is { slice_get history.now.lines.items line ≡ Some result }
    ensures begin { begin ≤ result.end }
    ensures end { result.end ≤ length history.now.operations.items }
{
    history.lines[line]
}

/// Takes the next line, whose operations begin there.
fn collect_line(
    history: &History,
    line: usize,
    begin: usize,
    mine: &mut [Mine],
    collected: &mut Collected,
) -> Result<(), AllocError>
    requires line { line < length history.now.lines.items }
    requires begin { begin ≡ end_of 0 (take line history.now.lines.items) }
    requires items { All (IsItemBelow (length mine.old)) history.now.operations.items }
    requires stamped { StampedTo line mine.old }
    requires collected { IsCollected (closed_of history.now) line (length mine.old) collected.old.touches.items
        collected.old.first }
    ensures stamped { OnOk result (StampedTo (line + 1) mine.new) }
    ensures collected { OnOk result (IsCollected (closed_of history.now) (line + 1) (length mine.old)
        collected.new.touches.items collected.new.first) }
{
    let Line { end, commits } = line_at(history, line, begin);
    let whose = Whose {
        line: line as u32,
        commits,
    };
    let from = collected.touches.len();
    let operations = &history.operations.as_slice()[begin..end];
    let contradicted = take_line(operations, whose, mine, &mut collected.touches)?;
    mark_surpassed(&mut collected.touches, from, mine);
    collected.first = with_contradiction(collected.first, whose, contradicted);
    Ok(())
}

/// All touches of a history, and the first operation of a committed transaction that contradicts what this wrote
/// before.
pub fn collect(alloc: Global, history: &History) -> Result<Collected, AllocError>
    ensures { IfOk result
        (λ c. (items : ℕ) × IsCollected (closed_of history.now) (length history.now.lines.items) items c.touches.items
        c.first) }
{
    let nothing = Mine {
        last: 0,
        greatest: 0,
        stamp: 0,
    };
    let mut table = vec![in alloc; nothing; items_of(history.operations.as_slice())]?;
    let mine = table.as_mut_slice();
    let mut collected = Collected {
        touches: Vec::with_capacity(alloc, history.operations.len())?,
        first: None,
    };
    let mut begin = 0;
    for line in 0..history.lines.len() {
        collect_line(history, line, begin, mine, &mut collected)?;
        begin = history.lines[line].end;
    }
    Ok(collected)
}
