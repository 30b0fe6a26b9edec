//! The faults of values.

ghost use Rattle.std.specs.Prelude.{ℕ, List, length};
ghost use Rattle.sgt_history.specs.Flaws.{IsFaulty};
ghost use Rattle.sgt_history.specs.Transaction.{Transaction};
ghost use Rattle.sgt_history_faults.specs.Given.{AreGivenInOrder, AreOthersCovered, AreOthersFaulty, IsOtherThan};
ghost use Rattle.sgt_history_faults.specs.Noted.{Covers, IsReal};

use crate::fault::{Fault, with_fault};
use crate::giving::Given;
use sgt_history::Flaw;

/// The first fault, with that of a value that is another one than the one before.
fn judge_value(last: &Given, next: &Given, before: Option<Fault>) -> Option<Fault>
    ensures kept { (line rank place : ℕ) → Covers before line rank place → Covers result line rank place }
    ensures covered { IsOtherThan last.now next.now → Covers result next.now.line 5 next.now.place }
    ensures real { (h : List (Transaction ℕ ℕ))
        → (IsOtherThan last.now next.now → IsFaulty h next.now.line Flaw.Value next.now.place)
        → IsReal h before → IsReal h result }
{
    if last.item != next.item || last.version != next.version || last.value == next.value {
        return before;
    }
    let fault = Fault {
        line: next.line,
        flaw: Flaw::Value,
        place: next.place,
    };
    with_fault(before, fault)
}

/// The first fault, with those of values.
pub fn judge_values(given: &[Given], before: Option<Fault>) -> Option<Fault>
    ensures kept { (line rank place : ℕ) → Covers before line rank place → Covers result line rank place }
    ensures covered { AreOthersCovered given.now (length given.now) result }
    ensures real { (h : List (Transaction ℕ ℕ)) → AreOthersFaulty h given.now → IsReal h before → IsReal h result }
{
    let mut first = before;
    for k in 1..given.len() {
        first = judge_value(&given[k - 1], &given[k], first);
    }
    first
}
