//! The first of faults.

ghost use Rattle.std.specs.Prelude.{◌≡◌, ℕ, IsTrue, ◌↔◌, List};
ghost use Rattle.sgt_history.specs.Flaws.{IsFaulty, IsToldFirst, rank_of};
ghost use Rattle.sgt_history.specs.Transaction.{Transaction};
ghost use Rattle.sgt_history_faults.specs.Noted.{Covers, IsReal};

use sgt_history::Flaw;

/// A fault of a line: of which kind, and of which of the transaction's operations. Both are counted from 0.
#[derive(Clone, Copy, Debug, PartialEq, Eq)]
pub struct Fault {
    pub line: u32,
    pub flaw: Flaw,
    pub place: u32,
}

/// Where the kind stands in the table of faults.
fn rank(flaw: Flaw) -> u8
    ensures { result ≡ rank_of flaw }
{
    match flaw {
        Flaw::Internal => 0,
        Flaw::Duplicate => 1,
        Flaw::AbortedRead => 2,
        Flaw::Unwritten => 3,
        Flaw::IntermediateRead => 4,
        Flaw::Value => 5,
    }
}

/// Whether the fault is told before another, or is that.
fn is_told_first(one: Fault, other: Fault) -> bool
    ensures { IsTrue result
        ↔ IsToldFirst one.line (rank_of one.flaw) one.place other.line (rank_of other.flaw) other.place }
{
    if one.line != other.line {
        return one.line < other.line;
    }
    let (first, second) = (rank(one.flaw), rank(other.flaw));
    if first != second {
        return first < second;
    }
    one.place <= other.place
}

/// The fault that is told first of those so far, where there is this one too.
pub fn with_fault(first: Option<Fault>, fault: Fault) -> Option<Fault>
    ensures kept { (line rank place : ℕ) → Covers first line rank place → Covers result line rank place }
    ensures noted { Covers result fault.line (rank_of fault.flaw) fault.place }
    ensures real { (h : List (Transaction ℕ ℕ)) → IsReal h first → IsFaulty h fault.line fault.flaw fault.place
        → IsReal h result }
{
    match first {
        None => Some(fault),
        Some(one) => {
            if is_told_first(one, fault) {
                Some(one)
            } else {
                Some(fault)
            }
        }
    }
}
