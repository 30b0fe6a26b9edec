//! What is said of a transaction that is decided twice.

ghost use Rattle.std.specs.Prelude.{◌≡◌, ◌++◌, ◌<◌, List, Some, IfSome, IfNone, OnOk, slice_get, string_bytes, take};
ghost use Rattle.sgt_bundle.specs.Certificate.{IsDecidedOnce};
ghost use Rattle.sgt_bundle.specs.declared.certificate.Decision.{Decision};
ghost use Rattle.sgt_explain_decisions.specs.Placed.{ArePlaced, IsFirstOn, IsUndecided};
ghost use Rattle.sgt_explain_decisions.specs.Twice.{IsTwice, IsFirstTwice, decided_twice_head, decision_line, twice_text, TellsTwice};

use crate::placed::{Placed, number_on, placed_in};
use crate::words::push_decision;
use sgt_bundle::Decision;
use sgt_names::Tx;
use std::alloc::{AllocError, Global};

/// The number of the first decision on the transaction, if that is before the decision of this number.
fn earlier_on(placed: &[Placed], tx: Tx, number: usize) -> Option<usize>
    ensures some { (decisions : List Decision) → ArePlaced decisions placed.now
        → IfSome result (λ first. (first < number) × IsFirstOn decisions tx first) }
    ensures none { (decisions : List Decision) → ArePlaced decisions placed.now
        → IfNone result (IsUndecided (take number decisions) tx) }
{
    let Some(first) = number_on(placed, tx) else {
        return None;
    };
    if first < number {
        return Some(first);
    }
    None
}

/// The numbers of two decisions on one transaction, the second the least that there is.
fn twice_in(decisions: &[Decision], placed: &[Placed]) -> Option<(usize, usize)>
    ensures some { ArePlaced decisions.now placed.now
        → IfSome result (λ two. IsFirstTwice decisions.now two.0 two.1) }
    ensures none { ArePlaced decisions.now placed.now
        → IfNone result (IsDecidedOnce decisions.now) }
{
    for (number, decision) in decisions.iter().enumerate() {
        if let Some(first) = earlier_on(placed, decision.tx(), number) {
            return Some((first, number));
        }
    }
    None
}

/// A decision, as a line.
fn push_numbered_decision(
    out: &mut String,
    decisions: &[Decision],
    number: usize,
) -> Result<(), AllocError>
    ensures { (d : Decision) → slice_get decisions.now number ≡ Some d
        → OnOk result (string_bytes out.new ≡ string_bytes out.old ++ decision_line number d) }
{
    match decisions.get(number) {
        Some(decision) => {
            push_decision(out, number, decision)?;
            out.push_str("\n")
        }
        None => Ok(()),
    }
}

/// Two decisions, each as a line.
fn push_two(
    out: &mut String,
    decisions: &[Decision],
    first: usize,
    second: usize,
) -> Result<(), AllocError>
    ensures { (two : IsTwice decisions.now first second)
        → OnOk result (string_bytes out.new ≡ string_bytes out.old
        ++ twice_text first second two.one two.other) }
{
    push_numbered_decision(out, decisions, first)?;
    push_numbered_decision(out, decisions, second)
}

/// F5: a transaction is decided twice.
pub fn push_decided_twice(
    alloc: Global,
    out: &mut String,
    decisions: &[Decision],
) -> Result<(), AllocError>
    ensures twice { (IsDecidedOnce decisions.now → ⊥)
        → OnOk result (TellsTwice decisions.now (string_bytes out.old) (string_bytes out.new)) }
    ensures once { IsDecidedOnce decisions.now
        → OnOk result (string_bytes out.new ≡ string_bytes out.old ++ decided_twice_head) }
{
    let placed = placed_in(alloc, decisions)?;
    out.push_str("DecidedTwice: a transaction has one decision\n")?;
    let Some((first, second)) = twice_in(decisions, placed.as_slice()) else {
        return Ok(());
    };
    push_two(out, decisions, first, second)
}
