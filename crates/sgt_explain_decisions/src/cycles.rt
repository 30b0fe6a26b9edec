//! The cycles of refused transactions, in words; and which step is no conflict of the logs.

ghost use Rattle.std.specs.Prelude.{◌≡◌, ◌↔◌, ◌++◌, ℕ, List, Some, All, IfSome, IfNone, IsTrue, OnOk, length, string_bytes};
ghost use Rattle.sgt_explain_lines.specs.declared.section.Logged.{Logged};
ghost use Rattle.sgt_explain_decisions.specs.Cycles.{AreInOrder, IsShownStep, Shows, step_text, refusal_head, TellsCycle, TellsRefusal, TellsCycles};
ghost use Rattle.sgt_explain_decisions.specs.Cycles.{AreShown, IsFirstUnshown, IsUnshownAt, IsShownWhole, IsFirstUnmet};

use crate::sought::{Sought, first_of, found_of, second_of};
use sgt_bundle::{Decision, Step};
use sgt_explain_lines::{Logged, push_conflict};
use sgt_names::Tx;
use std::alloc::AllocError;
use std::fmt::Write;

/// Whether the one entry stands before the other, and they aren't both increments.
fn are_in_order(one: &Logged, other: &Logged) -> bool
    ensures { IsTrue result ↔ AreInOrder one.now other.now }
{
    one.line < other.line && !(one.entry.is_increment() && other.entry.is_increment())
}

/// The two entries, where they are so.
fn in_order(first: Option<Logged>, second: Option<Logged>) -> Option<(Logged, Logged)>
    ensures some { IfSome result
        (λ two. (first ≡ Some two.0) × (second ≡ Some two.1) × AreInOrder two.0 two.1) }
    ensures none { IfNone result ((one other : Logged) → first ≡ Some one → second ≡ Some other
        → AreInOrder one other → ⊥) }
{
    let one = first?;
    let other = second?;
    if are_in_order(&one, &other) {
        Some((one, other))
    } else {
        None
    }
}

/// The two entries that a step from this transaction shows, if it is a conflict of the logs.
fn shown_by(sought: &Sought, from: Tx, step: &Step) -> Option<(Logged, Logged)>
    ensures { Shows sought.now from step.now result }
{
    let first = found_of(sought, step, from);
    let second = found_of(sought, step, step.to);
    let kind = step.label.kind;
    in_order(first_of(&first, kind), second_of(&second, kind))
}

/// A step in words: `2 read y before 1 wrote it: site 0, lines 6 and 7`.
fn push_step(
    out: &mut String,
    from: Tx,
    step: &Step,
    shown: &Option<(Logged, Logged)>,
) -> Result<(), AllocError>
    ensures { OnOk result (string_bytes out.new ≡ string_bytes out.old
        ++ step_text from step.now shown.now) }
{
    match shown {
        Some((one, other)) => {
            out.push_str("  ")?;
            push_conflict(out, step.label.site.number(), &step.label.item, one, other)?;
            out.push_str("\n")
        }
        None => {
            let to = step.to;
            write!(
                out,
                "  {from} to {to}: not shown by the lines before the fault\n"
            )
        }
    }
}

/// A cycle in words: the step of each line, from the refused transaction back to it.
pub(crate) fn push_cycle(
    out: &mut String,
    sought: &Sought,
    tx: Tx,
    walk: &[Step],
) -> Result<(), AllocError>
    ensures { OnOk result ((told : List ℕ) × TellsCycle sought.now tx walk.now told
        × (string_bytes out.new ≡ string_bytes out.old ++ told)) }
{
    let mut from = tx;
    for step in walk {
        let shown = shown_by(sought, from, step);
        push_step(out, from, step, &shown)?;
        from = step.to;
    }
    Ok(())
}

fn push_refusal_head(out: &mut String, number: usize, tx: Tx) -> Result<(), AllocError>
    ensures { OnOk result (string_bytes out.new ≡ string_bytes out.old ++ refusal_head number tx) }
{
    write!(
        out,
        "transaction {tx} was refused (decision {number}), since it would close a cycle:\n"
    )
}

/// The transaction of a refusal with its cycle; nothing of another decision.
fn push_refusal(
    out: &mut String,
    sought: &Sought,
    number: usize,
    decision: &Decision,
) -> Result<(), AllocError>
    ensures { OnOk result ((told : List ℕ) × TellsRefusal sought.now number decision.now told
        × (string_bytes out.new ≡ string_bytes out.old ++ told)) }
{
    match decision {
        Decision::Refuse { tx, walk } => {
            push_refusal_head(out, number, *tx)?;
            push_cycle(out, sought, *tx, walk.as_slice())
        }
        _ => out.push_str(""),
    }
}

/// Each refused transaction with its cycle.
pub(crate) fn push_cycles(
    out: &mut String,
    decisions: &[Decision],
    sought: &Sought,
) -> Result<(), AllocError>
    ensures { OnOk result ((told : List ℕ) × TellsCycles sought.now 0 decisions.now told
        × (string_bytes out.new ≡ string_bytes out.old ++ told)) }
{
    for (number, decision) in decisions.iter().enumerate() {
        push_refusal(out, sought, number, decision)?;
    }
    Ok(())
}

/// The place, from 0, of the first step of the walk that is no conflict of the logs.
fn first_unmet(sought: &Sought, tx: Tx, walk: &[Step]) -> Option<usize>
    ensures some { IfSome result (IsFirstUnshown sought.now tx walk.now) }
    ensures none { IfNone result (AreShown sought.now tx walk.now (length walk.now)) }
{
    let mut from = tx;
    for (place, step) in walk.iter().enumerate() {
        if shown_by(sought, from, step).is_none() {
            return Some(place);
        }
        from = step.to;
    }
    None
}

/// The same of the walk of a refusal.
fn unmet_of(sought: &Sought, decision: &Decision) -> Option<usize>
    ensures some { IfSome result (IsUnshownAt sought.now decision.now) }
    ensures none { IfNone result (IsShownWhole sought.now decision.now) }
{
    match decision {
        Decision::Refuse { tx, walk } => first_unmet(sought, *tx, walk.as_slice()),
        _ => None,
    }
}

/// The first step of all walks that is no conflict of the logs: the number of the decision, and
/// the place of the step from 0.
pub fn unmet_in(decisions: &[Decision], sought: &Sought) -> Option<(usize, usize)>
    ensures some { IfSome result (λ at. IsFirstUnmet sought.now decisions.now at.0 at.1) }
    ensures none { IfNone result (All (IsShownWhole sought.now) decisions.now) }
{
    for (number, decision) in decisions.iter().enumerate() {
        if let Some(place) = unmet_of(sought, decision) {
            return Some((number, place));
        }
    }
    None
}
