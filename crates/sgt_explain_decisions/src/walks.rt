//! What is said of a walk that is no cycle.

ghost use Rattle.std.specs.Prelude.{◌≡◌, ◌≢◌, ◌↔◌, ◌<◌, ◌≤◌, ◌++◌, ℕ, List, Some, All, IfOk, IfSome, IfNone, IsTrue, IsFalse, OnOk, length, slice_get, string_bytes};
ghost use Rattle.sgt_bundle.specs.Certificate.{IsCommitted, IsCycle, decided_tx};
ghost use Rattle.sgt_bundle.specs.declared.certificate.Step.{Step};
ghost use Rattle.sgt_explain_decisions.specs.Placed.{ArePlaced, IsFirstOn};
ghost use Rattle.sgt_explain_decisions.specs.Walks.{IsRefusal, IsCommittedBefore, MayBePassed, IsFlawOfStep, steps_between, LeadsTo, IsFirstFlaw, AreApart, IsFirstAgain, IsFlaw, HaveCycles, IsFirstFlawed};
ghost use Rattle.sgt_explain_decisions.specs.Walks.{walk_shape_head, step_leads, not_before_text, TellsFlaw, TellsWalk};

use crate::placed::{Placed, number_on, placed_in};
use crate::words::push_decision;
use sgt_bundle::{Decision, Step};
use sgt_names::Tx;
use std::alloc::{AllocError, Global};
use std::collections::BTreeMap;
use std::fmt::Write;

/// Why a walk is no cycle through transactions that were committed before. Steps are counted from
/// 1.
#[derive(Clone, Copy)]
pub enum Flaw {
    /// It has fewer than two steps.
    Short,
    /// It ends at this transaction.
    Elsewhere(Tx),
    /// The step leads to its own transaction, and isn't the last.
    Closed { step: usize },
    /// The step leads to a transaction with no decision.
    Undecided { step: usize, tx: Tx },
    /// The step leads to a transaction that the decision of this number doesn't commit, or not
    /// before.
    NotBefore { step: usize, number: usize },
    /// Some step leads to this transaction, and a later one again.
    Again(Tx),
}

/// A refusal whose walk is no cycle: the number of the decision, its transaction, and why.
#[derive(Clone, Copy)]
pub struct Flawed {
    pub number: usize,
    pub tx: Tx,
    pub flaw: Flaw,
}

/// The number of a refusal, and its transaction.
#[derive(Clone, Copy)]
struct Refused {
    number: usize,
    tx: Tx,
}

/// Whether the decision of this number, which is on the transaction, commits it, and stands before the other.
fn is_commit_before(decisions: &[Decision], number: usize, stop: Tx, own: usize) -> bool
    ensures yes { IsTrue result → IsFirstOn decisions.now stop number
        → IsCommittedBefore decisions.now own stop }
    ensures no { IsFalse result → (rank : ℕ) → IsCommitted decisions.now number stop rank
        → own ≤ number }
{
    match decisions.get(number) {
        Some(decision) => decision.is_commit() && number < own,
        None => false,
    }
}

/// What is wrong with a step to another transaction.
fn flaw_of_stop(
    decisions: &[Decision],
    placed: &[Placed],
    own: usize,
    step: usize,
    stop: Tx,
) -> Option<Flaw>
    ensures some { (tx : ℕ) → ArePlaced decisions.now placed.now → stop ≢ tx
        → IfSome result (IsFlawOfStep decisions.now own tx step stop) }
    ensures none { ArePlaced decisions.now placed.now
        → IfNone result (IsCommittedBefore decisions.now own stop) }
{
    let Some(number) = number_on(placed, stop) else {
        return Some(Flaw::Undecided { step, tx: stop });
    };
    if is_commit_before(decisions, number, stop, own) {
        return None;
    }
    Some(Flaw::NotBefore { step, number })
}

/// What is wrong with a step between, which leads to this transaction.
fn flaw_of_step(
    decisions: &[Decision],
    placed: &[Placed],
    refused: &Refused,
    step: usize,
    stop: Tx,
) -> Option<Flaw>
    ensures some { ArePlaced decisions.now placed.now
        → IfSome result (IsFlawOfStep decisions.now refused.now.number refused.now.tx step stop) }
    ensures none { ArePlaced decisions.now placed.now
        → IfNone result (MayBePassed decisions.now refused.now.number refused.now.tx stop) }
{
    if stop == refused.tx {
        return Some(Flaw::Closed { step });
    }
    flaw_of_stop(decisions, placed, refused.number, step, stop)
}

/// What is wrong with the steps between, each by itself.
fn flaw_between(
    decisions: &[Decision],
    placed: &[Placed],
    refused: &Refused,
    between: &[Step],
) -> Option<Flaw>
    ensures some { ArePlaced decisions.now placed.now
        → IfSome result (IsFirstFlaw decisions.now refused.now.number refused.now.tx between.now) }
    ensures none { ArePlaced decisions.now placed.now
        → IfNone result (All (λ s. MayBePassed decisions.now refused.now.number refused.now.tx s.to) between.now) }
{
    for (place, step) in between.iter().enumerate() {
        if let Some(flaw) = flaw_of_step(decisions, placed, refused, place + 1, step.to) {
            return Some(flaw);
        }
    }
    None
}

/// The transaction that two of the steps lead to, of the second of these the first.
fn again_in(alloc: Global, between: &[Step]) -> Result<Option<Tx>, AllocError>
    ensures some { IfOk result (λ found. IfSome found (IsFirstAgain between.now)) }
    ensures none { IfOk result (λ found. IfNone found (AreApart between.now)) }
{
    let mut passed: BTreeMap<Tx, usize> = BTreeMap::new(alloc);
    for (place, step) in between.iter().enumerate() {
        if passed.insert(step.to, place)?.is_some() {
            return Ok(Some(step.to));
        }
    }
    Ok(None)
}

/// The transaction that the last step leads to, where there is a step before it.
fn last_stop(walk: &[Step]) -> Option<Tx>
    ensures some { IfSome result (LeadsTo walk.now) }
    ensures none { IfNone result (length walk.now < 2) }
{
    if walk.len() < 2 {
        return None;
    }
    let last = walk[walk.len() - 1];
    Some(last.to)
}

/// The steps before the last.
fn before_last(walk: &[Step]) -> &[Step]
    ensures { result.now ≡ steps_between walk.now }
{
    &walk[..walk.len().saturating_sub(1)]
}

/// What is wrong with the walk of the transaction that the decision of this number refuses.
fn flaw_of(
    alloc: Global,
    decisions: &[Decision],
    placed: &[Placed],
    refused: &Refused,
    walk: &[Step],
) -> Result<Option<Flaw>, AllocError>
    ensures some { ArePlaced decisions.now placed.now → IfOk result (λ found. IfSome found
        (IsFlaw decisions.now refused.now.number refused.now.tx walk.now)) }
    ensures none { ArePlaced decisions.now placed.now → IfOk result (λ found. IfNone found
        (IsCycle decisions.now refused.now.number refused.now.tx walk.now)) }
{
    let Some(stop) = last_stop(walk) else {
        return Ok(Some(Flaw::Short));
    };
    if stop != refused.tx {
        return Ok(Some(Flaw::Elsewhere(stop)));
    }
    let between = before_last(walk);
    if let Some(flaw) = flaw_between(decisions, placed, refused, between) {
        return Ok(Some(flaw));
    }
    match again_in(alloc, between)? {
        Some(stop) => Ok(Some(Flaw::Again(stop))),
        None => Ok(None),
    }
}

/// The same of the decision of this number, with the transaction, if it is a refusal.
fn flaw_in(
    alloc: Global,
    decisions: &[Decision],
    placed: &[Placed],
    number: usize,
) -> Result<Option<Flawed>, AllocError>
    ensures same { IfOk result (λ found. IfSome found (λ f. f.number ≡ number)) }
    ensures some { ArePlaced decisions.now placed.now → IfOk result (λ found. IfSome found
        (λ f. (walk : List Step) × IsRefusal decisions.now number f.tx walk
        × IsFlaw decisions.now number f.tx walk f.flaw)) }
    ensures none { ArePlaced decisions.now placed.now → IfOk result (λ found. IfNone found
        ((tx : ℕ) (walk : List Step) → IsRefusal decisions.now number tx walk
        → IsCycle decisions.now number tx walk)) }
{
    let Some(Decision::Refuse { tx, walk }) = decisions.get(number) else {
        return Ok(None);
    };
    let refused = Refused { number, tx: *tx };
    match flaw_of(alloc, decisions, placed, &refused, walk.as_slice())? {
        Some(flaw) => Ok(Some(Flawed {
            number,
            tx: *tx,
            flaw,
        })),
        None => Ok(None),
    }
}

/// The first refusal whose walk is no cycle.
fn first_flawed(
    alloc: Global,
    decisions: &[Decision],
    placed: &[Placed],
) -> Result<Option<Flawed>, AllocError>
    ensures some { ArePlaced decisions.now placed.now
        → IfOk result (λ found. IfSome found (IsFirstFlawed decisions.now)) }
    ensures none { ArePlaced decisions.now placed.now
        → IfOk result (λ found. IfNone found (HaveCycles decisions.now (length decisions.now))) }
{
    for number in 0..decisions.len() {
        if let Some(found) = flaw_in(alloc, decisions, placed, number)? {
            return Ok(Some(found));
        }
    }
    Ok(None)
}

/// To which transaction a step leads that isn't committed before.
fn push_step_leads(out: &mut String, step: usize, stop: Tx) -> Result<(), AllocError>
    ensures { OnOk result (string_bytes out.new ≡ string_bytes out.old ++ step_leads step stop) }
{
    write!(
        out,
        "step {step} leads to {stop}, which isn't committed before: "
    )
}

/// The same, with the decision on it.
fn push_not_before(
    out: &mut String,
    step: usize,
    number: usize,
    decision: &Decision,
) -> Result<(), AllocError>
    ensures { OnOk result (string_bytes out.new ≡ string_bytes out.old
        ++ not_before_text step number (decided_tx decision.now) decision.now) }
{
    push_step_leads(out, step, decision.tx())?;
    push_decision(out, number, decision)?;
    out.push_str("\n")
}

/// Why the walk is no cycle: a line.
fn push_flaw(out: &mut String, decisions: &[Decision], flaw: Flaw) -> Result<(), AllocError>
    ensures { OnOk result ((told : List ℕ) × TellsFlaw decisions.now flaw told
        × (string_bytes out.new ≡ string_bytes out.old ++ told)) }
{
    match flaw {
        Flaw::Short => out.push_str("a walk has at least two steps\n"),
        Flaw::Elsewhere(tx) => write!(out, "its last step leads to {tx}, and not back to it\n"),
        Flaw::Closed { step } => write!(out, "step {step} leads back to it, and isn't the last\n"),
        Flaw::Undecided { step, tx } => {
            write!(out, "step {step} leads to {tx}, which has no decision\n")
        }
        Flaw::Again(tx) => write!(out, "two of its steps lead to {tx}\n"),
        Flaw::NotBefore { step, number } => match decisions.get(number) {
            Some(decision) => push_not_before(out, step, number, decision),
            None => out.push_str(""),
        },
    }
}

/// Whose walk is no cycle.
fn push_walk_head(out: &mut String, number: usize, tx: Tx) -> Result<(), AllocError>
    ensures { OnOk result (string_bytes out.new ≡ string_bytes out.old
        ++ walk_shape_head number tx) }
{
    write!(
        out,
        "WalkShape: the walk of refused transaction {tx} (decision {number}) is no cycle\n"
    )
}

/// F6: a walk that is no cycle.
pub fn push_walk_shape(
    alloc: Global,
    out: &mut String,
    decisions: &[Decision],
) -> Result<(), AllocError>
    ensures { (HaveCycles decisions.now (length decisions.now) → ⊥)
        → OnOk result (TellsWalk decisions.now (string_bytes out.old) (string_bytes out.new)) }
{
    let placed = placed_in(alloc, decisions)?;
    let Some(found) = first_flawed(alloc, decisions, placed.as_slice())? else {
        return Ok(());
    };
    push_walk_head(out, found.number, found.tx)?;
    push_flaw(out, decisions, found.flaw)?;
    out.push_str(
        "it has to lead through transactions that earlier decisions commit, each once, and back\n",
    )
}
