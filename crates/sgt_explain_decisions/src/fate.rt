//! What was decided of one transaction.

ghost use Rattle.std.specs.Prelude.{◌≡◌, ◌↔◌, ◌++◌, ℕ, List, IfOk, IfSome, IfNone, IsTrue, OnOk, codes, string_bytes};
ghost use Rattle.sgt_explain_decisions.specs.Fate.{AreSoughtIn, IsCause, IsClosing, TellsFate};
ghost use Rattle.sgt_explain_decisions.specs.Placed.{HasDecisionOn, IsDecisionOn, IsFirstOn, IsUndecided};

use crate::cycles::push_cycle;
use crate::placed::{decision_on, placed_in};
use crate::sought::{Sought, sought_in};
use crate::words::{push_decision, push_no_decision};
use sgt_bundle::{Decision, Step};
use sgt_names::Tx;
use std::alloc::{AllocError, Global};

/// The decision on the transaction with its number, if there is one.
fn fate_of(
    alloc: Global,
    decisions: &[Decision],
    tx: Tx,
) -> Result<Option<(usize, &Decision)>, AllocError>
    ensures some { IfOk result (λ found. IfSome found
        (λ d. IsDecisionOn decisions.now tx d.0 d.1.now)) }
    ensures first { IfOk result (λ found. IfSome found (λ d. IsFirstOn decisions.now tx d.0)) }
    ensures none { IfOk result (λ found. IfNone found (IsUndecided decisions.now tx)) }
{
    let placed = placed_in(alloc, decisions)?;
    Ok(decision_on(decisions, placed.as_slice(), tx))
}

/// What the walks of the decisions are about, found in the text.
pub(crate) fn all_sought(
    alloc: Global,
    decisions: &[Decision],
    bytes: &[u8],
) -> Result<Sought, AllocError>
    ensures { IfOk result (AreSoughtIn decisions.now bytes.now) }
{
    sought_in(alloc, decisions, bytes)
}

/// The cycle of a refusal.
fn push_closing(out: &mut String, sought: &Sought, tx: Tx, walk: &[Step]) -> Result<(), AllocError>
    ensures { OnOk result ((told : List ℕ) × IsClosing sought.now tx walk.now told
        × (string_bytes out.new ≡ string_bytes out.old ++ told)) }
{
    out.push_str(", since it would close a cycle:\n")?;
    push_cycle(out, sought, tx, walk)
}

fn push_line_end(out: &mut String) -> Result<(), AllocError>
    ensures { OnOk result (string_bytes out.new ≡ string_bytes out.old ++ codes "\n") }
{
    out.push_str("\n")
}

/// Why the decision is as it is: the cycle of a refusal.
fn push_cause(
    alloc: Global,
    out: &mut String,
    decisions: &[Decision],
    bytes: &[u8],
    decision: &Decision,
) -> Result<(), AllocError>
    ensures { OnOk result ((told : List ℕ) × IsCause decisions.now bytes.now decision.now told
        × (string_bytes out.new ≡ string_bytes out.old ++ told)) }
{
    match decision {
        Decision::Refuse { tx, walk } => {
            let sought = all_sought(alloc, decisions, bytes)?;
            push_closing(out, &sought, *tx, walk.as_slice())
        }
        Decision::Commit { .. } | Decision::Withdraw { .. } => push_line_end(out),
    }
}

/// The decision on the transaction with its rank, and the cycle where it was refused. Ok: whether there is one.
pub fn push_fate(
    alloc: Global,
    out: &mut String,
    decisions: &[Decision],
    bytes: &[u8],
    tx: Tx,
) -> Result<bool, AllocError>
    ensures told { OnOk result (TellsFate decisions.now bytes.now tx
        (string_bytes out.old) (string_bytes out.new)) }
    ensures decided { IfOk result (λ decided. IsTrue decided ↔ HasDecisionOn decisions.now tx) }
{
    let found = fate_of(alloc, decisions, tx)?;
    let Some((number, decision)) = found else {
        push_no_decision(out, tx)?;
        return Ok(false);
    };
    push_decision(out, number, decision)?;
    push_cause(alloc, out, decisions, bytes, decision)?;
    Ok(true)
}
