//! A decision in words.

ghost use Rattle.std.specs.Prelude.{◌≡◌, ◌++◌, OnOk, string_bytes};
ghost use Rattle.sgt_explain_decisions.specs.Told.{decision_text, no_decision_text};

use sgt_bundle::Decision;
use sgt_names::Tx;
use std::alloc::AllocError;
use std::fmt::Write;

/// What the decision of this number does: `decision 1 refuses 2`.
pub fn push_decision(out: &mut String, number: usize, decision: &Decision) -> Result<(), AllocError>
    ensures { OnOk result (string_bytes out.new ≡ string_bytes out.old
        ++ decision_text number decision.now) }
{
    let tx = decision.tx();
    match decision {
        Decision::Commit { rank, .. } => {
            write!(out, "decision {number} commits {tx} with rank {rank}")
        }
        Decision::Refuse { .. } => write!(out, "decision {number} refuses {tx}"),
        Decision::Withdraw { .. } => write!(out, "decision {number} withdraws {tx}"),
    }
}

/// That the transaction has no decision.
pub fn push_no_decision(out: &mut String, tx: Tx) -> Result<(), AllocError>
    ensures { OnOk result (string_bytes out.new ≡ string_bytes out.old ++ no_decision_text tx) }
{
    write!(out, "transaction {tx} has no decision in the certificate\n")
}
