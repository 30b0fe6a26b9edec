//! A yes: the counts of the certificate, and what to type next.

use sgt_bundle::{CertFault, Decision, from_line};
use sgt_explain_decisions::MOST_REFUSALS;
use sgt_explain_lines::text_at;
use std::alloc::{AllocError, Global};
use std::fmt::Write;

/// How many decisions of each kind there are.
#[derive(Clone, Copy)]
struct Counts {
    committed: u64,
    refused: u64,
    withdrawn: u64,
}

fn counts_of(decisions: &[Decision]) -> Counts {
    let mut counts = Counts {
        committed: 0,
        refused: 0,
        withdrawn: 0,
    };
    for decision in decisions {
        match decision {
            Decision::Commit { .. } => counts.committed = counts.committed.saturating_add(1),
            Decision::Refuse { .. } => counts.refused = counts.refused.saturating_add(1),
            Decision::Withdraw { .. } => counts.withdrawn = counts.withdrawn.saturating_add(1),
        }
    }
    counts
}

fn push_counts(out: &mut String, counts: Counts) -> Result<(), AllocError> {
    let Counts {
        committed,
        refused,
        withdrawn,
    } = counts;
    write!(
        out,
        "{committed} committed {refused} refused {withdrawn} withdrawn\n"
    )
}

/// The counts, and what to type next.
fn push_counted(out: &mut String, counts: Counts) -> Result<(), AllocError> {
    push_counts(out, counts)?;
    out.push_str("type `sgt certify LOGS > BUNDLE`, then `sgt audit BUNDLE`, which says: yes ")?;
    push_counts(out, counts)?;
    if counts.refused == 0 {
        return Ok(());
    }
    let all = if counts.refused > MOST_REFUSALS as u64 {
        "--all "
    } else {
        ""
    };
    write!(
        out,
        "`sgt explain {all}BUNDLE` shows the cycle of each refused transaction\n"
    )
}

/// A yes, whose text is the whole bundle.
pub(crate) fn push_yes(alloc: Global, out: &mut String, bundle: &[u8]) -> Result<(), AllocError> {
    match from_line(alloc, text_at(bundle, 2)) {
        Ok(certificate) => push_counted(out, counts_of(certificate.decisions())),
        Err(CertFault::Memory) => Err(AllocError),
        Err(_) => out.push_str("\n"),
    }
}
