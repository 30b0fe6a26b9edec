//! The verdict on a bundle, and its line.

ghost use Rattle.std.specs.Prelude.{◌≡◌, ℕ, List, IfOk, string_bytes};
ghost use Rattle.sgt_audit.specs.Verdict.{IsVerdict, yes_of, text_of};
ghost use Rattle.sgt_audit.specs.private.Stops.{IsJudged};

use crate::faults::{Fault, FirstFault};
use crate::kept::Kept;
use sgt_bundle::Decision;
use std::alloc::{AllocError, Global};

/// What the auditor says of a text.
#[derive(Clone, Copy, Debug, PartialEq, Eq)]
pub enum Verdict {
    /// It spells a valid bundle with so many decisions of each kind.
    Yes {
        committed: u64,
        refused: u64,
        withdrawn: u64,
    },
    /// It has a fault, at this line first. Lines are counted from 1.
    No {
        line: u64,
        fault: Fault,
    },
}

/// The yes with the counts of these decisions.
pub fn yes_to(decisions: &[Decision]) -> Verdict
    ensures { result ≡ yes_of decisions.now }
{
    let mut committed = 0u64;
    let mut refused = 0u64;
    let mut withdrawn = 0u64;
    for decision in decisions {
        committed += u64::from(decision.is_commit());
        refused += u64::from(decision.is_refusal());
        withdrawn += u64::from(decision.is_withdrawal());
    }
    Verdict::Yes {
        committed,
        refused,
        withdrawn,
    }
}

/// The verdict on a text that was judged.
pub fn verdict_on(judged: Result<Kept, FirstFault>) -> Verdict
    ensures { (bytes : List ℕ) → IsJudged judged bytes → IsVerdict bytes result }
{
    match judged {
        Ok(kept) => yes_to(kept.certificate.decisions()),
        Err(first) => Verdict::No {
            line: first.line,
            fault: first.fault,
        },
    }
}

impl Verdict {
    /// Its line, with the LF: `yes C committed R refused W withdrawn` or `no line L FN`. An Err is want of memory.
    pub fn to_line(self, alloc: Global) -> Result<String, AllocError>
        ensures { IfOk result (λ s. string_bytes s ≡ text_of self) }
    {
        match self {
            Verdict::Yes {
                committed,
                refused,
                withdrawn,
            } => {
                format!(in alloc;
                    "yes {committed} committed {refused} refused {withdrawn} withdrawn\n"
                )
            }
            Verdict::No { line, fault } => {
                let number = fault.number();
                format!(in alloc; "no line {line} F{number}\n")
            }
        }
    }
}
