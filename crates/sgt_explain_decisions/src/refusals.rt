//! The refused transactions of a yes, with their cycles.

ghost use Rattle.std.specs.Prelude.{◌≡◌, ◌≤◌, ◌<◌, ◌++◌, IfNone, IfSome, OnOk, count_by, drop, length, string_bytes, take};
ghost use Rattle.sgt_bundle.specs.Certificate.{is_refusal};
ghost use Rattle.sgt_explain_decisions.specs.Refusals.{TellsFirstRefusals, TellsRefusals, more_refusals_text};

use crate::cycles::push_cycles;
use crate::fate::all_sought;
use sgt_bundle::Decision;
use std::alloc::{AllocError, Global};
use std::fmt::Write;

/// How many refused transactions are shown where not all are asked for.
pub const MOST_REFUSALS: usize = 100;

/// Each refused transaction with its cycle, by what the text has.
pub fn push_refusals(
    alloc: Global,
    out: &mut String,
    decisions: &[Decision],
    bytes: &[u8],
) -> Result<(), AllocError>
    ensures { OnOk result (TellsRefusals decisions.now bytes.now
        (string_bytes out.old) (string_bytes out.new)) }
{
    let sought = all_sought(alloc, decisions, bytes)?;
    push_cycles(out, decisions, &sought)
}

/// The number of the refusal behind the first so many, where there are more.
fn refusal_behind(decisions: &[Decision], most: usize) -> Option<usize>
    ensures front { IfSome result (λ n. count_by is_refusal (take n decisions.now) ≡ most) }
    ensures more { IfSome result (λ n. (n < length decisions.now) × (most < count_by is_refusal decisions.now)) }
    ensures none { IfNone result (count_by is_refusal decisions.now ≤ most) }
{
    let mut met = 0usize;
    for (number, decision) in decisions.iter().enumerate() {
        if decision.is_refusal() {
            if met == most {
                return Some(number);
            }
            met += 1;
        }
    }
    None
}

/// How many of the decisions are refusals.
fn refusals_in(decisions: &[Decision]) -> usize
    ensures { result ≡ count_by is_refusal decisions.now }
{
    let mut met = 0usize;
    for decision in decisions {
        if decision.is_refusal() {
            met += 1;
        }
    }
    met
}

/// How many more there are.
fn push_more(out: &mut String, more: usize) -> Result<(), AllocError>
    ensures { OnOk result (string_bytes out.new ≡ string_bytes out.old ++ more_refusals_text more) }
{
    write!(
        out,
        "and {more} more: `sgt explain --all` shows the cycle of each refused transaction\n"
    )
}

/// The first hundred refused transactions with their cycles, and how many more there are.
pub fn push_first_refusals(
    alloc: Global,
    out: &mut String,
    decisions: &[Decision],
    bytes: &[u8],
) -> Result<(), AllocError>
    ensures { OnOk result (TellsFirstRefusals decisions.now bytes.now
        (string_bytes out.old) (string_bytes out.new)) }
{
    let Some(behind) = refusal_behind(decisions, MOST_REFUSALS) else {
        return push_refusals(alloc, out, decisions, bytes);
    };
    push_refusals(alloc, out, &decisions[..behind], bytes)?;
    push_more(out, refusals_in(&decisions[behind..]))
}
