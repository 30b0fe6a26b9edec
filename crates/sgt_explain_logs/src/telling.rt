//! Transactions, ends and conflicts in words.

use crate::anomaly::push_anomaly;
use sgt_explain_lines::push_conflict;
use sgt_explain_transaction::Pair;
use sgt_names::Tx;
use std::alloc::AllocError;
use std::fmt::Write;

/// How many lines of a kind are shown; the others are counted.
pub(crate) const MOST_SHOWN: usize = 40;

// How many transactions are named in a sentence; the others are counted.
const MOST_NAMED: usize = 8;

/// What stands before the name at this place, of so many.
fn comma(place: usize, count: usize) -> &'static str {
    if place == 0 {
        ""
    } else if place.saturating_add(1) == count {
        " and "
    } else {
        ", "
    }
}

/// The transactions in a sentence: `1, 2 and 3`.
pub(crate) fn push_names(out: &mut String, txs: &[Tx]) -> Result<(), AllocError> {
    let count = txs.len();
    for (place, tx) in txs.iter().enumerate() {
        if place == MOST_NAMED {
            let more = count.saturating_sub(place);
            return write!(out, " and {more} more");
        }
        out.push_str(comma(place, count))?;
        write!(out, "{tx}")?;
    }
    Ok(())
}

/// How many lines are left out, of so many.
pub(crate) fn push_more(out: &mut String, count: usize) -> Result<(), AllocError> {
    if count <= MOST_SHOWN {
        return Ok(());
    }
    let more = count.saturating_sub(MOST_SHOWN);
    write!(out, "  and {more} more\n")
}

/// Conflicts, a line each.
pub(crate) fn push_conflicts(out: &mut String, pairs: &[Pair]) -> Result<(), AllocError> {
    for pair in pairs.iter().take(MOST_SHOWN) {
        out.push_str("  ")?;
        push_conflict(out, pair.site, &pair.item, &pair.first, &pair.second)?;
        out.push_str("\n")?;
    }
    push_more(out, pairs.len())
}

/// The conflicts of a cycle, a line each, and what the cycle is called.
pub(crate) fn push_cycle(out: &mut String, pairs: &[Pair]) -> Result<(), AllocError> {
    push_conflicts(out, pairs)?;
    push_anomaly(out, pairs)
}

/// These lines of an answer as they stand, where they tell transactions alone.
pub(crate) fn push_as_told(out: &mut String, words: &str, lines: &str) -> Result<(), AllocError> {
    out.push_str(words)?;
    let mut count = 0usize;
    for line in lines.split('\n') {
        if count < MOST_SHOWN && !line.is_empty() {
            write!(out, "  {line}\n")?;
        }
        count = count.saturating_add(1);
    }
    push_more(out, count.saturating_sub(1))
}
