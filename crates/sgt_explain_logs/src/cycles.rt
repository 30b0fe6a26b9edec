//! The cycle of committed conflicts behind `no ranks`.

use crate::logs::{entries_in, entry_among};
use crate::steps::{Step, steps_in};
use crate::telling::{push_as_told, push_cycle, push_names};
use sgt_explain_lines::Logged;
use sgt_explain_transaction::Pair;
use sgt_names::Tx;
use std::alloc::{AllocError, Global};

/// The entries of the lines that the steps tell.
pub(crate) fn entries_of(
    alloc: Global,
    bytes: &[u8],
    steps: &[Step],
) -> Result<Vec<Logged>, AllocError> {
    let mut numbers = Vec::new(alloc);
    for step in steps {
        numbers.push(step.first)?;
        numbers.push(step.second)?;
    }
    numbers.sort()?;
    entries_in(alloc, bytes, numbers.as_slice())
}

/// The conflicts of the cycle that these lines tell of the logs: `1 rw 2 site 0 item x lines 4 8`, a line each. Each
/// leads from the transaction of its first entry to that of its second, and the last one back to where the first
/// began.
fn cycle_in(alloc: Global, bytes: &[u8], lines: &str) -> Result<Vec<Pair>, AllocError> {
    let steps = steps_in(alloc, lines)?;
    let found = entries_of(alloc, bytes, steps.as_slice())?;
    let mut pairs = Vec::new(alloc);
    for step in &steps {
        let first = entry_among(found.as_slice(), step.first);
        let second = entry_among(found.as_slice(), step.second);
        if let (Some(first), Some(second)) = (first, second) {
            if let Some(item) = first.entry.item() {
                pairs.push(Pair {
                    site: step.site,
                    item,
                    first,
                    second,
                })?;
            }
        }
    }
    Ok(pairs)
}

/// The transactions from which the conflicts lead.
fn sources(alloc: Global, pairs: &[Pair]) -> Result<Vec<Tx>, AllocError> {
    let mut txs = Vec::new(alloc);
    for pair in pairs {
        txs.push(pair.first.entry.tx())?;
    }
    Ok(txs)
}

/// `no ranks`: the conflicts of the cycle, and its name.
pub(crate) fn push_ranks(
    alloc: Global,
    out: &mut String,
    bytes: &[u8],
    lines: &str,
) -> Result<(), AllocError> {
    let pairs = cycle_in(alloc, bytes, lines)?;
    if pairs.as_slice().is_empty() {
        return push_as_told(
            out,
            "the conflicts of these committed transactions go round, in this order:\n",
            lines,
        );
    }
    let txs = sources(alloc, pairs.as_slice())?;
    out.push_str("transactions ")?;
    push_names(out, txs.as_slice())?;
    out.push_str(
        " were committed, and their conflicts close a cycle, so no serial order agrees with them:\n",
    )?;
    push_cycle(out, pairs.as_slice())
}
