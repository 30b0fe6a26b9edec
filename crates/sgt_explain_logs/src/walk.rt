//! Refused transactions that lie on no cycle.

use crate::logs::entry_in;
use crate::steps::{Left, left_in};
use crate::telling::push_as_told;
use sgt_explain_lines::{Logged, cut_line, push_aside};
use sgt_explain_transaction::push_dealings;
use sgt_names::{Entry, Tx};
use sgt_notation::read_entry;
use std::alloc::{AllocError, Global};
use std::fmt::Write;

// How many refused transactions are shown with what they did.
const MOST_STUCK: usize = 3;

/// The next end of a site.
#[derive(Clone, Copy)]
struct Next {
    site: u8,
    logged: Logged,
}

/// The next ends that these lines tell.
fn nexts_of(alloc: Global, bytes: &[u8], left: &[Left]) -> Result<Vec<Next>, AllocError> {
    let mut nexts = Vec::new(alloc);
    for end in left {
        if let Some(Logged { line, entry }) = entry_in(bytes, end.line) {
            nexts.push(Next {
                site: end.site,
                logged: Logged { line, entry },
            })?;
        }
    }
    Ok(nexts)
}

/// How many of these ends are the transaction's.
fn count_among(nexts: &[Next], tx: Tx) -> usize {
    let mut count = 0usize;
    for next in nexts {
        if next.logged.entry.tx() == tx {
            count = count.saturating_add(1);
        }
    }
    count
}

/// The transactions of the ends of the text that are among these: each as often as it ends.
fn ended_in(alloc: Global, bytes: &[u8], nexts: &[Next]) -> Result<Vec<Tx>, AllocError> {
    let mut ended = Vec::new(alloc);
    let mut rest = bytes;
    for _ in 1..u64::MAX {
        let (text, behind) = cut_line(rest);
        if let Ok(entry) = read_entry(text) {
            if entry.is_end() && count_among(nexts, entry.tx()) > 0 {
                ended.push(entry.tx())?;
            }
        }
        rest = behind;
        if rest.is_empty() {
            break;
        }
    }
    Ok(ended)
}

fn count_in(ended: &[Tx], tx: Tx) -> usize {
    let mut count = 0usize;
    for one in ended {
        if *one == tx {
            count = count.saturating_add(1);
        }
    }
    count
}

/// Whether the transaction is next at each site where it ends.
fn is_next(nexts: &[Next], ended: &[Tx], tx: Tx) -> bool {
    count_among(nexts, tx) == count_in(ended, tx)
}

/// The refused ones that are next at each site where they end.
fn stuck_of(alloc: Global, nexts: &[Next], ended: &[Tx]) -> Result<Vec<Tx>, AllocError> {
    let mut stuck = Vec::new(alloc);
    for next in nexts {
        let tx = next.logged.entry.tx();
        let is_refused = matches!(next.logged.entry, Entry::Refuse { .. });
        if is_refused && is_next(nexts, ended, tx) && count_in(stuck.as_slice(), tx) == 0 {
            stuck.push(tx)?;
        }
    }
    Ok(stuck)
}

/// The next ends, each with its line.
fn push_nexts(out: &mut String, nexts: &[Next], ended: &[Tx]) -> Result<(), AllocError> {
    for next in nexts {
        push_aside(out, &next.logged)?;
        let site = next.site;
        if is_next(nexts, ended, next.logged.entry.tx()) {
            write!(out, "site {site}\n")?;
        } else {
            write!(out, "site {site}, where it waits for another site\n")?;
        }
    }
    Ok(())
}

/// That these transactions lie on no cycle, with what they did, and what is to be done.
fn push_stuck(
    alloc: Global,
    out: &mut String,
    bytes: &[u8],
    stuck: &[Tx],
) -> Result<(), AllocError> {
    for tx in stuck.iter().take(MOST_STUCK) {
        let tx = *tx;
        write!(
            out,
            "transaction {tx} was refused, and lies on no cycle with transactions that were committed before it:\n"
        )?;
        push_dealings(alloc, out, bytes, u64::MAX, tx)?;
    }
    let more = stuck.len().saturating_sub(MOST_STUCK);
    if more > 0 {
        write!(out, "and so {more} more\n")?;
    }
    out.push_str(
        "what was aborted for another reason (a deadlock, a time-out, its client) is withdrawn: log `a` in place of \
        `n`, and no `p` or `q`\nelse the conflict that closes the cycle is missing in the logs\n",
    )
}

/// `no walk`: the next ends, and the refused transactions among them that lie on no cycle.
pub(crate) fn push_walk(
    alloc: Global,
    out: &mut String,
    bytes: &[u8],
    lines: &str,
) -> Result<(), AllocError> {
    let left = left_in(alloc, lines)?;
    if left.as_slice().is_empty() {
        return push_as_told(
            out,
            "these can be decided, and whoever is next is refused and lies on no cycle:\n",
            lines,
        );
    }
    let nexts = nexts_of(alloc, bytes, left.as_slice())?;
    let ended = ended_in(alloc, bytes, nexts.as_slice())?;
    out.push_str("all is decided that can be, and the next ends are:\n")?;
    push_nexts(out, nexts.as_slice(), ended.as_slice())?;
    let stuck = stuck_of(alloc, nexts.as_slice(), ended.as_slice())?;
    push_stuck(alloc, out, bytes, stuck.as_slice())
}
