//! Ends that stand in no common order, and whether conflicts keep them there.

use crate::cycles::entries_of;
use crate::logs::entry_among;
use crate::steps::{Step, steps_in};
use crate::telling::{MOST_SHOWN, push_as_told, push_conflicts, push_cycle, push_more, push_names};
use sgt_explain_lines::{Logged, clash, cut_line, entry_of, verb};
use sgt_explain_transaction::{Own, Pair};
use sgt_names::{Entry, Item, Tx};
use std::alloc::{AllocError, Global};
use std::fmt::Write;

/// Two ends of a site, of which the first stands before the second.
#[derive(Clone, Copy)]
struct Ends {
    site: u8,
    first: Logged,
    second: Logged,
}

/// The ends that these lines tell.
fn ends_in(alloc: Global, bytes: &[u8], lines: &str) -> Result<Vec<Ends>, AllocError> {
    let steps = steps_in(alloc, lines)?;
    let found = entries_of(alloc, bytes, steps.as_slice())?;
    let mut ends = Vec::new(alloc);
    for step in &steps {
        let first = entry_among(found.as_slice(), step.first);
        let second = entry_among(found.as_slice(), step.second);
        if let (Some(first), Some(second)) = (first, second) {
            ends.push(Ends {
                site: step.site,
                first,
                second,
            })?;
        }
    }
    Ok(ends)
}

/// The transactions that end first at each step.
fn txs_of(alloc: Global, ends: &[Ends]) -> Result<Vec<Tx>, AllocError> {
    let mut txs = Vec::new(alloc);
    for two in ends {
        txs.push(two.first.entry.tx())?;
    }
    Ok(txs)
}

/// What the key of an entry is: its transaction, its site and its item.
fn key_of(own: &Own) -> (Tx, u8, Option<Item>) {
    (own.logged.entry.tx(), own.site, own.logged.entry.item())
}

/// The reads and changes of these transactions, which are sorted: by transaction, site and item.
fn deeds_of(alloc: Global, bytes: &[u8], sorted: &[Tx]) -> Result<Vec<Own>, AllocError> {
    let mut deeds = Vec::new(alloc);
    let mut site = 0u8;
    let mut rest = bytes;
    for line in 1..u64::MAX {
        let (text, behind) = cut_line(rest);
        if let Some(entry) = entry_of(&mut site, text) {
            if entry.item().is_some() && sorted.binary_search(&entry.tx()).is_ok() {
                deeds.push(Own {
                    site,
                    logged: Logged { line, entry },
                })?;
            }
        }
        rest = behind;
        if rest.is_empty() {
            break;
        }
    }
    deeds.sort_by_key(|own| key_of(own))?;
    Ok(deeds)
}

/// What two transactions did in conflict: of the one before the other, and of the other before the one.
#[derive(Clone, Copy)]
struct Met {
    along: Option<Pair>,
    against: Option<Pair>,
    are_committed: bool,
}

fn begins_with_read(pair: &Pair) -> bool {
    matches!(pair.first.entry, Entry::Read { .. })
}

/// Which of two conflicts is told: the first, unless the second alone begins with a read.
fn kept(found: Option<Pair>, pair: Pair) -> Option<Pair> {
    match found {
        Some(one) if begins_with_read(&one) || !begins_with_read(&pair) => Some(one),
        _ => Some(pair),
    }
}

/// The conflict of two deeds on an item, in the order of the log.
fn pair_of(own: &Own, other: &Own) -> Option<Pair> {
    let (first, second) = if own.logged.line < other.logged.line {
        (own.logged, other.logged)
    } else {
        (other.logged, own.logged)
    };
    let (item, _) = clash(&first.entry, &second.entry)?;
    Some(Pair {
        site: own.site,
        item,
        first,
        second,
    })
}

/// With the conflict of a deed of the one and a deed of the other, if they are in one.
fn with_deeds(met: Met, own: &Own, other: &Own) -> Met {
    let Some(pair) = pair_of(own, other) else {
        return met;
    };
    let mut more = met;
    if pair.first.entry.tx() == own.logged.entry.tx() {
        more.along = kept(met.along, pair);
    } else {
        more.against = kept(met.against, pair);
    }
    more
}

/// With the conflicts of a deed and those of the other transaction on its item, of which there are two at most.
fn with_deed(met: Met, deeds: &[Own], own: &Own, other: Tx) -> Met {
    let key = (other, own.site, own.logged.entry.item());
    let from = deeds.partition_point(|deed| key_of(deed) < key);
    let mut more = met;
    for at in from..from.saturating_add(2) {
        match deeds.get(at) {
            Some(deed) if key_of(deed) == key => {
                more = with_deeds(more, own, deed);
            }
            _ => return more,
        }
    }
    more
}

/// What the two transactions of these ends did in conflict.
fn met_of(deeds: &[Own], two: &Ends) -> Met {
    let one = two.first.entry.tx();
    let other = two.second.entry.tx();
    let mut met = Met {
        along: None,
        against: None,
        are_committed: matches!(two.first.entry, Entry::Commit { .. })
            && matches!(two.second.entry, Entry::Commit { .. }),
    };
    let from = deeds.partition_point(|deed| deed.logged.entry.tx() < one);
    for at in from..deeds.len() {
        match deeds.get(at) {
            Some(own) if own.logged.entry.tx() == one => {
                met = with_deed(met, deeds, own, other);
            }
            _ => return met,
        }
    }
    met
}

/// The same of each step.
fn mets_of(alloc: Global, bytes: &[u8], ends: &[Ends]) -> Result<Vec<Met>, AllocError> {
    let mut sorted = txs_of(alloc, ends)?;
    sorted.sort()?;
    let deeds = deeds_of(alloc, bytes, sorted.as_slice())?;
    let mut mets = Vec::new(alloc);
    for two in ends {
        let Met {
            along,
            against,
            are_committed,
        } = met_of(deeds.as_slice(), two);
        mets.push(Met {
            along,
            against,
            are_committed,
        })?;
    }
    Ok(mets)
}

/// Each conflict once: of two transactions the second step has those of the first again.
fn pairs_of(alloc: Global, mets: &[Met]) -> Result<Vec<Pair>, AllocError> {
    let mut pairs = Vec::new(alloc);
    for (place, met) in mets.iter().enumerate() {
        if place == 1 && mets.len() == 2 {
            return Ok(pairs);
        }
        if let Some(pair) = met.along {
            pairs.push(pair)?;
        }
        if let Some(pair) = met.against {
            pairs.push(pair)?;
        }
    }
    Ok(pairs)
}

/// The conflicts that lead round with the ends, or back against them; none where a step has none, or isn't of
/// committed transactions.
fn round(alloc: Global, mets: &[Met], is_back: bool) -> Result<Vec<Pair>, AllocError> {
    let mut pairs = Vec::new(alloc);
    for met in mets {
        let found = if is_back { met.against } else { met.along };
        match found {
            Some(pair) if met.are_committed => pairs.push(pair)?,
            _ => {
                pairs.clear();
                return Ok(pairs);
            }
        }
    }
    if is_back {
        pairs.reverse();
    }
    Ok(pairs)
}

/// A cycle among these conflicts of committed transactions: of two of them there and back, or round. Nothing where
/// they are in none.
fn circle_of(alloc: Global, mets: &[Met]) -> Result<Vec<Pair>, AllocError> {
    for met in mets {
        if let (true, Some(along), Some(against)) = (met.are_committed, met.along, met.against) {
            let mut pairs = Vec::new(alloc);
            pairs.push(along)?;
            pairs.push(against)?;
            return Ok(pairs);
        }
    }
    let along = round(alloc, mets, false)?;
    if !along.as_slice().is_empty() {
        return Ok(along);
    }
    round(alloc, mets, true)
}

/// The ends in words, with their lines.
fn push_ends(out: &mut String, ends: &[Ends]) -> Result<(), AllocError> {
    for two in ends.iter().take(MOST_SHOWN) {
        let (one, other) = (two.first.entry.tx(), two.second.entry.tx());
        let (before, behind) = (verb(&two.first.entry), verb(&two.second.entry));
        let site = two.site;
        let (line, last) = (two.first.line, two.second.line);
        write!(
            out,
            "  {one} {before} before {other} {behind}: site {site}, lines {line} and {last}\n"
        )?;
    }
    push_more(out, ends.len())
}

/// What is to be done where no cycle of conflicts keeps the ends where they are.
const ADVICE: &str =
    "log the ends in the order of decision, one order at all sites, and certify again\n";

/// That nothing is in conflict. Of more than three transactions only neighbours were looked at.
fn push_harmless(out: &mut String, count: usize) -> Result<(), AllocError> {
    let whom = if count > 3 {
        "one and the next"
    } else {
        "them"
    };
    write!(
        out,
        "nothing in conflict stands between {whom}: as two-phase commits leave it, and harmless in itself\n"
    )?;
    out.push_str(ADVICE)
}

/// The words before conflicts in which no cycle was found. One through who was refused is no fault, and isn't sought.
fn in_conflict(mets: &[Met]) -> &'static str {
    for met in mets {
        if !met.are_committed {
            return "in conflict:\n";
        }
    }
    "in conflict, but in no cycle:\n"
}

/// What stands between the transactions: nothing in conflict, conflicts in no cycle, or a cycle of conflicts.
fn push_between(
    alloc: Global,
    out: &mut String,
    pairs: &[Pair],
    mets: &[Met],
) -> Result<(), AllocError> {
    if pairs.is_empty() {
        return push_harmless(out, mets.len());
    }
    let circle = circle_of(alloc, mets)?;
    if circle.as_slice().is_empty() {
        out.push_str(in_conflict(mets))?;
        push_conflicts(out, pairs)?;
        return out.push_str(ADVICE);
    }
    out.push_str(
        "their conflicts close a cycle too, a real one, which no order of the ends mends:\n",
    )?;
    push_cycle(out, circle.as_slice())
}

/// `no order`: the ends that stand against one another, and what stands between their transactions.
pub(crate) fn push_order(
    alloc: Global,
    out: &mut String,
    bytes: &[u8],
    lines: &str,
) -> Result<(), AllocError> {
    let ends = ends_in(alloc, bytes, lines)?;
    if ends.as_slice().is_empty() {
        return push_as_told(
            out,
            "the ends of these transactions go round, in this order:\n",
            lines,
        );
    }
    let txs = txs_of(alloc, ends.as_slice())?;
    out.push_str("the sites log the ends of transactions ")?;
    push_names(out, txs.as_slice())?;
    out.push_str(" in orders that contradict one another:\n")?;
    push_ends(out, ends.as_slice())?;
    let mets = mets_of(alloc, bytes, ends.as_slice())?;
    let pairs = pairs_of(alloc, mets.as_slice())?;
    push_between(alloc, out, pairs.as_slice(), mets.as_slice())
}
