//! The conflicts of one transaction, each in its direction.

ghost use Rattle.std.specs.Prelude.{◌≡◌, ◌++◌, ◌∷◌, [], ℕ, List, IfOk, OnOk, string_bytes};
ghost use Rattle.std.specs.List.Sorted.{IsSorted};
ghost use Rattle.sgt_explain_transaction.specs.Conflicts.{count_text, pair_text};
ghost use Rattle.sgt_explain_transaction.specs.Found.{AreEntriesBefore, ShowsMore, clash_of, conflict_with, conflicts_among, conflicts_with, item_cmp};
ghost use Rattle.sgt_explain_transaction.specs.declared.dealings.Own.{Own as AnOwn};

use crate::dealings::{Own, entry_at};
use crate::sorted::beside;
use sgt_explain_lines::{Logged, clash, cut_line, push_conflict};
use sgt_names::Item;
use std::alloc::AllocError;
use std::fmt::Write;

/// How many conflicts are shown; the others are counted.
const MOST_SHOWN: u64 = 40;

/// Two entries of a site in conflict on an item.
#[derive(Clone, Copy)]
pub struct Pair {
    pub site: u8,
    pub item: Item,
    pub first: Logged,
    pub second: Logged,
}

/// The conflict that the second entry is in with the first, which stands before it.
fn clashing(site: u8, first: &Logged, second: &Logged) -> Option<Pair>
    ensures { result ≡ clash_of site first.now second.now }
{
    match clash(&first.entry, &second.entry) {
        Some((item, _)) => Some(Pair {
            site,
            item,
            first: *first,
            second: *second,
        }),
        None => None,
    }
}

/// The conflict of an entry with one of the transaction's at its site, in the order of the log.
fn pair_of(own: &Own, other: &Own) -> Option<Pair>
    ensures { result ≡ conflict_with other.now own.now }
{
    if own.site != other.site {
        return None;
    }
    if own.logged.line < other.logged.line {
        clashing(own.site, &own.logged, &other.logged)
    } else {
        clashing(own.site, &other.logged, &own.logged)
    }
}

/// A conflict, as a line.
fn push_pair(out: &mut String, pair: &Pair) -> Result<(), AllocError>
    ensures { OnOk result (string_bytes out.new ≡ string_bytes out.old ++ pair_text pair.now) }
{
    out.push_str("  ")?;
    push_conflict(out, pair.site, &pair.item, &pair.first, &pair.second)?;
    out.push_str("\n")
}

/// The same, and counts it. What is too many is counted alone.
fn show_pair(out: &mut String, pair: &Pair, count: &mut u64) -> Result<(), AllocError>
    ensures { OnOk result
        (ShowsMore (pair.now ∷ []) (string_bytes out.old) count.old (string_bytes out.new) count.new) }
{
    let shown = *count;
    *count = shown.saturating_add(1);
    if shown < MOST_SHOWN {
        push_pair(out, pair)
    } else {
        Ok(())
    }
}

/// The conflict of an entry with one of the transaction's, if there is one.
fn push_if_pair(out: &mut String, own: &Own, other: &Own, count: &mut u64) -> Result<(), AllocError>
    ensures { OnOk result (ShowsMore (conflicts_with (own.now ∷ []) other.now)
        (string_bytes out.old) count.old (string_bytes out.new) count.new) }
{
    match pair_of(own, other) {
        Some(pair) => show_pair(out, &pair, count),
        None => Ok(()),
    }
}

/// The conflicts of an entry with those of the transaction on its item.
fn push_pairs(
    out: &mut String,
    sorted: &[Own],
    other: &Own,
    count: &mut u64,
) -> Result<(), AllocError>
    requires { IsSorted item_cmp sorted.now }
    ensures { OnOk result (ShowsMore (conflicts_with sorted.now other.now)
        (string_bytes out.old) count.old (string_bytes out.new) count.new) }
{
    let run = beside(sorted, other);
    for own in run {
        push_if_pair(out, own, other, count)?;
    }
    Ok(())
}

/// The conflicts of the transaction in the lines before this one: how many there are.
pub(crate) fn push_conflicts(
    out: &mut String,
    sorted: &[Own],
    bytes: &[u8],
    end: u64,
) -> Result<u64, AllocError>
    requires { IsSorted item_cmp sorted.now }
    ensures { IfOk result (λ count. (read : List AnOwn) × AreEntriesBefore bytes.now end read
        × ShowsMore (conflicts_among sorted.now read) (string_bytes out.old) 0
        (string_bytes out.new) count) }
{
    let mut count = 0u64;
    let mut site = 0u8;
    let mut rest = bytes;
    for line in 1..end {
        let (text, behind) = cut_line(rest);
        if let Some(entry) = entry_at(&mut site, line, text) {
            let logged = Logged { line, entry };
            push_pairs(out, sorted, &Own { site, logged }, &mut count)?;
        }
        rest = behind;
        if rest.is_empty() {
            break;
        }
    }
    Ok(count)
}

/// That there is no conflict, or how many there are behind those that are shown.
pub(crate) fn push_count(out: &mut String, count: u64) -> Result<(), AllocError>
    ensures { OnOk result (string_bytes out.new ≡ string_bytes out.old ++ count_text count) }
{
    match count {
        0 => out.push_str("  with nobody\n"),
        _ if count > MOST_SHOWN => {
            let more = count.saturating_sub(MOST_SHOWN);
            writeln!(out, "  and {more} more")
        }
        _ => out.push_str(""),
    }
}
