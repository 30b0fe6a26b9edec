//! The first fault that no certificate mends: the rule's line as `explain` has it for bundles, where it doesn't speak
//! of the certificate.

use crate::logs::{entry_in, fate_by, section_of};
use sgt_explain_decisions::push_not_ended;
use sgt_explain_lines::{
    Logged, Section, after_line, cut_line, push_block, push_final, push_format, push_item,
    push_logged, push_notation, push_numbered, push_read, push_section, push_truncated, push_twice,
    section_line_at, text_at, value_against,
};
use sgt_names::{Entry, Item, Tx, Value};
use sgt_notation::{SectionLine, read_entry};
use std::alloc::{AllocError, Global};
use std::fmt::Write;

/// F2: a line that spells nothing, or a certificate.
fn push_unread(out: &mut String, bytes: &[u8], line: u64) -> Result<(), AllocError> {
    let text = text_at(bytes, line);
    if line == 2 && text.first() == Some(&b'{') {
        out.push_str("Notation: this is a bundle, whose line 2 is its certificate\n")?;
        push_numbered(out, line, text)?;
        return out.push_str("`sgt audit` judges it; logs to certify are the same without line 2\n");
    }
    push_notation(out, bytes, line)
}

/// Whether the section before is over.
fn is_over(section: &Section) -> bool {
    matches!(section.last, Some(SectionLine::End))
}

/// What may stand behind the end of a section.
fn push_next_site(out: &mut String, section: &Section) -> Result<(), AllocError> {
    let site = section.site_number();
    let next = u32::from(site).saturating_add(1);
    write!(
        out,
        "the section of site {site} is over: behind it may stand `site {next}`, or nothing\n"
    )
}

/// F7: a line that the section doesn't allow.
fn push_unallowed(
    alloc: Global,
    out: &mut String,
    bytes: &[u8],
    line: u64,
) -> Result<(), AllocError> {
    let section = section_of(alloc, bytes, line)?;
    if !is_over(&section) {
        return push_section(out, bytes, line, &section);
    }
    out.push_str("Section: the section doesn't allow this line here\n")?;
    let before = line.saturating_sub(1);
    push_numbered(out, before, text_at(bytes, before))?;
    push_numbered(out, line, text_at(bytes, line))?;
    push_next_site(out, &section)
}

/// F18: the input ends.
fn push_cut_off(
    alloc: Global,
    out: &mut String,
    bytes: &[u8],
    line: u64,
) -> Result<(), AllocError> {
    let section = section_of(alloc, bytes, line)?;
    if line != 2 && !is_over(&section) {
        return push_truncated(out, bytes, line, &section);
    }
    out.push_str("Truncated: the input ends before its logs do\n")?;
    if after_line(bytes, line.saturating_sub(1)).is_empty() {
        write!(out, "line {line} isn't there\n")?;
    } else {
        push_numbered(out, line, text_at(bytes, line))?;
        write!(out, "line {line} has no LF, so it isn't whole\n")?;
    }
    if line == 2 {
        return out.push_str("the first section begins with `site 0`\n");
    }
    push_next_site(out, &section)
}

/// F19: more follows the last section.
fn push_behind(out: &mut String, bytes: &[u8], line: u64) -> Result<(), AllocError> {
    out.push_str("Trailing: the logs are over, and more bytes follow\n")?;
    push_numbered(out, line, text_at(bytes, line))?;
    let last = line.saturating_sub(1);
    write!(
        out,
        "line {last} ends site 63, the last that there may be: nothing may stand behind it\n"
    )
}

/// The transaction, the item and the value of a read.
fn read_of(entry: &Entry) -> Option<(Tx, Item, Value)> {
    match entry {
        Entry::Read { tx, item, value } => Some((*tx, *item, *value)),
        _ => None,
    }
}

/// The read's value against that of its item in the section.
fn push_read_in(out: &mut String, section: &Section, entry: &Entry) -> Result<(), AllocError> {
    let Some((tx, item, value)) = read_of(entry) else {
        return Ok(());
    };
    match value_against(section, &item, value) {
        Some(shown) => push_read(out, tx, &shown),
        None => Ok(()),
    }
}

/// F10: a read of another value than the item has.
fn push_misread(
    alloc: Global,
    out: &mut String,
    bytes: &[u8],
    line: u64,
) -> Result<(), AllocError> {
    let section = section_of(alloc, bytes, line)?;
    match entry_in(bytes, line) {
        Some(logged) => push_read_in(out, &section, &logged.entry),
        None => Ok(()),
    }
}

/// F16: a final of another value than the item has.
fn push_wrong_final(
    alloc: Global,
    out: &mut String,
    bytes: &[u8],
    line: u64,
) -> Result<(), AllocError> {
    let section = section_of(alloc, bytes, line)?;
    let Some(SectionLine::Final(holding)) = section_line_at(bytes, line) else {
        return Ok(());
    };
    match value_against(&section, &holding.item, holding.value) {
        Some(shown) => push_final(out, &shown),
        None => Ok(()),
    }
}

/// F8 and F9: an entry on an item that isn't there, or one that repeats another.
fn push_entry(
    alloc: Global,
    out: &mut String,
    bytes: &[u8],
    line: u64,
    is_twice: bool,
) -> Result<(), AllocError> {
    let section = section_of(alloc, bytes, line)?;
    match entry_in(bytes, line) {
        Some(logged) if is_twice => push_twice(out, &section, &logged),
        Some(logged) => push_item(out, &section, &logged),
        None => Ok(()),
    }
}

/// The end of the transaction among these entries.
fn end_among(entries: &[Logged], tx: Tx) -> Option<Logged> {
    for logged in entries {
        if logged.entry.is_end() && logged.entry.tx() == tx {
            return Some(*logged);
        }
    }
    None
}

/// The first entry of the transaction before a line that says how it ends.
fn first_asking(bytes: &[u8], line: u64, tx: Tx) -> Option<Logged> {
    let mut rest = bytes;
    for number in 1..line {
        let (text, behind) = cut_line(rest);
        if let Ok(entry) = read_entry(text) {
            if entry.tx() == tx && fate_by(&entry).is_some() {
                return Some(Logged {
                    line: number,
                    entry,
                });
            }
        }
        rest = behind;
    }
    None
}

/// Two entries, a line each.
fn push_two(out: &mut String, one: &Logged, other: &Logged) -> Result<(), AllocError> {
    push_logged(out, one)?;
    out.push_str("\n")?;
    push_logged(out, other)?;
    out.push_str("\n")
}

/// That two lines say two ends of one transaction.
fn push_two_fates(out: &mut String, one: &Logged, other: &Logged) -> Result<(), AllocError> {
    let tx = other.entry.tx();
    let (Some(fate), Some(last)) = (fate_by(&one.entry), fate_by(&other.entry)) else {
        return Ok(());
    };
    let (line, number) = (one.line, other.line);
    write!(
        out,
        "End: transaction {tx} is {fate} by line {line}, and {last} by line {number}\n"
    )?;
    push_two(out, one, other)?;
    out.push_str(
        "w, d and c are of committed ones, p, q and n of refused ones, a of withdrawn ones\n",
    )
}

/// F13: an entry whose transaction has ended, or that says another end than an earlier line does.
fn push_misplaced(
    alloc: Global,
    out: &mut String,
    bytes: &[u8],
    line: u64,
) -> Result<(), AllocError> {
    let section = section_of(alloc, bytes, line)?;
    let Some(logged) = entry_in(bytes, line) else {
        return Ok(());
    };
    let tx = logged.entry.tx();
    if let Some(ended) = end_among(section.entries.as_slice(), tx) {
        write!(
            out,
            "End: transaction {tx} has ended at this site, and nothing of it may follow\n"
        )?;
        return push_two(out, &ended, &logged);
    }
    match first_asking(bytes, line, tx) {
        Some(asking) => push_two_fates(out, &asking, &logged),
        None => Ok(()),
    }
}

/// What the fault of this number at this line means.
pub(crate) fn push_fault(
    alloc: Global,
    out: &mut String,
    bytes: &[u8],
    line: u64,
    number: u64,
) -> Result<(), AllocError> {
    match number {
        1 => push_format(out, bytes),
        2 => push_unread(out, bytes, line),
        7 => push_unallowed(alloc, out, bytes, line),
        8 => push_entry(alloc, out, bytes, line, false),
        9 => push_entry(alloc, out, bytes, line, true),
        10 => push_misread(alloc, out, bytes, line),
        12 => {
            let section = section_of(alloc, bytes, line)?;
            push_block(out, &section, line, text_at(bytes, line))
        }
        13 => push_misplaced(alloc, out, bytes, line),
        15 => {
            let section = section_of(alloc, bytes, line)?;
            push_not_ended(alloc, out, &[], &[], &section)?;
            out.push_str(
                "its end, a line c, n or a with its number, has to stand among the entries\n",
            )
        }
        16 => push_wrong_final(alloc, out, bytes, line),
        18 => push_cut_off(alloc, out, bytes, line),
        19 => push_behind(out, bytes, line),
        _ => Ok(()),
    }
}
