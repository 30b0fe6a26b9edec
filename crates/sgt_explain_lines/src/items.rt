//! What is said of an entry by the entries before it on its item.

ghost use Rattle.std.specs.Prelude.{◌≡◌, ◌-◌, ◌↔◌, ◌++◌, [], Some, None, IsTrue, OnOk, length, slice_get, string_bytes, unwrap_or};
ghost use Rattle.sgt_names.specs.Name.{Name};
ghost use Rattle.sgt_names.specs.Entry.{tx_of, item_of, is_increment, Repeats};
ghost use Rattle.sgt_explain_lines.specs.Beside.{AreNearest, IsRepeated, nearest_text, item_words, twice_verb, twice_head, line_if_there, repeating_text, block_letters, block_rule, block_words, ShowsNearest, ShowsTwice, ShowsBlock};
ghost use Rattle.sgt_explain_lines.specs.Told.{maker_text, listed_text, made_text, until_text, reason_text, history_text, found_text, read_front, read_head, read_text, final_front, final_text};

use crate::entries::verb;
use crate::section::{Logged, Section, Stated};
use crate::shown::{push_aside, push_bar, push_logged, push_numbered};
use crate::values::{Made, Misvalued};
use sgt_names::{Entry, Item, Tx, Value};
use std::alloc::AllocError;
use std::fmt::Write;

/// The name nearest before this one, and the nearest behind it. Names rise.
fn neighbours(items: &[Stated], item: &Item) -> (Option<Item>, Option<Item>)
    ensures { AreNearest items.now item.now result.0 result.1 }
{
    let mut before = None;
    for stated in items {
        let other = stated.holding.item;
        if *item < other {
            return (before, Some(other));
        }
        before = Some(other);
    }
    (before, None)
}

/// That the site has no such item.
fn push_unlisted(out: &mut String, site: u8, item: Item) -> Result<(), AllocError>
    ensures { OnOk result (string_bytes out.new ≡ string_bytes out.old ++ item_words item site) }
{
    write!(out, "Item: site {site} has no item {item}\n")
}

/// The name of an item, as the only one near.
fn push_one_near(out: &mut String, one: Item) -> Result<(), AllocError>
    ensures { OnOk result (string_bytes out.new ≡ string_bytes out.old ++ nearest_text (Some one) None) }
{
    write!(out, "\nthe nearest by name there: {one}\n")
}

/// The names of two items, as those near.
fn push_two_near(out: &mut String, one: Item, other: Item) -> Result<(), AllocError>
    ensures { OnOk result (string_bytes out.new ≡ string_bytes out.old ++ nearest_text (Some one) (Some other)) }
{
    write!(out, "\nthe nearest by name there: {one}, {other}\n")
}

/// The names of items nearest to one that isn't there.
fn push_nearest(
    out: &mut String,
    before: Option<Item>,
    behind: Option<Item>,
) -> Result<(), AllocError>
    ensures { OnOk result (string_bytes out.new ≡ string_bytes out.old ++ nearest_text before behind) }
{
    match (before, behind) {
        (None, None) => out.push_str("\nthe site has no items\n"),
        (Some(one), None) | (None, Some(one)) => push_one_near(out, one),
        (Some(one), Some(other)) => push_two_near(out, one, other),
    }
}

/// F8: an item that isn't there.
pub fn push_item(out: &mut String, section: &Section, logged: &Logged) -> Result<(), AllocError>
    ensures shown { (item : Name) → item_of logged.now.entry ≡ Some item
        → OnOk result (ShowsNearest section.now.items.items item (unwrap_or section.now.site 0) logged.now
        (string_bytes out.old) (string_bytes out.new)) }
    ensures none { item_of logged.now.entry ≡ None → string_bytes out.new ≡ string_bytes out.old }
{
    let Some(item) = logged.entry.item() else {
        return Ok(());
    };
    push_unlisted(out, section.site_number(), item)?;
    push_logged(out, logged)?;
    let (before, behind) = neighbours(section.items.as_slice(), &item);
    push_nearest(out, before, behind)
}

/// Whether the one entry reads the item as the other does, or changes it as the other does, and both are of one
/// transaction.
fn repeats(one: &Entry, other: &Entry, item: &Item) -> bool
    ensures { IsTrue result ↔ Repeats item.now one.now other.now }
{
    one.tx() == other.tx()
        && ((one.reads(item) && other.reads(item)) || (one.writes(item) && other.writes(item)))
}

/// The entry before this one that it repeats.
fn repeated(entries: &[Logged], entry: &Entry, item: &Item) -> Option<Logged>
    ensures { IsRepeated entries.now item.now entry.now result }
{
    for other in entries {
        if repeats(&other.entry, entry, item) {
            return Some(*other);
        }
    }
    None
}

/// What the transaction of the entry did twice.
fn twice_verb(entry: &Entry) -> &'static str
    ensures { result.now ≡ twice_verb entry.now }
{
    match entry {
        Entry::Read { .. } => "reads",
        _ => "changes, or asks to change,",
    }
}

/// That the transaction of the entry did so.
fn push_twice_head(out: &mut String, entry: &Entry, item: Item, site: u8) -> Result<(), AllocError>
    ensures { OnOk result (string_bytes out.new ≡ string_bytes out.old ++ twice_head entry.now item site) }
{
    let tx = entry.tx();
    let what = twice_verb(entry);
    write!(
        out,
        "Twice: transaction {tx} {what} item {item} of site {site} a second time\n"
    )
}

/// The line of an entry, if there is one.
pub fn push_if_there(out: &mut String, logged: &Option<Logged>) -> Result<(), AllocError>
    ensures { OnOk result (string_bytes out.new ≡ string_bytes out.old ++ line_if_there logged.now) }
{
    match logged {
        Some(first) => {
            push_logged(out, first)?;
            out.push_str("\n")
        }
        None => out.push_str(""),
    }
}

/// The entry that repeats another, and the rule.
fn push_repeating(out: &mut String, logged: &Logged) -> Result<(), AllocError>
    ensures { OnOk result (string_bytes out.new ≡ string_bytes out.old ++ repeating_text logged.now) }
{
    push_logged(out, logged)?;
    out.push_str(
        "\na transaction reads an item once at most, and changes it or asks to once at most\n",
    )
}

/// F9: a second read or change.
pub fn push_twice(out: &mut String, section: &Section, logged: &Logged) -> Result<(), AllocError>
    ensures shown { (item : Name) → item_of logged.now.entry ≡ Some item
        → OnOk result (ShowsTwice section.now.entries.items item (unwrap_or section.now.site 0) logged.now
        (string_bytes out.old) (string_bytes out.new)) }
    ensures none { item_of logged.now.entry ≡ None → string_bytes out.new ≡ string_bytes out.old }
{
    let Some(item) = logged.entry.item() else {
        return Ok(());
    };
    push_twice_head(out, &logged.entry, item, section.site_number())?;
    let first = repeated(section.entries.as_slice(), &logged.entry, &item);
    push_if_there(out, &first)?;
    push_repeating(out, logged)
}

/// Who made a value: what is said of its line.
fn push_maker(out: &mut String, made: &Made, entry: &Entry) -> Result<(), AllocError>
    ensures { OnOk result (string_bytes out.new
        ≡ string_bytes out.old ++ maker_text (tx_of entry.now) made.now.value (is_increment entry.now)) }
{
    let tx = entry.tx();
    let value = made.value;
    if entry.is_increment() {
        write!(out, "transaction {tx} added to it, which gave {value}\n")
    } else {
        write!(out, "transaction {tx} wrote it\n")
    }
}

/// The line that lists the item, without its number.
fn push_listed(out: &mut String, item: Item, value: Value) -> Result<(), AllocError>
    ensures { OnOk result (string_bytes out.new ≡ string_bytes out.old ++ listed_text item value) }
{
    write!(out, "item {item}={value}     its initial value\n")
}

/// The line that made the value of an item.
fn push_made(out: &mut String, item: &Item, made: &Made) -> Result<(), AllocError>
    ensures { OnOk result (string_bytes out.new ≡ string_bytes out.old ++ made_text item.now made.now) }
{
    match &made.by {
        Some(logged) => {
            push_aside(out, logged)?;
            push_maker(out, made, &logged.entry)
        }
        None => {
            push_bar(out, made.listed)?;
            push_listed(out, *item, made.value)
        }
    }
}

/// Until when the item had the value that is given.
fn push_until(out: &mut String, shown: &Misvalued) -> Result<(), AllocError>
    ensures { OnOk result (string_bytes out.new ≡ string_bytes out.old ++ until_text shown.now.given shown.now.until) }
{
    let value = shown.given;
    match shown.until {
        Some(line) => write!(out, "{value} was its value up to line {line}"),
        None => write!(out, "{value} was never its value before"),
    }
}

/// What follows of that for a read.
fn push_reason(out: &mut String, shown: &Misvalued) -> Result<(), AllocError>
    ensures { OnOk result (string_bytes out.new ≡ string_bytes out.old ++ reason_text shown.now.until) }
{
    match shown.until {
        Some(_) => out.push_str(": a read of an old version, or the log is wrong\n"),
        None => out.push_str(": a read of something else, or the log is wrong\n"),
    }
}

/// What made the value that the item has, and until when it had the one that is given.
fn push_history(out: &mut String, shown: &Misvalued) -> Result<(), AllocError>
    ensures { OnOk result (string_bytes out.new ≡ string_bytes out.old ++ history_text shown.now) }
{
    push_made(out, &shown.item, &shown.made)?;
    push_until(out, shown)
}

/// What the item has there.
fn push_found(out: &mut String, shown: &Misvalued) -> Result<(), AllocError>
    ensures { OnOk result (string_bytes out.new ≡ string_bytes out.old ++ found_text shown.now) }
{
    let item = shown.item;
    let site = shown.site;
    let found = shown.made.value;
    write!(out, "{item} at site {site} is {found}")
}

/// What the read says.
fn push_read_front(out: &mut String, tx: Tx, shown: &Misvalued) -> Result<(), AllocError>
    ensures { OnOk result (string_bytes out.new ≡ string_bytes out.old ++ read_front tx shown.now) }
{
    let item = shown.item;
    let value = shown.given;
    write!(out, "ReadValue: r{tx}[{item}]={value}, but ")
}

/// The same, and what is there.
fn push_read_head(out: &mut String, tx: Tx, shown: &Misvalued) -> Result<(), AllocError>
    ensures { OnOk result (string_bytes out.new ≡ string_bytes out.old ++ read_head tx shown.now) }
{
    push_read_front(out, tx, shown)?;
    push_found(out, shown)?;
    out.push_str(" here\n")
}

/// F10: a read of another value than the item has.
pub fn push_read(out: &mut String, tx: Tx, shown: &Misvalued) -> Result<(), AllocError>
    ensures { OnOk result (string_bytes out.new ≡ string_bytes out.old ++ read_text tx shown.now) }
{
    push_read_head(out, tx, shown)?;
    push_history(out, shown)?;
    push_reason(out, shown)
}

/// What the final says.
fn push_final_front(out: &mut String, shown: &Misvalued) -> Result<(), AllocError>
    ensures { OnOk result (string_bytes out.new ≡ string_bytes out.old ++ final_front shown.now) }
{
    let item = shown.item;
    let value = shown.given;
    write!(out, "Final: final {item}={value}, but ")
}

/// F16: a final of another value than the item has.
pub fn push_final(out: &mut String, shown: &Misvalued) -> Result<(), AllocError>
    ensures { OnOk result (string_bytes out.new ≡ string_bytes out.old ++ final_text shown.now) }
{
    push_final_front(out, shown)?;
    push_found(out, shown)?;
    out.push_str(" at the end\n")?;
    push_history(out, shown)?;
    out.push_str("\n")
}

/// The letters of the lines that may follow the entry in its block.
fn block_letters(entry: &Entry) -> &'static str
    ensures { result.now ≡ block_letters entry.now }
{
    match entry {
        Entry::Want { .. } | Entry::WantAdd { .. } => "p, q or n",
        _ => "w, d or c",
    }
}

/// The lines that may follow an entry of an open block.
fn push_block_rule(out: &mut String, last: &Logged) -> Result<(), AllocError>
    ensures { OnOk result (string_bytes out.new ≡ string_bytes out.old ++ block_rule last.now) }
{
    let line = last.line;
    let tx = last.entry.tx();
    let letters = block_letters(&last.entry);
    write!(
        out,
        "directly behind line {line} may stand {letters} of {tx} alone: they stand together\n"
    )
}

/// Whose block is cut, behind what that transaction has done.
fn push_block_head(out: &mut String, tx: Tx, done: &str) -> Result<(), AllocError>
    ensures { OnOk result (string_bytes out.new ≡ string_bytes out.old ++ block_words tx done.now) }
{
    write!(
        out,
        "Block: what transaction {tx} {done} isn't followed by its next line\n"
    )
}

/// That a line cuts the block of this entry.
fn push_cut_block(
    out: &mut String,
    last: &Logged,
    number: u64,
    text: &[u8],
) -> Result<(), AllocError>
    ensures { OnOk result (ShowsBlock last.now number text.now (string_bytes out.old) (string_bytes out.new)) }
{
    push_block_head(out, last.entry.tx(), verb(&last.entry))?;
    push_logged(out, last)?;
    out.push_str("\n")?;
    push_numbered(out, number, text)?;
    push_block_rule(out, last)
}

/// F12: a line that cuts a block: that of the last entry.
pub fn push_block(
    out: &mut String,
    section: &Section,
    number: u64,
    text: &[u8],
) -> Result<(), AllocError>
    ensures shown { (last : Logged)
        → slice_get section.now.entries.items (length section.now.entries.items - 1) ≡ Some last
        → OnOk result (ShowsBlock last number text.now (string_bytes out.old) (string_bytes out.new)) }
    ensures none { section.now.entries.items ≡ [] → string_bytes out.new ≡ string_bytes out.old }
{
    match section.entries.as_slice().last() {
        Some(last) => push_cut_block(out, last, number, text),
        None => Ok(()),
    }
}
