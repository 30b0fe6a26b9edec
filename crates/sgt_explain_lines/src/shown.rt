//! Lines as they are shown: cut, escaped, with their numbers.

ghost use Rattle.std.specs.Prelude.{◌≡◌, ℕ, List, ◌++◌, OnOk, codes, decimal, length, string_bytes};
ghost use Rattle.sgt_notation.specs.Spelling.{operation, entry_text};
ghost use Rattle.sgt_explain_lines.specs.Told.{margin, bar, hex_text, shown_byte, IsShown, ShowsNumbered, shown_line, gap, noted_line};

use crate::section::Logged;
use sgt_names::{Entry, Item, Tx, Value};
use std::alloc::AllocError;
use std::fmt::Write;

// The columns that the text of a line takes at most, before it is cut by two dots: with the number of its line before
// it, 80.
const COLUMNS: usize = 71;

/// The columns that a byte takes.
fn width_of(byte: u8) -> usize
    ensures { result ≡ length (shown_byte byte) }
{
    match byte {
        b'\t' | b'\r' | b'\n' | b'\\' => 2,
        b' '..=b'~' => 1,
        _ => 4,
    }
}

/// Shows a byte by two hexadecimal digits.
#[tactic(auto, using(crate::proofs::Showing::hex_two))]
fn push_hex(out: &mut String, byte: u8) -> Result<(), AllocError>
    ensures { OnOk result (string_bytes out.new ≡ string_bytes out.old ++ hex_text byte) }
{
    write!(out, "\\x{byte:02x}")
}

/// Shows a byte: as it is where it can be printed, else as an escape.
fn push_byte(out: &mut String, byte: u8) -> Result<(), AllocError>
    ensures { OnOk result (string_bytes out.new ≡ string_bytes out.old ++ shown_byte byte) }
{
    match byte {
        b'\t' => out.push_str("\\t"),
        b'\r' => out.push_str("\\r"),
        b'\n' => out.push_str("\\n"),
        b'\\' => out.push_str("\\\\"),
        b' '..=b'~' => out.push(char::from(byte)),
        _ => push_hex(out, byte),
    }
}

fn push_dots(out: &mut String) -> Result<(), AllocError>
    ensures { OnOk result (string_bytes out.new ≡ string_bytes out.old ++ codes "..") }
{
    out.push_str("..")
}

/// Shows these bytes in at most 73 columns: control characters, backslashes and bytes that are no ASCII as escapes,
/// and two dots where more follow.
pub fn push_shown(out: &mut String, text: &[u8]) -> Result<(), AllocError>
    ensures { OnOk result ((shown : List ℕ) × IsShown text.now shown
        × (string_bytes out.new ≡ string_bytes out.old ++ shown)) }
{
    let mut width = 0usize;
    for byte in text {
        width = width.saturating_add(width_of(*byte));
        if width > COLUMNS {
            return push_dots(out);
        }
        push_byte(out, *byte)?;
    }
    Ok(())
}

/// The spaces before the number of a line.
fn push_margin(out: &mut String, number: u64) -> Result<(), AllocError>
    ensures { OnOk result (string_bytes out.new ≡ string_bytes out.old ++ margin number) }
{
    if number < 10 {
        out.push_str("   ")
    } else if number < 100 {
        out.push_str("  ")
    } else if number < 1000 {
        out.push_str(" ")
    } else {
        out.push_str("")
    }
}

/// The number of a line, and the bar behind it.
pub fn push_bar(out: &mut String, number: u64) -> Result<(), AllocError>
    ensures { OnOk result (string_bytes out.new ≡ string_bytes out.old ++ bar number) }
{
    push_margin(out, number)?;
    write!(out, "{number} | ")
}

/// Shows a line with its number.
pub fn push_numbered(out: &mut String, number: u64, text: &[u8]) -> Result<(), AllocError>
    ensures { OnOk result (ShowsNumbered number text.now (string_bytes out.old) (string_bytes out.new)) }
{
    push_bar(out, number)?;
    push_shown(out, text)?;
    out.push_str("\n")
}

/// The line of an operation with this letter, without an LF.
fn push_operation(
    out: &mut String,
    letter: &str,
    tx: Tx,
    item: Item,
    value: Value,
) -> Result<(), AllocError>
    ensures { OnOk result (string_bytes out.new ≡ string_bytes out.old ++ (letter.now ++ operation tx item value)) }
{
    write!(out, "{letter}{tx}[{item}]={value}")
}

/// The line of an end with this letter, without an LF.
fn push_ending(out: &mut String, letter: &str, tx: Tx) -> Result<(), AllocError>
    ensures { OnOk result (string_bytes out.new ≡ string_bytes out.old ++ (letter.now ++ decimal tx)) }
{
    write!(out, "{letter}{tx}")
}

/// The line of an entry, without an LF.
fn push_entry(out: &mut String, entry: &Entry) -> Result<(), AllocError>
    ensures { OnOk result (string_bytes out.new ≡ string_bytes out.old ++ entry_text entry.now) }
{
    match *entry {
        Entry::Read { tx, item, value } => push_operation(out, "r", tx, item, value),
        Entry::Write { tx, item, value } => push_operation(out, "w", tx, item, value),
        Entry::Add { tx, item, value } => push_operation(out, "d", tx, item, value),
        Entry::Want { tx, item, value } => push_operation(out, "p", tx, item, value),
        Entry::WantAdd { tx, item, value } => push_operation(out, "q", tx, item, value),
        Entry::Commit { tx } => push_ending(out, "c", tx),
        Entry::Refuse { tx } => push_ending(out, "n", tx),
        Entry::Withdraw { tx } => push_ending(out, "a", tx),
    }
}

/// The spaces behind a text of so many columns: five, and as many more as bring the next column to one behind a
/// multiple of four.
fn push_gap(out: &mut String, width: usize) -> Result<(), AllocError>
    ensures { OnOk result (string_bytes out.new ≡ string_bytes out.old ++ gap width) }
{
    match width % 4 {
        0 => out.push_str("     "),
        1 => out.push_str("        "),
        2 => out.push_str("       "),
        _ => out.push_str("      "),
    }
}

/// Shows the line of an entry with its number, and no LF.
pub fn push_logged(out: &mut String, logged: &Logged) -> Result<(), AllocError>
    ensures { OnOk result (string_bytes out.new ≡ string_bytes out.old ++ shown_line logged.now) }
{
    push_bar(out, logged.line)?;
    push_entry(out, &logged.entry)
}

/// The same, and the spaces before a note.
pub fn push_aside(out: &mut String, logged: &Logged) -> Result<(), AllocError>
    ensures { OnOk result (string_bytes out.new ≡ string_bytes out.old ++ noted_line logged.now) }
{
    push_bar(out, logged.line)?;
    let before = out.len();
    push_entry(out, &logged.entry)?;
    push_gap(out, out.len().saturating_sub(before))
}
