//! Lines, written as they are spelled.

ghost use Rattle.std.specs.Prelude.{◌≡◌, ◌<◌, ◌≤◌, ◌+◌, ◌++◌, ◌∷◌, [], length, decimal, vec_len, vec_capacity, IsOk, OnOk, OnErr};
ghost use Rattle.sgt_notation.specs.Spelling.{entry_text, line_text, text_of_lines, IsEntry, IsLine};

use crate::SectionLine;
use crate::line::{LINE_ROOM, put_line};
use itoa::Buffer;
use sgt_names::Entry;
use std::alloc::AllocError;

// Writes a digit, for which there is room.
#[inline(always)]
fn push_digit(out: &mut Vec<u8>, digit: u64)
    requires digit { digit < 10 }
    requires room { vec_len out.old + 1 ≤ vec_capacity out.old }
    ensures text { out.new.items ≡ out.old.items ++ (48 + digit) ∷ [] }
    ensures len { vec_len out.new ≤ vec_len out.old + 1 }
    ensures capacity { vec_capacity out.new ≡ vec_capacity out.old }
{
    out.push_reserved(b'0' + digit as u8);
}

// Writes a number of at most two digits, for which there is room.
#[inline(always)]
fn push_two(out: &mut Vec<u8>, number: u64)
    requires short { number < 100 }
    requires room { vec_len out.old + 2 ≤ vec_capacity out.old }
    ensures text { out.new.items ≡ out.old.items ++ decimal number }
    ensures len { vec_len out.new ≤ vec_len out.old + 2 }
    ensures capacity { vec_capacity out.new ≡ vec_capacity out.old }
{
    if number < 10 {
        push_digit(out, number);
        return;
    }
    push_digit(out, number / 10);
    push_digit(out, number % 10);
}

// Writes a number of at most three digits, for which there is room.
#[inline(always)]
fn push_three(out: &mut Vec<u8>, number: u64)
    requires short { number < 1000 }
    requires room { vec_len out.old + 3 ≤ vec_capacity out.old }
    ensures text { out.new.items ≡ out.old.items ++ decimal number }
    ensures len { vec_len out.new ≤ vec_len out.old + 3 }
    ensures capacity { vec_capacity out.new ≡ vec_capacity out.old }
{
    if number < 10 {
        push_digit(out, number);
        return;
    }
    push_two(out, number / 10);
    push_digit(out, number % 10);
}

// Writes a number of at most five digits, for which there is room.
#[inline(always)]
fn push_five(out: &mut Vec<u8>, number: u64)
    requires short { number < 100_000 }
    requires room { vec_len out.old + 5 ≤ vec_capacity out.old }
    ensures text { out.new.items ≡ out.old.items ++ decimal number }
    ensures len { vec_len out.new ≤ vec_len out.old + 5 }
    ensures capacity { vec_capacity out.new ≡ vec_capacity out.old }
{
    if number < 1000 {
        push_three(out, number);
        return;
    }
    push_three(out, number / 100);
    push_digit(out, number / 10 % 10);
    push_digit(out, number % 10);
}

// Writes a number of any length.
#[inline(never)]
fn push_long(out: &mut Vec<u8>, number: u64) -> Result<(), AllocError>
    ensures ok { OnOk result (out.new.items ≡ out.old.items ++ decimal number) }
    ensures err { OnErr result (out.new.items ≡ out.old.items) }
    ensures room { vec_len out.old + length (decimal number) ≤ vec_capacity out.old → IsOk result }
    ensures capacity { vec_capacity out.old ≤ vec_capacity out.new }
{
    let mut buffer = Buffer::new();
    out.extend_from_slice(buffer.format(number).as_bytes())
}

/// Writes the number in decimal digits behind what is there. Err: memory ran out, and nothing is written.
#[inline(always)]
pub fn push_number(out: &mut Vec<u8>, number: u64) -> Result<(), AllocError>
    ensures ok { OnOk result (out.new.items ≡ out.old.items ++ decimal number) }
    ensures err { OnErr result (out.new.items ≡ out.old.items) }
    ensures room { vec_len out.old + length (decimal number) ≤ vec_capacity out.old → IsOk result }
    ensures capacity { vec_capacity out.old ≤ vec_capacity out.new }
{
    if number < 100_000 && out.capacity() - out.len() >= 5 {
        push_five(out, number);
        return Ok(());
    }
    push_long(out, number)
}

/// Writes the line of the entry, without an LF, behind what is there. Where a growth is refused nothing is written.
/// `read_entry` reads it again as this entry.
pub fn write_entry(out: &mut Vec<u8>, entry: &Entry) -> Result<(), AllocError>
    ensures ok { OnOk result (out.new.items ≡ out.old.items ++ entry_text entry.now) }
    ensures in_range { OnOk result (IsEntry entry.now) }
    ensures err { OnErr result (out.new.items ≡ out.old.items) }
    ensures room { vec_len out.old + length (entry_text entry.now) ≤ vec_capacity out.old
        → IsOk result }
    ensures capacity { vec_capacity out.old ≤ vec_capacity out.new }
{
    write_section(out, &SectionLine::Logged(*entry))
}

/// Writes the line, without an LF, behind what is there. Where a growth is refused nothing is written.
/// `read_section` reads it again as this line.
pub fn write_section(out: &mut Vec<u8>, line: &SectionLine) -> Result<(), AllocError>
    ensures ok { OnOk result (out.new.items ≡ out.old.items ++ line_text line.now) }
    ensures in_range { OnOk result (IsLine line.now) }
    ensures err { OnErr result (out.new.items ≡ out.old.items) }
    ensures room { vec_len out.old + length (line_text line.now) ≤ vec_capacity out.old
        → IsOk result }
    ensures capacity { vec_capacity out.old ≤ vec_capacity out.new }
{
    let mut room = [0; LINE_ROOM];
    let at = put_line(&mut room, line);
    out.extend_from_slice(&room[at..LINE_ROOM - 1])
}

/// As `write_section`, with an LF behind the line.
#[inline(always)]
pub fn write_section_line(out: &mut Vec<u8>, line: &SectionLine) -> Result<(), AllocError>
    ensures ok { OnOk result
        (out.new.items ≡ out.old.items ++ text_of_lines (line_text line.now ∷ [])) }
    ensures in_range { OnOk result (IsLine line.now) }
    ensures err { OnErr result (out.new.items ≡ out.old.items) }
{
    let mut room = [0; LINE_ROOM];
    let at = put_line(&mut room, line);
    out.extend_from_slice(&room[at..])
}
