//! A line of a section, put together from its end, so that its length is known when it is copied.

ghost use Rattle.std.specs.Prelude.{◌≡◌, ◌+◌, ◌<◌, ◌≤◌, [], ◌∷◌, ◌++◌, decimal, drop, length};
ghost use Rattle.sgt_names.specs.Name.{IsName};
ghost use Rattle.sgt_notation.specs.Spelling.{assignment, entry_text, line_text, operation, IsEntry, IsHolding, IsLine, IsTx, IsValue};

use crate::SectionLine;
use itoa::write_digits;
use sgt_names::{Entry, Holding, Item, Tx, Value};

/// Room for a line of a section, or one of the same parts, with its LF.
pub const LINE_ROOM: usize = 64;

/// Puts the byte in front of what stands from this place on, and answers where it begins then.
#[inline(always)]
pub fn put_byte(line: &mut [u8; LINE_ROOM], at: usize, byte: u8) -> usize
    requires { (0 < at) × (at ≤ 64) }
    ensures start { result + 1 ≡ at }
    ensures put { drop result line.new ≡ byte ∷ drop at line.old }
{
    line[at - 1] = byte;
    at - 1
}

/// Puts the bytes in front of what stands from this place on, and answers where they begin.
#[inline(always)]
pub fn put_bytes(line: &mut [u8; LINE_ROOM], at: usize, bytes: &[u8]) -> usize
    requires { (length bytes.now ≤ at) × (at ≤ 64) }
    ensures start { result + length bytes.now ≡ at }
    ensures put { drop result line.new ≡ bytes.now ++ drop at line.old }
{
    let start = at - bytes.len();
    line[start..at].copy_from_slice(bytes);
    start
}

/// Puts a number and an LF at the end, and answers where the number begins.
#[inline(always)]
pub fn put_last_number(line: &mut [u8; LINE_ROOM], number: u64) -> usize
    ensures start { (43 ≤ result) × (result ≤ 64) }
    ensures put { drop result line.new ≡ decimal number ++ 10 ∷ [] }
{
    let at = put_byte(line, LINE_ROOM, b'\n');
    write_digits(number, line, at)
}

// Puts a whole line of an operation of this letter.
fn put_operation(line: &mut [u8; LINE_ROOM], letter: u8, tx: Tx, item: &Item, value: Value) -> usize
    ensures start { result ≤ 64 }
    ensures put { drop result line.new ≡ (letter ∷ operation tx item.now value) ++ 10 ∷ [] }
    ensures in_range { IsTx tx × IsName item.now × IsValue value }
{
    let at = put_last_number(line, value);
    let at = put_bytes(line, at, b"]=");
    let at = put_bytes(line, at, item.as_bytes());
    let at = put_byte(line, at, b'[');
    let at = write_digits(u64::from(tx.number()), line, at);
    put_byte(line, at, letter)
}

// Puts a whole line of an end of this letter.
#[inline(always)]
fn put_end(line: &mut [u8; LINE_ROOM], letter: u8, tx: Tx) -> usize
    ensures start { result ≤ 64 }
    ensures put { drop result line.new ≡ (letter ∷ decimal tx) ++ 10 ∷ [] }
    ensures in_range { IsTx tx }
{
    let at = put_last_number(line, u64::from(tx.number()));
    put_byte(line, at, letter)
}

// Puts a whole line of an entry.
#[inline(always)]
fn put_entry(line: &mut [u8; LINE_ROOM], entry: &Entry) -> usize
    ensures start { result ≤ 64 }
    ensures put { drop result line.new ≡ entry_text entry.now ++ 10 ∷ [] }
    ensures in_range { IsEntry entry.now }
{
    match entry {
        Entry::Read { tx, item, value } => put_operation(line, b'r', *tx, item, *value),
        Entry::Write { tx, item, value } => put_operation(line, b'w', *tx, item, *value),
        Entry::Add { tx, item, value } => put_operation(line, b'd', *tx, item, *value),
        Entry::Want { tx, item, value } => put_operation(line, b'p', *tx, item, *value),
        Entry::WantAdd { tx, item, value } => put_operation(line, b'q', *tx, item, *value),
        Entry::Commit { tx } => put_end(line, b'c', *tx),
        Entry::Refuse { tx } => put_end(line, b'n', *tx),
        Entry::Withdraw { tx } => put_end(line, b'a', *tx),
    }
}

// Puts a whole line of this word, an item and its value.
fn put_holding(line: &mut [u8; LINE_ROOM], word: &[u8], holding: &Holding) -> usize
    requires { length word.now ≤ 6 }
    ensures start { result ≤ 64 }
    ensures put { drop result line.new
        ≡ (word.now ++ assignment holding.now.item holding.now.value) ++ 10 ∷ [] }
    ensures in_range { IsHolding holding.now }
{
    let at = put_last_number(line, holding.value);
    let at = put_byte(line, at, b'=');
    let at = put_bytes(line, at, holding.item.as_bytes());
    put_bytes(line, at, word)
}

// Puts a whole line of no number.
fn put_word(line: &mut [u8; LINE_ROOM], word: &[u8]) -> usize
    requires { length word.now ≤ 6 }
    ensures start { result ≤ 64 }
    ensures put { drop result line.new ≡ word.now ++ 10 ∷ [] }
{
    let at = put_byte(line, LINE_ROOM, b'\n');
    put_bytes(line, at, word)
}

/// Puts a whole line of a section with its LF at the end, and answers where it begins.
#[inline(always)]
pub(crate) fn put_line(line: &mut [u8; LINE_ROOM], section: &SectionLine) -> usize
    ensures start { result ≤ 64 }
    ensures put { drop result line.new ≡ line_text section.now ++ 10 ∷ [] }
    ensures in_range { IsLine section.now }
{
    match section {
        SectionLine::Site(site) => {
            let at = put_last_number(line, u64::from(site.number()));
            put_bytes(line, at, b"site ")
        }
        SectionLine::Initial(holding) => put_holding(line, b"item ", holding),
        SectionLine::Logged(entry) => put_entry(line, entry),
        SectionLine::Final(holding) => put_holding(line, b"final ", holding),
        SectionLine::End => put_word(line, b"end"),
    }
}
