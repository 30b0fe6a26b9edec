//! The shortest escapes of strings, which stand in the compact text too.

ghost use Rattle.std.specs.Prelude.{◌≡◌, ◌<◌, ℕ, IfSome};
ghost use Rattle.std.specs.Char.{digit_char};
ghost use Rattle.json.specs.Print.{escape_byte, escape_letter};
ghost use Rattle.sgt_notation.specs.Private.{Spans};

use crate::plain::{byte_at, word_at};

/// The letter of the byte's short escape, or 0 where it has none.
fn letter_of(byte: u8) -> u8
    ensures { result ≡ escape_letter byte }
{
    if byte == b'"' || byte == b'\\' {
        byte
    } else if byte == 8 {
        b'b'
    } else if byte == 12 {
        b'f'
    } else if byte == b'\n' {
        b'n'
    } else if byte == b'\r' {
        b'r'
    } else if byte == b'\t' {
        b't'
    } else {
        0
    }
}

/// A digit of base 16.
fn digit(value: u8) -> u8
    requires { value < 16 }
    ensures { result ≡ digit_char value }
{
    if value < 10 {
        b'0' + value
    } else {
        b'a' + (value - 10)
    }
}

/// What may have this letter in its short escape: `letter_of` tells.
fn byte_by(letter: u8) -> u8 {
    match letter {
        b'b' => 8,
        b'f' => 12,
        b'n' => b'\n',
        b'r' => b'\r',
        b't' => b'\t',
        _ => letter,
    }
}

/// What may have these as its last digits: `digit` tells.
fn byte_with(high: u8, low: u8) -> u8
    ensures { result < 32 }
{
    let rest = if low < b'a' { low & 15 } else { (low & 7) + 9 };
    16 * (high & 1) + (rest & 15)
}

/// The place behind a short escape.
fn short_at(bytes: &[u8], from: usize) -> Option<usize>
    ensures { IfSome result (λ to. (x : ℕ) × Spans bytes.now from (escape_byte x) to) }
{
    let at = byte_at(bytes, from, b'\\')?;
    let letter = letter_of(byte_by(*bytes.get(at)?));
    if letter == 0 {
        return None;
    }
    let to = byte_at(bytes, at, letter)?;
    Some(to)
}

/// The place behind an escape by digits, of a byte that has no short one.
fn long_at(bytes: &[u8], from: usize) -> Option<usize>
    ensures { IfSome result (λ to. (x : ℕ) × Spans bytes.now from (escape_byte x) to) }
{
    let at = word_at(bytes, from, b"\\u00")?;
    let byte = byte_with(*bytes.get(at)?, *bytes.get(at + 1)?);
    if letter_of(byte) != 0 {
        return None;
    }
    let at = byte_at(bytes, at, digit(byte / 16))?;
    let to = byte_at(bytes, at, digit(byte % 16))?;
    Some(to)
}

/// The place behind the shortest escape of a byte.
pub(crate) fn escape_at(bytes: &[u8], from: usize) -> Option<usize>
    ensures { IfSome result (λ to. (x : ℕ) × Spans bytes.now from (escape_byte x) to) }
{
    match short_at(bytes, from) {
        Some(to) => Some(to),
        None => long_at(bytes, from),
    }
}
