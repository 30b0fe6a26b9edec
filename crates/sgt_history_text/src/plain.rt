//! The parts of a line in the plain layout: `{"tx":ID,"end":END,"ops":[OPERATION,..]}`, with a space behind a comma or a
//! colon or none, no other member, no escape in an id or an item, and the shortest ones in values. They are read at
//! once, with no tokens and no copies. That a part isn't found says nothing of the line: who asks has another way.

ghost use Rattle.std.specs.Prelude.{true, false, ℕ, ◌≡◌, ◌≤◌, ◌<◌, ◌-◌, ◌∷◌, [], List, IfSome, decimal, drop, get_or, length, take, IsTrue, ◌^◌};
ghost use Rattle.json.specs.Json.{string};
ghost use Rattle.sgt_history_text.specs.Name.{IsKey, IsValue, compact};
ghost use Rattle.sgt_history_text.specs.Plain.{IsBare, IsCompactOf, IsGivenAt, IsHeadAt, IsOperationAt, end_text, end_tokens, kind_text};
ghost use Rattle.sgt_history_text.specs.Written.{AreWritten, IsLead};
ghost use Rattle.sgt_notation.specs.Private.{Spans};

use crate::escapes::escape_at;
use crate::fault::{MOST_ID_BYTES, MOST_ITEM_BYTES};
use crate::values::may_have;
use crate::whole::is_within;
use core::dec2flt::read_digits;
use sgt_history::{Kind, Operation};

/// The place behind this byte.
#[inline(always)]
pub(crate) fn byte_at(bytes: &[u8], from: usize, byte: u8) -> Option<usize>
    ensures { IfSome result (Spans bytes.now from (byte ∷ [])) }
{
    if *bytes.get(from)? == byte {
        Some(from + 1)
    } else {
        None
    }
}

/// The place behind the space that may stand here.
#[inline(always)]
fn past_space(bytes: &[u8], from: usize) -> usize
    requires { from ≤ length bytes.now }
    ensures { IsLead bytes.now from false result }
{
    match byte_at(bytes, from, b' ') {
        Some(to) => to,
        None => from,
    }
}

/// The place behind a comma and the space that may follow it.
#[inline(always)]
pub(crate) fn comma_at(bytes: &[u8], from: usize) -> Option<usize>
    ensures { IfSome result (IsLead bytes.now from true) }
{
    let at = byte_at(bytes, from, b',')?;
    Some(past_space(bytes, at))
}

/// What stands from this place on.
#[inline(always)]
fn from_place(bytes: &[u8], from: usize) -> Option<&[u8]>
    ensures { IfSome result (λ rest. (from ≤ length bytes.now) × (rest.now ≡ drop from bytes.now)) }
{
    let (_, rest) = bytes.split_at_checked(from)?;
    Some(rest)
}

/// The place behind this word.
#[inline(always)]
pub(crate) fn word_at(bytes: &[u8], from: usize, word: &[u8]) -> Option<usize>
    ensures { IfSome result (Spans bytes.now from word.now) }
{
    if from > bytes.len() {
        return None;
    }
    let mut at = from;
    for byte in word {
        at = byte_at(bytes, at, *byte)?;
    }
    Some(at)
}

/// What stands between these places.
#[inline(always)]
fn between(bytes: &[u8], from: usize, to: usize) -> Option<&[u8]>
    ensures { IfSome result (λ text. text.now ≡ take (to - from) (drop from bytes.now)) }
{
    if from <= to && to <= bytes.len() {
        Some(&bytes[from..to])
    } else {
        None
    }
}

/// Whether a string may have the byte as it is.
#[inline(always)]
fn is_bare(byte: u8) -> bool
    ensures { IsTrue result → IsBare byte }
{
    byte >= b' ' && byte != b'"' && byte != b'\\'
}

/// The place, from here on, of the first byte that a string may not have as it is.
#[inline(always)]
fn bare_end(bytes: &[u8], from: usize) -> usize
    requires { from ≤ length bytes.now }
    ensures behind { from ≤ result }
    ensures within { result ≤ length bytes.now }
    ensures bare { (k : ℕ) → from ≤ k → k < result → IsBare (get_or bytes.now k 0) }
{
    let mut at = from;
    while at < bytes.len() && is_bare(bytes[at]) {
        at += 1;
    }
    at
}

/// A string with no escape: how many bytes it has, and the place behind it.
#[inline(always)]
fn string_at(bytes: &[u8], from: usize) -> Option<(usize, usize)>
    ensures { IfSome result (λ r. (s : List ℕ) × (length s ≡ r.0) × Spans bytes.now from (compact (string s)) r.1) }
{
    let open = byte_at(bytes, from, b'"')?;
    let end = bare_end(bytes, open);
    let to = byte_at(bytes, end, b'"')?;
    Some((end - open, to))
}

/// A whole number of up to 19 digits, and how many it has.
#[inline(always)]
fn front_number(bytes: &[u8]) -> Option<(u64, usize)>
    ensures { IfSome result (λ r. (r.0 < 2 ^ 64) × Spans bytes.now 0 (decimal r.0) r.1) }
{
    let (n, value) = read_digits(bytes, 0, 0);
    if n == 0 || n > 19 || (n > 1 && bytes[0] == b'0') {
        return None;
    }
    Some((value, n))
}

/// A whole number of up to 19 digits, and the place behind it.
#[inline(always)]
fn number_at(bytes: &[u8], from: usize) -> Option<(u64, usize)>
    ensures { IfSome result (λ r. (r.0 < 2 ^ 64) × Spans bytes.now from (decimal r.0) r.1) }
{
    let (value, n) = front_number(from_place(bytes, from)?)?;
    Some((value, from + n))
}

/// A string of so many bytes, or a whole number, and the place behind it.
#[inline(always)]
fn key_at(bytes: &[u8], from: usize, least: usize, most: usize) -> Option<(&[u8], usize)>
    ensures { IfSome result (λ r. IsCompactOf (IsKey least most) r.0.now × Spans bytes.entry.now from r.0.now r.1) }
{
    if let Some((length, to)) = string_at(bytes, from) {
        if !is_within(length as u64, least as u64, most as u64) {
            return None;
        }
        return Some((between(bytes, from, to)?, to));
    }
    let (_, to) = number_at(bytes, from)?;
    Some((between(bytes, from, to)?, to))
}

/// A string with the shortest escapes: the place behind it.
#[inline(never)]
fn escaped_at(bytes: &[u8], from: usize) -> Option<usize>
    ensures { IfSome result (λ to. (s : List ℕ) × Spans bytes.now from (compact (string s)) to) }
{
    let mut at = byte_at(bytes, from, b'"')?;
    for _ in 0..bytes.len() {
        let end = bare_end(bytes, at);
        if let Some(to) = byte_at(bytes, end, b'"') {
            return Some(to);
        }
        at = escape_at(bytes, end)?;
    }
    None
}

/// A value of an item that is a string or a whole number, and the place behind it.
fn value_at(bytes: &[u8], from: usize) -> Option<(&[u8], usize)>
    ensures { IfSome result (λ r. IsCompactOf IsValue r.0.now × Spans bytes.entry.now from r.0.now r.1) }
{
    if let Some((_, to)) = string_at(bytes, from) {
        return Some((between(bytes, from, to)?, to));
    }
    if let Some((_, to)) = number_at(bytes, from) {
        return Some((between(bytes, from, to)?, to));
    }
    let to = escaped_at(bytes, from)?;
    Some((between(bytes, from, to)?, to))
}

/// A comma and a value, or nothing, and the place behind it.
#[inline(always)]
fn given_at(bytes: &[u8], from: usize) -> Option<(Option<&[u8]>, usize)>
    requires { from ≤ length bytes.now }
    ensures { IfSome result (λ r. IsGivenAt bytes.entry.now from r.0 r.1) }
{
    let Some(at) = comma_at(bytes, from) else {
        return Some((None, from));
    };
    let (value, to) = value_at(bytes, at)?;
    Some((Some(value), to))
}

/// The front of an operation, and the place behind it.
#[inline(always)]
fn kind_at(bytes: &[u8], from: usize) -> Option<(Kind, usize)>
    ensures { IfSome result (λ r. Spans bytes.now from (kind_text r.0) r.1) }
{
    if let Some(to) = word_at(bytes, from, b"[\"r\"") {
        return Some((Kind::Read, to));
    }
    let to = word_at(bytes, from, b"[\"w\"")?;
    Some((Kind::Write, to))
}

/// An operation, and the place behind it.
#[inline(always)]
pub(crate) fn operation_at(bytes: &[u8], from: usize) -> Option<(Operation<&[u8], &[u8]>, usize)>
    ensures { IfSome result (λ r. IsOperationAt bytes.entry.now from r.0 r.1) }
{
    let (kind, at) = kind_at(bytes, from)?;
    let (item, at) = key_at(bytes, comma_at(bytes, at)?, 0, MOST_ITEM_BYTES)?;
    let (version, at) = number_at(bytes, comma_at(bytes, at)?)?;
    if !may_have(kind, version) {
        return None;
    }
    let (value, at) = given_at(bytes, at)?;
    let to = byte_at(bytes, at, b']')?;
    Some((
        Operation {
            version,
            item,
            kind,
            value,
        },
        to,
    ))
}

/// How the transaction ends, and the place behind it.
#[inline(always)]
fn commits_at(bytes: &[u8], from: usize) -> Option<(bool, usize)>
    ensures { IfSome result (λ r. Spans bytes.now from (end_text r.0) r.1) }
{
    if let Some(to) = word_at(bytes, from, b"\"commit\"") {
        return Some((true, to));
    }
    let to = word_at(bytes, from, b"\"abort\"")?;
    Some((false, to))
}

/// A comma, how the transaction ends, and the word in front of its operations, and the place behind it.
#[inline(always)]
fn end_at(bytes: &[u8], from: usize) -> Option<(bool, usize)>
    ensures { IfSome result (λ r. AreWritten bytes.now from true (end_tokens r.0) r.1) }
{
    let at = word_at(bytes, comma_at(bytes, from)?, b"\"end\":")?;
    let (commits, at) = commits_at(bytes, past_space(bytes, at))?;
    let at = word_at(bytes, comma_at(bytes, at)?, b"\"ops\":")?;
    let to = byte_at(bytes, past_space(bytes, at), b'[')?;
    Some((commits, to))
}

/// The id and the end of the transaction, and the place where its operations begin.
#[inline(always)]
pub(crate) fn head_at(line: &[u8]) -> Option<((&[u8], bool), usize)>
    ensures { IfSome result (λ r. IsHeadAt line.entry.now r.0.0.now r.0.1 r.1) }
{
    let at = word_at(line, 0, b"{\"tx\":")?;
    let (id, at) = key_at(line, past_space(line, at), 1, MOST_ID_BYTES)?;
    let (commits, to) = end_at(line, at)?;
    Some(((id, commits), to))
}

/// Whether a line's end is here: its closing bracket, and no byte more.
pub(crate) fn is_end(line: &[u8], from: usize) -> bool
    ensures { IsTrue result → Spans line.now from (125 ∷ []) (length line.now) }
{
    match byte_at(line, from, b'}') {
        Some(to) => to == line.len(),
        None => false,
    }
}
