//! A line of a section, read at the front of bytes that hold more: its LF is not looked for first.

ghost use Rattle.std.specs.Prelude.{◌≡◌, ◌<◌, ◌≤◌, ◌++◌, ◌∷◌, [], length, take, drop, IfSome, decimal};
ghost use Rattle.sgt_names.specs.Name.{IsName};
ghost use Rattle.sgt_notation.specs.Private.{Spans, ending};
ghost use Rattle.sgt_notation.specs.PrivateEvents.{IsAccess, IsUpdate, access_text, update_text};
ghost use Rattle.sgt_notation.specs.Spelling.{IsHolding, IsLine, IsSite, IsTx, IsValue, assignment, line_text, operation};

use crate::SectionLine;
use crate::digits::up_to_seven;
use crate::number::find_value;
use crate::reading::behind;
use crate::reading_events::Place;
use core::dec2flt::read_digits;
use sgt_names::{Entry, Holding, Item, SiteNo, Tx, Value};

/// No number has more digits.
const MOST_DIGITS: usize = 20;

/// Within so many bytes a line is read, wherever its parts end.
const ROOM: usize = 64;

/// The place behind this byte.
#[inline(always)]
pub(crate) fn byte_at(bytes: &[u8], from: usize, byte: u8) -> Option<usize>
    ensures { IfSome result (Spans bytes.now from (byte ∷ [])) }
{
    if *bytes.get(from)? == byte {
        Some(from + 1)
    } else {
        None
    }
}

/// What stands from this place on.
#[inline(always)]
fn from_place(bytes: &[u8], from: usize) -> Option<&[u8]>
    ensures { IfSome result (λ rest. (from ≤ length bytes.now) × (rest.now ≡ drop from bytes.now)) }
{
    let (_, rest) = bytes.split_at_checked(from)?;
    Some(rest)
}

/// What stands up to this place.
#[inline(always)]
fn up_to_place(bytes: &[u8], to: usize) -> Option<&[u8]>
    ensures { IfSome result (λ front. (to ≤ length bytes.now) × (front.now ≡ take to bytes.now)) }
{
    let (front, _) = bytes.split_at_checked(to)?;
    Some(front)
}

/// The place behind this word.
#[inline(always)]
fn word_at(bytes: &[u8], from: usize, word: &[u8]) -> Option<usize>
    ensures { IfSome result (Spans bytes.now from word.now) }
{
    let rest = from_place(bytes, from)?;
    let _last = behind(rest, word)?;
    Some(from + word.len())
}

/// The number of the first bytes, which are so many.
#[inline(never)]
fn long_value(bytes: &[u8], n: usize) -> Option<(Value, usize)>
    ensures { IfSome result (λ r. IsValue r.0 × Spans bytes.now 0 (decimal r.0) r.1) }
{
    let value = find_value(up_to_place(bytes, n)?)?;
    Some((value, n))
}

/// The number at the front, and how many digits it has, however many.
#[inline(never)]
fn other_value(bytes: &[u8]) -> Option<(Value, usize)>
    ensures { IfSome result (λ r. IsValue r.0 × Spans bytes.now 0 (decimal r.0) r.1) }
{
    let (n, value) = read_digits(bytes, 0, 0);
    if n == 0 || n > 19 || (n > 1 && bytes[0] == b'0') {
        return long_value(bytes, n);
    }
    Some((value, n))
}

/// The same, by way of memory that only this way touches.
#[inline(always)]
fn far_value(bytes: &[u8]) -> Option<(Value, usize)>
    ensures { IfSome result (λ r. IsValue r.0 × Spans bytes.now 0 (decimal r.0) r.1) }
{
    let (value, n) = other_value(bytes)?;
    // never so, but told here, so that the places behind it are known to be near
    if n > MOST_DIGITS {
        return None;
    }
    Some((value, n))
}

/// The number at the front, and how many digits it has. One of up to seven digits is read at once, if no zero stands
/// in front of another digit.
#[inline(always)]
fn front_value(bytes: &[u8]) -> Option<(Value, usize)>
    ensures { IfSome result (λ r. IsValue r.0 × Spans bytes.now 0 (decimal r.0) r.1) }
{
    if let Some(chunk) = bytes.first_chunk::<8>() {
        let (n, value) = up_to_seven(u64::from_le_bytes(*chunk));
        if n == 0 {
            return None;
        }
        if n < 8 && (chunk[0] != b'0' || n == 1) {
            return Some((value, n));
        }
    }
    far_value(bytes)
}

/// The number in front, and what stands behind it.
#[inline(always)]
pub fn front_number(bytes: &[u8]) -> Option<(Value, &[u8])>
    ensures { IfSome result (λ r. IsValue r.0 × (bytes.now ≡ decimal r.0 ++ r.1.now)) }
{
    let (value, n) = front_value(bytes)?;
    Some((value, from_place(bytes, n)?))
}

/// A number, and the place behind it.
#[inline(always)]
fn value_at(bytes: &[u8], from: usize) -> Option<(Value, usize)>
    ensures { IfSome result (λ r. IsValue r.0 × Spans bytes.now from (decimal r.0) r.1) }
{
    let (value, n) = front_value(from_place(bytes, from)?)?;
    Some((value, from + n))
}

/// The number of a transaction, and the place behind it.
#[inline(always)]
pub(crate) fn tx_at(bytes: &[u8], from: usize) -> Option<(Tx, usize)>
    ensures { IfSome result (λ r. IsTx r.0 × Spans bytes.now from (decimal r.0) r.1) }
{
    let (number, to) = value_at(bytes, from)?;
    let tx = Tx::new(number).ok()?;
    Some((tx, to))
}

/// The site of this number.
#[inline(always)]
fn site_of(number: u64) -> Option<SiteNo>
    ensures { IfSome result (λ site. (site ≡ number) × IsSite site) }
{
    SiteNo::new(number).ok()
}

/// The number of one digit, and the place behind it.
#[inline(always)]
fn digit_at(bytes: &[u8], from: usize) -> Option<(u64, usize)>
    ensures { IfSome result (λ r. (r.0 < 10) × Spans bytes.now from (decimal r.0) r.1) }
{
    let byte = *bytes.get(from)?;
    if byte < b'0' || byte > b'9' {
        return None;
    }
    let to = byte_at(bytes, from, byte)?;
    Some(((byte - b'0') as u64, to))
}

/// The number of a site, which has one digit or two, and the place behind it.
#[inline(always)]
pub(crate) fn site_at(bytes: &[u8], from: usize) -> Option<(SiteNo, usize)>
    ensures { IfSome result (λ r. IsSite r.0 × Spans bytes.now from (decimal r.0) r.1) }
{
    let (first, behind) = digit_at(bytes, from)?;
    let Some((second, to)) = digit_at(bytes, behind) else {
        return Some((site_of(first)?, behind));
    };
    if first == 0 {
        return None;
    }
    let site = site_of(10 * first + second)?;
    Some((site, to))
}

/// The name at the front of few bytes, and how many bytes it has, where it ends before this byte.
#[inline(never)]
fn short_name(bytes: &[u8], end: u8) -> Option<(Item, usize)>
    ensures { IfSome result (λ r. IsName r.0 × Spans bytes.now 0 r.0 r.1) }
{
    let n = bytes.iter().position(|other| *other == end)?;
    let item = Item::new(up_to_place(bytes, n)?).ok()?;
    Some((item, n))
}

/// The name at the front, and how many bytes it has, where it ends before this byte.
#[inline(always)]
fn front_name(bytes: &[u8], end: u8) -> Option<(Item, usize)>
    ensures { IfSome result (λ r. IsName r.0 × Spans bytes.now 0 r.0 r.1) }
{
    match bytes.first_chunk::<16>() {
        Some(chunk) => Item::leading(chunk),
        None => short_name(bytes, end),
    }
}

/// A name, and the place behind it, where the name ends before this byte.
#[inline(always)]
fn name_at(bytes: &[u8], from: usize, end: u8) -> Option<(Item, usize)>
    ensures { IfSome result (λ r. IsName r.0 × Spans bytes.now from r.0 r.1) }
{
    let (item, n) = front_name(from_place(bytes, from)?, end)?;
    Some((item, from + n))
}

/// `NAME=NUM`, and the place behind it.
#[inline(always)]
fn holding_at(bytes: &[u8], from: usize) -> Option<(Holding, usize)>
    ensures { IfSome result
        (λ r. IsHolding r.0 × Spans bytes.now from (assignment r.0.item r.0.value) r.1) }
{
    let (item, to) = name_at(bytes, from, b'=')?;
    let (value, to) = value_at(bytes, byte_at(bytes, to, b'=')?)?;
    Some((Holding { item, value }, to))
}

/// `TX[SITE.NAME]`, and the place behind it.
#[inline(always)]
pub(crate) fn access_at(bytes: &[u8], from: usize) -> Option<((Tx, Place), usize)>
    ensures { IfSome result (λ r. IsAccess r.0 × Spans bytes.now from (access_text r.0) r.1) }
{
    let (tx, to) = tx_at(bytes, from)?;
    let (site, to) = site_at(bytes, byte_at(bytes, to, b'[')?)?;
    let (item, to) = name_at(bytes, byte_at(bytes, to, b'.')?, b']')?;
    let to = byte_at(bytes, to, b']')?;
    Some(((tx, (site, item)), to))
}

/// `TX[SITE.NAME]=NUM`, and the place behind it.
#[inline(always)]
pub(crate) fn update_at(bytes: &[u8], from: usize) -> Option<(((Tx, Place), Value), usize)>
    ensures { IfSome result (λ r. IsUpdate r.0 × Spans bytes.now from (update_text r.0) r.1) }
{
    let (access, to) = access_at(bytes, from)?;
    let (value, to) = value_at(bytes, byte_at(bytes, to, b'=')?)?;
    Some(((access, value), to))
}

/// The line of an entry that this letter and an operation spell, with this number.
#[inline(always)]
fn of_operation(
    letter: u8,
    tx: Tx,
    item: Item,
    value: Value,
    to: usize,
) -> Option<(SectionLine, usize)>
    ensures { IfSome result (λ r. (line_text r.0 ≡ letter ∷ operation tx item value) × (r.1 ≡ to)
        × (IsTx tx → IsName item → IsValue value → IsLine r.0)) }
{
    match letter {
        b'r' => Some((SectionLine::Logged(Entry::Read { tx, item, value }), to)),
        b'w' => Some((SectionLine::Logged(Entry::Write { tx, item, value }), to)),
        b'd' => Some((SectionLine::Logged(Entry::Add { tx, item, value }), to)),
        b'p' => Some((SectionLine::Logged(Entry::Want { tx, item, value }), to)),
        b'q' => Some((SectionLine::Logged(Entry::WantAdd { tx, item, value }), to)),
        _ => None,
    }
}

/// The line of an end that this letter and a transaction's number spell, with this number.
#[inline(always)]
fn of_tx(letter: u8, tx: Tx, to: usize) -> Option<(SectionLine, usize)>
    ensures { IfSome result
        (λ r. (line_text r.0 ≡ letter ∷ decimal tx) × (r.1 ≡ to) × (IsTx tx → IsLine r.0)) }
{
    match letter {
        b'c' => Some((SectionLine::Logged(Entry::Commit { tx }), to)),
        b'n' => Some((SectionLine::Logged(Entry::Refuse { tx }), to)),
        b'a' => Some((SectionLine::Logged(Entry::Withdraw { tx }), to)),
        _ => None,
    }
}

/// The place behind the LF, or the same place where none is wanted.
#[inline(always)]
fn line_end(bytes: &[u8], from: usize, wants_lf: bool) -> Option<usize>
    requires { from ≤ length bytes.now }
    ensures { IfSome result (Spans bytes.now from (ending wants_lf)) }
{
    if wants_lf {
        byte_at(bytes, from, b'\n')
    } else {
        Some(from)
    }
}

/// The line of an entry at the front, and the place behind it, or behind its LF.
#[inline(always)]
fn front_entry(bytes: &[u8], wants_lf: bool) -> Option<(SectionLine, usize)>
    ensures { IfSome result
        (λ r. IsLine r.0 × Spans bytes.now 0 (line_text r.0 ++ ending wants_lf) r.1) }
{
    let letter = *bytes.first()?;
    let (tx, to) = tx_at(bytes, 1)?;
    if bytes.get(to) != Some(&b'[') {
        return of_tx(letter, tx, line_end(bytes, to, wants_lf)?);
    }
    let (item, to) = name_at(bytes, to + 1, b']')?;
    let (value, to) = value_at(bytes, byte_at(bytes, byte_at(bytes, to, b']')?, b'=')?)?;
    of_operation(letter, tx, item, value, line_end(bytes, to, wants_lf)?)
}

/// The same near the end of the bytes.
#[inline(never)]
fn last_entry(bytes: &[u8], wants_lf: bool) -> Option<(SectionLine, usize)>
    ensures { IfSome result
        (λ r. IsLine r.0 × Spans bytes.now 0 (line_text r.0 ++ ending wants_lf) r.1) }
{
    front_entry(bytes, wants_lf)
}

/// The same, by way of memory that only this way touches.
#[inline(always)]
fn far_entry(bytes: &[u8], wants_lf: bool) -> Option<(SectionLine, usize)>
    ensures { IfSome result
        (λ r. IsLine r.0 × Spans bytes.now 0 (line_text r.0 ++ ending wants_lf) r.1) }
{
    let (line, to) = last_entry(bytes, wants_lf)?;
    Some((line, to))
}

/// The same. Where there is room for every entry, none of its places needs a test.
#[inline(always)]
fn roomy_entry(bytes: &[u8], wants_lf: bool) -> Option<(SectionLine, usize)>
    ensures { IfSome result
        (λ r. IsLine r.0 × Spans bytes.now 0 (line_text r.0 ++ ending wants_lf) r.1) }
{
    match bytes.first_chunk::<ROOM>() {
        Some(room) => front_entry(room, wants_lf),
        None => far_entry(bytes, wants_lf),
    }
}

/// The line at the front that is no entry's, and the place behind it.
#[inline(always)]
fn word_line(bytes: &[u8]) -> Option<(SectionLine, usize)>
    ensures { IfSome result (λ r. IsLine r.0 × Spans bytes.now 0 (line_text r.0) r.1) }
{
    match *bytes.first()? {
        b'i' => {
            let (holding, to) = holding_at(bytes, word_at(bytes, 0, b"item ")?)?;
            Some((SectionLine::Initial(holding), to))
        }
        b'f' => {
            let (holding, to) = holding_at(bytes, word_at(bytes, 0, b"final ")?)?;
            Some((SectionLine::Final(holding), to))
        }
        b's' => {
            let (number, to) = value_at(bytes, word_at(bytes, 0, b"site ")?)?;
            let site = SiteNo::new(number).ok()?;
            Some((SectionLine::Site(site), to))
        }
        _ => {
            let to = word_at(bytes, 0, b"end")?;
            Some((SectionLine::End, to))
        }
    }
}

/// The same, or the place behind its LF.
#[inline(always)]
fn ended_word(bytes: &[u8], wants_lf: bool) -> Option<(SectionLine, usize)>
    ensures { IfSome result
        (λ r. IsLine r.0 × Spans bytes.now 0 (line_text r.0 ++ ending wants_lf) r.1) }
{
    let (line, to) = word_line(bytes)?;
    Some((line, line_end(bytes, to, wants_lf)?))
}

/// The same near the end of the bytes.
#[inline(never)]
fn last_word(bytes: &[u8], wants_lf: bool) -> Option<(SectionLine, usize)>
    ensures { IfSome result
        (λ r. IsLine r.0 × Spans bytes.now 0 (line_text r.0 ++ ending wants_lf) r.1) }
{
    ended_word(bytes, wants_lf)
}

/// The same, by way of memory that only this way touches.
#[inline(always)]
fn far_last(bytes: &[u8], wants_lf: bool) -> Option<(SectionLine, usize)>
    ensures { IfSome result
        (λ r. IsLine r.0 × Spans bytes.now 0 (line_text r.0 ++ ending wants_lf) r.1) }
{
    let (line, to) = last_word(bytes, wants_lf)?;
    Some((line, to))
}

/// The same. Where there is room for every such line, none of its places needs a test.
#[inline(always)]
fn roomy_word(bytes: &[u8], wants_lf: bool) -> Option<(SectionLine, usize)>
    ensures { IfSome result
        (λ r. IsLine r.0 × Spans bytes.now 0 (line_text r.0 ++ ending wants_lf) r.1) }
{
    match bytes.first_chunk::<ROOM>() {
        Some(room) => ended_word(room, wants_lf),
        None => far_last(bytes, wants_lf),
    }
}

/// The same, wherever it is called from.
#[inline(never)]
fn front_word(bytes: &[u8], wants_lf: bool) -> Option<(SectionLine, usize)>
    ensures { IfSome result
        (λ r. IsLine r.0 × Spans bytes.now 0 (line_text r.0 ++ ending wants_lf) r.1) }
{
    roomy_word(bytes, wants_lf)
}

/// The same, by way of memory that only this way touches.
#[inline(always)]
fn far_word(bytes: &[u8], wants_lf: bool) -> Option<(SectionLine, usize)>
    ensures { IfSome result
        (λ r. IsLine r.0 × Spans bytes.now 0 (line_text r.0 ++ ending wants_lf) r.1) }
{
    let (line, to) = front_word(bytes, wants_lf)?;
    Some((line, to))
}

/// The line of a section at the front, and the place behind it, or behind its LF.
#[inline(always)]
pub(crate) fn front_section(bytes: &[u8], wants_lf: bool) -> Option<(SectionLine, usize)>
    ensures { IfSome result
        (λ r. IsLine r.0 × Spans bytes.now 0 (line_text r.0 ++ ending wants_lf) r.1) }
{
    match roomy_entry(bytes, wants_lf) {
        Some(found) => Some(found),
        None => far_word(bytes, wants_lf),
    }
}

/// The line of a section that stands at the front with its LF, and how many bytes both have. They are read once.
/// None says nothing of the bytes: there may be such a line, but this function doesn't find it.
#[inline(always)]
pub fn front_line(bytes: &[u8]) -> Option<(SectionLine, usize)>
    ensures { IfSome result
        (λ r. IsLine r.0 × (r.1 ≤ length bytes.now)
        × (take r.1 bytes.now ≡ line_text r.0 ++ 10 ∷ [])) }
{
    front_section(bytes, true)
}

/// As `front_line`, of entries alone.
#[inline(always)]
pub fn front_entry_line(bytes: &[u8]) -> Option<(SectionLine, usize)>
    ensures { IfSome result
        (λ r. IsLine r.0 × (r.1 ≤ length bytes.now)
        × (take r.1 bytes.now ≡ line_text r.0 ++ 10 ∷ [])) }
{
    roomy_entry(bytes, true)
}

/// As `front_line`, of lines that are no entry's.
#[inline(always)]
pub fn front_word_line(bytes: &[u8]) -> Option<(SectionLine, usize)>
    ensures { IfSome result
        (λ r. IsLine r.0 × (r.1 ≤ length bytes.now)
        × (take r.1 bytes.now ≡ line_text r.0 ++ 10 ∷ [])) }
{
    roomy_word(bytes, true)
}
