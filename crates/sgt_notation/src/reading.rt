//! Lines, read exactly where they are spelled.

ghost use Rattle.std.specs.Prelude.{◌≡◌, ◌≢◌, ◌↔◌, ◌++◌, ◌∷◌, ℕ, List, length, All, IsTrue, IfSome, IfNone, MatchOption};
ghost use Rattle.sgt_notation.specs.Private.{IsOperation, operation_text};
ghost use Rattle.sgt_notation.specs.Reading.{Finds, Reads, Refuses};
ghost use Rattle.sgt_notation.specs.Spelling.{IsEntry, IsHolding, IsLine, assignment, entry_text, line_text};

use crate::SectionLine;
use crate::fault::NotationFault;
use crate::front::front_section;
use crate::number::{find_site, find_tx, find_value};
use sgt_names::{Entry, Holding, Item, MAX_LINE, Tx, Value};

/// What stands before the first such byte, and what after it.
pub(crate) fn cut(bytes: &[u8], at: u8) -> Option<(&[u8], &[u8])>
    ensures some { IfSome result
        (λ r. (bytes.now ≡ r.0.now ++ at ∷ r.1.now) × All (λ b. b ≢ at) r.0.now) }
    ensures none { IfNone result (All (λ b. b ≢ at) bytes.now) }
{
    let n = bytes.iter().position(|byte| *byte == at)?;
    Some((&bytes[..n], &bytes[n + 1..]))
}

/// Whether the bytes are those of the word. No byte decides alone, so a constant word is compared by eight bytes at a
/// time.
#[inline(always)]
fn are_same(bytes: &[u8], word: &[u8]) -> bool
    requires { length bytes.now ≡ length word.now }
    ensures { IsTrue result ↔ (bytes.now ≡ word.now) }
{
    let mut same = true;
    for i in 0..word.len() {
        same &= bytes[i] == word[i];
    }
    same
}

/// What stands behind this word, where it stands in front.
#[inline(always)]
pub fn behind<'b>(bytes: &'b [u8], word: &[u8]) -> Option<&'b [u8]>
    ensures { MatchOption result ((rest : List ℕ) → bytes.entry.now ≢ word.now ++ rest)
        (λ rest. bytes.entry.now ≡ word.now ++ rest.now) }
{
    let (front, rest) = bytes.split_at_checked(word.len())?;
    if are_same(front, word) {
        Some(rest)
    } else {
        None
    }
}

/// Reads `TX[NAME]=NUM`.
fn find_operation(bytes: &[u8]) -> Option<(Tx, Item, Value)>
    ensures { Finds IsOperation operation_text bytes.now result }
{
    let (tx_text, tail) = cut(bytes, b'[')?;
    let (name, last) = cut(tail, b']')?;
    let (equals, value_text) = last.split_first()?;
    if *equals != b'=' {
        return None;
    }
    let tx = find_tx(tx_text)?;
    let item = Item::new(name).ok()?;
    let value = find_value(value_text)?;
    Some((tx, item, value))
}

/// Reads `NAME=NUM`.
pub(crate) fn find_holding(bytes: &[u8]) -> Option<Holding>
    ensures { Finds IsHolding (λ h. assignment h.item h.value) bytes.now result }
{
    let (name, value_text) = cut(bytes, b'=')?;
    let item = Item::new(name).ok()?;
    let value = find_value(value_text)?;
    Some(Holding { item, value })
}

/// Reads the line of an entry.
fn find_entry(line: &[u8]) -> Option<Entry>
    ensures { Finds IsEntry entry_text line.now result }
{
    let (letter, rest) = line.split_first()?;
    match *letter {
        b'r' => find_operation(rest).map(|(tx, item, value)| Entry::Read { tx, item, value }),
        b'w' => find_operation(rest).map(|(tx, item, value)| Entry::Write { tx, item, value }),
        b'd' => find_operation(rest).map(|(tx, item, value)| Entry::Add { tx, item, value }),
        b'p' => find_operation(rest).map(|(tx, item, value)| Entry::Want { tx, item, value }),
        b'q' => find_operation(rest).map(|(tx, item, value)| Entry::WantAdd { tx, item, value }),
        b'c' => find_tx(rest).map(|tx| Entry::Commit { tx }),
        b'n' => find_tx(rest).map(|tx| Entry::Refuse { tx }),
        b'a' => find_tx(rest).map(|tx| Entry::Withdraw { tx }),
        _ => None,
    }
}

/// The line of a section that these bytes spell, as far as a look at their front finds it.
fn whole_line(line: &[u8]) -> Option<SectionLine>
    ensures { IfSome result (λ l. IsLine l × (line.now ≡ line_text l)) }
{
    match front_section(line, false) {
        Some((found, to)) if to == line.len() => Some(found),
        _ => None,
    }
}

/// Reads a line of a section.
fn find_line(line: &[u8]) -> Option<SectionLine>
    ensures { Finds IsLine line_text line.now result }
{
    if let Some(found) = whole_line(line) {
        return Some(found);
    }
    if let Some(entry) = find_entry(line) {
        return Some(SectionLine::Logged(entry));
    }
    if let Some(number) = behind(line, b"site ") {
        return find_site(number).map(SectionLine::Site);
    }
    if let Some(text) = behind(line, b"item ") {
        return find_holding(text).map(SectionLine::Initial);
    }
    if let Some(text) = behind(line, b"final ") {
        return find_holding(text).map(SectionLine::Final);
    }
    if line == b"end".as_slice() {
        Some(SectionLine::End)
    } else {
        None
    }
}

/// Why a line that spells nothing is refused.
pub(crate) fn refusal(line: &[u8]) -> NotationFault
    ensures { Refuses line.now result }
{
    if line.len() > MAX_LINE {
        NotationFault::TooLong
    } else {
        NotationFault::NotALine
    }
}

/// The entry that this line, without its LF, spells. L2 for a line that is too long, and L1 for any other line.
/// It takes no memory.
pub fn read_entry(line: &[u8]) -> Result<Entry, NotationFault>
    ensures { Reads IsEntry entry_text line.now result }
{
    match find_entry(line) {
        Some(entry) => Ok(entry),
        None => Err(refusal(line)),
    }
}

/// The line of a section that this line, without its LF, spells. L2 for a line that is too long, and L1 for any other
/// line. It takes no memory.
pub fn read_section(line: &[u8]) -> Result<SectionLine, NotationFault>
    ensures { Reads IsLine line_text line.now result }
{
    match find_line(line) {
        Some(line) => Ok(line),
        None => Err(refusal(line)),
    }
}
