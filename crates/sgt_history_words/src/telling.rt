//! What is wrong with a line that can't be read.

ghost use Rattle.std.specs.Prelude.{◌≡◌, IfOk, IfSome};
ghost use Rattle.sgt_history_words.specs.OneLine.{IsTold};

use crate::answer::Unread;
use crate::mistake::{Mistake, Span, push_member};
use crate::one_line::OneLine;
use crate::strings::{Broken, why_broken};
use crate::transaction::{Asked, read_members};
use crate::walk::{Seen, Walk};
use json::{Reader, Scratch};
use std::alloc::{AllocError, Global};

// Why there is no JSON from this place on.
fn not_json(line: &[u8], at: usize) -> Mistake {
    let rest = line.get(at..).unwrap_or(&[]).trim_ascii_end();
    if rest.is_empty() {
        return Mistake::Ends;
    }
    let why = match rest.strip_prefix(b"\"") {
        Some(text) => why_broken(text),
        None => None,
    };
    let inside = at.saturating_add(1);
    let (at, why) = match why {
        Some(Broken::NoEnd) => (at, "a string with no end: "),
        Some(Broken::Control(place)) => (
            inside.saturating_add(place),
            "a control character in a string: ",
        ),
        Some(Broken::Escape(place)) => (inside.saturating_add(place), "an unknown escape: "),
        Some(Broken::Half(place)) => (inside.saturating_add(place), "half a surrogate pair: "),
        None => (at, ""),
    };
    Mistake::NotJson { at, why }
}

// What is wrong with the text of a line.
fn wrong_text(alloc: Global, text: &str, asked: Asked) -> Result<Option<Mistake>, AllocError> {
    let line = text.as_bytes();
    let mut scratch = Scratch::new(alloc);
    let mut walk = Walk::new(Reader::new(text, &mut scratch)?);
    let start = walk.here();
    match walk.begun() {
        None => return Ok(Some(not_json(line, walk.at()))),
        Some(Seen::Object) => {}
        Some(_) => return Ok(Some(Mistake::NotAnObject { at: start })),
    }
    let Some(found) = read_members(&mut walk, alloc)? else {
        return Ok(Some(not_json(line, walk.at())));
    };
    if walk.is_left() {
        return Ok(Some(Mistake::Behind { at: walk.at() }));
    }
    Ok(found.wrong(asked))
}

// What is wrong with a line.
fn wrong_line(alloc: Global, line: &[u8], asked: Asked) -> Result<Option<Mistake>, AllocError> {
    if line.trim_ascii().is_empty() {
        return Ok(Some(Mistake::Blank));
    }
    if line.starts_with(b"\xef\xbb\xbf") {
        return Ok(Some(Mistake::Mark));
    }
    if line.starts_with(b"sgt ") {
        return Ok(Some(Mistake::Bundle));
    }
    match std::str::from_utf8(line) {
        Ok(text) => wrong_text(alloc, text, asked),
        Err(e) => Ok(Some(Mistake::NotUtf8 {
            at: e.valid_up_to(),
        })),
    }
}

// Where the id stands in the text of a line.
fn id_of(alloc: Global, text: &str) -> Result<Option<Span>, AllocError> {
    let mut scratch = Scratch::new(alloc);
    let mut walk = Walk::new(Reader::new(text, &mut scratch)?);
    if walk.begun().is_none() {
        return Ok(None);
    }
    match read_members(&mut walk, alloc)? {
        Some(found) => Ok(found.id()),
        None => Ok(None),
    }
}

// That an earlier line has the id.
fn push_id(alloc: Global, words: &mut OneLine, line: &[u8]) -> Result<(), AllocError> {
    let found = match std::str::from_utf8(line) {
        Ok(text) => id_of(alloc, text)?,
        Err(_) => None,
    };
    match found {
        Some(span) => push_member(words, line, "tx", span, ", which an earlier line has"),
        None => words.push_text("an earlier line has its \"tx\""),
    }
}

/// Says what is wrong with the line of this number, which can't be read so: `sgt: line 4: no member "end"`, and an
/// LF. None: nothing is.
pub fn unreadable(
    alloc: Global,
    number: u64,
    unread: Unread,
    line: &[u8],
    asked: Asked,
) -> Result<Option<Vec<u8>>, AllocError>
    ensures { IfOk result (λ found. IfSome found (λ text. IsTold number text.items)) }
{
    let mut words = OneLine::new(alloc);
    match unread {
        Unread::NotALine => match wrong_line(alloc, line, asked)? {
            Some(mistake) => mistake.tell(&mut words, line)?,
            None => return Ok(None),
        },
        Unread::TooLong => words.push_text("longer than 16777216 bytes, without its LF")?,
        Unread::IdAgain => push_id(alloc, &mut words, line)?,
    }
    Ok(Some(words.on_line(alloc, number)?))
}
