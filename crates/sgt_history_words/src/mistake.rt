//! What is wrong with a line.

use crate::one_line::OneLine;
use std::alloc::AllocError;

/// The bytes of the line from here up to there.
#[derive(Clone, Copy)]
pub(crate) struct Span {
    pub start: usize,
    pub end: usize,
}

/// What is wrong with a line.
#[derive(Clone, Copy)]
pub(crate) enum Mistake {
    /// Nothing stands in it.
    Blank,
    /// A byte order mark stands in front.
    Mark,
    /// It is the line of a bundle.
    Bundle,
    /// No character stands at this place.
    NotUtf8 {
        at: usize,
    },
    /// No JSON stands at this place, for this reason if one is told.
    NotJson {
        at: usize,
        why: &'static str,
    },
    /// The line ends in the midst of a value.
    Ends,
    /// A value that isn't an object.
    NotAnObject {
        at: usize,
    },
    /// Something stands behind the object.
    Behind {
        at: usize,
    },
    /// There is no such member.
    NoMember {
        name: &'static str,
    },
    /// A member isn't as this rule says.
    Member {
        name: &'static str,
        span: Span,
        rule: &'static str,
    },
    /// An operation, counted from 0, has too few elements or too many.
    Length {
        index: u64,
        count: u64,
        span: Span,
    },
    /// An operation, counted from 0, or a part of it, isn't as this rule says.
    Operation {
        index: u64,
        part: &'static str,
        span: Span,
        rule: &'static str,
    },
    /// It begins behind its end.
    Times {
        begin: Span,
        done: Span,
    },
}

// The bytes from here on.
fn behind(line: &[u8], at: usize) -> &[u8] {
    line.get(at..).unwrap_or(&[])
}

// What stands in the span, without the space and the comma behind it.
fn within(line: &[u8], span: Span) -> &[u8] {
    let whole = line.get(span.start..span.end).unwrap_or(&[]);
    let text = whole.trim_ascii_end();
    match text.strip_suffix(b",") {
        Some(text) => text.trim_ascii_end(),
        None => text,
    }
}

// Which character, counted from 1, stands behind these bytes.
fn column(front: &[u8]) -> u64 {
    let mut count: u64 = 1;
    for byte in front {
        if *byte < 128 || *byte >= 192 {
            count = count.saturating_add(1);
        }
    }
    count
}

fn push_column(words: &mut OneLine, line: &[u8], at: usize) -> Result<(), AllocError> {
    words.push_text("column ")?;
    words.push_number(column(line.get(..at).unwrap_or(line)))
}

fn push_index(words: &mut OneLine, index: u64) -> Result<(), AllocError> {
    words.push_text("ops[")?;
    words.push_number(index)?;
    words.push_text("]")
}

fn push_name(words: &mut OneLine, name: &str) -> Result<(), AllocError> {
    words.push_text("\"")?;
    words.push_text(name)?;
    words.push_text("\"")
}

fn push_rule(words: &mut OneLine, line: &[u8], span: Span, rule: &str) -> Result<(), AllocError> {
    words.push_text(" is ")?;
    words.show(within(line, span))?;
    words.push_text(rule)
}

/// What stands for a member, and what is said of it.
pub(crate) fn push_member(
    words: &mut OneLine,
    line: &[u8],
    name: &str,
    span: Span,
    rule: &str,
) -> Result<(), AllocError> {
    push_name(words, name)?;
    push_rule(words, line, span, rule)
}

// Why the line is no JSON.
fn push_not_json(words: &mut OneLine, line: &[u8], at: usize, why: &str) -> Result<(), AllocError> {
    words.push_text("not JSON: ")?;
    push_column(words, line, at)?;
    words.push_text(": ")?;
    words.push_text(why)?;
    words.show(behind(line, at).trim_ascii_end())
}

fn push_operation(words: &mut OneLine, index: u64, part: &str) -> Result<(), AllocError> {
    push_index(words, index)?;
    words.push_text(part)
}

fn push_length(
    words: &mut OneLine,
    index: u64,
    count: u64,
    shown: &[u8],
) -> Result<(), AllocError> {
    push_index(words, index)?;
    words.push_text(" has ")?;
    words.push_number(count)?;
    words.push_text(if count == 1 { " element" } else { " elements" })?;
    words.push_text(", and has to have 3 or 4: ")?;
    words.show(shown)
}

fn push_times(words: &mut OneLine, line: &[u8], begin: Span, done: Span) -> Result<(), AllocError> {
    push_member(words, line, "begin", begin, ", and ")?;
    push_member(words, line, "done", done, ", which is less")
}

// What stands at this place, behind these words.
fn push_at(words: &mut OneLine, text: &str, line: &[u8], at: usize) -> Result<(), AllocError> {
    words.push_text(text)?;
    words.show(behind(line, at).trim_ascii_end())
}

impl Mistake {
    // What is wrong with the line as a whole.
    fn tell_line(self, words: &mut OneLine, line: &[u8]) -> Result<(), AllocError> {
        match self {
            Mistake::Blank => words.push_text("nothing stands in it"),
            Mistake::Mark => words.push_text("it begins with a byte order mark (bytes ef bb bf)"),
            Mistake::Bundle => push_at(words, "not JSON, but the line of a bundle: ", line, 0),
            Mistake::NotUtf8 { at } => {
                words.push_text("not UTF-8: ")?;
                push_column(words, line, at)?;
                words.push_text(": ")?;
                words.show(behind(line, at))
            }
            Mistake::NotJson { at, why } => push_not_json(words, line, at, why),
            Mistake::Ends => {
                words.push_text("not JSON: the line ends behind ")?;
                push_column(words, line, line.trim_ascii_end().len().saturating_sub(1))?;
                words.push_text(", in the midst of a value")
            }
            Mistake::NotAnObject { at } => push_at(words, "not an object: ", line, at),
            Mistake::Behind { at } => push_at(words, "behind the object stands ", line, at),
            _ => Ok(()),
        }
    }

    /// Says it in words.
    pub(crate) fn tell(self, words: &mut OneLine, line: &[u8]) -> Result<(), AllocError> {
        match self {
            Mistake::NoMember { name } => {
                words.push_text("no member ")?;
                push_name(words, name)
            }
            Mistake::Member { name, span, rule } => push_member(words, line, name, span, rule),
            Mistake::Length { index, count, span } => {
                push_length(words, index, count, within(line, span))
            }
            Mistake::Operation {
                index,
                part,
                span,
                rule,
            } => {
                push_operation(words, index, part)?;
                push_rule(words, line, span, rule)
            }
            Mistake::Times { begin, done } => push_times(words, line, begin, done),
            _ => self.tell_line(words, line),
        }
    }
}
