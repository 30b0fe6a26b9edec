//! What single values may be, and what is wrong with those that aren't.

use crate::mistake::{Mistake, Span};
use crate::walk::{Part, Seen};

// What an id or an item has to be.
const ID: &str = ", and has to be a string of 1 to 256 bytes or a whole number from 0 to 2^64-1";

const ITEM: &str = ", and has to be a string of 0 to 1024 bytes or a whole number from 0 to 2^64-1";

const WHOLE: &str = ", and has to be a whole number from 0 to 2^64-1";

const VALUE: &str =
    ", and has to be a string, a whole number from -2^63 to 2^64-1, true, false or null";

// Whether the digits are those of a whole number from 0 to 2^64-1.
fn is_whole(digits: &str) -> bool {
    digits.parse::<u64>().is_ok() && !digits.starts_with('-')
}

// Whether they are those of a whole number from -2^63 to 2^64-1; there is no -0.
fn is_integer(digits: &str) -> bool {
    if is_whole(digits) {
        return true;
    }
    match digits.parse::<i64>() {
        Ok(number) => number < 0,
        Err(_) => false,
    }
}

fn is_key(seen: Seen<'_>, least: usize, most: usize) -> bool {
    match seen {
        Seen::String(text) => least <= text.len() && text.len() <= most,
        Seen::Number(digits) => is_whole(digits),
        _ => false,
    }
}

fn is_version(seen: Seen<'_>) -> bool {
    match seen {
        Seen::Number(digits) => is_whole(digits),
        _ => false,
    }
}

fn is_value(seen: Seen<'_>) -> bool {
    match seen {
        Seen::Null | Seen::Bool | Seen::String(_) => true,
        Seen::Number(digits) => is_integer(digits),
        Seen::Array | Seen::Object => false,
    }
}

// A member that has to be there, if it is as it has to be.
fn member(
    name: &'static str,
    found: &Option<Part<'_>>,
    is_right: bool,
    rule: &'static str,
) -> Option<Mistake> {
    match found {
        None => Some(Mistake::NoMember { name }),
        Some(_) if is_right => None,
        Some(part) => Some(Mistake::Member {
            name,
            span: part.span,
            rule,
        }),
    }
}

/// What is wrong with the id.
pub(crate) fn wrong_id(found: &Option<Part<'_>>) -> Option<Mistake> {
    let is_right = match found {
        Some(part) => is_key(part.seen, 1, 256),
        None => false,
    };
    member("tx", found, is_right, ID)
}

/// What is wrong with the session.
pub(crate) fn wrong_session(found: &Option<Part<'_>>) -> Option<Mistake> {
    let is_right = match found {
        Some(part) => is_key(part.seen, 0, 1024),
        None => false,
    };
    member("session", found, is_right, ITEM)
}

/// What is wrong with the end.
pub(crate) fn wrong_end(found: &Option<Part<'_>>) -> Option<Mistake> {
    let is_right = match found {
        Some(part) => match part.seen {
            Seen::String(word) => word == "commit" || word == "abort",
            _ => false,
        },
        None => false,
    };
    member(
        "end",
        found,
        is_right,
        ", and has to be \"commit\" or \"abort\"",
    )
}

/// What is wrong with what stands for the operations.
pub(crate) fn wrong_operations(found: &Option<Part<'_>>) -> Option<Mistake> {
    let is_right = match found {
        Some(part) => matches!(part.seen, Seen::Array),
        None => false,
    };
    member(
        "ops",
        found,
        is_right,
        ", and has to be an array of operations",
    )
}

fn number_of(found: &Option<Part<'_>>) -> Option<u64> {
    match found {
        Some(part) => match part.seen {
            Seen::Number(digits) if is_whole(digits) => digits.parse::<u64>().ok(),
            _ => None,
        },
        None => None,
    }
}

/// What is wrong with a transaction's times.
pub(crate) fn wrong_times(begin: &Option<Part<'_>>, done: &Option<Part<'_>>) -> Option<Mistake> {
    let (first, last) = (number_of(begin), number_of(done));
    if let Some(mistake) = member("begin", begin, first.is_some(), WHOLE) {
        return Some(mistake);
    }
    if let Some(mistake) = member("done", done, last.is_some(), WHOLE) {
        return Some(mistake);
    }
    match (first, last, begin, done) {
        (Some(first), Some(last), Some(begin), Some(done)) if first > last => {
            Some(Mistake::Times {
                begin: begin.span,
                done: done.span,
            })
        }
        _ => None,
    }
}

// What is wrong with a write's version, or a read's, which may be 0.
fn wrong_version(is_write: bool, version: &Part<'_>) -> Option<(&'static str, &'static str)> {
    if !is_version(version.seen) {
        return Some((": its version", WHOLE));
    }
    match version.seen {
        Seen::Number("0") if is_write => Some((": a write's version", ", and has to be from 1")),
        _ => None,
    }
}

/// What is wrong with an operation that has these elements in front, and so many.
pub(crate) fn wrong_operation(
    index: u64,
    parts: &[Part<'_>],
    count: u64,
    span: Span,
) -> Option<Mistake> {
    let [kind, item, version, given @ ..] = parts else {
        return Some(Mistake::Length { index, count, span });
    };
    if count > 4 {
        return Some(Mistake::Length { index, count, span });
    }
    let (is_read, is_write) = match kind.seen {
        Seen::String(word) => (word == "r", word == "w"),
        _ => (false, false),
    };
    let (part, span, rule) = if !is_read && !is_write {
        (": its kind", kind.span, ", and has to be \"r\" or \"w\"")
    } else if !is_key(item.seen, 0, 1024) {
        (": its item", item.span, ITEM)
    } else if let Some((part, rule)) = wrong_version(is_write, version) {
        (part, version.span, rule)
    } else {
        match given.first() {
            Some(value) if !is_value(value.seen) => (": its value", value.span, VALUE),
            _ => return None,
        }
    };
    Some(Mistake::Operation {
        index,
        part,
        span,
        rule,
    })
}
