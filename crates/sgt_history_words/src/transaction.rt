//! The members of a transaction, read as far as something is wrong with them.

ghost use Rattle.std.specs.Prelude.{◌≤◌, ◌+◌, length, IfOk, IfSome};

use crate::judge::{
    wrong_end, wrong_id, wrong_operation, wrong_operations, wrong_session, wrong_times,
};
use crate::mistake::{Mistake, Span};
use crate::walk::{Part, Seen, Walk};
use std::alloc::{AllocError, Global};

// How many elements an operation has at most.
const MOST: usize = 4;

/// Which members a transaction has to have besides `tx`, `end` and `ops`.
#[derive(Clone, Copy, Debug, PartialEq, Eq)]
pub struct Asked {
    /// `begin` and `done`, whole numbers, of which the second isn't less.
    pub real_time: bool,
    /// `session`, a name as an item has.
    pub sessions: bool,
}

// The members that say something; of those of one name the last.
#[derive(Drop)]
pub(crate) struct Members<'a> {
    tx: Option<Part<'a>>,
    end: Option<Part<'a>>,
    ops: Option<Part<'a>>,
    operation: Option<Mistake>,
    begin: Option<Part<'a>>,
    done: Option<Part<'a>>,
    session: Option<Part<'a>>,
}

impl<'a> Members<'a> {
    fn none() -> Members<'a> {
        Members {
            tx: None,
            end: None,
            ops: None,
            operation: None,
            begin: None,
            done: None,
            session: None,
        }
    }

    // One member more, which isn't the operations.
    fn set(&mut self, key: &str, part: Part<'a>) {
        match key {
            "tx" => self.tx = Some(part),
            "end" => self.end = Some(part),
            "begin" => self.begin = Some(part),
            "done" => self.done = Some(part),
            "session" => self.session = Some(part),
            _ => {}
        }
    }

    /// Where the id stands.
    pub(crate) fn id(&self) -> Option<Span> {
        match &self.tx {
            Some(part) => Some(part.span),
            None => None,
        }
    }

    /// What is wrong with them.
    pub(crate) fn wrong(&self, asked: Asked) -> Option<Mistake> {
        if let Some(mistake) = wrong_id(&self.tx) {
            return Some(mistake);
        }
        if let Some(mistake) = wrong_end(&self.end) {
            return Some(mistake);
        }
        if let Some(mistake) = wrong_operations(&self.ops) {
            return Some(mistake);
        }
        if let Some(mistake) = self.operation {
            return Some(mistake);
        }
        if asked.real_time {
            if let Some(mistake) = wrong_times(&self.begin, &self.done) {
                return Some(mistake);
            }
        }
        if asked.sessions {
            return wrong_session(&self.session);
        }
        None
    }
}

// The elements of an operation, the first four of them, and how many there are; none, where it is no JSON.
fn elements<'a>(
    walk: &mut Walk<'a>,
    alloc: Global,
    parts: &mut Vec<Part<'a>>,
) -> Result<Option<u64>, AllocError>
    ensures { length walk.new.reader ≤ length walk.old.reader }
{
    let mut count: u64 = 0;
    'elements: while !walk.ends_array() {
        let Some(part) = walk.part(alloc)? else {
            return Ok(None);
        };
        if parts.len() < MOST {
            parts.push(part)?;
        }
        count = count.saturating_add(1);
    }
    Ok(Some(count))
}

// What is wrong with an operation. The outer none: it is no JSON.
fn operation(
    walk: &mut Walk<'_>,
    alloc: Global,
    index: u64,
) -> Result<Option<Option<Mistake>>, AllocError>
    ensures fewer { length walk.new.reader ≤ length walk.old.reader }
    ensures shorter { IfOk result (λ found. IfSome found
        (λ _. length walk.new.reader + 1 ≤ length walk.old.reader)) }
{
    let start = walk.here();
    let Some(seen) = walk.begun() else {
        return Ok(None);
    };
    if !matches!(seen, Seen::Array) {
        let Some(part) = walk.rest(alloc, start, seen)? else {
            return Ok(None);
        };
        return Ok(Some(Some(Mistake::Operation {
            index,
            part: "",
            span: part.span,
            rule: ", and has to be an array",
        })));
    }
    let mut parts = Vec::new(alloc);
    let Some(count) = elements(walk, alloc, &mut parts)? else {
        return Ok(None);
    };
    let span = Span {
        start,
        end: walk.here(),
    };
    Ok(Some(wrong_operation(index, parts.as_slice(), count, span)))
}

// What is wrong with the first operation that isn't right. The outer none: they are no JSON.
fn operations(walk: &mut Walk<'_>, alloc: Global) -> Result<Option<Option<Mistake>>, AllocError>
    ensures { length walk.new.reader ≤ length walk.old.reader }
{
    let mut found = None;
    let mut index: u64 = 0;
    'operations: while !walk.ends_array() {
        let Some(mistake) = operation(walk, alloc, index)? else {
            return Ok(None);
        };
        if found.is_none() {
            found = mistake;
        }
        index = index.saturating_add(1);
    }
    Ok(Some(found))
}

// The member of the operations; false: it is no JSON.
fn take_operations<'a>(
    walk: &mut Walk<'a>,
    alloc: Global,
    members: &mut Members<'a>,
) -> Result<bool, AllocError>
    ensures { length walk.new.reader ≤ length walk.old.reader }
{
    let start = walk.here();
    let Some(seen) = walk.begun() else {
        return Ok(false);
    };
    members.operation = None;
    if !matches!(seen, Seen::Array) {
        members.ops = walk.rest(alloc, start, seen)?;
        return Ok(members.ops.is_some());
    }
    let Some(mistake) = operations(walk, alloc)? else {
        return Ok(false);
    };
    let end = walk.here();
    members.operation = mistake;
    members.ops = Some(Part {
        seen,
        span: Span { start, end },
    });
    Ok(true)
}

// The member with this key; false: it is no JSON.
fn take<'a>(
    walk: &mut Walk<'a>,
    alloc: Global,
    members: &mut Members<'a>,
    key: &str,
) -> Result<bool, AllocError>
    ensures { length walk.new.reader ≤ length walk.old.reader }
{
    if key == "ops" {
        return take_operations(walk, alloc, members);
    }
    let Some(part) = walk.part(alloc)? else {
        return Ok(false);
    };
    members.set(key, part);
    Ok(true)
}

/// The members of the object whose bracket is passed; none, where it is no JSON.
pub(crate) fn read_members<'a>(
    walk: &mut Walk<'a>,
    alloc: Global,
) -> Result<Option<Members<'a>>, AllocError> {
    let mut members = Members::none();
    'members: loop {
        let Some(found) = walk.key() else {
            return Ok(None);
        };
        let Some(key) = found else {
            return Ok(Some(members));
        };
        if !take(walk, alloc, &mut members, key)? {
            return Ok(None);
        }
    }
}
