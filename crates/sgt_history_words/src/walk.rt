//! A walk over the tokens of a line, as deep as they nest.

ghost use Rattle.std.specs.Prelude.{◌≤◌, ◌+◌, length, IfOk, IfSome, if◌then◌else◌};

use crate::mistake::Span;
use json::{Reader, Token};
use std::alloc::{AllocError, Global};

/// What a value is, or begins with.
#[derive(Clone, Copy, Drop)]
pub(crate) enum Seen<'a> {
    Null,
    Bool,
    Number(&'a str),
    String(&'a str),
    Array,
    Object,
}

/// A value, and where it stands.
#[derive(Clone, Copy, Drop)]
pub(crate) struct Part<'a> {
    pub seen: Seen<'a>,
    pub span: Span,
}

/// The tokens that are still to come, and where the last one that was read or looked at begins.
#[derive(Drop)]
pub(crate) struct Walk<'a> {
    reader: Reader<'a>,
    at: usize,
}

impl<'a> Walk<'a> {
    /// A walk over these tokens.
    pub(crate) fn new(reader: Reader<'a>) -> Walk<'a> {
        Walk { reader, at: 0 }
    }

    /// Where the token began that was read last. Where none could be read, the text is no JSON from there on.
    pub(crate) fn at(&self) -> usize {
        self.at
    }

    /// Where the next token begins.
    pub(crate) fn here(&self) -> usize {
        self.reader.offset()
    }

    /// Whether a token is left, also one that is none.
    pub(crate) fn is_left(&mut self) -> bool {
        self.at = self.reader.offset();
        self.reader.next().is_some()
    }

    /// The beginning of a value.
    pub(crate) fn begun(&mut self) -> Option<Seen<'a>>
        ensures fewer { length self.new.reader ≤ length self.old.reader }
        ensures shorter { IfSome result (λ _. length self.new.reader + 1 ≤ length self.old.reader) }
    {
        self.at = self.reader.offset();
        let token = self.reader.next()?;
        match token {
            Token::BeginObject => Some(Seen::Object),
            Token::BeginArray => Some(Seen::Array),
            Token::String(text) => Some(Seen::String(text)),
            Token::Number(text) => Some(Seen::Number(text)),
            Token::Bool(_) => Some(Seen::Bool),
            Token::Null => Some(Seen::Null),
            Token::EndObject => None,
            Token::EndArray => None,
            Token::Key(_) => None,
            Token::Bad => None,
        }
    }

    /// The next member's key, or that the object ends.
    pub(crate) fn key(&mut self) -> Option<Option<&'a str>>
        ensures fewer { length self.new.reader ≤ length self.old.reader }
        ensures shorter { IfSome result (λ _. length self.new.reader + 1 ≤ length self.old.reader) }
    {
        self.at = self.reader.offset();
        let token = self.reader.next()?;
        match token {
            Token::Key(key) => Some(Some(key)),
            Token::EndObject => Some(None),
            Token::BeginObject => None,
            Token::BeginArray => None,
            Token::String(_) => None,
            Token::Number(_) => None,
            Token::Bool(_) => None,
            Token::Null => None,
            Token::EndArray => None,
            Token::Bad => None,
        }
    }

    /// Whether the array ends here.
    pub(crate) fn ends_array(&mut self) -> bool
        ensures { length self.new.reader ≤ length self.old.reader }
    {
        self.at = self.reader.offset();
        self.reader.take_end_array()
    }

    // Whether what is open is closed here: an object, or an array. Else a value comes; the key before it is passed.
    fn enters(&mut self, object: bool) -> Option<bool>
        ensures fewer { length self.new.reader ≤ length self.old.reader }
    {
        if !object {
            return Some(self.ends_array());
        }
        match self.key() {
            Some(key) => Some(key.is_none()),
            None => None,
        }
    }

    // Passes over the rest of an object or an array; false: it is no JSON.
    fn skip(&mut self, alloc: Global, object: bool) -> Result<bool, AllocError>
        ensures { length self.new.reader ≤ length self.old.reader }
    {
        let mut open = Vec::new(alloc);
        open.push(object)?;
        'open: while let Some(object) = open.pop() {
            let Some(closed) = self.enters(object) else {
                return Ok(false);
            };
            if closed {
                continue;
            }
            open.push(object)?;
            match self.begun() {
                None => return Ok(false),
                Some(Seen::Object) => open.push(true)?,
                Some(Seen::Array) => open.push(false)?,
                Some(_) => {}
            }
        }
        Ok(true)
    }

    /// The rest of a value that has begun so at this place; none, where it is no JSON.
    pub(crate) fn rest(
        &mut self,
        alloc: Global,
        start: usize,
        seen: Seen<'a>,
    ) -> Result<Option<Part<'a>>, AllocError>
        ensures { length self.new.reader ≤ length self.old.reader }
    {
        let is_whole = match seen {
            Seen::Array => self.skip(alloc, false)?,
            Seen::Object => self.skip(alloc, true)?,
            _ => true,
        };
        if !is_whole {
            return Ok(None);
        }
        let end = self.reader.offset();
        Ok(Some(Part {
            seen,
            span: Span { start, end },
        }))
    }

    /// A value; none, where it is no JSON.
    pub(crate) fn part(&mut self, alloc: Global) -> Result<Option<Part<'a>>, AllocError>
        ensures fewer { length self.new.reader ≤ length self.old.reader }
        ensures shorter { IfOk result (λ found. IfSome found
            (λ _. length self.new.reader + 1 ≤ length self.old.reader)) }
    {
        let start = self.reader.offset();
        match self.begun() {
            Some(seen) => self.rest(alloc, start, seen),
            None => Ok(None),
        }
    }
}
