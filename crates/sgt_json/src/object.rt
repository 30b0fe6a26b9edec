//! An answer as an object.

ghost use Rattle.std.specs.Prelude.{◌≡◌, ◌++◌, IfOk, OnOk, codes};
ghost use Rattle.json.specs.Print.{quoted};
ghost use Rattle.sgt_json.specs.Object.{after, closed, ended_line, head_text, is_closed, line_text, object_of, says_yes, started, state_of, taken, taken_byte, told_text, verdict_of};

use crate::forms::members_of;
use crate::quoted::push_quoted;
use crate::scan::begins;
use std::alloc::{AllocError, Global};

/// Whose answer it is: a command's, of the file of this name.
#[derive(Clone, Copy)]
pub struct Asked<'a> {
    pub command: &'a str,
    pub file: &'a str,
}

// How many lines of the answer ended.
#[derive(Clone, Copy)]
pub(crate) enum Ended {
    Nothing,
    First,
    More,
}

// The object as far as it is written, and the line that isn't written yet.
#[derive(Drop)]
pub(crate) struct Writing {
    pub alloc: Global,
    pub out: Vec<u8>,
    pub line: Vec<u8>,
    pub ended: Ended,
}

fn says_yes(line: &[u8]) -> bool
    ensures { result ≡ says_yes line.now }
{
    begins(line, b"yes ") || begins(line, b"a certificate exists: ")
}

#[tactic(auto, unfolding(crate::specs::Object::verdict_of))]
fn verdict_of(line: &[u8]) -> &'static [u8]
    ensures { result.now ≡ verdict_of line.now }
{
    if says_yes(line) {
        return b"yes";
    }
    if begins(line, b"no ") {
        return b"no";
    }
    if begins(line, b"! ") {
        return b"unread";
    }
    b"other"
}

fn after(ended: Ended) -> Ended
    ensures { result ≡ after ended }
{
    match ended {
        Ended::Nothing => Ended::First,
        Ended::First => Ended::More,
        Ended::More => Ended::More,
    }
}

// Writes a line and what it tells, behind the key's front.
fn push_told(alloc: Global, out: &mut Vec<u8>, key: &[u8], line: &[u8]) -> Result<(), AllocError>
    ensures { OnOk result (out.new.items ≡ out.old.items ++ told_text key.now line.now) }
{
    let members = members_of(alloc, line)?;
    out.extend_from_slice(key)?;
    push_quoted(out, line)?;
    out.extend_from_slice(members.as_slice())
}

// Writes the first line, and what it tells.
fn push_first(alloc: Global, out: &mut Vec<u8>, line: &[u8]) -> Result<(), AllocError>
    ensures { OnOk result (out.new.items ≡ out.old.items ++ line_text Ended.Nothing line.now) }
{
    out.extend_from_slice(b",\"verdict\":")?;
    push_quoted(out, verdict_of(line))?;
    push_told(alloc, out, b",\"text\":", line)?;
    out.extend_from_slice(b",\"lines\":[")
}

// Writes a line, and what it tells.
fn push_line(alloc: Global, out: &mut Vec<u8>, ended: Ended, line: &[u8]) -> Result<(), AllocError>
    ensures { OnOk result (out.new.items ≡ out.old.items ++ line_text ended line.now) }
{
    match ended {
        Ended::Nothing => push_first(alloc, out, line),
        Ended::First => {
            push_told(alloc, out, b"{\"text\":", line)?;
            out.extend_from_slice(b"}")
        }
        Ended::More => {
            push_told(alloc, out, b",{\"text\":", line)?;
            out.extend_from_slice(b"}")
        }
    }
}

impl Writing {
    // The line ended.
    fn end_line(&mut self) -> Result<(), AllocError>
        ensures { OnOk result (state_of self.new ≡ ended_line (state_of self.old)) }
    {
        push_line(self.alloc, &mut self.out, self.ended, self.line.as_slice())?;
        self.line.clear();
        self.ended = after(self.ended);
        Ok(())
    }

    // One more byte.
    fn take(&mut self, byte: u8) -> Result<(), AllocError>
        ensures { OnOk result (state_of self.new ≡ taken_byte (state_of self.old) byte) }
    {
        if byte == b'\n' {
            return self.end_line();
        }
        Ok(self.line.push(byte)?)
    }

    fn take_all(&mut self, answer: &[u8]) -> Result<(), AllocError>
        ensures { OnOk result (state_of self.new ≡ taken (state_of self.old) answer.now) }
    {
        for byte in answer {
            self.take(*byte)?;
        }
        Ok(())
    }

    fn is_closed(&self) -> bool
        ensures { result ≡ is_closed (state_of self.now) }
    {
        match self.ended {
            Ended::Nothing => false,
            _ => self.line.is_empty(),
        }
    }

    // A line without its end is one, and so is an answer without a line.
    fn close(&mut self) -> Result<(), AllocError>
        ensures { OnOk result (state_of self.new ≡ closed (state_of self.old)) }
    {
        if self.is_closed() {
            return Ok(());
        }
        self.end_line()
    }
}

// The object's front.
fn head_of(alloc: Global, asked: Asked<'_>) -> Result<Vec<u8>, AllocError>
    ensures { IfOk result (λ text. text.items ≡ head_text asked.entry.command.now asked.entry.file.now) }
{
    let mut out = Vec::new(alloc);
    out.extend_from_slice(b"{\"command\":")?;
    push_quoted(&mut out, asked.command.as_bytes())?;
    out.extend_from_slice(b",\"file\":")?;
    push_quoted(&mut out, asked.file.as_bytes())?;
    Ok(out)
}

/// The answer as an object, in one line.
pub fn object_of(alloc: Global, asked: Asked<'_>, answer: &[u8]) -> Result<Vec<u8>, AllocError>
    ensures { IfOk result (λ text. text.items ≡ object_of asked.entry.command.now asked.entry.file.now answer.now) }
{
    let mut writing = Writing {
        alloc,
        out: head_of(alloc, asked)?,
        line: Vec::new(alloc),
        ended: Ended::Nothing,
    };
    writing.take_all(answer)?;
    writing.close()?;
    let mut out = writing.out;
    out.extend_from_slice(b"]}\n")?;
    Ok(out)
}
