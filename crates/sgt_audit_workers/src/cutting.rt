//! A reader, cut behind the last line of each section.

ghost use Rattle.std.specs.Prelude.{ℕ, ◌≡◌, ◌≢◌, ◌<◌, ◌≤◌, ◌⊎◌, ◌↔◌, ◌+◌, ◌++◌, ◌∷◌, [], Err, length, IsTrue, IfOk, IfErr, IfSome, OnOk, OnErr, IsErrOf};
ghost use Rattle.sgt_notation.specs.Lines.{GaveNext, coming, stream};
ghost use Rattle.sgt_audit_workers.specs.Cut.{FailsDuly, IsPiece, KeepsReady, Takes};

use memchr::{memmem, memrchr};
use sgt_names::{EngineFail, Flow, MAX_LINE, Source};
use sgt_notation::{Lines, LinesFault, Next};

/// Where a piece of a text stops.
#[derive(Clone, Copy)]
pub enum Stop {
    /// Behind a line `end`.
    Section,
    /// Where the text ends.
    Text,
    /// Where no more of the section is wanted in one piece.
    Room,
    /// Before a line that is too long.
    Long,
}

/// What was read last of a text: a line, and whether the next read may have to wait.
#[derive(Drop)]
pub struct Latest {
    pub line: Vec<u8>,
    /// Whether the source was drained once that line was read.
    pub is_drained: bool,
}

/// How much of a text is wanted in one piece: once it has `enough` bytes no more is read for it, and held lines are
/// put behind it only where it has at most so many bytes as `most` with them.
#[derive(Clone, Copy)]
pub struct Room {
    pub enough: usize,
    pub most: usize,
}

/// What comes next, as `next` of `Lines` tells it; and behind a line, whether the next read may have to wait.
pub fn next_line<R: Source>(
    reader: &mut R,
    lines: &mut Lines,
    is_drained: &mut bool,
    line: &mut Vec<u8>,
    limit: usize,
) -> Result<Next, EngineFail>
    ensures gave { let old = stream lines.old (R.tells reader.old) (R.failures reader.old) in
        let new = stream lines.new (R.tells reader.new) (R.failures reader.new) in
        IfOk result (λ next. GaveNext limit old next line.new.items new) }
    ensures asks { R.asked reader.new + lines.new.reads ≡ R.asked reader.old + lines.old.reads }
    ensures few { lines.old.reads ≤ lines.new.reads + length line.new.items + 1 }
    ensures short { length line.new.items ≤ limit }
    ensures quiet { result ≢ Err EngineFail.ReadFault
        → R.failures reader.new ≡ R.failures reader.old }
    ensures once { R.failures reader.new ≤ R.failures reader.old + 1 }
    ensures read_fault { IsErrOf result EngineFail.ReadFault
        → FailsDuly lines.old.reads (coming lines.old (R.tells reader.old))
        (R.failures reader.old) (R.failures reader.new) (R.asked reader.old) (R.asked reader.new) }
    ensures write_fault { result ≢ Err EngineFail.WriteFault }
    ensures noted { IfOk result
        (λ _. IsTrue is_drained.new ↔ (R.flows reader.new ≡ Flow.Drained)) }
{
    match lines.next(reader, line, limit) {
        Ok(next) => {
            *is_drained = reader.flow() == Flow::Drained;
            Ok(next)
        }
        Err(LinesFault::Memory) => Err(EngineFail::Memory),
        Err(LinesFault::ReadFault) => Err(EngineFail::ReadFault),
    }
}

/// The place behind the first line `end` of these lines, if one is found.
fn behind_end(lines: &[u8]) -> Option<usize>
    ensures { IfSome result (λ n. n ≤ length lines.now) }
{
    if lines.starts_with(b"end\n") {
        return Some(4);
    }
    match memmem::find(lines, b"\nend\n") {
        Some(n) => Some(lines.len().min(n.saturating_add(5))),
        None => None,
    }
}

/// The place behind the last line that is whole.
fn behind_lines(bytes: &[u8]) -> usize
    ensures { result ≤ length bytes.now }
{
    match memrchr(b'\n', bytes) {
        Some(n) => n + 1,
        None => 0,
    }
}

fn append(section: &mut Vec<u8>, bytes: &[u8]) -> Result<(), EngineFail>
    ensures ok { OnOk result (section.new.items ≡ section.old.items ++ bytes.now) }
    ensures kept { OnErr result (section.new.items ≡ section.old.items) }
    ensures err { IfErr result (λ e. e ≡ EngineFail.Memory) }
{
    match section.extend_from_slice(bytes) {
        Ok(()) => Ok(()),
        Err(_) => Err(EngineFail::Memory),
    }
}

/// Moves so many of the held bytes behind the section.
fn move_held(lines: &mut Lines, section: &mut Vec<u8>, n: usize) -> Result<(), EngineFail>
    requires { n ≤ length lines.old.held }
    ensures takes { OnOk result (Takes n lines.old lines.new section.old.items section.new.items) }
    ensures kept { OnErr result
        ((section.new.items ≡ section.old.items) × (lines.new ≡ lines.old)) }
    ensures err { IfErr result (λ e. e ≡ EngineFail.Memory) }
{
    let (first, _) = lines.held().split_at(n);
    append(section, first)?;
    lines.pass(n);
    Ok(())
}

/// The lines that are held whole, up to the first line `end`: how many bytes they have, and whether that is their last.
fn held_lines(lines: &Lines) -> (usize, bool)
    ensures { result.0 ≤ length lines.now.held }
{
    match behind_end(lines.held()) {
        Some(n) => (n, true),
        None => (behind_lines(lines.held()), false),
    }
}

/// Moves the lines that are held whole behind the section, up to the first line `end`, unless it had more bytes than
/// these with them: where it stops then.
fn take_held(
    lines: &mut Lines,
    section: &mut Vec<u8>,
    most: usize,
) -> Result<Option<Stop>, EngineFail>
    ensures takes { IfOk result (λ _. (n : ℕ) × (n ≤ length lines.old.held)
        × Takes n lines.old lines.new section.old.items section.new.items) }
    ensures short { IfOk result (λ _. (length section.new.items ≤ most)
        ⊎ (section.new.items ≡ section.old.items)) }
    ensures stops { IfOk result (λ r. IfSome r (λ stop. (stop ≡ Stop.Section) ⊎ (stop ≡ Stop.Room))) }
    ensures kept { OnErr result
        ((section.new.items ≡ section.old.items) × (lines.new ≡ lines.old)) }
    ensures err { IfErr result (λ e. e ≡ EngineFail.Memory) }
{
    let (n, ends) = held_lines(lines);
    if n > most.saturating_sub(section.len()) {
        return Ok(Some(Stop::Room));
    }
    move_held(lines, section, n)?;
    if ends {
        return Ok(Some(Stop::Section));
    }
    Ok(None)
}

/// Puts a line behind the section, with its LF.
fn append_line(section: &mut Vec<u8>, line: &mut Vec<u8>) -> Result<(), EngineFail>
    ensures ok { OnOk result
        (section.new.items ≡ section.old.items ++ (line.old.items ++ 10 ∷ [])) }
    ensures kept { OnErr result (section.new.items ≡ section.old.items) }
    ensures err { IfErr result (λ e. e ≡ EngineFail.Memory) }
{
    if line.push(b'\n').is_err() {
        return Err(EngineFail::Memory);
    }
    append(section, line.as_slice())
}

/// Reads on behind the bytes of a section that were read: its lines up to the next line `end`, with it, or up to the
/// end of the text, or a part of them. No read is made where lines are held whole, nor where one may have to wait. What
/// was read before an Err stands behind the section too, but for the line that was read then.
pub fn read_piece<R: Source>(
    reader: &mut R,
    lines: &mut Lines,
    latest: &mut Latest,
    section: &mut Vec<u8>,
    room: Room,
) -> Result<Stop, EngineFail>
    requires { room.enough ≤ room.most }
    ensures piece { let old = coming lines.old (R.tells reader.old) in
        let new = coming lines.new (R.tells reader.new) in
        IsPiece room.most old new lines.old.reads lines.new.reads section.old.items
        section.new.items result }
    ensures asks { R.asked reader.new + lines.new.reads ≡ R.asked reader.old + lines.old.reads }
    ensures quiet { result ≢ Err EngineFail.ReadFault
        → R.failures reader.new ≡ R.failures reader.old }
    ensures once { R.failures reader.new ≤ R.failures reader.old + 1 }
    ensures read_fault { IsErrOf result EngineFail.ReadFault
        → FailsDuly lines.old.reads (coming lines.old (R.tells reader.old))
        (R.failures reader.old) (R.failures reader.new) (R.asked reader.old) (R.asked reader.new) }
    ensures write_fault { result ≢ Err EngineFail.WriteFault }
    ensures ready { KeepsReady latest.old.is_drained latest.new.is_drained
        (R.asked reader.old) (R.asked reader.new) }
{
    'pieces: loop {
        if let Some(stop) = take_held(lines, section, room.most)? {
            return Ok(stop);
        }
        if section.len() >= room.enough {
            return Ok(Stop::Room);
        }
        if latest.is_drained {
            return Ok(Stop::Room);
        }
        let is_drained = &mut latest.is_drained;
        match next_line(reader, lines, is_drained, &mut latest.line, MAX_LINE)? {
            Next::Line => {
                let ends = latest.line.as_slice() == b"end".as_slice();
                append_line(section, &mut latest.line)?;
                if ends {
                    return Ok(Stop::Section);
                }
            }
            Next::Cut => {
                append(section, latest.line.as_slice())?;
                return Ok(Stop::Text);
            }
            Next::End => return Ok(Stop::Text),
            Next::TooLong => return Ok(Stop::Long),
        }
    }
}
