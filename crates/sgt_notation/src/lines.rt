//! A reader, cut into lines.

ghost use Rattle.std.specs.Prelude.{ℕ, List, Option, ◌≡◌, ◌≢◌, ◌+◌, ◌-◌, ◌<◌, ◌≤◌, ◌⊎◌, ◌^◌, [], ◌∷◌, ◌++◌, length, take, drop, vec_len, vec_capacity};
ghost use Rattle.std.specs.Prelude.{Some, Ok, IfSome, IfNone, IfErr, IfOk, OnOk, OnErr, IsErrOf};
ghost use Rattle.std.specs.Io.KnownBytes.{Consumes, IsAtEnd};
ghost use Rattle.sgt_names.specs.Limits.{buffer_size, most_reads};
ghost use Rattle.sgt_notation.specs.Lines.{Ahead, GaveNext, IsOfLast, Leaves, MetReadFault, WantedMemory, most_left, passed, stream};
ghost use Rattle.sgt_notation.specs.Private.{IsLeft, Looks, Moves, Outgrows};
ghost use Rattle.sgt_notation.specs.Spelling.{HasNoLf, IsLine, line_text};

use crate::SectionLine;
use crate::front::front_line;
use memchr::memchr;
use sgt_names::{BUFFER, MOST_READS, Source};
use std::alloc::{AllocError, Global};
use std::marker::Model;
use thiserror::Error;

/// What comes next of a reader.
#[derive(Clone, Copy, Debug, PartialEq, Eq)]
pub enum Next {
    /// A line, which had its LF.
    Line,
    /// The bytes after the last LF, of which there are some.
    Cut,
    /// More bytes than the limit, with no LF in them.
    TooLong,
    /// No bytes.
    End,
}

/// Why what comes next could not be told.
#[derive(Clone, Copy, Debug, PartialEq, Eq, Error)]
pub enum LinesFault {
    /// A growth of the line was refused.
    #[error("memory")]
    Memory,
    /// The reader failed, or the greatest number of reads was made.
    #[error("read fault")]
    ReadFault,
}

impl From<AllocError> for LinesFault {
    ghost use Rattle.sgt_notation.specs.declared.lines.LinesFault.TheVariants.{Memory};

    ghost from_gives = { λ _ e. e ≡ Memory };

    fn from(_: AllocError) -> LinesFault {
        LinesFault::Memory
    }
}

/// Cuts a reader into lines. It holds the bytes that were read and not yet given out, and no reader: each call is
/// passed the same one. Contracts see those bytes, and how many more reads there may be.
#[derive(Drop)]
pub struct Lines {
    buffer: Vec<u8>,
    start: usize,
    end: usize,
    reads: u32,
}

impl Model for Lines {
    ghost Value = { Ahead };

    ghost view = { λ s. record { held = take (s.end - s.start) (drop s.start s.buffer.items); reads = s.reads } };

    ghost invariant = { λ s. (s.start ≤ s.end) × (s.end ≤ vec_len s.buffer) × (vec_len s.buffer ≡ buffer_size) };
}

/// Where the first LF stands.
pub fn find_lf(bytes: &[u8]) -> Option<usize>
    ensures some { IfSome result (λ n. (n < length bytes.now) × HasNoLf (take n bytes.now)
        × (bytes.now ≡ take n bytes.now ++ 10 ∷ drop (n + 1) bytes.now)) }
    ensures none { IfNone result (HasNoLf bytes.now) }
{
    memchr(b'\n', bytes)
}

/// The first line, without its LF, and what stands behind it.
pub fn split_line(bytes: &[u8]) -> Option<(&[u8], &[u8])>
    ensures some { IfSome result (λ r. HasNoLf r.0.now × (bytes.now ≡ r.0.now ++ 10 ∷ r.1.now)) }
    ensures less { IfSome result (λ r. length r.1.now < length bytes.now) }
    ensures none { IfNone result (HasNoLf bytes.now) }
{
    match find_lf(bytes) {
        Some(n) => Some((&bytes[..n], &bytes[n + 1..])),
        None => None,
    }
}

/// Moves the bytes before the first LF, or all of them where there is none, to the end of the line, unless it gets too
/// long by them. The first number is that of these bytes. The second is how many of the held bytes are used up: with
/// the LF, or none of too long a line.
fn look_in(
    held: &[u8],
    line: &mut Vec<u8>,
    limit: usize,
) -> Result<(Option<Next>, usize, usize), LinesFault>
    requires { vec_len line.old ≤ limit }
    ensures looks { IfOk result (λ r. Looks limit held.now line.old.items r.0 r.1 line.new.items) }
    ensures left { IfOk result (λ r. IsLeft held.now r.0 r.1 (drop r.2 held.now)) }
    ensures used { IfOk result (λ r. (r.2 ≤ length held.now) × (r.0 ≡ Some Next.Line → 0 < r.2)) }
    ensures unlimited { length held.now ≤ buffer_size → limit ≡ 2 ^ 64 - 1
        → IfOk result (λ r. r.0 ≢ Some Next.TooLong) }
    ensures err { IfErr result (λ e. e ≡ LinesFault.Memory) }
    ensures kept { OnErr result (line.new.items ≡ line.old.items) }
    ensures wanted { OnErr result (Outgrows (vec_capacity line.old) limit line.old.items held.now) }
    ensures capacity { vec_capacity line.old ≤ vec_capacity line.new }
{
    match find_lf(held) {
        Some(n) => {
            if n > limit - line.len() {
                return Ok((Some(Next::TooLong), n, 0));
            }
            append(line, &held[..n])?;
            Ok((Some(Next::Line), n, n + 1))
        }
        None => {
            if held.len() > limit - line.len() {
                return Ok((Some(Next::TooLong), held.len(), 0));
            }
            append(line, held)?;
            Ok((None, held.len(), held.len()))
        }
    }
}

fn append(line: &mut Vec<u8>, bytes: &[u8]) -> Result<(), LinesFault>
    ensures ok { OnOk result (line.new.items ≡ line.old.items ++ bytes.now) }
    ensures err { IfErr result (λ e. e ≡ LinesFault.Memory) }
    ensures kept { OnErr result (line.new.items ≡ line.old.items) }
    ensures wanted { OnErr result (vec_capacity line.old < vec_len line.old + length bytes.now) }
    ensures capacity { vec_capacity line.old ≤ vec_capacity line.new }
{
    line.extend_from_slice(bytes)?;
    Ok(())
}

fn empty_buffer(alloc: Global) -> Result<Vec<u8>, AllocError>
    ensures { IfOk result (λ buffer. vec_len buffer ≡ buffer_size) }
{
    vec![in alloc; 0; BUFFER]
}

impl Lines {
    /// A reader of lines that has read nothing. It takes its memory here; a call of `next` takes none but for the line.
    /// Err: memory ran out.
    pub fn new(alloc: Global) -> Result<Lines, AllocError>
        ensures { IfOk result (λ s. s ≡ record { held = []; reads = most_reads }) }
    {
        Ok(Lines {
            buffer: empty_buffer(alloc)?,
            start: 0,
            end: 0,
            reads: MOST_READS,
        })
    }

    /// The bytes that were read and not yet given out.
    #[inline(always)]
    pub fn held(&self) -> &[u8]
        ensures { result.now ≡ self.now.held }
    {
        &self.buffer[self.start..self.end]
    }

    /// Passes over so many of the held bytes, as if they had been given out.
    #[inline(always)]
    pub fn pass(&mut self, n: usize)
        requires { n ≤ length self.old.held }
        ensures { self.new ≡ passed n self.old }
    {
        self.start += n;
    }

    /// The line of a section that comes next, where it is held whole; it is passed over. It makes no read and copies no
    /// bytes. None says nothing of what comes: `next` tells that.
    #[inline(always)]
    pub fn next_held(&mut self) -> Option<SectionLine>
        ensures some { (limit : ℕ) (told : Option (List ℕ)) (failures : ℕ) → 50 ≤ limit
            → IfSome result (λ l. IsLine l
            × GaveNext limit (stream self.old told failures) Next.Line (line_text l)
            (stream self.new told failures)) }
        ensures none { IfNone result (self.new ≡ self.old) }
    {
        let (line, n) = front_line(self.held())?;
        self.pass(n);
        Some(line)
    }

    /// Reads once into the empty buffer; 0 is the end.
    fn fill<S: Source>(&mut self, source: &mut S) -> Result<usize, LinesFault>
        requires { self.old.held ≡ [] }
        ensures ok { IfOk result
            (λ n. Consumes (S.tells source.old) (S.tells source.new) self.new.held
            × (length self.new.held ≡ n) × (n ≤ buffer_size)
            × (n ≡ 0 → IsAtEnd (S.tells source.new))
            × (self.old.reads ≡ self.new.reads + 1)
            × (S.failures source.new ≡ S.failures source.old)
            × (S.last source.new ≡ n)) }
        ensures fault { OnErr result (
            ((S.failures source.new ≡ S.failures source.old + 1)
            × (self.old.reads ≡ self.new.reads + 1))
            ⊎ ((self.old.reads ≡ 0) × (self.new.reads ≡ 0) × (source.new ≡ source.old))) }
        ensures counted { self.old.reads ≤ self.new.reads + 1 }
        ensures asks { S.asked source.new + self.new.reads ≡ S.asked source.old + self.old.reads }
        ensures left { OnErr result
            ((self.new.held ≡ []) × Leaves (S.tells source.old) [] (S.tells source.new)) }
        ensures err { IfErr result (λ e. e ≡ LinesFault.ReadFault) }
    {
        if self.reads == 0 {
            return Err(LinesFault::ReadFault);
        }
        self.reads -= 1;
        self.start = 0;
        self.end = 0;
        match source.read(self.buffer.as_mut_slice()) {
            Ok(n) => {
                self.end = n;
                Ok(n)
            }
            Err(_) => Err(LinesFault::ReadFault),
        }
    }

    /// Moves the held bytes up to the first LF to the end of the line.
    fn look(
        &mut self,
        line: &mut Vec<u8>,
        limit: usize,
    ) -> Result<(Option<Next>, usize), LinesFault>
        requires { vec_len line.old ≤ limit }
        ensures looks { IfOk result
            (λ r. Looks limit self.old.held line.old.items r.0 r.1 line.new.items) }
        ensures left { IfOk result (λ r. IsLeft self.old.held r.0 r.1 self.new.held) }
        ensures reads { self.new.reads ≡ self.old.reads }
        ensures moved { IfOk result (λ r. Moves r.0 (length self.old.held + length line.old.items)
            (length self.new.held + length line.new.items)) }
        ensures falls { IfOk result
            (λ r. r.0 ≡ Some Next.Line → length self.new.held < length self.old.held) }
        ensures shrinks { IfOk result (λ r. length self.new.held ≤ length self.old.held) }
        ensures unlimited { limit ≡ 2 ^ 64 - 1 → IfOk result (λ r. r.0 ≢ Some Next.TooLong) }
        ensures err { IfErr result (λ e. e ≡ LinesFault.Memory) }
        ensures kept { OnErr result ((line.new.items ≡ line.old.items) × (self.new ≡ self.old)) }
        ensures wanted { OnErr result
            (Outgrows (vec_capacity line.old) limit line.old.items self.old.held) }
        ensures capacity { vec_capacity line.old ≤ vec_capacity line.new }
    {
        let (found, n, used) = look_in(&self.buffer[self.start..self.end], line, limit)?;
        self.start += used;
        Ok((found, n))
    }

    /// What comes next. `line` is cleared first, and gets the line without its LF, or what came before an Err.
    /// `limit` is in bytes, without the LF; `usize::MAX` is none. A line longer than that is told as soon as one byte more
    /// was read. Some of its bytes then stand in `line`, and a further call goes on behind them.
    ///
    /// Memory where a growth of `line` was refused: never where the line fits the capacity that `line` came with. What
    /// stands in `line` is not given again; the first bytes that did not fit are still held.
    /// ReadFault where the reader failed during this call, or no read is left; all that was read then stands in `line`.
    pub fn next<S: Source>(
        &mut self,
        source: &mut S,
        line: &mut Vec<u8>,
        limit: usize,
    ) -> Result<Next, LinesFault>
        ensures ok { let old = stream self.old (S.tells source.old) (S.failures source.old) in
            let new = stream self.new (S.tells source.new) (S.failures source.new) in
            IfOk result (λ next. GaveNext limit old next line.new.items new) }
        ensures read_fault { let old = stream self.old (S.tells source.old) (S.failures source.old) in
            let new = stream self.new (S.tells source.new) (S.failures source.new) in
            IsErrOf result LinesFault.ReadFault → MetReadFault old line.new.items new }
        ensures memory { let old = stream self.old (S.tells source.old) (S.failures source.old) in
            let new = stream self.new (S.tells source.new) (S.failures source.new) in
            IsErrOf result LinesFault.Memory
            → WantedMemory limit (vec_capacity line.old) old line.new.items new }
        // of each of these
        ensures line { HasNoLf line.new.items × (length line.new.items ≤ limit) }
        ensures capacity { vec_capacity line.old ≤ vec_capacity line.new }
        ensures reads { self.new.reads ≤ self.old.reads }
        // the reads that are counted are those that the source was asked for
        ensures asks { S.asked source.new + self.new.reads ≡ S.asked source.old + self.old.reads }
        // they are no more than the bytes of the line, and one
        ensures few { self.old.reads ≤ self.new.reads + length line.new.items + 1 }
        // each read that was counted gave a byte, but for the last; and a count gave no more bytes than the buffer
        // holds
        ensures counted { self.old.reads + length self.old.held
            ≤ self.new.reads + length self.new.held + length line.new.items + 1 }
        ensures bounded { most_left self.new + length line.new.items ≤ most_left self.old }
        // no read was made; or the last one gave what is held still, and the LF of the line
        ensures still { self.new.reads ≡ self.old.reads → S.last source.new ≡ S.last source.old }
        ensures fresh { self.new.reads < self.old.reads
            → IfOk result (λ next. IsOfLast next (length self.new.held) (S.last source.new)) }
    {
        line.clear();
        'reads: loop {
            if let (Some(next), _) = self.look(line, limit)? {
                return Ok(next);
            }
            if self.fill(source)? == 0 {
                return Ok(if line.is_empty() {
                    Next::End
                } else {
                    Next::Cut
                });
            }
        }
    }
}
