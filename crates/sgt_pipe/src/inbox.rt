//! The bytes that came by a pipe and were not yet taken.

ghost use Rattle.std.specs.Prelude.{◌≡◌, ◌≤◌, ◌+◌, ◌++◌, ◌∷◌, [], ◌⊎◌, ℕ, List, length, drop, vec_len, vec_capacity, IfOk, OnOk, OnErr};
ghost use Rattle.std.specs.Io.KnownBytes.{Consumes, IsAtEnd};
ghost use Rattle.sgt_names.specs.Device.{KeepsOrForgets};
ghost use Rattle.sgt_names.specs.Limits.{buffer_size, max_line};
ghost use Rattle.sgt_pipe.specs.Acts.{all_reads};

use crate::pipe::Pipe;
use sgt_names::{BUFFER, Failed, MAX_LINE, Sink, Source};
use sgt_notation::find_lf;
use std::alloc::{AllocError, Global};
use std::marker::Model;

/// What stands at the front of what is held.
#[derive(Clone, Copy, Debug, PartialEq, Eq)]
pub enum Front {
    /// A line of so many bytes, with its LF behind it.
    Line(usize),
    /// A part of a line, or nothing: what comes next tells more.
    Part,
    /// A line of more than `MAX_LINE` bytes.
    TooLong,
}

/// Holds what was read of a pipe and not yet taken: a line of at most `MAX_LINE` bytes, and behind it as much as a
/// read gives. It holds no pipe; each call is passed the same one. Contracts see those bytes, and how many more reads
/// there may be.
#[derive(Drop)]
pub struct Inbox {
    bytes: Vec<u8>,
    // how many of the bytes were taken
    start: usize,
    // what a read gives
    chunk: Vec<u8>,
    reads: u64,
}

impl Model for Inbox {
    ghost use Rattle.std.specs.Prelude.{◌≡◌, ◌≤◌, drop, vec_len, vec_capacity};
    ghost use Rattle.sgt_names.specs.Limits.{buffer_size};
    ghost use Rattle.sgt_pipe.specs.Acts.{Held, inbox_room};

    ghost Value = { Held };

    ghost view = { λ s. record { held = drop s.start s.bytes.items; reads = s.reads } };

    ghost invariant = { λ s. (s.start ≤ vec_len s.bytes) × (inbox_room ≤ vec_capacity s.bytes) × (vec_len s.chunk ≡ buffer_size) };
}

fn empty_chunk(alloc: Global) -> Result<Vec<u8>, AllocError>
    ensures { IfOk result (λ chunk. vec_len chunk ≡ buffer_size) }
{
    vec![in alloc; 0; BUFFER]
}

// Removes so many bytes from the front.
fn drop_front(bytes: &mut Vec<u8>, n: usize)
    requires { n ≤ vec_len bytes.old }
    ensures items { bytes.new.items ≡ drop n bytes.old.items }
    ensures capacity { vec_capacity bytes.old ≤ vec_capacity bytes.new }
{
    let left = bytes.len() - n;
    bytes.copy_within(n.., 0);
    bytes.truncate(left);
}

// Adds bytes for which there is room.
fn add(bytes: &mut Vec<u8>, more: &[u8])
    requires { vec_len bytes.old + length more.now ≤ vec_capacity bytes.old }
    ensures items { bytes.new.items ≡ bytes.old.items ++ more.now }
    ensures capacity { vec_capacity bytes.old ≤ vec_capacity bytes.new }
{
    match bytes.extend_from_slice(more) {
        Ok(()) => {}
        Err(_) => unreachable!(),
    }
}

impl Inbox {
    ghost use Rattle.sgt_pipe.specs.Fronts.{IsFront};

    /// Nothing was read. All memory is taken here. Err: memory ran out.
    pub fn new(alloc: Global) -> Result<Inbox, AllocError>
        ensures { IfOk result (λ s. s ≡ record { held = []; reads = all_reads }) }
    {
        Ok(Inbox {
            bytes: Vec::with_capacity(alloc, MAX_LINE + BUFFER)?,
            start: 0,
            chunk: empty_chunk(alloc)?,
            reads: u64::MAX,
        })
    }

    /// The bytes that were read and not yet taken.
    #[inline(always)]
    pub fn held(&self) -> &[u8]
        ensures { result.now ≡ self.now.held }
    {
        &self.bytes[self.start..]
    }

    /// Takes so many of the held bytes.
    #[inline(always)]
    pub fn pass(&mut self, n: usize)
        requires { n ≤ length self.old.held }
        ensures { self.new ≡ record { held = drop n self.old.held; reads = self.old.reads } }
    {
        self.start += n;
    }

    /// What stands at the front.
    #[inline(always)]
    pub fn front(&self) -> Front
        ensures { IsFront self.now.held result }
    {
        let held = self.held();
        match find_lf(held) {
            Some(n) if n <= MAX_LINE => Front::Line(n),
            None if held.len() <= MAX_LINE => Front::Part,
            _ => Front::TooLong,
        }
    }

    /// Reads once behind what is held, where that is no longer than a line may be, and tells how many bytes came:
    /// none at the end alone. Err: the reader failed, or 2^64 - 1 reads were made.
    pub fn fill<R: Source, W: Sink>(&mut self, pipe: &mut Pipe<R, W>) -> Result<usize, Failed>
        requires { length self.old.held ≤ max_line }
        ensures ok { IfOk result
            (λ n. (bytes : List ℕ) × (self.new.held ≡ self.old.held ++ bytes)
            × (pipe.new.history.given ≡ pipe.old.history.given ++ bytes)
            × Consumes (R.tells pipe.old.reader) (R.tells pipe.new.reader) bytes
            × (n ≡ length bytes) × (n ≡ 0 → IsAtEnd (R.tells pipe.new.reader))) }
        ensures reads { OnOk result (self.old.reads ≡ self.new.reads + 1) }
        ensures few { length self.new.held ≤ length self.old.held + buffer_size }
        ensures quiet { OnOk result (R.failures pipe.new.reader ≡ R.failures pipe.old.reader) }
        ensures err { OnErr result
            ((self.new.held ≡ self.old.held)
            × (pipe.new.history.given ≡ pipe.old.history.given)
            × KeepsOrForgets (R.tells pipe.old.reader) (R.tells pipe.new.reader)) }
        ensures fault { OnErr result
            ((R.failures pipe.new.reader ≡ R.failures pipe.old.reader + 1)
            ⊎ ((self.old.reads ≡ 0) × (self.new.reads ≡ 0))) }
        ensures asks { R.asked pipe.new.reader + self.new.reads
            ≡ R.asked pipe.old.reader + self.old.reads }
        // what was given and written before the read
        ensures waits { (pipe.new.history.waits ≡ pipe.old.history.waits)
            ⊎ (pipe.new.history.waits
            ≡ pipe.old.history.waits
            ++ (pipe.old.history.given, pipe.old.history.written) ∷ []) }
        ensures written { pipe.new.history.written ≡ pipe.old.history.written }
        ensures writer { pipe.new.writer ≡ pipe.old.writer }
    {
        if self.reads == 0 {
            return Err(Failed);
        }
        self.reads -= 1;
        drop_front(&mut self.bytes, self.start);
        self.start = 0;
        let n = pipe.read(self.chunk.as_mut_slice())?;
        add(&mut self.bytes, &self.chunk[..n]);
        Ok(n)
    }
}
