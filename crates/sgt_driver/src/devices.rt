//! Readers and writers of the program.

ghost use Rattle.std.specs.Prelude.{None};

use crate::front::Front;
use crate::progress::Progress;
use crate::streams::Streams;
use sgt_history_words::Tail;
use sgt_names::{Failed, Sink};
use std::alloc::Global;
use std::cell::Cell;
use std::fs::File;
use std::io::{Read, Write};
use std::{fs, io};

// How often a read or a write that a signal interrupts is begun: so often that it never gives up.
pub(crate) const TRIES: u64 = u64::MAX;

// The number of standard input, as a file.
const STANDARD: &str = "/dev/fd/0";

/// Whether the program's own words on how it ended would be one too many: the system has a reason why a read failed,
/// which is told alone, or the reader of what is written went away, and nobody is told.
#[derive(Drop)]
pub struct Hush {
    is_set: Cell<bool>,
}

impl Hush {
    /// Words are wanted.
    pub(crate) fn new() -> Hush {
        Hush {
            is_set: Cell::new(false),
        }
    }

    /// Words are wanted again.
    pub(crate) fn lift(&self) {
        self.is_set.set(false);
    }

    /// Words would be one too many.
    pub(crate) fn set(&self) {
        self.is_set.set(true);
    }

    /// The writer's reason is noted where it is that its reader went away.
    pub(crate) fn note(&self, why: &io::Error) {
        if why.kind() == io::ErrorKind::BrokenPipe {
            self.is_set.set(true);
        }
    }
}

/// What is read.
#[derive(Drop)]
pub enum Input<I> {
    Standard(I),
    File(File),
}

impl<I> Input<I> {
    /// What it is called, which has this name if it is a file.
    pub(crate) fn name<'a>(&self, file: &'a str) -> &'a str {
        match self {
            Input::Standard(_) => "standard input",
            Input::File(_) => file,
        }
    }

    // Whether all that will be read stands there, in a file. Where the system doesn't say, it may come as a stream.
    fn is_still(&self, rt: &HostRuntime) -> bool {
        let found = match self {
            Input::Standard(_) => fs::metadata(rt, STANDARD),
            Input::File(file) => file.metadata(),
        };
        match found {
            Ok(found) => found.is_file(),
            Err(_) => false,
        }
    }
}

impl<I: Read> Read for Input<I> {
    fn read(&mut self, buffer: &mut [u8]) -> io::Result<usize> {
        match self {
            Input::Standard(input) => input.read(buffer),
            Input::File(file) => file.read(buffer),
        }
    }
}

/// A reader that begins a read again where a signal interrupted it, keeps why a read failed and which bytes came
/// first and last, and tells of what was read.
#[derive(Drop)]
pub struct Steady<'a, S, R> {
    inner: R,
    progress: Option<Progress<'a, S>>,
    tail: Option<Tail>,
    hush: &'a Hush,
    front: Front,
    pub why: Option<io::Error>,
}

impl<'a, S: Streams, R: Read> Steady<'a, S, R> {
    /// The reader, which has not failed.
    pub(crate) fn new(
        inner: R,
        progress: Option<Progress<'a, S>>,
        tail: Option<Tail>,
        hush: &'a Hush,
    ) -> Steady<'a, S, R> {
        Steady {
            inner,
            progress,
            tail,
            hush,
            front: Front::new(),
            why: None,
        }
    }

    /// The first bytes that were read, and the last.
    pub(crate) fn front(&self) -> &Front {
        &self.front
    }

    /// The line of this number, if it was read last and is kept.
    pub(crate) fn line(&self, number: u64) -> Option<&[u8]> {
        match &self.tail {
            Some(tail) => tail.line(number),
            None => None,
        }
    }
}

impl<S, I> Steady<'_, S, Input<I>> {
    /// What it is called that is read.
    pub(crate) fn name<'b>(&self, file: &'b str) -> &'b str {
        self.inner.name(file)
    }

    /// Whether all that will be read stands there, in a file.
    pub(crate) fn is_still(&self, rt: &HostRuntime) -> bool {
        self.inner.is_still(rt)
    }
}

impl<S: Streams, R: Read> Read for &mut Steady<'_, S, R> {
    fn read(&mut self, buffer: &mut [u8]) -> io::Result<usize> {
        for _ in 0..TRIES {
            match self.inner.read(buffer) {
                Err(e) if e.kind() == io::ErrorKind::Interrupted => {}
                Ok(n) => {
                    let bytes = buffer.get(..n).unwrap_or(&[]);
                    self.front.pass(bytes);
                    if let Some(progress) = &mut self.progress {
                        progress.pass(bytes);
                    }
                    if let Some(tail) = &mut self.tail {
                        tail.pass(bytes);
                    }
                    return Ok(n);
                }
                Err(e) => {
                    let kind = e.kind();
                    self.why = Some(e);
                    self.hush.set();
                    return Err(io::Error::from(kind));
                }
            }
        }
        Err(io::Error::from(io::ErrorKind::Interrupted))
    }
}

/// A writer that begins a write again where a signal interrupted it, and notes where its reader went away.
#[derive(Drop)]
pub struct Retrying<'a, W> {
    inner: W,
    hush: &'a Hush,
}

impl<'a, W: Write> Retrying<'a, W> {
    /// The writer, which was given nothing.
    pub(crate) fn new(inner: W, hush: &'a Hush) -> Retrying<'a, W> {
        Retrying { inner, hush }
    }
}

impl<W: Write> Write for Retrying<'_, W> {
    fn write(&mut self, bytes: &[u8]) -> io::Result<usize> {
        for _ in 0..TRIES {
            match self.inner.write(bytes) {
                Err(e) if e.kind() == io::ErrorKind::Interrupted => {}
                Err(e) => {
                    self.hush.note(&e);
                    return Err(e);
                }
                written => return written,
            }
        }
        Err(io::Error::from(io::ErrorKind::Interrupted))
    }

    fn flush(&mut self) -> io::Result<()> {
        self.inner.flush()
    }
}

/// A writer of the program's own words on how it ended, which drops them where they aren't wanted.
#[derive(Drop)]
pub struct LastWords<'a, W> {
    inner: Retrying<'a, W>,
    hush: &'a Hush,
}

impl<'a, W: Write> LastWords<'a, W> {
    /// The writer, which was given nothing.
    pub(crate) fn new(inner: W, hush: &'a Hush) -> LastWords<'a, W> {
        LastWords {
            inner: Retrying::new(inner, hush),
            hush,
        }
    }
}

impl<W: Write> Write for LastWords<'_, W> {
    fn write(&mut self, bytes: &[u8]) -> io::Result<usize> {
        if self.hush.is_set.get() {
            return Ok(bytes.len());
        }
        self.inner.write(bytes)
    }

    fn flush(&mut self) -> io::Result<()> {
        self.inner.flush()
    }
}

/// What is written, kept in memory. Where that is wanting no words on a device that failed are wanted.
#[derive(Drop)]
pub struct Held<'a> {
    bytes: Vec<u8>,
    hush: &'a Hush,
    /// How often a growth was refused.
    pub refused: u64,
}

impl<'a> Held<'a> {
    /// Nothing yet.
    pub(crate) fn new(alloc: Global, hush: &'a Hush) -> Held<'a> {
        Held {
            bytes: Vec::new(alloc),
            hush,
            refused: 0,
        }
    }

    /// What was written.
    pub(crate) fn bytes(&self) -> &[u8] {
        self.bytes.as_slice()
    }
}

impl Sink for Held<'_> {
    ghost holds = { λ s. None };

    ghost failures = { λ s. s.refused };

    fn write(&mut self, bytes: &[u8]) -> Result<usize, Failed> {
        match self.bytes.extend_from_slice(bytes) {
            Ok(()) => Ok(bytes.len()),
            Err(_) => {
                self.hush.set();
                if self.refused == u64::MAX {
                    return Ok(bytes.len());
                }
                self.refused += 1;
                Err(Failed)
            }
        }
    }
}
