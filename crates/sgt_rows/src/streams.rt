//! Standard streams in memory.

use sgt_driver::Streams;
use std::alloc::Global;
use std::cell::{Cell, RefCell};
use std::fmt::Display;
use std::io;
use std::io::{Eprint, Read, Write};

/// A text that is read in pieces of so many bytes, and what was written. No terminal is there.
#[derive(Drop)]
pub struct Kept<'a> {
    alloc: Global,
    // None: each read fails.
    text: Option<&'a str>,
    per_read: usize,
    read: Cell<usize>,
    output: RefCell<Vec<u8>>,
    errors: RefCell<Vec<u8>>,
}

/// The text of such streams.
#[derive(Drop)]
pub struct Pieces<'s, 'a> {
    streams: &'s Kept<'a>,
}

/// One of their two writers.
#[derive(Drop)]
pub struct Written<'s> {
    bytes: &'s RefCell<Vec<u8>>,
}

impl<'a> Kept<'a> {
    /// Streams of which nothing was read, and to which nothing was written.
    pub(crate) fn new(alloc: Global, text: Option<&'a str>, per_read: usize) -> Kept<'a> {
        Kept {
            alloc,
            text,
            per_read,
            read: Cell::new(0),
            output: RefCell::new(Vec::new(alloc)),
            errors: RefCell::new(Vec::new(alloc)),
        }
    }

    /// What was written to standard output, and to standard error.
    pub(crate) fn into_texts(self) -> (Vec<u8>, Vec<u8>) {
        (self.output.into_inner(), self.errors.into_inner())
    }
}

impl Read for Pieces<'_, '_> {
    fn read(&mut self, buffer: &mut [u8]) -> io::Result<usize> {
        let Some(text) = self.streams.text else {
            return Err(io::Error::from(io::ErrorKind::Other));
        };
        let read = self.streams.read.get();
        let rest = text.as_bytes().get(read..).unwrap_or(&[]);
        let mut piece = rest.get(..self.streams.per_read).unwrap_or(rest);
        let count = piece.read(buffer)?;
        self.streams.read.set(read.saturating_add(count));
        Ok(count)
    }
}

// Keeps the bytes behind those that were written.
fn keep(written: &RefCell<Vec<u8>>, bytes: &[u8]) -> io::Result<()> {
    match written.try_borrow_mut() {
        Ok(mut written) => Ok(written.extend_from_slice(bytes)?),
        Err(_) => Err(io::Error::from(io::ErrorKind::Other)),
    }
}

impl Write for Written<'_> {
    fn write(&mut self, bytes: &[u8]) -> io::Result<usize> {
        keep(self.bytes, bytes)?;
        Ok(bytes.len())
    }

    fn flush(&mut self) -> io::Result<()> {
        Ok(())
    }
}

impl Eprint for Kept<'_> {
    fn eprint<D: Display + Drop>(&self, value: D) -> io::Result<()> {
        let text = format!(in self.alloc; "{value}")?;
        keep(&self.errors, text.as_bytes())
    }

    fn eprintln<D: Display + Drop>(&self, value: D) -> io::Result<()> {
        let text = format!(in self.alloc; "{value}\n")?;
        keep(&self.errors, text.as_bytes())
    }
}

impl<'s, 'a> Streams for &'s Kept<'a> {
    type Input = Pieces<'s, 'a>;

    type Output = Written<'s>;

    type Errors = Written<'s>;

    fn input(&self) -> Pieces<'s, 'a> {
        Pieces { streams: *self }
    }

    fn output(&self) -> Written<'s> {
        Written {
            bytes: &self.output,
        }
    }

    fn errors(&self) -> Written<'s> {
        Written {
            bytes: &self.errors,
        }
    }

    fn is_typed(&self) -> bool {
        false
    }

    fn is_shown(&self) -> bool {
        false
    }
}
