//! A source of bytes that are held, and sinks that keep what is written or drop it. Only want of memory makes one fail.

use crate::asks::Asks;
use crate::sink::Sink;
use crate::source::{Failed, Flow, Source};
use std::alloc::Global;

/// Bytes in memory, given out as many at a time as there is room for. Reading them never fails.
#[derive(Drop)]
pub struct Bytes<'a> {
    pub rest: &'a [u8],
    pub asks: Asks,
    pub last: usize,
}

impl Source for Bytes<'_> {
    ghost use Rattle.std.specs.Prelude.{Some};
    ghost use Rattle.sgt_names.specs.declared.source.Flow.TheVariants.{Still};

    ghost tells = { λ s. Some s.rest.now };

    ghost failures = { λ s. 0 };

    ghost asked = { λ s. s.asks.count };

    ghost last = { λ s. s.last };

    ghost flows = { λ _. Still };

    fn flow(&self) -> Flow {
        Flow::Still
    }

    fn read(&mut self, buffer: &mut [u8]) -> Result<usize, Failed> {
        self.asks = self.asks.one_more();
        let n = self.rest.len().min(buffer.len());
        buffer[..n].copy_from_slice(&self.rest[..n]);
        self.rest = &self.rest[n..];
        self.last = n;
        Ok(n)
    }
}

/// Whatever is written is dropped. Writing it never fails.
#[derive(Drop)]
pub struct Nowhere;

impl Sink for Nowhere {
    ghost use Rattle.std.specs.Prelude.{None};

    ghost holds = { λ s. None };

    ghost failures = { λ s. 0 };

    fn write(&mut self, bytes: &[u8]) -> Result<usize, Failed> {
        Ok(bytes.len())
    }
}

/// What is written is kept. The first write that finds no memory for it fails; from then on what comes is dropped.
#[derive(Drop)]
pub struct Written {
    pub bytes: Vec<u8>,
    pub is_short: bool,
}

impl Written {
    ghost use Rattle.std.specs.Prelude.{◌≡◌, [], false};

    /// Nothing so far.
    pub fn new(alloc: Global) -> Written
        ensures none { result.bytes.items ≡ [] }
        ensures whole { result.is_short ≡ false }
    {
        Written {
            bytes: Vec::new(alloc),
            is_short: false,
        }
    }
}

impl Sink for Written {
    ghost use Rattle.std.specs.Prelude.{None, Some, if◌then◌else◌};

    ghost holds = { λ s. if s.is_short then None else Some s.bytes.items };

    ghost failures = { λ s. if s.is_short then 1 else 0 };

    fn write(&mut self, bytes: &[u8]) -> Result<usize, Failed> {
        if self.is_short {
            return Ok(bytes.len());
        }
        if self.bytes.extend_from_slice(bytes).is_err() {
            self.is_short = true;
            return Err(Failed);
        }
        Ok(bytes.len())
    }
}
