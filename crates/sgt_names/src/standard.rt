//! The readers and writers of std as sources and sinks.

ghost use Rattle.std.specs.Prelude.{◌≡◌, ◌-◌, ◌^◌, None, if◌then◌else◌, nat_lt};
ghost use Rattle.sgt_names.specs.Device.{flow_behind};

use crate::asks::Asks;
use crate::sink::Sink;
use crate::source::{Failed, Flow, Source};
use std::io::{Read, Write};

/// A reader of std's as a source. It tells what the inner reader tells. An interrupted read counts as a failure. A
/// stream is taken to be drained before the first read, and behind each that gave less than it was asked for, as a pipe,
/// a socket or a terminal gives all that it has.
/// It counts 2^64 - 1 failures: from the last of them on it tells no bytes, and a further read that fails answers 0.
#[derive(Drop)]
pub struct FromRead<R> {
    inner: R,
    failed: u64,
    asks: Asks,
    last: usize,
    flow: Flow,
}

impl<R: Read> FromRead<R> {
    /// The reader of a stream, with no failure so far, and not asked yet.
    pub fn new(inner: R) -> FromRead<R>
        ensures bytes { ⟦<FromRead<R> as Source>⟧.tells result ≡ R.remaining inner }
        ensures fails { ⟦<FromRead<R> as Source>⟧.failures result ≡ 0 }
        ensures asks { ⟦<FromRead<R> as Source>⟧.asked result ≡ 0 }
        ensures last { ⟦<FromRead<R> as Source>⟧.last result ≡ 0 }
        ensures flow { ⟦<FromRead<R> as Source>⟧.flows result ≡ Flow.Drained }
    {
        FromRead {
            inner,
            failed: 0,
            asks: Asks::none(),
            last: 0,
            flow: Flow::Drained,
        }
    }

    /// The same of a file, all of whose bytes are there.
    pub fn still(inner: R) -> FromRead<R>
        ensures bytes { ⟦<FromRead<R> as Source>⟧.tells result ≡ R.remaining inner }
        ensures fails { ⟦<FromRead<R> as Source>⟧.failures result ≡ 0 }
        ensures asks { ⟦<FromRead<R> as Source>⟧.asked result ≡ 0 }
        ensures last { ⟦<FromRead<R> as Source>⟧.last result ≡ 0 }
        ensures flow { ⟦<FromRead<R> as Source>⟧.flows result ≡ Flow.Still }
    {
        FromRead {
            flow: Flow::Still,
            ..FromRead::new(inner)
        }
    }

    /// Notes that a read gave so many of the bytes that it was asked for.
    fn note(&mut self, given: usize, wanted: usize)
        ensures { self.new ≡ record self.old { flow = flow_behind self.old.flow given wanted } }
    {
        if self.flow != Flow::Still {
            self.flow = if given < wanted {
                Flow::Drained
            } else {
                Flow::Flowing
            };
        }
    }
}

impl<R: Read> Source for FromRead<R> {
    ghost tells = { λ s. if nat_lt s.failed (2 ^ 64 - 1) then R.remaining s.inner else None };

    ghost failures = { λ s. s.failed };

    ghost asked = { λ s. s.asks.count };

    ghost last = { λ s. s.last };

    ghost flows = { λ s. s.flow };

    fn flow(&self) -> Flow {
        self.flow
    }

    fn read(&mut self, buffer: &mut [u8]) -> Result<usize, Failed> {
        self.asks = self.asks.one_more();
        self.last = 0;
        let wanted = buffer.len();
        match self.inner.read(buffer) {
            Ok(n) => {
                self.last = n;
                self.note(n, wanted);
                Ok(n)
            }
            Err(_) => {
                if self.failed == u64::MAX {
                    return Ok(0);
                }
                self.failed += 1;
                Err(Failed)
            }
        }
    }
}

/// A writer of std's as a sink. It tells what the inner writer tells, and never flushes it. A write that takes
/// nothing of a slice that isn't empty is a failure, and so is an interrupted one. It counts 2^64 - 1 failures: from
/// the last of them on it tells no bytes, and a further write that fails drops what it is given.
#[derive(Drop)]
pub struct ToWrite<W> {
    inner: W,
    failed: u64,
}

impl<W: Write> ToWrite<W> {
    /// The writer, with no failure so far.
    pub fn new(inner: W) -> ToWrite<W>
        ensures bytes { ⟦<ToWrite<W> as Sink>⟧.holds result ≡ W.contents inner }
        ensures fails { ⟦<ToWrite<W> as Sink>⟧.failures result ≡ 0 }
    {
        ToWrite { inner, failed: 0 }
    }
}

impl<W: Write> Sink for ToWrite<W> {
    ghost holds = { λ s. if nat_lt s.failed (2 ^ 64 - 1) then W.contents s.inner else None };

    ghost failures = { λ s. s.failed };

    fn write(&mut self, bytes: &[u8]) -> Result<usize, Failed> {
        match self.inner.write(bytes) {
            Ok(n) if n > 0 || bytes.is_empty() => Ok(n),
            _ => {
                if self.failed == u64::MAX {
                    return Ok(bytes.len());
                }
                self.failed += 1;
                Err(Failed)
            }
        }
    }
}
