//! Sources and sinks over memory, which fail where they are told to: for tests, and for callers that have their bytes.

ghost use Rattle.std.specs.Prelude.{◌≡◌, ◌+◌, ◌-◌, ◌<◌, ◌≤◌, ◌^◌, ◌↔◌, [], ◌++◌, length, take, drop, min, Some, None, option_map, if◌then◌else◌, nat_lt, IsErr, IfOk, OnErr, vec_len, vec_capacity};
ghost use Rattle.sgt_names.specs.Device.{AtMost, CountsFailures, PutsBehind, TakesFront, TakesSome, given_by};
ghost use Rattle.sgt_names.specs.Memory.{MustFail, Supplies, IsFull, IsSpent, Takes};

use crate::asks::Asks;
use crate::sink::Sink;
use crate::source::{Failed, Flow, Source};
use std::alloc::{AllocError, Global};
use std::marker::Model;

/// Bytes in memory, given out a few at a time.
#[derive(Drop)]
pub struct MemSource<'a> {
    rest: &'a [u8],
    per_read: usize,
    // how many more reads succeed, where not all do
    good: Option<u64>,
    failed: u64,
    asks: Asks,
    last: usize,
}

impl<'a> Model for MemSource<'a> {
    ghost use Rattle.std.specs.Prelude.{◌<◌};
    ghost use Rattle.sgt_names.specs.Memory.{Supply};

    ghost Value = { Supply };

    ghost view = { λ s. record { rest = s.rest.now; per_read = s.per_read; good = s.good; failures = s.failed; asked = s.asks.count; last = s.last } };

    ghost invariant = { λ s. 0 < s.per_read };
}

impl<'a> MemSource<'a> {
    /// These bytes, up to `per_read` of them at a read. The read of number `fail_at`, counted from 1, and every later
    /// one fails (2^64 - 1 of them); 0 counts as 1.
    pub fn new(bytes: &'a [u8], per_read: usize, fail_at: Option<u64>) -> MemSource<'a>
        requires { 0 < per_read }
        ensures { result
            ≡ record {
              rest = bytes.entry.now;
              per_read = per_read;
              good = option_map (λ at. at - 1) fail_at;
              failures = 0;
              asked = 0;
              last = 0;
            } }
    {
        MemSource {
            rest: bytes,
            per_read,
            good: fail_at.map(|at| at.saturating_sub(1)),
            failed: 0,
            asks: Asks::none(),
            last: 0,
        }
    }
}

impl Source for MemSource<'_> {
    ghost use Rattle.sgt_names.specs.declared.source.Flow.TheVariants.{Still};

    ghost tells = { λ s. Some s.rest };

    ghost failures = { λ s. s.failures };

    ghost asked = { λ s. s.asked };

    ghost last = { λ s. s.last };

    ghost flows = { λ _. Still };

    fn flow(&self) -> Flow {
        Flow::Still
    }

    fn read(&mut self, buffer: &mut [u8]) -> Result<usize, Failed>
        ensures bytes { TakesFront (Some self.old.rest) (Some self.new.rest) result buffer.new }
        ensures count { AtMost result (length buffer.old) }
        ensures fails { CountsFailures result self.old.failures self.new.failures }
        ensures counts { self.new.asked ≡ self.old.asked + 1 }
        ensures gave { self.new.last ≡ given_by result }

        // and, of this source, exactly when it fails and what it gives
        ensures must_fail { IsErr result ↔ MustFail self.old }
        ensures ok { IfOk result (Supplies self.old self.new buffer.old buffer.new) }
        ensures err { OnErr result
            ((self.new ≡ record self.old {
              failures = self.old.failures + 1;
              asked = self.old.asked + 1;
              last = 0;
            })
            × (buffer.new ≡ buffer.old)) }
    {
        self.asks = self.asks.one_more();
        self.last = 0;
        if let Some(good) = self.good {
            if good == 0 && self.failed < u64::MAX {
                self.failed += 1;
                return Err(Failed);
            }
            self.good = Some(good.saturating_sub(1));
        }
        let n = self.rest.len().min(self.per_read).min(buffer.len());
        buffer[..n].copy_from_slice(&self.rest[..n]);
        self.rest = &self.rest[n..];
        self.last = n;
        Ok(n)
    }
}

/// Room in memory, made at once; what goes beyond it fails. From failure number 2^64 - 1 on it tells no bytes, and
/// drops what comes once no room is left.
#[derive(Drop)]
pub struct MemSink {
    bytes: Vec<u8>,
    room: usize,
    failed: u64,
}

impl Model for MemSink {
    ghost use Rattle.std.specs.Prelude.{◌+◌, ◌≤◌, vec_len, vec_capacity};
    ghost use Rattle.sgt_names.specs.Memory.{Room};

    ghost Value = { Room };

    ghost view = { λ s. record { bytes = s.bytes.items; room = s.room; failures = s.failed } };

    ghost invariant = { λ s. vec_len s.bytes + s.room ≤ vec_capacity s.bytes };
}

impl MemSink {
    /// Room for so many bytes.
    pub fn new(alloc: Global, takes: usize) -> Result<MemSink, AllocError>
        ensures { IfOk result (λ s. s ≡ record { bytes = []; room = takes; failures = 0 }) }
    {
        let bytes = Vec::with_capacity(alloc, takes)?;
        Ok(MemSink {
            bytes,
            room: takes,
            failed: 0,
        })
    }

    /// What was written.
    pub fn bytes(&self) -> &[u8]
        ensures { result.now ≡ self.now.bytes }
    {
        self.bytes.as_slice()
    }
}

impl Sink for MemSink {
    ghost holds = { λ s. if nat_lt s.failures (2 ^ 64 - 1) then Some s.bytes else None };

    ghost failures = { λ s. s.failures };

    fn write(&mut self, bytes: &[u8]) -> Result<usize, Failed>
        ensures bytes { PutsBehind
            (if nat_lt self.old.failures (2 ^ 64 - 1) then Some self.old.bytes else None)
            (if nat_lt self.new.failures (2 ^ 64 - 1) then Some self.new.bytes
            else None) result bytes.now }
        ensures count { AtMost result (length bytes.now) }
        ensures some { TakesSome result (length bytes.now) }
        ensures fails { CountsFailures result self.old.failures self.new.failures }

        // and, of this sink, exactly when it fails and what it takes
        ensures is_full { IsErr result ↔ IsFull self.old bytes.now }
        ensures ok { (IsSpent self.old → ⊥) → IfOk result (Takes self.old self.new bytes.now) }
        ensures spent { IsSpent self.old
            → IfOk result (λ n. (n ≡ length bytes.now) × (self.new ≡ self.old)) }
        ensures err { OnErr result
            (self.new ≡ record self.old { failures = self.old.failures + 1 }) }
    {
        let n = bytes.len().min(self.room);
        if n == 0 && !bytes.is_empty() {
            if self.failed == u64::MAX {
                return Ok(bytes.len());
            }
            self.failed += 1;
            return Err(Failed);
        }
        self.bytes.extend_from_slice(&bytes[..n]).unwrap();
        self.room -= n;
        Ok(n)
    }
}
