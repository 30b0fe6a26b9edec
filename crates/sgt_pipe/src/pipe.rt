//! A reader and a writer, with the order of what happened at both.

ghost use Rattle.std.specs.Prelude.{◌≡◌, [], ◌∷◌, ◌++◌, ◌+◌, length, OnOk, OnErr};
ghost use Rattle.sgt_names.specs.Device.{AtMost, CountsFailures, TakesFront, TakesSome};

use crate::history::{Act, History};
use crate::refusals::Refusals;
use sgt_names::{Failed, Sink, Source};

/// The reader and the writer of one talk. Its history tells, for proofs, what the reader gave, what the writer took,
/// and at each read what both had done before it; and its `refusals`, how many growths were refused to who talks.
#[derive(Drop)]
pub struct Pipe<R, W> {
    reader: R,
    writer: W,
    history: History,
    refusals: Refusals,
}

impl<R: Source, W: Sink> Pipe<R, W> {
    ghost use Rattle.sgt_pipe.specs.Acts.{GivesSo, WritesAll, WritesPart, WritesSo};

    /// A pipe at which nothing happened yet.
    pub fn new(reader: R, writer: W) -> Pipe<R, W>
        ensures reader { result.reader ≡ reader }
        ensures writer { result.writer ≡ writer }
        ensures given { result.history.given ≡ [] }
        ensures written { result.history.written ≡ [] }
        ensures waits { result.history.waits ≡ [] }
        ensures refusals { result.refusals ≡ 0 }
    {
        Pipe {
            reader,
            writer,
            history: History::new(),
            refusals: Refusals::new(),
        }
    }

    /// So many growths were refused to who talks.
    pub fn tell_refusals(&mut self, refusals: Refusals)
        ensures told { self.new.refusals ≡ refusals }
        ensures reader { self.new.reader ≡ self.old.reader }
        ensures writer { self.new.writer ≡ self.old.writer }
        ensures history { self.new.history ≡ self.old.history }
    {
        self.refusals = refusals;
    }

    /// The reader and the writer.
    pub fn into_parts(self) -> (R, W)
        ensures { result ≡ (self.reader, self.writer) }
    {
        (self.reader, self.writer)
    }

    /// Reads once, as the reader does.
    pub fn read(&mut self, buffer: &mut [u8]) -> Result<usize, Failed>
        ensures bytes { TakesFront (R.tells self.old.reader) (R.tells self.new.reader) result
            buffer.new }
        ensures count { AtMost result (length buffer.old) }
        ensures fails { CountsFailures result (R.failures self.old.reader)
            (R.failures self.new.reader) }
        ensures counts { R.asked self.new.reader ≡ R.asked self.old.reader + 1 }
        ensures given { GivesSo result buffer.new self.old.history.given self.new.history.given }
        ensures written { self.new.history.written ≡ self.old.history.written }
        ensures waits { self.new.history.waits
            ≡ self.old.history.waits ++ (self.old.history.given, self.old.history.written) ∷ [] }
        ensures writer { self.new.writer ≡ self.old.writer }
        ensures refusals { self.new.refusals ≡ self.old.refusals }
    {
        self.history = self.history.with(&Act::Asks);
        let read = self.reader.read(buffer);
        if let Ok(n) = read {
            self.history = self.history.with(&Act::Gives(&buffer[..n]));
        }
        read
    }

    /// Writes once, as the writer does.
    fn write(&mut self, bytes: &[u8]) -> Result<usize, Failed>
        ensures wrote { WritesSo result bytes.now (W.holds self.old.writer)
            (W.holds self.new.writer) self.old.history.written
            self.new.history.written }
        ensures count { AtMost result (length bytes.now) }
        ensures some { TakesSome result (length bytes.now) }
        ensures fails { CountsFailures result (W.failures self.old.writer)
            (W.failures self.new.writer) }
        ensures given { self.new.history.given ≡ self.old.history.given }
        ensures waits { self.new.history.waits ≡ self.old.history.waits }
        ensures reader { self.new.reader ≡ self.old.reader }
        ensures refusals { self.new.refusals ≡ self.old.refusals }
    {
        let wrote = self.writer.write(bytes);
        if let Ok(n) = wrote {
            self.history = self.history.with(&Act::Writes(&bytes[..n]));
        }
        wrote
    }

    /// Writes all of the bytes. Err: the writer failed, and a front of them was written, but not all.
    pub fn write_all(&mut self, bytes: &[u8]) -> Result<(), Failed>
        ensures ok { OnOk result (WritesAll bytes.now (W.holds self.old.writer)
            (W.holds self.new.writer) self.old.history.written
            self.new.history.written) }
        ensures err { OnErr result (WritesPart bytes.now (W.holds self.old.writer)
            (W.holds self.new.writer) self.old.history.written
            self.new.history.written) }
        ensures fails { CountsFailures result (W.failures self.old.writer)
            (W.failures self.new.writer) }
        ensures given { self.new.history.given ≡ self.old.history.given }
        ensures waits { self.new.history.waits ≡ self.old.history.waits }
        ensures reader { self.new.reader ≡ self.old.reader }
        ensures refusals { self.new.refusals ≡ self.old.refusals }
    {
        let mut at = 0;
        'writes: while at < bytes.len() {
            at += self.write(&bytes[at..])?;
        }
        Ok(())
    }
}
