//! Where bytes go.

ghost use Rattle.std.specs.Prelude.{ℕ, List, Option, length, OnOk, OnErr};
ghost use Rattle.std.specs.Io.KnownBytes.{Appends};
ghost use Rattle.sgt_names.specs.Device.{AtMost, CountsFailures, PutsBehind, TakesSome, WritesFront};

use crate::source::Failed;

/// A writer, which tells its bytes to contracts where it can.
pub trait Sink {
    // the bytes that were written, where the sink can tell them
    ghost holds: { Self → Option (List ℕ) };

    // how often it has failed
    ghost failures: { Self → ℕ };

    /// Takes some bytes off the front of the slice: at least one, where there is one.
    /// After an Err the sink tells its bytes as before, or tells nothing.
    fn write(&mut self, bytes: &[u8]) -> Result<usize, Failed>
        ensures bytes { PutsBehind (holds self.old) (holds self.new) result bytes.now }
        ensures count { AtMost result (length bytes.now) }
        ensures some { TakesSome result (length bytes.now) }
        ensures fails { CountsFailures result (failures self.old) (failures self.new) };
}

/// Writes all of the bytes. An Err is the writer's: a front of the bytes may have been written then, but not all of
/// them.
pub fn write_all<W: Sink>(writer: &mut W, bytes: &[u8]) -> Result<(), Failed>
    ensures ok { OnOk result (Appends (W.holds writer.old) (W.holds writer.new) bytes.now) }
    ensures err { OnErr result (WritesFront (W.holds writer.old) (W.holds writer.new) bytes.now) }
    ensures fails { CountsFailures result (W.failures writer.old) (W.failures writer.new) }
{
    let mut at = 0;
    'writes: while at < bytes.len() {
        at += writer.write(&bytes[at..])?;
    }
    Ok(())
}
