//! Where bytes come from.

ghost use Rattle.std.specs.Prelude.{◌≡◌, ◌+◌, ℕ, List, Option, length};
ghost use Rattle.sgt_names.specs.Device.{AtMost, CountsFailures, TakesFront, given_by};
ghost use Rattle.sgt_names.specs.declared.source.Flow.{Flow as AnyFlow};

use thiserror::Error;

/// A device refused a read or a write.
#[derive(Clone, Copy, Debug, PartialEq, Eq, Error)]
#[error("the device failed")]
pub struct Failed;

/// How the bytes of a source come.
#[derive(Clone, Copy, Debug, PartialEq, Eq)]
pub enum Flow {
    /// All of them are there, as in a file: no read waits.
    Still,
    /// They come as somebody writes them, and the last read gave all that was asked for: more may be there.
    Flowing,
    /// They come as somebody writes them, and the next read may have to wait.
    Drained,
}

/// A reader, which tells its bytes to contracts where it can.
pub trait Source {
    // the bytes that are left, where the source can tell them
    ghost tells: { Self → Option (List ℕ) };

    // how often it has failed
    ghost failures: { Self → ℕ };

    // how often it was asked for bytes
    ghost asked: { Self → ℕ };

    // how many bytes its last read gave: none where it failed, or where there was no read
    ghost last: { Self → ℕ };

    // how its bytes come
    ghost flows: { Self → AnyFlow };

    /// How its bytes come.
    fn flow(&self) -> Flow
        ensures { result ≡ flows self.now };

    /// Reads some bytes into the front of the buffer. 0 comes only at the end, or where the buffer has no room.
    /// After an Err the source tells its bytes as before or tells nothing, and what is in the buffer is not promised.
    fn read(&mut self, buffer: &mut [u8]) -> Result<usize, Failed>
        ensures bytes { TakesFront (tells self.old) (tells self.new) result buffer.new }
        ensures count { AtMost result (length buffer.old) }
        ensures fails { CountsFailures result (failures self.old) (failures self.new) }
        ensures counts { asked self.new ≡ asked self.old + 1 }
        ensures gave { last self.new ≡ given_by result };
}
