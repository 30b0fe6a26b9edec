//! What a reader gives, read by read, kept in memory.

ghost use Rattle.std.specs.Prelude.{◌≡◌, ◌≢◌, ◌+◌, ◌++◌, ◌<◌, ◌≤◌, Err, length, take, IfOk, IsErrOf};
ghost use Rattle.std.specs.Io.KnownBytes.{Consumes, IsAtEnd};

use sgt_names::{BUFFER, EngineFail, Source};
use std::alloc::{AllocError, Global};

pub fn empty_buffer(alloc: Global) -> Result<Vec<u8>, AllocError>
    ensures { IfOk result (λ buffer. length buffer.items ≡ 65536) }
{
    vec![in alloc; 0; BUFFER]
}

/// Reads once, and adds what comes to the text: how many bytes came, 0 at the end.
pub fn take_some<R: Source>(
    reader: &mut R,
    buffer: &mut [u8],
    text: &mut Vec<u8>,
) -> Result<usize, EngineFail>
    requires { 0 < length buffer.old }
    ensures taken { IfOk result
        (λ n. Consumes (R.tells reader.old) (R.tells reader.new) (take n buffer.new)
        × (text.new.items ≡ text.old.items ++ take n buffer.new) × (n ≤ length buffer.new)
        × (n ≡ 0 → IsAtEnd (R.tells reader.new))) }
    ensures gave { IfOk result (λ n. R.last reader.new ≡ n) }
    ensures asked { IfOk result (λ _. R.asked reader.new ≡ R.asked reader.old + 1) }
    ensures same { length buffer.new ≡ length buffer.old }
    ensures quiet { result ≢ Err EngineFail.ReadFault
        → R.failures reader.new ≡ R.failures reader.old }
    ensures read_fault { IsErrOf result EngineFail.ReadFault
        → R.failures reader.old < R.failures reader.new }
    ensures write_fault { result ≢ Err EngineFail.WriteFault }
{
    match reader.read(buffer) {
        Ok(n) => {
            text.extend_from_slice(&buffer[..n])?;
            Ok(n)
        }
        Err(_) => Err(EngineFail::ReadFault),
    }
}
