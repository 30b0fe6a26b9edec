//! Whether bytes that come are those of logs without a certificate: how they begin.

ghost use Rattle.std.specs.Prelude.{◌≡◌, ◌≢◌, ◌<◌, ◌≤◌, ◌↔◌, ◌++◌, ℕ, List, Err, false, true, IfOk, IfSome, IsErrOf, IsTrue, length};
ghost use Rattle.std.specs.Io.KnownBytes.{Consumes};
ghost use Rattle.sgt_audit.specs.Faults.{BeginsNoneBehind};
ghost use Rattle.sgt_explain_logs.specs.Explained.{AreLogs, BeginsWith, IsOpenHead, IsPeeked};

use crate::answer::behind;
use sgt_explain::{empty_buffer, take_some};
use sgt_names::{EngineFail, Source};
use std::alloc::Global;

/// How logs begin in the first format, `sgt 1`, and in the second.
const HEAD: &[u8] = b"sgt 1\nsite ";

const HEAD_2: &[u8] = b"sgt 2\nsite ";

fn begins_with(text: &[u8], word: &[u8]) -> bool
    ensures { IsTrue result ↔ BeginsWith word.now text.now }
{
    behind(text, word).is_some()
}

/// Whether the bytes are those of logs without a certificate: line 2 begins a section.
pub fn are_logs(bytes: &[u8]) -> bool
    ensures { IsTrue result ↔ AreLogs bytes.now }
{
    if begins_with(bytes, HEAD) {
        return true;
    }
    begins_with(bytes, HEAD_2)
}

/// Whether so few bytes are there that more of them may be those of logs.
fn is_open(bytes: &[u8]) -> bool
    ensures closed { result ≡ false → (more : List ℕ) → AreLogs (bytes.now ++ more) → AreLogs bytes.now }
    ensures opened { result ≡ true → IsOpenHead bytes.now }
    ensures few { result ≡ true → length bytes.now ≤ 11 }
{
    if begins_with(HEAD, bytes) {
        return true;
    }
    begins_with(HEAD_2, bytes)
}

/// The bytes that were read to see what they are, and whether they are those of logs without a certificate.
#[derive(Drop)]
pub struct Peeked {
    pub text: Vec<u8>,
    pub are_logs: bool,
}

/// Reads as far as shows whether the bytes are those of logs without a certificate. ReadFault where a read failed; Memory
/// where a growth was refused.
pub fn peek<R: Source>(alloc: Global, reader: &mut R) -> Result<Peeked, EngineFail>
    ensures came { IfOk result
        (λ peeked. Consumes (R.tells reader.old) (R.tells reader.new) peeked.text.items) }
    ensures are { IfOk result
        (λ peeked. IfSome (R.tells reader.old) (λ bytes. IsTrue peeked.are_logs ↔ AreLogs bytes)) }
    ensures peeked { IfOk result
        (λ peeked. IsPeeked reader.old reader.new peeked.text.items (R.last reader.new)) }
    ensures none_behind { IfOk result (λ _. IfSome (R.tells reader.old) (λ bytes. IfSome (R.tells reader.new)
        (λ left. BeginsNoneBehind bytes (length left) (R.last reader.new)))) }
    ensures quiet { result ≢ Err EngineFail.ReadFault
        → R.failures reader.new ≡ R.failures reader.old }
    ensures read_fault { IsErrOf result EngineFail.ReadFault
        → R.failures reader.old < R.failures reader.new }
    ensures write_fault { result ≢ Err EngineFail.WriteFault }
{
    let mut buffer = empty_buffer(alloc)?;
    let mut text = Vec::new(alloc);
    'reads: loop {
        if are_logs(text.as_slice()) {
            return Ok(Peeked {
                text,
                are_logs: true,
            });
        }
        if !is_open(text.as_slice()) {
            return Ok(Peeked {
                text,
                are_logs: false,
            });
        }
        if take_some(reader, buffer.as_mut_slice(), &mut text)? == 0 {
            return Ok(Peeked {
                text,
                are_logs: false,
            });
        }
    }
}
