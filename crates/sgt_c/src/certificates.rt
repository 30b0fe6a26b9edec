//! The exports of the making of certificates.

ghost use Rattle.std.specs.Prelude.{◌≡◌, ◌≤◌, ◌<◌, ◌⊎◌, ◌++◌, ℕ, List, Err, IfOk, length, drop};
ghost use Rattle.sgt_names.specs.Limits.{most_reads};
ghost use Rattle.sgt_c.specs.Answers.{IsAnswered, IsCertifyText, IsLong, IsNumber, IsRoom};

use crate::answers::NoAnswer;
use crate::texts::{Answered, measure, no_answer, number_of_answer, put};
use sgt_certify::certify;
use sgt_names::{Asks, Bytes, Written};
use std::alloc::Global;

/// What the bytes are answered by.
fn certify_text(alloc: Global, bytes: &[u8]) -> Result<Answered, NoAnswer>
    ensures text { IfOk result (λ a. IsCertifyText bytes.now a.number a.text.items) }
    ensures long { result ≡ Err NoAnswer.Long → most_reads ≤ length bytes.now }
{
    let mut reader = Bytes {
        rest: bytes,
        asks: Asks::none(),
        last: 0,
    };
    let mut writer = Written::new(alloc);
    match certify(alloc, &mut reader, &mut writer) {
        Ok(outcome) => Ok(Answered {
            number: number_of_answer(outcome),
            text: writer.bytes,
        }),
        Err(fail) => Err(no_answer(fail)),
    }
}

/// How long the text is that `sgt_certify` writes into enough room.
#[unsafe(no_mangle)]
pub extern "C" fn sgt_certify_len(alloc: Global, bytes: &[u8], text_len: &mut usize) -> u32
    ensures number { IsNumber result }
    ensures text { IsAnswered result
        → (text : List ℕ) × IsCertifyText bytes.now result text × (text_len.new ≡ length text) }
    ensures none { (IsAnswered result → ⊥) → text_len.new ≡ 0 }
    ensures long { IsLong result → most_reads ≤ length bytes.now }
{
    measure(&certify_text(alloc, bytes), text_len)
}

/// Makes the certificate of logs that have none, of a bundle's text without its second line, and puts the answer into
/// the front of
/// `out`: with `SGT_YES` the whole bundle, which audits as yes; with `SGT_NO` the reason why there is none, in lines, as `sgt certify`
/// writes it. Behind the text `out` stays as it was. Where the text doesn't fit, nothing is written and `text_len`
/// says what room it needs.
#[unsafe(no_mangle)]
pub extern "C" fn sgt_certify(
    alloc: Global,
    bytes: &[u8],
    out: &mut [u8],
    text_len: &mut usize,
) -> u32
    ensures number { IsNumber result ⊎ IsRoom result }
    ensures text { IsAnswered result → (text : List ℕ) × IsCertifyText bytes.now result text
        × (text_len.new ≡ length text) × (out.new ≡ text ++ drop (length text) out.old) }
    ensures room { IsRoom result → (n : ℕ) × (text : List ℕ) × IsCertifyText bytes.now n text
        × (text_len.new ≡ length text) × (length out.old < length text) }
    ensures unwritten { (IsAnswered result → ⊥) → out.new ≡ out.old }
    ensures none { (IsAnswered result ⊎ IsRoom result → ⊥) → text_len.new ≡ 0 }
    ensures long { IsLong result → most_reads ≤ length bytes.now }
{
    put(&certify_text(alloc, bytes), out, text_len)
}
