//! The exports of the explanation.

ghost use Rattle.std.specs.Prelude.{◌≡◌, ◌≤◌, ◌<◌, ◌⊎◌, ◌++◌, ℕ, List, Err, IfOk, length, drop};
ghost use Rattle.sgt_names.specs.Limits.{most_reads};
ghost use Rattle.sgt_c.specs.Answers.{IsAnswered, IsExplainText, IsLong, IsNumber, IsRoom};

use crate::answers::NoAnswer;
use crate::texts::{Answered, measure, no_answer, number_of_answer, put};
use sgt_explain::{Asked, explain};
use sgt_names::{Asks, Bytes, Written};
use std::alloc::Global;

/// What the bytes are answered by.
fn explain_text(alloc: Global, bytes: &[u8]) -> Result<Answered, NoAnswer>
    ensures text { IfOk result (λ a. IsExplainText bytes.now a.number a.text.items) }
    ensures long { result ≡ Err NoAnswer.Long → most_reads ≤ length bytes.now }
{
    let mut reader = Bytes {
        rest: bytes,
        asks: Asks::none(),
        last: 0,
    };
    let mut writer = Written::new(alloc);
    match explain(alloc, Asked::All, &mut reader, &mut writer) {
        Ok(explained) => Ok(Answered {
            number: number_of_answer(explained.outcome),
            text: writer.bytes,
        }),
        Err(fail) => Err(no_answer(fail)),
    }
}

/// How long the text is that `sgt_explain` writes into enough room.
#[unsafe(no_mangle)]
pub extern "C" fn sgt_explain_len(alloc: Global, bytes: &[u8], text_len: &mut usize) -> u32
    ensures number { IsNumber result }
    ensures text { IsAnswered result
        → (text : List ℕ) × IsExplainText bytes.now result text × (text_len.new ≡ length text) }
    ensures none { (IsAnswered result → ⊥) → text_len.new ≡ 0 }
    ensures long { IsLong result → most_reads ≤ length bytes.now }
{
    measure(&explain_text(alloc, bytes), text_len)
}

/// Explains the bytes, and puts the text into the front of `out`: the auditor's line, and what it means, as `sgt
/// explain --all` writes it.
/// `SGT_YES` and `SGT_NO` are the verdict's. Behind the text `out` stays as it was. Where the text doesn't fit, nothing is written and
/// `text_len` says what room it needs.
#[unsafe(no_mangle)]
pub extern "C" fn sgt_explain(
    alloc: Global,
    bytes: &[u8],
    out: &mut [u8],
    text_len: &mut usize,
) -> u32
    ensures number { IsNumber result ⊎ IsRoom result }
    ensures text { IsAnswered result → (text : List ℕ) × IsExplainText bytes.now result text
        × (text_len.new ≡ length text) × (out.new ≡ text ++ drop (length text) out.old) }
    ensures room { IsRoom result → (n : ℕ) × (text : List ℕ) × IsExplainText bytes.now n text
        × (text_len.new ≡ length text) × (length out.old < length text) }
    ensures unwritten { (IsAnswered result → ⊥) → out.new ≡ out.old }
    ensures none { (IsAnswered result ⊎ IsRoom result → ⊥) → text_len.new ≡ 0 }
    ensures long { IsLong result → most_reads ≤ length bytes.now }
{
    put(&explain_text(alloc, bytes), out, text_len)
}
