//! The explanation of logs that were read.

ghost use Rattle.std.specs.Prelude.{◌≡◌, ◌≢◌, ◌<◌, ◌≤◌, ◌↔◌, ◌++◌, ℕ, List, Option, Err, length, IfOk, OnErr, IfSome};
ghost use Rattle.sgt_names.specs.Limits.{most_reads};
ghost use Rattle.sgt_devices.specs.Devices.{LeavesWriter};
ghost use Rattle.sgt_certify.specs.Answer.{HasCertificate, IsAnswer, refusal_text};
ghost use Rattle.sgt_certify.specs.declared.refuting.Refusal.{Refusal};
ghost use Rattle.sgt_certify_faults.specs.Faults.{IsFaultless};
ghost use Rattle.sgt_explain_logs.specs.Explained.{Begins, IsExplained, IsFound, IsFoundBefore, WroteExplained, WroteExplainedFront};
ghost use Rattle.sgt_explain_logs.specs.Taken.{AreReadOf};

use crate::answer::{Answer, answer_of, behind, head_of};
use crate::cycles::push_ranks;
use crate::faults::push_fault;
use crate::order::push_order;
use crate::steps::{Reason, reason_of};
use crate::taking::Logs;
use crate::walk::push_walk;
use crate::yes::push_yes;
use sgt_explain::Explained;
use sgt_explain_transaction::push_dealings;
use sgt_names::{EngineFail, Outcome, Sink, Tx, write_all};
use std::alloc::{AllocError, Global};
use std::fmt::Write;

/// What a no means, by its first line and the lines behind that.
fn push_no(
    alloc: Global,
    out: &mut String,
    bytes: &[u8],
    reason: Reason,
    lines: &str,
) -> Result<(), AllocError> {
    match reason {
        Reason::Fault { line, number } => push_fault(alloc, out, bytes, line, number),
        Reason::Order => push_order(alloc, out, bytes, lines),
        Reason::Ranks => push_ranks(alloc, out, bytes, lines),
        Reason::Walk => push_walk(alloc, out, bytes, lines),
    }
}

/// The reason of a no, and the lines behind its first.
fn told_in(text: &[u8]) -> Option<(Reason, &str)> {
    let words = std::str::from_utf8(text).ok()?;
    let (first, lines) = words.split_once('\n')?;
    Some((reason_of(first)?, lines))
}

/// The line that a fault names.
fn fault_line(text: &[u8]) -> u64 {
    match told_in(text) {
        Some((Reason::Fault { line, .. }, _)) => line,
        _ => u64::MAX,
    }
}

/// The line behind the last that may be shown of a transaction: that of a fault, else behind all.
fn end_of_no(text: &[u8]) -> u64
    ensures { (refusal : Refusal) (lines : List ℕ) → text.now ≡ refusal_text refusal ++ lines
        → result ≡ 18446744073709551615 }
{
    match behind(text, b"no line ") {
        Some(_) => fault_line(text),
        None => u64::MAX,
    }
}

/// The same of any answer.
fn end_of(answer: &Answer) -> u64
    ensures { (bytes : List ℕ) → IsAnswer bytes answer.now.outcome answer.now.text.items → IsFaultless bytes
        → result ≡ 18446744073709551615 }
{
    match answer.outcome {
        Outcome::Yes => u64::MAX,
        _ => end_of_no(answer.text.as_slice()),
    }
}

/// What the answer means.
fn push_meaning(
    alloc: Global,
    out: &mut String,
    bytes: &[u8],
    answer: &Answer,
) -> Result<(), AllocError> {
    match answer.outcome {
        Outcome::Yes => push_yes(alloc, out, answer.text.as_slice()),
        _ => match told_in(answer.text.as_slice()) {
            Some((reason, lines)) => push_no(alloc, out, bytes, reason, lines),
            None => Ok(()),
        },
    }
}

/// What the transaction did in the lines before this one, if one is asked for. Ok: whether it has an entry there.
fn push_asked(
    alloc: Global,
    out: &mut String,
    bytes: &[u8],
    end: u64,
    asked: Option<Tx>,
) -> Result<bool, AllocError>
    ensures { IfOk result (IsFoundBefore bytes.now end asked) }
{
    let Some(tx) = asked else {
        return Ok(true);
    };
    write!(out, "transaction {tx}:\n")?;
    push_dealings(alloc, out, bytes, end, tx)
}

/// The words behind the first line, and whether the transaction that is asked for was found; so is none.
#[derive(Drop)]
struct Meaning {
    text: String,
    is_found: bool,
}

/// What the answer means, and what the transaction did, if one is asked for.
fn meaning_of(
    alloc: Global,
    bytes: &[u8],
    answer: &Answer,
    asked: Option<Tx>,
) -> Result<Meaning, AllocError>
    requires { IsAnswer bytes.now answer.now.outcome answer.now.text.items }
    ensures { IfOk result (λ meaning. IsFound bytes.now asked meaning.is_found) }
{
    let end = end_of(answer);
    let mut text = String::new(alloc);
    push_meaning(alloc, &mut text, bytes, answer)?;
    let is_found = push_asked(alloc, &mut text, bytes, end, asked)?;
    Ok(Meaning { text, is_found })
}

/// What is written, and what it comes to.
#[derive(Drop)]
struct Explanation {
    explained: Explained,
    text: Vec<u8>,
}

/// The explanation of an answer to the bytes.
fn explanation_of(
    alloc: Global,
    bytes: &[u8],
    answer: &Answer,
    asked: Option<Tx>,
) -> Result<Explanation, AllocError>
    requires { IsAnswer bytes.now answer.now.outcome answer.now.text.items }
    ensures outcome { IfOk result (λ e. e.explained.outcome ≡ answer.now.outcome) }
    ensures text { IfOk result (λ e. Begins answer.now.outcome answer.now.text.items e.text.items) }
    ensures found { IfOk result (λ e. IsFound bytes.now asked e.explained.is_found) }
{
    let meaning = meaning_of(alloc, bytes, answer, asked)?;
    let mut text = head_of(alloc, answer)?;
    text.extend_from_slice(meaning.text.as_bytes())?;
    Ok(Explanation {
        explained: Explained {
            outcome: answer.outcome,
            is_found: meaning.is_found,
        },
        text,
    })
}

/// The explanation of logs that were read.
fn explanation_read(
    alloc: Global,
    asked: Option<Tx>,
    logs: &Logs,
) -> Result<Explanation, EngineFail>
    requires { AreReadOf logs.now.text.items logs.now }
    ensures answer { (told : Option (List ℕ)) → IfSome told (λ bytes. AreReadOf bytes logs.now)
        → IfOk result (λ e. IsExplained told e.explained.outcome e.text.items) }
    ensures exact { (bytes : List ℕ) → AreReadOf bytes logs.now
        → IfOk result (λ e. e.explained.outcome ≡ Outcome.Yes ↔ HasCertificate bytes) }
    ensures found { (bytes : List ℕ) → AreReadOf bytes logs.now
        → IfOk result (λ e. IsFound bytes asked e.explained.is_found) }
    ensures long { result ≡ Err EngineFail.ReadFault → most_reads ≤ length logs.now.text.items }
    ensures write { result ≢ Err EngineFail.WriteFault }
{
    let answer = answer_of(alloc, logs)?;
    let explanation = explanation_of(alloc, logs.text.as_slice(), &answer, asked)?;
    Ok(explanation)
}

/// Explains logs that were read (`read_logs`), a bundle's text without its line 2: what `certify` answers of them, and
/// why. Of a yes the counts, and what to type next. Of `no line L FN` the rule, the line, and what would have to stand
/// there. Of `no ranks` each step of the cycle, and the anomaly's name. Of `no order` the ends that stand against one
/// another, and what of their transactions is in conflict. Of `no walk` the refused transactions that are next, with
/// what they did. Where a transaction is asked for, also what it did: its entries at each site with their lines, and whom
/// it is in conflict with, in which direction; of logs with a fault in the lines before that.
///
/// ReadFault from 4294967295 bytes on alone, and Memory where a growth was refused: nothing was written. WriteFault where
/// the writer failed: a front of the explanation may have been written.
pub(crate) fn explain_logs<W: Sink>(
    alloc: Global,
    asked: Option<Tx>,
    logs: &Logs,
    writer: &mut W,
) -> Result<Explained, EngineFail>
    requires { AreReadOf logs.now.text.items logs.now }
    ensures answer { (told : Option (List ℕ)) → IfSome told (λ bytes. AreReadOf bytes logs.now)
        → IfOk result (λ explained. WroteExplained told explained.outcome (W.holds writer.old)
        (W.holds writer.new)) }
    ensures exact { (bytes : List ℕ) → AreReadOf bytes logs.now
        → IfOk result (λ explained. explained.outcome ≡ Outcome.Yes ↔ HasCertificate bytes) }
    ensures found { (bytes : List ℕ) → AreReadOf bytes logs.now
        → IfOk result (λ explained. IsFound bytes asked explained.is_found) }
    ensures front { (told : Option (List ℕ)) → IfSome told (λ bytes. AreReadOf bytes logs.now)
        → OnErr result (WroteExplainedFront told (W.holds writer.old) (W.holds writer.new)) }
    ensures long { result ≡ Err EngineFail.ReadFault → most_reads ≤ length logs.now.text.items }
    ensures writer { LeavesWriter W.failures result writer.old writer.new }
{
    let explanation = explanation_read(alloc, asked, logs)?;
    match write_all(writer, explanation.text.as_slice()) {
        Ok(()) => Ok(explanation.explained),
        Err(_) => Err(EngineFail::WriteFault),
    }
}
