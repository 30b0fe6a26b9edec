//! What `certify` answers of bytes in memory, and how an explanation begins by it.

ghost use Rattle.std.specs.Prelude.{◌≡◌, ◌≢◌, ◌≤◌, ◌↔◌, ◌++◌, ℕ, Err, IfOk, List, MatchOption, length};
ghost use Rattle.sgt_names.specs.Limits.{most_reads};
ghost use Rattle.sgt_certify.specs.Answer.{HasCertificate, IsAnswer};
ghost use Rattle.sgt_explain_logs.specs.Explained.{IsFirstLine, IsHead};
ghost use Rattle.sgt_explain_logs.specs.Taken.{AreReadOf};

use crate::taking::Logs;
use sgt_certify::{certify, fault_answer};
use sgt_names::{Asks, Bytes, EngineFail, Outcome, Written};
use sgt_notation::split_line;
use std::alloc::{AllocError, Global};

/// An outcome, and the text behind it.
#[derive(Drop)]
pub struct Answer {
    pub outcome: Outcome,
    pub text: Vec<u8>,
}

/// What stands behind this word at the front.
pub(crate) fn behind<'a>(text: &'a [u8], word: &[u8]) -> Option<&'a [u8]>
    ensures { MatchOption result ((rest : List ℕ) → text.entry.now ≢ word.now ++ rest)
        (λ rest. text.entry.now ≡ word.now ++ rest.now) }
{
    text.strip_prefix(word)
}

/// What fails where a text is read from memory and written there: too many reads, else memory.
fn fail_of(fail: EngineFail) -> EngineFail
    ensures read { fail ≡ EngineFail.ReadFault → result ≡ EngineFail.ReadFault }
    ensures only { result ≡ EngineFail.ReadFault → fail ≡ EngineFail.ReadFault }
    ensures write { result ≡ EngineFail.WriteFault → ⊥ }
{
    match fail {
        EngineFail::ReadFault => EngineFail::ReadFault,
        _ => EngineFail::Memory,
    }
}

/// What `certify` answers of the bytes. ReadFault from 4294967295 bytes on alone.
fn certified(alloc: Global, bytes: &[u8]) -> Result<Answer, EngineFail>
    ensures answer { IfOk result (λ a. IsAnswer bytes.now a.outcome a.text.items) }
    ensures exact { IfOk result (λ a. a.outcome ≡ Outcome.Yes ↔ HasCertificate bytes.now) }
    ensures long { result ≡ Err EngineFail.ReadFault → most_reads ≤ length bytes.now }
    ensures write { result ≡ Err EngineFail.WriteFault → ⊥ }
{
    let mut reader = Bytes {
        rest: bytes,
        asks: Asks::none(),
        last: 0,
    };
    let mut writer = Written::new(alloc);
    match certify(alloc, &mut reader, &mut writer) {
        Ok(outcome) => Ok(Answer {
            outcome,
            text: writer.bytes,
        }),
        Err(fail) => Err(fail_of(fail)),
    }
}

/// What `certify` answers of logs that were read. ReadFault from 4294967295 bytes on alone.
pub fn answer_of(alloc: Global, logs: &Logs) -> Result<Answer, EngineFail>
    ensures answer { IfOk result (λ a. (bytes : List ℕ) → AreReadOf bytes logs.now
        → IsAnswer bytes a.outcome a.text.items) }
    ensures long { result ≡ Err EngineFail.ReadFault → most_reads ≤ length logs.now.text.items }
    ensures write { result ≢ Err EngineFail.WriteFault }
{
    match logs.first {
        Some(first) => {
            let found = fault_answer(alloc, first)?;
            Ok(Answer {
                outcome: found.outcome,
                text: found.text,
            })
        }
        None => certified(alloc, logs.text.as_slice()),
    }
}

/// The words before the counts of a yes.
const YES: &[u8] = b"a certificate exists: ";

/// The first line of a no.
fn first_line(text: &[u8]) -> &[u8]
    requires { (bytes : List ℕ) × IsAnswer bytes Outcome.No text.now }
    ensures { IsFirstLine text.now result.now }
{
    match split_line(text) {
        Some((line, _)) => line,
        None => unreachable!(),
    }
}

/// How the explanation of a no begins.
fn head_of_no(alloc: Global, text: &[u8]) -> Result<Vec<u8>, AllocError>
    requires { (bytes : List ℕ) × IsAnswer bytes Outcome.No text.now }
    ensures { IfOk result (λ head. IsHead Outcome.No text.now head.items) }
{
    let mut head = Vec::from_slice(alloc, first_line(text))?;
    head.extend_from_slice(b"\n")?;
    Ok(head)
}

/// How the explanation of an answer begins: of a yes with these words, of a no with the answer's first line.
pub(crate) fn head_of(alloc: Global, answer: &Answer) -> Result<Vec<u8>, AllocError>
    requires { (bytes : List ℕ) × IsAnswer bytes answer.now.outcome answer.now.text.items }
    ensures { IfOk result (λ head. IsHead answer.now.outcome answer.now.text.items head.items) }
{
    match answer.outcome {
        Outcome::Yes => Vec::from_slice(alloc, YES),
        Outcome::No => head_of_no(alloc, answer.text.as_slice()),
        Outcome::Unreadable => unreachable!(),
    }
}
