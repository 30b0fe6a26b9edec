//! The certificate of all that a reader gives.

ghost use Rattle.std.specs.Prelude.{◌≡◌, ◌-◌, ◌<◌, ◌++◌, ◌↔◌, ℕ, true, List, Option, Some, Err, length, IfErr, IfOk, IfSome, OnErr};
ghost use Rattle.sgt_devices.specs.Devices.{LeavesReader, LeavesWriter};
ghost use Rattle.sgt_audit.specs.Faults.{fault_number};
ghost use Rattle.sgt_certify.specs.Answer.{AreAll, HasCertificate, IsAnswer, IsTakenSo, fault_text, WroteAnswer, WroteAnswerFront};
ghost use Rattle.sgt_certify.specs.Reach.{BeginsLittleBehind, BeginsNoneBehind, ReadsAll, ReadsNoFurther};
ghost use Rattle.sgt_certify.specs.Reasons.{IsDecidedAnswer, IsToldBy, Passes};
ghost use Rattle.sgt_certify_search.specs.declared.finding.Found.TheVariants.{Refused};
ghost use Rattle.sgt_certify_search.specs.declared.finding.Reason.{Reason as AnyReason};
ghost use Rattle.sgt_certify_faults.specs.Faults.{GoesOn, IsFaultless, IsFirstFault};
ghost use Rattle.sgt_certify_logs.specs.Sound.{SpellsSoundLogs};

use crate::deciding::{Answer, sound_answer};
use crate::making::certified;
use crate::refuting::refused;
use crate::taking::{Taken, take_text};
use sgt_audit::Fault;
use sgt_certify_faults::{FirstFault, first_fault};
use sgt_certify_search::{Found, Reason, find};
use sgt_names::{EngineFail, Outcome, Sink, Source, write_all};
use sgt_notation::push_number;
use std::alloc::{AllocError, Global};

/// The line of a fault.
fn fault_line(alloc: Global, line: usize, fault: Fault) -> Result<Vec<u8>, AllocError>
    ensures { IfOk result (λ text. text.items ≡ fault_text line (fault_number fault)) }
{
    let mut text = Vec::from_slice(alloc, b"no line ")?;
    push_number(&mut text, line as u64)?;
    text.extend_from_slice(b" F")?;
    push_number(&mut text, u64::from(fault.number()))?;
    text.extend_from_slice(b"\n")?;
    Ok(text)
}

/// A no for the first fault of a text.
pub fn fault_answer(alloc: Global, first: FirstFault) -> Result<Answer, AllocError>
    ensures { IfOk result
        (λ a. (bytes : List ℕ) → IsFirstFault bytes first.line first.fault
        → IsAnswer bytes a.outcome a.text.items) }
{
    Ok(Answer {
        outcome: Outcome::No,
        text: fault_line(alloc, first.line, first.fault)?,
    })
}

/// The answer to a text without a fault, and so of sound logs: a no for this reason, if one was found that passes its
/// check against the logs, else what is decided of them.
fn faultless_answer(
    alloc: Global,
    text: &[u8],
    reason: Option<Reason>,
) -> Result<Answer, EngineFail>
    requires faultless { IsFaultless text.now }
    requires sound { SpellsSoundLogs text.now }
    ensures answer { IfOk result (λ a. IsAnswer text.now a.outcome a.text.items) }
    ensures by { (r : AnyReason) → reason ≡ Some r → Passes text.now r
        → IfOk result (λ a. (a.outcome ≡ Outcome.No) × IsToldBy text.now r a.text.items) }
    ensures decided { ((r : AnyReason) → reason ≡ Some r → Passes text.now r → ⊥)
        → IfOk result (λ a. IsDecidedAnswer text.now a.outcome a.text.items) }
    ensures err { IfErr result (λ e. e ≡ EngineFail.Memory) }
{
    let Some(reason) = reason else {
        return sound_answer(alloc, text);
    };
    match refused(alloc, text, &reason)? {
        Some(text) => Ok(Answer {
            outcome: Outcome::No,
            text,
        }),
        None => sound_answer(alloc, text),
    }
}

/// The answer to a text in which no certificate was found: its first fault, or else the answer to sound logs, by this
/// reason, if one was found. Behind the text comes nothing more, where that is all, else a line that is too long.
fn no_answer(
    alloc: Global,
    text: Vec<u8>,
    all: bool,
    reason: Option<Reason>,
) -> Result<Answer, EngineFail>
    ensures answer { IfOk result
        (λ a. (more : List ℕ) → GoesOn all more
        → IsAnswer (text.items ++ more) a.outcome a.text.items) }
    ensures by { IsFaultless text.items → all ≡ true → (r : AnyReason) → reason ≡ Some r
        → Passes text.items r
        → IfOk result (λ a. (a.outcome ≡ Outcome.No) × IsToldBy text.items r a.text.items) }
    ensures decided { IsFaultless text.items → all ≡ true
        → ((r : AnyReason) → reason ≡ Some r → Passes text.items r → ⊥)
        → IfOk result (λ a. IsDecidedAnswer text.items a.outcome a.text.items) }
    ensures err { IfErr result (λ e. e ≡ EngineFail.Memory) }
{
    let bytes = text.as_slice();
    match first_fault(alloc, bytes, all)? {
        Some(first) => Ok(fault_answer(alloc, first)?),
        None => faultless_answer(alloc, bytes, reason),
    }
}

/// The answer to a text, by what was found of it.
fn found_answer(alloc: Global, text: Vec<u8>, found: Found) -> Result<Answer, EngineFail>
    ensures answer { IfOk result
        (λ a. (more : List ℕ) → GoesOn true more
        → IsAnswer (text.items ++ more) a.outcome a.text.items) }
    ensures by { IsFaultless text.items → (r : AnyReason) → found ≡ Refused r
        → Passes text.items r
        → IfOk result (λ a. (a.outcome ≡ Outcome.No) × IsToldBy text.items r a.text.items) }
    ensures decided { IsFaultless text.items
        → ((r : AnyReason) → found ≡ Refused r → Passes text.items r → ⊥)
        → IfOk result (λ a. IsDecidedAnswer text.items a.outcome a.text.items) }
    ensures err { IfErr result (λ e. e ≡ EngineFail.Memory) }
{
    match found {
        Found::Certificate(certificate) => match certified(alloc, text, certificate)? {
            Ok(text) => Ok(Answer {
                outcome: Outcome::Yes,
                text,
            }),
            Err(text) => no_answer(alloc, text, true, None),
        },
        Found::Refused(reason) => no_answer(alloc, text, true, Some(reason)),
        Found::Nothing => no_answer(alloc, text, true, None),
    }
}

/// What a search finds in what a reader gave: nothing where that is not all.
fn found_in(alloc: Global, taken: &Taken) -> Result<Found, AllocError> {
    match taken {
        Taken::Text { text, all } => {
            if !*all {
                return Ok(Found::Nothing);
            }
            find(alloc, text.as_slice())
        }
        Taken::Fault(_) => Ok(Found::Nothing),
    }
}

/// The answer to what a reader gave, by what was found of it.
fn answer_to(alloc: Global, taken: Taken, found: Found) -> Result<Answer, EngineFail>
    ensures answer { IfOk result
        (λ a. (told : Option (List ℕ)) → IsTakenSo told taken
        → IfSome told (λ bytes. IsAnswer bytes a.outcome a.text.items)) }
    ensures by { (bytes : List ℕ) → AreAll taken bytes → IsFaultless bytes
        → (r : AnyReason) → found ≡ Refused r → Passes bytes r
        → IfOk result (λ a. (a.outcome ≡ Outcome.No) × IsToldBy bytes r a.text.items) }
    ensures decided { (bytes : List ℕ) → AreAll taken bytes → IsFaultless bytes
        → ((r : AnyReason) → found ≡ Refused r → Passes bytes r → ⊥)
        → IfOk result (λ a. IsDecidedAnswer bytes a.outcome a.text.items) }
    ensures err { IfErr result (λ e. e ≡ EngineFail.Memory) }
{
    match taken {
        Taken::Text { text, all } => {
            if !all {
                return no_answer(alloc, text, false, None);
            }
            found_answer(alloc, text, found)
        }
        Taken::Fault(first) => Ok(fault_answer(alloc, first)?),
    }
}

/// Reads the text of a bundle without its second line, and writes it with the line of a certificate that makes its
/// logs valid; or the reason why there is none: `no line L FN`, `no order`, `no ranks` or `no walk` and the lines
/// that show it. Where what the search found doesn't pass its check, the answer is decided anew, by a search that is
/// proved and slow; no input is known for which it is. All is read before anything is written, but no further than
/// into a line that is too long; and no further than to a line with a fault that no certificate mends, where that is
/// found before the next read.
///
/// ReadFault where the reader failed, or no read is left, and Memory where a growth was refused: nothing was written.
/// WriteFault where the writer failed: a front of the answer may have been written.
pub fn certify<R: Source, W: Sink>(
    alloc: Global,
    reader: &mut R,
    writer: &mut W,
) -> Result<Outcome, EngineFail>
    ensures answer { IfOk result
        (λ outcome. WroteAnswer (R.tells reader.old) outcome (W.holds writer.old)
        (W.holds writer.new)) }
    ensures exact { IfOk result
        (λ outcome. IfSome (R.tells reader.old)
        (λ bytes. outcome ≡ Outcome.Yes ↔ HasCertificate bytes)) }
    ensures no_further { IfOk result (λ _. IfSome (R.tells reader.old) (λ bytes.
        ReadsNoFurther bytes (R.asked reader.new - R.asked reader.old))) }
    ensures none_behind { IfOk result (λ _. IfSome (R.tells reader.old) (λ bytes. IfSome (R.tells reader.new)
        (λ left. BeginsNoneBehind bytes (length left) (R.last reader.new)))) }
    ensures little_behind { IfOk result (λ _. IfSome (R.tells reader.old) (λ bytes. IfSome (R.tells reader.new)
        (λ left. BeginsLittleBehind bytes (length left) (R.last reader.new)))) }
    ensures reads_all { IfOk result (λ _. IfSome (R.tells reader.old) (λ bytes. IfSome (R.tells reader.new)
        (ReadsAll bytes))) }
    ensures front { OnErr result
        (WroteAnswerFront (R.tells reader.old) (W.holds writer.old) (W.holds writer.new)) }

    // A fault tells of its device, and no fault of a device is passed over.
    ensures reader { LeavesReader R.tells R.failures R.asked result reader.old reader.new }
    ensures writer { LeavesWriter W.failures result writer.old writer.new }
{
    let taken = take_text(alloc, reader)?;
    let found = found_in(alloc, &taken)?;
    let answer = answer_to(alloc, taken, found)?;
    match write_all(writer, answer.text.as_slice()) {
        Ok(()) => Ok(answer.outcome),
        Err(_) => Err(EngineFail::WriteFault),
    }
}
