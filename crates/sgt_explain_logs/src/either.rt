//! The explanation of what is a bundle, or logs without a certificate.

ghost use Rattle.std.specs.Prelude.{◌≡◌, ◌↔◌, length, IfOk, IfSome, OnErr};
ghost use Rattle.sgt_devices.specs.Devices.{LeavesKeptReader, LeavesWriter};
ghost use Rattle.sgt_audit.specs.Faults.{BeginsNoneBehind};
ghost use Rattle.sgt_certify.specs.Answer.{HasCertificate};
ghost use Rattle.sgt_explain_logs.specs.Either.{WroteExplanation, WroteExplanationFront};
ghost use Rattle.sgt_explain_logs.specs.Explained.{AreLogs};
ghost use Rattle.sgt_explain_logs.specs.Taken.{BeganInTime};

use crate::engine::explain_logs;
use crate::peeking::peek;
use crate::taking::read_logs;
use sgt_explain::{Asked, Explained, explain_front, read_judged};
use sgt_names::{EngineFail, Outcome, Sink, Source};
use std::alloc::Global;

/// Explains what the reader gives: logs without a certificate, whose line 2 begins with `site `, by what `certify` answers
/// of them (`explain_logs`), and all else by the auditor's verdict (`explain` of sgt_explain). The input is read no further
/// than the first line with a fault: of logs, than `certify` reads them (`read_logs`). What is read is kept in memory, of
/// logs twice.
pub fn explain_either<R: Source, W: Sink>(
    alloc: Global,
    asked: Asked,
    reader: &mut R,
    writer: &mut W,
) -> Result<Explained, EngineFail>
    ensures answer { IfOk result
        (λ explained. WroteExplanation asked (R.tells reader.old) explained (W.holds writer.old)
        (W.holds writer.new)) }

    // Of logs the outcome is Yes exactly where some certificate makes them valid.
    ensures exact { IfOk result (λ explained. IfSome (R.tells reader.old) (λ bytes. AreLogs bytes
        → (explained.outcome ≡ Outcome.Yes ↔ HasCertificate bytes))) }

    // Of what isn't logs nothing is read behind the line with the first fault, and of logs little.
    ensures none_behind { IfOk result (λ _. IfSome (R.tells reader.old) (λ bytes. (AreLogs bytes → ⊥)
        → IfSome (R.tells reader.new) (λ left. BeginsNoneBehind bytes (length left) (R.last reader.new)))) }
    ensures little_behind { IfOk result (λ _. IfSome (R.tells reader.old) (λ bytes. AreLogs bytes
        → IfSome (R.tells reader.new) (λ left. BeganInTime bytes (length left) (R.last reader.new)))) }
    ensures front { OnErr result
        (WroteExplanationFront (R.tells reader.old) (W.holds writer.old) (W.holds writer.new)) }
    ensures reader { LeavesKeptReader R.tells R.failures result reader.old reader.new }
    ensures writer { LeavesWriter W.failures result writer.old writer.new }
{
    let peeked = peek(alloc, reader)?;
    if peeked.are_logs {
        let logs = read_logs(alloc, reader, peeked.text)?;
        explain_logs(alloc, asked.transaction(), &logs, writer)
    } else {
        let front = read_judged(alloc, reader, peeked.text)?;
        explain_front(alloc, asked, &front, writer)
    }
}
