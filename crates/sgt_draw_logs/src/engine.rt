//! The picture of all that a reader gives.

ghost use Rattle.std.specs.Prelude.{◌≡◌, ◌≢◌, ◌<◌, ◌↔◌, length, Err, IfOk, OnErr, IfSome};
ghost use Rattle.sgt_devices.specs.Devices.{LeavesKeptReader, LeavesWriter};
ghost use Rattle.sgt_audit.specs.Faults.{BeginsNoneBehind};
ghost use Rattle.sgt_certify.specs.Answer.{HasCertificate};
ghost use Rattle.sgt_explain_logs.specs.Explained.{AreLogs};
ghost use Rattle.sgt_explain_logs.specs.Taken.{BeganInTime};
ghost use Rattle.sgt_draw_logs.specs.Drawing.{IsDrawing, WroteDrawing, WroteDrawingFront};

use crate::answer::{bundle_answer, logs_answer};
use sgt_draw::{Answer, Wanted};
use sgt_explain::read_judged;
use sgt_explain_logs::{peek, read_logs};
use sgt_names::{EngineFail, Outcome, Sink, Source, write_all};
use std::alloc::Global;

/// The answer to what the reader gives, by the lines up to the first fault.
fn answer<R: Source>(alloc: Global, wanted: Wanted, reader: &mut R) -> Result<Answer, EngineFail>
    ensures answer { IfOk result
        (λ a. IsDrawing wanted (R.tells reader.old) a.outcome a.text.items) }
    ensures exact { IfOk result (λ a. IfSome (R.tells reader.old)
        (λ bytes. AreLogs bytes → (a.outcome ≡ Outcome.Yes ↔ HasCertificate bytes))) }
    ensures none_behind { IfOk result (λ _. IfSome (R.tells reader.old) (λ bytes. (AreLogs bytes → ⊥)
        → IfSome (R.tells reader.new) (λ left. BeginsNoneBehind bytes (length left) (R.last reader.new)))) }
    ensures little_behind { IfOk result (λ _. IfSome (R.tells reader.old) (λ bytes. AreLogs bytes
        → IfSome (R.tells reader.new) (λ left. BeganInTime bytes (length left) (R.last reader.new)))) }
    ensures reader { LeavesKeptReader R.tells R.failures result reader.old reader.new }
    ensures write_fault { result ≢ Err EngineFail.WriteFault }
{
    let peeked = peek(alloc, reader)?;
    if peeked.are_logs {
        let logs = read_logs(alloc, reader, peeked.text)?;
        logs_answer(alloc, wanted, &logs)
    } else {
        let front = read_judged(alloc, reader, peeked.text)?;
        bundle_answer(alloc, wanted, &front)
    }
}

/// Draws what the reader gives. Logs without a certificate, whose line 2 begins with `site `, are certified first: after a
/// yes the picture is that of the certified bundle, as `draw` of sgt_draw has it; after a no it shows the cycle alone
/// that the answer of `certify` tells, whatever transaction is wanted, and where it tells none (`no line L FN`,
/// `no walk`) that answer is written. All else is answered as by `draw`. The input is read no further than the first
/// line with a fault: of logs, than `certify` reads them. What is read is kept in memory.
///
/// ReadFault where the reader failed, or too many reads were needed (`MOST_READS` of sgt_names), and Memory where a
/// growth was refused: nothing was written. WriteFault where the writer failed: a front of the answer may have been
/// written.
pub fn draw_either<R: Source, W: Sink>(
    alloc: Global,
    wanted: Wanted,
    reader: &mut R,
    writer: &mut W,
) -> Result<Outcome, EngineFail>
    ensures answer { IfOk result
        (λ outcome. WroteDrawing wanted (R.tells reader.old) outcome (W.holds writer.old)
        (W.holds writer.new)) }
    ensures exact { IfOk result (λ outcome. IfSome (R.tells reader.old)
        (λ bytes. AreLogs bytes → (outcome ≡ Outcome.Yes ↔ HasCertificate bytes))) }

    // Of what isn't logs nothing is read behind the line with the first fault, and of logs little.
    ensures none_behind { IfOk result (λ _. IfSome (R.tells reader.old) (λ bytes. (AreLogs bytes → ⊥)
        → IfSome (R.tells reader.new) (λ left. BeginsNoneBehind bytes (length left) (R.last reader.new)))) }
    ensures little_behind { IfOk result (λ _. IfSome (R.tells reader.old) (λ bytes. AreLogs bytes
        → IfSome (R.tells reader.new) (λ left. BeganInTime bytes (length left) (R.last reader.new)))) }

    ensures front { OnErr result (WroteDrawingFront wanted (R.tells reader.old)
        (W.holds writer.old) (W.holds writer.new)) }

    // A fault tells of its device, and no fault of a device is passed over.
    ensures reader { LeavesKeptReader R.tells R.failures result reader.old reader.new }
    ensures writer { LeavesWriter W.failures result writer.old writer.new }
{
    let answer = answer(alloc, wanted, reader)?;
    match write_all(writer, answer.text.as_slice()) {
        Ok(()) => Ok(answer.outcome),
        Err(_) => Err(EngineFail::WriteFault),
    }
}
