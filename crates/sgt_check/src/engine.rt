//! The check of all that a reader gives.

ghost use Rattle.std.specs.Prelude.{◌≡◌, ◌<◌, ◌↔◌, Err, IfOk, IfSome, OnErr};
ghost use Rattle.sgt_devices.specs.Devices.{LeavesReader, LeavesWriter};
ghost use Rattle.sgt_check.specs.Answer.{SpellsSerializable, WroteAnswer, WroteAnswerFront};

use crate::answer::answer_to;
use crate::options::Options;
use sgt_history_text::{Wanted, read_history};
use sgt_names::{EngineFail, Outcome, Sink, Source, write_all};
use std::alloc::Global;

/// Reads a history, a transaction a line, and writes what it is: `yes` and how many transactions commit and abort,
/// with an order that serves behind it where that is asked for; `no` and its first fault or a cycle of conflicts; or
/// the first line that can't be read. No line behind that one is read. All is read before anything is written.
///
/// ReadFault where the reader failed, or no read is left, and Memory where a growth was refused: nothing was written.
/// WriteFault where the writer failed: a front of the answer may have been written.
pub fn check<R: Source, W: Sink>(
    alloc: Global,
    reader: &mut R,
    writer: &mut W,
    options: Options,
) -> Result<Outcome, EngineFail>
    ensures answer { IfOk result
        (λ outcome. WroteAnswer options (R.tells reader.old) outcome (W.holds writer.old)
        (W.holds writer.new)) }
    ensures exact { IfOk result
        (λ outcome. IfSome (R.tells reader.old)
        (λ bytes. outcome ≡ Outcome.Yes ↔ SpellsSerializable bytes)) }
    ensures front { OnErr result
        (WroteAnswerFront options (R.tells reader.old) (W.holds writer.old) (W.holds writer.new)) }

    // A fault tells of its device, and no fault of a device is passed over.
    ensures reader { LeavesReader R.tells R.failures R.asked result reader.old reader.new }
    ensures writer { LeavesWriter W.failures result writer.old writer.new }
{
    let neither = Wanted {
        real_time: false,
        sessions: false,
    };
    let text = read_history(alloc, reader, neither)?;
    let answer = answer_to(alloc, text, options)?;
    match write_all(writer, answer.text.as_slice()) {
        Ok(()) => Ok(answer.outcome),
        Err(_) => Err(EngineFail::WriteFault),
    }
}
