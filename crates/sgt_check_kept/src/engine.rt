//! The check of all that a reader gives, where orders are to keep something.

ghost use Rattle.std.specs.Prelude.{◌≡◌, ◌<◌, ◌↔◌, Err, IfOk, IfSome, OnErr};
ghost use Rattle.sgt_devices.specs.Devices.{LeavesReader, LeavesWriter};
ghost use Rattle.sgt_check_kept.specs.Answer.{SpellsKeeping, WroteKeptAnswer, WroteKeptAnswerFront};

use crate::answer::answer_to;
use sgt_check::Options;
use sgt_history_text::{Wanted, read_history};
use sgt_names::{EngineFail, Outcome, Sink, Source, write_all};
use std::alloc::Global;

/// Reads a history whose lines tell when transactions ran, or their sessions, or both, as is wanted, and writes what
/// it is: as `check`, but `yes` only where an order serves that keeps these too; and where a cycle has steps of
/// sessions or of real time, their lines.
///
/// ReadFault where the reader failed, or no read is left, and Memory where a growth was refused: nothing was written.
/// WriteFault where the writer failed: a front of the answer may have been written.
pub fn check_kept<R: Source, W: Sink>(
    alloc: Global,
    reader: &mut R,
    writer: &mut W,
    options: Options,
    wanted: Wanted,
) -> Result<Outcome, EngineFail>
    ensures answer { IfOk result
        (λ outcome. WroteKeptAnswer wanted options (R.tells reader.old) outcome (W.holds writer.old)
        (W.holds writer.new)) }
    ensures exact { IfOk result
        (λ outcome. IfSome (R.tells reader.old)
        (λ bytes. outcome ≡ Outcome.Yes ↔ SpellsKeeping wanted bytes)) }
    ensures front { OnErr result
        (WroteKeptAnswerFront wanted options (R.tells reader.old) (W.holds writer.old) (W.holds writer.new)) }

    // A fault tells of its device, and no fault of a device is passed over.
    ensures reader { LeavesReader R.tells R.failures R.asked result reader.old reader.new }
    ensures writer { LeavesWriter W.failures result writer.old writer.new }
{
    let text = read_history(alloc, reader, wanted)?;
    let answer = answer_to(alloc, text, options)?;
    match write_all(writer, answer.text.as_slice()) {
        Ok(()) => Ok(answer.outcome),
        Err(_) => Err(EngineFail::WriteFault),
    }
}
