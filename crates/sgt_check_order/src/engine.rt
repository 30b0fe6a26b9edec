//! The check of an order against a history, of all that two readers give.

ghost use Rattle.std.specs.Prelude.{◌≡◌, ◌≢◌, ◌<◌, ◌⊎◌, ◌↔◌, Err, IfOk, IfSome, IsErrOf, OnErr};
ghost use Rattle.sgt_notation.specs.Lines.{ReadFaultIsDue};
ghost use Rattle.sgt_devices.specs.Devices.{LeavesWriter};
ghost use Rattle.sgt_check_order.specs.Answer.{SpellsServed, WroteAnswer, WroteAnswerFront};

use crate::answer::answer_against;
use sgt_history_text::{Wanted, read_history};
use sgt_names::{EngineFail, Outcome, Sink, Source, write_all};
use std::alloc::Global;

/// Reads a history, a transaction a line, and then an order, an id of a transaction a line, and writes what the order
/// is: `yes` and how many transactions commit and abort, where it explains the history and keeps what is wanted; the
/// first fault of the history, as `check` writes it; `no order` and the order's first line that is wrong, or of the
/// first transaction that breaks the order the operation that does something else in it, or the step to one before
/// it; or the history's first line that can't be read or doesn't tell what is wanted. No line of the order behind its
/// first wrong one is read, and none at all where the history has a fault. What is needed is read before anything is
/// written.
///
/// ReadFault where a reader failed, or no read of it is left, and Memory where a growth was refused: nothing was
/// written. WriteFault where the writer failed: a front of the answer may have been written.
pub fn check_against<O: Source, R: Source, W: Sink>(
    alloc: Global,
    order: &mut O,
    reader: &mut R,
    writer: &mut W,
    wanted: Wanted,
) -> Result<Outcome, EngineFail>
    ensures answer { IfOk result
        (λ outcome. WroteAnswer wanted (O.tells order.old) (R.tells reader.old) outcome (W.holds writer.old)
        (W.holds writer.new)) }
    ensures exact { IfOk result
        (λ outcome. IfSome (R.tells reader.old) (λ bytes. IfSome (O.tells order.old)
        (λ lines. outcome ≡ Outcome.Yes ↔ SpellsServed wanted lines bytes))) }
    ensures front { OnErr result
        (WroteAnswerFront wanted (O.tells order.old) (R.tells reader.old) (W.holds writer.old) (W.holds writer.new)) }

    // A fault tells of its device, and no fault of a device is passed over.
    ensures read_fault { IsErrOf result EngineFail.ReadFault
        → ReadFaultIsDue (R.tells reader.old) (R.failures reader.old) (R.failures reader.new) (R.asked reader.old)
        (R.asked reader.new)
        ⊎ ReadFaultIsDue (O.tells order.old) (O.failures order.old) (O.failures order.new) (O.asked order.old)
        (O.asked order.new) }
    ensures writer { LeavesWriter W.failures result writer.old writer.new }
    ensures quiet_order { result ≢ Err EngineFail.ReadFault
        → O.failures order.new ≡ O.failures order.old }
    ensures quiet_reader { result ≢ Err EngineFail.ReadFault
        → R.failures reader.new ≡ R.failures reader.old }
{
    let text = read_history(alloc, reader, wanted)?;
    let answer = answer_against(alloc, order, text)?;
    match write_all(writer, answer.text.as_slice()) {
        Ok(()) => Ok(answer.outcome),
        Err(_) => Err(EngineFail::WriteFault),
    }
}
