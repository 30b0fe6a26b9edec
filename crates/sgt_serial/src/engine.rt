//! The serial run of all that a reader gives.

ghost use Rattle.std.specs.Prelude.{◌≢◌, ◌-◌, ◌<◌, ◌≤◌, ℕ, List, Option, Err, length, OnOk, OnErr, IfOk, IfSome, IsErrOf};
ghost use Rattle.std.specs.Io.KnownBytes.{Appends};
ghost use Rattle.sgt_names.specs.Device.{WritesFront};
ghost use Rattle.sgt_devices.specs.Devices.{LeavesReader, LeavesWriter};
ghost use Rattle.sgt_audit.specs.Faults.{BeginsNoneBehind, ReadsNoFurther};
ghost use Rattle.sgt_audit.specs.Verdict.{IsAudited, HandsOutValid, text_of};
ghost use Rattle.sgt_audit.specs.declared.verdict.Verdict.TheVariants as verdict;
ghost use Rattle.sgt_serial.specs.Answer.{WroteAnswer, WroteAnswerFront};
ghost use Rattle.sgt_serial.specs.Report.{report_of};
ghost use Rattle.sgt_serial.specs.Text.{report_text};

use crate::written::Plan;
use sgt_audit::{Audited, Fault, Verdict, audit_bundle};
use sgt_compact::CompactBundle;
use sgt_names::{EngineFail, Outcome, Sink, Source, write_all};
use std::alloc::Global;

/// Writes the line of the first fault.
fn write_fault<W: Sink>(
    alloc: Global,
    writer: &mut W,
    line: u64,
    fault: Fault,
) -> Result<(), EngineFail>
    ensures ok { OnOk result
        (Appends (W.holds writer.old) (W.holds writer.new) (text_of (verdict.No line fault))) }
    ensures front { IsErrOf result EngineFail.WriteFault
        → WritesFront (W.holds writer.old) (W.holds writer.new) (text_of (verdict.No line fault)) }
    ensures unread { result ≢ Err EngineFail.ReadFault }
    ensures writer { LeavesWriter W.failures result writer.old writer.new }
{
    let verdict = Verdict::No { line, fault }.to_line(alloc)?;
    match write_all(writer, verdict.as_bytes()) {
        Ok(()) => Ok(()),
        Err(_) => Err(EngineFail::WriteFault),
    }
}

/// Writes the run of the bundle.
fn write_serial<W: Sink>(
    alloc: Global,
    writer: &mut W,
    bundle: CompactBundle,
) -> Result<(), EngineFail>
    ensures ok { OnOk result
        (Appends (W.holds writer.old) (W.holds writer.new) (report_text (report_of bundle))) }
    ensures front { IsErrOf result EngineFail.WriteFault
        → WritesFront (W.holds writer.old) (W.holds writer.new)
        (report_text (report_of bundle)) }
    ensures unread { result ≢ Err EngineFail.ReadFault }
    ensures writer { LeavesWriter W.failures result writer.old writer.new }
{
    let plan = Plan::new(alloc, bundle)?;
    match plan.write(writer) {
        Ok(()) => Ok(()),
        Err(_) => Err(EngineFail::WriteFault),
    }
}

/// Writes the answer to what was audited.
fn write_answer<W: Sink>(
    alloc: Global,
    writer: &mut W,
    audited: Audited,
) -> Result<Outcome, EngineFail>
    requires { HandsOutValid audited }
    ensures answer { (told : Option (List ℕ)) → IfSome told (λ bytes. IsAudited bytes audited)
        → IfOk result
        (λ outcome. WroteAnswer told outcome (W.holds writer.old) (W.holds writer.new)) }
    ensures front { (told : Option (List ℕ)) → IfSome told (λ bytes. IsAudited bytes audited)
        → OnErr result (WroteAnswerFront told (W.holds writer.old) (W.holds writer.new)) }
    ensures unread { result ≢ Err EngineFail.ReadFault }
    ensures writer { LeavesWriter W.failures result writer.old writer.new }
{
    match audited {
        Audited::Valid(bundle) => {
            write_serial(alloc, writer, bundle)?;
            Ok(Outcome::Yes)
        }
        Audited::No { line, fault } => {
            write_fault(alloc, writer, line, fault)?;
            Ok(Outcome::No)
        }
    }
}

/// Audits all that the reader gives, as `audit` does. A no is written as its line. For a yes the serial run of the
/// bundle is written and no verdict: of each committed transaction by rank a line of its number, its reads, and its
/// writes and increments, each by site and then in log order; then the final values by site and name. The reader is
/// read once, and no further than the first line with a fault.
///
/// ReadFault where the reader failed, or no read is left, and Memory where a growth was refused: nothing was written.
/// WriteFault where the writer failed: a front of the answer may have been written.
pub fn serial<R: Source, W: Sink>(
    alloc: Global,
    reader: &mut R,
    writer: &mut W,
) -> Result<Outcome, EngineFail>
    ensures answer { IfOk result
        (λ outcome. WroteAnswer (R.tells reader.old) outcome (W.holds writer.old)
        (W.holds writer.new)) }
    ensures no_further { IfOk result (λ outcome. IfSome (R.tells reader.old) (λ bytes.
        ReadsNoFurther bytes (R.asked reader.new - R.asked reader.old))) }
    ensures none_behind { IfOk result (λ _. IfSome (R.tells reader.old) (λ bytes. IfSome (R.tells reader.new)
        (λ left. BeginsNoneBehind bytes (length left) (R.last reader.new)))) }
    ensures front { OnErr result
        (WroteAnswerFront (R.tells reader.old) (W.holds writer.old) (W.holds writer.new)) }

    // A fault tells of its device, and no fault of a device is passed over.
    ensures reader { LeavesReader R.tells R.failures R.asked result reader.old reader.new }
    ensures writer { LeavesWriter W.failures result writer.old writer.new }
{
    let audited = audit_bundle(alloc, reader)?;
    write_answer(alloc, writer, audited)
}
