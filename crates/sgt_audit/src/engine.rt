//! The audit of all that a reader gives.

ghost use Rattle.std.specs.Prelude.{◌≢◌, ◌-◌, ◌<◌, ◌≤◌, ◌⊎◌, Err, length, IfOk, OnErr, IfSome, IsErrOf};
ghost use Rattle.std.specs.Io.KnownBytes.{Appends};
ghost use Rattle.sgt_names.specs.Limits.{most_reads};
ghost use Rattle.sgt_devices.specs.Devices.{LeavesReader, LeavesWriter};
ghost use Rattle.sgt_audit.specs.Faults.{BeginsNoneBehind, ReadsNoFurther};
ghost use Rattle.sgt_audit.specs.Verdict.{IsVerdict, IsAudited, HandsOutValid, SaysHeadline, WroteFront, text_of};

use crate::faults::Fault;
use crate::kept::Kept;
use crate::reading::judge;
use crate::verdict::{Verdict, verdict_on};
use sgt_compact::CompactBundle;
use sgt_names::{Asks, Bytes, EngineFail, Nowhere, Sink, Source, write_all};
use std::alloc::Global;

/// What a text was found to spell.
#[derive(Drop)]
pub enum Audited {
    /// This valid bundle.
    Valid(CompactBundle),
    /// No valid bundle: it has a fault, at this line first. Lines are counted from 1.
    No { line: u64, fault: Fault },
}

/// Audits all that the reader gives, and hands out the bundle itself. The reader is read once, and no further than the
/// first line with a fault.
///
/// An Err is ReadFault, where a read failed or too many were needed (`MOST_READS` of sgt_names), or Memory. How far was
/// read then is not promised.
pub fn audit_bundle<R: Source>(alloc: Global, reader: &mut R) -> Result<Audited, EngineFail>
    ensures audited { IfOk result (λ a. IfSome (R.tells reader.old) (λ bytes. IsAudited bytes a)) }
    ensures valid { IfOk result HandsOutValid }
    ensures no_further { IfOk result (λ a. IfSome (R.tells reader.old) (λ bytes.
        ReadsNoFurther bytes (R.asked reader.new - R.asked reader.old))) }
    ensures none_behind { IfOk result (λ _. IfSome (R.tells reader.old) (λ bytes. IfSome (R.tells reader.new)
        (λ left. BeginsNoneBehind bytes (length left) (R.last reader.new)))) }
    ensures reader { LeavesReader R.tells R.failures R.asked result reader.old reader.new }
    ensures write_fault { result ≢ Err EngineFail.WriteFault }
{
    match judge(alloc, true, reader) {
        Ok(Ok(kept)) => {
            let Kept {
                certificate,
                sections,
                ..
            } = kept;
            let Some(sections) = sections else {
                unreachable!()
            };
            let logs = sections.into_logs();
            let certificate = certificate.into_certificate();
            Ok(Audited::Valid(CompactBundle::new(certificate, logs)))
        }
        Ok(Err(first)) => Ok(Audited::No {
            line: first.line,
            fault: first.fault,
        }),
        Err(e) => Err(e),
    }
}

/// Audits all that the reader gives, and writes the line of the verdict and nothing else. Once a line with a fault was
/// read whole, no further read is made.
///
/// Where it answers yes to a stream of bytes, the stream spells site logs and a certificate such that running the
/// committed transactions alone, one after another by rank, gives every read value and final value recorded for them,
/// conflicting operations stand in rank order at every site, and each refused transaction lies on a cycle of logged
/// conflicts with transactions certified before it.
///
/// An Err is ReadFault, where a read failed or too many were needed (`MOST_READS` of sgt_names), or Memory: nothing was
/// written then. Or it is WriteFault, where a write failed: at most a front of the line was written, and not the
/// whole of it.
pub fn audit<R: Source, W: Sink>(
    alloc: Global,
    reader: &mut R,
    writer: &mut W,
) -> Result<Verdict, EngineFail>
    ensures verdict { IfOk result (λ v. IfSome (R.tells reader.old) (λ bytes. IsVerdict bytes v)) }
    ensures headline { IfOk result
        (λ v. IfSome (R.tells reader.old) (λ bytes. SaysHeadline bytes v)) }
    ensures no_further { IfOk result (λ v. IfSome (R.tells reader.old) (λ bytes.
        ReadsNoFurther bytes (R.asked reader.new - R.asked reader.old))) }
    ensures none_behind { IfOk result (λ _. IfSome (R.tells reader.old) (λ bytes. IfSome (R.tells reader.new)
        (λ left. BeginsNoneBehind bytes (length left) (R.last reader.new)))) }
    ensures written { IfOk result
        (λ v. Appends (W.holds writer.old) (W.holds writer.new) (text_of v)) }
    ensures front { OnErr result
        (WroteFront (R.tells reader.old) (W.holds writer.old) (W.holds writer.new)) }
    ensures reader { LeavesReader R.tells R.failures R.asked result reader.old reader.new }
    ensures writer { LeavesWriter W.failures result writer.old writer.new }
{
    let verdict = match judge(alloc, false, reader) {
        Ok(judged) => verdict_on(judged),
        Err(e) => return Err(e),
    };
    let Ok(line) = verdict.to_line(alloc) else {
        return Err(EngineFail::Memory);
    };
    if write_all(writer, line.as_bytes()).is_err() {
        return Err(EngineFail::WriteFault);
    }
    Ok(verdict)
}

/// The verdict of `audit` on bytes that are held. An Err is ReadFault, where that takes too many reads, or Memory.
pub fn audit_bytes(alloc: Global, bytes: &[u8]) -> Result<Verdict, EngineFail>
    ensures verdict { IfOk result (IsVerdict bytes.now) }
    ensures headline { IfOk result (SaysHeadline bytes.now) }
    ensures read_fault { IsErrOf result EngineFail.ReadFault → most_reads ≤ length bytes.now }
    ensures write_fault { result ≢ Err EngineFail.WriteFault }
{
    let mut reader = Bytes {
        rest: bytes,
        asks: Asks::none(),
        last: 0,
    };
    match audit(alloc, &mut reader, &mut Nowhere) {
        Ok(verdict) => Ok(verdict),
        Err(EngineFail::Memory) => Err(EngineFail::Memory),
        Err(EngineFail::ReadFault) => Err(EngineFail::ReadFault),
        Err(EngineFail::WriteFault) => unreachable!(),
    }
}
