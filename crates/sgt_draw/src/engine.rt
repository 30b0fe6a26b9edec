//! The picture of all that a reader gives.

ghost use Rattle.std.specs.Prelude.{◌-◌, ◌<◌, ◌≤◌, ℕ, List, Option, Err, length, OnErr, IfOk, IfSome};
ghost use Rattle.sgt_devices.specs.Devices.{LeavesReader, LeavesWriter};
ghost use Rattle.sgt_audit.specs.Faults.{BeginsNoneBehind, ReadsNoFurther};
ghost use Rattle.sgt_audit.specs.Verdict.{IsAudited, HandsOutValid};
ghost use Rattle.sgt_draw.specs.Drawn.{IsDrawn, WroteDrawn, WroteDrawnFront};

use crate::task::{Wanted, picture};
use sgt_audit::{Audited, Verdict, audit_bundle};
use sgt_names::{EngineFail, Outcome, Sink, Source, write_all};
use std::alloc::{AllocError, Global};

/// An outcome, and what is to be written.
#[derive(Drop)]
pub struct Answer {
    pub outcome: Outcome,
    pub text: Vec<u8>,
}

/// The answer to what was audited: of a valid bundle its picture, else the line of its first fault.
pub fn answer_to(alloc: Global, wanted: Wanted, audited: Audited) -> Result<Answer, AllocError>
    requires { HandsOutValid audited }
    ensures { IfOk result
        (λ answer. (told : Option (List ℕ)) → IfSome told (λ bytes. IsAudited bytes audited)
        → IsDrawn wanted told answer.outcome answer.text.items) }
{
    match audited {
        Audited::Valid(bundle) => Ok(Answer {
            outcome: Outcome::Yes,
            text: picture(alloc, wanted, &bundle.into_bundle(alloc)?)?,
        }),
        Audited::No { line, fault } => {
            let verdict = Verdict::No { line, fault }.to_line(alloc)?;
            Ok(Answer {
                outcome: Outcome::No,
                text: Vec::from_slice(alloc, verdict.as_bytes())?,
            })
        }
    }
}

/// Audits all that the reader gives, as `audit` does. A no is written as its line, and nothing is drawn. For a yes
/// one picture is written: SVG without scripts and without other files, or Graphviz text. It shows the first 200
/// transactions by rank, as many refused and as many withdrawn ones, and a line says so where there are more. The
/// reader is read once, and no further than the first line with a fault. The bundle and the picture stand in memory.
///
/// ReadFault where the reader failed, or no read is left, and Memory where a growth was refused: nothing was written.
/// WriteFault where the writer failed: a front of the answer may have been written.
pub fn draw<R: Source, W: Sink>(
    alloc: Global,
    wanted: Wanted,
    reader: &mut R,
    writer: &mut W,
) -> Result<Outcome, EngineFail>
    ensures answer { IfOk result
        (λ outcome. WroteDrawn wanted (R.tells reader.old) outcome (W.holds writer.old)
        (W.holds writer.new)) }
    ensures no_further { IfOk result (λ outcome. IfSome (R.tells reader.old) (λ bytes.
        ReadsNoFurther bytes (R.asked reader.new - R.asked reader.old))) }
    ensures none_behind { IfOk result (λ _. IfSome (R.tells reader.old) (λ bytes. IfSome (R.tells reader.new)
        (λ left. BeginsNoneBehind bytes (length left) (R.last reader.new)))) }
    ensures front { OnErr result
        (WroteDrawnFront wanted (R.tells reader.old) (W.holds writer.old) (W.holds writer.new)) }

    // A fault tells of its device, and no fault of a device is passed over.
    ensures reader { LeavesReader R.tells R.failures R.asked result reader.old reader.new }
    ensures writer { LeavesWriter W.failures result writer.old writer.new }
{
    let audited = audit_bundle(alloc, reader)?;
    let answer = answer_to(alloc, wanted, audited)?;
    match write_all(writer, answer.text.as_slice()) {
        Ok(()) => Ok(answer.outcome),
        Err(_) => Err(EngineFail::WriteFault),
    }
}
