//! The auditor's verdict on a text in memory.

ghost use Rattle.std.specs.Prelude.{IfOk};
ghost use Rattle.sgt_audit.specs.Verdict.{IsVerdict, SaysHeadline};

use sgt_audit::{Verdict, audit_bytes};
use sgt_names::{EngineFail, MOST_READS};
use std::alloc::{AllocError, Global};

/// The auditor's verdict on a text. It errs where memory ran out; and so it says of a text of `MOST_READS` bytes and
/// more, where the auditor's contract alone doesn't shut out that there would be too many reads.
pub fn verdict_on(alloc: Global, text: &[u8]) -> Result<Verdict, AllocError>
    ensures judged { IfOk result (IsVerdict text.now) }
    ensures headline { IfOk result (SaysHeadline text.now) }
{
    let few = text.len() < MOST_READS as usize;
    match audit_bytes(alloc, text) {
        Ok(verdict) => Ok(verdict),
        Err(EngineFail::Memory) => Err(AllocError),
        Err(EngineFail::WriteFault) => unreachable!(),
        Err(EngineFail::ReadFault) => {
            if few {
                unreachable!();
            }
            Err(AllocError)
        }
    }
}
