//! The export of the audit.

ghost use Rattle.std.specs.Prelude.{◌≡◌, ◌≤◌, Err, IfOk, length};
ghost use Rattle.sgt_names.specs.Limits.{most_reads};
ghost use Rattle.sgt_audit.specs.Verdict.{IsVerdict, SaysHeadline, HoldsHeadline};
ghost use Rattle.sgt_audit.specs.declared.verdict.Verdict.{Verdict};
ghost use Rattle.sgt_c.specs.declared.answers.NoAnswer.{NoAnswer};
ghost use Rattle.sgt_c.specs.Answers.{IsAnswered, IsLong, IsNumber, IsYes, told_none, told_verdict};

use crate::answers::{NoAnswer, SgtVerdict};
use crate::texts::no_answer;
use sgt_audit::{Verdict, audit_bytes};
use std::alloc::Global;

/// The auditor's verdict on the bytes.
fn verdict_on(alloc: Global, bytes: &[u8]) -> Result<Verdict, NoAnswer>
    ensures verdict { IfOk result (IsVerdict bytes.now) }
    ensures headline { IfOk result (SaysHeadline bytes.now) }
    ensures long { result ≡ Err NoAnswer.Long → most_reads ≤ length bytes.now }
{
    match audit_bytes(alloc, bytes) {
        Ok(verdict) => Ok(verdict),
        Err(fail) => Err(no_answer(fail)),
    }
}

/// Audits the bytes, and puts the verdict into `verdict`, all of whose fields are set. Returns its `kind`.
///
/// Where it answers yes, the bytes spell site logs and a certificate such that running the committed transactions
/// alone, one after another by rank, gives every read value and final value recorded for them, conflicting operations
/// stand in rank order at every site, and each refused transaction lies on a cycle of logged conflicts with
/// transactions certified before it.
#[unsafe(no_mangle)]
pub extern "C" fn sgt_audit(alloc: Global, bytes: &[u8], verdict: &mut SgtVerdict) -> u32
    ensures number { IsNumber result }
    ensures kind { verdict.new.kind ≡ result }
    ensures verdict { IsAnswered result
        → (v : Verdict) × IsVerdict bytes.now v × (verdict.new ≡ told_verdict v) }
    ensures headline { IsYes result → HoldsHeadline bytes.now }
    ensures none { (IsAnswered result → ⊥) → (why : NoAnswer) × (verdict.new ≡ told_none why) }
    ensures long { IsLong result → most_reads ≤ length bytes.now }
{
    *verdict = match verdict_on(alloc, bytes) {
        Ok(found) => SgtVerdict::from(found),
        Err(why) => SgtVerdict::from(why),
    };
    verdict.kind
}
