//! What is drawn of bytes in memory: of logs, and of the front of a bundle's text.

ghost use Rattle.std.specs.Prelude.{IfSome, ◌≡◌, ◌≢◌, ◌≤◌, ◌↔◌, ℕ, List, Option, Some, Err, IfErr, IfOk, length};
ghost use Rattle.sgt_names.specs.Limits.{most_reads};
ghost use Rattle.sgt_bundle.specs.Text.{Spells};
ghost use Rattle.sgt_bundle.specs.Valid.{IsValid};
ghost use Rattle.sgt_certify.specs.Answer.{HasCertificate, IsAnswer, SpellsValid};
ghost use Rattle.sgt_audit.specs.Verdict.{IsVerdict, text_of};
ghost use Rattle.sgt_explain.specs.Explained.{IsVerdictOn};
ghost use Rattle.sgt_explain_logs.specs.Taken.{AreReadOf};
ghost use Rattle.sgt_draw.specs.Drawn.{IsDrawn};
ghost use Rattle.sgt_draw_logs.specs.Drawing.{IsLogsDrawing, IsRefusalShown, IsShown};

use sgt_audit::{Verdict, read_bundle};
use sgt_bundle::Bundle;
use sgt_draw::{Answer, Wanted, picture};
use sgt_explain::Front;
use sgt_explain_logs::{Logs, answer_of};
use sgt_history_picture::refusal_picture_of;
use sgt_names::{EngineFail, Outcome};
use std::alloc::{AllocError, Global};

/// The bundle that a text spells.
fn bundle_in(alloc: Global, text: &[u8]) -> Result<Bundle, EngineFail>
    requires { SpellsValid text.now }
    ensures spelled { IfOk result (λ b. Spells text.now b) }
    ensures valid { IfOk result (λ b. IsValid b) }
    ensures err { IfErr result (λ e. e ≡ EngineFail.Memory) }
{
    let found = read_bundle(alloc, text)?;
    match found {
        Some(bundle) => Ok(bundle),
        None => unreachable!(),
    }
}

/// The picture of the bundle that a text spells.
fn bundle_picture(alloc: Global, wanted: Wanted, text: &[u8]) -> Result<Vec<u8>, EngineFail>
    requires { SpellsValid text.now }
    ensures drawn { IfOk result (λ drawn. IsDrawn wanted (Some text.now) Outcome.Yes drawn.items) }
    ensures err { IfErr result (λ e. e ≡ EngineFail.Memory) }
{
    let bundle = bundle_in(alloc, text)?;
    Ok(picture(alloc, wanted, &bundle)?)
}

/// The cycle that a refusal tells, drawn; of any other the refusal itself.
fn refusal_shown(alloc: Global, is_dot: bool, refusal: &[u8]) -> Result<Vec<u8>, AllocError>
    ensures { IfOk result (λ text. IsRefusalShown is_dot refusal.now text.items) }
{
    let found = refusal_picture_of(alloc, is_dot, refusal)?;
    match found {
        Some(drawn) => Ok(drawn),
        None => Vec::from_slice(alloc, refusal),
    }
}

/// What is written of an answer of `certify`.
fn shown(
    alloc: Global,
    wanted: Wanted,
    outcome: Outcome,
    text: &[u8],
) -> Result<Vec<u8>, EngineFail>
    requires { (bytes : List ℕ) × IsAnswer bytes outcome text.now }
    ensures shown { IfOk result (λ drawn. IsShown wanted outcome text.now drawn.items) }
    ensures err { IfErr result (λ e. e ≡ EngineFail.Memory) }
{
    match outcome {
        Outcome::Yes => bundle_picture(alloc, wanted, text),
        Outcome::No => Ok(refusal_shown(alloc, wanted.is_dot, text)?),
        Outcome::Unreadable => unreachable!(),
    }
}

/// The answer to logs without a certificate.
pub(crate) fn logs_answer(alloc: Global, wanted: Wanted, logs: &Logs) -> Result<Answer, EngineFail>
    requires { AreReadOf logs.now.text.items logs.now }
    ensures answer { (told : Option (List ℕ)) → IfSome told (λ bytes. AreReadOf bytes logs.now)
        → IfOk result (λ a. IsLogsDrawing wanted told a.outcome a.text.items) }
    ensures exact { (bytes : List ℕ) → AreReadOf bytes logs.now
        → IfOk result (λ a. a.outcome ≡ Outcome.Yes ↔ HasCertificate bytes) }
    ensures long { result ≡ Err EngineFail.ReadFault → most_reads ≤ length logs.now.text.items }
    ensures write { result ≢ Err EngineFail.WriteFault }
{
    let found = answer_of(alloc, logs)?;
    let text = shown(alloc, wanted, found.outcome, found.text.as_slice())?;
    Ok(Answer {
        outcome: found.outcome,
        text,
    })
}

/// The line of a verdict.
fn line_of(alloc: Global, verdict: Verdict) -> Result<Vec<u8>, AllocError>
    ensures { IfOk result (λ line. line.items ≡ text_of verdict) }
{
    let line = verdict.to_line(alloc)?;
    Vec::from_slice(alloc, line.as_bytes())
}

/// The answer to a bundle, by the front that its verdict is told of.
pub(crate) fn bundle_answer(
    alloc: Global,
    wanted: Wanted,
    front: &Front,
) -> Result<Answer, EngineFail>
    requires { IsVerdict front.now.text.items front.now.verdict }
    ensures answer { IfOk result (λ a. (told : Option (List ℕ))
        → IsVerdictOn told front.now.verdict front.now.text.items → IsDrawn wanted told a.outcome a.text.items) }
    ensures err { IfErr result (λ e. e ≡ EngineFail.Memory) }
{
    match front.verdict {
        Verdict::Yes { .. } => Ok(Answer {
            outcome: Outcome::Yes,
            text: bundle_picture(alloc, wanted, front.text.as_slice())?,
        }),
        Verdict::No { .. } => Ok(Answer {
            outcome: Outcome::No,
            text: line_of(alloc, front.verdict)?,
        }),
    }
}
