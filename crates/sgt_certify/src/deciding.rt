//! The answer to a text of sound logs, by a search that always finds one.

ghost use Rattle.std.specs.Prelude.{◌≡◌, ◌<◌, ◌≤◌, ◌++◌, ℕ, List, length, IfOk, IfErr};
ghost use Rattle.sgt_bundle.specs.Valid.{IsValid};
ghost use Rattle.sgt_bundle.specs.declared.bundle.SiteLog.{SiteLog};
ghost use Rattle.std.specs.List.{flat_map};
ghost use Rattle.sgt_certify.specs.Answer.{IsCertified, IsCertifiedBy, IsAnswer, refusal_text};
ghost use Rattle.sgt_certify.specs.Lines.{tx_line};
ghost use Rattle.sgt_certify.specs.Reasons.{IsDecidedAnswer};
ghost use Rattle.sgt_certify_faults.specs.Faults.{IsFaultless};
ghost use Rattle.sgt_certify_logs.specs.Certifiable.{SpellsLogs};
ghost use Rattle.sgt_certify_logs.specs.Sound.{AreSound, SpellsSoundLogs};

use crate::making::with_line;
use crate::refuting::{Refusal, joined, line_of, logs_of};
use crate::telling::tx_lines;
use sgt_bundle::{Bundle, Certificate, to_line};
use sgt_certify_greedy::{Answer as Decided, decide};
use sgt_names::{EngineFail, MAX_SITES, Outcome, Tx};
use std::alloc::{AllocError, Global};

/// An outcome, and what is to be written.
#[derive(Drop)]
pub struct Answer {
    pub outcome: Outcome,
    pub text: Vec<u8>,
}

/// The logs that the text spells, whatever their number.
fn all_logs(alloc: Global, text: &[u8]) -> Result<Bundle, EngineFail>
    requires { (logs : List SiteLog) × SpellsLogs text.now logs }
    ensures logs { IfOk result (λ b. SpellsLogs text.now b.sites) }
    ensures err { IfErr result (λ e. e ≡ EngineFail.Memory) }
{
    let mut count: u8 = 1;
    'counts: while count <= MAX_SITES {
        if let Some(bundle) = logs_of(alloc, text, count)? {
            return Ok(bundle);
        }
        count += 1;
    }
    unreachable!()
}

/// The yes by a certificate that makes the logs of the text valid.
fn certificate_answer(
    alloc: Global,
    text: &[u8],
    certificate: &Certificate,
) -> Result<Answer, AllocError>
    requires { IsCertifiedBy text.now certificate.now }
    ensures { IfOk result
        (λ a. (a.outcome ≡ Outcome.Yes) × IsCertified text.now a.text.items) }
{
    let line = to_line(alloc, certificate)?;
    let found = with_line(alloc, text, line.as_slice())?;
    match found {
        Some(text) => Ok(Answer {
            outcome: Outcome::Yes,
            text,
        }),
        None => unreachable!(),
    }
}

/// The no by what the logs have, told by these transactions.
fn reason_answer(alloc: Global, refusal: Refusal, txs: &[Tx]) -> Result<Answer, AllocError>
    ensures { IfOk result (λ a. (a.outcome ≡ Outcome.No)
        × (a.text.items ≡ refusal_text refusal ++ flat_map tx_line txs.now)) }
{
    let lines = tx_lines(alloc, txs)?;
    let text = joined(alloc, line_of(refusal), lines.as_slice())?;
    Ok(Answer {
        outcome: Outcome::No,
        text,
    })
}

/// The answer to a text without a fault, and so of sound logs: a certificate wherever there is one, else what shows
/// that there is none.
pub fn sound_answer(alloc: Global, text: &[u8]) -> Result<Answer, EngineFail>
    requires faultless { IsFaultless text.now }
    requires sound { SpellsSoundLogs text.now }
    ensures answer { IfOk result (λ a. IsAnswer text.now a.outcome a.text.items) }
    ensures decided { IfOk result (λ a. IsDecidedAnswer text.now a.outcome a.text.items) }
    ensures err { IfErr result (λ e. e ≡ EngineFail.Memory) }
{
    let bundle = all_logs(alloc, text)?;
    let logs = bundle.sites();
    let found = decide(alloc, logs)?;
    match found {
        Decided::Certificate(certificate) => Ok(certificate_answer(alloc, text, &certificate)?),
        Decided::Order(cycle) => Ok(reason_answer(alloc, Refusal::Order, cycle.as_slice())?),
        Decided::Ranks(cycle) => Ok(reason_answer(alloc, Refusal::Ranks, cycle.as_slice())?),
        Decided::Stuck(set) => Ok(reason_answer(alloc, Refusal::Walk, set.as_slice())?),
    }
}
