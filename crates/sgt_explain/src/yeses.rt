//! What is said of a yes, and of one transaction.

ghost use Rattle.std.specs.Prelude.{◌≡◌, ◌↔◌, ℕ, List, IfOk, IsTrue, OnOk, string_bytes};
ghost use Rattle.sgt_audit.specs.Verdict.{IsVerdict};
ghost use Rattle.sgt_bundle.specs.declared.certificate.Certificate.{Certificate};
ghost use Rattle.sgt_explain_decisions.specs.Fate.{TellsFate};
ghost use Rattle.sgt_explain.specs.Asked.{HasDecision, HasTransaction, HoldsCertificate, IsSeenText, TellsRefused, TellsTransaction, TellsYes, seen_before};

use crate::asked::Asked;
use crate::shown::{certificate_of, text_before};
use sgt_audit::Verdict;
use sgt_bundle::Decision;
use sgt_explain_decisions::{push_fate, push_first_refusals, push_refusals};
use sgt_explain_transaction::push_dealings;
use sgt_names::Tx;
use std::alloc::{AllocError, Global};

/// The refused transactions with their cycles: the first hundred, or all, or none where a transaction is asked for.
fn push_cycles(
    alloc: Global,
    out: &mut String,
    bytes: &[u8],
    decisions: &[Decision],
    asked: Asked,
) -> Result<(), AllocError>
    ensures { OnOk result (TellsRefused asked decisions.now bytes.now (string_bytes out.old) (string_bytes out.new)) }
{
    match asked {
        Asked::First => push_first_refusals(alloc, out, decisions, bytes),
        Asked::All => push_refusals(alloc, out, decisions, bytes),
        Asked::Transaction(_) => Ok(()),
    }
}

/// Those of a bundle.
fn push_refused(
    alloc: Global,
    out: &mut String,
    bytes: &[u8],
    asked: Asked,
) -> Result<(), AllocError>
    ensures { OnOk result ((c : Certificate) → HoldsCertificate bytes.now c
        → TellsRefused asked c.decisions bytes.now (string_bytes out.old) (string_bytes out.new)) }
{
    match certificate_of(alloc, bytes)? {
        Some(certificate) => push_cycles(alloc, out, bytes, certificate.decisions(), asked),
        None => Ok(()),
    }
}

/// Those of a valid bundle, which has so many.
pub(crate) fn push_yes(
    alloc: Global,
    out: &mut String,
    bytes: &[u8],
    refused: u64,
    asked: Asked,
) -> Result<(), AllocError>
    ensures { OnOk result (TellsYes bytes.now asked refused (string_bytes out.old) (string_bytes out.new)) }
{
    if refused == 0 {
        return Ok(());
    }
    match asked {
        Asked::Transaction(_) => Ok(()),
        Asked::First | Asked::All => push_refused(alloc, out, bytes, asked),
    }
}

/// The line behind the last that may be shown of a transaction: all lines of a valid bundle, else those before the
/// first fault.
fn end_of(verdict: Verdict) -> u64
    ensures { result ≡ seen_before verdict }
{
    match verdict {
        Verdict::Yes { .. } => u64::MAX,
        Verdict::No { line, .. } => line,
    }
}

/// The text in which entries are looked for: the lines before the first fault, and all of a valid bundle.
fn seen_text(bytes: &[u8], verdict: Verdict) -> &[u8]
    ensures { IsSeenText bytes.now verdict result.now }
{
    match verdict {
        Verdict::Yes { .. } => bytes,
        Verdict::No { line, .. } => text_before(bytes, line),
    }
}

/// What is said where there is no certificate: line 2 isn't read where line 1 has the fault.
fn no_certificate(verdict: Verdict) -> &'static str {
    match verdict {
        Verdict::No { line: 1, .. } => "line 2 wasn't read\n",
        _ => "line 2 is no certificate\n",
    }
}

/// The decision on one transaction, if line 2 is a certificate. Ok: whether there is one.
fn push_decided(
    alloc: Global,
    out: &mut String,
    bytes: &[u8],
    verdict: Verdict,
    tx: Tx,
) -> Result<bool, AllocError>
    ensures told { OnOk result ((c : Certificate) → HoldsCertificate bytes.now c
        → (seen : List ℕ) × IsSeenText bytes.now verdict seen
        × TellsFate c.decisions seen tx (string_bytes out.old) (string_bytes out.new)) }
    ensures decided { IfOk result (λ decided. IsTrue decided ↔ HasDecision bytes.now tx) }
{
    let seen = seen_text(bytes, verdict);
    match certificate_of(alloc, bytes)? {
        Some(certificate) => push_fate(alloc, out, certificate.decisions(), seen, tx),
        None => {
            out.push_str(no_certificate(verdict))?;
            Ok(false)
        }
    }
}

/// What is said of one transaction. Ok: whether the text has it.
pub(crate) fn push_transaction(
    alloc: Global,
    out: &mut String,
    bytes: &[u8],
    verdict: Verdict,
    tx: Tx,
) -> Result<bool, AllocError>
    ensures told { OnOk result
        (TellsTransaction bytes.now verdict tx (string_bytes out.old) (string_bytes out.new)) }
    ensures found { IfOk result (λ found. IsVerdict bytes.now verdict
        → IsTrue found ↔ HasTransaction bytes.now verdict tx) }
{
    let end = end_of(verdict);
    let is_decided = push_decided(alloc, out, bytes, verdict, tx)?;
    let has_entry = push_dealings(alloc, out, bytes, end, tx)?;
    Ok(is_decided || has_entry)
}
