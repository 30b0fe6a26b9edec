//! A text with a certificate put in.

ghost use Rattle.std.specs.Prelude.{◌≡◌, ◌∷◌, ◌++◌, ℕ, false, List, IfOk, IfErr, IfSome, IfNone, IsTrue};
ghost use Rattle.sgt_notation.specs.Spelling.{HasNoLf};
ghost use Rattle.sgt_bundle.specs.Text.{certificate_text};
ghost use Rattle.sgt_certify.specs.Answer.{IsCertified, SpellsValid};
ghost use Rattle.sgt_certify_logs.specs.Certifiable.{IsWithLine};

use sgt_audit::{Verdict, audit_bytes};
use sgt_bundle::{Certificate, to_line};
use sgt_names::EngineFail;
use sgt_notation::split_line;
use std::alloc::{AllocError, Global};

/// Two lines, and what stands behind them.
fn assembled(alloc: Global, first: &[u8], second: &[u8], rest: &[u8]) -> Result<Vec<u8>, AllocError>
    ensures { IfOk result (λ text. text.items ≡ first.now ++ 10 ∷ (second.now ++ 10 ∷ rest.now)) }
{
    let lines = first.len().saturating_add(second.len());
    let all = lines.saturating_add(rest.len()).saturating_add(2);
    let mut text = Vec::with_capacity(alloc, all)?;
    text.extend_from_slice(first)?;
    text.extend_from_slice(b"\n")?;
    text.extend_from_slice(second)?;
    text.extend_from_slice(b"\n")?;
    text.extend_from_slice(rest)?;
    Ok(text)
}

/// The text with this line put in behind its first one, if it has one.
pub fn with_line(alloc: Global, text: &[u8], line: &[u8]) -> Result<Option<Vec<u8>>, AllocError>
    requires { HasNoLf line.now }
    ensures made { IfOk result
        (λ found. IfSome found (λ made. IsWithLine text.now line.now made.items)) }
    ensures none { IfOk result (λ found. IfNone found (HasNoLf text.now)) }
{
    let Some((first, rest)) = split_line(text) else {
        return Ok(None);
    };
    let made = assembled(alloc, first, line, rest)?;
    Ok(Some(made))
}

/// The text with the certificate's line put in behind its first one, or the text again, if it has no line. What it is
/// made of is given back.
fn with_certificate(
    alloc: Global,
    text: Vec<u8>,
    certificate: Certificate,
) -> Result<Result<Vec<u8>, Vec<u8>>, AllocError>
    ensures made { IfOk result
        (λ made. IfOk made (λ m. IsWithLine text.items (certificate_text certificate) m.items)) }
    ensures again { IfOk result (λ made. IfErr made (λ t. t.items ≡ text.items)) }
{
    let line = to_line(alloc, &certificate)?;
    drop(certificate);
    match with_line(alloc, text.as_slice(), line.as_slice())? {
        Some(made) => Ok(Ok(made)),
        None => Ok(Err(text)),
    }
}

/// Whether the auditor finds that the text spells a valid bundle.
fn is_valid(alloc: Global, text: &[u8]) -> Result<bool, EngineFail>
    ensures yes { IfOk result (λ yes. IsTrue yes → SpellsValid text.now) }
    ensures no { IfOk result (λ yes. yes ≡ false → SpellsValid text.now → ⊥) }
    ensures err { IfErr result (λ e. e ≡ EngineFail.Memory) }
{
    match audit_bytes(alloc, text) {
        Ok(Verdict::Yes { .. }) => Ok(true),
        Ok(Verdict::No { .. }) => Ok(false),
        Err(_) => Err(EngineFail::Memory),
    }
}

/// The bytes without their second line, if they have two.
fn without_line(alloc: Global, made: &[u8]) -> Result<Option<Vec<u8>>, AllocError>
    ensures some { IfOk result
        (λ found. IfSome found
        (λ t. (bytes line : List ℕ) → IsWithLine bytes line made.now → t.items ≡ bytes)) }
    ensures none { IfOk result
        (λ found. IfNone found ((bytes line : List ℕ) → IsWithLine bytes line made.now → ⊥)) }
{
    let Some((first, behind)) = split_line(made) else {
        return Ok(None);
    };
    let Some((_, rest)) = split_line(behind) else {
        return Ok(None);
    };
    let mut text = Vec::with_capacity(alloc, made.len())?;
    text.extend_from_slice(first)?;
    text.extend_from_slice(b"\n")?;
    text.extend_from_slice(rest)?;
    Ok(Some(text))
}

/// The text with the certificate put in, where that spells a valid bundle; else the text again.
pub fn certified(
    alloc: Global,
    text: Vec<u8>,
    certificate: Certificate,
) -> Result<Result<Vec<u8>, Vec<u8>>, EngineFail>
    ensures made { IfOk result (λ made. IfOk made (λ m. IsCertified text.items m.items)) }
    ensures again { IfOk result (λ made. IfErr made (λ t. t.items ≡ text.items)) }
    ensures err { IfErr result (λ e. e ≡ EngineFail.Memory) }
{
    let made = match with_certificate(alloc, text, certificate)? {
        Ok(made) => made,
        Err(text) => return Ok(Err(text)),
    };
    let yes = is_valid(alloc, made.as_slice())?;
    if yes {
        return Ok(Ok(made));
    }
    match without_line(alloc, made.as_slice())? {
        Some(text) => Ok(Err(text)),
        None => unreachable!(),
    }
}
