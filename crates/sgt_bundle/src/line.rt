//! The line of a certificate, written and read.

ghost use Rattle.std.specs.Prelude.{◌≡◌, ◌≢◌, ◌++◌, IfOk, IfErr, IfSome, OnOk, MatchResult, ◌⊎◌, All, codes, decimal, false};
ghost use Rattle.serde_json.specs.View.{view};
ghost use Rattle.serde_json.specs.Written.{compact_text, items_text};
ghost use Rattle.sgt_bundle.specs.Text.{certificate_text, decision_data, kind_name, step_data, items_data};
ghost use Rattle.sgt_bundle.specs.Text.{IsCertificate, IsDecision, IsStep};
ghost use Rattle.sgt_names.specs.Limits.{max_sites};
ghost use Rattle.sgt_notation.specs.Spelling.{HasNoLf};
ghost use Rattle.sgt_bundle.specs.Line.{Refuses};
ghost use Rattle.sgt_bundle.specs.Private.{answer_of, Answers};
ghost use Rattle.sgt_bundle.specs.declared.certificate.Certificate.{Certificate};
ghost use Rattle.sgt_bundle.specs.declared.fault.CertFault.{CertFault};

use crate::certificate::{Certificate, Decision, Step};
use crate::convert::certificate;
use crate::direct::spelled;
use crate::fault::CertFault;
use crate::fits::decisions_fit;
use crate::shape::has_shape;
use crate::tokens;
use itoa::write_digits;
use serde_json::Value;
use sgt_names::Kind;
use sgt_notation::{LINE_ROOM, push_number, put_byte, put_bytes};
use std::alloc::{AllocError, Global};

fn push_member(out: &mut Vec<u8>, before: &[u8], n: u64) -> Result<(), AllocError>
    ensures { OnOk result (out.new.items ≡ out.old.items ++ (before.now ++ decimal n)) }
{
    out.extend_from_slice(before)?;
    push_number(out, n)
}

fn kind_text(kind: Kind) -> &'static [u8]
    ensures { result.now ≡ kind_name kind }
{
    match kind {
        Kind::Wr => b"wr",
        Kind::Rw => b"rw",
        Kind::Ww => b"ww",
    }
}

fn push_text(out: &mut Vec<u8>, before: &[u8], text: &[u8]) -> Result<(), AllocError>
    ensures { OnOk result (out.new.items ≡ out.old.items ++ (before.now ++ text.now)) }
{
    out.extend_from_slice(before)?;
    out.extend_from_slice(text)
}

fn push_step_parts(
    out: &mut Vec<u8>,
    item: &[u8],
    kind: &[u8],
    site: u64,
    to: u64,
) -> Result<(), AllocError>
    ensures { OnOk result (out.new.items ≡ out.old.items
        ++ (codes "{\"item\":\"" ++ (item.now ++ (codes "\",\"kind\":\"" ++ (kind.now ++ (codes "\",\"site\":"
        ++ (decimal site ++ (codes ",\"to\":" ++ (decimal to ++ codes "}"))))))))) }
{
    push_text(out, b"{\"item\":\"", item)?;
    push_text(out, b"\",\"kind\":\"", kind)?;
    push_member(out, b"\",\"site\":", site)?;
    push_member(out, b",\"to\":", to)?;
    out.extend_from_slice(b"}")
}

fn push_step(out: &mut Vec<u8>, step: &Step) -> Result<(), AllocError>
    ensures text { OnOk result
        (out.new.items ≡ out.old.items ++ compact_text (step_data step.now)) }
    ensures in_range { IsStep max_sites step.now }
{
    let label = step.label;
    push_step_parts(
        out,
        label.item.as_bytes(),
        kind_text(label.kind),
        label.site.number() as u64,
        step.to.number() as u64,
    )
}

/// The steps with commas between, and the closing bracket.
fn push_steps(out: &mut Vec<u8>, walk: &[Step]) -> Result<(), AllocError>
    ensures text { OnOk result
        (out.new.items ≡ out.old.items ++ items_text false (items_data step_data walk.now)) }
    ensures in_range { OnOk result (All (IsStep max_sites) walk.now) }
{
    if let Some((first, further)) = walk.split_first() {
        push_step(out, first)?;
        for step in further {
            out.extend_from_slice(b",")?;
            push_step(out, step)?;
        }
    }
    out.extend_from_slice(b"]")
}

// A commit is most of a certificate, so it is put together from its end and copied at once.
fn push_commit(out: &mut Vec<u8>, tx: u64, rank: u64) -> Result<(), AllocError>
    ensures { OnOk result (out.new.items
        ≡ out.old.items ++ (codes "{\"commit\":" ++ (decimal tx ++ (codes ",\"rank\":" ++ (decimal rank ++ codes "}"))))) }
{
    let mut text = [0u8; LINE_ROOM];
    let at = put_byte(&mut text, LINE_ROOM, b'}');
    let at = write_digits(rank, &mut text, at);
    let at = put_bytes(&mut text, at, b",\"rank\":");
    let at = write_digits(tx, &mut text, at);
    let at = put_bytes(&mut text, at, b"{\"commit\":");
    out.extend_from_slice(&text[at..])
}

fn push_refuse(out: &mut Vec<u8>, tx: u64, walk: &[Step]) -> Result<(), AllocError>
    ensures text { OnOk result (out.new.items
        ≡ out.old.items ++ (codes "{\"refuse\":" ++ (decimal tx
        ++ (codes ",\"walk\":[" ++ (items_text false (items_data step_data walk.now) ++ codes "}"))))) }
    ensures in_range { OnOk result (All (IsStep max_sites) walk.now) }
{
    push_member(out, b"{\"refuse\":", tx)?;
    out.extend_from_slice(b",\"walk\":[")?;
    push_steps(out, walk)?;
    out.extend_from_slice(b"}")
}

fn push_withdraw(out: &mut Vec<u8>, tx: u64) -> Result<(), AllocError>
    ensures { OnOk result (out.new.items ≡ out.old.items ++ (codes "{\"withdraw\":" ++ (decimal tx ++ codes "}"))) }
{
    push_member(out, b"{\"withdraw\":", tx)?;
    out.extend_from_slice(b"}")
}

fn push_decision(out: &mut Vec<u8>, decision: &Decision) -> Result<(), AllocError>
    ensures text { OnOk result
        (out.new.items ≡ out.old.items ++ compact_text (decision_data decision.now)) }
    ensures in_range { OnOk result (IsDecision max_sites decision.now) }
{
    match decision {
        Decision::Commit { tx, rank } => push_commit(out, tx.number() as u64, *rank as u64),
        Decision::Refuse { tx, walk } => push_refuse(out, tx.number() as u64, walk.as_slice()),
        Decision::Withdraw { tx } => push_withdraw(out, tx.number() as u64),
    }
}

/// The decisions with commas between, and the closing bracket.
fn push_decisions(out: &mut Vec<u8>, decisions: &[Decision]) -> Result<(), AllocError>
    ensures text { OnOk result
        (out.new.items
        ≡ out.old.items ++ items_text false (items_data decision_data decisions.now)) }
    ensures in_range { OnOk result (All (IsDecision max_sites) decisions.now) }
{
    if let Some((first, further)) = decisions.split_first() {
        push_decision(out, first)?;
        for decision in further {
            out.extend_from_slice(b",")?;
            push_decision(out, decision)?;
        }
    }
    out.extend_from_slice(b"]")
}

fn push_parts(out: &mut Vec<u8>, decisions: &[Decision], sites: u64) -> Result<(), AllocError>
    ensures text { OnOk result (out.new.items ≡ out.old.items
        ++ (codes "{\"decisions\":[" ++ (items_text false (items_data decision_data decisions.now)
        ++ (codes ",\"sites\":" ++ (decimal sites ++ codes "}"))))) }
    ensures in_range { OnOk result (All (IsDecision max_sites) decisions.now) }
{
    out.extend_from_slice(b"{\"decisions\":[")?;
    push_decisions(out, decisions)?;
    push_member(out, b",\"sites\":", sites)?;
    out.extend_from_slice(b"}")
}

/// Writes the one line that spells the certificate, without an LF. Err: memory ran out.
pub(crate) fn push_certificate(
    out: &mut Vec<u8>,
    certificate: &Certificate,
) -> Result<(), AllocError>
    ensures text { OnOk result
        (out.new.items ≡ out.old.items ++ certificate_text certificate.now) }
    ensures one_line { OnOk result (HasNoLf (certificate_text certificate.now)) }
    ensures in_range { OnOk result (All (IsDecision max_sites) certificate.now.decisions) }
{
    push_parts(out, certificate.decisions(), certificate.sites as u64)
}

/// The one line that spells the certificate, without an LF. Err: memory ran out.
///
/// Any certificate has such a line. Where its sites are not 1 to `MAX_SITES`, or a step is at none of them,
/// `from_line` refuses it.
pub fn to_line(alloc: Global, certificate: &Certificate) -> Result<Vec<u8>, AllocError>
    ensures text { IfOk result (λ line. line.items ≡ certificate_text certificate.now) }
    ensures one_line { IfOk result (λ line. HasNoLf line.items) }
    ensures in_range { IfOk result (λ _. All (IsDecision max_sites) certificate.now.decisions) }
{
    let mut line = Vec::new(alloc);
    push_certificate(&mut line, certificate)?;
    Ok(line)
}

/// The certificate in a value that was read from the line.
fn judge(alloc: Global, value: &Value, line: &[u8]) -> Result<Certificate, CertFault>
    ensures { Answers result (answer_of (view value.now) line.now) }
{
    if !has_shape(value) {
        return Err(CertFault::Shape);
    }
    let Some(found) = certificate(alloc, value)? else {
        return Err(CertFault::Range);
    };
    let text = to_line(alloc, &found)?;
    if text.as_slice() == line {
        Ok(found)
    } else {
        Err(CertFault::Range)
    }
}

/// The certificate that the line spells, where that is seen without a tree.
fn read_directly(alloc: Global, line: &[u8]) -> Result<Option<Certificate>, AllocError>
    ensures { IfOk result
        (λ found. IfSome found (λ c. IsCertificate c × (line.now ≡ certificate_text c))) }
{
    let Some(found) = spelled(alloc, line)? else {
        return Ok(None);
    };
    if decisions_fit(found.decisions(), found.sites) {
        Ok(Some(found))
    } else {
        Ok(None)
    }
}

/// What `from_line` answers, by the JSON value that is read from the line.
fn read_value(alloc: Global, line: &[u8]) -> Result<Certificate, CertFault>
    ensures ok { IfOk result (λ c. IsCertificate c × (line.now ≡ certificate_text c)) }
    ensures only { (c : Certificate) → IsCertificate c → line.now ≡ certificate_text c
        → MatchResult result (λ found. found ≡ c) (λ e. e ≡ CertFault.Memory) }
    ensures refuses { IfErr result (Refuses line.now) }
    ensures each { (e : CertFault) → e ≢ CertFault.Memory → Refuses line.now e
        → MatchResult result (λ _. ⊥) (λ f. (f ≡ e) ⊎ (f ≡ CertFault.Memory)) }
{
    match Value::from_slice(alloc, line) {
        Ok(value) => judge(alloc, &value, line),
        Err(e) => {
            if e.is_memory() {
                Err(CertFault::Memory)
            } else {
                Err(CertFault::NotJson)
            }
        }
    }
}

/// What `from_line` answers, by the line's tokens where they show a fault, else by its value.
fn read_otherwise(alloc: Global, line: &[u8]) -> Result<Certificate, CertFault>
    ensures ok { IfOk result (λ c. IsCertificate c × (line.now ≡ certificate_text c)) }
    ensures only { (c : Certificate) → IsCertificate c → line.now ≡ certificate_text c
        → MatchResult result (λ found. found ≡ c) (λ e. e ≡ CertFault.Memory) }
    ensures refuses { IfErr result (Refuses line.now) }
    ensures each { (e : CertFault) → e ≢ CertFault.Memory → Refuses line.now e
        → MatchResult result (λ _. ⊥) (λ f. (f ≡ e) ⊎ (f ≡ CertFault.Memory)) }
{
    match tokens::fault(alloc, line) {
        Ok(Some(fault)) => Err(fault),
        Ok(None) => read_value(alloc, line),
        Err(_) => Err(CertFault::Memory),
    }
}

/// Reads the line of a certificate, which is given without its LF. Ok exactly for the text that `to_line` gives of a
/// certificate whose sites are 1 to `MAX_SITES`, with each step at one of them. Any other line is refused: with K1
/// where no JSON value is read from it, else with K2 where the value's members are not those of a certificate, else
/// with K3. K4 where memory ran out stands in place of any answer.
pub fn from_line(alloc: Global, line: &[u8]) -> Result<Certificate, CertFault>
    ensures ok { IfOk result (λ c. IsCertificate c × (line.now ≡ certificate_text c)) }
    ensures only { (c : Certificate) → IsCertificate c → line.now ≡ certificate_text c
        → MatchResult result (λ found. found ≡ c) (λ e. e ≡ CertFault.Memory) }
    ensures refuses { IfErr result (Refuses line.now) }
    ensures each { (e : CertFault) → e ≢ CertFault.Memory → Refuses line.now e
        → MatchResult result (λ _. ⊥) (λ f. (f ≡ e) ⊎ (f ≡ CertFault.Memory)) }
{
    match read_directly(alloc, line) {
        Ok(Some(certificate)) => Ok(certificate),
        Ok(None) => read_otherwise(alloc, line),
        Err(_) => Err(CertFault::Memory),
    }
}
