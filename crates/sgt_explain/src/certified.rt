//! What is told of a certificate that is wrong by itself, and of a line that it shows to be wrong.

ghost use Rattle.std.specs.Prelude.{OnOk, string_bytes};
ghost use Rattle.sgt_audit.specs.declared.faults.Fault.TheVariants.{Certificate, Ranks, DecidedTwice, WalkShape, End, DecisionOrder, NotEnded};
ghost use Rattle.sgt_audit.specs.declared.verdict.Verdict.TheVariants.{No};
ghost use Rattle.sgt_explain.specs.Explained.{Tells};

use crate::shown::{certificate_of, logged_at};
use sgt_explain_certificate::{push_certificate, push_ranks};
use sgt_explain_decisions::{
    placed_in, push_decided_twice, push_decision_order, push_end, push_not_ended, push_walk_shape,
};
use sgt_explain_lines::{section_before, text_at};
use std::alloc::{AllocError, Global};

/// F3: line 2 is no certificate.
pub fn tell_certificate(
    alloc: Global,
    out: &mut String,
    bytes: &[u8],
    number: u64,
) -> Result<(), AllocError>
    ensures { OnOk result
        (Tells bytes.now (No number Certificate) (string_bytes out.old) (string_bytes out.new)) }
{
    push_certificate(alloc, out, text_at(bytes, 2))
}

/// F4: the ranks are not 0 to n - 1, each once.
pub fn tell_ranks(
    alloc: Global,
    out: &mut String,
    bytes: &[u8],
    number: u64,
) -> Result<(), AllocError>
    ensures { OnOk result
        (Tells bytes.now (No number Ranks) (string_bytes out.old) (string_bytes out.new)) }
{
    match certificate_of(alloc, bytes)? {
        Some(certificate) => push_ranks(alloc, out, certificate.decisions()),
        None => Ok(()),
    }
}

/// F5: a transaction is decided twice.
pub fn tell_decided_twice(
    alloc: Global,
    out: &mut String,
    bytes: &[u8],
    number: u64,
) -> Result<(), AllocError>
    ensures { OnOk result
        (Tells bytes.now (No number DecidedTwice) (string_bytes out.old) (string_bytes out.new)) }
{
    match certificate_of(alloc, bytes)? {
        Some(certificate) => push_decided_twice(alloc, out, certificate.decisions()),
        None => Ok(()),
    }
}

/// F6: a walk is no cycle.
pub fn tell_walk_shape(
    alloc: Global,
    out: &mut String,
    bytes: &[u8],
    number: u64,
) -> Result<(), AllocError>
    ensures { OnOk result
        (Tells bytes.now (No number WalkShape) (string_bytes out.old) (string_bytes out.new)) }
{
    match certificate_of(alloc, bytes)? {
        Some(certificate) => push_walk_shape(alloc, out, certificate.decisions()),
        None => Ok(()),
    }
}

/// F13: the entry is not as its transaction was decided, or that has ended.
pub fn tell_end(
    alloc: Global,
    out: &mut String,
    bytes: &[u8],
    number: u64,
) -> Result<(), AllocError>
    ensures { OnOk result
        (Tells bytes.now (No number End) (string_bytes out.old) (string_bytes out.new)) }
{
    let section = section_before(alloc, bytes, number)?;
    let Some(certificate) = certificate_of(alloc, bytes)? else {
        return Ok(());
    };
    let Some(logged) = logged_at(bytes, number) else {
        return Ok(());
    };
    let decisions = certificate.decisions();
    let placed = placed_in(alloc, decisions)?;
    push_end(out, decisions, placed.as_slice(), &section, &logged)
}

/// F14: the end stands behind one that was decided later.
pub fn tell_decision_order(
    alloc: Global,
    out: &mut String,
    bytes: &[u8],
    number: u64,
) -> Result<(), AllocError>
    ensures { OnOk result
        (Tells bytes.now (No number DecisionOrder) (string_bytes out.old) (string_bytes out.new)) }
{
    let section = section_before(alloc, bytes, number)?;
    let Some(certificate) = certificate_of(alloc, bytes)? else {
        return Ok(());
    };
    let Some(logged) = logged_at(bytes, number) else {
        return Ok(());
    };
    let decisions = certificate.decisions();
    let placed = placed_in(alloc, decisions)?;
    push_decision_order(out, placed.as_slice(), &section, &logged)
}

/// F15: a transaction has no end in the section.
pub fn tell_not_ended(
    alloc: Global,
    out: &mut String,
    bytes: &[u8],
    number: u64,
) -> Result<(), AllocError>
    ensures { OnOk result
        (Tells bytes.now (No number NotEnded) (string_bytes out.old) (string_bytes out.new)) }
{
    let section = section_before(alloc, bytes, number)?;
    let Some(certificate) = certificate_of(alloc, bytes)? else {
        return Ok(());
    };
    let decisions = certificate.decisions();
    let placed = placed_in(alloc, decisions)?;
    push_not_ended(alloc, out, decisions, placed.as_slice(), &section)
}
