//! The lines behind a refusal, made of the steps that were checked.

ghost use Rattle.std.specs.Prelude.{◌≡◌, ◌≤◌, ◌++◌, ◌+◌, ◌^◌, length, IfOk, IfSome, IfNone, OnOk};
ghost use Rattle.std.specs.List.{flat_map};
ghost use Rattle.sgt_certify.specs.Lines.{conflict_line, end_line, kind_text, line_in_sections, line_of, lines_text, section_length, tx_line};
ghost use Rattle.sgt_certify.specs.Reasons.{AreNumbered};
ghost use Rattle.sgt_certify_logs.specs.Steps.{IsConflictCycle, IsConflictStep, IsEndCycle, IsEndStep};

use sgt_bundle::SiteLog;
use sgt_certify_logs::{ConflictStep, EndStep};
use sgt_names::{Kind, Tx};
use sgt_notation::push_number;
use std::alloc::{AllocError, Global};

/// How many lines the section of a site has.
fn lines_in(log: &SiteLog) -> Option<u64>
    ensures some { IfSome result (λ n. n ≡ section_length log.now) }
    ensures none { IfNone result (2 ^ 64 ≤ section_length log.now) }
{
    let items = log.items.as_slice().len() as u64;
    let entries = log.entries.as_slice().len() as u64;
    let finals = log.finals.as_slice().len() as u64;
    items
        .checked_add(entries)?
        .checked_add(finals)?
        .checked_add(2)
}

/// Where the entry at this place of the log stands in its section.
fn line_in_section(log: &SiteLog, place: usize) -> Option<u64>
    ensures some { IfSome result (λ n. n ≡ length log.now.items + place + 2) }
    ensures none { IfNone result (2 ^ 64 ≤ length log.now.items + place + 2) }
{
    let items = log.items.as_slice().len() as u64;
    items.checked_add(place as u64)?.checked_add(2)
}

/// Where it stands among the lines of all sections.
fn line_among(sites: &[SiteLog], site: usize, place: usize) -> Option<u64>
    ensures some { IfSome result (λ n. n ≡ line_in_sections sites.now site place) }
    ensures none { IfNone result (2 ^ 64 ≤ line_in_sections sites.now site place) }
{
    let Some((log, rest)) = sites.split_first() else {
        return Some(0);
    };
    if site == 0 {
        return line_in_section(log, place);
    }
    let before = lines_in(log)?;
    let behind = line_among(rest, site - 1, place)?;
    before.checked_add(behind)
}

/// The line of the entry, counted from 1. None: its number is no u64.
pub fn line_at(sites: &[SiteLog], site: usize, place: usize) -> Option<u64>
    ensures some { IfSome result (λ n. n ≡ line_of sites.now site place) }
    ensures none { IfNone result (2 ^ 64 ≤ line_of sites.now site place) }
{
    line_among(sites, site, place)?.checked_add(1)
}

fn push_lines(out: &mut Vec<u8>, first: u64, second: u64) -> Result<(), AllocError>
    ensures { OnOk result (out.new.items ≡ out.old.items ++ lines_text first second) }
{
    out.extend_from_slice(b" lines ")?;
    push_number(out, first)?;
    out.extend_from_slice(b" ")?;
    push_number(out, second)?;
    out.extend_from_slice(b"\n")
}

/// The line of a step of a cycle of ends. None: a line's number is no u64.
fn end_text(alloc: Global, sites: &[SiteLog], step: &EndStep) -> Result<Option<Vec<u8>>, AllocError>
    ensures some { IfOk result
        (λ text. IfSome text (λ t. t.items ≡ end_line sites.now step.now)) }
    ensures none { IfOk result
        (λ text. IfNone text (AreNumbered sites.now → IsEndStep sites.now step.now → ⊥)) }
{
    let site = step.first.site;
    let Some(first) = line_at(sites, site, step.first.entry) else {
        return Ok(None);
    };
    let Some(second) = line_at(sites, site, step.second) else {
        return Ok(None);
    };
    let mut out = Vec::new(alloc);
    push_number(&mut out, u64::from(step.from.number()))?;
    out.extend_from_slice(b" before ")?;
    push_number(&mut out, u64::from(step.to.number()))?;
    out.extend_from_slice(b" site ")?;
    push_number(&mut out, site as u64)?;
    push_lines(&mut out, first, second)?;
    Ok(Some(out))
}

/// The lines of a cycle of ends. None: a line's number is no u64.
pub fn end_lines(
    alloc: Global,
    sites: &[SiteLog],
    steps: &[EndStep],
) -> Result<Option<Vec<u8>>, AllocError>
    ensures some { IfOk result
        (λ text. IfSome text (λ t. t.items ≡ flat_map (end_line sites.now) steps.now)) }
    ensures none { IfOk result
        (λ text. IfNone text (AreNumbered sites.now → IsEndCycle sites.now steps.now → ⊥)) }
{
    let mut out = Vec::new(alloc);
    for step in steps {
        let Some(line) = end_text(alloc, sites, step)? else {
            return Ok(None);
        };
        out.extend_from_slice(line.as_slice())?;
    }
    Ok(Some(out))
}

/// A kind of conflict between two numbers.
fn kind_word(kind: Kind) -> &'static [u8]
    ensures { result.now ≡ kind_text kind }
{
    match kind {
        Kind::Rw => b" rw ",
        Kind::Wr => b" wr ",
        Kind::Ww => b" ww ",
    }
}

/// The line of a step of a cycle of conflicts. None: a line's number is no u64.
fn conflict_text(
    alloc: Global,
    sites: &[SiteLog],
    step: &ConflictStep,
) -> Result<Option<Vec<u8>>, AllocError>
    ensures some { IfOk result
        (λ text. IfSome text (λ t. t.items ≡ conflict_line sites.now step.now)) }
    ensures none { IfOk result
        (λ text. IfNone text (AreNumbered sites.now → IsConflictStep sites.now step.now → ⊥)) }
{
    let site = step.first.site;
    let Some(first) = line_at(sites, site, step.first.entry) else {
        return Ok(None);
    };
    let Some(second) = line_at(sites, site, step.second) else {
        return Ok(None);
    };
    let mut out = Vec::new(alloc);
    push_number(&mut out, u64::from(step.from.number()))?;
    out.extend_from_slice(kind_word(step.kind))?;
    push_number(&mut out, u64::from(step.to.number()))?;
    out.extend_from_slice(b" site ")?;
    push_number(&mut out, site as u64)?;
    out.extend_from_slice(b" item ")?;
    out.extend_from_slice(step.item.as_bytes())?;
    push_lines(&mut out, first, second)?;
    Ok(Some(out))
}

/// The lines of a cycle of conflicts. None: a line's number is no u64.
pub fn conflict_lines(
    alloc: Global,
    sites: &[SiteLog],
    steps: &[ConflictStep],
) -> Result<Option<Vec<u8>>, AllocError>
    ensures some { IfOk result
        (λ text. IfSome text (λ t. t.items ≡ flat_map (conflict_line sites.now) steps.now)) }
    ensures none { IfOk result
        (λ text. IfNone text (AreNumbered sites.now → IsConflictCycle sites.now steps.now → ⊥)) }
{
    let mut out = Vec::new(alloc);
    for step in steps {
        let Some(line) = conflict_text(alloc, sites, step)? else {
            return Ok(None);
        };
        out.extend_from_slice(line.as_slice())?;
    }
    Ok(Some(out))
}

/// The transactions, one a line.
pub fn tx_lines(alloc: Global, txs: &[Tx]) -> Result<Vec<u8>, AllocError>
    ensures { IfOk result (λ text. text.items ≡ flat_map tx_line txs.now) }
{
    let mut lines = Vec::new(alloc);
    for tx in txs {
        push_number(&mut lines, u64::from(tx.number()))?;
        lines.extend_from_slice(b"\n")?;
    }
    Ok(lines)
}
