//! The lines behind `no walk`: the next end of each site that has some left.

ghost use Rattle.std.specs.Prelude.{◌≡◌, ◌++◌, Contains, Some, length, drop, slice_get, IfNone, IfOk, IfSome, OnOk};
ghost use Rattle.sgt_names.specs.Entry.{IsEnd};
ghost use Rattle.sgt_names.specs.declared.entry.Entry.{Entry as AnyEntry};
ghost use Rattle.sgt_notation.specs.Spelling.{entry_text};
ghost use Rattle.sgt_certify_stuck.specs.Apart.{HasTx};
ghost use Rattle.sgt_certify.specs.Lines.{AreDecidedBefore, AreLeftLines, IsLeftLine, IsNextEnd, left_text};
ghost use Rattle.sgt_certify.specs.Reasons.{AreNumbered};

use crate::telling::line_at;
use sgt_bundle::SiteLog;
use sgt_certify_stuck::set_of;
use sgt_names::{Entry, Tx};
use sgt_notation::push_number;
use std::alloc::{AllocError, Global};
use std::collections::BTreeSet;

/// Where the next end of the log stands.
fn next_end(entries: &[Entry], decided: &BTreeSet<Tx>) -> Option<usize>
    ensures some { IfSome result
        (λ place. (e : AnyEntry) × IsNextEnd (HasTx decided.now) entries.now place e) }
    ensures none { IfNone result
        (AreDecidedBefore (HasTx decided.now) entries.now (length entries.now)) }
{
    for (place, entry) in entries.iter().enumerate() {
        if entry.is_end() && !decided.contains(&entry.tx()) {
            return Some(place);
        }
    }
    None
}

/// An end, as logs write it.
fn push_end(out: &mut Vec<u8>, entry: &Entry) -> Result<(), AllocError>
    requires { IsEnd entry.now }
    ensures { OnOk result (out.new.items ≡ out.old.items ++ entry_text entry.now) }
{
    let letter = match entry {
        Entry::Commit { .. } => b"c",
        Entry::Refuse { .. } => b"n",
        _ => b"a",
    };
    out.extend_from_slice(letter)?;
    push_number(out, u64::from(entry.tx().number()))
}

/// The line of an end of the log of this site, by its number in the text.
fn push_left(out: &mut Vec<u8>, entry: &Entry, site: usize, line: u64) -> Result<(), AllocError>
    requires { IsEnd entry.now }
    ensures { OnOk result (out.new.items ≡ out.old.items ++ left_text entry.now site line) }
{
    push_end(out, entry)?;
    out.extend_from_slice(b" site ")?;
    push_number(out, site as u64)?;
    out.extend_from_slice(b" line ")?;
    push_number(out, line)?;
    out.extend_from_slice(b"\n")
}

/// The line of the next end of the log of this site, or nothing. None: a line's number is no u64.
fn text_at(
    alloc: Global,
    sites: &[SiteLog],
    site: usize,
    log: &SiteLog,
    decided: &BTreeSet<Tx>,
) -> Result<Option<Vec<u8>>, AllocError>
    ensures some { IfOk result
        (λ text. IfSome text (λ t. IsLeftLine sites.now (HasTx decided.now) site log.now t.items)) }
    ensures none { IfOk result
        (λ text. IfNone text (AreNumbered sites.now → slice_get sites.now site ≡ Some log.now
        → ⊥)) }
{
    let entries = log.entries.as_slice();
    let mut out = Vec::new(alloc);
    let Some(place) = next_end(entries, decided) else {
        return Ok(Some(out));
    };
    let Some(line) = line_at(sites, site, place) else {
        return Ok(None);
    };
    push_left(&mut out, &entries[place], site, line)?;
    Ok(Some(out))
}

/// Those of the logs from this site on. None: a line's number is no u64.
fn left_from(
    alloc: Global,
    sites: &[SiteLog],
    site: usize,
    logs: &[SiteLog],
    decided: &BTreeSet<Tx>,
) -> Result<Option<Vec<u8>>, AllocError>
    ensures some { IfOk result
        (λ text. IfSome text
        (λ t. AreLeftLines sites.now (HasTx decided.now) site logs.now t.items)) }
    ensures none { IfOk result
        (λ text. IfNone text (AreNumbered sites.now → drop site sites.now ≡ logs.now → ⊥)) }
{
    let Some((log, rest)) = logs.split_first() else {
        return Ok(Some(Vec::new(alloc)));
    };
    let Some(next) = site.checked_add(1) else {
        return Ok(None);
    };
    let Some(mut out) = text_at(alloc, sites, site, log, decided)? else {
        return Ok(None);
    };
    let Some(behind) = left_from(alloc, sites, next, rest, decided)? else {
        return Ok(None);
    };
    out.extend_from_slice(behind.as_slice())?;
    Ok(Some(out))
}

/// The lines of the next ends, where these are decided. None: a line's number is no u64.
pub fn left_lines(
    alloc: Global,
    sites: &[SiteLog],
    decided: &[Tx],
) -> Result<Option<Vec<u8>>, AllocError>
    ensures some { IfOk result
        (λ text. IfSome text
        (λ t. AreLeftLines sites.now (Contains decided.now) 0 sites.now t.items)) }
    ensures none { IfOk result (λ text. IfNone text (AreNumbered sites.now → ⊥)) }
{
    let set = set_of(alloc, decided)?;
    left_from(alloc, sites, 0, sites, &set)
}
