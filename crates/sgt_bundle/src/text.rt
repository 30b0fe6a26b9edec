//! The text of a bundle.

ghost use Rattle.std.specs.Prelude.{◌≡◌, ◌++◌, ◌∷◌, [], ◌<◌, ◌≤◌, ◌+◌, All, IfOk, OnOk, OnErr, length, map};
ghost use Rattle.sgt_names.specs.Limits.{max_sites};
ghost use Rattle.sgt_notation.specs.Spelling.{line_text, text_of_lines, IsEntry, IsHolding, IsLine};
ghost use Rattle.sgt_notation.specs.declared.SectionLine.{SectionLine};
ghost use Rattle.std.specs.List.{list_any};
ghost use Rattle.std.specs.Io.{StartsWith};
ghost use Rattle.sgt_names.specs.Entry.{is_increment};
ghost use Rattle.sgt_bundle.specs.Text.{certificate_text, format_line, has_increments, sections_from, section_lines, text_of, IsDecision, IsLog};

use crate::bundle::SiteLog;
use crate::certificate::Certificate;
use crate::line::push_certificate;
use sgt_names::{Entry, Holding, SiteNo};
use sgt_notation::{SectionLine, write_section_line};
use std::alloc::{AllocError, Global};

fn push_items(out: &mut Vec<u8>, items: &[Holding]) -> Result<(), AllocError>
    ensures text { OnOk result
        (out.new.items
        ≡ out.old.items ++ text_of_lines (map line_text (map SectionLine.Initial items.now))) }
    ensures in_range { OnOk result (All IsHolding items.now) }
    ensures err { OnErr result (StartsWith out.new.items out.old.items) }
{
    for item in items {
        write_section_line(out, &SectionLine::Initial(*item))?;
    }
    Ok(())
}

fn push_entries(out: &mut Vec<u8>, entries: &[Entry]) -> Result<(), AllocError>
    ensures text { OnOk result
        (out.new.items
        ≡ out.old.items ++ text_of_lines (map line_text (map SectionLine.Logged entries.now))) }
    ensures in_range { OnOk result (All IsEntry entries.now) }
    ensures err { OnErr result (StartsWith out.new.items out.old.items) }
{
    for entry in entries {
        write_section_line(out, &SectionLine::Logged(*entry))?;
    }
    Ok(())
}

fn push_finals(out: &mut Vec<u8>, finals: &[Holding]) -> Result<(), AllocError>
    ensures text { OnOk result
        (out.new.items
        ≡ out.old.items ++ text_of_lines (map line_text (map SectionLine.Final finals.now))) }
    ensures in_range { OnOk result (All IsHolding finals.now) }
    ensures err { OnErr result (StartsWith out.new.items out.old.items) }
{
    for item in finals {
        write_section_line(out, &SectionLine::Final(*item))?;
    }
    Ok(())
}

/// Writes the front of a site's section: its number, and its items with their first values. Err: memory ran out, and
/// some of it may be written.
pub fn begin_section(out: &mut Vec<u8>, site: SiteNo, items: &[Holding]) -> Result<(), AllocError>
    ensures text { OnOk result
        (out.new.items
        ≡ out.old.items
        ++ text_of_lines (map line_text (SectionLine.Site site ∷ map SectionLine.Initial items.now))) }
    ensures in_range { OnOk result (All IsHolding items.now) }
    ensures err { OnErr result (StartsWith out.new.items out.old.items) }
{
    write_section_line(out, &SectionLine::Site(site))?;
    push_items(out, items)
}

/// Writes the end of a site's section: its items with their last values, and the last line. Err: memory ran out, and
/// some of it may be written.
pub fn end_section(out: &mut Vec<u8>, finals: &[Holding]) -> Result<(), AllocError>
    ensures text { OnOk result
        (out.new.items
        ≡ out.old.items
        ++ text_of_lines (map line_text (map SectionLine.Final finals.now ++ SectionLine.End ∷ []))) }
    ensures in_range { OnOk result (All IsHolding finals.now) }
    ensures err { OnErr result (StartsWith out.new.items out.old.items) }
{
    push_finals(out, finals)?;
    write_section_line(out, &SectionLine::End)
}

/// Writes the section of a site: its items with their first values, its entries, and its items with their last
/// values. Err: memory ran out, and some of it may be written.
pub fn push_section(
    out: &mut Vec<u8>,
    site: SiteNo,
    items: &[Holding],
    entries: &[Entry],
    finals: &[Holding],
) -> Result<(), AllocError>
    ensures text { OnOk result
        (out.new.items
        ≡ out.old.items
        ++ text_of_lines (map line_text (section_lines site
        (record { items = items.now; entries = entries.now; finals = finals.now })))) }
    ensures in_range { OnOk result
        (IsLog (record { items = items.now; entries = entries.now; finals = finals.now })) }
    ensures err { OnErr result (StartsWith out.new.items out.old.items) }
{
    begin_section(out, site, items)?;
    push_entries(out, entries)?;
    end_section(out, finals)
}

fn push_log(out: &mut Vec<u8>, site: u64, log: &SiteLog) -> Result<(), AllocError>
    requires { site < max_sites }
    ensures text { OnOk result
        (out.new.items
        ≡ out.old.items ++ text_of_lines (map line_text (section_lines site log.now))) }
    ensures in_range { OnOk result (IsLog log.now) }
{
    let Ok(site) = SiteNo::new(site) else {
        unreachable!();
    };
    let items = log.items.as_slice();
    push_section(
        out,
        site,
        items,
        log.entries.as_slice(),
        log.finals.as_slice(),
    )
}

fn push_sections(out: &mut Vec<u8>, sites: &[SiteLog]) -> Result<(), AllocError>
    requires { length sites.now ≤ max_sites }
    ensures text { OnOk result
        (out.new.items
        ≡ out.old.items ++ text_of_lines (map line_text (sections_from 0 sites.now))) }
    ensures in_range { OnOk result (All IsLog sites.now) }
{
    for (k, log) in sites.iter().enumerate() {
        push_log(out, k as u64, log)?;
    }
    Ok(())
}

/// The sections of logs that are given up: each is let go once its section is written.
fn push_given_sections(out: &mut Vec<u8>, sites: Vec<SiteLog>) -> Result<(), AllocError>
    requires { length sites.items ≤ max_sites }
    ensures text { OnOk result
        (out.new.items
        ≡ out.old.items ++ text_of_lines (map line_text (sections_from 0 sites.items))) }
    ensures in_range { OnOk result (All IsLog sites.items) }
{
    let mut site = 0;
    for log in sites {
        push_log(out, site, &log)?;
        site += 1;
    }
    Ok(())
}

/// Whether an entry is an increment, or asks for one.
pub fn any_increment(entries: &[Entry]) -> bool
    ensures { result ≡ list_any is_increment entries.now }
{
    entries.iter().any(|entry| entry.is_increment())
}

/// Whether an entry of these logs is an increment, or asks for one.
fn any_log_increments(sites: &[SiteLog]) -> bool
    ensures { result ≡ has_increments sites.now }
{
    sites
        .iter()
        .any(|log| any_increment(log.entries.as_slice()))
}

// The bytes that an entry takes in memory.
const ENTRY_ROOM: usize = 32;

// How much room a text is made with: for each entry as much as it takes in memory. The text may outgrow it.
fn room_for(sites: &[SiteLog]) -> usize {
    let mut room = 64usize;
    for log in sites {
        let entries = log.entries.as_slice().len();
        room = room.saturating_add(entries.saturating_mul(ENTRY_ROOM));
    }
    room
}

/// Writes lines 1 and 2: of the second format, if it is to be that, and of the certificate. Err: memory ran out, and
/// some of them may be written.
pub fn push_head(
    out: &mut Vec<u8>,
    second: bool,
    certificate: &Certificate,
) -> Result<(), AllocError>
    ensures text { OnOk result
        (out.new.items
        ≡ out.old.items
        ++ text_of_lines (format_line second ∷ certificate_text certificate.now ∷ [])) }
    ensures decisions { OnOk result (All (IsDecision max_sites) certificate.now.decisions) }
{
    let format = if second { b"sgt 2\n" } else { b"sgt 1\n" };
    out.extend_from_slice(format)?;
    push_certificate(out, certificate)?;
    out.extend_from_slice(b"\n")
}

/// Lines 1 and 2 of the text: the second format exactly where it has to be, and the certificate. Err: memory ran out.
fn head(alloc: Global, certificate: &Certificate, sites: &[SiteLog]) -> Result<Vec<u8>, AllocError>
    ensures text { IfOk result
        (λ head. head.items
        ≡ text_of_lines
        (format_line (has_increments sites.now) ∷ certificate_text certificate.now ∷ [])) }
    ensures decisions { IfOk result (λ _. All (IsDecision max_sites) certificate.now.decisions) }
{
    let mut head = Vec::with_capacity(alloc, room_for(sites))?;
    push_head(&mut head, any_log_increments(sites), certificate)?;
    Ok(head)
}

/// The text of a certificate and its logs. Err: memory ran out.
pub(crate) fn text(
    alloc: Global,
    certificate: &Certificate,
    sites: &[SiteLog],
) -> Result<Vec<u8>, AllocError>
    requires { length sites.now ≤ max_sites }
    ensures text { IfOk result
        (λ text. text.items
        ≡ text_of (record { certificate = certificate.now; sites = sites.now })) }
    ensures decisions { IfOk result (λ _. All (IsDecision max_sites) certificate.now.decisions) }
    ensures logs { IfOk result (λ _. All IsLog sites.now) }
{
    let mut text = head(alloc, certificate, sites)?;
    push_sections(&mut text, sites)?;
    Ok(text)
}

/// The same of a certificate and logs that are given up: each is let go once it is written.
pub(crate) fn given_text(
    alloc: Global,
    certificate: Certificate,
    sites: Vec<SiteLog>,
) -> Result<Vec<u8>, AllocError>
    requires { length sites.items ≤ max_sites }
    ensures text { IfOk result
        (λ text. text.items
        ≡ text_of (record { certificate = certificate; sites = sites.items })) }
    ensures decisions { IfOk result (λ _. All (IsDecision max_sites) certificate.decisions) }
    ensures logs { IfOk result (λ _. All IsLog sites.items) }
{
    let mut text = head(alloc, &certificate, sites.as_slice())?;
    drop(certificate);
    push_given_sections(&mut text, sites)?;
    Ok(text)
}
