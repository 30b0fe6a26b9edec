//! What is kept of sites that are given up, and its text.

ghost use Rattle.std.specs.Prelude.{◌≡◌, ◌++◌, ◌∷◌, [], ◌<◌, ◌≤◌, IfOk, OnOk, length, map};
ghost use Rattle.sgt_names.specs.Limits.{max_sites};
ghost use Rattle.sgt_notation.specs.Spelling.{line_text, text_of_lines};
ghost use Rattle.sgt_notation.specs.declared.SectionLine.{SectionLine};
ghost use Rattle.sgt_bundle.specs.Text.{has_increments, section_lines, sections_from, text_of};
ghost use Rattle.sgt_core_model.specs.Core.{site_log};
ghost use Rattle.sgt_core_machine.specs.Cut.{logs_at};
ghost use Rattle.sgt_core_machine.specs.private.Records.{log_in, logs_in};

use crate::machine::Place;
use sgt_bundle::{Certificate, begin_section, end_section, push_head};
use sgt_names::{Entry, Holding, SiteNo};
use sgt_notation::{SectionLine, write_section_line};
use sgt_site::EntryLog;
use std::alloc::{AllocError, Global};

/// What is kept of a site that is given up: its items with their first values, its entries, and its items with their
/// last values.
#[derive(Drop)]
pub(crate) struct SiteRecord {
    pub(crate) items: Vec<Holding>,
    pub(crate) log: EntryLog,
    pub(crate) finals: Vec<Holding>,
}

// How many bytes a text has room for at first, for each entry.
const ENTRY_ROOM: usize = 32;

/// The records of sites that are given up, by number. Err: memory ran out.
pub(crate) fn records_from(alloc: Global, places: Vec<Place>) -> Result<Vec<SiteRecord>, AllocError>
    ensures logs { IfOk result (λ records. logs_in records.items ≡ logs_at places.items) }
    ensures many { IfOk result (λ records. length records.items ≡ length places.items) }
{
    let mut records = Vec::new(alloc);
    for place in places {
        records.push(record_from(alloc, place)?)?;
    }
    Ok(records)
}

// The record of a site that is given up.
fn record_from(alloc: Global, place: Place) -> Result<SiteRecord, AllocError>
    ensures { IfOk result
        (λ kept. log_in kept ≡ site_log place.site.items place.site.entries) }
{
    let Ok(finals) = place.site.final_values(alloc) else {
        return Err(AllocError);
    };
    let (items, log) = place.site.into_log();
    Ok(SiteRecord { items, log, finals })
}

// Whether an entry of these logs is an increment, or asks for one.
fn any_record_increments(records: &[SiteRecord]) -> bool
    ensures { result ≡ has_increments (logs_in records.now) }
{
    for kept in records {
        if kept.log.any_increment() {
            return true;
        }
    }
    false
}

// How much room the text of these logs is made with. The text may outgrow it.
fn room_for(records: &[SiteRecord]) -> usize {
    let mut room = 64usize;
    for kept in records {
        room = with_room_for(room, &kept.log);
    }
    room
}

/// So many bytes, and how many a text has room for at first for this log.
pub(crate) fn with_room_for(room: usize, log: &EntryLog) -> usize {
    room.saturating_add(log.len().saturating_mul(ENTRY_ROOM))
}

/// The text of a certificate and of logs that are given up: each is let go once it is written. Err: memory ran out.
pub(crate) fn records_text(
    alloc: Global,
    certificate: Certificate,
    records: Vec<SiteRecord>,
) -> Result<Vec<u8>, AllocError>
    requires { length records.items ≤ max_sites }
    ensures { IfOk result (λ text. text.items
        ≡ text_of (record { certificate = certificate; sites = logs_in records.items })) }
{
    let second = any_record_increments(records.as_slice());
    let mut text = Vec::with_capacity(alloc, room_for(records.as_slice()))?;
    push_head(&mut text, second, &certificate)?;
    drop(certificate);
    push_records(&mut text, records)?;
    Ok(text)
}

// Writes the sections of logs that are given up.
fn push_records(out: &mut Vec<u8>, records: Vec<SiteRecord>) -> Result<(), AllocError>
    requires { length records.items ≤ max_sites }
    ensures { OnOk result
        (out.new.items
        ≡ out.old.items
        ++ text_of_lines (map line_text (sections_from 0 (logs_in records.items)))) }
{
    let mut site = 0;
    for kept in records {
        push_record(out, site, &kept)?;
        site += 1;
    }
    Ok(())
}

fn push_record(out: &mut Vec<u8>, site: u64, kept: &SiteRecord) -> Result<(), AllocError>
    requires { site < max_sites }
    ensures { OnOk result
        (out.new.items
        ≡ out.old.items ++ text_of_lines (map line_text (section_lines site (log_in kept.now)))) }
{
    let Ok(site) = SiteNo::new(site) else {
        unreachable!();
    };
    let finals = kept.finals.as_slice();
    push_site(out, site, kept.items.as_slice(), &kept.log, finals)
}

/// Writes the section of a site: its items with their first values, its entries, and its items with their last
/// values. Err: memory ran out.
pub(crate) fn push_site(
    out: &mut Vec<u8>,
    site: SiteNo,
    items: &[Holding],
    log: &EntryLog,
    finals: &[Holding],
) -> Result<(), AllocError>
    ensures { OnOk result
        (out.new.items
        ≡ out.old.items
        ++ text_of_lines (map line_text (section_lines site
        (record { items = items.now; entries = log.now.entries; finals = finals.now })))) }
{
    begin_section(out, site, items)?;
    push_entries(out, log)?;
    end_section(out, finals)
}

fn push_entries(out: &mut Vec<u8>, log: &EntryLog) -> Result<(), AllocError>
    ensures { OnOk result
        (out.new.items
        ≡ out.old.items
        ++ text_of_lines (map line_text (map SectionLine.Logged log.now.entries))) }
{
    for place in 0..log.len() {
        push_entry(out, log.at(place))?;
    }
    Ok(())
}

// Writes an entry. The kinds that most entries are of are asked for here, so that each is written by code of its own.
#[inline(always)]
fn push_entry(out: &mut Vec<u8>, entry: Entry) -> Result<(), AllocError>
    ensures { OnOk result
        (out.new.items ≡ out.old.items ++ text_of_lines (line_text (SectionLine.Logged entry) ∷ [])) }
{
    match entry {
        Entry::Read { tx, item, value } => {
            write_section_line(out, &SectionLine::Logged(Entry::Read { tx, item, value }))
        }
        Entry::Write { tx, item, value } => {
            write_section_line(out, &SectionLine::Logged(Entry::Write { tx, item, value }))
        }
        Entry::Commit { tx } => write_section_line(out, &SectionLine::Logged(Entry::Commit { tx })),
        other => write_section_line(out, &SectionLine::Logged(other)),
    }
}
