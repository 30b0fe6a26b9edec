//! Lines of logs: of a text whose first section begins in line 2.

use sgt_explain_lines::{Logged, Section, after_line, cut_line, section_before, text_at};
use sgt_names::Entry;
use sgt_notation::{read_entry, read_section};
use std::alloc::{AllocError, Global};

/// The section that is open before a line. `section_before` takes line 2 for the certificate of a bundle, so where
/// no line stands between, the last one is told here.
pub(crate) fn section_of(alloc: Global, bytes: &[u8], number: u64) -> Result<Section, AllocError> {
    let mut section = section_before(alloc, bytes, number)?;
    if number > 2 && section.last.is_none() {
        section.last = read_section(text_at(bytes, 2)).ok();
    }
    Ok(section)
}

/// The entry of a line, if it is one.
pub(crate) fn entry_in(bytes: &[u8], number: u64) -> Option<Logged> {
    let entry = read_entry(text_at(bytes, number)).ok()?;
    Some(Logged {
        line: number,
        entry,
    })
}

/// The entries of these lines, whose numbers rise.
pub(crate) fn entries_in(
    alloc: Global,
    bytes: &[u8],
    numbers: &[u64],
) -> Result<Vec<Logged>, AllocError> {
    let mut found = Vec::new(alloc);
    let mut rest = bytes;
    let mut passed = 0u64;
    for number in numbers {
        let line = *number;
        if line > passed {
            rest = after_line(rest, line.saturating_sub(passed).saturating_sub(1));
            let (text, behind) = cut_line(rest);
            if let Ok(entry) = read_entry(text) {
                found.push(Logged { line, entry })?;
            }
            rest = behind;
            passed = line;
        }
    }
    Ok(found)
}

/// That of this line among entries whose lines rise.
pub(crate) fn entry_among(found: &[Logged], line: u64) -> Option<Logged> {
    let place = found.partition_point(|logged| logged.line < line);
    let logged = found.get(place)?;
    if logged.line == line {
        Some(*logged)
    } else {
        None
    }
}

/// How the entry's transaction ends, by the letters of the entry: nothing of a read.
pub(crate) fn fate_by(entry: &Entry) -> Option<&'static str> {
    match entry {
        Entry::Write { .. } | Entry::Add { .. } | Entry::Commit { .. } => Some("committed"),
        Entry::Want { .. } | Entry::WantAdd { .. } | Entry::Refuse { .. } => Some("refused"),
        Entry::Withdraw { .. } => Some("withdrawn"),
        Entry::Read { .. } => None,
    }
}
