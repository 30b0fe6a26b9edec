//! The bundle that some bytes spell.

ghost use Rattle.std.specs.Prelude.{◌≡◌, ◌≤◌, [], ◌∷◌, ◌++◌, ℕ, ◌+◌, ◌<◌, length, take, drop, IfOk, IfErr, IfSome, IfNone};
ghost use Rattle.sgt_names.specs.Limits.{max_sites};
ghost use Rattle.sgt_audit.specs.Spelled.{AnswersBundle};
ghost use Rattle.sgt_audit.specs.Kept.{IsPlace};
ghost use Rattle.sgt_audit.specs.Reading.{IsBegun, lines_read};
ghost use Rattle.sgt_audit.specs.private.SpelledSections.{AnswersSections, AreSpelled};

use crate::format::{read_format, read_line};
use crate::place::Place;
use crate::sections::Sections;
use sgt_bundle::{Bundle, CertFault, from_line};
use sgt_compact::site_logs;
use sgt_names::EngineFail;
use sgt_notation::split_line;
use std::alloc::{AllocError, Global};

/// Adds the lines of sections that the bytes spell in the second format, or in the first. Whether they are all
/// sections.
fn add_lines(
    second: bool,
    bytes: &[u8],
    place: &mut Place,
    sections: &mut Sections,
) -> Result<bool, AllocError>
    requires none { lines_read sections.old ≡ [] }
    requires begun { IsBegun sections.old }
    requires here { IsPlace sections.old place.old }
    ensures sites { sections.new.sites ≡ sections.old.sites }
    ensures all { IfOk result
        (λ all. AreSpelled all second sections.old.sites bytes.now (lines_read sections.new)) }
{
    let mut rest = bytes;
    'lines: while let Some((line, more)) = split_line(rest) {
        let Some(read) = read_line(second, line) else {
            return Ok(false);
        };
        if !place.may_go_on(&read) {
            return Ok(false);
        }
        place.enter(&read)?;
        sections.add(&read)?;
        rest = more;
    }
    if !rest.is_empty() {
        return Ok(false);
    }
    Ok(place.is_complete())
}

/// The sections of so many sites that the bytes spell.
fn read_sections(
    alloc: Global,
    second: bool,
    sites: u8,
    bytes: &[u8],
) -> Result<Option<Sections>, AllocError>
    requires some { 1 ≤ sites }
    requires few { sites ≤ max_sites }
    ensures { IfOk result (AnswersSections second sites bytes.now) }
{
    let mut place = Place::new(alloc, sites);
    let mut sections = Sections::new(alloc, sites);
    if add_lines(second, bytes, &mut place, &mut sections)? {
        Ok(Some(sections))
    } else {
        Ok(None)
    }
}

/// The bundle that the bytes spell, if they spell one. It need not be valid. An Err is Memory.
pub fn read_bundle(alloc: Global, bytes: &[u8]) -> Result<Option<Bundle>, EngineFail>
    ensures bundle { IfOk result (AnswersBundle bytes.now) }
    ensures err { IfErr result (λ e. e ≡ EngineFail.Memory) }
{
    let (format, behind) = match split_line(bytes) {
        Some(split) => split,
        None => return Ok(None),
    };
    let Some(second) = read_format(format) else {
        return Ok(None);
    };
    let (line, rest) = match split_line(behind) {
        Some(split) => split,
        None => return Ok(None),
    };
    let certificate = match from_line(alloc, line) {
        Ok(certificate) => certificate,
        Err(CertFault::Memory) => return Err(EngineFail::Memory),
        Err(CertFault::NotJson) => return Ok(None),
        Err(CertFault::Shape) => return Ok(None),
        Err(CertFault::Range) => return Ok(None),
    };
    match read_sections(alloc, second, certificate.sites, rest) {
        Ok(Some(sections)) => match site_logs(alloc, sections.into_logs()) {
            Ok(logs) => Ok(Bundle::new(certificate, logs)),
            Err(_) => Err(EngineFail::Memory),
        },
        Ok(None) => Ok(None),
        Err(_) => Err(EngineFail::Memory),
    }
}
