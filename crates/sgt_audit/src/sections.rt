//! The sections of a bundle, line by line.

ghost use Rattle.std.specs.Prelude.{◌≡◌, [], OnOk, IsTrue, IsSome, IfSome, None, is_some};
ghost use Rattle.sgt_audit.specs.Reading.{Begun};
ghost use Rattle.sgt_audit.specs.private.Following.{with_line, with_next};
ghost use Rattle.sgt_notation.specs.declared.SectionLine.TheVariants.{Logged};

use sgt_compact::CompactLog;
use sgt_names::Entry;
use sgt_notation::SectionLine;
use std::alloc::{AllocError, Global};
use std::marker::Model;

/// One more line of the log whose section is open.
fn add_line(log: &mut CompactLog, line: &SectionLine) -> Result<(), AllocError>
    ensures { OnOk result (log.new ≡ with_line log.old line.now) }
{
    match line {
        SectionLine::Initial(holding) => log.add_item(*holding),
        SectionLine::Logged(entry) => log.add_entry_by_name(*entry),
        SectionLine::Final(holding) => log.add_final(*holding),
        SectionLine::Site(_) | SectionLine::End => Ok(()),
    }
}

/// The sections as far as they were read: the logs that are whole, and the one whose section is open.
#[derive(Drop)]
pub struct Sections {
    alloc: Global,
    sites: u8,
    whole: Vec<CompactLog>,
    current: Option<CompactLog>,
}

impl Model for Sections {
    ghost use Rattle.sgt_audit.specs.Reading.{Begun};

    ghost Value = { Begun };

    ghost view = { λ s. record { sites = s.sites; whole = s.whole.items; current = s.current } };
}

impl Sections {
    ghost use Rattle.sgt_audit.specs.private.Following.{with_next};
    ghost use Rattle.sgt_notation.specs.declared.SectionLine.TheVariants.{Logged};

    /// No line, of the sections of so many sites.
    pub(crate) fn new(alloc: Global, sites: u8) -> Sections
        ensures { result ≡ record { sites = sites; whole = []; current = None } }
    {
        Sections {
            alloc,
            sites,
            whole: Vec::new(alloc),
            current: None,
        }
    }

    /// One more line.
    pub(crate) fn add(&mut self, line: &SectionLine) -> Result<(), AllocError>
        ensures sites { self.new.sites ≡ self.old.sites }
        ensures next { OnOk result (self.new ≡ with_next self.old self.old.current line.now) }
    {
        if let Some(log) = &mut self.current {
            if !matches!(line, SectionLine::End) {
                return add_line(log, line);
            }
        }
        match self.current.take() {
            Some(log) => self.whole.push(log)?,
            None => self.current = Some(CompactLog::new(self.alloc)),
        }
        Ok(())
    }

    /// One more line, which is this entry. Its item is listed at this place, or else it takes more room. It goes by
    /// memory that only this way touches.
    #[inline(never)]
    pub(crate) fn add_entry(&mut self, entry: Entry, place: usize) -> Result<(), AllocError>
        ensures sites { self.new.sites ≡ self.old.sites }
        ensures next { OnOk result
            (self.new ≡ with_next self.old self.old.current (Logged entry)) }
    {
        match &mut self.current {
            Some(log) => log.add_entry(entry, place),
            None => self.add(&SectionLine::Logged(entry)),
        }
    }

    /// The logs.
    pub(crate) fn into_logs(self) -> Vec<CompactLog>
        ensures { result.items ≡ self.whole }
    {
        let Sections { whole, .. } = self;
        whole
    }
}

/// One more line, where the sections are kept.
#[inline(always)]
pub(crate) fn add_to(sections: &mut Option<Sections>, line: &SectionLine) -> Result<(), AllocError>
    ensures kept { is_some sections.new ≡ is_some sections.old }
    ensures next { OnOk result ((b : Begun) → IfSome sections.old (λ s. s ≡ b)
        → IfSome sections.new (λ s. s ≡ with_next b b.current line.now)) }
{
    match sections {
        Some(sections) => sections.add(line),
        None => Ok(()),
    }
}

/// One more line, which is this entry, where the sections are kept. Its item is listed at this place.
#[inline(always)]
pub(crate) fn add_entry_to(
    sections: &mut Option<Sections>,
    entry: &Entry,
    place: usize,
) -> Result<(), AllocError>
    ensures kept { is_some sections.new ≡ is_some sections.old }
    ensures next { OnOk result ((b : Begun) → IfSome sections.old (λ s. s ≡ b)
        → IfSome sections.new (λ s. s ≡ with_next b b.current (Logged entry.now))) }
{
    match sections {
        Some(sections) => sections.add_entry(*entry, place),
        None => Ok(()),
    }
}

/// One more line, where the sections are kept. The item of an entry is listed at this place, or else the entry takes
/// more room.
#[inline(always)]
pub(crate) fn add_line_to(
    sections: &mut Option<Sections>,
    line: &SectionLine,
    place: usize,
) -> Result<(), AllocError>
    ensures kept { is_some sections.new ≡ is_some sections.old }
    ensures next { OnOk result ((b : Begun) → IfSome sections.old (λ s. s ≡ b)
        → IfSome sections.new (λ s. s ≡ with_next b b.current line.now)) }
{
    match line {
        SectionLine::Logged(entry) => add_entry_to(sections, entry, place),
        _ => add_to(sections, line),
    }
}

/// No line of the sections of so many sites, where they are to be kept.
pub(crate) fn sections_of(alloc: Global, keeps: bool, sites: u8) -> Option<Sections>
    ensures some { IsTrue keeps → IsSome result }
    ensures empty { IfSome result (λ s. s ≡ record { sites = sites; whole = []; current = None }) }
{
    if keeps {
        Some(Sections::new(alloc, sites))
    } else {
        None
    }
}
