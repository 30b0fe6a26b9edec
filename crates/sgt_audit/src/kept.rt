//! A certificate, and lines of sections behind it, none of which has a fault.

ghost use Rattle.std.specs.Prelude.{◌≡◌, ◌≢◌, ◌≤◌, ◌↔◌, ℕ, List, length, IsTrue, IfOk, is_some};
ghost use Rattle.sgt_notation.specs.Reading.{SpellsNone};
ghost use Rattle.sgt_notation.specs.Spelling.{IsLine, line_text};

use crate::alone::Alone;
use crate::faults::{Fault, FirstFault};
use crate::format::read_line;
use crate::sections::{Sections, add_entry_to, add_line_to, add_to};
use crate::walks::Walks;
use sgt_audit_decisions::Decided;
use sgt_names::Entry;
use sgt_notation::{SectionLine, front_entry_line, front_word_line};
use std::alloc::AllocError;

/// A certificate and the sections that were read behind it.
#[derive(Drop)]
pub struct Kept {
    pub certificate: Decided,
    /// What is kept of the section that comes next or is open: the judge of its lines.
    pub alone: Alone,
    pub walks: Walks,
    /// The sections themselves, where they are to be handed out.
    pub sections: Option<Sections>,
}

/// What became of the line at the front of bytes.
#[derive(Drop)]
pub enum Passed {
    /// It was taken, with its LF: so many bytes.
    Line(usize),
    /// It has this fault.
    Faulty(Fault),
    /// It wasn't read: nothing is said of it.
    Unread,
}

impl Kept {
    ghost use Rattle.sgt_audit.specs.Faults.{IsLineIn, Stage, Rule, Breaks, whole};
    ghost use Rattle.sgt_audit.specs.Held.{IsAt};
    ghost use Rattle.sgt_audit.specs.private.NextLine.{Follows, Passes};
    ghost use Rattle.sgt_audit.specs.private.Ending.{EndsWith, IsComplete, limit_of};
    ghost use Rattle.sgt_audit.specs.declared.machine.Progress.TheVariants.{Reading};
    ghost use Rattle.sgt_names.specs.declared.entry.Entry.{Entry as AnyEntry};
    ghost use Rattle.sgt_notation.specs.declared.SectionLine.TheVariants.{Logged, End};

    /// Whether all sections were read.
    #[inline(always)]
    pub(crate) fn is_complete(&self) -> bool
        ensures { (s : Stage) → IsAt self.now s → (IsTrue result ↔ IsComplete s) }
    {
        self.alone.place.is_complete()
    }

    /// The fault of the next line, where it is none of the format.
    fn unread(&self) -> Fault
        ensures { (l : List ℕ) (s : Stage) → SpellsNone (IsLineIn self.now.alone.second) line_text l
            → IsAt self.now s
            → Breaks (Rule s (whole l)) result }
    {
        if self.is_complete() {
            Fault::Trailing
        } else {
            Fault::Notation
        }
    }

    /// The next line, without its LF.
    pub(crate) fn next(&mut self, line: &[u8]) -> Result<Option<Fault>, AllocError>
        ensures sections { is_some self.new.sections ≡ is_some self.old.sections }
        ensures follows { (s : Stage) → IsAt self.old s
            → IfOk result (Follows s line.now (Reading self.new)) }
    {
        match read_line(self.alone.second, line) {
            Some(read) => self.next_line(read),
            None => Ok(Some(self.unread())),
        }
    }

    /// The next line, which was read already. The entries that are most frequent go ways of their own, as in
    /// `Alone::next_read`.
    #[inline(always)]
    pub(crate) fn next_read(&mut self, line: &SectionLine) -> Result<Option<Fault>, AllocError>
        ensures sections { is_some self.new.sections ≡ is_some self.old.sections }
        ensures follows { IsLine line.now → (s : Stage) → IsAt self.old s
            → IfOk result (Follows s (line_text line.now) (Reading self.new)) }
    {
        match line {
            SectionLine::Logged(entry) => match *entry {
                Entry::Read { tx, item, value } => {
                    self.next_entry(&Entry::Read { tx, item, value })
                }
                Entry::Write { tx, item, value } => {
                    self.next_entry(&Entry::Write { tx, item, value })
                }
                Entry::Commit { tx } => self.next_entry(&Entry::Commit { tx }),
                _ => self.next_line(*line),
            },
            _ => self.next_line(*line),
        }
    }

    /// The next line, which stands at the front of the bytes, where it is no entry: it is read and judged here, so that
    /// nothing of it goes by memory.
    #[inline(never)]
    pub(crate) fn next_word(&mut self, bytes: &[u8]) -> Result<Passed, AllocError>
        ensures sections { is_some self.new.sections ≡ is_some self.old.sections }
        ensures passes { IfOk result (Passes bytes.now self.old self.new) }
    {
        let Some((line, n)) = front_word_line(bytes) else {
            return Ok(Passed::Unread);
        };
        let found = match line {
            SectionLine::Initial(holding) => self.next_other(&SectionLine::Initial(holding))?,
            SectionLine::Final(holding) => self.next_other(&SectionLine::Final(holding))?,
            _ => self.next_line(line)?,
        };
        match found {
            Some(fault) => Ok(Passed::Faulty(fault)),
            None => Ok(Passed::Line(n)),
        }
    }

    /// The next line, if it stands at the front of the bytes as most writers of logs spell it: it is read where it stands.
    #[inline(always)]
    pub(crate) fn front(&mut self, bytes: &[u8]) -> Result<Passed, AllocError>
        ensures sections { is_some self.new.sections ≡ is_some self.old.sections }
        ensures passes { IfOk result (Passes bytes.now self.old self.new) }
    {
        let Some((line, n)) = front_entry_line(bytes) else {
            return self.next_word(bytes);
        };
        match self.next_read(&line)? {
            Some(fault) => Ok(Passed::Faulty(fault)),
            None => Ok(Passed::Line(n)),
        }
    }

    /// The next line, which lists an item or tells a final value.
    #[inline(always)]
    fn next_other(&mut self, line: &SectionLine) -> Result<Option<Fault>, AllocError>
        ensures sections { is_some self.new.sections ≡ is_some self.old.sections }
        ensures follows { IsLine line.now → ((e : AnyEntry) → line.now ≢ Logged e) → line.now ≢ End
            → (s : Stage) → IsAt self.old s
            → IfOk result (Follows s (line_text line.now) (Reading self.new)) }
    {
        if self.alone.place.is_complete() {
            return Ok(Some(Fault::Trailing));
        }
        if let Some(fault) = self.alone.follow_other(line, true)? {
            return Ok(Some(fault));
        }
        add_to(&mut self.sections, line)?;
        Ok(None)
    }

    /// The same of this entry.
    #[inline(always)]
    fn next_entry(&mut self, entry: &Entry) -> Result<Option<Fault>, AllocError>
        ensures sections { is_some self.new.sections ≡ is_some self.old.sections }
        ensures follows { let line = Logged entry.now in
            IsLineIn self.old.alone.second line → (s : Stage) → IsAt self.old s
            → IfOk result (Follows s (line_text line) (Reading self.new)) }
    {
        if self.alone.place.is_complete() {
            return Ok(Some(Fault::Trailing));
        }
        if let Some(fault) = self.alone.follow_entry(&self.certificate, *entry)? {
            return Ok(Some(fault));
        }
        add_entry_to(&mut self.sections, entry, self.alone.latest)?;
        Ok(None)
    }

    /// The next line, of a kind that is less frequent: the judge of its section says its fault. Behind the last line of
    /// a section the judge knows whether the steps at its site are conflicts in its log; a step that isn't is the fault
    /// of the last line of all.
    #[inline(always)]
    fn next_line(&mut self, line: SectionLine) -> Result<Option<Fault>, AllocError>
        ensures sections { is_some self.new.sections ≡ is_some self.old.sections }
        ensures follows { IsLine line → (s : Stage) → IsAt self.old s
            → IfOk result (Follows s (line_text line) (Reading self.new)) }
    {
        if self.alone.place.is_complete() {
            return Ok(Some(Fault::Trailing));
        }
        let edges = self.walks.steps.at(self.alone.place.whole);
        if let Some(fault) = self.alone.next_line(&self.certificate, edges, line)? {
            return Ok(Some(fault));
        }
        add_line_to(&mut self.sections, &line, self.alone.latest)?;
        match line {
            SectionLine::End => (),
            _ => return Ok(None),
        }
        self.walks.pass(self.alone.met);
        if self.alone.place.is_complete() && !self.walks.met {
            return Ok(Some(Fault::WalkStep));
        }
        Ok(None)
    }

    /// At the end of the input, in the line of this number, with these bytes behind the last LF: what was read, if
    /// all is there, or the fault.
    pub(crate) fn end(self, rest: &[u8], line: u64) -> Result<Kept, FirstFault>
        ensures same { IfOk result (λ k. k ≡ self) }
        ensures ends { (s : Stage) → IsAt self s → length rest.now ≤ limit_of s
            → EndsWith s rest.now line result }
    {
        if !self.is_complete() {
            return Err(FirstFault {
                line,
                fault: Fault::Truncated,
            });
        }
        if !rest.is_empty() {
            return Err(FirstFault {
                line,
                fault: Fault::Trailing,
            });
        }
        Ok(self)
    }
}
