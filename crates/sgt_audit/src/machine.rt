//! The auditor's machine, which is fed a text line by line.

ghost use Rattle.std.specs.Prelude.{◌≡◌, ◌≢◌, ◌<◌, ◌≤◌, ℕ, [], List, length, Bool, true, IsTrue, IfOk, IfErr, IfSome, IsSome, Some};

use crate::alone::Alone;
use crate::faults::{Fault, FirstFault};
use crate::format::read_format;
use crate::judging::judge_certificate;
use crate::kept::{Kept, Passed};
use crate::sections::sections_of;
use crate::walks::Walks;
use sgt_bundle::{CertFault, Certificate, from_line};
use sgt_names::{EngineFail, MAX_LINE};
use std::alloc::{AllocError, Global};

/// How far the text was read, with no fault.
#[derive(Drop)]
pub enum Progress {
    /// Nothing was read.
    Start,
    /// The first line was read, and whether it is that of the second format.
    Headed(bool),
    /// A certificate was read, and lines of sections.
    Reading(Kept),
}

/// The machine.
#[derive(Drop)]
pub struct Machine {
    pub alloc: Global,
    /// Whether the sections themselves are to be handed out.
    pub keeps: bool,
    pub progress: Progress,
}

/// Lets the bytes go. They are made few first: a C library such as glibc takes the size of a great block that it is
/// given back for one that comes often, and keeps what is that size or smaller in a heap, where a growth copies and
/// leaves a hole.
fn let_go(alloc: Global, line: &mut Vec<u8>)
    ensures { line.new.items ≡ [] }
{
    line.clear();
    line.shrink_to(1);
    *line = Vec::new(alloc);
}

impl Machine {
    ghost use Rattle.sgt_audit.specs.Faults.{Stage, Piece, start, headed, Rule, Breaks, bytes_of};
    ghost use Rattle.sgt_audit.specs.private.Ending.{EndsWith, IsKeeping, limit_of};
    ghost use Rattle.sgt_audit.specs.Progress.{Stands};
    ghost use Rattle.sgt_audit.specs.private.Certified.{IsReadingOf};
    ghost use Rattle.sgt_audit.specs.private.NextLine.{AnswersCertificate, Follows, PassesFront};

    /// Before the first line. The sections are to be handed out, or only judged.
    pub fn new(alloc: Global, keeps: bool) -> Machine
        ensures stands { Stands result.progress start }
        ensures kept { IsKeeping keeps result }
    {
        Machine {
            alloc,
            keeps,
            progress: Progress::Start,
        }
    }

    /// How long the next line may be.
    pub fn limit(&self) -> usize
        ensures { (s : Stage) → Stands self.now.progress s → result ≡ limit_of s }
    {
        match &self.progress {
            Progress::Headed(_) => usize::MAX,
            Progress::Start | Progress::Reading(_) => MAX_LINE,
        }
    }

    /// The certificate's line, of which this was read.
    fn begin(
        alloc: Global,
        keeps: bool,
        second: bool,
        read: Result<Certificate, CertFault>,
    ) -> Result<Result<Kept, Fault>, EngineFail>
        ensures begins { (line : List ℕ) → IsReadingOf line read
            → IfOk result (AnswersCertificate second line) }
        ensures keeps { IsTrue keeps → IfOk result (λ r. IfOk r (λ k. IsSome k.sections)) }
        ensures err { IfErr result (λ e. e ≡ EngineFail.Memory) }
    {
        let certificate = match read {
            Ok(certificate) => certificate,
            Err(CertFault::Memory) => return Err(EngineFail::Memory),
            Err(_) => return Ok(Err(Fault::Certificate)),
        };
        let sites = certificate.sites;
        match judge_certificate(alloc, certificate) {
            Ok(Ok(certificate)) => {
                let mut alone = Alone::new(alloc, second, sites, &certificate)?;
                alone.begin(0);
                let walks = Walks::new(certificate.steps(alloc)?);
                let sections = sections_of(alloc, keeps, sites);
                Ok(Ok(Kept {
                    certificate,
                    alone,
                    walks,
                    sections,
                }))
            }
            Ok(Err(fault)) => Ok(Err(fault)),
            Err(_) => Err(EngineFail::Memory),
        }
    }

    /// The next line, without its LF.
    pub fn line(&mut self, line: &[u8]) -> Result<Option<Fault>, EngineFail>
        ensures follows { (s : Stage) → Stands self.old.progress s
            → IfOk result (Follows s line.now self.new.progress) }
        ensures err { IfErr result (λ e. e ≡ EngineFail.Memory) }
        ensures kept { (keeps : Bool) → IsKeeping keeps self.old → IsKeeping keeps self.new }
    {
        match &mut self.progress {
            Progress::Start => match read_format(line) {
                Some(second) => {
                    self.progress = Progress::Headed(second);
                    Ok(None)
                }
                None => Ok(Some(Fault::Format)),
            },
            Progress::Headed(second) => {
                let read = from_line(self.alloc, line);
                match Machine::begin(self.alloc, self.keeps, *second, read) {
                    Ok(Ok(kept)) => {
                        self.progress = Progress::Reading(kept);
                        Ok(None)
                    }
                    Ok(Err(fault)) => Ok(Some(fault)),
                    Err(e) => Err(e),
                }
            }
            Progress::Reading(kept) => match kept.next(line) {
                Ok(fault) => Ok(fault),
                Err(_) => Err(EngineFail::Memory),
            },
        }
    }

    /// The same. The bytes of the certificate's line are let go before room is made for what is kept of the sections.
    pub(crate) fn line_of(&mut self, line: &mut Vec<u8>) -> Result<Option<Fault>, EngineFail>
        ensures follows { (s : Stage) → Stands self.old.progress s
            → IfOk result (Follows s line.old.items self.new.progress) }
        ensures err { IfErr result (λ e. e ≡ EngineFail.Memory) }
        ensures kept { (keeps : Bool) → IsKeeping keeps self.old → IsKeeping keeps self.new }
    {
        match &mut self.progress {
            Progress::Headed(second) => {
                let read = from_line(self.alloc, line.as_slice());
                let_go(self.alloc, line);
                match Machine::begin(self.alloc, self.keeps, *second, read) {
                    Ok(Ok(kept)) => {
                        self.progress = Progress::Reading(kept);
                        Ok(None)
                    }
                    Ok(Err(fault)) => Ok(Some(fault)),
                    Err(e) => Err(e),
                }
            }
            Progress::Start => self.line(line.as_slice()),
            Progress::Reading(_) => self.line(line.as_slice()),
        }
    }

    /// The next line, if it is one of a section that stands at the front of the bytes as most writers of logs spell it. It
    /// costs less than `line`.
    #[inline(always)]
    pub fn front(&mut self, bytes: &[u8]) -> Result<Passed, AllocError>
        ensures passes { IfOk result
            (PassesFront bytes.now self.old.progress self.new.progress) }
        ensures kept { (keeps : Bool) → IsKeeping keeps self.old → IsKeeping keeps self.new }
    {
        match &mut self.progress {
            Progress::Reading(kept) => kept.front(bytes),
            Progress::Start | Progress::Headed(_) => Ok(Passed::Unread),
        }
    }

    /// Whether the format is the second, where the first line was read and the certificate's comes next.
    pub fn second(&self) -> Option<bool>
        ensures some { (s : Stage) → Stands self.now.progress s → IfSome result (λ second. s ≡ headed second) }
        ensures none { (second : Bool) → Stands self.now.progress (headed second) → result ≡ Some second }
    {
        match &self.progress {
            Progress::Headed(second) => Some(*second),
            Progress::Start | Progress::Reading(_) => None,
        }
    }

    /// The fault of a line that is too long.
    pub fn too_long(&self) -> Fault
        ensures { (s : Stage) (p : Piece) → Stands self.now.progress s
            → ((second : Bool) → s ≢ headed second)
            → limit_of s < length (bytes_of p) → Breaks (Rule s p) result }
    {
        match &self.progress {
            Progress::Start => Fault::Format,
            Progress::Headed(_) => Fault::Certificate,
            Progress::Reading(kept) => {
                if kept.is_complete() {
                    Fault::Trailing
                } else {
                    Fault::Notation
                }
            }
        }
    }

    /// What was read, if all is there at the end of the input, in the line of this number, with these bytes behind
    /// the last LF; or the fault.
    pub fn end(self, rest: &[u8], line: u64) -> Result<Kept, FirstFault>
        ensures ends { (s : Stage) → Stands self.progress s → length rest.now ≤ limit_of s
            → EndsWith s rest.now line result }
        ensures kept { IsKeeping true self → IfOk result (λ k. IsSome k.sections) }
    {
        let Machine { progress, .. } = self;
        let fault = match progress {
            Progress::Start => Fault::Truncated,
            Progress::Headed(_) => Fault::Truncated,
            Progress::Reading(kept) => return kept.end(rest, line),
        };
        Err(FirstFault { line, fault })
    }
}
