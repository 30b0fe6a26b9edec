//! The sections judged so far, in their order.

ghost use Rattle.std.specs.Prelude.{◌≡◌, ◌≢◌, ◌<◌, ◌≤◌, ◌↔◌, ◌+◌, ◌^◌, ◌&&◌, None, [], ℕ, Bool, IsTrue, IfOk, IfErr, IfSome, IfNone, OnOk, OnErr, List, length};
ghost use Rattle.sgt_bundle.specs.declared.bundle.SiteLog.{SiteLog};
ghost use Rattle.sgt_bundle.specs.declared.certificate.Certificate.{Certificate};
ghost use Rattle.sgt_audit_sections.specs.Judged.{IsJudgedSection, IsWhole};
ghost use Rattle.sgt_audit_sections.specs.Sections.{IsFaultlessCertificate, front_text, AllStepsAreFound};
ghost use Rattle.sgt_audit_workers.specs.Tallies.{Adds, IsLost, IsTally, IsVerdictBehind};

use sgt_audit::{Fault, Verdict};
use sgt_audit_sections::Judged;
use sgt_names::EngineFail;

/// What the first sections of a text were found to be: none has a fault but perhaps one of a walk.
#[derive(Clone, Copy)]
pub struct Tally {
    /// How many they are.
    pub whole: usize,
    /// How many lines were read, with the first two.
    pub lines: u64,
    /// Whether each step of a walk at their sites is a conflict there.
    pub met: bool,
}

/// The line of this number behind so many.
fn counted_on(lines: u64, line: u64) -> Result<u64, EngineFail>
    ensures ok { IfOk result (λ n. n ≡ lines + line) }
    ensures err { IfErr result (λ e. (e ≡ EngineFail.Memory) × (2 ^ 64 ≤ lines + line)) }
{
    match lines.checked_add(line) {
        Some(number) => Ok(number),
        None => Err(EngineFail::Memory),
    }
}

/// Whether both hold.
fn both(first: bool, second: bool) -> bool
    ensures { result ≡ (first && second) }
{
    first && second
}

impl Tally {
    /// Before the first section.
    pub fn new() -> Tally
        ensures { (second : Bool) (c : Certificate) → IsFaultlessCertificate c
            → IsTally second c [] result }
    {
        Tally {
            whole: 0,
            lines: 2,
            met: true,
        }
    }

    /// A fault at this line of the next section.
    pub fn fault_at(&self, line: u64, fault: Fault) -> Result<Option<Verdict>, EngineFail>
        ensures ok { IfOk result
            (λ found. found ≡ Some (Verdict.No (self.now.lines + line) fault)) }
        ensures err { IfErr result (λ e. e ≡ EngineFail.Memory) }
        ensures spent { OnErr result (2 ^ 64 ≤ self.now.lines + line) }
    {
        let line = counted_on(self.lines, line)?;
        Ok(Some(Verdict::No { line, fault }))
    }

    /// One more section, which is whole, with so many lines.
    pub fn add_whole(&mut self, lines: u64, met: bool) -> Result<(), EngineFail>
        ensures adds { (second : Bool) (c : Certificate) (logs : List SiteLog) (bytes more : List ℕ)
            → IsTally second c logs self.old → length logs < c.sites
            → IsJudgedSection second c (length logs) bytes (Judged.Whole lines met)
            → OnOk result (Adds second c logs bytes more self.new None) }
        ensures whole { self.old.whole < 2 ^ 32 → OnOk result (self.new.whole ≡ self.old.whole + 1) }
        ensures err { IfErr result (λ e. e ≡ EngineFail.Memory) }
        ensures spent { OnErr result (2 ^ 64 ≤ self.old.lines + lines) }
    {
        self.lines = counted_on(self.lines, lines)?;
        self.whole = self.whole.saturating_add(1);
        self.met = both(self.met, met);
        Ok(())
    }

    /// One more section: the verdict on the text, if it has a fault. An Err is Memory. The section was cut behind its
    /// first line `end`, or it is the last; so it is not unfit, and where the text may end in it, it ends there.
    pub fn add(&mut self, judged: Judged, is_last: bool) -> Result<Option<Verdict>, EngineFail>
        ensures adds { (second : Bool) (c : Certificate) (logs : List SiteLog)
            (bytes more : List ℕ) → IsTally second c logs self.old → length logs < c.sites
            → IsJudgedSection second c (length logs) bytes judged → (IsTrue is_last → more ≡ [])
            → IfOk result (Adds second c logs bytes more self.new) }
        ensures whole { IfOk result (λ found. IfNone found (IsWhole judged)) }
        ensures err { IfErr result (λ e. e ≡ EngineFail.Memory) }
        ensures lost { OnErr result (IsLost self.old.lines is_last judged) }
    {
        match judged {
            Judged::Whole { lines, met } => {
                self.add_whole(lines, met)?;
                Ok(None)
            }
            Judged::Faulty { line, fault } => self.fault_at(line, fault),
            Judged::Open { line, .. } => {
                if is_last {
                    self.fault_at(line, Fault::Truncated)
                } else {
                    Err(EngineFail::Memory)
                }
            }
            Judged::Unfit => Err(EngineFail::Memory),
        }
    }

    /// The fault of the last line of all sections, if a step of a walk is no conflict.
    pub fn walk_fault(&self) -> Option<Verdict>
        ensures some { (second : Bool) (c : Certificate) (logs : List SiteLog) (more : List ℕ)
            → IsTally second c logs self.now → length logs ≡ c.sites
            → IfSome result (IsVerdictBehind (front_text second c logs) more) }
        ensures none { (second : Bool) (c : Certificate) (logs : List SiteLog)
            → IsTally second c logs self.now
            → IfNone result (AllStepsAreFound c.decisions logs) }
    {
        if self.met {
            return None;
        }
        Some(Verdict::No {
            line: self.lines,
            fault: Fault::WalkStep,
        })
    }

    /// The fault of what follows all sections.
    pub fn trailing(&self) -> Result<Verdict, EngineFail>
        ensures trails { (second : Bool) (c : Certificate) (logs : List SiteLog) (more : List ℕ)
            → IsTally second c logs self.now → length logs ≡ c.sites
            → AllStepsAreFound c.decisions logs → more ≢ []
            → IfOk result (IsVerdictBehind (front_text second c logs) more) }
        ensures err { IfErr result (λ e. e ≡ EngineFail.Memory) }
        ensures spent { OnErr result (2 ^ 64 ≤ self.now.lines + 1) }
    {
        let line = counted_on(self.lines, 1)?;
        Ok(Verdict::No {
            line,
            fault: Fault::Trailing,
        })
    }
}
