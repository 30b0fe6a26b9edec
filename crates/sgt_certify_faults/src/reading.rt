//! The lines of a text of logs, one by one.

ghost use Rattle.std.specs.Prelude.{◌≡◌, ◌<◌, ◌∷◌, ◌++◌, [], ℕ, List, Bool, IfOk, IfSome, IfNone, length};
ghost use Rattle.sgt_names.specs.Limits.{max_line, max_sites};
ghost use Rattle.sgt_notation.specs.Spelling.{line_text};
ghost use Rattle.sgt_bundle.specs.Text.{AreSections};
ghost use Rattle.sgt_bundle.specs.declared.certificate.Decision.{Decision};
ghost use Rattle.sgt_audit.specs.Faults.{Breaks, IsLineIn, Piece, last, bytes_of};
ghost use Rattle.sgt_audit.specs.Kept.{IsPlace};
ghost use Rattle.sgt_audit.specs.Reading.{Begun, IsBegun, lines_read};
ghost use Rattle.sgt_certify_faults.specs.Faults.{AreAll, RuleAlone, behind};
ghost use Rattle.sgt_certify_faults.specs.private.Asked.{AreDecidedAsAsked};
ghost use Rattle.sgt_certify_faults.specs.private.Reading.{Follows, HasRead};

use sgt_audit::{Fault, Place, Rules, enter_line, judge_line, look_up, read_line};
use sgt_audit_cells::SiteState;
use sgt_audit_decisions::Decided;
use sgt_names::{MAX_LINE, MAX_SITES};
use sgt_notation::SectionLine;
use std::alloc::{AllocError, Global};

/// What is kept of the lines that were read, none of which has a fault.
#[derive(Drop)]
pub struct Reading {
    place: Place,
    state: SiteState,
}

impl Reading {
    /// Before the first line of a section.
    pub fn new(alloc: Global, decided: &Decided) -> Result<Reading, AllocError>
        ensures { IfOk result
            (λ r. (second : Bool) (bytes : List ℕ)
            → HasRead second decided.now.decisions bytes 0 r bytes) }
    {
        Ok(Reading {
            place: Place::new(alloc, MAX_SITES),
            state: SiteState::new(alloc, decided.decisions().len())?,
        })
    }

    /// The next line, which is one of the format.
    fn follow(&mut self, decided: &Decided, line: &SectionLine) -> Result<Option<Fault>, AllocError>
        ensures { IfOk result (λ fault. (second : Bool) (bytes rest more : List ℕ) (count : ℕ)
            → AreDecidedAsAsked second bytes decided.now.decisions
            → (read : HasRead second decided.now.decisions bytes count self.old rest)
            → (AreAll (lines_read read.sections) → ⊥)
            → IsLineIn second line.now → rest ≡ line_text line.now ++ 10 ∷ more
            → Follows second decided.now.decisions bytes count self.old self.new rest
            (line_text line.now) more fault) }
    {
        let known = look_up(decided, &self.state, line);
        if let Some(fault) = judge_line(Rules::Asked, &self.state, &self.place, line, &known) {
            return Ok(Some(fault));
        }
        enter_line(&mut self.state, line, &known)?;
        self.place.enter(line)?;
        Ok(None)
    }

    /// The next line, without its LF, in the second format or the first: its least fault, if it has one.
    pub fn next(
        &mut self,
        decided: &Decided,
        second: bool,
        line: &[u8],
    ) -> Result<Option<Fault>, AllocError>
        ensures { IfOk result
            (λ fault. (bytes rest more : List ℕ) (count : ℕ)
            → AreDecidedAsAsked second bytes decided.now.decisions
            → HasRead second decided.now.decisions bytes count self.old rest
            → rest ≡ line.now ++ 10 ∷ more
            → Follows second decided.now.decisions bytes count self.old self.new rest line.now more fault) }
    {
        if self.place.is_complete() {
            return Ok(Some(Fault::Trailing));
        }
        match read_line(second, line) {
            Some(read) => self.follow(decided, &read),
            None => Ok(Some(Fault::Notation)),
        }
    }

    /// The least fault of the end of the input, with these bytes behind the last LF, if it has one.
    pub fn end(&self, rest: &[u8]) -> Option<Fault>
        ensures some { IfSome result
            (λ fault. (b : Begun) (second : Bool) → b.sites ≡ max_sites → IsBegun b
            → IsPlace b self.now.place
            → Breaks (RuleAlone (behind second (lines_read b)) (last rest.now)) fault) }
        ensures none { IfNone result
            ((b : Begun) → b.sites ≡ max_sites → IsBegun b → IsPlace b self.now.place
            → (rest.now ≡ []) × ((count : ℕ) × AreSections count (lines_read b))) }
    {
        if self.place.is_complete() {
            return if rest.is_empty() {
                None
            } else {
                Some(Fault::Trailing)
            };
        }
        if rest.len() > MAX_LINE {
            return Some(Fault::Notation);
        }
        if rest.is_empty() && self.place.current.is_none() && self.place.whole > 0 {
            return None;
        }
        Some(Fault::Truncated)
    }

    /// The least fault of a line that is too long.
    pub fn too_long(&self) -> Fault
        ensures { (b : Begun) (second : Bool) (next : Piece) → b.sites ≡ max_sites → IsBegun b
            → IsPlace b self.now.place
            → max_line < length (bytes_of next)
            → Breaks (RuleAlone (behind second (lines_read b)) next) result }
    {
        if self.place.is_complete() {
            Fault::Trailing
        } else {
            Fault::Notation
        }
    }
}
