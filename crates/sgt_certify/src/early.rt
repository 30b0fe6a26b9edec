//! A fault, looked for while a text is read.

ghost use Rattle.std.specs.Prelude.{◌≡◌, ◌≢◌, ◌<◌, ◌≤◌, ◌↔◌, ◌+◌, ◌-◌, ◌%◌, ◌++◌, ℕ, List, false, length, IsTrue, IfOk, IfSome, IfNone};
ghost use Rattle.sgt_certify.specs.Reach.{AreShort, IsJudgedTo, IsWithinRoom};
ghost use Rattle.sgt_certify_faults.specs.Faults.{IsFirstFault};

use sgt_certify_faults::{FirstFault, Watch, fault_within};
use sgt_names::Flow;
use std::alloc::{AllocError, Global};

/// Lines are judged at last once so many bytes were read, with the longest line 64 MiB, and as many times more as were
/// judged.
const JUDGED: usize = 66_060_287;

const MORE: usize = 16;

/// When lines are looked at while a text is read: those of a stream before each read, where one may have a fault, and
/// those of any text before it is some times as long as what was judged.
#[derive(Drop)]
pub struct Early {
    alloc: Global,
    /// What says when to judge the lines of a stream, as long as that is right.
    watch: Option<Watch>,
    /// So many bytes were judged: the lines in them have no fault.
    pub judged: usize,
}

impl Early {
    /// Before the first read of a source whose bytes come so.
    pub fn new(alloc: Global, flow: Flow) -> Result<Early, AllocError>
        ensures { IfOk result (λ early. early.judged ≡ 0) }
    {
        let watch = match flow {
            Flow::Still => None,
            Flow::Flowing | Flow::Drained => Some(Watch::new(alloc)?),
        };
        Ok(Early {
            alloc,
            watch,
            judged: 0,
        })
    }

    /// Whether a line of a stream may have a fault.
    fn suspects(&mut self, text: &[u8]) -> Result<bool, AllocError>
        ensures { self.new.judged ≡ self.old.judged }
    {
        match &mut self.watch {
            Some(watch) => watch.suspects(text),
            None => Ok(false),
        }
    }

    /// Whether so many bytes may be read before they are judged.
    fn has_room(&self, many: usize) -> bool
        ensures { IsTrue result → IsWithinRoom self.now.judged many }
    {
        many <= self.judged.saturating_mul(MORE).saturating_add(JUDGED)
    }

    /// Whether the text is to be judged now.
    fn is_due(&mut self, text: &[u8]) -> Result<bool, AllocError>
        ensures same { self.new.judged ≡ self.old.judged }
        ensures room { IfOk result
            (λ due. due ≡ false → IsWithinRoom self.new.judged (length text.now)) }
    {
        let suspected = self.suspects(text)?;
        if suspected {
            self.watch = None;
            return Ok(true);
        }
        if self.has_room(text.len()) {
            return Ok(false);
        }
        Ok(true)
    }

    /// The first fault of these lines, if one is looked for and found.
    pub fn look(&mut self, text: &[u8]) -> Result<Option<FirstFault>, AllocError>
        ensures found { IfOk result (λ found. IfSome found (λ first. (more : List ℕ)
            → IsFirstFault (text.now ++ more) first.line first.fault)) }
        ensures judged { (before piece : List ℕ) → text.now ≡ before ++ piece
            → IsJudgedTo before self.old.judged → AreShort text.now
            → IfOk result (λ found. IfNone found (IsJudgedTo text.now self.new.judged)) }
        ensures room { IfOk result
            (λ found. IfNone found (IsWithinRoom self.new.judged (length text.now))) }
    {
        let due = self.is_due(text)?;
        if !due {
            return Ok(None);
        }
        let found = fault_within(self.alloc, text)?;
        match found {
            Some(first) => Ok(Some(first)),
            None => {
                self.judged = text.len();
                Ok(None)
            }
        }
    }
}
