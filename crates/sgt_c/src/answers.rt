//! The numbers that C is answered by, and the verdict as C sees it.

ghost use Rattle.std.specs.Prelude.{◌≡◌};
ghost use Rattle.sgt_c.specs.Answers.{calls_version, number_of};

use sgt_audit::Verdict;

/// The text spells a valid bundle.
pub const SGT_YES: u32 = 0;

/// The text spells no valid bundle.
pub const SGT_NO: u32 = 1;

/// A line of the history can't be read.
pub const SGT_UNREADABLE: u32 = 2;

/// No answer: a growth was refused.
pub const SGT_MEMORY: u32 = 3;

/// No answer: the text has 4294967295 bytes or more, and took too many reads.
pub const SGT_LONG: u32 = 4;

/// The text of the answer doesn't fit the room that was given.
pub const SGT_ROOM: u32 = 5;

/// The version of these calls.
pub const SGT_VERSION: u32 = 1;

/// The verdict on a text, as C sees it.
#[repr(C)]
#[derive(Clone, Copy, Debug, PartialEq, Eq)]
pub struct SgtVerdict {
    /// What the call returned.
    pub kind: u32,
    /// The fault's number, from 1 to 19; 0 where there is none.
    pub fault: u32,
    /// The first line with a fault, counted from 1; 0 where there is none.
    pub line: u64,
    /// How many decisions commit, refuse and withdraw; 0 without a yes.
    pub committed: u64,
    pub refused: u64,
    pub withdrawn: u64,
}

// As sgt.h has it, which examples/check_header.py compares.
const _: () = prove!(size_of::<SgtVerdict>() == 40);

/// Why there is no answer.
#[derive(Clone, Copy, Debug, PartialEq, Eq)]
pub enum NoAnswer {
    /// A growth was refused.
    Memory,
    /// Too many reads were needed.
    Long,
}

impl NoAnswer {
    /// Its number.
    pub fn number(self) -> u32
        ensures { result ≡ number_of self }
    {
        match self {
            NoAnswer::Memory => SGT_MEMORY,
            NoAnswer::Long => SGT_LONG,
        }
    }
}

impl From<Verdict> for SgtVerdict {
    ghost use Rattle.std.specs.Prelude.{◌≡◌};
    ghost use Rattle.sgt_c.specs.Answers.{told_verdict};

    ghost from_gives = { λ v told. told ≡ told_verdict v };

    fn from(verdict: Verdict) -> SgtVerdict {
        match verdict {
            Verdict::Yes {
                committed,
                refused,
                withdrawn,
            } => SgtVerdict {
                kind: SGT_YES,
                fault: 0,
                line: 0,
                committed,
                refused,
                withdrawn,
            },
            Verdict::No { line, fault } => SgtVerdict {
                kind: SGT_NO,
                fault: u32::from(fault.number()),
                line,
                committed: 0,
                refused: 0,
                withdrawn: 0,
            },
        }
    }
}

impl From<NoAnswer> for SgtVerdict {
    ghost use Rattle.std.specs.Prelude.{◌≡◌};
    ghost use Rattle.sgt_c.specs.Answers.{told_none};

    ghost from_gives = { λ why told. told ≡ told_none why };

    fn from(why: NoAnswer) -> SgtVerdict {
        SgtVerdict {
            kind: why.number(),
            fault: 0,
            line: 0,
            committed: 0,
            refused: 0,
            withdrawn: 0,
        }
    }
}

/// The version of these calls: `SGT_VERSION` of the header that fits.
#[unsafe(no_mangle)]
pub extern "C" fn sgt_version() -> u32
    ensures { result ≡ calls_version }
{
    SGT_VERSION
}
