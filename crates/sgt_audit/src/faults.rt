//! The faults of a text that is no valid bundle.

use thiserror::Error;

/// Why a text is no valid bundle, by the first line that shows it. The number of a variant is the fault's.
#[derive(Clone, Copy, Debug, PartialEq, Eq, Error)]
pub enum Fault {
    /// The first line is neither `sgt 1` nor `sgt 2`, or is too long.
    #[error("F1: the first line is neither `sgt 1` nor `sgt 2`, or is too long")]
    Format = 1,
    /// The line spells nothing of its format, or is too long.
    #[error("F2: the line spells nothing of its format, or is too long")]
    Notation = 2,
    /// The second line is no certificate.
    #[error("F3: the second line is no certificate")]
    Certificate = 3,
    /// The ranks of the n commits are not 0 to n-1, each once.
    #[error("F4: the ranks of the n commits are not 0 to n-1, each once")]
    Ranks = 4,
    /// A transaction is decided twice.
    #[error("F5: a transaction is decided twice")]
    DecidedTwice = 5,
    /// The walk of a refused transaction is no cycle through transactions committed earlier.
    #[error("F6: the walk of a refused transaction is no cycle through transactions committed earlier")]
    WalkShape = 6,
    /// The section allows no such line here.
    #[error("F7: the section allows no such line here")]
    Section = 7,
    /// The item is not one of this site.
    #[error("F8: the item is not one of this site")]
    Item = 8,
    /// The transaction's second read of the item here, or its second change of it, made or asked for.
    #[error("F9: the transaction's second read of the item here, or its second change of it, made or asked for")]
    Twice = 9,
    /// The value read is not the item's value here.
    #[error("F10: the value read is not the item's value here")]
    ReadValue = 10,
    /// The entry conflicts with an earlier one of a committed transaction of greater rank.
    #[error("F11: the entry conflicts with an earlier one of a committed transaction of greater rank")]
    RankOrder = 11,
    /// The block before this line is not finished.
    #[error("F12: the block before this line is not finished")]
    Block = 12,
    /// The transaction is not decided as this entry says, or has ended here.
    #[error("F13: the transaction is not decided as this entry says, or has ended here")]
    End = 13,
    /// An earlier end here was decided later.
    #[error("F14: an earlier end here was decided later")]
    DecisionOrder = 14,
    /// A transaction with entries here has no end here.
    #[error("F15: a transaction with entries here has no end here")]
    NotEnded = 15,
    /// The final value is not the item's value at the end.
    #[error("F16: the final value is not the item's value at the end")]
    Final = 16,
    /// A step of a walk is no conflict of the logs.
    #[error("F17: a step of a walk is no conflict of the logs")]
    WalkStep = 17,
    /// The input ends here.
    #[error("F18: the input ends here")]
    Truncated = 18,
    /// More follows the last section.
    #[error("F19: more follows the last section")]
    Trailing = 19,
}

/// The first fault of a text, with its line. Lines are counted from 1.
#[derive(Clone, Copy)]
pub struct FirstFault {
    pub line: u64,
    pub fault: Fault,
}

impl Fault {
    ghost use Rattle.std.specs.Prelude.{◌≡◌};
    ghost use Rattle.sgt_audit.specs.Faults.{fault_number};

    /// Its number.
    pub fn number(self) -> u8
        ensures { result ≡ fault_number self }
    {
        self as u8
    }
}
