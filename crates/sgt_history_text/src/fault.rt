//! Why a line can't be read.

use thiserror::Error;

/// The bytes that a line of a history has at most, its LF left out.
pub const MAX_HISTORY_LINE: usize = 16_777_216;

/// The bytes that an item's name has at most, and a transaction's.
pub const MOST_ITEM_BYTES: usize = 1_024;

pub const MOST_ID_BYTES: usize = 256;

/// Why a line of a history can't be read.
#[derive(Clone, Copy, Debug, PartialEq, Eq, Error)]
pub enum LineFault {
    /// It is no object with a transaction's members.
    #[error("L1: not a transaction")]
    NotALine,
    /// It has more than 16777216 bytes.
    #[error("L2: the line is too long")]
    TooLong,
    /// An earlier line has its id.
    #[error("L3: an earlier line has this id")]
    IdAgain,
}
