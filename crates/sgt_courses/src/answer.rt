//! What a line of a talk is answered by.

use sgt_core_model::Reply;
use thiserror::Error;

/// The answer to a line.
#[derive(Clone, Copy, Debug, PartialEq, Eq)]
pub enum Answer {
    /// The line asked for an event, and this is the reply.
    Replies(Reply),
    /// It asked for a cut, which was made: the bundle has this number.
    Cut(u64),
    /// It asked for a cut, which was refused.
    Uncut(CutFault),
    /// It asked for nothing that there is.
    Unreadable,
}

/// Why no cut was made. All is as it was.
#[derive(Clone, Copy, Debug, PartialEq, Eq, Error)]
pub enum CutFault {
    /// A transaction is active.
    #[error("E8: a transaction is active")]
    ActiveLeft,
    /// A growth was refused.
    #[error("E9: out of memory")]
    Memory,
    /// The bundle could not be written.
    #[error("B: the bundle could not be written")]
    Unwritten,
}
