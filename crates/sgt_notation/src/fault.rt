//! Why bytes are no line.

use thiserror::Error;

/// Why bytes are not read as a line.
#[derive(Clone, Copy, Debug, PartialEq, Eq, Error)]
pub enum NotationFault {
    /// They spell no line, and are not too long for one.
    #[error("L1: not a line")]
    NotALine,
    /// They are more than 1048576.
    #[error("L2: the line is too long")]
    TooLong,
    /// A growth was refused. Only the items of a site take memory: never of an entry, an event or a line of a section.
    #[error("L3: memory")]
    Memory,
}
