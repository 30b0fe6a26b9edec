//! Where a talk stops.

/// Where a talk stopped.
#[derive(Clone, Copy)]
pub enum Stop {
    /// At the end of its input.
    Ended,
    /// At a line that is too long.
    TooLong,
    /// The reader failed, or no read was left.
    ReadFault,
    /// The writer failed.
    WriteFault,
    /// A growth was refused.
    Memory,
}
