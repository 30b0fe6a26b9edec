//! What became of the last bundle.

/// What became of the last bundle.
#[derive(Clone, Copy, Debug, PartialEq, Eq)]
pub enum Last {
    /// It is kept, or nothing was begun that it would tell of.
    Done,
    /// There was no memory for it, or for the withdrawals before it.
    Memory,
    /// It could not be written.
    Unwritten,
}
