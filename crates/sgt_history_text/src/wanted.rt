//! What lines have to tell besides.

/// What each line of a transaction that commits has to tell besides.
#[derive(Clone, Copy, Debug, PartialEq, Eq)]
pub struct Wanted {
    /// When it ran: `"begin"` and `"done"`.
    pub real_time: bool,
    /// Its `"session"`.
    pub sessions: bool,
}
