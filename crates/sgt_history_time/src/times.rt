//! When transactions ran.

/// When a transaction began, and when it was done.
#[derive(Clone, Copy, Debug, PartialEq, Eq)]
pub struct Times {
    pub begin: u64,
    pub done: u64,
}
