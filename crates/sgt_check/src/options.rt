//! What is asked for.

/// What is asked for besides the answer.
#[derive(Clone, Copy, Debug, PartialEq, Eq)]
pub struct Options {
    /// Behind a yes the order that serves.
    pub order: bool,
}
