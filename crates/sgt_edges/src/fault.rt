//! Why the edges of a draft aren't given.

use thiserror::Error;

/// Why the edges of a draft aren't given.
#[derive(Clone, Copy, Debug, PartialEq, Eq, Error)]
pub enum EdgeFault {
    /// A growth was refused.
    #[error("X1: out of memory")]
    Memory,
    /// The draft keeps a read at a version that the site has not reached.
    #[error("X2: the draft saw a version that the site has not reached")]
    SeenTooNew,
}
