//! Keeps the values of a window under handles. Until the window is closed a handle shows the value that it was given
//! for; from then on the arena shows nothing under it.
//!
//! What the docs say of costs is no clause.
#![tactic(auto)]

mod arena;
mod block;
mod cells;
mod fault;
mod handle;
mod limits;

pub use arena::Arena;
#[doc(hidden)]
pub use block::Block;
#[doc(hidden)]
pub use cells::{Base, Cells, Deed};
pub use fault::{ArenaFault, Refused};
pub use handle::Handle;
pub use limits::MAX_PLACES;
