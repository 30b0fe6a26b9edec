//! The conflicts of a history without faults, by its touches.
#![tactic(auto)]

mod edges;
mod pairs;
mod parts;

pub use edges::{edges_in, edges_of, pairs_of};
pub use parts::Parts;
