//! Directed graphs: an order in which all edges lead onward, or a cycle; and the first cycle, of all or through a node.
#![tactic(auto)]

mod components;
mod edge;
mod homeward;
mod measuring;
mod nearest;
mod rows;
mod shown;
mod sorting;
mod through;
mod walking;

pub use edge::Edge;
pub use shown::{falling_ranks, shown_cycle};
pub use sorting::{Ordered, order};
pub use through::cycle_through;
