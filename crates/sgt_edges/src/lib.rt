//! The labelled edges between transactions, and those of a draft at a site.
#![tactic(auto)]

mod edge;
mod fault;
mod gathered;
mod laws;
mod runs;

pub use edge::{Edge, EdgeList};
pub use fault::EdgeFault;
pub use gathered::{gather, gather_into};
pub use laws::{
    edges_are_conflicts, edges_join_committed, gathers_are_refused_once,
    given_edges_lead_as_all_do, neighbours_carry_every_conflict, pledged_are_active,
};
