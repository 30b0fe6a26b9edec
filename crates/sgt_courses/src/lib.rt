//! What a core that is cut again and again does: turns, the runs of the model that they are, and the chain of its
//! bundles.
#![tactic(auto)]

mod answer;
mod laws;

pub use answer::{Answer, CutFault};
pub use laws::{courses_are_chains, courses_are_runs, fronts_are_courses};
