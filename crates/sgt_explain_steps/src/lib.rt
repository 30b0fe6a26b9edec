//! Steps of the walks of refused transactions that are no conflicts of the logs: what is there in their place, and
//! how it is told.
#![tactic(auto)]

mod entries;
mod steps;
mod told;
mod unmet;

pub use steps::{step_at, with_entries};
pub use told::push_walk_step;
pub use unmet::{Met, Unmet};
