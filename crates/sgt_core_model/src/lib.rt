//! The model that the core stands for: its states, its events and answers, and the laws of all its runs.
#![tactic(auto)]

mod laws;
mod reply;

pub use laws::{
    decisions_are_runs, installs_are_logged, installs_are_versions, refusals_are_determined,
    replies_are_determined, runs_are_serializable, runs_go_on, states_are_determined,
};
pub use reply::{CoreFault, Reply};
