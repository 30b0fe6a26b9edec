//! The core: the certifier and its sites, driven by one thread over events; the laws of its runs; the replay of a
//! file of events.
#![tactic(auto)]

mod engine;
mod input;
mod laws;
mod playing;
mod reading;
mod reply;

pub use engine::replay;
pub use input::{Input, Reading};
pub use laws::{inputs_have_one_reading, unreadable_lines_are_determined};
pub use reading::read_input;
pub use reply::{number_of, write_reply};
pub use sgt_core_machine::Core;
pub use sgt_core_model::{
    CoreFault, Reply, decisions_are_runs, installs_are_logged, installs_are_versions,
    refusals_are_determined, replies_are_determined, runs_are_serializable, runs_go_on,
    states_are_determined,
};
pub use sgt_notation::Event;
