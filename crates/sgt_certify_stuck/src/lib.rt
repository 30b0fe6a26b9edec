//! Whether a set of transactions is stuck: checks of logs that have no certificate.
#![tactic(auto)]

mod apart;
mod ends;
mod onward;
mod sets;
mod stuck;

pub use ends::first_left;
pub use onward::{conflicts_follow, ends_follow};
pub use sets::set_of;
pub use stuck::{Circle, StuckSet, is_stuck};
