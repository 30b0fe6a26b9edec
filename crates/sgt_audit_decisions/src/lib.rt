//! The decisions of a certificate: looked up by their transactions, and judged by themselves.
#![tactic(auto)]

mod cycles;
mod decided;
mod outcome;
mod ranks;
mod steps;
mod table;

pub use cycles::are_cycles;
pub use decided::{Decided, Ruling};
pub use ranks::are_ranks;
pub use steps::{Edge, Steps};
