//! The program `sgt` over any reader and writers: what the words of the command line ask for, and the exit status.
#![tactic(auto)]

mod chain;
mod commands;
mod ending;
mod engines;
mod order;

pub use chain::{audit_next, end_chain};
pub use commands::{give_up, program, refuse_words};
pub use order::check_order;
