//! The audit of a bundle with several sections judged at once.
#![tactic(auto)]

mod cutting;
mod engine;
mod head;
mod job;
mod judging;
mod long;
mod release;
mod rules;
mod running;
mod sections;
mod tally;
mod workers;

pub use engine::audit_with;
