//! The search for the certificate of logs that have none. What it finds is checked by who asks for it.
#![tactic(auto)]

mod finding;
mod reading;
mod search;
mod steps;

pub use finding::{Found, Proof, Reason, find};
