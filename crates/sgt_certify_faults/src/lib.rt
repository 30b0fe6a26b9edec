//! Faults of logs that no certificate mends: the first line that has one, and the least of its faults.
#![tactic(auto)]

mod asked;
mod first;
mod laws;
mod lines;
mod reading;
mod watch;

pub use first::{FirstFault, fault_within, first_fault};
pub use laws::faults_exclude_certificates;
pub use watch::Watch;
