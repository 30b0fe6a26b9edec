//! The auditor of chains: bundles of one system in a row.
#![tactic(auto)]

mod auditor;
mod counts;
mod faults;
mod going_on;
mod laws;

pub use auditor::ChainAuditor;
pub use faults::ChainFault;
pub use laws::{chains_run_serially, faults_exclude_chains};
