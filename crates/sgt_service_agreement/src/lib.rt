//! Agreement of a certifier and a site whose locks are taken one after another, and the faults of a service that
//! stands on both.
#![tactic(auto)]

mod agreed;
mod counts;
mod fault;

pub use agreed::{agrees, gather_agreed};
pub use counts::EntryCounts;
pub use fault::ServiceFault;
