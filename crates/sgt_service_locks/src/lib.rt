//! A service of one certifier and its sites for many threads: the certifier under one lock, each site under its own,
//! and a ledger that ties the history's decisions to what the threads were told.
#![tactic(auto)]

mod active;
mod ending;
mod guarded;
mod ledgers;
mod logged;
mod opened;
mod pledges;
mod pledging;
mod read;
mod seat;
mod service;

pub use active::{Active, Back};
pub use ledgers::{Begins, Blanks, Ledgers};
pub use opened::Opened;
pub use seat::Seat;
pub use service::Service;
pub use sgt_service_agreement::EntryCounts;
