//! The store and the log of a site.
#![tactic(auto)]

mod cell;
mod cells;
mod entry_log;
mod fault;
mod laws;
mod near;
mod pending;
mod readings;
mod site;
mod site_part;

pub use cell::{Accesses, Install, Reader, Writer};
pub use entry_log::EntryLog;
pub use fault::SiteFault;
pub use laws::{items_are_refused_once, pledges_are_refused_once, reads_are_refused_once};
pub use near::touched_near;
pub use site::Site;
