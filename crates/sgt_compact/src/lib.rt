//! Logs whose entries take 24 bytes each, and bundles of them.
#![tactic(auto)]

mod bundle;
mod entries;
mod log;

pub use bundle::{CompactBundle, site_logs};
pub use entries::CompactEntries;
pub use log::CompactLog;
