//! The serial run of a bundle's committed transactions: alone, one after another, by rank.
#![tactic(auto)]

mod engine;
mod entries;
mod finals;
mod grouped;
mod groups;
mod laws;
mod line;
mod operations;
mod order;
mod report;
mod run;
mod sorted;
mod store;
mod text;
mod written;

pub use engine::serial;
pub use laws::{agreement_excludes_differences, first_differences_are_one, runs_agree_or_differ};
pub use report::{SerialFail, SerialReport, SerialTx, SiteChange, SiteValue};
pub use run::serial_run;
