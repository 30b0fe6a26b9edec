//! An entry of a log without its item's name.
#![tactic(auto)]

mod entry;

pub use entry::{Act, CompactEntry, compact, entry_of};
