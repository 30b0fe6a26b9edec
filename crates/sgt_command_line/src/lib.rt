//! What the words of `sgt`'s command line ask for.
#![tactic(auto)]

mod behind;
mod check;
mod choice;
mod commands;
mod help;
mod options;
mod way;

pub use check::CheckWanted;
pub use choice::{Choice, NoChoice, asks_talk, choose};
pub use way::{Way, awaited, wanted_by, way_of};
