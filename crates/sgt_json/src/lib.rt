//! An answer of the program as one line of JSON.
#![tactic(auto)]

mod forms;
mod names;
mod object;
mod piece;
mod quoted;
mod scan;
mod tally;

pub use object::{Asked, object_of};
pub use tally::Tally;
