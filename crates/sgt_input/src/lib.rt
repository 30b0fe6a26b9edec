//! Inputs: a reader's lines, taken one after another, up to the end or the first that can't be read.
#![tactic(auto)]

mod reading;
mod sites;
mod taker;
mod told;

pub use reading::{Stop, read_lines};
pub use sites::{items_of, take_site};
pub use taker::Taker;
pub use told::unreadable_line;
