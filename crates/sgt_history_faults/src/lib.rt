//! The first fault of a history, or that it has none.
#![tactic(auto)]

mod collecting;
mod fault;
mod first;
mod giving;
mod judging;
mod mine;
mod rows;
mod scanning;
mod sorting;
mod touch;
mod touching;
mod values;

pub use fault::Fault;
pub use first::{Judged, judge};
pub use touch::Touch;
