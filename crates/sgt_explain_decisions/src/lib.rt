//! What an explanation says of the decisions of a bundle: by themselves, and of the logs against
//! them.
#![tactic(auto)]

mod cycles;
mod ends;
mod fate;
mod order;
mod placed;
mod refusals;
mod sought;
mod twice;
mod walks;
mod words;

pub use cycles::unmet_in;
pub use ends::{push_end, push_not_ended};
pub use fate::push_fate;
pub use order::{Ranked, RanksShown, against_ranks, push_decision_order, push_rank_order};
pub use placed::{Placed, number_on, placed_in};
pub use refusals::{MOST_REFUSALS, push_first_refusals, push_refusals};
pub use sought::{Found, Sought, sought_in};
pub use twice::push_decided_twice;
pub use walks::push_walk_shape;
