//! What an explanation says of what one transaction did in the logs.
#![tactic(auto)]

mod conflicts;
mod dealings;
mod sorted;

pub use conflicts::Pair;
pub use dealings::{Own, push_dealings};
