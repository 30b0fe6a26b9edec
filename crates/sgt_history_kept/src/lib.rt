//! Whether an order serves that keeps real time and sessions too: such an order, or a cycle.
#![tactic(auto)]

mod asked;
mod checking;
mod deciding;
mod drawing;
mod first;
mod labels;
mod least;
mod passed;
mod places;
mod plain;
mod quick;
mod rising;
mod round;
mod search;

pub use asked::Asked;
pub use checking::goes_forward;
pub use deciding::{Kept, decide_kept};
pub use passed::{Reason, Unkept, first_unkept};
pub use round::is_round;
