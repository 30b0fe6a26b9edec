//! Words on a line of a history that can't be read: which member or operation, and what stands there.
#![tactic(auto)]

mod answer;
mod judge;
mod mistake;
mod one_line;
mod strings;
mod tail;
mod telling;
mod transaction;
mod walk;

pub use answer::{Unread, answered};
pub use tail::Tail;
pub use telling::unreadable;
pub use transaction::Asked;
