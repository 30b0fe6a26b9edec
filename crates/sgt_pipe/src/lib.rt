//! A pipe: the reader and the writer of one talk, with what happened at both in its order; and the lines that came by
//! it.
#![tactic(auto)]

mod handed;
mod history;
mod inbox;
mod pipe;
mod refusals;

pub use handed::{Handed, HandedBundle, KeepFault};
pub use history::{Act, History};
pub use inbox::{Front, Inbox};
pub use pipe::Pipe;
pub use refusals::Refusals;
