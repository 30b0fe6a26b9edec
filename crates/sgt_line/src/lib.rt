//! What the words of the command line say of files, and what is left for the program; what a replay or a run wrote,
//! cut.
#![tactic(auto)]

mod clash;
mod kind;
mod line;
mod name;
mod rule;
mod texts;
mod written;

pub use kind::tells_lines;
pub use line::Line;
pub use name::{CommandName, named};
pub use rule::names_rule;
pub use texts::{behind_first, first_of, last_of, only_of};
pub use written::{cut, has_refusal, shown, strict_status};
