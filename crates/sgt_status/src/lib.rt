//! Exit statuses, which files are one, and how a name is told.
#![tactic(auto)]

mod lines;
mod name;
mod place;
mod status;

pub use lines::Lines;
pub use name::LineName;
pub use place::{FileId, Place, overwritten};
pub use status::{behind, expected, greater};
