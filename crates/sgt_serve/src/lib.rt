//! The certifier of one thread, served line by line.
#![tactic(auto)]

mod bundles;
mod ending;
mod engine;
mod fail;
mod last;
mod laws;
mod opening;
mod places;
mod stop;
mod talking;
mod turning;
mod writing;

pub use bundles::Bundles;
pub use engine::serve;
pub use fail::ServeFail;
pub use last::Last;
pub use laws::talks_are_chains;
pub use places::{MemBundles, NoBundles};
pub use sgt_courses::{Answer, CutFault, courses_are_chains, courses_are_runs, fronts_are_courses};
pub use sgt_pipe::{Handed, HandedBundle, KeepFault, Pipe, Refusals};
