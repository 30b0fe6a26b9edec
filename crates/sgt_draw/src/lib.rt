//! Valid bundles drawn: the committed transactions by rank with their conflicts, and the cycles of refused ones.
#![tactic(auto)]

mod around;
mod canvas;
mod cycles;
mod dot;
mod drawing;
mod edges;
mod engine;
mod increments;
mod lanes;
mod marks;
mod node;
mod row;
mod scene;
mod svg;
mod task;
mod ways;

pub use canvas::{Canvas, Part};
pub use engine::{Answer, answer_to, draw};
pub use task::{Wanted, picture};
