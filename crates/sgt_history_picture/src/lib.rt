//! A cycle of transactions, drawn from the answer that tells it.
#![tactic(auto)]

mod cycle;
mod graph;
mod picture;
mod places;
mod refusal;
mod short;
mod told;
mod word;

pub use picture::picture_of;
pub use refusal::refusal_picture_of;
