//! What a transaction's step does at one site, and which sites its draft touches.
#![tactic(auto)]

mod one_site;
mod touched;

pub use one_site::{Ending, end, gather, give_back};
pub use touched::TouchedSites;
