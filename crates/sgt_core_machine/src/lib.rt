//! The certifier and its sites, driven by one thread.
#![tactic(auto)]

mod bundling;
mod cutting;
mod deciding;
mod driver;
mod gathering;
mod installing;
mod looking;
mod machine;
mod records;
mod whole;
mod withdrawing;

pub use driver::{Core, Cut};
