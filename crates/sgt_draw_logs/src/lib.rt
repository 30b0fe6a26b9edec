//! A picture of a bundle, or of logs without a certificate: of the bundle that `certify` makes of them, or of the
//! cycle by which there is none.
#![tactic(auto)]

mod answer;
mod engine;

pub use engine::draw_either;
