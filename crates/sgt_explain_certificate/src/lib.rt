//! What an explanation says of a second line that is no certificate, or whose ranks are wrong.
#![tactic(auto)]

mod certificate;
mod compact;
mod ranks;

pub use certificate::push_certificate;
pub use ranks::push_ranks;
