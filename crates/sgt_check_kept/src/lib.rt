//! `check_kept`: whether a history is serializable by an order that keeps real time and sessions too, with what shows that it isn't.
#![tactic(auto)]

mod answer;
mod deciding;
mod engine;
mod link;
mod links;
mod setting;
mod text;

pub use engine::check_kept;
pub use link::Link;
pub use setting::Setting;
pub use text::push_link;
