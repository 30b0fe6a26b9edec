//! `check_against`: whether a given order of a history's transactions explains it, and keeps real time and sessions where that is wanted,
//! with the first place where it doesn't.
#![tactic(auto)]

mod answer;
mod breaking;
mod engine;
mod laws;
mod order;
mod roll;
mod run;
mod texts;

pub use engine::check_against;
pub use laws::{
    a_broken_order_serves_none, a_step_back_keeps_none, a_stray_line_serves_none,
    a_yes_is_told_exactly_of_what_serves,
};
