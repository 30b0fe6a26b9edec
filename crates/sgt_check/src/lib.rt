//! `check`: whether a history is serializable, with what shows that it isn't.
#![tactic(auto)]

mod answer;
mod cycle;
mod engine;
mod fault;
mod key;
mod laws;
mod naming;
mod options;
mod ranks;
mod yes;

pub use answer::{Answer, cyclic_text, faulty_text, serial_text, unread_text};
pub use cycle::push_step;
pub use engine::check;
pub use fault::{push_fault, push_operation};
pub use laws::{
    a_text_spells_one_history, a_yes_is_told_exactly_of_what_is_serializable,
    an_unreadable_line_spells_none,
};
pub use naming::{Naming, push_line_number, push_name};
pub use options::Options;
pub use ranks::ranks_of;
pub use yes::push_counts;
