//! The sections of a bundle, each judged by itself, and what their own faults have to do with the first fault of the
//! text.
#![tactic(auto)]

mod judging;
mod laws;

pub use judging::{Judged, NextLine, begin_section, judge_lines, judge_section};
pub use laws::{
    faultless_sections_are_valid_where_the_walks_are, first_faulty_section_has_the_first_fault,
};
