//! What an explanation says of the lines of a bundle: how they are shown, why one spells nothing, and what the lines
//! before it in its section left.
#![tactic(auto)]

mod entries;
mod forms;
mod input;
mod items;
mod section;
mod shown;
mod slips;
mod values;

pub use entries::{clash, kind_name, push_conflict, verb};
pub use forms::{push_format, push_notation, push_section, push_trailing, push_truncated};
pub use input::{after_line, cut_line, text_at};
pub use items::{push_block, push_final, push_if_there, push_item, push_read, push_twice};
pub use section::{Logged, Section, Stated, entry_of, section_before, section_line_at};
pub use shown::{push_aside, push_logged, push_numbered, push_shown};
pub use values::{Made, Misvalued, value_against};
