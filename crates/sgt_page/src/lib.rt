//! A page of HTML that shows an answer.
#![tactic(auto)]

mod answer;
mod cut;
mod fixed;
mod page;
mod rule;
mod sentence;
mod verdict;
mod written;

pub use answer::{Answered, page_of_answer};
pub use page::{Page, page_of};
pub use rule::rule_in;
pub use verdict::{OfHistory, OfLogs};
