//! `certify`: the certificate of logs that have none, or the reason why there is none.
#![tactic(auto)]

mod deciding;
mod early;
mod engine;
mod laws;
mod left;
mod making;
mod refuting;
mod taking;
mod telling;

pub use deciding::{Answer, sound_answer};
pub use early::Early;
pub use engine::{certify, fault_answer};
pub use laws::{a_yes_is_told_exactly_where_there_is_a_certificate, the_first_reason_is_told};
pub use refuting::Refusal;
