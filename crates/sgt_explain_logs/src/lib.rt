//! Logs without a certificate, explained: what `certify` answers of them, and why.
#![tactic(auto)]

mod anomaly;
mod answer;
mod cycles;
mod either;
mod engine;
mod faults;
mod logs;
mod order;
mod peeking;
mod steps;
mod taking;
mod telling;
mod walk;
mod yes;

pub use answer::{Answer, answer_of};
pub use either::explain_either;
pub use peeking::{Peeked, are_logs, peek};
pub use taking::{Logs, read_logs};
