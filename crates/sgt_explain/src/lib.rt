//! Verdicts explained: what a no means, line by line, and of a yes why transactions were refused.
#![tactic(auto)]

mod anomalies;
mod answers;
mod asked;
mod certified;
mod engine;
mod front;
mod lines;
mod noes;
mod reading;
mod replies;
mod rules;
mod shown;
mod steps;
mod topics;
mod yeses;

pub use asked::{Asked, Explained};
pub use engine::{explain, explain_front, explain_topic};
pub use front::{Front, read_front, read_judged};
pub use reading::{empty_buffer, take_some};
pub use topics::{Anomaly, Reply, Topic};
