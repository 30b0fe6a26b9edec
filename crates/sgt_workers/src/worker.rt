//! One worker: what it begins with, and what it leaves.

use crate::queue::QueuePass;
use crate::ticket::Done;

/// What a worker begins with.
#[derive(Drop)]
pub struct Kit<S> {
    pub state: S,
    pub pass: QueuePass,
}

/// What a worker leaves at its stop: its state, its pass, and a Done of each job that it took.
#[derive(Drop)]
pub struct Report<S> {
    pub state: S,
    pub pass: QueuePass,
    pub dones: Vec<Done>,
}
