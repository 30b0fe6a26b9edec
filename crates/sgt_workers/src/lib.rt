//! The pool of workers that runs the scripts of a service: a queue of numbered jobs, one worker for each state, and the
//! gate at which a test may hold a worker.
#![tactic(auto)]

mod fault;
mod gate;
mod order;
mod queue;
mod ticket;
mod work;
mod worker;
mod workers;

pub use fault::{PoolFail, PoolFault};
pub use gate::{Gate, NoGate, Place};
pub use ticket::{Done, Ending, Ticket};
pub use work::{Job, Work};
pub use workers::pool;
