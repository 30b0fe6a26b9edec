//! What the workers of a pool do with a job.

use crate::ticket::Done;
use std::sync::Wait;

/// A script with its number among the scripts of a pool, from 1.
#[derive(Clone, Copy, Debug)]
pub struct Job<S> {
    pub number: u64,
    pub script: S,
}

/// What the workers of a pool, which share one value of this type, do with a job. Its ghost members are what a pool
/// passes on to its caller.
pub trait Work<S, C, E> {
    ghost use Rattle.std.specs.Prelude.{◌≡◌, ℕ, IfOk, IfErr};
    ghost use Rattle.sgt_workers.specs.declared.ticket.Done.{Done};

    /// A right Done of the job with this number and this script.
    ghost answers: { Self → ℕ → C → Done → Type 0 };

    /// A fault that a call on the job with this number and this script may end with.
    ghost faults: { Self → ℕ → C → E → Type 0 };

    /// What a call keeps of a worker's state.
    ghost keeps: { S → S → Type 0 };

    /// What a call on the job with this number and this script that answers with this Done makes of a worker's state:
    /// the one before, and the one after.
    ghost does: { Self → S → ℕ → C → Done → S → Type 0 };

    /// Runs the script of a job, in a state that no other worker has.
    fn work<R: Wait>(&self, rt: &R, state: &mut S, job: Job<&C>) -> Result<Done, E>
        ensures job { IfOk result (λ d. d.job ≡ job.entry.number) }
        ensures answer { IfOk result
            (λ d. answers self.now job.entry.number job.entry.script.now d) }
        ensures fault { IfErr result
            (λ e. faults self.now job.entry.number job.entry.script.now e) }
        ensures does { IfOk result
            (λ d. does self.now state.old job.entry.number job.entry.script.now d state.new) }
        ensures keeps { keeps state.old state.new };

    ghost keeps_same: { (s : S) → keeps s s };

    ghost keeps_on: { (r s t : S) → keeps r s → keeps s t → keeps r t };
}
