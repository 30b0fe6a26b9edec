//! A cycle of conflicts, with what its steps are found by.

use sgt_history::Graph;
use sgt_history_conflicts::Parts;
use sgt_history_faults::Touch;

/// A cycle of conflicts in the least graph that has one.
#[derive(Drop)]
pub struct Cyclic {
    pub graph: Graph,
    /// The lines on the first cycle, each in conflict with the next, the last with the first.
    pub cycle: Vec<u32>,
    pub touches: Vec<Touch>,
    /// The pairs of touches that conflict.
    pub pairs: Parts,
}
