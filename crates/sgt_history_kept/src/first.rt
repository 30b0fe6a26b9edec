//! Whether a cycle is the first of all.

ghost use Rattle.std.specs.Prelude.{◌≡◌, ◌⊎◌, ◌≤◌, ◌^◌, IfOk, IsTrue, List, length, ℕ};
ghost use Rattle.sgt_history.specs.Transaction.{Transaction};
ghost use Rattle.sgt_graph.specs.Graph.{Goes};
ghost use Rattle.sgt_history_kept.specs.Decided.{IsAskedBefore, IsKeptFrom};
ghost use Rattle.sgt_history_kept.specs.FirstCycle.{IsFirstCycleOf};
ghost use Rattle.sgt_history_kept.specs.Labels.{AreLabelsOf};
ghost use Rattle.sgt_history_time.specs.Steps.{StandsBefore};

use crate::asked::Asked;
use crate::labels::{Labels, all_lead_home, are_labeled};
use crate::rising::all_rise;
use crate::round::is_round;
use sgt_graph::Edge;
use std::alloc::{AllocError, Global};

/// Whether no step leads down, or to a lesser key than the least.
fn are_labels(
    alloc: Global,
    edges: &[Edge],
    asked: &Asked,
    labels: &Labels,
) -> Result<bool, AllocError>
    ensures { IfOk result (λ yes. IsTrue yes
        → AreLabelsOf (λ a b. Goes edges.now a b ⊎ IsAskedBefore asked.now a b) labels.now) }
{
    let levels = all_rise(
        alloc,
        edges,
        asked,
        labels.leaves.as_slice(),
        labels.enters.as_slice(),
    )?;
    if !levels {
        return Ok(false);
    }
    all_rise(
        alloc,
        edges,
        asked,
        labels.least.as_slice(),
        labels.keys.as_slice(),
    )
}

/// Whether the cycle is the first of those of as many lines as have keys.
pub(crate) fn is_first(
    alloc: Global,
    edges: &[Edge],
    asked: &Asked,
    cycle: &[u32],
    labels: &Labels,
) -> Result<bool, AllocError>
    requires { length labels.now.keys.items ≤ 2 ^ 32 }
    ensures { IfOk result (λ yes. IsTrue yes → (h : List (Transaction ℕ ℕ))
        → IsKeptFrom h (length labels.now.keys.items) edges.now asked.now
        → IsFirstCycleOf (StandsBefore h asked.now.times.items asked.now.sessions.items) cycle.now) }
{
    let round = is_round(alloc, edges, asked, cycle)?;
    if !round || cycle.is_empty() {
        return Ok(false);
    }
    if !are_labeled(labels, cycle[0] as usize, labels.keys.len()) {
        return Ok(false);
    }
    if !all_lead_home(labels, cycle) {
        return Ok(false);
    }
    are_labels(alloc, edges, asked, labels)
}
