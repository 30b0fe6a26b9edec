//! Whether what a search found is right: an order, and a cycle.

ghost use Rattle.std.specs.Prelude.{◌≡◌, ◌≤◌, ◌<◌, ◌^◌, ◌⊎◌, ◌↔◌, IfOk, IsTrue, List, Some, length, slice_get, ℕ};
ghost use Rattle.sgt_history.specs.Conflicts.{IsCycle};
ghost use Rattle.sgt_history.specs.Transaction.{Transaction};
ghost use Rattle.sgt_graph.specs.Graph.{Goes};
ghost use Rattle.sgt_graph.specs.declared.edge.Edge.{Edge};
ghost use Rattle.sgt_history_kept.specs.Decided.{GoesForward, IsAskedBefore, IsKeptFrom};
ghost use Rattle.sgt_history_time.specs.Steps.{StandsBefore};
ghost use Rattle.sgt_history_verdict.specs.Steps.{place_behind};

use crate::asked::Asked;
use crate::places::{all_lead_on, place_at, places_of};
use sgt_graph::Edge;
use sgt_history_time::{is_before, is_earlier, keeps_real_time, keeps_sessions};
use std::alloc::{AllocError, Global};

/// Whether the first line is asked to stand before the second.
pub(crate) fn is_asked(asked: &Asked, first: u32, second: u32) -> bool
    ensures { IsTrue result ↔ IsAskedBefore asked.now first second }
{
    is_earlier(asked.sessions.as_slice(), first, second)
        || is_before(asked.times.as_slice(), first, second)
}

/// Whether the order has all lines, all edges lead onward in it, and it keeps what is asked.
pub fn goes_forward(
    alloc: Global,
    lines: usize,
    edges: &[Edge],
    asked: &Asked,
    order: &[u32],
) -> Result<bool, AllocError>
    requires { lines ≤ 2 ^ 32 }
    ensures { IfOk result (λ yes. IsTrue yes → (h : List (Transaction ℕ ℕ)) → IsKeptFrom h lines edges.now asked.now
        → GoesForward h asked.now order.now) }
{
    let Some(places) = places_of(alloc, lines, order)? else {
        return Ok(false);
    };
    if !all_lead_on(places.as_slice(), edges) {
        return Ok(false);
    }
    if !keeps_real_time(order, asked.times.as_slice()) {
        return Ok(false);
    }
    keeps_sessions(alloc, order, asked.sessions.as_slice())
}
