//! Which conflict leads from each line to the next, where one does.

ghost use Rattle.std.specs.Prelude.{◌≡◌, ◌↔◌, ℕ, List, Option, Some, All, IfOk, IfSome, IsTrue, length, slice_get};
ghost use Rattle.sgt_history.specs.Transaction.{Transaction};
ghost use Rattle.sgt_history_conflicts.specs.Edges.{ArePairsOf, HasPairs, JoinsTouches};
ghost use Rattle.sgt_history_faults.specs.Judged.{IsFaultlessBy};
ghost use Rattle.sgt_history_faults.specs.declared.touch.Touch.{Touch};
ghost use Rattle.sgt_graph.specs.declared.edge.Edge.{Edge};
ghost use Rattle.sgt_history_verdict.specs.Between.{AreBestAlong, AreLeastAlong};
ghost use Rattle.sgt_history_verdict.specs.Steps.{AreBest};

use crate::along::{least_between, line_behind};
use crate::quick::{best_steps, lines_behind};
use crate::step::Step;
use sgt_graph::Edge;
use sgt_history::Graph;
use sgt_history_conflicts::{Parts, edges_in};
use sgt_history_faults::Touch;
use std::alloc::{AllocError, Global};

/// What is kept of the line, if the other is noted behind it.
fn best_at(
    behind: &[Option<u32>],
    best: &[Option<Step>],
    from: u32,
    to: u32,
) -> Option<Option<Step>>
    ensures { IfSome result (λ o. (slice_get behind.now from ≡ Some (Some to)) × (slice_get best.now from ≡ Some o)) }
{
    match behind.get(from as usize) {
        Some(Some(line)) if *line == to => best.get(from as usize).copied(),
        _ => None,
    }
}

/// What is kept of each line, if the next one is noted behind each.
fn quickly(
    alloc: Global,
    behind: &[Option<u32>],
    best: &[Option<Step>],
    lines: &[u32],
) -> Result<Option<Vec<Option<Step>>>, AllocError>
    ensures { IfOk result (λ found. IfSome found (λ steps. (touches : List Touch) (pairs : List Edge) (ranks : List ℕ)
        → AreBest touches pairs ranks behind.now (length pairs) best.now
        → AreBestAlong touches pairs ranks lines.now steps.items)) }
{
    let mut steps = Vec::new(alloc);
    for place in 0..lines.len() {
        match best_at(behind, best, lines[place], line_behind(lines, place)) {
            None => return Ok(None),
            Some(step) => steps.push(step)?,
        }
    }
    Ok(Some(steps))
}

/// The least step from each line to the next, where there is one. Takes time in proportion to lines times pairs.
fn slowly(
    alloc: Global,
    touches: &[Touch],
    pairs: &[Edge],
    ranks: &[u32],
    lines: &[u32],
) -> Result<Vec<Option<Step>>, AllocError>
    requires { All (JoinsTouches touches.now) pairs.now }
    ensures { IfOk result (λ steps. AreBestAlong touches.now pairs.now ranks.now lines.now steps.items) }
{
    let mut steps = Vec::new(alloc);
    for place in 0..lines.len() {
        let ends = (lines[place], line_behind(lines, place));
        steps.push(least_between(touches, pairs, ranks, ends))?;
    }
    Ok(steps)
}

/// The same, in one pass over the pairs where no line stands twice.
fn best_between(
    alloc: Global,
    touches: &[Touch],
    pairs: &[Edge],
    ranks: &[u32],
    lines: &[u32],
) -> Result<Vec<Option<Step>>, AllocError>
    requires { All (JoinsTouches touches.now) pairs.now }
    ensures { IfOk result (λ steps. AreBestAlong touches.now pairs.now ranks.now lines.now steps.items) }
{
    let behind = lines_behind(alloc, lines)?;
    let best = best_steps(alloc, touches, pairs, ranks, behind.as_slice())?;
    if let Some(steps) = quickly(alloc, behind.as_slice(), best.as_slice(), lines)? {
        return Ok(steps);
    }
    slowly(alloc, touches, pairs, ranks, lines)
}

/// Of the conflicts from each of the lines to the next, and from the last to the first, the least, or None where
/// there is none: by kind (ww, wr, rw), by `ranks`, which say where the name of each item stands among the names, by
/// version. Of a history without faults that has these touches, of which these pairs conflict. Takes time in
/// proportion to lines and pairs, if no line stands twice. Err: memory ran out.
pub fn conflicts_along(
    alloc: Global,
    touches: &[Touch],
    pairs: &Parts,
    ranks: &[u32],
    lines: &[u32],
) -> Result<Vec<Option<Step>>, AllocError>
    requires { HasPairs touches.now pairs.now }
    ensures size { IfOk result (λ found. length found.items ≡ length lines.now) }
    ensures least { IfOk result (λ found. (h : List (Transaction ℕ ℕ)) → IsFaultlessBy h touches.now
        → AreLeastAlong h ranks.now lines.now found.items) }
{
    best_between(alloc, touches, edges_in(pairs, Graph::Whole), ranks, lines)
}
