//! Steps along lines of which none stands twice, in one pass over the pairs.

ghost use Rattle.std.specs.Prelude.{◌≡◌, ◌+◌, ◌↔◌, ℕ, List, Option, Some, All, IfOk, IfSome, IsTrue, length, slice_get};
ghost use Rattle.sgt_history_conflicts.specs.Edges.{JoinsTouches};
ghost use Rattle.sgt_history_faults.specs.declared.touch.Touch.{Touch};
ghost use Rattle.sgt_graph.specs.declared.edge.Edge.{Edge};
ghost use Rattle.sgt_history_verdict.specs.Steps.{AreAlong, AreBest, IsOf, Leads};

use crate::along::line_behind;
use crate::step::{Step, least, step_of};
use sgt_graph::Edge;
use sgt_history_faults::Touch;
use std::alloc::{AllocError, Global};

/// The line behind each of these lines, by line.
pub(crate) fn lines_behind(alloc: Global, lines: &[u32]) -> Result<Vec<Option<u32>>, AllocError> {
    let mut greatest = 0;
    for line in lines {
        if *line > greatest {
            greatest = *line;
        }
    }
    let mut behind = vec![in alloc; None; greatest as usize + 1]?;
    for place in 0..lines.len() {
        if let Some(line) = behind.get_mut(lines[place] as usize) {
            *line = Some(line_behind(lines, place));
        }
    }
    Ok(behind)
}

/// Whether the step leads from one of the lines to that behind it.
fn is_along(behind: &[Option<u32>], step: &Step) -> bool
    ensures { IsTrue result ↔ (slice_get behind.now step.now.from ≡ Some (Some step.now.to)) }
{
    match behind.get(step.from as usize) {
        Some(Some(line)) => *line == step.to,
        _ => false,
    }
}

/// Keeps the step with the best ones by line, if it is less than that of its line.
fn keep(best: &mut [Option<Step>], ranks: &[u32], step: Step)
    ensures { (touches : List Touch) (pairs : List Edge) (behind : List (Option ℕ)) (n : ℕ) (pair : Edge)
        → slice_get pairs n ≡ Some pair
        → IsOf touches pair step → slice_get behind step.from ≡ Some (Some step.to)
        → AreBest touches pairs ranks.now behind n best.old
        → AreBest touches pairs ranks.now behind (n + 1) best.new }
{
    let at = step.from as usize;
    if at < best.len() {
        best[at] = Some(least(ranks, best[at], step));
    }
}

/// The least step of the pairs from each line to that behind it, by line.
pub(crate) fn best_steps(
    alloc: Global,
    touches: &[Touch],
    pairs: &[Edge],
    ranks: &[u32],
    behind: &[Option<u32>],
) -> Result<Vec<Option<Step>>, AllocError>
    requires { All (JoinsTouches touches.now) pairs.now }
    ensures { IfOk result (λ best. AreBest touches.now pairs.now ranks.now behind.now (length pairs.now) best.items) }
{
    let mut best = vec![in alloc; None; behind.len()]?;
    for pair in pairs {
        let step = step_of(touches, *pair);
        if is_along(behind, &step) {
            keep(best.as_mut_slice(), ranks, step);
        }
    }
    Ok(best)
}

/// The step that is kept of a line, if it leads from there to the other.
fn step_at(best: &[Option<Step>], from: u32, to: u32) -> Option<Step>
    ensures { IfSome result (λ s. (slice_get best.now from ≡ Some (Some s)) × Leads s from to) }
{
    match best.get(from as usize) {
        Some(Some(step)) if step.from == from && step.to == to => Some(*step),
        _ => None,
    }
}

/// The steps along the lines, if of each one is kept.
fn kept_along(
    alloc: Global,
    best: &[Option<Step>],
    lines: &[u32],
) -> Result<Option<Vec<Step>>, AllocError>
    ensures { IfOk result
        (λ found. IfSome found (λ steps. (touches : List Touch) (pairs : List Edge) (ranks : List ℕ)
        (behind : List (Option ℕ))
        → AreBest touches pairs ranks behind (length pairs) best.now
        → AreAlong touches pairs ranks lines.now steps.items)) }
{
    let mut steps = Vec::new(alloc);
    for place in 0..lines.len() {
        match step_at(best, lines[place], line_behind(lines, place)) {
            None => return Ok(None),
            Some(step) => steps.push(step)?,
        }
    }
    Ok(Some(steps))
}

/// The steps along these lines, if some are found, which they are where no line stands twice and each leads to the
/// next. Of several from one line to another the least. Takes time in proportion to lines and pairs. That they are
/// found isn't proved: who asks for them has another way.
pub(crate) fn quick_steps(
    alloc: Global,
    touches: &[Touch],
    pairs: &[Edge],
    ranks: &[u32],
    lines: &[u32],
) -> Result<Option<Vec<Step>>, AllocError>
    requires { All (JoinsTouches touches.now) pairs.now }
    ensures { IfOk result
        (λ found. IfSome found (λ steps. AreAlong touches.now pairs.now ranks.now lines.now steps.items)) }
{
    let behind = lines_behind(alloc, lines)?;
    let best = best_steps(alloc, touches, pairs, ranks, behind.as_slice())?;
    kept_along(alloc, best.as_slice(), lines)
}
