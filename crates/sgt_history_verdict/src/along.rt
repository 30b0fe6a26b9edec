//! Steps along lines, each from one line to the next, and from the last to the first.

ghost use Rattle.std.specs.Prelude.{◌≡◌, ◌<◌, Some, All, IfOk, length, slice_get};
ghost use Rattle.sgt_history_conflicts.specs.Edges.{JoinsTouches};
ghost use Rattle.sgt_history_verdict.specs.Steps.{AreAlong, IsBest, LeadAlong, Leads, place_behind};

use crate::step::{Step, least, step_of};
use sgt_graph::Edge;
use sgt_history_faults::Touch;
use std::alloc::{AllocError, Global};

/// The line behind this place; behind the last place is the first.
pub fn line_behind(lines: &[u32], place: usize) -> u32
    requires { place < length lines.now }
    ensures { slice_get lines.now (place_behind place (length lines.now)) ≡ Some result }
{
    if place + 1 < lines.len() {
        lines[place + 1]
    } else {
        lines[0]
    }
}

/// The least step of these pairs from one line to another, if there is one.
pub(crate) fn least_between(
    touches: &[Touch],
    pairs: &[Edge],
    ranks: &[u32],
    lines: (u32, u32),
) -> Option<Step>
    requires { All (JoinsTouches touches.now) pairs.now }
    ensures { IsBest touches.now pairs.now ranks.now (λ s. Leads s lines.0 lines.1) (length pairs.now) result }
{
    let (from, to) = lines;
    let mut best = None;
    for pair in pairs {
        let step = step_of(touches, *pair);
        if step.from == from && step.to == to {
            best = Some(least(ranks, best, step));
        }
    }
    best
}

/// The steps along these lines, where there are some. Takes time in proportion to lines times pairs.
pub(crate) fn steps_along(
    alloc: Global,
    touches: &[Touch],
    pairs: &[Edge],
    ranks: &[u32],
    lines: &[u32],
) -> Result<Vec<Step>, AllocError>
    requires joins { All (JoinsTouches touches.now) pairs.now }
    requires lead { LeadAlong touches.now pairs.now lines.now }
    ensures { IfOk result (λ steps. AreAlong touches.now pairs.now ranks.now lines.now steps.items) }
{
    let mut steps = Vec::new(alloc);
    for place in 0..lines.len() {
        let ends = (lines[place], line_behind(lines, place));
        let Some(step) = least_between(touches, pairs, ranks, ends) else {
            unreachable!()
        };
        steps.push(step)?;
    }
    Ok(steps)
}
