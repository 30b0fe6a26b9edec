//! The order that has the least line first of those that may come next. It is found from an order of all lines: of what
//! is asked only the steps that count in it are put beside the conflicts, and those are sorted.

ghost use Rattle.std.specs.Prelude.{◌≡◌, ◌≤◌, ◌^◌, All, IfOk, IfSome, List, OnOk, ℕ};
ghost use Rattle.sgt_history.specs.Transaction.{Transaction};
ghost use Rattle.sgt_graph.specs.Graph.{JoinsNodes};
ghost use Rattle.sgt_graph.specs.declared.edge.Edge.{Edge};
ghost use Rattle.sgt_history_kept.specs.Decided.{IsKeptFrom, IsStepAmong};
ghost use Rattle.sgt_history_kept.specs.Least.{IsLeastForward};

use crate::asked::Asked;
use crate::checking::is_asked;
use crate::drawing::{ends_of, number_of, sessions_of};
use sgt_graph::{Edge, Ordered, order};
use sgt_history_time::{Times, times_at};
use std::alloc::{AllocError, Global};

/// The number at this place, or 0.
fn number_at(numbers: &[u32], place: u32) -> u32 {
    match numbers.get(place as usize) {
        Some(number) => *number,
        None => 0,
    }
}

/// Where each of the lines stands in the order.
fn places_in(alloc: Global, lines: &[u32]) -> Result<Vec<u32>, AllocError> {
    let mut places = vec![in alloc; 0u32; lines.len()]?;
    for at in 0..lines.len() {
        if let Some(place) = places.get_mut(lines[at] as usize) {
            *place = number_of(at);
        }
    }
    Ok(places)
}

/// From each line of a session a step to the next one.
fn session_steps(
    alloc: Global,
    sessions: &[Option<u32>],
    steps: &mut Vec<Edge>,
) -> Result<(), AllocError> {
    let lines = sessions_of(alloc, sessions)?;
    for at in 1..lines.len() {
        let (before, from) = lines[at - 1];
        let (session, to) = lines[at];
        if before == session {
            steps.push(Edge { from, to })?;
        }
    }
    Ok(())
}

/// Of two lines, if there is a first one, that which stands later.
fn later(places: &[u32], before: Option<u32>, line: u32) -> u32 {
    match before {
        Some(other) if number_at(places, other) > number_at(places, line) => other,
        _ => line,
    }
}

/// Times at which lines were done, in their order, and with each the line that stands last of those done up to then.
fn last_done(
    alloc: Global,
    times: &[Option<Times>],
    lines: &[u32],
) -> Result<Vec<(u64, u32)>, AllocError> {
    let places = places_in(alloc, lines)?;
    let ends = ends_of(alloc, times)?;
    let mut done = Vec::with_capacity(alloc, ends.len())?;
    let mut last = None;
    for at in 0..ends.len() {
        let (then, line) = ends[at];
        let next = later(places.as_slice(), last, line);
        done.push((then, next))?;
        last = Some(next);
    }
    Ok(done)
}

/// The place behind all times before this one.
fn first_not_before(done: &[(u64, u32)], begin: u64) -> usize {
    done.partition_point(|end| end.0 < begin)
}

/// To each line that ran a step from the one that stands last of those that were done before it began.
fn time_steps(
    alloc: Global,
    times: &[Option<Times>],
    lines: &[u32],
    steps: &mut Vec<Edge>,
) -> Result<(), AllocError> {
    let done = last_done(alloc, times, lines)?;
    for at in 0..lines.len() {
        let to = lines[at];
        if let Some(ran) = times_at(times, to) {
            let behind = first_not_before(done.as_slice(), ran.begin);
            if let Some(end) = done.get(behind.wrapping_sub(1)) {
                steps.push(Edge { from: end.1, to })?;
            }
        }
    }
    Ok(())
}

/// Of what is asked a step to each line from the one that stands last of those asked to stand before it, at least.
fn last_steps(alloc: Global, asked: &Asked, lines: &[u32]) -> Result<Vec<Edge>, AllocError> {
    let mut steps = Vec::new(alloc);
    session_steps(alloc, asked.sessions.as_slice(), &mut steps)?;
    time_steps(alloc, asked.times.as_slice(), lines, &mut steps)?;
    Ok(steps)
}

/// Puts the step, if it is asked for, between two of so many lines.
fn put_step(
    asked: &Asked,
    lines: usize,
    step: Edge,
    steps: &mut Vec<Edge>,
) -> Result<(), AllocError>
    ensures { OnOk result ((conflicts : List Edge) → All (IsStepAmong lines conflicts asked.now) steps.old.items
        → All (IsStepAmong lines conflicts asked.now) steps.new.items) }
{
    if step.from as usize >= lines || step.to as usize >= lines {
        return Ok(());
    }
    if !is_asked(asked, step.from, step.to) {
        return Ok(());
    }
    steps.push(step)?;
    Ok(())
}

/// The conflicts, and those of the steps that are asked for.
fn steps_among(
    alloc: Global,
    lines: usize,
    edges: &[Edge],
    asked: &Asked,
    steps: &[Edge],
) -> Result<Vec<Edge>, AllocError>
    requires { All (JoinsNodes lines) edges.now }
    ensures { IfOk result (λ all. All (IsStepAmong lines edges.now asked.now) all.items) }
{
    let mut all = Vec::from_slice(alloc, edges)?;
    for at in 0..steps.len() {
        put_step(asked, lines, steps[at], &mut all)?;
    }
    Ok(all)
}

/// The order by all conflicts, and by what is asked where it counts in an order of these lines: that of all steps,
/// if they are in theirs.
pub(crate) fn least_order(
    alloc: Global,
    lines: usize,
    edges: &[Edge],
    asked: &Asked,
    guess: &[u32],
) -> Result<Option<Vec<u32>>, AllocError>
    requires few { lines ≤ 2 ^ 32 }
    requires ends { All (JoinsNodes lines) edges.now }
    ensures { IfOk result (λ found. IfSome found (λ order. (h : List (Transaction ℕ ℕ))
        → IsKeptFrom h lines edges.now asked.now → IsLeastForward h asked.now order.items)) }
{
    let steps = last_steps(alloc, asked, guess)?;
    let all = steps_among(alloc, lines, edges, asked, steps.as_slice())?;
    match order(alloc, lines, all.as_slice())? {
        Ordered::Order(order) => Ok(Some(order)),
        Ordered::Cycle(_) => Ok(None),
    }
}
