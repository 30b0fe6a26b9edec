//! Whether lines form a cycle: a step leads from each to the next, and from the last to the first.

ghost use Rattle.std.specs.Prelude.{◌≡◌, ◌≤◌, ◌<◌, ◌⊎◌, Contains, IfOk, IsTrue, List, Some, length, slice_get, ℕ};
ghost use Rattle.sgt_history.specs.Conflicts.{IsCycle};
ghost use Rattle.sgt_history.specs.Transaction.{Transaction};
ghost use Rattle.sgt_graph.specs.Graph.{Goes};
ghost use Rattle.sgt_graph.specs.declared.edge.Edge.{Edge};
ghost use Rattle.sgt_history_kept.specs.Decided.{AreJoined, IsAskedBefore, IsKeptFrom};
ghost use Rattle.sgt_history_time.specs.Steps.{StandsBefore};
ghost use Rattle.sgt_history_verdict.specs.Steps.{place_behind};

use crate::asked::Asked;
use crate::checking::is_asked;
use sgt_graph::Edge;
use sgt_history_time::session_at;
use std::alloc::{AllocError, Global};

/// The line behind this place; behind the last place is the first.
pub(crate) fn line_behind(lines: &[u32], place: usize) -> u32
    requires { place < length lines.now }
    ensures { slice_get lines.now (place_behind place (length lines.now)) ≡ Some result }
{
    if place + 1 < lines.len() {
        lines[place + 1]
    } else {
        lines[0]
    }
}

/// The line behind each of these lines, by line.
fn lines_behind(alloc: Global, lines: &[u32]) -> Result<Vec<Option<u32>>, AllocError> {
    let mut greatest = 0;
    for line in lines {
        if *line > greatest {
            greatest = *line;
        }
    }
    let mut behind = vec![in alloc; None; greatest as usize + 1]?;
    for place in 0..lines.len() {
        if let Some(line) = behind.get_mut(lines[place] as usize) {
            *line = Some(line_behind(lines, place));
        }
    }
    Ok(behind)
}

/// Notes the edge, if there is room for its line.
fn put(joined: &mut Vec<Option<u32>>, edge: Edge)
    ensures { (edges : List Edge) → Contains edges edge → AreJoined edges joined.old.items
        → AreJoined edges joined.new.items }
{
    if edge.from as usize >= joined.len() {
        return;
    }
    joined[edge.from as usize] = Some(edge.to);
}

/// Notes the edge, if it leads from a line to that behind it.
fn note(behind: &[Option<u32>], joined: &mut Vec<Option<u32>>, edge: Edge)
    ensures { (edges : List Edge) → Contains edges edge → AreJoined edges joined.old.items
        → AreJoined edges joined.new.items }
{
    match session_at(behind, edge.from) {
        Some(line) if line == edge.to => put(joined, edge),
        _ => {}
    }
}

/// Of so many lines none has one behind it.
fn none_joined(alloc: Global, lines: usize) -> Result<Vec<Option<u32>>, AllocError>
    ensures { IfOk result (λ joined. (edges : List Edge) → AreJoined edges joined.items) }
{
    let mut joined = Vec::with_capacity(alloc, lines)?;
    'lines: for _ in 0..lines {
        joined.push(None)?;
    }
    Ok(joined)
}

/// Of each line that behind it, if an edge leads there.
fn joined_lines(
    alloc: Global,
    edges: &[Edge],
    behind: &[Option<u32>],
) -> Result<Vec<Option<u32>>, AllocError>
    ensures { IfOk result (λ joined. AreJoined edges.now joined.items) }
{
    let mut joined = none_joined(alloc, behind.len())?;
    for at in 0..edges.len() {
        note(behind, &mut joined, edges[at]);
    }
    Ok(joined)
}

/// Whether a step leads from one line to the other.
fn leads(asked: &Asked, joined: &[Option<u32>], first: u32, second: u32) -> bool
    ensures { IsTrue result → (edges : List Edge) → AreJoined edges joined.now
        → Goes edges first second ⊎ IsAskedBefore asked.now first second }
{
    if let Some(to) = session_at(joined, first) {
        if to == second {
            return true;
        }
    }
    is_asked(asked, first, second)
}

/// Whether the lines form a cycle.
pub fn is_round(
    alloc: Global,
    edges: &[Edge],
    asked: &Asked,
    cycle: &[u32],
) -> Result<bool, AllocError>
    ensures { IfOk result (λ yes. IsTrue yes → (h : List (Transaction ℕ ℕ)) (lines : ℕ)
        → IsKeptFrom h lines edges.now asked.now
        → IsCycle (StandsBefore h asked.now.times.items asked.now.sessions.items) cycle.now) }
{
    if cycle.is_empty() {
        return Ok(false);
    }
    let behind = lines_behind(alloc, cycle)?;
    let joined = joined_lines(alloc, edges, behind.as_slice())?;
    for place in 0..cycle.len() {
        let next = line_behind(cycle, place);
        if !leads(asked, joined.as_slice(), cycle[place], next) {
            return Ok(false);
        }
    }
    Ok(true)
}
