//! A graph whose edges are the steps, those of time through a chain of moments: as many edges as transactions, not
//! all pairs.

ghost use Rattle.std.specs.Prelude.{◌≤◌, ◌^◌, All, IfOk};
ghost use Rattle.sgt_graph.specs.Graph.{JoinsNodes};

use sgt_graph::Edge;
use sgt_history_time::Times;
use std::alloc::{AllocError, Global};

/// Steps: conflicts, and what is asked.
#[derive(Clone, Copy)]
pub(crate) struct Steps<'a> {
    pub edges: &'a [Edge],
    pub sessions: &'a [Option<u32>],
    pub times: &'a [Option<Times>],
}

/// Which nodes lines are, and moments.
#[derive(Clone, Copy)]
pub(crate) struct Layout {
    pub first_line: u32,
    pub first_moment: u32,
    pub nodes: usize,
}

/// The number, which is below 2^32.
pub(crate) fn number_of(line: usize) -> u32 {
    match u32::try_from(line) {
        Ok(number) => number,
        Err(_) => u32::MAX,
    }
}

/// The lines that ran, by when they began: of each one a moment.
pub(crate) fn begins_of(
    alloc: Global,
    times: &[Option<Times>],
) -> Result<Vec<(u64, u32)>, AllocError> {
    let mut begins = Vec::new(alloc);
    for line in 0..times.len() {
        if let Some(ran) = times[line] {
            begins.push((ran.begin, number_of(line)))?;
        }
    }
    begins.sort()?;
    Ok(begins)
}

/// The lines that ran, by when they were done.
pub(crate) fn ends_of(
    alloc: Global,
    times: &[Option<Times>],
) -> Result<Vec<(u64, u32)>, AllocError> {
    let mut ends = Vec::new(alloc);
    for line in 0..times.len() {
        if let Some(ran) = times[line] {
            ends.push((ran.done, number_of(line)))?;
        }
    }
    ends.sort()?;
    Ok(ends)
}

/// The lines of sessions, by these.
pub(crate) fn sessions_of(
    alloc: Global,
    sessions: &[Option<u32>],
) -> Result<Vec<(u32, u32)>, AllocError> {
    let mut lines = Vec::new(alloc);
    for line in 0..sessions.len() {
        if let Some(session) = sessions[line] {
            lines.push((session, number_of(line)))?;
        }
    }
    lines.sort()?;
    Ok(lines)
}

/// Puts an edge between two of so many nodes.
fn join(edges: &mut Vec<Edge>, nodes: usize, from: u32, to: u32) -> Result<(), AllocError>
    ensures { All (JoinsNodes nodes) edges.old.items → All (JoinsNodes nodes) edges.new.items }
{
    if (from as usize) < nodes && (to as usize) < nodes {
        edges.push(Edge { from, to })?;
    }
    Ok(())
}

/// Puts the conflicts.
fn draw_conflicts(
    layout: Layout,
    conflicts: &[Edge],
    edges: &mut Vec<Edge>,
) -> Result<(), AllocError>
    ensures { All (JoinsNodes layout.nodes) edges.old.items → All (JoinsNodes layout.nodes) edges.new.items }
{
    for at in 0..conflicts.len() {
        let Edge { from, to } = conflicts[at];
        let from = layout.first_line.saturating_add(from);
        let to = layout.first_line.saturating_add(to);
        join(edges, layout.nodes, from, to)?;
    }
    Ok(())
}

/// Puts an edge from each line of a session to the next one.
fn draw_sessions(
    layout: Layout,
    lines: &[(u32, u32)],
    edges: &mut Vec<Edge>,
) -> Result<(), AllocError>
    ensures { All (JoinsNodes layout.nodes) edges.old.items → All (JoinsNodes layout.nodes) edges.new.items }
{
    for at in 1..lines.len() {
        let (before, from) = lines[at - 1];
        let (session, to) = lines[at];
        if before == session {
            let from = layout.first_line.saturating_add(from);
            let to = layout.first_line.saturating_add(to);
            join(edges, layout.nodes, from, to)?;
        }
    }
    Ok(())
}

/// Puts an edge from each moment to the line that begins then, and to the next moment.
fn draw_begins(
    layout: Layout,
    begins: &[(u64, u32)],
    edges: &mut Vec<Edge>,
) -> Result<(), AllocError>
    ensures { All (JoinsNodes layout.nodes) edges.old.items → All (JoinsNodes layout.nodes) edges.new.items }
{
    for at in 0..begins.len() {
        let moment = layout.first_moment.saturating_add(number_of(at));
        let line = layout.first_line.saturating_add(begins[at].1);
        join(edges, layout.nodes, moment, line)?;
        if at + 1 < begins.len() {
            join(edges, layout.nodes, moment, moment.saturating_add(1))?;
        }
    }
    Ok(())
}

/// Puts an edge from each line to the first moment behind its end.
fn draw_ends(
    layout: Layout,
    times: &[Option<Times>],
    begins: &[(u64, u32)],
    edges: &mut Vec<Edge>,
) -> Result<(), AllocError>
    ensures { All (JoinsNodes layout.nodes) edges.old.items → All (JoinsNodes layout.nodes) edges.new.items }
{
    for at in 0..times.len() {
        if let Some(ran) = times[at] {
            let next = first_behind(begins, ran.done);
            if next < begins.len() {
                let line = layout.first_line.saturating_add(number_of(at));
                let moment = layout.first_moment.saturating_add(number_of(next));
                join(edges, layout.nodes, line, moment)?;
            }
        }
    }
    Ok(())
}

/// The place of the first moment behind this one.
fn first_behind(begins: &[(u64, u32)], done: u64) -> usize {
    begins.partition_point(|begin| begin.0 <= done)
}

/// All steps as edges.
pub(crate) fn drawn(
    alloc: Global,
    layout: Layout,
    steps: &Steps<'_>,
    begins: &[(u64, u32)],
) -> Result<Vec<Edge>, AllocError>
    ensures { IfOk result (λ edges. All (JoinsNodes layout.nodes) edges.items) }
{
    let lines = sessions_of(alloc, steps.sessions)?;
    let mut edges = Vec::new(alloc);
    draw_conflicts(layout, steps.edges, &mut edges)?;
    draw_sessions(layout, lines.as_slice(), &mut edges)?;
    draw_begins(layout, begins, &mut edges)?;
    draw_ends(layout, steps.times, begins, &mut edges)?;
    Ok(edges)
}
