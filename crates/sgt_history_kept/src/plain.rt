//! The plain way to an order or the first cycle: each two lines are looked at.

ghost use Rattle.std.specs.Prelude.{◌≡◌, ◌+◌, ◌≤◌, ◌<◌, ◌^◌, All, IfOk, OnOk, List, length, ℕ};
ghost use Rattle.sgt_history.specs.Transaction.{Transaction};
ghost use Rattle.sgt_graph.specs.Graph.{JoinsNodes};
ghost use Rattle.sgt_graph.specs.declared.edge.Edge.{Edge};
ghost use Rattle.sgt_history_kept.specs.Decided.{Adds, IsAskedAlone, IsAskedBefore, IsInRow, IsInRows, IsKept, IsKeptFrom, IsFound};

use crate::asked::Asked;
use crate::checking::is_asked;
use crate::deciding::Kept;
use sgt_graph::{Edge, Ordered, order, shown_cycle};
use std::alloc::{AllocError, Global};

/// Puts an edge between the lines, if the first is asked to stand before the second.
fn push_asked(asked: &Asked, from: u32, to: u32, edges: &mut Vec<Edge>) -> Result<(), AllocError>
    ensures { OnOk result ((old : List Edge) → Adds (IsInRow asked.now from to) old edges.old.items
        → Adds (IsInRow asked.now from (to + 1)) old edges.new.items) }
{
    if !is_asked(asked, from, to) {
        return Ok(());
    }
    edges.push(Edge { from, to })?;
    Ok(())
}

/// Puts an edge from the line to each one that is asked to stand behind it.
fn push_row(asked: &Asked, from: u32, lines: usize, edges: &mut Vec<Edge>) -> Result<(), AllocError>
    requires { lines ≤ 2 ^ 32 }
    ensures { OnOk result (Adds (IsInRow asked.now from lines) edges.old.items edges.new.items) }
{
    for to in 0..lines {
        push_asked(asked, from, to as u32, edges)?;
    }
    Ok(())
}

/// Puts an edge from each line to each one that is asked to stand behind it.
fn push_rows(asked: &Asked, lines: usize, edges: &mut Vec<Edge>) -> Result<(), AllocError>
    requires { lines ≤ 2 ^ 32 }
    ensures { OnOk result (Adds (IsInRows asked.now lines lines) edges.old.items edges.new.items) }
{
    for from in 0..lines {
        push_row(asked, from as u32, lines, edges)?;
    }
    Ok(())
}

/// An order or the first cycle, by all pairs of lines.
fn sorted_by_pairs(
    alloc: Global,
    lines: usize,
    edges: &[Edge],
    asked: &Asked,
) -> Result<Kept, AllocError>
    requires few { lines ≤ 2 ^ 32 }
    requires ends { All (JoinsNodes lines) edges.now }
    ensures { IfOk result (λ kept. (h : List (Transaction ℕ ℕ)) → IsKeptFrom h lines edges.now asked.now
        → IsFound h asked.now kept) }
{
    let mut all = Vec::from_slice(alloc, edges)?;
    push_rows(asked, lines, &mut all)?;
    match order(alloc, lines, all.as_slice())? {
        Ordered::Order(order) => Ok(Kept::Serial(order)),
        Ordered::Cycle(_) => match shown_cycle(alloc, lines, all.as_slice())? {
            Some(cycle) => Ok(Kept::Cyclic(cycle)),
            None => unreachable!(),
        },
    }
}

/// An order or the first cycle, by all pairs of lines, and of sessions alone first; `alone` is without times. Takes time
/// in proportion to the square of the lines.
pub(crate) fn plainly(
    alloc: Global,
    lines: usize,
    edges: &[Edge],
    asked: &Asked,
    alone: &Asked,
) -> Result<Kept, AllocError>
    requires few { lines ≤ 2 ^ 32 }
    requires ends { All (JoinsNodes lines) edges.now }
    requires alone { IsAskedAlone asked.now alone.now }
    ensures { IfOk result (λ kept. (h : List (Transaction ℕ ℕ)) → IsKeptFrom h lines edges.now asked.now
        → IsKept h asked.now kept) }
{
    match sorted_by_pairs(alloc, lines, edges, alone)? {
        Kept::Cyclic(cycle) => Ok(Kept::Cyclic(cycle)),
        Kept::Serial(_) => sorted_by_pairs(alloc, lines, edges, asked),
    }
}
