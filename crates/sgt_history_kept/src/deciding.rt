//! Whether an order serves and keeps what is asked.

ghost use Rattle.std.specs.Prelude.{◌≡◌, ◌≤◌, ◌^◌, ◌↔◌, All, IfOk, IfSome, List, ℕ};
ghost use Rattle.sgt_history.specs.Transaction.{Transaction};
ghost use Rattle.sgt_graph.specs.Graph.{JoinsNodes};
ghost use Rattle.sgt_history_kept.specs.Decided.{IsAskedAlone, IsKept, IsKeptFrom, IsSerial, IsSerialKeeping};
ghost use Rattle.sgt_history_kept.specs.FirstCycle.{IsFirstCycleOf};
ghost use Rattle.sgt_history_kept.specs.Sooner.{IsCycleKeeping};
ghost use Rattle.sgt_history_time.specs.Serializable.{IsSerializableKeeping};
ghost use Rattle.sgt_history_time.specs.Steps.{StandsBefore};
ghost use Rattle.sgt_history_verdict.specs.Verdict.{committed_in};

use crate::asked::{Asked, without_times};
use crate::checking::goes_forward;
use crate::first::is_first;
use crate::least::least_order;
use crate::plain::plainly;
use crate::quick::quick_order;
use crate::search::{Shown, shown_of};
use sgt_graph::Edge;
use std::alloc::{AllocError, Global};

/// What a history without faults is, where orders are to keep something.
#[derive(Drop)]
pub enum Kept {
    /// Those of the lines that commit, in this order, serve, and keep it; of those that may come next always the least.
    Serial(Vec<u32>),
    /// Each of these lines has to stand before the next, and the last before the first: the first cycle of conflicts and
    /// sessions alone, or, where these have none, with real time too.
    Cyclic(Vec<u32>),
}

/// The order with the least line first of those that may come next, if it is right.
fn checked_order(
    alloc: Global,
    lines: usize,
    edges: &[Edge],
    asked: &Asked,
) -> Result<Option<Vec<u32>>, AllocError>
    requires few { lines ≤ 2 ^ 32 }
    requires ends { All (JoinsNodes lines) edges.now }
    ensures { IfOk result (λ found. IfSome found (λ order. (h : List (Transaction ℕ ℕ))
        → IsKeptFrom h lines edges.now asked.now
        → IsSerialKeeping h asked.now (committed_in h order.items))) }
{
    let Some(guess) = quick_order(alloc, lines, edges, asked)? else {
        return Ok(None);
    };
    let Some(order) = least_order(alloc, lines, edges, asked, guess.as_slice())? else {
        return Ok(None);
    };
    let holds = goes_forward(alloc, lines, edges, asked, order.as_slice())?;
    if !holds {
        return Ok(None);
    }
    Ok(Some(order))
}

/// The first cycle of conflicts and what is asked, if what is found is that.
fn checked_cycle(
    alloc: Global,
    lines: usize,
    edges: &[Edge],
    asked: &Asked,
) -> Result<Option<Vec<u32>>, AllocError>
    requires { lines ≤ 2 ^ 32 }
    ensures { IfOk result (λ found. IfSome found (λ cycle. (h : List (Transaction ℕ ℕ))
        → IsKeptFrom h lines edges.now asked.now
        → IsFirstCycleOf (StandsBefore h asked.now.times.items asked.now.sessions.items) cycle.items)) }
{
    let Some(Shown { cycle, labels }) = shown_of(alloc, lines, edges, asked)? else {
        return Ok(None);
    };
    if labels.keys.len() != lines {
        return Ok(None);
    }
    let first = is_first(alloc, edges, asked, cycle.as_slice(), &labels)?;
    if !first {
        return Ok(None);
    }
    Ok(Some(cycle))
}

/// The cycle to be shown, if what is found is that: the first of conflicts and sessions alone, or, where these have an
/// order, with real time too; `alone` is without times.
fn first_cycle(
    alloc: Global,
    lines: usize,
    edges: &[Edge],
    asked: &Asked,
    alone: &Asked,
) -> Result<Option<Vec<u32>>, AllocError>
    requires few { lines ≤ 2 ^ 32 }
    requires ends { All (JoinsNodes lines) edges.now }
    requires alone { IsAskedAlone asked.now alone.now }
    ensures { IfOk result (λ found. IfSome found (λ cycle. (h : List (Transaction ℕ ℕ))
        → IsKeptFrom h lines edges.now asked.now
        → IsCycleKeeping h asked.now.times.items asked.now.sessions.items cycle.items)) }
{
    let Some(order) = checked_order(alloc, lines, edges, alone)? else {
        return checked_cycle(alloc, lines, edges, alone);
    };
    drop(order);
    checked_cycle(alloc, lines, edges, asked)
}

/// What the history is.
fn decided(alloc: Global, lines: usize, edges: &[Edge], asked: &Asked) -> Result<Kept, AllocError>
    requires few { lines ≤ 2 ^ 32 }
    requires ends { All (JoinsNodes lines) edges.now }
    ensures { IfOk result (λ kept. (h : List (Transaction ℕ ℕ)) → IsKeptFrom h lines edges.now asked.now
        → IsKept h asked.now kept) }
{
    if let Some(order) = checked_order(alloc, lines, edges, asked)? {
        return Ok(Kept::Serial(order));
    }
    let alone = without_times(alloc, asked)?;
    if let Some(cycle) = first_cycle(alloc, lines, edges, asked, &alone)? {
        return Ok(Kept::Cyclic(cycle));
    }
    plainly(alloc, lines, edges, asked, &alone)
}

/// Decides whether an order serves and keeps what is asked, of so many lines without faults whose conflicts are these
/// edges.
pub fn decide_kept(
    alloc: Global,
    lines: usize,
    edges: &[Edge],
    asked: &Asked,
) -> Result<Kept, AllocError>
    requires few { lines ≤ 2 ^ 32 }
    requires ends { All (JoinsNodes lines) edges.now }
    ensures kept { IfOk result (λ kept. (h : List (Transaction ℕ ℕ)) → IsKeptFrom h lines edges.now asked.now
        → IsKept h asked.now kept) }
    // So want of memory aside it is an order exactly where the history is serializable with what is asked.
    ensures exact { IfOk result (λ kept. (h : List (Transaction ℕ ℕ)) → IsKeptFrom h lines edges.now asked.now
        → IsSerial kept ↔ IsSerializableKeeping h asked.now.times.items asked.now.sessions.items) }
{
    decided(alloc, lines, edges, asked)
}
