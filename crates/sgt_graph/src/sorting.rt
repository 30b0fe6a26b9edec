//! Nodes in an order in which edges lead onward, or a cycle of edges.

ghost use Rattle.std.specs.Prelude.{◌≡◌, ℕ, ◌+◌, ◌^◌, ◌<◌, ◌≤◌, [], length, List, All, IfOk, OnOk, slice_index, sum, vec_len};
ghost use Rattle.std.specs.Ordering.{nat_cmp};
ghost use Rattle.std.specs.BinaryHeap.{heap_items, heap_len, IsHeap};
ghost use Rattle.sgt_graph.specs.Graph.{JoinsNodes};
ghost use Rattle.sgt_graph.specs.Ordered.{IsOrdered};
ghost use Rattle.sgt_graph.specs.Sorting.{count_of, numbers, waiting, IsTallied, IsUnderWay};

use crate::edge::Edge;
use crate::rows::Rows;
use crate::walking::waiting_cycle;
use std::alloc::{AllocError, Global};
use std::cmp::Reverse;
use std::collections::BinaryHeap;

/// What sorting comes to.
#[derive(Debug, Drop)]
pub enum Ordered {
    /// Each node once, behind all from which an edge leads to it; of those that may be next always the least.
    Order(Vec<u32>),
    /// From each of these an edge leads to the next, and from the last to the first.
    Cycle(Vec<u32>),
}

/// Nodes that are being put in order.
#[derive(Drop)]
struct Sorting {
    /// How many edges lead to each node from one that isn't placed.
    waits: Vec<usize>,
    /// Those that wait for none and aren't placed.
    free: BinaryHeap<Reverse<u32>>,
    order: Vec<u32>,
}

/// How many edges lead to each node.
fn counts_of(alloc: Global, nodes: usize, edges: &[Edge]) -> Result<Vec<usize>, AllocError>
    requires { All (JoinsNodes nodes) edges.now }
    ensures len { IfOk result (λ counts. vec_len counts ≡ nodes) }
    ensures counts { IfOk result
        (λ counts. (v : ℕ) → slice_index counts.items v ≡ waiting [] edges.now v) }
{
    let mut counts = vec![in alloc; 0usize; nodes]?;
    'counting: for edge in edges {
        counts[edge.to as usize] += 1;
    }
    Ok(counts)
}

impl Sorting {
    /// One that these wait for is placed: those up to the last one that now wait for none are free.
    fn release(&mut self, targets: &[u32], last: u32) -> Result<(), AllocError>
        requires waiting { (v : ℕ) → count_of v targets.now ≤ slice_index self.old.waits.items v }
        requires tally { IsTallied (last + 1) self.old.waits.items (numbers (heap_items self.old.free))
            self.old.order.items }
        requires heap { IsHeap (λ x y. nat_cmp y.0 x.0) (heap_items self.old.free) }
        ensures order { self.new.order ≡ self.old.order }
        ensures len { vec_len self.new.waits ≡ vec_len self.old.waits }
        ensures waits { OnOk result ((v : ℕ) → slice_index self.new.waits.items v + count_of v targets.now
            ≡ slice_index self.old.waits.items v) }
        ensures tally { OnOk result
            (IsTallied (last + 1) self.new.waits.items (numbers (heap_items self.new.free)) self.new.order.items) }
        ensures heap { OnOk result (IsHeap (λ x y. nat_cmp y.0 x.0) (heap_items self.new.free)) }
        ensures fewer { OnOk result (sum self.new.waits.items + heap_len self.new.free
            ≤ sum self.old.waits.items + heap_len self.old.free) }
    {
        'releasing: for target in targets {
            let at = *target as usize;
            let left = self.waits[at] - 1;
            self.waits[at] = left;
            if left == 0 && *target <= last {
                self.free.push(Reverse(*target))?;
            }
        }
        Ok(())
    }
}

/// Places all nodes that wait for none in the end.
fn sorted(alloc: Global, nodes: usize, edges: &[Edge]) -> Result<Sorting, AllocError>
    requires few { nodes ≤ 2 ^ 32 }
    requires ends { All (JoinsNodes nodes) edges.now }
    ensures { IfOk result (λ s. IsUnderWay nodes edges.now nodes s.waits.items [] s.order.items) }
{
    let rows = Rows::new(alloc, nodes, edges)?;
    let waits = counts_of(alloc, nodes, edges)?;
    let mut sorting = Sorting {
        waits,
        free: BinaryHeap::new(alloc),
        order: Vec::with_capacity(alloc, nodes)?,
    };
    'nodes: for node in 0..nodes {
        if sorting.waits[node] > 0 {
            continue;
        }
        let last = node as u32;
        sorting.free.push(Reverse(last))?;
        'placing: while let Some(Reverse(next)) = sorting.free.pop() {
            sorting.order.push(next)?;
            sorting.release(rows.row(next), last)?;
        }
    }
    Ok(sorting)
}

/// The order of so many nodes in which each comes as soon as all are there from which an edge leads to it, of several
/// always the least; or a cycle of edges. Takes time in proportion to nodes and edges, times a logarithm where edges
/// lead to lesser nodes. Err: memory ran out.
pub fn order(alloc: Global, nodes: usize, edges: &[Edge]) -> Result<Ordered, AllocError>
    requires few { nodes ≤ 2 ^ 32 }
    requires ends { All (JoinsNodes nodes) edges.now }
    ensures { IfOk result (IsOrdered nodes edges.now) }
{
    let Sorting {
        waits,
        free: _,
        order,
    } = sorted(alloc, nodes, edges)?;
    match waiting_cycle(alloc, waits.as_slice(), edges)? {
        Some(cycle) => Ok(Ordered::Cycle(cycle)),
        None => Ok(Ordered::Order(order)),
    }
}
