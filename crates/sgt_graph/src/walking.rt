//! Walks back along edges, to a cycle.

ghost use Rattle.std.specs.Prelude.{◌≡◌, ℕ, ◌^◌, ◌<◌, ◌≤◌, length, drop, reverse, Some, slice_get, All, Contains, IfOk, IfSome, IfNone, slice_index, vec_len};
ghost use Rattle.sgt_graph.specs.Graph.{Goes, IsCycle, JoinsNodes};
ghost use Rattle.sgt_graph.specs.Walks.{IsSource, IsTrail};

use crate::edge::Edge;
use std::alloc::{AllocError, Global};

/// The first node that waits.
fn first_waiting(waits: &[usize]) -> Option<usize>
    ensures some { IfSome result (λ v. 0 < slice_index waits.now v) }
    ensures none { IfNone result ((v : ℕ) → slice_index waits.now v ≡ 0) }
{
    for at in 0..waits.len() {
        if waits[at] > 0 {
            return Some(at);
        }
    }
    None
}

/// To each node, one from which an edge leads to it and that waits, if there is one.
fn sources_of(alloc: Global, waits: &[usize], edges: &[Edge]) -> Result<Vec<u32>, AllocError>
    requires { All (JoinsNodes (length waits.now)) edges.now }
    ensures len { IfOk result (λ sources. vec_len sources ≡ length waits.now) }
    ensures sources { IfOk result (λ sources. (a v : ℕ) → Goes edges.now a v → 0 < slice_index waits.now a
        → Goes edges.now (slice_index sources.items v) v × (0 < slice_index waits.now (slice_index sources.items v))) }
{
    let mut sources = vec![in alloc; 0u32; waits.len()]?;
    for edge in edges {
        if waits[edge.from as usize] > 0 {
            sources[edge.to as usize] = edge.from;
        }
    }
    Ok(sources)
}

/// The first place at which the walk is at this node.
fn place_of(walk: &[u32], here: u32) -> Option<usize>
    ensures some { IfSome result (λ at. slice_get walk.now at ≡ Some here) }
    ensures none { IfNone result (Contains walk.now here → ⊥) }
{
    for at in 0..walk.len() {
        if walk[at] == here {
            return Some(at);
        }
    }
    None
}

/// The part of the walk from this node on, turned round.
fn turned(alloc: Global, walk: &[u32], here: u32) -> Result<Vec<u32>, AllocError>
    requires met { Contains walk.now here }
    ensures { IfOk result (λ part. (at : ℕ) × (slice_get walk.now at ≡ Some here)
        × (part.items ≡ reverse (drop at walk.now))) }
{
    let Some(at) = place_of(walk, here) else {
        unreachable!()
    };
    let mut part = Vec::from_slice(alloc, &walk[at..])?;
    part.reverse();
    Ok(part)
}

/// A cycle of nodes that wait, each the source of the next one.
fn cycle_back(
    alloc: Global,
    waits: &[usize],
    sources: &[u32],
    start: u32,
) -> Result<Vec<u32>, AllocError>
    requires len { length sources.now ≡ length waits.now }
    requires start { 0 < slice_index waits.now start }
    requires closed { (v : ℕ) → 0 < slice_index waits.now v → 0 < slice_index waits.now (slice_index sources.now v) }
    ensures { IfOk result (λ cycle. IsCycle (IsSource waits.now sources.now) cycle.items) }
{
    let mut met = vec![in alloc; false; waits.len()]?;
    let mut walk = Vec::new(alloc);
    let mut here = start;
    'back: while !met[here as usize] {
        met[here as usize] = true;
        walk.push(here)?;
        here = sources[here as usize];
    }
    turned(alloc, walk.as_slice(), here)
}

/// A cycle of edges, if a node waits and to each one that waits an edge leads from one that does. Err: memory ran out.
pub(crate) fn waiting_cycle(
    alloc: Global,
    waits: &[usize],
    edges: &[Edge],
) -> Result<Option<Vec<u32>>, AllocError>
    requires few { length waits.now ≤ 2 ^ 32 }
    requires ends { All (JoinsNodes (length waits.now)) edges.now }
    requires led { (v : ℕ) → 0 < slice_index waits.now v
        → (a : ℕ) × Goes edges.now a v × (0 < slice_index waits.now a) }
    ensures some { IfOk result (λ found. IfSome found (λ cycle. IsCycle (Goes edges.now) cycle.items)) }
    ensures none { IfOk result (λ found. IfNone found ((v : ℕ) → slice_index waits.now v ≡ 0)) }
{
    let Some(start) = first_waiting(waits) else {
        return Ok(None);
    };
    let sources = sources_of(alloc, waits, edges)?;
    let cycle = cycle_back(alloc, waits, sources.as_slice(), start as u32)?;
    Ok(Some(cycle))
}
