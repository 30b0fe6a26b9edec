//! The first cycle of a graph.

ghost use Rattle.std.specs.Prelude.{◌≡◌, ◌≤◌, ◌^◌, All, IfNone, IfOk, IfSome, List, ℕ};
ghost use Rattle.sgt_graph.specs.First.{TellsFirst};
ghost use Rattle.sgt_graph.specs.Graph.{Goes, IsCycle, JoinsNodes};
ghost use Rattle.sgt_graph.specs.Nearest.{AreFalling, NoneBelow};

use crate::components::ranks_of;
use crate::edge::Edge;
use crate::nearest::{are_falling, least_level};
use crate::rows::Rows;
use crate::through::{Ways, through};
use std::alloc::{AllocError, Global};

/// A node below which none lies on a cycle, or None where no node lies on one. With the ranks of components it is the
/// least node that does.
fn least_candidate(
    alloc: Global,
    nodes: usize,
    edges: &[Edge],
    rows: &Rows,
) -> Result<Option<u32>, AllocError>
    requires { nodes ≤ 2 ^ 32 }
    ensures some { IfOk result (λ found. IfSome found (NoneBelow edges.now)) }
    ensures none { IfOk result (λ found. IfNone found ((other : List ℕ) → IsCycle (Goes edges.now) other → ⊥)) }
{
    let ranks = ranks_of(alloc, rows, nodes, edges.len())?;
    if !are_falling(edges, ranks.as_slice()) {
        return Ok(Some(0));
    }
    Ok(least_level(edges, ranks.as_slice()))
}

/// The first cycle: of the least node that lies on one the shortest, of several the one whose nodes are, from it on,
/// the least. Takes time in proportion to nodes and edges. Err: memory ran out.
pub fn shown_cycle(
    alloc: Global,
    nodes: usize,
    edges: &[Edge],
) -> Result<Option<Vec<u32>>, AllocError>
    requires few { nodes ≤ 2 ^ 32 }
    requires ends { All (JoinsNodes nodes) edges.now }
    ensures { IfOk result (λ found. TellsFirst edges.now found) }
{
    let ahead = Rows::new(alloc, nodes, edges)?;
    let Some(first) = least_candidate(alloc, nodes, edges, &ahead)? else {
        return Ok(None);
    };
    let ways = Ways::new(alloc, nodes, edges, ahead)?;
    for node in first as usize..nodes {
        let found = through(alloc, nodes, edges, &ways, node as u32)?;
        if found.is_some() {
            return Ok(found);
        }
    }
    Ok(None)
}

/// A rank of each node, such that no edge leads to one of a greater rank. Nodes on a cycle have the same, and an edge that
/// is on none leads to a lesser one. What is found is checked, and None where it doesn't pass, which no try came to.
/// Err: memory ran out.
pub fn falling_ranks(
    alloc: Global,
    nodes: usize,
    edges: &[Edge],
) -> Result<Option<Vec<u32>>, AllocError>
    requires few { nodes ≤ 2 ^ 32 }
    requires ends { All (JoinsNodes nodes) edges.now }
    ensures { IfOk result (λ found. IfSome found (λ ranks. AreFalling edges.now ranks.items)) }
{
    let rows = Rows::new(alloc, nodes, edges)?;
    let ranks = ranks_of(alloc, &rows, nodes, edges.len())?;
    if !are_falling(edges, ranks.as_slice()) {
        return Ok(None);
    }
    Ok(Some(ranks))
}
