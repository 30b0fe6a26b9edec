//! The lengths of the shortest walks to a node, found round by round.

ghost use Rattle.std.specs.Prelude.{◌≡◌, ◌+◌, ◌<◌, ◌≤◌, ◌^◌, ℕ, All, IfOk, IsTrue, length};
ghost use Rattle.std.specs.Bool.{MatchBool};
ghost use Rattle.sgt_graph.specs.Graph.{JoinsNodes};
ghost use Rattle.sgt_graph.specs.Nearest.{AreMeasured, AreSpread, far_of};

use crate::edge::Edge;
use crate::homeward::FAR;
use std::alloc::{AllocError, Global};

/// Finds the nodes from which an edge leads to one that is so far, and that were too far: whether there are some.
fn spread(edges: &[Edge], distances: &mut [usize], round: usize) -> bool
    requires ends { All (JoinsNodes (length distances.old)) edges.now }
    requires round { round + 1 < FAR }
    ensures spread { (v : ℕ) → AreSpread edges.now FAR v round 0 round distances.old
        → MatchBool result (AreSpread edges.now FAR v (round + 1) 0 (round + 1) distances.new)
        (AreMeasured edges.now FAR distances.new v) }
    ensures fewer { IsTrue result → far_of FAR distances.new < far_of FAR distances.old }
{
    let mut found = false;
    for edge in edges {
        if distances[edge.to as usize] == round && distances[edge.from as usize] == FAR {
            distances[edge.from as usize] = round + 1;
            found = true;
        }
    }
    found
}

/// The lengths of the shortest walks from each of so many nodes to this one. Takes time in proportion to edges times
/// the greatest of them.
pub(crate) fn measured(
    alloc: Global,
    nodes: usize,
    edges: &[Edge],
    node: u32,
) -> Result<Vec<usize>, AllocError>
    requires few { nodes ≤ 2 ^ 32 }
    requires ends { All (JoinsNodes nodes) edges.now }
    requires node { node < nodes }
    ensures { IfOk result (λ distances. AreMeasured edges.now FAR distances.items node) }
{
    let mut distances = vec![in alloc; FAR; nodes]?;
    distances[node as usize] = 0;
    let mut round = 0;
    'rounds: while spread(edges, distances.as_mut_slice(), round) {
        round += 1;
    }
    Ok(distances)
}
