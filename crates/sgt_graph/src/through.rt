//! The first cycle through a node.

ghost use Rattle.std.specs.Prelude.{◌≡◌, ◌<◌, ◌≤◌, ◌^◌, All, IfOk, IfSome};
ghost use Rattle.sgt_graph.specs.First.{IsFirstThrough, TellsFirstThrough};
ghost use Rattle.sgt_graph.specs.Graph.{JoinsNodes};
ghost use Rattle.sgt_graph.specs.Nearest.{AreRowsOf};

use crate::edge::Edge;
use crate::homeward::{FAR, way_home};
use crate::measuring::measured;
use crate::nearest::{are_closed, distance_at};
use crate::rows::Rows;
use std::alloc::{AllocError, Global};

/// Where the edges of each node lead, and from where edges lead to it.
#[derive(Drop)]
pub(crate) struct Ways {
    ahead: Rows,
    back: Rows,
}

/// The edges turned round.
fn turned(alloc: Global, nodes: usize, edges: &[Edge]) -> Result<Vec<Edge>, AllocError>
    requires { All (JoinsNodes nodes) edges.now }
    ensures { IfOk result (λ turned. All (JoinsNodes nodes) turned.items) }
{
    let mut turned = Vec::with_capacity(alloc, edges.len())?;
    for edge in edges {
        turned.push(Edge {
            from: edge.to,
            to: edge.from,
        })?;
    }
    Ok(turned)
}

impl Ways {
    /// Those of so many nodes, where these are the rows of the edges. Err: memory ran out.
    pub(crate) fn new(
        alloc: Global,
        nodes: usize,
        edges: &[Edge],
        ahead: Rows,
    ) -> Result<Ways, AllocError>
        requires few { nodes ≤ 2 ^ 32 }
        requires ends { All (JoinsNodes nodes) edges.now }
        ensures { IfOk result (λ ways. ways.ahead ≡ ahead) }
    {
        let turned = turned(alloc, nodes, edges)?;
        let back = Rows::new(alloc, nodes, turned.as_slice())?;
        Ok(Ways { ahead, back })
    }
}

/// Puts the distance of a node.
fn set_distance(distances: &mut [usize], node: u32, distance: usize) {
    if let Some(old) = distances.get_mut(node as usize) {
        *old = distance;
    }
}

/// How many edges it is from each node to this one, on the shortest walk; `back` has from where edges lead to each.
/// What is found is not proved: who asks for it checks it.
fn distances(
    alloc: Global,
    back: &Rows,
    nodes: usize,
    node: u32,
) -> Result<Vec<usize>, AllocError> {
    let mut distances = vec![in alloc; FAR; nodes]?;
    set_distance(distances.as_mut_slice(), node, 0);
    let mut met = vec![in alloc; node]?;
    for at in 0..nodes {
        let Some(here) = met.get(at) else {
            break;
        };
        let here = *here;
        let next = distance_at(distances.as_slice(), here).saturating_add(1);
        for source in back.targets_of(here) {
            if distance_at(distances.as_slice(), *source) == FAR {
                set_distance(distances.as_mut_slice(), *source, next);
                met.push(*source)?;
            }
        }
    }
    Ok(distances)
}

/// The first cycle through the node, where there is one and distances are what they are to be.
fn quick_through(
    alloc: Global,
    nodes: usize,
    edges: &[Edge],
    ways: &Ways,
    node: u32,
) -> Result<Option<Vec<u32>>, AllocError>
    requires { AreRowsOf nodes edges.now ways.now.ahead.starts.items ways.now.ahead.targets.items }
    ensures { IfOk result (λ found. IfSome found (λ cycle. IsFirstThrough edges.now node cycle.items)) }
{
    let distances = distances(alloc, &ways.back, nodes, node)?;
    if !are_closed(edges, distances.as_slice()) {
        return Ok(None);
    }
    way_home(alloc, &ways.ahead, distances.as_slice(), node)
}

/// The first cycle through the node, by distances that are found round by round.
fn plain_through(
    alloc: Global,
    nodes: usize,
    edges: &[Edge],
    ahead: &Rows,
    node: u32,
) -> Result<Option<Vec<u32>>, AllocError>
    requires few { nodes ≤ 2 ^ 32 }
    requires rows { AreRowsOf nodes edges.now ahead.now.starts.items ahead.now.targets.items }
    requires node { node < nodes }
    ensures { IfOk result (TellsFirstThrough edges.now node) }
{
    let distances = measured(alloc, nodes, edges, node)?;
    way_home(alloc, ahead, distances.as_slice(), node)
}

/// The first cycle through the node.
pub(crate) fn through(
    alloc: Global,
    nodes: usize,
    edges: &[Edge],
    ways: &Ways,
    node: u32,
) -> Result<Option<Vec<u32>>, AllocError>
    requires few { nodes ≤ 2 ^ 32 }
    requires rows { AreRowsOf nodes edges.now ways.now.ahead.starts.items ways.now.ahead.targets.items }
    requires node { node < nodes }
    ensures { IfOk result (TellsFirstThrough edges.now node) }
{
    match quick_through(alloc, nodes, edges, ways, node)? {
        Some(cycle) => Ok(Some(cycle)),
        None => plain_through(alloc, nodes, edges, &ways.ahead, node),
    }
}

/// The first cycle through the node: of the shortest the one whose nodes are, from it on, the least. Takes time in
/// proportion to nodes and edges, or, where there is none, to edges times the longest of the shortest walks to the node.
/// Err: memory ran out.
pub fn cycle_through(
    alloc: Global,
    nodes: usize,
    edges: &[Edge],
    node: u32,
) -> Result<Option<Vec<u32>>, AllocError>
    requires few { nodes ≤ 2 ^ 32 }
    requires ends { All (JoinsNodes nodes) edges.now }
    requires node { node < nodes }
    ensures { IfOk result (TellsFirstThrough edges.now node) }
{
    let ahead = Rows::new(alloc, nodes, edges)?;
    let ways = Ways::new(alloc, nodes, edges, ahead)?;
    through(alloc, nodes, edges, &ways, node)
}
