//! Which of several nodes is the nearest, and whether ranks and distances are what cycles are found by.

ghost use Rattle.std.specs.Prelude.{◌≡◌, ◌⊎◌, ◌≤◌, ℕ, IsTrue, Some, IfNone, IfSome, length, slice_index};
ghost use Rattle.sgt_graph.specs.Graph.{Goes};
ghost use Rattle.sgt_graph.specs.Nearest.{AreClosed, AreFalling, FallBelow, IsNearer, IsNearest};

use crate::edge::Edge;

/// The number at this place, or 0.
pub(crate) fn number_at(numbers: &[u32], place: u32) -> u32
    ensures { result ≡ slice_index numbers.now place }
{
    match numbers.get(place as usize) {
        Some(number) => *number,
        None => 0,
    }
}

/// Puts the number at this place.
pub(crate) fn set_number(numbers: &mut [u32], place: u32, number: u32) {
    if let Some(old) = numbers.get_mut(place as usize) {
        *old = number;
    }
}

/// How far it is from the node, 0 if it is none.
pub(crate) fn distance_at(distances: &[usize], node: u32) -> usize
    ensures { result ≡ slice_index distances.now node }
{
    match distances.get(node as usize) {
        Some(distance) => *distance,
        None => 0,
    }
}

/// The nearer of a node and that of before, if there is one; of two that are as near the lesser.
fn nearer(distances: &[usize], before: Option<u32>, node: u32) -> u32
    ensures one { (result ≡ node) ⊎ (before ≡ Some result) }
    ensures here { IsNearer distances.now result node }
    ensures old { (other : ℕ) → before ≡ Some other → IsNearer distances.now result other }
{
    let Some(other) = before else {
        return node;
    };
    let (there, here) = (distance_at(distances, other), distance_at(distances, node));
    if there < here || (there == here && other <= node) {
        other
    } else {
        node
    }
}

/// The nearest of the nodes, of several the least.
pub(crate) fn nearest(distances: &[usize], targets: &[u32]) -> Option<u32>
    ensures { IsNearest distances.now targets.now result }
{
    let mut best = None;
    for target in targets {
        best = Some(nearer(distances, best, *target));
    }
    best
}

/// Whether no edge leads to a node of a greater rank.
pub(crate) fn are_falling(edges: &[Edge], ranks: &[u32]) -> bool
    ensures { IsTrue result → AreFalling edges.now ranks.now }
{
    for edge in edges {
        if number_at(ranks, edge.to) > number_at(ranks, edge.from) {
            return false;
        }
    }
    true
}

/// The lesser of a node and that of before, if there is one.
fn lesser(before: Option<u32>, node: u32) -> u32
    ensures here { result ≤ node }
    ensures old { (other : ℕ) → before ≡ Some other → result ≤ other }
{
    match before {
        Some(other) if other <= node => other,
        _ => node,
    }
}

/// The least node from which an edge leads to one of the same rank, where no edge leads to one of a greater rank.
pub(crate) fn least_level(edges: &[Edge], ranks: &[u32]) -> Option<u32>
    requires { AreFalling edges.now ranks.now }
    ensures some { IfSome result (FallBelow edges.now ranks.now) }
    ensures none { IfNone result ((v : ℕ) → FallBelow edges.now ranks.now v) }
{
    let mut least = None;
    for edge in edges {
        if number_at(ranks, edge.to) == number_at(ranks, edge.from) {
            least = Some(lesser(least, edge.from));
        }
    }
    least
}

/// Whether no edge leads to a node that is nearer by more than one.
pub(crate) fn are_closed(edges: &[Edge], distances: &[usize]) -> bool
    ensures { IsTrue result → AreClosed edges.now distances.now }
{
    for edge in edges {
        let far = distance_at(distances, edge.from);
        if far.saturating_sub(1) > distance_at(distances, edge.to) {
            return false;
        }
    }
    true
}
