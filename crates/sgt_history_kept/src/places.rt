//! The places of lines in an order.

ghost use Rattle.std.specs.Prelude.{◌≡◌, ◌+◌, ◌≤◌, ◌<◌, ◌^◌, All, IfOk, IfSome, IsTrue, List, MatchOption, Some, length, slice_get, ℕ};
ghost use Rattle.sgt_history_kept.specs.Placed.{AllPlaced, ArePlaces, ArePlacesTo, LeadsOn};

use sgt_graph::Edge;
use std::alloc::{AllocError, Global};

/// The place that is kept of the line, if one is.
pub(crate) fn place_at(places: &[Option<u32>], line: u32) -> Option<u32>
    ensures { MatchOption result ((p : ℕ) → slice_get places.now line ≡ Some (Some p) → ⊥)
        (λ p. slice_get places.now line ≡ Some (Some p)) }
{
    match places.get(line as usize) {
        Some(entry) => *entry,
        None => None,
    }
}

/// Keeps the line's place, if it is one of the lines and none is kept of it.
fn keep(places: &mut Vec<Option<u32>>, line: u32, at: u32) -> bool
    ensures size { length places.new.items ≡ length places.old.items }
    ensures kept { (order : List ℕ) → IsTrue result → slice_get order at ≡ Some line
        → ArePlacesTo order at places.old.items
        → ArePlacesTo order (at + 1) places.new.items }
{
    if line as usize >= places.len() {
        return false;
    }
    match place_at(places.as_slice(), line) {
        Some(_) => false,
        None => {
            places[line as usize] = Some(at);
            true
        }
    }
}

/// Whether each line has a place.
fn all_placed(places: &[Option<u32>]) -> bool
    requires { length places.now ≤ 2 ^ 32 }
    ensures { IsTrue result → AllPlaced places.now }
{
    for line in 0..places.len() {
        let Some(_) = place_at(places, line as u32) else {
            return false;
        };
    }
    true
}

/// The places of so many lines in the order, if each stands there once and nothing else does.
pub(crate) fn places_of(
    alloc: Global,
    lines: usize,
    order: &[u32],
) -> Result<Option<Vec<Option<u32>>>, AllocError>
    requires { lines ≤ 2 ^ 32 }
    ensures { IfOk result (λ found. IfSome found (λ places. ArePlaces order.now lines places.items)) }
{
    if order.len() != lines {
        return Ok(None);
    }
    let mut places = vec![in alloc; None; lines]?;
    for at in 0..order.len() {
        if !keep(&mut places, order[at], at as u32) {
            return Ok(None);
        }
    }
    if !all_placed(places.as_slice()) {
        return Ok(None);
    }
    Ok(Some(places))
}

/// Whether the edge leads to a later place.
fn leads_on(places: &[Option<u32>], edge: Edge) -> bool
    ensures { IsTrue result → LeadsOn places.now edge }
{
    let Some(from) = place_at(places, edge.from) else {
        return false;
    };
    let Some(to) = place_at(places, edge.to) else {
        return false;
    };
    from < to
}

/// Whether all edges lead to later places.
pub(crate) fn all_lead_on(places: &[Option<u32>], edges: &[Edge]) -> bool
    ensures { IsTrue result → All (LeadsOn places.now) edges.now }
{
    for at in 0..edges.len() {
        if !leads_on(places, edges[at]) {
            return false;
        }
    }
    true
}
