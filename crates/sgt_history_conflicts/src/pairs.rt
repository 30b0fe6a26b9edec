//! Pairs of touches that conflict.

ghost use Rattle.std.specs.Prelude.{◌≡◌, ◌≢◌, ◌+◌, ◌<◌, ◌≤◌, ◌^◌, ◌++◌, ◌↔◌, IsTrue, ℕ, List, Option, Some, OnOk, IfOk, length, slice_get};
ghost use Rattle.sgt_history_conflicts.specs.Pairs.{AddsAll, AddsFrom, AddsUpTo, IsFirst, IsLast, IsWritten, Meets};
ghost use Rattle.sgt_graph.specs.declared.edge.Edge.{Edge};

use sgt_graph::Edge;
use sgt_history::{Conflict, Kind};
use sgt_history_faults::Touch;
use std::alloc::AllocError;

/// Whether the touch is a write by a transaction that commits.
fn is_written(touch: &Touch) -> bool
    ensures { IsTrue result ↔ IsWritten touch.now }
{
    touch.commits && touch.kind == Kind::Write
}

/// Whether two touches conflict in this way, where no write by a transaction that commits is between them.
fn meets(kind: Conflict, from: &Touch, to: &Touch) -> bool
    ensures { IsTrue result ↔ Meets kind from.now to.now }
{
    if from.item != to.item {
        return false;
    }
    if from.line == to.line {
        return false;
    }
    match kind {
        Conflict::WriteWrite => is_written(from) && is_written(to),
        Conflict::WriteRead => {
            is_written(from) && to.kind == Kind::Read && from.version == to.version
        }
        Conflict::ReadWrite => from.kind == Kind::Read && is_written(to),
    }
}

/// The last write by a transaction that commits, with this touch.
fn last_written(last: Option<u32>, touches: &[Touch], at: u32) -> Option<u32>
    requires at { at < length touches.now }
    requires last { IsLast touches.now at last }
    ensures { IsLast touches.now (at + 1) result }
{
    if is_written(&touches[at as usize]) {
        return Some(at);
    }
    last
}

/// The first write by a transaction that commits, with this touch.
fn first_written(first: Option<u32>, touches: &[Touch], at: u32) -> Option<u32>
    requires at { at < length touches.now }
    requires first { IsFirst touches.now (at + 1) first }
    ensures { IsFirst touches.now at result }
{
    if is_written(&touches[at as usize]) {
        return Some(at);
    }
    first
}

/// Puts the pair of the last write and this touch behind those before, if they conflict.
fn push_behind(
    touches: &[Touch],
    kind: Conflict,
    last: Option<u32>,
    at: u32,
    pairs: &mut Vec<Edge>,
) -> Result<(), AllocError>
    requires at { at < length touches.now }
    requires last { IsLast touches.now at last }
    requires written { kind ≢ Conflict.ReadWrite }
    ensures { OnOk result ((before : List Edge) → AddsUpTo touches.now kind at before pairs.old.items
        → AddsUpTo touches.now kind (at + 1) before pairs.new.items) }
{
    let Some(from) = last else {
        return Ok(());
    };
    if !meets(kind, &touches[from as usize], &touches[at as usize]) {
        return Ok(());
    }
    pairs.push(Edge { from, to: at })?;
    Ok(())
}

/// Puts the pair of this touch and the first write behind it behind the pairs before, if they conflict.
fn push_before(
    touches: &[Touch],
    first: Option<u32>,
    at: u32,
    pairs: &mut Vec<Edge>,
) -> Result<(), AllocError>
    requires at { at < length touches.now }
    requires first { IsFirst touches.now (at + 1) first }
    ensures { OnOk result ((before : List Edge)
        → AddsFrom touches.now Conflict.ReadWrite (at + 1) before pairs.old.items
        → AddsFrom touches.now Conflict.ReadWrite at before pairs.new.items) }
{
    let Some(to) = first else {
        return Ok(());
    };
    if !meets(
        Conflict::ReadWrite,
        &touches[at as usize],
        &touches[to as usize],
    ) {
        return Ok(());
    }
    pairs.push(Edge { from: at, to })?;
    Ok(())
}

/// Puts all pairs that conflict in this way, the first a write, behind those before.
pub fn push_forward(
    touches: &[Touch],
    kind: Conflict,
    pairs: &mut Vec<Edge>,
) -> Result<(), AllocError>
    requires few { length touches.now < 2 ^ 32 }
    requires written { kind ≢ Conflict.ReadWrite }
    ensures { OnOk result (AddsAll touches.now kind pairs.old.items pairs.new.items) }
{
    let mut last = None;
    for at in 0..touches.len() {
        push_behind(touches, kind, last, at as u32, pairs)?;
        last = last_written(last, touches, at as u32);
    }
    Ok(())
}

/// Puts all pairs of a read and the write of the next version behind those before.
pub fn push_backward(touches: &[Touch], pairs: &mut Vec<Edge>) -> Result<(), AllocError>
    requires few { length touches.now < 2 ^ 32 }
    ensures { OnOk result (AddsAll touches.now Conflict.ReadWrite pairs.old.items pairs.new.items) }
{
    let mut first = None;
    let mut at = touches.len();
    while at > 0 {
        at -= 1;
        push_before(touches, first, at as u32, pairs)?;
        first = first_written(first, touches, at as u32);
    }
    Ok(())
}
