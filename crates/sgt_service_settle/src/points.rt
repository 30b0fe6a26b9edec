//! Where the acts of a transaction stand among those on an item, which are in the order of their transactions.

ghost use Rattle.std.specs.Prelude.{◌≡◌, ◌↔◌, ◌<◌, ◌≤◌, ◌-◌, true, false, nat_lt, IsTrue, IfOk, IfSome, Some, Contains, length, slice_get};
ghost use Rattle.std.specs.List.Sorted.{IsNonDecreasingBy, IsPartitionPoint};
ghost use Rattle.sgt_service_settle.specs.declared.acts.Act.{Act as AnAct};
ghost use Rattle.sgt_service_settle.specs.private.Acts.{actor};

use crate::acts::Act;
use sgt_names::Tx;
use std::alloc::{AllocError, Global};

// How far a walk goes.
const STEPS: usize = 8;

/// Where acts were last found on an item: of a transaction that an edge comes from, and of one that it leads to.
#[derive(Clone, Copy, Debug, PartialEq, Eq)]
pub struct Near {
    pub from: usize,
    pub to: usize,
}

/// Where acts were last found: on which item, and where on each.
#[derive(Drop)]
pub struct Nears {
    pub item: usize,
    pub rows: Vec<Near>,
}

/// The first place on each of so many items.
pub(crate) fn no_nears(alloc: Global, items: usize) -> Result<Nears, AllocError>
    ensures { IfOk result (λ near. length near.rows.items ≡ items) }
{
    Ok(Nears {
        item: 0,
        rows: Vec::from_elem(alloc, Near { from: 0, to: 0 }, items)?,
    })
}

fn number_of(act: &Act) -> u64
    ensures { result ≡ actor act.now }
{
    u64::from(act.entry.tx().number())
}

// Whether the act at the place is of a transaction of a smaller number.
fn is_below(acts: &[Act], at: usize, number: u64) -> bool
    ensures within { IsTrue result → at < length acts.now }
    ensures over { result ≡ false → (a : AnAct) → slice_get acts.now at ≡ Some a
        → number ≤ actor a }
{
    match acts.get(at) {
        Some(act) => number_of(act) < number,
        None => false,
    }
}

// Whether the act in front of the place is not.
fn is_behind(acts: &[Act], at: usize, number: u64) -> bool
    ensures some { IsTrue result → 0 < at }
    ensures under { result ≡ false → (a : AnAct) → 0 < at → slice_get acts.now (at - 1) ≡ Some a
        → actor a < number }
{
    if at == 0 {
        return false;
    }
    match acts.get(at - 1) {
        Some(act) => number <= number_of(act),
        None => false,
    }
}

// Where the acts of transactions of smaller numbers end, if that is a few steps from here.
fn walk(acts: &[Act], number: u64, near: usize) -> Option<usize>
    requires { IsNonDecreasingBy actor acts.now }
    ensures within { IfSome result (λ at. at ≤ length acts.now) }
    ensures point { IfSome result (λ at. IsPartitionPoint (λ a. nat_lt (actor a) number ≡ true)
        (λ a. nat_lt (actor a) number ≡ false) acts.now at) }
{
    let mut at = 0;
    if near <= acts.len() {
        at = near;
    }
    for _step in 0..STEPS {
        if is_below(acts, at, number) {
            at += 1;
        } else if is_behind(acts, at, number) {
            at -= 1;
        } else {
            return Some(at);
        }
    }
    None
}

// How many of the acts are of transactions of smaller numbers. A few steps where that is near, else a binary search.
fn count_below(acts: &[Act], number: u64, near: usize) -> usize
    requires { IsNonDecreasingBy actor acts.now }
    ensures within { result ≤ length acts.now }
    ensures point { IsPartitionPoint (λ a. nat_lt (actor a) number ≡ true)
        (λ a. nat_lt (actor a) number ≡ false) acts.now result }
{
    if let Some(at) = walk(acts, number, near) {
        return at;
    }
    acts.partition_point(|act| u64::from(act.entry.tx().number()) < number)
}

/// Where the acts of the transaction start, or would. This may be near.
pub(crate) fn start_of(acts: &[Act], tx: Tx, near: usize) -> usize
    requires { IsNonDecreasingBy actor acts.now }
    ensures within { result ≤ length acts.now }
    ensures point { IsPartitionPoint (λ a. nat_lt (actor a) tx ≡ true)
        (λ a. nat_lt (actor a) tx ≡ false) acts.now result }
{
    count_below(acts, u64::from(tx.number()), near)
}

/// Of these acts those of the transaction, which start there.
pub(crate) fn acts_from(acts: &[Act], tx: Tx, start: usize) -> &[Act]
    requires sorted { IsNonDecreasingBy actor acts.now }
    requires within { start ≤ length acts.now }
    requires point { IsPartitionPoint (λ a. nat_lt (actor a) tx ≡ true)
        (λ a. nat_lt (actor a) tx ≡ false) acts.now start }
    ensures { (a : AnAct) → Contains result.now a ↔ (Contains acts.now a × (actor a ≡ tx)) }
{
    let number = u64::from(tx.number());
    let later = &acts[start..];
    &later[..count_below(later, number + 1, 1)]
}
