//! Transactions in an order in which pairs lead onward, or a cycle of pairs.

ghost use Rattle.std.specs.Prelude.{◌≡◌, ◌↔◌, ℕ, ◌<◌, length, IsTrue, IfOk, IfSome, IfNone, Contains};
ghost use Rattle.sgt_certify_greedy.specs.Pairs.{Leads};
ghost use Rattle.sgt_certify_greedy.specs.Sorted.{Among, IsRing, IsSorting};

use crate::pairs::Pair;
use crate::sets::{is_among, place_of, take_out};
use sgt_names::Tx;
use std::alloc::{AllocError, Global};

/// What sorting comes to.
#[derive(Drop)]
pub enum Sorting {
    /// Each transaction once, behind all from which a pair leads to it.
    Order(Vec<Tx>),
    /// From each of these a pair leads to the next, and from the last to the first.
    Cycle(Vec<Tx>),
}

/// Whether the pair leads to the transaction from one of these.
fn comes_from(left: &[Tx], pair: &Pair, tx: Tx) -> bool
    ensures { IsTrue result ↔ (pair.now.to ≡ tx) × Contains left.now pair.now.from }
{
    pair.to == tx && is_among(left, pair.from)
}

/// One of these from which a pair leads to the transaction.
pub fn predecessor(left: &[Tx], pairs: &[Pair], tx: Tx) -> Option<Tx>
    ensures some { IfSome result (λ a. Contains left.now a × Leads pairs.now a tx) }
    ensures none { IfNone result ((a : ℕ) → Contains left.now a → Leads pairs.now a tx → ⊥) }
{
    for pair in pairs {
        if comes_from(left, pair, tx) {
            return Some(pair.from);
        }
    }
    None
}

/// One of these to which no pair leads from one of them.
pub fn source(left: &[Tx], pairs: &[Pair]) -> Option<Tx>
    ensures some { IfSome result
        (λ t. Contains left.now t × ((a : ℕ) → Contains left.now a → Leads pairs.now a t → ⊥)) }
    ensures none { IfNone result
        ((t : ℕ) → Contains left.now t → (a : ℕ) × Contains left.now a × Leads pairs.now a t) }
{
    for tx in left {
        match predecessor(left, pairs, *tx) {
            Some(_before) => {}
            None => return Some(*tx),
        }
    }
    None
}

/// A cycle of pairs through some of these, to each of which a pair leads from one of them.
pub fn cycle_in(alloc: Global, left: &[Tx], pairs: &[Pair]) -> Result<Vec<Tx>, AllocError>
    requires some { 0 < length left.now }
    requires led { (t : ℕ) → Contains left.now t
        → (a : ℕ) × Contains left.now a × Leads pairs.now a t }
    ensures { IfOk result (λ cycle. IsRing (Among left.now (Leads pairs.now)) cycle.items) }
{
    let mut here = left[0];
    let mut walk = vec![in alloc; here]?;
    let mut unmet = Vec::from_slice(alloc, left)?;
    take_out(&mut unmet, here);
    'back: loop {
        let Some(before) = predecessor(left, pairs, here) else {
            unreachable!()
        };
        let place = place_of(walk.as_slice(), before);
        if let Some(n) = place {
            walk.truncate(n);
            walk.insert(0, before)?;
            return Ok(walk);
        }
        take_out(&mut unmet, before);
        walk.insert(0, before)?;
        here = before;
    }
}

/// The transactions in an order in which the pairs between them lead onward, or a cycle of pairs between them. Err:
/// memory ran out.
pub fn sorted(alloc: Global, txs: &[Tx], pairs: &[Pair]) -> Result<Sorting, AllocError>
    ensures { IfOk result (IsSorting txs.now (Leads pairs.now)) }
{
    let mut left = Vec::from_slice(alloc, txs)?;
    let mut order = Vec::new(alloc);
    'placing: while let Some(tx) = source(left.as_slice(), pairs) {
        take_out(&mut left, tx);
        order.push(tx)?;
    }
    let rest = left.as_slice();
    if rest.is_empty() {
        return Ok(Sorting::Order(order));
    }
    Ok(Sorting::Cycle(cycle_in(alloc, rest, pairs)?))
}
