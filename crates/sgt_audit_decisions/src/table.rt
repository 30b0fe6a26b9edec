//! The numbers of decisions by their transactions, and what the decisions come to.

ghost use Rattle.std.specs.Prelude.{◌≡◌, ◌<◌, ◌≤◌, ◌^◌, ◌↔◌, [], None, All, IfOk, IfSome, IsSome, IsTrue, length, slice_index_or};
ghost use Rattle.std.specs.Ordering.{nat_cmp};
ghost use Rattle.std.specs.BTreeMap.{get};
ghost use Rattle.sgt_bundle.specs.Certificate.{decided_tx, IsDecidedOnce};
ghost use Rattle.sgt_audit_decisions.specs.private.Table.{placed_at, ArePlacedOf, IsTableOf};

use crate::outcome::{Outcome, outcome_of};
use sgt_bundle::Decision;
use sgt_names::Tx;
use std::alloc::{AllocError, Global};
use std::collections::BTreeMap;

/// The number of a decision, and what that comes to.
#[derive(Clone, Copy)]
pub struct Placed<N> {
    pub number: N,
    pub outcome: Outcome,
}

/// Where the decision on a transaction is told.
#[derive(Drop)]
pub enum Table {
    /// At the place of the transaction's number, where these are close together.
    Dense(Vec<Option<Placed<u32>>>),
    /// In the order of the transactions.
    Sparse(BTreeMap<Tx, Placed<usize>>),
}

/// A number that no transaction's is above.
fn greatest(decisions: &[Decision]) -> u32
    ensures { All (λ d. decided_tx d ≤ result) decisions.now }
{
    let mut most = 0;
    for decision in decisions {
        let number = decision.tx().number();
        if most < number {
            most = number;
        }
    }
    most
}

/// Enters each decision at the place of its transaction, if each transaction is in at most one.
fn fill_dense(places: &mut Vec<Option<Placed<u32>>>, decisions: &[Decision]) -> bool
    requires room { All (λ d. decided_tx d < length places.old.items) decisions.now }
    requires fresh { All (λ placed. placed ≡ None) places.old.items }
    requires few { length decisions.now < 2 ^ 32 }
    ensures once { IsTrue result ↔ IsDecidedOnce decisions.now }
    ensures table { IsTrue result
        → ArePlacedOf decisions.now (λ tx. slice_index_or places.new.items tx None) }
{
    for (number, decision) in decisions.iter().enumerate() {
        let place = decision.tx().number() as usize;
        if places[place].is_some() {
            return false;
        }
        places[place] = Some(Placed {
            number: number as u32,
            outcome: outcome_of(decision),
        });
    }
    true
}

/// Enters each decision at its transaction, if each transaction is in at most one.
fn fill_sparse(
    places: &mut BTreeMap<Tx, Placed<usize>>,
    decisions: &[Decision],
) -> Result<bool, AllocError>
    requires { places.old.entries ≡ [] }
    ensures once { IfOk result (λ filled. IsTrue filled ↔ IsDecidedOnce decisions.now) }
    ensures table { IfOk result
        (λ filled. IsTrue filled → ArePlacedOf decisions.now (get nat_cmp places.new)) }
{
    for (number, decision) in decisions.iter().enumerate() {
        let placed = Placed {
            number,
            outcome: outcome_of(decision),
        };
        if places.insert(decision.tx(), placed)?.is_some() {
            return Ok(false);
        }
    }
    Ok(true)
}

/// The dense table for transactions whose numbers are at most this.
fn dense(alloc: Global, decisions: &[Decision], greatest: u32) -> Result<Option<Table>, AllocError>
    requires most { All (λ d. decided_tx d ≤ greatest) decisions.now }
    requires few { length decisions.now < 2 ^ 32 }
    ensures once { IfOk result (λ found. IsSome found ↔ IsDecidedOnce decisions.now) }
    ensures table { IfOk result (λ found. IfSome found (IsTableOf decisions.now)) }
{
    let mut places = vec![in alloc; None; greatest as usize + 1]?;
    if fill_dense(&mut places, decisions) {
        Ok(Some(Table::Dense(places)))
    } else {
        Ok(None)
    }
}

fn sparse(alloc: Global, decisions: &[Decision]) -> Result<Option<Table>, AllocError>
    ensures once { IfOk result (λ found. IsSome found ↔ IsDecidedOnce decisions.now) }
    ensures table { IfOk result (λ found. IfSome found (IsTableOf decisions.now)) }
{
    let mut places = BTreeMap::new(alloc);
    if fill_sparse(&mut places, decisions)? {
        Ok(Some(Table::Sparse(places)))
    } else {
        Ok(None)
    }
}

impl Table {
    /// The table of these decisions. None where a transaction is in two of them. Err: memory ran out.
    pub(crate) fn new(alloc: Global, decisions: &[Decision]) -> Result<Option<Table>, AllocError>
        ensures once { IfOk result (λ found. IsSome found ↔ IsDecidedOnce decisions.now) }
        ensures table { IfOk result (λ found. IfSome found (IsTableOf decisions.now)) }
    {
        let greatest = greatest(decisions);
        if decisions.len() <= u32::MAX as usize && greatest as usize / 4 <= decisions.len() {
            dense(alloc, decisions, greatest)
        } else {
            sparse(alloc, decisions)
        }
    }

    /// Whether what stands there is found without a search. Nothing need be known of it.
    #[inline(always)]
    pub(crate) fn is_dense(&self) -> bool {
        match self {
            Table::Dense(_) => true,
            Table::Sparse(_) => false,
        }
    }

    /// What stands there for the transaction.
    #[inline(always)]
    pub(crate) fn get(&self, tx: Tx) -> Option<Placed<usize>>
        ensures { result ≡ placed_at self.now tx }
    {
        match self {
            Table::Dense(places) => match places.get(tx.number() as usize) {
                Some(Some(placed)) => Some(Placed {
                    number: placed.number as usize,
                    outcome: placed.outcome,
                }),
                _ => None,
            },
            Table::Sparse(places) => places.get(&tx).copied(),
        }
    }
}
