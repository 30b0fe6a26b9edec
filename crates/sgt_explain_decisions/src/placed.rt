//! Which decision is on a transaction.

ghost use Rattle.std.specs.Prelude.{◌≡◌, ◌≢◌, List, Some, IfOk, IfSome, IfNone, All, Contains, slice_get};
ghost use Rattle.std.specs.List.Sorted.{IsNonDecreasingBy};
ghost use Rattle.sgt_bundle.specs.Certificate.{decided_tx, IsCommitted, IsDecidedOnce};
ghost use Rattle.sgt_bundle.specs.declared.certificate.Decision.{Decision};
ghost use Rattle.sgt_explain_decisions.specs.Placed.{ArePlaced, StandBefore, IsDecisionOn, IsFirstOn, IsUndecided, IsUncommitted};

use sgt_bundle::Decision;
use sgt_names::Tx;
use std::alloc::{AllocError, Global};

/// A transaction, and the number of a decision on it.
#[derive(Clone, Copy)]
pub struct Placed {
    pub tx: Tx,
    pub number: usize,
}

/// The decisions by their transactions; those of one transaction by their numbers.
pub fn placed_in(alloc: Global, decisions: &[Decision]) -> Result<Vec<Placed>, AllocError>
    ensures { IfOk result (λ placed. ArePlaced decisions.now placed.items) }
{
    let mut placed = Vec::new(alloc);
    for (number, decision) in decisions.iter().enumerate() {
        placed.push(Placed {
            tx: decision.tx(),
            number,
        })?;
    }
    placed.sort_by_key(|one| one.tx.number())?;
    Ok(placed)
}

/// How many stand before those of the transaction, where they are sorted by transaction. A binary
/// search.
fn count_before(placed: &[Placed], tx: Tx) -> usize
    ensures { IsNonDecreasingBy (λ p. p.tx) placed.now → StandBefore placed.now tx result }
{
    let least = tx.number();
    placed.partition_point(|one| one.tx.number() < least)
}

/// The number at this place, if it is the transaction's.
fn number_at(placed: &[Placed], at: usize, tx: Tx) -> Option<usize>
    ensures there { IfSome result
        (λ n. slice_get placed.now at ≡ Some (record { tx = tx; number = n })) }
    ensures some { IfSome result (λ n. Contains placed.now (record { tx = tx; number = n })) }
    ensures none { IfNone result ((p : Placed) → slice_get placed.now at ≡ Some p → p.tx ≢ tx) }
{
    match placed.get(at) {
        Some(found) if found.tx == tx => Some(found.number),
        _ => None,
    }
}

/// The number of the first decision on the transaction, where these are sorted by transaction.
pub fn number_on(placed: &[Placed], tx: Tx) -> Option<usize>
    ensures some { IfSome result (λ n. Contains placed.now (record { tx = tx; number = n })) }
    ensures first { (decisions : List Decision) → ArePlaced decisions placed.now
        → IfSome result (IsFirstOn decisions tx) }
    ensures undecided { (decisions : List Decision) → ArePlaced decisions placed.now
        → IfNone result (IsUndecided decisions tx) }
    ensures none { IsNonDecreasingBy (λ p. p.tx) placed.now
        → IfNone result (All (λ p. p.tx ≢ tx) placed.now) }
{
    number_at(placed, count_before(placed, tx), tx)
}

/// The decision of this number, if it is on the transaction.
fn numbered_on(decisions: &[Decision], number: usize, tx: Tx) -> Option<(usize, &Decision)>
    ensures same { IfSome result (λ d. d.0 ≡ number) }
    ensures some { IfSome result (λ d. IsDecisionOn decisions.now tx d.0 d.1.now) }
    ensures none { IfNone result ((d : Decision) → slice_get decisions.now number ≡ Some d
        → decided_tx d ≢ tx) }
{
    match decisions.get(number) {
        Some(decision) if decision.tx() == tx => Some((number, decision)),
        _ => None,
    }
}

/// The first decision on the transaction, with its number.
pub fn decision_on<'a>(
    decisions: &'a [Decision],
    placed: &[Placed],
    tx: Tx,
) -> Option<(usize, &'a Decision)>
    ensures some { IfSome result (λ d. IsDecisionOn decisions.now tx d.0 d.1.now) }
    ensures first { ArePlaced decisions.now placed.now
        → IfSome result (λ d. IsFirstOn decisions.now tx d.0) }
    ensures none { ArePlaced decisions.now placed.now
        → IfNone result (IsUndecided decisions.now tx) }
{
    match number_on(placed, tx) {
        Some(number) => numbered_on(decisions, number, tx),
        None => None,
    }
}

/// The rank that the transaction is committed with, and the number of the decision.
pub fn rank_on(decisions: &[Decision], placed: &[Placed], tx: Tx) -> Option<(u32, usize)>
    ensures some { IfSome result (λ r. IsCommitted decisions.now r.1 tx r.0) }
    ensures none { ArePlaced decisions.now placed.now → IsDecidedOnce decisions.now
        → IfNone result (IsUncommitted decisions.now tx) }
{
    let (number, decision) = decision_on(decisions, placed, tx)?;
    match decision.rank() {
        Some(rank) => Some((rank, number)),
        None => None,
    }
}
