//! The walks of a certificate by themselves.

ghost use Rattle.std.specs.Prelude.{◌≡◌, ◌≢◌, ◌<◌, ◌↔◌, ℕ, [], List, IsTrue, IfOk, Some, All, AllPairs, slice_get};
ghost use Rattle.sgt_bundle.specs.Certificate.{IsCommitted, IsCycle};
ghost use Rattle.sgt_bundle.specs.declared.certificate.Decision.TheVariants.{Refuse};
ghost use Rattle.sgt_bundle.specs.declared.certificate.Step.{Step};

use crate::decided::Decided;
use sgt_bundle::{Decision, Step};
use sgt_names::Tx;
use std::alloc::{AllocError, Global};
use std::collections::BTreeSet;

/// Whether no two of the steps lead to one transaction. Those that were met are put into `met`.
fn lead_apart(met: &mut BTreeSet<Tx>, walk: &[Step]) -> Result<bool, AllocError>
    requires { met.old.keys ≡ [] }
    ensures { IfOk result (λ apart. IsTrue apart ↔ AllPairs (λ a b. a.to ≢ b.to) walk.now) }
{
    for step in walk {
        if !met.insert(step.to)? {
            return Ok(false);
        }
    }
    Ok(true)
}

/// The same. Most cycles are of two transactions, so that one step leads to another.
fn are_distinct(alloc: Global, walk: &[Step]) -> Result<bool, AllocError>
    ensures { IfOk result (λ apart. IsTrue apart ↔ AllPairs (λ a b. a.to ≢ b.to) walk.now) }
{
    if walk.len() < 2 {
        return Ok(true);
    }
    let mut met = BTreeSet::new(alloc);
    lead_apart(&mut met, walk)
}

/// Whether each step leads to another transaction, committed by a decision of smaller number.
fn lead_to_committed(certificate: &Decided, number: usize, tx: Tx, walk: &[Step]) -> bool
    ensures { IsTrue result ↔ All (λ s. (s.to ≢ tx)
        × ((m rank : ℕ) × (m < number)
        × IsCommitted certificate.now.decisions m s.to rank)) walk.now }
{
    for step in walk {
        if step.to == tx || !certificate.is_committed_before(number, step.to) {
            return false;
        }
    }
    true
}

/// Whether the walk of the transaction, refused by the decision of this number, has the shape of a cycle through
/// transactions that were committed earlier.
fn is_cycle(
    alloc: Global,
    certificate: &Decided,
    number: usize,
    tx: Tx,
    walk: &[Step],
) -> Result<bool, AllocError>
    ensures { IfOk result (λ is. IsTrue is ↔ IsCycle certificate.now.decisions number tx walk.now) }
{
    match walk.split_last() {
        Some((last, between)) => {
            if last.to != tx
                || between.is_empty()
                || !lead_to_committed(certificate, number, tx, between)
            {
                return Ok(false);
            }
            are_distinct(alloc, between)
        }
        None => Ok(false),
    }
}

/// Whether the decision of this number, if it refuses, has a walk of the shape of a cycle.
fn has_cycle(
    alloc: Global,
    certificate: &Decided,
    number: usize,
    decision: &Decision,
) -> Result<bool, AllocError>
    ensures { IfOk result
        (λ has. IsTrue has ↔ ((tx : ℕ) (walk : List Step) → decision.now ≡ Refuse tx walk
        → IsCycle certificate.now.decisions number tx walk)) }
{
    match decision {
        Decision::Refuse { tx, walk } => is_cycle(alloc, certificate, number, *tx, walk.as_slice()),
        _ => Ok(true),
    }
}

/// Whether the walk of each refused transaction has the shape of a cycle. Err: memory ran out.
pub fn are_cycles(alloc: Global, certificate: &Decided) -> Result<bool, AllocError>
    ensures { IfOk result (λ are. IsTrue are ↔ ((number tx : ℕ) (walk : List Step)
        → slice_get certificate.now.decisions number ≡ Some (Refuse tx walk)
        → IsCycle certificate.now.decisions number tx walk)) }
{
    for (number, decision) in certificate.decisions().iter().enumerate() {
        if !has_cycle(alloc, certificate, number, decision)? {
            return Ok(false);
        }
    }
    Ok(true)
}
