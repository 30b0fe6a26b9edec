//! Sets of transactions.

ghost use Rattle.std.specs.Prelude.{◌≡◌, ℕ, false, IfOk, Contains};
ghost use Rattle.std.specs.BTreeSet.{contains};
ghost use Rattle.std.specs.Ordering.{nat_cmp};
ghost use Rattle.sgt_certify_stuck.specs.Apart.{HasTx};

use sgt_names::Tx;
use std::alloc::{AllocError, Global};
use std::collections::BTreeSet;

/// The set of these.
pub fn set_of(alloc: Global, txs: &[Tx]) -> Result<BTreeSet<Tx>, AllocError>
    ensures has { IfOk result (λ set. (t : ℕ) → Contains txs.now t → HasTx set t) }
    ensures only { IfOk result (λ set. (t : ℕ) → HasTx set t → Contains txs.now t) }
{
    let mut set = BTreeSet::new(alloc);
    for tx in txs {
        set.insert(*tx)?;
    }
    Ok(set)
}

/// Those of the transactions that the set doesn't have.
pub fn others_of(alloc: Global, txs: &[Tx], met: &BTreeSet<Tx>) -> Result<BTreeSet<Tx>, AllocError>
    ensures has { IfOk result
        (λ set. (t : ℕ) → Contains txs.now t → contains nat_cmp met.now t ≡ false → HasTx set t) }
    ensures only { IfOk result
        (λ set. (t : ℕ) → HasTx set t
        → Contains txs.now t × (contains nat_cmp met.now t ≡ false)) }
{
    let mut set = BTreeSet::new(alloc);
    for tx in txs {
        if !met.contains(tx) {
            set.insert(*tx)?;
        }
    }
    Ok(set)
}
