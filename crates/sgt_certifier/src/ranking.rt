//! Decisions, as they are kept and with the ranks of the committed transactions.

ghost use Rattle.std.specs.Prelude.{◌≡◌, ◌≢◌, ◌<◌, ◌≤◌, ◌+◌, ◌^◌, ℕ, [], ◌∷◌, All, AllPairs, IfOk, Some, length, map, slice_get, vec_len};
ghost use Rattle.sgt_certifier.specs.Certifier.{ruled};
ghost use Rattle.sgt_certifier.specs.Judged.{ruling_from};
ghost use Rattle.sgt_certifier.specs.Kept.{with_rank_in, tx_at};

use sgt_arena::Handle;
use sgt_bundle::{Decision, Walk};
use sgt_names::Tx;
use std::alloc::{AllocError, Global};

/// A decision, without the rank, which may still move.
#[derive(Drop)]
pub enum Ruled {
    Committed(Tx),
    Refused(Tx, Walk),
    Withdrawn(Tx),
}

// The transaction under a handle of the window, before which so many were begun.
pub fn tx_of(before: u64, handle: Handle) -> Tx
    requires { tx_at before handle < 2 ^ 32 }
    ensures { result ≡ tx_at before handle }
{
    match Tx::new(before + handle.index as u64 + 1) {
        Ok(tx) => tx,
        Err(_) => unreachable!(),
    }
}

// Writes the place of each transaction in the serial order into the table, at its number.
pub fn rank_all(ranks: &mut Vec<u32>, serial: &[Tx])
    requires within { All (λ tx. tx < vec_len ranks.old) serial.now }
    requires distinct { AllPairs (λ a b. a ≢ b) serial.now }
    requires few { length serial.now ≤ 2 ^ 32 }
    ensures ranks { (k tx : ℕ) → slice_get serial.now k ≡ Some tx
        → slice_get ranks.new.items tx ≡ Some k }
    ensures len { vec_len ranks.new ≡ vec_len ranks.old }
{
    for place in 0..serial.len() {
        let tx = serial[place];
        ranks[tx.number() as usize] = place as u32;
    }
}

// A ruling as a decision, with its rank in the table.
fn decision_of(alloc: Global, ruling: &Ruled, ranks: &[u32]) -> Result<Decision, AllocError>
    requires { ruled (ruling_from ruling.now) < length ranks.now }
    ensures { IfOk result (λ d. d ≡ with_rank_in ranks.now (ruling_from ruling.now)) }
{
    match ruling {
        Ruled::Committed(tx) => Ok(Decision::Commit {
            tx: *tx,
            rank: ranks[tx.number() as usize],
        }),
        Ruled::Refused(tx, walk) => {
            let steps = Vec::from_slice(alloc, walk.as_slice())?;
            Ok(Decision::Refuse {
                tx: *tx,
                walk: Walk::from_vec(alloc, steps)?,
            })
        }
        Ruled::Withdrawn(tx) => Ok(Decision::Withdraw { tx: *tx }),
    }
}

// A ruling that is given up as a decision, with its rank in the table. It takes no memory.
fn decision_from(ruling: Ruled, ranks: &[u32]) -> Decision
    requires { ruled (ruling_from ruling) < length ranks.now }
    ensures { result ≡ with_rank_in ranks.now (ruling_from ruling) }
{
    match ruling {
        Ruled::Committed(tx) => Decision::Commit {
            tx,
            rank: ranks[tx.number() as usize],
        },
        Ruled::Refused(tx, walk) => Decision::Refuse { tx, walk },
        Ruled::Withdrawn(tx) => Decision::Withdraw { tx },
    }
}

// The rulings as decisions, in their order.
pub fn decisions_of(
    alloc: Global,
    rulings: &[Ruled],
    ranks: &[u32],
) -> Result<Vec<Decision>, AllocError>
    requires { All (λ r. ruled (ruling_from r) < length ranks.now) rulings.now }
    ensures { IfOk result
        (λ ds. ds.items ≡ map (λ r. with_rank_in ranks.now (ruling_from r)) rulings.now) }
{
    let mut decisions = Vec::with_capacity(alloc, rulings.len())?;
    for ruling in rulings {
        decisions.push(decision_of(alloc, ruling, ranks)?)?;
    }
    Ok(decisions)
}

// Rulings that are given up as decisions, in their order. No walk is copied.
pub fn decisions_from(
    alloc: Global,
    rulings: Vec<Ruled>,
    ranks: &[u32],
) -> Result<Vec<Decision>, AllocError>
    requires { All (λ r. ruled (ruling_from r) < length ranks.now) rulings.items }
    ensures { IfOk result
        (λ ds. ds.items ≡ map (λ r. with_rank_in ranks.now (ruling_from r)) rulings.items) }
{
    let mut decisions = Vec::with_capacity(alloc, rulings.len())?;
    for ruling in rulings {
        decisions.push(decision_from(ruling, ranks))?;
    }
    Ok(decisions)
}
