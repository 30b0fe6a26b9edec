//! Which decision commits which transaction.

ghost use Rattle.std.specs.Prelude.{◌≡◌, ◌↔◌, ◌<◌, ℕ, Some, IfOk, slice_get, length};
ghost use Rattle.sgt_bundle.specs.Certificate.{IsDecidedOnce, IsCommitted};
ghost use Rattle.sgt_service_settle.specs.private.Index.{IsIn, AreCommits};

use sgt_bundle::Decision;
use sgt_certifier::Certifier;
use sgt_names::Tx;
use std::alloc::{AllocError, Global};

/// The number of the decision that commits the transaction.
pub(crate) fn number_of(commits: &[Option<u64>], tx: Tx) -> Option<u64>
    ensures { (number : ℕ) → (result ≡ Some number) ↔ IsIn commits.now tx number }
{
    match commits.get(tx.number() as usize) {
        Some(number) => *number,
        None => None,
    }
}

// A number above those of all transactions that are committed.
fn above_all(decisions: &[Decision]) -> usize
    ensures { (number tx rank : ℕ) → IsCommitted decisions.now number tx rank → tx < result }
{
    let mut above = 0;
    for decision in decisions {
        let tx = decision.tx().number() as usize;
        if above <= tx {
            above = tx + 1;
        }
    }
    above
}

// Writes the number of each commit into the table, at its transaction.
fn note_commits(commits: &mut [Option<u64>], decisions: &[Decision])
    requires once { IsDecidedOnce decisions.now }
    requires room { (number tx rank : ℕ) → IsCommitted decisions.now number tx rank
        → tx < length commits.old }
    requires empty { (tx number : ℕ) → IsIn commits.old tx number → ⊥ }
    ensures { (tx number : ℕ)
        → IsIn commits.new tx number ↔ ((rank : ℕ) × IsCommitted decisions.now number tx rank) }
{
    for (number, decision) in decisions.iter().enumerate() {
        if let Decision::Commit { tx, .. } = decision {
            commits[tx.number() as usize] = Some(number as u64);
        }
    }
}

// A table of the commits.
fn commits_of(alloc: Global, decisions: &[Decision]) -> Result<Vec<Option<u64>>, AllocError>
    requires { IsDecidedOnce decisions.now }
    ensures { IfOk result (λ commits. (tx number : ℕ)
        → IsIn commits.items tx number ↔ ((rank : ℕ) × IsCommitted decisions.now number tx rank)) }
{
    let mut commits = Vec::from_elem(alloc, None, above_all(decisions))?;
    note_commits(commits.as_mut_slice(), decisions);
    Ok(commits)
}

/// A table of the commits of the history, with the number of the decision at the number of its transaction.
pub(crate) fn commits(alloc: Global, certifier: &Certifier) -> Result<Vec<Option<u64>>, AllocError>
    ensures { IfOk result (λ commits. AreCommits certifier.now.state.rulings commits.items) }
{
    let _replays = certifier.history();
    let certificate = certifier.certificate(alloc, 1)?;
    let commits = commits_of(alloc, certificate.decisions.as_slice())?;
    Ok(commits)
}
