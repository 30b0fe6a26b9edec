//! The ranks of a certificate by themselves.

ghost use Rattle.std.specs.Prelude.{◌≡◌, ◌↔◌, IsTrue, IfOk, All, false, length};
ghost use Rattle.sgt_bundle.specs.Certificate.{ranks, AreRanks};

use sgt_bundle::Decision;
use std::alloc::{AllocError, Global};

/// The ranks of the commits.
fn commit_ranks(alloc: Global, decisions: &[Decision]) -> Result<Vec<u32>, AllocError>
    ensures { IfOk result (λ v. v.items ≡ ranks decisions.now) }
{
    decisions
        .iter()
        .filter_map(|decision| decision.rank())
        .collect(alloc)
}

/// Whether n ranks are 0 to n - 1, each once. Each that was met is marked in `met`.
fn meet_each_once(met: &mut [bool], ranks: &[u32]) -> bool
    requires room { length met.old ≡ length ranks.now }
    requires fresh { All (λ m. m ≡ false) met.old }
    ensures { IsTrue result ↔ AreRanks ranks.now }
{
    for rank in ranks {
        let place = *rank as usize;
        if place >= met.len() || met[place] {
            return false;
        }
        met[place] = true;
    }
    true
}

/// Whether the ranks of the n commits are 0 to n - 1, each once. Err: memory ran out.
pub fn are_ranks(alloc: Global, decisions: &[Decision]) -> Result<bool, AllocError>
    ensures { IfOk result (λ are. IsTrue are ↔ AreRanks (ranks decisions.now)) }
{
    let ranks = commit_ranks(alloc, decisions)?;
    let mut met = vec![in alloc; false; ranks.len()]?;
    Ok(meet_each_once(&mut met, ranks.as_slice()))
}
