//! What decisions come to, without their walks.

ghost use Rattle.std.specs.Prelude.{◌≡◌, ◌↔◌, IsTrue};
ghost use Rattle.sgt_audit_decisions.specs.private.Outcome.{outcome_of, rank_with, SuitsWith};

use sgt_bundle::Decision;
use sgt_names::Entry;

/// What a decision comes to.
#[derive(Clone, Copy)]
pub enum Outcome {
    Commit { rank: u32 },
    Refuse,
    Withdraw,
}

/// What the decision comes to.
pub(crate) fn outcome_of(decision: &Decision) -> Outcome
    ensures { result ≡ outcome_of decision.now }
{
    match decision {
        Decision::Commit { rank, .. } => Outcome::Commit { rank: *rank },
        Decision::Refuse { .. } => Outcome::Refuse,
        Decision::Withdraw { .. } => Outcome::Withdraw,
    }
}

impl Outcome {
    /// The rank of a commit.
    #[inline(always)]
    pub(crate) fn rank(&self) -> Option<u32>
        ensures { result ≡ rank_with self.now }
    {
        match self {
            Outcome::Commit { rank } => Some(*rank),
            _ => None,
        }
    }

    /// Whether it suits an entry of its transaction.
    #[inline(always)]
    pub(crate) fn suits(&self, entry: &Entry) -> bool
        ensures { IsTrue result ↔ SuitsWith entry.now self.now }
    {
        match entry {
            Entry::Read { .. } => true,
            Entry::Write { .. } | Entry::Add { .. } | Entry::Commit { .. } => matches!(
                self,
                Outcome::Commit { .. }
            ),
            Entry::Want { .. } | Entry::WantAdd { .. } | Entry::Refuse { .. } => matches!(
                self,
                Outcome::Refuse
            ),
            Entry::Withdraw { .. } => matches!(self, Outcome::Withdraw),
        }
    }
}
