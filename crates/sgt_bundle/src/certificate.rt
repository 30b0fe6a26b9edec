//! What a certifier decided of each transaction.

use crate::walk::Walk;
use sgt_names::{Label, Listed, Tx};

/// A step of a walk: a conflict, and the transaction that it leads to.
#[derive(Clone, Copy, Debug, PartialEq, Eq)]
pub struct Step {
    pub label: Label,
    pub to: Tx,
}

/// A decision on a transaction.
#[derive(Drop)]
pub enum Decision {
    /// It is committed, at this place of the serial order.
    Commit { tx: Tx, rank: u32 },
    /// It is refused, since this walk of conflicts leads from it back to it.
    Refuse { tx: Tx, walk: Walk },
    /// It was withdrawn.
    Withdraw { tx: Tx },
}

impl Decision {
    ghost use Rattle.std.specs.Prelude.{◌≡◌, option_map};
    ghost use Rattle.sgt_bundle.specs.Certificate.{decided_tx, is_commit, is_refusal, is_withdrawal, rank_in, walk_of};

    /// The transaction that is decided.
    pub fn tx(&self) -> Tx
        ensures { result ≡ decided_tx self.now }
    {
        match self {
            Decision::Commit { tx, .. } => *tx,
            Decision::Refuse { tx, .. } => *tx,
            Decision::Withdraw { tx } => *tx,
        }
    }

    /// The rank of a commit.
    pub fn rank(&self) -> Option<u32>
        ensures { result ≡ rank_in self.now }
    {
        match self {
            Decision::Commit { rank, .. } => Some(*rank),
            _ => None,
        }
    }

    /// The walk of a refusal.
    pub fn walk(&self) -> Option<&[Step]>
        ensures { option_map (λ walk. walk.now) result ≡ walk_of self.now }
    {
        match self {
            Decision::Refuse { walk, .. } => Some(walk.as_slice()),
            _ => None,
        }
    }

    /// Whether it commits its transaction.
    pub fn is_commit(&self) -> bool
        ensures { result ≡ is_commit self.now }
    {
        matches!(self, Decision::Commit { .. })
    }

    /// Whether it refuses its transaction.
    pub fn is_refusal(&self) -> bool
        ensures { result ≡ is_refusal self.now }
    {
        matches!(self, Decision::Refuse { .. })
    }

    /// Whether it withdraws its transaction.
    pub fn is_withdrawal(&self) -> bool
        ensures { result ≡ is_withdrawal self.now }
    {
        matches!(self, Decision::Withdraw { .. })
    }
}

/// The decisions of a run in their order, and the number of its sites.
#[derive(Drop)]
pub struct Certificate {
    /// From 1 to `MAX_SITES` in a bundle; any number here.
    pub sites: u8,
    pub decisions: Listed<Decision>,
}

impl Certificate {
    ghost use Rattle.std.specs.Prelude.{◌≡◌};

    /// The decisions. The place of one, from 0, is its number.
    pub fn decisions(&self) -> &[Decision]
        ensures { result.now ≡ self.now.decisions }
    {
        self.decisions.as_slice()
    }
}
