//! How many decisions of each kind there are.

use sgt_bundle::Decision;

/// How many transactions were committed, refused and withdrawn.
#[derive(Clone, Copy, Debug, PartialEq, Eq)]
pub struct Counts {
    pub committed: u64,
    pub refused: u64,
    pub withdrawn: u64,
}

impl Counts {
    ghost use Rattle.std.specs.Prelude.{◌≡◌, ◌+◌, ◌^◌, ◌<◌, ℕ, count_by};
    ghost use Rattle.sgt_bundle.specs.Certificate.{is_commit, is_refusal, is_withdrawal};
    ghost use Rattle.sgt_audit_chain.specs.Sums.{in_64_bits};

    /// None of each.
    pub(crate) fn none() -> Counts
        ensures { result ≡ record { committed = 0; refused = 0; withdrawn = 0 } }
    {
        Counts {
            committed: 0,
            refused: 0,
            withdrawn: 0,
        }
    }

    /// With these decisions, as far as numbers of 64 bits go.
    pub(crate) fn with(self, decisions: &[Decision]) -> Counts
        ensures committed { result.committed
            ≡ in_64_bits (self.committed + count_by is_commit decisions.now) }
        ensures refused { result.refused
            ≡ in_64_bits (self.refused + count_by is_refusal decisions.now) }
        ensures withdrawn { result.withdrawn
            ≡ in_64_bits (self.withdrawn + count_by is_withdrawal decisions.now) }
    {
        let mut counts = self;
        for decision in decisions {
            counts.committed = counts
                .committed
                .saturating_add(u64::from(decision.is_commit()));
            counts.refused = counts
                .refused
                .saturating_add(u64::from(decision.is_refusal()));
            counts.withdrawn = counts
                .withdrawn
                .saturating_add(u64::from(decision.is_withdrawal()));
        }
        counts
    }
}
