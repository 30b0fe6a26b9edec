//! Seats: what each worker has of the ledger of decisions, and what it counted at each site.

ghost use Rattle.std.specs.Prelude.{◌≡◌, ◌<◌};
ghost use Rattle.sgt_service_locks.specs.Counts.{with_others};

use crate::ledgers::{Begins, Ledgers};
use sgt_names::{Draft, SiteNo};
use sgt_service_agreement::EntryCounts;
use std::sync::ledger::Share;

/// One worker's number and its parts of the ledgers of decisions and of begins, with its counts at each site and of
/// the transactions that it began.
#[derive(Drop)]
pub struct Seat<L: Ledgers> {
    pub(crate) number: usize,
    pub(crate) share: Share<L>,
    pub(crate) begins: Share<Begins<L>>,
    pub(crate) counts: Vec<EntryCounts>,
    pub(crate) begun: u64,
    // the draft of a transaction that was decided, whose room the next one uses again
    pub(crate) spare: Draft,
    pub ghost some_part: { 0 < share.parts },
    pub ghost some_begins: { 0 < begins.parts },
}

impl<L: Ledgers> Seat<L> {
    ghost use Rattle.std.specs.Prelude.{◌≡◌};
    ghost use Rattle.sgt_service_locks.specs.Counts.{AreCounted, only_at, with_others};
    ghost use Rattle.sgt_service_locks.specs.Seats.{CountsBegin};

    /// The worker's number, of which the gate is told.
    pub fn number(&self) -> usize
        ensures { result ≡ self.now.number }
    {
        self.number
    }

    /// The counts, by the sites' numbers.
    pub fn counts(&self) -> &[EntryCounts]
        ensures { result.now ≡ self.now.counts.items }
    {
        self.counts.as_slice()
    }

    /// How many transactions it began, up to the greatest number.
    pub fn begun(&self) -> u64
        ensures { result ≡ self.now.begun }
    {
        self.begun
    }

    // Counts a transaction that it began.
    pub(crate) fn count_begin(&mut self)
        ensures seat { CountsBegin self.old self.new }
        ensures begins { self.new.begins ≡ self.old.begins }
    {
        self.begun = self.begun.saturating_add(1);
    }

    // Counts so many other entries.
    #[tactic(auto, using(crate::proofs::Counting::counted_set, crate::proofs::Counting::counted_past))]
    pub(crate) fn count_others(&mut self, site: SiteNo, more: u64)
        ensures share { (self.new.share ≡ self.old.share) × (self.new.begun ≡ self.old.begun)
            × (self.new.number ≡ self.old.number) }
        ensures begins { self.new.begins ≡ self.old.begins }
        ensures counts { AreCounted
            (only_at site (with_others more)) self.old.counts.items self.new.counts.items }
    {
        let place = site.number() as usize;
        if place < self.counts.len() {
            self.counts[place] = with_others(self.counts[place], more);
        }
    }
}

fn with_others(counts: EntryCounts, more: u64) -> EntryCounts
    ensures { result ≡ with_others more counts }
{
    EntryCounts {
        reads: counts.reads,
        others: counts.others.saturating_add(more),
    }
}
