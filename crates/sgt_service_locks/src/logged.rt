//! What a read makes of its site, with which the site's lock is let go.

ghost use Rattle.std.specs.Prelude.{◌≡◌};
ghost use Rattle.sgt_service_locks.specs.Counts.{with_read};

use crate::active::Active;
use crate::ledgers::Ledgers;
use crate::seat::Seat;
use sgt_names::{Item, SiteNo};
use sgt_service_agreement::EntryCounts;
use sgt_site::Site;
use std::snapshot::Snapshot;
use std::sync::MutexGuard;

/// A site whose lock was taken for a read, and the transaction that is to read, both as they were then. It can't be
/// dropped: the lock is let go with the one read that the site logged and the transaction keeps, or with both as they
/// were.
pub(crate) struct Unread {
    site: Snapshot<Site>,
    active: Snapshot<Active>,
}

impl Unread {
    ghost use Rattle.std.specs.Prelude.{◌≡◌};
    ghost use Rattle.sgt_service_locks.specs.Reads.{ReadsAt, SameActive};
    ghost use Rattle.std.specs.Sync.Mutex.{mutex_guard_value as held};

    /// The lock has just been taken.
    pub(crate) fn of(guard: &MutexGuard<'_, Site>, active: &Active) -> Unread
        ensures { (result.site.value ≡ held guard.now) × (result.active.value ≡ active.now) }
    {
        Unread {
            site: Snapshot::of(&**guard),
            active: Snapshot::of(active),
        }
    }

    /// The site whose lock is let go has logged this read, which the transaction keeps.
    pub(crate) fn log(
        self,
        guard: MutexGuard<'_, Site>,
        active: &Active,
        here: SiteNo,
        item: Item,
    ) -> Logged
        requires { ReadsAt here item self.active.value active.now self.site.value (held guard) }
        ensures { result.site ≡ here }
    {
        let Unread { site: _, active: _ } = self;
        drop(guard);
        let _ = active;
        let _ = item;
        Logged { site: here }
    }

    /// Nothing was read: the site whose lock is let go is as it was, and so is the transaction.
    pub(crate) fn release(self, guard: MutexGuard<'_, Site>, active: &Active)
        requires site { held guard ≡ self.site.value }
        requires active { SameActive self.active.value active.now }
    {
        let Unread { site: _, active: _ } = self;
        drop(guard);
        let _ = active;
    }
}

/// A read that a site has logged and no seat has counted. It can't be dropped: a seat counts it.
pub(crate) struct Logged {
    site: SiteNo,
}

impl<L: Ledgers> Seat<L> {
    ghost use Rattle.std.specs.Prelude.{◌≡◌};
    ghost use Rattle.sgt_service_locks.specs.Counts.{AreCounted, only_at, with_read};

    // Counts a logged read.
    #[tactic(auto, using(crate::proofs::Counting::counted_set, crate::proofs::Counting::counted_past))]
    pub(crate) fn count_read(&mut self, logged: Logged)
        ensures share { (self.new.share ≡ self.old.share) × (self.new.begun ≡ self.old.begun)
            × (self.new.number ≡ self.old.number) }
        ensures begins { self.new.begins ≡ self.old.begins }
        ensures counts { AreCounted
            (only_at logged.site with_read) self.old.counts.items self.new.counts.items }
    {
        let Logged { site } = logged;
        let place = site.number() as usize;
        if place < self.counts.len() {
            self.counts[place] = with_read(self.counts[place]);
        }
    }
}

fn with_read(counts: EntryCounts) -> EntryCounts
    ensures { result ≡ with_read counts }
{
    EntryCounts {
        reads: counts.reads.saturating_add(1),
        others: counts.others,
    }
}
