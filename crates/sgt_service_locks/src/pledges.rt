//! The pledges that a step took, one after another, and the blocks that are written for them.

use crate::active::Active;
use crate::guarded::Guarded;
use crate::ledgers::Ledgers;
use sgt_certifier::Certifier;
use sgt_names::{SiteNo, Tx};
use sgt_site::Site;
use sgt_workers::Ending;
use std::sync::MutexGuard;

/// The pledges that a transaction took at those sites below a number that it touches, but for those from the first on
/// that were given back. They can't be dropped: whoever has them gives each back at its site, or owes the blocks of
/// the transaction once it is decided.
pub(crate) struct Pledges {
    given: usize,
    below: usize,
}

impl Pledges {
    ghost use Rattle.std.specs.Prelude.{◌≡◌, ◌≢◌, ◌<◌, ◌+◌, [], None};
    ghost use Rattle.sgt_names.specs.Draft.{at_site};
    ghost use Rattle.sgt_site.specs.State.{IsPledged, IsPledgedFor};
    ghost use Rattle.sgt_service_locks.specs.Guarded.{IsDecided};
    ghost use Rattle.std.specs.Sync.Mutex.{mutex_guard_value as held};

    /// None is taken yet.
    pub(crate) fn none() -> Pledges
        ensures { (result.given ≡ 0) × (result.below ≡ 0) }
    {
        Pledges { given: 0, below: 0 }
    }

    /// The site below which they were taken.
    pub(crate) fn below(&self) -> usize
        ensures { result ≡ self.now.below }
    {
        self.below
    }

    /// That of the next site was taken: it stands at the site whose lock is let go, which is the one of this number,
    /// for the transaction's draft.
    pub(crate) fn take(&mut self, guard: MutexGuard<'_, Site>, active: &Active, here: SiteNo)
        requires next { here ≡ self.old.below }
        requires touched { at_site here active.now.draft.touched ≢ [] }
        requires number { (held guard).number ≡ here }
        requires pledged { IsPledgedFor (held guard) active.now.tx active.now.draft.touched }
        ensures { (self.new.given ≡ self.old.given) × (self.new.below ≡ self.old.below + 1) }
    {
        drop(guard);
        let _ = active;
        self.below = here.number() as usize + 1;
    }

    /// The next site isn't touched, and pledges nothing.
    pub(crate) fn skip(&mut self, active: &Active, here: SiteNo)
        requires next { here ≡ self.old.below }
        requires untouched { at_site here active.now.draft.touched ≡ [] }
        ensures { (self.new.given ≡ self.old.given) × (self.new.below ≡ self.old.below + 1) }
    {
        let _ = active;
        self.below = here.number() as usize + 1;
    }

    /// The next one is given back: the site whose lock is let go has no pledge of the transaction.
    pub(crate) fn free(&mut self, guard: MutexGuard<'_, Site>, tx: Tx)
        requires below { self.old.given < self.old.below }
        requires given { IsPledged (held guard) tx → ⊥ }
        ensures { (self.new.given ≡ self.old.given + 1) × (self.new.below ≡ self.old.below) }
    {
        drop(guard);
        let _ = tx;
        self.given += 1;
    }

    /// The next site isn't touched.
    pub(crate) fn pass(&mut self, active: &Active, here: SiteNo)
        requires next { here ≡ self.old.given }
        requires below { self.old.given < self.old.below }
        requires untouched { at_site here active.now.draft.touched ≡ [] }
        ensures { (self.new.given ≡ self.old.given + 1) × (self.new.below ≡ self.old.below) }
    {
        let _ = active;
        self.given = here.number() as usize + 1;
    }

    /// All are given back.
    pub(crate) fn all_given(self)
        requires { self.given ≡ self.below }
    {
        let Pledges { given: _, below: _ } = self;
    }

    /// The transaction is decided, and its blocks spend them, which are owed from now on.
    pub(crate) fn spend(self, certifier: &Certifier, tx: Tx) -> Blocks
        requires whole { self.given ≡ 0 }
        requires decided { IsDecided certifier.now.state tx }
        ensures { (result.written ≡ 0) × (result.below ≡ self.below) }
    {
        let Pledges { given: _, below } = self;
        let _ = certifier;
        let _ = tx;
        Blocks {
            written: 0,
            below,
            stopped: false,
        }
    }
}

/// The blocks that a decided transaction owes those sites below a number that it touches, but for those from the
/// first on that were written. They can't be dropped: whoever has them writes each at its site, up to one that is
/// found to have lost its pledge.
pub(crate) struct Blocks {
    written: usize,
    below: usize,
    stopped: bool,
}

impl Blocks {
    ghost use Rattle.std.specs.Prelude.{◌≡◌, ◌≢◌, ◌<◌, ◌+◌, [], Some, true};
    ghost use Rattle.sgt_names.specs.Draft.{at_site};
    ghost use Rattle.sgt_service_locks.specs.Pledges.{HasBlock, HasLostPledge};
    ghost use Rattle.std.specs.Sync.Mutex.{mutex_guard_value as held};

    /// The next one was written: it ends the log of the site whose lock is let go, which is the one of this number.
    pub(crate) fn write(
        &mut self,
        guard: MutexGuard<'_, Site>,
        active: &Active,
        verdict: Ending,
        here: SiteNo,
    )
        requires next { here ≡ self.old.written }
        requires below { self.old.written < self.old.below }
        requires touched { at_site here active.now.draft.touched ≢ [] }
        requires ended { HasBlock verdict active.now here (held guard) }
        ensures { (self.new.written ≡ self.old.written + 1) × (self.new.below ≡ self.old.below) }
    {
        drop(guard);
        let _ = active;
        let _ = verdict;
        self.written = here.number() as usize + 1;
    }

    /// The next site isn't touched.
    pub(crate) fn pass(&mut self, active: &Active, here: SiteNo)
        requires next { here ≡ self.old.written }
        requires below { self.old.written < self.old.below }
        requires untouched { at_site here active.now.draft.touched ≡ [] }
        ensures { (self.new.written ≡ self.old.written + 1) × (self.new.below ≡ self.old.below) }
    {
        let _ = active;
        self.written = here.number() as usize + 1;
    }

    /// All are written.
    pub(crate) fn all_written(self)
        requires { self.written ≡ self.below }
    {
        let Blocks {
            written: _,
            below: _,
            stopped: _,
        } = self;
    }

    /// The next one can't be written: the site whose lock is let go has lost the pledge.
    pub(crate) fn stop(
        &mut self,
        guard: MutexGuard<'_, Site>,
        active: &Active,
        verdict: Ending,
        here: SiteNo,
    )
        requires next { here ≡ self.old.written }
        requires lost { HasLostPledge verdict active.now here (held guard) }
        ensures { (self.new.stopped ≡ true) × (self.new.written ≡ self.old.written)
            × (self.new.below ≡ self.old.below) }
    {
        drop(guard);
        let _ = active;
        let _ = verdict;
        let _ = here;
        self.stopped = true;
    }

    /// No further one is written, since the next site has lost its pledge, which is noted.
    pub(crate) fn give_up<L: Ledgers>(self, guarded: &Guarded<L>, here: SiteNo)
        requires stopped { self.stopped ≡ true }
        requires next { here ≡ self.written }
        requires noted { guarded.now.lost ≡ Some here }
    {
        let Blocks {
            written: _,
            below: _,
            stopped: _,
        } = self;
        let _ = guarded;
        let _ = here;
    }
}
