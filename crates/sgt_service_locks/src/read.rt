//! Reads at a site, under its lock.

ghost use Rattle.std.specs.Prelude.{◌≡◌, ◌<◌, ℕ, None, Some, length, IsTrue, IfOk, IfErr, IfSome, OnOk, OnErr};
ghost use Rattle.sgt_names.specs.Draft.{change_at, AreRising, ChangesOnly};
ghost use Rattle.sgt_service_locks.specs.Reads.{look_in, ReadsAt, SameActive};
ghost use Rattle.sgt_site.specs.State.{IsSite};
ghost use Rattle.sgt_service_locks.specs.Refused.{IsToldOfRead};

use crate::active::Active;
use crate::guarded::is_numbered;
use crate::ledgers::Ledgers;
use crate::logged::{Logged, Unread};
use crate::seat::Seat;
use crate::service::Service;
use sgt_names::{Draft, Item, Seen, SiteNo, Value, changes_show_at_their_place};
use sgt_service_agreement::ServiceFault;
use sgt_site::{Site, SiteFault};
use sgt_workers::{Gate, Place};
use std::sync::{MutexGuard, Wait};

impl<L: Ledgers, G: Gate> Service<L, G> {
    ghost use Rattle.sgt_service_agreement.specs.declared.fault.ServiceFault.TheVariants.{Site as AtSite};
    ghost use Rattle.sgt_site.specs.declared.fault.SiteFault.TheVariants.{UnknownItem};
    ghost use Rattle.std.specs.Sync.Mutex.{mutex_guard_value as held};
    ghost use Rattle.std.specs.Prelude.{◌≡◌, ◌<◌, None, Some, Err, IsTrue, IsSome, IsOk, IfOk, IfErr, OnOk, OnErr, vec_len};
    ghost use Rattle.sgt_service_locks.specs.Counts.{AreCounted, only_at, with_read};
    ghost use Rattle.sgt_service_locks.specs.Reads.{look_in, GainsRead, IsOfActive, SameActive};
    ghost use Rattle.sgt_service_locks.specs.Refused.{HasItem, IsOfRead, IsToldOfRead, RefusesReadAt};
    ghost use Rattle.sgt_site.specs.State.{SiteState, IsSite};
    ghost use Rattle.sgt_workers.specs.declared.gate.Place.TheVariants.{InRead, AfterRead};
    ghost use Rattle.sgt_service_locks.specs.Seats.{SameSeat};

    /// Reads an item. What the transaction wrote or read before is answered from its draft. Else the item is read and
    /// logged at its site, under the site's lock, and kept in the draft, for which there is room before the lock is
    /// taken.
    ///
    /// - V4 with S1: the site or the item isn't there, or another site stands in its place.
    /// - V3: there was no memory.
    /// - V4 with S2, S3 or S7, as the site refuses.
    ///
    /// The gate is told of `InRead` and `AfterRead`, of a read at the site alone.
    pub fn read<R: Wait>(
        &self,
        rt: &R,
        seat: &mut Seat<L>,
        active: &mut Active,
        site: SiteNo,
        item: Item,
    ) -> Result<Value, ServiceFault>
        ensures value { IfOk result (λ v. look_in active.new.draft.touched site item ≡ Some v) }
        ensures kept { IsSome (look_in active.old.draft.touched site item)
            → IsOk result × SameActive active.old active.new × SameSeat seat.old seat.new }
        ensures gained { OnOk result (look_in active.old.draft.touched site item ≡ None
            → GainsRead site item active.old.draft.touched active.new.draft.touched
            × AreCounted (only_at site with_read) seat.old.counts.items seat.new.counts.items) }
        ensures named { IsOfActive active.old active.new × (seat.new.share ≡ seat.old.share)
            × (seat.new.begun ≡ seat.old.begun) × (seat.new.number ≡ seat.old.number) }
        ensures begins { seat.new.begins ≡ seat.old.begins }
        ensures err { OnErr result (SameActive active.old active.new × SameSeat seat.old seat.new) }
        ensures allowed { OnOk result
            (look_in active.old.draft.touched site item ≡ None
            → HasItem self.now.names.items site item) }
        ensures unknown { (HasItem self.now.names.items site item → ⊥)
            → look_in active.old.draft.touched site item ≡ None
            → result ≡ Err (AtSite UnknownItem) }
        ensures refused { IfErr result
            (RefusesReadAt self.now.names.items active.old.tx active.old.draft.touched site item) }
        ensures fault { IfErr result IsOfRead }
        ensures told { OnOk result (look_in active.old.draft.touched site item ≡ None
            → G.lets_go self.now.gate seat.old.number (InRead site)
            × G.lets_go self.now.gate seat.old.number (AfterRead site)) }
    {
        if let Some(value) = active.draft.look(site, item) {
            return Ok(value);
        }
        if !self.has_item(site, item) {
            return Err(ServiceFault::Site(SiteFault::UnknownItem));
        }
        active.draft.room()?;
        let (value, logged) = self.read_site(rt, seat, active, site, item)?;
        self.gate.arrive(seat.number, Place::AfterRead(site));
        seat.count_read(logged);
        Ok(value)
    }

    // Takes the site's lock for a read.
    fn lock_to_read<R: Wait>(
        &self,
        rt: &R,
        here: SiteNo,
        active: &Active,
    ) -> (MutexGuard<'_, Site>, Unread)
        requires { here < vec_len self.now.sites }
        ensures site { result.1.site.value ≡ held result.0 }
        ensures active { result.1.active.value ≡ active.now }
    {
        let guard = self.lock_site(rt, here);
        let unread = Unread::of(&guard, active);
        (guard, unread)
    }

    // Reads at the site, under its lock, for a draft that has room for what is read, and keeps it there. The lock is
    // let go with this read alone, or with the site as it was.
    #[tactic(auto, using(crate::proofs::Faults::read_of))]
    fn read_site<R: Wait>(
        &self,
        rt: &R,
        seat: &Seat<L>,
        active: &mut Active,
        site: SiteNo,
        item: Item,
    ) -> Result<(Value, Logged), ServiceFault>
        requires item { HasItem self.now.names.items site item }
        requires room { IsTrue active.old.draft.has_room }
        requires unread { look_in active.old.draft.touched site item ≡ None }
        ensures value { IfOk result (λ r. look_in active.new.draft.touched site item ≡ Some r.0) }
        ensures logged { IfOk result (λ r. r.1.site ≡ site) }
        ensures gained { OnOk result
            (GainsRead site item active.old.draft.touched active.new.draft.touched) }
        ensures named { IsOfActive active.old active.new }
        ensures err { OnErr result (SameActive active.old active.new) }
        ensures refused { IfErr result
            (λ f. (s : SiteState) × IsSite s × IsToldOfRead site s active.old.tx item f) }
        ensures fault { IfErr result IsOfRead }
        ensures told { G.lets_go self.now.gate seat.now.number (InRead site) }
    {
        let (mut guard, unread) = self.lock_to_read(rt, site, active);
        self.gate.arrive(seat.number, Place::InRead(site));
        match read_held(&mut guard, active, site, item) {
            Ok(value) => Ok((value, unread.log(guard, active, site, item))),
            Err(fault) => {
                unread.release(guard, active);
                Err(fault)
            }
        }
    }
}

// Reads at the site that is lent, if it is the one of this number, for the transaction, and keeps what was read in
// its draft, which has room for it.
fn read_held(
    held: &mut Site,
    active: &mut Active,
    site: SiteNo,
    item: Item,
) -> Result<Value, ServiceFault>
    requires room { IsTrue active.old.draft.has_room }
    requires unread { look_in active.old.draft.touched site item ≡ None }
    ensures read { OnOk result (ReadsAt site item active.old active.new held.old held.new) }
    ensures value { IfOk result (λ v. look_in active.new.draft.touched site item ≡ Some v) }
    ensures err { OnErr result ((held.new ≡ held.old) × SameActive active.old active.new) }
    ensures refused { IfErr result (IsToldOfRead site held.old active.old.tx item) }
    ensures site { IsSite held.old }
{
    let _items = held.items();
    if !is_numbered(held, site) {
        return Err(ServiceFault::Site(SiteFault::UnknownItem));
    }
    let seen = held.read(active.tx, item)?;
    Ok(keep(&mut active.draft, site, item, seen))
}

// How many items the draft touches, where they are in one list.
#[tactic(auto, using(crate::proofs::Reading::in_one_list))]
fn count_in(draft: &Draft) -> Option<usize>
    ensures count { IfSome result (λ n. n ≡ length draft.now.touched) }
    ensures rising { AreRising draft.now.touched }
{
    let (few, parts) = draft.touched();
    if parts.is_empty() {
        Some(few.len())
    } else {
        None
    }
}

// Whether the second number is greater, where both are there.
fn is_longer(before: Option<usize>, after: Option<usize>) -> bool
    ensures { (m n : ℕ) → IfSome before (λ k. k ≡ m) → IfSome after (λ k. k ≡ n) → IsTrue result
        → m < n }
{
    let Some(before) = before else {
        return false;
    };
    let Some(after) = after else {
        return false;
    };
    before < after
}

// Keeps what was read, and answers what the transaction sees of it now: just that, where the item is new to it.
#[tactic(auto, using(crate::proofs::Reading::seen_shows))]
fn keep(draft: &mut Draft, site: SiteNo, item: Item, seen: Seen) -> Value
    requires room { IsTrue draft.old.has_room }
    requires unread { look_in draft.old.touched site item ≡ None }
    ensures kept { ChangesOnly draft.old.touched draft.new.touched (record {
      site = site;
      item = item;
      seen = Some seen;
      change = change_at draft.old.touched (site, item);
    }) }
    ensures value { look_in draft.new.touched site item ≡ Some result }
{
    let before = count_in(draft);
    let Ok(()) = draft.seen(site, item, seen.value, seen.version) else {
        unreachable!()
    };
    let after = count_in(draft);
    changes_show_at_their_place();
    if is_longer(before, after) {
        return seen.value;
    }
    match draft.look(site, item) {
        Some(value) => value,
        None => unreachable!(),
    }
}
