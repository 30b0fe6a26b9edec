//! The sites of a transaction, one after another, while the certifier's lock is held.

ghost use Rattle.std.specs.Prelude.{◌≡◌, ◌≢◌, ◌↔◌, ◌<◌, [], false, None, All, IsTrue, count_by};
ghost use Rattle.sgt_service_locks.specs.Counts.{block_length, is_at, is_changed_at};
ghost use Rattle.sgt_names.specs.Draft.{at_site};

use crate::active::Active;
use crate::guarded::Guarded;
use crate::ledgers::Ledgers;
use crate::pledges::{Blocks, Pledges};
use crate::seat::Seat;
use crate::service::Service;
use sgt_edges::EdgeList;
use sgt_names::{Draft, SiteNo, Touch};
use sgt_service_agreement::ServiceFault;
use sgt_site::{Site, SiteFault};
use sgt_step::{TouchedSites, give_back};
use sgt_workers::{Ending, Gate, Place};
use std::alloc::Global;
use std::sync::{MutexGuard, Wait};

/// This site was found to have lost its pledge.
#[derive(Clone, Copy)]
pub struct Lost {
    pub site: SiteNo,
}

impl<L: Ledgers, G: Gate> Service<L, G> {
    ghost use Rattle.std.specs.Prelude.{◌≡◌, ◌≢◌, ◌<◌, ◌≤◌, ◌+◌, ◌++◌, [], ℕ, List, false, Some, Err, IsTrue, IfOk, IfErr, IfSome, OnOk, OnErr, vec_len};
    ghost use Rattle.sgt_service_agreement.specs.declared.fault.ServiceFault.TheVariants.{NotPledged};
    ghost use Rattle.sgt_names.specs.Draft.{at_site};
    ghost use Rattle.sgt_step.specs.Touched.{AreSitesOf};
    ghost use Rattle.sgt_workers.specs.declared.ticket.Ending.TheVariants.{Committed};
    ghost use Rattle.sgt_certifier.specs.History.{tx_under, Replays};
    ghost use Rattle.sgt_certifier.specs.Kept.{Adds, IsExpected, changed_at};
    ghost use Rattle.sgt_certifier.specs.declared.call.Call.TheVariants as call;
    ghost use Rattle.sgt_service_locks.specs.Counts.{AreCounted, only_at, with_others, blocks_of, below};
    ghost use Rattle.sgt_service_locks.specs.Guarded.{AwaitsInstalls, IsGathered, IsGatheredBelow, notes_at, notes_below};
    ghost use Rattle.sgt_service_locks.specs.Pledges.{IsWhole, Stops, TakesNext, WritesNext};
    ghost use Rattle.sgt_site.specs.State.{SiteState, IsSite};
    ghost use Rattle.sgt_edges.specs.declared.edge.Edge.{Edge as AnEdge};
    ghost use Rattle.sgt_service_locks.specs.Stops.{NotesLoss};
    ghost use Rattle.sgt_service_locks.specs.Undecided.{IsHeld, MayGather, IsUncommitted, IsUngathered, IsNotWithdrawn, IsUnpledged, RefusesGather, RefusesPledgeAt};

    // The number of the site at this place.
    fn number_at(&self, place: usize) -> SiteNo
        requires { place < vec_len self.now.sites }
        ensures { result ≡ place }
    {
        match SiteNo::new(place as u64) {
            Ok(number) => number,
            Err(_) => unreachable!(),
        }
    }

    // Takes the lock of the site at the place of this number.
    pub(crate) fn lock_site<R: Wait>(&self, rt: &R, here: SiteNo) -> MutexGuard<'_, Site>
        requires { here < vec_len self.now.sites }
    {
        self.sites[here.number() as usize].lock(rt)
    }

    // Whether each site that the draft touches is there.
    fn has_sites(&self, draft: &Draft) -> bool
        ensures all { IsTrue result → (site : ℕ) → vec_len self.now.sites ≤ site
            → at_site site draft.now.touched ≡ [] }
        ensures beyond { result ≡ false
            → (site : ℕ) × (vec_len self.now.sites ≤ site) × (at_site site draft.now.touched ≢ []) }
    {
        TouchedSites::of(draft).are_below(self.sites.len())
    }

    // Gives the pledges back, at one site after another.
    pub(crate) fn give_back<R: Wait>(&self, rt: &R, active: &Active, pledges: Pledges)
        requires whole { pledges.given ≡ 0 }
        requires sites { pledges.below ≤ vec_len self.now.sites }
    {
        let mut pledges = pledges;
        let touched = TouchedSites::of(&active.draft);
        for place in 0..pledges.below() {
            let here = self.number_at(place);
            if touched.contains(here) {
                let mut guard = self.lock_site(rt, here);
                give_back(&mut guard, active.tx);
                pledges.free(guard, active.tx);
            } else {
                pledges.pass(active, here);
            }
        }
        pledges.all_given();
    }

    // Pledges at each site that the draft touches. Where a site refuses, none of these pledges is left, and the site
    // of a V7 is noted.
    fn pledge_all<R: Wait>(
        &self,
        rt: &R,
        guarded: &mut Guarded<L>,
        active: &Active,
    ) -> Result<Pledges, ServiceFault>
        ensures below { IfOk result (IsWhole (vec_len self.now.sites)) }
        ensures certifier { guarded.new.certifier ≡ guarded.old.certifier }
        ensures kept { OnOk result (guarded.new.lost ≡ guarded.old.lost) }
        ensures noted { IfErr result (NotesLoss guarded.old.lost guarded.new.lost) }
        ensures refused { IfErr result (IsUnpledged (vec_len self.now.sites) active.now) }
    {
        let mut pledges = Pledges::none();
        let touched = TouchedSites::of(&active.draft);
        for place in 0..self.sites.len() {
            let here = self.number_at(place);
            if touched.contains(here) {
                let pledged = self.pledge_at(rt, guarded, here, active, &mut pledges);
                if let Err(fault) = pledged {
                    self.give_back(rt, active, pledges);
                    return Err(fault);
                }
            } else {
                pledges.skip(active, here);
            }
        }
        Ok(pledges)
    }

    // Pledges at a site, under its lock. The site of a V7 is noted.
    fn pledge_at<R: Wait>(
        &self,
        rt: &R,
        guarded: &mut Guarded<L>,
        here: SiteNo,
        active: &Active,
        pledges: &mut Pledges,
    ) -> Result<(), ServiceFault>
        requires place { here < vec_len self.now.sites }
        requires next { here ≡ pledges.old.below }
        requires touched { at_site here active.now.draft.touched ≢ [] }
        ensures taken { OnOk result (TakesNext pledges.old pledges.new) }
        ensures err { OnErr result (pledges.new ≡ pledges.old) }
        ensures refused { IfErr result
            (λ f. (s : SiteState) × IsSite s × RefusesPledgeAt here s active.now f) }
        ensures certifier { guarded.new.certifier ≡ guarded.old.certifier }
        ensures kept { OnOk result (guarded.new.lost ≡ guarded.old.lost) }
        ensures noted { IfErr result (NotesLoss guarded.old.lost guarded.new.lost) }
    {
        let mut guard = self.lock_site(rt, here);
        guarded.pledge(&mut guard, here, active)?;
        pledges.take(guard, active, here);
        Ok(())
    }

    // Pledges a transaction that may be withdrawn at each of its sites. Where another site stands in the place of
    // one, that is noted.
    pub(crate) fn pledged<R: Wait>(
        &self,
        rt: &R,
        guarded: &mut Guarded<L>,
        active: &Active,
    ) -> Result<Pledges, ServiceFault>
        ensures below { IfOk result (IsWhole (vec_len self.now.sites)) }
        ensures held { OnOk result
            (IsHeld guarded.old.lost guarded.old.certifier.state active.now) }
        ensures replays { Replays guarded.old.certifier.history guarded.old.certifier.state }
        ensures sites { OnOk result
            ((site : ℕ) → vec_len self.now.sites ≤ site
            → at_site site active.now.draft.touched ≡ []) }
        ensures first { IfSome guarded.old.lost (λ site. result ≡ Err (NotPledged site)) }
        ensures kept { OnOk result (guarded.new.lost ≡ guarded.old.lost) }
        ensures noted { IfErr result (NotesLoss guarded.old.lost guarded.new.lost) }
        ensures same { guarded.new.certifier ≡ guarded.old.certifier }
        ensures refused { IfErr result
            (IsNotWithdrawn
            (vec_len self.now.sites) guarded.old.lost guarded.old.certifier active.now) }
    {
        if let Err(fault) = guarded.check(active) {
            return Err(fault);
        }
        if !self.has_sites(&active.draft) {
            return Err(ServiceFault::Site(SiteFault::UnknownItem));
        }
        match self.pledge_all(rt, guarded, active) {
            Ok(pledges) => Ok(pledges),
            Err(fault) => Err(fault),
        }
    }

    // Pledges a transaction that may be decided at each of its sites, and gathers its edges.
    pub(crate) fn gathered<R: Wait>(
        &self,
        rt: &R,
        alloc: Global,
        guarded: &mut Guarded<L>,
        active: &Active,
    ) -> Result<(EdgeList, Pledges), ServiceFault>
        ensures edges { IfOk result
            (λ r. IsGatheredBelow guarded.old.certifier.history active.now
            (vec_len self.now.sites) r.0) }
        ensures below { IfOk result (λ r. IsWhole (vec_len self.now.sites) r.1) }
        ensures may { OnOk result
            (MayGather (vec_len self.now.sites) guarded.old.lost guarded.old.certifier active.now) }
        ensures replays { Replays guarded.old.certifier.history guarded.old.certifier.state }
        ensures named { OnOk result
            (tx_under guarded.new.certifier.state active.now.handle ≡ active.now.tx) }
        ensures room { OnOk result
            ((site : ℕ) → IsExpected guarded.new.certifier.expected active.now.draft.touched site) }
        ensures sites { OnOk result
            ((site : ℕ) → vec_len self.now.sites ≤ site
            → at_site site active.now.draft.touched ≡ []) }
        ensures first { IfSome guarded.old.lost (λ site. result ≡ Err (NotPledged site)) }
        ensures kept { OnOk result (guarded.new.lost ≡ guarded.old.lost) }
        ensures noted { IfErr result (NotesLoss guarded.old.lost guarded.new.lost) }
        ensures same { (guarded.new.certifier.state ≡ guarded.old.certifier.state)
            × (guarded.new.certifier.history ≡ guarded.old.certifier.history) }
        ensures refused { IfErr result
            (IsUncommitted
            (vec_len self.now.sites) guarded.old.lost guarded.old.certifier active.now) }
    {
        if let Err(fault) = guarded.expect(active) {
            return Err(fault);
        }
        if !self.has_sites(&active.draft) {
            return Err(ServiceFault::Site(SiteFault::UnknownItem));
        }
        let mut edges = EdgeList::new(alloc);
        match self.gather_all(rt, alloc, guarded, active, &mut edges) {
            Ok(pledges) => Ok((edges, pledges)),
            Err(fault) => Err(fault),
        }
    }

    // Gathers the edges at each site that the draft touches, and pledges there. Where this is refused, none of these
    // pledges is left, and a site whose versions don't agree is noted.
    fn gather_all<R: Wait>(
        &self,
        rt: &R,
        alloc: Global,
        guarded: &mut Guarded<L>,
        active: &Active,
        edges: &mut EdgeList,
    ) -> Result<Pledges, ServiceFault>
        requires { edges.old ≡ [] }
        ensures edges { OnOk result
            (IsGatheredBelow guarded.old.certifier.history active.now
            (vec_len self.now.sites) edges.new) }
        ensures below { IfOk result (IsWhole (vec_len self.now.sites)) }
        ensures certifier { guarded.new.certifier ≡ guarded.old.certifier }
        ensures kept { OnOk result (guarded.new.lost ≡ guarded.old.lost) }
        ensures noted { IfErr result (NotesLoss guarded.old.lost guarded.new.lost) }
        ensures refused { IfErr result
            (IsUngathered (vec_len self.now.sites) guarded.old.certifier.history active.now) }
    {
        let mut pledges = Pledges::none();
        let touched = TouchedSites::of(&active.draft);
        for place in 0..self.sites.len() {
            let here = self.number_at(place);
            if touched.contains(here) {
                let gathered = self.gather_at(
                    rt,
                    alloc,
                    guarded,
                    here,
                    active,
                    edges,
                    &mut pledges,
                );
                if let Err(fault) = gathered {
                    self.give_back(rt, active, pledges);
                    return Err(fault);
                }
            } else {
                pledges.skip(active, here);
            }
        }
        Ok(pledges)
    }

    // Gathers the edges at a site, under its lock, and pledges there. The site of a V7 is noted.
    fn gather_at<R: Wait>(
        &self,
        rt: &R,
        alloc: Global,
        guarded: &mut Guarded<L>,
        here: SiteNo,
        active: &Active,
        edges: &mut EdgeList,
        pledges: &mut Pledges,
    ) -> Result<(), ServiceFault>
        requires place { here < vec_len self.now.sites }
        requires next { here ≡ pledges.old.below }
        requires touched { at_site here active.now.draft.touched ≢ [] }
        ensures edges { OnOk result
            ((s : SiteState) × (more : List AnEdge) × (edges.new ≡ edges.old ++ more)
            × IsGathered guarded.old.certifier.history active.now here s more) }
        ensures taken { OnOk result (TakesNext pledges.old pledges.new) }
        ensures err { OnErr result (pledges.new ≡ pledges.old) }
        ensures refused { IfErr result
            (λ f. (s : SiteState) × IsSite s
            × RefusesGather guarded.old.certifier.history here s active.now f) }
        ensures certifier { guarded.new.certifier ≡ guarded.old.certifier }
        ensures kept { OnOk result (guarded.new.lost ≡ guarded.old.lost) }
        ensures noted { IfErr result (NotesLoss guarded.old.lost guarded.new.lost) }
    {
        let mut guard = self.lock_site(rt, here);
        guarded.gather(alloc, &mut guard, here, active, edges)?;
        pledges.take(guard, active, here);
        Ok(())
    }

    // Writes the block of a transaction that is decided so at each site that its draft touches, and counts it. A site
    // that has lost its pledge is noted, and no further block is written.
    pub(crate) fn end_all<R: Wait>(
        &self,
        rt: &R,
        guarded: &mut Guarded<L>,
        seat: &mut Seat<L>,
        active: &Active,
        verdict: Ending,
        blocks: Blocks,
    ) -> Result<(), Lost>
        requires awaits { verdict ≡ Committed
            → AwaitsInstalls guarded.old.certifier active.now.tx active.now.draft.touched 0 }
        requires sites { (site : ℕ) → vec_len self.now.sites ≤ site
            → at_site site active.now.draft.touched ≡ [] }
        requires owed { (blocks.written ≡ 0) × (blocks.below ≡ vec_len self.now.sites) }
        ensures step { guarded.new.certifier.state.step ≡ guarded.old.certifier.state.step }
        ensures share { (seat.new.share ≡ seat.old.share) × (seat.new.begun ≡ seat.old.begun)
            × (seat.new.number ≡ seat.old.number) }
        ensures begins { seat.new.begins ≡ seat.old.begins }
        ensures ok { OnOk result
            (AreCounted (λ site. with_others (blocks_of verdict active.now.draft.touched site))
            seat.old.counts.items seat.new.counts.items) }
        ensures lost { IfErr result (λ e. AreCounted
            (λ site. with_others (below e.site (blocks_of verdict active.now.draft.touched) site))
            seat.old.counts.items seat.new.counts.items) }
        ensures history { OnOk result (guarded.new.certifier.history
            ≡ guarded.old.certifier.history
            ++ notes_below verdict active.now (vec_len self.now.sites)) }
        ensures kept { OnOk result (guarded.new.lost ≡ guarded.old.lost) }
        ensures noted { IfErr result (λ e. guarded.new.lost ≡ Some e.site) }
        ensures touched { IfErr result (λ e. at_site e.site active.now.draft.touched ≢ []) }
    {
        let mut blocks = blocks;
        let touched = TouchedSites::of(&active.draft);
        for place in 0..self.sites.len() {
            let here = self.number_at(place);
            if !self.end_one(
                rt,
                guarded,
                seat,
                here,
                active,
                &touched,
                verdict,
                &mut blocks,
            ) {
                blocks.give_up(guarded, here);
                return Err(Lost { site: here });
            }
        }
        blocks.all_written();
        Ok(())
    }

    // Writes the block at one site, under its lock, if the draft touches it, and counts it. False where it has lost
    // the pledge, or another site stands in its place, which is noted.
    fn end_one<R: Wait>(
        &self,
        rt: &R,
        guarded: &mut Guarded<L>,
        seat: &mut Seat<L>,
        here: SiteNo,
        active: &Active,
        touched: &TouchedSites,
        verdict: Ending,
        blocks: &mut Blocks,
    ) -> bool
        requires sites { AreSitesOf touched.now active.now.draft.touched }
        requires place { here < vec_len self.now.sites }
        requires next { (here ≡ blocks.old.written) × (blocks.old.written < blocks.old.below) }
        requires awaits { verdict ≡ Committed
            → AwaitsInstalls guarded.old.certifier active.now.tx active.now.draft.touched here }
        ensures awaits { IsTrue result → verdict ≡ Committed
            → AwaitsInstalls guarded.new.certifier active.now.tx active.now.draft.touched
            (here + 1) }
        ensures step { guarded.new.certifier.state.step ≡ guarded.old.certifier.state.step }
        ensures share { (seat.new.share ≡ seat.old.share) × (seat.new.begun ≡ seat.old.begun)
            × (seat.new.number ≡ seat.old.number) }
        ensures begins { seat.new.begins ≡ seat.old.begins }
        ensures counted { IsTrue result → AreCounted
            (only_at here (with_others (blocks_of verdict active.now.draft.touched here)))
            seat.old.counts.items seat.new.counts.items }
        ensures history { IsTrue result → guarded.new.certifier.history
            ≡ guarded.old.certifier.history ++ notes_at verdict active.now here }
        ensures kept { IsTrue result → guarded.new.lost ≡ guarded.old.lost }
        ensures noted { result ≡ false → guarded.new.lost ≡ Some here }
        ensures touched { result ≡ false → at_site here active.now.draft.touched ≢ [] }
        ensures written { IsTrue result → WritesNext blocks.old blocks.new }
        ensures stopped { result ≡ false → Stops blocks.old blocks.new }
        ensures same { result ≡ false → seat.new.counts.items ≡ seat.old.counts.items }
    {
        if !touched.contains(here) {
            blocks.pass(active, here);
            return true;
        }
        let entries = block_at(active.draft.at(here), here, verdict);
        if entries == 0 {
            blocks.pass(active, here);
            return true;
        }
        let mut guard = self.lock_site(rt, here);
        self.gate.arrive(seat.number, Place::InInstall(here));
        if !guarded.end(&mut guard, here, active, verdict) {
            guarded.lose(here);
            blocks.stop(guard, active, verdict, here);
            return false;
        }
        blocks.write(guard, active, verdict, here);
        seat.count_others(here, entries);
        true
    }
}

// How many entries the block of a transaction that is decided so has at the site.
#[tactic(auto, using(crate::proofs::Counting::block_at_none, crate::proofs::Counting::block_at_end, crate::proofs::Counting::block_at_some))]
fn block_at(touched: &[Touch], site: SiteNo, verdict: Ending) -> u64
    ensures { result ≡ block_length verdict (at_site site touched.now) }
{
    let items = items_at(touched, site);
    if items == 0 {
        return 0;
    }
    match verdict {
        Ending::Withdrawn => 1,
        _ => changes_at(touched, site) + 1,
    }
}

// How many items are touched at the site, and how many are changed.
fn items_at(touched: &[Touch], site: SiteNo) -> u64
    ensures { result ≡ count_by (is_at site) touched.now }
{
    touched.iter().filter(|touch| is_at(touch, site)).count() as u64
}

fn changes_at(touched: &[Touch], site: SiteNo) -> u64
    ensures { result ≡ count_by (is_changed_at site) touched.now }
{
    touched
        .iter()
        .filter(|touch| is_changed_at(touch, site))
        .count() as u64
}

fn is_at(touch: &Touch, site: SiteNo) -> bool
    ensures { result ≡ is_at site touch.now }
{
    touch.site == site
}

fn is_changed_at(touch: &Touch, site: SiteNo) -> bool
    ensures { result ≡ is_changed_at site touch.now }
{
    touch.site == site && touch.change.is_some()
}
