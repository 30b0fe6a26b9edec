//! Pledges: room for the block that is to end a transaction.

ghost use Rattle.std.specs.Prelude.{◌≡◌, ◌↔◌, ◌<◌, length, All, IsTrue, IsSome, vec_len, vec_capacity, ◌+◌};
ghost use Rattle.std.specs.Option.{ForSome};
ghost use Rattle.sgt_names.specs.Draft.{AreRising, at_site};
ghost use Rattle.sgt_site.specs.private.Cells.{HasItem, InCells, KeepsItem};
ghost use Rattle.sgt_site.specs.private.Pending.{items_by};

use super::{Site, has_ended, is_pledged, make_room};
use crate::cells::{Cells, is_same};
use crate::entry_log::EntryLog;
use crate::fault::SiteFault;
use crate::near::touched_near;
use crate::pending::Pending;
use crate::site_part::keeps;
use sgt_names::{Draft, Entry, Item, SiteNo, Touch, Tx};

impl Site {
    ghost use Rattle.std.specs.Prelude.{◌≡◌, ◌↔◌, Some, None, false, IsTrue, IsOk, OnOk, OnErr, IfErr};
    ghost use Rattle.sgt_names.specs.Draft.{AreRising, at_site};
    ghost use Rattle.sgt_site.specs.declared.fault.SiteFault.{SiteFault};
    ghost use Rattle.sgt_site.specs.State.{IsPledged};
    ghost use Rattle.sgt_site.specs.Refused.{RefusesPledge, MayPledge};

    /// Makes room for the block that is to end a transaction, whichever it is. While the pledge stands, `install`,
    /// `refuse`,
    /// `withdraw` and `unpledge` take no memory and succeed, however many reads of others come between. One stands at a time.
    ///
    /// The first that holds is answered:
    /// - S1: the draft is to change an item here that isn't at this site.
    /// - S3: the transaction has its end here.
    /// - S7: a pledge stands, of whichever transaction.
    /// - S8: the draft's reads here aren't the transaction's in the log, each with its value and version.
    /// - S4: there was no memory.
    ///
    /// Goes over what the draft touches, while that is little, and else over what it touches here alone, which a
    /// search finds. Each item that it touches here is searched for once among the items. For each read of the
    /// transaction here it searches what the draft touches here. It doesn't go over the log. Where it errs, it goes over
    /// what the draft touches here again for the reason, with up to two more searches of the items for each.
    pub fn pledge(&mut self, tx: Tx, draft: &Draft) -> Result<(), SiteFault>
        ensures ok { OnOk result (self.new ≡ record self.old {
          pledge = Some (record { tx = tx; part = at_site self.old.number draft.now.touched });
        }) }
        ensures err { OnErr result (self.new ≡ self.old) }

        // The refusals exclude each other, so each comes exactly where its case says, memory aside.
        ensures allowed { OnOk result (MayPledge self.old tx draft.now.touched) }
        ensures refused { IfErr result (RefusesPledge self.old tx draft.now.touched) }
    {
        if self.pledged.is_some() {
            return Err(self.why_unpledged(tx, draft));
        }
        if !self.try_pledge(tx, touched_near(draft, self.number)) {
            return Err(self.why_unpledged(tx, draft));
        }
        Ok(())
    }

    /// Gives the pledge of the transaction back. Takes no memory; the room that was made is kept for later.
    ///
    /// - S5: no pledge of the transaction stands.
    pub fn unpledge(&mut self, tx: Tx) -> Result<(), SiteFault>
        ensures ok { OnOk result (self.new ≡ record self.old { pledge = None }) }
        ensures err { OnErr result (self.new ≡ self.old) }
        ensures succeeds { IsOk result ↔ IsPledged self.old tx }
        ensures refused { IfErr result (λ f. f ≡ SiteFault.NotPledged) }
    {
        if !is_pledged(self.pledged, tx) {
            return Err(SiteFault::NotPledged);
        }
        self.pledged = None;
        self.part.clear();
        Ok(())
    }

    // Gives the pledge for what of these is at the site, if it may be given and there is memory.
    fn try_pledge(&mut self, tx: Tx, near: &[Touch]) -> bool
        requires rising { AreRising near.now }
        requires free { self.old.pledge ≡ None }
        ensures given { IsTrue result → self.new ≡ record self.old {
          pledge = Some (record { tx = tx; part = at_site self.old.number near.now });
        } }
        ensures not { result ≡ false → self.new ≡ self.old }
        ensures may { IsTrue result → MayPledge self.old tx near.now }
    {
        if has_ended(self.ended.as_slice(), tx) {
            return false;
        }
        if !copy_part(&mut self.part, self.number, near) {
            return false;
        }
        let part = self.part.as_slice();
        if !all_kept(self.pending.items_of(tx), self.number, part) {
            return false;
        }
        if !self.cells.prepare(tx, part) {
            return false;
        }
        if !make_rooms(&mut self.log, &mut self.ended, part) {
            return false;
        }
        self.pledged = Some(tx);
        true
    }

    // Why a pledge that wasn't given can't be.
    #[inline(never)]
    fn why_unpledged(&self, tx: Tx, draft: &Draft) -> SiteFault
        ensures { RefusesPledge self.now tx draft.now.touched result }
    {
        match self.may_pledge(tx, draft.at(self.number)) {
            Err(fault) => fault,
            Ok(()) => SiteFault::Memory,
        }
    }

    // Whether a pledge may be given, memory aside.
    fn may_pledge(&self, tx: Tx, touched: &[Touch]) -> Result<(), SiteFault>
        requires rising { AreRising touched.now }
        ensures allowed { OnOk result (MayPledge self.now tx touched.now) }
        ensures refused { IfErr result (RefusesPledge self.now tx touched.now) }
    {
        if !changes_known(&self.cells, self.number, touched) {
            return Err(SiteFault::UnknownItem);
        }
        if has_ended(self.ended.as_slice(), tx) {
            return Err(SiteFault::Ended);
        }
        if self.pledged.is_some() {
            return Err(SiteFault::PledgeOpen);
        }
        if !keeps_reads(&self.cells, &self.pending, tx, self.number, touched) {
            return Err(SiteFault::DraftDiffers);
        }
        Ok(())
    }
}

// Whether each item that the draft changes at the site is there.
fn changes_known(cells: &Cells, number: SiteNo, touched: &[Touch]) -> bool
    ensures { IsTrue result
        ↔ All (λ t. t.site ≡ number → IsSome t.change → HasItem cells.now t.item) touched.now }
{
    for t in touched {
        if !is_known(cells, number, t) {
            return false;
        }
    }
    true
}

// Whether the item is there, if the draft changes it at the site.
fn is_known(cells: &Cells, number: SiteNo, touch: &Touch) -> bool
    ensures { IsTrue result
        ↔ (touch.now.site ≡ number → IsSome touch.now.change → HasItem cells.now touch.now.item) }
{
    match touch.change {
        Some(_) if touch.site == number => cells.has(touch.item),
        _ => true,
    }
}

// Whether the draft's reads at the site are those of the transaction.
fn keeps_reads(cells: &Cells, pending: &Pending, tx: Tx, number: SiteNo, touched: &[Touch]) -> bool
    requires rising { AreRising touched.now }
    ensures logged { IsTrue result
        → All (λ t. t.site ≡ number → ForSome t.seen (InCells cells.now tx t.item)) touched.now }
    ensures kept { IsTrue result → All (KeepsItem touched.now number) (items_by pending.now tx) }
    ensures differs { All
        (λ t. t.site ≡ number → ForSome t.seen (InCells cells.now tx t.item)) touched.now
        → All (KeepsItem touched.now number) (items_by pending.now tx) → IsTrue result }
{
    all_logged(cells, tx, number, touched) && all_kept(pending.items_of(tx), number, touched)
}

// Whether each read that the draft keeps at the site is the transaction's.
fn all_logged(cells: &Cells, tx: Tx, number: SiteNo, touched: &[Touch]) -> bool
    ensures { IsTrue result
        ↔ All (λ t. t.site ≡ number → ForSome t.seen (InCells cells.now tx t.item)) touched.now }
{
    for t in touched {
        if !is_logged(cells, tx, number, t) {
            return false;
        }
    }
    true
}

// Whether the read is the transaction's, if the draft keeps one at the site.
fn is_logged(cells: &Cells, tx: Tx, number: SiteNo, touch: &Touch) -> bool
    ensures { IsTrue result
        ↔ (touch.now.site ≡ number → ForSome touch.now.seen (InCells cells.now tx touch.now.item)) }
{
    match touch.seen {
        Some(seen) if touch.site == number => is_same(cells.seen_by(tx, touch.item), seen),
        _ => true,
    }
}

// Whether the draft keeps a read of each of these items.
fn all_kept(own: &[Item], number: SiteNo, touched: &[Touch]) -> bool
    requires { AreRising touched.now }
    ensures { IsTrue result ↔ All (KeepsItem touched.now number) own.now }
{
    for item in own {
        if !keeps(number, touched, *item) {
            return false;
        }
    }
    true
}

// Copies what of these is at the site, in place of what was there.
fn copy_part(part: &mut Vec<Touch>, number: SiteNo, near: &[Touch]) -> bool
    ensures { IsTrue result → part.new.items ≡ at_site number near.now }
{
    part.clear();
    if part.reserve(near.len()).is_err() {
        return false;
    }
    for touch in near {
        if touch.site == number {
            part.push_reserved(*touch);
        }
    }
    true
}

// Makes room for the block of what is touched, and its end.
fn make_rooms(log: &mut EntryLog, ended: &mut Vec<Tx>, part: &[Touch]) -> bool
    ensures items { log.new.items ≡ log.old.items }
    ensures entries { log.new.entries ≡ log.old.entries }
    ensures installed { log.new.installed ≡ log.old.installed }
    ensures ended { (ended.new.items ≡ ended.old.items) × (vec_len ended.new ≡ vec_len ended.old) }
    ensures log_room { IsTrue result → length part.now < log.new.spare }
    ensures ended_room { IsTrue result → vec_len ended.old < vec_capacity ended.new }
{
    log.make_room(part.len() + 1) && make_room(ended, 1)
}
