//! The blocks that end a transaction, written under its pledge.

ghost use Rattle.std.specs.Prelude.{◌≡◌, ◌↔◌, ◌+◌, ◌-◌, ◌<◌, ◌≤◌, ◌++◌, ◌∷◌, [], Some, length, map, All, IsSome, IsTrue};
ghost use Rattle.sgt_names.specs.Entry.{item_of};
ghost use Rattle.sgt_names.specs.Draft.{at_site, writing_in};
ghost use Rattle.sgt_site.specs.State.{change_entry, want_entry};
ghost use Rattle.sgt_site.specs.private.Cells.{HasItem, items_of};

use super::{Site, add_ended, is_pledged};
use crate::cell::Install;
use crate::cells::Cells;
use crate::entry_log::EntryLog;
use crate::fault::SiteFault;
use crate::near::touched_near;
use sgt_arena::Handle;
use sgt_names::{Change, Draft, Entry, Item, SiteNo, Touch, Tx};

impl Site {
    ghost use Rattle.std.specs.Prelude.{◌≡◌, ◌↔◌, ◌∷◌, ◌++◌, [], None, IsOk, OnOk, OnErr, IfErr};
    ghost use Rattle.sgt_names.specs.Draft.{at_site, writing_in};
    ghost use Rattle.sgt_site.specs.declared.fault.SiteFault.{SiteFault};
    ghost use Rattle.sgt_site.specs.State.{IsPledgedFor, commit_block, refuse_block};

    /// Commits a transaction here, under its pledge for this draft: its writes and increments by rising item, and its
    /// end. The handle is kept as it is given; that no other transaction was given it is for the caller to see to.
    /// Takes no memory.
    ///
    /// - S5: no pledge of the transaction stands, or the draft reads or writes otherwise here than the one that was pledged.
    ///
    /// Goes over what the draft touches, while that is little, and else over what it touches here alone, which a
    /// search finds; and over what it touches here, with a search of the items for each. Where it read an item, the
    /// committed readers of newer versions move by a place.
    pub fn install(&mut self, tx: Tx, handle: Handle, draft: &Draft) -> Result<(), SiteFault>
        ensures ok { OnOk result (self.new ≡ record self.old {
          entries = self.old.entries
              ++ commit_block tx (writing_in (at_site self.old.number draft.now.touched));
          installed = self.old.installed ++ record { tx = tx; handle = handle } ∷ [];
          pledge = None;
        }) }
        ensures err { OnErr result (self.new ≡ self.old) }
        ensures succeeds { IsOk result ↔ IsPledgedFor self.old tx draft.now.touched }
        ensures refused { IfErr result (λ f. f ≡ SiteFault.NotPledged) }
    {
        let near = touched_near(draft, self.number);
        if !is_pledged(self.pledged, tx) || !are_same(self.part.as_slice(), self.number, near) {
            return Err(SiteFault::NotPledged);
        }
        log_changes(&mut self.log, &self.cells, tx, self.part.as_slice());
        self.log.push_commit(tx, handle);
        let install = Install { tx, handle };
        self.cells.note(&install, self.part.as_slice());
        add_ended(&mut self.ended, tx);
        self.pending.drop_reads(tx);
        self.pledged = None;
        self.part.clear();
        Ok(())
    }

    /// Ends a transaction as refused, under its pledge for this draft: what it asked for by rising item, and its end.
    /// No value changes. Takes no memory, and goes over what the draft touches, while that is little, and else over
    /// what it touches here alone, which a search finds.
    ///
    /// - S5: no pledge of the transaction stands, or the draft reads or writes otherwise here than the one that was pledged.
    pub fn refuse(&mut self, tx: Tx, draft: &Draft) -> Result<(), SiteFault>
        ensures ok { OnOk result (self.new ≡ record self.old {
          entries = self.old.entries
              ++ refuse_block tx (writing_in (at_site self.old.number draft.now.touched));
          pledge = None;
        }) }
        ensures err { OnErr result (self.new ≡ self.old) }
        ensures succeeds { IsOk result ↔ IsPledgedFor self.old tx draft.now.touched }
        ensures refused { IfErr result (λ f. f ≡ SiteFault.NotPledged) }
    {
        let near = touched_near(draft, self.number);
        if !is_pledged(self.pledged, tx) || !are_same(self.part.as_slice(), self.number, near) {
            return Err(SiteFault::NotPledged);
        }
        log_wants(&mut self.log, &self.cells, tx, self.part.as_slice());
        self.log.push_end(Entry::Refuse { tx });
        add_ended(&mut self.ended, tx);
        self.pending.drop_reads(tx);
        self.pledged = None;
        self.part.clear();
        Ok(())
    }
}

// Whether the part is what of these is at the site.
#[inline(always)]
fn are_same(part: &[Touch], number: SiteNo, near: &[Touch]) -> bool
    ensures { IsTrue result ↔ (part.now ≡ at_site number near.now) }
{
    let mut rest = part;
    for t in near {
        if t.site == number {
            match rest {
                [first, others @ ..] if same_touch(first, t) => rest = others,
                _ => return false,
            }
        }
    }
    rest.is_empty()
}

fn same_touch(a: &Touch, b: &Touch) -> bool
    ensures { IsTrue result ↔ (a.now ≡ b.now) }
{
    a.site == b.site && a.item == b.item && a.seen == b.seen && a.change == b.change
}

// Logs an entry of an item that is at the site.
#[inline(always)]
fn push_known(log: &mut EntryLog, cells: &Cells, item: Item, entry: Entry)
    requires room { 0 < log.old.spare }
    requires listed { items_of cells.now ≡ log.old.items }
    requires known { HasItem cells.now item }
    requires item { item_of entry ≡ Some item }
    ensures { log.new ≡ record log.old {
      entries = log.old.entries ++ entry ∷ [];
      spare = log.old.spare - 1;
    } }
{
    let Some(place) = cells.find(item) else {
        unreachable!();
    };
    log.push(entry, place);
}

// Logs the writes and increments.
fn log_changes(log: &mut EntryLog, cells: &Cells, tx: Tx, part: &[Touch])
    requires room { length part.now ≤ log.old.spare }
    requires listed { items_of cells.now ≡ log.old.items }
    requires known { All (λ t. IsSome t.change → HasItem cells.now t.item) part.now }
    ensures entries { log.new.entries
        ≡ log.old.entries ++ map (λ c. change_entry tx c.0 c.1) (writing_in part.now) }
    ensures items { log.new.items ≡ log.old.items }
    ensures installed { log.new.installed ≡ log.old.installed }
    ensures spare { log.new.spare + length (writing_in part.now) ≡ log.old.spare }
{
    for t in part {
        if let Some(change) = t.change {
            push_known(log, cells, t.item, change_of(tx, t.item, change));
        }
    }
}

fn change_of(tx: Tx, item: Item, change: Change) -> Entry
    ensures { result ≡ change_entry tx item change }
{
    match change {
        Change::Put(value) => Entry::Write { tx, item, value },
        Change::Add(value) => Entry::Add { tx, item, value },
    }
}

// Logs what was asked for.
fn log_wants(log: &mut EntryLog, cells: &Cells, tx: Tx, part: &[Touch])
    requires room { length part.now ≤ log.old.spare }
    requires listed { items_of cells.now ≡ log.old.items }
    requires known { All (λ t. IsSome t.change → HasItem cells.now t.item) part.now }
    ensures entries { log.new.entries
        ≡ log.old.entries ++ map (λ c. want_entry tx c.0 c.1) (writing_in part.now) }
    ensures items { log.new.items ≡ log.old.items }
    ensures installed { log.new.installed ≡ log.old.installed }
    ensures spare { log.new.spare + length (writing_in part.now) ≡ log.old.spare }
{
    for t in part {
        if let Some(change) = t.change {
            push_known(log, cells, t.item, want_of(tx, t.item, change));
        }
    }
}

fn want_of(tx: Tx, item: Item, change: Change) -> Entry
    ensures { result ≡ want_entry tx item change }
{
    match change {
        Change::Put(value) => Entry::Want { tx, item, value },
        Change::Add(value) => Entry::WantAdd { tx, item, value },
    }
}
