//! Drafts: what a transaction has read and is to change. Its writes and increments are private until it is certified.

ghost use Rattle.std.specs.Prelude.{◌≡◌, slice_get, option_and_then};
ghost use Rattle.sgt_names.specs.Draft.{kept_in, writing_in, added_to};

use crate::Value;
use crate::draft_parts::{Part, Parts};
use crate::entry::Change;
use crate::item::Item;
use crate::limits::MAX_ITEMS;
use crate::site_no::SiteNo;
use crate::touch_list::{TouchList, look_at};
use std::alloc::{AllocError, Global};
use std::marker::Model;

// How many items a draft keeps in one list.
const FEW: usize = MAX_ITEMS;

/// What a read answers: the value of the item, and how often it had been written.
#[derive(Clone, Copy, Debug, PartialEq, Eq)]
pub struct Seen {
    pub value: Value,
    pub version: u64,
}

/// An item that a draft touches: the kept read, if there is one, and the private write or increment, if there is one.
#[derive(Clone, Copy, Debug, PartialEq, Eq)]
pub struct Touch {
    pub site: SiteNo,
    pub item: Item,
    pub seen: Option<Seen>,
    pub change: Option<Change>,
}

// The touched items, in one list while they are few.
#[derive(Drop)]
enum Kept {
    Few(TouchList),
    BySite(Parts),
}

impl Kept {
    ghost use Rattle.std.specs.Prelude.{◌≡◌, ◌⊎◌, [], IsTrue, IsSome, IsOk, IfOk, OnOk, OnErr, Some, false};
    ghost use Rattle.sgt_names.specs.Draft.{touched_at, seen_at, change_at, ChangesOnly};
    ghost use Rattle.sgt_names.specs.DraftKept.{view_of};

    // Keeps a read; answers whether the list is too long with it.
    fn seen(&mut self, site: SiteNo, item: Item, seen: Seen) -> Result<bool, AllocError>
        ensures ok { OnOk result
            (ChangesOnly (view_of self.old).touched (view_of self.new).touched (record {
              site = site;
              item = item;
              seen = Some seen;
              change = change_at (view_of self.old).touched (site, item);
            })) }
        ensures err { OnErr result (view_of self.new ≡ view_of self.old) }
        ensures succeeds { IsTrue (view_of self.old).has_room
            ⊎ IsSome (touched_at (view_of self.old).touched (site, item)) → IsOk result }
        ensures room { IsSome (touched_at (view_of self.old).touched (site, item))
            → (view_of self.new).has_room ≡ (view_of self.old).has_room }
        ensures known { IsSome (touched_at (view_of self.old).touched (site, item))
            → IfOk result (λ long. long ≡ false) }
    {
        match self {
            Kept::Few(list) => {
                let was = list.touched().len();
                list.seen(site, item, seen)?;
                let now = list.touched().len();
                Ok(now > was && now > FEW)
            }
            Kept::BySite(parts) => {
                let change = change_of(parts.get(site, item));
                let seen = Some(seen);
                parts.keep(Touch {
                    site,
                    item,
                    seen,
                    change,
                })?;
                Ok(false)
            }
        }
    }

    // Keeps a private change, in place of an earlier one; answers whether the list is too long with it.
    fn set_change(&mut self, site: SiteNo, item: Item, change: Change) -> Result<bool, AllocError>
        ensures ok { OnOk result
            (ChangesOnly (view_of self.old).touched (view_of self.new).touched (record {
              site = site;
              item = item;
              seen = seen_at (view_of self.old).touched (site, item);
              change = Some change;
            })) }
        ensures err { OnErr result (view_of self.new ≡ view_of self.old) }
        ensures succeeds { IsTrue (view_of self.old).has_room
            ⊎ IsSome (touched_at (view_of self.old).touched (site, item)) → IsOk result }
        ensures room { IsSome (touched_at (view_of self.old).touched (site, item))
            → (view_of self.new).has_room ≡ (view_of self.old).has_room }
        ensures known { IsSome (touched_at (view_of self.old).touched (site, item))
            → IfOk result (λ long. long ≡ false) }
    {
        match self {
            Kept::Few(list) => {
                let was = list.touched().len();
                list.set_change(site, item, change)?;
                let now = list.touched().len();
                Ok(now > was && now > FEW)
            }
            Kept::BySite(parts) => {
                let seen = seen_of(parts.get(site, item));
                let change = Some(change);
                parts.keep(Touch {
                    site,
                    item,
                    seen,
                    change,
                })?;
                Ok(false)
            }
        }
    }

    // Puts the items of a list in parts. Where there is no memory for that, it stays a list.
    fn spread(&mut self)
        ensures { (view_of self.new).touched ≡ (view_of self.old).touched }
    {
        let parts = match self {
            Kept::Few(list) => Parts::of(list.alloc(), list.touched()),
            Kept::BySite(_) => return,
        };
        if let Ok(parts) = parts {
            *self = Kept::BySite(parts);
        }
    }

    // Takes all out: a list stays, with its room, and parts become one.
    fn clear(&mut self)
        ensures { (view_of self.new).touched ≡ [] }
    {
        let alloc = match self {
            Kept::Few(list) => {
                list.clear();
                return;
            }
            Kept::BySite(parts) => parts.alloc(),
        };
        *self = Kept::Few(TouchList::new(alloc));
    }
}

/// The kept reads of a transaction, and its private writes and increments, of which an item has at most one.
#[derive(Drop)]
pub struct Draft {
    kept: Kept,
}

impl Model for Draft {
    ghost use Rattle.sgt_names.specs.Draft.{DraftView};
    ghost use Rattle.sgt_names.specs.DraftKept.{view_of};

    ghost Value = { DraftView };

    ghost view = { λ d. view_of d.kept };
}

impl Draft {
    ghost use Rattle.std.specs.Ordering.{nat_cmp};
    ghost use Rattle.std.specs.Cmp.Lexicographic.{slice_cmp};
    ghost use Rattle.sgt_names.specs.Ordered.{IsRisingBy};
    ghost use Rattle.std.specs.Prelude.{◌≡◌, ◌↔◌, ◌≤◌, ◌⊎◌, ◌++◌, [], true, IsTrue, IsSome, IsOk, OnOk, OnErr, Some, None, slice_get, option_and_then, All, length};
    ghost use Rattle.sgt_names.specs.declared.entry.Change.TheVariants.{Put};
    ghost use Rattle.sgt_names.specs.Draft.{AreRising, IsUsed, at_site, kept_in, writing_in, touched_at, seen_at, change_at, added_to, look_of, Touches, ChangesOnly};
    ghost use Rattle.sgt_names.specs.DraftParts.{touched_in};

    /// No reads and no changes. Takes no memory.
    pub fn new(alloc: Global) -> Draft
        ensures { result.touched ≡ [] }
    {
        Draft {
            kept: Kept::Few(TouchList::new(alloc)),
        }
    }

    /// Takes all out. Takes no memory; the room of a list is kept for what comes.
    pub fn clear(&mut self)
        ensures { self.new.touched ≡ [] }
    {
        self.kept.clear();
    }

    /// The touched items, by rising site and name: in one list while they are few, and site by site once they are
    /// more than one site may have. One of the two is empty.
    pub fn touched(&self) -> (&[Touch], &[Part])
        ensures all { result.0.now ++ touched_in result.1.now ≡ self.now.touched }
        ensures rising { AreRising self.now.touched }
        ensures used { All IsUsed self.now.touched }
    {
        match &self.kept {
            Kept::Few(list) => (list.touched(), &[]),
            Kept::BySite(parts) => (&[], parts.parts()),
        }
    }

    /// The touched items of a site, by rising name. Binary searches.
    pub fn at(&self, site: SiteNo) -> &[Touch]
        ensures part { result.now ≡ at_site site self.now.touched }
        ensures rising { AreRising result.now }
        ensures used { All IsUsed result.now }
    {
        match &self.kept {
            Kept::Few(list) => list.at(site),
            Kept::BySite(parts) => parts.at(site),
        }
    }

    /// Makes room, so that the next `seen`, `put` or `add` takes no memory and succeeds. Errs where there was no
    /// memory.
    pub fn room(&mut self) -> Result<(), AllocError>
        ensures ok { OnOk result (self.new ≡ record self.old { has_room = true }) }
        ensures err { OnErr result (self.new ≡ self.old) }
    {
        match &mut self.kept {
            Kept::Few(list) => list.room(),
            Kept::BySite(parts) => parts.room(),
        }
    }

    /// What this transaction sees of the item: its private write, or else its kept read with its private increment
    /// behind it. None where it has an increment alone, or nothing. Goes over the touched items while they are few;
    /// else binary searches.
    pub fn look(&self, site: SiteNo, item: Item) -> Option<Value>
        ensures { result ≡ option_and_then look_of (touched_at self.now.touched (site, item)) }
    {
        match &self.kept {
            Kept::Few(list) => list.look(site, item),
            Kept::BySite(parts) => match parts.get(site, item) {
                Some(touch) => look_at(&touch),
                None => None,
            },
        }
    }

    /// Keeps a read of an item that it has not read. Errs where there was no memory for an item that is new to it.
    /// Searches as `look` does; a new item moves those of greater names at its site, and of greater places while they
    /// are few.
    pub fn seen(
        &mut self,
        site: SiteNo,
        item: Item,
        value: Value,
        version: u64,
    ) -> Result<(), AllocError>
        requires { seen_at self.old.touched (site, item) ≡ None }
        ensures ok { OnOk result (ChangesOnly self.old.touched self.new.touched (record {
          site = site;
          item = item;
          seen = Some (record { value = value; version = version });
          change = change_at self.old.touched (site, item);
        })) }
        ensures err { OnErr result (self.new ≡ self.old) }
        ensures succeeds { IsTrue self.old.has_room
            ⊎ IsSome (touched_at self.old.touched (site, item)) → IsOk result }
        ensures room { IsSome (touched_at self.old.touched (site, item))
            → self.new.has_room ≡ self.old.has_room }
    {
        let seen = Seen { value, version };
        if self.kept.seen(site, item, seen)? {
            self.kept.spread();
        }
        Ok(())
    }

    /// Keeps a private write, in place of an earlier write or increment. Errs where there was no memory for an item
    /// that is new to it. Searches as `look` does; a new item moves others as `seen` says.
    pub fn put(&mut self, site: SiteNo, item: Item, value: Value) -> Result<(), AllocError>
        ensures ok { OnOk result (ChangesOnly self.old.touched self.new.touched (record {
          site = site;
          item = item;
          seen = seen_at self.old.touched (site, item);
          change = Some (Put value);
        })) }
        ensures err { OnErr result (self.new ≡ self.old) }
        ensures succeeds { IsTrue self.old.has_room
            ⊎ IsSome (touched_at self.old.touched (site, item)) → IsOk result }
        ensures room { IsSome (touched_at self.old.touched (site, item))
            → self.new.has_room ≡ self.old.has_room }
    {
        self.set_change(site, item, Change::Put(value))
    }

    /// Keeps a private increment. Behind an earlier write or increment it becomes one with it: a write of the sum, or
    /// an increment by the sum, modulo 2^64. Errs where there was no memory for an item that is new to it. Searches as
    /// `look` does; a new item moves others as `seen` says.
    pub fn add(&mut self, site: SiteNo, item: Item, value: Value) -> Result<(), AllocError>
        ensures ok { OnOk result (ChangesOnly self.old.touched self.new.touched (record {
          site = site;
          item = item;
          seen = seen_at self.old.touched (site, item);
          change = Some (added_to (change_at self.old.touched (site, item)) value);
        })) }
        ensures err { OnErr result (self.new ≡ self.old) }
        ensures succeeds { IsTrue self.old.has_room
            ⊎ IsSome (touched_at self.old.touched (site, item)) → IsOk result }
        ensures room { IsSome (touched_at self.old.touched (site, item))
            → self.new.has_room ≡ self.old.has_room }
    {
        let change = sum(self.change(site, item), value);
        self.set_change(site, item, change)
    }

    fn change(&self, site: SiteNo, item: Item) -> Option<Change>
        ensures { result ≡ change_at self.now.touched (site, item) }
    {
        match &self.kept {
            Kept::Few(list) => list.change(site, item),
            Kept::BySite(parts) => change_of(parts.get(site, item)),
        }
    }

    fn set_change(&mut self, site: SiteNo, item: Item, change: Change) -> Result<(), AllocError>
        ensures ok { OnOk result (ChangesOnly self.old.touched self.new.touched (record {
          site = site;
          item = item;
          seen = seen_at self.old.touched (site, item);
          change = Some change;
        })) }
        ensures err { OnErr result (self.new ≡ self.old) }
        ensures succeeds { IsTrue self.old.has_room
            ⊎ IsSome (touched_at self.old.touched (site, item)) → IsOk result }
        ensures room { IsSome (touched_at self.old.touched (site, item))
            → self.new.has_room ≡ self.old.has_room }
    {
        if self.kept.set_change(site, item, change)? {
            self.kept.spread();
        }
        Ok(())
    }

    /// Whether the site has a kept read, a private write or a private increment.
    pub fn touches(&self, site: SiteNo) -> bool
        ensures { IsTrue result ↔ Touches self.now.touched site }
    {
        match &self.kept {
            Kept::Few(list) => list.touches(site),
            Kept::BySite(parts) => parts.touches(site),
        }
    }

    /// The kept read of this number at a site, counted from 0 by rising item: the item, its value and its version. Goes
    /// over what is touched at the site.
    pub fn kept(&self, site: SiteNo, n: usize) -> Option<(Item, Value, u64)>
        ensures nth { result ≡ slice_get (kept_in (at_site site self.now.touched)) n }
        ensures rising { IsRisingBy (λ k. k.0) (slice_cmp nat_cmp)
            (kept_in (at_site site self.now.touched)) }
    {
        nth_kept(self.at(site), n)
    }

    /// The private write or increment of this number at a site, counted from 0 by rising item. Goes over what is
    /// touched at the site.
    pub fn writing(&self, site: SiteNo, n: usize) -> Option<(Item, Change)>
        ensures nth { result ≡ slice_get (writing_in (at_site site self.now.touched)) n }
        ensures rising { IsRisingBy (λ w. w.0) (slice_cmp nat_cmp)
            (writing_in (at_site site self.now.touched)) }
    {
        nth_writing(self.at(site), n)
    }
}

fn change_of(touch: Option<Touch>) -> Option<Change>
    ensures { result ≡ option_and_then (λ t. t.change) touch }
{
    match touch {
        Some(touch) => touch.change,
        None => None,
    }
}

fn seen_of(touch: Option<Touch>) -> Option<Seen>
    ensures { result ≡ option_and_then (λ t. t.seen) touch }
{
    match touch {
        Some(touch) => touch.seen,
        None => None,
    }
}

fn nth_kept(touched: &[Touch], n: usize) -> Option<(Item, Value, u64)>
    ensures { result ≡ slice_get (kept_in touched.now) n }
{
    let mut left = n;
    for t in touched {
        if let Some(seen) = t.seen {
            if left == 0 {
                return Some((t.item, seen.value, seen.version));
            }
            left -= 1;
        }
    }
    None
}

fn nth_writing(touched: &[Touch], n: usize) -> Option<(Item, Change)>
    ensures { result ≡ slice_get (writing_in touched.now) n }
{
    let mut left = n;
    for t in touched {
        if let Some(change) = t.change {
            if left == 0 {
                return Some((t.item, change));
            }
            left -= 1;
        }
    }
    None
}

fn sum(change: Option<Change>, value: Value) -> Change
    ensures { result ≡ added_to change value }
{
    match change {
        None => Change::Add(value),
        Some(Change::Put(put)) => Change::Put(put.wrapping_add(value)),
        Some(Change::Add(added)) => Change::Add(added.wrapping_add(value)),
    }
}
