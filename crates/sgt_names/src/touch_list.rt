//! Touched items in one list.

ghost use Rattle.std.specs.Prelude.{◌≡◌, ◌<◌, ◌≤◌, true, false, leb, nat_lt, length, IfOk, IfErr, IsOk, OnOk, OnErr, vec_len, vec_capacity, insert, take, ◌-◌};
ghost use Rattle.std.specs.List.Sorted.{IsPartitionPoint};
ghost use Rattle.sgt_names.specs.Ordered.{IsAt, IsGapFor};
ghost use Rattle.sgt_names.specs.Draft.{AreRising, place_of, place_cmp, at_site, look_of};

use crate::Value;
use crate::draft::{Seen, Touch};
use crate::entry::Change;
use crate::item::Item;
use crate::site_no::SiteNo;
use std::alloc::{AllocError, Global};
use std::cmp::Ordering;
use std::marker::Model;

// Up to how many touched items are gone over, in place of a search.
const NEAR: usize = 16;

// Touched items, in one list.
#[derive(Drop)]
pub struct TouchList {
    // by rising site and name
    pub(crate) touched: Vec<Touch>,
}

impl Model for TouchList {
    ghost use Rattle.std.specs.Prelude.{All, nat_lt, vec_len, vec_capacity};
    ghost use Rattle.sgt_names.specs.Draft.{DraftView, AreRising, IsUsed};

    ghost Value = { DraftView };

    ghost view = { λ l. record { touched = l.touched.items; has_room = nat_lt (vec_len l.touched) (vec_capacity l.touched) } };

    ghost invariant = { λ l. AreRising l.touched.items × All IsUsed l.touched.items };
}

impl TouchList {
    ghost use Rattle.std.specs.Prelude.{◌≡◌, ◌↔◌, ◌⊎◌, [], true, IsTrue, IsSome, IsOk, OnOk, OnErr, Some, None, option_and_then, All, length};
    ghost use Rattle.sgt_names.specs.Draft.{place_of, AreRising, IsUsed, at_site, touched_at, seen_at, change_at, look_of, Touches, ChangesOnly};

    pub(crate) fn new(alloc: Global) -> TouchList
        ensures { result.touched ≡ [] }
    {
        TouchList {
            touched: Vec::new(alloc),
        }
    }

    pub(crate) fn touched(&self) -> &[Touch]
        ensures all { result.now ≡ self.now.touched }
        ensures rising { AreRising self.now.touched }
        ensures used { All IsUsed self.now.touched }
    {
        &self.touched
    }

    pub(crate) fn alloc(&self) -> Global {
        *self.touched.allocator()
    }

    pub(crate) fn clear(&mut self)
        ensures { self.new.touched ≡ [] }
    {
        self.touched.clear();
    }

    // Two binary searches.
    pub(crate) fn at(&self, site: SiteNo) -> &[Touch]
        ensures part { result.now ≡ at_site site self.now.touched }
        ensures rising { AreRising result.now }
        ensures used { All IsUsed result.now }
    {
        part_at(self.touched.as_slice(), site)
    }

    pub(crate) fn room(&mut self) -> Result<(), AllocError>
        ensures ok { OnOk result (self.new ≡ record self.old { has_room = true }) }
        ensures err { OnErr result ((self.new ≡ self.old) × (self.old.has_room ≡ false)) }
    {
        self.touched.reserve(1)
    }

    pub(crate) fn get(&self, site: SiteNo, item: Item) -> Option<Touch>
        ensures { result ≡ touched_at self.now.touched (site, item) }
    {
        match search(self.touched.as_slice(), site, item) {
            Ok(at) => Some(self.touched[at]),
            Err(_) => None,
        }
    }

    pub(crate) fn look(&self, site: SiteNo, item: Item) -> Option<Value>
        ensures { result ≡ option_and_then look_of (touched_at self.now.touched (site, item)) }
    {
        match search(self.touched.as_slice(), site, item) {
            Ok(at) => look_at(&self.touched[at]),
            Err(_) => None,
        }
    }

    pub(crate) fn change(&self, site: SiteNo, item: Item) -> Option<Change>
        ensures { result ≡ change_at self.now.touched (site, item) }
    {
        match search(self.touched.as_slice(), site, item) {
            Ok(at) => self.touched[at].change,
            Err(_) => None,
        }
    }

    pub(crate) fn seen(&mut self, site: SiteNo, item: Item, seen: Seen) -> Result<(), AllocError>
        ensures ok { OnOk result (ChangesOnly self.old.touched self.new.touched (record {
          site = site;
          item = item;
          seen = Some seen;
          change = change_at self.old.touched (site, item);
        })) }
        ensures err { OnErr result (self.new ≡ self.old) }
        ensures succeeds { IsTrue self.old.has_room
            ⊎ IsSome (touched_at self.old.touched (site, item)) → IsOk result }
        ensures room { IsSome (touched_at self.old.touched (site, item))
            → self.new.has_room ≡ self.old.has_room }
        ensures same { IsSome (touched_at self.old.touched (site, item))
            → length self.new.touched ≡ length self.old.touched }
    {
        match search(self.touched.as_slice(), site, item) {
            Ok(at) => {
                let touch = &mut self.touched[at];
                touch.seen = Some(seen);
                Ok(())
            }
            Err(at) => {
                let touch = Touch {
                    site,
                    item,
                    seen: Some(seen),
                    change: None,
                };
                insert_touch(&mut self.touched, at, touch)
            }
        }
    }

    pub(crate) fn set_change(
        &mut self,
        site: SiteNo,
        item: Item,
        change: Change,
    ) -> Result<(), AllocError>
        ensures ok { OnOk result (ChangesOnly self.old.touched self.new.touched (record {
          site = site;
          item = item;
          seen = seen_at self.old.touched (site, item);
          change = Some change;
        })) }
        ensures err { OnErr result (self.new ≡ self.old) }
        ensures succeeds { IsTrue self.old.has_room
            ⊎ IsSome (touched_at self.old.touched (site, item)) → IsOk result }
        ensures room { IsSome (touched_at self.old.touched (site, item))
            → self.new.has_room ≡ self.old.has_room }
        ensures same { IsSome (touched_at self.old.touched (site, item))
            → length self.new.touched ≡ length self.old.touched }
    {
        match search(self.touched.as_slice(), site, item) {
            Ok(at) => {
                let touch = &mut self.touched[at];
                touch.change = Some(change);
                Ok(())
            }
            Err(at) => {
                let touch = Touch {
                    site,
                    item,
                    seen: None,
                    change: Some(change),
                };
                insert_touch(&mut self.touched, at, touch)
            }
        }
    }

    // Keeps what is touched, in place of what was touched there.
    pub(crate) fn keep(&mut self, touch: Touch) -> Result<(), AllocError>
        requires { IsUsed touch }
        ensures ok { OnOk result (ChangesOnly self.old.touched self.new.touched touch) }
        ensures err { OnErr result (self.new ≡ self.old) }
        ensures succeeds { IsTrue self.old.has_room
            ⊎ IsSome (touched_at self.old.touched (place_of touch)) → IsOk result }
        ensures room { IsSome (touched_at self.old.touched (place_of touch))
            → self.new.has_room ≡ self.old.has_room }
    {
        match search(self.touched.as_slice(), touch.site, touch.item) {
            Ok(at) => {
                self.touched[at] = touch;
                Ok(())
            }
            Err(at) => insert_touch(&mut self.touched, at, touch),
        }
    }

    pub(crate) fn touches(&self, site: SiteNo) -> bool
        ensures { IsTrue result ↔ Touches self.now.touched site }
    {
        self.touched.as_slice().iter().any(|t| t.site == site)
    }
}

// Where the item of the site is among the touched ones, or where it would go.
fn search(touched: &[Touch], site: SiteNo, item: Item) -> Result<usize, usize>
    requires { AreRising touched.now }
    ensures found { IfOk result (IsAt place_of touched.now (site, item)) }
    ensures absent { IfErr result (IsGapFor place_of place_cmp touched.now (site, item)) }
{
    if touched.len() <= NEAR {
        return search_near(touched, site, &item);
    }
    search_far(touched, site, &item)
}

// The same, by a binary search.
#[inline(never)]
fn search_far(touched: &[Touch], site: SiteNo, item: &Item) -> Result<usize, usize>
    requires { AreRising touched.now }
    ensures found { IfOk result (IsAt place_of touched.now (site, item.now)) }
    ensures absent { IfErr result (IsGapFor place_of place_cmp touched.now (site, item.now)) }
{
    touched.binary_search_by(|t| order(t, site, item))
}

// The same, where few are touched: each that stands in front is gone over.
#[inline(always)]
fn search_near(touched: &[Touch], site: SiteNo, item: &Item) -> Result<usize, usize>
    requires { AreRising touched.now }
    ensures found { IfOk result (IsAt place_of touched.now (site, item.now)) }
    ensures absent { IfErr result (IsGapFor place_of place_cmp touched.now (site, item.now)) }
{
    let mut at = 0;
    while at < touched.len() {
        let touch = &touched[at];
        if touch.site.number() >= site.number() {
            match order(touch, site, item) {
                Ordering::Less => {}
                Ordering::Equal => return Ok(at),
                Ordering::Greater => return Err(at),
            }
        }
        at += 1;
    }
    Err(at)
}

#[inline(always)]
fn order(t: &Touch, site: SiteNo, item: &Item) -> Ordering
    ensures { result ≡ place_cmp (place_of t.now) (site, item.now) }
{
    match t.site.number().cmp(&site.number()) {
        Ordering::Equal => t.item.cmp(item),
        other => other,
    }
}

// The items that are touched at the site.
fn part_at(touched: &[Touch], site: SiteNo) -> &[Touch]
    requires { AreRising touched.now }
    ensures { result.now ≡ at_site site touched.now }
{
    let from = count_below(touched, site);
    let to = count_upto(touched, site);
    &touched[from..to]
}

// How many are touched at sites of smaller numbers.
fn count_below(touched: &[Touch], site: SiteNo) -> usize
    requires { AreRising touched.now }
    ensures within { result ≤ length touched.now }
    ensures point { IsPartitionPoint (λ t. nat_lt t.site site ≡ true)
        (λ t. nat_lt t.site site ≡ false) touched.now result }
{
    touched.partition_point(|t| t.site.number() < site.number())
}

// How many are touched at this site or at those of smaller numbers.
fn count_upto(touched: &[Touch], site: SiteNo) -> usize
    requires { AreRising touched.now }
    ensures within { result ≤ length touched.now }
    ensures point { IsPartitionPoint (λ t. leb t.site site ≡ true)
        (λ t. leb t.site site ≡ false) touched.now result }
{
    touched.partition_point(|t| t.site.number() <= site.number())
}

pub(crate) fn look_at(touch: &Touch) -> Option<Value>
    ensures { result ≡ look_of touch.now }
{
    let seen = touch.seen.map(|seen| seen.value);
    match touch.change {
        Some(Change::Put(value)) => Some(value),
        Some(change) => seen.map(|seen| change.apply(seen)),
        None => seen,
    }
}

// Inserts a touched item. Where no memory is had, nothing changes.
fn insert_touch(touched: &mut Vec<Touch>, at: usize, touch: Touch) -> Result<(), AllocError>
    requires { at ≤ vec_len touched.old }
    ensures ok { OnOk result (touched.new.items ≡ insert touched.old.items at touch) }
    ensures err { OnErr result
        ((touched.new.items ≡ touched.old.items) × (vec_len touched.new ≡ vec_len touched.old)
        × (vec_capacity touched.new ≡ vec_capacity touched.old)) }
    ensures succeeds { vec_len touched.old < vec_capacity touched.old → IsOk result }
{
    touched.reserve(1)?;
    touched.push_reserved(touch);
    put_between(touched.as_mut_slice(), at, &touch);
    Ok(())
}

// Puts a touched item at its place among those before the last, which move up over it.
#[inline(always)]
fn put_between(touched: &mut [Touch], at: usize, touch: &Touch)
    requires { at < length touched.old }
    ensures { touched.new ≡ insert (take (length touched.old - 1) touched.old) at touch.now }
{
    let mut place = touched.len() - 1;
    while place > at {
        touched[place] = touched[place - 1];
        place -= 1;
    }
    touched[at] = *touch;
}
