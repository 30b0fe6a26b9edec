//! What a transaction sees of an item without the site.

ghost use Rattle.std.specs.Prelude.{◌≡◌, ◌==◌, ◌&&◌, ◌<◌, Some, length, slice_get, IsTrue};
ghost use Rattle.std.specs.Str.{bytes_eq};
ghost use Rattle.sgt_names.specs.Draft.{look_of};
ghost use Rattle.sgt_core_machine.specs.private.Looked.{IsFound, IsFoundOf};
ghost use Rattle.sgt_core_machine.specs.declared.machine.Running.{Running as ARunning};

use crate::machine::Running;
use sgt_names::{Change, Draft, Item, Part, SiteNo, Touch, Value};

// Up to how many touched items are gone over, in place of a search.
const NEAR: usize = 16;

/// What a transaction finds of an item in its draft.
#[derive(Clone, Copy)]
pub enum Found {
    /// It sees this value without the site.
    Value(Value),
    /// The draft has nothing of the item.
    Nothing,
    /// It sees no value, but the draft may have an increment of the item.
    NoValue,
}

// What the transaction at a place of the table finds of an item without the site.
#[inline(always)]
pub(crate) fn find_at(table: &[Option<Running>], slot: usize, site: SiteNo, item: Item) -> Found
    requires { slot < length table.now }
    ensures { (r : ARunning) → slice_get table.now slot ≡ Some (Some r)
        → IsFound r.draft.touched (site, item) result }
{
    match &table[slot] {
        Some(running) => find_in(&running.draft, site, item),
        None => Found::NoValue,
    }
}

// What the transaction of the draft finds of an item without the site.
#[inline(always)]
fn find_in(draft: &Draft, site: SiteNo, item: Item) -> Found
    ensures { IsFound draft.now.touched (site, item) result }
{
    let (few, parts) = draft.touched();
    if are_near(few, parts) {
        return find_among(few, site, &item);
    }
    match draft.look(site, item) {
        Some(value) => Found::Value(value),
        None => Found::NoValue,
    }
}

// Whether a draft with these has no parts, and few items.
fn are_near(few: &[Touch], parts: &[Part]) -> bool
    ensures { IsTrue result → length parts.now ≡ 0 }
{
    parts.is_empty() && few.len() <= NEAR
}

// What is found of an item, where these are touched.
fn find_among(touched: &[Touch], site: SiteNo, item: &Item) -> Found
    ensures { IsFound touched.now (site, item.now) result }
{
    for touch in touched {
        if is_of(touch, site, item) {
            return found_of(touch);
        }
    }
    Found::Nothing
}

// What is found of an item that is touched so.
fn found_of(touch: &Touch) -> Found
    ensures { IsFoundOf (Some touch.now) result }
{
    match seen_of(touch) {
        Some(value) => Found::Value(value),
        None => Found::NoValue,
    }
}

// Whether it is this item of the site.
fn is_of(touch: &Touch, site: SiteNo, item: &Item) -> bool
    ensures { result ≡ ((touch.now.site == site) && bytes_eq touch.now.item item.now) }
{
    touch.site == site && touch.item == *item
}

// What is seen of an item that is touched so.
fn seen_of(touch: &Touch) -> Option<Value>
    ensures { result ≡ look_of touch.now }
{
    let seen = touch.seen.map(|seen| seen.value);
    match touch.change {
        Some(Change::Put(value)) => Some(value),
        Some(change) => seen.map(|seen| change.apply(seen)),
        None => seen,
    }
}
