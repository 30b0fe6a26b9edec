//! What was done to each item of a site.

ghost use Rattle.std.specs.Prelude.{◌≡◌, ◌↔◌, ◌<◌, ℕ, length, IsTrue, OnOk, IfOk, Some};
ghost use Rattle.std.specs.Ordering.{nat_cmp};
ghost use Rattle.std.specs.Cmp.Lexicographic.{slice_cmp};
ghost use Rattle.sgt_names.specs.Name.{Name};
ghost use Rattle.sgt_names.specs.Entry.{item_of};
ghost use Rattle.sgt_names.specs.Ordered.{IsRisingBy};
ghost use Rattle.sgt_service_settle.specs.private.Words.{IsItemAt};
ghost use Rattle.sgt_service_settle.specs.private.Acts.{AreActs, IsSortedAt, AreByActor};

use crate::rows::{no_rows, push_at, share};
use sgt_names::{Entry, Holding, Item};
use std::alloc::{AllocError, Global};
use std::cmp::Ordering;

/// An operation, and at which place of the log.
#[derive(Clone, Copy, Debug, PartialEq, Eq)]
pub struct Act {
    pub place: usize,
    pub entry: Entry,
}

fn order(held: &Holding, item: &Item) -> Ordering
    ensures { result ≡ slice_cmp nat_cmp held.now.item item.now }
{
    held.item.cmp(item)
}

// Where the item is, if it is there. A binary search.
fn place_of(items: &[Holding], item: Item) -> Option<usize>
    requires { IsRisingBy (λ h. h.item) (slice_cmp nat_cmp) items.now }
    ensures { (at : ℕ) → (result ≡ Some at) ↔ IsItemAt items.now item at }
{
    match items.binary_search_by(|held| order(held, &item)) {
        Ok(place) => Some(place),
        Err(_) => None,
    }
}

fn is_named(held: &Holding, item: &Item) -> bool
    ensures { IsTrue result ↔ (held.now.item ≡ item.now) }
{
    held.item == *item
}

// Whether the item is at this place.
#[tactic(auto, using(crate::proofs::Placing::item_here))]
fn is_at(items: &[Holding], at: usize, item: &Item) -> bool
    ensures { IsTrue result → IsItemAt items.now item.now at }
{
    match items.get(at) {
        Some(held) => is_named(held, item),
        None => false,
    }
}

/// Where the item is, if it is there: looked for at this place and the next one, and then by a binary search.
pub(crate) fn place_near(items: &[Holding], near: usize, item: Item) -> Option<usize>
    requires { IsRisingBy (λ h. h.item) (slice_cmp nat_cmp) items.now }
    ensures { (at : ℕ) → (result ≡ Some at) ↔ IsItemAt items.now item at }
{
    let here = is_at(items, near, &item);
    if here {
        return Some(near);
    }
    let next = near.saturating_add(1);
    let behind = is_at(items, next, &item);
    if behind {
        return Some(next);
    }
    place_of(items, item)
}

// Where the entry's item is, if it has one that is there.
fn place_in(items: &[Holding], near: usize, entry: &Entry) -> Option<usize>
    requires { IsRisingBy (λ h. h.item) (slice_cmp nat_cmp) items.now }
    ensures { (at : ℕ)
        → (result ≡ Some at)
        ↔ ((x : Name) × (item_of entry.now ≡ Some x) × IsItemAt items.now x at) }
{
    match entry.item() {
        Some(item) => place_near(items, near, item),
        None => None,
    }
}

// What was done to each item, in the order of the log.
fn logged_acts(alloc: Global, items: &[Holding], log: &[Entry]) -> Result<Vec<Vec<Act>>, AllocError>
    requires { IsRisingBy (λ h. h.item) (slice_cmp nat_cmp) items.now }
    ensures long { IfOk result (λ acts. length acts.items ≡ length items.now) }
    ensures acts { IfOk result (λ acts. AreActs items.now log.now acts.items) }
{
    let mut acts = no_rows(alloc, items.len(), share(log.len(), items.len()))?;
    let mut near = 0;
    for (place, entry) in log.iter().enumerate() {
        if let Some(at) = place_in(items, near, entry) {
            near = at;
            let act = Act {
                place,
                entry: *entry,
            };
            push_at(acts.as_mut_slice(), at, act)?;
        }
    }
    Ok(acts)
}

// Puts a row in the order of its transactions.
fn sort_at(acts: &mut [Vec<Act>], at: usize) -> Result<(), AllocError>
    requires { at < length acts.old }
    ensures { OnOk result (IsSortedAt acts.old at acts.new) }
{
    let row = &mut acts[at];
    row.sort_by_key(|act| act.entry.tx().number())?;
    Ok(())
}

/// What was done to each item of the site, at its place: the operations of the log on it, in the order of their
/// transactions. In n operations n times the logarithm of their number.
pub(crate) fn acts_of(
    alloc: Global,
    items: &[Holding],
    log: &[Entry],
) -> Result<Vec<Vec<Act>>, AllocError>
    requires { IsRisingBy (λ h. h.item) (slice_cmp nat_cmp) items.now }
    ensures long { IfOk result (λ acts. length acts.items ≡ length items.now) }
    ensures acts { IfOk result (λ acts. AreActs items.now log.now acts.items) }
    ensures sorted { IfOk result (λ acts. AreByActor acts.items) }
{
    let mut acts = logged_acts(alloc, items, log)?;
    for at in 0..acts.len() {
        sort_at(acts.as_mut_slice(), at)?;
    }
    Ok(acts)
}
