//! The items that a draft changes at a site, listed for the history.

ghost use Rattle.std.specs.Prelude.{◌≡◌, ◌≢◌, ◌↔◌, ◌⊎◌, ◌==◌, ◌&&◌, ◌<◌, ◌≤◌, ℕ, List, [], length, vec_len, vec_capacity, All, Contains, IsTrue, is_some, IfOk, OnOk, OnErr, IfSome, IfNone, Any, slice_get};
ghost use Rattle.sgt_names.specs.Draft.{AreRising};
ghost use Rattle.sgt_names.specs.declared.draft.Touch.{Touch as Touched};
ghost use Rattle.sgt_certifier.specs.declared.install.Prepared.{Prepared as APrepared};
ghost use Rattle.sgt_certifier.specs.Counted.{HasPlace, HavePlaces, Widens};
ghost use Rattle.sgt_certifier.specs.Kept.{changed_at, IsExpected};

use crate::counts::Counts;
use sgt_names::{Draft, Item, Listed, Part, SiteNo, Touch};
use std::alloc::{AllocError, Global};

/// The list of an install that is still to come, made in advance.
#[derive(Drop)]
pub struct Prepared {
    pub site: SiteNo,
    pub items: Listed<Item>,
}

// Whether the draft changes the item, at this site.
fn is_changed(touch: &Touch, site: SiteNo) -> bool
    ensures { result ≡ ((touch.now.site == site) && is_some touch.now.change) }
{
    touch.site == site && touch.change.is_some()
}

// Up to how many touched items are gone over, in place of a search for those of a site.
const NEAR: usize = 16;

// Touched items of the draft, all of those at the site among them: all that it touches, while they are few.
pub fn touched_near(draft: &Draft, site: SiteNo) -> &[Touch]
    ensures changed { changed_at result.now site ≡ changed_at draft.now.touched site }
    ensures rising { AreRising result.now }
{
    let (few, parts) = draft.touched();
    if are_near(few, parts) {
        few
    } else {
        draft.at(site)
    }
}

// Whether a draft with these has no parts, and few items.
fn are_near(few: &[Touch], parts: &[Part]) -> bool
    ensures { IsTrue result → length parts.now ≡ 0 }
{
    parts.is_empty() && few.len() <= NEAR
}

// How many items of these the draft changes at the site, and 1 where it changes none.
fn count_changed(touched: &[Touch], site: SiteNo) -> usize
    ensures { 1 ≤ result }
{
    let count = touched
        .iter()
        .filter(|touch| is_changed(touch, site))
        .count();
    if count == 0 { 1 } else { count }
}

// Makes room for one more item that the draft changes at the site: with the first one for all of them, and no more.
fn make_place(items: &mut Vec<Item>, touched: &[Touch], site: SiteNo) -> Result<(), AllocError>
    ensures items { items.new.items ≡ items.old.items }
    ensures room { OnOk result (vec_len items.new < vec_capacity items.new) }
{
    if items.is_empty() {
        items.reserve_exact(count_changed(touched, site))
    } else {
        items.reserve(1)
    }
}

// The items that the draft changes at the site.
fn changed_items(alloc: Global, touched: &[Touch], site: SiteNo) -> Result<Listed<Item>, AllocError>
    ensures ok { IfOk result (λ items. items ≡ changed_at touched.now site) }
    ensures err { OnErr result (changed_at touched.now site ≢ []) }
{
    let mut items = Vec::new(alloc);
    for touch in touched {
        if is_changed(touch, site) {
            make_place(&mut items, touched, site)?;
            items.push_reserved(touch.item);
        }
    }
    items.shrink_to_fit();
    Ok(Listed::new(items))
}

// Whether these are the items that the draft changes at the site.
fn are_changed(items: &[Item], touched: &[Touch], site: SiteNo) -> bool
    ensures { IsTrue result ↔ (items.now ≡ changed_at touched.now site) }
{
    let mut met = 0;
    for touch in touched {
        if is_changed(touch, site) {
            if met >= items.len() {
                return false;
            }
            if items[met] != touch.item {
                return false;
            }
            met += 1;
        }
    }
    met == items.len()
}

// Whether the list was made for this site of the draft.
fn is_for(prepared: &Prepared, touched: &[Touch], site: SiteNo) -> bool
    ensures { IsTrue result
        ↔ (prepared.now ≡ record { site = site; items = changed_at touched.now site }) }
{
    prepared.site == site && are_changed(prepared.items.as_slice(), touched, site)
}

// The place of the list that was made for this site of the draft.
fn place_of(expected: &[Prepared], touched: &[Touch], site: SiteNo) -> Option<usize>
    ensures found { IfSome result
        (λ k. slice_get expected.now k
        ≡ Some (record { site = site; items = changed_at touched.now site })) }
    ensures none { IfNone result
        (Contains expected.now (record { site = site; items = changed_at touched.now site }) → ⊥) }
{
    for place in 0..expected.len() {
        if is_for(&expected[place], touched, site) {
            return Some(place);
        }
    }
    None
}

// The items that the draft changes at the site, which have places: the list that was made for it, which is taken
// away, or else a new one.
pub fn take_items(
    alloc: Global,
    expected: &mut Vec<Prepared>,
    counts: &mut Counts,
    touched: &[Touch],
    site: SiteNo,
) -> Result<Listed<Item>, AllocError>
    requires placed { All (HavePlaces counts.old) expected.old.items }
    ensures items { IfOk result (λ items. items ≡ changed_at touched.now site) }
    ensures places { OnOk result (All (HasPlace counts.new site) (changed_at touched.now site)) }
    ensures widens { Widens counts.old counts.new }
    ensures others { (other : List Touched) (s : ℕ)
        → s ≢ site → IsExpected expected.old.items other s → IsExpected expected.new.items other s }
    ensures fewer { (p : APrepared) → Contains expected.new.items p
        → Contains expected.old.items p }
    ensures err { OnErr result (expected.new.items ≡ expected.old.items) }
    ensures wants { OnErr result (IsExpected expected.old.items touched.now site → ⊥) }
{
    match place_of(expected.as_slice(), touched, site) {
        Some(place) => Ok(expected.remove(place).items),
        None => {
            let items = changed_items(alloc, touched, site)?;
            counts.place_each(site, items.as_slice())?;
            Ok(items)
        }
    }
}

// Whether the site is among these.
pub fn is_among(sites: &[SiteNo], site: SiteNo) -> bool
    ensures { IsTrue result ↔ Contains sites.now site }
{
    sites.contains(&site)
}

// Whether a list was made for the site.
fn has_site(expected: &[Prepared], site: SiteNo) -> bool
    ensures { IsTrue result ↔ Any (λ (p : APrepared). p.site ≡ site) expected.now }
{
    expected.iter().any(|prepared| prepared.site == site)
}

// The lists of the items that the draft changes, one for each site where it changes any. They stand in the room of
// those that are given.
pub fn prepared_lists(
    alloc: Global,
    spare: Vec<Prepared>,
    draft: &Draft,
) -> Result<Vec<Prepared>, AllocError>
    ensures { IfOk result (λ lists. (site : ℕ) → IsExpected lists.items draft.now.touched site) }
{
    let mut lists = spare;
    lists.clear();
    let (few, parts) = draft.touched();
    for part in parts {
        add_lists(alloc, &mut lists, part.touched(), draft)?;
    }
    add_lists(alloc, &mut lists, few, draft)?;
    Ok(lists)
}

// Adds the lists of the draft's sites where one of these items is changed, but for those that are there.
fn add_lists(
    alloc: Global,
    lists: &mut Vec<Prepared>,
    touched: &[Touch],
    draft: &Draft,
) -> Result<(), AllocError>
    requires each { (p : APrepared) → Contains lists.old.items p
        → p.items ≡ changed_at draft.now.touched p.site }
    ensures each { OnOk result ((p : APrepared)
        → Contains lists.new.items p → p.items ≡ changed_at draft.now.touched p.site) }
    ensures kept { OnOk result
        ((p : APrepared) → Contains lists.old.items p → Contains lists.new.items p) }
    ensures all { OnOk result ((s : ℕ) → (changed_at touched.now s ≡ [])
        ⊎ Contains lists.new.items (record { site = s; items = changed_at draft.now.touched s })) }
{
    for touch in touched {
        let site = touch.site;
        if is_changed(touch, site) && !has_site(lists.as_slice(), site) {
            let items = changed_items(alloc, touched_near(draft, site), site)?;
            lists.push(Prepared { site, items })?;
        }
    }
    Ok(())
}
