//! Orders of transactions in which ends, or committed conflicts, lead onward: they show that there is no cycle of
//! these.

ghost use Rattle.std.specs.Prelude.{◌≡◌, ◌≤◌, ◌<◌, ◌↔◌, ◌⊎◌, ℕ, Option, Some, None, false, IsTrue, IfOk, OnOk, Contains};
ghost use Rattle.std.specs.BTreeMap.{get};
ghost use Rattle.std.specs.Cmp.Lexicographic.{slice_cmp};
ghost use Rattle.std.specs.Ordering.{nat_cmp};
ghost use Rattle.sgt_names.specs.Name.{Name};
ghost use Rattle.sgt_bundle.specs.declared.bundle.SiteLog.{SiteLog as Log};
ghost use Rattle.sgt_certify_logs.specs.Witness.{HaveConflictsInACycle, HaveEndsInACycle};
ghost use Rattle.sgt_certify_stuck.specs.Apart.{Does};
ghost use Rattle.sgt_certify_stuck.specs.Onward.{ArePlacesOf, CommitsStand, ConflictsFollow, ConflictsLeadOnward, EndsFollow, EndsLeadOnward, EndsStand, IsTop, LogCommitsStand, PairLeadsOnward, StandsAt};

use crate::apart::{CHANGES, Class, PUT_OVER, PUTS, Pair, READS, item_by};
use sgt_bundle::SiteLog;
use sgt_names::{Entry, Item, Tx};
use std::alloc::{AllocError, Global};
use std::collections::BTreeMap;

/// The places of the transactions in the order, counted from 0: of one that stands there twice, the last.
fn places_of(alloc: Global, order: &[Tx]) -> Result<BTreeMap<Tx, usize>, AllocError>
    ensures { IfOk result (ArePlacesOf order.now) }
{
    let mut places = BTreeMap::new(alloc);
    for place in 0..order.len() {
        places.insert(order[place], place)?;
    }
    Ok(places)
}

/// The transaction's place.
fn place_of(places: &BTreeMap<Tx, usize>, tx: Tx) -> Option<usize>
    ensures { result ≡ get nat_cmp places.now tx }
{
    places.get(&tx).copied()
}

/// Whether the place is behind the last one, if there is one.
fn is_behind(last: Option<usize>, place: usize) -> bool
    ensures { IsTrue result ↔ ((before : ℕ) → last ≡ Some before → before < place) }
{
    match last {
        Some(before) => before < place,
        None => true,
    }
}

/// Whether the places of those that end rise along the log.
fn ends_lead_onward(entries: &[Entry], places: &BTreeMap<Tx, usize>) -> bool
    ensures { IsTrue result
        ↔ EndsStand entries.now places.now × EndsLeadOnward entries.now places.now }
{
    let mut last: Option<usize> = None;
    for entry in entries {
        if entry.is_end() {
            let Some(place) = place_of(places, entry.tx()) else {
                return false;
            };
            if !is_behind(last, place) {
                return false;
            }
            last = Some(place);
        }
    }
    true
}

/// Whether that is so along each log.
fn all_ends_lead_onward(sites: &[SiteLog], places: &BTreeMap<Tx, usize>) -> bool
    ensures { IsTrue result ↔ ((log : Log) → Contains sites.now log
        → EndsStand log.entries places.now × EndsLeadOnward log.entries places.now) }
{
    for log in sites {
        if !ends_lead_onward(log.entries.as_slice(), places) {
            return false;
        }
    }
    true
}

/// Whether the ends of each log stand in this order, which then shows that no ends are in a cycle. Err: memory ran out.
pub fn ends_follow(alloc: Global, sites: &[SiteLog], order: &[Tx]) -> Result<bool, AllocError>
    ensures exact { IfOk result (λ follow. IsTrue follow ↔ EndsFollow sites.now order.now) }
    ensures no_cycle { IfOk result (λ follow. IsTrue follow → HaveEndsInACycle sites.now → ⊥) }
{
    let places = places_of(alloc, order)?;
    Ok(all_ends_lead_onward(sites, &places))
}

/// What stands at the item.
fn top_of(tops: &BTreeMap<Item, usize>, item: &Item) -> Option<usize>
    ensures { result ≡ get (slice_cmp nat_cmp) tops.now item.now }
{
    tops.get(item).copied()
}

/// Whether the entry does this to an item at which a greater place than its own stands.
fn falls_behind(tops: &BTreeMap<Item, usize>, class: Class, entry: &Entry, place: usize) -> bool
    ensures yes { IsTrue result → (x : Name) × (top : ℕ) × Does class x entry.now
        × IsTop tops.now x top × (place < top) }
    ensures no { result ≡ false → (x : Name) (top : ℕ) → Does class x entry.now → IsTop tops.now x top
        → top ≤ place }
{
    let Some(item) = item_by(class, entry) else {
        return false;
    };
    match top_of(tops, &item) {
        Some(top) => top > place,
        None => false,
    }
}

/// The greater of the two places.
fn greater(top: Option<usize>, place: usize) -> usize
    ensures place { place ≤ result }
    ensures top { (t : ℕ) → top ≡ Some t → t ≤ result }
    ensures one { (result ≡ place) ⊎ (top ≡ Some result) }
{
    match top {
        Some(top) if top > place => top,
        _ => place,
    }
}

/// Puts the place at the item to which the entry does this, if it does it and none that is greater stands there.
fn raise(
    tops: &mut BTreeMap<Item, usize>,
    class: Class,
    entry: &Entry,
    place: usize,
) -> Result<(), AllocError>
    ensures kept { OnOk result ((x : Name) (top : ℕ) → IsTop tops.old x top
        → (next : ℕ) × IsTop tops.new x next × (top ≤ next)) }
    ensures raised { OnOk result ((x : Name) → Does class x entry.now
        → (next : ℕ) × IsTop tops.new x next × (place ≤ next)) }
    ensures only { OnOk result ((x : Name) (top : ℕ) → IsTop tops.new x top
        → IsTop tops.old x top ⊎ ((top ≡ place) × Does class x entry.now)) }
{
    if let Some(item) = item_by(class, entry) {
        let top = greater(top_of(tops, &item), place);
        tops.insert(item, top)?;
    }
    Ok(())
}

/// Whether the places of those that do the second of the pair to an item are none before those that did the first to
/// it.
fn pair_leads_onward(
    alloc: Global,
    entries: &[Entry],
    places: &BTreeMap<Tx, usize>,
    pair: Pair,
) -> Result<bool, AllocError>
    ensures { IfOk result
        (λ onward. IsTrue onward
        ↔ PairLeadsOnward entries.now places.now pair.first pair.second) }
{
    let mut tops = BTreeMap::new(alloc);
    for entry in entries {
        if let Some(place) = place_of(places, entry.tx()) {
            if falls_behind(&tops, pair.second, entry, place) {
                return Ok(false);
            }
            raise(&mut tops, pair.first, entry, place)?;
        }
    }
    Ok(true)
}

/// Whether the conflicts of the log between those that have places lead onward.
fn conflicts_lead_onward(
    alloc: Global,
    entries: &[Entry],
    places: &BTreeMap<Tx, usize>,
) -> Result<bool, AllocError>
    ensures { IfOk result (λ onward. IsTrue onward ↔ ConflictsLeadOnward entries.now places.now) }
{
    let reads = pair_leads_onward(alloc, entries, places, READS)?;
    if !reads {
        return Ok(false);
    }
    let changes = pair_leads_onward(alloc, entries, places, CHANGES)?;
    if !changes {
        return Ok(false);
    }
    let puts = pair_leads_onward(alloc, entries, places, PUTS)?;
    if !puts {
        return Ok(false);
    }
    pair_leads_onward(alloc, entries, places, PUT_OVER)
}

/// Whether that is so along each log.
fn all_conflicts_lead_onward(
    alloc: Global,
    sites: &[SiteLog],
    places: &BTreeMap<Tx, usize>,
) -> Result<bool, AllocError>
    ensures { IfOk result
        (λ onward. IsTrue onward ↔ ((log : Log) → Contains sites.now log
        → ConflictsLeadOnward log.entries places.now)) }
{
    for log in sites {
        let onward = conflicts_lead_onward(alloc, log.entries.as_slice(), places)?;
        if !onward {
            return Ok(false);
        }
    }
    Ok(true)
}

/// Whether whoever the entry commits has a place.
fn commit_stands(places: &BTreeMap<Tx, usize>, entry: &Entry) -> bool
    ensures { IsTrue result ↔ ((t : ℕ) → entry.now ≡ Entry.Commit t
        → (place : ℕ) × StandsAt places.now t place) }
{
    let Entry::Commit { tx } = entry else {
        return true;
    };
    match place_of(places, *tx) {
        Some(_place) => true,
        None => false,
    }
}

/// Whether whoever the log commits has a place.
fn log_commits_stand(entries: &[Entry], places: &BTreeMap<Tx, usize>) -> bool
    ensures { IsTrue result ↔ LogCommitsStand entries.now places.now }
{
    for entry in entries {
        if !commit_stands(places, entry) {
            return false;
        }
    }
    true
}

/// Whether whoever a log commits has a place.
fn commits_stand(sites: &[SiteLog], places: &BTreeMap<Tx, usize>) -> bool
    ensures { IsTrue result ↔ CommitsStand sites.now places.now }
{
    for log in sites {
        if !log_commits_stand(log.entries.as_slice(), places) {
            return false;
        }
    }
    true
}

/// Whether all committed transactions are in the order, and their conflicts lead onward in it: it then shows that
/// none are in a cycle. Err: memory ran out.
pub fn conflicts_follow(alloc: Global, sites: &[SiteLog], order: &[Tx]) -> Result<bool, AllocError>
    ensures exact { IfOk result (λ follow. IsTrue follow ↔ ConflictsFollow sites.now order.now) }
    ensures no_cycle { IfOk result
        (λ follow. IsTrue follow → HaveConflictsInACycle sites.now → ⊥) }
{
    let places = places_of(alloc, order)?;
    if !commits_stand(sites, &places) {
        return Ok(false);
    }
    all_conflicts_lead_onward(alloc, sites, &places)
}
