//! What committed transactions did to each item of a site, with the versions that they met.

ghost use Rattle.std.specs.Prelude.{◌≡◌, ◌<◌, ◌≤◌, ◌+◌, ◌^◌, ◌++◌, ◌∷◌, [], ℕ, length, true, false, IsTrue, OnOk, IfOk};
ghost use Rattle.std.specs.Ordering.{nat_cmp};
ghost use Rattle.std.specs.Cmp.Lexicographic.{slice_cmp};
ghost use Rattle.std.specs.List.Sorted.{IsNonDecreasingBy, IsPermutation};
ghost use Rattle.sgt_names.specs.Ordered.{IsRisingBy};
ghost use Rattle.sgt_service_settle.specs.Settled.{is_read};
ghost use Rattle.sgt_service_settle.specs.private.Deeds.{deed_of, AreBare, AreTracks};
ghost use Rattle.sgt_service_settle.specs.declared.deeds.Deed.{Deed as ADeed};

use crate::acts::place_near;
use crate::carried::cut_at;
use crate::counts::is_read;
use crate::rows::share;
use sgt_names::{Entry, Holding, SiteNo, Tx};
use std::alloc::{AllocError, Global};

/// What a committed transaction did to an item, by the decision of this number, at this place of the log: it read
/// this version, or changed it. A version is the number of changes by committed transactions that made it.
#[derive(Clone, Copy, Debug, PartialEq, Eq)]
pub struct Deed {
    pub tx: Tx,
    pub number: u64,
    pub place: usize,
    pub version: usize,
    pub read: bool,
    pub increment: bool,
}

/// What was done to an item, in the order of the log, and its version behind all of it.
#[derive(Drop)]
pub struct Track {
    pub deeds: Vec<Deed>,
    pub version: usize,
}

// Adds the operation that stands at this place.
fn add(track: &mut Track, entry: &Entry, number: u64, place: usize) -> Result<(), AllocError>
    requires { track.old.version + 1 < 2 ^ 64 }
    ensures deeds { OnOk result
        (track.new.deeds.items
        ≡ track.old.deeds.items ++ deed_of entry.now number place track.old.version ∷ []) }
    ensures read { OnOk result (is_read entry.now ≡ true → track.new.version ≡ track.old.version) }
    ensures change { OnOk result
        (is_read entry.now ≡ false → track.new.version ≡ track.old.version + 1) }
{
    let read = is_read(entry);
    let deed = Deed {
        tx: entry.tx(),
        number,
        place,
        version: track.version,
        read,
        increment: entry.is_increment(),
    };
    track.deeds.push(deed)?;
    if !read {
        track.version += 1;
    }
    Ok(())
}

// A track with nothing in it for each item, with room for so many deeds each.
fn no_tracks(alloc: Global, all: usize, each: usize) -> Result<Vec<Track>, AllocError>
    ensures long { IfOk result (λ tracks. length tracks.items ≡ all) }
    ensures bare { IfOk result (λ tracks. AreBare tracks.items) }
{
    let mut tracks = Vec::new(alloc);
    for _at in 0..all {
        let mut deeds = Vec::new(alloc);
        deeds.reserve(each)?;
        tracks.push(Track { deeds, version: 0 })?;
    }
    Ok(tracks)
}

/// What committed transactions did to each item of the site, at its place.
pub(crate) fn tracks_of(
    alloc: Global,
    commits: &[Option<u64>],
    site: SiteNo,
    items: &[Holding],
    log: &[Entry],
) -> Result<Vec<Track>, AllocError>
    requires { IsRisingBy (λ h. h.item) (slice_cmp nat_cmp) items.now }
    ensures long { IfOk result (λ tracks. length tracks.items ≡ length items.now) }
    ensures tracks { IfOk result
        (λ tracks. AreTracks commits.now items.now log.now (length log.now) tracks.items) }
{
    let mut tracks = no_tracks(alloc, items.len(), share(log.len(), items.len()))?;
    let mut near = 0;
    for (place, entry) in log.iter().enumerate() {
        if let Some(cut) = cut_at(commits, site, entry) {
            if let Some(at) = place_near(items, near, cut.item) {
                near = at;
                add(&mut tracks[at], entry, cut.last, place)?;
            }
        }
    }
    Ok(tracks)
}

/// Whether the deeds stand in the order of their decisions.
pub(crate) fn are_in_order(deeds: &[Deed]) -> bool
    ensures { IsTrue result → IsNonDecreasingBy (λ (d : ADeed). d.number) deeds.now }
{
    for i in 1..deeds.len() {
        if deeds[i].number < deeds[i - 1].number {
            return false;
        }
    }
    true
}

/// The deeds in the order of their decisions.
pub(crate) fn by_number(alloc: Global, deeds: &[Deed]) -> Result<Vec<Deed>, AllocError>
    ensures same { IfOk result (λ order. IsPermutation deeds.now order.items) }
    ensures sorted { IfOk result
        (λ order. IsNonDecreasingBy (λ (d : ADeed). d.number) order.items) }
{
    let mut order = Vec::new(alloc);
    order.extend_from_slice(deeds)?;
    order.sort_by_key(|deed| deed.number)?;
    Ok(order)
}
