//! Edges that are shown to be conflicts of a log by two operations that were noted. What was noted is tried, and
//! needn't be right.

ghost use Rattle.std.specs.Prelude.{◌≡◌, All, IsTrue, length};
ghost use Rattle.sgt_names.specs.Entry.{tx_of};
ghost use Rattle.sgt_service_settle.specs.private.Places.{AreEndsOf, IsShown, AreShown};

use crate::deeds::{Deed, Track};
use crate::link::Link;
use sgt_names::{Entry, Kind, Tx};
use std::alloc::{AllocError, Global};

/// Where the read of each transaction stands in a log, and its change: those of one item.
#[derive(Drop)]
pub struct Places {
    pub reads: Vec<usize>,
    pub changes: Vec<usize>,
}

/// Nothing is noted, of so many transactions.
pub(crate) fn no_places(alloc: Global, all: usize) -> Result<Places, AllocError> {
    Ok(Places {
        reads: Vec::from_elem(alloc, 0, all)?,
        changes: Vec::from_elem(alloc, 0, all)?,
    })
}

fn set_place(places: &mut Vec<usize>, tx: Tx, place: usize) {
    let at = tx.number() as usize;
    if at < places.len() {
        places[at] = place;
    }
}

// Notes where these stand.
fn note_deeds(places: &mut Places, deeds: &[Deed]) {
    for deed in deeds {
        if deed.read {
            set_place(&mut places.reads, deed.tx, deed.place);
        } else {
            set_place(&mut places.changes, deed.tx, deed.place);
        }
    }
}

fn place_at(places: &[usize], tx: usize) -> usize {
    match places.get(tx) {
        Some(place) => *place,
        None => 0,
    }
}

// The places that are noted for the ends of the edge.
fn ends_of(places: &Places, link: &Link) -> (usize, usize) {
    let reads = places.reads.as_slice();
    let changes = places.changes.as_slice();
    match link.label.kind {
        Kind::Wr => (place_at(changes, link.from), place_at(reads, link.to)),
        Kind::Rw => (place_at(reads, link.from), place_at(changes, link.to)),
        Kind::Ww => (place_at(changes, link.from), place_at(changes, link.to)),
    }
}

fn is_by(entry: &Entry, tx: usize) -> bool
    ensures { IsTrue result → tx_of entry.now ≡ tx }
{
    entry.tx().number() as usize == tx
}

// Whether the entries are operations of the two transactions that are in the conflict of the edge.
fn are_ends(first: &Entry, second: &Entry, link: &Link) -> bool
    ensures { IsTrue result → AreEndsOf first.now second.now link.now }
{
    link.from != link.to
        && is_by(first, link.from)
        && is_by(second, link.to)
        && first.clashes(link.label.kind, &link.label.item, second)
}

// Whether the entries at these places are the ends of the edge.
fn shows(log: &[Entry], first: usize, second: usize, link: &Link) -> bool
    ensures { IsTrue result → IsShown log.now link.now }
{
    if second <= first {
        return false;
    }
    match (log.get(first), log.get(second)) {
        (Some(one), Some(other)) => are_ends(one, other, link),
        _ => false,
    }
}

fn is_shown(places: &Places, log: &[Entry], link: &Link) -> bool
    ensures { IsTrue result → IsShown log.now link.now }
{
    let (first, second) = ends_of(places, link);
    shows(log, first, second, link)
}

fn is_row_shown(places: &Places, log: &[Entry], links: &[Link]) -> bool
    ensures { IsTrue result → All (IsShown log.now) links.now }
{
    for link in links {
        if !is_shown(places, log, link) {
            return false;
        }
    }
    true
}

/// Whether the operations on each item show each of its edges to be a conflict of the log. False tells nothing.
pub(crate) fn are_shown(
    places: &mut Places,
    log: &[Entry],
    tracks: &[Track],
    rows: &[Vec<Link>],
) -> bool
    requires { length tracks.now ≡ length rows.now }
    ensures { IsTrue result → AreShown log.now rows.now }
{
    for at in 0..rows.len() {
        note_deeds(places, tracks[at].deeds.as_slice());
        if !is_row_shown(places, log, rows[at].as_slice()) {
            return false;
        }
    }
    true
}
