//! Whether each conflict of a log between committed transactions is carried by the edges that decisions were handed.

ghost use Rattle.std.specs.Prelude.{◌≡◌, ◌↔◌, ◌<◌, IsTrue, length, IfOk, Some};
ghost use Rattle.sgt_names.specs.Entry.{tx_of, item_of, Clash};
ghost use Rattle.sgt_service_settle.specs.declared.link.Cut.{Cut as ACut};
ghost use Rattle.sgt_names.specs.declared.entry.Kind.{Kind as AKind};
ghost use Rattle.sgt_service_settle.specs.Told.{handed_in};
ghost use Rattle.sgt_service_settle.specs.private.Search.{IsMarked};
ghost use Rattle.sgt_service_settle.specs.private.Index.{IsIn, AreLinks, IsDue, IsSided, AllSided, IsPlaceCarried, AreCarried, AreRows};

use crate::committed::number_of;
use crate::handed::all_handed;
use crate::index::{Index, links_of};
use crate::link::{Arc, Cut, Link};
use crate::rows::{entering, leaving};
use crate::search::search;
use sgt_names::{Entry, Item, SiteNo, Tx};
use std::alloc::{AllocError, Global};

/// The edges between committed transactions, by the transaction that they come from, and by the one that they lead to.
#[derive(Drop)]
pub struct Rows {
    pub out: Vec<Vec<Arc>>,
    pub back: Vec<Vec<Arc>>,
}

// The edges between committed transactions.
fn links_in(alloc: Global, index: &Index<'_>) -> Result<Vec<Link>, AllocError>
    ensures { IfOk result (λ links. AreLinks index.now.windows.items index.now.commits.items
        (handed_in index.now.history.now) links.items) }
{
    let handed = all_handed(alloc, index.history)?;
    let windows = index.windows.as_slice();
    let commits = index.commits.as_slice();
    let links = links_of(alloc, windows, commits, handed.as_slice())?;
    Ok(links)
}

// The rows of the edges. Linear in the history with its edges and in the transactions, in time and memory.
fn rows_of(alloc: Global, index: &Index<'_>) -> Result<Rows, AllocError>
    ensures { IfOk result (AreRows index.now) }
{
    let links = links_in(alloc, index)?;
    let all = index.commits.len();
    let out = leaving(alloc, links.as_slice(), all)?;
    let back = entering(alloc, links.as_slice(), all)?;
    Ok(Rows { out, back })
}

fn is_marked(marks: &[bool], tx: Tx) -> bool
    ensures { IsTrue result ↔ IsMarked marks.now tx }
{
    match marks.get(tx.number() as usize) {
        Some(mark) => *mark,
        None => false,
    }
}

// Whether the two are in conflict on the item, of whichever kind.
fn conflict(item: &Item, first: &Entry, second: &Entry) -> bool
    ensures { IsTrue result ↔ ((kind : AKind) × Clash kind item.now first.now second.now) }
{
    first.clash_on(item, second).is_some()
}

// Whether the other entry is another transaction's, committed by a decision of at most this number.
fn is_due(commits: &[Option<u64>], entry: &Entry, other: &Entry, last: u64) -> bool
    ensures { IsTrue result ↔ IsDue commits.now entry.now other.now last }
{
    match number_of(commits, other.tx()) {
        Some(number) => number <= last && entry.tx() != other.tx(),
        None => false,
    }
}

// Whether the other transaction has its mark, where the entries are in conflict.
fn is_sided(
    item: &Item,
    place: usize,
    at: usize,
    entry: &Entry,
    other: &Entry,
    forward: &[bool],
    backward: &[bool],
) -> bool
    ensures { IsTrue result
        ↔ IsSided (IsMarked backward.now (tx_of other.now)) (IsMarked forward.now (tx_of other.now))
        item.now place at entry.now other.now }
{
    if at < place {
        !conflict(item, other, entry) || is_marked(backward, other.tx())
    } else {
        !conflict(item, entry, other) || is_marked(forward, other.tx())
    }
}

// Whether the conflicts of the entry with those that are due have their marks.
fn all_sided(
    log: &[Entry],
    commits: &[Option<u64>],
    cut: &Cut,
    place: usize,
    entry: &Entry,
    forward: &[bool],
    backward: &[bool],
) -> bool
    ensures { IsTrue result
        ↔ AllSided log.now commits.now cut.now place entry.now forward.now backward.now }
{
    for (at, other) in log.iter().enumerate() {
        if is_due(commits, entry, other, cut.last)
            && !is_sided(&cut.item, place, at, entry, other, forward, backward)
        {
            return false;
        }
    }
    true
}

// Whether the conflicts of the entry with those that are due are carried. The marks are written anew.
fn is_place_carried(
    alloc: Global,
    index: &Index<'_>,
    rows: &Rows,
    log: &[Entry],
    cut: &Cut,
    place: usize,
    entry: &Entry,
    forward: &mut [bool],
    backward: &mut [bool],
) -> Result<bool, AllocError>
    requires rows { AreRows index.now rows.now }
    requires commit { tx_of entry.now < length index.now.commits.items }
    requires forward { length forward.old ≡ length index.now.commits.items }
    requires backward { length backward.old ≡ length index.now.commits.items }
    ensures { IfOk result
        (λ yes. IsTrue yes ↔ IsPlaceCarried index.now log.now cut.now place entry.now) }
{
    let start = entry.tx().number() as usize;
    search(alloc, rows.out.as_slice(), start, cut, forward)?;
    search(alloc, rows.back.as_slice(), start, cut, backward)?;
    let commits = index.commits.as_slice();
    Ok(all_sided(log, commits, cut, place, entry, forward, backward))
}

// The operations of committed transactions on one item, and by which decision they are: none for other entries.
pub(crate) fn cut_at(commits: &[Option<u64>], site: SiteNo, entry: &Entry) -> Option<Cut>
    ensures { (cut : ACut) → (result ≡ Some cut)
        ↔ ((item_of entry.now ≡ Some cut.item) × IsIn commits.now (tx_of entry.now) cut.last
        × (cut.site ≡ site)) }
{
    let Some(item) = entry.item() else {
        return None;
    };
    let Some(last) = number_of(commits, entry.tx()) else {
        return None;
    };
    Some(Cut { site, item, last })
}

/// Whether each conflict of the log of the site between committed transactions is carried.
pub(crate) fn are_carried(
    alloc: Global,
    index: &Index<'_>,
    site: SiteNo,
    log: &[Entry],
) -> Result<bool, AllocError>
    ensures { IfOk result (λ yes. IsTrue yes ↔ AreCarried index.now site log.now) }
{
    let rows = rows_of(alloc, index)?;
    let all = index.commits.len();
    let mut forward = Vec::from_elem(alloc, false, all)?;
    let mut backward = Vec::from_elem(alloc, false, all)?;
    for (place, entry) in log.iter().enumerate() {
        if let Some(cut) = cut_at(index.commits.as_slice(), site, entry) {
            let carried = is_place_carried(
                alloc,
                index,
                &rows,
                log,
                &cut,
                place,
                entry,
                forward.as_mut_slice(),
                backward.as_mut_slice(),
            )?;
            if !carried {
                return Ok(false);
            }
        }
    }
    Ok(true)
}
