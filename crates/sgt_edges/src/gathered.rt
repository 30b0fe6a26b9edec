//! The edges of a draft at a site.

ghost use Rattle.std.specs.Prelude.{◌≡◌, ◌↔◌, ◌<◌, ◌≤◌, ◌∷◌, [], Some, All, Any, Contains, length, IsTrue, IfOk, IfErr, OnOk};
ghost use Rattle.sgt_site.specs.State.{SiteState, IsSite, IsVersionWritten};
ghost use Rattle.sgt_names.specs.Draft.{AreRising};
ghost use Rattle.sgt_names.specs.declared.draft.Seen.{Seen as ASeen};
ghost use Rattle.sgt_edges.specs.Edges.{IsGiven, StandsForAll, SeesTooNew, RefusesEdges, HaveOwnHandles, AreApart};
ghost use Rattle.sgt_edges.specs.declared.edge.Edge.{Edge as AnEdge};
ghost use Rattle.sgt_edges.specs.private.Gathered.{AreAccesses, AreOrdered, WritersApart, ReadersApart, IsTooNew, IsNear, IsBetween, AddsAll, AddsOnce, FromWriter, ToWriter, FromReader, IsOfRead, IsOfChange};

use crate::edge::{Edge, EdgeList};
use crate::fault::EdgeFault;
use crate::runs::{accesses_at, behind, changes_before, in_front, reads_before};
use sgt_arena::Handle;
use sgt_names::{Draft, Kind, Label, SiteNo, Touch};
use sgt_site::{Accesses, Reader, Site, Writer, touched_near};
use std::alloc::{AllocError, Global};

/// The conflicts of a draft's reads and changes at a site with the committed transactions there, as edges to and from
/// this node: never to itself, and to neighbours alone, over which walks lead to the others. Their order is not
/// fixed. The source of the rule: Bernstein, Hadzilacos and Goodman 1987, ch. 2 and 4.4.
///
/// Searches the site's items once for each item that the draft touches there, and the item's readers for its versions,
/// and then goes over the writers and readers that it gives edges of and at most one more in each direction.
pub fn gather(alloc: Global, site: &Site, draft: &Draft, me: Handle) -> Result<EdgeList, EdgeFault>
    ensures given { IfOk result (λ edges. All (IsGiven site.now draft.now.touched me) edges) }
    ensures stands { IfOk result (StandsForAll site.now draft.now.touched me) }
    ensures once { HaveOwnHandles site.now → IfOk result AreApart }
    ensures allowed { OnOk result (SeesTooNew site.now draft.now.touched → ⊥) }
    ensures refused { IfErr result (RefusesEdges site.now draft.now.touched) }
{
    let mut edges = EdgeList::new(alloc);
    match gather_into(&mut edges, site, draft, me) {
        Ok(()) => Ok(edges),
        Err(fault) => Err(fault),
    }
}

/// As `gather`, into a list whose room is used again. What was there is taken out, also where it errs.
pub fn gather_into(
    edges: &mut EdgeList,
    site: &Site,
    draft: &Draft,
    me: Handle,
) -> Result<(), EdgeFault>
    ensures given { OnOk result (All (IsGiven site.now draft.now.touched me) edges.new) }
    ensures stands { OnOk result (StandsForAll site.now draft.now.touched me edges.new) }
    ensures once { HaveOwnHandles site.now → OnOk result (AreApart edges.new) }
    ensures allowed { OnOk result (SeesTooNew site.now draft.now.touched → ⊥) }
    ensures refused { IfErr result (RefusesEdges site.now draft.now.touched) }
{
    let here = touched_near(draft, site.number());
    match to_neighbours(edges, site, here, me) {
        Ok(()) => Ok(()),
        Err(_) if sees_too_new(site, here) => Err(EdgeFault::SeenTooNew),
        Err(_) => Err(EdgeFault::Memory),
    }
}

// The draft's edges here to and from neighbours: all of them, and nothing else. None where a version in the draft
// exceeds the site's.
fn to_neighbours(
    edges: &mut EdgeList,
    site: &Site,
    touched: &[Touch],
    me: Handle,
) -> Result<(), EdgeFault>
    requires rising { AreRising touched.now }
    ensures seen { OnOk result (Any (IsTooNew site.now) touched.now → ⊥) }
    ensures near { OnOk result
        ((e : AnEdge) → Contains edges.new e ↔ IsNear site.now touched.now me e) }
    ensures once { HaveOwnHandles site.now → OnOk result (AreApart edges.new) }
    ensures site { IsSite site.now }
{
    let here = site.number();
    edges.clear();
    for t in touched {
        add_edges(edges, site, here, t, me)?;
    }
    Ok(())
}

// Whether a version in the draft exceeds the site's.
#[inline(never)]
fn sees_too_new(site: &Site, touched: &[Touch]) -> bool
    ensures { IsTrue result ↔ Any (IsTooNew site.now) touched.now }
{
    touched.iter().any(|t| is_too_new(site, t))
}

fn is_too_new(site: &Site, touch: &Touch) -> bool
    ensures { IsTrue result ↔ IsTooNew site.now touch.now }
{
    match touch.seen {
        Some(seen) if touch.site == site.number() => {
            seen.version > accesses_at(site, touch.item).writers.len() as u64
        }
        _ => false,
    }
}

// Whether the kept read, if there is one, is of a version that these writers didn't make.
fn exceeds(touch: &Touch, writers: &[Writer]) -> bool
    ensures { IsTrue result
        ↔ ((seen : ASeen) × (touch.now.seen ≡ Some seen) × (length writers.now < seen.version)) }
{
    match touch.seen {
        Some(seen) => seen.version > writers.len() as u64,
        None => false,
    }
}

// Adds the edges of one touched item, if it is at the site. Errs also where the version in the draft exceeds the
// site's.
fn add_edges(
    edges: &mut EdgeList,
    site: &Site,
    here: SiteNo,
    touch: &Touch,
    me: Handle,
) -> Result<(), EdgeFault>
    requires number { here ≡ site.now.number }
    ensures seen { OnOk result (IsTooNew site.now touch.now → ⊥) }
    ensures all { OnOk result (AddsAll (IsNear site.now (touch.now ∷ []) me) edges.old edges.new) }
    ensures once { OnOk result
        (HaveOwnHandles site.now
        → AddsOnce (IsNear site.now (touch.now ∷ []) me) edges.old edges.new) }
{
    if touch.site != here {
        return Ok(());
    }
    let item = accesses_at(site, touch.item);
    if exceeds(touch, item.writers) {
        return Err(EdgeFault::SeenTooNew);
    }
    let Ok(()) = add_of_read(edges, touch, &item, me) else {
        return Err(EdgeFault::Memory);
    };
    let Ok(()) = add_of_change(edges, touch, &item, me) else {
        return Err(EdgeFault::Memory);
    };
    Ok(())
}

// Adds the edges of a touched item's read, if there is one. The item has these accesses.
fn add_of_read(
    edges: &mut EdgeList,
    touch: &Touch,
    item: &Accesses<'_>,
    me: Handle,
) -> Result<(), AllocError>
    requires ordered { AreOrdered item.now.writers.now item.now.readers.now }
    requires seen { (seen : ASeen) → touch.now.seen ≡ Some seen
        → seen.version ≤ length item.now.writers.now }
    ensures all { OnOk result ((s : SiteState)
        → AreAccesses s touch.now.item item.now.writers.now item.now.readers.now
        → AddsAll (IsOfRead s touch.now me) edges.old edges.new) }
    ensures once { OnOk result ((s : SiteState)
        → AreAccesses s touch.now.item item.now.writers.now item.now.readers.now
        → WritersApart item.now.writers.now
        → AddsOnce (IsOfRead s touch.now me) edges.old edges.new) }
{
    let Some(seen) = touch.seen else {
        return Ok(());
    };
    let before = in_front(item.writers, item.readers, seen.version);
    add_before(edges, touch, Kind::Wr, before, me)?;
    let after = behind(item.writers, item.readers, seen.version);
    add_after(edges, touch, after, me)
}

// Adds the edges of a touched item's change, if there is one. The item has these accesses.
fn add_of_change(
    edges: &mut EdgeList,
    touch: &Touch,
    item: &Accesses<'_>,
    me: Handle,
) -> Result<(), AllocError>
    requires ordered { AreOrdered item.now.writers.now item.now.readers.now }
    requires written { IsVersionWritten item.now.writers.now item.now.version_written }
    ensures all { OnOk result ((s : SiteState)
        → AreAccesses s touch.now.item item.now.writers.now item.now.readers.now
        → AddsAll (IsOfChange s touch.now me) edges.old edges.new) }
    ensures once { OnOk result ((s : SiteState)
        → AreAccesses s touch.now.item item.now.writers.now item.now.readers.now
        → WritersApart item.now.writers.now → ReadersApart item.now.readers.now
        → AddsOnce (IsOfChange s touch.now me) edges.old edges.new) }
{
    let Some(change) = touch.change else {
        return Ok(());
    };
    let before = changes_before(item, change);
    add_before(edges, touch, Kind::Ww, before, me)?;
    let readers = reads_before(item, change);
    add_readers(edges, touch, readers, me)
}

// Adds the edges of this kind from writers.
#[inline(always)]
fn add_before(
    edges: &mut EdgeList,
    touch: &Touch,
    kind: Kind,
    writers: &[Writer],
    me: Handle,
) -> Result<(), AllocError>
    ensures all { OnOk result
        (AddsAll (λ e.
        Any (λ w. FromWriter touch.now kind me w e) writers.now) edges.old edges.new) }
    ensures once { OnOk result
        (WritersApart writers.now
        → AddsOnce (λ e.
        Any (λ w. FromWriter touch.now kind me w e) writers.now) edges.old edges.new) }
{
    for w in writers {
        add(edges, touch, kind, w.handle, me)?;
    }
    Ok(())
}

// Adds the edges from a read to writers.
fn add_after(
    edges: &mut EdgeList,
    touch: &Touch,
    writers: &[Writer],
    me: Handle,
) -> Result<(), AllocError>
    ensures all { OnOk result
        (AddsAll (λ e. Any (λ w. ToWriter touch.now me w e) writers.now) edges.old edges.new) }
    ensures once { OnOk result
        (WritersApart writers.now
        → AddsOnce (λ e.
        Any (λ w. ToWriter touch.now me w e) writers.now) edges.old edges.new) }
{
    for w in writers {
        add(edges, touch, Kind::Rw, me, w.handle)?;
    }
    Ok(())
}

// Adds the edges to a change from readers.
fn add_readers(
    edges: &mut EdgeList,
    touch: &Touch,
    readers: &[Reader],
    me: Handle,
) -> Result<(), AllocError>
    ensures all { OnOk result
        (AddsAll (λ e. Any (λ r. FromReader touch.now me r e) readers.now) edges.old edges.new) }
    ensures once { OnOk result
        (ReadersApart readers.now
        → AddsOnce (λ e.
        Any (λ r. FromReader touch.now me r e) readers.now) edges.old edges.new) }
{
    for r in readers {
        add(edges, touch, Kind::Rw, r.handle, me)?;
    }
    Ok(())
}

// Adds an edge on the touched item, if it doesn't lead back to where it comes from.
fn add(
    edges: &mut EdgeList,
    touch: &Touch,
    kind: Kind,
    from: Handle,
    to: Handle,
) -> Result<(), AllocError>
    ensures all { OnOk result (AddsAll (IsBetween touch.now kind from to) edges.old edges.new) }
    ensures once { OnOk result (AddsOnce (IsBetween touch.now kind from to) edges.old edges.new) }
{
    if from == to {
        return Ok(());
    }
    let label = Label {
        site: touch.site,
        item: touch.item,
        kind,
    };
    edges.push(Edge { from, to, label })
}
