//! The edges at a site by their items.

ghost use Rattle.std.specs.Prelude.{◌≡◌, ◌<◌, length, IfOk, MatchOption};
ghost use Rattle.std.specs.Ordering.{nat_cmp};
ghost use Rattle.std.specs.Cmp.Lexicographic.{slice_cmp};
ghost use Rattle.sgt_names.specs.Ordered.{IsRisingBy};
ghost use Rattle.sgt_service_settle.specs.private.Index.{IsIndexed, IsPaired};
ghost use Rattle.sgt_service_settle.specs.private.Joined.{AreItemLinks};
ghost use Rattle.sgt_service_settle.specs.private.Places.{AreTied, IsAdded, IsTieAdded};

use crate::acts::place_near;
use crate::handed::Handed;
use crate::index::{Index, edges_at, link_of};
use crate::link::Link;
use crate::rows::{no_rows, push_at, share};
use sgt_names::{Holding, SiteNo};
use std::alloc::{AllocError, Global};

/// The edges at a site: those between committed transactions, at the place of their item, and the others.
#[derive(Drop)]
pub struct Ties {
    pub rows: Vec<Vec<Link>>,
    pub others: Vec<Handed>,
}

// Adds the edge at the place of its item, and answers that place. None where the item isn't there.
fn add_link(
    items: &[Holding],
    rows: &mut [Vec<Link>],
    near: usize,
    link: &Link,
) -> Result<Option<usize>, AllocError>
    requires rising { IsRisingBy (λ h. h.item) (slice_cmp nat_cmp) items.now }
    requires long { length rows.old ≡ length items.now }
    ensures { IfOk result (λ placed. MatchOption placed (rows.new ≡ rows.old)
        (IsAdded items.now link.now rows.old rows.new)) }
{
    let Some(at) = place_near(items, near, link.label.item) else {
        return Ok(None);
    };
    push_at(rows, at, *link)?;
    Ok(Some(at))
}

// The same of an edge whose ends are committed. None also where they aren't.
fn add_tie(
    index: &Index<'_>,
    items: &[Holding],
    rows: &mut [Vec<Link>],
    near: usize,
    one: &Handed,
) -> Result<Option<usize>, AllocError>
    requires rising { IsRisingBy (λ h. h.item) (slice_cmp nat_cmp) items.now }
    requires long { length rows.old ≡ length items.now }
    ensures { IfOk result (λ placed. MatchOption placed (rows.new ≡ rows.old)
        (IsTieAdded index.now items.now one.now rows.old rows.new)) }
{
    match link_of(index.windows.as_slice(), index.commits.as_slice(), one) {
        Some(link) => add_link(items, rows, near, &link),
        None => Ok(None),
    }
}

/// The edges at the site.
pub(crate) fn ties_at(
    alloc: Global,
    index: &Index<'_>,
    site: SiteNo,
    items: &[Holding],
) -> Result<Ties, AllocError>
    requires paired { IsPaired index.now }
    requires there { site < length index.now.sited.items }
    requires rising { IsRisingBy (λ h. h.item) (slice_cmp nat_cmp) items.now }
    ensures long { IfOk result (λ ties. length ties.rows.items ≡ length items.now) }
    ensures links { IfOk result
        (λ ties. AreItemLinks (IsIndexed index.now) site items.now ties.rows.items) }
    ensures tied { IfOk result
        (λ ties. AreTied index.now site ties.rows.items ties.others.items) }
{
    let edges = edges_at(index, site);
    let mut rows = no_rows(alloc, items.len(), share(edges.len(), items.len()))?;
    let mut others = Vec::new(alloc);
    let mut near = 0;
    for one in edges {
        let placed = add_tie(index, items, rows.as_mut_slice(), near, one)?;
        match placed {
            Some(at) => near = at,
            None => others.push(*one)?,
        }
    }
    Ok(Ties { rows, others })
}
