//! Whether the logs of the sites agree with the history.

ghost use Rattle.std.specs.Prelude.{◌≡◌, ◌↔◌, ◌≤◌, ◌<◌, ◌+◌, ◌++◌, ℕ, List, IsTrue, Contains, IfOk, OnErr, MatchOption, length, slice_get, Some, false};
ghost use Rattle.std.specs.Ordering.{nat_cmp};
ghost use Rattle.std.specs.Cmp.Lexicographic.{slice_cmp};
ghost use Rattle.sgt_names.specs.Limits.{max_sites};
ghost use Rattle.sgt_names.specs.Ordered.{IsRisingBy};
ghost use Rattle.sgt_names.specs.declared.entry.Entry.{Entry as AnEntry};
ghost use Rattle.sgt_service_settle.specs.Settled.{AreCountedAt, IsCounted};
ghost use Rattle.sgt_service_settle.specs.private.Index.{IsPaired};
ghost use Rattle.sgt_service_settle.specs.private.Joined.{AreUnder};
ghost use Rattle.sgt_service_settle.specs.private.Acts.{AreKnown, AreActs, AreByActor};
ghost use Rattle.sgt_service_settle.specs.private.Sites.{AreLogged, AreConflictsHanded, IsSiteFit, IsFitAt};

use crate::acts::{Act, acts_of};
use crate::carried::are_carried;
use crate::counts::is_counted;
use crate::course::{Course, Marks, no_course};
use crate::deeds::tracks_of;
use crate::handed::Handed;
use crate::index::{Index, edges_at};
use crate::joined::{are_joined, no_marks};
use crate::logged::is_logged;
use crate::places::{Places, are_shown, no_places};
use crate::points::{Nears, no_nears};
use crate::ties::{Ties, ties_at};
use sgt_names::{Entry, Holding, SiteNo, Tx};
use sgt_service_agreement::EntryCounts;
use sgt_site::Site;
use std::alloc::{AllocError, Global};

/// Tables by the numbers of transactions, which each site writes anew.
#[derive(Drop)]
pub struct Tables {
    pub marks: Marks,
    pub places: Places,
    pub course: Course,
}

/// Tables with nothing in them, for so many transactions.
pub(crate) fn no_tables(alloc: Global, all: usize) -> Result<Tables, AllocError>
    ensures { IfOk result (λ tables. AreUnder tables.marks (tables.marks.step + 1)) }
{
    Ok(Tables {
        marks: no_marks(alloc, all)?,
        places: no_places(alloc, all)?,
        course: no_course(alloc)?,
    })
}

// Whether each of these edges is a conflict of the log.
fn are_logged(
    windows: &[Vec<Tx>],
    items: &[Holding],
    acts: &[Vec<Act>],
    near: &mut Nears,
    edges: &[Handed],
) -> bool
    requires rising { IsRisingBy (λ h. h.item) (slice_cmp nat_cmp) items.now }
    requires long { length acts.now ≡ length items.now }
    requires near { length near.old.rows.items ≡ length items.now }
    requires sorted { AreByActor acts.now }
    ensures { (log : List AnEntry) → AreKnown items.now log → AreActs items.now log acts.now
        → IsTrue result ↔ AreLogged windows.now edges.now log }
{
    for one in edges {
        if !is_logged(windows, items, acts, near, &one.edge) {
            return false;
        }
    }
    true
}

// Whether these edges at the site are conflicts of the log. Sorts what was done to each item.
fn are_told(
    alloc: Global,
    windows: &[Vec<Tx>],
    items: &[Holding],
    log: &[Entry],
    edges: &[Handed],
) -> Result<bool, AllocError>
    requires rising { IsRisingBy (λ h. h.item) (slice_cmp nat_cmp) items.now }
    requires known { AreKnown items.now log.now }
    ensures { IfOk result (λ yes. IsTrue yes ↔ AreLogged windows.now edges.now log.now) }
{
    if edges.is_empty() {
        return Ok(true);
    }
    let acts = acts_of(alloc, items, log)?;
    let mut near = no_nears(alloc, items.len())?;
    Ok(are_logged(windows, items, acts.as_slice(), &mut near, edges))
}

// The edges that are not shown to be conflicts.
fn unshown<'a>(shown: bool, edges: &'a [Handed], ties: &'a Ties) -> &'a [Handed]
    ensures yes { IsTrue shown → result.now ≡ ties.now.others.items }
    ensures no { shown ≡ false → result.now ≡ edges.now }
{
    if shown { ties.others.as_slice() } else { edges }
}

// Whether the conflicts of the site's log are those that the decisions were handed.
fn are_conflicts_handed(
    alloc: Global,
    index: &Index<'_>,
    tables: &mut Tables,
    site: SiteNo,
    items: &[Holding],
    log: &[Entry],
) -> Result<bool, AllocError>
    requires paired { IsPaired index.now }
    requires there { site < length index.now.sited.items }
    requires under { AreUnder tables.old.marks (tables.old.marks.step + 1) }
    requires rising { IsRisingBy (λ h. h.item) (slice_cmp nat_cmp) items.now }
    requires known { AreKnown items.now log.now }
    ensures ok { IfOk result (λ yes. IsTrue yes ↔ AreConflictsHanded index.now site log.now) }
    ensures under { AreUnder tables.new.marks (tables.new.marks.step + 1) }
{
    let tracks = tracks_of(alloc, index.commits.as_slice(), site, items, log)?;
    let ties = ties_at(alloc, index, site, items)?;
    let deeds = tracks.as_slice();
    let rows = ties.rows.as_slice();
    let shown = are_shown(&mut tables.places, log, deeds, rows);
    let edges = unshown(shown, edges_at(index, site), &ties);
    let told = are_told(alloc, index.windows.as_slice(), items, log, edges)?;
    if !told {
        return Ok(false);
    }
    let joined = are_joined(alloc, &mut tables.marks, &mut tables.course, deeds, rows)?;
    if joined {
        return Ok(true);
    }
    let carried = are_carried(alloc, index, site, log)?;
    Ok(carried)
}

// Whether it is the site of this number, and its log is fit.
fn is_site_fit(
    alloc: Global,
    index: &Index<'_>,
    tables: &mut Tables,
    site: SiteNo,
    counts: EntryCounts,
    held: &Site,
) -> Result<bool, AllocError>
    requires paired { IsPaired index.now }
    requires there { site < length index.now.sited.items }
    requires under { AreUnder tables.old.marks (tables.old.marks.step + 1) }
    ensures ok { IfOk result (λ yes. IsTrue yes ↔ IsSiteFit index.now site counts held.now) }
    ensures err { OnErr result (IsCounted site counts held.now) }
    ensures under { AreUnder tables.new.marks (tables.new.marks.step + 1) }
{
    if !is_counted(held, site.number(), counts) {
        return Ok(false);
    }
    let log = held.log().to_vec(alloc)?;
    are_conflicts_handed(alloc, index, tables, site, held.items(), log.as_slice())
}

/// The least of the places that there are at which isn't the site of that number, or whose log isn't fit.
pub(crate) fn first_unfit(
    alloc: Global,
    index: &Index<'_>,
    tables: &mut Tables,
    sites: &[Site],
    counts: &[EntryCounts],
) -> Result<Option<SiteNo>, AllocError>
    requires paired { IsPaired index.now }
    requires there { length index.now.sited.items ≡ length sites.now }
    requires under { AreUnder tables.old.marks (tables.old.marks.step + 1) }
    requires few { length sites.now ≤ max_sites }
    requires counts { length counts.now ≡ length sites.now }
    ensures ok { IfOk result (λ found. MatchOption found
        ((k : ℕ) → k < length sites.now → IsFitAt index.now sites.now counts.now k)
        (λ site. (site < length sites.now) × (IsFitAt index.now sites.now counts.now site → ⊥)
        × ((k : ℕ) → k < site → IsFitAt index.now sites.now counts.now k))) }
    ensures err { OnErr result
        ((site : ℕ) × (site < length sites.now) × AreCountedAt sites.now counts.now site
        × ((k : ℕ) → k < site → IsFitAt index.now sites.now counts.now k)) }
{
    for k in 0..sites.len() {
        let Ok(site) = SiteNo::new(k as u64) else {
            unreachable!();
        };
        let fit = is_site_fit(alloc, index, tables, site, counts[k], &sites[k])?;
        if !fit {
            return Ok(Some(site));
        }
    }
    Ok(None)
}
