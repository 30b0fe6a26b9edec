//! Whether a run is settled.

ghost use Rattle.std.specs.Prelude.{◌≡◌, ◌≤◌, ◌<◌, ℕ, All, IfOk, IfErr, OnOk, OnErr, MatchOption, length, slice_get};
ghost use Rattle.sgt_names.specs.Limits.{max_sites};
ghost use Rattle.sgt_site.specs.State.{IsSite};
ghost use Rattle.sgt_service_settle.specs.Settled.{AreCountedAt, AreKept, IsSettled, IsSiteSettled};
ghost use Rattle.sgt_service_settle.specs.Fault.{IsUnsettled};

use crate::begins::check_begins;
use crate::beyond::first_beyond;
use crate::counts::has_first_counts;
use crate::index::index_of;
use crate::sites::{first_unfit, no_tables};
use crate::tickets::check_tickets;
use crate::versions::first_uncounted;
use sgt_certifier::Certifier;
use sgt_names::SiteNo;
use sgt_service_agreement::{EntryCounts, ServiceFault};
use sgt_site::Site;
use sgt_workers::Done;
use std::alloc::{AllocError, Global};

// The least site that doesn't agree with the history. Where there was no memory, some site that its number and its
// counts don't tell to differ could not be judged, and no site before it differs.
fn first_differing(
    alloc: Global,
    certifier: &Certifier,
    sites: &[Site],
    counts: &[EntryCounts],
) -> Result<Option<SiteNo>, AllocError>
    requires few { length sites.now ≤ max_sites }
    requires counts { length counts.now ≡ length sites.now }
    ensures ok { IfOk result (λ found. MatchOption found
        ((k : ℕ) → IsSiteSettled certifier.now.history certifier.now.state.rulings counts.now k
        (slice_get sites.now k))
        (λ site. (IsSiteSettled certifier.now.history certifier.now.state.rulings counts.now site
        (slice_get sites.now site) → ⊥)
        × ((k : ℕ) → k < site
        → IsSiteSettled certifier.now.history certifier.now.state.rulings counts.now k
        (slice_get sites.now k)))) }
    ensures err { OnErr result
        ((site : ℕ) × AreCountedAt sites.now counts.now site × ((k : ℕ) → k < site
        → IsSiteSettled certifier.now.history certifier.now.state.rulings counts.now k
        (slice_get sites.now k))) }
{
    let Ok(first) = SiteNo::new(0) else {
        unreachable!();
    };
    if !has_first_counts(sites, counts) {
        return Ok(Some(first));
    }
    let index = index_of(alloc, certifier, sites.len())?;
    let mut tables = no_tables(alloc, index.commits.len())?;
    let unfit = first_unfit(alloc, &index, &mut tables, sites, counts)?;
    if let Some(site) = unfit {
        return Ok(Some(site));
    }
    Ok(first_beyond(certifier.history(), sites.len()))
}

// What each site keeps of itself.
fn know_sites(sites: &[Site])
    ensures { All IsSite sites.now }
{
    for site in sites {
        let _items = site.items();
    }
}

/// Whether a run is settled: its tickets are the decisions of the certifier's history, each once and those of each
/// job in order; at each place is the site of that number, its log has the entries that were counted there, and its
/// conflicts are those that the decisions were handed; each version is the number of installs that the history
/// counts; and as many transactions were begun as there are tickets.
///
/// The first that holds is answered, each with the least number of its kind:
/// - V1: a ticket has no decision of its number, transaction and verdict.
/// - V2: two tickets have one number.
/// - V6: a decision has no ticket.
/// - V8: the tickets of a job don't rise.
/// - V3: a log can't be judged, since there was no memory.
/// - V9: a site, of a place or of an edge that was handed, isn't so; or another one stands at its place.
/// - V10: a version at a site isn't so.
/// - V4 with C4: more transactions were begun than there are tickets, so many more.
///
/// Memory is linear in the history with its edges, in the logs and items of the sites and in the transactions. So is
/// the time where transactions were decided in the order of their operations on each item, and all of them committed.
/// Else the operations on an item are sorted, by decision and by transaction, and edges are looked up among them by
/// binary search. At a site where an operation isn't joined to a neighbour on its item by an edge of its own, all
/// edges are gone over, and each operation costs the site's log and the edges that it reaches.
pub fn check_settled(
    alloc: Global,
    certifier: &Certifier,
    sites: &[Site],
    counts: &[EntryCounts],
    dones: &[Done],
) -> Result<(), ServiceFault>
    requires few { length sites.now ≤ max_sites }
    requires counts { length counts.now ≡ length sites.now }
    ensures ok { OnOk result (IsSettled (record {
      certifier = certifier.now;
      sites = sites.now;
      counts = counts.now;
      dones = dones.now;
    })) }
    ensures err { IfErr result (IsUnsettled (record {
      certifier = certifier.now;
      sites = sites.now;
      counts = counts.now;
      dones = dones.now;
    })) }
    ensures kept { AreKept (record {
      certifier = certifier.now;
      sites = sites.now;
      counts = counts.now;
      dones = dones.now;
    }) }
{
    let history = certifier.history();
    know_sites(sites);
    if let Err(fault) = check_tickets(alloc, history, dones) {
        return Err(fault);
    }
    let differing = first_differing(alloc, certifier, sites, counts)?;
    if let Some(site) = differing {
        return Err(ServiceFault::LogDiffers(site));
    }
    if let Some(site) = first_uncounted(certifier, sites) {
        return Err(ServiceFault::VersionsDiffer(site));
    }
    if let Err(fault) = check_begins(history, dones) {
        return Err(fault);
    }
    Ok(())
}
