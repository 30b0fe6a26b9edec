//! The versions of a site against the certifier's history, and the gathering of edges that asks for them.

ghost use Rattle.std.specs.Prelude.{◌≡◌, ◌↔◌, Some, All, IsTrue, IfOk, IfErr, IfSome, OnOk, OnErr, length, slice_get};
ghost use Rattle.std.specs.Ordering.{nat_cmp};
ghost use Rattle.std.specs.Cmp.Lexicographic.{slice_cmp};
ghost use Rattle.sgt_names.specs.Draft.{at_site};
ghost use Rattle.sgt_names.specs.Ordered.{IsRisingBy};
ghost use Rattle.sgt_site.specs.State.{version_at};
ghost use Rattle.sgt_site.specs.Refused.{MayPledge};
ghost use Rattle.sgt_edges.specs.Edges.{IsGiven, StandsForAll};
ghost use Rattle.sgt_certifier.specs.Row.{AreRising};
ghost use Rattle.sgt_service_agreement.specs.Agreed.{AgreesOn, VersionsAgree, RefusesAgreed};
ghost use Rattle.sgt_service_agreement.specs.private.Counting.{AreCountedTo, Meets};

use crate::fault::ServiceFault;
use sgt_arena::Handle;
use sgt_certifier::{Certifier, ItemCount};
use sgt_edges::EdgeList;
use sgt_names::{Draft, Holding, Item, Tx};
use sgt_site::Site;
use sgt_step::gather;
use std::alloc::Global;

/// Whether the version of each item of the site is the number of its installs there that the certifier's history
/// counts. It takes no memory and waits for nobody.
///
/// It goes once over the items of the site and those that were installed there, side by side, and orders no names.
/// Only where a version differs, or an item is counted that isn't at the site, it searches the items and the counts
/// for each item of the site. It goes over neither log nor history.
pub fn agrees(certifier: &Certifier, site: &Site) -> bool
    ensures { IsTrue result ↔ VersionsAgree certifier.now.history site.now }
{
    let counts = certifier.counts_at(site.number());
    if are_counted(counts, site.items(), site.versions()) {
        return true;
    }
    all_agree(certifier, site, site.items())
}

// Whether each of these versions is the count of the item at its place, and all items that are counted were met there.
fn are_counted(counts: &[ItemCount], items: &[Holding], versions: &[u64]) -> bool
    requires counts { AreRising counts.now }
    requires items { IsRisingBy (λ h. h.item) (slice_cmp nat_cmp) items.now }
    requires as_many { length versions.now ≡ length items.now }
    ensures { IsTrue result → AreCountedTo counts.now items.now versions.now (length items.now) }
{
    let mut met = 0;
    for place in 0..items.len() {
        let Some(next) = met_with(counts, met, items[place].item, versions[place]) else {
            return false;
        };
        met = next;
    }
    met == counts.len()
}

// How many of the counted items are met with this one, where those before it met so many. Its version is the next
// count, if it is the next item, or else 0.
fn met_with(counts: &[ItemCount], met: usize, item: Item, version: u64) -> Option<usize>
    ensures { IfSome result (Meets counts.now met item version) }
{
    if is_next(counts, met, item, version) {
        return Some(met + 1);
    }
    if version == 0 {
        return Some(met);
    }
    None
}

// Whether the item is the next one, with this count.
fn is_next(counts: &[ItemCount], met: usize, item: Item, count: u64) -> bool
    ensures { IsTrue result
        → slice_get counts.now met ≡ Some (record { item = item; count = count }) }
{
    match counts.get(met) {
        Some(counted) => is_count(counted, item, count),
        None => false,
    }
}

fn is_count(counted: &ItemCount, item: Item, count: u64) -> bool
    ensures { IsTrue result ↔ (counted.now ≡ record { item = item; count = count }) }
{
    counted.item == item && counted.count == count
}

// Whether the version of each of these items is the number of its installs.
fn all_agree(certifier: &Certifier, site: &Site, items: &[Holding]) -> bool
    ensures { IsTrue result ↔ All (λ h. AgreesOn certifier.now.history site.now h.item) items.now }
{
    for holding in items {
        if !agrees_on(certifier, site, holding.item) {
            return false;
        }
    }
    true
}

fn agrees_on(certifier: &Certifier, site: &Site, item: Item) -> bool
    ensures { IsTrue result ↔ AgreesOn certifier.now.history site.now item }
{
    version_of(site, item) == certifier.counted(site.number(), item)
}

// The version of the item. One that isn't at the site has none.
fn version_of(site: &Site, item: Item) -> u64
    ensures { result ≡ version_at site.now.entries item }
{
    match site.writers(item) {
        Ok(writers) => writers.len() as u64,
        Err(_) => 0,
    }
}

/// One gathering of edges for a commit, under the locks of the certifier and of the site: the versions are asked for,
/// then the pledge of the transaction is taken, and the edges of its draft to this node are gathered. It waits for
/// nobody.
///
/// The first that holds is answered, and leaves the site as it was:
/// - V7 with the site's number: `agrees` is false.
/// - V4 with S1, S3, S7 or S8: the site refuses the pledge.
/// - V3: there was no memory.
///
/// The cost is that of `agrees` and `gather`.
pub fn gather_agreed(
    alloc: Global,
    certifier: &Certifier,
    site: &mut Site,
    tx: Tx,
    draft: &Draft,
    me: Handle,
) -> Result<EdgeList, ServiceFault>
    ensures agreed { OnOk result (VersionsAgree certifier.now.history site.old) }
    ensures allowed { OnOk result (MayPledge site.old tx draft.now.touched) }
    ensures differs { (VersionsAgree certifier.now.history site.old → ⊥)
        → result ≡ Err (ServiceFault.NotPledged site.old.number) }
    ensures pledged { OnOk result (site.new ≡ record site.old {
      pledge = Some (record { tx = tx; part = at_site site.old.number draft.now.touched });
    }) }
    ensures given { IfOk result (λ edges. All (IsGiven site.new draft.now.touched me) edges) }
    ensures stands { IfOk result (StandsForAll site.new draft.now.touched me) }
    ensures err { OnErr result (site.new ≡ site.old) }
    ensures refused { IfErr result
        (RefusesAgreed certifier.now.history site.old tx draft.now.touched) }
{
    let agreed = agrees(certifier, site);
    if !agreed {
        return Err(ServiceFault::NotPledged(site.number()));
    }
    let mut edges = EdgeList::new(alloc);
    gather(site, tx, me, draft, &mut edges)?;
    Ok(edges)
}
