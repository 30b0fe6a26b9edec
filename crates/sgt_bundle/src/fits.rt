//! Whether a certificate and logs are those of a bundle.

ghost use Rattle.std.specs.Prelude.{◌≡◌, ◌<◌, ◌↔◌, IsTrue, All, AllPairs};
ghost use Rattle.sgt_names.specs.Log.{names};
ghost use Rattle.sgt_bundle.specs.Parts.{ComesBefore, FitTogether, HasStepsWithin, IsShapedLog};

use crate::bundle::SiteLog;
use crate::certificate::{Certificate, Decision, Step};
use sgt_names::{Holding, Item, MAX_ITEMS, MAX_SITES};

fn comes_before(first: &Item, second: &Item) -> bool
    ensures { IsTrue result ↔ ComesBefore first.now second.now }
{
    first < second
}

/// Whether the names rise.
fn rise(items: &[Holding]) -> bool
    ensures { IsTrue result ↔ AllPairs ComesBefore (names items.now) }
{
    let Some((first, later)) = items.split_first() else {
        return true;
    };
    let mut last = first.item;
    for holding in later {
        if !comes_before(&last, &holding.item) {
            return false;
        }
        last = holding.item;
    }
    true
}

fn is_item(first: &Item, second: &Item) -> bool
    ensures { IsTrue result ↔ (first.now ≡ second.now) }
{
    first == second
}

/// Whether the finals have the names of the items, in the same order.
fn same_names(items: &[Holding], finals: &[Holding]) -> bool
    ensures { IsTrue result ↔ (names finals.now ≡ names items.now) }
{
    if finals.len() != items.len() {
        return false;
    }
    for i in 0..items.len() {
        if !is_item(&finals[i].item, &items[i].item) {
            return false;
        }
    }
    true
}

fn log_fits(log: &SiteLog) -> bool
    ensures { IsTrue result ↔ IsShapedLog log.now }
{
    let items = log.items.as_slice();
    items.len() <= MAX_ITEMS && rise(items) && same_names(items, log.finals.as_slice())
}

fn logs_fit(logs: &[SiteLog]) -> bool
    ensures { IsTrue result ↔ All IsShapedLog logs.now }
{
    logs.iter().all(|log| log_fits(log))
}

fn walk_fits(walk: &[Step], sites: u8) -> bool
    ensures { IsTrue result ↔ All (λ step. step.label.site < sites) walk.now }
{
    walk.iter().all(|step| step.label.site.number() < sites)
}

fn decision_fits(decision: &Decision, sites: u8) -> bool
    ensures { IsTrue result ↔ HasStepsWithin sites decision.now }
{
    match decision {
        Decision::Commit { .. } => true,
        Decision::Refuse { walk, .. } => walk_fits(walk.as_slice(), sites),
        Decision::Withdraw { .. } => true,
    }
}

pub(crate) fn decisions_fit(decisions: &[Decision], sites: u8) -> bool
    ensures { IsTrue result ↔ All (HasStepsWithin sites) decisions.now }
{
    decisions
        .iter()
        .all(|decision| decision_fits(decision, sites))
}

/// Whether these are the parts of a bundle.
pub(crate) fn parts_fit(certificate: &Certificate, sites: &[SiteLog]) -> bool
    ensures { IsTrue result
        ↔ FitTogether (record { certificate = certificate.now; sites = sites.now }) }
{
    let count = certificate.sites;
    1 <= count
        && count <= MAX_SITES
        && sites.len() == count as usize
        && logs_fit(sites)
        && decisions_fit(certificate.decisions(), count)
}
