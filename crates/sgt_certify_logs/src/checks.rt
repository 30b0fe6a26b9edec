//! Cycles that show that logs have no certificate, checked against the logs.

ghost use Rattle.std.specs.Prelude.{◌≡◌, ◌≢◌, ◌↔◌, ℕ, IsTrue, Some, slice_get};
ghost use Rattle.sgt_names.specs.Entry.{tx_of, Clash, IsEnd};
ghost use Rattle.sgt_names.specs.declared.entry.Entry.{Entry as Found};
ghost use Rattle.sgt_names.specs.declared.entry.Entry.TheVariants.{Commit as Committed};
ghost use Rattle.sgt_certify_logs.specs.Steps.{AreCommittedBy, HasConflict, IsConflictCycle, IsConflictStep, IsEndCycle, IsEndStep, StandsAt};

use sgt_bundle::SiteLog;
use sgt_names::{Entry, Item, Kind, Tx};

/// A place in a log: the site's, and the entry's, both counted from 0.
#[derive(Clone, Copy)]
pub struct Spot {
    pub site: usize,
    pub entry: usize,
}

/// A step of a cycle of ends: an end of the first transaction at this spot, and behind it in the same log one of the
/// second.
#[derive(Clone, Copy)]
pub struct EndStep {
    pub from: Tx,
    pub to: Tx,
    pub first: Spot,
    pub second: usize,
}

/// A step of a cycle of conflicts: an entry of the first transaction at this spot, and behind it in the same log one
/// of the second in conflict with it; and where a log commits each of the two.
#[derive(Clone, Copy)]
pub struct ConflictStep {
    pub from: Tx,
    pub to: Tx,
    pub kind: Kind,
    pub item: Item,
    pub first: Spot,
    pub second: usize,
    pub from_end: Spot,
    pub to_end: Spot,
}

/// The entry that stands there, if one does.
fn entry_at(sites: &[SiteLog], site: usize, place: usize) -> Option<Entry>
    ensures { (e : Found) → (result ≡ Some e) ↔ StandsAt sites.now site place e }
{
    let log = sites.get(site)?;
    log.entries.as_slice().get(place).copied()
}

fn is_end_of(entry: &Entry, tx: Tx) -> bool
    ensures { IsTrue result ↔ IsEnd entry.now × (tx_of entry.now ≡ tx) }
{
    entry.is_end() && entry.tx() == tx
}

/// Whether the entries are ends of the step's two transactions.
fn are_ends_of(step: &EndStep, first: &Entry, second: &Entry) -> bool
    ensures { IsTrue result ↔ (IsEnd first.now × (tx_of first.now ≡ step.now.from))
        × (IsEnd second.now × (tx_of second.now ≡ step.now.to)) }
{
    is_end_of(first, step.from) && is_end_of(second, step.to)
}

/// Whether the logs have the ends of the step.
fn is_end_step(sites: &[SiteLog], step: &EndStep) -> bool
    ensures { IsTrue result ↔ IsEndStep sites.now step.now }
{
    if step.second <= step.first.entry {
        return false;
    }
    let Some(first) = entry_at(sites, step.first.site, step.first.entry) else {
        return false;
    };
    let Some(second) = entry_at(sites, step.first.site, step.second) else {
        return false;
    };
    are_ends_of(step, &first, &second)
}

/// Whether the step goes on from this transaction, and the logs have it.
fn goes_on(sites: &[SiteLog], here: Tx, step: &EndStep) -> bool
    ensures { IsTrue result ↔ (step.now.from ≡ here) × IsEndStep sites.now step.now }
{
    step.from == here && is_end_step(sites, step)
}

/// Whether the steps are a cycle of ends that the logs have.
pub fn is_end_cycle(sites: &[SiteLog], steps: &[EndStep]) -> bool
    ensures { IsTrue result ↔ IsEndCycle sites.now steps.now }
{
    let Some(first) = steps.first() else {
        return false;
    };
    let start = first.from;
    let mut here = start;
    for step in steps {
        if !goes_on(sites, here, step) {
            return false;
        }
        here = step.to;
    }
    here == start
}

fn is_commit_of(entry: &Entry, tx: Tx) -> bool
    ensures { IsTrue result ↔ (entry.now ≡ Committed tx) }
{
    *entry == Entry::Commit { tx }
}

/// Whether a log commits the transaction at this spot.
fn is_commit_at(sites: &[SiteLog], spot: Spot, tx: Tx) -> bool
    ensures { IsTrue result ↔ StandsAt sites.now spot.site spot.entry (Committed tx) }
{
    match entry_at(sites, spot.site, spot.entry) {
        Some(found) => is_commit_of(&found, tx),
        None => false,
    }
}

/// Whether the logs commit both transactions of the step.
fn are_committed(sites: &[SiteLog], step: &ConflictStep) -> bool
    ensures { IsTrue result ↔ AreCommittedBy sites.now step.now }
{
    is_commit_at(sites, step.from_end, step.from) && is_commit_at(sites, step.to_end, step.to)
}

/// Whether the entries are of two transactions, those of the step.
fn are_of(step: &ConflictStep, first: &Entry, second: &Entry) -> bool
    ensures { IsTrue result ↔ (tx_of first.now ≡ step.now.from) × (tx_of second.now ≡ step.now.to)
        × (step.now.from ≢ step.now.to) }
{
    first.tx() == step.from && second.tx() == step.to && step.from != step.to
}

/// Whether they are in the conflict that it tells.
fn are_in_conflict(step: &ConflictStep, first: &Entry, second: &Entry) -> bool
    ensures { IsTrue result
        ↔ ((tx_of first.now ≡ step.now.from) × (tx_of second.now ≡ step.now.to)
        × (step.now.from ≢ step.now.to))
        × Clash step.now.kind step.now.item first.now second.now }
{
    are_of(step, first, second) && first.clashes(step.kind, &step.item, second)
}

/// Whether the logs have the conflict of the step.
fn has_conflict(sites: &[SiteLog], step: &ConflictStep) -> bool
    ensures { IsTrue result ↔ HasConflict sites.now step.now }
{
    if step.second <= step.first.entry {
        return false;
    }
    let Some(first) = entry_at(sites, step.first.site, step.first.entry) else {
        return false;
    };
    let Some(second) = entry_at(sites, step.first.site, step.second) else {
        return false;
    };
    are_in_conflict(step, &first, &second)
}

/// Whether the logs have the conflict of the step, between two committed transactions.
fn is_conflict_step(sites: &[SiteLog], step: &ConflictStep) -> bool
    ensures { IsTrue result ↔ IsConflictStep sites.now step.now }
{
    has_conflict(sites, step) && are_committed(sites, step)
}

/// Whether the step goes on from this transaction, and the logs have it.
fn leads_on(sites: &[SiteLog], here: Tx, step: &ConflictStep) -> bool
    ensures { IsTrue result ↔ (step.now.from ≡ here) × IsConflictStep sites.now step.now }
{
    step.from == here && is_conflict_step(sites, step)
}

/// Whether the steps are a cycle of conflicts of committed transactions that the logs have.
pub fn is_conflict_cycle(sites: &[SiteLog], steps: &[ConflictStep]) -> bool
    ensures { IsTrue result ↔ IsConflictCycle sites.now steps.now }
{
    let Some(first) = steps.first() else {
        return false;
    };
    let start = first.from;
    let mut here = start;
    for step in steps {
        if !leads_on(sites, here, step) {
            return false;
        }
        here = step.to;
    }
    here == start
}
