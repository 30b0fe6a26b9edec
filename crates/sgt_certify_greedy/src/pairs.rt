//! Pairs of entries of a log: two ends, or two in conflict.

ghost use Rattle.std.specs.Prelude.{◌≡◌, ◌↔◌, ◌⊎◌, ℕ, ◌<◌, IsTrue, IfOk, IfSome, IfNone, OnOk, All, Contains, Some, length, slice_get};
ghost use Rattle.sgt_names.specs.Name.{Name};
ghost use Rattle.sgt_names.specs.Entry.{Clash};
ghost use Rattle.sgt_names.specs.declared.entry.Kind.{Kind as AnyKind};
ghost use Rattle.sgt_bundle.specs.declared.bundle.SiteLog.{SiteLog as Log};
ghost use Rattle.sgt_certify_greedy.specs.Pairs.{ArePaired, ArePairsOf, HasPairsTo, IsPair};
ghost use Rattle.sgt_certify_greedy.specs.declared.pairs.Pair.{Pair as Found};

use sgt_bundle::SiteLog;
use sgt_names::{Entry, Item, Kind, Tx};
use std::alloc::{AllocError, Global};

/// Which entries of a log make a pair.
#[derive(Clone, Copy)]
pub enum Rule {
    /// Two ends.
    Ends,
    /// Two that are in conflict.
    Conflicts,
}

/// Two entries of a log, the first in front of the second, and whose they are. Sites and places are counted from 0.
#[derive(Clone, Copy)]
pub struct Pair {
    pub from: Tx,
    pub to: Tx,
    pub site: usize,
    pub first: usize,
    pub second: usize,
}

/// A conflict: its kind and its item.
#[derive(Clone, Copy)]
pub struct Clashing {
    pub kind: Kind,
    pub item: Item,
}

/// The conflict of two entries.
pub fn conflict_of(first: &Entry, second: &Entry) -> Option<Clashing>
    ensures some { IfSome result (λ c. Clash c.kind c.item first.now second.now) }
    ensures none { IfNone result
        ((kind : AnyKind) (x : Name) → Clash kind x first.now second.now → ⊥) }
{
    let item = first.item()?;
    let kind = first.clash_on(&item, second)?;
    Some(Clashing { kind, item })
}

/// Whether the entries make a pair.
fn are_paired(rule: Rule, first: &Entry, second: &Entry) -> bool
    ensures { IsTrue result ↔ ArePaired rule first.now second.now }
{
    match rule {
        Rule::Ends => first.is_end() && second.is_end(),
        Rule::Conflicts => first.tx() != second.tx() && conflict_of(first, second).is_some(),
    }
}

/// Adds the pair, if its entries make one.
fn note_pair(
    found: &mut Vec<Pair>,
    rule: Rule,
    pair: Pair,
    first: &Entry,
    second: &Entry,
) -> Result<(), AllocError>
    ensures kept { OnOk result
        ((p : Found) → Contains found.old.items p → Contains found.new.items p) }
    ensures has { OnOk result
        (ArePaired rule first.now second.now → Contains found.new.items pair) }
    ensures only { OnOk result ((p : Found) → Contains found.new.items p
        → Contains found.old.items p ⊎ (ArePaired rule first.now second.now × (pair ≡ p))) }
{
    if !are_paired(rule, first, second) {
        return Ok(());
    }
    found.push(pair)?;
    Ok(())
}

/// Adds the pairs of a log of which the second entry is at this place.
fn add_pairs_to(
    found: &mut Vec<Pair>,
    rule: Rule,
    sites: &[SiteLog],
    site: usize,
    second: usize,
) -> Result<(), AllocError>
    requires { (log : Log) × (slice_get sites.now site ≡ Some log) × (second < length log.entries) }
    ensures kept { OnOk result
        ((pair : Found) → Contains found.old.items pair → Contains found.new.items pair) }
    ensures only { OnOk result
        (All (IsPair rule sites.now) found.old.items
        → All (IsPair rule sites.now) found.new.items) }
    ensures has { OnOk result (HasPairsTo rule sites.now found.new.items site second) }
{
    let entries = sites[site].entries.as_slice();
    let last = entries[second];
    for first in 0..second {
        let before = entries[first];
        let from = before.tx();
        let to = last.tx();
        let pair = Pair {
            from,
            to,
            site,
            first,
            second,
        };
        note_pair(found, rule, pair, &before, &last)?;
    }
    Ok(())
}

/// Adds the pairs of the log of this site.
fn add_pairs_in(
    found: &mut Vec<Pair>,
    rule: Rule,
    sites: &[SiteLog],
    site: usize,
) -> Result<(), AllocError>
    requires { site < length sites.now }
    ensures kept { OnOk result
        ((pair : Found) → Contains found.old.items pair → Contains found.new.items pair) }
    ensures only { OnOk result
        (All (IsPair rule sites.now) found.old.items
        → All (IsPair rule sites.now) found.new.items) }
    ensures has { OnOk result ((q : ℕ) → HasPairsTo rule sites.now found.new.items site q) }
{
    let count = sites[site].entries.as_slice().len();
    for second in 0..count {
        add_pairs_to(found, rule, sites, site, second)?;
    }
    Ok(())
}

/// The pairs of all logs. Err: memory ran out.
pub fn pairs_of(alloc: Global, sites: &[SiteLog], rule: Rule) -> Result<Vec<Pair>, AllocError>
    ensures { IfOk result (λ found. ArePairsOf rule sites.now found.items) }
{
    let mut found = Vec::new(alloc);
    for site in 0..sites.len() {
        add_pairs_in(&mut found, rule, sites, site)?;
    }
    Ok(found)
}
