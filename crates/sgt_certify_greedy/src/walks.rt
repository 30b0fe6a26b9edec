//! Walks of conflicts from a transaction back to it.

ghost use Rattle.std.specs.Prelude.{◌≡◌, ℕ, ◌≤◌, ◌∷◌, ◌++◌, [], length, All, Contains, IfOk, IfSome, IfNone, Some, slice_get};
ghost use Rattle.sgt_names.specs.Limits.{max_sites};
ghost use Rattle.sgt_bundle.specs.Valid.{IsLogged};
ghost use Rattle.sgt_certify_greedy.specs.Pairs.{ArePairsOf, IsPair, Leads};
ghost use Rattle.sgt_certify_greedy.specs.Walks.{HasNoRound, IsPath, IsReached, IsRound};
ghost use Rattle.sgt_certify_greedy.specs.declared.pairs.Rule.TheVariants.{Conflicts};
ghost use Rattle.sgt_certify_greedy.specs.declared.walks.Reached.{Reached as Met};

use crate::pairs::{Pair, conflict_of};
use crate::sets::{is_among, take_out};
use sgt_bundle::{SiteLog, Step};
use sgt_names::{Label, Listed, SiteNo, Tx};
use std::alloc::{AllocError, Global};

/// A transaction, and the walk of conflicts that leads there.
#[derive(Drop)]
pub struct Reached {
    tx: Tx,
    walk: Listed<Step>,
}

/// A pair that leads on from one that is reached.
#[derive(Clone, Copy)]
struct Onward {
    place: usize,
    pair: Pair,
}

/// Where the transaction stands among those reached.
fn reach_of(reached: &[Reached], tx: Tx) -> Option<usize>
    ensures some { IfSome result
        (λ n. (r : Met) × (slice_get reached.now n ≡ Some r) × (r.tx ≡ tx)) }
    ensures none { IfNone result (IsReached reached.now tx → ⊥) }
{
    for place in 0..reached.len() {
        if reached[place].tx == tx {
            return Some(place);
        }
    }
    None
}

/// Where one is reached from which the pair leads to one of these.
fn lead_of(pair: &Pair, reached: &[Reached], wanted: &[Tx]) -> Option<usize>
    ensures some { IfSome result (λ n. Contains wanted.now pair.now.to
        × ((r : Met) × (slice_get reached.now n ≡ Some r) × (r.tx ≡ pair.now.from))) }
    ensures none { IfNone result
        (Contains wanted.now pair.now.to → IsReached reached.now pair.now.from → ⊥) }
{
    if !is_among(wanted, pair.to) {
        return None;
    }
    reach_of(reached, pair.from)
}

/// A pair that leads from one that is reached to one of these.
fn next_pair(pairs: &[Pair], reached: &[Reached], wanted: &[Tx]) -> Option<Onward>
    ensures some { IfSome result (λ o. Contains pairs.now o.pair × Contains wanted.now o.pair.to
        × ((r : Met) × (slice_get reached.now o.place ≡ Some r) × (r.tx ≡ o.pair.from))) }
    ensures none { IfNone result
        ((a b : ℕ) → IsReached reached.now a → Leads pairs.now a b → Contains wanted.now b → ⊥) }
{
    for pair in pairs {
        if let Some(place) = lead_of(pair, reached, wanted) {
            return Some(Onward { place, pair: *pair });
        }
    }
    None
}

/// The step that goes along a pair of entries in conflict.
fn step_of(sites: &[SiteLog], pair: &Pair) -> Step
    requires few { length sites.now ≤ max_sites }
    requires pair { IsPair Conflicts sites.now pair.now }
    ensures to { result.to ≡ pair.now.to }
    ensures logged { IsLogged sites.now pair.now.from result }
{
    let entries = sites[pair.site].entries.as_slice();
    let Some(clashing) = conflict_of(&entries[pair.first], &entries[pair.second]) else {
        unreachable!()
    };
    let Ok(site) = SiteNo::new(pair.site as u64) else {
        unreachable!()
    };
    Step {
        label: Label {
            site,
            item: clashing.item,
            kind: clashing.kind,
        },
        to: pair.to,
    }
}

/// The walk with a step behind it.
fn extended(alloc: Global, walk: &[Step], step: Step) -> Result<Listed<Step>, AllocError>
    ensures { IfOk result (λ w. w ≡ walk.now ++ step ∷ []) }
{
    let mut steps = Vec::from_slice(alloc, walk)?;
    steps.push(step)?;
    Ok(Listed::new(steps))
}

/// All that conflicts lead to from the transaction through these, and it.
fn reach_all(
    alloc: Global,
    sites: &[SiteLog],
    pairs: &[Pair],
    through: &[Tx],
    tx: Tx,
) -> Result<Vec<Reached>, AllocError>
    requires few { length sites.now ≤ max_sites }
    requires pairs { ArePairsOf Conflicts sites.now pairs.now }
    requires other { Contains through.now tx → ⊥ }
    ensures paths { IfOk result (λ reached. All (IsPath sites.now through.now tx) reached.items) }
    ensures start { IfOk result (λ reached. IsReached reached.items tx) }
    ensures closed { IfOk result
        (λ reached. (a b : ℕ) → IsReached reached.items a → Leads pairs.now a b
        → Contains through.now b
        → IsReached reached.items b) }
{
    let none = Vec::new(alloc);
    let walk = Listed::new(none);
    let mut reached = Vec::new(alloc);
    reached.push(Reached { tx, walk })?;
    let mut unreached = Vec::from_slice(alloc, through)?;
    'reaching: while let Some(onward) = next_pair(pairs, reached.as_slice(), unreached.as_slice()) {
        let Onward { place, pair } = onward;
        let step = step_of(sites, &pair);
        let walk = extended(alloc, reached[place].walk.as_slice(), step)?;
        take_out(&mut unreached, pair.to);
        reached.push(Reached { tx: pair.to, walk })?;
    }
    Ok(reached)
}

/// A walk of conflicts from the transaction back to it through these, if there is one. Err: memory ran out.
pub fn walk_back(
    alloc: Global,
    sites: &[SiteLog],
    pairs: &[Pair],
    through: &[Tx],
    tx: Tx,
) -> Result<Option<Listed<Step>>, AllocError>
    requires few { length sites.now ≤ max_sites }
    requires pairs { ArePairsOf Conflicts sites.now pairs.now }
    requires other { Contains through.now tx → ⊥ }
    ensures some { IfOk result
        (λ found. IfSome found (λ walk. IsRound sites.now (Contains through.now) tx walk)) }
    ensures none { IfOk result (λ found. IfNone found (HasNoRound sites.now through.now tx)) }
{
    let reached = reach_all(alloc, sites, pairs, through, tx)?;
    match next_pair(pairs, reached.as_slice(), &[tx]) {
        Some(onward) => {
            let Onward { place, pair } = onward;
            let step = step_of(sites, &pair);
            let walk = extended(alloc, reached[place].walk.as_slice(), step)?;
            Ok(Some(walk))
        }
        None => Ok(None),
    }
}
