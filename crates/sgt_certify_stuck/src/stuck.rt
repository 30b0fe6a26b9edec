//! Whether a set of transactions is stuck.

ghost use Rattle.std.specs.Prelude.{◌≡◌, ◌↔◌, ℕ, ◌++◌, Contains, IsTrue, IfOk};
ghost use Rattle.sgt_certify_logs.specs.Witness.{IsStuck};
ghost use Rattle.sgt_certify_stuck.specs.Apart.{HasTx};
ghost use Rattle.sgt_certify_stuck.specs.Circles.{HasCircle, IsCircle, ShowsStuck};
ghost use Rattle.sgt_certify_stuck.specs.private.Ends.{AreShown, IsLogShown, IsShown};

use crate::apart::are_all_apart;
use crate::ends::{are_uncommitted, first_left, has_free, is_refused, waits};
use crate::sets::{others_of, set_of};
use sgt_bundle::SiteLog;
use sgt_names::Tx;
use std::alloc::{AllocError, Global};
use std::collections::BTreeSet;

/// A refused transaction, and all that conflicts lead to from it on, through committed ones of the set.
#[derive(Drop)]
pub struct Circle {
    pub tx: Tx,
    pub met: Vec<Tx>,
}

/// A set of transactions: those of them that are committed and the others; and the refused ones outside it that can
/// be decided next.
#[derive(Drop)]
pub struct StuckSet {
    pub committed: Vec<Tx>,
    pub others: Vec<Tx>,
    pub circles: Vec<Circle>,
}

/// Whether no conflict leads out of the circle to one of these, nor back to its transaction.
fn is_circle(
    alloc: Global,
    sites: &[SiteLog],
    committed: &[Tx],
    circle: &Circle,
) -> Result<bool, AllocError>
    ensures { IfOk result (λ is. IsTrue is ↔ IsCircle sites.now committed.now circle.now) }
{
    let own = set_of(alloc, &[circle.tx])?;
    let met = set_of(alloc, circle.met.as_slice())?;
    let beyond = others_of(alloc, committed, &met)?;
    let first = are_all_apart(alloc, sites, &own, &beyond)?;
    if !first {
        return Ok(false);
    }
    let onward = are_all_apart(alloc, sites, &met, &beyond)?;
    if !onward {
        return Ok(false);
    }
    are_all_apart(alloc, sites, &met, &own)
}

/// Whether the circle is the transaction's, and is one.
fn encircles(
    alloc: Global,
    sites: &[SiteLog],
    committed: &[Tx],
    circle: &Circle,
    tx: Tx,
) -> Result<bool, AllocError>
    ensures { IfOk result
        (λ is. IsTrue is
        ↔ (circle.now.tx ≡ tx) × IsCircle sites.now committed.now circle.now) }
{
    if circle.tx != tx {
        return Ok(false);
    }
    is_circle(alloc, sites, committed, circle)
}

/// Whether one of the circles is the transaction's.
fn has_circle(
    alloc: Global,
    sites: &[SiteLog],
    committed: &[Tx],
    circles: &[Circle],
    tx: Tx,
) -> Result<bool, AllocError>
    ensures { IfOk result
        (λ has. IsTrue has ↔ HasCircle sites.now committed.now circles.now tx) }
{
    for circle in circles {
        let encircled = encircles(alloc, sites, committed, circle, tx)?;
        if encircled {
            return Ok(true);
        }
    }
    Ok(false)
}

/// Whether the transaction can't be decided next, or is refused and has a circle.
fn is_shown(
    alloc: Global,
    sites: &[SiteLog],
    stuck: &StuckSet,
    decided: &BTreeSet<Tx>,
    tx: Tx,
) -> Result<bool, AllocError>
    ensures { IfOk result
        (λ shown. IsTrue shown ↔ IsShown sites.now stuck.now decided.now tx) }
{
    if waits(sites, decided, tx) {
        return Ok(true);
    }
    if !is_refused(sites, tx) {
        return Ok(false);
    }
    let committed = stuck.committed.as_slice();
    let circles = stuck.circles.as_slice();
    has_circle(alloc, sites, committed, circles, tx)
}

/// Whether that is so of whoever ends first in this log of those that aren't decided.
fn is_log_shown(
    alloc: Global,
    sites: &[SiteLog],
    stuck: &StuckSet,
    decided: &BTreeSet<Tx>,
    log: &SiteLog,
) -> Result<bool, AllocError>
    ensures { IfOk result
        (λ shown. IsTrue shown ↔ IsLogShown sites.now stuck.now decided.now log.now) }
{
    match first_left(log.entries.as_slice(), decided) {
        Some(left) => is_shown(alloc, sites, stuck, decided, left.1),
        None => Ok(true),
    }
}

/// Whether that is so in each log.
fn are_shown(
    alloc: Global,
    sites: &[SiteLog],
    stuck: &StuckSet,
    decided: &BTreeSet<Tx>,
) -> Result<bool, AllocError>
    ensures { IfOk result (λ shown. IsTrue shown ↔ AreShown sites.now stuck.now decided.now) }
{
    for log in sites {
        let shown = is_log_shown(alloc, sites, stuck, decided, log)?;
        if !shown {
            return Ok(false);
        }
    }
    Ok(true)
}

/// The transactions of the set.
fn decided_of(alloc: Global, stuck: &StuckSet) -> Result<BTreeSet<Tx>, AllocError>
    ensures has { IfOk result
        (λ set. (t : ℕ) → Contains (stuck.now.committed.items ++ stuck.now.others.items) t
        → HasTx set t) }
    ensures only { IfOk result
        (λ set. (t : ℕ) → HasTx set t
        → Contains (stuck.now.committed.items ++ stuck.now.others.items) t) }
{
    let mut all = Vec::from_slice(alloc, stuck.committed.as_slice())?;
    all.extend_from_slice(stuck.others.as_slice())?;
    set_of(alloc, all.as_slice())
}

/// Whether the set is stuck in these logs, and its circles show it: some transaction can be decided next, and each
/// that can is refused and has a circle. Such a one lies on no cycle of conflicts through committed ones of the set.
/// Err: memory ran out.
pub fn is_stuck(alloc: Global, sites: &[SiteLog], stuck: &StuckSet) -> Result<bool, AllocError>
    ensures exact { IfOk result (λ is. IsTrue is ↔ ShowsStuck sites.now stuck.now) }
    ensures stuck { IfOk result
        (λ is. IsTrue is
        → IsStuck sites.now (stuck.now.committed.items ++ stuck.now.others.items)) }
{
    let others = set_of(alloc, stuck.others.as_slice())?;
    if !are_uncommitted(sites, &others) {
        return Ok(false);
    }
    let decided = decided_of(alloc, stuck)?;
    if !has_free(sites, &decided) {
        return Ok(false);
    }
    are_shown(alloc, sites, stuck, &decided)
}
