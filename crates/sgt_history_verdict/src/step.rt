//! A step of a cycle.

ghost use Rattle.std.specs.Prelude.{◌≡◌, ◌⊎◌, ◌↔◌, IsTrue, Some};
ghost use Rattle.sgt_history_conflicts.specs.Edges.{JoinsTouches};
ghost use Rattle.sgt_history_verdict.specs.Steps.{IsOf, IsToldBefore, kind_between, kind_place, rank_at, step_between};

use sgt_graph::Edge;
use sgt_history::{Conflict, Kind};
use sgt_history_faults::Touch;

/// A step of a cycle: the transactions of two lines have this conflict by versions of this item.
#[derive(Clone, Copy, Debug, PartialEq, Eq)]
pub struct Step {
    pub kind: Conflict,
    /// The lines are counted from 0.
    pub from: u32,
    pub to: u32,
    pub item: u32,
    /// What the one wrote or read.
    pub from_version: u64,
    /// What the other wrote or read.
    pub to_version: u64,
}

/// The conflict of two touches, by what these are.
fn conflict_between(from: Kind, to: Kind) -> Conflict
    ensures { result ≡ kind_between from to }
{
    match from {
        Kind::Read => Conflict::ReadWrite,
        Kind::Write => match to {
            Kind::Read => Conflict::WriteRead,
            Kind::Write => Conflict::WriteWrite,
        },
    }
}

/// The step of a pair of touches.
pub(crate) fn step_of(touches: &[Touch], pair: Edge) -> Step
    requires { JoinsTouches touches.now pair }
    ensures { IsOf touches.now pair result }
{
    let from = touches[pair.from as usize];
    let to = touches[pair.to as usize];
    Step {
        kind: conflict_between(from.kind, to.kind),
        from: from.line,
        to: to.line,
        item: from.item,
        from_version: from.version,
        to_version: to.version,
    }
}

/// Where the conflict stands among the kinds.
fn kind_rank(kind: Conflict) -> u8
    ensures { result ≡ kind_place kind }
{
    match kind {
        Conflict::WriteWrite => 0,
        Conflict::WriteRead => 1,
        Conflict::ReadWrite => 2,
    }
}

/// Where the item stands among the names.
fn item_rank(ranks: &[u32], item: u32) -> u32
    ensures { result ≡ rank_at ranks.now item }
{
    match ranks.get(item as usize) {
        Some(rank) => *rank,
        None => u32::MAX,
    }
}

/// Whether of two steps from one line to another the first is told before the second, or is as good.
fn is_told_before(ranks: &[u32], one: &Step, other: &Step) -> bool
    ensures { IsTrue result ↔ IsToldBefore ranks.now one.now other.now }
{
    let (first, second) = (kind_rank(one.kind), kind_rank(other.kind));
    if first != second {
        return first < second;
    }
    let (first, second) = (item_rank(ranks, one.item), item_rank(ranks, other.item));
    if first != second {
        return first < second;
    }
    one.from_version <= other.from_version
}

/// The lesser of a step and that of before, if there is one: by kind, by the item's rank, by version.
pub(crate) fn least(ranks: &[u32], before: Option<Step>, step: Step) -> Step
    ensures one { (result ≡ step) ⊎ (before ≡ Some result) }
    ensures here { IsToldBefore ranks.now result step }
    ensures old { (other : Step) → before ≡ Some other → IsToldBefore ranks.now result other }
{
    match before {
        None => step,
        Some(one) => {
            if is_told_before(ranks, &one, &step) {
                one
            } else {
                step
            }
        }
    }
}
