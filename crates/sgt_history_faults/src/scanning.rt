//! The faults of all touches but those of values.

ghost use Rattle.std.specs.Prelude.{◌≡◌, ◌<◌, ◌≤◌, ℕ, IsTrue, ◌↔◌, List, Some, length, slice_get};
ghost use Rattle.sgt_history.specs.Transaction.{Transaction};
ghost use Rattle.sgt_history_faults.specs.Group.{AreAllAlike, AreAllCovered, AreAllFaulty, AreLike, IsLike};
ghost use Rattle.sgt_history_faults.specs.Noted.{Covers, IsReal};
ghost use Rattle.sgt_history_faults.specs.Order.{AreInOrder};

use crate::fault::Fault;
use crate::judging::judge_group;
use crate::touch::Touch;
use sgt_history::Kind;

/// Whether a touch is of the same version of the same item as the other, and of this kind.
fn is_like(like: &Touch, kind: Kind, touch: &Touch) -> bool
    ensures { IsTrue result ↔ IsLike like.now kind touch.now }
{
    touch.item == like.item && touch.version == like.version && touch.kind == kind
}

/// Where the touches end, from here on, that are of the same version of the same item as this one, and of this kind.
fn end_of(touches: &[Touch], from: usize, like: &Touch, kind: Kind) -> usize
    requires { from ≤ length touches.now }
    ensures { AreLike touches.now like.now kind from result }
{
    let mut at = from;
    while at < touches.len() && is_like(like, kind, &touches[at]) {
        at += 1;
    }
    at
}

/// The first fault, with those of all touches.
pub fn judge_touches(touches: &[Touch], before: Option<Fault>) -> Option<Fault>
    requires ordered { AreInOrder touches.now }
    requires alike { AreAllAlike touches.now }
    ensures kept { (line rank place : ℕ) → Covers before line rank place → Covers result line rank place }
    ensures covered { AreAllCovered touches.now result }
    ensures real { (h : List (Transaction ℕ ℕ)) → AreAllFaulty h touches.now → IsReal h before → IsReal h result }
{
    let mut first = before;
    let mut start = 0;
    while start < touches.len() {
        let like = touches[start];
        let middle = end_of(touches, start, &like, Kind::Write);
        let end = end_of(touches, middle, &like, Kind::Read);
        first = judge_group(&touches[start..middle], &touches[middle..end], first);
        start = end;
    }
    first
}
