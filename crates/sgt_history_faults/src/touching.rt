//! The touches of a line, and of a history.

ghost use Rattle.std.specs.Prelude.{◌≡◌, ◌+◌, ◌<◌, ◌≤◌, ◌^◌, ◌++◌, ℕ, List, Option, IsTrue, ◌↔◌, OnOk, IfOk, Some, length, slice_get, All};
ghost use Rattle.sgt_history_faults.specs.declared.touch.Touch.{Touch};
ghost use Rattle.sgt_history.specs.declared.history.Operation.{Operation};
ghost use Rattle.sgt_history_faults.specs.Mine.{AreMine, IsItemBelow, IsOwned, StampedTo};
ghost use Rattle.sgt_history_faults.specs.Touch.{AreMarked, IsTouchBelow, IsToTouch, TakesLine, TellsContradiction};

use crate::mine::{Mine, Owned};
use crate::touch::Touch;
use sgt_history::{Kind, Operation};
use std::alloc::AllocError;

/// Whose operations are taken: the line, from 0, and whether its transaction commits.
#[derive(Clone, Copy, Debug, PartialEq, Eq)]
pub struct Whose {
    pub line: u32,
    pub commits: bool,
}

/// The first operation that contradicts what was written before it, where this is the next one.
fn first_contradicted(before: Option<u32>, owned: Owned, place: u32) -> Option<u32>
    ensures { (done : List (Operation ℕ ℕ)) (o : Operation ℕ ℕ) → slice_get done place ≡ Some o
        → IsOwned done place o owned
        → TellsContradiction done place before → TellsContradiction done (place + 1) result }
{
    match before {
        Some(first) => Some(first),
        None => match owned {
            Owned::Not => None,
            Owned::Follows => None,
            Owned::Contradicts => Some(place),
        },
    }
}

/// Whether an operation is touched.
fn is_touched(kind: Kind, owned: Owned, commits: bool) -> bool
    ensures { (done : List (Operation ℕ ℕ)) (n : ℕ) (o : Operation ℕ ℕ) → o.kind ≡ kind → IsOwned done n o owned
        → IsTrue result ↔ IsToTouch commits done n o }
{
    match kind {
        Kind::Write => true,
        Kind::Read => match owned {
            Owned::Not => commits,
            Owned::Follows => false,
            Owned::Contradicts => false,
        },
    }
}

/// Puts the touch of an operation behind those before, if it has one.
#[inline]
fn put_touch(
    operation: &Operation<u32, u32>,
    place: u32,
    owned: Owned,
    whose: Whose,
    touches: &mut Vec<Touch>,
) -> Result<(), AllocError>
    ensures { OnOk result ((done : List (Operation ℕ ℕ)) (before : List Touch)
        → slice_get done place ≡ Some operation.now
        → IsOwned done place operation.now owned
        → TakesLine whose done place before touches.old.items
        → TakesLine whose done (place + 1) before touches.new.items) }
{
    if !is_touched(operation.kind, owned, whose.commits) {
        return Ok(());
    }
    touches.push(Touch {
        version: operation.version,
        item: operation.item,
        line: whose.line,
        place,
        kind: operation.kind,
        commits: whose.commits,
        surpassed: false,
    })?;
    Ok(())
}

/// Puts the touches of a line behind those before, whether one surpasses another still to be told. Gives the first
/// operation that contradicts what its transaction wrote before, if there is one.
pub fn take_line(
    operations: &[Operation<u32, u32>],
    whose: Whose,
    mine: &mut [Mine],
    touches: &mut Vec<Touch>,
) -> Result<Option<u32>, AllocError>
    requires room { length operations.now < 2 ^ 32 }
    requires stamp { whose.line + 1 < 2 ^ 32 }
    requires stamped { StampedTo whose.line mine.old }
    requires items { All (IsItemBelow (length mine.old)) operations.now }
    ensures stamped { OnOk result (StampedTo (whose.line + 1) mine.new) }
    ensures mine { OnOk result (AreMine (whose.line + 1) operations.now (length operations.now) mine.new) }
    ensures touches { OnOk result (TakesLine whose operations.now (length operations.now) touches.old.items touches.new.items) }
    ensures contradiction { IfOk result (TellsContradiction operations.now (length operations.now)) }
{
    let stamp = whose.line + 1;
    let mut contradicted = None;
    for place in 0..operations.len() {
        let operation = &operations[place];
        let owned = mine[operation.item as usize].take_up(operation, stamp);
        contradicted = first_contradicted(contradicted, owned, place as u32);
        put_touch(operation, place as u32, owned, whose, touches)?;
    }
    Ok(contradicted)
}

/// Tells of the touches from here on whether their transaction writes a greater version, by what it has written in all.
pub fn mark_surpassed(touches: &mut Vec<Touch>, from: usize, mine: &[Mine])
    requires { All (IsTouchBelow (length mine.now)) touches.old.items }
    ensures { AreMarked from mine.now touches.old.items touches.new.items }
{
    for k in from..touches.len() {
        let touch = &mut touches[k];
        touch.surpassed = touch.version < mine[touch.item as usize].greatest;
    }
}
