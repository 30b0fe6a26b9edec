//! The search for whom a transaction reaches over the edges that count.

ghost use Rattle.std.specs.Prelude.{◌≡◌, ◌<◌, length, OnOk};
ghost use Rattle.sgt_service_settle.specs.private.Search.{Marked, IsTarget, AreWithin, Told, AreRowsWithin};

use crate::link::{Arc, Cut, passes};
use std::alloc::{AllocError, Global};

// Marks a transaction, and puts it on the stack, if it has no mark.
fn mark(to: usize, marks: &mut [bool], stack: &mut Vec<usize>) -> Result<(), AllocError>
    requires { to < length marks.old }
    ensures { OnOk result
        (Marked (λ k. k ≡ to) marks.old stack.old.items marks.new stack.new.items) }
{
    if !marks[to] {
        stack.reserve(1)?;
        marks[to] = true;
        stack.push_reserved(to);
    }
    Ok(())
}

// Marks the far ends of the edges that count.
fn mark_row(
    row: &[Arc],
    cut: &Cut,
    marks: &mut [bool],
    stack: &mut Vec<usize>,
) -> Result<(), AllocError>
    requires { AreWithin row.now cut.now (length marks.old) }
    ensures { OnOk result
        (Marked (IsTarget row.now cut.now) marks.old stack.old.items marks.new stack.new.items) }
{
    for arc in row {
        if passes(arc, cut) {
            mark(arc.to, marks, stack)?;
        }
    }
    Ok(())
}

/// Marks whom the transaction reaches over the edges that count, and takes all other marks away.
pub(crate) fn search(
    alloc: Global,
    rows: &[Vec<Arc>],
    start: usize,
    cut: &Cut,
    marks: &mut [bool],
) -> Result<(), AllocError>
    requires long { length marks.old ≡ length rows.now }
    requires start { start < length rows.now }
    requires within { AreRowsWithin rows.now cut.now }
    ensures { OnOk result (Told rows.now cut.now start marks.new) }
{
    marks.fill(false);
    let mut stack = Vec::new(alloc);
    stack.reserve(1)?;
    stack.push_reserved(start);
    while let Some(at) = stack.pop() {
        mark_row(rows[at].as_slice(), cut, marks, &mut stack)?;
    }
    Ok(())
}
