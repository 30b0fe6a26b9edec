//! Lines in the plain layout, whose transactions are added while they are read: an operation is kept before the next is
//! read.

ghost use Rattle.std.specs.Prelude.{ℕ, ◌≡◌, ◌≤◌, [], ◌∷◌, List, IfOk, IsTrue, Some, length};
ghost use Rattle.json.specs.Json.{Json};
ghost use Rattle.sgt_history.specs.Transaction.{Transaction};
ghost use Rattle.sgt_history_text.specs.Built.{IsBuilt};
ghost use Rattle.sgt_history_text.specs.Plain.{ArePutUpTo, IsPlainAdded};
ghost use Rattle.sgt_notation.specs.Private.{Spans};

use crate::building::{Builder, close_line, forget_line, push_plain};
use crate::plain::{byte_at, comma_at, head_at, is_end, operation_at};
use std::alloc::{AllocError, Global};

/// Puts the operations of an array whose opening bracket is passed: the place behind the closing one. None: not all of
/// them are in the layout. Some were put then.
fn push_operations_at(
    alloc: Global,
    builder: &mut Builder,
    bytes: &[u8],
    from: usize,
) -> Result<Option<usize>, AllocError>
    requires { from ≤ length bytes.now }
    ensures { (ids : List Json) (h : List (Transaction Json Json)) → IsBuilt builder.old ids h []
        → IfOk result (ArePutUpTo ids h bytes.now from builder.new) }
{
    if let Some(to) = byte_at(bytes, from, b']') {
        return Ok(Some(to));
    }
    let mut at = from;
    for _ in 0..bytes.len() {
        let Some((operation, behind)) = operation_at(bytes, at) else {
            return Ok(None);
        };
        push_plain(alloc, builder, &operation)?;
        let Some(next) = comma_at(bytes, behind) else {
            return Ok(byte_at(bytes, behind, b']'));
        };
        at = next;
    }
    Ok(None)
}

/// Whether a line's end is at this place, if there is one.
fn ends_there(line: &[u8], place: Option<usize>) -> bool
    ensures { IsTrue result → (to : ℕ) × (place ≡ Some to) × Spans line.now to (125 ∷ []) (length line.now) }
{
    match place {
        Some(to) => is_end(line, to),
        None => false,
    }
}

/// Adds the transaction of a line in this layout, unless an earlier one has its id: false then. None says nothing of
/// the line, and nothing was added.
pub(crate) fn add_plain(
    alloc: Global,
    builder: &mut Builder,
    line: &[u8],
) -> Result<Option<bool>, AllocError>
    ensures { (ids : List Json) (h : List (Transaction Json Json)) → IsBuilt builder.old ids h []
        → IfOk result (IsPlainAdded ids h line.now builder.new) }
{
    let Ok(_) = simdutf8::compat::from_utf8(line) else {
        return Ok(None);
    };
    let Some(((id, commits), at)) = head_at(line) else {
        return Ok(None);
    };
    let place = push_operations_at(alloc, builder, line, at)?;
    if !ends_there(line, place) {
        forget_line(builder);
        return Ok(None);
    }
    let new = close_line(alloc, builder, id, commits)?;
    Ok(Some(new))
}
