//! Rows, and the edges between committed transactions by the transaction at one end.

ghost use Rattle.std.specs.Prelude.{◌≡◌, ◌<◌, ℕ, length, OnOk, IfOk};
ghost use Rattle.sgt_service_settle.specs.private.Words.{At, Pushed};
ghost use Rattle.sgt_service_settle.specs.private.Search.{Hold, LinksBy, AreEnds};

use crate::link::{Arc, Link};
use std::alloc::{AllocError, Global};

/// Adds an element to the row of this number.
pub(crate) fn push_at<T: Copy>(rows: &mut [Vec<T>], at: usize, x: T) -> Result<(), AllocError>
    requires { at < length rows.old }
    ensures { OnOk result (Pushed rows.old at x rows.new) }
{
    let row = &mut rows[at];
    row.reserve(1)?;
    row.push_reserved(x);
    Ok(())
}

/// What each has of a whole at most, mostly, where so many share it: an eighth more than an even share.
pub(crate) fn share(whole: usize, all: usize) -> usize {
    match whole.checked_div(all) {
        Some(each) => each.saturating_add(each / 8),
        None => 0,
    }
}

/// So many rows with nothing in them, with room for so many elements each.
pub(crate) fn no_rows<T: Copy>(
    alloc: Global,
    all: usize,
    each: usize,
) -> Result<Vec<Vec<T>>, AllocError>
    ensures long { IfOk result (λ rows. length rows.items ≡ all) }
    ensures none { IfOk result (λ rows. (k n : ℕ) (x : T) → At rows.items k n x → ⊥) }
{
    let mut rows = Vec::new(alloc);
    for _at in 0..all {
        let mut row = Vec::new(alloc);
        row.reserve(each)?;
        rows.reserve(1)?;
        rows.push_reserved(row);
    }
    Ok(rows)
}

/// The edges by the transaction that they come from.
pub(crate) fn leaving(
    alloc: Global,
    links: &[Link],
    all: usize,
) -> Result<Vec<Vec<Arc>>, AllocError>
    requires { AreEnds links.now all }
    ensures long { IfOk result (λ rows. length rows.items ≡ all) }
    ensures hold { IfOk result (λ rows. Hold rows.items (LinksBy links.now)) }
{
    let mut rows = no_rows(alloc, all, 0)?;
    for link in links {
        let arc = Arc {
            to: link.to,
            label: link.label,
            number: link.number,
        };
        push_at(rows.as_mut_slice(), link.from, arc)?;
    }
    Ok(rows)
}

/// The edges by the transaction that they lead to, turned round.
pub(crate) fn entering(
    alloc: Global,
    links: &[Link],
    all: usize,
) -> Result<Vec<Vec<Arc>>, AllocError>
    requires { AreEnds links.now all }
    ensures long { IfOk result (λ rows. length rows.items ≡ all) }
    ensures hold { IfOk result (λ rows. Hold rows.items (λ cut a b. LinksBy links.now cut b a)) }
{
    let mut rows = no_rows(alloc, all, 0)?;
    for link in links {
        let arc = Arc {
            to: link.from,
            label: link.label,
            number: link.number,
        };
        push_at(rows.as_mut_slice(), link.to, arc)?;
    }
    Ok(rows)
}
