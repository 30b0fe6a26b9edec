//! Which transaction began under which handle.

ghost use Rattle.std.specs.Prelude.{◌≡◌, ◌↔◌, ℕ, Some, IfOk, slice_get};
ghost use Rattle.sgt_service_settle.specs.private.Index.{Names, AreNamed};

use crate::rows::push_at;
use sgt_arena::Handle;
use sgt_certifier::{Call, Certifier};
use sgt_names::Tx;
use std::alloc::{AllocError, Global};

fn tx_at(window: &[Tx], place: usize) -> Option<Tx>
    ensures { result ≡ slice_get window.now place }
{
    match window.get(place) {
        Some(tx) => Some(*tx),
        None => None,
    }
}

/// The transaction that began under the handle.
pub(crate) fn tx_under(windows: &[Vec<Tx>], handle: Handle) -> Option<Tx>
    ensures { (tx : ℕ) → (result ≡ Some tx) ↔ Names windows.now handle tx }
{
    match windows.get(handle.generation as usize) {
        Some(window) => tx_at(window.as_slice(), handle.index as usize),
        None => None,
    }
}

/// The transactions of the history by their windows, each at the place of its handle.
pub(crate) fn windows(alloc: Global, certifier: &Certifier) -> Result<Vec<Vec<Tx>>, AllocError>
    ensures { IfOk result (λ windows. AreNamed certifier.now.history windows.items) }
{
    let mut windows = Vec::new(alloc);
    windows.push(Vec::new(alloc))?;
    let history = certifier.history();
    for call in history {
        match call {
            Call::Begin { tx, .. } => {
                let last = windows.len() - 1;
                push_at(windows.as_mut_slice(), last, *tx)?;
            }
            Call::Close { .. } => windows.push(Vec::new(alloc))?,
            _ => {}
        }
    }
    Ok(windows)
}
