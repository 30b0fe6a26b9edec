//! The first fault of a history.

ghost use Rattle.std.specs.Prelude.{◌≡◌, ℕ, List, IfOk};
ghost use Rattle.sgt_history.specs.History.{closed_of};
ghost use Rattle.sgt_history.specs.Transaction.{Transaction};
ghost use Rattle.sgt_history_faults.specs.Judged.{CoversValues, IsJudged, IsReadyFor};
ghost use Rattle.sgt_history_faults.specs.Noted.{Covers, IsReal};

use crate::collecting::collect;
use crate::fault::{Fault, with_fault};
use crate::giving::{given_of, sort_given};
use crate::scanning::judge_touches;
use crate::sorting::sort_touches;
use crate::touch::Touch;
use crate::values::judge_values;
use sgt_history::History;
use std::alloc::{AllocError, Global};

/// What a history is judged to be.
#[derive(Drop)]
pub enum Judged {
    /// It has this fault, and none that is told before it.
    Faulty(Fault),
    /// It has none. These are its touches: by item, by version, the writes before the reads, by line.
    Faultless(Vec<Touch>),
}

/// The first fault of values.
fn first_of_values(alloc: Global, history: &History) -> Result<Option<Fault>, AllocError>
    ensures real { IfOk result (λ first. IsReal (closed_of history.now) first) }
    ensures covered { IfOk result (λ first. CoversValues (closed_of history.now) first) }
{
    let mut given = given_of(alloc, history)?;
    sort_given(&mut given);
    Ok(judge_values(given.as_slice(), None))
}

/// The one of two faults that is told first.
fn earlier(one: Option<Fault>, other: Option<Fault>) -> Option<Fault>
    ensures one { (line rank place : ℕ) → Covers one line rank place → Covers result line rank place }
    ensures other { (line rank place : ℕ) → Covers other line rank place → Covers result line rank place }
    ensures real { (h : List (Transaction ℕ ℕ)) → IsReal h one → IsReal h other → IsReal h result }
{
    match other {
        None => one,
        Some(fault) => with_fault(one, fault),
    }
}

/// What a history is judged to be, by its touches and the first fault that isn't found by them.
fn judged_by(alloc: Global, touches: Vec<Touch>, before: Option<Fault>) -> Judged
    requires { (h : List (Transaction ℕ ℕ)) × IsReadyFor h touches.items before }
    ensures { (h : List (Transaction ℕ ℕ)) → IsReadyFor h touches.items before → IsJudged h result }
{
    let mut touches = touches;
    sort_touches(alloc, &mut touches);
    match judge_touches(touches.as_slice(), before) {
        Some(fault) => Judged::Faulty(fault),
        None => Judged::Faultless(touches),
    }
}

/// Judges a history by its faults.
pub fn judge(alloc: Global, history: &History) -> Result<Judged, AllocError>
    ensures { IfOk result (IsJudged (closed_of history.now)) }
{
    let values = first_of_values(alloc, history)?;
    let collected = collect(alloc, history)?;
    let first = earlier(collected.first, values);
    Ok(judged_by(alloc, collected.touches, first))
}
