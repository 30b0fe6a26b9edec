//! A step of the walk of a refused transaction, with what the entries of its site have of it.

ghost use Rattle.std.specs.Prelude.{◌≡◌, ◌∷◌, IfSome, IfNone, slice_get};
ghost use Rattle.sgt_names.specs.Log.{Conflicts};
ghost use Rattle.sgt_bundle.specs.Certificate.{stops};
ghost use Rattle.sgt_explain_lines.specs.Values.{entries_of};
ghost use Rattle.sgt_explain_steps.specs.Told.{begins_with_read, ends_with_read};
ghost use Rattle.sgt_explain_steps.specs.Unmet.{ShowsOwn, IsStepAt, NoStepAt, SameStep, ShowsOther};

use crate::entries::{is_met, met_in, own_in};
use crate::told::{begins_with_read, ends_with_read};
use crate::unmet::Unmet;
use sgt_bundle::{Decision, Step};
use sgt_explain_lines::Logged;
use sgt_names::Tx;

/// The transaction that the step at this place starts from.
fn start_of(tx: Tx, walk: &[Step], place: usize) -> Option<Tx>
    ensures { result ≡ slice_get (tx ∷ stops walk.now) place }
{
    if place == 0 {
        return Some(tx);
    }
    let before = place - 1;
    if before >= walk.len() {
        return None;
    }
    let step = walk[before];
    Some(step.to)
}

/// The step at this place of the walk of this decision, with none of its entries yet.
pub fn step_at(decisions: &[Decision], number: usize, place: usize) -> Option<Unmet>
    ensures there { IfSome result (IsStepAt decisions.now) }
    ensures asked { IfSome result (λ u. (u.number ≡ number) × (u.place ≡ place)) }
    ensures none { IfNone result (NoStepAt decisions.now number place) }
{
    let Some(decision) = decisions.get(number) else {
        return None;
    };
    let Decision::Refuse { tx, walk } = decision else {
        return None;
    };
    let steps = walk.as_slice();
    match (start_of(*tx, steps, place), steps.get(place)) {
        (Some(from), Some(step)) => Some(Unmet {
            tx: *tx,
            number,
            place,
            count: steps.len(),
            from,
            step: *step,
            first: None,
            second: None,
            other: None,
        }),
        _ => None,
    }
}

/// The step with its entries of these, where they have no conflict of the step.
pub fn with_entries(unmet: &Unmet, entries: &[Logged]) -> Option<Unmet>
    ensures same { IfSome result (SameStep unmet.now) }
    ensures broken { IfSome result (λ u.
        Conflicts (entries_of entries.now) u.step.label.kind u.step.label.item u.from u.step.to
        → ⊥) }
    ensures first { IfSome result (λ u.
        ShowsOwn entries.now u.from
        (begins_with_read u.step.label.kind) u.step.label.item u.first) }
    ensures second { IfSome result (λ u.
        ShowsOwn entries.now u.step.to
        (ends_with_read u.step.label.kind) u.step.label.item u.second) }
    ensures other { IfSome result (λ u. ShowsOther entries.now u.from u.step u.other) }
    ensures met { IfNone result (Conflicts (entries_of entries.now)
        unmet.now.step.label.kind unmet.now.step.label.item unmet.now.from unmet.now.step.to) }
{
    let from = unmet.from;
    let step = &unmet.step;
    if is_met(entries, from, step) {
        return None;
    }
    let kind = step.label.kind;
    let item = &step.label.item;
    Some(Unmet {
        tx: unmet.tx,
        number: unmet.number,
        place: unmet.place,
        count: unmet.count,
        from,
        step: *step,
        first: own_in(entries, from, item, begins_with_read(kind)),
        second: own_in(entries, step.to, item, ends_with_read(kind)),
        other: met_in(entries, from, step),
    })
}
