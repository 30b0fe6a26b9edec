//! Whether a JSON value has just the members of a certificate, each of its JSON type.

ghost use Rattle.std.specs.Prelude.{◌≡◌, codes};
ghost use Rattle.std.specs.List.{list_all};
ghost use Rattle.serde_json.specs.View.{view};
ghost use Rattle.sgt_bundle.specs.Line.{count, has, is_array_of, is_number, is_string};
ghost use Rattle.sgt_bundle.specs.Line.{is_certificate_object, is_commit_object, is_decision_object, is_refuse_object};
ghost use Rattle.sgt_bundle.specs.Line.{is_step_object, is_withdraw_object};

use serde_json::Value;

fn member_count(value: &Value) -> usize
    ensures { result ≡ count (view value.now) }
{
    match value.as_object() {
        Some(map) => map.len(),
        None => 0,
    }
}

fn has_number(value: &Value, key: &str) -> bool
    ensures { result ≡ has key.now is_number (view value.now) }
{
    match value.get(key) {
        Some(found) => found.is_number(),
        None => false,
    }
}

fn has_string(value: &Value, key: &str) -> bool
    ensures { result ≡ has key.now is_string (view value.now) }
{
    match value.get(key) {
        Some(found) => found.is_string(),
        None => false,
    }
}

fn shows_step(value: &Value) -> bool
    ensures { result ≡ is_step_object (view value.now) }
{
    member_count(value) == 4
        && has_string(value, "item")
        && has_string(value, "kind")
        && has_number(value, "site")
        && has_number(value, "to")
}

fn show_steps(items: &[Value]) -> bool
    ensures { result ≡ list_all (λ v. is_step_object (view v)) items.now }
{
    items.iter().all(shows_step)
}

fn shows_steps(value: &Value) -> bool
    ensures { result ≡ is_array_of is_step_object (view value.now) }
{
    match value.as_array() {
        Some(items) => show_steps(items),
        None => false,
    }
}

fn has_walk(value: &Value) -> bool
    ensures { result ≡ has (codes "walk") (is_array_of is_step_object) (view value.now) }
{
    match value.get("walk") {
        Some(found) => shows_steps(found),
        None => false,
    }
}

pub(crate) fn shows_commit(value: &Value) -> bool
    ensures { result ≡ is_commit_object (view value.now) }
{
    member_count(value) == 2 && has_number(value, "commit") && has_number(value, "rank")
}

pub(crate) fn shows_refuse(value: &Value) -> bool
    ensures { result ≡ is_refuse_object (view value.now) }
{
    member_count(value) == 2 && has_number(value, "refuse") && has_walk(value)
}

fn shows_withdraw(value: &Value) -> bool
    ensures { result ≡ is_withdraw_object (view value.now) }
{
    member_count(value) == 1 && has_number(value, "withdraw")
}

fn shows_decision(value: &Value) -> bool
    ensures { result ≡ is_decision_object (view value.now) }
{
    shows_commit(value) || shows_refuse(value) || shows_withdraw(value)
}

fn show_decisions(items: &[Value]) -> bool
    ensures { result ≡ list_all (λ v. is_decision_object (view v)) items.now }
{
    items.iter().all(shows_decision)
}

fn shows_decisions(value: &Value) -> bool
    ensures { result ≡ is_array_of is_decision_object (view value.now) }
{
    match value.as_array() {
        Some(items) => show_decisions(items),
        None => false,
    }
}

fn has_decisions(value: &Value) -> bool
    ensures { result ≡ has (codes "decisions") (is_array_of is_decision_object) (view value.now) }
{
    match value.get("decisions") {
        Some(found) => shows_decisions(found),
        None => false,
    }
}

/// Whether it has just the members of a certificate, each of its JSON type.
pub(crate) fn has_shape(value: &Value) -> bool
    ensures { result ≡ is_certificate_object (view value.now) }
{
    member_count(value) == 2 && has_decisions(value) && has_number(value, "sites")
}
