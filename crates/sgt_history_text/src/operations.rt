//! The operation that a value of JSON is.

ghost use Rattle.std.specs.Prelude.{◌≡◌, IfSome, MatchOption, None, Option};
ghost use Rattle.json.specs.Find.{at};
ghost use Rattle.json.specs.Json.{Json};
ghost use Rattle.json.specs.Value.{value_view};
ghost use Rattle.sgt_history.specs.Transaction.{renamed_value};
ghost use Rattle.sgt_history.specs.declared.history.Operation.{Operation};
ghost use Rattle.sgt_history_text.specs.Line.{IsOperation, operation_json};
ghost use Rattle.sgt_history_text.specs.Name.{IsValue};
ghost use Rattle.sgt_history_text.specs.Parsed.{seen, seen_operation};

use crate::fault::MOST_ITEM_BYTES;
use crate::values::{is_key, is_value, kind, may_have, version};
use json::Value;
use sgt_history::Operation;

/// What an operation has behind its version: a value or none, and nothing more.
fn given<'v, 'a>(value: &'v Value<'a>) -> Option<Option<&'v Value<'a>>>
    ensures { MatchOption result
        ((given : Option Json) → IfSome given IsValue → at 3 (value_view value.now) ≡ given → at 4 (value_view value.now) ≡ None → ⊥)
        (λ given. (at 3 (value_view value.now) ≡ renamed_value seen given) × (at 4 (value_view value.now) ≡ None)
        × IfSome (renamed_value seen given) IsValue) }
{
    if value.at(4).is_some() {
        return None;
    }
    let Some(given) = value.at(3) else {
        return Some(None);
    };
    if is_value(given) {
        Some(Some(given))
    } else {
        None
    }
}

/// The operation that the value is, with its item and value lent.
pub(crate) fn operation<'v, 'a>(
    value: &'v Value<'a>,
) -> Option<Operation<&'v Value<'a>, &'v Value<'a>>>
    ensures { MatchOption result
        ((o : Operation Json Json) → IsOperation o → value_view value.now ≡ operation_json o → ⊥)
        (λ o. IsOperation (seen_operation o) × (value_view value.now ≡ operation_json (seen_operation o))) }
{
    let kind = kind(value.at(0)?)?;
    let item = value.at(1)?;
    if !is_key(item, 0, MOST_ITEM_BYTES) {
        return None;
    }
    let version = version(value.at(2)?)?;
    if !may_have(kind, version) {
        return None;
    }
    let value = given(value)?;
    Some(Operation {
        version,
        item,
        kind,
        value,
    })
}
