//! What single values of JSON are: names, values of items, kinds, versions and ends.

ghost use Rattle.std.specs.Prelude.{ℕ, ◌≡◌, ◌≢◌, ◌<◌, ◌^◌, ◌↔◌, Bool, IsTrue, MatchOption, decimal};
ghost use Rattle.json.specs.Json.{number, string};
ghost use Rattle.json.specs.Value.{value_view};
ghost use Rattle.sgt_history.specs.declared.history.Kind.{Kind};
ghost use Rattle.sgt_history_text.specs.Line.{end_word, kind_word};
ghost use Rattle.sgt_history_text.specs.Name.{IsKey, IsValue};

use crate::whole::{is_integer, is_whole, is_within, whole};
use json::Value;
use sgt_history::Kind;

/// Whether the value is a string of so many bytes, or a whole number.
pub(crate) fn is_key(value: &Value<'_>, least: usize, most: usize) -> bool
    ensures { IsTrue result ↔ IsKey least most (value_view value.now) }
{
    match value {
        Value::String(text) => is_within(text.len() as u64, least as u64, most as u64),
        Value::Number(text) => is_whole(text),
        _ => false,
    }
}

/// Whether an item may have it as its value.
pub(crate) fn is_value(value: &Value<'_>) -> bool
    ensures { IsTrue result ↔ IsValue (value_view value.now) }
{
    match value {
        Value::String(_) | Value::Bool(_) | Value::Null => true,
        Value::Number(text) => is_integer(text),
        _ => false,
    }
}

/// The version that the value is.
pub(crate) fn version(value: &Value<'_>) -> Option<u64>
    ensures { MatchOption result ((n : ℕ) → n < 2 ^ 64 → value_view value.now ≡ number (decimal n) → ⊥)
        (λ n. value_view value.now ≡ number (decimal n)) }
{
    match value {
        Value::Number(text) => whole(text),
        _ => None,
    }
}

/// The kind of an operation that the value is the word of.
pub(crate) fn kind(value: &Value<'_>) -> Option<Kind>
    ensures { MatchOption result ((k : Kind) → value_view value.now ≢ string (kind_word k))
        (λ k. value_view value.now ≡ string (kind_word k)) }
{
    match value {
        Value::String("r") => Some(Kind::Read),
        Value::String("w") => Some(Kind::Write),
        _ => None,
    }
}

/// Whether a transaction commits, by the word of its end.
pub(crate) fn commits(value: &Value<'_>) -> Option<bool>
    ensures { MatchOption result ((b : Bool) → value_view value.now ≢ string (end_word b))
        (λ b. value_view value.now ≡ string (end_word b)) }
{
    match value {
        Value::String("commit") => Some(true),
        Value::String("abort") => Some(false),
        _ => None,
    }
}

/// Whether an operation of this kind may have this version.
pub(crate) fn may_have(kind: Kind, version: u64) -> bool
    ensures { IsTrue result ↔ (kind ≡ Kind.Write → 0 < version) }
{
    match kind {
        Kind::Read => true,
        Kind::Write => 0 < version,
    }
}
