//! Values of JSON, read as far as a transaction's members go: what nests deeper is passed over, and stands as an
//! empty array or object. Of an array no more elements are kept than tell whether it is an operation.

ghost use Rattle.std.specs.Prelude.{true, false, ◌≡◌, ◌++◌, ◌+◌, ◌≤◌, List, IfOk, IfSome, MatchOption, OnOk, length, if◌then◌else◌};
ghost use Rattle.std.specs.Bool.{MatchBool};
ghost use Rattle.json.specs.Json.{Items, Json, array};
ghost use Rattle.json.specs.Token.{Token as SpecToken};
ghost use Rattle.json.specs.Tree.{items_tokens, json_tokens};
ghost use Rattle.json.specs.Value.{value_view};
ghost use Rattle.sgt_history_text.specs.Shallow.{Closes, Enters, IsFirst, IsFront, IsOpened, IsPartKept, IsSeenAs, NoValue, ReadsAs, empty, leaf};

use json::{Reader, Token, Value};
use std::alloc::{AllocError, Global};

/// What a value begins with.
pub(crate) enum First<'a> {
    Object,
    Array,
    Scalar(Value<'a>),
}

/// The first token of a value.
fn first_of<'a>(reader: &mut Reader<'a>) -> Option<First<'a>>
    ensures fewer { length reader.new ≤ length reader.old }
    ensures first { IsFirst reader.old result reader.new }
    ensures shorter { IfSome result (λ _. length reader.new + 1 ≤ length reader.old) }
{
    let token = reader.next()?;
    match token {
        Token::BeginObject => Some(First::Object),
        Token::BeginArray => Some(First::Array),
        Token::String(text) => Some(First::Scalar(Value::String(text))),
        Token::Number(text) => Some(First::Scalar(Value::Number(text))),
        Token::Bool(b) => Some(First::Scalar(Value::Bool(b))),
        Token::Null => Some(First::Scalar(Value::Null)),
        Token::EndObject => None,
        Token::EndArray => None,
        Token::Key(_) => None,
        Token::Bad => None,
    }
}

/// The first token of a value: whether it opens an object, or an array, or is the whole value.
pub(crate) fn opened(reader: &mut Reader<'_>) -> Option<Option<bool>>
    ensures fewer { length reader.new ≤ length reader.old }
    ensures opened { IsOpened reader.old result reader.new }
    ensures shorter { IfSome result (λ _. length reader.new + 1 ≤ length reader.old) }
{
    let token = reader.next()?;
    match token {
        Token::BeginObject => Some(Some(true)),
        Token::BeginArray => Some(Some(false)),
        Token::String(_) => Some(None),
        Token::Number(_) => Some(None),
        Token::Bool(_) => Some(None),
        Token::Null => Some(None),
        Token::EndObject => None,
        Token::EndArray => None,
        Token::Key(_) => None,
        Token::Bad => None,
    }
}

/// Whether what is open is closed here: an object, or an array. Else a value comes; the key before it is passed.
fn enters(reader: &mut Reader<'_>, object: bool) -> Option<bool>
    ensures fewer { length reader.new ≤ length reader.old }
    ensures enters { Enters object reader.old reader.new result }
    ensures shorter { IfSome result (λ closed. length reader.new + (if closed then 1 else 0) ≤ length reader.old) }
{
    if !object {
        return Some(reader.take_end_array());
    }
    match reader.next_key() {
        Ok(key) => Some(key.is_none()),
        Err(_) => None,
    }
}

/// Passes over the rest of an object or an array, whose opening bracket is passed. It may nest as deep as it will.
pub(crate) fn skip(alloc: Global, reader: &mut Reader<'_>, object: bool) -> Result<bool, AllocError>
    ensures fewer { length reader.new ≤ length reader.old }
    ensures skips { IfOk result (λ found. MatchBool found (Closes object reader.old reader.new)
        ((rest : List SpecToken) → Closes object reader.old rest → ⊥)) }
{
    let mut open = Vec::new(alloc);
    open.push(object)?;
    'open: while let Some(object) = open.pop() {
        let Some(closed) = enters(reader, object) else {
            return Ok(false);
        };
        if closed {
            continue;
        }
        open.push(object)?;
        let Some(bracket) = opened(reader) else {
            return Ok(false);
        };
        if let Some(object) = bracket {
            open.push(object)?;
        }
    }
    Ok(true)
}

/// An object or an array that is passed over, its opening bracket passed.
fn passed<'a>(
    alloc: Global,
    reader: &mut Reader<'a>,
    is_object: bool,
) -> Result<Option<Value<'a>>, AllocError>
    ensures fewer { length reader.new ≤ length reader.old }
    ensures passes { IfOk result (λ found. MatchOption found
        ((rest : List SpecToken) → Closes is_object reader.old rest → ⊥)
        (λ v. Closes is_object reader.old reader.new × (value_view v ≡ empty is_object))) }
{
    if !skip(alloc, reader, is_object)? {
        return Ok(None);
    }
    Ok(Some(if is_object {
        Value::Object(Vec::new(alloc))
    } else {
        Value::Array(Vec::new(alloc))
    }))
}

/// A value, with no depth.
pub(crate) fn leaf<'a>(
    alloc: Global,
    reader: &mut Reader<'a>,
) -> Result<Option<Value<'a>>, AllocError>
    ensures fewer { length reader.new ≤ length reader.old }
    ensures shorter { IfOk result (λ found. IfSome found (λ _. length reader.new + 1 ≤ length reader.old)) }
    ensures read { IfOk result (λ found. MatchOption found (NoValue reader.old)
        (λ v. ReadsAs leaf reader.old (value_view v) reader.new)) }
{
    match first_of(reader) {
        Some(First::Object) => passed(alloc, reader, true),
        Some(First::Array) => passed(alloc, reader, false),
        Some(First::Scalar(value)) => Ok(Some(value)),
        None => Ok(None),
    }
}

/// Passes over a value. False: none comes.
pub(crate) fn pass(alloc: Global, reader: &mut Reader<'_>) -> Result<bool, AllocError>
    ensures fewer { length reader.new ≤ length reader.old }
    ensures shorter { IfOk result (λ found. found ≡ true → length reader.new + 1 ≤ length reader.old) }
    ensures passes { IfOk result (λ found. MatchBool found (IsFront reader.old reader.new) (NoValue reader.old)) }
{
    let Some(value) = leaf(alloc, reader)? else {
        return Ok(false);
    };
    drop(value);
    Ok(true)
}

/// So many elements an operation has at most.
const MOST_PARTS: usize = 4;

/// Keeps a further element of an array, unless more are kept than an operation has.
fn keep_part<'a>(found: &mut Vec<Value<'a>>, value: Value<'a>) -> Result<(), AllocError>
    ensures { OnOk result (IsPartKept found.old.items value.entry found.new.items) }
{
    if found.len() <= MOST_PARTS {
        found.push(value)?;
    }
    Ok(())
}

/// The rest of an array, of which it is seen whether it is an operation.
fn parts<'a>(alloc: Global, reader: &mut Reader<'a>) -> Result<Option<Value<'a>>, AllocError>
    ensures fewer { length reader.new ≤ length reader.old }
    ensures read { IfOk result (λ found. MatchOption found
        ((rest : List SpecToken) → Closes false reader.old rest → ⊥)
        (λ v. (js : Items) × (reader.old ≡ items_tokens js ++ reader.new) × IsSeenAs (array js) (value_view v))) }
{
    let mut found = Vec::new(alloc);
    'items: while !reader.take_end_array() {
        let Some(value) = leaf(alloc, reader)? else {
            return Ok(None);
        };
        keep_part(&mut found, value)?;
    }
    Ok(Some(Value::Array(found)))
}

/// A value, of which it is seen whether it is an operation.
pub(crate) fn row<'a>(
    alloc: Global,
    reader: &mut Reader<'a>,
) -> Result<Option<Value<'a>>, AllocError>
    ensures fewer { length reader.new ≤ length reader.old }
    ensures shorter { IfOk result (λ found. IfSome found (λ _. length reader.new + 1 ≤ length reader.old)) }
    ensures read { IfOk result (λ found. MatchOption found (NoValue reader.old)
        (λ v. (j : Json) × (reader.old ≡ json_tokens j ++ reader.new) × IsSeenAs j (value_view v))) }
{
    match first_of(reader) {
        Some(First::Object) => passed(alloc, reader, true),
        Some(First::Array) => parts(alloc, reader),
        Some(First::Scalar(value)) => Ok(Some(value)),
        None => Ok(None),
    }
}
