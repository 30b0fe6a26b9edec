//! The operations of a member "ops", put one after another: each is kept before the next is read.

ghost use Rattle.std.specs.Prelude.{true, false, ◌≡◌, ◌++◌, ◌+◌, ◌≤◌, List, IfOk, IfSome, MatchOption, Some, length};
ghost use Rattle.json.specs.Json.{Items, Json, array};
ghost use Rattle.json.specs.Token.{Token as SpecToken};
ghost use Rattle.json.specs.Tree.{items_tokens, json_tokens};
ghost use Rattle.sgt_history_text.specs.Members.{IsPut, IsPutNext, Puts, Replaces};
ghost use Rattle.sgt_history_text.specs.Shallow.{Closes, NoValue};

use crate::building::{Builder, forget_line, push_operation};
use crate::operations::operation;
use crate::shallow::{opened, pass, row, skip};
use json::Reader;
use std::alloc::{AllocError, Global};

/// Puts the operation that comes. Some(false): a value comes that is none. None: no value comes.
fn put_operation(
    alloc: Global,
    reader: &mut Reader<'_>,
    builder: &mut Builder,
) -> Result<Option<bool>, AllocError>
    ensures fewer { length reader.new ≤ length reader.old }
    ensures shorter { IfOk result (λ found. IfSome found (λ _. length reader.new + 1 ≤ length reader.old)) }
    ensures put { IfOk result (λ found. MatchOption found (NoValue reader.old)
        (λ is. (j : Json) × (reader.old ≡ json_tokens j ++ reader.new) × IsPut builder.old builder.new j is)) }
{
    let Some(value) = row(alloc, reader)? else {
        return Ok(None);
    };
    let Some(operation) = operation(&value) else {
        return Ok(Some(false));
    };
    push_operation(alloc, builder, &operation)?;
    Ok(Some(true))
}

/// Puts the operation that comes, if all before are some.
fn put_next(
    alloc: Global,
    reader: &mut Reader<'_>,
    builder: &mut Builder,
    are: bool,
) -> Result<Option<bool>, AllocError>
    ensures fewer { length reader.new ≤ length reader.old }
    ensures shorter { IfOk result (λ found. IfSome found (λ _. length reader.new + 1 ≤ length reader.old)) }
    ensures put { IfOk result (λ found. MatchOption found (NoValue reader.old)
        (λ is. (j : Json) × (reader.old ≡ json_tokens j ++ reader.new) × IsPutNext are builder.old builder.new j is)) }
{
    if are {
        return put_operation(alloc, reader, builder);
    }
    if pass(alloc, reader)? {
        Ok(Some(false))
    } else {
        Ok(None)
    }
}

/// Puts the operations of the rest of an array. Some(false): an element is none.
fn put_operations(
    alloc: Global,
    reader: &mut Reader<'_>,
    builder: &mut Builder,
) -> Result<Option<bool>, AllocError>
    ensures fewer { length reader.new ≤ length reader.old }
    ensures put { IfOk result (λ found. MatchOption found
        ((rest : List SpecToken) → Closes false reader.old rest → ⊥)
        (λ are. (js : Items) × (reader.old ≡ items_tokens js ++ reader.new)
        × Puts builder.old builder.new (Some (array js)) are)) }
{
    let mut are = true;
    'items: while !reader.take_end_array() {
        let Some(still) = put_next(alloc, reader, builder, are)? else {
            return Ok(None);
        };
        are = still;
    }
    Ok(Some(are))
}

/// Passes over the rest of an object, which is no array of operations.
fn pass_object(alloc: Global, reader: &mut Reader<'_>) -> Result<Option<bool>, AllocError>
    ensures fewer { length reader.new ≤ length reader.old }
    ensures passes { IfOk result (λ found. MatchOption found
        ((rest : List SpecToken) → Closes true reader.old rest → ⊥)
        (λ are. (are ≡ false) × Closes true reader.old reader.new)) }
{
    if skip(alloc, reader, true)? {
        Ok(Some(false))
    } else {
        Ok(None)
    }
}

/// Puts the operations of the value that comes, in place of those of the line that were put before. Some(false): the value
/// is no array of operations. None: no value comes.
pub(crate) fn replace_operations(
    alloc: Global,
    reader: &mut Reader<'_>,
    builder: &mut Builder,
) -> Result<Option<bool>, AllocError>
    ensures fewer { length reader.new ≤ length reader.old }
    ensures put { IfOk result (λ found. MatchOption found (NoValue reader.old)
        (λ are. (j : Json) × (reader.old ≡ json_tokens j ++ reader.new)
        × Replaces builder.old builder.new (Some j) are)) }
{
    forget_line(builder);
    let Some(bracket) = opened(reader) else {
        return Ok(None);
    };
    let Some(is_object) = bracket else {
        return Ok(Some(false));
    };
    if is_object {
        return pass_object(alloc, reader);
    }
    put_operations(alloc, reader, builder)
}
