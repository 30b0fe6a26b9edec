//! The object that a line is a text of, and whose transaction it says to be.

ghost use Rattle.std.specs.Prelude.{◌≡◌, Bool, IfOk, MatchOption};
ghost use Rattle.json.specs.Json.{Json, Members, object};
ghost use Rattle.json.specs.Lex.{tokens};
ghost use Rattle.json.specs.Tree.{json_tokens};
ghost use Rattle.json.specs.Value.{value_view};
ghost use Rattle.sgt_history_text.specs.Line.{IsTextOf};
ghost use Rattle.sgt_history_text.specs.Members.{IsReadFrom};
ghost use Rattle.sgt_history_text.specs.Parsed.{IsHead, seen};

use crate::building::Builder;
use crate::fault::MOST_ID_BYTES;
use crate::members::{Object, members};
use crate::shallow::opened;
use crate::values::{commits, is_key};
use json::{Reader, Scratch, Value};
use std::alloc::{AllocError, Global};

/// The object that the text is, read as deep as a transaction's members go. Its operations are put.
fn parsed_text<'a>(
    alloc: Global,
    builder: &mut Builder,
    text: &'a str,
    scratch: &'a mut Scratch,
) -> Result<Option<Object<'a>>, AllocError>
    ensures { IfOk result (λ found. MatchOption found
        ((ms : Members) → tokens text.now ≡ json_tokens (object ms) → ⊥)
        (λ o. (ms : Members) × (tokens text.now ≡ json_tokens (object ms))
        × IsReadFrom builder.old builder.new ms o)) }
{
    let mut reader = Reader::new(text, scratch)?;
    let Some(bracket) = opened(&mut reader) else {
        return Ok(None);
    };
    let Some(is_object) = bracket else {
        return Ok(None);
    };
    if !is_object {
        return Ok(None);
    }
    let Some(value) = members(alloc, &mut reader, builder)? else {
        return Ok(None);
    };
    if reader.next().is_some() {
        return Ok(None);
    }
    Ok(Some(value))
}

/// The object that the line is a text of. Its operations are put.
pub(crate) fn parsed<'a>(
    alloc: Global,
    builder: &mut Builder,
    line: &'a [u8],
    scratch: &'a mut Scratch,
) -> Result<Option<Object<'a>>, AllocError>
    ensures { IfOk result (λ found. MatchOption found
        ((ms : Members) → IsTextOf line.now (object ms) → ⊥)
        (λ o. (ms : Members) × IsTextOf line.now (object ms) × IsReadFrom builder.old builder.new ms o)) }
{
    let Ok(text) = std::str::from_utf8(line) else {
        return Ok(None);
    };
    parsed_text(alloc, builder, text, scratch)
}

/// The id that the object says, lent, and whether its transaction commits.
pub(crate) fn head<'v, 'a>(value: &'v Value<'a>) -> Option<(&'v Value<'a>, bool)>
    ensures { MatchOption result
        ((id : Json) (commits : Bool) → IsHead (value_view value.now) id commits → ⊥)
        (λ head. IsHead (value_view value.now) (seen head.0) head.1) }
{
    let id = value.get("tx")?;
    if !is_key(id, 1, MOST_ID_BYTES) {
        return None;
    }
    let commits = commits(value.get("end")?)?;
    Some((id, commits))
}
