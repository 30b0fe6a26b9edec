//! A history that grows by transactions, its items and values numbered.

ghost use Rattle.std.specs.Prelude.{◌≡◌, ◌++◌, ◌∷◌, [], List, IfOk, OnOk, Option};
ghost use Rattle.json.specs.Json.{Json};
ghost use Rattle.json.specs.Tree.{HasNumbers};
ghost use Rattle.json.specs.Value.{value_view};
ghost use Rattle.sgt_history.specs.Cut.{end_of};
ghost use Rattle.sgt_history.specs.History.{closed_of, open_of};
ghost use Rattle.sgt_history.specs.Transaction.{Transaction, WritesPositive};
ghost use Rattle.sgt_history.specs.declared.history.Operation.{Operation};
ghost use Rattle.sgt_history_text.specs.Built.{AreKept, IsAdded, IsBuilt, IsNumbered, IsNumberedOperation, IsNumberedValue};
ghost use Rattle.sgt_history_text.specs.Line.{IsOperation};
ghost use Rattle.sgt_history_text.specs.Name.{IsValue, compact};
ghost use Rattle.sgt_history_text.specs.Plain.{IsPlain, Means, MeansValue};
ghost use Rattle.sgt_history_text.specs.Parsed.{seen, seen_operation};
ghost use Rattle.sgt_history.specs.Transaction.{renamed_value};
ghost use Rattle.std.specs.Prelude.{IfSome};

use crate::table::{Interned, Table};
use json::{Value, to_vec};
use sgt_history::{History, Line, Operation};
use std::alloc::{AllocError, Global};

/// What was read so far.
#[derive(Drop)]
pub(crate) struct Builder {
    pub history: History,
    pub ids: Table,
    pub items: Table,
    pub values: Table,
}

/// No line yet.
pub(crate) fn no_lines(alloc: Global) -> Result<Builder, AllocError>
    ensures { IfOk result (λ b. IsBuilt b [] [] []) }
{
    Ok(Builder {
        history: History::new(alloc),
        ids: Table::new(alloc)?,
        items: Table::new(alloc)?,
        values: Table::new(alloc)?,
    })
}

/// The number of the value that the text is the compact one of.
fn number_of_text(alloc: Global, names: &mut Table, text: &[u8]) -> Result<u32, AllocError>
    ensures { (js : List Json) (j : Json) → AreKept names.old js → HasNumbers j → text.now ≡ compact j
        → IfOk result (λ n. IsNumbered js j names.new n) }
{
    match names.intern(alloc, text)? {
        Interned::Old(number) => Ok(number),
        Interned::New(number) => Ok(number),
    }
}

/// The number of a value.
fn number(alloc: Global, names: &mut Table, value: &Value<'_>) -> Result<u32, AllocError>
    requires { HasNumbers (value_view value.now) }
    ensures { (js : List Json) → AreKept names.old js
        → IfOk result (λ n. IsNumbered js (value_view value.now) names.new n) }
{
    let text = to_vec(alloc, value)?;
    match names.intern(alloc, text.as_slice())? {
        Interned::Old(number) => Ok(number),
        Interned::New(number) => Ok(number),
    }
}

/// The number of the value that is given, if one is.
pub(crate) fn number_given(
    alloc: Global,
    names: &mut Table,
    value: Option<&Value<'_>>,
) -> Result<Option<u32>, AllocError>
    requires { IfSome (renamed_value seen value) HasNumbers }
    ensures { (js : List Json) → AreKept names.old js
        → IfOk result (λ n. IsNumberedValue js (renamed_value seen value.entry) names.new n) }
{
    match value {
        Some(value) => Ok(Some(number(alloc, names, value)?)),
        None => Ok(None),
    }
}

/// The operation, with numbers.
fn numbered(
    alloc: Global,
    items: &mut Table,
    values: &mut Table,
    lent: &Operation<&Value<'_>, &Value<'_>>,
) -> Result<Operation<u32, u32>, AllocError>
    requires { IsOperation (seen_operation lent.now) }
    ensures positive { IfOk result WritesPositive }
    ensures numbered { (js vs : List Json) → AreKept items.old js → AreKept values.old vs
        → IfOk result (λ o. IsNumberedOperation js vs (seen_operation lent.now) items.new values.new o) }
{
    Ok(Operation {
        version: lent.version,
        item: number(alloc, items, lent.item)?,
        kind: lent.kind,
        value: number_given(alloc, values, lent.value)?,
    })
}

/// One operation more of the line that is being read.
pub(crate) fn push_operation(
    alloc: Global,
    builder: &mut Builder,
    lent: &Operation<&Value<'_>, &Value<'_>>,
) -> Result<(), AllocError>
    requires { IsOperation (seen_operation lent.now) }
    ensures { (ids : List Json) (h : List (Transaction Json Json)) (begun : List (Operation Json Json))
        → IsBuilt builder.old ids h begun
        → OnOk result (IsBuilt builder.new ids h (begun ++ seen_operation lent.now ∷ [])) }
{
    let operation = numbered(alloc, &mut builder.items, &mut builder.values, lent)?;
    builder.history.push(operation)?;
    Ok(())
}

/// The number of the value that is given, if one is, by its text.
fn number_of_given(
    alloc: Global,
    names: &mut Table,
    given: Option<&[u8]>,
) -> Result<Option<u32>, AllocError>
    ensures { (js : List Json) (v : Option Json) → AreKept names.old js → IfSome v HasNumbers → MeansValue given.entry v
        → IfOk result (λ n. IsNumberedValue js v names.new n) }
{
    match given {
        Some(text) => Ok(Some(number_of_text(alloc, names, text)?)),
        None => Ok(None),
    }
}

/// The operation, with numbers, by the texts of its item and value.
fn numbered_plain(
    alloc: Global,
    items: &mut Table,
    values: &mut Table,
    plain: &Operation<&[u8], &[u8]>,
) -> Result<Operation<u32, u32>, AllocError>
    requires { IsPlain plain.now }
    ensures positive { IfOk result WritesPositive }
    ensures numbered { (js vs : List Json) (p : Operation Json Json) → Means plain.now p → AreKept items.old js
        → AreKept values.old vs
        → IfOk result (λ o. IsNumberedOperation js vs p items.new values.new o) }
{
    Ok(Operation {
        version: plain.version,
        item: number_of_text(alloc, items, plain.item)?,
        kind: plain.kind,
        value: number_of_given(alloc, values, plain.value)?,
    })
}

/// One operation more of the line that is being read, by texts.
pub(crate) fn push_plain(
    alloc: Global,
    builder: &mut Builder,
    plain: &Operation<&[u8], &[u8]>,
) -> Result<(), AllocError>
    requires { IsPlain plain.now }
    ensures { (ids : List Json) (h : List (Transaction Json Json)) (begun : List (Operation Json Json))
        (p : Operation Json Json)
        → IsBuilt builder.old ids h begun → Means plain.now p
        → OnOk result (IsBuilt builder.new ids h (begun ++ p ∷ [])) }
{
    let operation = numbered_plain(alloc, &mut builder.items, &mut builder.values, plain)?;
    builder.history.push(operation)?;
    Ok(())
}

/// Where the last of the lines ends.
fn last_end(lines: &[Line]) -> usize
    ensures { result ≡ end_of 0 lines.now }
{
    match lines.last() {
        Some(line) => line.end,
        None => 0,
    }
}

/// Lets go of the operations of the line that is being read.
fn reopen(history: &mut History)
    ensures closed { closed_of history.new ≡ closed_of history.old }
    ensures open { open_of history.new ≡ [] }
{
    let end = last_end(history.lines.as_slice());
    history.operations.truncate(end);
}

/// Lets go of what was read of the next line.
pub(crate) fn forget_line(builder: &mut Builder)
    ensures { (ids : List Json) (h : List (Transaction Json Json)) (begun : List (Operation Json Json))
        → IsBuilt builder.old ids h begun → IsBuilt builder.new ids h [] }
{
    reopen(&mut builder.history);
}

/// The transaction of the line, whose operations were put, unless an earlier one has its id: false then.
pub(crate) fn close_line(
    alloc: Global,
    builder: &mut Builder,
    id: &[u8],
    commits: bool,
) -> Result<bool, AllocError>
    ensures { (ids : List Json) (h : List (Transaction Json Json)) (begun : List (Operation Json Json)) (j : Json)
        → IsBuilt builder.old ids h begun → HasNumbers j → id.now ≡ compact j
        → IfOk result
        (λ new. IsAdded ids h j (record { commits = commits; operations = begun }) builder.new new) }
{
    match builder.ids.intern(alloc, id)? {
        Interned::Old(_) => Ok(false),
        Interned::New(_) => {
            builder.history.close(commits)?;
            Ok(true)
        }
    }
}
