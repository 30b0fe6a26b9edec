//! The members of a line's object: of each name that says something the last, the operations put as soon as they are
//! read.

ghost use Rattle.std.specs.Prelude.{true, false, ◌≡◌, ◌++◌, ◌≤◌, ◌<◌, List, IfOk, IfSome, MatchOption, OnOk, Some, length, slice_get, ℕ};
ghost use Rattle.std.specs.Bool.{MatchBool};
ghost use Rattle.std.specs.Str.{bytes_eq};
ghost use Rattle.json.specs.Find.{get_member};
ghost use Rattle.json.specs.Json.{Json, Members};
ghost use Rattle.json.specs.Token.{Token as SpecToken};
ghost use Rattle.json.specs.Tree.{json_tokens, members_tokens};
ghost use Rattle.json.specs.Value.{members_view, value_view};
ghost use Rattle.sgt_history_text.specs.Members.{IsMemberTaken, IsReadFrom, IsToldTaken, Replaces, get_with, is_told};
ghost use Rattle.sgt_history_text.specs.Shallow.{Closes, NoValue};

use crate::building::Builder;
use crate::putting::replace_operations;
use crate::shallow::{leaf, pass};
use json::{Reader, Value};
use std::alloc::{AllocError, Global};

/// What was found so far.
#[derive(Drop)]
pub(crate) struct Found<'a> {
    /// Of each name that is told the last member.
    pub members: Vec<(&'a str, Value<'a>)>,
    /// Whether the last member "ops" is an array of operations, which were put.
    pub operations: bool,
}

/// An object that was read.
#[derive(Drop)]
pub(crate) struct Object<'a> {
    /// The last of its members of each name that is told.
    pub members: Value<'a>,
    /// Whether its last member "ops" is an array of operations, which were put.
    pub operations: bool,
}

/// Whether a member of this name says something of a transaction besides its operations, of when it ran, of its session.
fn is_told(name: &str) -> bool
    ensures { result ≡ is_told name.now }
{
    name == "tx" || name == "end" || name == "begin" || name == "done" || name == "session"
}

/// The place of a member of this name, if there is one.
fn place_of(members: &[(&str, Value<'_>)], name: &str) -> Option<usize>
    ensures { IfSome result (λ at. (at < length members.now)
        × IfSome (slice_get members.now at) (λ m. bytes_eq m.0.now name.now ≡ true)) }
{
    for (at, member) in members.iter().enumerate() {
        if member.0 == name {
            return Some(at);
        }
    }
    None
}

/// Lets a member of this name go.
fn forget(members: &mut Vec<(&str, Value<'_>)>, name: &str)
    ensures { (other : List ℕ) → bytes_eq name.now other ≡ false
        → get_member other (members_view members.new.items) ≡ get_member other (members_view members.old.items) }
{
    if let Some(at) = place_of(members.as_slice(), name) {
        let _ = members.remove(at);
    }
}

/// The last member of this name has this value from now on. What it had is let go.
fn put<'a>(
    members: &mut Vec<(&'a str, Value<'a>)>,
    name: &'a str,
    value: Value<'a>,
) -> Result<(), AllocError>
    ensures { OnOk result ((other : List ℕ) → get_member other (members_view members.new.items)
        ≡ get_with (members_view members.old.items) name.now (value_view value.entry) other) }
{
    forget(members, name);
    members.push((name, value))?;
    Ok(())
}

/// The value of a member whose name is told, which is kept. False: there is no value.
fn keep_told<'a>(
    alloc: Global,
    reader: &mut Reader<'a>,
    members: &mut Vec<(&'a str, Value<'a>)>,
    name: &'a str,
) -> Result<bool, AllocError>
    ensures fewer { length reader.new ≤ length reader.old }
    ensures taken { IfOk result (λ taken. MatchBool taken
        (IsToldTaken reader.old reader.new name.now (members_view members.old.items) (members_view members.new.items))
        (NoValue reader.old)) }
{
    match leaf(alloc, reader)? {
        Some(value) => {
            put(members, name, value)?;
            Ok(true)
        }
        None => Ok(false),
    }
}

/// The value of a member, which is kept if its name is told, else passed over. False: there is no value.
fn take_told<'a>(
    alloc: Global,
    reader: &mut Reader<'a>,
    members: &mut Vec<(&'a str, Value<'a>)>,
    name: &'a str,
) -> Result<bool, AllocError>
    ensures fewer { length reader.new ≤ length reader.old }
    ensures taken { IfOk result (λ taken. MatchBool taken
        (IsToldTaken reader.old reader.new name.now (members_view members.old.items) (members_view members.new.items))
        (NoValue reader.old)) }
{
    if is_told(name) {
        return keep_told(alloc, reader, members, name);
    }
    pass(alloc, reader)
}

/// The value of a member "ops", whose operations are put in place of those of an earlier one. False: there is no value.
fn take_operations(
    alloc: Global,
    reader: &mut Reader<'_>,
    builder: &mut Builder,
    are: &mut bool,
) -> Result<bool, AllocError>
    ensures fewer { length reader.new ≤ length reader.old }
    ensures taken { IfOk result (λ taken. MatchBool taken
        ((j : Json) × (reader.old ≡ json_tokens j ++ reader.new) × Replaces builder.old builder.new (Some j) are.new)
        (NoValue reader.old)) }
{
    match replace_operations(alloc, reader, builder)? {
        Some(they_are) => {
            *are = they_are;
            Ok(true)
        }
        None => Ok(false),
    }
}

/// The value of a member. False: there is no value.
fn take_member<'a>(
    alloc: Global,
    reader: &mut Reader<'a>,
    builder: &mut Builder,
    found: &mut Found<'a>,
    name: &'a str,
) -> Result<bool, AllocError>
    ensures fewer { length reader.new ≤ length reader.old }
    ensures taken { IfOk result (λ taken. MatchBool taken
        (IsMemberTaken reader.old reader.new name.now found.old found.new builder.old builder.new)
        (NoValue reader.old)) }
{
    if name == "ops" {
        return take_operations(alloc, reader, builder, &mut found.operations);
    }
    take_told(alloc, reader, &mut found.members, name)
}

/// The rest of an object, of which no more is kept than the last members of the names that are told. The operations of
/// the last member "ops" are put.
pub(crate) fn members<'a>(
    alloc: Global,
    reader: &mut Reader<'a>,
    builder: &mut Builder,
) -> Result<Option<Object<'a>>, AllocError>
    ensures fewer { length reader.new ≤ length reader.old }
    ensures read { IfOk result (λ found. MatchOption found
        ((rest : List SpecToken) → Closes true reader.old rest → ⊥)
        (λ o. (ms : Members) × (reader.old ≡ members_tokens ms ++ reader.new)
        × IsReadFrom builder.old builder.new ms o)) }
{
    let mut found = Found {
        members: Vec::new(alloc),
        operations: false,
    };
    'members: loop {
        let Ok(next) = reader.next_key() else {
            return Ok(None);
        };
        let Some(key) = next else {
            let Found {
                members,
                operations,
            } = found;
            return Ok(Some(Object {
                members: Value::Object(members),
                operations,
            }));
        };
        let taken = take_member(alloc, reader, builder, &mut found, key)?;
        if !taken {
            return Ok(None);
        }
    }
}
