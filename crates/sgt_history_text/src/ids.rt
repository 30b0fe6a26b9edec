//! Ids, found among those of a history's lines.

ghost use Rattle.std.specs.Prelude.{◌≡◌, ◌++◌, ◌∷◌, [], IfOk, IfSome, MatchOption, List};
ghost use Rattle.json.specs.Json.{Json};
ghost use Rattle.json.specs.Lex.{tokens};
ghost use Rattle.json.specs.Print.{IsPrintableOrBad};
ghost use Rattle.json.specs.Reads.{token_of};
ghost use Rattle.json.specs.Tree.{HasNumbers, json_tokens};
ghost use Rattle.json.specs.Value.{value_view};
ghost use Rattle.sgt_history_text.specs.Ids.{AreIds, IsFoundAs, IsNoKey};
ghost use Rattle.sgt_history_text.specs.Line.{IsTextOf};
ghost use Rattle.sgt_history_text.specs.Name.{IsId, compact};

use crate::names::Names;
use crate::table::Table;
use json::{Reader, Scratch, Token, Value, to_vec};
use std::alloc::{AllocError, Global};
use std::marker::Model;

/// The string or number that a token is.
fn key_of(token: Token<'_>) -> Option<Value<'_>>
    ensures is { MatchOption result (IsNoKey (token_of token.entry))
        (λ v. json_tokens (value_view v) ≡ token_of token.entry ∷ []) }
    ensures numbers { IsPrintableOrBad (token_of token.entry) → IfSome result (λ v. HasNumbers (value_view v)) }
{
    match token {
        Token::String(text) => Some(Value::String(text)),
        Token::Number(text) => Some(Value::Number(text)),
        Token::BeginObject => None,
        Token::EndObject => None,
        Token::BeginArray => None,
        Token::EndArray => None,
        Token::Key(_) => None,
        Token::Bool(_) => None,
        Token::Null => None,
        Token::Bad => None,
    }
}

/// The string or number that the text is, with nothing behind it.
fn key_in<'a>(text: &'a str, scratch: &'a mut Scratch) -> Result<Option<Value<'a>>, AllocError>
    ensures { IfOk result (λ found. MatchOption found
        ((id : Json) → IsId id → tokens text.now ≡ json_tokens id → ⊥)
        (λ v. (tokens text.now ≡ json_tokens (value_view v)) × HasNumbers (value_view v))) }
{
    let mut reader = Reader::new(text, scratch)?;
    let Some(token) = reader.next() else {
        return Ok(None);
    };
    let Some(value) = key_of(token) else {
        return Ok(None);
    };
    if reader.next().is_some() {
        return Ok(None);
    }
    Ok(Some(value))
}

/// The compact text of the id that the line is a text of.
fn id_text(alloc: Global, scratch: &mut Scratch, line: &[u8]) -> Result<Option<Vec<u8>>, AllocError>
    ensures { IfOk result (λ found. MatchOption found
        ((id : Json) → IsId id → IsTextOf line.now id → ⊥)
        (λ text. (id : Json) × IsTextOf line.now id × HasNumbers id × (text.items ≡ compact id))) }
{
    let Ok(text) = std::str::from_utf8(line) else {
        return Ok(None);
    };
    let Some(value) = key_in(text, scratch)? else {
        return Ok(None);
    };
    Ok(Some(to_vec(alloc, &value)?))
}

/// The ids of a history's lines, to be found by their texts. Contracts see the list of these.
#[derive(Drop)]
pub struct Ids {
    table: Table,
}

impl Model for Ids {
    ghost use Rattle.std.specs.Prelude.{ℕ, List};

    ghost Value = { List (List ℕ) };

    ghost view = { λ a. a.table };
}

impl Ids {
    /// The ids with these texts, in this order.
    pub fn new(alloc: Global, names: &Names) -> Result<Ids, AllocError>
        ensures { IfOk result (λ found. (ids : List Json) → AreIds names.now ids → found ≡ names.now) }
    {
        let mut table = Table::new(alloc)?;
        for number in 0..names.len() {
            let _ = table.intern(alloc, names.get(number))?;
        }
        Ok(Ids { table })
    }

    /// The number of the id that the line is a text of, in whatever layout. `scratch` is room that is kept from line
    /// to line.
    pub fn find(
        &self,
        alloc: Global,
        scratch: &mut Scratch,
        line: &[u8],
    ) -> Result<Option<u32>, AllocError>
        ensures { IfOk result (λ found. (ids : List Json) → AreIds self.now ids → IsFoundAs ids line.now found) }
    {
        let Some(text) = id_text(alloc, scratch, line)? else {
            return Ok(None);
        };
        Ok(self.table.number_of(text.as_slice()))
    }
}
