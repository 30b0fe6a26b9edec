//! Why a line is no certificate's, seen by its tokens and without a tree: it is no JSON, or it has a certificate's
//! shape and spaces. Up to `certificate` each function passes what it is named after, and gives nothing where that
//! isn't next. Members are passed in the order of the one text alone, so other lines may have the shape too.

ghost use Rattle.std.specs.Prelude.{◌≡◌, ◌∷◌, IfOk, IfSome, IsTrue, None, Some, nat_le, true};
ghost use Rattle.std.specs.List.{list_any};
ghost use Rattle.json.specs.Token.{begin_array, begin_object, end_object, key};
ghost use Rattle.serde_json.specs.Data.{Data};
ghost use Rattle.serde_json.specs.Read.{read};
ghost use Rattle.sgt_bundle.specs.Line.{Refuses, is_certificate_object, is_decision_object, is_step_object};
ghost use Rattle.sgt_bundle.specs.Private.{HasItems, HasNumber, HasText, HasValue, IsWhole};

use crate::fault::CertFault;
use json::{Reader, Scratch, Token};
use sgt_notation::front_number;
use std::alloc::{AllocError, Global};

/// A value that nests deeper is none.
const MAX_DEPTH: usize = 127;

fn open_object(reader: &mut Reader<'_>) -> Option<()>
    ensures { IfSome result (λ _. reader.old ≡ begin_object ∷ reader.new) }
{
    match reader.next() {
        Some(Token::BeginObject) => Some(()),
        _ => None,
    }
}

fn close_object(reader: &mut Reader<'_>) -> Option<()>
    ensures { IfSome result (λ _. reader.old ≡ end_object ∷ reader.new) }
{
    match reader.next() {
        Some(Token::EndObject) => Some(()),
        _ => None,
    }
}

fn open_array(reader: &mut Reader<'_>) -> Option<()>
    ensures { IfSome result (λ _. reader.old ≡ begin_array ∷ reader.new) }
{
    match reader.next() {
        Some(Token::BeginArray) => Some(()),
        _ => None,
    }
}

fn any_key<'a>(reader: &mut Reader<'a>) -> Option<&'a str>
    ensures { IfSome result (λ name. reader.old ≡ key name.now ∷ reader.new) }
{
    match reader.next() {
        Some(Token::Key(name)) => Some(name),
        _ => None,
    }
}

fn one_key(reader: &mut Reader<'_>, wanted: &str) -> Option<()>
    ensures { IfSome result (λ _. reader.old ≡ key wanted.now ∷ reader.new) }
{
    let name = any_key(reader)?;
    if name == wanted { Some(()) } else { None }
}

/// Whether the text is that of a number below 2^64, in decimal digits.
fn is_whole(text: &str) -> bool
    ensures { IsTrue result → IsWhole text.now }
{
    match front_number(text.as_bytes()) {
        Some((_, rest)) => rest.is_empty(),
        None => false,
    }
}

fn whole(reader: &mut Reader<'_>) -> Option<()>
    ensures { IfSome result (λ _. HasNumber reader.old reader.new) }
{
    match reader.next() {
        Some(Token::Number(text)) => if is_whole(text) { Some(()) } else { None },
        _ => None,
    }
}

fn text(reader: &mut Reader<'_>) -> Option<()>
    ensures { IfSome result (λ _. HasText reader.old reader.new) }
{
    match reader.next() {
        Some(Token::String(_)) => Some(()),
        _ => None,
    }
}

fn step(reader: &mut Reader<'_>) -> Option<()>
    ensures { IfSome result (λ _. HasValue is_step_object 1 reader.old reader.new) }
{
    open_object(reader)?;
    one_key(reader, "item")?;
    text(reader)?;
    one_key(reader, "kind")?;
    text(reader)?;
    one_key(reader, "site")?;
    whole(reader)?;
    one_key(reader, "to")?;
    whole(reader)?;
    close_object(reader)
}

/// Steps, and the closing bracket.
fn steps(reader: &mut Reader<'_>) -> Option<()>
    ensures { IfSome result (λ _. HasItems is_step_object 1 reader.old reader.new) }
{
    while !reader.take_end_array() {
        step(reader)?;
    }
    Some(())
}

fn decision(reader: &mut Reader<'_>) -> Option<()>
    ensures { IfSome result (λ _. HasValue is_decision_object 3 reader.old reader.new) }
{
    open_object(reader)?;
    let name = any_key(reader)?;
    whole(reader)?;
    if name == "refuse" {
        one_key(reader, "walk")?;
        open_array(reader)?;
        steps(reader)?;
    } else if name == "commit" {
        one_key(reader, "rank")?;
        whole(reader)?;
    } else if name != "withdraw" {
        return None;
    }
    close_object(reader)
}

/// Decisions, and the closing bracket.
fn decisions(reader: &mut Reader<'_>) -> Option<()>
    ensures { IfSome result (λ _. HasItems is_decision_object 3 reader.old reader.new) }
{
    while !reader.take_end_array() {
        decision(reader)?;
    }
    Some(())
}

fn certificate(reader: &mut Reader<'_>) -> Option<()>
    ensures { IfSome result (λ _. HasValue is_certificate_object 5 reader.old reader.new) }
{
    open_object(reader)?;
    one_key(reader, "decisions")?;
    open_array(reader)?;
    decisions(reader)?;
    one_key(reader, "sites")?;
    whole(reader)?;
    close_object(reader)
}

/// Whether it is seen that the text is JSON of a certificate's shape.
fn is_shaped(text: &str, scratch: &mut Scratch) -> Result<bool, AllocError>
    ensures { IfOk result
        (λ seen. IsTrue seen
        → (d : Data) × (read text.now ≡ Some d) × (is_certificate_object d ≡ true)) }
{
    let mut reader = Reader::new(text, scratch)?;
    let Some(()) = certificate(&mut reader) else {
        return Ok(false);
    };
    match reader.next() {
        Some(_) => Ok(false),
        None => Ok(true),
    }
}

/// Whether it is seen that the text is no JSON. The size of numbers is not looked at: one may be too large to have a
/// value.
#[tactic(auto, using(crate::proofs::Shown::broken_read, crate::proofs::Shown::further_read))]
fn is_broken(text: &str, scratch: &mut Scratch) -> Result<bool, AllocError>
    ensures { IfOk result (λ seen. IsTrue seen → read text.now ≡ None) }
{
    let mut reader = Reader::new(text, scratch)?;
    let Ok(()) = reader.skip_value(MAX_DEPTH) else {
        return Ok(true);
    };
    match reader.next() {
        Some(_) => Ok(true),
        None => Ok(false),
    }
}

/// Whether a space or a control byte stands in the line.
fn has_space(line: &[u8]) -> bool
    ensures { result ≡ list_any (λ b. nat_le b 32) line.now }
{
    line.iter().any(|byte| *byte <= b' ')
}

/// Why the line is no certificate's, where its tokens show that.
#[tactic(auto, using(crate::proofs::Spaced::not_utf8, crate::proofs::Spaced::no_value, crate::proofs::Spaced::has_spaces))]
pub(crate) fn fault(alloc: Global, line: &[u8]) -> Result<Option<CertFault>, AllocError>
    ensures { IfOk result (λ found. IfSome found (λ fault. Refuses line.now fault)) }
{
    let Ok(text) = std::str::from_utf8(line) else {
        return Ok(Some(CertFault::NotJson));
    };
    let mut scratch = Scratch::new(alloc);
    if has_space(line) && is_shaped(text, &mut scratch)? {
        return Ok(Some(CertFault::Range));
    }
    if is_broken(text, &mut scratch)? {
        return Ok(Some(CertFault::NotJson));
    }
    Ok(None)
}
