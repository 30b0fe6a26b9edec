//! The pieces that a line is made of, and what they tell.

ghost use Rattle.std.specs.Prelude.{◌≡◌, ◌≤◌, ◌++◌, ℕ, List, IfOk, IfSome, OnOk, length, map};
ghost use Rattle.std.specs.Option.{option_map};
ghost use Rattle.json.specs.Print.{quoted};
ghost use Rattle.sgt_json.specs.Told.{at_least_one, piece_of, shown, size_of, told};

use crate::names::push_named;
use crate::quoted::push_quoted;
use crate::scan::{begins, blanks, digits, end_of, json_end};
use std::alloc::{AllocError, Global};

/// A piece of a line. What stands behind a key's text is its value; the key has its comma, quotes and colon.
#[derive(Clone, Copy)]
pub(crate) enum Piece {
    /// This text, which tells nothing.
    Fixed(&'static str),
    /// Blanks, or none.
    Blanks,
    /// The digits that stand here, one at least: the key, and the number.
    Number(&'static str),
    /// The string or the digits that stand here, one byte at least: the key, and that.
    Json(&'static str),
    /// What stands in front of the second text, and this: the key, and what stands there as a string.
    Text(&'static str, &'static str),
    /// All that is left: the key, and it as a string.
    Rest(&'static str),
    /// All that is left: the name of a fault, with its longer name.
    Fault,
    /// Nothing: this text.
    Member(&'static str),
}

// The number, if it isn't 0.
fn at_least_one(size: usize) -> Option<usize>
    ensures { result ≡ at_least_one size }
{
    if size == 0 { None } else { Some(size) }
}

// How many bytes the piece takes off the front, if it stands there.
fn size_of(piece: Piece, line: &[u8]) -> Option<usize>
    ensures is { result ≡ size_of (piece_of piece) line.now }
    ensures within { IfSome result (λ size. size ≤ length line.now) }
{
    match piece {
        Piece::Fixed(text) => {
            if begins(line, text.as_bytes()) {
                Some(text.len())
            } else {
                None
            }
        }
        Piece::Blanks => Some(blanks(line)),
        Piece::Number(_) => at_least_one(digits(line)),
        Piece::Json(_) => at_least_one(json_end(line)),
        Piece::Text(_, mark) => end_of(mark.as_bytes(), line),
        Piece::Rest(_) => Some(line.len()),
        Piece::Fault => Some(line.len()),
        Piece::Member(_) => Some(0),
    }
}

// Writes the key, and the text as a string.
fn push_string(out: &mut Vec<u8>, key: &str, text: &[u8]) -> Result<(), AllocError>
    ensures { OnOk result (out.new.items ≡ out.old.items ++ (key.now ++ quoted text.now)) }
{
    out.extend_from_slice(key.as_bytes())?;
    push_quoted(out, text)
}

// Writes the key, and the text as it is.
fn push_value(out: &mut Vec<u8>, key: &str, text: &[u8]) -> Result<(), AllocError>
    ensures { OnOk result (out.new.items ≡ out.old.items ++ (key.now ++ text.now)) }
{
    out.extend_from_slice(key.as_bytes())?;
    out.extend_from_slice(text)
}

// Writes what the piece tells that took this text.
fn push_shown(out: &mut Vec<u8>, piece: Piece, taken: &[u8]) -> Result<(), AllocError>
    ensures { OnOk result (out.new.items ≡ out.old.items ++ shown (piece_of piece) taken.now) }
{
    match piece {
        Piece::Fixed(_) => Ok(()),
        Piece::Blanks => Ok(()),
        Piece::Number(key) => push_value(out, key, taken),
        Piece::Json(key) => push_value(out, key, taken),
        Piece::Text(key, mark) => {
            let size = taken.len().saturating_sub(mark.len());
            push_string(out, key, &taken[..size])
        }
        Piece::Rest(key) => push_string(out, key, taken),
        Piece::Fault => push_named(out, taken),
        Piece::Member(text) => out.extend_from_slice(text.as_bytes()),
    }
}

/// What a line of these pieces tells; None, if it isn't one.
pub(crate) fn told(
    alloc: Global,
    form: &[Piece],
    line: &[u8],
) -> Result<Option<Vec<u8>>, AllocError>
    ensures { IfOk result (λ found. option_map (λ text. text.items) found ≡ told (map piece_of form.now) line.now) }
{
    let Some((piece, behind)) = form.split_first() else {
        return Ok(if line.is_empty() {
            Some(Vec::new(alloc))
        } else {
            None
        });
    };
    let Some(size) = size_of(*piece, line) else {
        return Ok(None);
    };
    let Some(more) = told(alloc, behind, &line[size..])? else {
        return Ok(None);
    };
    let mut text = Vec::new(alloc);
    push_shown(&mut text, *piece, &line[..size])?;
    text.extend_from_slice(more.as_slice())?;
    Ok(Some(text))
}
