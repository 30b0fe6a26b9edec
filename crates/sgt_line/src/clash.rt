//! Options that don't go with an order that is given, and a file that would be written over what is read.

ghost use Rattle.std.specs.Prelude.{◌≡◌, ◌↔◌, ◌⊎◌, ℕ, IfNone, IfOk, IfSome, IsTrue, List, map, string_bytes};
ghost use Rattle.std.specs.Option.{option_map};
ghost use Rattle.sgt_line.specs.Clashes.{Clashes, HasWord, IsAmong, IsBeside, IsBesideObject, IsBesideOrder, IsCheck, Settles, WritesOverInput};
ghost use Rattle.sgt_line.specs.Parts.{parts_of};

use crate::line::Line;
use crate::texts::{behind_first, first_of};
use std::alloc::{AllocError, Global};

fn is(one: &str, other: &str) -> bool
    ensures { IsTrue result ↔ (one.now ≡ other.now) }
{
    one == other
}

// Whether the word is one of these.
fn has_word(words: &[String], word: &str) -> bool
    ensures { IsTrue result ↔ HasWord word.now (map string_bytes words.now) }
{
    let Some((first, behind)) = first_of(words) else {
        return false;
    };
    if is(first, word) {
        return true;
    }
    has_word(behind, word)
}

fn is_check(line: &Line) -> bool
    ensures { IsTrue result ↔ IsCheck (parts_of line.now) }
{
    match first_of(behind_first(line.words.as_slice())) {
        Some((word, _)) => is(word, "check"),
        None => false,
    }
}

// What stands on the line that is refused beside an order, by the text that says so.
fn beside_order(line: &Line) -> Option<&'static str>
    ensures some { IfSome result (λ text. IsBeside (parts_of line.now) text.now) }
    ensures none { IfNone result ((text : List ℕ) → IsBeside (parts_of line.now) text → ⊥) }
{
    let words = line.words.as_slice();
    if line.place.is_some() {
        return Some("--svg (with --against)");
    }
    if has_word(words, "--order") {
        return Some("--order (with --against)");
    }
    None
}

// The same where an order is given.
fn beside_given(line: &Line) -> Option<&'static str>
    ensures some { IfSome result (λ text. IsBesideOrder (parts_of line.now) text.now) }
    ensures none { IfNone result ((text : List ℕ) → IsBesideOrder (parts_of line.now) text → ⊥) }
{
    if line.against.is_some() && is_check(line) {
        return beside_order(line);
    }
    None
}

// What stands on the line that is refused beside an object of JSON or a page, by the text that says so.
fn beside_object(line: &Line) -> Option<&'static str>
    ensures some { IfSome result (λ text. IsBesideObject (parts_of line.now) text.now) }
    ensures none { IfNone result ((text : List ℕ) → IsBesideObject (parts_of line.now) text → ⊥) }
{
    if line.is_json && line.is_quiet {
        return Some("--quiet (with --json)");
    }
    if line.is_json && line.is_page {
        return Some("--html (with --json)");
    }
    if line.is_json && line.names_rule {
        return Some("RULE (with --json)");
    }
    if line.is_page && line.is_quiet {
        return Some("--quiet (with --html)");
    }
    if line.is_page && line.names_rule {
        return Some("RULE (with --html)");
    }
    None
}

// What stands beside an order, or beside an object.
fn beside(line: &Line) -> Option<&'static str>
    ensures some { IfSome result (λ text. IsBesideOrder (parts_of line.now) text.now
        ⊎ IsBesideObject (parts_of line.now) text.now) }
    ensures none { IfNone result ((text : List ℕ) → IsBesideOrder (parts_of line.now) text
        ⊎ IsBesideObject (parts_of line.now) text → ⊥) }
{
    match beside_given(line) {
        Some(text) => Some(text),
        None => beside_object(line),
    }
}

// Whether the file, if there is one, is among those.
fn is_among(file: &Option<String>, files: &[String]) -> bool
    ensures { IsTrue result ↔ IsAmong (option_map string_bytes file.now) (map string_bytes files.now) }
{
    match file {
        Some(name) => has_word(files, name),
        None => false,
    }
}

// Whether a file that is to be written is one of those that are read.
fn writes_over_input(line: &Line) -> bool
    ensures { IsTrue result ↔ WritesOverInput (parts_of line.now) }
{
    let files = line.files.as_slice();
    is_among(&line.place, files) || is_among(&line.output, files)
}

// What clashes on the line.
fn clash_of(line: &Line) -> Option<&'static str>
    ensures some { IfSome result (λ text. Clashes (parts_of line.now) text.now) }
    ensures none { IfNone result ((text : List ℕ) → Clashes (parts_of line.now) text → ⊥) }
{
    if writes_over_input(line) {
        return Some("FILE (read, and to be written)");
    }
    beside(line)
}

impl Line {
    /// The line; where an option of a check clashes with an order that is given, or the file to be written is read,
    /// with a text that says so for a word more, which no command takes.
    pub fn settled(self, alloc: Global) -> Result<Line, AllocError>
        ensures { IfOk result (λ line. Settles (parts_of self) (parts_of line)) }
    {
        let mut line = self;
        if let Some(text) = clash_of(&line) {
            line.leave(alloc, text)?;
        }
        Ok(line)
    }
}
