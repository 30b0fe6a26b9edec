//! The names of rules, however they are spelled.

ghost use Rattle.std.specs.Prelude.{◌≡◌, ◌↔◌, ◌⊎◌, ℕ, IfNone, IfOk, IfSome, IsTrue, List, codes, string_bytes};
ghost use Rattle.sgt_line.specs.Names.{IsCycleName, IsFaultName, IsKeptName, IsNameOf, IsNumbered, IsPlainName, IsReasonName, IsShortName, IsTopicLetter, NamesRule, Spells, folded};

use std::alloc::{AllocError, Global};

// Whether a rule's name begins so.
fn is_topic_letter(letter: u8) -> bool
    ensures { IsTrue result ↔ IsTopicLetter letter }
{
    matches!(letter, b'F' | b'K' | b'E' | b'L' | b'V' | b'P' | b'C')
}

// Whether the word is a letter and a number, as F10.
fn is_numbered(word: &[u8]) -> bool
    ensures { IsTrue result ↔ IsNumbered word.now }
{
    match word.split_first() {
        Some((letter, digits)) if is_topic_letter(letter.to_ascii_uppercase()) => {
            !digits.is_empty() && digits.iter().all(|b| b.is_ascii_digit())
        }
        _ => false,
    }
}

// The byte as it is compared: a letter of either case, and a hyphen as a blank.
fn folded(byte: u8) -> u8
    ensures { result ≡ folded byte }
{
    if byte == b'-' {
        return b' ';
    }
    byte.to_ascii_lowercase()
}

// Whether the word spells the name.
fn is_spelled(word: &[u8], name: &[u8]) -> bool
    ensures { IsTrue result ↔ Spells word.now name.now }
{
    let Some((byte, behind)) = word.split_first() else {
        return name.is_empty();
    };
    let Some((other, rest)) = name.split_first() else {
        return false;
    };
    if folded(*byte) != folded(*other) {
        return false;
    }
    is_spelled(behind, rest)
}

fn spells(word: &str, name: &str) -> bool
    ensures { IsTrue result ↔ Spells word.now name.now }
{
    is_spelled(word.as_bytes(), name.as_bytes())
}

// The name of a cycle with steps of sessions or of time that the word spells.
fn kept_name(word: &str) -> Option<&'static str>
    ensures some { IfSome result (λ name. IsKeptName name.now × Spells word.now name.now) }
    ensures none { IfNone result ((name : List ℕ) → IsKeptName name → Spells word.now name → ⊥) }
{
    if spells(word, "G1c-process") {
        return Some("G1c-process");
    }
    if spells(word, "G-single-process") {
        return Some("G-single-process");
    }
    if spells(word, "G2-item-process") {
        return Some("G2-item-process");
    }
    if spells(word, "G1c-realtime") {
        return Some("G1c-realtime");
    }
    if spells(word, "G-single-realtime") {
        return Some("G-single-realtime");
    }
    if spells(word, "G2-item-realtime") {
        return Some("G2-item-realtime");
    }
    None
}

// The name of a cycle in a history that the word spells.
fn cycle_name(word: &str) -> Option<&'static str>
    ensures some { IfSome result (λ name. IsCycleName name.now × Spells word.now name.now) }
    ensures none { IfNone result ((name : List ℕ) → IsCycleName name → Spells word.now name → ⊥) }
{
    if spells(word, "G0") {
        return Some("G0");
    }
    if spells(word, "G1c") {
        return Some("G1c");
    }
    if spells(word, "G-single") {
        return Some("G-single");
    }
    if spells(word, "G2-item") {
        return Some("G2-item");
    }
    kept_name(word)
}

// The name of a fault of a history that the word spells.
fn fault_name(word: &str) -> Option<&'static str>
    ensures some { IfSome result (λ name. IsFaultName name.now × Spells word.now name.now) }
    ensures none { IfNone result ((name : List ℕ) → IsFaultName name → Spells word.now name → ⊥) }
{
    if spells(word, "internal") {
        return Some("internal");
    }
    if spells(word, "duplicate") {
        return Some("duplicate");
    }
    if spells(word, "G1a") {
        return Some("G1a");
    }
    if spells(word, "unwritten") {
        return Some("unwritten");
    }
    if spells(word, "G1b") {
        return Some("G1b");
    }
    if spells(word, "value") {
        return Some("value");
    }
    None
}

// The reason that the word spells.
fn reason_name(word: &str) -> Option<&'static str>
    ensures some { IfSome result (λ name. IsReasonName name.now × Spells word.now name.now) }
    ensures none { IfNone result ((name : List ℕ) → IsReasonName name → Spells word.now name → ⊥) }
{
    if spells(word, "no order") {
        return Some("no order");
    }
    if spells(word, "no ranks") {
        return Some("no ranks");
    }
    if spells(word, "no walk") {
        return Some("no walk");
    }
    None
}

// The name without a number that the word spells.
fn plain_name(word: &str) -> Option<&'static str>
    ensures some { IfSome result (λ name. IsPlainName name.now × Spells word.now name.now) }
    ensures none { IfNone result ((name : List ℕ) → IsPlainName name → Spells word.now name → ⊥) }
{
    if let Some(name) = cycle_name(word) {
        return Some(name);
    }
    if let Some(name) = fault_name(word) {
        return Some(name);
    }
    reason_name(word)
}

fn is_short_name(word: &str) -> bool
    ensures { IsTrue result ↔ IsShortName word.now }
{
    is_numbered(word.as_bytes()) || word == "B"
}

/// Whether the word is of the form of a rule's name.
pub fn names_rule(word: &str) -> bool
    ensures { IsTrue result ↔ NamesRule word.now }
{
    if is_short_name(word) {
        return true;
    }
    plain_name(word).is_some()
}

/// The name of the rule that the word spells.
pub fn rule_name(alloc: Global, word: &str) -> Result<String, AllocError>
    requires { NamesRule word.now }
    ensures { IfOk result (λ name. IsNameOf word.now (string_bytes name)) }
{
    if let Some(name) = plain_name(word) {
        return String::from_str(alloc, name);
    }
    word.to_ascii_uppercase(alloc)
}
