//! By what the names of items sort.

ghost use Rattle.std.specs.Prelude.{[], ◌≡◌, ◌≢◌, ◌++◌, ◌∷◌, ◌+◌, ◌<◌, ◌≤◌, ◌^◌, IfOk, IfSome, List, MatchOption, decimal, length, ℕ};
ghost use Rattle.std.specs.Char.{digit_char};
ghost use Rattle.json.specs.Print.{escape, escape_byte};
ghost use Rattle.sgt_check.specs.Key.{IsKeyOfText, letter_byte};

use std::alloc::{AllocError, Global};

/// By what a name sorts: numbers before strings, numbers by value, strings by bytes. A number has no bytes, and a
/// string the value 0.
#[derive(PartialEq, Eq, PartialOrd, Ord, Drop)]
pub(crate) struct Key {
    pub is_string: bool,
    pub value: u64,
    pub bytes: Vec<u8>,
}

/// What the letter of a short escape stands for.
fn unescaped(letter: u8) -> u8
    ensures { result ≡ letter_byte letter }
{
    match letter {
        b'b' => 8,
        b'f' => 12,
        b'n' => b'\n',
        b'r' => b'\r',
        b't' => b'\t',
        other => other,
    }
}

/// The value of a digit from 0 to 9 or from a to f: ten letters stand between `W` and `a`.
fn digit(letter: u8) -> u8
    ensures { (d : ℕ) → d < 16 → letter ≡ digit_char d → result ≡ d }
{
    if letter <= b'9' {
        letter.saturating_sub(b'0')
    } else {
        letter.saturating_sub(b'W')
    }
}

/// The byte whose escape this is, behind its backslash, and what stands behind it.
fn escaped(text: &[u8]) -> Option<(u8, &[u8])>
    ensures shorter { IfSome result (λ r. length r.1.now + 1 ≤ length text.entry.now) }
    ensures front { MatchOption result ((x : ℕ) (rest : List ℕ) → 92 ∷ text.entry.now ≡ escape_byte x ++ rest → ⊥)
        (λ r. (x : ℕ) (rest : List ℕ) → 92 ∷ text.entry.now ≡ escape_byte x ++ rest → (r.0 ≡ x) × (r.1.now ≡ rest)) }
{
    let Some((letter, rest)) = text.split_first() else {
        return None;
    };
    if *letter != b'u' {
        return Some((unescaped(*letter), rest));
    }
    let Some((digits, rest)) = rest.split_at_checked(4) else {
        return None;
    };
    let (high, low) = (digit(digits[2]), digit(digits[3]));
    Some((high.wrapping_mul(16).wrapping_add(low), rest))
}

/// The byte of a string that stands in front of its text, and what stands behind that.
fn front_byte(text: &[u8]) -> Option<(u8, &[u8])>
    ensures shorter { IfSome result (λ r. length r.1.now + 1 ≤ length text.entry.now) }
    ensures front { MatchOption result ((x : ℕ) (rest : List ℕ) → text.entry.now ≡ escape_byte x ++ rest → ⊥)
        (λ r. (x : ℕ) (rest : List ℕ) → text.entry.now ≡ escape_byte x ++ rest → (r.0 ≡ x) × (r.1.now ≡ rest)) }
{
    let Some((byte, rest)) = text.split_first() else {
        return None;
    };
    if *byte == b'\\' {
        escaped(rest)
    } else {
        Some((*byte, rest))
    }
}

/// The bytes of the string whose text this is, its quotes left out.
fn string_bytes(alloc: Global, text: &[u8]) -> Result<Vec<u8>, AllocError>
    ensures { IfOk result (λ bytes. (s : List ℕ) → text.now ≡ escape s → bytes.items ≡ s) }
{
    let mut bytes = Vec::new(alloc);
    let mut left = text;
    'bytes: while let Some((byte, rest)) = front_byte(left) {
        bytes.push(byte)?;
        left = rest;
    }
    Ok(bytes)
}

/// The number whose text this is.
fn number_in(text: &[u8]) -> u64
    ensures value { (n : ℕ) → n < 2 ^ 64 → text.now ≡ decimal n → result ≡ n }
    ensures fits { result < 2 ^ 64 }
{
    let Ok(text) = std::str::from_utf8(text) else {
        return 0;
    };
    match text.parse::<u64>() {
        Ok(value) => value,
        Err(_) => 0,
    }
}

/// What is in the quotes, if a quotation mark stands in front.
fn quoted(text: &[u8]) -> Option<&[u8]>
    ensures { MatchOption result ((inside : List ℕ) → text.entry.now ≢ 34 ∷ (inside ++ 34 ∷ []))
        (λ found. (last : ℕ) × (text.entry.now ≡ 34 ∷ (found.now ++ last ∷ []))) }
{
    let (first, rest) = text.split_first()?;
    let (_, inside) = rest.split_last()?;
    if *first == b'"' { Some(inside) } else { None }
}

/// By what a name sorts whose text this is.
pub(crate) fn key_of(alloc: Global, text: &[u8]) -> Result<Key, AllocError>
    ensures { IfOk result (IsKeyOfText text.now) }
{
    match quoted(text) {
        Some(inside) => Ok(Key {
            is_string: true,
            value: 0,
            bytes: string_bytes(alloc, inside)?,
        }),
        None => Ok(Key {
            is_string: false,
            value: number_in(text),
            bytes: Vec::new(alloc),
        }),
    }
}
