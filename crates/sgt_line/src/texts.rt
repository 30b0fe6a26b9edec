//! Words, from the first and from the last.

ghost use Rattle.std.specs.Prelude.{◌≡◌, ◌≢◌, ◌∷◌, ◌++◌, [], ℕ, List, MatchOption, drop, map, string_bytes};

/// The first word, and the words behind it.
pub fn first_of(words: &[String]) -> Option<(&str, &[String])>
    ensures { MatchOption result (map string_bytes words.now ≡ [])
        (λ cut. map string_bytes words.now ≡ cut.0.now ∷ map string_bytes cut.1.now) }
{
    match words.split_first() {
        Some((word, behind)) => Some((word.as_str(), behind)),
        None => None,
    }
}

/// The words before the last, and the last.
pub fn last_of(words: &[String]) -> Option<(&[String], &str)>
    ensures { MatchOption result (map string_bytes words.now ≡ [])
        (λ cut. map string_bytes words.now ≡ map string_bytes cut.0.now ++ (cut.1.now ∷ [])) }
{
    match words.split_last() {
        Some((word, before)) => Some((before, word.as_str())),
        None => None,
    }
}

/// The word, where there is one and no other.
pub fn only_of(words: &[String]) -> Option<&str>
    ensures { MatchOption result ((word : List ℕ) → map string_bytes words.now ≢ word ∷ [])
        (λ word. map string_bytes words.now ≡ word.now ∷ []) }
{
    let (word, behind) = first_of(words)?;
    if behind.is_empty() {
        return Some(word);
    }
    None
}

/// The words behind the first.
pub fn behind_first(words: &[String]) -> &[String]
    ensures { map string_bytes result.now ≡ drop 1 (map string_bytes words.now) }
{
    match first_of(words) {
        Some((_, behind)) => behind,
        None => words,
    }
}
