//! The digits of whole numbers.

ghost use Rattle.std.specs.Prelude.{ℕ, ◌≡◌, ◌≢◌, ◌⊎◌, ◌∷◌, List, ◌≤◌, ◌↔◌, IsTrue, MatchOption, decimal};
ghost use Rattle.sgt_history_text.specs.Name.{IsNegative, IsWhole};

/// The whole number from 0 to 2^64-1 whose decimal digits the text is.
pub(crate) fn whole(text: &str) -> Option<u64>
    ensures { MatchOption result (IsWhole text.now → ⊥) (λ n. text.now ≡ decimal n) }
{
    let Ok(n) = text.parse::<u64>() else {
        return None;
    };
    let mut buffer = itoa::Buffer::new();
    if buffer.format(n) == text {
        Some(n)
    } else {
        None
    }
}

/// Whether the text is that of a whole number from 0 to 2^64-1.
pub(crate) fn is_whole(text: &str) -> bool
    ensures { IsTrue result ↔ IsWhole text.now }
{
    whole(text).is_some()
}

/// What stands behind a minus.
fn after_minus(text: &str) -> Option<&str>
    ensures { MatchOption result ((rest : List ℕ) → text.entry.now ≢ 45 ∷ rest)
        (λ rest. text.entry.now ≡ 45 ∷ rest.now) }
{
    text.strip_prefix('-')
}

/// Whether the text is that of a whole number from -2^63 to -1.
fn is_negative(text: &str) -> bool
    ensures { IsTrue result ↔ IsNegative text.now }
{
    let Some(digits) = after_minus(text) else {
        return false;
    };
    let Some(n) = whole(digits) else {
        return false;
    };
    is_within(n, 1, 1 << 63)
}

/// Whether the text is that of a whole number from -2^63 to 2^64-1.
pub(crate) fn is_integer(text: &str) -> bool
    ensures { IsTrue result ↔ (IsWhole text.now ⊎ IsNegative text.now) }
{
    is_whole(text) || is_negative(text)
}

pub(crate) fn is_within(n: u64, least: u64, most: u64) -> bool
    ensures { IsTrue result ↔ ((least ≤ n) × (n ≤ most)) }
{
    least <= n && n <= most
}
