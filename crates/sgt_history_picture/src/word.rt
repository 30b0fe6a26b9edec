//! The words of a line: what stands between its spaces, but for those in strings.

ghost use Rattle.std.specs.Prelude.{◌≡◌, ◌++◌, ◌∷◌, ℕ, List, IfNone, IfSome};
ghost use Rattle.sgt_history_picture.specs.Words.{IsWord, next};

/// Where a byte stands.
#[derive(Clone, Copy, PartialEq, Eq)]
pub(crate) enum Place {
    Outside,
    /// In a string.
    Inside,
    /// In a string, behind a backslash.
    Escaped,
}

/// Where the byte behind this one stands.
fn next_place(place: Place, byte: u8) -> Place
    ensures { result ≡ next place byte }
{
    match place {
        Place::Outside => {
            if byte == b'"' {
                Place::Inside
            } else {
                Place::Outside
            }
        }
        Place::Inside => {
            if byte == b'"' {
                Place::Outside
            } else if byte == b'\\' {
                Place::Escaped
            } else {
                Place::Inside
            }
        }
        Place::Escaped => Place::Inside,
    }
}

/// The first word, and what stands behind its space; None where no space ends a word.
pub(crate) fn cut_word(text: &[u8]) -> Option<(&[u8], &[u8])>
    ensures some { IfSome result (λ cut. IsWord cut.0.now × (text.now ≡ cut.0.now ++ 32 ∷ cut.1.now)) }
    ensures none { IfNone result ((word rest : List ℕ) → IsWord word → text.now ≡ word ++ 32 ∷ rest → ⊥) }
{
    let mut place = Place::Outside;
    for at in 0..text.len() {
        if place == Place::Outside && text[at] == b' ' {
            return Some((&text[..at], &text[at + 1..]));
        }
        place = next_place(place, text[at]);
    }
    None
}
