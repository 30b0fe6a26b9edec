//! The lines of a text, by number.

ghost use Rattle.std.specs.Prelude.{◌≡◌, ℕ, List, [], ◌∷◌, ◌++◌, length, All, IfSome, IsSomeAnd};
ghost use Rattle.sgt_notation.specs.Spelling.{text_of_lines, HasNoLf};
ghost use Rattle.sgt_explain_lines.specs.Numbered.{IsLineAt};
ghost use Rattle.sgt_explain_lines.specs.Places.{HasUpTo};

use sgt_notation::find_lf;

/// The first line without its LF, and what stands behind it. Where there is no LF, all bytes are the line.
pub fn cut_line(bytes: &[u8]) -> (&[u8], &[u8])
    ensures cut { (line rest : List ℕ) → HasNoLf line → bytes.now ≡ line ++ 10 ∷ rest
        → (result.0.now ≡ line) × (result.1.now ≡ rest) }
    ensures last { HasNoLf bytes.now → (result.0.now ≡ bytes.now) × (result.1.now ≡ []) }
{
    match find_lf(bytes) {
        Some(n) => (&bytes[..n], &bytes[n + 1..]),
        None => (bytes, &bytes[..0]),
    }
}

/// What stands behind so many lines. Nothing where there are fewer.
pub fn after_line(bytes: &[u8], number: u64) -> &[u8]
    ensures { (lines : List (List ℕ)) (rest : List ℕ) → All HasNoLf lines → number ≡ length lines
        → bytes.now ≡ text_of_lines lines ++ rest → result.now ≡ rest }
{
    let mut rest = bytes;
    for _ in 0..number {
        rest = cut_line(rest).1;
        if rest.is_empty() {
            return rest;
        }
    }
    rest
}

/// The line of this number, counted from 1, without its LF. `None` where the text ends before it.
pub fn line_at(bytes: &[u8], number: u64) -> Option<&[u8]>
    ensures some { (line : List ℕ) → IsLineAt bytes.now number line → IsSomeAnd result (λ l. l.now ≡ line) }
    ensures none { HasUpTo bytes.now number → IfSome result (λ _. ⊥) }
{
    let rest = after_line(bytes, number.saturating_sub(1));
    if rest.is_empty() {
        None
    } else {
        Some(cut_line(rest).0)
    }
}

/// The same, and nothing where the text ends before it.
pub fn text_at(bytes: &[u8], number: u64) -> &[u8]
    ensures { (line : List ℕ) → IsLineAt bytes.now number line → result.now ≡ line }
{
    match line_at(bytes, number) {
        Some(line) => line,
        None => &bytes[..0],
    }
}
