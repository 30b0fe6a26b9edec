//! Where a text is cut.

ghost use Rattle.std.specs.Prelude.{◌≡◌, ◌≢◌, ◌++◌, ◌==◌, ◌↔◌, ℕ, IsTrue, List, MatchOption};
ghost use Rattle.std.specs.List.{before_first};
ghost use Rattle.sgt_page.specs.Answer.{IsCutAtLine};
ghost use Rattle.sgt_page.specs.Verdict.{EndsSo};

/// What stands behind this word at the front.
pub(crate) fn behind<'a>(text: &'a str, word: &str) -> Option<&'a str>
    ensures { MatchOption result ((rest : List ℕ) → text.entry.now ≢ word.now ++ rest)
        (λ rest. text.entry.now ≡ word.now ++ rest.now) }
{
    text.strip_prefix(word)
}

/// Whether the text ends with this word.
pub(crate) fn ends_so(text: &str, word: &str) -> bool
    ensures { IsTrue result ↔ EndsSo text.now word.now }
{
    text.ends_with(word)
}

/// The first line, and what stands behind it.
pub(crate) fn cut_at_line(text: &str) -> (&str, &str)
    ensures { IsCutAtLine text.now result.0.now result.1.now }
{
    match text.split_once('\n') {
        Some(cut) => cut,
        None => (text, ""),
    }
}

/// What stands before the first blank.
pub(crate) fn first_word(text: &str) -> &str
    ensures { result.now ≡ before_first (λ b. b == 32) text.now }
{
    match text.split_once(' ') {
        Some((word, _)) => word,
        None => text,
    }
}
