//! What a page shows of an answer.

ghost use Rattle.std.specs.Prelude.{◌≡◌, ◌≤◌, ◌-◌, ◌⊎◌, IfOk, Some, slice_get, string_bytes};
ghost use Rattle.sgt_page.specs.Answer.{HasNoLineEnd, IsFrontOf, IsPageOf, IsSmall, title_of};

use crate::cut::cut_at_line;
use crate::page::{Page, page_of};
use crate::sentence::sentence;
use std::alloc::{AllocError, Global};

// How much of an answer and of a picture is shown, so that a page stays small.
pub(crate) const MOST_TEXT: usize = 16_384;

pub(crate) const MOST_PICTURE: usize = 131_072;

// What stands in place of a larger picture.
pub(crate) const LEFT_OUT: &str =
    "The picture is too large for a page: sgt draw writes it alone, with --tx N of one transaction.";

/// An answer that is to be shown.
#[derive(Clone, Copy)]
pub struct Answered<'a> {
    /// The command that answered, as `explain` or `check`.
    pub command: &'a str,
    /// The name of what it read.
    pub file: &'a str,
    /// What it wrote.
    pub text: &'a str,
    /// What `sgt explain` says of the rule that the answer names (see `rule_in`): a line with its name, and behind it
    /// what it means. Or nothing.
    pub rule: &'a str,
    /// SVG, or nothing.
    pub picture: &'a [u8],
}

// The end of the last line that ends within what is shown; 0 where none does.
fn whole_lines(text: &[u8]) -> usize
    ensures bound { result ≤ 16384 }
    ensures line { (result ≡ 0) ⊎ ((1 ≤ result) × (slice_get text.now (result - 1) ≡ Some 10)) }
    ensures last { HasNoLineEnd text.now result 16384 }
{
    'ends: for left_out in 0..MOST_TEXT {
        let end = MOST_TEXT - left_out;
        if text.get(end - 1) == Some(&b'\n') {
            return end;
        }
    }
    0
}

// The answer, in whole lines, as much of it as is shown.
fn front_of(text: &[u8]) -> &[u8]
    ensures { IsFrontOf result.now text.now }
{
    if text.len() <= MOST_TEXT {
        return text;
    }
    &text[..whole_lines(text)]
}

// The picture, if it isn't too large, or what stands in its place.
fn small(picture: &[u8]) -> &[u8]
    ensures { IsSmall picture.now result.now }
{
    if picture.len() <= MOST_PICTURE {
        return picture;
    }
    LEFT_OUT.as_bytes()
}

fn title(alloc: Global, answer: Answered<'_>) -> Result<String, AllocError>
    ensures { IfOk result (λ title. string_bytes title ≡ title_of answer.entry) }
{
    let mut title = String::from_str(alloc, "sgt ")?;
    title.push_str(answer.command)?;
    title.push_str(" ")?;
    title.push_str(answer.file)?;
    Ok(title)
}

/// The page of an answer: its verdict in a sentence, the rule that it names, the picture, and the answer's text up to
/// 16,384 bytes in whole lines. In place of a picture of more than 131,072 bytes a line says that it is left out.
pub fn page_of_answer(alloc: Global, answer: Answered<'_>) -> Result<Vec<u8>, AllocError>
    ensures { IfOk result (λ page. IsPageOf answer.entry page.items) }
{
    let title = title(alloc, answer)?;
    let (first, _) = cut_at_line(answer.text);
    let verdict = sentence(alloc, answer.command, first)?;
    let (name, meaning) = cut_at_line(answer.rule);
    page_of(
        alloc,
        Page {
            title: title.as_bytes(),
            verdict: verdict.as_bytes(),
            name: name.as_bytes(),
            meaning: meaning.as_bytes(),
            picture: small(answer.picture),
            text: front_of(answer.text.as_bytes()),
        },
    )
}
