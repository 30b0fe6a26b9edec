//! A page, of what it shows.

ghost use Rattle.std.specs.Prelude.{◌≡◌, ◌++◌, IfOk, OnOk};
ghost use Rattle.sgt_markup.specs.Written.{written};
ghost use Rattle.sgt_page.specs.Page.{fixed, page_text, shown_of};

use crate::fixed::{FOOT, HEAD, HEADING, MEANING, NAME, PICTURE, SCRIPT, STYLE, TEXT, VERDICT};
use crate::written::{push_markup, push_part};
use std::alloc::{AllocError, Global};

/// What a page shows.
#[derive(Clone, Copy)]
pub struct Page<'a> {
    pub title: &'a [u8],
    /// What was found, in a sentence.
    pub verdict: &'a [u8],
    /// The name of what was found.
    pub name: &'a [u8],
    pub meaning: &'a [u8],
    /// SVG, or nothing.
    pub picture: &'a [u8],
    /// The explanation, a line each.
    pub text: &'a [u8],
}

// The front, up to the heading.
fn push_head(out: &mut Vec<u8>, title: &[u8]) -> Result<(), AllocError>
    ensures { OnOk result (out.new.items ≡ out.old.items ++ (HEAD.now ++ (written title.now ++ STYLE.now))) }
{
    push_part(out, HEAD, title)?;
    out.extend_from_slice(STYLE.as_bytes())
}

// The heading, the verdict, and what it means.
fn push_top(out: &mut Vec<u8>, page: Page<'_>) -> Result<(), AllocError>
    ensures { OnOk result (out.new.items ≡ out.old.items ++ (HEADING.now ++ (written page.entry.title.now
        ++ (VERDICT.now ++ (written page.entry.verdict.now ++ (NAME.now ++ (written page.entry.name.now
        ++ (MEANING.now ++ written page.entry.meaning.now)))))))) }
{
    push_part(out, HEADING, page.title)?;
    push_part(out, VERDICT, page.verdict)?;
    push_part(out, NAME, page.name)?;
    push_part(out, MEANING, page.meaning)
}

// The picture, and the explanation.
fn push_shown(out: &mut Vec<u8>, page: Page<'_>) -> Result<(), AllocError>
    ensures { OnOk result (out.new.items ≡ out.old.items ++ (PICTURE.now ++ (page.entry.picture.now
        ++ (TEXT.now ++ written page.entry.text.now)))) }
{
    out.extend_from_slice(PICTURE.as_bytes())?;
    out.extend_from_slice(page.picture)?;
    push_part(out, TEXT, page.text)
}

/// The page.
pub fn page_of(alloc: Global, page: Page<'_>) -> Result<Vec<u8>, AllocError>
    ensures { IfOk result (λ text. text.items ≡ page_text fixed (shown_of page.entry)) }
{
    let mut out = Vec::new(alloc);
    push_head(&mut out, page.title)?;
    push_top(&mut out, page)?;
    push_shown(&mut out, page)?;
    push_markup(&mut out, SCRIPT, FOOT)?;
    Ok(out)
}
