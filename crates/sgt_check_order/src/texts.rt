//! The texts of answers.

ghost use Rattle.std.specs.Prelude.{◌≡◌, ◌++◌, ℕ, List, IfOk};
ghost use Rattle.sgt_check.specs.Text.{Spelling};
ghost use Rattle.sgt_check.specs.Told.{spelled, text_at};
ghost use Rattle.sgt_check_kept.specs.Text.{link_text};
ghost use Rattle.sgt_check_order.specs.Text.{back_text, break_text, reason_text, stray_text};
ghost use Rattle.sgt_check_order.specs.Told.{first_text};

use crate::breaking::FirstBreak;
use crate::run::Broken;
use sgt_check::{Naming, push_line_number, push_name, push_operation};
use sgt_check_kept::{Link, Setting, push_link};
use sgt_history_kept::{Reason, Unkept};
use sgt_notation::push_number;
use std::alloc::{AllocError, Global};

/// The text of the first line of an order that is wrong.
pub(crate) fn stray_line(alloc: Global, number: u64) -> Result<Vec<u8>, AllocError>
    ensures { IfOk result (λ text. text.items ≡ stray_text number) }
{
    let mut text = Vec::from_slice(alloc, b"no order\norder line ")?;
    push_number(&mut text, number)?;
    text.extend_from_slice(b"\n")?;
    Ok(text)
}

/// The text of the first operation that breaks an order.
fn broken_line(alloc: Global, naming: &Naming, broken: &Broken) -> Result<Vec<u8>, AllocError>
    ensures { IfOk result (λ text. text.items ≡ break_text (spelled naming.now) broken.now.line broken.now.operation
        broken.now.found) }
{
    let mut text = Vec::from_slice(alloc, b"no order\nline ")?;
    push_line_number(&mut text, broken.line)?;
    text.extend_from_slice(b" ")?;
    push_name(&mut text, &naming.ids, broken.line)?;
    push_operation(&mut text, naming, broken.operation)?;
    text.extend_from_slice(b" finds ")?;
    push_number(&mut text, broken.found)?;
    text.extend_from_slice(b"\n")?;
    Ok(text)
}

/// The step that goes back.
fn link_of(unkept: &Unkept) -> Link
    ensures { (names : ℕ → List ℕ) (s : Spelling ℕ ℕ)
        → link_text s names result ≡ reason_text s names unkept.now.line unkept.now.other unkept.now.reason }
{
    let from = unkept.line;
    let to = unkept.other;
    match unkept.reason {
        Reason::Session(session) => Link::Session { from, to, session },
        Reason::Time { done, begin } => Link::Time {
            from,
            to,
            done,
            begin,
        },
    }
}

/// The text of the first step that goes back in an order.
fn back_line(alloc: Global, setting: &Setting, unkept: &Unkept) -> Result<Vec<u8>, AllocError>
    ensures { IfOk result (λ text. text.items ≡ back_text (spelled setting.now.naming) (text_at setting.now.sessions)
        unkept.now) }
{
    let mut text = Vec::from_slice(alloc, b"no order\n")?;
    push_link(&mut text, setting, &link_of(unkept))?;
    Ok(text)
}

/// The text of what breaks an order first.
pub(crate) fn break_lines(
    alloc: Global,
    setting: &Setting,
    found: &FirstBreak,
) -> Result<Vec<u8>, AllocError>
    ensures { IfOk result (λ text. text.items ≡ first_text (spelled setting.now.naming) (text_at setting.now.sessions)
        found.now) }
{
    match found {
        FirstBreak::Operation(broken) => broken_line(alloc, &setting.naming, broken),
        FirstBreak::Step(unkept) => back_line(alloc, setting, unkept),
    }
}
