//! A step of a cycle, as its line tells it.

ghost use Rattle.std.specs.Prelude.{◌≡◌, List, ℕ, IfNone, IfSome};
ghost use Rattle.sgt_history_picture.specs.Told.{IsStep, Step, kind_text, step_of, step_text};

use crate::word::cut_word;

/// Why a transaction stands before another one.
#[derive(Clone, Copy, PartialEq, Eq)]
pub(crate) enum Kind {
    WriteWrite,
    WriteRead,
    ReadWrite,
    /// Both are of one session.
    Session,
    /// It was done before the other one began.
    Moment,
    /// It ended before the other one, in a log.
    End,
}

/// A step of a cycle: from a transaction to one behind it.
#[derive(Clone, Copy)]
pub(crate) struct Told<'a> {
    pub from: &'a [u8],
    pub kind: Kind,
    pub to: &'a [u8],
    /// The item and its versions, the session, the moments or the site, and the lines.
    pub about: &'a [u8],
}

/// The kind that a word names.
fn kind_of(word: &[u8]) -> Option<Kind>
    ensures some { IfSome result (λ kind. word.now ≡ kind_text kind) }
    ensures none { IfNone result ((kind : Kind) → word.now ≡ kind_text kind → ⊥) }
{
    if word == b"ww".as_slice() {
        return Some(Kind::WriteWrite);
    }
    if word == b"wr".as_slice() {
        return Some(Kind::WriteRead);
    }
    if word == b"rw".as_slice() {
        return Some(Kind::ReadWrite);
    }
    if word == b"po".as_slice() {
        return Some(Kind::Session);
    }
    if word == b"rt".as_slice() {
        return Some(Kind::Moment);
    }
    if word == b"before".as_slice() {
        return Some(Kind::End);
    }
    None
}

/// The step that a line tells.
pub(crate) fn told_in(line: &[u8]) -> Option<Told<'_>>
    ensures some { IfSome result (λ told. IsStep (step_of told) × (line.now ≡ step_text (step_of told))) }
    ensures none { IfNone result ((step : Step) → IsStep step → line.now ≡ step_text step → ⊥) }
{
    let (from, behind_from) = cut_word(line)?;
    let (word, behind_kind) = cut_word(behind_from)?;
    let kind = kind_of(word)?;
    let (to, about) = cut_word(behind_kind)?;
    Some(Told {
        from,
        kind,
        to,
        about,
    })
}
