//! The cycle that an answer tells.

ghost use Rattle.std.specs.Prelude.{◌≡◌, ◌≢◌, ◌↔◌, ◌++◌, ℕ, List, map, IfOk, IfNone, IfSome, IsTrue, MatchOption};
ghost use Rattle.sgt_history_picture.specs.Told.{AreTold, IsCircle, IsCycleTold, Step, step_of};

use crate::told::{Told, told_in};
use sgt_notation::find_lf;
use std::alloc::{AllocError, Global};

/// A cycle with its name.
#[derive(Drop)]
pub(crate) struct Cycle<'a> {
    pub name: &'a [u8],
    pub steps: Vec<Told<'a>>,
}

/// The steps that these lines tell, where each tells one.
fn steps_in<'a>(alloc: Global, text: &'a [u8]) -> Result<Option<Vec<Told<'a>>>, AllocError>
    ensures some { IfOk result (λ r. IfSome r (λ steps. AreTold text.now (map step_of steps.items))) }
    ensures none { IfOk result (λ r. IfNone r ((steps : List Step) → AreTold text.now steps → ⊥)) }
{
    let mut steps = Vec::new(alloc);
    let mut rest = text;
    while let Some(end) = find_lf(rest) {
        match told_in(&rest[..end]) {
            Some(told) => steps.push(told)?,
            None => return Ok(None),
        }
        rest = &rest[end + 1..];
    }
    if rest.is_empty() {
        Ok(Some(steps))
    } else {
        Ok(None)
    }
}

/// Whether two names are the same.
fn are_same(first: &[u8], second: &[u8]) -> bool
    ensures { IsTrue result ↔ (first.now ≡ second.now) }
{
    first == second
}

/// Whether the steps lead round.
fn is_circle(steps: &[Told<'_>]) -> bool
    ensures { IsTrue result ↔ IsCircle (map step_of steps.now) }
{
    let Some((first, rest)) = steps.split_first() else {
        return false;
    };
    let mut at = first.to;
    for step in rest {
        if !are_same(step.from, at) {
            return false;
        }
        at = step.to;
    }
    are_same(at, first.from)
}

/// What stands behind this word at the front.
fn behind<'a>(text: &'a [u8], word: &[u8]) -> Option<&'a [u8]>
    ensures { MatchOption result ((rest : List ℕ) → text.entry.now ≢ word.now ++ rest)
        (λ rest. text.entry.now ≡ word.now ++ rest.now) }
{
    text.strip_prefix(word)
}

/// The cycle that an answer tells.
pub(crate) fn cycle_in<'a>(alloc: Global, answer: &'a [u8]) -> Result<Option<Cycle<'a>>, AllocError>
    ensures some { IfOk result (λ r. IfSome r (λ cycle. IsCycleTold answer.now cycle.name.now (map step_of cycle.steps.items))) }
    ensures none { IfOk result (λ r. IfNone r ((name : List ℕ) (steps : List Step) → IsCycleTold answer.now name steps
        → ⊥)) }
{
    let Some(told) = behind(answer, b"no ") else {
        return Ok(None);
    };
    let Some(end) = find_lf(told) else {
        return Ok(None);
    };
    match steps_in(alloc, &told[end + 1..])? {
        Some(steps) if is_circle(steps.as_slice()) => Ok(Some(Cycle {
            name: &told[..end],
            steps,
        })),
        _ => Ok(None),
    }
}
