//! The cycle of a refusal: of logs that have no certificate.

ghost use Rattle.std.specs.Prelude.{◌≡◌, ◌++◌, ℕ, List, codes, map, IfNone, IfOk, IfSome};
ghost use Rattle.sgt_history_picture.specs.Drawn.{IsRefusalDrawn, IsRefusalPicture};
ghost use Rattle.sgt_history_picture.specs.Told.{IsCycleTold, Step, step_of};

use crate::cycle::{Cycle, cycle_in};
use crate::graph::graph;
use crate::picture::{Legend, picture};
use std::alloc::{AllocError, Global};

/// The refusal of this name: `no ranks`.
fn headline_of(alloc: Global, name: &[u8]) -> Result<Vec<u8>, AllocError>
    ensures { IfOk result (λ text. text.items ≡ codes "no " ++ name.now) }
{
    let mut text = Vec::from_slice(alloc, b"no ")?;
    text.extend_from_slice(name)?;
    Ok(text)
}

/// A refusal's cycle, drawn.
fn drawn(alloc: Global, is_dot: bool, cycle: &Cycle<'_>) -> Result<Vec<u8>, AllocError>
    ensures { IfOk result
        (λ text. IsRefusalDrawn is_dot cycle.now.name.now (map step_of cycle.now.steps.items) text.items) }
{
    let steps = cycle.steps.as_slice();
    if is_dot {
        return graph(alloc, steps);
    }
    let headline = headline_of(alloc, cycle.name)?;
    picture(alloc, headline.as_slice(), steps, Legend::Logs)
}

/// The picture of the cycle that an answer of `sgt certify` tells behind `no ranks` or `no order`: as SVG, which draws
/// the first 200 of its steps and says how many more there are, or as Graphviz text, which has all. Each is drawn once,
/// in the order in which it is told, and no other. None where the answer tells no cycle.
pub fn refusal_picture_of(
    alloc: Global,
    is_dot: bool,
    answer: &[u8],
) -> Result<Option<Vec<u8>>, AllocError>
    ensures some { IfOk result (λ r. IfSome r (λ text. IsRefusalPicture is_dot answer.now text.items)) }
    ensures none { IfOk result
        (λ r. IfNone r ((name : List ℕ) (steps : List Step) → IsCycleTold answer.now name steps → ⊥)) }
{
    match cycle_in(alloc, answer)? {
        Some(cycle) => Ok(Some(drawn(alloc, is_dot, &cycle)?)),
        None => Ok(None),
    }
}
