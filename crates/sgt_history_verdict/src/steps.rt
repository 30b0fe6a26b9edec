//! The steps of the cycle that is told.

ghost use Rattle.std.specs.Prelude.{◌≡◌, ℕ, List, IfOk};
ghost use Rattle.sgt_history.specs.Transaction.{Transaction};
ghost use Rattle.sgt_history_verdict.specs.Named.{IsNameOf, named};
ghost use Rattle.sgt_history_verdict.specs.Steps.{AreSteps, AreToldFirst, lines_of};
ghost use Rattle.sgt_history_verdict.specs.Verdict.{IsCyclic};

use crate::along::steps_along;
use crate::cyclic::Cyclic;
use crate::quick::quick_steps;
use crate::step::Step;
use sgt_history_conflicts::edges_in;
use std::alloc::{AllocError, Global};

/// The steps of the cycle that is told. `ranks` says where the name of each item stands among the names: of several
/// steps from one line to another that one is told which is least by kind (ww, wr, rw), by that, by version. Takes
/// time in proportion to the conflicts. Err: memory ran out.
pub fn steps_of(alloc: Global, cyclic: &Cyclic, ranks: &[u32]) -> Result<Vec<Step>, AllocError>
    requires { (h : List (Transaction ℕ ℕ)) × IsCyclic h cyclic.now }
    ensures steps { IfOk result (λ steps. (h : List (Transaction ℕ ℕ)) → IsCyclic h cyclic.now
        → AreSteps h cyclic.now.graph steps.items) }
    ensures first { IfOk result (λ steps. (h : List (Transaction ℕ ℕ)) → IsCyclic h cyclic.now
        → AreToldFirst h cyclic.now.graph ranks.now steps.items) }
    ensures name { IfOk result (λ steps. (h : List (Transaction ℕ ℕ)) → IsCyclic h cyclic.now
        → IsNameOf h (named steps.items)) }
    ensures lines { IfOk result (λ steps. lines_of steps.items ≡ cyclic.now.cycle.items) }
{
    let touches = cyclic.touches.as_slice();
    let pairs = edges_in(&cyclic.pairs, cyclic.graph);
    let lines = cyclic.cycle.as_slice();
    if let Some(steps) = quick_steps(alloc, touches, pairs, ranks, lines)? {
        return Ok(steps);
    }
    steps_along(alloc, touches, pairs, ranks, lines)
}
