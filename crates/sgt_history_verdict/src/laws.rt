//! What the steps of a cycle exclude.

ghost use Rattle.std.specs.Prelude.{ℕ, List};
ghost use Rattle.sgt_history.specs.Serial.{IsSerializable};
ghost use Rattle.sgt_history.specs.Transaction.{Transaction};
ghost use Rattle.sgt_history.specs.declared.named.Graph.{Graph};
ghost use Rattle.sgt_history_verdict.specs.declared.step.Step.{Step};
ghost use Rattle.sgt_history_verdict.specs.Steps.{AreSteps};

/// Where there are steps each of which leads to the next, and the last to the first, no order serves.
pub fn steps_exclude_every_order()
    ensures { (h : List (Transaction ℕ ℕ)) (g : Graph) (steps : List Step) → AreSteps h g steps → IsSerializable h → ⊥ }
{}
