//! What other names of items and values, which keep these apart, change nothing of.

ghost use Rattle.std.specs.Prelude.{ℕ, ◌↔◌, List, map};
ghost use Rattle.sgt_history.specs.Conflicts.{HasCycle, HaveConflict, IsOperation};
ghost use Rattle.sgt_history.specs.Flaws.{IsFirstFault};
ghost use Rattle.sgt_history.specs.Serial.{KeepApart};
ghost use Rattle.sgt_history.specs.Transaction.{Transaction, renamed, renamed_operation};
ghost use Rattle.sgt_history.specs.declared.history.Operation.{Operation};
ghost use Rattle.sgt_history.specs.declared.named.Conflict.{Conflict};
ghost use Rattle.sgt_history.specs.declared.named.Flaw.{Flaw};
ghost use Rattle.sgt_history.specs.declared.named.Graph.{Graph};
ghost use Rattle.sgt_history_evidence.specs.Evidence.{IsEvidence};
ghost use Rattle.sgt_history_evidence.specs.declared.evidence.Evidence.{Evidence};

/// The first fault stays.
pub fn names_change_no_fault<I, J, V, W>()
    ensures { (f : I → J) (g : V → W) (h : List (Transaction I V)) → KeepApart f g h
        → (line : ℕ) (flaw : Flaw) (place : ℕ)
        → IsFirstFault h line flaw place → IsFirstFault (map (renamed f g) h) line flaw place }
{}

/// So does what stands behind a fault.
pub fn names_change_no_evidence<I, J, V, W>()
    ensures { (f : I → J) (g : V → W) (h : List (Transaction I V)) → KeepApart f g h
        → (line place : ℕ) (t : Transaction I V)
        (o : Operation I V) → IsOperation h line place t o → (flaw : Flaw) (evidence : Evidence)
        → IsEvidence h line place t o flaw evidence
        → IsEvidence (map (renamed f g) h) line place (renamed f g t) (renamed_operation f g o) flaw evidence }
{}

/// So does a conflict.
pub fn names_change_no_conflict<I, J, V, W>()
    ensures { (f : I → J) (g : V → W) (h : List (Transaction I V)) → KeepApart f g h
        → (kind : Conflict) (from to : ℕ) (x : I)
        (v w : ℕ) → HaveConflict h kind from to x v w → HaveConflict (map (renamed f g) h) kind from to (f x) v w }
{}

/// There is a cycle where there was one, and none where there was none.
pub fn names_change_no_cycle<I, J, V, W>()
    ensures { (f : I → J) (g : V → W) (h : List (Transaction I V)) → KeepApart f g h → (graph : Graph)
        → HasCycle h graph ↔ HasCycle (map (renamed f g) h) graph }
{}
