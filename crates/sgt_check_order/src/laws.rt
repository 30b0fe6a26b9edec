//! What an answer tells of an order.

ghost use Rattle.std.specs.Prelude.{◌≡◌, ◌↔◌, ℕ, List};
ghost use Rattle.json.specs.Json.{Json};
ghost use Rattle.sgt_names.specs.declared.outcome.Outcome.{Outcome};
ghost use Rattle.sgt_names.specs.declared.outcome.Outcome.TheVariants.{Yes};
ghost use Rattle.sgt_history.specs.Serial.{Serves, StandOnce};
ghost use Rattle.sgt_history.specs.Transaction.{Transaction};
ghost use Rattle.sgt_history.specs.declared.history.Operation.{Operation};
ghost use Rattle.sgt_history_kept.specs.declared.passed.Unkept.{Unkept};
ghost use Rattle.sgt_history_text.specs.declared.wanted.Wanted.{Wanted};
ghost use Rattle.sgt_history_time.specs.Serializable.{ServesKeeping};
ghost use Rattle.sgt_check_order.specs.Answer.{IsAnswer, SpellsServed};
ghost use Rattle.sgt_check_order.specs.Kept.{IsFirstStep, Kept};
ghost use Rattle.sgt_check_order.specs.Order.{IsFirstStray, NameEach, lines_of};
ghost use Rattle.sgt_check_order.specs.Run.{IsFirstBreak};

/// Where a line of the text is wrong, it names no order that serves. No two of the ids are equal.
pub fn a_stray_line_serves_none<I, V>()
    ensures { (h : List (Transaction I V)) (ids : List Json) (bytes : List ℕ) (number : ℕ) (order : List ℕ)
        → StandOnce ids
        → IsFirstStray h ids bytes number → NameEach ids (lines_of bytes) order → Serves h order → ⊥ }
{}

/// Where an operation breaks an order, it doesn't serve.
pub fn a_broken_order_serves_none<I, V>()
    ensures { (h : List (Transaction I V)) (order : List ℕ) (line : ℕ) (o : Operation I V) (found : ℕ)
        → IsFirstBreak h order line o found → Serves h order → ⊥ }
{}

/// Where a step goes back in an order, it doesn't keep what it is to.
pub fn a_step_back_keeps_none<I, V, S>()
    ensures { (h : List (Transaction I V)) (k : Kept S) (order : List ℕ) (u : Unkept)
        → IsFirstStep k order u → ServesKeeping h k.times k.sessions order → ⊥ }
{}

/// The answer is a yes exactly where the order names each committed transaction once, serves, and keeps what is wanted.
pub fn a_yes_is_told_exactly_of_what_serves()
    ensures { (wanted : Wanted) (order bytes text : List ℕ) (outcome : Outcome)
        → IsAnswer wanted order bytes outcome text
        → (outcome ≡ Yes ↔ SpellsServed wanted order bytes) }
{}
