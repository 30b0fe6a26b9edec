//! What an answer tells of the bytes.

ghost use Rattle.std.specs.Prelude.{◌≡◌, ◌↔◌, ℕ, List};
ghost use Rattle.json.specs.Json.{Json};
ghost use Rattle.sgt_check.specs.Answer.{IsAnswer, SpellsSerializable, neither};
ghost use Rattle.sgt_check.specs.declared.options.Options.{Options};
ghost use Rattle.sgt_history.specs.Transaction.{Transaction};
ghost use Rattle.sgt_history_text.specs.Text.{IsFirstUnreadable, Spells};
ghost use Rattle.sgt_history_text.specs.declared.fault.LineFault.{LineFault};
ghost use Rattle.sgt_names.specs.declared.outcome.Outcome.{Outcome};
ghost use Rattle.sgt_names.specs.declared.outcome.Outcome.TheVariants.{Yes};

/// A text spells one history at most, with one id to a line.
pub fn a_text_spells_one_history()
    ensures { (bytes : List ℕ) (ids ids' : List Json) (h h' : List (Transaction Json Json)) → Spells bytes ids h
        → Spells bytes ids' h' → (ids ≡ ids') × (h ≡ h') }
{}

/// It spells none where a line can't be read.
pub fn an_unreadable_line_spells_none()
    ensures { (bytes : List ℕ) (line : ℕ) (fault : LineFault) (ids : List Json) (h : List (Transaction Json Json))
        → IsFirstUnreadable neither bytes line fault → Spells bytes ids h → ⊥ }
{}

/// The answer is a yes exactly where the bytes spell a history that is serializable.
pub fn a_yes_is_told_exactly_of_what_is_serializable()
    ensures { (options : Options) (bytes text : List ℕ) (outcome : Outcome) → IsAnswer options bytes outcome text
        → (outcome ≡ Yes ↔ SpellsSerializable bytes) }
{}
