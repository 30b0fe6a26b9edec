//! Laws of inputs.

ghost use Rattle.std.specs.Prelude.{◌≡◌, ◌⊎◌, ℕ, List};
ghost use Rattle.sgt_notation.specs.declared.fault.NotationFault.{NotationFault};
ghost use Rattle.sgt_service.specs.Input.{FirstUnreadable, Spells};
ghost use Rattle.sgt_service.specs.declared.input.Input.{Input};

/// Bytes spell one input at most.
pub fn inputs_have_one_reading()
    ensures { (bytes : List ℕ) (i j : Input) → Spells bytes i → Spells bytes j → i ≡ j }
{}

/// Bytes that spell an input have no first line that can't be read, and bytes that spell none have exactly one, with
/// one fault.
pub fn unreadable_lines_are_determined()
    ensures apart { (bytes : List ℕ) (i : Input) (line : ℕ) (fault : NotationFault) → Spells bytes i
        → FirstUnreadable bytes line fault → ⊥ }
    ensures one { (bytes : List ℕ) (line number : ℕ) (fault other : NotationFault)
        → FirstUnreadable bytes line fault → FirstUnreadable bytes number other
        → (line ≡ number) × (fault ≡ other) }
    ensures some { (bytes : List ℕ) → ((i : Input) × Spells bytes i)
        ⊎ ((line : ℕ) × (fault : NotationFault) × FirstUnreadable bytes line fault) }
{}
