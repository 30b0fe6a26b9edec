//! Laws of serial runs.

ghost use Rattle.std.specs.Prelude.{◌≡◌, ◌⊎◌, ℕ, Option};
ghost use Rattle.sgt_names.specs.Name.{Name};
ghost use Rattle.sgt_bundle.specs.Parts.{Parts};
ghost use Rattle.sgt_bundle.specs.Serial.{SerialAgrees};
ghost use Rattle.sgt_serial.specs.Difference.{IsFirstDifference};

/// A serial run that agrees with the record has no first difference.
pub fn agreement_excludes_differences()
    ensures { (b : Parts) (tx : Option ℕ) (s : ℕ) (x : Name) → SerialAgrees b
        → IsFirstDifference b tx s x → ⊥ }
{}

/// A serial run has at most one first difference.
pub fn first_differences_are_one()
    ensures { (b : Parts) (t u : Option ℕ) (r s : ℕ) (x y : Name) → IsFirstDifference b t r x
        → IsFirstDifference b u s y
        → (t ≡ u) × (r ≡ s) × (x ≡ y) }
{}

/// A serial run agrees with the record or has a first difference.
pub fn runs_agree_or_differ()
    ensures { (b : Parts)
        → SerialAgrees b ⊎ ((tx : Option ℕ) × (s : ℕ) × (x : Name) × IsFirstDifference b tx s x) }
{}
