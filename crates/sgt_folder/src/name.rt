//! The names of bundles.

ghost use Rattle.std.specs.Prelude.{ℕ, IfSome, IfNone};
ghost use Rattle.sgt_folder.specs.Name.{IsBundleName};

/// The number of the bundle that a file of this name is.
pub fn number_of(name: &str) -> Option<u64>
    ensures some { IfSome result (IsBundleName name.now) }
    ensures none { IfNone result ((number : ℕ) → IsBundleName name.now number → ⊥) }
{
    let digits = name.strip_suffix(".sgt")?;
    if digits.len() != 8 || digits.as_bytes()[0] == b'+' {
        return None;
    }
    digits.parse::<u64>().ok()
}
