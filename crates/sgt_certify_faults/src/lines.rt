//! The lines of a text of logs.

ghost use Rattle.std.specs.Prelude.{◌≡◌, ◌∷◌, ◌++◌, ℕ, List, IfSome, IfNone};
ghost use Rattle.sgt_notation.specs.Spelling.{line_text};
ghost use Rattle.sgt_notation.specs.declared.SectionLine.{SectionLine};
ghost use Rattle.sgt_audit.specs.Faults.{IsLineIn};

use sgt_audit::read_line;
use sgt_notation::{SectionLine, split_line};

/// The line of a section in this format that stands at the front, and what stands behind it.
pub fn split_read(second: bool, bytes: &[u8]) -> Option<(SectionLine, &[u8])>
    ensures some { IfSome result
        (λ r. IsLineIn second r.0 × (bytes.now ≡ line_text r.0 ++ 10 ∷ r.1.now)) }
    ensures none { IfNone result ((line : SectionLine) (more : List ℕ) → IsLineIn second line
        → bytes.now ≡ line_text line ++ 10 ∷ more → ⊥) }
{
    let Some((line, behind)) = split_line(bytes) else {
        return None;
    };
    match read_line(second, line) {
        Some(read) => Some((read, behind)),
        None => None,
    }
}
