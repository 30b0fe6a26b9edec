//! The two formats of a bundle: the first, `sgt 1`, and the second, `sgt 2`, which has increments.

ghost use Rattle.std.specs.Prelude.{◌≡◌, ◌↔◌, Bool, IsTrue, IfSome, IfNone};
ghost use Rattle.sgt_notation.specs.Reading.{Finds};
ghost use Rattle.sgt_notation.specs.Spelling.{line_text};
ghost use Rattle.sgt_bundle.specs.Text.{format_line};
ghost use Rattle.sgt_audit.specs.Faults.{Allows, IsLineIn};

use sgt_notation::{SectionLine, read_section};

/// Whether the line says the second format, if it says one of the two.
pub fn read_format(line: &[u8]) -> Option<bool>
    ensures some { IfSome result (λ second. line.now ≡ format_line second) }
    ensures none { IfNone result ((second : Bool) → line.now ≡ format_line second → ⊥) }
{
    if line == b"sgt 1".as_slice() {
        return Some(false);
    }
    if line == b"sgt 2".as_slice() {
        return Some(true);
    }
    None
}

/// Whether the line, if it is one, is one of the format.
#[inline(always)]
pub(crate) fn is_allowed(second: bool, line: &SectionLine) -> bool
    ensures { IsTrue result ↔ Allows second line.now }
{
    match line {
        SectionLine::Logged(entry) => second || !entry.is_increment(),
        _ => true,
    }
}

/// The line of a section in this format that the line spells.
pub fn read_line(second: bool, line: &[u8]) -> Option<SectionLine>
    ensures { Finds (IsLineIn second) line_text line.now result }
{
    match read_section(line) {
        Ok(read) if is_allowed(second, &read) => Some(read),
        _ => None,
    }
}
