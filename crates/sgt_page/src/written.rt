//! Text between markup.

ghost use Rattle.std.specs.Prelude.{◌≡◌, ◌++◌, OnOk};
ghost use Rattle.sgt_markup.specs.Written.{written};

use sgt_markup::push_written;
use std::alloc::AllocError;

/// Writes markup as it is, in two pieces.
pub(crate) fn push_markup(out: &mut Vec<u8>, first: &str, second: &str) -> Result<(), AllocError>
    ensures { OnOk result (out.new.items ≡ out.old.items ++ (first.now ++ second.now)) }
{
    out.extend_from_slice(first.as_bytes())?;
    out.extend_from_slice(second.as_bytes())
}

/// Writes markup as it is, and behind it a text.
pub(crate) fn push_part(out: &mut Vec<u8>, markup: &str, text: &[u8]) -> Result<(), AllocError>
    ensures { OnOk result (out.new.items ≡ out.old.items ++ (markup.now ++ written text.now)) }
{
    out.extend_from_slice(markup.as_bytes())?;
    push_written(out, text)
}
