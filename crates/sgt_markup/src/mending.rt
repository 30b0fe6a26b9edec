//! What XML does not have, and names without it.

ghost use Rattle.std.specs.Prelude.{◌≡◌, ◌≤◌, ◌++◌, All, IfOk, OnOk};
ghost use Rattle.sgt_markup.specs.Written.{IsClean};
ghost use Rattle.sgt_markup.specs.Escaped.{HasNoControl, escaped, mended, mended_byte};

use crate::entities::push_written;
use std::alloc::{AllocError, Global};

/// Writes what stands for a byte behind these two: U+FFFD for a control byte, and for U+FFFE and U+FFFF, which XML
/// does not have.
fn push_mended(out: &mut Vec<u8>, before: u8, last: u8, byte: u8) -> Result<(), AllocError>
    ensures { OnOk result (out.new.items ≡ out.old.items ++ mended_byte before last byte) }
{
    if byte < 32 {
        return out.extend_from_slice(b"\xef\xbf\xbd");
    }
    if before == 0xef && last == 0xbf && byte >= 0xbe {
        return Ok(out.push(0xbd)?);
    }
    Ok(out.push(byte)?)
}

/// A text of characters that XML has.
fn mended_text(alloc: Global, text: &[u8]) -> Result<Vec<u8>, AllocError>
    ensures { IfOk result (λ r. r.items ≡ mended text.now) }
{
    let mut out = Vec::new(alloc);
    let mut before = 0u8;
    let mut last = 0u8;
    for byte in text {
        push_mended(&mut out, before, last, *byte)?;
        before = last;
        last = *byte;
    }
    Ok(out)
}

/// A name as it stands in XML: mended, and with an entity for each of < > & " '.
pub fn escaped_text(alloc: Global, name: &[u8]) -> Result<Vec<u8>, AllocError>
    ensures escaped { IfOk result (λ text. text.items ≡ escaped name.now) }
    ensures clean { IfOk result (λ text. IsClean text.items) }
    ensures no_control { IfOk result (λ text. HasNoControl text.items) }
{
    let mended = mended_text(alloc, name)?;
    let mut text = Vec::new(alloc);
    push_written(&mut text, mended.as_slice())?;
    Ok(text)
}
