//! Entities for what markup is made of.

ghost use Rattle.std.specs.Prelude.{◌≡◌, ◌++◌, ◌∷◌, [], IfNone, IfSome, OnOk};
ghost use Rattle.sgt_markup.specs.Written.{IsClean, written, written_byte};

use std::alloc::AllocError;

/// What stands for a byte of markup.
fn entity_of(byte: u8) -> Option<&'static str>
    ensures some { IfSome result (λ entity. entity.now ≡ written_byte byte) }
    ensures none { IfNone result (written_byte byte ≡ byte ∷ []) }
{
    if byte == b'<' {
        return Some("&lt;");
    }
    if byte == b'>' {
        return Some("&gt;");
    }
    if byte == b'&' {
        return Some("&amp;");
    }
    if byte == b'"' {
        return Some("&quot;");
    }
    if byte == b'\'' {
        return Some("&#39;");
    }
    None
}

/// Writes a byte, by its entity where it has one.
fn push_byte(out: &mut Vec<u8>, byte: u8) -> Result<(), AllocError>
    ensures { OnOk result (out.new.items ≡ out.old.items ++ written_byte byte) }
{
    match entity_of(byte) {
        Some(entity) => out.extend_from_slice(entity.as_bytes()),
        None => Ok(out.push(byte)?),
    }
}

/// Writes a text: none of < > & " ' is written but as an entity. Its other bytes are written as they are, those too
/// that XML does not have.
pub fn push_written(out: &mut Vec<u8>, text: &[u8]) -> Result<(), AllocError>
    ensures written { OnOk result (out.new.items ≡ out.old.items ++ written text.now) }
    ensures clean { IsClean (written text.now) }
{
    for byte in text {
        push_byte(out, *byte)?;
    }
    Ok(())
}
