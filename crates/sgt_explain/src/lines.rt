//! What is told of a line that is wrong by itself, or by the lines before it in its section.

ghost use Rattle.std.specs.Prelude.{OnOk, string_bytes};
ghost use Rattle.sgt_audit.specs.declared.faults.Fault.TheVariants.{Format, Notation, Section, Item, Twice, Block, Truncated, Trailing};
ghost use Rattle.sgt_audit.specs.declared.verdict.Verdict.TheVariants.{No};
ghost use Rattle.sgt_explain.specs.Explained.{Tells};

use crate::shown::logged_at;
use sgt_explain_lines::{
    push_block, push_format, push_item, push_notation, push_section, push_trailing, push_truncated,
    push_twice, section_before, text_at,
};
use std::alloc::{AllocError, Global};

/// F1: line 1 is no format.
pub fn tell_format(out: &mut String, bytes: &[u8], number: u64) -> Result<(), AllocError>
    ensures { OnOk result
        (Tells bytes.now (No number Format) (string_bytes out.old) (string_bytes out.new)) }
{
    push_format(out, bytes)
}

/// F2: the line spells nothing.
pub fn tell_notation(out: &mut String, bytes: &[u8], number: u64) -> Result<(), AllocError>
    ensures { OnOk result
        (Tells bytes.now (No number Notation) (string_bytes out.old) (string_bytes out.new)) }
{
    push_notation(out, bytes, number)
}

/// F19: the line follows the last section.
pub fn tell_trailing(out: &mut String, bytes: &[u8], number: u64) -> Result<(), AllocError>
    ensures { OnOk result
        (Tells bytes.now (No number Trailing) (string_bytes out.old) (string_bytes out.new)) }
{
    push_trailing(out, bytes, number)
}

/// F7: the section does not allow the line.
pub fn tell_section(
    alloc: Global,
    out: &mut String,
    bytes: &[u8],
    number: u64,
) -> Result<(), AllocError>
    ensures { OnOk result
        (Tells bytes.now (No number Section) (string_bytes out.old) (string_bytes out.new)) }
{
    let section = section_before(alloc, bytes, number)?;
    push_section(out, bytes, number, &section)
}

/// F18: the text ends in the line.
pub fn tell_truncated(
    alloc: Global,
    out: &mut String,
    bytes: &[u8],
    number: u64,
) -> Result<(), AllocError>
    ensures { OnOk result
        (Tells bytes.now (No number Truncated) (string_bytes out.old) (string_bytes out.new)) }
{
    let section = section_before(alloc, bytes, number)?;
    push_truncated(out, bytes, number, &section)
}

/// F12: the line cuts a block.
pub fn tell_block(
    alloc: Global,
    out: &mut String,
    bytes: &[u8],
    number: u64,
) -> Result<(), AllocError>
    ensures { OnOk result
        (Tells bytes.now (No number Block) (string_bytes out.old) (string_bytes out.new)) }
{
    let section = section_before(alloc, bytes, number)?;
    push_block(out, &section, number, text_at(bytes, number))
}

/// F8: the entry is on an item that the section does not list.
pub fn tell_item(
    alloc: Global,
    out: &mut String,
    bytes: &[u8],
    number: u64,
) -> Result<(), AllocError>
    ensures { OnOk result
        (Tells bytes.now (No number Item) (string_bytes out.old) (string_bytes out.new)) }
{
    let section = section_before(alloc, bytes, number)?;
    match logged_at(bytes, number) {
        Some(logged) => push_item(out, &section, &logged),
        None => Ok(()),
    }
}

/// F9: the entry repeats another.
pub fn tell_twice(
    alloc: Global,
    out: &mut String,
    bytes: &[u8],
    number: u64,
) -> Result<(), AllocError>
    ensures { OnOk result
        (Tells bytes.now (No number Twice) (string_bytes out.old) (string_bytes out.new)) }
{
    let section = section_before(alloc, bytes, number)?;
    match logged_at(bytes, number) {
        Some(logged) => push_twice(out, &section, &logged),
        None => Ok(()),
    }
}
