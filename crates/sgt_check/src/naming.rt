//! How the names of a history are written.

ghost use Rattle.std.specs.Prelude.{◌≡◌, ◌++◌, OnOk};
ghost use Rattle.sgt_check.specs.Told.{text_at};
ghost use Rattle.sgt_check.specs.Text.{number_text};

use sgt_history_text::Names;
use sgt_notation::push_number;
use std::alloc::AllocError;

/// The texts of the ids by line, of items and of values by number.
#[derive(Drop)]
pub struct Naming {
    pub ids: Names,
    pub items: Names,
    pub values: Names,
}

/// The text with this number; JSON's null where there is none.
fn text_of(names: &Names, number: u32) -> &[u8]
    ensures { result.now ≡ text_at names.now number }
{
    let number = number as usize;
    if number < names.len() {
        names.get(number)
    } else {
        b"null"
    }
}

/// Puts the text with this number.
pub fn push_name(out: &mut Vec<u8>, names: &Names, number: u32) -> Result<(), AllocError>
    ensures { OnOk result (out.new.items ≡ out.old.items ++ text_at names.now number) }
{
    out.extend_from_slice(text_of(names, number))
}

/// Puts the number of a line, counted from 1.
pub fn push_line_number(out: &mut Vec<u8>, line: u32) -> Result<(), AllocError>
    ensures { OnOk result (out.new.items ≡ out.old.items ++ number_text line) }
{
    push_number(out, u64::from(line) + 1)
}
