//! What is told of a line that can't be read.

ghost use Rattle.std.specs.Prelude.{◌≡◌, IfOk};
ghost use Rattle.sgt_input.specs.Unreadable.{unreadable_text};

use sgt_notation::{NotationFault, push_number};
use std::alloc::{AllocError, Global};

/// The line that says which line can't be read, `! L1 line 7`.
pub fn unreadable_line(
    alloc: Global,
    line: u64,
    fault: NotationFault,
) -> Result<Vec<u8>, AllocError>
    ensures { IfOk result (λ text. text.items ≡ unreadable_text line fault) }
{
    let number = match fault {
        NotationFault::NotALine => 1,
        NotationFault::TooLong => 2,
        NotationFault::Memory => 3,
    };
    let mut text = Vec::from_slice(alloc, b"! L")?;
    push_number(&mut text, number)?;
    text.extend_from_slice(b" line ")?;
    push_number(&mut text, line)?;
    text.extend_from_slice(b"\n")?;
    Ok(text)
}
