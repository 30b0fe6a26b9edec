//! Answers, written.

ghost use Rattle.std.specs.Prelude.{◌≡◌, ◌++◌, ◌∷◌, [], OnOk, OnErr, take, vec_len};
ghost use Rattle.sgt_serve.specs.Talk.{answer_line};

use sgt_core::write_reply;
use sgt_courses::{Answer, CutFault};
use sgt_notation::push_number;
use std::alloc::AllocError;

fn push_answer(out: &mut Vec<u8>, line: &[u8], answer: &Answer) -> Result<(), AllocError>
    ensures ok { OnOk result (out.new.items ≡ out.old.items ++ answer_line line.now answer.now) }
    ensures err { OnErr result (take (vec_len out.old) out.new.items ≡ out.old.items) }
{
    match answer {
        Answer::Replies(reply) => write_reply(out, line, reply),
        Answer::Cut(number) => {
            out.extend_from_slice(b"x ")?;
            push_number(out, *number)
        }
        Answer::Uncut(CutFault::ActiveLeft) => out.extend_from_slice(b"! E8"),
        Answer::Uncut(CutFault::Memory) => out.extend_from_slice(b"! E9"),
        Answer::Uncut(CutFault::Unwritten) => out.extend_from_slice(b"! B"),
        Answer::Unreadable => out.extend_from_slice(b"! L1"),
    }
}

/// Writes the answer to a line, with an LF, behind what is there. Where a growth is refused nothing is written.
pub(crate) fn write_answer(
    out: &mut Vec<u8>,
    line: &[u8],
    answer: &Answer,
) -> Result<(), AllocError>
    ensures ok { OnOk result
        (out.new.items ≡ out.old.items ++ (answer_line line.now answer.now ++ 10 ∷ [])) }
    ensures err { OnErr result (out.new.items ≡ out.old.items) }
{
    let before = out.len();
    let written = push_all(out, line, answer);
    if written.is_err() {
        out.truncate(before);
    }
    written
}

fn push_all(out: &mut Vec<u8>, line: &[u8], answer: &Answer) -> Result<(), AllocError>
    ensures ok { OnOk result
        (out.new.items ≡ out.old.items ++ (answer_line line.now answer.now ++ 10 ∷ [])) }
    ensures err { OnErr result (take (vec_len out.old) out.new.items ≡ out.old.items) }
{
    push_answer(out, line, answer)?;
    out.push(b'\n')?;
    Ok(())
}
