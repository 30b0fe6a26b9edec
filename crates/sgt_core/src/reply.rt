//! Replies, written.

ghost use Rattle.std.specs.Prelude.{◌≡◌, ◌++◌, take, vec_len, OnOk, OnErr};
ghost use Rattle.sgt_core.specs.Reply.{answer_text, fault_number};

use sgt_core_model::{CoreFault, Reply};
use sgt_notation::push_number;
use std::alloc::AllocError;

/// The number that a refusal is written with.
pub fn number_of(fault: CoreFault) -> u64
    ensures { result ≡ fault_number fault }
{
    match fault {
        CoreFault::Unknown => 1,
        CoreFault::Ended => 2,
        CoreFault::StepOpen => 3,
        CoreFault::UnknownItem => 4,
        CoreFault::NotGathered => 5,
        CoreFault::AlreadyDone => 6,
        CoreFault::WindowFull => 7,
        CoreFault::ActiveLeft => 8,
        CoreFault::Memory => 9,
        CoreFault::GenerationsSpent => 10,
        CoreFault::NumbersSpent => 11,
        CoreFault::NotTouched => 12,
    }
}

fn push_answer(out: &mut Vec<u8>, asked: &[u8], reply: &Reply) -> Result<(), AllocError>
    ensures ok { OnOk result (out.new.items ≡ out.old.items ++ answer_text asked.now reply.now) }
    ensures err { OnErr result (take (vec_len out.old) out.new.items ≡ out.old.items) }
{
    match reply {
        Reply::Fault { fault } => {
            out.extend_from_slice(b"! E")?;
            push_number(out, number_of(*fault))
        }
        Reply::Begun { tx } => {
            out.extend_from_slice(asked)?;
            push_number(out, u64::from(tx.number()))
        }
        Reply::Value { value } => {
            out.extend_from_slice(asked)?;
            out.extend_from_slice(b"=")?;
            push_number(out, *value)
        }
        Reply::Yes => {
            out.extend_from_slice(asked)?;
            out.extend_from_slice(b" yes")
        }
        Reply::No => {
            out.extend_from_slice(asked)?;
            out.extend_from_slice(b" no")
        }
        Reply::Closed { ranks } => {
            out.extend_from_slice(asked)?;
            out.extend_from_slice(b" ")?;
            push_number(out, *ranks)
        }
        Reply::Kept | Reply::Gathered | Reply::Installed | Reply::Withdrawn => {
            out.extend_from_slice(asked)
        }
    }
}

/// Writes the line of the reply, without an LF, behind what is there: `! EN` of a refusal, and else the line of the
/// event that was asked, which is given without its LF, with what the answer tells behind it. Where a growth is
/// refused nothing is written.
#[inline(always)]
pub fn write_reply(out: &mut Vec<u8>, asked: &[u8], reply: &Reply) -> Result<(), AllocError>
    ensures ok { OnOk result (out.new.items ≡ out.old.items ++ answer_text asked.now reply.now) }
    ensures err { OnErr result (out.new.items ≡ out.old.items) }
{
    let before = out.len();
    let written = push_answer(out, asked, reply);
    if written.is_err() {
        out.truncate(before);
    }
    written
}
