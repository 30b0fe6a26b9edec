//! A line is answered.

ghost use Rattle.std.specs.Prelude.{◌≡◌, ◌≤◌, ◌+◌, IsTrue, ◌↔◌, length};
ghost use Rattle.sgt_names.specs.Limits.{max_line};
ghost use Rattle.sgt_notation.specs.Spelling.{HasNoLf};
ghost use Rattle.sgt_core_machine.specs.Machine.{GoesOn};
ghost use Rattle.sgt_core.specs.Replay.{MayAnswer};
ghost use Rattle.sgt_courses.specs.Course.{cut_line};
ghost use Rattle.sgt_serve.specs.Place.{kept_at, refused_to};
ghost use Rattle.sgt_serve.specs.private.Turning.{Takes, cut_fault_of, refused_for, uncut_by};

use crate::bundles::Bundles;
use sgt_core_machine::Core;
use sgt_core_model::{CoreFault, Reply};
use sgt_courses::{Answer, CutFault};
use sgt_notation::{EventLine, read_event};
use sgt_pipe::{KeepFault, Refusals};
use std::alloc::Global;

/// Whether the line asks for a cut.
pub(crate) fn asks_cut(line: &[u8]) -> bool
    ensures { IsTrue result ↔ (line.now ≡ cut_line) }
{
    matches!(line, b"x")
}

/// What the core replies to the event.
fn reply_to(core: &mut Core, event: &EventLine) -> Reply
    ensures { GoesOn (λ c d. MayAnswer c event.now result d) core.old core.new }
{
    match event {
        EventLine::One(event) => core.step(*event),
        EventLine::ToDecide(tx) => core.to_decide(*tx),
    }
}

/// Notes the growth that was refused, if the core replies so for want of memory.
fn note_reply(refusals: &mut Refusals, reply: &Reply)
    ensures { refusals.new ≡ refusals.old + refused_to reply.now }
{
    match reply {
        Reply::Fault {
            fault: CoreFault::Memory,
        } => refusals.note(),
        _ => {}
    }
}

/// How it is told that there is no bundle. A growth that was refused for it is noted.
fn cut_fault(fault: CoreFault, refusals: &mut Refusals) -> CutFault
    ensures told { result ≡ cut_fault_of fault }
    ensures noted { refusals.new ≡ refusals.old + refused_for fault }
{
    match fault {
        CoreFault::ActiveLeft => CutFault::ActiveLeft,
        _ => {
            refusals.note();
            CutFault::Memory
        }
    }
}

/// How it is told that the bundle isn't kept.
fn unkept(fault: KeepFault) -> CutFault
    ensures { result ≡ uncut_by fault }
{
    match fault {
        KeepFault::Memory => CutFault::Memory,
        KeepFault::Refused => CutFault::Unwritten,
    }
}

/// Cuts the core, if that may be: its bundle is kept, and a core over the last values stands in its place.
fn cut<B: Bundles>(
    alloc: Global,
    core: &mut Core,
    bundles: &mut B,
    refusals: &mut Refusals,
) -> Answer
    ensures { Takes core.old cut_line result (kept_at (B.handed bundles.old) refusals.old)
        (kept_at (B.handed bundles.new) refusals.new) core.new }
{
    match core.cut(alloc) {
        Ok(cut) => match bundles.keep(cut.text.as_slice()) {
            Ok(number) => {
                *core = cut.next;
                Answer::Cut(number)
            }
            Err(fault) => Answer::Uncut(unkept(fault)),
        },
        Err(fault) => Answer::Uncut(cut_fault(fault, refusals)),
    }
}

/// Answers a line, and does what it asks for. Each growth that is refused for it is noted.
pub(crate) fn answer<B: Bundles>(
    alloc: Global,
    core: &mut Core,
    bundles: &mut B,
    refusals: &mut Refusals,
    line: &[u8],
) -> Answer
    requires one { HasNoLf line.now }
    requires short { length line.now ≤ max_line }
    ensures { Takes core.old line.now result (kept_at (B.handed bundles.old) refusals.old)
        (kept_at (B.handed bundles.new) refusals.new) core.new }
{
    if asks_cut(line) {
        return cut(alloc, core, bundles, refusals);
    }
    match read_event(line) {
        Ok(event) => {
            let reply = reply_to(core, &event);
            note_reply(refusals, &reply);
            Answer::Replies(reply)
        }
        Err(_) => Answer::Unreadable,
    }
}
