//! The replay of all that a reader gives.

ghost use Rattle.std.specs.Prelude.{◌≡◌, ◌<◌, ◌++◌, ℕ, List, Option, None, Err, OnOk, OnErr, IfOk, IfSome};
ghost use Rattle.std.specs.Io.KnownBytes.{Appends};
ghost use Rattle.sgt_names.specs.Device.{CountsFailures, WritesFront};
ghost use Rattle.sgt_devices.specs.Devices.{LeavesReader, LeavesWriter};
ghost use Rattle.sgt_core_model.specs.Core.{CoreState};
ghost use Rattle.sgt_core_machine.specs.Machine.{StandsFor};
ghost use Rattle.sgt_core.specs.declared.input.Input.{Input};
ghost use Rattle.sgt_core.specs.Input.{IsInput};
ghost use Rattle.sgt_core.specs.Replay.{EndsWith, IsAnswer, IsRunText, TellsUnreadable, WroteAnswer, WroteAnswerFront};
ghost use Rattle.sgt_core.specs.private.Playing.{IsCoreAtEnd, IsOpening, IsPlayed};
ghost use Rattle.sgt_core.specs.private.Stopping.{StopsPlayer};

use crate::playing::{Player, core_of};
use sgt_core_machine::Core;
use sgt_core_model::CoreFault;
use sgt_input::{Stop, read_lines, unreadable_line};
use sgt_names::{EngineFail, Failed, Outcome, Sink, Source, write_all};
use sgt_notation::SiteLine;
use std::alloc::{AllocError, Global};

/// How a run ended, and the text of its bundle: none where there is none.
#[derive(Drop)]
struct Ending {
    outcome: Outcome,
    bundle: Vec<u8>,
}

/// Writes how the run ends, but for the bundle, which it gives. Err: memory ran out.
fn write_ending(alloc: Global, core: Core, out: &mut Vec<u8>) -> Result<Ending, AllocError>
    requires { (c : CoreState) × StandsFor core c }
    ensures { IfOk result (λ end. (c : CoreState) → StandsFor core c
        → (ending : List ℕ) × EndsWith c end.outcome ending
        × (out.new.items ++ end.bundle.items ≡ out.old.items ++ ending)) }
{
    match core.into_text(alloc) {
        Ok(bundle) => {
            out.extend_from_slice(b"---\n")?;
            Ok(Ending {
                outcome: Outcome::Yes,
                bundle,
            })
        }
        Err(CoreFault::ActiveLeft) => {
            out.extend_from_slice(b"! E8\n")?;
            Ok(Ending {
                outcome: Outcome::No,
                bundle: Vec::new(alloc),
            })
        }
        Err(CoreFault::Memory) => Err(AllocError),
        Err(_) => unreachable!(),
    }
}

/// An outcome, and what is to be written: some text, and the bundle behind it.
#[derive(Drop)]
struct Answer {
    outcome: Outcome,
    text: Vec<u8>,
    bundle: Vec<u8>,
}

/// The core of a run, which is opened where there was no event. Err: memory ran out.
fn core_at_end(alloc: Global, core: Option<Core>, sites: Vec<SiteLine>) -> Result<Core, AllocError>
    requires { core ≡ None → IsOpening sites.items }
    ensures { IfOk result (IsCoreAtEnd core sites.items) }
{
    match core {
        Some(core) => Ok(core),
        None => core_of(alloc, sites),
    }
}

/// The text of the run of a whole input.
fn run_text(alloc: Global, player: Player) -> Result<Answer, AllocError>
    requires { (input : Input) × IsInput input
        × IsPlayed input player.sites.items player.core player.text.items }
    ensures { IfOk result
        (λ answer. (input : Input) → IsPlayed input player.sites.items player.core player.text.items
        → IsRunText input answer.outcome (answer.text.items ++ answer.bundle.items)) }
{
    let Player {
        sites,
        core,
        mut text,
        ..
    } = player;
    let core = core_at_end(alloc, core, sites)?;
    let Ending { outcome, bundle } = write_ending(alloc, core, &mut text)?;
    Ok(Answer {
        outcome,
        text,
        bundle,
    })
}

/// The answer to an input that was read up to there.
fn answer_to(alloc: Global, player: Player, stop: Stop) -> Result<Answer, AllocError>
    requires { (told : Option (List ℕ))
        × StopsPlayer told player.sites.items player.core player.text.items stop }
    ensures { IfOk result (λ answer. (told : Option (List ℕ))
        → StopsPlayer told player.sites.items player.core player.text.items stop
        → IsAnswer told answer.outcome (answer.text.items ++ answer.bundle.items)) }
{
    match stop {
        Stop::Ended => run_text(alloc, player),
        Stop::Unreadable { line, fault } => Ok(Answer {
            outcome: Outcome::Unreadable,
            text: unreadable_line(alloc, line, fault)?,
            bundle: Vec::new(alloc),
        }),
    }
}

/// Writes two texts, one behind the other. An Err is the writer's, as in `write_all`.
fn write_both<W: Sink>(writer: &mut W, first: &[u8], second: &[u8]) -> Result<(), Failed>
    ensures ok { OnOk result
        (Appends (W.holds writer.old) (W.holds writer.new) (first.now ++ second.now)) }
    ensures err { OnErr result
        (WritesFront (W.holds writer.old) (W.holds writer.new) (first.now ++ second.now)) }
    ensures fails { CountsFailures result (W.failures writer.old) (W.failures writer.new) }
{
    match write_all(writer, first) {
        Ok(()) => write_all(writer, second),
        Err(failed) => Err(failed),
    }
}

/// Runs the events that the reader gives through a new core with the sites that it gives before them, and writes a
/// line for each reply. Then, where no transaction is active, the line `---` and the bundle are written, and else the
/// line `! E8`: the outcomes are Yes and No. Where a line can't be read, `! L1 line N` or `! L2 line N` of the first
/// such line is all that is written, and the outcome is Unreadable. Nothing is written before the whole input was
/// read.
///
/// ReadFault where the reader failed, or no read is left, and Memory where a growth was refused (no reply `! E9` is
/// ever written): nothing was written. WriteFault where the writer failed: a front of the answer may have been
/// written.
pub fn replay<R: Source, W: Sink>(
    alloc: Global,
    reader: &mut R,
    writer: &mut W,
) -> Result<Outcome, EngineFail>
    ensures answer { IfOk result
        (λ outcome. WroteAnswer (R.tells reader.old) outcome (W.holds writer.old)
        (W.holds writer.new)) }
    ensures unreadable { IfOk result
        (λ outcome. IfSome (R.tells reader.old) (λ bytes. TellsUnreadable bytes outcome)) }
    ensures front { OnErr result
        (WroteAnswerFront (R.tells reader.old) (W.holds writer.old) (W.holds writer.new)) }

    // A fault tells of its device, and no fault of a device is passed over.
    ensures reader { LeavesReader R.tells R.failures R.asked result reader.old reader.new }
    ensures writer { LeavesWriter W.failures result writer.old writer.new }
{
    let mut player = Player::new(alloc);
    let stop = read_lines(alloc, reader, &mut player)?;
    let answer = answer_to(alloc, player, stop)?;
    match write_both(writer, answer.text.as_slice(), answer.bundle.as_slice()) {
        Ok(()) => Ok(answer.outcome),
        Err(_) => Err(EngineFail::WriteFault),
    }
}
