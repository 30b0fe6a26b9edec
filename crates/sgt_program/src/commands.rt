//! The program over any reader and writers.

ghost use Rattle.std.specs.Prelude.{◌≡◌, ◌<◌, Err, map, length, string_bytes, IfErr, IsOk, codes};
ghost use Rattle.sgt_program.specs.Commands.{Answers, ComesOf, LeavesUnread, StopsAtFault};
ghost use Rattle.sgt_program.specs.Ending.{AsksWorkers, LeavesDevices, ReadFailed, ReaderIsQuiet, TellsErrors, WroteOrFailed, status_of, text_of_fail};
ghost use Rattle.sgt_command_line.specs.Words.{AsksFor, NamesKeeper};
ghost use Rattle.sgt_command_line.specs.declared.choice.Choice.{Choice};
ghost use Rattle.sgt_program.specs.declared.ending.Ending.{Ending};
ghost use Rattle.sgt_program.specs.declared.ending.Ending.TheVariants.{Ran, NoCommand};

use crate::ending::{Ending, status, tell, tell_fail};
use crate::engines::{run_choice, show_help};
use sgt_command_line::{NoChoice, choose};
use sgt_names::{EngineFail, Outcome, Sink, Source};
use std::alloc::Global;
use std::sync::Wait;
use std::thread::Threads;

/// The exit status; where there is no answer, the error stream is told why.
pub(crate) fn finish<E: Sink>(errors: &mut E, run: Result<Outcome, EngineFail>) -> u8
    ensures status { result ≡ status_of (Ran run) }
    ensures silent { IsOk run → errors.new ≡ errors.old }
    ensures told { IfErr run (λ fail.
        WroteOrFailed (E.holds errors.old) (E.holds errors.new) (E.failures errors.old)
        (E.failures errors.new) (text_of_fail fail)) }
{
    if let Err(fail) = run {
        tell_fail(errors, fail);
    }
    status(Ending::Ran(run))
}

/// Says why there is no answer, and gives the exit status. Where the error stream fails too, the status is the same.
pub fn give_up<E: Sink>(errors: &mut E, fail: EngineFail) -> u8
    ensures status { result ≡ status_of (Ran (Err fail)) }
    ensures told { WroteOrFailed (E.holds errors.old) (E.holds errors.new) (E.failures errors.old)
        (E.failures errors.new)
        (text_of_fail fail) }
{
    finish(errors, Err(fail))
}

/// Tells the error stream that the words are no command, by this text.
fn refuse<E: Sink>(errors: &mut E, text: &str) -> u8
    requires { 0 < length text.now }
    ensures status { result ≡ status_of NoCommand }
    ensures some { 0 < length text.now }
    ensures told { WroteOrFailed (E.holds errors.old) (E.holds errors.new) (E.failures errors.old)
        (E.failures errors.new) text.now }
{
    tell(errors, text);
    status(Ending::NoCommand)
}

/// Says that the words are no text, and gives the exit status.
pub fn refuse_words<E: Sink>(errors: &mut E) -> u8
    ensures status { result ≡ status_of NoCommand }
    ensures told { WroteOrFailed (E.holds errors.old) (E.holds errors.new) (E.failures errors.old)
        (E.failures errors.new)
        (codes "sgt: the arguments are not UTF-8\n") }
{
    refuse(errors, "sgt: the arguments are not UTF-8\n")
}

/// Does what the words ask for, and gives the exit status: 0 yes or done (or help was shown); 1 no, an
/// explanation of a transaction that is nowhere, a replay that ended with a transaction active, a script that was not committed, or a fault that ended a run; 2 the words are no
/// command (nothing is read or written then) or a line of a replay's or a run's input can't be read; 3 want of
/// memory; 4 a read or a write failed. The first word is the program's name. For help and for a rule nothing is read.
/// Only a run and an audit by workers start threads; they are joined when this returns.
pub fn program<H: Threads + Wait + Sync, R: Source, W: Sink, E: Sink>(
    rt: &H,
    alloc: Global,
    words: &[String],
    reader: &mut R,
    writer: &mut W,
    errors: &mut E,
) -> u8
    // what each command answers, which one reads nothing, and what comes of all words
    ensures asked { (choice : Choice) → AsksFor (map string_bytes words.now) choice
        → Answers choice result (R.tells reader.old) (W.holds writer.old) (W.holds writer.new) }
    ensures unread { (choice : Choice) → AsksFor (map string_bytes words.now) choice
        → LeavesUnread choice (reader.new ≡ reader.old) }
    ensures none_behind { (choice : Choice) → AsksFor (map string_bytes words.now) choice
        → StopsAtFault choice result (R.tells reader.old) (R.tells reader.new) (R.last reader.new) }
    ensures chosen { ComesOf (map string_bytes words.now) result (R.tells reader.old)
        (W.holds writer.old) (W.holds writer.new) (reader.new ≡ reader.old) }

    // how the run ended: by its status, by the devices, and by what the error stream was told
    ensures ends { (ending : Ending) × (result ≡ status_of ending)
        × LeavesDevices ending
        (ReaderIsQuiet (AsksWorkers (map string_bytes words.now)) ending (R.failures reader.old)
        (R.failures reader.new) × (W.failures writer.new ≡ W.failures writer.old))
        (ReadFailed (NamesKeeper (map string_bytes words.now)) (R.tells reader.old)
        (R.failures reader.old) (R.failures reader.new) (R.asked reader.old) (R.asked reader.new))
        (W.failures writer.old < W.failures writer.new)
        (writer.new ≡ writer.old)
        × TellsErrors ending (errors.new ≡ errors.old)
        (WroteOrFailed (E.holds errors.old) (E.holds errors.new) (E.failures errors.old)
        (E.failures errors.new)) }
{
    match choose(alloc, words) {
        Ok(choice) => finish(errors, run_choice(rt, alloc, choice, reader, writer)),
        Err(NoChoice::Help(text)) => finish(errors, show_help(writer, text.as_str())),
        Err(NoChoice::Usage(text)) => refuse(errors, text.as_str()),
        Err(NoChoice::Bare) => refuse(errors, "sgt: see sgt --help\n"),
        Err(NoChoice::Memory) => give_up(errors, EngineFail::Memory),
    }
}
