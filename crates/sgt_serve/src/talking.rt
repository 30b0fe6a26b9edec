//! The talk behind the sites.

ghost use Rattle.std.specs.Prelude.{◌≡◌, ◌≢◌, ◌≤◌, ◌+◌, ◌*◌, ◌++◌, ◌∷◌, [], None, Some, take, drop, length, IfOk, OnOk, OnErr, if◌then◌else◌};
ghost use Rattle.std.specs.Io.KnownBytes.{IsAtEnd as NoneLeft};
ghost use Rattle.sgt_names.specs.Limits.{max_line, buffer_size};
ghost use Rattle.sgt_notation.specs.Lines.{IsLongerThan};
ghost use Rattle.sgt_core_machine.specs.Machine.{Parts};
ghost use Rattle.sgt_pipe.specs.Ends.{LosesWriter, Speaks};
ghost use Rattle.sgt_pipe.specs.Fronts.{IsLineOf, IsPart};
ghost use Rattle.sgt_serve.specs.Place.{Kept, kept_at};
ghost use Rattle.sgt_serve.specs.private.Devices.{HearsOr, HearsSo, SpeaksOr, SpeaksSo};
ghost use Rattle.sgt_serve.specs.private.Talking.{Flushes, OpensTo, SaysLast, Stops, StopsOr, TakesFront, desk};

use crate::bundles::Bundles;
use crate::stop::Stop;
use crate::turning::answer;
use crate::writing::write_answer;
use sgt_core_machine::Core;
use sgt_names::{Failed, Sink, Source};
use sgt_pipe::{Front, Inbox, Pipe, Refusals};
use std::alloc::{AllocError, Global};

/// What answers: a core, and the answers that are not written yet. It notes each growth that is refused.
#[derive(Drop)]
pub(crate) struct Server {
    pub(crate) alloc: Global,
    pub(crate) core: Core,
    pub(crate) answers: Vec<u8>,
    pub(crate) refusals: Refusals,
}

/// How many bytes of answers are gathered before they are written, and the room that is made for them.
const GATHERED: usize = 65_536;

const ROOM: usize = GATHERED + 256;

impl Server {
    /// No answer is gathered. Err: memory ran out.
    pub(crate) fn new(alloc: Global, core: Core) -> Result<Server, AllocError>
        ensures core { IfOk result (λ server. server.core ≡ core) }
        ensures none { IfOk result (λ server. server.answers.items ≡ []) }
        ensures quiet { IfOk result (λ server. server.refusals ≡ 0) }
    {
        let answers = Vec::with_capacity(alloc, ROOM)?;
        Ok(Server {
            alloc,
            core,
            answers,
            refusals: Refusals::new(),
        })
    }

    /// Answers the line of so many bytes at the front. Err: there was no memory for the answer.
    fn take<B: Bundles>(
        &mut self,
        inbox: &mut Inbox,
        bundles: &mut B,
        n: usize,
    ) -> Result<(), AllocError>
        requires { IsLineOf inbox.old.held n }
        ensures takes { TakesFront result n (kept_at (B.handed bundles.old) self.old.refusals)
            (kept_at (B.handed bundles.new) self.new.refusals) self.old.core
            self.new.core self.old.answers.items
            self.new.answers.items inbox.old.held inbox.new.held }
        ensures reads { inbox.new.reads ≡ inbox.old.reads }
        ensures falls { OnOk result (length inbox.new.held + 1 ≤ length inbox.old.held) }
    {
        let line = &inbox.held()[..n];
        let answer = answer(
            self.alloc,
            &mut self.core,
            bundles,
            &mut self.refusals,
            line,
        );
        match write_answer(&mut self.answers, line, &answer) {
            Ok(()) => {
                inbox.pass(n + 1);
                Ok(())
            }
            Err(fault) => {
                self.refusals.note();
                Err(fault)
            }
        }
    }
}

/// Writes the answers that were gathered.
fn flush<R: Source, W: Sink>(pipe: &mut Pipe<R, W>, answers: &mut Vec<u8>) -> Result<(), Failed>
    ensures flushes { Flushes result pipe.old.history answers.old.items pipe.new.history
        answers.new.items }
    ensures none { OnOk result (answers.new.items ≡ []) }
    ensures speaks { OnOk result (Speaks (W.holds pipe.old.writer) (W.holds pipe.new.writer)
        pipe.old.history.written
        pipe.new.history.written (W.failures pipe.old.writer) (W.failures pipe.new.writer)) }
    ensures fails { OnErr result (LosesWriter (W.holds pipe.old.writer) (W.holds pipe.new.writer)
        pipe.old.history.written
        pipe.new.history.written (W.failures pipe.old.writer) (W.failures pipe.new.writer)) }
    ensures reader { pipe.new.reader ≡ pipe.old.reader }
{
    pipe.write_all(answers.as_slice())?;
    answers.clear();
    Ok(())
}

/// Writes the answers that were gathered, if they are many.
fn flush_many<R: Source, W: Sink>(
    pipe: &mut Pipe<R, W>,
    answers: &mut Vec<u8>,
) -> Result<(), Failed>
    ensures flushes { Flushes result pipe.old.history answers.old.items pipe.new.history
        answers.new.items }
    ensures speaks { OnOk result (Speaks (W.holds pipe.old.writer) (W.holds pipe.new.writer)
        pipe.old.history.written
        pipe.new.history.written (W.failures pipe.old.writer) (W.failures pipe.new.writer)) }
    ensures fails { OnErr result (LosesWriter (W.holds pipe.old.writer) (W.holds pipe.new.writer)
        pipe.old.history.written
        pipe.new.history.written (W.failures pipe.old.writer) (W.failures pipe.new.writer)) }
    ensures reader { pipe.new.reader ≡ pipe.old.reader }
{
    if answers.len() > GATHERED {
        flush(pipe, answers)
    } else {
        Ok(())
    }
}

/// Writes the last line of a talk, which stops so if that can be written.
fn say<R: Source, W: Sink>(pipe: &mut Pipe<R, W>, line: &[u8], stop: Stop) -> Stop
    requires { stop ≢ Stop.WriteFault }
    ensures says { SaysLast result stop line.now pipe.old.history pipe.new.history }
    ensures speaks { SpeaksSo result (W.holds pipe.old.writer) (W.holds pipe.new.writer)
        pipe.old.history.written
        pipe.new.history.written (W.failures pipe.old.writer) (W.failures pipe.new.writer) }
    ensures reader { pipe.new.reader ≡ pipe.old.reader }
{
    match pipe.write_all(line) {
        Ok(()) => stop,
        Err(_) => Stop::WriteFault,
    }
}

/// Stops where a line is too long.
fn stop_long<R: Source, W: Sink>(pipe: &mut Pipe<R, W>, answers: &mut Vec<u8>, rest: &[u8]) -> Stop
    requires { IsLongerThan max_line rest.now }
    ensures stops { (kept : Kept) (core : Parts)
        → Stops result (desk kept core pipe.old.history answers.old.items rest.now)
        (desk kept core pipe.new.history answers.new.items rest.now) }
    ensures speaks { SpeaksSo result (W.holds pipe.old.writer) (W.holds pipe.new.writer)
        pipe.old.history.written
        pipe.new.history.written (W.failures pipe.old.writer) (W.failures pipe.new.writer) }
    ensures writes { (result ≢ Stop.ReadFault) × (result ≢ Stop.Ended) }
    ensures reader { pipe.new.reader ≡ pipe.old.reader }
    ensures given { pipe.new.history.given ≡ pipe.old.history.given }
{
    match flush(pipe, answers) {
        Ok(()) => say(pipe, b"! L2\n", Stop::TooLong),
        Err(_) => Stop::WriteFault,
    }
}

/// Stops at the end of the input, where all answers are written and this is held.
fn stop_at_end<R: Source, W: Sink>(pipe: &mut Pipe<R, W>, rest: &[u8]) -> Stop
    requires { IsPart rest.now }
    ensures stops { (kept : Kept) (core : Parts)
        → Stops result (desk kept core pipe.old.history [] rest.now)
        (desk kept core pipe.new.history [] rest.now) }
    ensures speaks { SpeaksSo result (W.holds pipe.old.writer) (W.holds pipe.new.writer)
        pipe.old.history.written
        pipe.new.history.written (W.failures pipe.old.writer) (W.failures pipe.new.writer) }
    ensures writes { result ≢ Stop.ReadFault }
    ensures reader { pipe.new.reader ≡ pipe.old.reader }
    ensures given { pipe.new.history.given ≡ pipe.old.history.given }
{
    if rest.is_empty() {
        return Stop::Ended;
    }
    say(pipe, b"! L1\n", Stop::Ended)
}

/// Reads on, where all answers are written. None: there is more to answer.
fn fill_on<R: Source, W: Sink>(pipe: &mut Pipe<R, W>, inbox: &mut Inbox) -> Option<Stop>
    requires { IsPart inbox.old.held }
    ensures stops { (kept : Kept) (core : Parts)
        → StopsOr result (desk kept core pipe.old.history [] inbox.old.held)
        (desk kept core pipe.new.history [] inbox.new.held) }
    ensures hears { HearsOr result (R.tells pipe.old.reader) (R.tells pipe.new.reader)
        pipe.old.history.given
        pipe.new.history.given (R.failures pipe.old.reader) (R.failures pipe.new.reader)
        inbox.new.reads }
    ensures speaks { SpeaksOr result (W.holds pipe.old.writer) (W.holds pipe.new.writer)
        pipe.old.history.written
        pipe.new.history.written (W.failures pipe.old.writer) (W.failures pipe.new.writer) }
    ensures ends { result ≡ Some Stop.Ended → NoneLeft (R.tells pipe.new.reader) }
    ensures asks { R.asked pipe.new.reader + inbox.new.reads
        ≡ R.asked pipe.old.reader + inbox.old.reads }
    ensures falls { result ≡ None → (inbox.old.reads ≡ inbox.new.reads + 1)
        × (length inbox.new.held ≤ length inbox.old.held + buffer_size) }
{
    match inbox.fill(pipe) {
        Ok(0) => Some(stop_at_end(pipe, inbox.held())),
        Ok(_) => None,
        Err(_) => Some(Stop::ReadFault),
    }
}

/// Writes all answers, and reads on then. None: there is more to answer.
fn read_on<R: Source, W: Sink>(
    pipe: &mut Pipe<R, W>,
    inbox: &mut Inbox,
    answers: &mut Vec<u8>,
) -> Option<Stop>
    requires { IsPart inbox.old.held }
    ensures stops { (kept : Kept) (core : Parts)
        → StopsOr result (desk kept core pipe.old.history answers.old.items inbox.old.held)
        (desk kept core pipe.new.history answers.new.items inbox.new.held) }
    ensures hears { HearsOr result (R.tells pipe.old.reader) (R.tells pipe.new.reader)
        pipe.old.history.given
        pipe.new.history.given (R.failures pipe.old.reader) (R.failures pipe.new.reader)
        inbox.new.reads }
    ensures speaks { SpeaksOr result (W.holds pipe.old.writer) (W.holds pipe.new.writer)
        pipe.old.history.written
        pipe.new.history.written (W.failures pipe.old.writer) (W.failures pipe.new.writer) }
    ensures ends { result ≡ Some Stop.Ended → NoneLeft (R.tells pipe.new.reader) }
    ensures asks { R.asked pipe.new.reader + inbox.new.reads
        ≡ R.asked pipe.old.reader + inbox.old.reads }
    ensures falls { result ≡ None → (inbox.old.reads ≡ inbox.new.reads + 1)
        × (length inbox.new.held ≤ length inbox.old.held + buffer_size) }
{
    match flush(pipe, answers) {
        Ok(()) => fill_on(pipe, inbox),
        Err(_) => Some(Stop::WriteFault),
    }
}

/// Answers the line of so many bytes at the front. None: there may be more to answer.
fn take_line<R: Source, W: Sink, B: Bundles>(
    pipe: &mut Pipe<R, W>,
    inbox: &mut Inbox,
    server: &mut Server,
    bundles: &mut B,
    n: usize,
) -> Option<Stop>
    requires { IsLineOf inbox.old.held n }
    ensures stops { StopsOr result
        (desk (kept_at (B.handed bundles.old) server.old.refusals) server.old.core
        pipe.old.history server.old.answers.items inbox.old.held)
        (desk (kept_at (B.handed bundles.new) server.new.refusals) server.new.core
        pipe.new.history server.new.answers.items inbox.new.held) }
    ensures speaks { SpeaksOr result (W.holds pipe.old.writer) (W.holds pipe.new.writer)
        pipe.old.history.written
        pipe.new.history.written (W.failures pipe.old.writer) (W.failures pipe.new.writer) }
    ensures writes { (result ≢ Some Stop.ReadFault) × (result ≢ Some Stop.Ended) }
    ensures reader { pipe.new.reader ≡ pipe.old.reader }
    ensures given { pipe.new.history.given ≡ pipe.old.history.given }
    ensures reads { inbox.new.reads ≡ inbox.old.reads }
    ensures falls { result ≡ None → length inbox.new.held + 1 ≤ length inbox.old.held }
{
    match flush_many(pipe, &mut server.answers) {
        Ok(()) => match server.take(inbox, bundles, n) {
            Ok(()) => None,
            Err(_) => Some(Stop::Memory),
        },
        Err(_) => Some(Stop::WriteFault),
    }
}

/// Answers what stands at the front, or reads on. None: there may be more to answer.
fn go_on<R: Source, W: Sink, B: Bundles>(
    pipe: &mut Pipe<R, W>,
    inbox: &mut Inbox,
    server: &mut Server,
    bundles: &mut B,
) -> Option<Stop>
    ensures stops { StopsOr result
        (desk (kept_at (B.handed bundles.old) server.old.refusals) server.old.core
        pipe.old.history server.old.answers.items inbox.old.held)
        (desk (kept_at (B.handed bundles.new) server.new.refusals) server.new.core
        pipe.new.history server.new.answers.items inbox.new.held) }
    ensures hears { HearsOr result (R.tells pipe.old.reader) (R.tells pipe.new.reader)
        pipe.old.history.given
        pipe.new.history.given (R.failures pipe.old.reader) (R.failures pipe.new.reader)
        inbox.new.reads }
    ensures speaks { SpeaksOr result (W.holds pipe.old.writer) (W.holds pipe.new.writer)
        pipe.old.history.written
        pipe.new.history.written (W.failures pipe.old.writer) (W.failures pipe.new.writer) }
    ensures ends { result ≡ Some Stop.Ended → NoneLeft (R.tells pipe.new.reader) }
    ensures asks { R.asked pipe.new.reader + inbox.new.reads
        ≡ R.asked pipe.old.reader + inbox.old.reads }
    ensures falls { result ≡ None → length inbox.new.held + inbox.new.reads * (buffer_size + 1) + 1
        ≤ length inbox.old.held + inbox.old.reads * (buffer_size + 1) }
{
    match inbox.front() {
        Front::Line(n) => take_line(pipe, inbox, server, bundles, n),
        Front::TooLong => Some(stop_long(pipe, &mut server.answers, inbox.held())),
        Front::Part => read_on(pipe, inbox, &mut server.answers),
    }
}

/// Answers line after line, up to the end of the input or to a fault.
fn talk_on<R: Source, W: Sink, B: Bundles>(
    pipe: &mut Pipe<R, W>,
    inbox: &mut Inbox,
    server: &mut Server,
    bundles: &mut B,
) -> Stop
    ensures stops { Stops result
        (desk (kept_at (B.handed bundles.old) server.old.refusals) server.old.core
        pipe.old.history server.old.answers.items inbox.old.held)
        (desk (kept_at (B.handed bundles.new) server.new.refusals) server.new.core
        pipe.new.history server.new.answers.items inbox.new.held) }
    ensures hears { HearsSo result (R.tells pipe.old.reader) (R.tells pipe.new.reader)
        pipe.old.history.given
        pipe.new.history.given (R.failures pipe.old.reader) (R.failures pipe.new.reader)
        inbox.new.reads }
    ensures speaks { SpeaksSo result (W.holds pipe.old.writer) (W.holds pipe.new.writer)
        pipe.old.history.written
        pipe.new.history.written (W.failures pipe.old.writer) (W.failures pipe.new.writer) }
    ensures ends { result ≡ Stop.Ended → NoneLeft (R.tells pipe.new.reader) }
    ensures asks { R.asked pipe.new.reader + inbox.new.reads
        ≡ R.asked pipe.old.reader + inbox.old.reads }
{
    'lines: loop {
        if let Some(stop) = go_on(pipe, inbox, server, bundles) {
            return stop;
        }
    }
}

/// Answers the first line, which is of so many bytes and asks for something, and then line after line, up to the end
/// of the input or to a fault.
pub(crate) fn talk<R: Source, W: Sink, B: Bundles>(
    pipe: &mut Pipe<R, W>,
    inbox: &mut Inbox,
    server: &mut Server,
    bundles: &mut B,
    n: usize,
) -> Stop
    requires { IsLineOf inbox.old.held n }
    ensures stops { OpensTo result n
        (desk (kept_at (B.handed bundles.old) server.old.refusals) server.old.core
        pipe.old.history server.old.answers.items inbox.old.held)
        (desk (kept_at (B.handed bundles.new) server.new.refusals) server.new.core
        pipe.new.history server.new.answers.items inbox.new.held) }
    ensures hears { HearsSo result (R.tells pipe.old.reader) (R.tells pipe.new.reader)
        pipe.old.history.given
        pipe.new.history.given (R.failures pipe.old.reader) (R.failures pipe.new.reader)
        inbox.new.reads }
    ensures speaks { SpeaksSo result (W.holds pipe.old.writer) (W.holds pipe.new.writer)
        pipe.old.history.written
        pipe.new.history.written (W.failures pipe.old.writer) (W.failures pipe.new.writer) }
    ensures ends { result ≡ Stop.Ended → NoneLeft (R.tells pipe.new.reader) }
    ensures asks { R.asked pipe.new.reader + inbox.new.reads
        ≡ R.asked pipe.old.reader + inbox.old.reads }
{
    match server.take(inbox, bundles, n) {
        Ok(()) => talk_on(pipe, inbox, server, bundles),
        Err(_) => Stop::Memory,
    }
}
