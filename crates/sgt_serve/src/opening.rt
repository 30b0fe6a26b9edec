//! The sites that a talk begins with, and what answers over them.

ghost use Rattle.std.specs.Prelude.{◌≡◌, ◌≢◌, ◌≤◌, ◌+◌, ◌*◌, [], None, Some, Ok, length, IfOk, OnOk, OnErr, MatchBool};
ghost use Rattle.std.specs.Io.KnownBytes.{IsAtEnd as NoneLeft};
ghost use Rattle.sgt_names.specs.Limits.{buffer_size};
ghost use Rattle.sgt_notation.specs.Events.{IsEventLine, event_text};
ghost use Rattle.sgt_notation.specs.Reading.{SpellsNone};
ghost use Rattle.sgt_core_machine.specs.Machine.{StandsFor};
ghost use Rattle.sgt_core.specs.private.Playing.{IsOpening};
ghost use Rattle.sgt_pipe.specs.Fronts.{IsLineOf, IsPart};
ghost use Rattle.sgt_courses.specs.Course.{cut_line};
ghost use Rattle.sgt_serve.specs.Devices.{LeavesReader};
ghost use Rattle.sgt_serve.specs.Talk.{starting};
ghost use Rattle.sgt_serve.specs.private.Opening.{Asks, HasSites, OpensOn, OpensSo, ReadsFront, TakesNext, refused_in};

use crate::fail::ServeFail;
use crate::last::Last;
use crate::talking::Server;
use crate::turning::asks_cut;
use sgt_core_machine::Core;
use sgt_input::{items_of, take_site};
use sgt_names::{Sink, Source};
use sgt_notation::{NotationFault, SiteLine, read_event};
use sgt_pipe::{Front, Inbox, Pipe, Refusals};
use sgt_site::SiteFault;
use std::alloc::{AllocError, Global};

/// What comes behind the sites.
#[derive(Clone, Copy)]
pub enum Opened {
    /// A line of so many bytes that asks for something; it is still held.
    Begun(usize),
    /// The end of the input.
    Ended,
    /// A line that may not stand there.
    Unreadable(NotationFault),
}

/// Whether the line asks for an event or a cut.
fn asks(line: &[u8]) -> bool
    ensures { MatchBool result (Asks line.now)
        ((line.now ≢ cut_line) × SpellsNone IsEventLine event_text line.now) }
{
    asks_cut(line) || read_event(line).is_ok()
}

/// Takes the line of so many bytes at the front, if it is the next site's; else says what it is. None: it was taken.
fn take_line(
    alloc: Global,
    inbox: &mut Inbox,
    sites: &mut Vec<SiteLine>,
    refusals: &mut Refusals,
    n: usize,
) -> Result<Option<Opened>, AllocError>
    requires { IsLineOf inbox.old.held n }
    ensures takes { IfOk result (TakesNext n sites.old.items sites.new.items inbox.old.held inbox.new.held) }
    ensures reads { inbox.new.reads ≡ inbox.old.reads }
    ensures held { result ≢ Ok None → inbox.new ≡ inbox.old }
    ensures quiet { OnOk result (refusals.new ≡ refusals.old) }
    ensures notes { OnErr result (refusals.new ≡ refusals.old + 1) }
{
    let line = &inbox.held()[..n];
    let taken = match take_site(alloc, sites, line) {
        Ok(taken) => taken,
        Err(fault) => {
            refusals.note();
            return Err(fault);
        }
    };
    if taken {
        inbox.pass(n + 1);
        return Ok(None);
    }
    if !sites.is_empty() && asks(line) {
        return Ok(Some(Opened::Begun(n)));
    }
    Ok(Some(Opened::Unreadable(NotationFault::NotALine)))
}

/// Reads on in front of the talk. None: there is more to take.
fn read_on<R: Source, W: Sink>(
    pipe: &mut Pipe<R, W>,
    inbox: &mut Inbox,
    any: bool,
) -> Result<Option<Opened>, ServeFail>
    requires { IsPart inbox.old.held }
    ensures reads { ReadsFront result any (R.tells pipe.new.reader) inbox.old.held inbox.new.held
        pipe.old.history pipe.new.history }
    ensures hears { LeavesReader result (R.tells pipe.old.reader) (R.tells pipe.new.reader)
        pipe.old.history.given
        pipe.new.history.given (R.failures pipe.old.reader) (R.failures pipe.new.reader)
        inbox.new.reads }
    ensures writer { pipe.new.writer ≡ pipe.old.writer }
    ensures ends { result ≡ Ok (Some Opened.Ended) → NoneLeft (R.tells pipe.new.reader) }
    ensures asks { R.asked pipe.new.reader + inbox.new.reads
        ≡ R.asked pipe.old.reader + inbox.old.reads }
    ensures falls { result ≡ Ok None → (inbox.old.reads ≡ inbox.new.reads + 1)
        × (length inbox.new.held ≤ length inbox.old.held + buffer_size) }
    ensures quiet { refused_in result ≡ 0 }
{
    match inbox.fill(pipe) {
        Ok(0) if any && inbox.held().is_empty() => Ok(Some(Opened::Ended)),
        Ok(0) => Ok(Some(Opened::Unreadable(NotationFault::NotALine))),
        Ok(_) => Ok(None),
        Err(_) => Err(ServeFail::ReadFault(Last::Done)),
    }
}

/// Takes what stands at the front, or reads on. None: there is more to take.
fn go_on<R: Source, W: Sink>(
    alloc: Global,
    pipe: &mut Pipe<R, W>,
    inbox: &mut Inbox,
    sites: &mut Vec<SiteLine>,
    refusals: &mut Refusals,
) -> Result<Option<Opened>, ServeFail>
    requires has { HasSites sites.old.items pipe.old.history inbox.old.held }
    ensures opens { OpensOn result (R.tells pipe.new.reader) sites.new.items pipe.new.history inbox.new.held }
    ensures hears { LeavesReader result (R.tells pipe.old.reader) (R.tells pipe.new.reader)
        pipe.old.history.given
        pipe.new.history.given (R.failures pipe.old.reader) (R.failures pipe.new.reader)
        inbox.new.reads }
    ensures writer { pipe.new.writer ≡ pipe.old.writer }
    ensures ends { result ≡ Ok (Some Opened.Ended) → NoneLeft (R.tells pipe.new.reader) }
    ensures asks { R.asked pipe.new.reader + inbox.new.reads
        ≡ R.asked pipe.old.reader + inbox.old.reads }
    ensures falls { result ≡ Ok None
        → length inbox.new.held + inbox.new.reads * (buffer_size + 1) + 1
        ≤ length inbox.old.held + inbox.old.reads * (buffer_size + 1) }
    ensures notes { refusals.new ≡ refusals.old + refused_in result }
{
    match inbox.front() {
        Front::Line(n) => Ok(take_line(alloc, inbox, sites, refusals, n)?),
        Front::TooLong => Ok(Some(Opened::Unreadable(NotationFault::TooLong))),
        Front::Part => read_on(pipe, inbox, !sites.is_empty()),
    }
}

/// Reads the lines of the sites.
pub(crate) fn read_sites<R: Source, W: Sink>(
    alloc: Global,
    pipe: &mut Pipe<R, W>,
    inbox: &mut Inbox,
    sites: &mut Vec<SiteLine>,
    refusals: &mut Refusals,
) -> Result<Opened, ServeFail>
    requires has { HasSites sites.old.items pipe.old.history inbox.old.held }
    ensures opens { OpensSo result (R.tells pipe.new.reader) sites.new.items pipe.new.history inbox.new.held }
    ensures hears { LeavesReader result (R.tells pipe.old.reader) (R.tells pipe.new.reader)
        pipe.old.history.given
        pipe.new.history.given (R.failures pipe.old.reader) (R.failures pipe.new.reader)
        inbox.new.reads }
    ensures writer { pipe.new.writer ≡ pipe.old.writer }
    ensures ends { result ≡ Ok Opened.Ended → NoneLeft (R.tells pipe.new.reader) }
    ensures asks { R.asked pipe.new.reader + inbox.new.reads
        ≡ R.asked pipe.old.reader + inbox.old.reads }
    ensures notes { refusals.new ≡ refusals.old + refused_in result }
{
    'lines: loop {
        if let Some(opened) = go_on(alloc, pipe, inbox, sites, refusals)? {
            return Ok(opened);
        }
    }
}

/// A core over these sites. Err: memory ran out.
fn core_of(alloc: Global, sites: Vec<SiteLine>) -> Result<Core, AllocError>
    requires { IsOpening sites.items }
    ensures { IfOk result (λ core. StandsFor core (starting sites.items)) }
{
    let items = items_of(alloc, sites)?;
    match Core::new(alloc, items.as_slice()) {
        Ok(core) => Ok(core),
        Err(fault) => match fault {
            SiteFault::Memory => Err(AllocError),
            _ => unreachable!(),
        },
    }
}

/// What answers over these sites. Err: memory ran out.
pub(crate) fn server_of(alloc: Global, sites: Vec<SiteLine>) -> Result<Server, AllocError>
    requires { IsOpening sites.items }
    ensures stands { IfOk result (λ server. StandsFor server.core (starting sites.items)) }
    ensures none { IfOk result (λ server. server.answers.items ≡ []) }
    ensures quiet { IfOk result (λ server. server.refusals ≡ 0) }
{
    let core = core_of(alloc, sites)?;
    Server::new(alloc, core)
}
