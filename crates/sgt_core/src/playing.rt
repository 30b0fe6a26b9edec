//! The run of an input's events, line by line.

ghost use Rattle.std.specs.Prelude.{◌≡◌, ◌∷◌, [], None, map, IfOk, OnOk};
ghost use Rattle.sgt_notation.specs.Events.{event_text};
ghost use Rattle.sgt_core_model.specs.Core.{fresh};
ghost use Rattle.sgt_core_machine.specs.Machine.{StandsFor};
ghost use Rattle.sgt_core_model.specs.Runs.{IsMemory};
ghost use Rattle.sgt_core.specs.Input.{IsBegun};
ghost use Rattle.sgt_core.specs.private.Running.{WritesReplies};
ghost use Rattle.sgt_core.specs.private.Playing.{AnswersEvent, IsOpening, PlaysOn};

use crate::reply::write_reply;
use sgt_core_machine::Core;
use sgt_core_model::{CoreFault, Reply};
use sgt_input::{Taker, items_of, take_site};
use sgt_notation::{EventLine, SiteLine, front_event, read_event};
use sgt_site::SiteFault;
use std::alloc::{AllocError, Global};
use std::mem;

/// A run over the lines of an input, as far as they were taken.
#[derive(Drop)]
pub struct Player {
    pub alloc: Global,
    /// The sites, until there is an event.
    pub sites: Vec<SiteLine>,
    /// The core over them, from the first event on.
    pub core: Option<Core>,
    /// The replies, a line each.
    pub text: Vec<u8>,
}

impl Taker for Player {
    ghost use Rattle.sgt_core.specs.Input.{Begins};
    ghost use Rattle.sgt_core.specs.private.Playing.{HasPlayed};

    ghost begins = { Begins };

    ghost took = { λ p lines. HasPlayed p.sites.items p.core p.text.items lines };

    fn take(&mut self, line: &[u8]) -> Result<bool, AllocError> {
        match &mut self.core {
            Some(core) => answer_line(core, line, &mut self.text),
            None => take_first(
                self.alloc,
                &mut self.sites,
                &mut self.core,
                &mut self.text,
                line,
            ),
        }
    }

    fn take_front(&mut self, held: &[u8]) -> Result<Option<usize>, AllocError> {
        let Some(core) = &mut self.core else {
            return Ok(None);
        };
        let Some((event, n)) = front_event(held) else {
            return Ok(None);
        };
        answer_event(core, &event, &held[..n - 1], &mut self.text)?;
        Ok(Some(n))
    }
}

impl Player {
    ghost use Rattle.std.specs.Prelude.{◌≡◌, [], None};

    /// No line was taken. It takes no memory.
    pub fn new(alloc: Global) -> Player
        ensures sites { result.sites.items ≡ [] }
        ensures core { result.core ≡ None }
        ensures text { result.text.items ≡ [] }
    {
        Player {
            alloc,
            sites: Vec::new(alloc),
            core: None,
            text: Vec::new(alloc),
        }
    }
}

/// Err: the reply is that memory ran out.
fn check_memory(reply: &Reply) -> Result<(), AllocError>
    ensures { OnOk result (IsMemory reply.now → ⊥) }
{
    match reply {
        Reply::Fault {
            fault: CoreFault::Memory,
        } => Err(AllocError),
        _ => Ok(()),
    }
}

/// Writes what the core replies to the event, whose line is given without its LF. Err: memory ran out.
#[inline(always)]
fn answer_event(
    core: &mut Core,
    event: &EventLine,
    line: &[u8],
    text: &mut Vec<u8>,
) -> Result<(), AllocError>
    requires { line.now ≡ event_text event.now }
    ensures { OnOk result
        (WritesReplies core.old (event.now ∷ []) core.new text.old.items text.new.items) }
{
    let reply = match event {
        EventLine::One(event) => core.step(*event),
        EventLine::ToDecide(tx) => core.to_decide(*tx),
    };
    check_memory(&reply)?;
    write_reply(text, line, &reply)?;
    text.push(b'\n')?;
    Ok(())
}

/// Answers the event, if the line spells one. Err: memory ran out.
fn answer_line(core: &mut Core, line: &[u8], text: &mut Vec<u8>) -> Result<bool, AllocError>
    ensures { IfOk result (AnswersEvent core.old line.now core.new text.old.items text.new.items) }
{
    match read_event(line) {
        Ok(event) => {
            answer_event(core, &event, line, text)?;
            Ok(true)
        }
        Err(_) => Ok(false),
    }
}

/// Takes a line where there was no event yet.
fn take_first(
    alloc: Global,
    sites: &mut Vec<SiteLine>,
    core: &mut Option<Core>,
    text: &mut Vec<u8>,
    line: &[u8],
) -> Result<bool, AllocError>
    requires begun { IsBegun (record { sites = sites.old.items; events = [] }) }
    requires none { core.old ≡ None }
    requires empty { text.old.items ≡ [] }
    ensures { IfOk result (PlaysOn (record { sites = sites.old.items; events = [] }) line.now
        sites.new.items core.new text.new.items) }
{
    if take_site(alloc, sites, line)? {
        return Ok(true);
    }
    if sites.is_empty() {
        return Ok(false);
    }
    let mut opened = core_of(alloc, mem::replace(sites, Vec::new(alloc)))?;
    let answered = answer_line(&mut opened, line, text)?;
    *core = Some(opened);
    Ok(answered)
}

/// A core over these sites. Err: memory ran out.
pub fn core_of(alloc: Global, sites: Vec<SiteLine>) -> Result<Core, AllocError>
    requires { IsOpening sites.items }
    ensures { IfOk result (λ core. StandsFor core (fresh (map (λ l. l.items) sites.items))) }
{
    let items = items_of(alloc, sites)?;
    match Core::new(alloc, items.as_slice()) {
        Ok(core) => Ok(core),
        Err(fault) => match fault {
            SiteFault::Memory => Err(AllocError),
            _ => unreachable!(),
        },
    }
}
