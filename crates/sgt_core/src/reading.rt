//! The input of a replay, read from a reader.

ghost use Rattle.std.specs.Prelude.{◌≢◌, [], Err, IfOk, IfSome};
ghost use Rattle.sgt_devices.specs.Devices.{LeavesReader};
ghost use Rattle.sgt_core.specs.Input.{IsRead, IsUsable};
ghost use Rattle.sgt_core.specs.private.Taking.{Takes, TakesEvent};

use crate::input::{Input, Reading};
use sgt_input::{Stop, Taker, read_lines, take_site};
use sgt_names::{EngineFail, Listed, Source};
use sgt_notation::{EventLine, SiteLine, read_event};
use std::alloc::{AllocError, Global};

/// What the lines of an input say, kept.
#[derive(Drop)]
struct Keeper {
    alloc: Global,
    sites: Vec<SiteLine>,
    events: Vec<EventLine>,
}

impl Taker for Keeper {
    ghost use Rattle.sgt_core.specs.Input.{Begins};
    ghost use Rattle.sgt_core.specs.private.Taking.{HaveLines};

    ghost begins = { Begins };

    ghost took = { λ k lines. HaveLines (record { sites = k.sites.items; events = k.events.items }) lines };

    fn take(&mut self, line: &[u8]) -> Result<bool, AllocError> {
        take_line(self.alloc, &mut self.sites, &mut self.events, line)
    }
}

/// Keeps the event, if the line spells one.
fn take_event(events: &mut Vec<EventLine>, line: &[u8]) -> Result<bool, AllocError>
    ensures { IfOk result (TakesEvent events.old.items line.now events.new.items) }
{
    match read_event(line) {
        Ok(event) => {
            events.extend_from_slice(&[event])?;
            Ok(true)
        }
        Err(_) => Ok(false),
    }
}

/// Keeps what the line says, if it may stand behind those that were read: a site before the first event, or behind
/// the first site an event.
fn take_line(
    alloc: Global,
    sites: &mut Vec<SiteLine>,
    events: &mut Vec<EventLine>,
    line: &[u8],
) -> Result<bool, AllocError>
    ensures { IfOk result
        (Takes (record { sites = sites.old.items; events = events.old.items }) line.now
        (record { sites = sites.new.items; events = events.new.items })) }
{
    if !events.is_empty() {
        return take_event(events, line);
    }
    if take_site(alloc, sites, line)? {
        return Ok(true);
    }
    if sites.is_empty() {
        return Ok(false);
    }
    take_event(events, line)
}

/// Reads the whole input of a replay: a line for each site that it starts from, numbered from 0, and then a line for
/// each event. `Unreadable` names the first line that can't be read. It is L2 where it is longer than `MAX_LINE`,
/// whatever it holds, with its LF or without. It is L1 where it spells nothing, or not what may stand there: a site
/// out of its order or behind an event, an event before the first site; where it has no LF; and, behind the last
/// line, where there is no site. No further read is made once that line was read.
///
/// An Err is ReadFault, where a read failed or too many were needed (`MOST_READS` of sgt_names), or Memory. How far was
/// read then is not promised.
pub fn read_input<R: Source>(alloc: Global, reader: &mut R) -> Result<Reading, EngineFail>
    ensures read { IfOk result
        (λ reading. IfSome (R.tells reader.old) (λ bytes. IsRead bytes reading)) }
    ensures usable { IfOk result IsUsable }
    ensures reader { LeavesReader R.tells R.failures R.asked result reader.old reader.new }
    ensures write_fault { result ≢ Err EngineFail.WriteFault }
{
    let mut keeper = Keeper {
        alloc,
        sites: Vec::new(alloc),
        events: Vec::new(alloc),
    };
    match read_lines(alloc, reader, &mut keeper)? {
        Stop::Ended => Ok(Reading::Readable(Input {
            sites: Listed::new(keeper.sites),
            events: Listed::new(keeper.events),
        })),
        Stop::Unreadable { line, fault } => Ok(Reading::Unreadable { line, fault }),
    }
}
