//! The input of a run, read from a reader.

ghost use Rattle.std.specs.Prelude.{◌≢◌, Err, IfOk, IfSome};
ghost use Rattle.sgt_devices.specs.Devices.{LeavesReader};
ghost use Rattle.sgt_service.specs.Input.{IsRead, IsUsable};

use crate::input::{Input, Reading};
use crate::taking::take_line;
use sgt_input::{Stop, Taker, read_lines};
use sgt_names::{EngineFail, Listed, Source};
use sgt_notation::{Script, SiteLine};
use std::alloc::{AllocError, Global};

/// What the lines of an input say, kept.
#[derive(Drop)]
struct Keeper {
    alloc: Global,
    sites: Vec<SiteLine>,
    scripts: Vec<Script>,
}

impl Taker for Keeper {
    ghost use Rattle.sgt_service.specs.Input.{Begins};
    ghost use Rattle.sgt_service.specs.private.Taking.{HaveLines};

    ghost begins = { Begins };

    ghost took = { λ k lines. HaveLines (record { sites = k.sites.items; scripts = k.scripts.items }) lines };

    fn take(&mut self, line: &[u8]) -> Result<bool, AllocError> {
        take_line(self.alloc, &mut self.sites, &mut self.scripts, line)
    }
}

/// Reads the whole input of a run: a line for each site that it starts from, numbered from 0, and then a line for each
/// script, of which there are at most 1,000. `Unreadable` names the first line that can't be read. It is L2 where it
/// is longer than `MAX_LINE`, whatever it holds, with its LF or without. It is L1 where it spells nothing, or not
/// what may stand there: a site out of its order or behind a script, a script before the first site or over items
/// that aren't there; where it has no LF; and, behind the last line, where there is no site. No further read is made
/// once that line was read.
///
/// An Err is ReadFault, where a read failed or too many were needed (`MOST_READS` of sgt_names), or Memory. How far was
/// read then is not promised.
pub fn read_input<R: Source>(alloc: Global, reader: &mut R) -> Result<Reading, EngineFail>
    ensures read { IfOk result
        (λ reading. IfSome (R.tells reader.old) (λ bytes. IsRead bytes reading)) }
    ensures usable { IfOk result IsUsable }
    ensures reader { LeavesReader R.tells R.failures R.asked result reader.old reader.new }
    ensures write_fault { result ≢ Err EngineFail.WriteFault }
{
    let mut keeper = Keeper {
        alloc,
        sites: Vec::new(alloc),
        scripts: Vec::new(alloc),
    };
    match read_lines(alloc, reader, &mut keeper)? {
        Stop::Ended => Ok(Reading::Readable(Input {
            sites: Listed::new(keeper.sites),
            scripts: Listed::new(keeper.scripts),
        })),
        Stop::Unreadable { line, fault } => Ok(Reading::Unreadable { line, fault }),
    }
}
