//! The lines of an input, read from a reader.

ghost use Rattle.std.specs.Prelude.{◌≡◌, ◌≢◌, [], Err, IfOk};
ghost use Rattle.sgt_devices.specs.Devices.{LeavesReader};
ghost use Rattle.sgt_input.specs.Stopping.{IsStop};

use crate::taker::Taker;
use sgt_names::{EngineFail, MAX_LINE, Source};
use sgt_notation::{Lines, LinesFault, Next, NotationFault, find_lf};
use std::alloc::Global;

/// Where the reading of an input stopped.
#[derive(Clone, Copy)]
pub enum Stop {
    /// At its end, behind an LF. Some line was read.
    Ended,
    /// At its first line that can't be read, with its number from 1. The fault is L1 or L2.
    Unreadable { line: u64, fault: NotationFault },
}

fn not_a_line(line: u64) -> Stop
    ensures { result ≡ Stop.Unreadable line NotationFault.NotALine }
{
    Stop::Unreadable {
        line,
        fault: NotationFault::NotALine,
    }
}

/// Hands line after line to what takes them, up to the first that can't be read or to the end of the input. That line
/// is L2 where it is longer than `MAX_LINE`, whatever it holds, with its LF or without; it is L1 where it isn't
/// taken, where it has no LF, and where there is no line at all. No further read is made once it was read.
///
/// An Err is ReadFault, where a read failed or too many were needed (`MOST_READS` of sgt_names), or Memory. How far was
/// read then is not promised.
pub fn read_lines<R: Source, T: Taker>(
    alloc: Global,
    reader: &mut R,
    taker: &mut T,
) -> Result<Stop, EngineFail>
    requires begins { T.begins [] }
    requires fresh { T.took taker.old [] }
    ensures stops { IfOk result (IsStop T.begins (T.took taker.new) (R.tells reader.old)) }
    ensures reader { LeavesReader R.tells R.failures R.asked result reader.old reader.new }
    ensures write_fault { result ≢ Err EngineFail.WriteFault }
{
    let mut lines = Lines::new(alloc)?;
    let mut line = Vec::new(alloc);
    let mut number = 1u64;
    'lines: loop {
        if let Some(n) = taker.take_front(lines.held())? {
            lines.pass(n);
            number += 1;
            continue;
        }
        match find_lf(lines.held()) {
            Some(n) if n <= MAX_LINE => {
                if !taker.take(&lines.held()[..n])? {
                    return Ok(not_a_line(number));
                }
                lines.pass(n + 1);
                number += 1;
            }
            _ => match lines.next(reader, &mut line, MAX_LINE) {
                Ok(Next::Line) => {
                    if !taker.take(line.as_slice())? {
                        return Ok(not_a_line(number));
                    }
                    number += 1;
                }
                Ok(Next::Cut) => return Ok(not_a_line(number)),
                Ok(Next::End) => {
                    if number > 1 {
                        return Ok(Stop::Ended);
                    }
                    return Ok(not_a_line(number));
                }
                Ok(Next::TooLong) => {
                    return Ok(Stop::Unreadable {
                        line: number,
                        fault: NotationFault::TooLong,
                    });
                }
                Err(LinesFault::Memory) => return Err(EngineFail::Memory),
                Err(LinesFault::ReadFault) => return Err(EngineFail::ReadFault),
            },
        }
    }
}
