//! A text judged as its lines come from a reader.

ghost use Rattle.std.specs.Prelude.{◌≡◌, ◌≢◌, ℕ, ◌+◌, ◌-◌, ◌^◌, ◌<◌, ◌≤◌, ◌⊎◌, List, [], Option, Err, length, Bool, IsTrue, IfOk, IfSome, IfNone, IsSome, is_some};
ghost use Rattle.sgt_names.specs.Limits.{most_reads};
ghost use Rattle.sgt_notation.specs.Lines.{coming, most_left};
ghost use Rattle.sgt_devices.specs.Devices.{LeavesReader};
ghost use Rattle.sgt_audit.specs.Faults.{BeginsNoneBehind, ReadsNoFurther, start};
ghost use Rattle.sgt_audit.specs.private.Ending.{IsKeeping};
ghost use Rattle.sgt_audit.specs.Progress.{Stands};
ghost use Rattle.sgt_audit.specs.declared.machine.Progress.TheVariants.{Reading};
ghost use Rattle.sgt_audit.specs.private.Stops.{BeganBefore, FedHeld, Goes, IsJudged, IsStop, IsWhole};

use crate::faults::{Fault, FirstFault};
use crate::kept::{Kept, Passed};
use crate::machine::{Machine, Progress};
use sgt_names::{EngineFail, Source};
use sgt_notation::{Lines, LinesFault, Next, front_entry_line};
use std::alloc::{AllocError, Global};

/// Feeds what was kept the lines that are held whole, up to the first fault. The number is that of the next line. What
/// `Kept::front` does is written out: through its answer a line takes a tenth more instructions.
fn feed_kept(
    kept: &mut Kept,
    lines: &mut Lines,
    number: &mut u64,
) -> Result<Option<Fault>, AllocError>
    requires { number.old + most_left lines.old ≤ 2 ^ 48 }
    ensures goes { (all told : Option (List ℕ)) (reads : ℕ)
        → Goes all (Reading kept.old) (coming lines.old told) number.old reads
        → IfOk result (FedHeld all told (Reading kept.new) lines.new number.new reads) }
    ensures unread { lines.new.reads ≡ lines.old.reads }
    ensures few { number.new + most_left lines.new ≤ number.old + most_left lines.old }
    ensures bounded { most_left lines.new ≤ most_left lines.old }
    ensures sections { is_some kept.new.sections ≡ is_some kept.old.sections }
{
    'lines: loop {
        let passed = match front_entry_line(lines.held()) {
            Some((line, n)) => {
                if let Some(fault) = kept.next_read(&line)? {
                    return Ok(Some(fault));
                }
                n
            }
            None => match kept.next_word(lines.held())? {
                Passed::Line(n) => n,
                Passed::Faulty(fault) => return Ok(Some(fault)),
                Passed::Unread => return Ok(None),
            },
        };
        lines.pass(passed);
        *number += 1;
    }
}

/// Feeds the machine the lines of sections that are held whole, up to the first fault. The number is that of the next
/// line.
fn feed_held(
    machine: &mut Machine,
    lines: &mut Lines,
    number: &mut u64,
) -> Result<Option<Fault>, AllocError>
    requires { number.old + most_left lines.old ≤ 2 ^ 48 }
    ensures goes { (all told : Option (List ℕ)) (reads : ℕ)
        → Goes all machine.old.progress (coming lines.old told) number.old reads
        → IfOk result (FedHeld all told machine.new.progress lines.new number.new reads) }
    ensures unread { lines.new.reads ≡ lines.old.reads }
    ensures few { number.new + most_left lines.new ≤ number.old + most_left lines.old }
    ensures bounded { most_left lines.new ≤ most_left lines.old }
    ensures kept { (keeps : Bool) → IsKeeping keeps machine.old → IsKeeping keeps machine.new }
{
    match &mut machine.progress {
        Progress::Reading(kept) => feed_kept(kept, lines, number),
        Progress::Start => Ok(None),
        Progress::Headed(_) => Ok(None),
    }
}

/// Feeds the machine line by line, up to the first fault or to the end of the input: the number of the line in which
/// the input ends, with the bytes behind the last LF in the buffer. A line that is held whole is read where it is
/// held; each other line is copied first.
fn feed_lines<R: Source>(
    reader: &mut R,
    lines: &mut Lines,
    line: &mut Vec<u8>,
    machine: &mut Machine,
) -> Result<Result<u64, FirstFault>, EngineFail>
    requires fresh { lines.old ≡ record { held = []; reads = most_reads } }
    requires starts { Stands machine.old.progress start }
    ensures stops { IfOk result
        (λ stop. IsStop (R.tells reader.old) stop machine.new.progress line.new.items
        (R.asked reader.new - R.asked reader.old)) }
    ensures began { IfOk result (λ stop. BeganBefore (R.tells reader.old) (R.tells reader.new) (R.last reader.new)
        stop machine.new.progress line.new.items) }
    ensures reader { LeavesReader R.tells R.failures R.asked result reader.old reader.new }
    ensures write_fault { result ≢ Err EngineFail.WriteFault }
    ensures kept { (keeps : Bool) → IsKeeping keeps machine.old → IsKeeping keeps machine.new }
{
    let mut number = 1u64;
    'lines: loop {
        if let Some(fault) = feed_held(machine, lines, &mut number)? {
            return Ok(Err(FirstFault {
                line: number,
                fault,
            }));
        }
        match lines.next(reader, line, machine.limit()) {
            Ok(Next::Line) => match machine.line_of(line) {
                Ok(None) => number += 1,
                Ok(Some(fault)) => {
                    return Ok(Err(FirstFault {
                        line: number,
                        fault,
                    }));
                }
                Err(_) => return Err(EngineFail::Memory),
            },
            Ok(Next::Cut) => return Ok(Ok(number)),
            Ok(Next::End) => return Ok(Ok(number)),
            Ok(Next::TooLong) => {
                return Ok(Err(FirstFault {
                    line: number,
                    fault: machine.too_long(),
                }));
            }
            Err(LinesFault::Memory) => return Err(EngineFail::Memory),
            Err(LinesFault::ReadFault) => return Err(EngineFail::ReadFault),
        }
    }
}

/// Judges all that the reader gives: what it says, or its first fault. The sections are kept, if they are to be
/// handed out. Once a line with a fault was read whole, no further read is made.
pub(crate) fn judge<R: Source>(
    alloc: Global,
    keeps: bool,
    reader: &mut R,
) -> Result<Result<Kept, FirstFault>, EngineFail>
    ensures judged { IfOk result (λ j. IfSome (R.tells reader.old) (IsJudged j)) }
    ensures all { IfOk result (λ j. IfOk j IsWhole) }
    ensures no_further { IfOk result (λ j. IfSome (R.tells reader.old) (λ bytes.
        ReadsNoFurther bytes (R.asked reader.new - R.asked reader.old))) }
    ensures none_behind { IfOk result (λ j. IfSome (R.tells reader.old) (λ bytes. IfSome (R.tells reader.new)
        (λ left. BeginsNoneBehind bytes (length left) (R.last reader.new)))) }
    ensures kept { IsTrue keeps → IfOk result (λ j. IfOk j (λ k. IsSome k.sections)) }
    ensures reader { LeavesReader R.tells R.failures R.asked result reader.old reader.new }
    ensures write_fault { result ≢ Err EngineFail.WriteFault }
{
    let mut lines = Lines::new(alloc)?;
    let mut line = Vec::new(alloc);
    let mut machine = Machine::new(alloc, keeps);
    match feed_lines(reader, &mut lines, &mut line, &mut machine)? {
        Ok(number) => Ok(machine.end(line.as_slice(), number)),
        Err(first) => Ok(Err(first)),
    }
}
