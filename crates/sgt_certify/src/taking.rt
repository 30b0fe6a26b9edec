//! All that a reader gives, or as much as has a fault.

ghost use Rattle.std.specs.Prelude.{◌≡◌, ◌≢◌, ◌≤◌, ◌-◌, ◌∷◌, ◌++◌, ℕ, [], List, length, take, Err, IfOk, IfSome, OnOk};
ghost use Rattle.sgt_names.specs.Limits.{most_reads};
ghost use Rattle.sgt_notation.specs.Lines.{passed};
ghost use Rattle.sgt_devices.specs.Devices.{LeavesReader};
ghost use Rattle.sgt_certify.specs.Answer.{IsStop, IsTakenSo};
ghost use Rattle.sgt_certify.specs.Reach.{AreShort, BeginsLittleBehind, BeginsNoneBehind, ReadsAll, ReadsNoFurther};

use crate::early::Early;
use memchr::memrchr;
use sgt_certify_faults::FirstFault;
use sgt_names::{EngineFail, MAX_LINE, Source};
use sgt_notation::{Lines, LinesFault, Next};
use std::alloc::{AllocError, Global};

/// One more line, with its LF.
fn push_line(text: &mut Vec<u8>, line: &[u8]) -> Result<(), AllocError>
    ensures { OnOk result (text.new.items ≡ (text.old.items ++ line.now) ++ 10 ∷ []) }
{
    text.extend_from_slice(line)?;
    text.extend_from_slice(b"\n")
}

/// How many bytes the lines have, with their LFs, that stand whole in the first of these: as many as a line may have.
fn whole_lines(bytes: &[u8]) -> usize
    ensures within { result ≤ length bytes.now }
    ensures short { AreShort (take result bytes.now) }
{
    let most = bytes.len().min(MAX_LINE);
    match memrchr(b'\n', &bytes[..most]) {
        Some(last) => last + 1,
        None => 0,
    }
}

/// Moves the lines that are held whole to the text.
fn take_held(lines: &mut Lines, text: &mut Vec<u8>) -> Result<(), AllocError>
    ensures { OnOk result
        ((n : ℕ) × (lines.new ≡ passed n lines.old)
        × (text.new.items ≡ text.old.items ++ take n lines.old.held)
        × AreShort (take n lines.old.held)) }
{
    let n = whole_lines(lines.held());
    text.extend_from_slice(&lines.held()[..n])?;
    lines.pass(n);
    Ok(())
}

/// Where the reading of a text stops.
#[derive(Clone, Copy)]
pub enum Stop {
    /// Behind all of it.
    All,
    /// Before a line that is too long.
    Long,
    /// Behind the line that has its first fault.
    Fault(FirstFault),
}

/// Adds all bytes to the text; or those of the lines before the first one that is too long, or of lines of which one has
/// the first fault.
fn take_lines<R: Source>(
    alloc: Global,
    reader: &mut R,
    lines: &mut Lines,
    text: &mut Vec<u8>,
) -> Result<Stop, EngineFail>
    requires fresh { lines.old ≡ record { held = []; reads = most_reads } }
    requires none { text.old.items ≡ [] }
    ensures taken { IfOk result (IsStop (R.tells reader.old) text.new.items) }
    ensures no_further { IfOk result (λ _. IfSome (R.tells reader.old) (λ bytes.
        ReadsNoFurther bytes (R.asked reader.new - R.asked reader.old))) }
    ensures none_behind { IfOk result (λ _. IfSome (R.tells reader.old) (λ bytes. IfSome (R.tells reader.new)
        (λ left. BeginsNoneBehind bytes (length left) (R.last reader.new)))) }
    ensures little_behind { IfOk result (λ _. IfSome (R.tells reader.old) (λ bytes. IfSome (R.tells reader.new)
        (λ left. BeginsLittleBehind bytes (length left) (R.last reader.new)))) }
    ensures reads_all { IfOk result (λ _. IfSome (R.tells reader.old) (λ bytes. IfSome (R.tells reader.new)
        (ReadsAll bytes))) }
    ensures reader { LeavesReader R.tells R.failures R.asked result reader.old reader.new }
    ensures write_fault { result ≢ Err EngineFail.WriteFault }
{
    let mut early = Early::new(alloc, reader.flow())?;
    let mut line = Vec::new(alloc);
    'lines: loop {
        take_held(lines, text)?;
        let so_far = text.as_slice();
        if let Some(first) = early.look(so_far)? {
            return Ok(Stop::Fault(first));
        }
        match lines.next(reader, &mut line, MAX_LINE) {
            Ok(Next::Line) => {
                let whole = line.as_slice();
                push_line(text, whole)?;
            }
            Ok(Next::Cut) => {
                let last = line.as_slice();
                text.extend_from_slice(last)?;
                return Ok(Stop::All);
            }
            Ok(Next::End) => return Ok(Stop::All),
            Ok(Next::TooLong) => return Ok(Stop::Long),
            Err(LinesFault::Memory) => return Err(EngineFail::Memory),
            Err(LinesFault::ReadFault) => return Err(EngineFail::ReadFault),
        }
    }
}

/// What a reader gave.
#[derive(Drop)]
pub enum Taken {
    /// Its text: all that it gives, or all before a line that is too long.
    Text { text: Vec<u8>, all: bool },
    /// A text that has this first fault, whatever comes behind its line.
    Fault(FirstFault),
}

/// Reads all bytes; or as far as to the first line that is too long, or to one with a fault that no certificate mends.
/// An Err is ReadFault, where a read failed or too many were needed, or Memory.
pub fn take_text<R: Source>(alloc: Global, reader: &mut R) -> Result<Taken, EngineFail>
    ensures taken { IfOk result (IsTakenSo (R.tells reader.old)) }
    ensures no_further { IfOk result (λ _. IfSome (R.tells reader.old) (λ bytes.
        ReadsNoFurther bytes (R.asked reader.new - R.asked reader.old))) }
    ensures none_behind { IfOk result (λ _. IfSome (R.tells reader.old) (λ bytes. IfSome (R.tells reader.new)
        (λ left. BeginsNoneBehind bytes (length left) (R.last reader.new)))) }
    ensures little_behind { IfOk result (λ _. IfSome (R.tells reader.old) (λ bytes. IfSome (R.tells reader.new)
        (λ left. BeginsLittleBehind bytes (length left) (R.last reader.new)))) }
    ensures reads_all { IfOk result (λ _. IfSome (R.tells reader.old) (λ bytes. IfSome (R.tells reader.new)
        (ReadsAll bytes))) }
    ensures reader { LeavesReader R.tells R.failures R.asked result reader.old reader.new }
    ensures write_fault { result ≢ Err EngineFail.WriteFault }
{
    let mut lines = Lines::new(alloc)?;
    let mut text = Vec::new(alloc);
    match take_lines(alloc, reader, &mut lines, &mut text)? {
        Stop::All => Ok(Taken::Text { text, all: true }),
        Stop::Long => Ok(Taken::Text { text, all: false }),
        Stop::Fault(first) => Ok(Taken::Fault(first)),
    }
}
