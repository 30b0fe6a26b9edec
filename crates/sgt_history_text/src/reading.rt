//! The history that all lines of a reader spell.

ghost use Rattle.std.specs.Prelude.{◌≡◌, ◌≢◌, ◌+◌, [], length, ℕ, List, Option, Err, IfOk, IfSome, MatchOption};
ghost use Rattle.json.specs.Json.{Json};
ghost use Rattle.sgt_history.specs.Transaction.{Transaction};
ghost use Rattle.sgt_names.specs.Limits.{most_reads};
ghost use Rattle.sgt_devices.specs.Devices.{LeavesReader};
ghost use Rattle.sgt_history_text.specs.Built.{AreMoments, IsBuilt, IsTaken};
ghost use Rattle.sgt_history_text.specs.Reading.{IsReading, IsStop, IsToldOf, stop_of};
ghost use Rattle.sgt_history_text.specs.Text.{Spells};
ghost use Rattle.sgt_history_text.specs.declared.wanted.Wanted.{Wanted};

use crate::adding::add_plain;
use crate::building::{Builder, close_line, no_lines};
use crate::fault::{LineFault, MAX_HISTORY_LINE};
use crate::line::{head, parsed};
use crate::moment::moment;
use crate::moments::{Moments, add_moment, no_moments};
use crate::names::Names;
use crate::wanted::Wanted;
use json::{Scratch, to_vec};
use sgt_history::History;
use sgt_history_time::Times;
use sgt_names::{EngineFail, Source};
use sgt_notation::{Lines, LinesFault, Next};
use std::alloc::{AllocError, Global};

/// A history that was read, and what its numbers stand for: each id, item and value as JSON writes it compact.
#[derive(Drop)]
pub struct Reading {
    /// The history, its items and values numbered.
    pub history: History,
    /// The ids, in the order of the lines.
    pub ids: Names,
    /// The items by number.
    pub items: Names,
    /// The values by number.
    pub values: Names,
    /// When transactions ran, by line, of those that commit; empty if that wasn't wanted.
    pub times: Vec<Option<Times>>,
    /// Their sessions, numbered, likewise.
    pub sessions: Vec<Option<u32>>,
    /// The sessions by number.
    pub session_names: Names,
}

/// What a text was read as.
#[derive(Drop)]
pub enum HistoryText {
    /// A history.
    Read(Reading),
    /// None: its first line that can't be read, from 1, and why.
    Unreadable { line: u64, fault: LineFault },
}

/// One line more, given without its LF, where it is in the plain layout and nothing is wanted of it besides, or why
/// it can't be read. None says nothing of the line, and nothing was added then.
fn take_plain(
    alloc: Global,
    builder: &mut Builder,
    moments: &Moments,
    line: &[u8],
) -> Result<Option<Option<LineFault>>, AllocError>
    ensures { (w : Wanted) (lines : List (List ℕ)) (ids : List Json) (h : List (Transaction Json Json))
        → IsBuilt builder.old ids h []
        → AreMoments w moments.now lines h → IfOk result (λ found. MatchOption found (IsBuilt builder.new ids h [])
        (IsTaken w lines ids h line.now builder.new moments.now)) }
{
    if moments.wanted.real_time {
        return Ok(None);
    }
    if moments.wanted.sessions {
        return Ok(None);
    }
    let Some(new) = add_plain(alloc, builder, line)? else {
        return Ok(None);
    };
    if !new {
        return Ok(Some(Some(LineFault::IdAgain)));
    }
    Ok(Some(None))
}

/// One line more, given without its LF, by its tokens, or why it can't be read. Err: memory ran out.
fn take_tokens(
    alloc: Global,
    builder: &mut Builder,
    moments: &mut Moments,
    scratch: &mut Scratch,
    line: &[u8],
) -> Result<Option<LineFault>, AllocError>
    ensures { (w : Wanted) (lines : List (List ℕ)) (ids : List Json) (h : List (Transaction Json Json))
        → IsBuilt builder.old ids h []
        → AreMoments w moments.old lines h → IfOk result (IsTaken w lines ids h line.now builder.new moments.new) }
{
    let Some(object) = parsed(alloc, builder, line, scratch)? else {
        return Ok(Some(LineFault::NotALine));
    };
    if !object.operations {
        return Ok(Some(LineFault::NotALine));
    }
    let Some((id, commits)) = head(&object.members) else {
        return Ok(Some(LineFault::NotALine));
    };
    let Some(moment) = moment(moments.wanted, commits, &object.members) else {
        return Ok(Some(LineFault::NotALine));
    };
    let text = to_vec(alloc, id)?;
    if close_line(alloc, builder, text.as_slice(), commits)? {
        add_moment(alloc, moments, &moment)?;
        Ok(None)
    } else {
        Ok(Some(LineFault::IdAgain))
    }
}

/// One line more, given without its LF, or why it can't be read. Err: memory ran out.
fn take_line(
    alloc: Global,
    builder: &mut Builder,
    moments: &mut Moments,
    scratch: &mut Scratch,
    line: &[u8],
) -> Result<Option<LineFault>, AllocError>
    ensures { (w : Wanted) (lines : List (List ℕ)) (ids : List Json) (h : List (Transaction Json Json))
        → IsBuilt builder.old ids h []
        → AreMoments w moments.old lines h → IfOk result (IsTaken w lines ids h line.now builder.new moments.new) }
{
    if let Some(taken) = take_plain(alloc, builder, moments, line)? {
        return Ok(taken);
    }
    take_tokens(alloc, builder, moments, scratch, line)
}

/// Where the reading of lines stops.
#[derive(Clone, Copy)]
pub(crate) enum Stop {
    /// At the end.
    Ended,
    /// At the first line that can't be read.
    At { line: u64, fault: LineFault },
}

/// The number of the next line.
fn next_line(builder: &Builder) -> u64
    ensures { (ids : List Json) (h : List (Transaction Json Json)) → IsBuilt builder.now ids h []
        → result ≡ length ids + 1 }
{
    builder.ids.len() as u64 + 1
}

fn stop_with(line: u64, fault: Option<LineFault>) -> Stop
    ensures { result ≡ stop_of line fault }
{
    match fault {
        Some(fault) => Stop::At { line, fault },
        None => Stop::Ended,
    }
}

/// Reads line after line, up to the end or to the first that can't be read.
fn read_lines<R: Source>(
    alloc: Global,
    reader: &mut R,
    lines: &mut Lines,
    builder: &mut Builder,
    moments: &mut Moments,
) -> Result<Stop, EngineFail>
    requires fresh { lines.old ≡ record { held = []; reads = most_reads } }
    requires none { IsBuilt builder.old [] [] [] }
    requires no_moments { AreMoments moments.old.wanted moments.old [] [] }
    ensures stops { IfOk result (IsStop moments.old.wanted (R.tells reader.old) builder.new moments.new) }
    ensures reader { LeavesReader R.tells R.failures R.asked result reader.old reader.new }
    ensures write_fault { result ≢ Err EngineFail.WriteFault }
{
    let mut line = Vec::new(alloc);
    let mut scratch = Scratch::new(alloc);
    'lines: loop {
        let number = next_line(builder);
        match lines.next(reader, &mut line, MAX_HISTORY_LINE) {
            Ok(Next::Line) => {
                if let Some(fault) = take_line(
                    alloc,
                    builder,
                    moments,
                    &mut scratch,
                    line.as_slice(),
                )? {
                    return Ok(Stop::At {
                        line: number,
                        fault,
                    });
                }
            }
            Ok(Next::Cut) => {
                let fault = take_line(alloc, builder, moments, &mut scratch, line.as_slice())?;
                return Ok(stop_with(number, fault));
            }
            Ok(Next::End) => return Ok(Stop::Ended),
            Ok(Next::TooLong) => {
                return Ok(Stop::At {
                    line: number,
                    fault: LineFault::TooLong,
                });
            }
            Err(LinesFault::Memory) => return Err(EngineFail::Memory),
            Err(LinesFault::ReadFault) => return Err(EngineFail::ReadFault),
        }
    }
}

/// The history that was read, with its names.
fn finished(builder: Builder, moments: Moments) -> Reading
    ensures { (w : Wanted) (bytes : List ℕ) (ids : List Json) (h : List (Transaction Json Json))
        → IsBuilt builder ids h []
        → (spells : Spells bytes ids h) → AreMoments w moments spells.lines h → IsReading w bytes result }
{
    let Builder {
        history,
        ids,
        items,
        values,
    } = builder;
    let Moments {
        wanted: _,
        times,
        sessions,
        names,
    } = moments;
    Reading {
        history,
        ids: ids.into_names(),
        items: items.into_names(),
        values: values.into_names(),
        times,
        sessions,
        session_names: names.into_names(),
    }
}

/// Reads a history, a transaction a line, and what is wanted besides of those that commit. Each line is read whole
/// before the next, and no line behind the first that can't be read.
///
/// An Err is ReadFault, where a read failed or too many were needed, or Memory, where a growth was refused.
pub fn read_history<R: Source>(
    alloc: Global,
    reader: &mut R,
    wanted: Wanted,
) -> Result<HistoryText, EngineFail>
    ensures told { IfOk result (λ text. IfSome (R.tells reader.old) (λ bytes. IsToldOf wanted bytes text)) }
    ensures reader { LeavesReader R.tells R.failures R.asked result reader.old reader.new }
    ensures write_fault { result ≢ Err EngineFail.WriteFault }
{
    let mut lines = Lines::new(alloc)?;
    let mut builder = no_lines(alloc)?;
    let mut moments = no_moments(alloc, wanted)?;
    match read_lines(alloc, reader, &mut lines, &mut builder, &mut moments) {
        Ok(Stop::Ended) => Ok(HistoryText::Read(finished(builder, moments))),
        Ok(Stop::At { line, fault }) => Ok(HistoryText::Unreadable { line, fault }),
        Err(fail) => Err(fail),
    }
}
