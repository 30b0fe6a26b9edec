//! The first line of an order that stands behind one which it is asked to stand before.

ghost use Rattle.std.specs.Prelude.{◌≡◌, ◌≤◌, ◌<◌, ◌↔◌, ◌⊎◌, IfNone, IfOk, IfSome, List, OnOk, Option, None, Some, length, slice_get, ℕ};
ghost use Rattle.sgt_history_time.specs.Kept.{KeepsRealTime, KeepsSessions};
ghost use Rattle.sgt_history_kept.specs.Seen.{ComesAhead, ComesBehind, ComesLast, EndsBefore, EndsBehind, IsLatest, IsLatestWith};
ghost use Rattle.sgt_history_kept.specs.Unkept.{IsUnkept};

use crate::asked::Asked;
use sgt_history_time::{Times, session_at, times_at};
use std::alloc::{AllocError, Global};

/// Why a line is asked to stand before another.
#[derive(Clone, Copy, Debug, PartialEq, Eq)]
pub enum Reason {
    /// Both are of this session, and the other is a later line.
    Session(u32),
    /// It was done before the other began.
    Time { done: u64, begin: u64 },
}

/// The line at this place of an order is asked to stand before the other, which doesn't stand behind it.
#[derive(Clone, Copy, Debug, PartialEq, Eq)]
pub struct Unkept {
    pub place: usize,
    pub line: u32,
    pub other: u32,
    pub reason: Reason,
}

/// A line and when it began.
#[derive(Clone, Copy)]
pub(crate) struct Began {
    pub line: u32,
    pub begin: u64,
}

/// A line that another one is asked to stand before.
#[derive(Clone, Copy)]
pub(crate) struct Passed {
    pub other: u32,
    pub reason: Reason,
}

// ---- real time

/// The one that began later: that line, or the latest so far; of two that began together the lesser line.
fn later(latest: Option<Began>, line: u32, begin: u64) -> Began
    ensures { IsLatest line begin latest result }
{
    if let Some(old) = latest {
        if begin < old.begin {
            return old;
        }
        if begin == old.begin && old.line <= line {
            return old;
        }
    }
    Began { line, begin }
}

/// The latest, with the line if it ran.
fn latest_with(times: &[Option<Times>], latest: Option<Began>, line: u32) -> Option<Began>
    ensures { IsLatestWith times.now latest line result }
{
    match times_at(times, line) {
        Some(ran) => Some(later(latest, line, ran.begin)),
        None => latest,
    }
}

/// The latest, if the line was done before that began.
fn passed_in_time(times: &[Option<Times>], latest: Option<Began>, line: u32) -> Option<Passed>
    ensures some { IfSome result (EndsBefore times.now latest line) }
    ensures none { IfNone result (EndsBehind times.now latest line) }
{
    let Some(ran) = times_at(times, line) else {
        return None;
    };
    let Some(other) = latest else {
        return None;
    };
    if other.begin <= ran.done {
        return None;
    }
    Some(Passed {
        other: other.line,
        reason: Reason::Time {
            done: ran.done,
            begin: other.begin,
        },
    })
}

// ---- sessions

/// The last line of the line's session, if it is a later one.
fn passed_in_session(sessions: &[Option<u32>], last: &[Option<u32>], line: u32) -> Option<Passed>
    ensures some { IfSome result (ComesAhead sessions.now last.now line) }
    ensures none { IfNone result (ComesBehind sessions.now last.now line) }
{
    let Some(session) = session_at(sessions, line) else {
        return None;
    };
    let Some(other) = session_at(last, session) else {
        return None;
    };
    if other <= line {
        return None;
    }
    Some(Passed {
        other,
        reason: Reason::Session(session),
    })
}

/// Makes room for so many sessions.
fn widen(last: &mut Vec<Option<u32>>, count: usize) -> Result<(), AllocError>
    ensures room { OnOk result (count ≤ length last.new.items) }
    ensures same { (session before : ℕ) → slice_get last.new.items session ≡ Some (Some before)
        ↔ slice_get last.old.items session ≡ Some (Some before) }
{
    if last.len() >= count {
        return Ok(());
    }
    last.resize(count, None)
}

/// Notes the line as the last of its session.
fn note(sessions: &[Option<u32>], last: &mut Vec<Option<u32>>, line: u32) -> Result<(), AllocError>
    ensures { OnOk result (ComesLast sessions.now last.old.items line last.new.items) }
{
    let Some(session) = session_at(sessions, line) else {
        return Ok(());
    };
    let session = session as usize;
    widen(last, session + 1)?;
    last[session] = Some(line);
    Ok(())
}

// ---- both

/// The line that is passed at this one, if one is; by its session rather than by time.
fn passed_at(
    asked: &Asked,
    last: &[Option<u32>],
    latest: Option<Began>,
    line: u32,
) -> Option<Passed>
    ensures some { IfSome result (λ p. ComesAhead asked.now.sessions.items last.now line p
        ⊎ (ComesBehind asked.now.sessions.items last.now line × EndsBefore asked.now.times.items latest line p)) }
    ensures none { IfNone result (ComesBehind asked.now.sessions.items last.now line
        × EndsBehind asked.now.times.items latest line) }
{
    let passed = passed_in_session(asked.sessions.as_slice(), last, line);
    match passed {
        Some(_) => passed,
        None => passed_in_time(asked.times.as_slice(), latest, line),
    }
}

/// The first line of the order that is asked to stand before another, which doesn't stand behind it: that one, the
/// greatest line of the first's session; where there is none, that which began last, of several the least. One pass
/// over the order.
pub fn first_unkept(
    alloc: Global,
    order: &[u32],
    asked: &Asked,
) -> Result<Option<Unkept>, AllocError>
    ensures unkept { IfOk result (IsUnkept order.now asked.now) }
    ensures exact { IfOk result (λ found. found ≡ None
        ↔ (KeepsRealTime order.now asked.now.times.items × KeepsSessions order.now asked.now.sessions.items)) }
{
    let mut last = Vec::new(alloc);
    let mut latest = None;
    for place in 0..order.len() {
        let line = order[place];
        latest = latest_with(asked.times.as_slice(), latest, line);
        let passed = passed_at(asked, last.as_slice(), latest, line);
        if let Some(found) = passed {
            return Ok(Some(Unkept {
                place,
                line,
                other: found.other,
                reason: found.reason,
            }));
        }
        note(asked.sessions.as_slice(), &mut last, line)?;
    }
    Ok(None)
}
