//! Whether an order keeps real time and sessions: one pass over it for each.

ghost use Rattle.std.specs.Prelude.{◌≡◌, ◌≤◌, ◌<◌, ◌↔◌, ◌⊎◌, IfNone, IfOk, IfSome, IsTrue, MatchOption, Some, length, slice_get, ℕ};
ghost use Rattle.sgt_history_time.specs.declared.times.Times.{Times};
ghost use Rattle.sgt_history_time.specs.Kept.{IsBefore, IsEarlier, KeepsRealTime, KeepsSessions};
ghost use Rattle.sgt_history_time.specs.Checks.{AreBelow, IsAhead, IsBehind, IsNoted, Lags, Passes};

use crate::times::Times;
use std::alloc::{AllocError, Global};

/// When the line's transaction ran, if that is known.
pub fn times_at(times: &[Option<Times>], line: u32) -> Option<Times>
    ensures { MatchOption result ((x : Times) → slice_get times.now line ≡ Some (Some x) → ⊥)
        (λ x. slice_get times.now line ≡ Some (Some x)) }
{
    match times.get(line as usize) {
        Some(entry) => *entry,
        None => None,
    }
}

/// The session of the line's transaction, if that is known.
pub fn session_at(sessions: &[Option<u32>], line: u32) -> Option<u32>
    ensures { MatchOption result ((s : ℕ) → slice_get sessions.now line ≡ Some (Some s) → ⊥)
        (λ s. slice_get sessions.now line ≡ Some (Some s)) }
{
    match sessions.get(line as usize) {
        Some(entry) => *entry,
        None => None,
    }
}

/// Whether the first line's transaction was done before the second's began.
pub fn is_before(times: &[Option<Times>], first: u32, second: u32) -> bool
    ensures { IsTrue result ↔ IsBefore times.now first second }
{
    let Some(a) = times_at(times, first) else {
        return false;
    };
    let Some(b) = times_at(times, second) else {
        return false;
    };
    a.done < b.begin
}

/// Whether the lines are of one session, the first the earlier.
pub fn is_earlier(sessions: &[Option<u32>], first: u32, second: u32) -> bool
    ensures { IsTrue result ↔ IsEarlier sessions.now first second }
{
    let Some(a) = session_at(sessions, first) else {
        return false;
    };
    let Some(b) = session_at(sessions, second) else {
        return false;
    };
    a == b && first < second
}

// ---- real time

/// The greater of two numbers.
fn greater(a: u64, b: u64) -> u64
    ensures first { a ≤ result }
    ensures second { b ≤ result }
    ensures one { (result ≡ a) ⊎ (result ≡ b) }
{
    if a < b { b } else { a }
}

/// The latest begin with that of this line, which comes next, or none if it was done before that.
fn latest_with(times: &[Option<Times>], latest: u64, line: u32) -> Option<u64>
    ensures some { IfSome result (λ next. Passes times.now latest line next) }
    ensures none { IfNone result (Lags times.now latest line) }
{
    let Some(ran) = times_at(times, line) else {
        return Some(latest);
    };
    let next = greater(latest, ran.begin);
    if ran.done < next {
        return None;
    }
    Some(next)
}

/// Whether the order keeps real time: none of its lines was done before one of those up to it began.
pub fn keeps_real_time(order: &[u32], times: &[Option<Times>]) -> bool
    ensures { IsTrue result ↔ KeepsRealTime order.now times.now }
{
    let mut latest = 0;
    for at in 0..order.len() {
        let Some(next) = latest_with(times, latest, order[at]) else {
            return false;
        };
        latest = next;
    }
    true
}

// ---- sessions

/// A number above those of all sessions.
fn count_of(sessions: &[Option<u32>]) -> usize
    ensures { AreBelow result sessions.now }
{
    let mut count = 0;
    for line in 0..sessions.len() {
        if let Some(session) = sessions[line] {
            count = above(count, session);
        }
    }
    count
}

/// A number that is above the session's, and not below the count.
fn above(count: usize, session: u32) -> usize
    ensures count { count ≤ result }
    ensures session { session < result }
{
    let session = session as usize;
    if session < count { count } else { session + 1 }
}

/// Notes the line as the last of its session, unless a later one came before it: false then.
fn note(sessions: &[Option<u32>], last: &mut Vec<Option<u32>>, line: u32) -> bool
    requires { AreBelow (length last.old.items) sessions.now }
    ensures yes { IsTrue result → IsBehind sessions.now last.old.items line
        × IsNoted sessions.now last.old.items line last.new.items }
    ensures no { (IsTrue result → ⊥) → IsAhead sessions.now last.old.items line }
{
    let Some(session) = session_at(sessions, line) else {
        return true;
    };
    let session = session as usize;
    if let Some(before) = last[session] {
        if line < before {
            return false;
        }
    }
    last[session] = Some(line);
    true
}

/// Whether the order keeps sessions: of each one the lines rise.
pub fn keeps_sessions(
    alloc: Global,
    order: &[u32],
    sessions: &[Option<u32>],
) -> Result<bool, AllocError>
    ensures { IfOk result (λ keeps. IsTrue keeps ↔ KeepsSessions order.now sessions.now) }
{
    let mut last = vec![in alloc; None; count_of(sessions)]?;
    for at in 0..order.len() {
        if !note(sessions, &mut last, order[at]) {
            return Ok(false);
        }
    }
    Ok(true)
}
