//! Whether numbers rise along all steps: that on the left of a step's first line isn't above that on the right of its
//! second. One pass each over the conflicts, the sessions and the times.

ghost use Rattle.std.specs.Prelude.{◌≡◌, ◌⊎◌, ◌≤◌, ℕ, IfOk, IfSome, IsTrue, slice_index};
ghost use Rattle.sgt_graph.specs.Graph.{Goes};
ghost use Rattle.sgt_history_kept.specs.Decided.{IsAskedBefore};
ghost use Rattle.sgt_history_kept.specs.Rising.{AreRising, IsNoted, IsNotedLine, Rises, StandsIn};
ghost use Rattle.sgt_history_time.specs.Kept.{IsBefore, IsEarlier};

use crate::asked::Asked;
use crate::drawing::{begins_of, ends_of};
use sgt_graph::Edge;
use sgt_history_time::Times;
use std::alloc::{AllocError, Global};

/// The number of the line, 0 if there is none.
pub(crate) fn number_of_line(numbers: &[u64], line: usize) -> u64
    ensures { result ≡ slice_index numbers.now line }
{
    match numbers.get(line) {
        Some(number) => *number,
        None => 0,
    }
}

/// The greater of two numbers.
fn greater(a: u64, b: u64) -> u64
    ensures first { a ≤ result }
    ensures second { b ≤ result }
{
    if a < b { b } else { a }
}

// ---- conflicts

fn conflicts_rise(edges: &[Edge], left: &[u64], right: &[u64]) -> bool
    ensures { IsTrue result → Rises (Goes edges.now) left.now right.now }
{
    for edge in edges {
        let before = number_of_line(left, edge.from as usize);
        let behind = number_of_line(right, edge.to as usize);
        if before > behind {
            return false;
        }
    }
    true
}

// ---- sessions

/// How many numbers there are to have room for.
fn room_for(sessions: &[Option<u32>]) -> usize {
    let mut room = 0usize;
    for line in 0..sessions.len() {
        if let Some(session) = sessions[line] {
            room = room.max((session as usize).saturating_add(1));
        }
    }
    room
}

/// Notes a line of the session: its number on the left, with those of earlier lines, which aren't above its number on
/// the right.
fn note(most: &mut Vec<u64>, session: u32, left: u64, right: u64) -> bool
    ensures { IsTrue result → IsNoted most.old.items session left right most.new.items }
{
    let session = session as usize;
    if session >= most.len() {
        return false;
    }
    let before = most[session];
    if before > right {
        return false;
    }
    most[session] = greater(before, left);
    true
}

/// Notes a line, if it is of a session.
fn note_line(most: &mut Vec<u64>, session: Option<u32>, left: u64, right: u64) -> bool
    ensures { IsTrue result → IsNotedLine most.old.items session left right most.new.items }
{
    match session {
        Some(session) => note(most, session, left, right),
        None => true,
    }
}

fn sessions_rise(
    alloc: Global,
    sessions: &[Option<u32>],
    left: &[u64],
    right: &[u64],
) -> Result<bool, AllocError>
    ensures { IfOk result (λ yes. IsTrue yes → Rises (IsEarlier sessions.now) left.now right.now) }
{
    let mut most = vec![in alloc; 0u64; room_for(sessions)]?;
    for line in 0..sessions.len() {
        let before = number_of_line(left, line);
        let behind = number_of_line(right, line);
        if !note_line(&mut most, sessions[line], before, behind) {
            return Ok(false);
        }
    }
    Ok(true)
}

// ---- real time

/// When lines began, rising, and of each the greatest number on the left of those that were done before.
#[derive(Drop)]
struct Moments {
    begins: Vec<u64>,
    most: Vec<u64>,
}

/// The moments of these times. What they are isn't proved: who asks for them checks them.
fn moments_of(alloc: Global, times: &[Option<Times>], left: &[u64]) -> Result<Moments, AllocError> {
    let ends = ends_of(alloc, times)?;
    let starts = begins_of(alloc, times)?;
    let mut begins = Vec::with_capacity(alloc, starts.len())?;
    let mut most = Vec::with_capacity(alloc, starts.len())?;
    let mut done = 0usize;
    let mut greatest = 0;
    for at in 0..starts.len() {
        let begin = starts[at].0;
        for next in done..ends.len() {
            let (end, line) = ends[next];
            if end >= begin {
                break;
            }
            greatest = greater(greatest, number_of_line(left, line as usize));
            done = next.saturating_add(1);
        }
        begins.push(begin)?;
        most.push(greatest)?;
    }
    Ok(Moments { begins, most })
}

/// Whether each number isn't below the one in front of it.
fn are_rising(numbers: &[u64]) -> bool
    ensures { IsTrue result → AreRising numbers.now }
{
    for at in 1..numbers.len() {
        if numbers[at] < numbers[at - 1] {
            return false;
        }
    }
    true
}

/// The place of the first moment behind this one.
fn first_behind(begins: &[u64], done: u64) -> usize {
    begins.partition_point(|begin| *begin <= done)
}

/// The place of the first moment that isn't before this one.
fn first_from(begins: &[u64], at: u64) -> usize {
    begins.partition_point(|begin| *begin < at)
}

/// Whether the number behind the moments up to its end isn't below the left one, and that of its begin isn't above the
/// right one.
fn stands_in(begins: &[u64], most: &[u64], ran: Times, left: u64, right: u64) -> bool
    ensures { IsTrue result → StandsIn begins.now most.now ran left right }
{
    let behind = first_behind(begins, ran.done);
    if behind > begins.len() {
        return false;
    }
    if behind > 0 && number_of_line(begins, behind - 1) > ran.done {
        return false;
    }
    if behind < most.len() && number_of_line(most, behind) < left {
        return false;
    }
    let begin = first_from(begins, ran.begin);
    if begin >= begins.len() || number_of_line(begins, begin) < ran.begin {
        return false;
    }
    if number_of_line(most, begin) > right {
        return false;
    }
    true
}

/// The same of a line, if it ran.
fn line_stands_in(moments: &Moments, ran: Option<Times>, left: u64, right: u64) -> bool
    ensures { IsTrue result
        → IfSome ran (λ x. StandsIn moments.now.begins.items moments.now.most.items x left right) }
{
    match ran {
        Some(ran) => stands_in(
            moments.begins.as_slice(),
            moments.most.as_slice(),
            ran,
            left,
            right,
        ),
        None => true,
    }
}

fn times_rise(
    alloc: Global,
    times: &[Option<Times>],
    left: &[u64],
    right: &[u64],
) -> Result<bool, AllocError>
    ensures { IfOk result (λ yes. IsTrue yes → Rises (IsBefore times.now) left.now right.now) }
{
    let moments = moments_of(alloc, times, left)?;
    if moments.begins.len() != moments.most.len() {
        return Ok(false);
    }
    if !are_rising(moments.begins.as_slice()) || !are_rising(moments.most.as_slice()) {
        return Ok(false);
    }
    for line in 0..times.len() {
        let before = number_of_line(left, line);
        let behind = number_of_line(right, line);
        if !line_stands_in(&moments, times[line], before, behind) {
            return Ok(false);
        }
    }
    Ok(true)
}

/// Whether they rise along all conflicts and all that is asked.
pub(crate) fn all_rise(
    alloc: Global,
    edges: &[Edge],
    asked: &Asked,
    left: &[u64],
    right: &[u64],
) -> Result<bool, AllocError>
    ensures { IfOk result (λ yes. IsTrue yes
        → Rises (λ a b. Goes edges.now a b ⊎ IsAskedBefore asked.now a b) left.now right.now) }
{
    if !conflicts_rise(edges, left, right) {
        return Ok(false);
    }
    let in_sessions = sessions_rise(alloc, asked.sessions.as_slice(), left, right)?;
    if !in_sessions {
        return Ok(false);
    }
    times_rise(alloc, asked.times.as_slice(), left, right)
}
