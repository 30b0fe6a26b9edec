//! The cycle that is shown, with labels of lines. What they are isn't proved: who asks for them checks them.

ghost use Rattle.std.specs.Prelude.{◌≤◌, ◌^◌};

use crate::asked::Asked;
use crate::drawing::{Layout, Steps, begins_of, drawn, ends_of, number_of, sessions_of};
use crate::labels::{KEYS, Labels};
use crate::quick::nodes_of;
use crate::rising::number_of_line;
use crate::round::line_behind;
use sgt_graph::{Edge, falling_ranks};
use sgt_history_time::{is_before, is_earlier, session_at, times_at};
use std::alloc::{AllocError, Global};

/// How far it is from a line from which no walk leads.
const FAR: u32 = u32::MAX;

/// The number at this place, or the greatest.
fn number_at(numbers: &[u32], place: u32) -> u32 {
    match numbers.get(place as usize) {
        Some(number) => *number,
        None => FAR,
    }
}

/// Ranks of lines and moments: those on a cycle have one, and a step that is on none leads to a lesser one. With the
/// least line that lies on a cycle.
fn ranked(
    alloc: Global,
    lines: usize,
    steps: &Steps<'_>,
) -> Result<Option<(Vec<u32>, u32)>, AllocError> {
    let begins = begins_of(alloc, steps.times)?;
    let Some(nodes) = nodes_of(lines, begins.len()) else {
        return Ok(None);
    };
    let layout = Layout {
        first_line: 0,
        first_moment: number_of(lines),
        nodes,
    };
    let drawn = drawn(alloc, layout, steps, begins.as_slice())?;
    let Some(ranks) = falling_ranks(alloc, nodes, drawn.as_slice())? else {
        return Ok(None);
    };
    match least_level(drawn.as_slice(), ranks.as_slice()) {
        Some(node) => Ok(Some((ranks, node))),
        None => Ok(None),
    }
}

/// The least node from which an edge leads to one of the same rank.
fn least_level(edges: &[Edge], ranks: &[u32]) -> Option<u32> {
    let mut least = None;
    for edge in edges {
        if number_at(ranks, edge.from) == number_at(ranks, edge.to) {
            least = lesser(least, edge.from);
        }
    }
    least
}

/// The conflicts, by where they lead, or turned round by where from.
fn turned(alloc: Global, edges: &[Edge], back: bool) -> Result<Vec<(u32, u32)>, AllocError> {
    let mut pairs = Vec::new(alloc);
    for at in 0..edges.len() {
        let Edge { from, to } = edges[at];
        pairs.push(if back { (to, from) } else { (from, to) })?;
    }
    pairs.sort()?;
    Ok(pairs)
}

/// Where the pairs with this first number begin.
fn start_of(pairs: &[(u32, u32)], first: u32) -> usize {
    pairs.partition_point(|pair| pair.0 < first)
}

/// A walk back from a line, wide first.
#[derive(Drop)]
struct Walk {
    /// Conflicts, each to its source.
    back: Vec<(u32, u32)>,
    by_session: Vec<(u32, u32)>,
    /// Of the place where a session begins how far its lines are met.
    met_of: Vec<usize>,
    by_done: Vec<(u64, u32)>,
    /// How many lines are met for when they were done.
    done: usize,
    /// How many steps it is from each line.
    distances: Vec<u32>,
    met: Vec<u32>,
}

impl Walk {
    fn new(alloc: Global, lines: usize, steps: &Steps<'_>) -> Result<Walk, AllocError> {
        let by_session = sessions_of(alloc, steps.sessions)?;
        Ok(Walk {
            back: turned(alloc, steps.edges, true)?,
            met_of: vec![in alloc; 0usize; by_session.len()]?,
            by_session,
            by_done: ends_of(alloc, steps.times)?,
            done: 0,
            distances: vec![in alloc; FAR; lines]?,
            met: Vec::new(alloc),
        })
    }

    /// Comes to a line, if for the first time.
    fn meet(&mut self, line: u32, distance: u32) -> Result<(), AllocError> {
        if let Some(old) = self.distances.get_mut(line as usize) {
            if *old == FAR {
                *old = distance;
                self.met.push(line)?;
            }
        }
        Ok(())
    }

    fn meet_conflicts(&mut self, line: u32, distance: u32) -> Result<(), AllocError> {
        let start = start_of(self.back.as_slice(), line);
        for at in start..self.back.len() {
            let Some((to, from)) = self.back.get(at).copied() else {
                break;
            };
            if to != line {
                break;
            }
            self.meet(from, distance)?;
        }
        Ok(())
    }

    /// The earlier lines of the session.
    fn meet_session(&mut self, session: u32, line: u32, distance: u32) -> Result<(), AllocError> {
        let start = start_of(self.by_session.as_slice(), session);
        let Some(count) = self.met_of.get(start) else {
            return Ok(());
        };
        let first = start.saturating_add(*count);
        let mut end = first;
        for at in first..self.by_session.len() {
            let Some((of, earlier)) = self.by_session.get(at).copied() else {
                break;
            };
            if of != session || earlier >= line {
                break;
            }
            self.meet(earlier, distance)?;
            end = at.saturating_add(1);
        }
        if let Some(count) = self.met_of.get_mut(start) {
            *count = end.saturating_sub(start);
        }
        Ok(())
    }

    /// The lines that were done before this moment.
    fn meet_done(&mut self, begin: u64, distance: u32) -> Result<(), AllocError> {
        for at in self.done..self.by_done.len() {
            let Some((done, line)) = self.by_done.get(at).copied() else {
                break;
            };
            if done >= begin {
                break;
            }
            self.meet(line, distance)?;
            self.done = at.saturating_add(1);
        }
        Ok(())
    }

    /// All lines from which a step leads to this one.
    fn meet_sources(&mut self, steps: &Steps<'_>, line: u32) -> Result<(), AllocError> {
        let distance = number_at(self.distances.as_slice(), line).saturating_add(1);
        self.meet_conflicts(line, distance)?;
        if let Some(session) = session_at(steps.sessions, line) {
            self.meet_session(session, line, distance)?;
        }
        if let Some(ran) = times_at(steps.times, line) {
            self.meet_done(ran.begin, distance)?;
        }
        Ok(())
    }

    /// Goes back from the line.
    fn walk(&mut self, steps: &Steps<'_>, line: u32) -> Result<(), AllocError> {
        self.meet(line, 0)?;
        for at in 0..self.distances.len() {
            let Some(here) = self.met.get(at) else {
                break;
            };
            let here = *here;
            self.meet_sources(steps, here)?;
        }
        Ok(())
    }

    /// The place of the first line met that is so far away.
    fn first_at(&self, distance: u32) -> usize {
        let distances = self.distances.as_slice();
        self.met
            .as_slice()
            .partition_point(|line| number_at(distances, *line) < distance)
    }
}

/// Whether the first line is asked to stand before the second.
fn asked_before(steps: &Steps<'_>, first: u32, second: u32) -> bool {
    is_earlier(steps.sessions, first, second) || is_before(steps.times, first, second)
}

/// The lesser of two numbers, if there are.
fn lesser(a: Option<u32>, b: u32) -> Option<u32> {
    match a {
        Some(a) if a <= b => Some(a),
        _ => Some(b),
    }
}

/// The way back to where a walk began.
#[derive(Drop)]
struct Way<'a> {
    steps: Steps<'a>,
    walk: &'a Walk,
    /// Conflicts by their sources.
    ahead: &'a [(u32, u32)],
}

/// How far it is from the nearest line to which a step leads from the first.
fn nearest(way: &Way<'_>, node: u32) -> u32 {
    let mut best = FAR;
    for at in start_of(way.ahead, node)..way.ahead.len() {
        let (from, to) = way.ahead[at];
        if from != node {
            break;
        }
        best = best.min(number_at(way.walk.distances.as_slice(), to));
    }
    for at in 0..way.walk.met.len() {
        let line = way.walk.met[at];
        if asked_before(&way.steps, node, line) {
            return best.min(number_at(way.walk.distances.as_slice(), line));
        }
    }
    best
}

/// The least line so far away to which a step leads.
fn least_next(way: &Way<'_>, here: u32, distance: u32) -> Option<u32> {
    let mut best = None;
    for at in start_of(way.ahead, here)..way.ahead.len() {
        let (from, to) = way.ahead[at];
        if from != here {
            break;
        }
        if number_at(way.walk.distances.as_slice(), to) == distance {
            best = lesser(best, to);
        }
    }
    let end = way.walk.first_at(distance.saturating_add(1));
    for at in way.walk.first_at(distance)..end {
        if let Some(line) = way.walk.met.get(at) {
            if asked_before(&way.steps, here, *line) {
                best = lesser(best, *line);
            }
        }
    }
    best
}

/// Of the shortest cycles through the line from which the walk went back the one whose lines are, from it on, the least.
fn least_round(
    alloc: Global,
    steps: Steps<'_>,
    walk: &Walk,
    node: u32,
) -> Result<Option<Vec<u32>>, AllocError> {
    let ahead = turned(alloc, steps.edges, false)?;
    let way = Way {
        steps,
        walk,
        ahead: ahead.as_slice(),
    };
    let far = nearest(&way, node);
    if far == FAR {
        return Ok(None);
    }
    let mut cycle = Vec::new(alloc);
    let mut here = node;
    cycle.push(here)?;
    for passed in 0..far {
        let Some(next) = least_next(&way, here, far - passed) else {
            return Ok(None);
        };
        cycle.push(next)?;
        here = next;
    }
    Ok(Some(cycle))
}

/// A cycle, and the labels that show that it is the first.
#[derive(Drop)]
pub(crate) struct Shown {
    pub cycle: Vec<u32>,
    pub labels: Labels,
}

/// The greatest of the numbers.
fn greatest_of(numbers: &[u32]) -> u32 {
    let mut greatest = 0;
    for number in numbers {
        greatest = greatest.max(*number);
    }
    greatest
}

/// Labels of so many lines for a cycle from the node: a step leads nearer by one at most. `keep_to` tells more of the
/// cycle's lines.
fn labels_of(
    alloc: Global,
    lines: usize,
    ranks: &[u32],
    distances: &[u32],
    node: u32,
) -> Result<Labels, AllocError> {
    let greatest = greatest_of(ranks);
    let mut labels = Labels::with_capacity(alloc, lines)?;
    for line in 0..lines {
        let line = number_of(line);
        let level = greatest.saturating_sub(number_at(ranks, line)) as u64;
        labels.enters.push(level)?;
        labels
            .leaves
            .push(if line < node { level + 1 } else { level })?;
        let distance = number_at(distances, line) as u64;
        labels.distances.push(distance)?;
        labels.keys.push(distance * KEYS + line as u64)?;
        labels.least.push(distance.saturating_sub(1) * KEYS)?;
    }
    Ok(labels)
}

/// Of each line of the cycle the next one's key is the least.
fn keep_to(labels: &mut Labels, cycle: &[u32]) {
    for place in 0..cycle.len() {
        let next = line_behind(cycle, place);
        let key = number_of_line(labels.keys.as_slice(), next as usize);
        if let Some(least) = labels.least.get_mut(cycle[place] as usize) {
            *least = key;
        }
    }
}

/// The cycle to show of conflicts and what is asked: of the least line that lies on one the shortest, of several the one
/// whose lines are, from it on, the least. Takes time in proportion to the steps, times a logarithm.
pub(crate) fn shown_of<'x>(
    alloc: Global,
    lines: usize,
    edges: &'x [Edge],
    asked: &'x Asked,
) -> Result<Option<Shown>, AllocError> {
    let steps = Steps {
        edges,
        sessions: asked.sessions.as_slice(),
        times: asked.times.as_slice(),
    };
    let Some((ranks, node)) = ranked(alloc, lines, &steps)? else {
        return Ok(None);
    };
    let mut walk = Walk::new(alloc, lines, &steps)?;
    walk.walk(&steps, node)?;
    let Some(cycle) = least_round(alloc, steps, &walk, node)? else {
        return Ok(None);
    };
    let Walk { distances, .. } = walk;
    let mut labels = labels_of(alloc, lines, ranks.as_slice(), distances.as_slice(), node)?;
    keep_to(&mut labels, cycle.as_slice());
    Ok(Some(Shown { cycle, labels }))
}
