//! The least of the shortest cycles of conflicts through a transaction.

use crate::conflicts::{Conflict, least_conflict};
use crate::history::History;
use crate::sides::{Side, Spread};
use crate::targets::{Targets, Way};
use crate::waiting::Waiting;
use std::alloc::{AllocError, Global};

/// A step of a cycle: a conflict with the transaction that it leads to.
#[derive(Clone, Copy, Debug)]
pub struct Link {
    pub from: u32,
    pub to: u32,
    pub conflict: Conflict,
}

/// What searches keep, one after another: what was met from the transaction on, and what leads to it. Between two of
/// them it is as it was made.
#[derive(Drop)]
pub struct Marks {
    onward: Side,
    back: Side,
}

/// How a search ended.
enum Round {
    /// With a path from the start back to it.
    Closed(Vec<u32>),
    /// With none: this way all was met.
    Open(Way),
}

impl Marks {
    /// Nothing is marked.
    pub fn new(alloc: Global, history: &History, targets: &Targets) -> Result<Marks, AllocError> {
        Ok(Marks {
            onward: Side::new(alloc, history, targets, Way::Onward)?,
            back: Side::new(alloc, history, targets, Way::Back)?,
        })
    }

    /// Nothing is marked any more.
    fn clear(&mut self) {
        self.onward.clear();
        self.back.clear();
    }

    /// Whether a member of the last layer onward closes a cycle: it was met by the other side, or leads to the start,
    /// if that side has met nobody.
    fn closes(&self, spread: &Spread<'_>, tx: u32) -> bool {
        if self.back.depth() == 0 {
            least_conflict(spread.history, tx, spread.start).is_some()
        } else {
            self.back.has(tx)
        }
    }

    /// The first member of the last layer onward that closes a cycle.
    fn closing(&self, spread: &Spread<'_>) -> Option<u32> {
        for tx in self.onward.layer(self.onward.depth()) {
            if self.closes(spread, *tx) {
                return Some(*tx);
            }
        }
        None
    }

    /// Whether a member of the last layer back does.
    fn is_closed_back(&self, spread: &Spread<'_>) -> bool {
        for tx in self.back.layer(self.back.depth()) {
            let closes = if self.onward.depth() == 0 {
                least_conflict(spread.history, spread.start, *tx).is_some()
            } else {
                self.onward.has(*tx)
            };
            if closes {
                return true;
            }
        }
        false
    }

    /// The path from the start to the transaction, that was met onward.
    fn front(&self, alloc: Global, spread: &Spread<'_>, last: u32) -> Result<Vec<u32>, AllocError> {
        let mut path = vec![in alloc; last]?;
        let mut tx = last;
        for _ in 0..self.onward.depth() {
            match self.onward.parent_of(tx) {
                Some(parent) => {
                    tx = parent;
                    path.push(tx)?;
                }
                None => break,
            }
        }
        path.as_mut_slice().reverse();
        Ok(path)
    }

    /// The least member of the layer back that the transaction leads to.
    fn next_back(&self, spread: &Spread<'_>, tx: u32, depth: usize) -> Option<u32> {
        let mut least: Option<u32> = None;
        for other in self.back.layer(depth) {
            let is_less = match least {
                Some(best) => *other < best,
                None => true,
            };
            if is_less && least_conflict(spread.history, tx, *other).is_some() {
                least = Some(*other);
            }
        }
        least
    }

    /// The least of the shortest paths from the start back to it, where both sides have met.
    fn path(&self, alloc: Global, spread: &Spread<'_>) -> Result<Vec<u32>, AllocError> {
        let (mut path, mut depth) = if self.onward.depth() == 0 {
            (vec![in alloc; spread.start]?, self.back.depth())
        } else {
            match self.closing(spread) {
                Some(last) => (
                    self.front(alloc, spread, last)?,
                    self.back.depth().saturating_sub(1),
                ),
                None => return Ok(Vec::new(alloc)),
            }
        };
        for _ in 0..self.back.depth() {
            if depth == 0 {
                break;
            }
            let next = match path.last() {
                Some(tx) => self.next_back(spread, *tx, depth),
                None => None,
            };
            if let Some(tx) = next {
                path.push(tx)?;
            }
            depth = depth.saturating_sub(1);
        }
        path.push(spread.start)?;
        Ok(path)
    }

    /// Meets the next layer of the side that will then have gone over fewer targets. Whether the sides have met.
    fn step(&mut self, spread: &Spread<'_>) -> Result<bool, AllocError> {
        if self.onward.cost() <= self.back.cost() {
            self.onward.advance(spread)?;
            Ok(self.closing(spread).is_some())
        } else {
            self.back.advance(spread)?;
            Ok(self.is_closed_back(spread))
        }
    }

    /// The least of the shortest paths from the start back to it, if there is one.
    fn round(&mut self, alloc: Global, spread: &Spread<'_>) -> Result<Round, AllocError> {
        self.onward.begin(spread)?;
        self.back.begin(spread)?;
        let most = spread.history.count().saturating_mul(2).saturating_add(2);
        for _ in 0..most {
            if self.onward.is_done() {
                return Ok(Round::Open(Way::Onward));
            }
            if self.back.is_done() {
                return Ok(Round::Open(Way::Back));
            }
            if self.step(spread)? {
                return Ok(Round::Closed(self.path(alloc, spread)?));
            }
        }
        Ok(Round::Open(Way::Onward))
    }

    /// How far the search has come this way.
    fn reaches(&self, alloc: Global, way: Way) -> Result<Vec<(u32, u32)>, AllocError> {
        match way {
            Way::Onward => self.onward.reaches(alloc),
            Way::Back => self.back.reaches(alloc),
        }
    }
}

/// The links between each one of the path and the next.
fn links_of(alloc: Global, history: &History, path: &[u32]) -> Result<Vec<Link>, AllocError> {
    let mut links = Vec::new(alloc);
    for (at, from) in path.iter().enumerate() {
        if let Some(to) = path.get(at.saturating_add(1)) {
            if let Some(conflict) = least_conflict(history, *from, *to) {
                links.push(Link {
                    from: *from,
                    to: *to,
                    conflict,
                })?;
            }
        }
    }
    Ok(links)
}

/// What is found of a refused transaction.
#[derive(Drop)]
pub enum Asked {
    /// Its walk.
    Walk(Vec<Link>),
    /// None so far.
    Waits(Waiting),
}

/// The least of the shortest cycles through the transaction, within the bounds, if there is one, when so many were
/// committed.
pub fn ask(
    alloc: Global,
    spread: &Spread<'_>,
    marks: &mut Marks,
    seen: usize,
) -> Result<Asked, AllocError> {
    let asked = match marks.round(alloc, spread)? {
        Round::Closed(path) => Asked::Walk(links_of(alloc, spread.history, path.as_slice())?),
        Round::Open(way) => {
            let reaches = marks.reaches(alloc, way)?;
            Asked::Waits(Waiting::new(alloc, way, reaches.as_slice(), seen)?)
        }
    };
    marks.clear();
    Ok(asked)
}

/// The same, empty where there is none.
pub fn walk_of(
    alloc: Global,
    spread: &Spread<'_>,
    marks: &mut Marks,
) -> Result<Vec<Link>, AllocError> {
    match ask(alloc, spread, marks, 0)? {
        Asked::Walk(walk) => Ok(walk),
        Asked::Waits(_waiting) => Ok(Vec::new(alloc)),
    }
}

/// All that conflicts lead to from the transaction on, within the bounds.
pub fn met_from(
    alloc: Global,
    spread: &Spread<'_>,
    marks: &mut Marks,
) -> Result<Vec<u32>, AllocError> {
    marks.onward.begin(spread)?;
    for _ in 0..spread.history.count() {
        if marks.onward.is_done() {
            break;
        }
        marks.onward.advance(spread)?;
    }
    let met = Vec::from_slice(alloc, marks.onward.met())?;
    marks.clear();
    Ok(met)
}
