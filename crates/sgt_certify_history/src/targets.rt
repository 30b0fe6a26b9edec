//! Where searches lead: the committed operations by item and act.

use crate::conflicts::kind_of;
use crate::groups::Groups;
use crate::history::{Act, History, Operation, Place};
use crate::lists::short;
use std::alloc::{AllocError, Global};
use std::ops::Range;

/// All acts, in the order of their groups.
pub const ACTS: [Act; 3] = [Act::Read, Act::Put, Act::Add];

/// A committed operation, as a search meets it.
#[derive(Clone, Copy, Debug)]
pub struct Target {
    pub tx: u32,
    pub line: u32,
}

/// The committed operations: a group for each act on each item, in the order of its log.
#[derive(Drop)]
pub struct Targets {
    all: Vec<Target>,
    groups: Groups,
}

/// The group of those that do so to the item.
pub fn group_of(item: u16, act: Act) -> u32 {
    let at = match act {
        Act::Read => 0,
        Act::Put => 1,
        Act::Add => 2,
    };
    u32::from(item) * 3 + at
}

/// Whether two operations on an item are in conflict, one of which does this and the other that: in either order.
pub fn do_clash(one: Act, other: Act) -> bool {
    kind_of(one, other).is_some()
}

/// Adds those of the committed operations that do so. Answers how many they are.
fn push_group(
    all: &mut Vec<Target>,
    operations: &[Operation],
    act: Act,
) -> Result<u32, AllocError> {
    let before = all.len();
    for operation in operations {
        if operation.is_committed && operation.act == act {
            all.push(Target {
                tx: operation.tx,
                line: operation.line,
            })?;
        }
    }
    Ok(short(all.len().saturating_sub(before)))
}

impl Targets {
    /// None at all.
    pub fn none(alloc: Global) -> Result<Targets, AllocError> {
        Ok(Targets {
            all: Vec::new(alloc),
            groups: Groups::new(alloc, 0)?,
        })
    }

    /// Those of the history.
    pub fn new(alloc: Global, history: &History) -> Result<Targets, AllocError> {
        let many = history.items.len();
        let mut all = Vec::with_capacity(alloc, history.operations.len())?;
        let mut groups = Groups::new(alloc, many.saturating_mul(3))?;
        for item in 0..many {
            if let Some(operations) = history.operations.get(history.by_item.span(item)) {
                for act in ACTS {
                    let members = push_group(&mut all, operations, act)?;
                    groups.push(members)?;
                }
            }
        }
        Ok(Targets { all, groups })
    }

    /// How many groups there are.
    pub fn groups(&self) -> usize {
        self.groups.starts().len().saturating_sub(1)
    }

    /// The targets at these places.
    pub fn at(&self, span: Range<usize>) -> &[Target] {
        match self.all.get(span) {
            Some(targets) => targets,
            None => &[],
        }
    }

    /// Where those of the group stand that have one of these lines.
    pub fn span(&self, group: u32, lines: &Range<u32>) -> Range<usize> {
        let all = self.groups.span(group as usize);
        let start = all.start;
        let targets = self.at(all);
        let from = targets.partition_point(|target| target.line < lines.start);
        let to = targets.partition_point(|target| target.line < lines.end);
        start.saturating_add(from)..start.saturating_add(to)
    }
}

/// Which way a search goes along the conflicts.
#[derive(Clone, Copy, Debug, PartialEq, Eq)]
pub enum Way {
    /// From the earlier operation to the later one.
    Onward,
    Back,
}

impl Way {
    /// How far a group was met of which nothing was: what stands beyond that line was.
    pub fn start(self) -> u32 {
        match self {
            Way::Onward => u32::MAX,
            Way::Back => 0,
        }
    }

    /// The lines that an operation of this line leads to, of a group that was met this far.
    pub fn lines(self, line: u32, reach: u32) -> Range<u32> {
        match self {
            Way::Onward => line.saturating_add(1)..reach.saturating_add(1),
            Way::Back => reach..line,
        }
    }

    /// How far the group is met then.
    pub fn further(self, line: u32, reach: u32) -> u32 {
        match self {
            Way::Onward => line.min(reach),
            Way::Back => line.max(reach),
        }
    }

    /// Whether what was met this far includes the place.
    pub fn includes(self, reach: u32, place: &Place) -> bool {
        match self {
            Way::Onward => reach < place.line,
            Way::Back => place.line < reach,
        }
    }
}
