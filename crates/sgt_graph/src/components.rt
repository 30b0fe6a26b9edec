//! Ranks of nodes, by their strongly connected components. What they are is not proved: who asks for them checks them.

ghost use Rattle.std.specs.Prelude.{◌≤◌, ◌^◌};

use crate::nearest::{number_at, set_number};
use crate::rows::Rows;
use std::alloc::{AllocError, Global};

/// What `since` tells of a node whose component is closed.
const CLOSED: u32 = u32::MAX;

/// A node that is walked through, and how many of its edges were followed.
#[derive(Clone, Copy)]
struct Stop {
    node: u32,
    followed: usize,
}

/// A walk through the graph, deep first. Components: Gabow, Path-based depth-first search for strong and biconnected
/// components (2000).
#[derive(Drop)]
struct Walk {
    path: Vec<Stop>,
    /// Of each node when it was come to, counted from 1; 0 if it wasn't; `CLOSED` behind that.
    since: Vec<u32>,
    count: u32,
    /// The nodes come to whose components aren't closed.
    open: Vec<u32>,
    /// When the first node of each component that isn't closed was come to.
    firsts: Vec<u32>,
    /// How many components are closed.
    closed: u32,
    /// Of each node how many were closed before its own.
    ranks: Vec<u32>,
}

impl Walk {
    /// No node is come to.
    fn new(alloc: Global, nodes: usize) -> Result<Walk, AllocError> {
        Ok(Walk {
            path: Vec::new(alloc),
            since: vec![in alloc; 0u32; nodes]?,
            count: 0,
            open: Vec::new(alloc),
            firsts: Vec::new(alloc),
            closed: 0,
            ranks: vec![in alloc; 0u32; nodes]?,
        })
    }

    /// Comes to a node for the first time.
    fn enter(&mut self, node: u32) -> Result<(), AllocError> {
        self.count = self.count.saturating_add(1);
        set_number(self.since.as_mut_slice(), node, self.count);
        self.open.push(node)?;
        self.firsts.push(self.count)?;
        self.path.push(Stop { node, followed: 0 })?;
        Ok(())
    }

    /// An edge leads back to a node that was come to then, whose component isn't closed: all nodes come to behind it
    /// are of that one.
    fn join(&mut self, since: u32) {
        let kept = self
            .firsts
            .as_slice()
            .partition_point(|first| *first <= since);
        self.firsts.truncate(kept);
    }

    /// All edges of the node were followed: if it is the first of its component, that is closed.
    fn leave(&mut self, node: u32) {
        let since = number_at(self.since.as_slice(), node);
        if self.firsts.as_slice().last() != Some(&since) {
            return;
        }
        self.firsts.pop();
        let rank = self.closed;
        self.closed = rank.saturating_add(1);
        'closing: while let Some(member) = self.open.pop() {
            set_number(self.since.as_mut_slice(), member, CLOSED);
            set_number(self.ranks.as_mut_slice(), member, rank);
            if member == node {
                return;
            }
        }
    }

    /// Follows an edge to this node.
    fn follow(&mut self, target: u32) -> Result<(), AllocError> {
        match number_at(self.since.as_slice(), target) {
            0 => self.enter(target),
            CLOSED => Ok(()),
            since => {
                self.join(since);
                Ok(())
            }
        }
    }

    /// One step: follows the next edge of the last node on the path, or leaves it. Whether there is one.
    fn step(&mut self, rows: &Rows) -> Result<bool, AllocError> {
        let Some(stop) = self.path.pop() else {
            return Ok(false);
        };
        match rows.targets_of(stop.node).get(stop.followed) {
            Some(target) => {
                let followed = stop.followed.saturating_add(1);
                self.path.push(Stop {
                    node: stop.node,
                    followed,
                })?;
                self.follow(*target)?;
            }
            None => self.leave(stop.node),
        }
        Ok(true)
    }

    /// Walks through all that can be come to from the node.
    fn walk_from(&mut self, rows: &Rows, node: u32, steps: usize) -> Result<(), AllocError> {
        if number_at(self.since.as_slice(), node) != 0 {
            return Ok(());
        }
        self.enter(node)?;
        for _ in 0..steps {
            if !self.step(rows)? {
                return Ok(());
            }
        }
        Ok(())
    }
}

/// A rank of each of so many nodes: those on a cycle have one, and an edge that is on none leads to a lesser one.
pub(crate) fn ranks_of(
    alloc: Global,
    rows: &Rows,
    nodes: usize,
    edges: usize,
) -> Result<Vec<u32>, AllocError>
    requires { nodes ≤ 2 ^ 32 }
{
    let steps = edges.saturating_add(nodes).saturating_add(1);
    let mut walk = Walk::new(alloc, nodes)?;
    for node in 0..nodes {
        walk.walk_from(rows, node as u32, steps)?;
    }
    let Walk { ranks, .. } = walk;
    Ok(ranks)
}
