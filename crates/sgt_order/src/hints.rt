//! Which edge leads from one node to another, of nodes with many edges. What it says is checked where it is used.

use crate::node::Node;
use sgt_arena::{Arena, Handle};
use sgt_edges::Edge;
use std::alloc::{AllocError, Global};

/// A node with as many edges gets hints.
const MANY: usize = 32;

/// How many numbers a block has.
const BLOCK: usize = 64;

// Stands where no number does.
const UNKNOWN: u32 = u32::MAX;

/// The numbers of a node's edges by the index of the node that they lead to, in blocks. A block without numbers is of
/// nodes that none leads to.
#[derive(Drop)]
pub struct Hints {
    pub blocks: Vec<Vec<u32>>,
    /// How many of the node's edges were noted.
    pub noted: usize,
}

/// The number of an edge that leads from a node to the one with this bit of this word, as far as it is known.
pub(crate) fn hint(hints: &[Hints], from: Handle, word: usize, bit: usize) -> Option<usize> {
    let block = hints.get(from.index as usize)?.blocks.get(word)?;
    Some(*block.get(bit)? as usize)
}

/// How many of a node's edges were noted.
pub(crate) fn noted(hints: &[Hints], from: Handle) -> usize {
    match hints.get(from.index as usize) {
        Some(hints) => hints.noted,
        None => 0,
    }
}

// Notes the number of an edge to the node with this index, if none stands there.
fn note(blocks: &mut Vec<Vec<u32>>, to: usize, number: usize) -> Result<(), AllocError> {
    let alloc = *blocks.allocator();
    for _empty in blocks.len()..to / BLOCK + 1 {
        blocks.reserve(1)?;
        blocks.push_reserved(Vec::new(alloc));
    }
    if to / BLOCK < blocks.len() {
        let block = &mut blocks[to / BLOCK];
        if block.is_empty() {
            *block = vec![in alloc; UNKNOWN; BLOCK]?;
        }
        if to % BLOCK < block.len() && block[to % BLOCK] == UNKNOWN {
            block[to % BLOCK] = u32::try_from(number).unwrap_or(UNKNOWN);
        }
    }
    Ok(())
}

// Notes those edges with these numbers that weren't noted.
fn note_rest(hints: &mut Hints, listed: &[usize], edges: &[Edge]) -> Result<(), AllocError> {
    for at in hints.noted..listed.len() {
        if let Some(edge) = edges.get(listed[at]) {
            note(&mut hints.blocks, edge.to.index as usize, listed[at])?;
        }
    }
    hints.noted = listed.len();
    Ok(())
}

// Makes hints up to this index, empty ones.
fn open(hints: &mut Vec<Hints>, at: u32) -> Result<(), AllocError> {
    let alloc = *hints.allocator();
    for _empty in hints.len()..at as usize + 1 {
        hints.reserve(1)?;
        hints.push_reserved(Hints {
            blocks: Vec::new(alloc),
            noted: 0,
        });
    }
    Ok(())
}

// Notes the edges from a node that weren't noted, if it has many.
fn note_from(
    hints: &mut Vec<Hints>,
    from: Handle,
    listed: &[usize],
    edges: &[Edge],
) -> Result<(), AllocError> {
    if listed.len() < MANY {
        return Ok(());
    }
    open(hints, from.index)?;
    match hints.get_mut(from.index as usize) {
        Some(hints) => note_rest(hints, listed, edges),
        None => Ok(()),
    }
}

/// Notes the edges from the members from this place on, if they have many. Where memory is refused some are left out.
pub(crate) fn note_edges(
    hints: &mut Vec<Hints>,
    nodes: &Arena<Node>,
    edges: &[Edge],
    order: &[Handle],
    first: usize,
) {
    for place in first..order.len() {
        if let Some(node) = nodes.get(order[place]) {
            if note_from(hints, order[place], node.out.as_slice(), edges).is_err() {
                return;
            }
        }
    }
}
