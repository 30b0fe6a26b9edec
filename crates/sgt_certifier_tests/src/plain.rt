//! The plain rule: each admission searches the whole graph and writes the whole order again.

use sgt_arena::Handle;
use std::alloc::{AllocError, Global};

/// The transactions in their order, and the edges as the places of their ends in the window.
#[derive(Drop)]
pub(crate) struct Plain {
    order: Vec<u32>,
    edges: Vec<(u32, u32)>,
}

// Marks the place, and tells whether it had no mark.
fn mark(marks: &mut [bool; 4096], at: u32) -> bool {
    match marks.get_mut(at as usize) {
        Some(mark) if !*mark => {
            *mark = true;
            true
        }
        _ => false,
    }
}

fn is_marked(marks: &[bool; 4096], at: u32) -> bool {
    marks.get(at as usize).copied().unwrap_or_default()
}

// Marks the ends of the edges that begin at a mark, and tells whether one had none.
fn lead_on(marks: &mut [bool; 4096], edges: &[(u32, u32)]) -> bool {
    let mut grown = false;
    for (from, to) in edges {
        if is_marked(marks, *from) && mark(marks, *to) {
            grown = true;
        }
    }
    grown
}

// Adds the transactions of the order whose places have this mark.
fn push_marked(
    to: &mut Vec<u32>,
    order: &[u32],
    marks: &[bool; 4096],
    marked: bool,
) -> Result<(), AllocError> {
    for tx in order {
        if is_marked(marks, tx.wrapping_sub(1)) == marked {
            to.push(*tx)?;
        }
    }
    Ok(())
}

impl Plain {
    pub(crate) fn new(alloc: Global) -> Plain {
        Plain {
            order: Vec::new(alloc),
            edges: Vec::new(alloc),
        }
    }

    pub(crate) fn order(&self) -> &[u32] {
        self.order.as_slice()
    }

    // Marks which places are reached from the node: the edges are gone through until no more mark comes.
    fn reach(&self, marks: &mut [bool; 4096], node: Handle, ends: &[(Handle, Handle)]) {
        for (from, to) in ends {
            if *from == node {
                mark(marks, to.index);
            }
        }
        for _ in 0..4096 {
            if !lead_on(marks, self.edges.as_slice()) {
                break;
            }
        }
    }

    /// Places the node of a transaction, whose number is its place in the window and one more, if its edges make no
    /// cycle.
    pub(crate) fn admit(
        &mut self,
        tx: u32,
        node: Handle,
        ends: &[(Handle, Handle)],
    ) -> Result<bool, AllocError> {
        let mut marks = [false; 4096];
        self.reach(&mut marks, node, ends);
        let closes = |(from, to): &(Handle, Handle)| *to == node && is_marked(&marks, from.index);
        if ends.iter().any(closes) {
            return Ok(false);
        }
        for (from, to) in ends {
            self.edges.push((from.index, to.index))?;
        }
        self.place(tx, &marks)?;
        Ok(true)
    }

    // The transaction comes behind those that it doesn't reach.
    fn place(&mut self, tx: u32, marks: &[bool; 4096]) -> Result<(), AllocError> {
        let mut order = Vec::new(*self.order.allocator());
        push_marked(&mut order, self.order.as_slice(), marks, false)?;
        order.push(tx)?;
        push_marked(&mut order, self.order.as_slice(), marks, true)?;
        self.order = order;
        Ok(())
    }
}
