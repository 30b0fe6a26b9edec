//! An order that serves and keeps what is asked, found quickly. That it does isn't proved: who asks for it checks it.

ghost use Rattle.std.specs.Prelude.{◌≤◌, ◌^◌, IfSome};

use crate::asked::Asked;
use crate::drawing::{Layout, Steps, begins_of, drawn, number_of};
use sgt_graph::{Edge, Ordered, order};
use std::alloc::{AllocError, Global};

/// The lines among nodes, of which these many first ones are moments.
fn lines_in(alloc: Global, nodes: &[u32], moments: u32) -> Result<Vec<u32>, AllocError> {
    let mut lines = Vec::new(alloc);
    for node in nodes {
        if let Some(line) = node.checked_sub(moments) {
            lines.push(line)?;
        }
    }
    Ok(lines)
}

/// How many nodes there are, if they have numbers.
pub(crate) fn nodes_of(lines: usize, moments: usize) -> Option<usize>
    ensures { IfSome result (λ nodes. nodes ≤ 2 ^ 32) }
{
    let nodes = lines.checked_add(moments)?;
    if nodes > u32::MAX as usize {
        return None;
    }
    Some(nodes)
}

/// An order of all lines, of those whose steps' sources are all there the least first, if there is one. Moments come
/// as soon as they can.
pub(crate) fn quick_order<'x>(
    alloc: Global,
    lines: usize,
    edges: &'x [Edge],
    asked: &'x Asked,
) -> Result<Option<Vec<u32>>, AllocError> {
    let steps = Steps {
        edges,
        sessions: asked.sessions.as_slice(),
        times: asked.times.as_slice(),
    };
    let begins = begins_of(alloc, steps.times)?;
    let Some(nodes) = nodes_of(lines, begins.len()) else {
        return Ok(None);
    };
    let moments = number_of(begins.len());
    let layout = Layout {
        first_line: moments,
        first_moment: 0,
        nodes,
    };
    let drawn = drawn(alloc, layout, &steps, begins.as_slice())?;
    match order(alloc, nodes, drawn.as_slice())? {
        Ordered::Order(nodes) => Ok(Some(lines_in(alloc, nodes.as_slice(), moments)?)),
        Ordered::Cycle(_) => Ok(None),
    }
}
