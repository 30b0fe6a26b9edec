//! The conflicts of transactions as edges between their lines.

ghost use Rattle.std.specs.Prelude.{◌≡◌, ℕ, List, IfOk, All};
ghost use Rattle.sgt_history.specs.Transaction.{Transaction};
ghost use Rattle.sgt_history_conflicts.specs.Edges.{AreLined, HasEdges, HasPairs, JoinsTouches, part_of};
ghost use Rattle.sgt_history_faults.specs.Judged.{IsFaultlessBy};

use crate::pairs::{push_backward, push_forward};
use crate::parts::Parts;
use sgt_graph::Edge;
use sgt_history::{Conflict, Graph};
use sgt_history_faults::Touch;
use std::alloc::{AllocError, Global};

/// The edges of a graph.
pub fn edges_in(parts: &Parts, graph: Graph) -> &[Edge]
    ensures { result.now ≡ part_of parts.now graph }
{
    let edges = parts.edges.as_slice();
    match graph {
        Graph::WriteWrite => &edges[..parts.write_write],
        Graph::WithReads => &edges[..parts.with_reads],
        Graph::Whole => edges,
    }
}

/// The pairs of touches that conflict: their places among the touches. Err also where there are more than 2^32-1
/// touches.
pub fn pairs_of(alloc: Global, touches: &[Touch]) -> Result<Parts, AllocError>
    ensures { IfOk result (HasPairs touches.now) }
{
    if touches.len() > u32::MAX as usize {
        return Err(AllocError);
    }
    let mut edges = Vec::new(alloc);
    push_forward(touches, Conflict::WriteWrite, &mut edges)?;
    let write_write = edges.len();
    push_forward(touches, Conflict::WriteRead, &mut edges)?;
    let with_reads = edges.len();
    push_backward(touches, &mut edges)?;
    Ok(Parts {
        edges,
        write_write,
        with_reads,
    })
}

/// Puts in place of each two touches their lines.
fn put_lines(touches: &[Touch], edges: &mut Vec<Edge>)
    requires { All (JoinsTouches touches.now) edges.old.items }
    ensures { AreLined touches.now edges.old.items edges.new.items }
{
    for k in 0..edges.len() {
        let edge = &mut edges[k];
        edge.from = touches[edge.from as usize].line;
        edge.to = touches[edge.to as usize].line;
    }
}

/// The conflicts of transactions, from the pairs of touches: their lines.
pub fn edges_of(touches: &[Touch], pairs: Parts) -> Parts
    requires { HasPairs touches.now pairs }
    ensures { (h : List (Transaction ℕ ℕ)) → IsFaultlessBy h touches.now → HasEdges h result }
{
    let Parts {
        mut edges,
        write_write,
        with_reads,
    } = pairs;
    put_lines(touches, &mut edges);
    Parts {
        edges,
        write_write,
        with_reads,
    }
}
