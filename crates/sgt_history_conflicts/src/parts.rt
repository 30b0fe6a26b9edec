//! Edges by the graphs that have them.

ghost use Rattle.std.specs.Prelude.{◌≤◌, length};

use sgt_graph::Edge;

/// Edges of ww, then of wr, then of rw; and how many there are of the first, and of the first two.
#[derive(Drop)]
pub struct Parts {
    pub edges: Vec<Edge>,
    pub write_write: usize,
    pub with_reads: usize,
    ghost first: { write_write ≤ length edges.items },
    ghost second: { with_reads ≤ length edges.items },
}
