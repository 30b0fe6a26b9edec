//! The nodes of a window with their edges and their order.

ghost use Rattle.std.specs.Prelude.{◌≡◌, ◌↔◌, ℕ, Some, slice_get};
ghost use Rattle.sgt_order.specs.private.Parts.{IsSound};

use crate::hints::Hints;
use crate::node::Node;
use crate::row::Row;
use sgt_arena::{Arena, Handle};
use sgt_edges::Edge;

/// The nodes of a window, the edges between the admitted ones, and these in a topological order.
#[derive(Drop)]
pub struct Dag {
    pub nodes: Arena<Node>,
    pub edges: Vec<Edge>,
    pub order: Vec<Handle>,
    /// Which nodes the edges of a node lead to, by its index. A node with few edges may have no row, or an empty one.
    pub rows: Vec<Row>,
    /// Where the edges of a node stand, by its index. A node with few edges may have none.
    pub hints: Vec<Hints>,
    /// The room that the edges of a closed window had, for those of the next one. What stands in it is no edge.
    pub spare: Vec<Edge>,
}

impl Dag {
    /// Where the node stands in the order, or None where it isn't admitted.
    pub(crate) fn place_of(&self, node: Handle) -> Option<usize>
        requires { IsSound self.now }
        ensures { (p : ℕ) → (result ≡ Some p) ↔ (slice_get self.now.order.items p ≡ Some node) }
    {
        self.nodes.get(node)?.place
    }
}
