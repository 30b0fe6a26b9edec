//! The part of the order that an admission moves.

use sgt_arena::Handle;
use sgt_edges::Edge;

/// The part of the order from the new node's first target on: no node in front of it is reached from the new one, so an
/// admission searches and moves this part alone.
#[derive(Drop)]
pub struct Region {
    /// The place in the order where the region begins.
    pub first: usize,
    /// One for each node of the window: the edge by which the search first met it. Between two admissions there are
    /// none.
    pub marks: Vec<Option<Edge>>,
    /// The room for the region's next order.
    pub next: Vec<Handle>,
}
