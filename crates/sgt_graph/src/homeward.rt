//! A way from a node back to it, always to the nearest node.

ghost use Rattle.std.specs.Prelude.{◌≡◌, ℕ, List, IfNone, IfOk, IfSome};
ghost use Rattle.sgt_graph.specs.Nearest.{AreMeasured, AreRowsOf, IsWayHome, NoneFrom};
ghost use Rattle.sgt_graph.specs.declared.edge.Edge.{Edge};

use crate::nearest::{distance_at, nearest};
use crate::rows::Rows;
use std::alloc::{AllocError, Global};

/// How far it is from a node from which no walk leads.
pub(crate) const FAR: usize = usize::MAX;

/// The cycle from the node on always to the nearest next one, of several to the least, if that leads back, and each
/// is as far as it is told to be. It is and does where the distances are those of the shortest walks and the node
/// lies on a cycle.
pub(crate) fn way_home(
    alloc: Global,
    rows: &Rows,
    distances: &[usize],
    node: u32,
) -> Result<Option<Vec<u32>>, AllocError>
    ensures some { IfOk result (λ found. IfSome found (λ cycle. (nodes : ℕ) (edges : List Edge)
        → AreRowsOf nodes edges rows.now.starts.items rows.now.targets.items
        → IsWayHome edges distances.now node cycle.items)) }
    ensures none { IfOk result (λ found. IfNone found ((nodes : ℕ) (edges : List Edge)
        → AreRowsOf nodes edges rows.now.starts.items rows.now.targets.items
        → AreMeasured edges FAR distances.now node → NoneFrom edges node)) }
{
    let mut cycle = vec![in alloc; node]?;
    let Some(first) = nearest(distances, rows.targets_of(node)) else {
        return Ok(None);
    };
    let mut here = first;
    let mut left = distance_at(distances, first);
    'home: while left > 0 {
        let Some(next) = nearest(distances, rows.targets_of(here)) else {
            return Ok(None);
        };
        if distance_at(distances, next) != left - 1 {
            return Ok(None);
        }
        cycle.push(here)?;
        here = next;
        left -= 1;
    }
    if here != node {
        return Ok(None);
    }
    Ok(Some(cycle))
}
