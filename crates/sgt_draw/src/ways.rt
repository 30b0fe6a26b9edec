//! Edges of Graphviz text, so that none is written twice.

use crate::edges::{Edge, number_of};
use crate::scene::Scene;
use sgt_bundle::{Decision, Step};
use sgt_names::{Item, Tx};
use std::alloc::{AllocError, Global};

/// What an edge is told by: its two transactions, and its label.
pub type Key = ((u32, u32), (u8, u64), Item);

/// The key of a step from this transaction.
pub(crate) fn key_of(from: Tx, step: &Step) -> Key {
    let label = &step.label;
    (
        (from.number(), step.to.number()),
        (number_of(label.kind), u64::from(label.site.number())),
        label.item,
    )
}

/// The key of an edge. None where its transactions are not drawn.
pub(crate) fn key_at(scene: &Scene, edge: &Edge) -> Option<Key> {
    let from = scene.committed.get(edge.from as usize)?;
    let to = scene.committed.get(edge.to as usize)?;
    Some((
        (from.tx.number(), to.tx.number()),
        (number_of(edge.kind), edge.site),
        edge.item,
    ))
}

/// An edge with the number of the walk that it is in.
#[derive(Clone, Copy)]
struct Way {
    key: Key,
    walk: usize,
}

/// Edges by their keys.
#[derive(Drop)]
pub struct Ways {
    ways: Vec<Way>,
}

impl Ways {
    /// The conflicts between neighbours.
    pub(crate) fn of_edges(
        alloc: Global,
        scene: &Scene,
        edges: &[Edge],
    ) -> Result<Ways, AllocError> {
        let mut ways = Vec::new(alloc);
        for edge in edges {
            if let Some(key) = key_at(scene, edge) {
                ways.push(Way { key, walk: 0 })?;
            }
        }
        ways.sort_by_key(|way| (way.key, way.walk))?;
        Ok(Ways { ways })
    }

    /// The steps of the refused transactions that are drawn.
    pub(crate) fn of_walks(
        alloc: Global,
        scene: &Scene,
        decisions: &[Decision],
    ) -> Result<Ways, AllocError> {
        let mut ways = Vec::new(alloc);
        for number in scene.refusals.as_slice() {
            if let Some(decision) = decisions.get(*number) {
                let mut from = decision.tx();
                for step in decision.walk().unwrap_or(&[]) {
                    ways.push(Way {
                        key: key_of(from, step),
                        walk: *number,
                    })?;
                    from = step.to;
                }
            }
        }
        ways.sort_by_key(|way| (way.key, way.walk))?;
        Ok(Ways { ways })
    }

    /// The first walk with this edge.
    pub(crate) fn first(&self, key: &Key) -> Option<usize> {
        let ways = self.ways.as_slice();
        let at = ways.partition_point(|way| way.key < *key);
        match ways.get(at) {
            Some(found) if found.key == *key => Some(found.walk),
            _ => None,
        }
    }
}
