//! The edges that decisions were handed.

ghost use Rattle.std.specs.Prelude.{◌≡◌, ◌++◌, map, IfOk, OnOk};
ghost use Rattle.sgt_edges.specs.declared.edge.Edge.{Edge as AnEdge};
ghost use Rattle.sgt_service_settle.specs.Told.{number_of, handed_by, handed_in};
ghost use Rattle.sgt_service_settle.specs.private.Words.{with_number};

use sgt_certifier::{Call, Decided, HandedEdges};
use sgt_edges::Edge;
use std::alloc::{AllocError, Global};

/// An edge, with the number of the decision that it was handed to.
#[derive(Clone, Copy, Debug, PartialEq, Eq)]
pub struct Handed {
    pub edge: Edge,
    pub number: u64,
}

/// The number of the decision.
pub(crate) fn number_of(reply: &Decided) -> u64
    ensures { result ≡ number_of reply.now }
{
    match reply {
        Decided::Committed { number } => u64::from(*number),
        Decided::Refused { number, .. } => u64::from(*number),
    }
}

// Adds these edges with the number.
fn add_edges(handed: &mut Vec<Handed>, edges: &HandedEdges, number: u64) -> Result<(), AllocError>
    ensures { OnOk result
        (handed.new.items ≡ handed.old.items ++ map (with_number number) edges.now) }
{
    for place in 0..edges.count() {
        let edge = edges.at(place);
        handed.push(Handed { edge, number })?;
    }
    Ok(())
}

// Adds the edges that the call hands to a decision.
fn add_handed(handed: &mut Vec<Handed>, call: &Call) -> Result<(), AllocError>
    ensures { OnOk result (handed.new.items ≡ handed.old.items ++ handed_by call.now) }
{
    match call {
        Call::Decide { edges, reply, .. } => add_edges(handed, edges, number_of(reply)),
        _ => Ok(()),
    }
}

/// How many edges the decisions are handed.
pub(crate) fn edges_in(history: &[Call]) -> usize {
    let mut count = 0usize;
    for call in history {
        if let Call::Decide { edges, .. } = call {
            count = count.saturating_add(edges.count());
        }
    }
    count
}

/// The edges that the decisions of the history were handed, in their order.
pub(crate) fn all_handed(alloc: Global, history: &[Call]) -> Result<Vec<Handed>, AllocError>
    ensures { IfOk result (λ handed. handed.items ≡ handed_in history.now) }
{
    let mut handed = Vec::new(alloc);
    handed.reserve(edges_in(history))?;
    for call in history {
        add_handed(&mut handed, call)?;
    }
    Ok(handed)
}
