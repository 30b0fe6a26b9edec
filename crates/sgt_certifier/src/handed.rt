//! The edges that a decision was handed, as the history keeps them.

ghost use Rattle.std.specs.Prelude.{◌≡◌, ◌<◌, ℕ, Some, length, map, slice_get, IfOk};
ghost use Rattle.sgt_edges.specs.declared.edge.Edge.{Edge as AnEdge};
ghost use Rattle.sgt_certifier.specs.Incident.{IsAt, edge_of};

use sgt_arena::Handle;
use sgt_edges::Edge;
use sgt_names::Label;
use std::alloc::{AllocError, Global};
use std::marker::Model;

/// An edge of a node that is known, by its other end. It takes less room than the edge.
#[derive(Clone, Copy)]
pub struct Incident {
    pub other: Handle,
    pub label: Label,
    /// Whether it leads from the node to the other end.
    pub leads_out: bool,
}

/// Edges of one node.
#[derive(Drop)]
pub struct Star {
    pub node: Handle,
    pub incidents: Vec<Incident>,
}

/// The edges that a decision was handed: the decided transaction is at one end of each. They lie apart, since few
/// calls have edges.
#[derive(Drop)]
pub struct HandedEdges {
    star: Box<Star>,
}

impl Model for HandedEdges {
    ghost use Rattle.std.specs.Prelude.{List, map};
    ghost use Rattle.sgt_edges.specs.declared.edge.Edge.{Edge as Member};
    ghost use Rattle.sgt_certifier.specs.Incident.{edge_of};

    ghost Value = { List Member };

    ghost view = { λ h. map (edge_of h.star.value.node) h.star.value.incidents.items };
}

impl HandedEdges {
    /// These edges of the node.
    pub(crate) fn new(
        alloc: Global,
        node: Handle,
        edges: &[Edge],
    ) -> Result<HandedEdges, AllocError>
        requires { (n : ℕ) (e : AnEdge) → slice_get edges.now n ≡ Some e → IsAt node e }
        ensures { IfOk result (λ handed. handed ≡ edges.now) }
    {
        let incidents = incidents_of(alloc, node, edges)?;
        HandedEdges::from_vec(alloc, node, incidents)
    }

    /// The edges of the node to and from these other ends. It takes memory for the vector's own place and the node,
    /// and copies none of them.
    pub fn from_vec(
        alloc: Global,
        node: Handle,
        incidents: Vec<Incident>,
    ) -> Result<HandedEdges, AllocError>
        ensures { IfOk result (λ handed. handed ≡ map (edge_of node) incidents.items) }
    {
        match Box::new(alloc, Star { node, incidents }) {
            Ok(star) => Ok(HandedEdges { star }),
            Err(_) => Err(AllocError),
        }
    }

    /// The node, and the vector of the other ends. It takes no memory.
    pub fn into_vec(self) -> (Handle, Vec<Incident>)
        ensures { map (edge_of result.0) result.1.items ≡ self }
    {
        let HandedEdges { star } = self;
        let Star { node, incidents } = Box::into_inner(star);
        (node, incidents)
    }

    /// How many there are.
    pub fn count(&self) -> usize
        ensures { result ≡ length self.now }
    {
        self.star.incidents.len()
    }

    /// The edge at a place, from 0.
    pub fn at(&self, place: usize) -> Edge
        requires { place < length self.now }
        ensures { slice_get self.now place ≡ Some result }
    {
        edge_of(self.star.node, self.star.incidents[place])
    }
}

fn edge_of(node: Handle, incident: Incident) -> Edge
    ensures { result ≡ edge_of node incident }
{
    let Incident {
        other,
        label,
        leads_out,
    } = incident;
    if leads_out {
        Edge {
            from: node,
            to: other,
            label,
        }
    } else {
        Edge {
            from: other,
            to: node,
            label,
        }
    }
}

// An edge of the node, by its other end.
fn incident_of(node: Handle, edge: &Edge) -> Incident
    requires { IsAt node edge.now }
    ensures { edge_of node result ≡ edge.now }
{
    let leads_out = edge.from == node;
    Incident {
        other: if leads_out { edge.to } else { edge.from },
        label: edge.label,
        leads_out,
    }
}

// The edges of the node, by their other ends.
fn incidents_of(alloc: Global, node: Handle, edges: &[Edge]) -> Result<Vec<Incident>, AllocError>
    requires { (n : ℕ) (e : AnEdge) → slice_get edges.now n ≡ Some e → IsAt node e }
    ensures { IfOk result (λ incidents. map (edge_of node) incidents.items ≡ edges.now) }
{
    let mut incidents = Vec::with_capacity(alloc, edges.len())?;
    for edge in edges {
        incidents.push(incident_of(node, edge))?;
    }
    Ok(incidents)
}
