//! Edges and lists of them.

ghost use Rattle.std.specs.Prelude.{◌≡◌, ◌∷◌, ◌++◌, [], OnOk, OnErr};

use sgt_arena::Handle;
use sgt_names::Label;
use std::alloc::{AllocError, Global};
use std::marker::Model;

/// A conflict of two transactions: an operation of the first stands before one of the other.
#[derive(Clone, Copy, Debug, PartialEq, Eq)]
pub struct Edge {
    pub from: Handle,
    pub to: Handle,
    /// Where the conflict is, and of which kind.
    pub label: Label,
}

// How many edges the first one makes room for: most transactions have no more.
const FIRST: usize = 24;

/// Edges in the order in which they were added.
#[derive(Debug, Drop)]
pub struct EdgeList {
    edges: Vec<Edge>,
}

impl Model for EdgeList {
    ghost use Rattle.std.specs.Prelude.{List};
    ghost use Rattle.sgt_edges.specs.declared.edge.Edge.{Edge as Member};

    ghost Value = { List Member };

    ghost view = { λ l. l.edges.items };
}

impl EdgeList {
    /// No edges.
    pub fn new(alloc: Global) -> EdgeList
        ensures { result ≡ [] }
    {
        EdgeList {
            edges: Vec::new(alloc),
        }
    }

    /// These edges.
    pub fn from_vec(edges: Vec<Edge>) -> EdgeList
        ensures { result ≡ edges.items }
    {
        EdgeList { edges }
    }

    /// Adds an edge at the end. The first one makes room for more.
    pub fn push(&mut self, edge: Edge) -> Result<(), AllocError>
        ensures ok { OnOk result (self.new ≡ self.old ++ edge ∷ []) }
        ensures err { OnErr result (self.new ≡ self.old) }
    {
        let more = if self.edges.capacity() == 0 { FIRST } else { 1 };
        self.edges.reserve(more)?;
        self.edges.push_reserved(edge);
        Ok(())
    }

    /// Adds edges at the end, in their order.
    pub fn append(&mut self, more: &EdgeList) -> Result<(), AllocError>
        ensures ok { OnOk result (self.new ≡ self.old ++ more.now) }
        ensures err { OnErr result (self.new ≡ self.old) }
    {
        self.edges.extend_from_slice(more.edges.as_slice())
    }

    /// Takes all edges out. The room stays.
    pub fn clear(&mut self)
        ensures { self.new ≡ [] }
    {
        self.edges.clear();
    }

    /// The edges.
    pub fn as_slice(&self) -> &[Edge]
        ensures { result.now ≡ self.now }
    {
        self.edges.as_slice()
    }
}
