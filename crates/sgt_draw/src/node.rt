//! Which transactions were drawn, and with which fate.

ghost use Rattle.std.specs.Prelude.{◌≡◌, ◌++◌, [], ◌∷◌, List};
ghost use Rattle.std.specs.Borrow.{ftrue};
ghost use Rattle.sgt_draw.specs.declared.node.Node.{Node as ANode};

use sgt_names::Tx;
use std::marker::Model;

/// What became of a transaction.
#[derive(Clone, Copy, PartialEq, Eq)]
pub enum Fate {
    Committed,
    /// Committed, and asked for.
    Asked,
    Refused,
    Withdrawn,
    /// Asked for, and neither committed nor refused.
    Neither,
}

/// A transaction as it is drawn.
#[derive(Clone, Copy, Drop)]
pub struct Node {
    pub fate: Fate,
    pub tx: Tx,
}

/// The transactions that were drawn, in order. It takes no bytes, and is there for proofs alone.
#[derive(Drop)]
pub struct Nodes {
    pub ghost items: { List ANode },
}

impl Model for Nodes {
    ghost also_owns = { λ _. ftrue };
}

impl Nodes {
    /// None so far.
    pub(crate) fn none() -> Nodes
        ensures { result.items ≡ [] }
    {
        Nodes {}
    }

    /// This one behind them.
    #[inline(always)]
    pub(crate) fn with(&self, _node: &Node) -> Nodes
        ensures { result.items ≡ self.now.items ++ _node.now ∷ [] }
    {
        Nodes {}
    }
}
