//! What may be asked for, and what an explanation comes to.

use sgt_names::{Outcome, Tx};

/// What is told behind the line of a verdict. What a no means is told of each.
#[derive(Clone, Copy, Debug, PartialEq, Eq)]
pub enum Asked {
    /// Of a yes the first hundred refused transactions with their cycles, and how many more there are.
    First,
    /// Of a yes all refused transactions with their cycles.
    All,
    /// What this transaction did, and of a yes no other.
    Transaction(Tx),
}

impl Asked {
    ghost use Rattle.std.specs.Prelude.{◌≡◌};
    ghost use Rattle.sgt_explain.specs.Asked.{transaction_in};

    /// The transaction that is asked for, if one is.
    pub fn transaction(self) -> Option<Tx>
        ensures { result ≡ transaction_in self }
    {
        match self {
            Asked::Transaction(tx) => Some(tx),
            Asked::First | Asked::All => None,
        }
    }
}

/// What was explained.
#[derive(Clone, Copy, Debug, PartialEq, Eq)]
pub struct Explained {
    /// The outcome of the verdict.
    pub outcome: Outcome,
    /// Whether the text has the transaction that is asked for; true where none is.
    pub is_found: bool,
}
