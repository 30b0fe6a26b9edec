//! The edges between committed transactions.

ghost use Rattle.std.specs.Prelude.{◌↔◌, IsTrue};
ghost use Rattle.sgt_service_settle.specs.private.Search.{Passes};

use sgt_names::{Item, Label, SiteNo};

/// An edge between two committed transactions, and the number of the decision that it was handed to.
#[derive(Clone, Copy, Debug, PartialEq, Eq)]
pub struct Link {
    pub from: usize,
    pub to: usize,
    pub label: Label,
    pub number: u64,
}

/// The far end of an edge.
#[derive(Clone, Copy, Debug, PartialEq, Eq)]
pub struct Arc {
    pub to: usize,
    pub label: Label,
    pub number: u64,
}

/// Which edges count: those on the item of the site, handed to a decision of at most this number.
#[derive(Clone, Copy, Debug, PartialEq, Eq)]
pub struct Cut {
    pub site: SiteNo,
    pub item: Item,
    pub last: u64,
}

/// Whether the edge counts.
pub(crate) fn passes(arc: &Arc, cut: &Cut) -> bool
    ensures { IsTrue result ↔ Passes cut.now arc.now.label arc.now.number }
{
    arc.number <= cut.last && arc.label.site == cut.site && arc.label.item == cut.item
}
