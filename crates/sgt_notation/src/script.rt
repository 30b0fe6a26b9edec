//! Scripts of transactions.

use sgt_names::{Item, Listed, SiteNo, Value};

/// An operation of a script.
#[derive(Clone, Copy, Debug, PartialEq, Eq)]
pub enum Op {
    /// The transaction reads the item.
    Read {
        site: SiteNo,
        item: Item,
    },
    /// It is to write this value.
    Put {
        site: SiteNo,
        item: Item,
        value: Value,
    },
    /// It is to add this value, modulo 2^64 and without reading the item.
    Add {
        site: SiteNo,
        item: Item,
        value: Value,
    },
    /// It is to write the sum of this value and the one that it sees at the source. An earlier operation reads or
    /// writes that.
    Sum {
        site: SiteNo,
        item: Item,
        from_site: SiteNo,
        from_item: Item,
        value: Value,
    },
}

/// What a transaction is to do, one operation after another.
#[derive(Drop)]
pub struct Script {
    pub operations: Listed<Op>,
}
