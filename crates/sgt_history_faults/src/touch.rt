//! What concerns others of the operations of a history: writes, and reads of versions that others wrote.

use sgt_history::Kind;

/// A write, or a committed transaction's read of an item that it didn't write before.
#[derive(Clone, Copy, Debug, PartialEq, Eq)]
pub struct Touch {
    pub version: u64,
    pub item: u32,
    /// The transaction's line, from 0.
    pub line: u32,
    /// Its place among the transaction's operations.
    pub place: u32,
    pub kind: Kind,
    /// Whether the transaction commits.
    pub commits: bool,
    /// Of a write: whether the transaction writes a greater version of the item.
    pub surpassed: bool,
}
