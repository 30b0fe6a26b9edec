//! The names of the field for what two transactions have with one another, and for what a line may not have.

/// A conflict of two transactions by versions of one item.
#[derive(Clone, Copy, Debug, PartialEq, Eq)]
pub enum Conflict {
    /// ww: a version and the next one are written.
    WriteWrite,
    /// wr: a version is written, and read.
    WriteRead,
    /// rw: a version is read, and the next one written.
    ReadWrite,
}

/// Which conflicts a graph of the transactions has.
#[derive(Clone, Copy, Debug, PartialEq, Eq)]
pub enum Graph {
    /// ww alone.
    WriteWrite,
    /// ww and wr.
    WithReads,
    /// ww, wr and rw.
    Whole,
}

/// What a committed transaction has that no order mends, in the order in which it is told.
#[derive(Clone, Copy, Debug, PartialEq, Eq)]
pub enum Flaw {
    /// Its own reads and writes contradict one another.
    Internal,
    /// It writes a version that was written before.
    Duplicate,
    /// G1a: it reads what only aborted transactions wrote.
    AbortedRead,
    /// It reads what nobody wrote.
    Unwritten,
    /// G1b: it reads what wasn't the last that its writer wrote.
    IntermediateRead,
    /// It gives another value of a version than was given before.
    Value,
}
