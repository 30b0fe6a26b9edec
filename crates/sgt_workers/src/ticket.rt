//! What is left of a script that was run.

use sgt_names::{Tx, Value};

/// How a transaction ended.
#[derive(Clone, Copy, Debug, PartialEq, Eq)]
pub enum Ending {
    /// It was certified.
    Committed,
    /// The certifier refused it.
    Refused,
    /// Its caller withdrew it.
    Withdrawn,
}

/// A decision as the transaction's caller was told of it.
#[derive(Clone, Copy, Debug, PartialEq, Eq)]
pub struct Ticket {
    /// The decision's number, from 0.
    pub number: u64,
    pub tx: Tx,
    pub verdict: Ending,
}

/// A job that was done.
#[derive(Debug, Drop)]
pub struct Done {
    /// The job's number, from 1.
    pub job: u64,
    /// A ticket for each try, in the order of the tries.
    pub tickets: Vec<Ticket>,
    /// The values that the reads of the last try answered, in the order of the reads.
    pub reads: Vec<Value>,
}
