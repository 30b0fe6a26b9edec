//! What the core answers to an event.

use sgt_names::{Tx, Value};
use thiserror::Error;

/// The answer to an event.
#[derive(Clone, Copy, Debug, PartialEq, Eq)]
pub enum Reply {
    /// This transaction began.
    Begun { tx: Tx },
    /// What it reads: the logged value, with its private change behind it.
    Value { value: Value },
    /// The private change is kept.
    Kept,
    /// It is gathered there.
    Gathered,
    /// It is committed.
    Yes,
    /// It is refused.
    No,
    /// Its block is written there.
    Installed,
    /// It is withdrawn.
    Withdrawn,
    /// So many ranks were given until now.
    Closed { ranks: u64 },
    /// The event is refused, with this fault.
    Fault { fault: CoreFault },
}

/// Why the core refuses an event. The least number is told, but want of memory last. The state is then as it was;
/// after want of memory at a gather, a decision or a commit the step is closed, as if it had never been opened.
#[derive(Clone, Copy, Debug, PartialEq, Eq, Error)]
pub enum CoreFault {
    /// The transaction was never begun.
    #[error("E1: the transaction was never begun")]
    Unknown,
    /// It has ended.
    #[error("E2: the transaction has ended")]
    Ended,
    /// A step is open that has to be closed before: its own before it reads or changes items, another's before a part
    /// of its own, and any before the other events.
    #[error("E3: a step is open")]
    StepOpen,
    /// There is no such site, or no such item there.
    #[error("E4: there is no such site, or no such item there")]
    UnknownItem,
    /// It isn't gathered at each site that it touches (a decision), or isn't decided (an install).
    #[error("E5: the transaction is not gathered, or not decided")]
    NotGathered,
    /// That part of its step was done.
    #[error("E6: this part of the step was done")]
    AlreadyDone,
    /// As many transactions as there may be were begun in this window.
    #[error("E7: the window is full")]
    WindowFull,
    /// A transaction is active.
    #[error("E8: a transaction is active")]
    ActiveLeft,
    /// A growth was refused.
    #[error("E9: out of memory")]
    Memory,
    /// No further window can be opened.
    #[error("E10: the generations are spent")]
    GenerationsSpent,
    /// No further transaction can be numbered.
    #[error("E11: the numbers of transactions are spent")]
    NumbersSpent,
    /// The transaction doesn't touch the site.
    #[error("E12: the transaction does not touch the site")]
    NotTouched,
}
