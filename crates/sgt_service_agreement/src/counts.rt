//! How many entries of a site's log a service has written.

/// How many entries were written to a site's log: by one worker of a service, or by all of them.
#[derive(Clone, Copy, Debug, PartialEq, Eq)]
pub struct EntryCounts {
    /// Reads.
    pub reads: u64,
    /// Writes, increments, what was asked for in vain, and ends.
    pub others: u64,
}
