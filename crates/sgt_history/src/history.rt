//! A history, with its items and values as numbers.

ghost use Rattle.std.specs.Prelude.{All, length, ◌<◌, ◌^◌};
ghost use Rattle.sgt_history.specs.Cut.{EndsRise, EndWithin};
ghost use Rattle.sgt_history.specs.Transaction.{WritesPositive};

use std::alloc::{AllocError, Global};

/// What an operation does to its item.
#[derive(Clone, Copy, Debug, PartialEq, Eq)]
pub enum Kind {
    Read,
    Write,
}

/// A read or write of a version of an item, and the value that it gives, if it gives one.
#[derive(Clone, Copy, Debug, PartialEq, Eq)]
pub struct Operation<I, V> {
    pub version: u64,
    pub item: I,
    pub kind: Kind,
    pub value: Option<V>,
}

/// Whether the transaction of a line commits, and how many operations there are up to its end.
#[derive(Clone, Copy, Debug, PartialEq, Eq)]
pub struct Line {
    pub end: usize,
    pub commits: bool,
}

/// A history whose items and values are numbered, each with one number: all operations, one after another, and where
/// the transaction of each line ends. There are at most 2^32-1 of either.
#[derive(Drop)]
pub struct History {
    pub operations: Vec<Operation<u32, u32>>,
    pub lines: Vec<Line>,
    ghost rising: { EndsRise lines.items },
    ghost within: { EndWithin (length operations.items) lines.items },
    ghost positive: { All WritesPositive operations.items },
    ghost few: { length operations.items < 2 ^ 32 },
    ghost few_lines: { length lines.items < 2 ^ 32 },
}

impl History {
    ghost use Rattle.std.specs.Prelude.{◌≡◌, ◌++◌, ◌∷◌, [], OnOk, OnErr};
    ghost use Rattle.sgt_history.specs.History.{closed_of, open_of};

    /// No line yet.
    pub fn new(alloc: Global) -> Self
        ensures closed { closed_of result ≡ [] }
        ensures open { open_of result ≡ [] }
    {
        History {
            operations: Vec::new(alloc),
            lines: Vec::new(alloc),
        }
    }

    /// An operation more of the line that is being read. Errs where no more can be kept.
    #[inline]
    pub fn push(&mut self, operation: Operation<u32, u32>) -> Result<(), AllocError>
        requires { WritesPositive operation }
        ensures closed { closed_of self.new ≡ closed_of self.old }
        ensures open { OnOk result (open_of self.new ≡ open_of self.old ++ operation ∷ []) }
        ensures err { OnErr result (open_of self.new ≡ open_of self.old) }
    {
        if self.operations.len() >= u32::MAX as usize {
            return Err(AllocError);
        }
        self.operations.push(operation)?;
        Ok(())
    }

    /// The end of the line: its transaction has the operations since the last one's.
    pub fn close(&mut self, commits: bool) -> Result<(), AllocError>
        ensures closed { OnOk result (closed_of self.new
            ≡ closed_of self.old ++ record { commits = commits; operations = open_of self.old } ∷ []) }
        ensures open { OnOk result (open_of self.new ≡ []) }
        ensures err { OnErr result (closed_of self.new ≡ closed_of self.old) }
    {
        let end = self.operations.len();
        if self.lines.len() >= u32::MAX as usize {
            return Err(AllocError);
        }
        self.lines.push(Line { end, commits })?;
        Ok(())
    }
}
