//! What happened at a pipe, for proofs alone.

ghost use Rattle.std.specs.Prelude.{◌≡◌, ℕ, List, []};
ghost use Rattle.std.specs.Borrow.{ftrue};

use std::marker::Model;

/// What was given and written so far; and at each read, what was given and written before it. It takes no bytes, and
/// is there for proofs alone: what it tells are the reads and writes of the pipe that keeps it.
#[derive(Drop)]
pub struct History {
    pub ghost given: { List ℕ },
    pub ghost written: { List ℕ },
    pub ghost waits: { List (List ℕ × List ℕ) },
}

impl Model for History {
    ghost also_owns = { λ _. ftrue };
}

/// What happens at a pipe.
#[derive(Clone, Copy, Drop)]
pub enum Act<'a> {
    /// A read is made.
    Asks,
    /// It gave these bytes.
    Gives(&'a [u8]),
    /// These bytes are written.
    Writes(&'a [u8]),
}

impl History {
    ghost use Rattle.sgt_pipe.specs.Acts.{given_by, waits_by, written_by};

    /// Nothing happened.
    pub(crate) fn new() -> History
        ensures { (result.given ≡ []) × (result.written ≡ []) × (result.waits ≡ []) }
    {
        History {}
    }

    /// This happened behind it.
    #[inline(always)]
    pub(crate) fn with(&self, _act: &Act<'_>) -> History
        ensures { (result.given ≡ given_by self.now.given _act.now)
            × (result.written ≡ written_by self.now.written _act.now)
            × (result.waits
            ≡ waits_by self.now.given self.now.written self.now.waits _act.now) }
    {
        History {}
    }
}
