//! A count that proofs alone read.

ghost use Rattle.std.specs.Prelude.{◌≡◌, ℕ, ◌+◌};
ghost use Rattle.std.specs.Borrow.{ftrue};

use std::marker::Model;

/// How often a source was asked for bytes. It takes no bytes, and is there for proofs alone: what it counts are its
/// own calls, so a source keeps one, and puts `one_more` in its place at each read.
#[derive(Drop)]
pub struct Asks {
    pub ghost count: { ℕ },
}

impl Model for Asks {
    ghost also_owns = { λ _. ftrue };
}

impl Asks {
    /// Not asked so far.
    pub fn none() -> Asks
        ensures { result.count ≡ 0 }
    {
        Asks {}
    }

    /// Asked once more than this.
    pub fn one_more(&self) -> Asks
        ensures { result.count ≡ self.now.count + 1 }
    {
        Asks {}
    }
}
