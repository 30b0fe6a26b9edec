//! How many growths were refused, for proofs alone.

ghost use Rattle.std.specs.Prelude.{◌≡◌, ◌+◌};

use crate::handed::{Handed, HandedBundle, KeepFault};
use std::marker::Model;

/// How many growths were refused to who keeps it, which contracts see as a number. It takes no bytes, and is there for
/// proofs alone: who has no memory for something notes it, at once and once, and so can tell it.
#[derive(Drop)]
pub struct Refusals {
    // its answers, one for each growth
    noted: Handed,
}

impl Model for Refusals {
    ghost use Rattle.std.specs.Prelude.{ℕ, length};

    ghost Value = { ℕ };

    ghost view = { λ r. length r.noted.answers };
}

impl Refusals {
    /// None so far.
    pub fn new() -> Refusals
        ensures { result ≡ 0 }
    {
        Refusals {
            noted: Handed::new(),
        }
    }

    /// A growth was refused.
    #[inline(always)]
    pub fn note(&mut self)
        ensures { self.new ≡ self.old + 1 }
    {
        self.noted = self.noted.with(&HandedBundle {
            text: b"",
            answer: Err(KeepFault::Memory),
        });
    }
}
