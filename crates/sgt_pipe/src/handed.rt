//! What a place of bundles was handed, and what it answered, for proofs alone.

ghost use Rattle.std.specs.Prelude.{◌≡◌, ℕ, List, [], ◌∷◌, ◌++◌, Result};
ghost use Rattle.std.specs.Borrow.{ftrue};
ghost use Rattle.sgt_pipe.specs.declared.handed.KeepFault.{KeepFault as AFault};

use std::marker::Model;
use thiserror::Error;

/// Why a place doesn't keep a bundle.
#[derive(Clone, Copy, Debug, PartialEq, Eq, Error)]
pub enum KeepFault {
    /// A growth was refused.
    #[error("memory")]
    Memory,
    /// The place can't keep it: a device of its own failed, or it may not.
    #[error("the bundle can't be kept")]
    Refused,
}

/// The bundles that a place keeps, each with its number and its text, and what it answered each time that it was
/// handed one. It takes no bytes, and is there for proofs alone: a place keeps one, and puts `with` in its place each
/// time.
#[derive(Drop)]
pub struct Handed {
    pub ghost items: { List (ℕ × List ℕ) },
    pub ghost answers: { List (Result ℕ AFault) },
}

impl Model for Handed {
    ghost also_owns = { λ _. ftrue };
}

/// A bundle that a place was handed: its text, and what the place answered.
#[derive(Clone, Copy, Drop)]
pub struct HandedBundle<'a> {
    pub text: &'a [u8],
    pub answer: Result<u64, KeepFault>,
}

impl Handed {
    ghost use Rattle.sgt_pipe.specs.Acts.{kept_by};

    /// No bundle so far.
    pub fn new() -> Handed
        ensures { (result.items ≡ []) × (result.answers ≡ []) }
    {
        Handed {}
    }

    /// This bundle behind them.
    #[inline(always)]
    pub fn with(&self, _bundle: &HandedBundle<'_>) -> Handed
        ensures { (result.items ≡ kept_by self.now.items _bundle.now.text.now _bundle.now.answer)
            × (result.answers ≡ self.now.answers ++ _bundle.now.answer ∷ []) }
    {
        Handed {}
    }
}
