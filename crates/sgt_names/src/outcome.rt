//! How an engine ends.

ghost use Rattle.std.specs.Prelude.{◌≡◌};
ghost use Rattle.sgt_names.specs.declared.outcome.EngineFail.TheVariants.{Memory};

use std::alloc::AllocError;
use thiserror::Error;

/// Why an engine ended without an answer.
#[derive(Clone, Copy, Debug, PartialEq, Eq, Error)]
pub enum EngineFail {
    /// A growth was refused.
    #[error("memory")]
    Memory,
    /// The reader failed, or met the greatest number of reads.
    #[error("read fault")]
    ReadFault,
    /// The writer failed.
    #[error("write fault")]
    WriteFault,
}

impl From<AllocError> for EngineFail {
    ghost from_gives = { λ _ fail. fail ≡ Memory };

    fn from(_: AllocError) -> EngineFail {
        EngineFail::Memory
    }
}

/// What an engine answered, as far as an exit status tells it.
#[derive(Clone, Copy, Debug, PartialEq, Eq)]
pub enum Outcome {
    /// A yes, or the whole of what was asked for.
    Yes,
    /// A no, or not all of what was asked for was done.
    No,
    /// The input could not be read as what it should be.
    Unreadable,
}
