//! Why a talk was not served to its end.

ghost use Rattle.std.specs.Prelude.{◌≡◌};
ghost use Rattle.sgt_serve.specs.declared.fail.ServeFail.TheVariants.{Memory};

use crate::last::Last;
use std::alloc::AllocError;
use thiserror::Error;

/// Why a talk was not answered to its end, or its last bundle is not kept.
#[derive(Clone, Copy, Debug, PartialEq, Eq, Error)]
pub enum ServeFail {
    /// A growth was refused.
    #[error("memory")]
    Memory,
    /// The reader failed, or met the greatest number of reads; and what became of the last bundle.
    #[error("read fault")]
    ReadFault(Last),
    /// The writer failed; and what became of the last bundle.
    #[error("write fault")]
    WriteFault(Last),
    /// The place refused the last bundle.
    #[error("bundle fault")]
    BundleFault,
}

impl From<AllocError> for ServeFail {
    ghost from_gives = { λ _ fail. fail ≡ Memory };

    fn from(_: AllocError) -> ServeFail {
        ServeFail::Memory
    }
}
