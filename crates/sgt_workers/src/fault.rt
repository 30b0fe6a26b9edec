//! Why a pool gives no Dones.

use std::alloc::AllocError;
use std::fmt::Display;
use thiserror::Error;

/// Why the pool itself gives no Dones.
#[derive(Clone, Copy, Debug, PartialEq, Eq, Error)]
pub enum PoolFault {
    /// A growth was refused.
    #[error("P1: out of memory")]
    Memory,
    /// The job of this number has no Done. No pool tells it.
    #[error("P2: job {0} was not run")]
    Unrun(u64),
    /// The job of this number has two Dones. No pool tells it.
    #[error("P3: job {0} was run twice")]
    Doubled(u64),
}

/// Why a pool gives no Dones: a fault of its work, else one of its own.
#[derive(Debug, Drop, Error)]
#[error_bound(E: Display)]
pub enum PoolFail<E> {
    /// A call of the work ended with this.
    #[error("{0}")]
    Work(E),
    #[error("{0}")]
    Pool(PoolFault),
}

impl<E> From<PoolFault> for PoolFail<E> {
    ghost use Rattle.std.specs.Prelude.{◌≡◌};
    ghost use Rattle.sgt_workers.specs.declared.fault.PoolFail.TheVariants.{Pool};

    ghost from_gives = { λ fault e. e ≡ Pool fault };

    fn from(fault: PoolFault) -> PoolFail<E> {
        PoolFail::Pool(fault)
    }
}

impl<E> From<AllocError> for PoolFail<E> {
    ghost use Rattle.std.specs.Prelude.{◌≡◌};
    ghost use Rattle.sgt_workers.specs.declared.fault.PoolFail.TheVariants.{Pool};
    ghost use Rattle.sgt_workers.specs.declared.fault.PoolFault.TheVariants.{Memory};

    ghost from_gives = { λ _ e. e ≡ Pool Memory };

    fn from(_refused: AllocError) -> PoolFail<E> {
        PoolFail::Pool(PoolFault::Memory)
    }
}
