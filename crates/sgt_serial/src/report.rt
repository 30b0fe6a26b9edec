//! What a serial run answers.

ghost use Rattle.std.specs.Prelude.{◌≡◌};
ghost use Rattle.sgt_serial.specs.declared.report.SerialFail.TheVariants.{Memory};

use sgt_names::{Change, Item, Listed, SiteNo, Tx, Value};
use std::alloc::{AllocError, AllocFailed};
use thiserror::Error;

/// A value of an item at a site: one that was read or left there.
#[derive(Clone, Copy, Debug, PartialEq, Eq)]
pub struct SiteValue {
    pub site: SiteNo,
    pub item: Item,
    pub value: Value,
}

/// What is done to an item at a site.
#[derive(Clone, Copy, Debug, PartialEq, Eq)]
pub struct SiteChange {
    pub site: SiteNo,
    pub item: Item,
    pub change: Change,
}

/// A transaction of the run: its reads by site and then in log order, and its writes and increments likewise.
#[derive(Drop)]
pub struct SerialTx {
    pub tx: Tx,
    pub reads: Listed<SiteValue>,
    pub writes: Listed<SiteChange>,
}

/// A serial run: its transactions in their order, and the values that they leave, by site and name.
#[derive(Drop)]
pub struct SerialReport {
    pub runs: Listed<SerialTx>,
    pub finals: Listed<SiteValue>,
}

/// Why there is no report of a serial run.
#[derive(Clone, Copy, Debug, PartialEq, Eq, Error)]
pub enum SerialFail {
    /// The first difference between the run and the record: in this transaction, or among the final values, at this
    /// item of this site.
    #[error("Z1: the serial run differs from the record")]
    Differs(Option<Tx>, SiteNo, Item),
    /// A growth was refused.
    #[error("Z2: memory")]
    Memory,
}

impl From<AllocError> for SerialFail {
    ghost from_gives = { λ _ e. e ≡ Memory };

    fn from(_: AllocError) -> SerialFail {
        SerialFail::Memory
    }
}

impl<T: Drop> From<AllocFailed<T>> for SerialFail {
    ghost from_gives = { λ _ e. e ≡ Memory };

    fn from(_: AllocFailed<T>) -> SerialFail {
        SerialFail::Memory
    }
}
