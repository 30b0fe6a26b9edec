//! Why a site refuses a call.

use thiserror::Error;

/// Why a site refuses a call. What it refuses leaves it as it was.
#[derive(Clone, Copy, Debug, PartialEq, Eq, Error)]
pub enum SiteFault {
    /// The item isn't at this site.
    #[error("S1: no such item at this site")]
    UnknownItem,
    /// The transaction has read the item here.
    #[error("S2: the transaction has read the item already")]
    ReadTwice,
    /// The transaction has its end here.
    #[error("S3: the transaction has ended at this site")]
    Ended,
    /// A growth was refused.
    #[error("S4: out of memory")]
    Memory,
    /// No pledge of the transaction stands, or it is not for this draft.
    #[error("S5: no such pledge stands")]
    NotPledged,
    /// The names of the items don't rise, or there are more than 1,024.
    #[error("S6: the names of the items do not rise, or there are more than 1,024")]
    BadItems,
    /// A pledge stands.
    #[error("S7: a pledge stands")]
    PledgeOpen,
    /// The draft's reads here aren't the transaction's reads in the log.
    #[error("S8: the draft's reads are not those of the log")]
    DraftDiffers,
}
