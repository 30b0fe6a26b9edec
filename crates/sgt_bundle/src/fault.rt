//! Why a line is no certificate.

ghost use Rattle.std.specs.Prelude.{◌≡◌};
ghost use Rattle.sgt_bundle.specs.declared.fault.CertFault.TheVariants.{Memory};

use std::alloc::AllocError;
use thiserror::Error;

/// Why no certificate is read from a line: K1 goes before K2 and K2 before K3, wherever in the line they stand.
#[derive(Clone, Copy, Debug, PartialEq, Eq, Error)]
pub enum CertFault {
    /// No JSON value is read from the line.
    #[error("K1: the line is no JSON value")]
    NotJson,
    /// In the value a member is missing, unknown or of another JSON type.
    #[error("K2: a member is missing, unknown or of another JSON type")]
    Shape,
    /// A number, a name or a kind is out of its range, or the line is not the compact text of a certificate.
    #[error("K3: a number, name or kind is out of its range, or the line is not the compact text")]
    Range,
    /// Out of memory: nothing is known of the line.
    #[error("K4: out of memory")]
    Memory,
}

impl From<AllocError> for CertFault {
    ghost from_gives = { λ _ e. e ≡ Memory };

    fn from(_: AllocError) -> CertFault {
        CertFault::Memory
    }
}
