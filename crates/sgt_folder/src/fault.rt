//! Why a folder doesn't do what it is asked.

ghost use Rattle.std.specs.Prelude.{◌≡◌, ◌↔◌, IsTrue};
ghost use Rattle.sgt_folder.specs.declared.fault.FolderFault.TheVariants.{Taken};

use thiserror::Error;

/// Why a folder doesn't do what it is asked.
#[derive(Clone, Copy, Debug, PartialEq, Eq, Error)]
pub enum FolderFault {
    /// A growth was refused.
    #[error("memory")]
    Memory,
    /// Something has the name that was to be given.
    #[error("the name is taken")]
    Taken,
    /// Each number that a name has room for is used up.
    #[error("its numbers are used up")]
    UsedUp,
    /// A device failed, or the system forbids it.
    #[error("the folder refuses it")]
    Refused,
}

impl FolderFault {
    /// Whether something has the name.
    pub(crate) fn is_taken(self) -> bool
        ensures { IsTrue result ↔ (self ≡ Taken) }
    {
        match self {
            FolderFault::Taken => true,
            FolderFault::Memory | FolderFault::UsedUp | FolderFault::Refused => false,
        }
    }
}
