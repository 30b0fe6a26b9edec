//! What one transaction writes of each item.

ghost use Rattle.std.specs.Prelude.{◌≡◌, ◌⊎◌, ◌+◌, ℕ, List, Some, slice_get};
ghost use Rattle.sgt_history.specs.declared.history.Operation.{Operation};

use sgt_history::{Kind, Operation};

/// What the transaction of a line has written of an item so far: the last version, and the greatest.
#[derive(Clone, Copy, Debug, PartialEq, Eq)]
pub struct Mine {
    pub last: u64,
    pub greatest: u64,
    /// The line, from 1, of which this is said.
    pub stamp: u32,
}

/// How an operation stands to what its transaction wrote of the item before.
#[derive(Clone, Copy, Debug, PartialEq, Eq)]
pub enum Owned {
    /// It wrote nothing.
    Not,
    /// The operation follows the last that it wrote.
    Follows,
    /// It contradicts that.
    Contradicts,
}

impl Mine {
    ghost use Rattle.sgt_history_faults.specs.Mine.{IsMine, IsOwned};

    /// Takes up the next operation on the item, of the line with this stamp.
    #[inline]
    pub fn take_up(&mut self, operation: &Operation<u32, u32>, stamp: u32) -> Owned
        ensures stamp { (self.new.stamp ≡ self.old.stamp) ⊎ (self.new.stamp ≡ stamp) }
        ensures owned { (done : List (Operation ℕ ℕ)) (n : ℕ) → slice_get done n ≡ Some operation.now
            → IsMine stamp done n operation.now.item self.old
            → IsMine stamp done (n + 1) operation.now.item self.new × IsOwned done n operation.now result }
    {
        let version = operation.version;
        match operation.kind {
            Kind::Read => {
                if self.stamp != stamp {
                    Owned::Not
                } else if self.last == version {
                    Owned::Follows
                } else {
                    Owned::Contradicts
                }
            }
            Kind::Write => {
                if self.stamp != stamp {
                    *self = Mine {
                        last: version,
                        greatest: version,
                        stamp,
                    };
                    Owned::Not
                } else {
                    let before = self.last;
                    self.last = version;
                    if self.greatest < version {
                        self.greatest = version;
                    }
                    if before < version {
                        Owned::Follows
                    } else {
                        Owned::Contradicts
                    }
                }
            }
        }
    }
}
