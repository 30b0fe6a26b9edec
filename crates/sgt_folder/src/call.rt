//! What a folder was asked, and what it answered, for proofs alone.

ghost use Rattle.std.specs.Prelude.{◌≡◌, List, []};
ghost use Rattle.std.specs.Borrow.{ftrue};
ghost use Rattle.sgt_folder.specs.Call.{Call};

use crate::fault::FolderFault;
use std::marker::Model;

/// What a folder is asked.
#[derive(Clone, Copy, Drop)]
pub enum Ask<'a> {
    /// A new file beside the name of this number, in this place there.
    Make(u64, u32),
    /// To store this text in it.
    Store(&'a [u8]),
    /// The name of this number for it.
    Link(u64),
    /// To store the folder's names.
    Sync,
    /// To take the name of this number away.
    Unlink(u64),
    /// To take the new file away.
    Remove,
    /// The next name in the folder, which was this one.
    Name(&'a str),
}

/// What a folder was asked, and what it answered.
#[derive(Clone, Copy, Drop)]
pub struct FolderCall<'a> {
    pub ask: Ask<'a>,
    pub answer: Result<(), FolderFault>,
}

/// The calls of a folder, in order. It takes no bytes, and is there for proofs alone.
#[derive(Drop)]
pub struct Calls {
    pub ghost items: { List Call },
}

impl Model for Calls {
    ghost also_owns = { λ _. ftrue };
}

impl Calls {
    ghost use Rattle.sgt_folder.specs.Asked.{called};

    /// No call so far.
    pub(crate) fn new() -> Calls
        ensures { result.items ≡ [] }
    {
        Calls {}
    }

    /// This call behind them.
    #[inline(always)]
    pub(crate) fn with(&self, _call: &FolderCall<'_>) -> Calls
        ensures { result.items ≡ called self.now.items _call.now }
    {
        Calls {}
    }
}
