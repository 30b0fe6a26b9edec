//! A folder, with what it was asked and what it answered.

ghost use Rattle.std.specs.Prelude.{◌≡◌, ◌++◌, ◌∷◌, [], Ok};
ghost use Rattle.sgt_folder.specs.Call.{make, store, link, sync, unlink, remove};
ghost use Rattle.sgt_folder.specs.Keeping.{Tells};

use crate::call::{Ask, Calls, FolderCall};
use crate::fault::FolderFault;
use crate::folder::Folder;

/// A folder and its calls. Each is noted here, so that none is left out and none is made up.
#[derive(Drop)]
pub struct Asked<F> {
    folder: F,
    calls: Calls,
}

impl<F: Folder> Asked<F> {
    /// The folder, which was asked nothing.
    pub(crate) fn new(folder: F) -> Asked<F>
        ensures { result.calls.items ≡ [] }
    {
        Asked {
            folder,
            calls: Calls::new(),
        }
    }

    /// The folder.
    pub(crate) fn folder(&self) -> &F
        ensures { result.now ≡ self.now.folder }
    {
        &self.folder
    }

    /// The folder again.
    pub(crate) fn into_folder(self) -> F
        ensures { result ≡ self.folder }
    {
        self.folder
    }

    /// The next name in the folder.
    pub(crate) fn next_name(&mut self) -> Result<Option<String>, FolderFault>
        ensures { Tells self.old.calls.items result self.new.calls.items }
    {
        let told = self.folder.next_name()?;
        if let Some(name) = &told {
            self.calls = self.calls.with(&FolderCall {
                ask: Ask::Name(name.as_str()),
                answer: Ok(()),
            });
        }
        Ok(told)
    }

    /// A new file beside the name of this number.
    pub(crate) fn make(&mut self, number: u64, at: u32) -> Result<(), FolderFault>
        ensures notes { self.new.calls.items ≡ self.old.calls.items ++ (make number at, result) ∷ [] }
        ensures asks { F.gives self.old.folder (make number at, result) self.new.folder }
    {
        let answer = self.folder.make(number, at);
        self.calls = self.calls.with(&FolderCall {
            ask: Ask::Make(number, at),
            answer,
        });
        answer
    }

    /// The text stored in it.
    pub(crate) fn store(&mut self, text: &[u8]) -> Result<(), FolderFault>
        ensures notes { self.new.calls.items ≡ self.old.calls.items ++ (store text.now, result) ∷ [] }
        ensures asks { F.gives self.old.folder (store text.now, result) self.new.folder }
    {
        let answer = self.folder.store(text);
        self.calls = self.calls.with(&FolderCall {
            ask: Ask::Store(text),
            answer,
        });
        answer
    }

    /// The name of this number for it.
    pub(crate) fn link(&mut self, number: u64) -> Result<(), FolderFault>
        ensures notes { self.new.calls.items ≡ self.old.calls.items ++ (link number, result) ∷ [] }
        ensures asks { F.gives self.old.folder (link number, result) self.new.folder }
    {
        let answer = self.folder.link(number);
        self.calls = self.calls.with(&FolderCall {
            ask: Ask::Link(number),
            answer,
        });
        answer
    }

    /// The folder's names stored.
    pub(crate) fn sync(&mut self) -> Result<(), FolderFault>
        ensures notes { self.new.calls.items ≡ self.old.calls.items ++ (sync, result) ∷ [] }
        ensures asks { F.gives self.old.folder (sync, result) self.new.folder }
    {
        let answer = self.folder.sync();
        self.calls = self.calls.with(&FolderCall {
            ask: Ask::Sync,
            answer,
        });
        answer
    }

    /// The name of this number taken away.
    pub(crate) fn unlink(&mut self, number: u64) -> Result<(), FolderFault>
        ensures notes { self.new.calls.items ≡ self.old.calls.items ++ (unlink number, result) ∷ [] }
        ensures asks { F.gives self.old.folder (unlink number, result) self.new.folder }
    {
        let answer = self.folder.unlink(number);
        self.calls = self.calls.with(&FolderCall {
            ask: Ask::Unlink(number),
            answer,
        });
        answer
    }

    /// The new file taken away.
    pub(crate) fn remove(&mut self) -> Result<(), FolderFault>
        ensures notes { self.new.calls.items ≡ self.old.calls.items ++ (remove, result) ∷ [] }
        ensures asks { F.gives self.old.folder (remove, result) self.new.folder }
    {
        let answer = self.folder.remove();
        self.calls = self.calls.with(&FolderCall {
            ask: Ask::Remove,
            answer,
        });
        answer
    }
}
