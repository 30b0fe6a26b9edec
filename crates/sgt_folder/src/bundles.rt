//! The bundles of a folder.

ghost use Rattle.std.specs.Prelude.{◌≡◌, ◌+◌, ◌<◌, ◌≤◌, ◌++◌, ◌∷◌, [], IfOk, List, ℕ, Err, OnOk, OnErr};
ghost use Rattle.sgt_folder.specs.Call.{Call};
ghost use Rattle.sgt_folder.specs.Keeping.{Keeps, Makes, Names, Opens, refusals_of, telling};
ghost use Rattle.sgt_folder.specs.Name.{IsGreatest};
ghost use Rattle.sgt_folder.specs.declared.fault.FolderFault.TheVariants.{Memory, UsedUp};

use crate::asked::Asked;
use crate::fault::FolderFault;
use crate::folder::Folder;
use crate::name::number_of;

/// The greatest number that a bundle's name has room for.
pub const MOST: u64 = 99_999_999;

// How many names beside a bundle's are tried. A kill leaves one behind, and another server may have one.
const BESIDE: u32 = 1_000;

// The greatest number of a bundle, where this name comes behind those of which the last number is the greatest.
fn behind(last: u64, name: &str) -> u64
    ensures { (names : List (List ℕ)) → IsGreatest names last → IsGreatest (names ++ name.now ∷ []) result }
{
    match number_of(name) {
        Some(number) => number.max(last),
        None => last,
    }
}

// The greatest number of a bundle in the folder.
fn greatest<F: Folder>(asked: &mut Asked<F>) -> Result<u64, FolderFault>
    ensures { IfOk result (λ number. (names : List (List ℕ)) × IsGreatest names number
        × (asked.new.calls.items ≡ asked.old.calls.items ++ telling names)) }
{
    let mut last = 0;
    'names: for _ in 0..u64::MAX {
        match asked.next_name()? {
            Some(name) => last = behind(last, name.as_str()),
            None => return Ok(last),
        }
    }
    Err(FolderFault::Refused)
}

// A new file beside the name of this number. It is nobody else's: what stands there is never opened.
fn make_beside<F: Folder>(asked: &mut Asked<F>, number: u64) -> Result<(), FolderFault>
    ensures { (calls : List Call) × Makes number calls result
        × (asked.new.calls.items ≡ asked.old.calls.items ++ calls) }
{
    for at in 0..BESIDE {
        match asked.make(number, at) {
            Ok(()) => return Ok(()),
            Err(fault) => {
                if fault.is_taken() {
                    continue;
                }
                return Err(fault);
            }
        }
    }
    Err(FolderFault::Taken)
}

// Stores the text in the new file, and gives it the name of the number, which nobody may have.
fn name_stored<F: Folder>(asked: &mut Asked<F>, number: u64, text: &[u8]) -> Result<(), FolderFault>
    ensures { (calls : List Call) × Names number text.now calls result
        × (asked.new.calls.items ≡ asked.old.calls.items ++ calls) }
{
    asked.store(text)?;
    asked.link(number)?;
    match asked.sync() {
        Ok(()) => Ok(()),
        Err(fault) => {
            let _ = asked.unlink(number);
            Err(fault)
        }
    }
}

// Keeps the text under this number.
fn keep_under<F: Folder>(asked: &mut Asked<F>, number: u64, text: &[u8]) -> Result<u64, FolderFault>
    ensures { (calls : List Call) × Keeps number text.now calls result
        × (asked.new.calls.items ≡ asked.old.calls.items ++ calls) }
{
    make_beside(asked, number)?;
    let named = name_stored(asked, number, text);
    let _ = asked.remove();
    match named {
        Ok(()) => Ok(number),
        Err(fault) => Err(fault),
    }
}

/// A folder that keeps each bundle as a file of its own, whose name has the number. No file is ever written over.
#[derive(Drop)]
pub struct FolderBundles<F> {
    asked: Asked<F>,
    last: u64,
}

impl<F: Folder> FolderBundles<F> {
    /// The folder, of which nothing is known: nothing is kept in it before `open`.
    pub fn new(folder: F) -> FolderBundles<F>
        ensures called { result.asked.calls.items ≡ [] }
        ensures closed { result.last ≡ MOST }
    {
        FolderBundles {
            asked: Asked::new(folder),
            last: MOST,
        }
    }

    /// The folder can be written and has a number left. The next number is the one behind the greatest in it.
    pub fn open(&mut self) -> Result<(), FolderFault>
        ensures opens { OnOk result ((calls : List Call) × Opens calls self.new.last
            × (self.new.asked.calls.items ≡ self.old.asked.calls.items ++ calls)) }
        ensures room { OnOk result (self.new.last < MOST) }
        ensures same { OnErr result (self.new.last ≡ self.old.last) }
    {
        let last = greatest(&mut self.asked)?;
        if last >= MOST {
            return Err(FolderFault::UsedUp);
        }
        make_beside(&mut self.asked, last + 1)?;
        self.asked.remove()?;
        self.last = last;
        Ok(())
    }

    /// The folder.
    pub fn folder(&self) -> &F
        ensures { result.now ≡ self.now.asked.folder }
    {
        self.asked.folder()
    }

    /// The folder again.
    pub fn into_folder(self) -> F
        ensures { result ≡ self.asked.folder }
    {
        self.asked.into_folder()
    }

    /// Keeps the text under the next number: stored, then named, and the name stored, before the number is told.
    pub fn keep(&mut self, text: &[u8]) -> Result<u64, FolderFault>
        ensures keeps { self.old.last < MOST → (calls : List Call)
            × Keeps (self.old.last + 1) text.now calls result
            × (self.new.asked.calls.items ≡ self.old.asked.calls.items ++ calls) }
        ensures used_up { MOST ≤ self.old.last
            → (result ≡ Err UsedUp) × (self.new.asked.calls.items ≡ self.old.asked.calls.items) }
        ensures next { IfOk result (λ number. (number ≡ self.old.last + 1) × (self.new.last ≡ number)) }
        ensures same { OnErr result (self.new.last ≡ self.old.last) }
        ensures memory { result ≡ Err Memory
            → refusals_of self.old.asked.calls.items < refusals_of self.new.asked.calls.items }
    {
        if self.last >= MOST {
            return Err(FolderFault::UsedUp);
        }
        let number = self.last + 1;
        let kept = keep_under(&mut self.asked, number, text);
        if kept.is_ok() {
            self.last = number;
        }
        kept
    }
}
