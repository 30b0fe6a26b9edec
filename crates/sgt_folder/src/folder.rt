//! A folder of bundles, as the system has it.

ghost use Rattle.sgt_folder.specs.Call.{Call, link, make, remove, store, sync, unlink};

use crate::fault::FolderFault;

/// A folder: the names that are in it, and one new file that gets a name once it is stored. The bundle of number 7 is
/// under the name `00000007.sgt`. No call writes over what is there.
pub trait Folder {
    // holds of the folder, of what it is asked and answers, and of the folder behind that
    ghost gives: { Self → Call → Self → Type 0 } = { λ _ _ _. Unit {0} };

    /// The next of the names in the folder; none behind the last.
    fn next_name(&mut self) -> Result<Option<String>, FolderFault>;

    /// Makes a new file beside the name of this number: the file of this place there, which nobody has.
    fn make(&mut self, number: u64, at: u32) -> Result<(), FolderFault>
        ensures { gives self.old (make number at, result) self.new };

    /// Writes the text to the file that was made, all of it, and waits until it is stored.
    fn store(&mut self, text: &[u8]) -> Result<(), FolderFault>
        ensures { gives self.old (store text.now, result) self.new };

    /// Gives the file that was made the name of this number, which nothing has.
    fn link(&mut self, number: u64) -> Result<(), FolderFault>
        ensures { gives self.old (link number, result) self.new };

    /// Waits until the names of the folder are stored.
    fn sync(&mut self) -> Result<(), FolderFault>
        ensures { gives self.old (sync, result) self.new };

    /// Takes the name of this number away again.
    fn unlink(&mut self, number: u64) -> Result<(), FolderFault>
        ensures { gives self.old (unlink number, result) self.new };

    /// Takes away the file that was made beside it.
    fn remove(&mut self) -> Result<(), FolderFault>
        ensures { gives self.old (remove, result) self.new };
}
