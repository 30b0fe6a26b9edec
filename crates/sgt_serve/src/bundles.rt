//! Where bundles go.

ghost use Rattle.std.specs.Prelude.{◌≡◌, ◌<◌, ◌++◌, ◌∷◌, [], ℕ, Err};
ghost use Rattle.sgt_pipe.specs.Acts.{kept_by};
ghost use Rattle.sgt_pipe.specs.declared.handed.Handed.{Handed};

use sgt_pipe::KeepFault;

/// A place for bundles, which tells contracts what it was handed.
pub trait Bundles {
    // the bundles that it keeps, each with its number and its text, and what it answered each time
    ghost handed: { Self → Handed };
    // how many growths were refused to it
    ghost refusals: { Self → ℕ };

    /// Keeps the text of a bundle, whole, and tells the number that it stands under. Err: it is not kept. Memory is
    /// for a growth that was refused, and for nothing else; Refused for all else, as a device that failed.
    fn keep(&mut self, text: &[u8]) -> Result<u64, KeepFault>
        ensures handed { (handed self.new).items ≡ kept_by (handed self.old).items text.now result }
        ensures answers { (handed self.new).answers ≡ (handed self.old).answers ++ result ∷ [] }
        ensures memory { result ≡ Err KeepFault.Memory → refusals self.old < refusals self.new };
}
