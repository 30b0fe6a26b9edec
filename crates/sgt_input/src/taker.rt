//! What takes the lines of an input.

use std::alloc::AllocError;

/// What takes the lines of an input, one after another.
pub trait Taker {
    ghost use Rattle.std.specs.Prelude.{ℕ, List, IfOk};
    ghost use Rattle.sgt_input.specs.Taking.{TakesFront, TakesLine};

    /// An input may begin with these lines.
    ghost begins: { List (List ℕ) → Type 0 };

    /// It has taken these lines, and no others.
    ghost took: { Self → List (List ℕ) → Type 0 };

    /// Takes one line more, given without its LF, if an input may go on with it. Err: memory ran out.
    fn take(&mut self, line: &[u8]) -> Result<bool, AllocError>
        requires { (lines : List (List ℕ)) × begins lines × took self.old lines }
        ensures { (lines : List (List ℕ)) → begins lines → took self.old lines
            → IfOk result (TakesLine begins (took self.new) lines line.now) };

    /// Takes the line at the front of these bytes, if it has its LF there and an input may go on with it, and tells
    /// how many bytes both have. None says nothing of the bytes, and leaves the line to `take`. Err: memory ran out.
    fn take_front(&mut self, _held: &[u8]) -> Result<Option<usize>, AllocError>
        requires { (lines : List (List ℕ)) × begins lines × took self.old lines }
        ensures { (lines : List (List ℕ)) → begins lines → took self.old lines
            → IfOk result (TakesFront begins (took self.new) lines _held.now) }
    {
        Ok(None)
    }
}
