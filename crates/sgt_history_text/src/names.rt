//! Texts by number.

ghost use Rattle.std.specs.Prelude.{◌≡◌, ◌==◌, ◌<◌, ◌≤◌, ◌-◌, take, drop, [], ◌∷◌, ◌++◌, OnOk, OnErr, Some, length, slice_get};
ghost use Rattle.sgt_history_text.specs.Pool.{begin_of};

use std::alloc::{AllocError, Global};
use std::marker::Model;

/// Texts, numbered from 0 and kept one behind another. Contracts see the list of them.
#[derive(Drop)]
pub struct Names {
    bytes: Vec<u8>,
    ends: Vec<usize>,
}

impl Model for Names {
    ghost use Rattle.std.specs.Prelude.{ℕ, List, length};
    ghost use Rattle.sgt_history_text.specs.Pool.{texts_from, RiseTo};

    ghost Value = { List (List ℕ) };

    ghost view = { λ a. texts_from 0 a.ends.items a.bytes.items };

    ghost invariant = { λ a. RiseTo (length a.bytes.items) 0 a.ends.items };
}

/// Where the text with this number begins.
#[inline]
fn begin(ends: &[usize], number: usize) -> usize
    requires { number < length ends.now }
    ensures { result ≡ begin_of ends.now number }
{
    if number == 0 { 0 } else { ends[number - 1] }
}

/// The bytes between these places.
#[inline]
fn part(bytes: &[u8], begin: usize, end: usize) -> &[u8]
    requires begin { begin ≤ end }
    requires end { end ≤ length bytes.now }
    ensures { result.now ≡ take (end - begin) (drop begin bytes.entry.now) }
{
    &bytes[begin..end]
}

impl Names {
    /// None yet.
    pub fn new(alloc: Global) -> Names
        ensures { result ≡ [] }
    {
        Names {
            bytes: Vec::new(alloc),
            ends: Vec::new(alloc),
        }
    }

    /// How many there are.
    #[inline]
    pub fn len(&self) -> usize
        ensures { result ≡ length self.now }
    {
        self.ends.len()
    }

    /// Whether there is none.
    pub fn is_empty(&self) -> bool
        ensures { result ≡ (length self.now == 0) }
    {
        self.ends.is_empty()
    }

    /// One more text, with the next number.
    #[inline]
    pub fn push(&mut self, text: &[u8]) -> Result<(), AllocError>
        ensures ok { OnOk result (self.new ≡ self.old ++ text.now ∷ []) }
        ensures err { OnErr result (self.new ≡ self.old) }
    {
        self.ends.reserve(1)?;
        self.bytes.extend_from_slice(text)?;
        self.ends.push_reserved(self.bytes.len());
        Ok(())
    }

    /// The text with this number.
    #[inline]
    pub fn get(&self, number: usize) -> &[u8]
        requires { number < length self.now }
        ensures { slice_get self.now number ≡ Some result.now }
    {
        let ends = self.ends.as_slice();
        let begin = begin(ends, number);
        part(self.bytes.as_slice(), begin, ends[number])
    }
}
