//! Rows of bits, one bit for each place of a window.

ghost use Rattle.std.specs.Prelude.{◌≡◌, ◌⊎◌, ℕ, ◌<◌, ◌/◌, length, IsTrue};
ghost use Rattle.sgt_order.specs.private.Rows.{HasBit, IsOpenRow};

use std::alloc::Global;

/// How many words a row has.
pub const WORDS: usize = 64;

// So few members are gone over without bits.
const FEW: usize = 16;

/// Which nodes the edges of a node lead to: the bit at a node's index is set if one does. It says nothing if it has
/// no words.
#[derive(Drop)]
pub struct Row {
    pub words: Vec<u64>,
}

/// Words for the bits of all nodes, none of which is set. There are none where few members are to be gone over, or
/// memory is refused.
#[tactic(auto, using(crate::proofs::Covering::bare_words, crate::proofs::Covering::zero_words))]
pub(crate) fn no_bits(alloc: Global, members: usize) -> Vec<u64>
    ensures { (i : ℕ) → HasBit result.items i → ⊥ }
{
    if members < FEW {
        return Vec::new(alloc);
    }
    match vec![in alloc; 0; WORDS] {
        Ok(words) => words,
        Err(_) => Vec::new(alloc),
    }
}

/// Sets the bit at a place, if the words reach so far.
pub(crate) fn set(words: &mut [u64], at: usize)
    ensures kept { (i : ℕ) → HasBit words.old i → HasBit words.new i }
    ensures set { at / 64 < length words.old → HasBit words.new at }
    ensures none { (i : ℕ) → HasBit words.new i → HasBit words.old i ⊎ (i ≡ at) }
{
    if at / 64 < words.len() {
        words[at / 64] |= 1 << (at % 64);
    }
}

/// Whether the others have each bit of these; no where there are not as many.
pub(crate) fn are_among(words: &[u64], others: &[u64]) -> bool
    ensures { IsTrue result → (i : ℕ) → HasBit words.now i → HasBit others.now i }
{
    if words.len() != others.len() {
        return false;
    }
    for at in 0..words.len() {
        if words[at] | others[at] != others[at] {
            return false;
        }
    }
    true
}

/// Sets a bit of a row. A row that can't have it has no words from then on.
pub(crate) fn add(row: &mut Row, at: usize)
    ensures kept { IsOpenRow row.new
        → IsOpenRow row.old
        × ((i : ℕ) → HasBit row.old.words.items i → HasBit row.new.words.items i) }
    ensures set { IsOpenRow row.new → HasBit row.new.words.items at }
{
    if at / 64 < row.words.len() {
        set(row.words.as_mut_slice(), at);
    } else {
        row.words.clear();
    }
}
