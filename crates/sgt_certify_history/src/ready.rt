//! A set of small numbers, of which the least is taken.

use std::alloc::{AllocError, Global};

/// How many numbers a word has, and words a bit of the level above.
const BITS: usize = 64;

/// More levels than any set of numbers of four bytes has.
const LEVELS: usize = 8;

/// Who is ready, by number. Each bit of a level says whether the word of its number in the level below has any; the
/// last level has one word.
#[derive(Drop)]
pub struct Ready {
    levels: Vec<Vec<u64>>,
}

/// The bit of the number in its word.
fn bit_of(number: usize) -> u64 {
    1 << (number % BITS)
}

impl Ready {
    /// None, of so many numbers.
    pub fn new(alloc: Global, many: usize) -> Result<Ready, AllocError> {
        let mut levels = Vec::new(alloc);
        let mut words = many;
        for _ in 0..LEVELS {
            words = words / BITS + 1;
            levels.push(vec![in alloc; 0u64; words]?)?;
            if words == 1 {
                break;
            }
        }
        Ok(Ready { levels })
    }

    /// The number is ready too.
    pub fn insert(&mut self, number: u32) {
        let mut at = number as usize;
        for level in self.levels.iter_mut() {
            if let Some(word) = level.get_mut(at / BITS) {
                let before = *word;
                *word = before | bit_of(at);
                if before != 0 {
                    return;
                }
            }
            at /= BITS;
        }
    }

    /// The number is ready no longer.
    fn remove(&mut self, number: usize) {
        let mut at = number;
        for level in self.levels.iter_mut() {
            if let Some(word) = level.get_mut(at / BITS) {
                *word &= !bit_of(at);
                if *word != 0 {
                    return;
                }
            }
            at /= BITS;
        }
    }

    /// The least number, if one is ready. It is so no longer.
    pub fn pop_first(&mut self) -> Option<u32> {
        let mut at: usize = 0;
        for level in self.levels.iter().rev() {
            let word = level.get(at)?;
            if *word == 0 {
                return None;
            }
            at = at
                .saturating_mul(BITS)
                .saturating_add(word.trailing_zeros() as usize);
        }
        self.remove(at);
        u32::try_from(at).ok()
    }
}
