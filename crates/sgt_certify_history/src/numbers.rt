//! The places of the transactions by their numbers.

use crate::lists::{number_at, set_number};
use std::alloc::{AllocError, Global};
use std::collections::BTreeMap;

/// The transactions that were met, by number: small numbers in a table, the others in a map.
#[derive(Drop)]
pub struct Numbers {
    /// The numbers from this one on stand in the map.
    bound: usize,
    /// At each number one more than the place of its transaction, or 0.
    small: Vec<u32>,
    great: BTreeMap<u32, u32>,
}

impl Numbers {
    /// None so far. The table gets no longer than the bound.
    pub fn new(alloc: Global, bound: usize) -> Numbers {
        Numbers {
            bound,
            small: Vec::new(alloc),
            great: BTreeMap::new(alloc),
        }
    }

    /// The place of the transaction of this number, if it was met.
    pub fn place(&self, number: u32) -> Option<u32> {
        let at = number as usize;
        if at < self.bound {
            match number_at(self.small.as_slice(), at) {
                0 => None,
                next => Some(next - 1),
            }
        } else {
            self.great.get(&number).copied()
        }
    }

    /// The transaction of this number has this place.
    pub fn insert(&mut self, number: u32, place: u32) -> Result<(), AllocError> {
        let at = number as usize;
        if at >= self.bound {
            self.great.insert(number, place)?;
            return Ok(());
        }
        if at >= self.small.len() {
            self.small.resize(at.saturating_add(1), 0)?;
        }
        set_number(self.small.as_mut_slice(), at, place.saturating_add(1));
        Ok(())
    }

    /// The places by rising number.
    pub fn places(&self, alloc: Global) -> Result<Vec<u32>, AllocError> {
        let mut places = Vec::new(alloc);
        for next in self.small.as_slice() {
            if *next > 0 {
                places.push(*next - 1)?;
            }
        }
        for place in self.great.values() {
            places.push(*place)?;
        }
        Ok(places)
    }
}
