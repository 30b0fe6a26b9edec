//! A block: places for 64 values, in one piece of memory, of which the first hold the values that were pushed.
ghost use Rattle.std.specs.Prelude.{◌≡◌, ◌+◌, ◌<◌, ◌≤◌, [], ◌∷◌, ◌++◌, length, IfOk, Some, slice_get, option_copied};
ghost use Rattle.std.specs.Borrow.{sem};
ghost use Rattle.sgt_arena.specs.Places.{block_places};

use crate::cells::{Base, Cells, Deed};
use crate::limits::BLOCK_PLACES;
use std::alloc::{AllocError, Global};
use std::marker::Model;
use std_alloc::room::may_hold;

/// A block. A clause sees its values. It is not `Drop`: `free` alone gives it up, once it holds none.
pub struct Block<T> {
    base: Base<T>,
    len: usize,
    cells: Cells<T>,
    deed: Deed<T, Global>,
    alloc: Global,
}

impl<T> Model for Block<T> {
    ghost use Rattle.std.specs.Prelude.{◌≡◌, ◌≤◌, List, length};
    ghost use Rattle.std.specs.Coded.{coded_list};

    ghost Value = { List T };

    ghost coded = { coded_list T.code };

    ghost use Rattle.sgt_arena.specs.Places.{somes};
    ghost use Rattle.sgt_arena.specs.Block.{IsBlock};

    ghost view = { λ b. somes b.cells.slots };

    ghost invariant = { λ b. IsBlock b };
}

impl<T> Block<T> {
    ghost use Rattle.sgt_arena.specs.BlockLends.{lends_item};

    /// Allocates an empty block.
    pub(crate) fn new(alloc: Global) -> Result<Self, AllocError>
        ensures { IfOk result (λ b. b ≡ []) }
    {
        if !may_hold::<T>(BLOCK_PLACES) {
            return Err(AllocError);
        }
        let (base, cells, deed) = Base::allocate(&alloc, BLOCK_PLACES)?;
        Ok(Block {
            base,
            len: 0,
            cells,
            deed,
            alloc,
        })
    }

    /// Writes a value into the first place that holds none.
    pub(crate) fn push(&mut self, value: T)
        requires { length self.old < block_places }
        ensures { self.new ≡ self.old ++ value ∷ [] }
    {
        self.cells.write(self.base, self.len, value);
        self.len += 1;
    }

    /// Borrows the value at an index, if there is one.
    pub(crate) fn get(&self, index: usize) -> Option<&T>
        ensures { option_copied result ≡ slice_get self.now index }
    {
        if index >= self.len {
            return None;
        }
        Some(self.cells.get(self.base, index))
    }

    /// Borrows a value for writing.
    pub(crate) fn get_mut(&mut self, index: usize) -> &mut T
        requires { index < length self.old }
        ensures* writes_back { sem 𝓛 (lends_item T.row self.entry index result) }
        ensures value { slice_get self.old index ≡ Some result.now }
    {
        let base = self.base;
        self.cells.get_mut(base, index)
    }

    /// Drops the values, from the first on.
    #[tactic(auto, using(crate::proofs::Places::first_held))]
    pub(crate) fn clear(&mut self)
    where
        T: Drop,
        ensures { self.new ≡ [] }
    {
        self.cells.drop_first(self.base, self.len);
        self.len = 0;
    }

    /// Frees a block that holds no value.
    pub(crate) fn free(self)
        requires { self ≡ [] }
    {
        let Block {
            base,
            len: _,
            cells,
            deed,
            alloc,
        } = self;
        Base::deallocate(&alloc, base, BLOCK_PLACES, cells, deed);
    }
}
