//! An arena: the values of a window, in the order of placing.

use crate::block::Block;
use crate::fault::{ArenaFault, Refused};
use crate::handle::Handle;
use crate::limits::{BLOCK_PLACES, MAX_PLACES};
use std::alloc::Global;
use std::marker::Model;

/// The values of a window, placed one after another, at most `MAX_PLACES`, in blocks of 64 places each. A block is
/// allocated when its first place is asked for, and no value moves after it was placed. Closing the window drops them
/// all, frees the blocks and begins the next window.
pub struct Arena<T> {
    blocks: Vec<Block<T>>,
    len: usize,
    generation: u32,
}

impl<T> Model for Arena<T> {
    ghost use Rattle.std.specs.Prelude.{length, ◌-◌, ◌*◌};
    ghost use Rattle.sgt_arena.specs.Arena.{Arena as Window, arena_code};
    ghost use Rattle.sgt_arena.specs.Places.{block_places, joined};

    ghost Value = { Window T };

    ghost coded = { arena_code T.code };

    ghost use Rattle.sgt_arena.specs.Inside.{IsArena};

    ghost view = { λ a. record {
      generation = a.generation;
      items = joined a.blocks.items;
      room = block_places * length a.blocks.items - length (joined a.blocks.items);
    } };

    ghost invariant = { IsArena };
}

// Drops the values in the order of placing, and then frees each block.
impl<T: Drop> Drop for Arena<T> {
    fn drop(self) {
        let Arena {
            mut blocks,
            len: _,
            generation: _,
        } = self;
        drop_values(&mut blocks);
        free_blocks(&mut blocks);
        blocks.destroy_empty();
    }
}

impl<T> Arena<T> {
    ghost use Rattle.std.specs.Prelude.{◌≡◌, ◌==◌, ◌+◌, ◌<◌, ◌≤◌, ◌↔◌, [], ◌∷◌, ◌++◌, length, option_copied};
    ghost use Rattle.std.specs.Prelude.{IsErr, IsSome, IfOk, IfErr, OnOk, OnErr, Some, Err};
    ghost use Rattle.std.specs.Option.{option_copied_mut};
    ghost use Rattle.std.specs.Borrow.{sem};
    ghost use Rattle.sgt_arena.specs.Arena.{get, SameValues, Lacks, max_places, last_generation};
    ghost use Rattle.sgt_arena.specs.Lends.{lends_value, lends_get};

    /// An empty arena, in the window with the number 0. It takes no memory.
    pub fn new(alloc: Global) -> Self
        ensures empty { result.items ≡ [] }
        ensures first { result.generation ≡ 0 }
        ensures room { result.room ≡ 0 }
    {
        Arena::new_at(alloc, 0)
    }

    /// An empty arena, in the window with this number. It takes no memory.
    pub fn new_at(alloc: Global, generation: u32) -> Self
        ensures empty { result.items ≡ [] }
        ensures window { result.generation ≡ generation }
        ensures room { result.room ≡ 0 }
    {
        Arena {
            blocks: Vec::new(alloc),
            len: 0,
            generation,
        }
    }

    /// How many values it holds.
    pub fn len(&self) -> usize
        ensures is { result ≡ length self.now.items }
        ensures in_range { result ≤ max_places }
    {
        self.len
    }

    /// Whether it holds none.
    pub fn is_empty(&self) -> bool
        ensures { result ≡ (length self.now.items == 0) }
    {
        self.len == 0
    }

    /// The number of the present window.
    pub fn generation(&self) -> u32
        ensures { result ≡ self.now.generation }
    {
        self.generation
    }

    /// Makes room, so that as many more values can be placed without taking memory. It errs with G1 where the window
    /// would then hold more than `MAX_PLACES`, else with G2 where that room isn't there and memory is refused; after
    /// an Err the arena is as it was.
    pub fn reserve(&mut self, more: usize) -> Result<(), ArenaFault>
        ensures same { SameValues self.old self.new }
        ensures kept { self.old.room ≤ self.new.room }
        ensures ok { OnOk result
            ((more ≤ self.new.room) × (length self.old.items + more ≤ max_places)) }
        ensures err { OnErr result (self.new ≡ self.old) }
        ensures fault { IfErr result (Lacks self.old more) }
    {
        if more > MAX_PLACES - self.len {
            return Err(ArenaFault::Full);
        }
        let blocks = self.blocks.len();
        let wanted = (self.len + more).div_ceil(BLOCK_PLACES);
        if wanted <= blocks {
            return Ok(());
        }
        if self.blocks.reserve(wanted - blocks).is_err() {
            return Err(ArenaFault::Memory);
        }
        if !add_blocks(&mut self.blocks, wanted - blocks) {
            return Err(ArenaFault::Memory);
        }
        Ok(())
    }

    /// Places a value behind the others and gives its handle. It errs with G1 where the window is full, else with G2
    /// where no room is left and memory is refused; the Err hands the value back, and the arena is as it was. A call
    /// takes constant time but where it allocates a block.
    pub fn place(&mut self, value: T) -> Result<Handle, Refused<T>>
        ensures ok { OnOk result (self.new.items ≡ self.old.items ++ value ∷ []) }
        ensures handle { IfOk result
            (λ h. (h.index ≡ length self.old.items) × (h.generation ≡ self.old.generation)) }
        ensures window { self.new.generation ≡ self.old.generation }
        ensures room { self.old.room ≤ self.new.room + 1 }
        ensures err { OnErr result (self.new ≡ self.old) }
        ensures value_returned { IfErr result (λ refused. refused.value ≡ value) }
        ensures fits { OnOk result (length self.old.items < max_places) }
        ensures fault { IfErr result (λ refused. Lacks self.old 1 refused.fault) }
    {
        if let Err(fault) = self.reserve(1) {
            return Err(Refused { value, fault });
        }
        let index = self.len;
        let block = &mut self.blocks[index / BLOCK_PLACES];
        block.push(value);
        self.len = index + 1;
        Ok(Handle {
            index: index as u32,
            generation: self.generation,
        })
    }

    /// The value under a handle, where there is one in the present window. Constant time.
    pub fn get(&self, handle: Handle) -> Option<&T>
        ensures { option_copied result ≡ get self.now handle }
    {
        if handle.generation != self.generation {
            return None;
        }
        let index = handle.index as usize;
        let block = self.blocks.get(index / BLOCK_PLACES)?;
        block.get(index % BLOCK_PLACES)
    }

    /// The value under a handle, where there is one in the present window, for writing; no other value changes.
    /// Constant time.
    pub fn get_mut(&mut self, handle: Handle) -> Option<&mut T>
        ensures* writes_back { sem 𝓛 (lends_get T.row self.entry handle result) }
        ensures value { option_copied_mut result ≡ get self.old handle }
    {
        if self.get(handle).is_some() {
            Some(self.value_mut(handle))
        } else {
            None
        }
    }

    // The value under a handle that has one, for writing.
    fn value_mut(&mut self, handle: Handle) -> &mut T
        requires { IsSome (get self.old handle) }
        ensures* writes_back { sem 𝓛 (lends_value T.row self.entry handle result) }
        ensures value { get self.old handle ≡ Some result.now }
    {
        let index = handle.index as usize;
        let block = &mut self.blocks[index / BLOCK_PLACES];
        block.get_mut(index % BLOCK_PLACES)
    }

    /// Drops all values in the order of placing, frees the blocks and begins the next window, in which no handle that
    /// was given before shows anything. It errs with G3 in the window of the greatest number, 4,294,967,295, and the
    /// arena is then as it was.
    pub fn close(&mut self) -> Result<(), ArenaFault>
    where
        T: Drop,
        ensures ok { OnOk result
            ((self.new.items ≡ []) × (self.new.generation ≡ self.old.generation + 1)) }
        ensures room { OnOk result (self.new.room ≡ 0) }
        ensures last { IsErr result ↔ (self.old.generation ≡ last_generation) }
        ensures err { OnErr result (self.new ≡ self.old) }
        ensures fault { IfErr result (λ fault. fault ≡ ArenaFault.GenerationsSpent) }
    {
        if self.generation == u32::MAX {
            return Err(ArenaFault::GenerationsSpent);
        }
        drop_values(&mut self.blocks);
        free_blocks(&mut self.blocks);
        self.len = 0;
        self.generation += 1;
        Ok(())
    }
}

ghost use Rattle.std.specs.Prelude.{◌≡◌, ◌+◌, ◌≤◌, [], ◌++◌, length, replicate, if◌then◌else◌, vec_len, vec_capacity};
ghost use Rattle.sgt_arena.specs.Places.{AllEmpty};

// Allocates so many blocks, or none where memory is refused.
fn add_blocks<T>(blocks: &mut Vec<Block<T>>, more: usize) -> bool
    requires { vec_len blocks.old + more ≤ vec_capacity blocks.old }
    ensures { blocks.new.items
        ≡ (if result then blocks.old.items ++ replicate more [] else blocks.old.items) }
{
    if more == 0 {
        return true;
    }
    match Block::new(*blocks.allocator()) {
        Ok(block) => {
            blocks.push_reserved(block);
            if add_blocks(blocks, more - 1) {
                return true;
            }
            blocks.take_last().free();
            false
        }
        Err(_) => false,
    }
}

// Drops the values of all blocks, in their order.
fn drop_values<T: Drop>(blocks: &mut Vec<Block<T>>)
    ensures { AllEmpty blocks.new.items }
{
    let mut at = 0;
    while at < blocks.len() {
        let block = &mut blocks[at];
        block.clear();
        at += 1;
    }
}

// Frees all blocks, which hold no values.
fn free_blocks<T>(blocks: &mut Vec<Block<T>>)
    requires { AllEmpty blocks.old.items }
    ensures items { blocks.new.items ≡ [] }
    ensures len { vec_len blocks.new ≡ 0 }
{
    while !blocks.is_empty() {
        blocks.take_last().free();
    }
    blocks.shrink_to_fit();
}
