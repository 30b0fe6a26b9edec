//! A block of raw memory: a row of places, each of which holds a value or nothing yet. The six functions of this file
//! alone touch the pointer, and each of them has a proof by hand.
ghost use Rattle.std.specs.Prelude.{◌≡◌, ℕ, ◌<◌, List, ◌++◌, Option, Some, None, length, drop, replicate, get_or, slice_set};
ghost use Rattle.std.specs.Prelude.{IfOk, ⊤};
ghost use Rattle.std.specs.Borrow.{sem};
ghost use Rattle.std.specs.Vec.Ownership.{FitsInBlock};
ghost use base.Fml.{ftrue};
ghost use denote.RawPtr.{Ptr};
ghost use Rattle.sgt_arena.specs.Places.{IsFilled, HoldsFirst};
ghost use Rattle.sgt_arena.specs.Ownership.{cells_owned, cells_lent, deed_owned};

use std::alloc::{AllocError, Allocator};
use std::marker::{Model, PhantomData, Send, Sync};
use std::mem::{align_of, size_of};

/// Where the block begins. It owns nothing.
pub struct Base<T> {
    ptr: *mut T,
}

impl<T> Clone for Base<T> {
    ghost is_clone = { λ x y. y ≡ x };

    ghost is_infallible = { λ _. ⊤ };

    fn clone(&self) -> Result<Base<T>, AllocError> {
        Ok(*self)
    }
}

impl<T> Copy for Base<T> {}

unsafe impl<T> Send for Base<T> {}

unsafe impl<T> Sync for Base<T> {}

/// The owner of the places. It takes no space: the block holds the pointer.
pub struct Cells<T> {
    mark: PhantomData<*const T>,
    ghost at: { Ptr },
    ghost slots: { List (Option T) },
}

impl<T> Model for Cells<T> {
    ghost also_owns = { λ c. cells_owned T.row c.at c.slots };

    ghost also_shares = { λ c _ κ. cells_lent T.row c.at c.slots κ };
}

unsafe impl<T: Send> Send for Cells<T> {}

unsafe impl<T: Sync> Sync for Cells<T> {}

/// The right to give the block of `len` places at `at` back to `alloc`. It takes no space.
pub struct Deed<T, A: Allocator> {
    mark: PhantomData<*const (T, A)>,
    ghost at: { Ptr },
    ghost len: { ℕ },
    ghost alloc: { A },
}

impl<T, A: Allocator> Model for Deed<T, A> {
    ghost also_owns = { λ d. deed_owned T.row (A.dealloc_token d.alloc) d.at d.len };

    ghost also_shares = { λ _ _ _. ftrue };
}

unsafe impl<T, A: Allocator + Send> Send for Deed<T, A> {}

// A `&` to it holds nothing.
unsafe impl<T, A: Allocator> Sync for Deed<T, A> {}

impl<T> Base<T> {
    ghost use Rattle.sgt_arena.specs.EmptyBlock.{IsEmptyBlock};

    /// Allocates a block of `len` places, none of which holds a value.
    pub(crate) fn allocate<A: Allocator>(
        alloc: &A,
        len: usize,
    ) -> Result<(Base<T>, Cells<T>, Deed<T, A>), AllocError>
        requires { FitsInBlock T.row len }
        ensures { IfOk result (λ made. IsEmptyBlock made.0 made.1 made.2 len alloc.now) }
    {
        match alloc.allocate(len * size_of::<T>(), align_of::<T>()) {
            Ok(block) => {
                let base = Base {
                    ptr: block as *mut T,
                };
                Ok((
                    base,
                    Cells { mark: PhantomData },
                    Deed { mark: PhantomData },
                ))
            }
            Err(error) => Err(error),
        }
    }

    /// Frees a block whose places hold nothing.
    pub(crate) fn deallocate<A: Allocator>(
        alloc: &A,
        base: Base<T>,
        len: usize,
        cells: Cells<T>,
        deed: Deed<T, A>,
    )
        requires { IsEmptyBlock base cells deed len alloc.now }
    {
        let Cells { mark: _ } = cells;
        let Deed { mark: _ } = deed;
        unsafe {
            alloc.deallocate(base.ptr as *mut u8, len * size_of::<T>(), align_of::<T>());
        }
    }
}

impl<T> Cells<T> {
    ghost use Rattle.sgt_arena.specs.CellLends.{lends_slot};

    /// Writes a place that holds nothing.
    pub(crate) fn write(&mut self, base: Base<T>, index: usize, value: T)
        requires { (base.ptr ≡ self.old.at) × (index < length self.old.slots)
            × (get_or self.old.slots index None ≡ None) }
        ensures { (self.new.at ≡ self.old.at)
            × (self.new.slots ≡ slice_set self.old.slots index (Some value)) }
    {
        unsafe { base.ptr.add(index).write(value) }
    }

    /// Borrows the value of a place that holds one.
    pub(crate) fn get(&self, base: Base<T>, index: usize) -> &T
        requires { (base.ptr ≡ self.now.at) × IsFilled self.now.slots index }
        ensures { get_or self.now.slots index None ≡ Some result.now }
    {
        unsafe { &*base.ptr.add(index) }
    }

    /// Borrows the value of a place that holds one, for writing.
    pub(crate) fn get_mut(&mut self, base: Base<T>, index: usize) -> &mut T
        requires { (base.ptr ≡ self.old.at) × IsFilled self.old.slots index }
        ensures* writes_back { sem 𝓛 (lends_slot T.row self.entry index result) }
        ensures value { get_or self.old.slots index None ≡ Some result.now }
    {
        unsafe { &mut *base.ptr.add(index) }
    }

    /// Drops the values of the first `count` places, each of which holds one, from the first on.
    pub(crate) fn drop_first(&mut self, base: Base<T>, count: usize)
    where
        T: Drop,
        requires { (base.ptr ≡ self.old.at) × HoldsFirst self.old.slots count }
        ensures { (self.new.at ≡ self.old.at)
            × (self.new.slots ≡ replicate count None ++ drop count self.old.slots) }
    {
        let mut i = 0;
        while i < count {
            let _value = unsafe { base.ptr.add(i).read() };
            i += 1;
        }
    }
}
