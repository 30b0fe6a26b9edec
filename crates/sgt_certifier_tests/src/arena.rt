//! The arena: that its calls succeed, its limits, and how often and in which order values are dropped.

use crate::common::handle;
use sgt_arena::{Arena, ArenaFault, MAX_PLACES};
use std::alloc::Global;
use std::sync::atomic::{AtomicU64, Ordering};
use std::test::Fail;

#[test]
fn values_and_windows(rt: HostRuntime) -> Result<(), Fail> {
    let mut arena = Arena::new_at(rt.alloc(), 4_294_967_294);
    let old = arena.place(7u32).unwrap_or_default();
    if let Some(value) = arena.get_mut(old) {
        *value = 9;
    }
    assert!(rt; old == handle(0, 4_294_967_294) && arena.get(old).copied() == Some(9));
    assert!(rt; arena.close().is_ok() && arena.is_empty());
    assert!(rt; arena.get(old).is_none());
    assert!(rt; arena.reserve(4097) == Err(ArenaFault::Full) && MAX_PLACES == 4096);
    assert!(rt; arena.reserve(4096).is_ok());
    let mut placed = 0u32;
    for number in 0..4097u32 {
        if arena.place(number).is_ok() {
            placed = number + 1;
        }
    }
    assert!(rt; placed == 4096 && arena.reserve(1) == Err(ArenaFault::Full));
    assert!(rt; arena.close() == Err(ArenaFault::GenerationsSpent));
    assert!(rt; arena.len() == 4096 && arena.generation() == 4_294_967_295);
    assert!(rt; arena.get(handle(8, 4_294_967_295)).copied() == Some(8));
    Ok(())
}

// How many of them were dropped, each of them behind those of a smaller number; 10,000 once that isn't so.
struct Numbered<'a> {
    number: u64,
    drops: &'a AtomicU64,
}

impl Drop for Numbered<'_> {
    fn drop(self) {
        let Self { number, drops } = self;
        let next = if drops.load(Ordering::SeqCst) == number {
            number.wrapping_add(1)
        } else {
            10_000
        };
        drops.store(next, Ordering::SeqCst);
    }
}

// So many values are placed and the window is closed, if it is to be: how many were placed, and how many dropped by
// then.
fn dropped_by_a_close(alloc: Global, size: u64, closes: bool, drops: &AtomicU64) -> (u64, u64) {
    let mut arena = Arena::new(alloc);
    for number in 0..size {
        let _ = arena.place(Numbered { number, drops }).is_ok();
    }
    let placed = arena.len() as u64;
    if closes {
        let _ = arena.close().is_ok();
    }
    (placed, drops.load(Ordering::SeqCst))
}

#[test]
fn each_value_is_dropped_once_in_order(rt: HostRuntime) {
    for size in [0, 1, 64, 65, 4096] {
        for closes in [true, false] {
            let drops = AtomicU64::new(0);
            let dropped = dropped_by_a_close(rt.alloc(), size, closes, &drops);
            assert!(rt; dropped == (size, if closes { size } else { 0 }), "{size}");
            assert!(rt; drops.load(Ordering::SeqCst) == size, "{size}");
        }
    }
}
