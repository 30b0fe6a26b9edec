//! Where the names of items stand among one another: numbers before strings, by value or by bytes. Which of several
//! steps is told rests on it, and nothing else.

ghost use Rattle.std.specs.Prelude.{◌≡◌, ◌<◌, ◌≤◌, All, IfOk, length, slice_set};
ghost use Rattle.std.specs.List.Sorted.{IsPermutation};
ghost use Rattle.sgt_check.specs.Key.{ArePlaced, AreRising, HasEach, IsRanked};
ghost use Rattle.sgt_check.specs.Rank.{AreRanks};

use crate::key::{Key, key_of};
use sgt_history_text::Names;
use std::alloc::{AllocError, Global};

/// The number of a name, by what this sorts.
#[derive(PartialEq, Eq, PartialOrd, Ord, Drop)]
struct Ranked {
    key: Key,
    number: usize,
}

/// The numbers of the names, with what these sort by.
fn with_keys(alloc: Global, names: &Names) -> Result<Vec<Ranked>, AllocError>
    ensures are { IfOk result (λ ranked. All (IsRanked names.now) ranked.items) }
    ensures each { IfOk result (λ ranked. HasEach ranked.items (length names.now)) }
{
    let mut ranked = Vec::new(alloc);
    for number in 0..names.len() {
        let key = key_of(alloc, names.get(number))?;
        ranked.push(Ranked { key, number })?;
    }
    Ok(ranked)
}

/// The place of this number, if it is one of those that have places.
fn set_place(places: &mut Vec<u32>, number: usize, place: u32)
    ensures within { number < length places.old.items
        → places.new.items ≡ slice_set places.old.items number place }
    ensures past { length places.old.items ≤ number → places.new.items ≡ places.old.items }
{
    if number < places.len() {
        places[number] = place;
    }
}

/// Of each number below the count the place of the one that has it.
fn places(alloc: Global, ranked: &[Ranked], count: usize) -> Result<Vec<u32>, AllocError>
    ensures { IfOk result (λ ranks. ArePlaced ranked.now ranks.items count (length ranked.now)) }
{
    let mut places = vec![in alloc; 0u32; count]?;
    for (at, one) in ranked.iter().enumerate() {
        let Ok(place) = u32::try_from(at) else {
            return Err(AllocError);
        };
        set_place(&mut places, one.number, place);
    }
    Ok(places)
}

/// Puts them in the order of their keys.
fn sort_slice(ranked: &mut [Ranked])
    ensures permutation { IsPermutation ranked.old ranked.new }
    ensures rising { AreRising ranked.new }
{
    ranked.sort_unstable();
}

/// Puts them in the order of their keys.
fn sort(ranked: &mut Vec<Ranked>)
    ensures permutation { IsPermutation ranked.old.items ranked.new.items }
    ensures rising { AreRising ranked.new.items }
{
    sort_slice(ranked.as_mut_slice());
}

/// Of each name how many stand before it.
pub fn ranks_of(alloc: Global, names: &Names) -> Result<Vec<u32>, AllocError>
    ensures { IfOk result (λ ranks. AreRanks names.now ranks.items) }
{
    let mut ranked = with_keys(alloc, names)?;
    sort(&mut ranked);
    places(alloc, ranked.as_slice(), names.len())
}
