//! How often each item of one site was installed.

ghost use Rattle.std.specs.Prelude.{◌≡◌, ◌≤◌, ◌↔◌, Some, slice_get, vec_len, IsTrue, OnOk, OnErr, IfOk, IfErr, IfSome};
ghost use Rattle.std.specs.List.{insert};
ghost use Rattle.std.specs.Ordering.{nat_cmp};
ghost use Rattle.std.specs.Cmp.Lexicographic.{slice_cmp};
ghost use Rattle.sgt_names.specs.Ordered.{IsAt, IsGapFor};
ghost use Rattle.sgt_certifier.specs.Row.{AreRising};
ghost use Rattle.sgt_certifier.specs.declared.row.ItemCount.{ItemCount as Member};

use sgt_names::Item;
use std::alloc::{AllocError, Global};
use std::cmp::Ordering;
use std::marker::Model;

/// An item of a site, and how often it was installed there.
#[derive(Clone, Copy)]
pub struct ItemCount {
    pub item: Item,
    pub count: u64,
}

/// The counts of a site. An item that has no place counts 0.
#[derive(Drop)]
pub struct Row {
    // by rising name
    counts: Vec<ItemCount>,
    // where the count of an item may stand, by a hash of its name
    hints: Vec<u16>,
}

// How many hints a row has, once it has a count.
const HINTS: usize = 2048;

impl Model for Row {
    ghost use Rattle.std.specs.Prelude.{List};
    ghost use Rattle.sgt_certifier.specs.declared.row.ItemCount.{ItemCount as Member};
    ghost use Rattle.sgt_certifier.specs.Row.{AreRising};

    ghost Value = { List Member };

    ghost view = { λ r. r.counts.items };

    ghost invariant = { λ r. AreRising r.counts.items };
}

impl Row {
    ghost use Rattle.std.specs.Prelude.{◌≡◌, ◌≢◌, ◌+◌, ◌<◌, ◌^◌, suc, [], Some, IsSome, OnOk, OnErr};
    ghost use Rattle.sgt_names.specs.Name.{Name};
    ghost use Rattle.sgt_certifier.specs.Row.{AreRising, found_in, count_in};

    /// No item has a place.
    pub fn new(alloc: Global) -> Row
        ensures { result ≡ [] }
    {
        Row {
            counts: Vec::new(alloc),
            hints: Vec::new(alloc),
        }
    }

    /// The items that have places, by rising name.
    pub fn as_slice(&self) -> &[ItemCount]
        ensures counts { result.now ≡ self.now }
        ensures rising { AreRising self.now }
    {
        self.counts.as_slice()
    }

    /// How often the item was installed.
    pub fn get(&self, item: Item) -> u64
        ensures { result ≡ count_in self.now item }
    {
        match find(self.counts.as_slice(), &self.hints, item) {
            Ok(at) => self.counts[at].count,
            Err(_) => 0,
        }
    }

    /// Makes a place for the item, if it has none.
    pub fn place(&mut self, item: Item) -> Result<(), AllocError>
        ensures same { (x : Name) → count_in self.new x ≡ count_in self.old x }
        ensures kept { (x : Name) → IsSome (found_in self.old x) → IsSome (found_in self.new x) }
        ensures ok { OnOk result (IsSome (found_in self.new item)) }
        ensures err { OnErr result (IsSome (found_in self.old item) → ⊥) }
    {
        match hinted(self.counts.as_slice(), &self.hints, &item) {
            Some(_) => Ok(()),
            None => self.place_unhinted(item),
        }
    }

    // The same, without a look at the hints. Then they tell where it is.
    fn place_unhinted(&mut self, item: Item) -> Result<(), AllocError>
        ensures same { (x : Name) → count_in self.new x ≡ count_in self.old x }
        ensures kept { (x : Name) → IsSome (found_in self.old x) → IsSome (found_in self.new x) }
        ensures ok { OnOk result (IsSome (found_in self.new item)) }
        ensures err { OnErr result (IsSome (found_in self.old item) → ⊥) }
    {
        match search(self.counts.as_slice(), item) {
            Ok(at) => {
                set_hint(&mut self.hints, &item, at);
                Ok(())
            }
            Err(at) => {
                set_hint(&mut self.hints, &item, at);
                place_at(&mut self.counts, at, item)
            }
        }
    }

    /// Counts an install of the item, which has a place.
    pub fn add(&mut self, item: Item)
        requires place { IsSome (found_in self.old item) }
        requires small { count_in self.old item + 1 < 2 ^ 64 }
        ensures here { found_in self.new item ≡ Some (suc (count_in self.old item)) }
        ensures others { (x : Name) → x ≢ item → found_in self.new x ≡ found_in self.old x }
    {
        match find(self.counts.as_slice(), &self.hints, item) {
            Ok(at) => {
                let counted = &mut self.counts[at];
                counted.count += 1;
            }
            Err(_) => unreachable!(),
        }
    }
}

// Puts a place for the item there.
fn place_at(counts: &mut Vec<ItemCount>, at: usize, item: Item) -> Result<(), AllocError>
    requires { at ≤ vec_len counts.old }
    ensures ok { OnOk result
        (counts.new.items ≡ insert counts.old.items at (record { item = item; count = 0 })) }
    ensures err { OnErr result (counts.new.items ≡ counts.old.items) }
{
    counts.reserve(1)?;
    let _ = counts.insert(at, ItemCount { item, count: 0 });
    Ok(())
}

// A number made of the bytes of a name.
fn key_of(name: &[u8]) -> u64 {
    match (name.first_chunk::<4>(), name.last_chunk::<4>()) {
        (Some(front), Some(back)) => {
            (u32::from_le_bytes(*front) as u64) << 32 | u32::from_le_bytes(*back) as u64
        }
        _ => name.iter().fold(0u64, |key, byte| key << 8 | *byte as u64),
    }
}

// Which of so many hints is the item's.
fn slot_of(item: &Item, slots: usize) -> usize {
    let spread = key_of(item.as_bytes()).wrapping_mul(0x9e37_79b9_7f4a_7c15);
    ((spread >> 32).wrapping_mul(slots as u64) >> 32) as usize
}

// The place that is hinted for an item.
fn hint_of(hints: &[u16], item: &Item) -> usize {
    match hints.get(slot_of(item, hints.len())) {
        Some(hint) => *hint as usize,
        None => 0,
    }
}

// Makes the hints of a row that has none. Where there is no memory for them, it goes on without.
fn open_hints(hints: &mut Vec<u16>) {
    if hints.is_empty() {
        let alloc = *hints.allocator();
        if let Ok(opened) = vec![in alloc; 0u16; HINTS] {
            *hints = opened;
        }
    }
}

// Hints this place for an item.
fn set_hint(hints: &mut Vec<u16>, item: &Item, place: usize) {
    open_hints(hints);
    let slot = slot_of(item, hints.len());
    if let Some(hint) = hints.as_mut_slice().get_mut(slot) {
        if let Ok(short) = u16::try_from(place) {
            *hint = short;
        }
    }
}

fn is_of(counted: &ItemCount, item: &Item) -> bool
    ensures { IsTrue result ↔ (counted.now.item ≡ item.now) }
{
    counted.item == *item
}

// Whether the item stands at this place.
fn is_at(counts: &[ItemCount], place: usize, item: &Item) -> bool
    ensures { IsTrue result
        → (c : Member) × (slice_get counts.now place ≡ Some c) × (c.item ≡ item.now) }
{
    match counts.get(place) {
        Some(counted) => is_of(counted, item),
        None => false,
    }
}

// Where the item stands by its hint, if it stands there.
fn hinted(counts: &[ItemCount], hints: &[u16], item: &Item) -> Option<usize>
    ensures { IfSome result (IsAt (λ c. c.item) counts.now item.now) }
{
    let hint = hint_of(hints, item);
    if is_at(counts, hint, item) {
        Some(hint)
    } else {
        None
    }
}

// Where the item stands, or where it would go. The hint is tried first.
fn find(counts: &[ItemCount], hints: &[u16], item: Item) -> Result<usize, usize>
    requires { AreRising counts.now }
    ensures found { IfOk result (IsAt (λ c. c.item) counts.now item) }
    ensures absent { IfErr result (IsGapFor (λ c. c.item) (slice_cmp nat_cmp) counts.now item) }
{
    match hinted(counts, hints, &item) {
        Some(at) => Ok(at),
        None => search(counts, item),
    }
}

// Where the item stands, or where it would go, by a binary search.
fn search(counts: &[ItemCount], item: Item) -> Result<usize, usize>
    requires { AreRising counts.now }
    ensures found { IfOk result (IsAt (λ c. c.item) counts.now item) }
    ensures absent { IfErr result (IsGapFor (λ c. c.item) (slice_cmp nat_cmp) counts.now item) }
{
    counts.binary_search_by(|c| order(c, &item))
}

fn order(counted: &ItemCount, item: &Item) -> Ordering
    ensures { result ≡ slice_cmp nat_cmp counted.now.item item.now }
{
    counted.item.cmp(item)
}
