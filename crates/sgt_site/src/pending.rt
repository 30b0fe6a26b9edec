//! The reads of transactions that have no end yet.

ghost use Rattle.std.specs.Prelude.{◌≡◌, ◌≢◌, ◌⊎◌, ◌↔◌, ℕ, [], ◌∷◌, ◌++◌, List, Some, None, slice_get, IsTrue, OnOk, OnErr};
ghost use Rattle.std.specs.BTreeMap.{get};
ghost use Rattle.std.specs.Ordering.{nat_cmp};
ghost use Rattle.sgt_names.specs.Name.{Name};
ghost use Rattle.sgt_site.specs.declared.pending.Slot.{Slot as ASlot};
ghost use Rattle.sgt_site.specs.private.Pending.{in_slot, or_nothing, place, MayHold};

use sgt_names::{Item, Tx};
use std::alloc::{AllocError, Global};
use std::collections::BTreeMap;

/// The items that each such transaction has read, in the order of its reads.
#[derive(Drop)]
pub(crate) struct Pending {
    alloc: Global,
    // the reads of a transaction at its own place, if no other has it
    slots: Vec<Slot>,
    // the reads of those that found it taken
    reads: BTreeMap<Tx, Vec<Item>>,
}

/// The reads of one transaction, or none. Their room is used again.
#[derive(Drop)]
pub(crate) struct Slot {
    // the number of the transaction
    tx: u32,
    items: Vec<Item>,
}

// How many slots there are, if memory is had.
const SLOTS: usize = 64;

impl Pending {
    ghost use Rattle.std.specs.Prelude.{◌≡◌, ◌≢◌, ℕ, [], ◌∷◌, ◌++◌, List, OnOk, OnErr};
    ghost use Rattle.sgt_names.specs.Name.{Name};
    ghost use Rattle.sgt_site.specs.private.Pending.{items_by, AddsRead, AreSame};

    /// Nothing was read.
    pub(crate) fn new(alloc: Global) -> Pending
        ensures { (tx : ℕ) → items_by result tx ≡ [] }
    {
        Pending {
            alloc,
            slots: empty_slots(alloc),
            reads: BTreeMap::new(alloc),
        }
    }

    /// Adds a read. A search of the transactions at most.
    pub(crate) fn add(&mut self, tx: Tx, item: Item) -> Result<(), AllocError>
        ensures ok { OnOk result (AddsRead self.old self.new tx item) }
        ensures err { OnErr result (AreSame self.old self.new) }
    {
        let at = place_of(tx);
        if may_add(self.slots.as_slice(), at, tx, self.reads.is_empty()) {
            add_at(&mut self.slots, at, tx, item)
        } else {
            add_other(self.alloc, &mut self.reads, tx, item)
        }
    }

    /// Takes the transaction's last read back. A search of the transactions at most.
    #[inline(never)]
    pub(crate) fn take_back(&mut self, tx: Tx)
        ensures own { (items : List Name) (item : Name) → items_by self.old tx ≡ items ++ item ∷ []
            → items_by self.new tx ≡ items }
        ensures others { (t : ℕ) → t ≢ tx → items_by self.new t ≡ items_by self.old t }
    {
        let at = place_of(tx);
        if items_at(self.slots.as_slice(), at, tx).is_empty() {
            take_other(&mut self.reads, tx);
        } else {
            take_at(&mut self.slots, at, tx);
            remove(&mut self.reads, tx);
        }
    }

    /// The items that the transaction has read. A search of the transactions at most.
    pub(crate) fn items_of(&self, tx: Tx) -> &[Item]
        ensures { result.now ≡ items_by self.now tx }
    {
        let own = items_at(self.slots.as_slice(), place_of(tx), tx);
        if own.is_empty() {
            other_items(&self.reads, tx)
        } else {
            own
        }
    }

    /// Drops the reads of a transaction. A search of the transactions at most.
    pub(crate) fn drop_reads(&mut self, tx: Tx)
        ensures own { items_by self.new tx ≡ [] }
        ensures others { (t : ℕ) → t ≢ tx → items_by self.new t ≡ items_by self.old t }
    {
        clear_at(&mut self.slots, place_of(tx), tx);
        remove(&mut self.reads, tx);
    }
}

// The place of a transaction among the slots.
#[inline(always)]
fn place_of(tx: Tx) -> usize
    ensures { result ≡ place tx }
{
    tx.number() as usize % SLOTS
}

// Slots without reads. There are fewer where memory is refused.
fn empty_slots(alloc: Global) -> Vec<Slot>
    ensures { (n : ℕ) (s : ASlot) → slice_get result.items n ≡ Some s → s.items.items ≡ [] }
{
    let mut slots = Vec::new(alloc);
    for _slot in 0..SLOTS {
        let slot = Slot {
            tx: 0,
            items: Vec::new(alloc),
        };
        if slots.push(slot).is_err() {
            return slots;
        }
    }
    slots
}

// The transaction's reads at this place.
#[inline(always)]
fn items_at(slots: &[Slot], at: usize, tx: Tx) -> &[Item]
    ensures { result.now ≡ in_slot (slice_get slots.now at) tx }
{
    match slots.get(at) {
        Some(slot) if slot.tx == tx.number() => slot.items.as_slice(),
        _ => &[],
    }
}

// Whether the transaction's read is to be kept at this place: it has reads there, or nobody has and it has none
// elsewhere.
#[inline(always)]
fn may_add(slots: &[Slot], at: usize, tx: Tx, free: bool) -> bool
    ensures may { IsTrue result
        → (s : ASlot) × (slice_get slots.now at ≡ Some s) × MayHold s tx }
    ensures free { IsTrue result → in_slot (slice_get slots.now at) tx ≡ [] → IsTrue free }
    ensures not { IsTrue result ⊎ (in_slot (slice_get slots.now at) tx ≡ []) }
{
    match slots.get(at) {
        Some(slot) => may_hold(slot, tx, free),
        None => false,
    }
}

#[inline(always)]
fn may_hold(slot: &Slot, tx: Tx, free: bool) -> bool
    ensures may { IsTrue result → MayHold slot.now tx }
    ensures free { IsTrue result → in_slot (Some slot.now) tx ≡ [] → IsTrue free }
    ensures not { IsTrue result ⊎ (in_slot (Some slot.now) tx ≡ []) }
{
    if is_free(slot) { free } else { is_of(slot, tx) }
}

#[inline(always)]
fn is_free(slot: &Slot) -> bool
    ensures { IsTrue result ↔ (slot.now.items.items ≡ []) }
{
    slot.items.as_slice().is_empty()
}

#[inline(always)]
fn is_of(slot: &Slot, tx: Tx) -> bool
    ensures { IsTrue result ↔ (slot.now.tx ≡ tx) }
{
    slot.tx == tx.number()
}

#[inline(always)]
fn add_at(slots: &mut Vec<Slot>, at: usize, tx: Tx, item: Item) -> Result<(), AllocError>
    requires { (s : ASlot) × (slice_get slots.old.items at ≡ Some s) × MayHold s tx }
    ensures ok { OnOk result
        (in_slot (slice_get slots.new.items at) tx
        ≡ in_slot (slice_get slots.old.items at) tx ++ item ∷ []) }
    ensures err { OnErr result
        (in_slot (slice_get slots.new.items at) tx ≡ in_slot (slice_get slots.old.items at) tx) }
    ensures others { (n t : ℕ) → t ≢ tx
        → in_slot (slice_get slots.new.items n) t ≡ in_slot (slice_get slots.old.items n) t }
{
    add_in(&mut slots[at], tx, item)
}

#[inline(always)]
fn add_in(slot: &mut Slot, tx: Tx, item: Item) -> Result<(), AllocError>
    requires { MayHold slot.old tx }
    ensures ok { OnOk result
        (in_slot (Some slot.new) tx ≡ in_slot (Some slot.old) tx ++ item ∷ []) }
    ensures err { OnErr result (in_slot (Some slot.new) tx ≡ in_slot (Some slot.old) tx) }
    ensures others { (t : ℕ) → t ≢ tx → in_slot (Some slot.new) t ≡ in_slot (Some slot.old) t }
{
    slot.items.push(item)?;
    slot.tx = tx.number();
    Ok(())
}

fn take_at(slots: &mut Vec<Slot>, at: usize, tx: Tx)
    ensures own { (items : List Name) (item : Name)
        → in_slot (slice_get slots.old.items at) tx ≡ items ++ item ∷ []
        → in_slot (slice_get slots.new.items at) tx ≡ items }
    ensures others { (n t : ℕ) → t ≢ tx
        → in_slot (slice_get slots.new.items n) t ≡ in_slot (slice_get slots.old.items n) t }
{
    if at < slots.len() {
        take_in(&mut slots[at], tx);
    }
}

fn take_in(slot: &mut Slot, tx: Tx)
    ensures own { (items : List Name) (item : Name) → in_slot (Some slot.old) tx ≡ items ++ item ∷ []
        → in_slot (Some slot.new) tx ≡ items }
    ensures others { (t : ℕ) → t ≢ tx → in_slot (Some slot.new) t ≡ in_slot (Some slot.old) t }
{
    if slot.tx == tx.number() {
        let _ = slot.items.pop();
    }
}

#[inline(always)]
fn clear_at(slots: &mut Vec<Slot>, at: usize, tx: Tx)
    ensures own { in_slot (slice_get slots.new.items at) tx ≡ [] }
    ensures others { (n t : ℕ) → t ≢ tx
        → in_slot (slice_get slots.new.items n) t ≡ in_slot (slice_get slots.old.items n) t }
{
    if at < slots.len() {
        clear_in(&mut slots[at], tx);
    }
}

#[inline(always)]
fn clear_in(slot: &mut Slot, tx: Tx)
    ensures own { in_slot (Some slot.new) tx ≡ [] }
    ensures others { (t : ℕ) → t ≢ tx → in_slot (Some slot.new) t ≡ in_slot (Some slot.old) t }
{
    if slot.tx == tx.number() {
        slot.items.clear();
    }
}

// Adds a read of a transaction that has no slot.
#[inline(never)]
fn add_other(
    alloc: Global,
    reads: &mut BTreeMap<Tx, Vec<Item>>,
    tx: Tx,
    item: Item,
) -> Result<(), AllocError>
    ensures ok { OnOk result
        (or_nothing (get nat_cmp reads.new tx) ≡ or_nothing (get nat_cmp reads.old tx) ++ item ∷ []) }
    ensures err { OnErr result
        (or_nothing (get nat_cmp reads.new tx) ≡ or_nothing (get nat_cmp reads.old tx)) }
    ensures others { (t : ℕ) → t ≢ tx
        → or_nothing (get nat_cmp reads.new t) ≡ or_nothing (get nat_cmp reads.old t) }
{
    match reads.get_mut(&tx) {
        Some(items) => items.push(item)?,
        None => {
            let mut items = Vec::new(alloc);
            items.push(item)?;
            reads.insert(tx, items)?;
        }
    }
    Ok(())
}

fn take_other(reads: &mut BTreeMap<Tx, Vec<Item>>, tx: Tx)
    ensures own { (items : List Name) (item : Name)
        → or_nothing (get nat_cmp reads.old tx) ≡ items ++ item ∷ []
        → or_nothing (get nat_cmp reads.new tx) ≡ items }
    ensures others { (t : ℕ) → t ≢ tx
        → or_nothing (get nat_cmp reads.new t) ≡ or_nothing (get nat_cmp reads.old t) }
{
    if let Some(items) = reads.get_mut(&tx) {
        let _ = items.pop();
    }
}

#[inline(never)]
fn other_items(reads: &BTreeMap<Tx, Vec<Item>>, tx: Tx) -> &[Item]
    ensures { result.now ≡ or_nothing (get nat_cmp reads.now tx) }
{
    match reads.get(&tx) {
        Some(items) => items.as_slice(),
        None => &[],
    }
}

// Takes the transaction's reads out, if there are any.
#[inline(always)]
fn remove(reads: &mut BTreeMap<Tx, Vec<Item>>, tx: Tx)
    ensures own { or_nothing (get nat_cmp reads.new tx) ≡ [] }
    ensures others { (t : ℕ) → t ≢ tx
        → or_nothing (get nat_cmp reads.new t) ≡ or_nothing (get nat_cmp reads.old t) }
{
    if !reads.is_empty() {
        remove_found(reads, tx);
    }
}

#[inline(never)]
fn remove_found(reads: &mut BTreeMap<Tx, Vec<Item>>, tx: Tx)
    ensures own { or_nothing (get nat_cmp reads.new tx) ≡ [] }
    ensures others { (t : ℕ) → t ≢ tx
        → or_nothing (get nat_cmp reads.new t) ≡ or_nothing (get nat_cmp reads.old t) }
{
    let _ = reads.remove(&tx);
}
