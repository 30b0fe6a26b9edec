//! The records of the transactions of decisions: what each did in the open section.

ghost use Rattle.std.specs.Prelude.{◌≡◌, ◌+◌, ◌<◌, ◌^◌, ◌↔◌, ◌&&◌, ◌||◌, false, not, length, IsTrue, IfOk, Some, All, Any, List, option_map, slice_get, slice_set};
ghost use Rattle.std.specs.Option.{option_to_list};
ghost use Rattle.sgt_names.specs.Name.{Name};
ghost use Rattle.sgt_names.specs.Entry.{tx_of, item_of, Repeats};
ghost use Rattle.sgt_names.specs.declared.entry.Entry.{Entry};
ghost use Rattle.sgt_audit_cells.specs.Records.{Record, no_record, AreActs};
ghost use Rattle.sgt_audit_cells.specs.private.Deeds.{IsTouched, ClashesWith, act_of};
ghost use Rattle.sgt_audit_cells.specs.private.Linked.{AreEarlier};

use crate::act::{Done, deed_of};
use crate::chain::{has_done, have_clash, link};
use crate::record::{Node, Slot, Turn};
use crate::row::{Row, extend, shown};
use sgt_names::{Entry, Kind};
use std::alloc::{AllocError, Global};
use std::marker::Model;

/// A record for each decision's transaction, and how many entries there are.
#[derive(Drop)]
pub struct RecordTable {
    slots: Vec<Slot>,
    /// What the entries of the open section did.
    nodes: Vec<Node>,
    /// What transactions with many operations did there, by bits.
    rows: Vec<Row>,
    /// What the slots of transactions that came in the open section are stamped with.
    stamp: u16,
}

impl Model for RecordTable {
    ghost use Rattle.std.specs.Prelude.{length, ◌+◌};
    ghost use Rattle.sgt_audit_cells.specs.Records.{Recorded};
    ghost use Rattle.sgt_audit_cells.specs.private.Linked.{AreLinked, AreWithin, AreEarlier, records_of};
    ghost use Rattle.sgt_audit_cells.specs.private.Rows.{AreRows};

    ghost Value = { Recorded };

    ghost view = { λ t. record {
      each = records_of t.stamp t.nodes.items t.slots.items;
      count = length t.nodes.items;
    } };

    ghost invariant = { λ t. AreLinked t.nodes.items × AreWithin t.stamp (length t.nodes.items) t.slots.items
        × AreEarlier (t.stamp + 1) t.slots.items × AreRows t.nodes.items t.rows.items };
}

/// Of so many transactions, that no section has met.
fn fresh_slots(alloc: Global, count: usize) -> Result<Vec<Slot>, AllocError>
    ensures len { IfOk result (λ slots. length slots.items ≡ count) }
    ensures fresh { IfOk result
        (λ slots. All
        (λ s. s ≡ record {
          stamp = 0;
          ended = false;
          count = 0;
          last = 0;
          row = 0;
        }) slots.items) }
{
    vec![in alloc; Slot::fresh(); count]
}

#[inline(always)]
fn either(first: bool, second: bool) -> bool
    ensures { result ≡ (first || second) }
{
    first || second
}

/// A stamp that no slot has, next to one that is no smaller than theirs. Where there is none, the slots are made fresh.
fn next_stamp(slots: &mut [Slot], stamp: u16) -> u16
    requires { AreEarlier (stamp + 1) slots.old }
    ensures len { length slots.new ≡ length slots.old }
    ensures later { AreEarlier result slots.new }
{
    if stamp < u16::MAX {
        return stamp + 1;
    }
    slots.fill(Slot::fresh());
    1
}

impl RecordTable {
    /// Of so many transactions, that no section has met.
    pub(crate) fn new(alloc: Global, count: usize) -> Result<RecordTable, AllocError>
        ensures { IfOk result (λ t. length t.each ≡ count) }
    {
        let slots = fresh_slots(alloc, count)?;
        Ok(RecordTable {
            slots,
            nodes: Vec::new(alloc),
            rows: Vec::new(alloc),
            stamp: 0,
        })
    }

    /// What was done is forgotten.
    pub(crate) fn clear(&mut self)
        ensures length { length self.new.each ≡ length self.old.each }
        ensures fresh { All (λ r. r ≡ no_record) self.new.each }
        ensures none { self.new.count ≡ 0 }
    {
        self.stamp = next_stamp(self.slots.as_mut_slice(), self.stamp);
        self.nodes.clear();
        self.rows.clear();
    }

    /// Whether the entry, on the item at this place, is not the second read of the item by the transaction of this
    /// number, nor its second change, made or asked for.
    #[inline(always)]
    pub(crate) fn is_first(&self, number: usize, place: usize, entry: &Entry) -> bool
        ensures { (r : Record) (ns : List Name) (entries : List Entry) (x : Name)
            → slice_get self.now.each number ≡ Some r
            → slice_get ns place ≡ Some x → item_of entry.now ≡ Some x
            → AreActs ns entries (tx_of entry.now) r.acts
            → (IsTrue result ↔ All (λ f. (y : Name) → Repeats y f entry.now → ⊥) entries) }
    {
        let Some(slot) = self.slots.get(number) else {
            return false;
        };
        let last = slot.last_in(self.stamp) as usize;
        let change = deed_of(entry).changes();
        if slot.is_long() {
            if let Some(done) = shown(self.rows.as_slice(), slot.row, last, place, change) {
                return !done;
            }
        }
        !has_done(self.nodes.as_slice(), last, place, change)
    }

    /// Whether the transaction of this number ended in the section.
    #[inline(always)]
    pub(crate) fn has_ended(&self, number: usize) -> bool
        ensures { (r : Record) → slice_get self.now.each number ≡ Some r → result ≡ r.ended }
    {
        match self.slots.get(number) {
            Some(slot) => slot.has_ended(self.stamp),
            None => true,
        }
    }

    /// Whether one of what the first of the two did, on the item at this place, precedes one of what the second did
    /// and conflicts with it.
    pub(crate) fn have_clash(&self, numbers: (usize, usize), kind: Kind, place: usize) -> bool
        ensures { (q r : Record) → slice_get self.now.each numbers.0 ≡ Some q
            → slice_get self.now.each numbers.1 ≡ Some r
            → (IsTrue result
            ↔ Any (λ a. (a.place ≡ place) × Any (ClashesWith kind a) r.acts) q.acts) }
    {
        let Some(first) = self.slots.get(numbers.0) else {
            return false;
        };
        let Some(second) = self.slots.get(numbers.1) else {
            return false;
        };
        have_clash(
            self.nodes.as_slice(),
            first.last_in(self.stamp) as usize,
            second.last_in(self.stamp) as usize,
            kind,
            place,
        )
    }

    /// Whether one more entry of the transaction of this number needs no memory, and no row of bits.
    #[inline(always)]
    pub(crate) fn has_room(&self, number: usize) -> bool {
        match self.slots.get(number) {
            Some(slot) => self.nodes.len() < self.nodes.capacity() && !slot.is_long(),
            None => false,
        }
    }

    #[inline(never)]
    fn reserve(&mut self) -> Result<(), AllocError>
        ensures { self.new ≡ self.old }
    {
        self.nodes.reserve(1)
    }

    /// Reserves room for one more entry of the transaction of this number. Whether there was room, and no row of bits
    /// need be kept.
    #[inline(always)]
    pub(crate) fn make_room(&mut self, number: usize) -> Result<bool, AllocError>
        ensures { self.new ≡ self.old }
    {
        if self.has_room(number) {
            return Ok(true);
        }
        self.reserve()?;
        Ok(false)
    }

    /// One more entry of the transaction of this number, and what it changes at the section. Room has to be reserved.
    #[inline(always)]
    pub(crate) fn enter(
        &mut self,
        number: usize,
        done: Option<Done>,
        ends: bool,
    ) -> Result<Turn, AllocError>
        ensures few { length self.new.each < 2 ^ 64 }
        ensures entered { IfOk result (λ turn. (r : Record) → slice_get self.old.each number ≡ Some r
            → (s : Record) × (self.new ≡ record {
              each = slice_set self.old.each number s;
              count = self.old.count + 1;
            }) × IsTouched (option_to_list (option_map (act_of self.old.count) done)) ends r s
            × (turn.comes ≡ not r.touched) × (turn.leaves ≡ (ends && not r.ended))) }
    {
        if number >= self.slots.len() {
            return Ok(Turn {
                comes: false,
                leaves: false,
            });
        }
        let stamp = self.stamp;
        let slot = self.slots[number];
        let here = slot.here(stamp);
        let turn = slot.turn(stamp, ends);
        let last = link(&mut self.nodes, here.last, done)?;
        let ended = either(here.ended, ends);
        self.slots[number] = Slot {
            stamp,
            ended,
            count: here.count.saturating_add(1),
            last,
            row: here.row,
        };
        Ok(turn)
    }

    /// Brings the row of the transaction of this number up to its last entry, where many are counted.
    #[inline(never)]
    pub(crate) fn keep_row(&mut self, number: usize) -> Result<(), AllocError>
        ensures { self.new ≡ self.old }
    {
        if number >= self.slots.len() {
            return Ok(());
        }
        let slot = self.slots[number];
        if !slot.is_long() {
            return Ok(());
        }
        let last = slot.last_in(self.stamp) as usize;
        let row = extend(&mut self.rows, self.nodes.as_slice(), slot.row, last)?;
        self.slots[number] = Slot { row, ..slot };
        Ok(())
    }
}
