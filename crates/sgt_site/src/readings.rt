//! The reads of an item.

ghost use Rattle.std.specs.Prelude.{◌≡◌, ◌<◌, ◌≤◌, ◌∷◌, ◌++◌, [], length, is_ok, if◌then◌else◌, IsTrue, IfOk, IfErr, IfSome, OnOk, vec_len, vec_capacity};
ghost use Rattle.std.specs.BTreeMap.{get};
ghost use Rattle.std.specs.List.{insert as inserted};
ghost use Rattle.std.specs.Ordering.{nat_cmp};
ghost use Rattle.sgt_names.specs.Ordered.{IsRisingBy, IsAt, IsGapFor};
ghost use Rattle.sgt_site.specs.private.Tails.{IsBelow};

use sgt_names::{Seen, Tx, Value};
use std::alloc::{AllocError, Global};
use std::collections::BTreeMap;
use std::marker::Model;

/// A read in the log: the transaction, and what the read answered.
#[derive(Clone, Copy)]
pub(crate) struct Reading {
    pub(crate) tx: Tx,
    pub(crate) seen: Seen,
}

/// A read whose version has 32 bits at most, in two thirds of the room.
#[derive(Drop)]
pub(crate) struct Short {
    tx: Tx,
    version: u32,
    value: Value,
}

impl Model for Short {
    ghost use Rattle.sgt_site.specs.declared.readings.Reading.{Reading as Member};

    ghost Value = { Member };

    ghost view = { λ s. record { tx = s.tx; seen = record { value = s.value; version = s.version } } };
}

impl Short {
    ghost use Rattle.std.specs.Prelude.{◌≡◌, IfSome};

    // The read, if it is one.
    #[inline(always)]
    fn new(reading: Reading) -> Option<Short>
        ensures { IfSome result (λ s. s ≡ reading) }
    {
        match u32::try_from(reading.seen.version) {
            Ok(version) => Some(Short {
                tx: reading.tx,
                version,
                value: reading.seen.value,
            }),
            Err(_) => None,
        }
    }

    #[inline(always)]
    fn tx(&self) -> Tx
        ensures { result ≡ self.now.tx }
    {
        self.tx
    }

    #[inline(always)]
    fn seen(&self) -> Seen
        ensures { result ≡ self.now.seen }
    {
        Seen {
            value: self.value,
            version: u64::from(self.version),
        }
    }
}

/// The reads of an item.
#[derive(Drop)]
pub(crate) struct Readings {
    // by rising transaction
    readings: Vec<Short>,
    // those that came behind many of greater transactions, so that not many are moved for them, and those that aren't
    // short
    late: BTreeMap<Tx, Seen>,
}

impl Model for Readings {
    ghost use Rattle.std.specs.Prelude.{List};
    ghost use Rattle.sgt_site.specs.declared.readings.Reading.{Reading as Member};

    ghost Value = { List Member };

    ghost use Rattle.sgt_site.specs.private.Readings.{all_readings, AreParted};

    ghost view = { λ r. all_readings r.readings.items r.late };

    ghost invariant = { λ r. AreParted r.readings.items r.late };
}

impl Readings {
    ghost use Rattle.std.specs.Prelude.{◌≡◌, [], ◌↔◌, Some, OnOk, OnErr, Contains};
    ghost use Rattle.sgt_names.specs.declared.draft.Seen.{Seen as Answer};
    ghost use Rattle.sgt_site.specs.private.Cells.{IsAnswering, ReadsAlso};

    pub(crate) fn new(alloc: Global) -> Readings
        ensures { result ≡ [] }
    {
        Readings {
            readings: Vec::new(alloc),
            late: BTreeMap::new(alloc),
        }
    }

    /// What the transaction's read answered, if there is one.
    #[inline(always)]
    pub(crate) fn seen_by(&self, tx: Tx) -> Option<Seen>
        ensures { (seen : Answer)
            → (result ≡ Some seen) ↔ Contains self.now (record { tx = tx; seen = seen }) }
    {
        match search(self.readings.as_slice(), tx) {
            Ok(at) => Some(self.readings[at].seen()),
            Err(_) => late_by(&self.late, tx),
        }
    }

    /// Where a read of the transaction would go, most likely. None where there is one.
    #[inline(always)]
    pub(crate) fn unread(&self, tx: Tx) -> Option<usize>
        ensures { (result ≡ None) ↔ IsAnswering self.now tx }
    {
        match search(self.readings.as_slice(), tx) {
            Ok(_) => None,
            Err(at) => match late_by(&self.late, tx) {
                Some(_) => None,
                None => Some(at),
            },
        }
    }

    /// Keeps the read of a transaction that has none yet, at this place if it goes there. Those of greater transactions
    /// that came before it are moved by a place, if they are few, and else it is a search of the reads that came so
    /// late.
    pub(crate) fn add(&mut self, tx: Tx, seen: Seen, place: usize) -> Result<(), AllocError>
        requires { IsAnswering self.old tx → ⊥ }
        ensures ok { OnOk result (ReadsAlso self.old self.new (record { tx = tx; seen = seen })) }
        ensures err { OnErr result (self.new ≡ self.old) }
    {
        if let Some(short) = Short::new(Reading { tx, seen }) {
            if is_gap(self.readings.as_slice(), place, tx) {
                return insert_in(&mut self.readings, place, short);
            }
        }
        self.late.insert(tx, seen)?;
        Ok(())
    }
}

// Whether a read of the transaction goes to this place, near the end.
#[inline(always)]
fn is_gap(readings: &[Short], place: usize, tx: Tx) -> bool
    requires { IsRisingBy (λ m. m.tx) nat_cmp readings.now }
    ensures { IsTrue result → IsGapFor (λ m. m.tx) nat_cmp readings.now tx place }
{
    let end = readings.len();
    if place > end || end - place > NEAR {
        return false;
    }
    if !are_below(readings, place, tx) {
        return false;
    }
    place == end || readings[place].tx().number() > tx.number()
}

// What a late read of the transaction answered. Mostly there are none.
#[inline(always)]
fn late_by(late: &BTreeMap<Tx, Seen>, tx: Tx) -> Option<Seen>
    ensures { result ≡ get nat_cmp late.now tx }
{
    if late.is_empty() {
        return None;
    }
    get_late(late, tx)
}

#[inline(never)]
fn get_late(late: &BTreeMap<Tx, Seen>, tx: Tx) -> Option<Seen>
    ensures { result ≡ get nat_cmp late.now tx }
{
    late.get(&tx).copied()
}

// How many of the last reads are looked at first, and how many are moved at most.
const NEAR: usize = 8;

// Where the transaction's read is, or where it would go. Transactions that read are mostly among the last.
fn search(readings: &[Short], tx: Tx) -> Result<usize, usize>
    requires { IsRisingBy (λ m. m.tx) nat_cmp readings.now }
    ensures found { IfOk result (IsAt (λ m. m.tx) readings.now tx) }
    ensures absent { IfErr result (IsGapFor (λ m. m.tx) nat_cmp readings.now tx) }
{
    let from = near_end(readings, tx);
    match search_all(&readings[from..], tx) {
        Ok(at) => Ok(from + at),
        Err(at) => Err(from + at),
    }
}

// Where the last reads begin, if all before them are of smaller transactions, and else the beginning.
fn near_end(readings: &[Short], tx: Tx) -> usize
    requires { IsRisingBy (λ m. m.tx) nat_cmp readings.now }
    ensures within { result ≤ length readings.now }
    ensures before { IsBelow (λ m. m.tx) nat_cmp readings.now tx result }
{
    let end = readings.len();
    if are_below(readings, end, tx) {
        return end;
    }
    let last = end.saturating_sub(1);
    if are_below(readings, last, tx) {
        return last;
    }
    let few = end.saturating_sub(NEAR);
    if are_below(readings, few, tx) { few } else { 0 }
}

// Whether all reads before this place are known to be of smaller transactions, by the last of them.
fn are_below(readings: &[Short], place: usize, tx: Tx) -> bool
    requires rising { IsRisingBy (λ m. m.tx) nat_cmp readings.now }
    requires within { place ≤ length readings.now }
    ensures { IsTrue result → IsBelow (λ m. m.tx) nat_cmp readings.now tx place }
{
    place == 0 || readings[place - 1].tx().number() < tx.number()
}

// Where the transaction's read is, or where it would go. Mostly it is the first of these, or there is none.
#[inline(always)]
fn search_all(readings: &[Short], tx: Tx) -> Result<usize, usize>
    requires { IsRisingBy (λ m. m.tx) nat_cmp readings.now }
    ensures found { IfOk result (IsAt (λ m. m.tx) readings.now tx) }
    ensures absent { IfErr result (IsGapFor (λ m. m.tx) nat_cmp readings.now tx) }
{
    if readings.is_empty() {
        return Err(0);
    }
    if readings[0].tx().number() == tx.number() {
        return Ok(0);
    }
    search_many(readings, tx)
}

// Where the transaction's read is, or where it would go, by a binary search.
#[inline(never)]
fn search_many(readings: &[Short], tx: Tx) -> Result<usize, usize>
    requires { IsRisingBy (λ m. m.tx) nat_cmp readings.now }
    ensures found { IfOk result (IsAt (λ m. m.tx) readings.now tx) }
    ensures absent { IfErr result (IsGapFor (λ m. m.tx) nat_cmp readings.now tx) }
{
    readings.binary_search_by(|m| m.tx().number().cmp(&tx.number()))
}

// So much room is made at once: lists are mostly short, and there are many.
const FIRST: usize = 8;

/// Makes room for one more element, if there is none.
#[inline(always)]
pub(crate) fn make_place<T>(items: &mut Vec<T>) -> Result<(), AllocError>
    ensures same { (items.new.items ≡ items.old.items) × (vec_len items.new ≡ vec_len items.old) }
    ensures ok { OnOk result (vec_len items.new < vec_capacity items.new) }
    ensures more { vec_capacity items.old ≤ vec_capacity items.new }
{
    if items.len() < items.capacity() {
        return Ok(());
    }
    items.reserve(FIRST)
}

/// Inserts an element where there is room for it.
pub(crate) fn insert<T: Drop>(items: &mut Vec<T>, at: usize, item: T)
    requires within { at ≤ vec_len items.old }
    requires room { vec_len items.old < vec_capacity items.old }
    ensures items { items.new.items ≡ inserted items.old.items at item }
    ensures capacity { vec_capacity items.new ≡ vec_capacity items.old }
{
    if at == items.len() {
        items.push_reserved(item);
    } else {
        let _ = items.insert(at, item);
    }
}

// Inserts an element.
#[inline(always)]
fn insert_in<T: Drop>(items: &mut Vec<T>, at: usize, item: T) -> Result<(), AllocError>
    requires { at ≤ vec_len items.old }
    ensures items { items.new.items
        ≡ (if is_ok result then inserted items.old.items at item else items.old.items) }
{
    make_place(items)?;
    insert(items, at, item);
    Ok(())
}
