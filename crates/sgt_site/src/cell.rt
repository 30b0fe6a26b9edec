//! What a site keeps of an item.

ghost use Rattle.std.specs.Prelude.{◌≡◌, ◌≤◌, ◌<◌, ◌∷◌, ◌++◌, [], ℕ, Some, true, false, leb, length, slice_get, AllPairs, IsTrue, vec_len, vec_capacity};
ghost use Rattle.std.specs.List.Sorted.{IsPartitionPoint};
ghost use Rattle.std.specs.List.{insert as inserted};
ghost use Rattle.sgt_site.specs.State.{IsVersionWritten};
ghost use Rattle.sgt_site.specs.private.Cells.{adds};
ghost use Rattle.sgt_site.specs.declared.cell.Reader.{Reader as CommittedReader};

use crate::readings::{Readings, insert, make_place};
use sgt_arena::Handle;
use sgt_names::{Change, Holding, Item, Seen, Touch, Tx, Value};
use std::alloc::{AllocError, Global};
use std::marker::Model;

/// A committed transaction, with the handle that was given for it.
#[derive(Clone, Copy)]
pub struct Install {
    pub tx: Tx,
    pub handle: Handle,
}

/// A committed transaction that wrote an item or added to it, with the handle that was given for it.
#[derive(Clone, Copy, PartialEq)]
pub struct Writer {
    pub tx: Tx,
    pub handle: Handle,
    /// Whether it added to the item, and didn't write it.
    pub increment: bool,
}

/// A committed transaction with its handle, and the version of the item that it read.
#[derive(Clone, Copy, PartialEq)]
pub struct Reader {
    pub tx: Tx,
    pub handle: Handle,
    pub version: u64,
}

/// Who wrote an item or added to it, and who read it.
#[derive(Clone, Copy)]
pub struct Accesses<'a> {
    /// The committed transactions that wrote it or added to it, in the order of the log.
    pub writers: &'a [Writer],
    /// The version that the last write made, 0 where there is none: from there on it was only added to.
    pub version_written: u64,
    /// The committed transactions that read it, by rising version that they read.
    pub readers: &'a [Reader],
}

/// An item with its values, its writers, its committed readers, and its reads by whomever.
#[derive(Drop)]
pub(crate) struct Cell {
    item: Item,
    value: Value,
    writers: Vec<Writer>,
    // the version that the last write made
    written: u64,
    // by rising version
    readers: Vec<Reader>,
    readings: Readings,
}

impl Model for Cell {
    ghost use Rattle.std.specs.Prelude.{◌-◌, vec_len, vec_capacity, min};
    ghost use Rattle.sgt_site.specs.private.Cells.{Contents, IsOrdered};

    ghost Value = { Contents };

    ghost view = { λ c. record {
      item = c.item;
      value = c.value;
      writers = c.writers.items;
      readers = c.readers.items;
      readings = c.readings;
      has_room = min (vec_capacity c.writers - vec_len c.writers) (vec_capacity c.readers - vec_len c.readers);
    } };

    ghost invariant = { λ c. IsOrdered c.writers.items c.written c.readers.items };
}

impl Cell {
    ghost use Rattle.std.specs.Prelude.{◌≡◌, ◌<◌, ◌≤◌, [], length, ◌↔◌, IsTrue, OnOk, OnErr, IfOk, Some, Contains, AllPairs};
    ghost use Rattle.sgt_site.specs.State.{IsVersionWritten};
    ghost use Rattle.sgt_names.specs.declared.draft.Seen.{Seen as Answer};
    ghost use Rattle.sgt_site.specs.private.Cells.{answer_of, IsAnswering, IsAnswered, IsNoted};

    /// An item that nobody has written or read.
    pub(crate) fn new(alloc: Global, holding: Holding) -> Cell
        ensures item { result.item ≡ holding.item }
        ensures value { result.value ≡ holding.value }
        ensures writers { result.writers ≡ [] }
        ensures readers { result.readers ≡ [] }
        ensures readings { result.readings ≡ [] }
    {
        Cell {
            item: holding.item,
            value: holding.value,
            writers: Vec::new(alloc),
            written: 0,
            readers: Vec::new(alloc),
            readings: Readings::new(alloc),
        }
    }

    pub(crate) fn item(&self) -> Item
        ensures { result ≡ self.now.item }
    {
        self.item
    }

    /// The item with its present value.
    pub(crate) fn holding(&self) -> Holding
        ensures { result ≡ record { item = self.now.item; value = self.now.value } }
    {
        Holding {
            item: self.item,
            value: self.value,
        }
    }

    /// How often the item was written or added to.
    pub(crate) fn version(&self) -> u64
        ensures { result ≡ length self.now.writers }
    {
        self.writers.len() as u64
    }

    pub(crate) fn writers(&self) -> &[Writer]
        ensures { result.now ≡ self.now.writers }
    {
        self.writers.as_slice()
    }

    /// Who wrote the item or added to it, and who read it.
    pub(crate) fn accesses(&self) -> Accesses<'_>
        ensures writers { result.writers.now ≡ self.now.writers }
        ensures written { IsVersionWritten self.now.writers result.version_written }
        ensures readers { result.readers.now ≡ self.now.readers }
        ensures by_version { AllPairs (λ a b. a.version ≤ b.version) self.now.readers }
    {
        Accesses {
            writers: self.writers.as_slice(),
            version_written: self.written,
            readers: self.readers.as_slice(),
        }
    }

    /// What the transaction's read of the item answered, if it has read it.
    pub(crate) fn seen_by(&self, tx: Tx) -> Option<Seen>
        ensures { (seen : Answer)
            → (result ≡ Some seen) ↔ Contains self.now.readings (record { tx = tx; seen = seen }) }
    {
        self.readings.seen_by(tx)
    }

    /// Where a read of the transaction would go, most likely. None where it has read the item.
    #[inline(always)]
    pub(crate) fn unread(&self, tx: Tx) -> Option<usize>
        ensures { (result ≡ None) ↔ IsAnswering self.now.readings tx }
    {
        self.readings.unread(tx)
    }

    /// Answers a transaction that has not read the item, and keeps the answer, at this place if it goes there.
    pub(crate) fn answer(&mut self, tx: Tx, place: usize) -> Result<Seen, AllocError>
        requires { IsAnswering self.old.readings tx → ⊥ }
        ensures value { IfOk result (λ seen. seen ≡ answer_of self.old) }
        ensures ok { OnOk result (IsAnswered self.old self.new tx) }
        ensures err { OnErr result (self.new ≡ self.old) }
    {
        let seen = Seen {
            value: self.value,
            version: self.version(),
        };
        self.readings.add(tx, seen, place)?;
        Ok(seen)
    }

    /// Makes room for one more writer and reader.
    pub(crate) fn reserve(&mut self) -> Result<(), AllocError>
        ensures same { self.new ≡ record self.old { has_room = self.new.has_room } }
        ensures ok { OnOk result (0 < self.new.has_room) }
        ensures more { self.old.has_room ≤ self.new.has_room }
    {
        make_place(&mut self.writers)?;
        make_place(&mut self.readers)
    }

    /// Notes a commit that touches the item.
    pub(crate) fn note(&mut self, by: &Install, touch: &Touch)
        requires { 0 < self.old.has_room }
        ensures { IsNoted by.now (Some touch.now) self.old self.new }
    {
        if let Some(seen) = touch.seen {
            let reader = Reader {
                tx: by.tx,
                handle: by.handle,
                version: seen.version,
            };
            add_reader(&mut self.readers, reader);
        }
        if let Some(change) = touch.change {
            self.value = change.apply(self.value);
            let writer = Writer {
                tx: by.tx,
                handle: by.handle,
                increment: is_increment(change),
            };
            add_writer(&mut self.writers, &mut self.written, writer);
        }
    }
}

// Adds a reader behind all that read its version or an older one.
fn add_reader(readers: &mut Vec<Reader>, reader: Reader)
    requires sorted { AllPairs (λ a b. a.version ≤ b.version) readers.old.items }
    requires room { vec_len readers.old < vec_capacity readers.old }
    ensures items { (n : ℕ) × (readers.new.items ≡ inserted readers.old.items n reader) }
    ensures by_version { AllPairs (λ a b. a.version ≤ b.version) readers.new.items }
{
    let at = behind(readers.as_slice(), reader.version);
    insert(readers, at, reader);
}

// How many of the last readers are looked at first.
const NEAR: usize = 8;

// How many read this version or an older one. What is read is mostly one of the last versions.
fn behind(readers: &[Reader], version: u64) -> usize
    requires { AllPairs (λ a b. a.version ≤ b.version) readers.now }
    ensures within { result ≤ length readers.now }
    ensures point { IsPartitionPoint (λ r. leb r.version version ≡ true)
        (λ r. leb r.version version ≡ false) readers.now result }
{
    let from = near_end(readers, version);
    from + behind_all(&readers[from..], version)
}

// Where the last readers begin, if all before them read this version or an older one, and else the beginning.
fn near_end(readers: &[Reader], version: u64) -> usize
    requires { AllPairs (λ a b. a.version ≤ b.version) readers.now }
    ensures within { result ≤ length readers.now }
    ensures before { (n : ℕ) (r : CommittedReader) → n < result → slice_get readers.now n ≡ Some r
        → r.version ≤ version }
{
    let end = readers.len();
    if are_upto(readers, end, version) {
        return end;
    }
    let last = end.saturating_sub(1);
    if are_upto(readers, last, version) {
        return last;
    }
    let few = end.saturating_sub(NEAR);
    if are_upto(readers, few, version) {
        few
    } else {
        0
    }
}

// Whether all readers before this place are known to have read this version or an older one, by the last of them.
fn are_upto(readers: &[Reader], place: usize, version: u64) -> bool
    requires sorted { AllPairs (λ a b. a.version ≤ b.version) readers.now }
    requires within { place ≤ length readers.now }
    ensures { IsTrue result → (n : ℕ) (r : CommittedReader) → n < place
        → slice_get readers.now n ≡ Some r → r.version ≤ version }
{
    place > 0 && readers[place - 1].version <= version
}

// How many of these read this version or an older one, by a binary search.
fn behind_all(readers: &[Reader], version: u64) -> usize
    requires { AllPairs (λ a b. a.version ≤ b.version) readers.now }
    ensures within { result ≤ length readers.now }
    ensures point { IsPartitionPoint (λ r. leb r.version version ≡ true)
        (λ r. leb r.version version ≡ false) readers.now result }
{
    readers.partition_point(|r| r.version <= version)
}

// Adds a writer. Where it writes, the version that it makes is the last written one.
fn add_writer(writers: &mut Vec<Writer>, written: &mut u64, writer: Writer)
    requires last { IsVersionWritten writers.old.items written.old }
    requires room { vec_len writers.old < vec_capacity writers.old }
    ensures items { writers.new.items ≡ writers.old.items ++ writer ∷ [] }
    ensures last { IsVersionWritten writers.new.items written.new }
{
    let write = !writer.increment;
    writers.push_reserved(writer);
    if write {
        *written = writers.len() as u64;
    }
}

fn is_increment(change: Change) -> bool
    ensures { result ≡ adds change }
{
    match change {
        Change::Put(_) => false,
        Change::Add(_) => true,
    }
}
