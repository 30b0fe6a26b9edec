//! A site: its items with their values, its log, and the pledge that stands.
//!
//! Writes are deferred: a transaction's writes stay in its draft until it is certified, and are logged as one block
//! with its end. Logs, conflicts and "reads from" are those of Bernstein, Hadzilacos and Goodman, Concurrency Control
//! and Recovery in Database Systems (1987), chapter 2.

ghost use Rattle.std.specs.Prelude.{◌≡◌, ◌↔◌, ◌⊎◌, ℕ, ◌+◌, ◌<◌, ◌≤◌, Some, length, vec_len, vec_capacity, Contains, IsTrue, IfOk, IfErr};
ghost use Rattle.std.specs.Ordering.{nat_cmp};
ghost use Rattle.std.specs.declared.cmp.Ordering.TheVariants.{Less};
ghost use Rattle.std.specs.Cmp.Lexicographic.{slice_cmp};
ghost use Rattle.sgt_names.specs.Ordered.{IsRisingBy, IsAt, IsGapFor};
ghost use Rattle.sgt_site.specs.State.{AreItems};
ghost use Rattle.sgt_site.specs.private.Cells.{values_of};
ghost use Rattle.sgt_site.specs.private.Tails.{IsBelow};

mod blocks;
mod pledges;

use crate::cell::{Accesses, Cell, Writer};
use crate::cells::Cells;
use crate::entry_log::EntryLog;
use crate::fault::SiteFault;
use crate::pending::Pending;
use crate::readings::insert;
use sgt_names::{Entry, Holding, Item, MAX_ITEMS, Seen, SiteNo, Touch, Tx};
use std::alloc::{AllocError, Global};
use std::cmp::Ordering;
use std::marker::Model;

/// The store and the log of a site.
#[derive(Drop)]
pub struct Site {
    number: SiteNo,
    items: Vec<Holding>,
    cells: Cells,
    log: EntryLog,
    // the transactions that have their end here, rising
    ended: Vec<Tx>,
    // whose pledge stands, and what its draft touches here
    pledged: Option<Tx>,
    part: Vec<Touch>,
    // the reads of transactions that have no end here
    pending: Pending,
}

impl Model for Site {
    ghost use Rattle.std.specs.Prelude.{◌≡◌, ◌-◌, vec_len, vec_capacity};
    ghost use Rattle.sgt_names.specs.Log.{names};
    ghost use Rattle.sgt_site.specs.State.{SiteState};
    ghost use Rattle.sgt_site.specs.private.Kept.{pledge_of, IsKept};
    ghost use Rattle.sgt_site.specs.private.Pending.{ArePending};

    ghost Value = { SiteState };

    ghost view = { λ s. record {
      number = s.number;
      items = s.items.items;
      entries = s.log.entries;
      installed = s.log.installed;
      pledge = pledge_of s.pledged s.part.items;
    } };

    ghost invariant = { λ s. IsKept (record {
      number = s.number;
      items = s.items.items;
      entries = s.log.entries;
      installed = s.log.installed;
      pledge = pledge_of s.pledged s.part.items;
    }) s.cells s.ended.items (record {
      log = s.log.spare;
      ended = vec_capacity s.ended - vec_len s.ended;
    }) × ArePending s.pending s.log.entries × (s.log.items ≡ names s.items.items) };
}

impl Site {
    ghost use Rattle.std.specs.Prelude.{◌≡◌, ◌≢◌, ◌↔◌, ◌≤◌, [], ◌∷◌, ◌++◌, length, map, AllPairs, Contains, slice_get, IsOk, OnOk, OnErr, IfOk, IfErr, IfSome, IfNone};
    ghost use Rattle.sgt_site.specs.declared.fault.SiteFault.{SiteFault};
    ghost use Rattle.sgt_site.specs.declared.cell.Reader.{Reader};
    ghost use Rattle.sgt_names.specs.Log.{names, value_at, FinalsAreLegal, IsOrderly, ReadsAreLegal};
    ghost use Rattle.sgt_names.specs.Draft.{at_site, kept_in, writing_in};
    ghost use Rattle.sgt_names.specs.declared.entry.Entry.TheVariants.{Read};
    ghost use Rattle.sgt_site.specs.State.{opened, version_at, writers_of, IsVersionWritten, IsReader, AreItems, IsSite, IsPledged, IsPledgedFor, commit_block, refuse_block, withdraw_block};
    ghost use Rattle.sgt_site.specs.Refused.{IsHere, RefusesItems, RefusesRead, MayRead};

    /// A site with these items, each with its listed value, and no entries. The cost is the number of items.
    ///
    /// - S6: the names don't rise, or there are more than 1,024.
    /// - S4: there was no memory.
    pub fn new(alloc: Global, number: SiteNo, items: &[Holding]) -> Result<Site, SiteFault>
        ensures ok { IfOk result (λ s. s ≡ opened number items.now) }
        ensures allowed { OnOk result (AreItems items.now) }
        ensures refused { IfErr result (RefusesItems items.now) }
    {
        if !are_items(items) {
            return Err(SiteFault::BadItems);
        }
        let Ok(kept) = copies(alloc, items) else {
            return Err(SiteFault::Memory);
        };
        let Ok(cells) = Cells::new(alloc, items) else {
            return Err(SiteFault::Memory);
        };
        let Ok(log) = EntryLog::new(alloc, items) else {
            return Err(SiteFault::Memory);
        };
        Ok(Site {
            number,
            items: kept,
            cells,
            log,
            ended: Vec::new(alloc),
            pledged: None,
            part: Vec::new(alloc),
            pending: Pending::new(alloc),
        })
    }

    /// The number that the site was made with.
    pub fn number(&self) -> SiteNo
        ensures number { result ≡ self.now.number }
        ensures site { IsSite self.now }
    {
        self.number
    }

    /// The items with their first values, by rising name.
    pub fn items(&self) -> &[Holding]
        ensures items { result.now ≡ self.now.items }
        ensures site { IsSite self.now }
    {
        self.items.as_slice()
    }

    /// The version of each item, in the order of the items: how often the log writes it or adds to it. Copies nothing.
    pub fn versions(&self) -> &[u64]
        ensures versions { result.now
            ≡ map (λ h. version_at self.now.entries h.item) self.now.items }
        ensures site { IsSite self.now }
    {
        self.cells.versions()
    }

    /// The entries of the log, the oldest first.
    pub fn log(&self) -> &EntryLog
        ensures entries { result.now.entries ≡ self.now.entries }
        ensures items { result.now.items ≡ names self.now.items }
        ensures installed { result.now.installed ≡ self.now.installed }
        ensures orderly { IsOrderly self.now.items self.now.entries }
        ensures legal { ReadsAreLegal self.now.items self.now.entries }
        ensures site { IsSite self.now }
    {
        &self.log
    }

    /// Gives the site up but for its items with their first values and the entries of its log. Copies nothing.
    pub fn into_log(self) -> (Vec<Holding>, EntryLog)
        ensures items { result.0.items ≡ self.items }
        ensures names { result.1.items ≡ names self.items }
        ensures entries { result.1.entries ≡ self.entries }
        ensures installed { result.1.installed ≡ self.installed }
    {
        let Site { items, log, .. } = self;
        (items, log)
    }

    /// Reads an item for a transaction, and logs it. What is answered was written by a committed transaction, or is
    /// the first value. A pledge that stands stays covered.
    ///
    /// The first that holds is answered:
    /// - S1: the item isn't at this site.
    /// - S2: the transaction has read it.
    /// - S3: the transaction has its end here.
    /// - S7: the pledge that stands is its own.
    /// - S4: there was no memory.
    ///
    /// Searches the items, the reads of this one, the ended transactions and those that have read and have no end,
    /// each in the logarithm of their number, and not the log.
    #[inline(always)]
    pub fn read(&mut self, tx: Tx, item: Item) -> Result<Seen, SiteFault>
        ensures value { IfOk result
            (λ seen. value_at self.old.items self.old.entries item ≡ Some seen.value) }
        ensures version { IfOk result (λ seen. seen.version ≡ version_at self.old.entries item) }
        ensures logged { IfOk result (λ seen. self.new ≡ record self.old {
          entries = self.old.entries ++ Read tx item seen.value ∷ [];
        }) }
        ensures err { OnErr result (self.new ≡ self.old) }

        // The refusals exclude each other, so each comes exactly where its case says, memory aside.
        ensures allowed { OnOk result (MayRead self.old tx item) }
        ensures refused { IfErr result (RefusesRead self.old tx item) }
    {
        let Some(at) = self.cells.find(item) else {
            return Err(SiteFault::UnknownItem);
        };
        let Some(place) = self.cells.as_slice()[at].unread(tx) else {
            return Err(SiteFault::ReadTwice);
        };
        if has_ended(self.ended.as_slice(), tx) {
            return Err(SiteFault::Ended);
        }
        if is_pledged(self.pledged, tx) {
            return Err(SiteFault::PledgeOpen);
        }
        // the block of a pledge that stands, and the read
        let room = self.part.len() + 2;
        if !self.log.make_room(room) {
            return Err(SiteFault::Memory);
        }
        let Ok(()) = self.pending.add(tx, item) else {
            return Err(SiteFault::Memory);
        };
        match self.cells.answer(at, tx, place) {
            Ok(seen) => {
                let value = seen.value;
                self.log.push(Entry::Read { tx, item, value }, at);
                Ok(seen)
            }
            Err(_) => {
                self.pending.take_back(tx);
                Err(SiteFault::Memory)
            }
        }
    }

    /// Ends a transaction as withdrawn, under its pledge for whichever draft. Takes no memory; the cost is a search
    /// of the ended transactions, of which those of greater numbers move, and one of those that have read and have no
    /// end.
    ///
    /// - S5: no pledge of the transaction stands.
    pub fn withdraw(&mut self, tx: Tx) -> Result<(), SiteFault>
        ensures ok { OnOk result
            (self.new ≡ record self.old {
              entries = self.old.entries ++ withdraw_block tx;
              pledge = None;
            }) }
        ensures err { OnErr result (self.new ≡ self.old) }
        ensures succeeds { IsOk result ↔ IsPledged self.old tx }
        ensures refused { IfErr result (λ f. f ≡ SiteFault.NotPledged) }
    {
        if !is_pledged(self.pledged, tx) {
            return Err(SiteFault::NotPledged);
        }
        self.log.push_end(Entry::Withdraw { tx });
        add_ended(&mut self.ended, tx);
        self.pending.drop_reads(tx);
        self.pledged = None;
        self.part.clear();
        Ok(())
    }

    /// The committed transactions that wrote the item or added to it, in the order of the log. Searches the items,
    /// and copies nothing.
    ///
    /// - S1: the item isn't at this site.
    pub fn writers(&self, item: Item) -> Result<&[Writer], SiteFault>
        ensures ok { IfOk result
            (λ ws. ws.now ≡ writers_of self.now.installed self.now.entries item) }
        ensures site { IsSite self.now }
        ensures allowed { OnOk result (IsHere self.now item) }
        ensures refused { IfErr result
            (λ f. (f ≡ SiteFault.UnknownItem) × (IsHere self.now item → ⊥)) }
    {
        match self.cells.find(item) {
            Some(at) => Ok(self.cells.as_slice()[at].writers()),
            None => Err(SiteFault::UnknownItem),
        }
    }

    /// Who wrote the item or added to it, and who read it, by one search of the items. Copies nothing.
    ///
    /// - S1: the item isn't at this site.
    pub fn accesses(&self, item: Item) -> Result<Accesses<'_>, SiteFault>
        ensures writers { IfOk result
            (λ a. a.writers.now ≡ writers_of self.now.installed self.now.entries item) }
        ensures written { IfOk result
            (λ a. IsVersionWritten (writers_of self.now.installed self.now.entries item) a.version_written) }
        ensures readers { IfOk result
            (λ a. (r : Reader)
            → Contains a.readers.now r ↔ IsReader self.now.installed self.now.entries item r) }
        ensures once { IfOk result (λ a. AllPairs (λ p q. p.tx ≢ q.tx) a.readers.now) }
        ensures by_version { IfOk result
            (λ a. AllPairs (λ p q. p.version ≤ q.version) a.readers.now) }
        ensures site { IsSite self.now }
        ensures allowed { OnOk result (IsHere self.now item) }
        ensures refused { IfErr result
            (λ f. (f ≡ SiteFault.UnknownItem) × (IsHere self.now item → ⊥)) }
    {
        match self.cells.find(item) {
            Some(at) => Ok(self.cells.as_slice()[at].accesses()),
            None => Err(SiteFault::UnknownItem),
        }
    }

    /// The items with their values at the end of the log. The cost is the number of items.
    ///
    /// - S4: there was no memory.
    pub fn final_values(&self, alloc: Global) -> Result<Vec<Holding>, SiteFault>
        ensures items { IfOk result (λ finals. names finals.items ≡ names self.now.items) }
        ensures values { IfOk result
            (λ finals. FinalsAreLegal self.now.items self.now.entries finals.items) }
        ensures refused { IfErr result (λ f. f ≡ SiteFault.Memory) }
    {
        match holdings(alloc, self.cells.as_slice()) {
            Ok(finals) => Ok(finals),
            Err(_) => Err(SiteFault::Memory),
        }
    }
}

fn copies(alloc: Global, items: &[Holding]) -> Result<Vec<Holding>, AllocError>
    ensures { IfOk result (λ kept. kept.items ≡ items.now) }
{
    items.iter().copied().collect(alloc)
}

// The items with their present values.
fn holdings(alloc: Global, cells: &[Cell]) -> Result<Vec<Holding>, AllocError>
    ensures { IfOk result (λ finals. finals.items ≡ values_of cells.now) }
{
    cells.iter().map(Cell::holding).collect(alloc)
}

// Whether this transaction has the pledge.
fn is_pledged(pledged: Option<Tx>, tx: Tx) -> bool
    ensures { IsTrue result ↔ (pledged ≡ Some tx) }
{
    match pledged {
        Some(other) => other.number() == tx.number(),
        None => false,
    }
}

// Whether room for so many more was had.
fn make_room<T>(items: &mut Vec<T>, more: usize) -> bool
    ensures items { items.new.items ≡ items.old.items }
    ensures len { vec_len items.new ≡ vec_len items.old }
    ensures room { IsTrue result → vec_len items.old + more ≤ vec_capacity items.new }
    ensures capacity { vec_capacity items.old ≤ vec_capacity items.new }
{
    items.reserve(more).is_ok()
}

fn are_items(items: &[Holding]) -> bool
    ensures { IsTrue result ↔ AreItems items.now }
{
    if items.len() > MAX_ITEMS {
        return false;
    }
    for i in 1..items.len() {
        if !comes_before(&items[i - 1], &items[i]) {
            return false;
        }
    }
    true
}

fn comes_before(a: &Holding, b: &Holding) -> bool
    ensures { IsTrue result ↔ (slice_cmp nat_cmp a.now.item b.now.item ≡ Less) }
{
    match a.item.cmp(&b.item) {
        Ordering::Less => true,
        _ => false,
    }
}

// How many of the last that have ended are looked at first, and how many then.
const FEW: usize = 4;

const NEAR: usize = 64;

// Where the transaction is among those that have ended, or where it would go. It is mostly looked for among the last.
fn search(ended: &[Tx], tx: Tx) -> Result<usize, usize>
    requires { IsRisingBy (λ t. t) nat_cmp ended.now }
    ensures found { IfOk result (IsAt (λ t. t) ended.now tx) }
    ensures absent { IfErr result (IsGapFor (λ t. t) nat_cmp ended.now tx) }
{
    let from = near_end(ended, tx);
    match search_all(&ended[from..], tx) {
        Ok(at) => Ok(from + at),
        Err(at) => Err(from + at),
    }
}

// Where the last begin, if all before them are smaller, and else the beginning.
fn near_end(ended: &[Tx], tx: Tx) -> usize
    requires { IsRisingBy (λ t. t) nat_cmp ended.now }
    ensures within { result ≤ length ended.now }
    ensures before { IsBelow (λ t. t) nat_cmp ended.now tx result }
{
    let end = ended.len();
    if are_below(ended, end, tx) {
        return end;
    }
    let few = end.saturating_sub(FEW);
    if are_below(ended, few, tx) {
        return few;
    }
    let near = end.saturating_sub(NEAR);
    if are_below(ended, near, tx) { near } else { 0 }
}

// Whether all before this place are known to be smaller, by the last of them.
fn are_below(ended: &[Tx], place: usize, tx: Tx) -> bool
    requires rising { IsRisingBy (λ t. t) nat_cmp ended.now }
    requires within { place ≤ length ended.now }
    ensures { IsTrue result → IsBelow (λ t. t) nat_cmp ended.now tx place }
{
    place > 0 && ended[place - 1].number() < tx.number()
}

// Where the transaction is among these, or where it would go. Mostly there are none.
#[inline(always)]
fn search_all(ended: &[Tx], tx: Tx) -> Result<usize, usize>
    requires { IsRisingBy (λ t. t) nat_cmp ended.now }
    ensures found { IfOk result (IsAt (λ t. t) ended.now tx) }
    ensures absent { IfErr result (IsGapFor (λ t. t) nat_cmp ended.now tx) }
{
    if ended.is_empty() {
        return Err(0);
    }
    search_many(ended, tx)
}

// Where the transaction is among these, or where it would go, by a binary search.
#[inline(never)]
fn search_many(ended: &[Tx], tx: Tx) -> Result<usize, usize>
    requires { IsRisingBy (λ t. t) nat_cmp ended.now }
    ensures found { IfOk result (IsAt (λ t. t) ended.now tx) }
    ensures absent { IfErr result (IsGapFor (λ t. t) nat_cmp ended.now tx) }
{
    ended.binary_search_by(|t| t.number().cmp(&tx.number()))
}

// Whether the transaction is among those that have ended.
fn has_ended(ended: &[Tx], tx: Tx) -> bool
    requires { IsRisingBy (λ t. t) nat_cmp ended.now }
    ensures { IsTrue result ↔ Contains ended.now tx }
{
    search(ended, tx).is_ok()
}

// The transaction has its end.
#[inline(always)]
fn add_ended(ended: &mut Vec<Tx>, tx: Tx)
    requires rising { IsRisingBy (λ t. t) nat_cmp ended.old.items }
    requires first { Contains ended.old.items tx → ⊥ }
    requires room { vec_len ended.old < vec_capacity ended.old }
    ensures rising { IsRisingBy (λ t. t) nat_cmp ended.new.items }
    ensures each { (t : ℕ) → Contains ended.new.items t ↔ ((t ≡ tx) ⊎ Contains ended.old.items t) }
    ensures capacity { vec_capacity ended.new ≡ vec_capacity ended.old }
{
    if let Err(at) = search(ended.as_slice(), tx) {
        insert(ended, at, tx);
    }
}
