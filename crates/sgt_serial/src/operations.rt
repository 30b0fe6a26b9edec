//! The entries of all logs, by transaction.

ghost use Rattle.std.specs.Prelude.{is_some, ◌≡◌, ◌≤◌, ◌<◌, ◌+◌, ◌++◌, ◌∷◌, [], ℕ, List, length, IfOk};
ghost use Rattle.std.specs.List.{filter, filter_map};
ghost use Rattle.sgt_names.specs.Limits.{max_sites};
ghost use Rattle.sgt_bundle.specs.declared.bundle.SiteLog.{SiteLog};
ghost use Rattle.sgt_serial.specs.Report.{read_at, write_at, run_of};
ghost use Rattle.sgt_serial.specs.private.Operations.{all_entries, is_by};
ghost use Rattle.sgt_serial.specs.declared.entries.SiteEntry.{SiteEntry as AnySiteEntry};
ghost use Rattle.sgt_serial.specs.private.Grouped.{AreOperationsOf, StandsAt, count_in, entries_in};
ghost use Rattle.sgt_serial.specs.private.Reads.{change_by, read_by};

use crate::entries::{SiteEntry, read_of, write_of};
use crate::grouped::Grouped;
use crate::report::{SerialTx, SiteChange, SiteValue};
use crate::sorted::Sorted;
use sgt_compact::CompactLog;
use sgt_names::{Listed, Tx};
use std::alloc::{AllocError, Global};

/// The entries of all logs: those of one transaction stand next to one another, by site and then in log order.
#[derive(Drop)]
pub enum Operations {
    /// Their places in the logs, where the numbers of the transactions are close together.
    Grouped(Grouped),
    /// Copies of them.
    Sorted(Sorted),
}

/// From where to where the entries of a transaction stand.
#[derive(Clone, Copy)]
pub struct Span {
    pub from: usize,
    pub to: usize,
}

fn reads(alloc: Global, own: &[SiteEntry]) -> Result<Vec<SiteValue>, AllocError>
    ensures { IfOk result
        (λ reads. reads.items ≡ filter_map (λ e. read_at e.site e.entry) own.now) }
{
    own.iter().filter_map(read_of).collect(alloc)
}

fn writes(alloc: Global, own: &[SiteEntry]) -> Result<Vec<SiteChange>, AllocError>
    ensures { IfOk result
        (λ writes. writes.items ≡ filter_map (λ e. write_at e.site e.entry) own.now) }
{
    own.iter().filter_map(write_of).collect(alloc)
}

impl Operations {
    /// Those of these logs.
    pub fn new(alloc: Global, logs: &[CompactLog]) -> Result<Operations, AllocError>
        requires { length logs.now ≤ max_sites }
        ensures { IfOk result (AreOperationsOf logs.now) }
    {
        match Grouped::new(alloc, logs)? {
            Some(grouped) => Ok(Operations::Grouped(grouped)),
            None => Ok(Operations::Sorted(Sorted::new(alloc, logs)?)),
        }
    }

    /// Where the entries of the transaction stand.
    pub fn span(&self, tx: Tx) -> Span
        requires { (logs : List SiteLog) × AreOperationsOf logs self.now }
        ensures rising { result.from ≤ result.to }
        ensures within { result.to ≤ count_in self.now }
        ensures entries { (logs : List SiteLog) → AreOperationsOf logs self.now
            → entries_in logs self.now result.from result.to
            ≡ filter (is_by tx) (all_entries logs) }
    {
        match self {
            Operations::Grouped(grouped) => grouped.span(tx),
            Operations::Sorted(sorted) => sorted.span(tx),
        }
    }

    /// The entry at a place.
    #[inline(always)]
    pub fn at(&self, logs: &[CompactLog], place: usize) -> SiteEntry
        requires of { AreOperationsOf logs.now self.now }
        requires within { place < count_in self.now }
        ensures { StandsAt logs.now self.now place result }
    {
        match self {
            Operations::Grouped(grouped) => grouped.at(logs, place),
            Operations::Sorted(sorted) => sorted.at(place),
        }
    }

    /// Whether the entry at a place is a read.
    #[inline(always)]
    pub fn is_read(&self, logs: &[CompactLog], place: usize) -> bool
        requires of { AreOperationsOf logs.now self.now }
        requires within { place < count_in self.now }
        ensures { (e : AnySiteEntry) × StandsAt logs.now self.now place e
            × (result ≡ is_some (read_by e)) }
    {
        match self {
            Operations::Grouped(grouped) => grouped.is_read(logs, place),
            Operations::Sorted(sorted) => sorted.read_at(place).is_some(),
        }
    }

    /// Whether the entry at a place changes its item.
    #[inline(always)]
    pub fn is_change(&self, logs: &[CompactLog], place: usize) -> bool
        requires of { AreOperationsOf logs.now self.now }
        requires within { place < count_in self.now }
        ensures { (e : AnySiteEntry) × StandsAt logs.now self.now place e
            × (result ≡ is_some (change_by e)) }
    {
        match self {
            Operations::Grouped(grouped) => grouped.is_change(logs, place),
            Operations::Sorted(sorted) => write_of(&sorted.at(place)).is_some(),
        }
    }

    /// What the entry at a place reads, if it is a read.
    #[inline(always)]
    pub fn read_at(&self, logs: &[CompactLog], place: usize) -> Option<SiteValue>
        requires of { AreOperationsOf logs.now self.now }
        requires within { place < count_in self.now }
        ensures { (e : AnySiteEntry) × StandsAt logs.now self.now place e
            × (result ≡ read_by e) }
    {
        match self {
            Operations::Grouped(grouped) => grouped.read_at(logs, place),
            Operations::Sorted(sorted) => sorted.read_at(place),
        }
    }

    /// What the entry at a place does to its item, if it changes it.
    #[inline(always)]
    pub fn change_at(&self, logs: &[CompactLog], place: usize) -> Option<SiteChange>
        requires of { AreOperationsOf logs.now self.now }
        requires within { place < count_in self.now }
        ensures { (e : AnySiteEntry) × StandsAt logs.now self.now place e
            × (result ≡ change_by e) }
    {
        match self {
            Operations::Grouped(grouped) => grouped.change_at(logs, place),
            Operations::Sorted(sorted) => write_of(&sorted.at(place)),
        }
    }

    /// Those of the transaction.
    fn of(&self, alloc: Global, logs: &[CompactLog], tx: Tx) -> Result<Vec<SiteEntry>, AllocError>
        requires { AreOperationsOf logs.now self.now }
        ensures { IfOk result (λ own. own.items ≡ filter (is_by tx) (all_entries logs.now)) }
    {
        let span = self.span(tx);
        let mut own = Vec::new(alloc);
        for place in span.from..span.to {
            // in its parts: the borrow checker is to see the type of the entry
            let SiteEntry { site, entry } = self.at(logs, place);
            own.push(SiteEntry { site, entry })?;
        }
        Ok(own)
    }

    /// The transaction with its reads, and with its writes and increments.
    pub fn run(&self, alloc: Global, logs: &[CompactLog], tx: Tx) -> Result<SerialTx, AllocError>
        requires { AreOperationsOf logs.now self.now }
        ensures { IfOk result (λ run. run ≡ run_of logs.now tx) }
    {
        let own = self.of(alloc, logs, tx)?;
        Ok(SerialTx {
            tx,
            reads: Listed::new(reads(alloc, own.as_slice())?),
            writes: Listed::new(writes(alloc, own.as_slice())?),
        })
    }
}
