//! The entries of all logs, copied and sorted by transaction.

ghost use Rattle.std.specs.Prelude.{◌≡◌, ℕ, List, true, false, nat_lt, ◌++◌, ◌∷◌, [], ◌+◌, ◌≤◌, ◌<◌, length, map, OnOk, IfOk};
ghost use Rattle.std.specs.List.{filter};
ghost use Rattle.std.specs.List.Sorted.{IsNonDecreasingBy, IsPartitionPoint};
ghost use Rattle.sgt_names.specs.Limits.{max_sites};
ghost use Rattle.sgt_bundle.specs.declared.bundle.SiteLog.{SiteLog};
ghost use Rattle.sgt_serial.specs.declared.operations.Operations.TheVariants as operations;
ghost use Rattle.sgt_serial.specs.private.Operations.{entry_at, owner, is_by};
ghost use Rattle.sgt_serial.specs.declared.entries.SiteEntry.{SiteEntry as AnySiteEntry};
ghost use Rattle.sgt_serial.specs.private.Grouped.{IsSortedOf, StandsAt, entries_in};
ghost use Rattle.sgt_serial.specs.private.Reads.{read_by};

use crate::entries::{SiteEntry, read_of};
use crate::operations::Span;
use crate::report::SiteValue;
use sgt_compact::{CompactEntries, CompactLog};
use sgt_names::{SiteNo, Tx};
use std::alloc::{AllocError, Global};
use std::marker::Model;

/// The entries in the order of their transactions; those of one transaction by site and then in log order.
#[derive(Drop)]
pub struct Sorted {
    entries: Vec<SiteEntry>,
}

impl Model for Sorted {
    ghost use Rattle.std.specs.Prelude.{List};
    ghost use Rattle.std.specs.List.Sorted.{IsNonDecreasingBy};
    ghost use Rattle.sgt_serial.specs.private.Operations.{owner};
    ghost use Rattle.sgt_serial.specs.declared.entries.SiteEntry.{SiteEntry};

    ghost Value = { List SiteEntry };

    ghost view = { λ o. o.entries.items };

    ghost invariant = { λ o. IsNonDecreasingBy owner o.entries.items };
}

/// How many of the entries are of transactions of smaller numbers.
fn count_below(entries: &[SiteEntry], number: u64) -> usize
    requires { IsNonDecreasingBy owner entries.now }
    ensures within { result ≤ length entries.now }
    ensures point { IsPartitionPoint (λ e. nat_lt (owner e) number ≡ true)
        (λ e. nat_lt (owner e) number ≡ false) entries.now result }
{
    entries.partition_point(|own| u64::from(own.entry.tx().number()) < number)
}

/// Adds the entries of a site's log.
fn add_site(
    entries: &mut Vec<SiteEntry>,
    site: SiteNo,
    logged: &CompactEntries,
) -> Result<(), AllocError>
    ensures { OnOk result
        (entries.new.items ≡ entries.old.items ++ map (entry_at site) logged.now) }
{
    for at in 0..logged.len() {
        entries.push(SiteEntry {
            site,
            entry: logged.at(at),
        })?;
    }
    Ok(())
}

impl Sorted {
    /// Those of these logs.
    pub fn new(alloc: Global, sites: &[CompactLog]) -> Result<Sorted, AllocError>
        requires { length sites.now ≤ max_sites }
        ensures { IfOk result (IsSortedOf sites.now) }
    {
        let mut entries = Vec::new(alloc);
        for (number, log) in sites.iter().enumerate() {
            let site = SiteNo::new(number as u64).unwrap();
            add_site(&mut entries, site, log.entries())?;
        }
        entries.sort_by_key(|own| own.entry.tx().number())?;
        Ok(Sorted { entries })
    }

    /// Where the entries of the transaction stand.
    pub fn span(&self, tx: Tx) -> Span
        ensures rising { result.from ≤ result.to }
        ensures within { result.to ≤ length self.now }
        ensures entries { (logs : List SiteLog)
            → entries_in logs (operations.Sorted self.now) result.from result.to
            ≡ filter (is_by tx) self.now }
    {
        let entries = self.entries.as_slice();
        let number = u64::from(tx.number());
        let from = count_below(entries, number);
        let long = count_below(&entries[from..], number + 1);
        Span {
            from,
            to: from + long,
        }
    }

    /// The entry at a place.
    pub fn at(&self, place: usize) -> SiteEntry
        requires { place < length self.now }
        ensures { (logs : List SiteLog) → StandsAt logs (operations.Sorted self.now) place result }
    {
        self.entries[place]
    }

    /// What the entry at a place reads, if it is a read.
    pub fn read_at(&self, place: usize) -> Option<SiteValue>
        requires { place < length self.now }
        ensures { (e : AnySiteEntry) × ((logs : List SiteLog)
            → StandsAt logs (operations.Sorted self.now) place e)
            × (result ≡ read_by e) }
    {
        read_of(&self.entries[place])
    }
}
