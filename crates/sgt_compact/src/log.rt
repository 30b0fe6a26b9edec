//! The log of a site, whose entries are held small.

ghost use Rattle.std.specs.Prelude.{◌≡◌, IfOk};

use crate::entries::CompactEntries;
use sgt_bundle::SiteLog;
use sgt_names::{Entry, Holding, Listed};
use std::alloc::{AllocError, Global};
use std::marker::Model;

/// The log of a site, whose entries take 24 bytes each. Contracts see the log.
#[derive(Drop)]
pub struct CompactLog {
    items: Vec<Holding>,
    entries: CompactEntries,
    finals: Vec<Holding>,
}

impl Model for CompactLog {
    ghost use Rattle.sgt_bundle.specs.declared.bundle.SiteLog.{SiteLog};

    ghost Value = { SiteLog };

    ghost view = { λ s. record { items = s.items.items; entries = s.entries; finals = s.finals.items } };
}

impl CompactLog {
    ghost use Rattle.std.specs.Prelude.{◌≡◌, ◌++◌, ◌∷◌, [], IfOk, OnOk};

    /// A log with nothing in it.
    pub fn new(alloc: Global) -> CompactLog
        ensures { result ≡ record { items = []; entries = []; finals = [] } }
    {
        CompactLog {
            items: Vec::new(alloc),
            entries: CompactEntries::new(alloc),
            finals: Vec::new(alloc),
        }
    }

    /// A copy of this log.
    pub fn of(alloc: Global, log: &SiteLog) -> Result<CompactLog, AllocError>
        ensures { IfOk result (λ compact. compact ≡ log.now) }
    {
        let items = Vec::from_slice(alloc, log.items.as_slice())?;
        let finals = Vec::from_slice(alloc, log.finals.as_slice())?;
        Ok(CompactLog {
            items,
            entries: compact_entries(alloc, log)?,
            finals,
        })
    }

    /// One more item. An entry of it takes the least room where the item is listed before it.
    pub fn add_item(&mut self, holding: Holding) -> Result<(), AllocError>
        ensures { OnOk result
            (self.new ≡ record self.old { items = self.old.items ++ holding ∷ [] }) }
    {
        self.entries.name(holding.item)?;
        self.items.push(holding)?;
        Ok(())
    }

    /// One more entry. Its item is listed at this place, or else it takes more room.
    #[inline(always)]
    pub fn add_entry(&mut self, entry: Entry, place: usize) -> Result<(), AllocError>
        ensures { OnOk result
            (self.new ≡ record self.old { entries = self.old.entries ++ entry ∷ [] }) }
    {
        self.entries.push(entry, place)
    }

    /// One more entry, whose item is searched for among those that are listed.
    pub fn add_entry_by_name(&mut self, entry: Entry) -> Result<(), AllocError>
        ensures { OnOk result
            (self.new ≡ record self.old { entries = self.old.entries ++ entry ∷ [] }) }
    {
        let place = place_in(self.items.as_slice(), &entry);
        self.add_entry(entry, place)
    }

    /// One more final value.
    pub fn add_final(&mut self, holding: Holding) -> Result<(), AllocError>
        ensures { OnOk result
            (self.new ≡ record self.old { finals = self.old.finals ++ holding ∷ [] }) }
    {
        self.finals.push(holding)?;
        Ok(())
    }

    /// Its items with their initial values.
    pub fn items(&self) -> &[Holding]
        ensures { result.now ≡ self.now.items }
    {
        self.items.as_slice()
    }

    /// Its entries.
    #[inline(always)]
    pub fn entries(&self) -> &CompactEntries
        ensures { result.now ≡ self.now.entries }
    {
        &self.entries
    }

    /// Its items with their final values.
    pub fn finals(&self) -> &[Holding]
        ensures { result.now ≡ self.now.finals }
    {
        self.finals.as_slice()
    }

    /// Its items with their final values, alone.
    pub fn into_finals(self) -> Listed<Holding>
        ensures { result ≡ self.finals }
    {
        let CompactLog { finals, .. } = self;
        Listed::new(finals)
    }

    /// The log, with entries of 32 bytes each. Err: memory ran out.
    pub fn into_log(self, alloc: Global) -> Result<SiteLog, AllocError>
        ensures { IfOk result (λ log. log ≡ self) }
    {
        let CompactLog {
            items,
            entries,
            finals,
        } = self;
        Ok(SiteLog {
            items: Listed::new(items),
            entries: Listed::new(entries.to_vec(alloc)?),
            finals: Listed::new(finals),
        })
    }
}

/// Where the entry's item is listed in the log. Nothing is proved of it.
fn place_in(items: &[Holding], entry: &Entry) -> usize {
    match entry.item() {
        Some(item) => match items.binary_search_by(|holding| holding.item.cmp(&item)) {
            Ok(place) => place,
            Err(_) => usize::MAX,
        },
        None => usize::MAX,
    }
}

/// The entries of a log.
fn compact_entries(alloc: Global, log: &SiteLog) -> Result<CompactEntries, AllocError>
    ensures { IfOk result (λ entries. entries ≡ log.now.entries) }
{
    let items = log.items.as_slice();
    let mut entries = CompactEntries::new(alloc);
    for holding in items {
        entries.name(holding.item)?;
    }
    for entry in log.entries.as_slice() {
        entries.push(*entry, place_in(items, entry))?;
    }
    Ok(entries)
}
