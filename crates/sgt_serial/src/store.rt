//! The values of the items of all sites, while transactions run.

ghost use Rattle.std.specs.Prelude.{◌≡◌, ℕ, ◌&&◌, map, All, IfOk, IfNone, MatchOption, is_some, if◌then◌else◌, Some, slice_get};
ghost use Rattle.std.specs.Str.{bytes_eq};
ghost use Rattle.sgt_names.specs.Name.{Name};
ghost use Rattle.sgt_names.specs.Log.{value_in, value_with};
ghost use Rattle.sgt_bundle.specs.Parts.{IsShapedLog};
ghost use Rattle.sgt_serial.specs.Difference.{Has, Knows, IsFirstWithout};
ghost use Rattle.sgt_serial.specs.private.Values.{IsRising, store_of, is_of, with_all};

use crate::report::{SiteChange, SiteValue};
use sgt_compact::CompactLog;
use sgt_names::{Change, Holding, Item, SiteNo, Value};
use std::alloc::{AllocError, Global};
use std::marker::Model;

/// The items of a site with their values, by rising name.
#[derive(Drop)]
struct SiteStore {
    holdings: Vec<Holding>,
}

impl Model for SiteStore {
    ghost use Rattle.std.specs.Prelude.{List};
    ghost use Rattle.sgt_names.specs.declared.entry.Holding.{Holding};
    ghost use Rattle.sgt_serial.specs.private.Values.{IsRising};

    ghost Value = { List Holding };

    ghost view = { λ s. s.holdings.items };

    ghost invariant = { λ s. IsRising s.holdings.items };
}

impl SiteStore {
    fn new(alloc: Global, items: &[Holding]) -> Result<SiteStore, AllocError>
        requires { IsRising items.now }
        ensures { IfOk result (λ s. s ≡ items.now) }
    {
        let holdings = Vec::from_slice(alloc, items)?;
        Ok(SiteStore { holdings })
    }

    /// Where the item stands.
    fn place(&self, item: &Item) -> Option<usize>
        ensures { MatchOption result (value_in self.now item.now ≡ None)
            (λ i. (v : ℕ) × (slice_get self.now i ≡ Some (record { item = item.now; value = v }))
            × (value_in self.now item.now ≡ Some v)) }
    {
        self.holdings
            .as_slice()
            .binary_search_by(|holding| holding.item.cmp(item))
            .ok()
    }

    /// The value of the item.
    fn get(&self, item: &Item) -> Option<Value>
        ensures { result ≡ value_in self.now item.now }
    {
        match self.place(item) {
            Some(place) => Some(self.holdings[place].value),
            None => None,
        }
    }

    /// Changes the value of the item, if it is there.
    fn change(&mut self, item: &Item, change: Change) -> bool
        ensures there { result ≡ is_some (value_in self.old item.now) }
        ensures after { (x : Name) → value_in self.new x
            ≡ (if result && bytes_eq item.now x then value_with (value_in self.old x) change
            else value_in self.old x) }
    {
        match self.place(item) {
            Some(place) => {
                let holding = &mut self.holdings[place];
                holding.value = change.apply(holding.value);
                true
            }
            None => false,
        }
    }
}

/// The values of all items: a store of each site.
#[derive(Drop)]
pub struct Store {
    sites: Vec<SiteStore>,
}

impl Model for Store {
    ghost use Rattle.std.specs.Prelude.{List};
    ghost use Rattle.sgt_names.specs.declared.entry.Holding.{Holding};

    ghost Value = { List (List Holding) };

    ghost view = { λ s. s.sites.items };
}

impl Store {
    /// The initial values.
    pub fn initial(alloc: Global, sites: &[CompactLog]) -> Result<Store, AllocError>
        requires { All IsShapedLog sites.now }
        ensures { IfOk result (λ store. store ≡ map (λ log. log.items) sites.now) }
    {
        let mut stores = Vec::new(alloc);
        for log in sites {
            stores.push(SiteStore::new(alloc, log.items())?)?;
        }
        Ok(Store { sites: stores })
    }

    fn get(&self, site: SiteNo, item: &Item) -> Option<Value>
        ensures { result ≡ store_of self.now site item.now }
    {
        match self.sites.get(site.number() as usize) {
            Some(store) => store.get(item),
            None => None,
        }
    }

    /// Makes the change, if its item is there.
    fn change(&mut self, write: &SiteChange) -> bool
        ensures known { result ≡ is_some (store_of self.old write.now.site write.now.item) }
        ensures after { (s : ℕ) (x : Name) → store_of self.new s x
            ≡ (if result && is_of s x write.now
            then value_with (store_of self.old s x) write.now.change
            else store_of self.old s x) }
    {
        let site = write.site.number() as usize;
        if site < self.sites.len() {
            self.sites[site].change(&write.item, write.change)
        } else {
            false
        }
    }

    /// The first of these values that the store hasn't.
    pub fn first_other(&self, values: &[SiteValue]) -> Option<SiteValue>
        ensures { MatchOption result
            (All (Has (store_of self.now)) values.now)
            (IsFirstWithout (Has (store_of self.now)) values.now) }
    {
        for value in values {
            if self.get(value.site, &value.item) != Some(value.value) {
                return Some(*value);
            }
        }
        None
    }

    /// Makes these changes, in order, up to the first whose item isn't there.
    pub fn change_all(&mut self, writes: &[SiteChange]) -> Option<SiteChange>
        ensures known { MatchOption result
            (All (Knows (store_of self.old)) writes.now)
            (IsFirstWithout (Knows (store_of self.old)) writes.now) }
        ensures after { IfNone result
            ((s : ℕ) (x : Name)
            → store_of self.new s x ≡ with_all writes.now (store_of self.old) s x) }
    {
        for write in writes {
            if !self.change(write) {
                return Some(*write);
            }
        }
        None
    }
}
