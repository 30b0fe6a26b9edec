//! How often each item of a site was installed.

use crate::install::Prepared;
use crate::row::{ItemCount, Row};
use sgt_names::{Item, SiteNo};
use std::alloc::{AllocError, Global};

/// The counts by site and item. One that has no place counts 0.
#[derive(Drop)]
pub struct Counts {
    // at the number of each site
    rows: Vec<Row>,
}

impl Counts {
    ghost use Rattle.std.specs.Prelude.{◌≡◌, ◌≢◌, ◌+◌, ◌<◌, ◌≤◌, ◌^◌, ℕ, suc, length, None, Some, All, AllPairs, OnOk, OnErr};
    ghost use Rattle.sgt_names.specs.Name.{Name};
    ghost use Rattle.sgt_certifier.specs.Row.{AreRising};
    ghost use Rattle.sgt_certifier.specs.Counted.{CountsEach, HasPlace, HavePlaces, Widens, count_at, row_at, stands_at};

    /// No item was installed.
    pub fn new(alloc: Global) -> Counts
        ensures { (s : ℕ) (x : Name) → stands_at result s x ≡ None }
    {
        Counts {
            rows: Vec::new(alloc),
        }
    }

    /// The items of the site that have places, by rising name.
    pub fn at(&self, site: SiteNo) -> &[ItemCount]
        ensures counts { result.now ≡ row_at self.now site }
        ensures rising { AreRising result.now }
    {
        match self.rows.get(site.number() as usize) {
            Some(row) => row.as_slice(),
            None => &[],
        }
    }

    /// How often the item was installed at the site.
    pub fn get(&self, site: SiteNo, item: Item) -> u64
        ensures { result ≡ count_at self.now site item }
    {
        match self.rows.get(site.number() as usize) {
            Some(row) => row.get(item),
            None => 0,
        }
    }

    // Makes a row for the site, if it has none.
    fn open(&mut self, site: SiteNo) -> Result<(), AllocError>
        ensures same { (s : ℕ) → row_at self.new s ≡ row_at self.old s }
        ensures ok { OnOk result (site < length self.new.rows.items) }
        ensures err { OnErr result (length self.old.rows.items ≤ site) }
    {
        let alloc = *self.rows.allocator();
        for _row in self.rows.len()..site.number() as usize + 1 {
            self.rows.push(Row::new(alloc))?;
        }
        Ok(())
    }

    /// Makes a place for the item of the site, if it has none.
    pub fn place(&mut self, site: SiteNo, item: Item) -> Result<(), AllocError>
        ensures widens { Widens self.old self.new }
        ensures ok { OnOk result (HasPlace self.new site item) }
        ensures err { OnErr result (HasPlace self.old site item → ⊥) }
    {
        self.open(site)?;
        self.rows[site.number() as usize].place(item)
    }

    /// Counts an install of the item, which has a place.
    pub fn add(&mut self, site: SiteNo, item: Item)
        requires place { HasPlace self.old site item }
        requires small { count_at self.old site item + 1 < 2 ^ 64 }
        ensures here { stands_at self.new site item ≡ Some (suc (count_at self.old site item)) }
        ensures others { (s : ℕ) (x : Name) → ((s ≡ site) × (x ≡ item) → ⊥)
            → stands_at self.new s x ≡ stands_at self.old s x }
    {
        self.rows[site.number() as usize].add(item);
    }

    /// Makes a place for each of these items of the site. Where memory is refused not all of them had one.
    pub fn place_each(&mut self, site: SiteNo, items: &[Item]) -> Result<(), AllocError>
        ensures widens { Widens self.old self.new }
        ensures ok { OnOk result (All (HasPlace self.new site) items.now) }
        ensures err { OnErr result (All (HasPlace self.old site) items.now → ⊥) }
    {
        for item in items {
            self.place(site, *item)?;
        }
        Ok(())
    }

    /// Makes a place for each item of the lists.
    pub fn place_lists(&mut self, lists: &[Prepared]) -> Result<(), AllocError>
        ensures widens { Widens self.old self.new }
        ensures ok { OnOk result (All (HavePlaces self.new) lists.now) }
    {
        for list in lists {
            self.place_each(list.site, list.items.as_slice())?;
        }
        Ok(())
    }

    /// Counts an install of these items, which have places.
    pub fn add_each(&mut self, site: SiteNo, items: &[Item])
        requires placed { All (HasPlace self.old site) items.now }
        requires once { AllPairs (λ a b. a ≢ b) items.now }
        requires small { (s : ℕ) (x : Name) → count_at self.old s x + 1 < 2 ^ 64 }
        ensures { CountsEach site items.now self.old self.new }
    {
        for item in items {
            self.add(site, *item);
        }
    }
}
