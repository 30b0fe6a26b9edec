//! Which conflicts of a cycle's steps are of increments.

use sgt_bundle::{SiteLog, Step};
use sgt_names::{Item, Kind, Tx};
use std::alloc::{AllocError, Global};

/// An increment of an item at a site, made or asked for.
#[derive(Clone, Copy)]
struct Added {
    tx: Tx,
    site: u32,
    item: Item,
}

/// The increments of a bundle, by transaction, site and item.
#[derive(Drop)]
pub struct Increments {
    added: Vec<Added>,
}

impl Increments {
    /// None.
    pub(crate) fn none(alloc: Global) -> Increments {
        Increments {
            added: Vec::new(alloc),
        }
    }

    /// All that these logs have.
    pub(crate) fn of(alloc: Global, sites: &[SiteLog]) -> Result<Increments, AllocError> {
        let mut added = Vec::new(alloc);
        let mut site = 0u32;
        for log in sites {
            for entry in log.entries.as_slice() {
                if entry.is_increment() {
                    if let Some(item) = entry.item() {
                        let tx = entry.tx();
                        added.push(Added { tx, site, item })?;
                    }
                }
            }
            site = site.saturating_add(1);
        }
        added.sort_by_key(|one| (one.tx.number(), one.site, one.item))?;
        Ok(Increments { added })
    }

    /// Whether the transaction increments the item at the site, or asks to. A binary search.
    fn has(&self, tx: Tx, site: u32, item: &Item) -> bool {
        let added = self.added.as_slice();
        let wanted = (tx.number(), site, *item);
        let at = added.partition_point(|one| (one.tx.number(), one.site, one.item) < wanted);
        match added.get(at) {
            Some(found) => found.tx == tx && found.site == site && found.item == *item,
            None => false,
        }
    }

    /// Whether an increment is in the conflict of a step from this transaction. No transaction changes an item twice
    /// at a site.
    pub(crate) fn has_step(&self, from: Tx, step: &Step) -> bool {
        let label = &step.label;
        let site = u32::from(label.site.number());
        if label.kind != Kind::Rw && self.has(from, site, &label.item) {
            return true;
        }
        label.kind != Kind::Wr && self.has(step.to, site, &label.item)
    }
}
