//! What the logs say, as the search sees it: of each item its operations, of each site its ends, of each transaction
//! its operations and ends. A transaction is named by its place in the order of the numbers.

use crate::groups::Groups;
use sgt_names::{Entry, Item, SiteNo, Tx};
use std::ops::Range;

/// How a transaction ends.
#[derive(Clone, Copy, Debug, PartialEq, Eq)]
pub enum Fate {
    Commit,
    Refuse,
    Withdraw,
}

/// What an operation does to its item, or asks for.
#[derive(Clone, Copy, Debug, PartialEq, Eq)]
pub enum Act {
    Read,
    Put,
    Add,
}

/// What an entry says: its transaction, the end that it asks for, and what it does to which item, if it is an operation.
#[derive(Clone, Copy, Debug)]
pub struct Said {
    pub tx: Tx,
    pub fate: Option<Fate>,
    pub operation: Option<(Item, Act)>,
}

/// What the entry says.
#[inline(always)]
pub fn said_by(entry: &Entry) -> Said {
    let (tx, fate, operation) = match *entry {
        Entry::Read { tx, item, .. } => (tx, None, Some((item, Act::Read))),
        Entry::Write { tx, item, .. } => (tx, Some(Fate::Commit), Some((item, Act::Put))),
        Entry::Add { tx, item, .. } => (tx, Some(Fate::Commit), Some((item, Act::Add))),
        Entry::Want { tx, item, .. } => (tx, Some(Fate::Refuse), Some((item, Act::Put))),
        Entry::WantAdd { tx, item, .. } => (tx, Some(Fate::Refuse), Some((item, Act::Add))),
        Entry::Commit { tx } => (tx, Some(Fate::Commit), None),
        Entry::Refuse { tx } => (tx, Some(Fate::Refuse), None),
        Entry::Withdraw { tx } => (tx, Some(Fate::Withdraw), None),
    };
    Said {
        tx,
        fate,
        operation,
    }
}

/// An operation on an item, and whether its transaction is committed.
#[derive(Clone, Copy, Debug)]
pub struct Operation {
    pub tx: u32,
    pub line: u32,
    pub act: Act,
    pub is_committed: bool,
}

impl Operation {
    /// Where it stands, on this item.
    pub fn place(&self, item: u16) -> Place {
        Place {
            line: self.line,
            item,
            act: self.act,
        }
    }
}

/// An item of a site.
#[derive(Clone, Copy, Debug)]
pub struct Named {
    pub site: SiteNo,
    pub item: Item,
}

/// Where an operation stands: its item, and its line.
#[derive(Clone, Copy, Debug)]
pub struct Place {
    pub line: u32,
    pub item: u16,
    pub act: Act,
}

/// An end, and its line.
#[derive(Clone, Copy, Debug)]
pub struct End {
    pub tx: u32,
    pub line: u32,
}

/// Where a transaction ends: the site, and the place among all ends.
#[derive(Clone, Copy, Debug)]
pub struct Ending {
    pub site: u32,
    pub at: u32,
}

/// A transaction, and its end.
#[derive(Clone, Copy, Debug)]
pub struct Life {
    pub tx: Tx,
    pub fate: Option<Fate>,
    /// Where the places of its operations stand, and how many there are.
    pub first_place: u32,
    pub operations: u32,
    /// The same of its ends.
    pub first_ending: u32,
    pub ends: u8,
}

/// What the logs say.
#[derive(Drop)]
pub struct History {
    /// The items of all sites, by site and name.
    pub items: Vec<Named>,
    /// The operations by item, those on an item in the order of its log.
    pub operations: Vec<Operation>,
    pub by_item: Groups,
    /// Where they stand by transaction, in the order in which these were met, those of one by item and line.
    pub places: Vec<Place>,
    /// The ends in the order of the logs.
    pub ends: Vec<End>,
    /// Of each site the place of its first end.
    pub sites: Vec<u32>,
    /// Where they stand by transaction, in the order in which these were met, those of one by site.
    pub endings: Vec<Ending>,
    /// Of each site the line of its first entry, if it has one.
    pub bases: Vec<usize>,
    pub lives: Vec<Life>,
}

/// So many places from the first one on.
fn span(first: u32, many: u32) -> Range<usize> {
    let start = first as usize;
    start..start.saturating_add(many as usize)
}

impl Life {
    /// Where the places of its operations stand.
    pub fn places(&self) -> Range<usize> {
        span(self.first_place, self.operations)
    }

    /// Where its ends stand by transaction.
    pub fn endings(&self) -> Range<usize> {
        span(self.first_ending, u32::from(self.ends))
    }
}

impl History {
    /// How many transactions there are.
    pub fn count(&self) -> usize {
        self.lives.len()
    }

    /// The transaction and its end.
    pub fn life(&self, tx: u32) -> Option<Life> {
        self.lives.get(tx as usize).copied()
    }

    /// The end that the transaction has.
    pub fn fate(&self, tx: u32) -> Option<Fate> {
        match self.lives.get(tx as usize) {
            Some(life) => life.fate,
            None => None,
        }
    }

    /// Whether the transaction is committed.
    pub fn is_committed(&self, tx: u32) -> bool {
        match self.fate(tx) {
            Some(fate) => fate == Fate::Commit,
            None => false,
        }
    }

    /// Whether it is refused.
    pub fn is_refused(&self, tx: u32) -> bool {
        match self.fate(tx) {
            Some(fate) => fate == Fate::Refuse,
            None => false,
        }
    }

    /// Where the transaction's operations stand.
    pub fn places(&self, tx: u32) -> &[Place] {
        let Some(life) = self.life(tx) else {
            return &[];
        };
        match self.places.get(life.places()) {
            Some(places) => places,
            None => &[],
        }
    }

    /// Where the transaction ends.
    pub fn endings(&self, tx: u32) -> &[Ending] {
        let Some(life) = self.life(tx) else {
            return &[];
        };
        match self.endings.get(life.endings()) {
            Some(endings) => endings,
            None => &[],
        }
    }

    /// The end of this place among all.
    pub fn end_at(&self, at: u32) -> Option<End> {
        self.ends.get(at as usize).copied()
    }

    /// The place behind the site's last end.
    fn end_of(&self, site: usize) -> usize {
        match self.sites.get(site.saturating_add(1)) {
            Some(start) => *start as usize,
            None => self.ends.len(),
        }
    }

    /// The end of this place, if it is one of the site.
    pub fn end_in(&self, site: usize, at: u32) -> Option<End> {
        if (at as usize) < self.end_of(site) {
            self.end_at(at)
        } else {
            None
        }
    }
}
