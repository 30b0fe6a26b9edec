//! An entry of a log, whose item is told by a number.

ghost use Rattle.std.specs.Prelude.{◌≡◌, List};
ghost use Rattle.sgt_names.specs.Name.{Name};
ghost use Rattle.sgt_names.specs.Entry.{item_of};
ghost use Rattle.sgt_compact_entry.specs.Compact.{IsNumberOf, IsNumbered, named};

use sgt_names::{Entry, Item, Tx, Value};

/// What an entry says.
#[derive(Clone, Copy)]
pub enum Act {
    Read,
    Write,
    Add,
    Want,
    WantAdd,
    Commit,
    Refuse,
    Withdraw,
}

/// An entry whose item is told by its number in a list of items. Of an end the number and the value mean nothing.
#[derive(Clone, Copy)]
pub struct CompactEntry {
    pub value: Value,
    pub item: usize,
    pub tx: Tx,
    pub act: Act,
}

/// The entry, whose item has this number, if it has one.
#[inline(always)]
pub fn compact(entry: &Entry, item: usize) -> CompactEntry
    ensures numbered { (items : List Name) → IsNumberOf items (item_of entry.now) item
        → IsNumbered items result }
    ensures same { (items : List Name) → IsNumberOf items (item_of entry.now) item
        → named items result ≡ entry.now }
    ensures number { result.item ≡ item }
{
    let (act, tx, value) = match *entry {
        Entry::Read { tx, value, .. } => (Act::Read, tx, value),
        Entry::Write { tx, value, .. } => (Act::Write, tx, value),
        Entry::Add { tx, value, .. } => (Act::Add, tx, value),
        Entry::Want { tx, value, .. } => (Act::Want, tx, value),
        Entry::WantAdd { tx, value, .. } => (Act::WantAdd, tx, value),
        Entry::Commit { tx } => (Act::Commit, tx, 0),
        Entry::Refuse { tx } => (Act::Refuse, tx, 0),
        Entry::Withdraw { tx } => (Act::Withdraw, tx, 0),
    };
    CompactEntry {
        value,
        item,
        tx,
        act,
    }
}

/// The entry itself.
#[inline(always)]
pub fn entry_of(items: &[Item], entry: &CompactEntry) -> Entry
    requires { IsNumbered items.now entry.now }
    ensures { result ≡ named items.now entry.now }
{
    let CompactEntry {
        value,
        item,
        tx,
        act,
    } = *entry;
    match act {
        Act::Commit => Entry::Commit { tx },
        Act::Refuse => Entry::Refuse { tx },
        Act::Withdraw => Entry::Withdraw { tx },
        Act::Read => Entry::Read {
            tx,
            item: items[item],
            value,
        },
        Act::Write => Entry::Write {
            tx,
            item: items[item],
            value,
        },
        Act::Add => Entry::Add {
            tx,
            item: items[item],
            value,
        },
        Act::Want => Entry::Want {
            tx,
            item: items[item],
            value,
        },
        Act::WantAdd => Entry::WantAdd {
            tx,
            item: items[item],
            value,
        },
    }
}
