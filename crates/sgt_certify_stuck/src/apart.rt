//! Conflicts that lead from some transactions to some others, looked for in one pass over a log.

ghost use Rattle.std.specs.Prelude.{◌≡◌, ◌↔◌, ◌⊎◌, IsTrue, IfOk, IfSome, OnOk, Contains, Some};
ghost use Rattle.sgt_names.specs.Name.{Name};
ghost use Rattle.sgt_names.specs.Entry.{tx_of};
ghost use Rattle.sgt_bundle.specs.declared.bundle.SiteLog.{SiteLog as Log};
ghost use Rattle.sgt_certify_stuck.specs.Apart.{AreApart, Does, HasItem, HasTx, IsClear};

use sgt_bundle::SiteLog;
use sgt_names::{Entry, Item, Tx};
use std::alloc::{AllocError, Global};
use std::collections::BTreeSet;

/// What an entry does to an item.
#[derive(Clone, Copy)]
pub enum Class {
    Read,
    /// It changes it or asks to.
    Change,
    /// It does so by a write.
    Put,
}

fn does(class: Class, entry: &Entry, item: &Item) -> bool
    ensures { IsTrue result ↔ Does class item.now entry.now }
{
    match class {
        Class::Read => entry.reads(item),
        Class::Change => entry.writes(item),
        Class::Put => entry.writes(item) && !entry.is_increment(),
    }
}

/// The item to which the entry does this, if it does it.
pub fn item_by(class: Class, entry: &Entry) -> Option<Item>
    ensures only { IfSome result (λ x. Does class x entry.now) }
    ensures all { (x : Name) → Does class x entry.now → result ≡ Some x }
{
    match entry.item() {
        Some(item) if does(class, entry, &item) => Some(item),
        _ => None,
    }
}

/// Whether the entry is of a barred transaction and does this to an item that was seen.
fn meets(seen: &BTreeSet<Item>, barred: &BTreeSet<Tx>, class: Class, entry: &Entry) -> bool
    ensures only { IsTrue result
        → (x : Name) × HasItem seen.now x × HasTx barred.now (tx_of entry.now)
        × Does class x entry.now }
    ensures all { (x : Name) → HasItem seen.now x → HasTx barred.now (tx_of entry.now)
        → Does class x entry.now → IsTrue result }
{
    if !barred.contains(&entry.tx()) {
        return false;
    }
    match item_by(class, entry) {
        Some(item) => seen.contains(&item),
        None => false,
    }
}

/// Adds the item to which the entry does this, if it is of a source.
fn note(
    seen: &mut BTreeSet<Item>,
    sources: &BTreeSet<Tx>,
    class: Class,
    entry: &Entry,
) -> Result<(), AllocError>
    ensures kept { OnOk result ((x : Name) → HasItem seen.old x → HasItem seen.new x) }
    ensures added { OnOk result
        ((x : Name) → HasTx sources.now (tx_of entry.now) → Does class x entry.now
        → HasItem seen.new x) }
    ensures only { OnOk result ((x : Name) → HasItem seen.new x
        → HasItem seen.old x ⊎ (HasTx sources.now (tx_of entry.now) × Does class x entry.now)) }
{
    if sources.contains(&entry.tx()) {
        if let Some(item) = item_by(class, entry) {
            seen.insert(item)?;
        }
    }
    Ok(())
}

/// Two things that are done to an item, one before the other.
#[derive(Clone, Copy)]
pub struct Pair {
    pub first: Class,
    pub second: Class,
}

/// Each conflict is one of these pairs.
pub const READS: Pair = Pair {
    first: Class::Change,
    second: Class::Read,
};

pub const CHANGES: Pair = Pair {
    first: Class::Read,
    second: Class::Change,
};

pub const PUTS: Pair = Pair {
    first: Class::Change,
    second: Class::Put,
};

pub const PUT_OVER: Pair = Pair {
    first: Class::Put,
    second: Class::Change,
};

/// Whether no source does the first of the pair to an item before a barred one does the second to it.
fn is_clear(
    alloc: Global,
    entries: &[Entry],
    sources: &BTreeSet<Tx>,
    barred: &BTreeSet<Tx>,
    pair: Pair,
) -> Result<bool, AllocError>
    ensures { IfOk result
        (λ clear. IsTrue clear
        ↔ IsClear entries.now sources.now barred.now pair.first pair.second) }
{
    let mut seen = BTreeSet::new(alloc);
    for entry in entries {
        if meets(&seen, barred, pair.second, entry) {
            return Ok(false);
        }
        note(&mut seen, sources, pair.first, entry)?;
    }
    Ok(true)
}

/// Whether no entry of a source stands in the log before one of a barred one that it clashes with.
fn are_apart(
    alloc: Global,
    entries: &[Entry],
    sources: &BTreeSet<Tx>,
    barred: &BTreeSet<Tx>,
) -> Result<bool, AllocError>
    ensures { IfOk result (λ apart. IsTrue apart ↔ AreApart entries.now sources.now barred.now) }
{
    let free_of_reads = is_clear(alloc, entries, sources, barred, READS)?;
    if !free_of_reads {
        return Ok(false);
    }
    let free_of_changes = is_clear(alloc, entries, sources, barred, CHANGES)?;
    if !free_of_changes {
        return Ok(false);
    }
    let free_of_puts = is_clear(alloc, entries, sources, barred, PUTS)?;
    if !free_of_puts {
        return Ok(false);
    }
    is_clear(alloc, entries, sources, barred, PUT_OVER)
}

/// Whether none does in any log.
pub fn are_all_apart(
    alloc: Global,
    sites: &[SiteLog],
    sources: &BTreeSet<Tx>,
    barred: &BTreeSet<Tx>,
) -> Result<bool, AllocError>
    ensures { IfOk result
        (λ apart. IsTrue apart ↔ ((log : Log) → Contains sites.now log
        → AreApart log.entries sources.now barred.now)) }
{
    for log in sites {
        if !are_apart(alloc, log.entries.as_slice(), sources, barred)? {
            return Ok(false);
        }
    }
    Ok(true)
}
