//! Ends of logs against a set of decided transactions.

ghost use Rattle.std.specs.Prelude.{◌≡◌, ◌↔◌, ℕ, false, IsTrue, IfSome, IfNone, length};
ghost use Rattle.std.specs.BTreeSet.{contains};
ghost use Rattle.std.specs.Ordering.{nat_cmp};
ghost use Rattle.sgt_names.specs.declared.entry.Entry.TheVariants.{Commit as Committed, Refuse as Refused};
ghost use Rattle.sgt_certify_logs.specs.Witness.{EndsBefore, IsIn};
ghost use Rattle.sgt_certify_stuck.specs.Apart.{HasTx};
ghost use Rattle.sgt_certify_stuck.specs.Ends.{AllDecided, IsFirstLeft};
ghost use Rattle.sgt_certify_stuck.specs.private.Ends.{AreUncommitted, EndsBehind, HasFree, HasNoCommit, IsBehind, IsFreeIn, IsNext, IsNextInAll};

use sgt_bundle::SiteLog;
use sgt_certify_logs::stands_in;
use sgt_names::{Entry, Tx};
use std::collections::BTreeSet;

/// Where the first end of the log stands of those that aren't decided, and whose it is.
pub fn first_left(entries: &[Entry], decided: &BTreeSet<Tx>) -> Option<(usize, Tx)>
    ensures some { IfSome result (λ r. IsFirstLeft entries.now decided.now r.0 r.1) }
    ensures none { IfNone result (AllDecided entries.now decided.now (length entries.now)) }
{
    for (place, entry) in entries.iter().enumerate() {
        if entry.is_end() && !decided.contains(&entry.tx()) {
            return Some((place, entry.tx()));
        }
    }
    None
}

/// Whether an end of this transaction stands behind the place.
fn ends_behind(entries: &[Entry], place: usize, tx: Tx) -> bool
    ensures { IsTrue result ↔ EndsBehind entries.now place tx }
{
    for (at, entry) in entries.iter().enumerate() {
        if place < at && entry.is_end() && entry.tx() == tx {
            return true;
        }
    }
    false
}

/// Whether in this log an end of a transaction that isn't decided stands before one of this.
fn is_behind(entries: &[Entry], decided: &BTreeSet<Tx>, tx: Tx) -> bool
    ensures yes { IsTrue result → IsBehind entries.now decided.now tx }
    ensures no { result ≡ false → IsNext entries.now decided.now tx }
{
    match first_left(entries, decided) {
        Some((place, _)) => ends_behind(entries, place, tx),
        None => false,
    }
}

/// Whether in some log an end of a transaction that isn't decided stands before one of this.
pub fn waits(sites: &[SiteLog], decided: &BTreeSet<Tx>, tx: Tx) -> bool
    ensures yes { IsTrue result
        → (u : ℕ) × EndsBefore sites.now u tx × (contains nat_cmp decided.now u ≡ false) }
    ensures no { result ≡ false → (u : ℕ) → EndsBefore sites.now u tx → HasTx decided.now u }
{
    for log in sites {
        if is_behind(log.entries.as_slice(), decided, tx) {
            return true;
        }
    }
    false
}

/// Whether whoever ends before the transaction is decided.
fn is_next(sites: &[SiteLog], decided: &BTreeSet<Tx>, tx: Tx) -> bool
    ensures { IsTrue result ↔ IsNextInAll sites.now decided.now tx }
{
    if waits(sites, decided, tx) {
        return false;
    }
    true
}

/// Whether the first end of this log of those that aren't decided is of one that can be decided next.
fn is_free_in(sites: &[SiteLog], decided: &BTreeSet<Tx>, log: &SiteLog) -> bool
    ensures { IsTrue result ↔ IsFreeIn sites.now decided.now log.now }
{
    match first_left(log.entries.as_slice(), decided) {
        Some(left) => is_next(sites, decided, left.1),
        None => false,
    }
}

/// Whether that is so in some log.
pub fn has_free(sites: &[SiteLog], decided: &BTreeSet<Tx>) -> bool
    ensures { IsTrue result ↔ HasFree sites.now decided.now }
{
    for log in sites {
        if is_free_in(sites, decided, log) {
            return true;
        }
    }
    false
}

/// Whether a log refuses the transaction.
pub fn is_refused(sites: &[SiteLog], tx: Tx) -> bool
    ensures { IsTrue result ↔ IsIn sites.now (Refused tx) }
{
    stands_in(sites, &Entry::Refuse { tx })
}

/// Whether no log commits one of these.
pub fn are_uncommitted(sites: &[SiteLog], others: &BTreeSet<Tx>) -> bool
    ensures { IsTrue result ↔ AreUncommitted sites.now others.now }
{
    for log in sites {
        if !has_no_commit(log.entries.as_slice(), others) {
            return false;
        }
    }
    true
}

/// Whether the entry commits none of these.
fn commits_none(entry: &Entry, others: &BTreeSet<Tx>) -> bool
    ensures { IsTrue result ↔ ((t : ℕ) → entry.now ≡ Committed t → HasTx others.now t → ⊥) }
{
    let Entry::Commit { tx } = entry else {
        return true;
    };
    if others.contains(tx) {
        return false;
    }
    true
}

/// Whether none of the entries does.
fn has_no_commit(entries: &[Entry], others: &BTreeSet<Tx>) -> bool
    ensures { IsTrue result ↔ HasNoCommit entries.now others.now }
{
    for entry in entries {
        if !commits_none(entry, others) {
            return false;
        }
    }
    true
}
