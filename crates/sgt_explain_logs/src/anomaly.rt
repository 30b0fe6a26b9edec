//! The name of a cycle of conflicts, by its kinds and its items.
//!
//! Definitions: A. Adya, Weak Consistency, PhD thesis, MIT 1999 (G0, G1c, G-single, G2-item); Berenson et al., A
//! Critique of ANSI SQL Isolation Levels, SIGMOD 1995 (P4, A5A, A5B).

use sgt_explain_lines::{Logged, verb};
use sgt_explain_transaction::Pair;
use sgt_names::{Entry, Item, Kind};
use std::alloc::AllocError;
use std::fmt::Write;

/// An update that another overwrote unseen: whoever wrote in the last of these lines had read the item in the first.
#[derive(Clone, Copy)]
pub struct Lost {
    pub item: Item,
    pub read: Logged,
    pub overwritten: Logged,
    pub overwriting: Logged,
}

/// What a cycle of conflicts is called.
#[derive(Clone, Copy)]
pub enum Anomaly {
    /// G0: writes alone.
    WriteCycle,
    /// G1c: writes, and reads of them.
    CircularFlow,
    /// P4: of two transactions on one item.
    LostUpdate(Lost),
    /// A5A: the first conflict is of the read that was overwritten, the second of the one that was not.
    ReadSkew { before: Pair, behind: Pair },
    /// A5B: both conflicts are of reads that were overwritten.
    WriteSkew { one: Pair, other: Pair },
    /// G-single: one read that was overwritten.
    Single,
    /// G2-item: so many reads that were overwritten.
    Item(u64),
}

/// The kind of the conflict. Two entries that are in none count as two writes.
fn kind_of(pair: &Pair) -> Kind {
    match pair.first.entry.clash_on(&pair.item, &pair.second.entry) {
        Some(kind) => kind,
        None => Kind::Ww,
    }
}

fn count_of(pairs: &[Pair], kind: Kind) -> u64 {
    let mut count = 0u64;
    for pair in pairs {
        if kind_of(pair) == kind {
            count = count.saturating_add(1);
        }
    }
    count
}

/// The name by the kinds alone.
fn class_of(pairs: &[Pair]) -> Anomaly {
    match count_of(pairs, Kind::Rw) {
        0 if count_of(pairs, Kind::Wr) == 0 => Anomaly::WriteCycle,
        0 => Anomaly::CircularFlow,
        1 => Anomaly::Single,
        reads => Anomaly::Item(reads),
    }
}

/// The update that is lost where who read at the first conflict wrote at the second.
fn lost_by(read: &Pair, write: &Pair) -> Option<Lost> {
    let overwrites = matches!(write.second.entry, Entry::Write { .. });
    if overwrites && read.second.line < write.second.line {
        return Some(Lost {
            item: read.item,
            read: read.first,
            overwritten: read.second,
            overwriting: write.second,
        });
    }
    None
}

/// The name of two conflicts that both begin with a read.
fn of_two_reads(one: &Pair, other: &Pair, is_one_item: bool) -> Option<Anomaly> {
    if !is_one_item {
        return Some(Anomaly::WriteSkew {
            one: *one,
            other: *other,
        });
    }
    match lost_by(one, other) {
        Some(lost) => Some(Anomaly::LostUpdate(lost)),
        None => Some(Anomaly::LostUpdate(lost_by(other, one)?)),
    }
}

/// The name of two conflicts of which the first alone begins with a read.
fn of_one_read(read: &Pair, other: &Pair, is_one_item: bool) -> Option<Anomaly> {
    match kind_of(other) {
        Kind::Wr => Some(Anomaly::ReadSkew {
            before: *read,
            behind: *other,
        }),
        _ if is_one_item => Some(Anomaly::LostUpdate(lost_by(read, other)?)),
        _ => None,
    }
}

/// The name of a cycle of two conflicts, where they have one of their own.
fn of_two(one: &Pair, other: &Pair) -> Option<Anomaly> {
    let is_one_item = one.site == other.site && one.item == other.item;
    match (kind_of(one), kind_of(other)) {
        (Kind::Rw, Kind::Rw) => of_two_reads(one, other, is_one_item),
        (Kind::Rw, _) => of_one_read(one, other, is_one_item),
        (_, Kind::Rw) => of_one_read(other, one, is_one_item),
        _ => None,
    }
}

/// What the cycle of these conflicts is called: each leads from the transaction of its first entry to that of its
/// second, and the last one back to where the first began.
fn anomaly_of(pairs: &[Pair]) -> Anomaly {
    if pairs.len() == 2 {
        if let (Some(one), Some(other)) = (pairs.first(), pairs.last()) {
            if let Some(named) = of_two(one, other) {
                return named;
            }
        }
    }
    class_of(pairs)
}

fn push_lost(out: &mut String, lost: &Lost) -> Result<(), AllocError> {
    let item = lost.item;
    let loser = lost.overwritten.entry.tx();
    let winner = lost.overwriting.entry.tx();
    let (read, changed) = (lost.read.line, lost.overwritten.line);
    let done = verb(&lost.overwritten.entry);
    let last = lost.overwriting.line;
    write!(
        out,
        "lost update (G-single): {winner} read {item} (line {read}) before {loser} {done} it (line {changed}), and \
        then overwrote that unseen (line {last})\n"
    )
}

fn push_read_skew(out: &mut String, before: &Pair, behind: &Pair) -> Result<(), AllocError> {
    let reader = before.first.entry.tx();
    let writer = before.second.entry.tx();
    let (old, new) = (before.item, behind.item);
    write!(
        out,
        "read skew (G-single): {reader} read {old} before {writer} changed it, and {new} after: it saw half of what \
        {writer} did\n"
    )
}

fn push_write_skew(out: &mut String, one: &Pair, other: &Pair) -> Result<(), AllocError> {
    let first = one.first.entry.tx();
    let second = other.first.entry.tx();
    let (item, changed) = (one.item, other.item);
    write!(
        out,
        "write skew (G2-item): {first} read {item}, {second} read {changed}, and each changed what the other had read\n"
    )
}

/// The name, and what it means in a sentence.
fn push_meaning(out: &mut String, anomaly: &Anomaly) -> Result<(), AllocError> {
    match anomaly {
        Anomaly::WriteCycle => {
            out.push_str("write cycle (G0): they overwrote one another's writes in a circle\n")
        }
        Anomaly::CircularFlow => out.push_str(
            "circular flow (G1c): each read or overwrote what the one before it had written\n",
        ),
        Anomaly::LostUpdate(lost) => push_lost(out, lost),
        Anomaly::ReadSkew { before, behind } => push_read_skew(out, before, behind),
        Anomaly::WriteSkew { one, other } => push_write_skew(out, one, other),
        Anomaly::Single => out.push_str("G-single: a cycle with one read that was overwritten\n"),
        Anomaly::Item(reads) => write!(
            out,
            "G2-item: a cycle with {reads} reads that were overwritten\n"
        ),
    }
}

/// The name by which `sgt explain` has the rule.
fn topic_of(anomaly: &Anomaly) -> &'static str {
    match anomaly {
        Anomaly::WriteCycle => "G0",
        Anomaly::CircularFlow => "G1c",
        Anomaly::LostUpdate(_) | Anomaly::ReadSkew { .. } | Anomaly::Single => "G-single",
        Anomaly::WriteSkew { .. } | Anomaly::Item(_) => "G2-item",
    }
}

/// The name of the cycle, what it means, and where more is told.
pub(crate) fn push_anomaly(out: &mut String, pairs: &[Pair]) -> Result<(), AllocError> {
    let anomaly = anomaly_of(pairs);
    push_meaning(out, &anomaly)?;
    let topic = topic_of(&anomaly);
    write!(
        out,
        "`sgt explain {topic}` says which isolation levels let it happen\n"
    )
}
