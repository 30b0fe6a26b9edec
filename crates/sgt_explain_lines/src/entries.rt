//! Two entries of a log in conflict, in words.

ghost use Rattle.std.specs.Prelude.{◌≡◌, ◌≢◌, ◌++◌, IfSome, IfNone, OnOk, string_bytes};
ghost use Rattle.sgt_names.specs.Name.{Name};
ghost use Rattle.sgt_names.specs.Entry.{Clash, tx_of};
ghost use Rattle.sgt_explain_lines.specs.Clashing.{InNoConflict};
ghost use Rattle.sgt_explain_lines.specs.Told.{verb_text, kind_text, order_text, conflict_text};

use crate::section::Logged;
use sgt_names::{Entry, Item, Kind};
use std::alloc::AllocError;
use std::fmt::Write;

/// The item and the kind of the conflict that the second entry is in with the first, which stands before it and is
/// another transaction's.
pub fn clash(first: &Entry, second: &Entry) -> Option<(Item, Kind)>
    ensures clash { IfSome result (λ c. Clash c.1 c.0 first.now second.now) }
    ensures apart { IfSome result (λ _. tx_of first.now ≢ tx_of second.now) }
    ensures none { IfNone result (tx_of first.now ≢ tx_of second.now
        → (item : Name) → InNoConflict item first.now second.now) }
{
    let Some(item) = first.item() else {
        return None;
    };
    if first.tx() == second.tx() {
        return None;
    }
    match first.clash_on(&item, second) {
        Some(kind) => Some((item, kind)),
        None => None,
    }
}

/// What the entry does to its item, in words.
pub fn verb(entry: &Entry) -> &'static str
    ensures { result.now ≡ verb_text entry.now }
{
    match entry {
        Entry::Read { .. } => "read",
        Entry::Write { .. } => "wrote",
        Entry::Add { .. } => "added to",
        Entry::Want { .. } => "asked to write",
        Entry::WantAdd { .. } => "asked to add to",
        Entry::Commit { .. } => "was committed",
        Entry::Refuse { .. } => "was refused",
        Entry::Withdraw { .. } => "was withdrawn",
    }
}

/// The name of a kind of conflict.
pub fn kind_name(kind: Kind) -> &'static str
    ensures { result.now ≡ kind_text kind }
{
    match kind {
        Kind::Wr => "wr",
        Kind::Rw => "rw",
        Kind::Ww => "ww",
    }
}

/// The two entries on the item in words, without their lines: `2 read y before 1 wrote it`.
fn push_order(
    out: &mut String,
    item: &Item,
    first: &Entry,
    second: &Entry,
) -> Result<(), AllocError>
    ensures { OnOk result (string_bytes out.new ≡ string_bytes out.old ++ order_text item.now first.now second.now) }
{
    let from = first.tx();
    let to = second.tx();
    let before = verb(first);
    let after = verb(second);
    write!(out, "{from} {before} {item} before {to} {after} it")
}

/// Two entries on the item in words, with their lines: `2 read y before 1 wrote it: site 0, lines 6 and 7`.
pub fn push_conflict(
    out: &mut String,
    site: u8,
    item: &Item,
    first: &Logged,
    second: &Logged,
) -> Result<(), AllocError>
    ensures { OnOk result (string_bytes out.new ≡ string_bytes out.old ++ conflict_text site item.now first.now
        second.now) }
{
    push_order(out, item, &first.entry, &second.entry)?;
    let one = first.line;
    let other = second.line;
    write!(out, ": site {site}, lines {one} and {other}")
}
