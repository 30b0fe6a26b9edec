//! What may stand behind an entry.

ghost use Rattle.std.specs.Prelude.{◌↔◌, IsTrue};
ghost use Rattle.sgt_names.specs.Entry.{GoesOn, GoesOnAsking};
ghost use Rattle.sgt_audit.specs.private.Judging.{FollowsLast};

use crate::place::Last;
use sgt_names::{Entry, Tx};
use sgt_notation::SectionLine;

/// Whether it may stand behind a change of the transaction in its block.
#[inline(always)]
fn goes_on(tx: Tx, entry: &Entry) -> bool
    ensures { IsTrue result ↔ GoesOn tx entry.now }
{
    match *entry {
        Entry::Write { tx: next, .. } | Entry::Add { tx: next, .. } => tx == next,
        Entry::Commit { tx: next } => tx == next,
        _ => false,
    }
}

/// Whether it may stand behind what the transaction asks for, in its block.
#[inline(always)]
fn goes_on_asking(tx: Tx, entry: &Entry) -> bool
    ensures { IsTrue result ↔ GoesOnAsking tx entry.now }
{
    match *entry {
        Entry::Want { tx: next, .. } | Entry::WantAdd { tx: next, .. } => tx == next,
        Entry::Refuse { tx: next } => tx == next,
        _ => false,
    }
}

/// Whether the line may stand behind an entry of which this is kept.
#[inline(always)]
pub(crate) fn follows_last(last: Last, line: &SectionLine) -> bool
    ensures { IsTrue result ↔ FollowsLast last line.now }
{
    match last {
        Last::NoEntry | Last::Shut => true,
        Last::Changes(tx) => match line {
            SectionLine::Logged(entry) => goes_on(tx, entry),
            _ => false,
        },
        Last::Wants(tx) => match line {
            SectionLine::Logged(entry) => goes_on_asking(tx, entry),
            _ => false,
        },
    }
}
