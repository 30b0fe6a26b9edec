//! The faults of the touches of one version of one item.

ghost use Rattle.std.specs.Prelude.{◌≡◌, ◌≢◌, ◌+◌, ◌<◌, ◌≤◌, ℕ, Bool, true, IsTrue, ◌↔◌, List, Some, length, slice_get, take, All, Contains};
ghost use Rattle.sgt_history.specs.Flaws.{IsFaulty, rank_of};
ghost use Rattle.sgt_history.specs.Transaction.{Transaction};
ghost use Rattle.sgt_history.specs.declared.named.Flaw.{Flaw};
ghost use Rattle.sgt_history_faults.specs.declared.touch.Touch.{Touch};
ghost use Rattle.sgt_history_faults.specs.Group.{AreAlike, AreCovered, AreEarlier, AreFaulty, HasGroupFlaw, IsEarliest, IsFaultyTouch, IsRead, IsWrite, IsWriter, LinesRise};
ghost use Rattle.sgt_history_faults.specs.Noted.{Covers, IsReal};

use crate::fault::{Fault, with_fault};
use crate::touch::Touch;
use sgt_history::{Flaw, Kind};

/// The first of the writes by transactions that commit.
fn writer_of(writes: &[Touch]) -> Option<Touch>
    requires { LinesRise writes.now }
    ensures { IsWriter writes.now result }
{
    for write in writes {
        if write.commits {
            return Some(*write);
        }
    }
    None
}

/// The first fault, with that of a write.
fn judge_write(writer: &Touch, write: &Touch, before: Option<Fault>) -> Option<Fault>
    ensures kept { (line rank place : ℕ) → Covers before line rank place → Covers result line rank place }
    ensures covered { (writes : List Touch) (flaw : Flaw) → IsEarliest writes writer.now → IsWrite write.now
        → HasGroupFlaw writes write.now flaw → Covers result write.now.line (rank_of flaw) write.now.place }
    ensures real { (h : List (Transaction ℕ ℕ)) (writes : List Touch) → IsEarliest writes writer.now → IsWrite write.now
        → IsFaultyTouch h writes write.now → IsReal h before → IsReal h result }
{
    if !write.commits {
        return before;
    }
    if write.line <= writer.line {
        return before;
    }
    let fault = Fault {
        line: write.line,
        flaw: Flaw::Duplicate,
        place: write.place,
    };
    with_fault(before, fault)
}

/// The first fault, with those of the writes.
fn judge_writes(writes: &[Touch], writer: &Touch, before: Option<Fault>) -> Option<Fault>
    requires writer { IsEarliest writes.now writer.now }
    requires writes { All IsWrite writes.now }
    ensures kept { (line rank place : ℕ) → Covers before line rank place → Covers result line rank place }
    ensures covered { AreCovered writes.now writes.now result }
    ensures real { (h : List (Transaction ℕ ℕ)) → AreFaulty h writes.now writes.now → IsReal h before
        → IsReal h result }
{
    let mut first = before;
    for write in writes {
        first = judge_write(writer, write, first);
    }
    first
}

/// The first fault, with those of the writes, if one is of a transaction that commits.
fn judge_any_writes(
    writes: &[Touch],
    writer: &Option<Touch>,
    before: Option<Fault>,
) -> Option<Fault>
    requires writer { IsWriter writes.now writer.now }
    requires writes { All IsWrite writes.now }
    ensures kept { (line rank place : ℕ) → Covers before line rank place → Covers result line rank place }
    ensures covered { AreCovered writes.now writes.now result }
    ensures real { (h : List (Transaction ℕ ℕ)) → AreFaulty h writes.now writes.now → IsReal h before
        → IsReal h result }
{
    match writer {
        None => before,
        Some(writer) => judge_writes(writes, writer, before),
    }
}

/// The first fault, with that of a read of a version that its transaction writes itself, if it does.
fn judge_own(read: &Touch, own: bool, before: Option<Fault>) -> Option<Fault>
    ensures kept { (line rank place : ℕ) → Covers before line rank place → Covers result line rank place }
    ensures covered { IsTrue own → Covers result read.now.line 0 read.now.place }
    ensures real { (h : List (Transaction ℕ ℕ)) (writes : List Touch)
        → (IsTrue own → HasGroupFlaw writes read.now Flaw.Internal)
        → IsFaultyTouch h writes read.now → IsReal h before → IsReal h result }
{
    if !own {
        return before;
    }
    let fault = Fault {
        line: read.line,
        flaw: Flaw::Internal,
        place: read.place,
    };
    with_fault(before, fault)
}

/// What a read of another version than 0 is, by who wrote it.
fn flaw_of(writes: &[Touch], writer: Option<Touch>) -> Option<Flaw>
    requires writer { IsWriter writes.now writer }
    requires alike { AreAlike writes.now }
    ensures exact { (e : Touch) (flaw : Flaw) → IsRead e → e.version ≢ 0 → flaw ≢ Flaw.Internal
        → (result ≡ Some flaw) ↔ HasGroupFlaw writes.now e flaw }
    ensures foreign { result ≢ Some Flaw.Internal }
{
    match writer {
        Some(write) => {
            if write.surpassed {
                Some(Flaw::IntermediateRead)
            } else {
                None
            }
        }
        None => {
            if writes.is_empty() {
                Some(Flaw::Unwritten)
            } else {
                Some(Flaw::AbortedRead)
            }
        }
    }
}

/// The first fault, with that of a read, if it is of another version than 0: this one, if there is one.
fn judge_foreign(read: &Touch, flaw: Option<Flaw>, before: Option<Fault>) -> Option<Fault>
    ensures kept { (line rank place : ℕ) → Covers before line rank place → Covers result line rank place }
    ensures covered { (one : Flaw) → read.now.version ≢ 0 → flaw ≡ Some one
        → Covers result read.now.line (rank_of one) read.now.place }
    ensures real { (h : List (Transaction ℕ ℕ)) → ((one : Flaw) → read.now.version ≢ 0 → flaw ≡ Some one
        → IsFaulty h read.now.line one read.now.place) → IsReal h before → IsReal h result }
{
    if read.version == 0 {
        return before;
    }
    match flaw {
        None => before,
        Some(flaw) => {
            let fault = Fault {
                line: read.line,
                flaw,
                place: read.place,
            };
            with_fault(before, fault)
        }
    }
}

/// Where the writes of earlier lines end, from here on.
fn skip_earlier(writes: &[Touch], from: usize, line: u32) -> usize
    requires from { from ≤ length writes.now }
    requires before { AreEarlier writes.now from line }
    ensures within { result ≤ length writes.now }
    ensures before { AreEarlier writes.now result line }
    ensures here { (w : Touch) → slice_get writes.now result ≡ Some w → line ≤ w.line }
{
    let mut at = from;
    while at < writes.len() && writes[at].line < line {
        at += 1;
    }
    at
}

/// Whether the write there is of the line.
fn is_of_line(writes: &[Touch], at: usize, line: u32) -> bool
    requires rising { LinesRise writes.now }
    requires before { AreEarlier writes.now at line }
    requires here { (w : Touch) → slice_get writes.now at ≡ Some w → line ≤ w.line }
    ensures { IsTrue result ↔ ((w : Touch) × Contains writes.now w × (w.line ≡ line)) }
{
    at < writes.len() && writes[at].line == line
}

/// The first fault, with those of the reads.
fn judge_reads(
    writes: &[Touch],
    reads: &[Touch],
    writer: Option<Touch>,
    before: Option<Fault>,
) -> Option<Fault>
    requires writer { IsWriter writes.now writer }
    requires alike { AreAlike writes.now }
    requires writes { LinesRise writes.now }
    requires reads { LinesRise reads.now }
    requires kinds { All IsRead reads.now }
    ensures kept { (line rank place : ℕ) → Covers before line rank place → Covers result line rank place }
    ensures covered { AreCovered writes.now reads.now result }
    ensures real { (h : List (Transaction ℕ ℕ)) → AreFaulty h writes.now reads.now → IsReal h before → IsReal h result }
{
    let flaw = flaw_of(writes, writer);
    let mut first = before;
    let mut at = 0;
    for read in reads {
        at = skip_earlier(writes, at, read.line);
        first = judge_own(read, is_of_line(writes, at, read.line), first);
        first = judge_foreign(read, flaw, first);
    }
    first
}

/// The first fault, with those of the touches of one version of one item.
pub fn judge_group(writes: &[Touch], reads: &[Touch], before: Option<Fault>) -> Option<Fault>
    requires alike { AreAlike writes.now }
    requires writes { LinesRise writes.now }
    requires reads { LinesRise reads.now }
    requires kinds { All IsRead reads.now }
    requires writing { All IsWrite writes.now }
    ensures kept { (line rank place : ℕ) → Covers before line rank place → Covers result line rank place }
    ensures covered { AreCovered writes.now writes.now result }
    ensures covered_reads { AreCovered writes.now reads.now result }
    ensures real { (h : List (Transaction ℕ ℕ)) → AreFaulty h writes.now writes.now → AreFaulty h writes.now reads.now
        → IsReal h before → IsReal h result }
{
    let writer = writer_of(writes);
    let first = judge_any_writes(writes, &writer, before);
    judge_reads(writes, reads, writer, first)
}
