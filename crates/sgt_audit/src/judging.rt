//! The least fault of a line, after lines with no fault.

ghost use Rattle.std.specs.Prelude.{◌≡◌, ◌≢◌, ◌↔◌, ◌∷◌, ◌++◌, [], List, IsTrue, IfOk, Some};
ghost use Rattle.sgt_notation.specs.declared.SectionLine.{SectionLine};
ghost use Rattle.sgt_notation.specs.declared.SectionLine.TheVariants.{Logged, Final, End};
ghost use Rattle.sgt_bundle.specs.Certificate.{IsDecidedOnce, AreRanks, ranks};
ghost use Rattle.sgt_bundle.specs.declared.certificate.Decision.{Decision};
ghost use Rattle.sgt_audit_cells.specs.Tracks.{TracksOpen};
ghost use Rattle.sgt_audit.specs.Kept.{IsOpenPlace, IsPlace, Tracks};
ghost use Rattle.sgt_audit.specs.Reading.{Begun, IsBegun, lines_read};
ghost use Rattle.sgt_bundle.specs.Text.{Begins};
ghost use Rattle.sgt_bundle.specs.declared.bundle.SiteLog.{SiteLog};
ghost use Rattle.sgt_bundle.specs.declared.certificate.Certificate.{Certificate};
ghost use Rattle.sgt_audit.specs.Rules.{KeepsBy, OfCertificate};
ghost use Rattle.sgt_audit.specs.private.Judging.{ContinuesLog, HasOpen, JudgedLine, AnswersItself};
ghost use Rattle.sgt_audit.specs.private.Known.{IsKnownOf, IsKnownLine};
ghost use Rattle.sgt_audit.specs.private.Following.{Fits};

use crate::entries::follows_last;
use crate::faults::Fault;
use crate::known::Known;
use crate::place::{OpenPlace, Place};
use crate::rules::Rules;
use crate::tracked::{is_active, is_first, is_in_order, is_in_rank, is_legal, is_listed};
use sgt_audit_cells::SiteState;
use sgt_audit_decisions::{Decided, are_cycles, are_ranks};
use sgt_bundle::Certificate;
use sgt_names::{Entry, Holding};
use sgt_notation::SectionLine;
use std::alloc::{AllocError, Global};

/// Whether the line goes on with the block that is open at the end of the log, if one is.
#[inline(always)]
fn continues_log(place: &OpenPlace, line: &SectionLine) -> bool
    ensures { (log : SiteLog) → IsOpenPlace log place.now
        → (IsTrue result ↔ ContinuesLog log line.now) }
{
    if place.finals != 0 {
        return true;
    }
    follows_last(place.last, line)
}

/// The least fault of a line that is this entry, of which this is known.
#[inline(always)]
fn judge_entry(
    rules: Rules,
    state: &SiteState,
    place: &OpenPlace,
    known: &Known,
    entry: &Entry,
) -> Option<Fault>
    ensures { (c : Certificate) (before : List SectionLine) (log : SiteLog)
        → IsDecidedOnce c.decisions
        → OfCertificate rules (AreRanks (ranks c.decisions)) → IsOpenPlace log place.now
        → IsKnownOf c.decisions state.now entry.now known.now
        → TracksOpen c.decisions log.items log.entries state.now
        → HasOpen before log → Begins c.sites (before ++ Logged entry.now ∷ [])
        → JudgedLine (KeepsBy rules c before (Logged entry.now)) result }
{
    if !is_listed(known, entry) {
        return Some(Fault::Item);
    }
    if !is_first(state, known, entry) {
        return Some(Fault::Twice);
    }
    if !is_legal(state, known, entry) {
        return Some(Fault::ReadValue);
    }
    if !is_in_rank(rules, state, known, entry) {
        return Some(Fault::RankOrder);
    }
    if !continues_log(place, &SectionLine::Logged(*entry)) {
        return Some(Fault::Block);
    }
    if !is_active(state, known) {
        return Some(Fault::End);
    }
    if !is_in_order(rules, state, known, entry) {
        return Some(Fault::DecisionOrder);
    }
    None
}

/// The least fault of a final value, which is of the item whose final value comes next.
#[inline(always)]
fn judge_final(state: &SiteState, place: &OpenPlace, holding: &Holding) -> Option<Fault>
    ensures { (rules : Rules) (c : Certificate) (before : List SectionLine) (log : SiteLog)
        → IsOpenPlace log place.now
        → TracksOpen c.decisions log.items log.entries state.now
        → Fits log (Final holding.now) → HasOpen before log
        → Begins c.sites (before ++ Final holding.now ∷ [])
        → JudgedLine (KeepsBy rules c before (Final holding.now)) result }
{
    if !continues_log(place, &SectionLine::Final(*holding)) {
        return Some(Fault::Block);
    }
    if !state.have_all_ended() {
        return Some(Fault::NotEnded);
    }
    if !state.has_value(place.finals, holding.value) {
        return Some(Fault::Final);
    }
    None
}

/// The least fault of a section's end, but for the walks.
fn judge_end(state: &SiteState, place: &OpenPlace) -> Option<Fault>
    ensures { (rules : Rules) (c : Certificate) (before : List SectionLine) (log : SiteLog)
        → IsOpenPlace log place.now
        → TracksOpen c.decisions log.items log.entries state.now → HasOpen before log
        → Begins c.sites (before ++ End ∷ []) → JudgedLine (KeepsBy rules c before End) result }
{
    if !continues_log(place, &SectionLine::End) {
        return Some(Fault::Block);
    }
    if !state.have_all_ended() {
        return Some(Fault::NotEnded);
    }
    None
}

/// The least fault of a line in the open section, of which this is known, but for the walks.
#[inline(always)]
fn judge_inside(
    rules: Rules,
    state: &SiteState,
    place: &OpenPlace,
    line: &SectionLine,
    known: &Option<Known>,
) -> Option<Fault>
    ensures { (c : Certificate) (before : List SectionLine) (log : SiteLog)
        → IsDecidedOnce c.decisions
        → OfCertificate rules (AreRanks (ranks c.decisions)) → IsOpenPlace log place.now
        → IsKnownLine c.decisions state.now line.now known.now
        → TracksOpen c.decisions log.items log.entries state.now
        → HasOpen before log → Fits log line.now → Begins c.sites (before ++ line.now ∷ [])
        → JudgedLine (KeepsBy rules c before line.now) result }
{
    match line {
        SectionLine::Logged(entry) => match known {
            Some(known) => judge_entry(rules, state, place, known, entry),
            None => None,
        },
        SectionLine::Final(holding) => judge_final(state, place, holding),
        SectionLine::End => judge_end(state, place),
        SectionLine::Site(_) => None,
        SectionLine::Initial(_) => None,
    }
}

/// The least fault of a line behind the lines that were read, of which this is known, but for the walks.
#[inline(always)]
pub fn judge_line(
    rules: Rules,
    state: &SiteState,
    place: &Place,
    line: &SectionLine,
    known: &Option<Known>,
) -> Option<Fault>
    ensures { (c : Certificate) (b : Begun) → IsDecidedOnce c.decisions
        → OfCertificate rules (AreRanks (ranks c.decisions))
        → b.sites ≡ c.sites → IsBegun b → IsPlace b place.now → Tracks c.decisions b state.now
        → IsKnownLine c.decisions state.now line.now known.now
        → JudgedLine (KeepsBy rules c (lines_read b) line.now) result
        × (result ≢ Some Fault.WalkStep) }
{
    if !place.may_go_on(line) {
        return Some(Fault::Section);
    }
    match &place.current {
        Some(here) => judge_inside(rules, state, here, line, known),
        None => None,
    }
}

/// The same of a line that is this entry, of which this is known.
#[inline(always)]
pub(crate) fn judge_next_entry(
    rules: Rules,
    state: &SiteState,
    place: &Place,
    known: &Known,
    entry: &Entry,
) -> Option<Fault>
    ensures { (c : Certificate) (b : Begun) → IsDecidedOnce c.decisions
        → OfCertificate rules (AreRanks (ranks c.decisions))
        → b.sites ≡ c.sites → IsBegun b → IsPlace b place.now → Tracks c.decisions b state.now
        → IsKnownOf c.decisions state.now entry.now known.now
        → JudgedLine (KeepsBy rules c (lines_read b) (Logged entry.now)) result
        × (result ≢ Some Fault.WalkStep) }
{
    if !place.takes_entries() {
        return Some(Fault::Section);
    }
    match &place.current {
        Some(here) => judge_entry(rules, state, here, known, entry),
        None => None,
    }
}

/// The certificate with its decisions by transaction, or its least fault by itself.
pub fn judge_certificate(
    alloc: Global,
    certificate: Certificate,
) -> Result<Result<Decided, Fault>, AllocError>
    ensures { IfOk result (AnswersItself certificate) }
{
    if !are_ranks(alloc, certificate.decisions())? {
        return Ok(Err(Fault::Ranks));
    }
    let Some(decided) = Decided::new(alloc, certificate)? else {
        return Ok(Err(Fault::DecidedTwice));
    };
    if are_cycles(alloc, &decided)? {
        Ok(Ok(decided))
    } else {
        Ok(Err(Fault::WalkShape))
    }
}
