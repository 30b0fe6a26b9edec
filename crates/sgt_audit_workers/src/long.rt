//! A section that is judged as it is read.

ghost use Rattle.std.specs.Prelude.{◌≡◌, ◌-◌, ◌+◌, ◌^◌, ◌<◌, ◌≤◌, ◌⊎◌, ◌++◌, ℕ, List, Option, None, Err, Ok, drop, length, IfOk, IfErr, IfSome, IfNone, OnOk, vec_len};
ghost use Rattle.sgt_names.specs.Limits.{max_line};
ghost use Rattle.sgt_audit_sections.specs.Judged.{GoesOn, IsFrom, IsJudgedSection, IsUnderway};
ghost use Rattle.sgt_audit_workers.specs.Head.{IsHead};
ghost use Rattle.sgt_audit_workers.specs.Reads.{Reader, reader};
ghost use Rattle.sgt_audit_workers.specs.declared.sections.State.TheVariants.{Going};
ghost use Rattle.sgt_audit_workers.specs.private.Tallied.{IsTallied, OpenEnds};
ghost use Rattle.sgt_audit_workers.specs.private.Texts.{IsAsked, IsLeft, IsOpenState, IsOpened, IsReadOn, IsStateBehind};

use crate::cutting::{Room, Stop, read_piece};
use crate::head::Head;
use crate::sections::{State, Text, state_behind};
use crate::tally::Tally;
use sgt_audit::{Alone, Fault, Verdict};
use sgt_audit_sections::{Judged, NextLine, begin_section, judge_lines};
use sgt_names::{EngineFail, Source};

/// What was read of a section, and where or why that stopped.
#[derive(Drop)]
struct Opened {
    bytes: Vec<u8>,
    stop: Result<Stop, EngineFail>,
}

/// The section that is open.
fn take_open(text: &mut Text) -> Opened
    requires { IsOpenState text.old.state }
    ensures opened { (first now : Reader) (left : Option (List ℕ)) → IsLeft first text.old now left
        → IsOpened first left result.bytes.items result.bytes.items result.stop text.new now }
    ensures behind { IsStateBehind result.stop text.new.state }
    ensures asked { (first now : Reader) → IsAsked first text.old now → IsAsked first text.new now }
    ensures most { text.new.most ≡ text.old.most }
{
    let state = std::mem::replace(&mut text.state, State::Going);
    let State::Open(bytes, stop) = state else {
        unreachable!()
    };
    text.state = state_behind(text.alloc, stop);
    Opened { bytes, stop }
}

/// Judges what comes next of the section.
fn judge_piece(
    alone: &mut Alone,
    head: &Head,
    next: NextLine,
    opened: &Opened,
) -> Result<Judged, EngineFail>
    requires head { IsHead head.now }
    requires site { next.site < head.now.certificate.sites }
    ensures judged { (read : List ℕ)
        → IsUnderway head.now.second head.now.certificate next.site read opened.now.bytes.items next.line alone.old
        → IfOk result (IsJudgedSection head.now.second head.now.certificate next.site read) }
    ensures underway { (read : List ℕ)
        → IsUnderway head.now.second head.now.certificate next.site read opened.now.bytes.items next.line alone.old
        → IfOk result
        (GoesOn head.now.second head.now.certificate next.site read opened.now.bytes.items alone.new) }
    ensures later { IfOk result (IsFrom next.line) }
    ensures err { IfErr result (λ e. e ≡ EngineFail.Memory) }
{
    let bytes = opened.bytes.as_slice();
    if next.line.checked_add(bytes.len() as u64).is_none() {
        return Err(EngineFail::Memory);
    }
    let edges = head.steps.at(next.site);
    let judged = judge_lines(alone, &head.certificate, edges, next, bytes)?;
    Ok(judged)
}

/// Keeps so many of the last bytes.
fn keep_last(bytes: &mut Vec<u8>, many: usize) -> Result<(), EngineFail>
    ensures kept { OnOk result (bytes.new.items ≡ drop (vec_len bytes.old - many) bytes.old.items) }
    ensures err { IfErr result (λ e. e ≡ EngineFail.Memory) }
{
    if many == 0 {
        bytes.clear();
        return Ok(());
    }
    let kept = bytes.split_off(bytes.len().saturating_sub(many))?;
    *bytes = kept;
    Ok(())
}

/// Reads the next lines of the section behind these bytes, and no more than one read gave, also where that has to wait.
fn read_next<R: Source>(source: &mut R, text: &mut Text, opened: &mut Opened)
    requires { text.old.state ≡ Going }
    ensures read { let old = reader (R.tells source.old) (R.failures source.old) (R.asked source.old) in
        let new = reader (R.tells source.new) (R.failures source.new) (R.asked source.new) in
        (first : Reader) (left : Option (List ℕ)) → IsLeft first text.old old left
        → length opened.old.bytes.items ≤ max_line
        → IsReadOn first left opened.old.bytes.items opened.new.bytes.items opened.new.stop text.new new }
    ensures more { (piece : List ℕ) × (opened.new.bytes.items ≡ opened.old.bytes.items ++ piece) }
    ensures behind { IsStateBehind opened.new.stop text.new.state }
    ensures asked { let old = reader (R.tells source.old) (R.failures source.old) (R.asked source.old) in
        let new = reader (R.tells source.new) (R.failures source.new) (R.asked source.new) in
        (first : Reader) (left : Option (List ℕ)) → IsLeft first text.old old left
        → IsAsked first text.old old → IsAsked first text.new new }
    ensures most { text.new.most ≡ text.old.most }
{
    let room = Room {
        enough: opened.bytes.len().saturating_add(1).min(text.most),
        most: text.most,
    };
    text.latest.is_drained = false;
    opened.stop = read_piece(
        source,
        &mut text.lines,
        &mut text.latest,
        &mut opened.bytes,
        room,
    );
    text.state = state_behind(text.alloc, opened.stop);
}

/// The fault of the next line of a section, by where or why reading stopped before or in it; none where more of it is
/// to be read.
fn fault_behind(stop: Result<Stop, EngineFail>) -> Result<Option<Fault>, EngineFail>
    ensures long { IfOk result (λ r. IfSome r (λ f. ((stop ≡ Ok Stop.Long) × (f ≡ Fault.Notation))
        ⊎ ((stop ≡ Ok Stop.Text) × (f ≡ Fault.Truncated)))) }
    ensures more { IfOk result (λ r. IfNone r ((stop ≡ Ok Stop.Section) ⊎ (stop ≡ Ok Stop.Room))) }
    ensures err { IfErr result (λ e. stop ≡ Err e) }
{
    match stop {
        Err(e) => Err(e),
        Ok(Stop::Long) => Ok(Some(Fault::Notation)),
        Ok(Stop::Text) => Ok(Some(Fault::Truncated)),
        Ok(Stop::Section | Stop::Room) => Ok(None),
    }
}

/// Judges the open section, and reads on as long as it has no fault: the verdict on the text, if it has one.
pub fn judge_open<R: Source>(
    source: &mut R,
    text: &mut Text,
    head: &Head,
    tally: &mut Tally,
) -> Result<Option<Verdict>, EngineFail>
    requires head { IsHead head.now }
    requires site { tally.old.whole < head.now.certificate.sites }
    requires open { IsOpenState text.old.state }
    ensures ends { let old = reader (R.tells source.old) (R.failures source.old) (R.asked source.old) in
        let new = reader (R.tells source.new) (R.failures source.new) (R.asked source.new) in
        (first : Reader) (left : Option (List ℕ)) → IsLeft first text.old old left
        → IsTallied head.now first.told left tally.old → IsAsked first text.old old
        → IfOk result (OpenEnds head.now first text.new new tally.new) }
    ensures whole { IfOk result (λ found. IfNone found (tally.new.whole ≡ tally.old.whole + 1)) }
    ensures asked { let old = reader (R.tells source.old) (R.failures source.old) (R.asked source.old) in
        let new = reader (R.tells source.new) (R.failures source.new) (R.asked source.new) in
        (first : Reader) (left : Option (List ℕ)) → IsLeft first text.old old left
        → IsAsked first text.old old → IsAsked first text.new new }
    ensures most { text.new.most ≡ text.old.most }
{
    let mut alone = Alone::new(text.alloc, head.second, head.sites, &head.certificate)?;
    let mut next = begin_section(&mut alone, &head.certificate, tally.whole);
    let mut opened = take_open(text);
    for _piece in 0..u64::MAX {
        match judge_piece(&mut alone, head, next, &opened)? {
            Judged::Whole { lines, met } => {
                tally.add_whole(lines, met)?;
                return Ok(None);
            }
            Judged::Faulty { line, fault } => return tally.fault_at(line, fault),
            Judged::Unfit => return Err(EngineFail::Memory),
            Judged::Open { line, rest } => {
                if let Some(fault) = fault_behind(opened.stop)? {
                    return tally.fault_at(line, fault);
                }
                next.line = line;
                keep_last(&mut opened.bytes, rest)?;
                read_next(source, text, &mut opened);
            }
        }
    }
    Err(EngineFail::Memory)
}
