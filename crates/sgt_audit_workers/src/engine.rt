//! The audit of all that a reader gives, with several sections judged at once.

ghost use Rattle.std.specs.Prelude.{◌≡◌, ◌≢◌, ◌↔◌, ◌+◌, ◌-◌, ◌*◌, ◌<◌, ◌≤◌, ◌⊎◌, [], ℕ, List, Option, None, Some, false, Err, Ok, length, IsTrue, IfOk, IfErr, IfSome, IfNone, OnErr, IsErrOf, if◌then◌else◌};
ghost use Rattle.std.specs.Arc.{arc_value};
ghost use Rattle.std.specs.Io.KnownBytes.{Appends};
ghost use Rattle.sgt_names.specs.Limits.{max_line};
ghost use Rattle.sgt_notation.specs.Lines.{ReadFaultIsDue};
ghost use Rattle.sgt_devices.specs.Devices.{LeavesWriter};
ghost use Rattle.sgt_audit.specs.Faults.{HasNoFault};
ghost use Rattle.sgt_audit.specs.Verdict.{IsVerdict, SaysHeadline, WroteFront, text_of, yes_of};
ghost use Rattle.sgt_audit_workers.specs.Cut.{KeepsReady, longest};
ghost use Rattle.sgt_audit_workers.specs.Head.{IsHead};
ghost use Rattle.sgt_audit_workers.specs.Reads.{IsFailOf, IsYes, Reader, ReadsLittleFurther, reader};
ghost use Rattle.sgt_audit_workers.specs.declared.head.Head.{Head};
ghost use Rattle.sgt_audit_workers.specs.declared.sections.State.TheVariants.{Going};
ghost use Rattle.sgt_audit_workers.specs.private.Begun.{IsVerdictNear};
ghost use Rattle.sgt_audit_workers.specs.private.Tallied.{IsAnswer, IsTallied, second_size};
ghost use Rattle.sgt_audit_workers.specs.private.Texts.{EndsHere, HasAsked, HasRead, IsAsked, IsLeft, IsOpenState, IsSettled, MayOpenEmpty};
ghost use Rattle.sgt_audit_workers.specs.private.Working.{CanWork, IsWithin, NextGoes, SameWorkers, Works, given};

use crate::cutting::Stop;
use crate::head::{Begun, read_head};
use crate::long::judge_open;
use crate::sections::{Section, State, Text, read_line, read_on, state_behind, take_section};
use crate::tally::Tally;
use crate::workers::Workers;
use sgt_audit::{Verdict, audit, yes_to};
use sgt_names::{EngineFail, MAX_LINE, Sink, Source, write_all};
use sgt_notation::Next;
use std::alloc::Global;
use std::thread::Threads;

/// An open section of which nothing was read is what comes behind that.
fn settle(text: &mut Text)
    ensures read { (first now : Reader) (from : Option (List ℕ)) → HasRead first from [] text.old now
        → HasRead first from [] text.new now }
    ensures asked { (first now : Reader) → IsAsked first text.old now → IsAsked first text.new now }
    ensures settled { IsSettled text.new.state }
    ensures most { text.new.most ≡ text.old.most }
{
    if let State::Open(bytes, stop) = &text.state {
        if bytes.is_empty() {
            let stop = *stop;
            text.state = state_behind(text.alloc, stop);
        }
    }
}

/// Whether nothing comes where a section is open.
fn is_empty_here(bytes: &[u8], stop: Result<Stop, EngineFail>) -> Result<bool, EngineFail>
    requires { bytes.now ≡ [] → MayOpenEmpty stop }
    ensures some { IfOk result (λ ends. ends ≡ false) }
    ensures comes { IfOk result (λ _. (bytes.now ≢ []) ⊎ (stop ≡ Ok Stop.Long)) }
{
    if !bytes.is_empty() {
        return Ok(false);
    }
    match stop {
        Ok(Stop::Long) => Ok(false),
        Err(e) => Err(e),
        _ => unreachable!(),
    }
}

/// Whether nothing comes where more of the text is to be read.
fn ends_now<R: Source>(source: &mut R, text: &mut Text) -> Result<bool, EngineFail>
    requires { text.old.state ≡ Going }
    ensures ends { let old = reader (R.tells source.old) (R.failures source.old) (R.asked source.old) in
        (first : Reader) (left : Option (List ℕ)) → IsLeft first text.old old left
        → IfOk result (EndsHere left) }
    ensures few { R.asked source.new ≤ R.asked source.old + max_line + 1 }
    ensures going { IfOk result (λ _. text.new.state ≡ Going) }
    ensures asked { let old = reader (R.tells source.old) (R.failures source.old) (R.asked source.old) in
        let new = reader (R.tells source.new) (R.failures source.new) (R.asked source.new) in
        (first : Reader) (left : Option (List ℕ)) → IsLeft first text.old old left
        → IsAsked first text.old old → IsAsked first text.new new }
    ensures most { text.new.most ≡ text.old.most }
{
    let mut line = Vec::new(text.alloc);
    match read_line(source, text, &mut line, MAX_LINE)? {
        Next::End => Ok(true),
        Next::Line | Next::Cut | Next::TooLong => Ok(false),
    }
}

/// Whether the text ends here, behind all its sections, where no section was read ahead.
fn ends_here<R: Source>(source: &mut R, text: &mut Text) -> Result<bool, EngineFail>
    requires { IsSettled text.old.state }
    ensures ends { let old = reader (R.tells source.old) (R.failures source.old) (R.asked source.old) in
        (first : Reader) (left : Option (List ℕ)) → IsLeft first text.old old left
        → IfOk result (EndsHere left) }
    ensures few { let old = reader (R.tells source.old) (R.failures source.old) (R.asked source.old) in
        let new = reader (R.tells source.new) (R.failures source.new) (R.asked source.new) in
        (first : Reader) (left : Option (List ℕ)) → IsLeft first text.old old left
        → IsAsked first text.old old
        → IfOk result (λ _. HasAsked first left (longest text.old.most) new) }
    ensures asked { let old = reader (R.tells source.old) (R.failures source.old) (R.asked source.old) in
        let new = reader (R.tells source.new) (R.failures source.new) (R.asked source.new) in
        (first : Reader) (left : Option (List ℕ)) → IsLeft first text.old old left
        → IsAsked first text.old old → IsAsked first text.new new }
    ensures most { text.new.most ≡ text.old.most }
{
    match &text.state {
        State::Ended => Ok(true),
        State::Open(bytes, stop) => is_empty_here(bytes.as_slice(), *stop),
        State::Going => ends_now(source, text),
    }
}

/// The verdict, once all sections have no fault but perhaps one of a walk, where these were read behind them; or this
/// yes.
fn at_end<R: Source>(
    source: &mut R,
    text: &mut Text,
    ahead: &[Section],
    tally: &Tally,
    yes: Verdict,
) -> Result<Verdict, EngineFail>
    ensures verdict { let old = reader (R.tells source.old) (R.failures source.old) (R.asked source.old) in
        let new = reader (R.tells source.new) (R.failures source.new) (R.asked source.new) in
        (h : Head) (first : Reader) (from : Option (List ℕ))
        → HasRead first from ahead.now text.old old → IsTallied h first.told from tally.now
        → tally.now.whole ≡ h.certificate.sites → yes ≡ yes_of h.certificate.decisions
        → IsAsked first text.old old
        → IfOk result (IsAnswer (second_size h) first new
        ((length ahead.now + 1) * longest text.old.most)) }
    ensures asked { let old = reader (R.tells source.old) (R.failures source.old) (R.asked source.old) in
        let new = reader (R.tells source.new) (R.failures source.new) (R.asked source.new) in
        (first : Reader) (from : Option (List ℕ)) → HasRead first from ahead.now text.old old
        → IsAsked first text.old old → IsAsked first text.new new }
{
    if let Some(verdict) = tally.walk_fault() {
        return Ok(verdict);
    }
    if !ahead.is_empty() {
        return tally.trailing();
    }
    settle(text);
    if ends_here(source, text)? {
        Ok(yes)
    } else {
        tally.trailing()
    }
}

/// Has the open section judged, once all before it are: the buffer of none, or the verdict on the text.
fn judge_last<H: Threads, R: Source>(
    rt: &H,
    source: &mut R,
    text: &mut Text,
    workers: &mut Workers,
) -> Result<Result<Option<Vec<u8>>, Verdict>, EngineFail>
    requires head { IsHead (arc_value workers.old.head) }
    requires works { CanWork workers.old }
    requires sites { given workers.old < (arc_value workers.old.head).certificate.sites }
    requires open { IsOpenState text.old.state }
    ensures goes { let old = reader (R.tells source.old) (R.failures source.old) (R.asked source.old) in
        let new = reader (R.tells source.new) (R.failures source.new) (R.asked source.new) in
        (first : Reader) (left : Option (List ℕ)) → Works first.told left workers.old
        → HasRead first left [] text.old old → IsAsked first text.old old
        → IsWithin workers.old [] text.old → 2 ≤ workers.old.count
        → IfOk result (NextGoes first workers.new [] text.new new) }
    ensures given { IfOk result (λ r. IfOk r (λ _. given workers.new ≡ given workers.old + 1)) }
    ensures none { IfOk result (λ r. IfOk r (λ _. workers.new.running.items ≡ [])) }
    ensures same { SameWorkers workers.old workers.new }
    ensures asked { let old = reader (R.tells source.old) (R.failures source.old) (R.asked source.old) in
        let new = reader (R.tells source.new) (R.failures source.new) (R.asked source.new) in
        (first : Reader) (left : Option (List ℕ)) → HasRead first left [] text.old old
        → IsAsked first text.old old → IsAsked first text.new new }
    ensures most { text.new.most ≡ text.old.most }
{
    if let Some(verdict) = workers.wait(rt)? {
        return Ok(Err(verdict));
    }
    match judge_open(source, text, &workers.head, &mut workers.tally)? {
        Some(verdict) => Ok(Err(verdict)),
        None => Ok(Ok(None)),
    }
}

/// Has the next section judged: a buffer that is free, if one is, or the verdict on the text.
fn judge_next<H: Threads, R: Source>(
    rt: &H,
    source: &mut R,
    text: &mut Text,
    workers: &mut Workers,
    ahead: &mut Vec<Section>,
) -> Result<Result<Option<Vec<u8>>, Verdict>, EngineFail>
    requires count { 2 ≤ workers.old.count }
    requires head { IsHead (arc_value workers.old.head) }
    requires works { CanWork workers.old }
    requires sites { given workers.old < (arc_value workers.old.head).certificate.sites }
    ensures goes { let old = reader (R.tells source.old) (R.failures source.old) (R.asked source.old) in
        let new = reader (R.tells source.new) (R.failures source.new) (R.asked source.new) in
        (first : Reader) (left : Option (List ℕ)) → Works first.told left workers.old
        → HasRead first left ahead.old.items text.old old → IsAsked first text.old old
        → IsWithin workers.old ahead.old.items text.old
        → IfOk result (NextGoes first workers.new ahead.new.items text.new new) }
    ensures given { IfOk result (λ r. IfOk r (λ _. given workers.new ≡ given workers.old + 1)) }
    ensures within { IsWithin workers.old ahead.old.items text.old
        → IfOk result (λ r. IfOk r (λ _. IsWithin workers.new ahead.new.items text.new)) }
    ensures same { SameWorkers workers.old workers.new }
    ensures asked { let old = reader (R.tells source.old) (R.failures source.old) (R.asked source.old) in
        let new = reader (R.tells source.new) (R.failures source.new) (R.asked source.new) in
        (first : Reader) (left : Option (List ℕ)) → HasRead first left ahead.old.items text.old old
        → IsAsked first text.old old → IsAsked first text.new new }
    ensures most { text.new.most ≡ text.old.most }
    // a read that may have to wait is begun behind all that was given to a worker
    ensures ready { IsTrue text.old.latest.is_drained → (R.asked source.new ≡ R.asked source.old)
        ⊎ IfOk result (λ r. IfOk r (λ _. workers.new.running.items ≡ [])) }
{
    match take_section(source, text, ahead) {
        Some(section) => workers.judge(rt, section),
        None => judge_last(rt, source, text, workers),
    }
}

/// Whether one more section may be held, and what is open behind it.
fn has_room(workers: &Workers, ahead: &[Section]) -> bool
    ensures { IsTrue result
        → length workers.now.running.items + length ahead.now + 2 ≤ 2 * workers.now.count }
{
    let held = workers.running.len().saturating_add(ahead.len());
    held.saturating_add(2) <= workers.count.saturating_mul(2)
}

/// Reads one section more behind those that were read, if there is one, where one more may be held and there is a
/// buffer for it.
fn read_within<R: Source>(
    source: &mut R,
    text: &mut Text,
    workers: &Workers,
    ahead: &mut Vec<Section>,
    buffer: Option<Vec<u8>>,
)
    ensures read { let old = reader (R.tells source.old) (R.failures source.old) (R.asked source.old) in
        let new = reader (R.tells source.new) (R.failures source.new) (R.asked source.new) in
        (first : Reader) (from : Option (List ℕ)) → HasRead first from ahead.old.items text.old old
        → HasRead first from ahead.new.items text.new new }
    ensures asked { let old = reader (R.tells source.old) (R.failures source.old) (R.asked source.old) in
        let new = reader (R.tells source.new) (R.failures source.new) (R.asked source.new) in
        (first : Reader) (from : Option (List ℕ)) → HasRead first from ahead.old.items text.old old
        → IsAsked first text.old old → IsAsked first text.new new }
    ensures within { IsWithin workers.now ahead.old.items text.old
        → IsWithin workers.now ahead.new.items text.new }
    ensures most { text.new.most ≡ text.old.most }
    ensures ready { KeepsReady text.old.latest.is_drained text.new.latest.is_drained
        (R.asked source.old) (R.asked source.new) }
{
    if has_room(workers, ahead.as_slice()) {
        read_on(source, text, ahead, buffer);
    }
}

/// The verdict on a text, with the workers before its first section, where these sections were read.
fn judge_each<H: Threads, R: Source>(
    rt: &H,
    source: &mut R,
    text: &mut Text,
    workers: &mut Workers,
    ahead: Vec<Section>,
) -> Result<Verdict, EngineFail>
    requires count { 2 ≤ workers.old.count }
    requires head { IsHead (arc_value workers.old.head) }
    requires begins { let old = reader (R.tells source.old) (R.failures source.old) (R.asked source.old) in
        (first : Reader) × (left : Option (List ℕ)) × Works first.told left workers.old
        × HasRead first left ahead.items text.old old × IsAsked first text.old old }
    requires none { given workers.old ≡ 0 }
    requires within { IsWithin workers.old ahead.items text.old }
    ensures verdict { let old = reader (R.tells source.old) (R.failures source.old) (R.asked source.old) in
        let new = reader (R.tells source.new) (R.failures source.new) (R.asked source.new) in
        (first : Reader) (left : Option (List ℕ)) → Works first.told left workers.old
        → HasRead first left ahead.items text.old old → IsAsked first text.old old
        → IfOk result (IsAnswer (second_size (arc_value workers.old.head)) first new
        (2 * workers.old.count * longest text.old.most)) }
    ensures asked { let old = reader (R.tells source.old) (R.failures source.old) (R.asked source.old) in
        let new = reader (R.tells source.new) (R.failures source.new) (R.asked source.new) in
        (first : Reader) (left : Option (List ℕ)) → Works first.told left workers.old
        → HasRead first left ahead.items text.old old → IsAsked first text.old old
        → IsAsked first text.new new }
{
    let sites = workers.head.sites as usize;
    let mut ahead = ahead;
    for _site in 0..sites {
        match judge_next(rt, source, text, workers, &mut ahead)? {
            Ok(free) => read_within(source, text, workers, &mut ahead, free),
            Err(verdict) => return Ok(verdict),
        }
    }
    let yes = yes_to(workers.head.certificate.decisions());
    if let Some(verdict) = workers.wait(rt)? {
        return Ok(verdict);
    }
    at_end(source, text, ahead.as_slice(), &workers.tally, yes)
}

/// The verdict on the text, with so many sections judged at once.
fn judge_text<H: Threads + Sync, R: Source>(
    rt: &H,
    count: usize,
    source: &mut R,
    text: &mut Text,
) -> Result<Verdict, EngineFail>
    requires count { 2 ≤ count }
    requires going { text.old.state ≡ Going }
    requires begins { let old = reader (R.tells source.old) (R.failures source.old) (R.asked source.old) in
        (first : Reader) × IsLeft first text.old old first.told × IsAsked first text.old old }
    ensures verdict { let old = reader (R.tells source.old) (R.failures source.old) (R.asked source.old) in
        let new = reader (R.tells source.new) (R.failures source.new) (R.asked source.new) in
        (first : Reader) → IsLeft first text.old old first.told → IsAsked first text.old old
        → IfOk result (IsVerdictNear count first new) }
    ensures asked { let old = reader (R.tells source.old) (R.failures source.old) (R.asked source.old) in
        let new = reader (R.tells source.new) (R.failures source.new) (R.asked source.new) in
        (first : Reader) → IsLeft first text.old old first.told → IsAsked first text.old old
        → IsAsked first text.new new }
{
    let Begun { head, ahead } = match read_head(rt, count, source, text)? {
        Ok(begun) => begun,
        Err(verdict) => return Ok(verdict),
    };
    let mut workers = Workers::new(text.alloc, count, text.most, head)?;
    let found = judge_each(rt, source, text, &mut workers, ahead);
    workers.stop(rt);
    found
}

/// A verdict, and what is answered where there is no memory for its line: that the reader failed, if it did.
#[derive(Clone, Copy)]
struct Judgement {
    verdict: Verdict,
    fail: EngineFail,
}

/// Whether the reader failed while this was read of the text.
fn has_failed(text: &Text) -> bool
    ensures due { (first now : Reader) → IsAsked first text.now now → IsTrue result
        → ReadFaultIsDue first.told first.failures now.failures first.asked now.asked }
    ensures quiet { (first now : Reader) → IsAsked first text.now now → result ≡ false
        → now.failures ≡ first.failures }
{
    matches!(&text.state, State::Open(_, Err(EngineFail::ReadFault)))
}

/// Whether the verdict is a yes.
fn is_yes(verdict: Verdict) -> bool
    ensures { IsTrue result ↔ IsYes verdict }
{
    match verdict {
        Verdict::Yes { .. } => true,
        Verdict::No { .. } => false,
    }
}

/// The verdict, if there is one; but no yes on a text whose reader failed. A fault stands before what could not be
/// read.
fn unless_failed(found: Result<Verdict, EngineFail>, failed: bool) -> Option<Verdict>
    ensures some { IfSome result (λ v. found ≡ Ok v) }
    ensures yes { IfSome result (λ v. IsYes v → failed ≡ false) }
    ensures none { IfNone result ((v : Verdict) → found ≡ Ok v → IsYes v × IsTrue failed) }
{
    let Ok(verdict) = found else {
        return None;
    };
    if failed && is_yes(verdict) {
        return None;
    }
    Some(verdict)
}

/// What is answered where there is no verdict.
fn fail_of(failed: bool) -> EngineFail
    ensures { result ≡ (if failed then EngineFail.ReadFault else EngineFail.Memory) }
{
    if failed {
        EngineFail::ReadFault
    } else {
        EngineFail::Memory
    }
}

/// The verdict on all that the reader gives, with so many sections judged at once.
fn judge_sections<H: Threads + Sync, R: Source>(
    rt: &H,
    alloc: Global,
    count: usize,
    source: &mut R,
) -> Result<Judgement, EngineFail>
    requires { 2 ≤ count }
    ensures verdict { IfOk result (λ j. IfSome (R.tells source.old) (λ bytes. IsVerdict bytes j.verdict)) }
    ensures little_further { IfOk result (λ j. IfSome (R.tells source.old) (λ bytes.
        ReadsLittleFurther count bytes (R.asked source.new - R.asked source.old))) }
    ensures yes { IfOk result (λ j. IsYes j.verdict → R.failures source.new ≡ R.failures source.old) }
    ensures failed { IfOk result (λ j. IsFailOf
        (reader (R.tells source.old) (R.failures source.old) (R.asked source.old))
        (reader (R.tells source.new) (R.failures source.new) (R.asked source.new)) j.fail) }
    ensures fail { IfErr result (IsFailOf
        (reader (R.tells source.old) (R.failures source.old) (R.asked source.old))
        (reader (R.tells source.new) (R.failures source.new) (R.asked source.new))) }
    ensures once { R.failures source.new ≤ R.failures source.old + 1 }
{
    let mut text = Text::new(alloc)?;
    let found = judge_text(rt, count, source, &mut text);
    let failed = has_failed(&text);
    let fail = fail_of(failed);
    match unless_failed(found, failed) {
        Some(verdict) => Ok(Judgement { verdict, fail }),
        None => Err(fail),
    }
}

/// Audits all that the reader gives, with so many sections judged at once, and writes the line of the verdict and
/// nothing else. The verdict is that of `audit` of sgt_audit, whatever stands behind the line with the fault. With
/// fewer than two workers it is `audit` itself.
///
/// Behind a fault more may be read: no more than 8 MiB for each worker, and as many bytes as stand up to the fault's
/// line. Where a read behind a fault fails, the fault is answered.
///
/// An Err is ReadFault, where a read failed or too many were needed (`MOST_READS` of sgt_names), or Memory: nothing was
/// written then. Or it is WriteFault, where a write failed: at most a front of the line was written, and not the
/// whole of it.
pub fn audit_with<H: Threads + Sync, R: Source, W: Sink>(
    rt: &H,
    alloc: Global,
    workers: usize,
    reader: &mut R,
    writer: &mut W,
) -> Result<Verdict, EngineFail>
    ensures verdict { IfOk result (λ v. IfSome (R.tells reader.old) (λ bytes. IsVerdict bytes v)) }
    ensures headline { IfOk result
        (λ v. IfSome (R.tells reader.old) (λ bytes. SaysHeadline bytes v)) }
    ensures little_further { IfOk result (λ v. IfSome (R.tells reader.old) (λ bytes.
        ReadsLittleFurther workers bytes (R.asked reader.new - R.asked reader.old))) }
    ensures written { IfOk result
        (λ v. Appends (W.holds writer.old) (W.holds writer.new) (text_of v)) }

    // a reader that failed is blamed, unless a fault stands before that, and it is asked no more
    ensures quiet_yes { IfOk result (λ v. IsYes v → R.failures reader.new ≡ R.failures reader.old) }
    ensures quiet_memory { IsErrOf result EngineFail.Memory
        → R.failures reader.new ≡ R.failures reader.old }
    ensures quiet_valid { (bytes : List ℕ) → R.tells reader.old ≡ Some bytes → HasNoFault bytes
        → result ≢ Err EngineFail.ReadFault → R.failures reader.new ≡ R.failures reader.old }
    ensures once { result ≢ Err EngineFail.ReadFault
        → R.failures reader.new ≤ R.failures reader.old + 1 }
    ensures front { OnErr result
        (WroteFront (R.tells reader.old) (W.holds writer.old) (W.holds writer.new)) }
    ensures read_fault { IsErrOf result EngineFail.ReadFault → ReadFaultIsDue (R.tells reader.old)
        (R.failures reader.old) (R.failures reader.new) (R.asked reader.old) (R.asked reader.new) }
    ensures writer { LeavesWriter W.failures result writer.old writer.new }
{
    if workers < 2 {
        return audit(alloc, reader, writer);
    }
    let Judgement { verdict, fail } = match judge_sections(rt, alloc, workers, reader) {
        Ok(judgement) => judgement,
        Err(e) => return Err(e),
    };
    let Ok(line) = verdict.to_line(alloc) else {
        return Err(fail);
    };
    if write_all(writer, line.as_bytes()).is_err() {
        return Err(EngineFail::WriteFault);
    }
    Ok(verdict)
}
