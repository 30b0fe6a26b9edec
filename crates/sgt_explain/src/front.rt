//! The front of a text that its verdict is told of, read and kept in memory.

ghost use Rattle.std.specs.Prelude.{◌≡◌, ◌≢◌, ◌+◌, ◌-◌, length, None, Err, [], take, IfOk, IfErr, IfSome};
ghost use Rattle.std.specs.Io.KnownBytes.{prepend_known};
ghost use Rattle.sgt_devices.specs.Devices.{LeavesKeptReader};
ghost use Rattle.sgt_audit.specs.Faults.{BeginsNoneBehind, ReadsNoFurther};
ghost use Rattle.sgt_audit.specs.Verdict.{IsVerdict};
ghost use Rattle.sgt_explain.specs.Front.{IsFrontOf, ReadsOn};
ghost use Rattle.sgt_explain.specs.Watched.{HasFed, HasFedSome, HasGoneOn, HasJudged, HasPassed, IsBehind, MeetsFault};

use crate::reading::{empty_buffer, take_some};
use sgt_audit::{Fault, Machine, Passed, Verdict, verdict_on};
use sgt_names::{EngineFail, MOST_READS, Source};
use sgt_notation::find_lf;
use std::alloc::{AllocError, Global};

/// Bytes that were read, and the verdict on all that they are the front of.
#[derive(Drop)]
pub struct Front {
    pub text: Vec<u8>,
    pub verdict: Verdict,
}

/// Judges the lines of a text as they come.
#[derive(Drop)]
struct Watch {
    machine: Machine,
    /// Where the next line begins: the lines before it were judged.
    judged: usize,
    /// How far the text was looked at for its LF.
    seen: usize,
    /// The number of that line.
    number: u64,
}

impl Watch {
    fn new(alloc: Global) -> Watch
        ensures { HasJudged [] result None }
    {
        Watch {
            machine: Machine::new(alloc, false),
            judged: 0,
            seen: 0,
            number: 1,
        }
    }

    /// Judges the lines in front that the auditor reads where they stand, up to the first fault. Where a line was begun
    /// that isn't whole, none is.
    fn feed_front(&mut self, text: &[u8]) -> Result<Option<Fault>, AllocError>
        requires { IsBehind self.old text.now }
        ensures fed { IfOk result (HasFedSome text.now self.new) }
        ensures on { IfOk result (HasGoneOn self.old self.new) }
    {
        'lines: while self.seen == self.judged {
            match self.machine.front(&text[self.seen..])? {
                Passed::Line(n) => {
                    self.judged += n;
                    self.seen = self.judged;
                    self.number += 1;
                }
                Passed::Faulty(fault) => {
                    let Some(n) = find_lf(&text[self.seen..]) else {
                        unreachable!()
                    };
                    self.judged += n + 1;
                    return Ok(Some(fault));
                }
                Passed::Unread => return Ok(None),
            }
        }
        Ok(None)
    }

    /// Judges the lines that are whole, up to the first fault.
    fn feed(&mut self, text: &[u8]) -> Result<Option<Fault>, EngineFail>
        requires { IsBehind self.old text.now }
        ensures fed { IfOk result (HasFed text.now self.new) }
        ensures on { IfOk result (HasGoneOn self.old self.new) }
        ensures err { IfErr result (λ e. e ≡ EngineFail.Memory) }
    {
        'lines: loop {
            if let Some(fault) = self.feed_front(text)? {
                return Ok(Some(fault));
            }
            let Some(n) = find_lf(&text[self.seen..]) else {
                return Ok(None);
            };
            let start = self.judged;
            let end = self.seen + n;
            self.judged = end + 1;
            self.seen = end + 1;
            if let Some(fault) = self.machine.line(&text[start..end])? {
                return Ok(Some(fault));
            }
            self.number += 1;
        }
    }

    /// The same, and of a line without an LF whether it is too long.
    fn judge(&mut self, text: &[u8]) -> Result<Option<Fault>, EngineFail>
        requires { IsBehind self.old text.now }
        ensures judged { IfOk result (HasJudged text.now self.new) }
        ensures passed { IfOk result (λ found. IfSome found (λ f. HasPassed self.old self.new)) }
        ensures err { IfErr result (λ e. e ≡ EngineFail.Memory) }
    {
        if let Some(fault) = self.feed(text)? {
            return Ok(Some(fault));
        }
        let limit = self.machine.limit();
        if text.len() - self.judged <= limit {
            self.seen = text.len();
            return Ok(None);
        }
        self.judged += limit + 1;
        Ok(Some(self.machine.too_long()))
    }

    /// The text up to the end of the line that has this fault.
    fn cut(self, text: Vec<u8>, fault: Fault) -> Front
        requires { MeetsFault text.items self.judged self.number fault }
        ensures text { result.text.items ≡ take self.judged text.items }
        ensures verdict { result.verdict ≡ Verdict.No self.number fault }
    {
        let mut text = text;
        text.truncate(self.judged);
        let verdict = Verdict::No {
            line: self.number,
            fault,
        };
        Front { text, verdict }
    }

    /// The whole text, which ends there, with its verdict.
    fn end(self, text: Vec<u8>) -> Front
        requires { HasJudged text.items self None }
        ensures text { result.text.items ≡ text.items }
        ensures verdict { IsVerdict text.items result.verdict }
        ensures front { IsFrontOf text.items result.verdict text.items }
        ensures reach { ReadsNoFurther text.items (length text.items + 1) }
    {
        let Watch {
            machine,
            judged,
            number,
            ..
        } = self;
        let verdict = verdict_on(machine.end(&text[judged..], number));
        Front { text, verdict }
    }
}

/// Reads behind a text that was read before, up to the line with the first fault of the whole, as `audit` does, or to
/// the end. ReadFault where a read failed or too many were needed (`MOST_READS` of sgt_names); Memory where a growth was
/// refused.
pub fn read_judged<R: Source>(
    alloc: Global,
    reader: &mut R,
    text: Vec<u8>,
) -> Result<Front, EngineFail>
    ensures verdict { IfOk result (λ f. IfSome (prepend_known text.items (R.tells reader.old))
        (λ bytes. IsVerdict bytes f.verdict × IsFrontOf bytes f.verdict f.text.items)) }
    ensures front { IfOk result (λ f. IsVerdict f.text.items f.verdict) }
    ensures reads { IfOk result
        (λ _. ReadsOn R.tells R.asked R.last text.items reader.old reader.new) }
    ensures reader { LeavesKeptReader R.tells R.failures result reader.old reader.new }
    ensures write_fault { result ≢ Err EngineFail.WriteFault }
{
    let mut buffer = empty_buffer(alloc)?;
    let mut text = text;
    let mut watch = Watch::new(alloc);
    let mut reads = 0u32;
    'reads: while reads < MOST_READS {
        if let Some(fault) = watch.judge(text.as_slice())? {
            return Ok(watch.cut(text, fault));
        }
        if take_some(reader, buffer.as_mut_slice(), &mut text)? == 0 {
            return Ok(watch.end(text));
        }
        reads += 1;
    }
    Err(EngineFail::ReadFault)
}

/// The same of all that the reader gives.
pub fn read_front<R: Source>(alloc: Global, reader: &mut R) -> Result<Front, EngineFail>
    ensures verdict { IfOk result (λ f. IfSome (R.tells reader.old)
        (λ bytes. IsVerdict bytes f.verdict × IsFrontOf bytes f.verdict f.text.items)) }
    ensures front { IfOk result (λ f. IsVerdict f.text.items f.verdict) }
    ensures no_further { IfOk result (λ _. IfSome (R.tells reader.old) (λ bytes.
        ReadsNoFurther bytes (R.asked reader.new - R.asked reader.old))) }
    ensures none_behind { IfOk result (λ _. IfSome (R.tells reader.old) (λ bytes. IfSome (R.tells reader.new)
        (λ left. BeginsNoneBehind bytes (length left) (R.last reader.new)))) }
    ensures reader { LeavesKeptReader R.tells R.failures result reader.old reader.new }
    ensures write_fault { result ≢ Err EngineFail.WriteFault }
{
    read_judged(alloc, reader, Vec::new(alloc))
}
