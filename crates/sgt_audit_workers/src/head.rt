//! The first two lines of a text.

ghost use Rattle.std.specs.Prelude.{◌≡◌, ◌+◌, ◌*◌, ◌<◌, ◌≤◌, ℕ, Bool, List, Option, length, IfOk, IfErr, vec_len};
ghost use Rattle.sgt_bundle.specs.Text.{IsCertificate, certificate_text, format_line};
ghost use Rattle.sgt_audit.specs.Faults.{Breaks, Rule, Stage, headed, start, whole};
ghost use Rattle.sgt_audit.specs.Progress.{Stands};
ghost use Rattle.sgt_audit_workers.specs.Head.{IsHead, IsHeadOf};
ghost use Rattle.sgt_audit_workers.specs.Reads.{Reader, reader};
ghost use Rattle.sgt_audit_workers.specs.declared.sections.Section.{Section};
ghost use Rattle.sgt_audit_workers.specs.declared.sections.State.TheVariants.{Going};
ghost use Rattle.sgt_audit_workers.specs.private.Begun.{BeginsText, ComesBehind, IsMost};
ghost use Rattle.sgt_audit_workers.specs.private.Judging.{WillSay};
ghost use Rattle.sgt_audit_workers.specs.private.Tallied.{IsFound, second_size};
ghost use Rattle.sgt_audit_workers.specs.private.Texts.{HasRead, IsAsked, IsLeft};

use crate::judging::{Judging, finish, start};
use crate::sections::{Beside, Section, Text, read_ahead, read_line};
use sgt_audit::{Fault, Machine, Verdict, judge_certificate, verdict_on};
use sgt_audit_decisions::{Decided, Steps};
use sgt_bundle::{CertFault, Certificate, from_line};
use sgt_names::{EngineFail, Source};
use sgt_notation::Next;
use std::alloc::Global;
use std::thread::Threads;

/// What the first two lines of a text say, which have no fault.
#[derive(Drop)]
pub struct Head {
    /// Whether the format is the second.
    pub second: bool,
    pub sites: u8,
    pub certificate: Decided,
    /// The steps of its walks, by their sites.
    pub steps: Steps,
}

/// The machine, where what comes next is a whole line; else the verdict on the text, which goes no further. The number
/// is that of the line.
fn stopped(machine: Machine, next: Next, line: &[u8], number: u64) -> Result<Machine, Verdict>
    ensures line { IfOk result (λ m. (next ≡ Next.Line) × (m ≡ machine)) }
    ensures stops { (told old new : Option (List ℕ))
        → ComesBehind machine.progress told old number next line.now new
        → IfErr result (IsFound 0 told new 0) }
{
    match next {
        Next::Line => Ok(machine),
        Next::TooLong => Err(Verdict::No {
            line: number,
            fault: machine.too_long(),
        }),
        Next::Cut | Next::End => Err(verdict_on(machine.end(line, number))),
    }
}

/// Feeds the machine the first line: whether its format is the second; or its fault.
fn first_line(machine: &mut Machine, line: &[u8]) -> Result<Result<bool, Fault>, EngineFail>
    requires { Stands machine.old.progress start }
    ensures format { IfOk result (λ r. IfOk r (λ second. line.now ≡ format_line second)) }
    ensures headed { IfOk result (λ r. IfOk r (λ second. Stands machine.new.progress (headed second)
        × ((s : Stage) → Stands machine.new.progress s → s ≡ headed second))) }
    ensures fault { (s : Stage) → Stands machine.old.progress s
        → IfOk result (λ r. IfErr r (Breaks (Rule s (whole line.now)))) }
    ensures err { IfErr result (λ e. e ≡ EngineFail.Memory) }
{
    if let Some(fault) = machine.line(line)? {
        return Ok(Err(fault));
    }
    let Some(second) = machine.second() else {
        unreachable!()
    };
    Ok(Ok(second))
}

/// The certificate whose line this is, behind a first line of this format; or the fault of the line.
pub fn certificate_of(
    alloc: Global,
    second: bool,
    line: &[u8],
) -> Result<Result<Certificate, Fault>, EngineFail>
    ensures certificate { IfOk result (λ r. IfOk r (λ c. IsCertificate c
        × (line.now ≡ certificate_text c))) }
    ensures fault { IfOk result
        (λ r. IfErr r (Breaks (Rule (headed second) (whole line.now)))) }
    ensures err { IfErr result (λ e. e ≡ EngineFail.Memory) }
{
    match from_line(alloc, line) {
        Ok(certificate) => Ok(Ok(certificate)),
        Err(CertFault::Memory) => Err(EngineFail::Memory),
        Err(_) => Ok(Err(Fault::Certificate)),
    }
}

/// What the two lines say, with this certificate in the second of them; or its fault.
pub fn head_with(
    alloc: Global,
    second: bool,
    certificate: Certificate,
) -> Result<Result<Head, Fault>, EngineFail>
    ensures { IsCertificate certificate → IsHeadOf second (certificate_text certificate) result }
{
    let sites = certificate.sites;
    match judge_certificate(alloc, certificate)? {
        Ok(certificate) => {
            let steps = certificate.steps(alloc)?;
            Ok(Ok(Head {
                second,
                sites,
                certificate,
                steps,
            }))
        }
        Err(fault) => Ok(Err(fault)),
    }
}

/// What the two lines say, by the second of them, which is this; or its fault.
pub fn head_of(alloc: Global, second: bool, line: &[u8]) -> Result<Result<Head, Fault>, EngineFail>
    ensures { IsHeadOf second line.now result }
{
    match certificate_of(alloc, second, line)? {
        Ok(certificate) => head_with(alloc, second, certificate),
        Err(fault) => Ok(Err(fault)),
    }
}

/// How many bytes of a section are wanted in one piece at least: with the longest line behind them they are 4 MiB.
const PIECE: usize = 3_145_726;

/// How many bytes of sections are read at most, for each worker, while the second line is judged.
const BESIDE: usize = 4_194_304;

/// How many bytes of a section are wanted in one piece, for so many workers: with those of the second line, which is
/// let go before the sections are judged, twice as many sections as there are workers have 8 MiB for each worker.
fn most_of(count: usize, line: &[u8]) -> usize
    requires { 0 < count }
    ensures { IsMost count (length line.now) result }
{
    PIECE.saturating_add(line.len() / count / 2)
}

/// What is read while the second line is judged: that takes longer than to read twice its bytes.
fn beside(count: usize, line: &[u8]) -> Beside
    requires { 0 < count }
    ensures { result.sections + 1 ≤ 2 * count }
{
    Beside {
        sections: count.saturating_mul(2).saturating_sub(1),
        bytes: line
            .len()
            .saturating_mul(2)
            .min(count.saturating_mul(BESIDE)),
    }
}

/// What the first two lines say, which have no fault, and sections that were read behind them.
#[derive(Drop)]
pub struct Begun {
    pub head: Head,
    pub ahead: Vec<Section>,
}

/// What the two lines say, once the second is judged, with the sections that were read beside it; or its fault,
/// whatever was read.
fn read_beside<H: Threads + Sync, R: Source>(
    rt: &H,
    beside: Beside,
    source: &mut R,
    text: &mut Text,
    judging: Judging,
) -> Result<Result<Begun, Fault>, EngineFail>
    ensures head { (second : Bool) (line : List ℕ) → WillSay second line judging
        → IfOk result (λ r. IfOk r (λ b. IsHead b.head × (b.head.second ≡ second)
        × (line ≡ certificate_text b.head.certificate))) }
    ensures fault { (second : Bool) (line : List ℕ) → WillSay second line judging
        → IfOk result (λ r. IfErr r (Breaks (Rule (headed second) (whole line)))) }
    ensures ahead { let old = reader (R.tells source.old) (R.failures source.old) (R.asked source.old) in
        let new = reader (R.tells source.new) (R.failures source.new) (R.asked source.new) in
        (first : Reader) (left : Option (List ℕ)) → IsLeft first text.old old left
        → IfOk result (λ r. IfOk r (λ b. HasRead first left b.ahead.items text.new new)) }
    ensures held { let old = reader (R.tells source.old) (R.failures source.old) (R.asked source.old) in
        let new = reader (R.tells source.new) (R.failures source.new) (R.asked source.new) in
        (first : Reader) (left : Option (List ℕ)) → IsLeft first text.old old left
        → IfOk result (λ r. IfErr r (λ _. (ahead : List Section) × (length ahead ≤ beside.sections)
        × HasRead first left ahead text.new new)) }
    ensures asked { let old = reader (R.tells source.old) (R.failures source.old) (R.asked source.old) in
        let new = reader (R.tells source.new) (R.failures source.new) (R.asked source.new) in
        (first : Reader) (left : Option (List ℕ)) → IsLeft first text.old old left
        → IsAsked first text.old old → IsAsked first text.new new }
    ensures few { IfOk result (λ r. IfOk r (λ b. vec_len b.ahead ≤ beside.sections)) }
    ensures most { text.new.most ≡ text.old.most }
    ensures err { IfErr result (λ e. e ≡ EngineFail.Memory) }
{
    let ahead = read_ahead(source, text, beside);
    match finish(rt, text.alloc, judging) {
        Ok(Ok(head)) => Ok(Ok(Begun { head, ahead })),
        Ok(Err(fault)) => Ok(Err(fault)),
        Err(_) => Err(EngineFail::Memory),
    }
}

/// Reads the first two lines of a text, and sections behind them, while the second is judged: what the lines say,
/// with those sections; or the verdict on the text, where its first fault is in one of the two.
///
/// An Err is ReadFault, where a read of the two lines failed or too many were needed, or Memory.
pub fn read_head<H: Threads + Sync, R: Source>(
    rt: &H,
    count: usize,
    source: &mut R,
    text: &mut Text,
) -> Result<Result<Begun, Verdict>, EngineFail>
    requires count { 0 < count }
    requires going { text.old.state ≡ Going }
    ensures head { IfOk result (λ r. IfOk r (λ b. IsHead b.head)) }
    ensures begun { let old = reader (R.tells source.old) (R.failures source.old) (R.asked source.old) in
        let new = reader (R.tells source.new) (R.failures source.new) (R.asked source.new) in
        (first : Reader) → IsLeft first text.old old first.told → IsAsked first text.old old
        → IfOk result (BeginsText count first text.new new) }
    ensures asked { let old = reader (R.tells source.old) (R.failures source.old) (R.asked source.old) in
        let new = reader (R.tells source.new) (R.failures source.new) (R.asked source.new) in
        (first : Reader) → IsLeft first text.old old first.told
        → IsAsked first text.old old → IsAsked first text.new new }
    ensures few { IfOk result (λ r. IfOk r (λ b. vec_len b.ahead + 1 ≤ 2 * count)) }
    ensures most { IfOk result (λ r. IfOk r
        (λ b. IsMost count (second_size b.head) text.new.most)) }
{
    let mut line = Vec::new(text.alloc);
    let machine = Machine::new(text.alloc, false);
    let first = read_line(source, text, &mut line, machine.limit())?;
    let mut machine = match stopped(machine, first, line.as_slice(), 1) {
        Ok(machine) => machine,
        Err(verdict) => return Ok(Err(verdict)),
    };
    let second = match first_line(&mut machine, line.as_slice())? {
        Ok(second) => second,
        Err(fault) => return Ok(Err(Verdict::No { line: 1, fault })),
    };
    let next = read_line(source, text, &mut line, machine.limit())?;
    if let Err(verdict) = stopped(machine, next, line.as_slice(), 2) {
        return Ok(Err(verdict));
    }
    text.most = most_of(count, line.as_slice());
    let beside = beside(count, line.as_slice());
    let judging = start(rt, text.alloc, second, line);
    match read_beside(rt, beside, source, text, judging)? {
        Ok(begun) => Ok(Ok(begun)),
        Err(fault) => Ok(Err(Verdict::No { line: 2, fault })),
    }
}
