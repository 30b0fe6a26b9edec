//! Workers, each with a section that it judges in a thread of its own.

ghost use Rattle.std.specs.Prelude.{◌≡◌, ◌<◌, ◌≤◌, ◌+◌, ◌∷◌, ◌++◌, [], ℕ, List, Option, None, length, IfOk, IfErr, IfSome, IfNone, OnOk, OnErr};
ghost use Rattle.std.specs.Arc.{arc_value};
ghost use Rattle.std.specs.Io.KnownBytes.{Consumes};
ghost use Rattle.sgt_audit_sections.specs.Sections.{front_text};
ghost use Rattle.sgt_audit_workers.specs.Head.{IsHead};
ghost use Rattle.sgt_audit_workers.specs.declared.head.Head.{Head};
ghost use Rattle.sgt_audit_workers.specs.declared.job.Job.{Job};
ghost use Rattle.sgt_audit_workers.specs.private.Jobs.{HasRun, IsGiven, IsLostJob, MayJudge};
ghost use Rattle.sgt_audit_workers.specs.private.Running.{Will};
ghost use Rattle.sgt_audit_workers.specs.private.Tallied.{IsTallied, Takes};
ghost use Rattle.sgt_audit_workers.specs.private.Texts.{IsNextSection};
ghost use Rattle.sgt_audit_workers.specs.private.Working.{CanWork, Ends, GoesOn, SameWorkers, Works, given};

use crate::head::Head;
use crate::job::Job;
use crate::release::let_go;
use crate::running::{Running, finish, start};
use crate::sections::Section;
use crate::tally::Tally;
use sgt_audit::{Alone, Verdict};
use sgt_audit_sections::Judged;
use sgt_names::EngineFail;
use std::alloc::{AllocError, Global};
use std::sync::Arc;
use std::thread::Threads;

/// So many decisions take some time to be let go.
const MANY: usize = 4_096;

/// Workers that judge sections, one after another of a text, and what those before these came to. They end by `stop`
/// alone: the sections that are judged now can't be let go.
pub struct Workers {
    pub alloc: Global,
    /// How many there may be.
    pub count: usize,
    /// How many bytes of a section are wanted in one piece.
    pub most: usize,
    pub head: Arc<Head>,
    /// The sections that are judged now.
    pub running: Vec<Running>,
    pub tally: Tally,
}

/// A worker that has nothing to judge, if it was made, and then the buffer of the section that it judged.
#[derive(Drop)]
struct Free {
    alone: Option<Alone>,
    buffer: Option<Vec<u8>>,
}

/// The first of the sections that are judged now.
fn first(running: &mut Vec<Running>) -> Option<Running>
    ensures some { IfSome result (λ r. running.old.items ≡ r ∷ running.new.items) }
    ensures none { IfNone result (running.old.items ≡ []) }
    ensures empty { IfNone result (running.new.items ≡ []) }
{
    if running.is_empty() {
        return None;
    }
    Some(running.remove(0))
}

/// One more section that is judged now. Where there is no memory for one more, it is waited for.
fn add<H: Threads>(rt: &H, running: &mut Vec<Running>, one: Running) -> Result<(), AllocError>
    ensures { OnOk result (running.new.items ≡ running.old.items ++ one ∷ []) }
{
    match running.push(one) {
        Ok(()) => Ok(()),
        Err(refused) => {
            drop(finish(rt, refused.value));
            Err(AllocError)
        }
    }
}

/// Waits until the next section is judged, and adds what was found: its worker, or the verdict on the text.
fn take<H: Threads>(
    rt: &H,
    tally: &mut Tally,
    running: Running,
) -> Result<Result<Job, Verdict>, EngineFail>
    ensures takes { (h : Head) (job : Job) (most : ℕ) (told old new : Option (List ℕ))
        → IsTallied h told old tally.old → tally.old.whole < h.certificate.sites
        → IsGiven most old tally.old.whole job new → Will h job running
        → IfOk result (Takes h most told new tally.old tally.new) }
    ensures lost { (h : Head) (job : Job) → Will h job running
        → OnErr result ((done : Job) × HasRun h job done × IsLostJob tally.old.lines done) }
    ensures err { IfErr result (λ e. e ≡ EngineFail.Memory) }
{
    let job = finish(rt, running);
    let judged = match &job.judged {
        Ok(judged) => *judged,
        Err(_) => return Err(EngineFail::Memory),
    };
    match tally.add(judged, job.section.is_last)? {
        Some(verdict) => Ok(Err(verdict)),
        None => Ok(Ok(job)),
    }
}

impl Workers {
    /// So many workers, before the first section.
    pub fn new(alloc: Global, count: usize, most: usize, head: Head) -> Result<Workers, AllocError>
        requires { IsHead head }
        ensures head { IfOk result (λ w. arc_value w.head ≡ head) }
        ensures count { IfOk result (λ w. w.count ≡ count) }
        ensures most { IfOk result (λ w. w.most ≡ most) }
        ensures idle { IfOk result (λ w. w.running.items ≡ []) }
        ensures given { IfOk result (λ w. given w ≡ 0) }
        ensures works { IfOk result (λ w. (told left : Option (List ℕ))
            → Consumes told left (front_text head.second head.certificate [])
            → Works told left w) }
    {
        Ok(Workers {
            alloc,
            count,
            most,
            head: Arc::new(alloc, head)?,
            running: Vec::new(alloc),
            tally: Tally::new(),
        })
    }

    /// A worker that may judge the next section, or none where a new one is made there; or the verdict on the text.
    fn free<H: Threads>(&mut self, rt: &H) -> Result<Result<Free, Verdict>, EngineFail>
        requires count { 0 < self.old.count }
        requires works { CanWork self.old }
        requires sites { given self.old ≤ (arc_value self.old.head).certificate.sites }
        ensures goes { (told left : Option (List ℕ)) → Works told left self.old
            → IfOk result (GoesOn told left (length self.old.running.items) self.new) }
        ensures idle { IfOk result (λ r. IfOk r (λ free. IfSome free.alone
            (MayJudge (arc_value self.new.head) (given self.new)))) }
        ensures given { IfOk result (λ r. IfOk r (λ _. given self.new ≡ given self.old)) }
        ensures few { length self.old.running.items ≤ self.old.count
            → IfOk result (λ r. IfOk r (λ _. length self.new.running.items + 1 ≤ self.old.count)) }
        ensures fewer { length self.new.running.items ≤ length self.old.running.items }
        ensures same { SameWorkers self.old self.new }
        ensures err { IfErr result (λ e. e ≡ EngineFail.Memory) }
    {
        if self.running.len() < self.count {
            return Ok(Ok(Free {
                alone: None,
                buffer: None,
            }));
        }
        let Some(running) = first(&mut self.running) else {
            unreachable!()
        };
        match take(rt, &mut self.tally, running)? {
            Ok(job) => Ok(Ok(Free {
                alone: job.alone,
                buffer: Some(job.section.bytes),
            })),
            Err(verdict) => Ok(Err(verdict)),
        }
    }

    /// Has the next section judged, and waits for a worker if need be: the buffer of the section that this one judged
    /// before, if there was one, or the verdict on the text.
    pub fn judge<H: Threads>(
        &mut self,
        rt: &H,
        section: Section,
    ) -> Result<Result<Option<Vec<u8>>, Verdict>, EngineFail>
        requires count { 0 < self.old.count }
        requires head { IsHead (arc_value self.old.head) }
        requires works { CanWork self.old }
        requires sites { given self.old < (arc_value self.old.head).certificate.sites }
        ensures goes { (told left next : Option (List ℕ)) → Works told left self.old
            → IsNextSection self.old.most left section next
            → IfOk result (GoesOn told next (length self.old.running.items + 1) self.new) }
        ensures given { IfOk result (λ r. IfOk r (λ _. given self.new ≡ given self.old + 1)) }
        ensures few { length self.old.running.items ≤ self.old.count
            → IfOk result (λ r. IfOk r (λ _. length self.new.running.items ≤ self.old.count)) }
        ensures more { IfOk result (λ r. IfOk r
            (λ _. length self.new.running.items ≤ length self.old.running.items + 1)) }
        ensures same { SameWorkers self.old self.new }
        ensures err { IfErr result (λ e. e ≡ EngineFail.Memory) }
    {
        let free = match self.free(rt)? {
            Ok(free) => free,
            Err(verdict) => return Ok(Err(verdict)),
        };
        let job = Job {
            alone: free.alone,
            site: self.tally.whole + self.running.len(),
            section,
            judged: Ok(Judged::Unfit),
        };
        let theirs = Arc::try_clone(&self.head)?;
        let running = start(rt, self.alloc, theirs, job);
        add(rt, &mut self.running, running)?;
        Ok(Ok(free.buffer))
    }

    /// Waits until all sections are judged: the verdict on the text, if one has a fault.
    pub fn wait<H: Threads>(&mut self, rt: &H) -> Result<Option<Verdict>, EngineFail>
        requires works { CanWork self.old }
        requires sites { given self.old ≤ (arc_value self.old.head).certificate.sites }
        ensures ends { (told left : Option (List ℕ)) → Works told left self.old
            → IfOk result (Ends told left (length self.old.running.items) self.new) }
        ensures all { IfOk result (λ found. IfNone found
            (self.new.tally.whole ≡ given self.old)) }
        ensures none { IfOk result (λ found. IfNone found (self.new.running.items ≡ [])) }
        ensures same { SameWorkers self.old self.new }
        ensures err { IfErr result (λ e. e ≡ EngineFail.Memory) }
    {
        'judged: while let Some(running) = first(&mut self.running) {
            match take(rt, &mut self.tally, running)? {
                Ok(job) => drop(job),
                Err(verdict) => return Ok(Some(verdict)),
            }
        }
        Ok(None)
    }

    /// Waits for the sections that are judged still, whatever is found. Where the lines say much, no one waits until
    /// that is let go.
    pub fn stop<H: Threads>(self, rt: &H) {
        let Workers {
            alloc: _,
            count: _,
            most: _,
            head,
            running,
            tally: _,
        } = self;
        let mut running = running;
        'judged: while let Some(one) = first(&mut running) {
            drop(finish(rt, one));
        }
        running.destroy_empty();
        if head.certificate.decisions().len() >= MANY {
            let_go(rt, head);
        }
    }
}
