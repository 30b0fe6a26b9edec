//! A section that is judged in a thread of its own.

ghost use Rattle.std.specs.Prelude.{◌<◌};
ghost use Rattle.std.specs.Arc.{arc_value};
ghost use Rattle.sgt_audit_workers.specs.Head.{IsHead};
ghost use Rattle.sgt_audit_workers.specs.declared.head.Head.{Head};
ghost use Rattle.sgt_audit_workers.specs.declared.job.Job.{Job};
ghost use Rattle.sgt_audit_workers.specs.private.Jobs.{HasRun, IsIdle};
ghost use Rattle.sgt_audit_workers.specs.private.Running.{Will};

use crate::head::Head;
use crate::job::{Job, run};
use std::alloc::Global;
use std::snapshot::Snapshot;
use std::sync::Arc;
use std::thread;
use std::thread::{Promise, PromisedHandle, Threads};

/// What a thread was given to judge, as clauses see it.
#[derive(Drop)]
pub struct Task {
    head: Snapshot<Head>,
    job: Snapshot<Job>,
}

impl Promise<Job> for Task {
    ghost kept_by = { λ task done. HasRun task.head.value task.job.value done };
}

/// A section that a thread judges; or that was judged here, where no thread could be made. It is not `Drop`, so none
/// can be let go but by `finish`, which waits for its thread.
pub enum Running {
    There(PromisedHandle<Job, Task>),
    Here(Job),
}

/// Judges the section, by one of the owners of what the lines say.
fn run_owning(alloc: Global, head: Arc<Head>, job: Job) -> Job
    requires head { IsHead (arc_value head) }
    requires idle { IsIdle (arc_value head) job.site job }
    requires site { job.site < (arc_value head).certificate.sites }
    ensures { HasRun (arc_value head) job result }
{
    run(alloc, &head, job)
}

/// Has the section judged, in a thread of its own where one can be made, and else here.
pub fn start<H: Threads>(rt: &H, alloc: Global, theirs: Arc<Head>, job: Job) -> Running
    requires head { IsHead (arc_value theirs) }
    requires idle { IsIdle (arc_value theirs) job.site job }
    requires site { job.site < (arc_value theirs).certificate.sites }
    ensures { Will (arc_value theirs) job result }
{
    let task = Task {
        head: Snapshot::of(&theirs),
        job: Snapshot::of(&job),
    };
    let judge = move || -> Job
        requires { IsHead (arc_value theirs) × IsIdle (arc_value theirs) job.site job
            × (job.site < (arc_value theirs).certificate.sites) }
        ensures { HasRun (arc_value theirs) job result }
    { run_owning(alloc, theirs, job) };
    match thread::spawn_with(rt, task, judge) {
        Ok(handle) => Running::There(handle),
        Err(refused) => Running::Here((refused.value)()),
    }
}

/// Waits until the section is judged.
pub fn finish<H: Threads>(rt: &H, running: Running) -> Job
    ensures { (h : Head) (job : Job) → Will h job running → HasRun h job result }
{
    match running {
        Running::There(handle) => handle.join(rt),
        Running::Here(job) => job,
    }
}
