//! A section with the worker that judges it.

ghost use Rattle.std.specs.Prelude.{◌<◌, ℕ, IfOk, IfSome};
ghost use Rattle.sgt_audit_workers.specs.Head.{IsHead};
ghost use Rattle.sgt_audit_workers.specs.private.Jobs.{HasRun, IsIdle, MayJudge};

use crate::head::Head;
use crate::sections::Section;
use sgt_audit::Alone;
use sgt_audit_sections::{Judged, judge_section};
use std::alloc::{AllocError, Global};

/// A worker, with the section that it is to judge, or has judged. It is made where it first judges.
#[derive(Drop)]
pub struct Job {
    pub alone: Option<Alone>,
    pub site: usize,
    pub section: Section,
    pub judged: Result<Judged, AllocError>,
}

/// The worker, or a new one.
fn made(alloc: Global, head: &Head, alone: Option<Alone>) -> Result<Alone, AllocError>
    requires { IsHead head.now }
    ensures { (k : ℕ) → IfSome alone (MayJudge head.now k)
        → IfOk result (MayJudge head.now k) }
{
    match alone {
        Some(alone) => Ok(alone),
        None => Alone::new(alloc, head.second, head.sites, &head.certificate),
    }
}

/// Judges the section.
pub fn run(alloc: Global, head: &Head, job: Job) -> Job
    requires head { IsHead head.now }
    requires idle { IsIdle head.now job.site job }
    requires site { job.site < head.now.certificate.sites }
    ensures { HasRun head.now job result }
{
    let Job {
        alone,
        site,
        section,
        ..
    } = job;
    let mut alone = match made(alloc, head, alone) {
        Ok(alone) => alone,
        Err(e) => {
            return Job {
                alone: None,
                site,
                section,
                judged: Err(e),
            };
        }
    };
    let judged = judge_section(
        &mut alone,
        &head.certificate,
        head.steps.at(site),
        site,
        section.bytes.as_slice(),
    );
    Job {
        alone: Some(alone),
        site,
        section,
        judged,
    }
}
