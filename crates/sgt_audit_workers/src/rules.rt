//! The rules of a certificate by itself, judged by several threads at once.

ghost use Rattle.std.specs.Prelude.{◌↔◌, ℕ, List, IsTrue, IfOk};
ghost use Rattle.sgt_audit_decisions.specs.Steps.{AreStepsOf};
ghost use Rattle.sgt_audit.specs.Faults.{KeepsItself};
ghost use Rattle.sgt_audit.specs.declared.faults.Fault.{Fault};
ghost use Rattle.sgt_audit.specs.declared.faults.Fault.TheVariants as fault;
ghost use Rattle.sgt_bundle.specs.Text.{IsCertificate};
ghost use Rattle.sgt_audit_workers.specs.Head.{IsHeadOf};
ghost use Rattle.sgt_audit_workers.specs.private.Judging.{IsOnceOf};

use crate::head::{Head, head_with};
use sgt_audit::Fault;
use sgt_audit_decisions::{Decided, Steps, are_cycles, are_ranks};
use sgt_names::EngineFail;
use std::alloc::{AllocError, Global};
use std::thread;
use std::thread::Threads;

/// A certificate in which no transaction is decided twice, and how many sites it has.
#[derive(Drop)]
pub struct Once {
    pub sites: u8,
    pub certificate: Decided,
}

/// Whether the certificate, in which no transaction is decided twice, keeps the other rules.
fn keeps_rules<H: Threads>(rt: &H, alloc: Global, certificate: &Decided) -> Result<bool, AllocError>
    ensures { IfOk result
        (λ keeps. IsTrue keeps ↔ ((f : Fault) → KeepsItself certificate.now.decisions f)) }
{
    let decisions = certificate.decisions();
    let of_ranks = move || -> Result<bool, AllocError>
        ensures { IfOk result (λ are. IsTrue are ↔ KeepsItself decisions.entry.now fault.Ranks) }
    { are_ranks(alloc, decisions) };
    let of_walks = move || -> Result<bool, AllocError>
        ensures { IfOk result
            (λ are. IsTrue are ↔ KeepsItself certificate.entry.now.decisions fault.WalkShape) }
    { are_cycles(alloc, certificate) };
    let (ranks, walks) = thread::join(rt, of_ranks, of_walks);
    let ranks = ranks?;
    let walks = walks?;
    Ok(ranks && walks)
}

/// The steps of the walks, by their sites. Then the bytes are let go, while other threads judge the rules.
fn steps_of(alloc: Global, certificate: &Decided, bytes: Vec<u8>) -> Result<Steps, AllocError>
    ensures { IfOk result
        (λ steps. IsCertificate certificate.now → AreStepsOf certificate.now.decisions steps) }
{
    let steps = certificate.steps(alloc);
    drop(bytes);
    steps
}

/// What the first two lines say, with this certificate in the second of them; or its fault. The second's bytes are
/// let go. Where a rule is broken, all of them are judged one after another, for the least.
pub fn judge_once<H: Threads + Sync>(
    rt: &H,
    alloc: Global,
    second: bool,
    once: Once,
    bytes: Vec<u8>,
) -> Result<Result<Head, Fault>, EngineFail>
    ensures { (line : List ℕ) → IsOnceOf line once → IsHeadOf second line result }
{
    let Once { sites, certificate } = once;
    let lent = &certificate;
    let of_rules = move || -> Result<bool, AllocError>
        ensures { IfOk result
            (λ keeps. IsTrue keeps ↔ ((f : Fault) → KeepsItself lent.entry.now.decisions f)) }
    { keeps_rules(rt, alloc, lent) };
    let of_steps = move || -> Result<Steps, AllocError>
        ensures { IfOk result (λ steps. IsCertificate lent.entry.now
            → AreStepsOf lent.entry.now.decisions steps) }
    { steps_of(alloc, lent, bytes) };
    let (keeps, steps) = thread::join(rt, of_rules, of_steps);
    if !keeps? {
        return head_with(alloc, second, certificate.into_certificate());
    }
    let steps = steps?;
    Ok(Ok(Head {
        second,
        sites,
        certificate,
        steps,
    }))
}
