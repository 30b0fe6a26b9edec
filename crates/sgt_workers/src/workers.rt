//! The pool: one worker for each state, and a Done for each script.

ghost use Rattle.std.specs.Prelude.{◌≡◌, ◌<◌, ◌⊎◌, [], true, Ok, Err, IfOk, IfErr, OnOk, length, map, vec_len};
ghost use Rattle.std.specs.List.{All, AllZip, Contains, flat_map, range_with_len};
ghost use Rattle.crossbeam_channel.specs.Claims.{view, IsSeatAt};
ghost use Rattle.crossbeam_channel.specs.Ends.{sends_on, receives_on};
ghost use Rattle.sgt_workers.specs.declared.fault.PoolFail.TheVariants.{Pool};
ghost use Rattle.sgt_workers.specs.declared.fault.PoolFault.TheVariants.{Memory};
ghost use Rattle.sgt_workers.specs.Answers.{jobs_of, AreShared, IsAnswer, IsFault, IsOwn, IsReport};
ghost use Rattle.sgt_workers.specs.Queue.{newcomer, lender, HasStops, IsBegun, IsEnded};

use crate::fault::{PoolFail, PoolFault};
use crate::order::in_order;
use crate::queue::{QueuePass, Receiver, Sender, cut, fill, join, learn_all, open, take_job};
use crate::ticket::Done;
use crate::work::Work;
use crate::worker::{Kit, Report};
use std::alloc::{AllocError, Global};
use std::sync::Wait;
use std::thread;
use std::thread::Threads;

/// Runs each script as one job, by as many workers as there are states. Gives the Dones in the order of the scripts,
/// and the states in theirs, once all workers are joined. After a fault the states are spent.
pub fn pool<
    S: Send + Drop,
    C: Sync,
    E: Send + Drop,
    W: Work<S, C, E> + Sync,
    R: Threads + Wait + Sync,
>(
    rt: &R,
    alloc: Global,
    scripts: &[C],
    states: Vec<S>,
    work: &W,
) -> Result<(Vec<Done>, Vec<S>), PoolFail<E>>
    requires { 0 < vec_len states }
    ensures jobs { IfOk result (λ r. jobs_of r.0.items ≡ range_with_len 1 (length scripts.now)) }
    ensures answers { IfOk result (λ r. All (IsAnswer (W.answers work.now) scripts.now) r.0.items) }
    ensures shares { IfOk result
        (λ r. AreShared (W.does work.now) scripts.now states.items r.0.items r.1.items) }
    ensures states { IfOk result (λ r. AllZip W.keeps states.items r.1.items) }
    ensures fault { IfErr result (IsFault (W.faults work.now) scripts.now) }
{
    if scripts.is_empty() {
        return Ok(no_jobs(alloc, states, work));
    }
    let workers = states.len();
    let room = scripts.len().saturating_add(workers);
    let (sender, receiver, mut pass) = open(alloc, room)?;
    fill(rt, &sender, &mut pass, scripts.len() as u64, workers);
    let kits = make_kits(alloc, &sender, &mut pass, states)?;
    let ends = run_workers(rt, alloc, &receiver, kits, scripts, work)?;
    let reports = all_ended(alloc, ends)?;
    let (dones, states) = collect(alloc, &sender, &mut pass, reports)?;
    learn_all(&sender, &mut pass);
    Ok((in_order(dones), states))
}

// Without a script there is no Done, and the states stay as they are.
fn no_jobs<S, C, E, W: Work<S, C, E>>(
    alloc: Global,
    states: Vec<S>,
    _work: &W,
) -> (Vec<Done>, Vec<S>)
    ensures dones { result.0.items ≡ [] }
    ensures same { result.1.items ≡ states.items }
    ensures states { AllZip W.keeps states.items result.1.items }
{
    (Vec::new(alloc), states)
}

// What each worker begins with: a state, and a pass of its own.
fn make_kits<S: Drop>(
    alloc: Global,
    sender: &Sender,
    pass: &mut QueuePass,
    states: Vec<S>,
) -> Result<Vec<Kit<S>>, AllocError>
    requires { IsSeatAt (sends_on sender.now) pass.old × ((view pass.old).sends ≡ true) }
    ensures seat { IsSeatAt (sends_on sender.now) pass.new }
    ensures lender { IfOk result (λ v. view pass.new ≡ lender (vec_len v) (view pass.old)) }
    ensures kits { IfOk result (λ v. AllZip (λ s k. k.state ≡ s) states.items v.items) }
    ensures cut { IfOk result
        (λ v. All (λ k.
        IsSeatAt (sends_on sender.now) k.pass
        × (view k.pass ≡ newcomer (view pass.old))) v.items) }
{
    let mut kits = Vec::new(alloc);
    for state in states {
        let mine = cut(sender, pass);
        kits.push(Kit { state, pass: mine })?;
    }
    Ok(kits)
}

// Runs a worker for each kit, of which there is a stop for each, and joins them all.
fn run_workers<
    S: Send + Drop,
    C: Sync,
    E: Send + Drop,
    W: Work<S, C, E> + Sync,
    R: Threads + Wait + Sync,
>(
    rt: &R,
    alloc: Global,
    receiver: &Receiver,
    kits: Vec<Kit<S>>,
    scripts: &[C],
    work: &W,
) -> Result<Vec<Result<Report<S>, PoolFail<E>>>, AllocError>
    requires begun { All
        (λ k. IsBegun (receives_on receiver.now) (length scripts.now) k.pass) kits.items }
    requires stops { All (λ k. HasStops (vec_len kits) k.pass) kits.items }
    ensures taken { IfOk result
        (λ v. All (λ e.
        IfOk e (λ r. IsEnded (receives_on receiver.now) r.pass
        (jobs_of r.dones.items))) v.items) }
    ensures keeps { IfOk result
        (λ v. AllZip (λ k e. IfOk e (λ r. W.keeps k.state r.state)) kits.items v.items) }
    ensures reports { IfOk result
        (λ v. AllZip (λ k e.
        IfOk e (IsReport (W.does work.now) scripts.now k.state)) kits.items v.items) }
    ensures answers { IfOk result
        (λ v. All (λ e.
        IfOk e (λ r. All
        (IsAnswer (W.answers work.now) scripts.now) r.dones.items)) v.items) }
    ensures fault { IfOk result
        (λ v. All (λ e. IfErr e (IsFault (W.faults work.now) scripts.now)) v.items) }
{
    let one = |kit: Kit<S>| -> Result<Report<S>, PoolFail<E>>
        requires { IsBegun (receives_on receiver.now) (length scripts.now) kit.pass }
        ensures taken { IfOk result
            (λ r. IsEnded (receives_on receiver.entry.now) r.pass (jobs_of r.dones.items)) }
        ensures keeps { IfOk result (λ r. W.keeps kit.state r.state) }
        ensures reports { IfOk result
            (IsReport (W.does work.entry.now) scripts.entry.now kit.state) }
        ensures answers { IfOk result
            (λ r. All (IsAnswer (W.answers work.entry.now) scripts.entry.now) r.dones.items) }
        ensures fault { IfErr result (IsFault (W.faults work.entry.now) scripts.entry.now) }
    {
        let Kit {
            mut state,
            mut pass,
        } = kit;
        let mut dones = Vec::new(alloc);
        for _ in rt.forever() {
            dones.reserve(1)?;
            let Some(job) = take_job(rt, receiver, &mut pass, scripts) else {
                return Ok(Report { state, pass, dones });
            };
            match work.work(rt, &mut state, job) {
                Ok(done) => dones.push_reserved(done),
                Err(fault) => return Err(PoolFail::Work(fault)),
            }
        }
        unreachable!()
    };
    thread::map_vec(rt, kits, &one)
}

// The reports, where each worker came to its stop. Else a fault of the work, where a worker met one.
fn all_ended<S: Drop, E: Drop>(
    alloc: Global,
    ends: Vec<Result<Report<S>, PoolFail<E>>>,
) -> Result<Vec<Report<S>>, PoolFail<E>>
    ensures reports { IfOk result (λ v. ends.items ≡ map Ok v.items) }
    ensures fault { IfErr result (λ f. (f ≡ Pool Memory) ⊎ Contains ends.items (Err f)) }
    ensures own { IfErr result (λ f. IsOwn f → All (λ e. IfErr e IsOwn) ends.items) }
{
    let mut reports = Vec::new(alloc);
    let mut fault = None;
    for end in ends {
        match end {
            Ok(report) => {
                if reports.push(report).is_err() {
                    fault = Some(PoolFault::Memory);
                }
            }
            Err(PoolFail::Work(fault)) => return Err(PoolFail::Work(fault)),
            Err(PoolFail::Pool(own)) => fault = Some(own),
        }
    }
    match fault {
        None => Ok(reports),
        Some(fault) => Err(PoolFail::Pool(fault)),
    }
}

// The Dones of all workers, and the states as they left them. Their passes are joined to the sender's.
fn collect<S: Drop>(
    alloc: Global,
    sender: &Sender,
    pass: &mut QueuePass,
    reports: Vec<Report<S>>,
) -> Result<(Vec<Done>, Vec<S>), AllocError>
    requires pass { IsSeatAt (sends_on sender.now) pass.old × ((view pass.old).taken ≡ []) }
    requires sends { (view pass.old).sends ≡ true }
    requires out { (view pass.old).out ≡ vec_len reports }
    requires some { 0 < vec_len reports }
    requires reports { All
        (λ w. IsEnded (sends_on sender.now) w.pass (jobs_of w.dones.items)) reports.items }
    ensures seat { IsSeatAt (sends_on sender.now) pass.new }
    ensures dones { IfOk result (λ r. r.0.items ≡ flat_map (λ w. w.dones.items) reports.items) }
    ensures states { IfOk result (λ r. r.1.items ≡ map (λ w. w.state) reports.items) }
    ensures taken { IfOk result (λ r. (view pass.new).taken ≡ jobs_of r.0.items) }
    ensures sent { ((view pass.new).sends ≡ (view pass.old).sends)
        × ((view pass.new).sent ≡ (view pass.old).sent) }
    ensures whole { OnOk result
        (((view pass.new).out ≡ 0) × ((view pass.new).stopped ≡ true)) }
{
    let mut all = Vec::new(alloc);
    let mut states = Vec::new(alloc);
    for report in reports {
        let Report {
            state,
            pass: theirs,
            mut dones,
        } = report;
        join(sender, pass, theirs);
        all.append(&mut dones)?;
        states.push(state)?;
    }
    Ok((all, states))
}
