//! The run of all scripts that a reader gives.

ghost use Rattle.std.specs.Prelude.{◌≡◌, ◌⊎◌, ◌++◌, ◌<◌, ◌≤◌, ℕ, List, Option, All, Err, codes, decimal, length, map, IfOk, IfErr, IfSome, OnErr};
ghost use Rattle.sgt_names.specs.Limits.{max_sites};
ghost use Rattle.sgt_devices.specs.Devices.{LeavesReader, LeavesWriter};
ghost use Rattle.sgt_site.specs.State.{AreItems};
ghost use Rattle.sgt_service_locks.specs.Ledgers.{AreOf};
ghost use Rattle.sgt_service_settle.specs.Settled.{IsSettled};
ghost use Rattle.sgt_service.specs.Input.{IsInput, IsRead, IsUsable};
ghost use Rattle.sgt_service.specs.Report.{EndsRun, IsAnswer, IsFaultLine, IsOutcome, IsRunAnswer, IsRunOf, IsTextOf, IsWant, TellsUnreadable, WroteAnswer, WroteAnswerFront, pool_fault_number, service_fault_number, site_items};

use crate::audited::verdict_on;
use crate::begun::first_other;
use crate::input::{Input, Reading};
use crate::reading::read_input;
use crate::report::{are_committed, push_dones};
use crate::running::run;
use crate::settled::{Settled, bundle, settle};
use sgt_audit::Verdict;
use sgt_input::{items_of, unreadable_line};
use sgt_names::{EngineFail, Holding, Listed, Outcome, Sink, Source, write_all};
use sgt_notation::{Script, SiteLine, push_number};
use sgt_service_agreement::ServiceFault;
use sgt_service_locks::{Blanks, Ledgers, Service};
use sgt_workers::{Done, Gate, PoolFail, PoolFault};
use std::alloc::{AllocError, Global};
use std::marker::Brand;
use std::sync::Wait;
use std::thread::Threads;

/// An outcome, and what is to be written.
#[derive(Drop)]
struct Answer {
    outcome: Outcome,
    text: Vec<u8>,
}

fn service_fault_number(fault: ServiceFault) -> u64
    ensures { result ≡ service_fault_number fault }
{
    match fault {
        ServiceFault::StrayTicket(_) => 1,
        ServiceFault::TwoTickets(_) => 2,
        ServiceFault::Memory => 3,
        ServiceFault::Site(_) => 4,
        ServiceFault::Certifier(_) => 4,
        ServiceFault::SumTooLarge => 5,
        ServiceFault::MissingTicket(_) => 6,
        ServiceFault::NotPledged(_) => 7,
        ServiceFault::TicketOrder(_) => 8,
        ServiceFault::LogDiffers(_) => 9,
        ServiceFault::VersionsDiffer(_) => 10,
    }
}

fn pool_fault_number(fault: PoolFault) -> u64
    ensures { result ≡ pool_fault_number fault }
{
    match fault {
        PoolFault::Memory => 1,
        PoolFault::Unrun(_) => 2,
        PoolFault::Doubled(_) => 3,
    }
}

// A line with this number. Err: memory ran out.
fn numbered_line(alloc: Global, head: &[u8], number: u64) -> Result<Vec<u8>, AllocError>
    ensures { IfOk result (λ text. text.items ≡ head.now ++ (decimal number ++ codes "\n")) }
{
    let mut text = Vec::from_slice(alloc, head)?;
    push_number(&mut text, number)?;
    text.extend_from_slice(b"\n")?;
    Ok(text)
}

// The line of a fault that ended a run. Err: it is want of memory, or memory ran out.
fn fault_line(alloc: Global, fail: PoolFail<ServiceFault>) -> Result<Vec<u8>, AllocError>
    ensures { IfOk result (λ text. IsFaultLine fail text.items) }
{
    match fail {
        PoolFail::Work(fault) => match fault {
            ServiceFault::Memory => Err(AllocError),
            _ => numbered_line(alloc, b"! V", service_fault_number(fault)),
        },
        PoolFail::Pool(fault) => match fault {
            PoolFault::Memory => Err(AllocError),
            _ => numbered_line(alloc, b"! P", pool_fault_number(fault)),
        },
    }
}

// Yes where each script was committed and the verdict is yes.
fn outcome_of(dones: &[Done], verdict: Verdict) -> Outcome
    ensures { IsOutcome dones.now verdict result }
{
    match verdict {
        Verdict::Yes { .. } => {
            if are_committed(dones) {
                Outcome::Yes
            } else {
                Outcome::No
            }
        }
        Verdict::No { .. } => Outcome::No,
    }
}

// The text of a settled run, with the verdict on its own bundle. Err: memory ran out. All of the run but its Dones is
// let go before the bundle is audited.
fn run_text(alloc: Global, settled: Settled) -> Result<Answer, AllocError>
    ensures { IfOk result (λ answer. IsTextOf settled answer.outcome answer.text.items) }
{
    let whole = bundle(alloc, &settled)?;
    let told = settled.into_dones();
    let bytes = whole.into_text(alloc)?;
    let verdict = verdict_on(alloc, bytes.as_slice())?;
    let line = verdict.to_line(alloc)?;
    let dones = told.as_slice();
    let mut text = Vec::new(alloc);
    push_dones(&mut text, dones)?;
    text.extend_from_slice(line.as_bytes())?;
    text.extend_from_slice(b"---\n")?;
    text.extend_from_slice(bytes.as_slice())?;
    let outcome = outcome_of(dones, verdict);
    Ok(Answer { outcome, text })
}

// Runs the scripts by as many workers as the blanks have parts, on a service of these sites, and settles the run. The
// sites that were settled are those that were put there; V9 names the first that isn't. The scripts are let go before
// the run is settled.
fn settled_run<L: Ledgers + Send + Sync, G: Gate + Sync, R: Threads + Wait + Sync>(
    rt: &R,
    alloc: Global,
    blanks: Blanks,
    workers: u64,
    sites: &[Listed<Holding>],
    scripts: Listed<Script>,
    tries: u64,
    gate: &G,
) -> Result<Settled, PoolFail<ServiceFault>>
    requires ledgers { AreOf L.name L.begins L.parts blanks × (L.parts ≡ workers) }
    requires some { (1 ≤ workers) × (1 ≤ tries) }
    requires sites { (1 ≤ length sites.now) × (length sites.now ≤ max_sites) }
    requires items { All AreItems sites.now }
    ensures settled { IfOk result IsSettled }
    ensures run { IfOk result (IsRunOf scripts (length sites.now) tries) }
    ensures items { IfOk result (λ s. site_items s ≡ sites.now) }
    ensures fault { IfErr result (λ f. IsWant f ⊎ EndsRun scripts sites.now tries f) }
{
    let (service, seats) = match Service::<L, &G>::new(alloc, blanks, sites, workers, gate) {
        Ok(opened) => opened,
        Err(fault) => return Err(PoolFail::Work(fault)),
    };
    let (dones, seats) = run(rt, alloc, &service, seats, scripts.as_slice(), tries)?;
    drop(scripts);
    let settled = match settle(alloc, service, dones, seats) {
        Ok(settled) => settled,
        Err(fault) => return Err(PoolFail::Work(fault)),
    };
    match first_other(settled.sites(), sites) {
        None => Ok(settled),
        Some(site) => Err(PoolFail::Work(ServiceFault::LogDiffers(site))),
    }
}

// The answer to what was read. Err: memory ran out.
fn answer_to<G: Gate + Sync, R: Threads + Wait + Sync>(
    rt: &R,
    alloc: Global,
    reading: Reading,
    workers: u64,
    tries: u64,
    gate: &G,
) -> Result<Answer, AllocError>
    requires some { (1 ≤ workers) × (1 ≤ tries) }
    requires usable { IsUsable reading }
    ensures { IfOk result
        (λ answer. (told : Option (List ℕ)) → IfSome told (λ bytes. IsRead bytes reading)
        → IsAnswer tries told answer.outcome answer.text.items) }
{
    let input = match reading {
        Reading::Readable(input) => input,
        Reading::Unreadable { line, fault } => {
            return Ok(Answer {
                outcome: Outcome::Unreadable,
                text: unreadable_line(alloc, line, fault)?,
            });
        }
    };
    let Input { sites, scripts } = input;
    let items = items_of(alloc, sites.into_vec())?;
    let settled = settled_run::<Brand, G, R>(
        rt,
        alloc,
        Blanks::new(workers),
        workers,
        items.as_slice(),
        scripts,
        tries,
        gate,
    );
    match settled {
        Ok(settled) => run_text(alloc, settled),
        Err(fail) => Ok(Answer {
            outcome: Outcome::No,
            text: fault_line(alloc, fail)?,
        }),
    }
}

/// Runs the scripts that the reader gives, by so many workers and with so many tries for each, on a service of the
/// sites that it gives before them. Writes a line for each script, as `s1 committed 4 tries 2` (or `refused`, or
/// `withdrawn`): how its last try ended, that try's transaction, and how many tries there were. Then the auditor's
/// verdict on the run's own bundle, the line `---`, and the bundle. The outcome is Yes where each script was
/// committed and the verdict is yes, and else No. Where a call of the service is refused, the pool fails, the run
/// isn't settled, or a site of it has other items or first values than the input gives, `! V` or `! P` with the
/// fault's number is all that is written, and the outcome is No. Where a line can't be read,
/// `! L1 line N` or `! L2 line N` of the first such line is all that is written, and the outcome is Unreadable. The whole input is
/// read and checked before the first script is run.
///
/// ReadFault where the reader failed, or no read is left, and Memory where a growth was refused, in a worker too:
/// nothing was written. WriteFault where the writer failed: a front of the answer may have been written. Every worker
/// is joined then.
pub fn run_scripts<S: Source, W: Sink, G: Gate + Sync, R: Threads + Wait + Sync>(
    rt: &R,
    alloc: Global,
    reader: &mut S,
    writer: &mut W,
    workers: u64,
    tries: u64,
    gate: &G,
) -> Result<Outcome, EngineFail>
    requires { (1 ≤ workers) × (1 ≤ tries) }
    ensures answer { IfOk result
        (λ outcome. WroteAnswer tries (S.tells reader.old) outcome (W.holds writer.old)
        (W.holds writer.new)) }
    ensures unreadable { IfOk result
        (λ outcome. IfSome (S.tells reader.old) (λ bytes. TellsUnreadable bytes outcome)) }
    ensures front { OnErr result
        (WroteAnswerFront tries (S.tells reader.old) (W.holds writer.old) (W.holds writer.new)) }

    // A fault tells of its device, and no fault of a device is passed over.
    ensures reader { LeavesReader S.tells S.failures S.asked result reader.old reader.new }
    ensures writer { LeavesWriter W.failures result writer.old writer.new }
{
    let reading = read_input(alloc, reader)?;
    let answer = answer_to(rt, alloc, reading, workers, tries, gate)?;
    match write_all(writer, answer.text.as_slice()) {
        Ok(()) => Ok(answer.outcome),
        Err(_) => Err(EngineFail::WriteFault),
    }
}
