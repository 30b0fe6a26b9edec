//! A service's scripts, run by a pool with one worker for each seat.

ghost use Rattle.std.specs.Prelude.{◌≡◌, ◌+◌, ◌<◌, ◌≤◌, IfOk, IfErr, length, vec_len};
ghost use Rattle.sgt_workers.specs.Answers.{AreShared, IsFault};
ghost use Rattle.sgt_service_locks.specs.Counts.{capped};
ghost use Rattle.sgt_service_locks.specs.Together.{parts_of, amount_of, begin_parts_of, begins_of, begun_of};
ghost use Rattle.sgt_service_settle.specs.Settled.{tickets_of};
ghost use Rattle.sgt_service.specs.Told.{EndsTry};
ghost use Rattle.sgt_service.specs.Tries.{AreDonesOf, TriesJob};

use crate::runner::Runner;
use sgt_notation::Script;
use sgt_service_agreement::ServiceFault;
use sgt_service_locks::{Ledgers, Seat, Service};
use sgt_workers::{Done, Gate, PoolFail, pool};
use std::alloc::Global;
use std::sync::Wait;
use std::thread::Threads;

/// Runs each script by so many tries at most, each of them a transaction of its own: by the service's workers, of
/// which there is one for each seat. A refused script is tried again directly, by the same worker. A script with a
/// sum above the greatest value is withdrawn at that operation and isn't tried again (V5). Gives a Done for each
/// script, in their order, with a ticket for each try and the values that the reads of the last try answered, and the
/// seats in theirs, once all workers are joined.
///
/// An Err is P1, or a fault that a call of the service told a worker in a try of one of the scripts: V3, V4 or V7.
/// Of several it isn't fixed which.
/// A sum whose source no earlier operation reads or writes is S1. The seats and the tickets are then spent.
///
/// The service's gate is told of each job that a worker takes, and of what the service's calls tell. A worker's
/// number is its seat's.
pub fn run<L: Ledgers + Send + Sync, G: Gate + Sync, R: Threads + Wait + Sync>(
    rt: &R,
    alloc: Global,
    service: &Service<L, G>,
    seats: Vec<Seat<L>>,
    scripts: &[Script],
    tries: u64,
) -> Result<(Vec<Done>, Vec<Seat<L>>), PoolFail<ServiceFault>>
    requires seats { 0 < vec_len seats }
    requires tries { 1 ≤ tries }
    ensures dones { IfOk result (λ r. AreDonesOf scripts.now tries r.0.items) }
    ensures seats { IfOk result (λ r. vec_len r.1 ≡ vec_len seats) }
    ensures parts { IfOk result (λ r. parts_of r.1.items ≡ parts_of seats.items) }
    ensures counted { IfOk result
        (λ r. amount_of r.1.items ≡ amount_of seats.items + length (tickets_of r.0.items)) }
    ensures begin_parts { IfOk result
        (λ r. begin_parts_of r.1.items ≡ begin_parts_of seats.items) }
    ensures begins { IfOk result
        (λ r. begins_of r.1.items ≡ begins_of seats.items + length (tickets_of r.0.items)) }
    ensures begun { IfOk result
        (λ r. begun_of r.1.items ≡ capped (begun_of seats.items + length (tickets_of r.0.items))) }
    ensures tried { IfOk result
        (λ r. AreShared TriesJob scripts.now seats.items r.0.items r.1.items) }
    ensures fault { IfErr result (IsFault
        (λ number script f. EndsTry (vec_len service.now.sites) service.now.names.items script f)
        scripts.now) }
{
    let runner = Runner {
        alloc,
        service,
        tries,
    };
    let (dones, seats) = pool(rt, alloc, scripts, seats, &runner)?;
    Ok((dones, seats))
}
