//! A service of one seat, whose calls are made one after another.

ghost use Rattle.std.specs.Prelude.{◌≡◌};
ghost use Rattle.sgt_service_locks.specs.Ledgers.{AreOf};

use crate::meddling::exchange;
use sgt_names::{Holding, Item, Listed, SiteNo, Value};
use sgt_service::{Settled, settle};
use sgt_service_agreement::ServiceFault;
use sgt_service_locks::{Active, Back, Blanks, Ledgers, Seat, Service};
use sgt_site::Site;
use sgt_workers::{Done, NoGate, Ticket};
use std::alloc::Global;
use std::sync::Wait;

/// A call. What is read and changed is at site 0.
#[derive(Clone, Copy)]
pub enum Step {
    Begin,
    Read(Item),
    Put(Item, Value),
    Add(Item, Value),
    Commit,
    Withdraw,
    Close,
}

/// What a call answers.
#[derive(Clone, Copy, Debug, PartialEq, Eq)]
pub enum Answer {
    /// The transaction's number, and the generation of its handle.
    Begun(u32, u32),
    Seen(Value),
    Kept,
    Ended(Ticket),
    Closed(u64),
    Refused(ServiceFault),
    /// The same, of a commit or a withdrawal, whose transaction came back.
    CameBack(ServiceFault),
    NotBegun,
}

// Reads, or keeps a change.
fn touch<L: Ledgers, R: Wait>(
    rt: &R,
    service: &Service<L, NoGate>,
    seat: &mut Seat<L>,
    active: &mut Active,
    site: SiteNo,
    step: &Step,
) -> Answer {
    let kept = match *step {
        Step::Read(item) => {
            return match service.read(rt, seat, active, site, item) {
                Ok(value) => Answer::Seen(value),
                Err(fault) => Answer::Refused(fault),
            };
        }
        Step::Put(item, value) => service.put(active, site, item, value),
        Step::Add(item, value) => service.add(active, site, item, value),
        _ => return Answer::NotBegun,
    };
    match kept {
        Ok(()) => Answer::Kept,
        Err(fault) => Answer::Refused(fault),
    }
}

// Commits or withdraws, and answers what comes back.
fn end<L: Ledgers, R: Wait>(
    rt: &R,
    alloc: Global,
    service: &Service<L, NoGate>,
    seat: &mut Seat<L>,
    active: Active,
    step: &Step,
) -> (Answer, Option<Active>) {
    let ended = match *step {
        Step::Commit => service.commit(rt, alloc, seat, active),
        _ => service.withdraw(rt, seat, active),
    };
    match ended {
        Ok(ticket) => (Answer::Ended(ticket), None),
        Err(Back { active, fault }) => {
            if active.is_some() {
                return (Answer::CameBack(fault), active);
            }
            (Answer::Refused(fault), None)
        }
    }
}

// What a call answers.
fn call<L: Ledgers, R: Wait>(
    rt: &R,
    alloc: Global,
    service: &Service<L, NoGate>,
    seat: &mut Seat<L>,
    active: &mut Option<Active>,
    site: SiteNo,
    step: &Step,
) -> Answer {
    match *step {
        Step::Begin => match service.begin(rt, alloc, seat) {
            Ok(begun) => {
                let answer = Answer::Begun(begun.tx().number(), begun.handle().generation);
                *active = Some(begun);
                answer
            }
            Err(fault) => Answer::Refused(fault),
        },
        Step::Close => match service.close(rt) {
            Ok(ranks) => Answer::Closed(ranks),
            Err(fault) => Answer::Refused(fault),
        },
        Step::Commit | Step::Withdraw => match active.take() {
            Some(one) => {
                let (answer, back) = end(rt, alloc, service, seat, one, step);
                *active = back;
                answer
            }
            None => Answer::NotBegun,
        },
        _ => match active {
            Some(one) => touch(rt, service, seat, one, site, step),
            None => Answer::NotBegun,
        },
    }
}

// Whether this is want of memory, which changed nothing.
fn is_want(answer: Answer) -> bool {
    answer == Answer::Refused(ServiceFault::Memory)
        || answer == Answer::CameBack(ServiceFault::Memory)
}

/// What is kept of the calls.
#[derive(Drop)]
struct Kept {
    tickets: Vec<Ticket>,
    wanted: bool,
}

/// How calls were answered, and how what is left is settled.
#[derive(Drop)]
pub struct Run {
    /// The place of the first call that answers otherwise, among those before an exchange or those behind it.
    pub wrong: Option<usize>,
    /// Whether a call wanted memory, and was made again.
    pub wanted: bool,
    pub settled: Result<Settled, ServiceFault>,
}

// The place of the first call that answers otherwise. One that had no memory is made again. There is room for the
// tickets.
fn first_wrong<L: Ledgers, R: Wait>(
    rt: &R,
    alloc: Global,
    service: &Service<L, NoGate>,
    seat: &mut Seat<L>,
    active: &mut Option<Active>,
    site: SiteNo,
    steps: &[(Step, Answer)],
    kept: &mut Kept,
) -> Option<usize> {
    for k in 0..steps.len() {
        let (step, expected) = &steps[k];
        let mut found = call(rt, alloc, service, seat, active, site, step);
        if is_want(found) {
            kept.wanted = true;
            found = call(rt, alloc, service, seat, active, site, step);
        }
        if found != *expected {
            return Some(k);
        }
        if let Answer::Ended(ticket) = found {
            if kept.tickets.push(ticket).is_err() {
                return Some(k);
            }
        }
    }
    None
}

/// Makes the calls, and settles what is left, whose one job was told all tickets. Between the first calls and the
/// others another site may be put in the place of site 0. None: there was no memory before the first call.
pub fn stepped<L: Ledgers, R: Wait>(
    rt: &R,
    alloc: Global,
    blanks: Blanks,
    sites: &[Listed<Holding>],
    steps: &[(Step, Answer)],
    exchanged: Option<Site>,
    others: &[(Step, Answer)],
) -> Option<Run>
    requires { AreOf L.name L.begins L.parts blanks × (L.parts ≡ 1) }
{
    if sites.is_empty() || sites.len() > 64 {
        return None;
    }
    let site = SiteNo::new(0).ok()?;
    let mut kept = Kept {
        tickets: Vec::with_capacity(alloc, 8).ok()?,
        wanted: false,
    };
    let mut dones = Vec::with_capacity(alloc, 1).ok()?;
    let (service, mut seats) = Service::<L, _>::new(alloc, blanks, sites, 1, NoGate).ok()?;
    let mut wrong = None;
    if let Some(seat) = seats.as_mut_slice().first_mut() {
        let mut active = None;
        wrong = first_wrong(
            rt,
            alloc,
            &service,
            seat,
            &mut active,
            site,
            steps,
            &mut kept,
        );
        if let Some(other) = exchanged {
            exchange(rt, &service, other);
        }
        if wrong.is_none() {
            wrong = first_wrong(
                rt,
                alloc,
                &service,
                seat,
                &mut active,
                site,
                others,
                &mut kept,
            );
        }
    }
    let Kept { tickets, wanted } = kept;
    let done = Done {
        job: 1,
        tickets,
        reads: Vec::new(alloc),
    };
    if dones.push(done).is_err() {
        return None;
    }
    Some(Run {
        wrong,
        wanted,
        settled: settle(alloc, service, dones, seats),
    })
}
