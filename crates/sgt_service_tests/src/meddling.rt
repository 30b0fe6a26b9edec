//! Runs whose locks somebody takes behind the service's back, and runs whose tickets are changed.

ghost use Rattle.std.specs.Prelude.{◌≡◌};
ghost use Rattle.sgt_service_locks.specs.Ledgers.{AreOf};

use crate::gates::{HoldThree, HoldUntil};
use crate::given::{other_site, scripts_of, sites_of};
use sgt_names::{Holding, Item, Listed, SiteNo, Tx};
use sgt_notation::Script;
use sgt_service::{run, settle};
use sgt_service_agreement::ServiceFault;
use sgt_service_locks::{Blanks, Ledgers, Seat, Service};
use sgt_site::Site;
use sgt_workers::{Done, Ending, Gate, Place, PoolFail, Ticket};
use std::alloc::Global;
use std::marker::Brand;
use std::sync::Wait;
use std::test::Fail;
use std::thread::{Threads, join};

// What is done at site 0, under its lock, once a transaction is decided.
#[derive(Clone, Copy)]
enum Meddling {
    Nothing,
    Unpledge(Tx),
    // It is logged, and no seat is told.
    Read(Tx, Item),
}

// Does this, where it does something while the gate holds whoever has decided; and then nobody is held any more.
fn meddle<L: Ledgers, R: Wait>(
    rt: &R,
    service: &Service<L, &HoldThree>,
    does: Meddling,
    nowhere: SiteNo,
) {
    let Some(site) = service.sites.first() else {
        return;
    };
    match does {
        Meddling::Nothing => {}
        Meddling::Unpledge(tx) => {
            service.gate.arrive(0, Place::InRead(nowhere));
            let _ = site.lock(rt).unpledge(tx);
        }
        Meddling::Read(tx, item) => {
            service.gate.arrive(0, Place::InRead(nowhere));
            let _ = site.lock(rt).read(tx, item);
        }
    }
    service.gate.arrive(0, Place::AfterRead(nowhere));
}

// How a run ends.
#[derive(Clone, Copy, Debug, PartialEq, Eq)]
enum End {
    // With this fault, and `begin` at another seat with that one.
    Stopped(ServiceFault, ServiceFault),
    Unsettled(ServiceFault),
    Settled,
}

/// Puts another site in the place of the first.
pub fn exchange<L: Ledgers, G: Gate, R: Wait>(rt: &R, service: &Service<L, G>, other: Site) {
    if let Some(site) = service.sites.first() {
        *site.lock(rt) = other;
    }
}

// What became of the scripts, where there is a seat to run them by.
fn run_by<L: Ledgers + Send + Sync, G: Gate + Sync, R: Threads + Wait + Sync>(
    rt: &R,
    alloc: Global,
    service: &Service<L, G>,
    seats: Vec<Seat<L>>,
    scripts: &[Script],
) -> Option<Result<(Vec<Done>, Vec<Seat<L>>), PoolFail<ServiceFault>>> {
    if seats.is_empty() {
        return None;
    }
    Some(run(rt, alloc, service, seats, scripts, 1))
}

// How a run with the first of two seats ends, settled with both; its callers were told what they were told, or this.
// None: it came to no end.
fn ended<L: Ledgers + Send + Sync, R: Threads + Wait + Sync>(
    rt: &R,
    alloc: Global,
    blanks: Blanks,
    sites: &[Listed<Holding>],
    scripts: &[Script],
    does: Meddling,
    exchanged: Option<Site>,
    told: Option<Vec<Done>>,
) -> Option<End>
    requires { AreOf L.name L.begins L.parts blanks × (L.parts ≡ 2) }
{
    if sites.is_empty() || sites.len() > 64 {
        return None;
    }
    // Who has decided is held until somebody arrives after a read there, and who is about to read there until then.
    let nowhere = SiteNo::new(63).ok()?;
    let gate = HoldThree::new(
        HoldUntil::new(Place::InStep, Place::AfterRead(nowhere)),
        HoldUntil::new(Place::InRead(nowhere), Place::InStep),
        HoldUntil::new(Place::InRead(nowhere), Place::InStep),
    );
    let (service, mut seats) = Service::<L, _>::new(alloc, blanks, sites, 2, &gate).ok()?;
    let second = seats.pop()?;
    let ours = &service;
    let (ran, ()) = join(
        rt,
        move || run_by(rt, alloc, ours, seats, scripts),
        || meddle(rt, ours, does, nowhere),
    );
    match ran? {
        Ok((dones, mut seats)) => {
            if let Some(other) = exchanged {
                exchange(rt, &service, other);
            }
            if seats.push(second).is_err() {
                return None;
            }
            match settle(alloc, service, told.unwrap_or(dones), seats) {
                Ok(_) => Some(End::Settled),
                Err(fault) => Some(End::Unsettled(fault)),
            }
        }
        Err(PoolFail::Work(first)) => later(rt, alloc, &service, second, first),
        Err(PoolFail::Pool(_)) => None,
    }
}

fn later<L: Ledgers, G: Gate, R: Wait>(
    rt: &R,
    alloc: Global,
    service: &Service<L, G>,
    seat: Seat<L>,
    first: ServiceFault,
) -> Option<End> {
    let mut seat = seat;
    match service.begin(rt, alloc, &mut seat) {
        Ok(_) => None,
        Err(later) => Some(End::Stopped(first, later)),
    }
}

// How a run of one write ends, of which this is changed behind its back.
fn changed<R: Threads + Wait + Sync>(
    rt: &R,
    alloc: Global,
    does: Meddling,
    exchanged: Option<Site>,
) -> Result<Option<End>, Fail> {
    let sites = sites_of(alloc, &["site 0 x=5 y=2"]).ok_or("no sites")?;
    let scripts = scripts_of(alloc, &["w[0.x]=7"])?;
    Ok(ended::<Brand, _>(
        rt,
        alloc,
        Blanks::new(2),
        sites.as_slice(),
        scripts.as_slice(),
        does,
        exchanged,
        None,
    ))
}

// The same with another site in its place, as many of whose installs are of y.
fn exchanged_site<R: Threads + Wait + Sync>(rt: &R, alloc: Global) -> Result<Option<End>, Fail> {
    let (x, y) = (Item::new(b"x")?, Item::new(b"y")?);
    let items = [Holding { item: x, value: 5 }, Holding { item: y, value: 2 }];
    let other = other_site(alloc, &items, y)?;
    changed(rt, alloc, Meddling::Nothing, Some(other))
}

#[test]
fn site_changed_under_the_lock(rt: HostRuntime) -> Result<(), Fail> {
    let alloc = rt.alloc();
    let zero = SiteNo::new(0)?;
    let lost = ServiceFault::NotPledged(zero);
    let differs = End::Unsettled(ServiceFault::VersionsDiffer(zero));
    let rows = [
        (Meddling::Nothing, End::Settled),
        (Meddling::Unpledge(Tx::new(1)?), End::Stopped(lost, lost)),
        (
            Meddling::Read(Tx::new(9)?, Item::new(b"x")?),
            End::Unsettled(ServiceFault::LogDiffers(zero)),
        ),
    ];
    for (does, end) in rows {
        assert_eq!(rt; changed(&rt, alloc, does, None)?, Some(end));
    }
    // as many decisions and installs, but of another item
    assert_eq!(rt; exchanged_site(&rt, alloc)?, Some(differs));
    Ok(())
}

/// A ticket, by its number and transaction.
#[derive(Clone, Copy)]
pub struct Told {
    pub number: u64,
    pub tx: u64,
    pub verdict: Ending,
}

/// The ticket of the commit of this number, which is of the transaction after it.
pub fn commit_of(number: u64) -> Told {
    Told {
        number,
        tx: number.saturating_add(1),
        verdict: Ending::Committed,
    }
}

fn done(alloc: Global, job: u64, told: &[Told]) -> Result<Done, Fail> {
    let mut tickets = Vec::new(alloc);
    for one in told {
        tickets.push(Ticket {
            number: one.number,
            tx: Tx::new(one.tx)?,
            verdict: one.verdict,
        })?;
    }
    Ok(Done {
        job,
        tickets,
        reads: Vec::new(alloc),
    })
}

/// Two jobs that were told these tickets.
pub fn dones(alloc: Global, first: &[Told], second: &[Told]) -> Result<Vec<Done>, Fail> {
    let mut dones = Vec::new(alloc);
    dones.push(done(alloc, 1, first)?)?;
    dones.push(done(alloc, 2, second)?)?;
    Ok(dones)
}

// How a run of a write that is read back ends, whose callers were told these tickets.
fn told_otherwise<R: Threads + Wait + Sync>(
    rt: &R,
    alloc: Global,
    first: &[Told],
    second: &[Told],
) -> Result<Option<End>, Fail> {
    let told = dones(alloc, first, second)?;
    let sites = sites_of(alloc, &["site 0 x=5 y=0"]).ok_or("no sites")?;
    let scripts = scripts_of(alloc, &["w[0.x]=7", "r[0.x] w[0.y]=0.x+1"])?;
    Ok(ended::<Brand, _>(
        rt,
        alloc,
        Blanks::new(2),
        sites.as_slice(),
        scripts.as_slice(),
        Meddling::Nothing,
        None,
        Some(told),
    ))
}

#[test]
fn foreign_tickets(rt: HostRuntime) -> Result<(), Fail> {
    let alloc = rt.alloc();
    let (first, second) = (commit_of(0), commit_of(1));
    let refused = Told {
        verdict: Ending::Refused,
        ..second
    };
    let fifth = Told {
        number: 5,
        ..second
    };
    let stray = End::Unsettled(ServiceFault::StrayTicket(1));
    let far = End::Unsettled(ServiceFault::StrayTicket(5));
    let rows: [(&[Told], &[Told], End); 7] = [
        (&[first], &[second], End::Settled),
        (&[first], &[refused], stray),
        (&[first], &[fifth], far),
        (
            &[commit_of(0), commit_of(0)],
            &[second],
            End::Unsettled(ServiceFault::TwoTickets(0)),
        ),
        (&[commit_of(0), commit_of(0)], &[fifth], far),
        (
            &[first],
            &[],
            End::Unsettled(ServiceFault::MissingTicket(1)),
        ),
        (
            &[],
            &[second, first],
            End::Unsettled(ServiceFault::TicketOrder(2)),
        ),
    ];
    for row in &rows {
        assert_eq!(rt; told_otherwise(&rt, alloc, row.0, row.1)?, Some(row.2));
    }
    Ok(())
}
