//! Schedules of two workers that gates bring about.

ghost use Rattle.std.specs.Prelude.{◌≡◌};
ghost use Rattle.sgt_service_locks.specs.Ledgers.{AreOf};

use crate::gates::{HoldThree, HoldUntil};
use crate::given::{scripts_of, sites_of};
use sgt_names::{Holding, Listed, SiteNo};
use sgt_notation::Script;
use sgt_service::{Settled, run, settle};
use sgt_service_locks::{Blanks, Ledgers, Service};
use sgt_workers::{Ending, Place};
use std::alloc::Global;
use std::marker::Brand;
use std::sync::Wait;
use std::test::Fail;
use std::thread::Threads;

// The scripts on a service of these sites, each tried once by one of two workers, and settled.
fn ran<L: Ledgers + Send + Sync, R: Threads + Wait + Sync>(
    rt: &R,
    alloc: Global,
    blanks: Blanks,
    sites: &[Listed<Holding>],
    scripts: &[Script],
    gate: &HoldThree,
) -> Option<Settled>
    requires { AreOf L.name L.begins L.parts blanks × (L.parts ≡ 2) }
{
    if sites.is_empty() || sites.len() > 64 {
        return None;
    }
    let (service, seats) = Service::<L, _>::new(alloc, blanks, sites, 2, gate).ok()?;
    let (dones, seats) = run(rt, alloc, &service, seats, scripts, 1).ok()?;
    settle(alloc, service, dones, seats).ok()
}

// Whether the script was committed, and its one try read these values.
fn has_read(settled: &Settled, place: usize, values: &[u64]) -> bool {
    let Some(done) = settled.dones().get(place) else {
        return false;
    };
    let Some(ticket) = done.tickets.last() else {
        return false;
    };
    ticket.verdict == Ending::Committed && done.reads.as_slice() == values
}

// The number of the decision on a script's try, and its transaction's rank among the commits.
fn decided(alloc: Global, settled: &Settled, place: usize) -> Option<(u64, Option<u32>)> {
    let ticket = settled.dones().get(place)?.tickets.last()?;
    let certificate = settled.certifier().certificate(alloc, 1).ok()?;
    let decision = certificate.decisions().get(ticket.number as usize)?;
    Some((ticket.number, decision.rank()))
}

// One reads at its site, where it is held under the site's lock until the other has read at another.
#[test]
fn two_sites_at_once(rt: HostRuntime) -> Result<(), Fail> {
    let alloc = rt.alloc();
    let (first, second) = (SiteNo::new(0)?, SiteNo::new(1)?);
    let gate = HoldThree::new(
        HoldUntil::new(Place::InRead(first), Place::AfterRead(second)),
        HoldUntil::new(Place::AfterRead(second), Place::AfterRead(second)),
        HoldUntil::new(Place::InStep, Place::InStep),
    );
    let sites = sites_of(alloc, &["site 0 x=5", "site 1 y=2"]).ok_or("no sites")?;
    let scripts = scripts_of(alloc, &["r[0.x]", "r[1.y]"])?;
    let (sites, scripts) = (sites.as_slice(), scripts.as_slice());
    let ended = ran::<Brand, _>(&rt, alloc, Blanks::new(2), sites, scripts, &gate);
    let Some(settled) = &ended else {
        panic!(rt; "not settled");
    };
    assert!(rt; !gate.failed());
    assert!(rt; has_read(settled, 0, &[5]) && has_read(settled, 1, &[2]));
    Ok(())
}

// One reads an item while the other, which is to write it, has its step open: it is decided later, and comes before.
#[test]
fn read_in_step(rt: HostRuntime) -> Result<(), Fail> {
    let alloc = rt.alloc();
    let (shared, other, mine) = (SiteNo::new(0)?, SiteNo::new(1)?, SiteNo::new(2)?);
    let gate = HoldThree::new(
        HoldUntil::new(Place::AfterRead(mine), Place::AfterRead(other)),
        HoldUntil::new(Place::AfterRead(other), Place::InStep),
        HoldUntil::new(Place::InStep, Place::AfterRead(shared)),
    );
    let sites = sites_of(alloc, &["site 0 x=5", "site 1 y=2", "site 2 z=1"]).ok_or("no sites")?;
    let scripts = scripts_of(alloc, &["r[2.z] w[0.x]=6", "r[1.y] r[0.x]"])?;
    let (sites, scripts) = (sites.as_slice(), scripts.as_slice());
    let ended = ran::<Brand, _>(&rt, alloc, Blanks::new(2), sites, scripts, &gate);
    let Some(settled) = &ended else {
        panic!(rt; "not settled");
    };
    assert!(rt; !gate.failed());
    assert!(rt; has_read(settled, 0, &[1]) && has_read(settled, 1, &[2, 5]));
    assert_eq!(rt; decided(alloc, settled, 0), Some((0, Some(1))));
    assert_eq!(rt; decided(alloc, settled, 1), Some((1, Some(0))));
    Ok(())
}
