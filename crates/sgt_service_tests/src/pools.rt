//! Each list of errands ends, whatever the schedule, with each job once.

use crate::clerk::{Clerk, Errand, Mishap};
use crate::gates::HoldUntil;
use sgt_certifier::CertifierFault;
use sgt_names::SiteNo;
use sgt_service_agreement::ServiceFault;
use sgt_site::SiteFault;
use sgt_workers::{Done, Place, PoolFail, PoolFault, pool};
use std::alloc::Global;
use std::sync::Wait;
use std::test::Fail;
use std::thread::Threads;

// How the errands end by so many workers, of which each has its number as its state: with so many Dones, each of
// which answers 3 times its place, or with this fault of theirs. None: there was no room.
fn ended<R: Threads + Wait + Sync>(
    rt: &R,
    alloc: Global,
    clerk: &Clerk,
    errands: &[Errand],
    workers: usize,
) -> Option<Result<usize, Option<Mishap>>> {
    let mut states = Vec::new(alloc);
    for number in 0..workers {
        states.push(number).ok()?;
    }
    if states.is_empty() {
        return None;
    }
    match pool(rt, alloc, errands, states, clerk) {
        Ok((dones, _)) => Some(Ok(answers_in(dones.as_slice()))),
        Err(PoolFail::Work(mishap)) => Some(Err(Some(mishap))),
        Err(PoolFail::Pool(_)) => Some(Err(None)),
    }
}

// How many Dones from the first on answer 3 times their place.
fn answers_in(dones: &[Done]) -> usize {
    for k in 0..dones.len() {
        let done = &dones[k];
        let place = k as u64;
        if done.job.wrapping_sub(1) != place
            || done.reads.as_slice() != [place.wrapping_mul(3)].as_slice()
        {
            return k;
        }
    }
    dones.len()
}

#[test]
fn a_fault_with_the_others_joined(rt: HostRuntime) -> Result<(), Fail> {
    let (held, failing) = (SiteNo::new(0)?, SiteNo::new(9)?);
    let rows = [
        (Errand::Fail(failing), Mishap::Failed(2)),
        (Errand::Grow, Mishap::Memory),
    ];
    for (errand, mishap) in rows {
        // the second waits for nobody where it doesn't fail behind a read
        let until = if mishap == Mishap::Memory {
            Place::InRead(held)
        } else {
            Place::AfterRead(failing)
        };
        let gate = HoldUntil::new(Place::InRead(held), until);
        let clerk = Clerk::new(rt.alloc(), &gate);
        let errands = [Errand::Read(held, 0), errand];
        let ended = ended(&rt, rt.alloc(), &clerk, &errands, 2);
        assert_eq!(rt; ended, Some(Err(Some(mishap))));
        assert_eq!(rt; clerk.calls(), (2, 2));
        assert!(rt; !gate.failed());
    }
    Ok(())
}

#[test]
fn each_job_is_run_once(rt: HostRuntime) -> Result<(), Fail> {
    let (site, nowhere) = (SiteNo::new(0)?, Place::InRead(SiteNo::new(9)?));
    let gate = HoldUntil::new(nowhere, nowhere);
    let mut errands = [Errand::Grow; 1000];
    for k in 0..1000 {
        errands[k] = Errand::Read(site, k as u64 * 3);
    }
    for (jobs, workers) in [(0, 1), (0, 3), (2, 5), (1000, 16)] {
        let clerk = Clerk::new(rt.alloc(), &gate);
        let ended = ended(&rt, rt.alloc(), &clerk, &errands[..jobs], workers);
        assert_eq!(rt; ended, Some(Ok(jobs)));
        assert_eq!(rt; clerk.calls(), (jobs as u64, jobs as u64));
    }
    Ok(())
}

#[test]
fn faults_tell_their_names(rt: HostRuntime) -> Result<(), Fail> {
    let pools = [
        (PoolFault::Memory, "P1: out of memory"),
        (PoolFault::Unrun(7), "P2: job 7 was not run"),
        (PoolFault::Doubled(7), "P3: job 7 was run twice"),
    ];
    for (fault, whole) in pools {
        let text = format!(in rt.alloc(); "{fault}")?;
        assert_eq!(rt; text.as_str(), whole);
    }
    let site = SiteNo::new(3)?;
    let services = [
        (
            ServiceFault::StrayTicket(5),
            "V1: the ticket of number 5 is of no decision",
        ),
        (
            ServiceFault::TwoTickets(5),
            "V2: two tickets have the number 5",
        ),
        (ServiceFault::Memory, "V3: out of memory"),
        (
            ServiceFault::SumTooLarge,
            "V5: a sum is above the greatest value",
        ),
        (
            ServiceFault::MissingTicket(5),
            "V6: the decision of number 5 has no ticket",
        ),
        (
            ServiceFault::NotPledged(site),
            "V7: site 3 has lost a pledge, or its versions are not those of the history",
        ),
        (
            ServiceFault::TicketOrder(5),
            "V8: the tickets of job 5 do not rise",
        ),
        (
            ServiceFault::LogDiffers(site),
            "V9: the log of site 3 is not what was counted or decided on there",
        ),
        (
            ServiceFault::VersionsDiffer(site),
            "V10: the versions of site 3 are not those of the history",
        ),
    ];
    for (fault, whole) in services {
        let text = format!(in rt.alloc(); "{fault}")?;
        assert_eq!(rt; text.as_str(), whole);
    }
    let handed_on = [
        (ServiceFault::Site(SiteFault::UnknownItem), "V4: S1: "),
        (
            ServiceFault::Certifier(CertifierFault::WindowFull),
            "V4: C1: ",
        ),
    ];
    for (fault, start) in handed_on {
        let text = format!(in rt.alloc(); "{fault}")?;
        assert!(rt; text.as_str().starts_with(start), "{text}");
    }
    Ok(())
}
