//! The calls of one thread: a window that is closed, a withdrawal, a transaction that is left, a site of another
//! history, and growths that are refused.

use crate::given::{other_site, sites_of};
use crate::steps::{Answer, Run, Step, stepped};
use sgt_audit::{Verdict, audit};
use sgt_certifier::CertifierFault;
use sgt_names::{Entry, Holding, Item, MemSink, MemSource, SiteNo, Tx};
use sgt_service::{Settled, bundle};
use sgt_service_agreement::ServiceFault;
use sgt_service_locks::Blanks;
use sgt_workers::{Ending, Ticket};
use std::alloc::Global;
use std::marker::Brand;
use std::test::Fail;

fn ended(number: u64, tx: Tx, verdict: Ending) -> Answer {
    Answer::Ended(Ticket {
        number,
        tx,
        verdict,
    })
}

// The verdict on the bundle of a settled run.
fn verdict_on(alloc: Global, settled: &Settled) -> Option<Verdict> {
    if settled.sites().is_empty() {
        return None;
    }
    let text = bundle(alloc, settled).ok()?.to_text(alloc).ok()?;
    let mut reader = MemSource::new(text.as_slice(), 64, None);
    let mut writer = MemSink::new(alloc, 100).ok()?;
    audit(alloc, &mut reader, &mut writer).ok()
}

#[test]
fn closed_window(rt: HostRuntime) -> Result<(), Fail> {
    let alloc = rt.alloc();
    let (x, one, two) = (Item::new(b"x")?, Tx::new(1)?, Tx::new(2)?);
    let left = ServiceFault::Certifier(CertifierFault::ActiveLeft(1));
    let steps = [
        (Step::Begin, Answer::Begun(1, 0)),
        (Step::Put(x, 6), Answer::Kept),
        (Step::Close, Answer::Refused(left)),
        (Step::Commit, ended(0, one, Ending::Committed)),
        (Step::Close, Answer::Closed(1)),
        (Step::Begin, Answer::Begun(2, 1)),
        (Step::Read(x), Answer::Seen(6)),
        (Step::Commit, ended(1, two, Ending::Committed)),
    ];
    let sites = sites_of(alloc, &["site 0 x=5"]).ok_or("no sites")?;
    let blanks = Blanks::new(1);
    let run = stepped::<Brand, _>(&rt, alloc, blanks, sites.as_slice(), &steps, None, &[]);
    let Some(
        Run {
            wrong: None,
            wanted: false,
            settled: Ok(settled),
        },
    ) = &run
    else {
        panic!(rt; "another answer, or not settled");
    };
    let expected = Verdict::Yes {
        committed: 2,
        refused: 0,
        withdrawn: 0,
    };
    assert_eq!(rt; verdict_on(alloc, settled), Some(expected));
    assert!(rt; settled.dones().len() == 1 && settled.certifier().active() == 0);
    Ok(())
}

#[test]
fn withdrawn(rt: HostRuntime) -> Result<(), Fail> {
    let alloc = rt.alloc();
    let (x, tx) = (Item::new(b"x")?, Tx::new(1)?);
    let steps = [
        (Step::Begin, Answer::Begun(1, 0)),
        (Step::Add(x, 3), Answer::Kept),
        (Step::Read(x), Answer::Seen(8)),
        (Step::Withdraw, ended(0, tx, Ending::Withdrawn)),
    ];
    let sites = sites_of(alloc, &["site 0 x=5"]).ok_or("no sites")?;
    let blanks = Blanks::new(1);
    let run = stepped::<Brand, _>(&rt, alloc, blanks, sites.as_slice(), &steps, None, &[]);
    let Some(
        Run {
            wrong: None,
            wanted: false,
            settled: Ok(settled),
        },
    ) = &run
    else {
        panic!(rt; "another answer, or not settled");
    };
    let read = Entry::Read {
        tx,
        item: x,
        value: 5,
    };
    let log = [read, Entry::Withdraw { tx }];
    for site in settled.sites() {
        let entries = site.log().to_vec(alloc)?;
        assert_eq!(rt; entries.as_slice(), log.as_slice());
    }
    Ok(())
}

// It has no ticket.
#[test]
fn left_active(rt: HostRuntime) -> Result<(), Fail> {
    let alloc = rt.alloc();
    let (x, one) = (Item::new(b"x")?, Tx::new(1)?);
    let left = ServiceFault::Certifier(CertifierFault::ActiveLeft(1));
    let steps = [
        (Step::Begin, Answer::Begun(1, 0)),
        (Step::Put(x, 6), Answer::Kept),
        (Step::Commit, ended(0, one, Ending::Committed)),
        (Step::Begin, Answer::Begun(2, 0)),
        (Step::Read(x), Answer::Seen(6)),
    ];
    let sites = sites_of(alloc, &["site 0 x=5"]).ok_or("no sites")?;
    let blanks = Blanks::new(1);
    let run = stepped::<Brand, _>(&rt, alloc, blanks, sites.as_slice(), &steps, None, &[]);
    let Some(
        Run {
            wrong: None,
            wanted: false,
            settled: Err(fault),
        },
    ) = &run
    else {
        panic!(rt; "another answer, or settled");
    };
    assert_eq!(rt; *fault, left);
    Ok(())
}

// The versions of the site aren't those that the certifier's history counts.
#[test]
fn other_history(rt: HostRuntime) -> Result<(), Fail> {
    let alloc = rt.alloc();
    let (x, y, tx) = (Item::new(b"x")?, Item::new(b"y")?, Tx::new(1)?);
    let items = [Holding { item: x, value: 5 }, Holding { item: y, value: 2 }];
    let other = other_site(alloc, &items, y)?;
    let lost = ServiceFault::NotPledged(SiteNo::new(0)?);
    let steps = [
        (Step::Begin, Answer::Begun(1, 0)),
        (Step::Put(x, 6), Answer::Kept),
        (Step::Commit, ended(0, tx, Ending::Committed)),
        (Step::Begin, Answer::Begun(2, 0)),
        (Step::Put(x, 7), Answer::Kept),
    ];
    let others = [
        (Step::Commit, Answer::CameBack(lost)),
        (Step::Close, Answer::Refused(lost)),
    ];
    let sites = sites_of(alloc, &["site 0 x=5 y=2"]).ok_or("no sites")?;
    let blanks = Blanks::new(1);
    let run = stepped::<Brand, _>(
        &rt,
        alloc,
        blanks,
        sites.as_slice(),
        &steps,
        Some(other),
        &others,
    );
    let Some(run) = run else {
        panic!(rt; "no memory");
    };
    assert!(rt; run.wrong.is_none() && !run.wanted);
    Ok(())
}

// Where one growth is refused, a run may want memory: then the call is made again, and only a refusal before the
// first call, or behind the last one, ends it. None is refused to the other of two runs, which has each answer at
// once: so a call that wanted memory for no refusal would want it in both.
#[test]
fn growth_service(rt: HostRuntime) -> Result<(), Fail> {
    let alloc = rt.alloc();
    let (x, y, one, two) = (Item::new(b"x")?, Item::new(b"y")?, Tx::new(1)?, Tx::new(2)?);
    let steps = [
        (Step::Begin, Answer::Begun(1, 0)),
        (Step::Put(x, 7), Answer::Kept),
        (Step::Commit, ended(0, one, Ending::Committed)),
        (Step::Begin, Answer::Begun(2, 0)),
        (Step::Read(x), Answer::Seen(7)),
        (Step::Put(y, 8), Answer::Kept),
        (Step::Commit, ended(1, two, Ending::Committed)),
    ];
    let expected = Verdict::Yes {
        committed: 2,
        refused: 0,
        withdrawn: 0,
    };
    let mut at_once = false;
    for _ in 0..2 {
        let Some(sites) = sites_of(alloc, &["site 0 x=5 y=0"]) else {
            continue;
        };
        let blanks = Blanks::new(1);
        let run = stepped::<Brand, _>(&rt, alloc, blanks, sites.as_slice(), &steps, None, &[]);
        let Some(run) = run else {
            continue;
        };
        let Run {
            wrong,
            wanted,
            settled,
        } = run;
        assert_eq!(rt; wrong, None);
        match settled {
            Ok(settled) => {
                let verdict = verdict_on(alloc, &settled);
                assert!(rt; verdict.is_none() || verdict == Some(expected));
                at_once = at_once || (!wanted && verdict.is_some());
            }
            Err(fault) => assert_eq!(rt; fault, ServiceFault::Memory),
        }
    }
    assert!(rt; at_once);
    Ok(())
}
