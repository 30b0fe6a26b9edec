//! The worked run in which a write is read back: its log, its edges and its installs, as one site and one certifier
//! keep them.

use crate::meddling::{commit_of, dones};
use sgt_arena::Handle;
use sgt_certifier::Certifier;
use sgt_edges::{Edge, EdgeList, gather};
use sgt_names::{Draft, Holding, Item, SiteNo, Tx};
use sgt_service_agreement::{EntryCounts, ServiceFault, agrees, gather_agreed};
use sgt_service_settle::{check_settled, check_told};
use sgt_site::Site;
use sgt_workers::Done;
use std::alloc::Global;
use std::test::Fail;

// Which of its edges a decision is handed.
#[derive(Clone, Copy)]
enum Handed {
    All,
    Nothing,
    // those from the transaction under the handle of this index
    From(u32),
}

// A script: it reads an item, if there is one, and writes the value to the other.
#[derive(Clone, Copy)]
struct Errand {
    read: Option<Item>,
    written: Item,
    value: u64,
    handed: Handed,
    is_noted: bool,
}

fn is_handed(handed: Handed, edge: &Edge) -> bool {
    match handed {
        Handed::All => true,
        Handed::Nothing => false,
        Handed::From(index) => edge.from.index == index,
    }
}

// What the script does before its commit.
fn drafted(alloc: Global, site: &mut Site, tx: Tx, errand: Errand) -> Result<Draft, Fail> {
    let number = site.number();
    let mut draft = Draft::new(alloc);
    if let Some(item) = errand.read {
        let seen = site.read(tx, item)?;
        draft.seen(number, item, seen.value, seen.version)?;
    }
    draft.put(number, errand.written, errand.value)?;
    Ok(draft)
}

// The edges that its decision is handed.
fn handed_edges(
    alloc: Global,
    site: &mut Site,
    draft: &Draft,
    handle: Handle,
    handed: Handed,
) -> Result<EdgeList, Fail> {
    let all = gather(alloc, site, draft, handle)?;
    let mut edges = EdgeList::new(alloc);
    for edge in all.as_slice() {
        if is_handed(handed, edge) {
            edges.push(*edge)?;
        }
    }
    Ok(edges)
}

// Runs one script.
fn run(
    alloc: Global,
    certifier: &mut Certifier,
    site: &mut Site,
    errand: Errand,
) -> Result<(), Fail> {
    let (handed, is_noted) = (errand.handed, errand.is_noted);
    let (tx, handle) = certifier.begin()?;
    let draft = drafted(alloc, site, tx, errand)?;
    site.pledge(tx, &draft)?;
    let edges = handed_edges(alloc, site, &draft, handle, handed)?;
    certifier.expect(handle, &draft)?;
    certifier.decide(handle, edges)?;
    site.install(tx, handle, &draft)?;
    if is_noted {
        certifier.installed(tx, site.number(), &draft)?;
    }
    certifier.finish_step(tx)?;
    Ok(())
}

// Site 0 with x=5 and y=0.
fn site_of(alloc: Global, x: Item, y: Item) -> Result<Site, Fail> {
    let items = [Holding { item: x, value: 5 }, Holding { item: y, value: 0 }];
    Ok(Site::new(alloc, SiteNo::new(0)?, &items)?)
}

// What is counted at the site: the second script's read; of each two, a write and a commit.
fn counts_of(reads: u64, others: u64) -> EntryCounts {
    EntryCounts { reads, others }
}

// A run of two scripts, or of three.
#[derive(Clone, Copy)]
struct Worked {
    // what the two are handed, and whether installs are noted
    handed: Handed,
    is_noted: bool,
    // what a third is handed
    third: Option<u32>,
    counted: EntryCounts,
}

// Runs the scripts: the first writes x, the second reads it and writes y, and the third writes x again.
fn run_all(
    alloc: Global,
    certifier: &mut Certifier,
    site: &mut Site,
    worked: Worked,
) -> Result<(), Fail> {
    let (x, y) = (Item::new(b"x")?, Item::new(b"y")?);
    let first = Errand {
        read: None,
        written: x,
        value: 7,
        handed: worked.handed,
        is_noted: worked.is_noted,
    };
    let second = Errand {
        read: Some(x),
        written: y,
        value: 8,
        ..first
    };
    run(alloc, certifier, site, first)?;
    run(alloc, certifier, site, second)?;
    if let Some(index) = worked.third {
        let handed = Handed::From(index);
        run(alloc, certifier, site, Errand { handed, ..first })?;
    }
    Ok(())
}

// What the two jobs were told.
fn told_of(alloc: Global, worked: Worked) -> Result<Vec<Done>, Fail> {
    match worked.third {
        Some(_) => dones(alloc, &[commit_of(0)], &[commit_of(1), commit_of(2)]),
        None => dones(alloc, &[commit_of(0)], &[commit_of(1)]),
    }
}

// What is found of the tickets, and of the whole.
fn settled(
    alloc: Global,
    worked: Worked,
) -> Result<(Result<(), ServiceFault>, Result<(), ServiceFault>), Fail> {
    let (x, y) = (Item::new(b"x")?, Item::new(b"y")?);
    let mut site = site_of(alloc, x, y)?;
    let mut certifier = Certifier::new(alloc);
    run_all(alloc, &mut certifier, &mut site, worked)?;
    let told = told_of(alloc, worked)?;
    let tickets = check_told(alloc, &certifier, told.as_slice());
    let sites = Vec::from_array(alloc, [site])?;
    let whole = check_settled(
        alloc,
        &certifier,
        sites.as_slice(),
        &[worked.counted],
        told.as_slice(),
    );
    Ok((tickets, whole))
}

#[test]
fn logs_edges_and_installs(rt: HostRuntime) -> Result<(), Fail> {
    let zero = SiteNo::new(0)?;
    let differs = Err(ServiceFault::LogDiffers(zero));
    let uncounted = Err(ServiceFault::VersionsDiffer(zero));
    // what all are handed, whether installs are noted, what a third script is handed, what is counted, and the answer
    let rows = [
        (Handed::All, true, None, counts_of(1, 4), Ok(())),
        (Handed::All, true, None, counts_of(2, 4), differs),
        (Handed::All, true, None, counts_of(1, 3), differs),
        (Handed::Nothing, true, None, counts_of(1, 4), differs),
        (Handed::All, false, None, counts_of(1, 4), uncounted),
        // the second read what the first wrote, so an edge from it carries the conflict of the first with the third too
        (Handed::All, true, Some(1), counts_of(1, 6), Ok(())),
        (Handed::All, true, Some(0), counts_of(1, 6), differs),
    ];
    for (handed, is_noted, third, counted, expected) in rows {
        let worked = Worked {
            handed,
            is_noted,
            third,
            counted,
        };
        assert_eq!(rt; settled(rt.alloc(), worked)?, (Ok(()), expected));
    }
    Ok(())
}

// Whether certifier and site agree after a run of one script, and how many edges the next change of its item is given.
fn gathered(alloc: Global, is_noted: bool) -> Result<(bool, Result<usize, ServiceFault>), Fail> {
    let (x, y) = (Item::new(b"x")?, Item::new(b"y")?);
    let errand = Errand {
        read: None,
        written: x,
        value: 6,
        handed: Handed::All,
        is_noted,
    };
    let mut site = site_of(alloc, x, y)?;
    let mut certifier = Certifier::new(alloc);
    run(alloc, &mut certifier, &mut site, errand)?;
    let agree = agrees(&certifier, &site);
    let (tx, handle) = certifier.begin()?;
    let draft = drafted(alloc, &mut site, tx, errand)?;
    match gather_agreed(alloc, &certifier, &mut site, tx, &draft, handle) {
        Ok(edges) => Ok((agree, Ok(edges.as_slice().len()))),
        Err(fault) => Ok((agree, Err(fault))),
    }
}

#[test]
fn versions_of_a_history(rt: HostRuntime) -> Result<(), Fail> {
    let lost = ServiceFault::NotPledged(SiteNo::new(0)?);
    assert_eq!(rt; gathered(rt.alloc(), true)?, (true, Ok(1)));
    assert_eq!(rt; gathered(rt.alloc(), false)?, (false, Err(lost)));
    Ok(())
}
