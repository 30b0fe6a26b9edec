//! The entries of a site's log, one of each kind.

use crate::common::{Names, handle, opened};
use sgt_names::{Draft, Entry, Tx};
use sgt_site::{EntryLog, Site};
use std::alloc::Global;
use std::test::Fail;

// Transaction 1 reads x, writes it and adds 4 to y, and is installed. Before, no increment is logged.
fn install(alloc: Global, site: &mut Site, names: &Names) -> bool {
    let mut draft = Draft::new(alloc);
    let _ = draft.seen(names.site, names.x, 5, 0);
    let _ = draft.put(names.site, names.x, 6);
    let _ = draft.add(names.site, names.y, 4);
    site.read(names.one, names.x).is_ok()
        && !site.log().any_increment()
        && site.pledge(names.one, &draft).is_ok()
        && site.install(names.one, handle(7, 2), &draft).is_ok()
}

// Transaction 2 writes x and adds 3 to y, and is refused.
fn refuse(alloc: Global, site: &mut Site, names: &Names) -> bool {
    let mut draft = Draft::new(alloc);
    let _ = draft.put(names.site, names.x, 9);
    let _ = draft.add(names.site, names.y, 3);
    site.pledge(names.two, &draft).is_ok() && site.refuse(names.two, &draft).is_ok()
}

// The transaction writes y, and is withdrawn.
fn withdraw(alloc: Global, site: &mut Site, names: &Names, tx: Tx) -> bool {
    let mut draft = Draft::new(alloc);
    let _ = draft.put(names.site, names.y, 8);
    site.pledge(tx, &draft).is_ok() && site.withdraw(tx).is_ok()
}

// What these three log.
fn logged(names: &Names, three: Tx) -> [Entry; 8] {
    let (one, two, x, y) = (names.one, names.two, names.x, names.y);
    [
        Entry::Read {
            tx: one,
            item: x,
            value: 5,
        },
        Entry::Write {
            tx: one,
            item: x,
            value: 6,
        },
        Entry::Add {
            tx: one,
            item: y,
            value: 4,
        },
        Entry::Commit { tx: one },
        Entry::Want {
            tx: two,
            item: x,
            value: 9,
        },
        Entry::WantAdd {
            tx: two,
            item: y,
            value: 3,
        },
        Entry::Refuse { tx: two },
        Entry::Withdraw { tx: three },
    ]
}

// Whether these are the entries, at each place.
fn are_at(log: &EntryLog, entries: &[Entry]) -> bool {
    if log.len() != entries.len() {
        return false;
    }
    for place in 0..entries.len() {
        if log.at(place) != entries[place] {
            return false;
        }
    }
    true
}

#[test]
fn logged_entries(rt: HostRuntime) -> Result<(), Fail> {
    let alloc = rt.alloc();
    let (names, three) = (Names::at(2)?, Tx::new(3)?);
    let mut site = opened(alloc, &names, 2)?;
    let ended = install(alloc, &mut site, &names)
        && refuse(alloc, &mut site, &names)
        && withdraw(alloc, &mut site, &names, three);
    let log = site.log();
    let entries = logged(&names, three);
    assert!(rt; ended && are_at(log, &entries) && log.any_increment());
    assert!(rt; log.to_vec(alloc)?.as_slice() == entries.as_slice());
    Ok(())
}
