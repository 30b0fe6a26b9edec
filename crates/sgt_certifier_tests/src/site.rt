//! What no clause of a site says: that a pledge is covered, and which drafts are short.

use crate::common::{Names, handle, is_used_by, opened};
use sgt_names::{Change, Draft, Holding, Item, Seen, SiteNo, Tx};
use sgt_site::{Reader, Site, SiteFault, Writer, touched_near};
use std::alloc::Global;
use std::test::Fail;

// A draft that saw x=5 at version 0, and adds 1 to y. What is refused memory is tried again.
fn drafted(alloc: Global, names: &Names) -> Draft {
    let mut draft = Draft::new(alloc);
    if draft.room().is_err() {
        let _ = draft.room();
    }
    let _ = draft.seen(names.site, names.x, 5, 0);
    if draft.add(names.site, names.y, 1).is_err() {
        let _ = draft.add(names.site, names.y, 1);
    }
    draft
}

// Whether the draft keeps what it saw of x, and its change of y.
fn keeps_both(draft: &Draft, names: &Names) -> bool {
    let (Some(seen), Some((item, change))) = (
        draft.kept(names.site, 0),
        draft.writing(names.site, 0),
    ) else {
        return false;
    };
    seen == (names.x, 5, 0) && item == names.y && change == Change::Add(1)
}

// What a read answers. What is refused memory is tried again.
fn read(site: &mut Site, tx: Tx, item: Item) -> Result<Seen, SiteFault> {
    match site.read(tx, item) {
        Err(SiteFault::Memory) => site.read(tx, item),
        answer => answer,
    }
}

// The transaction reads x as its draft says, and is pledged: whether it was.
fn pledge(site: &mut Site, draft: &Draft, names: &Names, tx: Tx) -> bool {
    let first = Seen {
        value: 5,
        version: 0,
    };
    read(site, tx, names.x) == Ok(first) && pledge_again(site, draft, tx).is_ok()
}

fn pledge_again(site: &mut Site, draft: &Draft, tx: Tx) -> Result<(), SiteFault> {
    match site.pledge(tx, draft) {
        Err(SiteFault::Memory) => site.pledge(tx, draft),
        answer => answer,
    }
}

// How many of the transactions from 2 to before this one read the first value of y.
fn read_by_many(site: &mut Site, y: Item, end: u64) -> u64 {
    let first = Seen {
        value: u64::MAX,
        version: 0,
    };
    let mut count = 0u64;
    for number in 2..end {
        if let Ok(tx) = Tx::new(number) {
            if read(site, tx, y) == Ok(first) {
                count = count.wrapping_add(1);
            }
        }
    }
    count
}

// Whether these are the items' values at the end of the log. What is refused memory is tried again.
fn ends_with(alloc: Global, site: &Site, items: &[Holding]) -> bool {
    for _ in 0..2 {
        if let Ok(finals) = site.final_values(alloc) {
            return finals.as_slice() == items;
        }
    }
    false
}

// Under a pledge a thousand others read, and then the install takes no memory. Holds also where one growth is
// refused, whichever it is: what is refused is tried again, but not the install.
#[test]
fn pledge_holds(rt: HostRuntime) -> Result<(), Fail> {
    let names = Names::at(3)?;
    let (x, y, tx, handle) = (names.x, names.y, names.one, handle(7, 2));
    let mut site = match opened(rt.alloc(), &names, u64::MAX) {
        Ok(site) => site,
        Err(_) => opened(rt.alloc(), &names, u64::MAX)?,
    };
    let draft = drafted(rt.alloc(), &names);
    assert!(rt; keeps_both(&draft, &names) && pledge(&mut site, &draft, &names, tx));
    assert!(rt; read_by_many(&mut site, y, 1002) == 1000);
    assert!(rt; site.install(tx, handle, &draft).is_ok());
    assert!(rt; site.log().len() == 1003 && site.items().len() == 2);
    assert!(rt; site.number() == names.site);
    let writer = Writer {
        tx,
        handle,
        increment: true,
    };
    let reader = Reader {
        tx,
        handle,
        version: 0,
    };
    assert!(rt; is_used_by(&site, x, &[], 0, &[reader]));
    assert!(rt; is_used_by(&site, y, &[writer], 0, &[]));
    let after = [Holding { item: x, value: 5 }, Holding { item: y, value: 0 }];
    assert!(rt; ends_with(rt.alloc(), &site, &after));
    Ok(())
}

// Writes an item of one letter: whether it did.
fn put_letter(draft: &mut Draft, site: SiteNo, letter: u8) -> bool {
    match Item::new(&[letter]) {
        Ok(item) => draft.put(site, item, 1).is_ok(),
        Err(_) => false,
    }
}

// A draft of sixteen items is gone over as a whole for a site, and one of more by what it touches there.
#[test]
fn short_drafts(rt: HostRuntime) -> Result<(), Fail> {
    let (here, there) = (SiteNo::new(3)?, SiteNo::new(4)?);
    let mut draft = Draft::new(rt.alloc());
    let mut kept = true;
    for letter in b'a'..b'q' {
        let site = if letter < b'f' { here } else { there };
        kept = put_letter(&mut draft, site, letter) && kept;
    }
    assert!(rt; kept && touched_near(&draft, here).len() == 16);
    assert!(rt; put_letter(&mut draft, there, b'q'));
    assert!(rt; touched_near(&draft, here).len() == 5);
    assert!(rt; touched_near(&draft, there).len() == 12);
    Ok(())
}
