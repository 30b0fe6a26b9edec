//! Events and sites of a replay, read and written.

use sgt_names::{Holding, Item, SiteNo, Tx};
use sgt_notation::{
    Event, EventLine, NotationFault, events_are_read_back, events_are_short, events_have_no_lf,
    events_have_one_reading, read_event, read_site, sites_are_read_back, sites_have_no_lf,
    sites_have_one_reading, write_event,
};
use std::alloc::{AllocError, Global};
use std::test::Fail;

/// Whether the line is read as this event, and written again as it was.
fn is_event(out: &mut Vec<u8>, line: &str, event: EventLine) -> Result<bool, AllocError> {
    out.clear();
    if read_event(line.as_bytes()) != Ok(event) || !event.has_line() {
        return Ok(false);
    }
    write_event(out, &event)?;
    Ok(out.as_slice() == line.as_bytes())
}

#[test]
fn each_kind_of_event(rt: HostRuntime) -> Result<(), Fail> {
    let tx = Tx::new(12)?;
    let site = SiteNo::new(63)?;
    let item = Item::new(b"x_1")?;
    let value = u64::MAX;
    let mut out = Vec::new(rt.alloc());
    for (line, event) in [
        ("b", EventLine::One(Event::Begin)),
        (
            "r12[63.x_1]",
            EventLine::One(Event::Read { tx, site, item }),
        ),
        (
            "w12[63.x_1]=18446744073709551615",
            EventLine::One(Event::Put {
                tx,
                site,
                item,
                value,
            }),
        ),
        (
            "d12[63.x_1]=18446744073709551615",
            EventLine::One(Event::Add {
                tx,
                site,
                item,
                value,
            }),
        ),
        ("c12", EventLine::One(Event::Commit { tx })),
        ("v12", EventLine::ToDecide(tx)),
        ("i12@63", EventLine::One(Event::Install { tx, site })),
        ("a12", EventLine::One(Event::Withdraw { tx })),
        ("z", EventLine::One(Event::Close)),
    ] {
        assert!(rt; is_event(&mut out, line, event)?, "{line}");
    }
    assert!(rt; !EventLine::One(Event::Gather { tx, site }).has_line());
    assert!(rt; !EventLine::One(Event::Decide { tx }).has_line());
    Ok(())
}

/// Whether the bytes are no line of an event.
fn is_no_event(line: &[u8]) -> bool {
    match read_event(line) {
        Ok(_) => false,
        Err(fault) => fault == NotationFault::NotALine,
    }
}

const NO_EVENTS: [&str; 26] = [
    "",
    "B",
    "b1",
    "b ",
    "z\r",
    "r1[0.x]=5",
    "r1[x]",
    "r1[0.x",
    "r1[0.x] ",
    "r1[00.x]",
    "r1[64.x]",
    "r0[0.x]",
    "r1[0.1x]",
    "r1[0.x]]",
    "w1[0.x]",
    "w1[0.x]=05",
    "w1[0.x]==5",
    "d1[0.x]=18446744073709551616",
    "c",
    "c4294967296",
    "v01",
    "i1",
    "i1@64",
    "i1@0@0",
    "q1[0.x]=5",
    "site 0",
];

#[test]
fn other_bytes_are_no_events(rt: HostRuntime) {
    for line in NO_EVENTS {
        assert!(rt; is_no_event(line.as_bytes()), "{line}");
    }
}

/// Whether the line is read as this site with these items.
fn is_site(alloc: Global, line: &str, number: u64, items: &[Holding]) -> bool {
    match read_site(alloc, line.as_bytes()) {
        Ok(found) => found.site.number() as u64 == number && found.items.as_slice() == items,
        Err(_) => false,
    }
}

#[test]
fn sites(rt: HostRuntime) -> Result<(), Fail> {
    let x = Holding {
        item: Item::new(b"x")?,
        value: 5,
    };
    let x_1 = Holding {
        item: Item::new(b"x_1")?,
        value: u64::MAX,
    };
    let y = Holding {
        item: Item::new(b"y")?,
        value: 0,
    };
    let none = is_site(rt.alloc(), "site 0", 0, &[]);
    let one = is_site(rt.alloc(), "site 63 x=5", 63, &[x]);
    let three = is_site(
        rt.alloc(),
        "site 7 x=5 x_1=18446744073709551615 y=0",
        7,
        &[x, x_1, y],
    );
    assert!(rt; none && one && three);
    events_are_read_back();
    events_are_short();
    events_have_no_lf();
    events_have_one_reading();
    sites_are_read_back();
    sites_have_no_lf();
    sites_have_one_reading();
    Ok(())
}

/// Whether the bytes are no line of a site.
fn is_refused(alloc: Global, line: &[u8]) -> bool {
    match read_site(alloc, line) {
        Ok(_) => false,
        Err(fault) => fault == NotationFault::NotALine,
    }
}

const NO_SITES: [&str; 18] = [
    "",
    "site",
    "site ",
    "site 0 ",
    "site  0",
    "site 64",
    "site 00 x=5",
    "Site 0 x=5",
    "site 0  x=5",
    "site 0 x=5  y=2",
    "site 0 x=5 ",
    "site 0 y=2 x=5",
    "site 0 x=5 x=5",
    "site 0 x=18446744073709551616",
    "site 0 x=",
    "site 0 x 5",
    "site 0 x=5\r",
    "b",
];

#[test]
fn other_bytes_are_no_sites(rt: HostRuntime) {
    for line in NO_SITES {
        assert!(rt; is_refused(rt.alloc(), line.as_bytes()), "{line}");
    }
}
