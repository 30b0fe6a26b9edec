//! One site, a transaction that is committed there, and the edges of the next one's drafts.

use crate::common::{Names, handle, is_used_by, opened};
use sgt_arena::Handle;
use sgt_edges::{Edge, EdgeFault, gather};
use sgt_names::{Draft, Entry, Item, Kind, Seen, Tx};
use sgt_site::{Reader, Site, SiteFault, Writer};
use std::alloc::Global;
use std::test::Fail;

const H1: Handle = Handle {
    index: 0,
    generation: 0,
};

const ME: Handle = Handle {
    index: 1,
    generation: 0,
};

// Site 0 has x=5 and y=2. There transaction 1 reads x, puts x=6, and is installed under h1: what the read answered,
// and whether the pledge and the install did well.
fn install(alloc: Global, site: &mut Site, names: &Names) -> (Result<Seen, SiteFault>, bool) {
    let read = site.read(names.one, names.x);
    let mut draft = Draft::new(alloc);
    let _ = draft.seen(names.site, names.x, 5, 0);
    let _ = draft.put(names.site, names.x, 6);
    let pledged = site.pledge(names.one, &draft).is_ok();
    let installed = site.install(names.one, H1, &draft).is_ok();
    (read, pledged && installed)
}

// What 2, 1, and twice 2 again are answered, who read x, y, x and q.
fn reads(site: &mut Site, names: &Names, q: Item) -> [Result<Seen, SiteFault>; 4] {
    let of_two = site.read(names.two, names.x);
    let of_one = site.read(names.one, names.y);
    let again = site.read(names.two, names.x);
    let unknown = site.read(names.two, q);
    [of_two, of_one, again, unknown]
}

// A draft that saw x=6 at this version.
fn saw(alloc: Global, names: &Names, version: u64) -> Draft {
    let mut draft = Draft::new(alloc);
    let _ = draft.seen(names.site, names.x, 6, version);
    draft
}

fn pledge(alloc: Global, site: &mut Site, names: &Names, version: u64) -> Result<(), SiteFault> {
    site.pledge(names.two, &saw(alloc, names, version))
}

// The only edge of the draft.
fn only_edge(alloc: Global, site: &Site, draft: &Draft) -> Result<Option<Edge>, EdgeFault> {
    match gather(alloc, site, draft, ME) {
        Ok(edges) => Ok(match edges.as_slice() {
            [edge] => Some(*edge),
            _ => None,
        }),
        Err(fault) => Err(fault),
    }
}

fn edge_of_read(
    alloc: Global,
    site: &Site,
    names: &Names,
    version: u64,
) -> Result<Option<Edge>, EdgeFault> {
    only_edge(alloc, site, &saw(alloc, names, version))
}

// Whether a draft of mine that puts x=9, and one that adds 9 to it, have an edge from the write of h1 alone: h1 read
// an older version, and two increments are in no conflict.
fn changes_follow(alloc: Global, site: &Site, names: &Names) -> [bool; 2] {
    let ww = Ok(Some(names.edge(H1, ME, Kind::Ww)));
    let mut draft = Draft::new(alloc);
    let _ = draft.put(names.site, names.x, 9);
    let put = only_edge(alloc, site, &draft) == ww;
    let mut draft = Draft::new(alloc);
    let _ = draft.add(names.site, names.x, 9);
    [put, only_edge(alloc, site, &draft) == ww]
}

// The transaction adds 4 to x, and is installed: whether it was.
fn install_addition(alloc: Global, site: &mut Site, names: &Names, tx: Tx) -> bool {
    let mut draft = Draft::new(alloc);
    draft.add(names.site, names.x, 4).is_ok()
        && site.pledge(tx, &draft).is_ok()
        && site.install(tx, handle(2, 0), &draft).is_ok()
}

fn seen(value: u64, version: u64) -> Result<Seen, SiteFault> {
    Ok(Seen { value, version })
}

#[test]
fn worked_site(rt: HostRuntime) -> Result<(), Fail> {
    let alloc = rt.alloc();
    let (names, q) = (Names::at(0)?, Item::new(b"q")?);
    let (item, tx, three) = (names.x, names.one, Tx::new(3)?);
    let mut site = opened(alloc, &names, 2)?;
    assert!(rt; install(alloc, &mut site, &names) == (seen(5, 0), true));
    let log = [
        Entry::Read { tx, item, value: 5 },
        Entry::Write { tx, item, value: 6 },
        Entry::Commit { tx },
    ];
    assert!(rt; site.log().to_vec(alloc)?.as_slice() == log.as_slice());
    let (writer, reader) = (
        Writer {
            tx,
            handle: H1,
            increment: false,
        },
        Reader {
            tx,
            handle: H1,
            version: 0,
        },
    );
    assert!(rt; is_used_by(&site, item, &[writer], 1, &[reader]));
    assert!(rt; site.accesses(q).is_err());
    for (version, answer) in [
        (1, Ok(Some(names.edge(H1, ME, Kind::Wr)))),
        (0, Ok(Some(names.edge(ME, H1, Kind::Rw)))),
        (2, Err(EdgeFault::SeenTooNew)),
    ] {
        assert!(rt;
            edge_of_read(alloc, &site, &names, version) == answer,
            "{version}"
        );
    }
    assert!(rt; changes_follow(alloc, &site, &names) == [true, true]);
    let told = reads(&mut site, &names, q);
    assert!(rt; told[0] == seen(6, 1) && told[1] == Err(SiteFault::Ended));
    assert!(rt; told[2] == Err(SiteFault::ReadTwice) && told[3] == Err(SiteFault::UnknownItem));
    let early = pledge(alloc, &mut site, &names, 0);
    let pledged = pledge(alloc, &mut site, &names, 1);
    assert!(rt; early == Err(SiteFault::DraftDiffers) && pledged.is_ok());
    assert!(rt; site.read(names.two, names.y) == Err(SiteFault::PledgeOpen));
    assert!(rt;
        site.unpledge(names.two).is_ok() && install_addition(alloc, &mut site, &names, three)
    );
    assert!(rt; changes_follow(alloc, &site, &names) == [false, true]);
    Ok(())
}
