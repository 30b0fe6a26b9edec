//! Growths that are refused: what is refused for want of memory leaves the core as it was, so that what is given
//! again is served. The test holds where no growth is refused, and where any one is; a script beside the benchmarks
//! refuses each in turn.

use crate::rows::{ROWS, Row, opened};
use sgt_bundle::Bundle;
use sgt_core::{Core, CoreFault, Event, Reply, write_reply};
use sgt_names::{Item, SiteNo, Tx};
use sgt_notation::{EventLine, read_event};
use std::alloc::Global;
use std::test::Fail;

const REFUSED: Reply = Reply::Fault {
    fault: CoreFault::Memory,
};

/// A core, and whether a growth was refused to it.
#[derive(Drop)]
struct Tried {
    core: Core,
    refused: bool,
}

/// How a row's events are answered, and the call for its bundle.
#[derive(Clone, Copy, Debug, PartialEq, Eq)]
enum Served {
    /// As the row says, and no growth was refused.
    AtOnce,
    /// So, as far as it went: a growth was refused, to the core or to the test.
    Refused,
    Otherwise,
}

/// What can be seen of a core without a change of it.
#[derive(Drop)]
struct Shown {
    active: u64,
    /// What it answers to events that it refuses in each state, by its state, and to reads from drafts. None takes
    /// memory.
    replies: Vec<Reply>,
    /// Its bundle, where no transaction is active.
    bundle: Vec<u8>,
}

impl Shown {
    fn is(&self, other: &Shown) -> bool {
        self.active == other.active
            && self.replies.as_slice() == other.replies.as_slice()
            && self.bundle.as_slice() == other.bundle.as_slice()
    }
}

/// Asks the transaction for a read and for parts of a step at a site that isn't there: which refusal is told says
/// whether it was begun, has ended, is decided, and whether its step or another's is open.
fn ask_transaction(core: &mut Core, tx: Tx, replies: &mut Vec<Reply>) -> Option<()> {
    let site = SiteNo::new(63).ok()?;
    let item = Item::new(b"x").ok()?;
    replies
        .push(core.step(Event::Read { tx, site, item }))
        .ok()?;
    replies.push(core.step(Event::Gather { tx, site })).ok()?;
    replies.push(core.step(Event::Install { tx, site })).ok()
}

/// Asks for what an active transaction read or changed, once more: it is read from its draft.
fn ask_again(core: &mut Core, line: &EventLine, replies: &mut Vec<Reply>) -> Option<()> {
    match *line {
        EventLine::One(Event::Read { tx, site, item } | Event::Put { tx, site, item, .. }) => {
            replies.push(core.step(Event::Read { tx, site, item })).ok()
        }
        _ => Some(()),
    }
}

/// What the core shows behind these events. None: a growth was refused.
fn show(alloc: Global, core: &mut Core, served: &[EventLine]) -> Option<Shown> {
    let active = core.active();
    let mut replies = Vec::new(alloc);
    for number in 1..4 {
        ask_transaction(core, Tx::new(number).ok()?, &mut replies)?;
    }
    for line in served {
        ask_again(core, line, &mut replies)?;
    }
    let bundle = if active > 0 {
        replies.push(core.step(Event::Close)).ok()?;
        Vec::new(alloc)
    } else {
        core.bundle(alloc).ok()?.to_text(alloc).ok()?
    };
    Some(Shown {
        active,
        replies,
        bundle,
    })
}

/// Gathers the transaction at each of these sites, and decides it.
fn to_decide(core: &mut Core, tx: Tx, sites: &[SiteNo]) -> Reply {
    for site in sites {
        let reply = core.step(Event::Gather { tx, site: *site });
        if reply != Reply::Gathered {
            return reply;
        }
    }
    core.step(Event::Decide { tx })
}

fn serve(core: &mut Core, event: &EventLine, sites: &[SiteNo]) -> Reply {
    match event {
        EventLine::One(event) => core.step(*event),
        EventLine::ToDecide(tx) => to_decide(core, *tx, sites),
    }
}

/// What is replied to the event behind those that were served. Where a growth was refused and the core shows what it
/// did before, it is what is replied to the event given again, of a step from its first gather on. None: a growth was
/// refused to the test.
fn serve_again(
    alloc: Global,
    tried: &mut Tried,
    served: &[EventLine],
    event: &EventLine,
    sites: &[SiteNo],
) -> Option<Reply> {
    let before = show(alloc, &mut tried.core, served)?;
    let reply = serve(&mut tried.core, event, sites);
    if reply != REFUSED {
        return Some(reply);
    }
    tried.refused = true;
    if before.is(&show(alloc, &mut tried.core, served)?) {
        return Some(serve(&mut tried.core, event, sites));
    }
    Some(reply)
}

/// The lines of the replies to the row's events, each given again where need be. None: a growth was refused to the
/// test.
fn replies_to(alloc: Global, tried: &mut Tried, row: &Row) -> Option<Vec<u8>> {
    let sites = [SiteNo::new(0).ok()?, SiteNo::new(1).ok()?];
    let mut served = Vec::new(alloc);
    let mut text = Vec::new(alloc);
    for line in row.input.lines() {
        // the lines of sites are no events
        if let Ok(event) = read_event(line.as_bytes()) {
            let reply = serve_again(alloc, tried, served.as_slice(), &event, sites.as_slice())?;
            write_reply(&mut text, line.as_bytes(), &reply).ok()?;
            text.extend_from_slice(b"\n").ok()?;
            served.extend_from_slice(&[event]).ok()?;
        }
    }
    Some(text)
}

fn bundle_again(alloc: Global, tried: &mut Tried) -> Result<Bundle, CoreFault> {
    match tried.core.bundle(alloc) {
        Err(CoreFault::Memory) => {
            tried.refused = true;
            tried.core.bundle(alloc)
        }
        answer => answer,
    }
}

/// Whether the row's output is this text, and the bundle behind it. None: a growth was refused to the test.
fn is_output(alloc: Global, row: &Row, text: &[u8], bundle: &Bundle) -> Option<bool> {
    let bundle = bundle.to_text(alloc).ok()?;
    match row.output.as_bytes().strip_prefix(text) {
        Some(rest) => Some(rest == bundle.as_slice()),
        None => Some(false),
    }
}

/// Whether the row's events are answered as the row says, and leave its bundle, byte for byte. None: a growth was
/// refused to the test.
fn served_as_told(alloc: Global, tried: &mut Tried, row: &Row) -> Option<bool> {
    let mut text = replies_to(alloc, tried, row)?;
    text.extend_from_slice(b"---\n").ok()?;
    match bundle_again(alloc, tried) {
        Ok(bundle) => is_output(alloc, row, text.as_slice(), &bundle),
        Err(_) => Some(false),
    }
}

/// How a core over the sites of the row answers the row's events.
fn answered(alloc: Global, row: &Row) -> Served {
    let Some(core) = opened(alloc, row.input) else {
        return Served::Refused;
    };
    let mut tried = Tried {
        core,
        refused: false,
    };
    match served_as_told(alloc, &mut tried, row) {
        Some(false) => Served::Otherwise,
        Some(true) if !tried.refused => Served::AtOnce,
        _ => Served::Refused,
    }
}

#[test]
fn growth_core(rt: HostRuntime) -> Result<(), Fail> {
    for row in &ROWS {
        // one growth is refused at most, so the second time none is: what wants memory for no refusal wants it twice
        let mut found = answered(rt.alloc(), row);
        if found == Served::Refused {
            found = answered(rt.alloc(), row);
        }
        assert_eq!(rt; found, Served::AtOnce, "{}", row.name);
    }
    Ok(())
}
