//! Random drafts: walks over the edges that are given lead wherever those over all edges of the
//! rule do, so the same is decided on them.

use crate::common::{Names, handle, opened, random};
use sgt_arena::Handle;
use sgt_edges::gather;
use sgt_names::{Change, Draft, Entry, Item, SiteNo, Touch, Tx};
use sgt_site::{EntryLog, Site};
use std::alloc::Global;
use std::test::Fail;

// What was decided so far: for each transaction those that it leads to over the edges that were
// given, and who is committed. A set of transactions is a number whose bits are theirs.
#[derive(Clone, Copy)]
struct Decided {
    given: [u64; 64],
    committed: u64,
}

fn bit(tx: u32) -> u64 {
    1u64.wrapping_shl(tx)
}

fn add_edge(edges: &mut [u64; 64], from: u32, to: u32) {
    if let Some(targets) = edges.get_mut(from as usize) {
        *targets |= bit(to) & !bit(from);
    }
}

// Adds an edge to wherever an edge leads to the transaction and one leads on.
fn lead_over(edges: &mut [u64; 64], tx: u32, targets: u64) {
    for all in edges.iter_mut() {
        if *all & bit(tx) != 0 {
            *all |= targets;
        }
    }
}

// The edges to wherever a walk leads.
fn walks(edges: [u64; 64]) -> [u64; 64] {
    let mut all = edges;
    for tx in 0..64 {
        let targets = all.get(tx as usize).copied().unwrap_or_default();
        lead_over(&mut all, tx, targets);
    }
    all
}

fn is_in_cycle(walks: &[u64; 64], tx: u32) -> bool {
    walks.get(tx as usize).copied().unwrap_or_default() & bit(tx) != 0
}

#[derive(Clone, Copy, PartialEq)]
enum Access {
    Read,
    Put,
    Add,
}

#[derive(Clone, Copy)]
struct Operation {
    tx: u32,
    item: Item,
    access: Access,
}

// The operation of an entry, if it is of one of these transactions.
fn operation_of(entry: &Entry, counted: u64) -> Option<Operation> {
    let (tx, item, access) = match *entry {
        Entry::Read { tx, item, .. } => (tx.number(), item, Access::Read),
        Entry::Write { tx, item, .. } => (tx.number(), item, Access::Put),
        Entry::Add { tx, item, .. } => (tx.number(), item, Access::Add),
        _ => return None,
    };
    if counted & bit(tx) == 0 {
        return None;
    }
    Some(Operation { tx, item, access })
}

fn add_if_conflicting(edges: &mut [u64; 64], first: &Operation, second: &Operation) {
    if first.item == second.item
        && !(first.access == second.access && first.access != Access::Put)
    {
        add_edge(edges, first.tx, second.tx);
    }
}

// The edges to the operations of the log from this place on.
fn add_logged(
    edges: &mut [u64; 64],
    first: &Operation,
    log: &EntryLog,
    start: usize,
    counted: u64,
) {
    for place in start..log.len() {
        if let Some(second) = operation_of(&log.at(place), counted) {
            add_if_conflicting(edges, first, &second);
        }
    }
}

// The operation of a touched item's private change, if there is one.
fn change_of(touch: &Touch, tx: u32) -> Option<Operation> {
    let access = match touch.change {
        Some(Change::Put(_)) => Access::Put,
        Some(Change::Add(_)) => Access::Add,
        None => return None,
    };
    let item = touch.item;
    Some(Operation { tx, item, access })
}

fn add_private(edges: &mut [u64; 64], first: &Operation, draft: &Draft, me: u32) {
    for touch in draft.touched().0 {
        if let Some(second) = change_of(touch, me) {
            add_if_conflicting(edges, first, &second);
        }
    }
}

// The conflicts of the committed transactions and of mine, in the log followed by my private changes.
fn all_edges(site: &Site, draft: &Draft, me: u32, committed: u64) -> [u64; 64] {
    let mut edges = [0; 64];
    let counted = committed | bit(me);
    let log = site.log();
    for place in 0..log.len() {
        if let Some(first) = operation_of(&log.at(place), counted) {
            add_logged(&mut edges, &first, log, place, counted);
            add_private(&mut edges, &first, draft, me);
        }
    }
    edges
}

// Those that were given before, and those of the draft.
fn with_given(
    alloc: Global,
    site: &Site,
    draft: &Draft,
    me: Handle,
    before: [u64; 64],
) -> Option<[u64; 64]> {
    let mut edges = before;
    let gathered = gather(alloc, site, draft, me).ok()?;
    for edge in gathered.as_slice() {
        add_edge(&mut edges, edge.from.index, edge.to.index);
    }
    Some(edges)
}

fn is_part(edges: &[u64; 64], all: &[u64; 64]) -> bool {
    edges
        .iter()
        .zip(all.iter())
        .all(|(some, all)| *some & !*all == 0)
}

// Decides the transaction: whether each edge that was ever given is one of the rule, and walks
// over those that were given lead wherever walks over all do.
fn decide(alloc: Global, site: &mut Site, decided: &mut Decided, tx: Tx, draft: &Draft) -> bool {
    let number = tx.number();
    let me = handle(number, 0);
    let all = all_edges(site, draft, number, decided.committed);
    let Some(given) = with_given(alloc, site, draft, me, decided.given) else {
        return false;
    };
    let walks_of_all = walks(all);
    if !is_part(&given, &all)
        || !is_part(&walks_of_all, &walks(given))
        || site.pledge(tx, draft).is_err()
    {
        return false;
    }
    if is_in_cycle(&walks_of_all, number) {
        return site.refuse(tx, draft).is_ok();
    }
    decided.given = given;
    decided.committed |= bit(number);
    site.install(tx, me, draft).is_ok()
}

// The transaction reads the item, if it has not and has no write of it, and may.
fn read(site: &mut Site, draft: &mut Draft, here: SiteNo, tx: Tx, item: Item) {
    match draft.look(here, item) {
        Some(_) => {}
        None => {
            if let Ok(seen) = site.read(tx, item) {
                let _ = draft.seen(here, item, seen.value, seen.version);
            }
        }
    }
}

// The transaction reads, puts or adds to x or y.
fn act(site: &mut Site, draft: &mut Draft, names: &Names, tx: Tx, state: &mut u64) {
    let item = if random(state) & 1 == 0 {
        names.x
    } else {
        names.y
    };
    match random(state) & 3 {
        0 => {
            let _ = draft.put(names.site, item, 7);
        }
        1 => {
            let _ = draft.add(names.site, item, 7);
        }
        _ => read(site, draft, names.site, tx, item),
    }
}

// Three transactions with these numbers side by side, each decided in turn: whether all was as it should be.
fn three(
    alloc: Global,
    site: &mut Site,
    decided: &mut Decided,
    names: &Names,
    txs: [Tx; 3],
    state: &mut u64,
) -> bool {
    let [a, b, c] = txs;
    let mut first = Draft::new(alloc);
    let mut second = Draft::new(alloc);
    let mut third = Draft::new(alloc);
    act(site, &mut first, names, a, state);
    act(site, &mut second, names, b, state);
    act(site, &mut third, names, c, state);
    act(site, &mut second, names, b, state);
    let well = decide(alloc, site, decided, b, &second);
    act(site, &mut first, names, a, state);
    act(site, &mut third, names, c, state);
    let well = well && decide(alloc, site, decided, c, &third);
    act(site, &mut first, names, a, state);
    well && decide(alloc, site, decided, a, &first)
}

#[test]
fn decisions_on_neighbours_alone(rt: HostRuntime) -> Result<(), Fail> {
    let alloc = rt.alloc();
    let names = Names::at(0)?;
    let mut site = opened(alloc, &names, 2)?;
    let mut state = 1;
    let mut decided = Decided {
        given: [0; 64],
        committed: 0,
    };
    for n in 0..21 {
        let txs = [
            Tx::new(3 * n + 1)?,
            Tx::new(3 * n + 2)?,
            Tx::new(3 * n + 3)?,
        ];
        assert!(rt;
            three(alloc, &mut site, &mut decided, &names, txs, &mut state),
            "{n}"
        );
    }
    let committed = decided.committed.count_ones();
    assert!(rt; 30 < committed && committed < 60, "{committed}");
    Ok(())
}
