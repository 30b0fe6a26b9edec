//! The conflicts between neighbours: of the operations on an item, between each and those just before it.

ghost use Rattle.std.specs.Prelude.{◌≡◌, ◌⊎◌, ◌||◌, IfNone, IfSome};
ghost use Rattle.sgt_names.specs.Entry.{Clash, is_increment};
ghost use Rattle.sgt_names.specs.declared.entry.Kind.{Kind};

use crate::scene::Scene;
use sgt_bundle::SiteLog;
use sgt_names::{Entry, Item, Kind};
use std::alloc::{AllocError, Global};

/// Conflicts of one kind between two committed transactions, given by their places.
#[derive(Clone, Copy)]
pub struct Edge {
    pub from: u32,
    pub to: u32,
    pub kind: Kind,
    /// Where the first of them is, and whether an increment is in it.
    pub site: u64,
    pub item: Item,
    pub is_increment: bool,
    /// How many more there are.
    pub more: u64,
}

/// An operation of a transaction that is drawn.
#[derive(Clone, Copy)]
struct Access {
    entry: Entry,
    item: Item,
    place: u32,
}

/// The edge for two accesses, the first before the second, where they are of two transactions and in conflict.
fn edge_between(site: u64, first: &Access, second: &Access) -> Option<Edge>
    ensures conflict { IfSome result
        (λ edge. Clash edge.kind edge.item first.now.entry second.now.entry) }
    ensures place { IfSome result
        (λ edge. (edge.site ≡ site) × (edge.from ≡ first.now.place) × (edge.to ≡ second.now.place)) }
    ensures increment { IfSome result
        (λ edge. edge.is_increment ≡ (is_increment first.now.entry || is_increment second.now.entry)) }
    ensures none { IfNone result ((first.now.place ≡ second.now.place)
        ⊎ ((kind : Kind) → Clash kind first.now.item first.now.entry second.now.entry → ⊥)) }
{
    if first.place == second.place {
        return None;
    }
    let kind = first.entry.clash_on(&first.item, &second.entry)?;
    Some(Edge {
        from: first.place,
        to: second.place,
        kind,
        site,
        item: first.item,
        is_increment: first.entry.is_increment() || second.entry.is_increment(),
        more: 0,
    })
}

fn access_of(scene: &Scene, entry: &Entry) -> Option<Access> {
    let item = match *entry {
        Entry::Read { item, .. } | Entry::Write { item, .. } | Entry::Add { item, .. } => item,
        _ => return None,
    };
    let place = scene.place_of(entry.tx())?;
    Some(Access {
        entry: *entry,
        item,
        place,
    })
}

/// The operations at a site, item by item, each in the order of the log.
fn accesses_in(alloc: Global, scene: &Scene, entries: &[Entry]) -> Result<Vec<Access>, AllocError> {
    let mut accesses = Vec::new(alloc);
    for entry in entries {
        if let Some(access) = access_of(scene, entry) {
            accesses.push(access)?;
        }
    }
    accesses.sort_by_key(|one| one.item)?;
    Ok(accesses)
}

/// Whether two accesses are reads of one item, or increments of one.
fn are_alike(first: &Access, second: &Access) -> bool {
    let item = &first.item;
    if first.entry.is_increment() {
        return second.entry.is_increment() && second.entry.writes(item);
    }
    first.entry.reads(item) && second.entry.reads(item)
}

/// How many of the first accesses are on one item and in no conflict: reads, or increments, or one write.
fn front_group(accesses: &[Access]) -> usize {
    let Some(first) = accesses.first() else {
        return 0;
    };
    let mut count = 0usize;
    for access in accesses {
        if count > 0 && !are_alike(first, access) {
            return count;
        }
        count = count.saturating_add(1);
    }
    count
}

/// Accesses of a site, from this one to before that one.
#[derive(Clone, Copy)]
struct Group {
    from: usize,
    to: usize,
}

impl Group {
    fn of(self, accesses: &[Access]) -> &[Access] {
        accesses.get(self.from..self.to).unwrap_or(&[])
    }
}

/// Two groups of neighbours, the first before the second.
#[derive(Clone, Copy)]
struct Neighbours {
    first: Group,
    second: Group,
}

/// The groups of accesses that are neighbours: each with the one before it, and where that reads with the one before
/// that, too.
fn neighbours_in(alloc: Global, accesses: &[Access]) -> Result<Vec<Neighbours>, AllocError> {
    let mut found = Vec::new(alloc);
    let mut earlier = Group { from: 0, to: 0 };
    let mut last = Group { from: 0, to: 0 };
    let mut at = 0usize;
    for _ in 0..accesses.len() {
        let rest = accesses.get(at..).unwrap_or(&[]);
        if rest.is_empty() {
            return Ok(found);
        }
        let second = Group {
            from: at,
            to: at.saturating_add(front_group(rest)),
        };
        found.push(Neighbours {
            first: last,
            second,
        })?;
        let is_read = last
            .of(accesses)
            .first()
            .is_some_and(|one| one.entry.reads(&one.item));
        if is_read {
            found.push(Neighbours {
                first: earlier,
                second,
            })?;
        }
        earlier = last;
        last = second;
        at = second.to;
    }
    Ok(found)
}

/// The number of a kind.
pub(crate) fn number_of(kind: Kind) -> u8 {
    match kind {
        Kind::Wr => 0,
        Kind::Rw => 1,
        Kind::Ww => 2,
    }
}

/// The edges that were found, by the places and the kind.
#[derive(Drop)]
struct Table {
    size: u32,
    cells: Vec<Option<Edge>>,
}

impl Table {
    fn new(alloc: Global, size: u32) -> Result<Table, AllocError> {
        let squared = (size as usize).saturating_mul(size as usize);
        let cells = vec![in alloc; None; squared.saturating_mul(3)]?;
        Ok(Table { size, cells })
    }

    fn add(&mut self, edge: Edge) {
        let row = (edge.from as usize).saturating_mul(self.size as usize);
        let pair = row.saturating_add(edge.to as usize);
        let at = pair
            .saturating_mul(3)
            .saturating_add(usize::from(number_of(edge.kind)));
        if let Some(cell) = self.cells.get_mut(at) {
            match cell {
                Some(found) => found.more = found.more.saturating_add(1),
                None => *cell = Some(edge),
            }
        }
    }

    /// Each conflict of the second accesses with the first.
    fn connect(&mut self, site: u64, first: &[Access], second: &[Access]) {
        for one in first {
            for other in second {
                if let Some(edge) = edge_between(site, one, other) {
                    self.add(edge);
                }
            }
        }
    }
}

/// The conflicts between neighbours among the committed transactions that are drawn, by their places and kinds.
pub(crate) fn edges_in(
    alloc: Global,
    scene: &Scene,
    sites: &[SiteLog],
) -> Result<Vec<Edge>, AllocError> {
    let mut table = Table::new(alloc, scene.committed.len().min(1_000) as u32)?;
    let mut site = 0u64;
    for log in sites {
        let accesses = accesses_in(alloc, scene, log.entries.as_slice())?;
        let accesses = accesses.as_slice();
        let pairs = neighbours_in(alloc, accesses)?;
        for pair in pairs.as_slice() {
            table.connect(site, pair.first.of(accesses), pair.second.of(accesses));
        }
        site = site.saturating_add(1);
    }
    let mut edges = Vec::new(alloc);
    for cell in table.cells.as_slice() {
        if let Some(edge) = cell {
            edges.push(*edge)?;
        }
    }
    Ok(edges)
}

/// The conflicts of the second accesses with the first that the transaction at this place is in.
fn connect_at(
    edges: &mut Vec<Edge>,
    place: u32,
    site: u64,
    first: &[Access],
    second: &[Access],
) -> Result<(), AllocError> {
    for one in first {
        if one.place == place {
            for other in second {
                if let Some(edge) = edge_between(site, one, other) {
                    edges.push(edge)?;
                }
            }
        }
    }
    for other in second {
        if other.place == place {
            for one in first {
                if let Some(edge) = edge_between(site, one, other) {
                    edges.push(edge)?;
                }
            }
        }
    }
    Ok(())
}

/// The edges with those of one kind between the same two as one, which counts the others.
fn merged(alloc: Global, edges: &mut Vec<Edge>) -> Result<Vec<Edge>, AllocError> {
    edges.sort_by_key(|edge| (edge.from, edge.to, number_of(edge.kind)))?;
    let mut merged: Vec<Edge> = Vec::new(alloc);
    for edge in edges.as_slice() {
        let is_alike = match merged.last() {
            Some(last) => last.from == edge.from && last.to == edge.to && last.kind == edge.kind,
            None => false,
        };
        if is_alike {
            if let Some(last) = merged.last_mut() {
                last.more = last.more.saturating_add(1);
            }
        } else {
            merged.push(*edge)?;
        }
    }
    Ok(merged)
}

/// The conflicts with its neighbours that the transaction at this place is in.
pub(crate) fn edges_at(
    alloc: Global,
    scene: &Scene,
    sites: &[SiteLog],
    place: u32,
) -> Result<Vec<Edge>, AllocError> {
    let mut edges = Vec::new(alloc);
    let mut site = 0u64;
    for log in sites {
        let accesses = accesses_in(alloc, scene, log.entries.as_slice())?;
        let accesses = accesses.as_slice();
        let pairs = neighbours_in(alloc, accesses)?;
        for pair in pairs.as_slice() {
            let (first, second) = (pair.first.of(accesses), pair.second.of(accesses));
            connect_at(&mut edges, place, site, first, second)?;
        }
        site = site.saturating_add(1);
    }
    merged(alloc, &mut edges)
}
