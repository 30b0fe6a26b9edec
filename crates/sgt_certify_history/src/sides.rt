//! One side of a search: what is met going one way, layer by layer.

use crate::history::{History, Place};
use crate::lists::{is_marked, number_at, set_number};
use crate::targets::{ACTS, Targets, Way, do_clash, group_of};
use sgt_names::SiteNo;
use std::alloc::{AllocError, Global};
use std::ops::Range;

/// Who a search may go through.
#[derive(Clone, Copy)]
pub struct Bounds<'a> {
    /// These transactions alone.
    pub allowed: &'a [bool],
    /// At each site's place a line that none of them has an operation at or behind, where one is known.
    pub ends: &'a [u32],
}

impl Bounds<'_> {
    /// The line for the site.
    fn end_of(&self, site: SiteNo) -> u32 {
        match self.ends.get(site.number() as usize) {
            Some(line) => *line,
            None => u32::MAX,
        }
    }
}

/// A search from one transaction, layer by layer, within these bounds.
#[derive(Clone, Copy)]
pub struct Spread<'a> {
    pub history: &'a History,
    pub targets: &'a Targets,
    pub bounds: Bounds<'a>,
    pub start: u32,
}

impl Spread<'_> {
    /// The line for the site of the item.
    fn end_of(&self, item: u16) -> u32 {
        match self.history.items.get(usize::from(item)) {
            Some(named) => self.bounds.end_of(named.site),
            None => u32::MAX,
        }
    }
}

/// Targets that a transaction leads to.
#[derive(Clone, Copy)]
struct Span {
    parent: u32,
    from: usize,
    to: usize,
}

/// What a layer leads to that was not met before.
#[derive(Drop)]
struct Plan {
    way: Way,
    spans: Vec<Span>,
    /// How many targets these are.
    count: usize,
    /// Of each group of targets, how far it was met.
    reach: Vec<u32>,
    /// Of which groups some was.
    groups: Vec<u32>,
}

impl Plan {
    /// The transaction's operation at this place leads to those of the group.
    fn add_group(
        &mut self,
        spread: &Spread<'_>,
        parent: u32,
        place: &Place,
        group: u32,
    ) -> Result<(), AllocError> {
        let reach = match self.reach.get(group as usize) {
            Some(reach) => *reach,
            None => return Ok(()),
        };
        let further = self.way.further(place.line, reach);
        if further == reach {
            return Ok(());
        }
        if reach == self.way.start() {
            self.groups.push(group)?;
        }
        set_number(self.reach.as_mut_slice(), group as usize, further);
        let mut lines = self.way.lines(place.line, reach);
        if self.way == Way::Onward {
            lines.end = lines.end.min(spread.end_of(place.item));
        }
        let Range {
            start: from,
            end: to,
        } = spread.targets.span(group, &lines);
        if from < to {
            self.count = self.count.saturating_add(to - from);
            self.spans.push(Span { parent, from, to })?;
        }
        Ok(())
    }

    /// What the transaction leads to.
    fn add(&mut self, spread: &Spread<'_>, parent: u32) -> Result<(), AllocError> {
        for place in spread.history.places(parent) {
            for act in ACTS {
                if do_clash(place.act, act) {
                    self.add_group(spread, parent, place, group_of(place.item, act))?;
                }
            }
        }
        Ok(())
    }

    /// All of it was met.
    fn pass(&mut self) {
        self.spans.clear();
        self.count = 0;
    }

    fn clear(&mut self) {
        for group in self.groups.as_slice() {
            set_number(self.reach.as_mut_slice(), *group as usize, self.way.start());
        }
        self.groups.clear();
        self.pass();
    }
}

/// Who was met.
#[derive(Drop)]
struct Crowd {
    /// Of each transaction that was met one more than from whom it was met first, else 0.
    parents: Vec<u32>,
    /// In the order of the search, behind the one that it began with.
    order: Vec<u32>,
}

impl Crowd {
    /// The transaction is met from its parent, if it wasn't met before.
    fn meet(&mut self, tx: u32, parent: u32) -> Result<(), AllocError> {
        if number_at(self.parents.as_slice(), tx as usize) == 0 {
            set_number(
                self.parents.as_mut_slice(),
                tx as usize,
                parent.saturating_add(1),
            );
            self.order.push(tx)?;
        }
        Ok(())
    }

    /// The children of one parent, from this place on, stand by number.
    fn sort_from(&mut self, first: usize) {
        if let Some(children) = self.order.as_mut_slice().get_mut(first..) {
            children.sort_unstable();
        }
    }

    fn clear(&mut self) {
        for tx in self.order.as_slice() {
            set_number(self.parents.as_mut_slice(), *tx as usize, 0);
        }
        self.order.clear();
    }
}

/// What is met going one way. Between two searches it is as it was made.
#[derive(Drop)]
pub struct Side {
    plan: Plan,
    crowd: Crowd,
    /// Where each layer begins in the order.
    layers: Vec<usize>,
    /// How many targets were gone over.
    spent: usize,
}

impl Side {
    /// Nothing is met.
    pub fn new(
        alloc: Global,
        history: &History,
        targets: &Targets,
        way: Way,
    ) -> Result<Side, AllocError> {
        Ok(Side {
            plan: Plan {
                way,
                spans: Vec::new(alloc),
                count: 0,
                reach: vec![in alloc; way.start(); targets.groups()]?,
                groups: Vec::new(alloc),
            },
            crowd: Crowd {
                parents: vec![in alloc; 0u32; history.count()]?,
                order: Vec::new(alloc),
            },
            layers: Vec::new(alloc),
            spent: 0,
        })
    }

    /// The search begins.
    pub fn begin(&mut self, spread: &Spread<'_>) -> Result<(), AllocError> {
        self.plan.add(spread, spread.start)
    }

    /// How many layers were met.
    pub fn depth(&self) -> usize {
        self.layers.len()
    }

    /// Whether the last layer leads to nobody who wasn't met.
    pub fn is_done(&self) -> bool {
        self.plan.spans.is_empty()
    }

    /// How many targets will have been gone over with the next layer.
    pub fn cost(&self) -> usize {
        self.spent.saturating_add(self.plan.count)
    }

    /// Whether the transaction was met.
    pub fn has(&self, tx: u32) -> bool {
        self.parent_of(tx).is_some()
    }

    /// From whom the transaction was met first.
    pub fn parent_of(&self, tx: u32) -> Option<u32> {
        number_at(self.crowd.parents.as_slice(), tx as usize).checked_sub(1)
    }

    /// Who was met, in the order of the search.
    pub fn met(&self) -> &[u32] {
        self.crowd.order.as_slice()
    }

    /// The layer, counted from 1.
    pub fn layer(&self, depth: usize) -> &[u32] {
        let order = self.crowd.order.as_slice();
        let from = match self.layers.get(depth.saturating_sub(1)) {
            Some(place) => *place,
            None => order.len(),
        };
        let to = match self.layers.get(depth) {
            Some(place) => *place,
            None => order.len(),
        };
        match order.get(from..to) {
            Some(layer) => layer,
            None => &[],
        }
    }

    /// Meets the next layer: of each one of the last, in order, those that it leads to and that were not met yet, the
    /// least number first.
    pub fn advance(&mut self, spread: &Spread<'_>) -> Result<(), AllocError> {
        let start = self.crowd.order.len();
        let mut first = start;
        let mut parent = spread.start;
        for span in self.plan.spans.as_slice() {
            if span.parent != parent {
                self.crowd.sort_from(first);
                first = self.crowd.order.len();
                parent = span.parent;
            }
            for target in spread.targets.at(span.from..span.to) {
                let tx = target.tx;
                if tx != spread.start && is_marked(spread.bounds.allowed, tx as usize) {
                    self.crowd.meet(tx, parent)?;
                }
            }
        }
        self.crowd.sort_from(first);
        self.layers.push(start)?;
        self.spent = self.cost();
        self.plan.pass();
        if let Some(layer) = self.crowd.order.get(start..) {
            for tx in layer {
                self.plan.add(spread, *tx)?;
            }
        }
        Ok(())
    }

    /// Of each group of targets of which some was met, how far it was.
    pub fn reaches(&self, alloc: Global) -> Result<Vec<(u32, u32)>, AllocError> {
        let mut reaches = Vec::with_capacity(alloc, self.plan.groups.len())?;
        for group in self.plan.groups.as_slice() {
            reaches.push((
                *group,
                number_at(self.plan.reach.as_slice(), *group as usize),
            ))?;
        }
        Ok(reaches)
    }

    /// Nothing is met any more.
    pub fn clear(&mut self) {
        self.plan.clear();
        self.crowd.clear();
        self.layers.clear();
        self.spent = 0;
    }
}
