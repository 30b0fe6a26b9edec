//! The order of the ends: which transactions can be decided next.

use crate::history::{End, History};
use crate::lists::{count_down, count_up, number_at, set_number, short};
use std::alloc::{AllocError, Global};

/// How far the ends of each site are decided, and who can be decided next.
#[derive(Drop)]
pub struct Front {
    /// Of each site, the place of its next end.
    next: Vec<u32>,
    /// Of each transaction, at how many of its logs it isn't next.
    waits: Vec<u32>,
    /// Who is next wherever it ends.
    pub free: Vec<u32>,
    /// How many are decided.
    pub decided: usize,
}

/// A step of a cycle of ends: an end of the first stands before one of the second.
#[derive(Clone, Copy, Debug)]
pub struct Before {
    pub from: u32,
    pub to: u32,
    pub site: u32,
    pub first: u32,
    pub second: u32,
}

impl Front {
    /// Nothing is decided.
    pub fn new(alloc: Global, history: &History) -> Result<Front, AllocError> {
        let mut waits = Vec::with_capacity(alloc, history.count())?;
        for life in history.lives.as_slice() {
            waits.push(u32::from(life.ends))?;
        }
        let mut front = Front {
            next: Vec::from_slice(alloc, history.sites.as_slice())?,
            waits,
            free: Vec::new(alloc),
            decided: 0,
        };
        for site in 0..history.sites.len() {
            front.arrive(history, site)?;
        }
        Ok(front)
    }

    /// The next end of the site.
    pub fn next_end(&self, history: &History, site: usize) -> Option<End> {
        history.end_in(site, number_at(self.next.as_slice(), site))
    }

    /// The lines of the next end of each site: 2^32 - 1 where there is none.
    pub fn end_lines(&self, alloc: Global, history: &History) -> Result<Vec<u32>, AllocError> {
        let mut lines = vec![in alloc; u32::MAX; history.sites.len()]?;
        for (site, line) in lines.iter_mut().enumerate() {
            if let Some(end) = self.next_end(history, site) {
                *line = end.line;
            }
        }
        Ok(lines)
    }

    /// The transaction of the site's next end stands next there.
    fn arrive(&mut self, history: &History, site: usize) -> Result<(), AllocError> {
        let Some(end) = self.next_end(history, site) else {
            return Ok(());
        };
        if count_down(self.waits.as_mut_slice(), end.tx as usize) == 0 {
            self.free.push(end.tx)?;
        }
        Ok(())
    }

    /// The free transaction is decided.
    pub fn decide(&mut self, history: &History, tx: u32) -> Result<(), AllocError> {
        self.free.retain(|other| *other != tx);
        self.decided = self.decided.saturating_add(1);
        for ending in history.endings(tx) {
            let site = ending.site as usize;
            count_up(self.next.as_mut_slice(), site);
            self.arrive(history, site)?;
        }
        Ok(())
    }

    /// Who stands before the transaction at the least site where it ends and isn't next.
    fn blocker(&self, history: &History, tx: u32) -> Option<Before> {
        for ending in history.endings(tx) {
            let end = history.end_at(ending.at)?;
            let other = self.next_end(history, ending.site as usize)?;
            if other.tx != tx {
                return Some(Before {
                    from: other.tx,
                    to: tx,
                    site: ending.site,
                    first: other.line,
                    second: end.line,
                });
            }
        }
        None
    }

    /// The next end of the least site with ends left.
    fn first_left(&self, history: &History) -> Option<End> {
        for site in 0..history.sites.len() {
            if let Some(end) = self.next_end(history, site) {
                return Some(end);
            }
        }
        None
    }

    /// The cycle of ends that there is where some are left and none is free: told forwards, from its least
    /// transaction on.
    pub fn cycle(&self, alloc: Global, history: &History) -> Result<Vec<Before>, AllocError> {
        let mut steps: Vec<Before> = Vec::new(alloc);
        let mut met = vec![in alloc; 0u32; history.count()]?;
        let Some(end) = self.first_left(history) else {
            return Ok(steps);
        };
        let mut tx = end.tx;
        for _ in 0..history.count().saturating_add(1) {
            let seen = number_at(met.as_slice(), tx as usize);
            if seen > 0 {
                return cut_cycle(alloc, steps.as_slice(), seen as usize - 1);
            }
            set_number(
                met.as_mut_slice(),
                tx as usize,
                short(steps.len().saturating_add(1)),
            );
            let Some(step) = self.blocker(history, tx) else {
                return Ok(steps);
            };
            tx = step.from;
            steps.push(step)?;
        }
        Ok(steps)
    }
}

/// The steps from this one on, in the other order, from the least transaction on.
fn cut_cycle(alloc: Global, steps: &[Before], from: usize) -> Result<Vec<Before>, AllocError> {
    let mut cycle: Vec<Before> = Vec::new(alloc);
    if let Some(rest) = steps.get(from..) {
        for step in rest.iter().rev() {
            cycle.push(*step)?;
        }
    }
    let mut least = 0;
    let mut best = u32::MAX;
    for (place, step) in cycle.iter().enumerate() {
        if step.from < best {
            best = step.from;
            least = place;
        }
    }
    let mut turned = Vec::new(alloc);
    if let Some(back) = cycle.as_slice().get(least..) {
        turned.extend_from_slice(back)?;
    }
    if let Some(front) = cycle.as_slice().get(..least) {
        turned.extend_from_slice(front)?;
    }
    Ok(turned)
}
