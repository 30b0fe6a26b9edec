//! Refused transactions from which a search led to no walk, and whether later commits change that.

use crate::conflicts::least_conflict;
use crate::history::{History, Place};
use crate::lists::is_marked;
use crate::sides::Spread;
use crate::targets::{ACTS, Target, Way, do_clash, group_of};
use std::alloc::{AllocError, Global};
use std::collections::BTreeMap;

/// How far a search from a refused transaction has come, that led to no walk: the way in which it met all that there
/// was.
#[derive(Drop)]
pub struct Waiting {
    way: Way,
    /// Of each group of targets that it came to, how far it was met.
    reach: BTreeMap<u32, u32>,
    /// How many were committed then.
    seen: usize,
}

impl Waiting {
    /// The search has come so far on these groups, when so many were committed.
    pub fn new(
        alloc: Global,
        way: Way,
        reaches: &[(u32, u32)],
        seen: usize,
    ) -> Result<Waiting, AllocError> {
        let mut reach = BTreeMap::new(alloc);
        for (group, line) in reaches {
            reach.insert(*group, *line)?;
        }
        Ok(Waiting { way, reach, seen })
    }

    /// Whether what was met includes an operation of the transaction.
    fn includes(&self, history: &History, tx: u32) -> bool {
        for place in history.places(tx) {
            if let Some(reach) = self.reach.get(&group_of(place.item, place.act)) {
                if self.way.includes(*reach, place) {
                    return true;
                }
            }
        }
        false
    }

    /// Those of the group that the operation at this place leads to and that weren't met.
    fn beyond<'a>(
        &mut self,
        spread: &Spread<'a>,
        place: &Place,
        group: u32,
    ) -> Result<&'a [Target], AllocError> {
        let reach = match self.reach.get(&group) {
            Some(reach) => *reach,
            None => self.way.start(),
        };
        let further = self.way.further(place.line, reach);
        if further == reach {
            return Ok(&[]);
        }
        self.reach.insert(group, further)?;
        let lines = self.way.lines(place.line, reach);
        Ok(spread.targets.at(spread.targets.span(group, &lines)))
    }

    /// Adds those that the transaction leads to.
    fn spread(
        &mut self,
        spread: &Spread<'_>,
        tx: u32,
        reached: &mut Vec<u32>,
    ) -> Result<(), AllocError> {
        for place in spread.history.places(tx) {
            for act in ACTS {
                if do_clash(place.act, act) {
                    for target in self.beyond(spread, place, group_of(place.item, act))? {
                        if target.tx != spread.start
                            && is_marked(spread.bounds.allowed, target.tx as usize)
                        {
                            reached.push(target.tx)?;
                        }
                    }
                }
            }
        }
        Ok(())
    }

    /// Whether the transaction closes a walk.
    fn closes(&self, spread: &Spread<'_>, tx: u32) -> bool {
        match self.way {
            Way::Onward => least_conflict(spread.history, tx, spread.start).is_some(),
            Way::Back => least_conflict(spread.history, spread.start, tx).is_some(),
        }
    }

    /// Whether there may be a walk now that these are committed: one of those that the search didn't come to closes
    /// one.
    pub fn may_return(
        &mut self,
        alloc: Global,
        spread: &Spread<'_>,
        commits: &[u32],
    ) -> Result<bool, AllocError> {
        let mut reached = Vec::new(alloc);
        if let Some(new) = commits.get(self.seen..) {
            for tx in new {
                if self.includes(spread.history, *tx) {
                    reached.push(*tx)?;
                }
            }
        }
        self.seen = commits.len();
        for _ in 0..usize::MAX {
            let Some(tx) = reached.pop() else {
                return Ok(false);
            };
            if self.closes(spread, tx) {
                return Ok(true);
            }
            self.spread(spread, tx, &mut reached)?;
        }
        Ok(false)
    }
}
