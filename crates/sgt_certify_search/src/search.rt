//! The search for a certificate of what the logs say.

use sgt_bundle::{Decision, Step, Walk};
use sgt_certify_history::{
    Asked, Before, Bounds, Fate, Front, History, Link, Marks, Spread, Targets, Waiting, ask,
    clear_mark, is_marked, met_from, number_at, rank_order, set_mark, set_number, short, walk_of,
};
use sgt_certify_stuck::{Circle, StuckSet};
use sgt_names::Tx;
use std::alloc::{AllocError, Global};
use std::collections::BTreeMap;

/// What the search found.
#[derive(Drop)]
pub enum Finding {
    /// These decisions.
    Decided(Vec<Decision>),
    /// A cycle of ends.
    Order(Vec<Before>),
    /// A cycle of committed conflicts, and an order in which the ends lead onward.
    Ranks(Vec<Link>, Vec<u32>),
    /// The next ends, where only refused ones without a walk are free, and what was decided by then.
    Walk(Stuck),
}

/// Where only refused ones without a walk are free: what was decided by then, and orders in which the ends and the
/// committed conflicts lead onward.
#[derive(Drop)]
pub struct Stuck {
    pub set: StuckSet,
    pub ends: Vec<u32>,
    pub ranks: Vec<u32>,
}

/// The order of the ends, or a cycle of them.
#[derive(Drop)]
enum Ends {
    Order(Vec<u32>),
    Cycle(Vec<Before>),
}

/// A choice of the next decision: a transaction, and its walk if it is refused.
#[derive(Drop)]
struct Choice {
    tx: u32,
    walk: Vec<Link>,
}

/// The decisions so far.
#[derive(Drop)]
struct Greedy {
    front: Front,
    ranks: Vec<u32>,
    /// Who is committed by a decision.
    committed: Vec<bool>,
    /// The same, in the order of the decisions.
    commits: Vec<u32>,
    /// Who was asked for a walk and had none.
    waiting: BTreeMap<u32, Waiting>,
    targets: Targets,
    marks: Marks,
    decisions: Vec<Decision>,
}

/// How many are committed by the logs.
fn committed_count(history: &History) -> usize {
    let mut count: usize = 0;
    for life in history.lives.as_slice() {
        if life.fate == Some(Fate::Commit) {
            count = count.saturating_add(1);
        }
    }
    count
}

/// The order of the ends, or the cycle of them that is told.
fn order_of_ends(alloc: Global, history: &History) -> Result<Ends, AllocError> {
    let mut front = Front::new(alloc, history)?;
    let mut order = Vec::with_capacity(alloc, history.count())?;
    for _ in 0..history.count() {
        match front.free.last() {
            Some(tx) => {
                let tx = *tx;
                order.push(tx)?;
                front.decide(history, tx)?;
            }
            None => break,
        }
    }
    if front.decided >= history.count() {
        return Ok(Ends::Order(order));
    }
    Ok(Ends::Cycle(front.cycle(alloc, history)?))
}

/// A search from the transaction through the allowed ones, as far as the ends.
fn spread_from<'a>(
    history: &'a History,
    targets: &'a Targets,
    bounds: Bounds<'a>,
    start: u32,
) -> Spread<'a> {
    Spread {
        history,
        targets,
        bounds,
        start,
    }
}

/// The committed ones that have no place in the order.
fn unranked(alloc: Global, history: &History, order: &[u32]) -> Result<Vec<bool>, AllocError> {
    let mut left = vec![in alloc; false; history.count()]?;
    for tx in 0..short(history.count()) {
        if history.is_committed(tx) {
            set_mark(left.as_mut_slice(), tx as usize);
        }
    }
    for tx in order {
        clear_mark(left.as_mut_slice(), *tx as usize);
    }
    Ok(left)
}

/// The cycle of the least transaction that lies on one, of those that have no rank. Who lies on none is left out from
/// then on.
fn rank_cycle(alloc: Global, history: &History, order: &[u32]) -> Result<Vec<Link>, AllocError> {
    let mut left = unranked(alloc, history, order)?;
    let targets = Targets::new(alloc, history)?;
    let mut marks = Marks::new(alloc, history, &targets)?;
    for tx in 0..short(history.count()) {
        if is_marked(left.as_slice(), tx as usize) {
            let bounds = Bounds {
                allowed: left.as_slice(),
                ends: &[],
            };
            let spread = spread_from(history, &targets, bounds, tx);
            let walk = walk_of(alloc, &spread, &mut marks)?;
            if !walk.is_empty() {
                return Ok(walk);
            }
            clear_mark(left.as_mut_slice(), tx as usize);
        }
    }
    Ok(Vec::new(alloc))
}

/// What the searches for walks go over: nothing, where nobody is refused.
fn targets_of(alloc: Global, history: &History) -> Result<Targets, AllocError> {
    for life in history.lives.as_slice() {
        if life.fate == Some(Fate::Refuse) {
            return Targets::new(alloc, history);
        }
    }
    Targets::none(alloc)
}

impl Greedy {
    fn new(alloc: Global, history: &History, order: &[u32]) -> Result<Greedy, AllocError> {
        let many = history.count();
        let mut ranks = vec![in alloc; 0u32; many]?;
        for (rank, tx) in order.iter().enumerate() {
            set_number(ranks.as_mut_slice(), *tx as usize, short(rank));
        }
        let targets = targets_of(alloc, history)?;
        let marks = Marks::new(alloc, history, &targets)?;
        Ok(Greedy {
            front: Front::new(alloc, history)?,
            ranks,
            committed: vec![in alloc; false; many]?,
            commits: Vec::new(alloc),
            waiting: BTreeMap::new(alloc),
            targets,
            marks,
            decisions: Vec::with_capacity(alloc, many)?,
        })
    }

    /// The least of the free ones that isn't refused.
    fn plain_choice(&self, history: &History) -> Option<u32> {
        let mut least: Option<u32> = None;
        for tx in self.front.free.as_slice() {
            if !history.is_refused(*tx) {
                least = match least {
                    Some(other) if other < *tx => Some(other),
                    _ => Some(*tx),
                };
            }
        }
        least
    }

    /// The walk of the free refused transaction; empty where it has none so far.
    fn walk_now(
        &mut self,
        alloc: Global,
        history: &History,
        ends: &[u32],
        tx: u32,
    ) -> Result<Vec<Link>, AllocError> {
        let allowed = self.committed.as_slice();
        let commits = self.commits.as_slice();
        let bounds = Bounds { allowed, ends };
        let spread = spread_from(history, &self.targets, bounds, tx);
        if let Some(waiting) = self.waiting.get_mut(&tx) {
            if !waiting.may_return(alloc, &spread, commits)? {
                return Ok(Vec::new(alloc));
            }
        }
        match ask(alloc, &spread, &mut self.marks, commits.len())? {
            Asked::Walk(walk) => Ok(walk),
            Asked::Waits(waiting) => {
                self.waiting.insert(tx, waiting)?;
                Ok(Vec::new(alloc))
            }
        }
    }

    /// The least of the free refused ones that has a walk.
    fn refused_choice(
        &mut self,
        alloc: Global,
        history: &History,
    ) -> Result<Option<Choice>, AllocError> {
        let mut free = Vec::from_slice(alloc, self.front.free.as_slice())?;
        free.sort()?;
        let ends = self.front.end_lines(alloc, history)?;
        for tx in free.as_slice() {
            let walk = self.walk_now(alloc, history, ends.as_slice(), *tx)?;
            if !walk.is_empty() {
                self.waiting.remove(tx);
                return Ok(Some(Choice { tx: *tx, walk }));
            }
        }
        Ok(None)
    }

    fn choice(&mut self, alloc: Global, history: &History) -> Result<Option<Choice>, AllocError> {
        match self.plain_choice(history) {
            Some(tx) => Ok(Some(Choice {
                tx,
                walk: Vec::new(alloc),
            })),
            None => self.refused_choice(alloc, history),
        }
    }

    /// Decides on the choice.
    fn decide(
        &mut self,
        alloc: Global,
        history: &History,
        choice: Choice,
    ) -> Result<(), AllocError> {
        let Choice { tx, walk } = choice;
        if let Some(life) = history.life(tx) {
            let decision = match life.fate {
                Some(Fate::Commit) => {
                    set_mark(self.committed.as_mut_slice(), tx as usize);
                    self.commits.push(tx)?;
                    Decision::Commit {
                        tx: life.tx,
                        rank: number_at(self.ranks.as_slice(), tx as usize),
                    }
                }
                Some(Fate::Refuse) => Decision::Refuse {
                    tx: life.tx,
                    walk: Walk::from_vec(alloc, steps_of(alloc, history, walk.as_slice())?)?,
                },
                _ => Decision::Withdraw { tx: life.tx },
            };
            self.decisions.push(decision)?;
        }
        self.front.decide(history, tx)
    }
}

/// The steps of a walk.
fn steps_of(alloc: Global, history: &History, walk: &[Link]) -> Result<Vec<Step>, AllocError> {
    let mut steps = Vec::new(alloc);
    for link in walk {
        if let Some(life) = history.life(link.to) {
            steps.push(Step {
                label: link.conflict.label,
                to: life.tx,
            })?;
        }
    }
    Ok(steps)
}

/// The numbers of the transactions.
pub fn numbers_of(alloc: Global, history: &History, places: &[u32]) -> Result<Vec<Tx>, AllocError> {
    let mut numbers = Vec::new(alloc);
    for place in places {
        if let Some(life) = history.life(*place) {
            numbers.push(life.tx)?;
        }
    }
    Ok(numbers)
}

impl Greedy {
    /// All that conflicts lead to from each free one on, through those that are committed.
    fn circles(&mut self, alloc: Global, history: &History) -> Result<Vec<Circle>, AllocError> {
        let ends = self.front.end_lines(alloc, history)?;
        let mut circles = Vec::new(alloc);
        for place in self.front.free.as_slice() {
            if let Some(life) = history.life(*place) {
                let bounds = Bounds {
                    allowed: self.committed.as_slice(),
                    ends: ends.as_slice(),
                };
                let spread = spread_from(history, &self.targets, bounds, *place);
                let met = met_from(alloc, &spread, &mut self.marks)?;
                circles.push(Circle {
                    tx: life.tx,
                    met: numbers_of(alloc, history, met.as_slice())?,
                })?;
            }
        }
        Ok(circles)
    }

    /// What was decided, where only refused ones without a walk are free.
    fn stuck_set(&mut self, alloc: Global, history: &History) -> Result<StuckSet, AllocError> {
        let mut committed = Vec::new(alloc);
        let mut others = Vec::new(alloc);
        for decision in self.decisions.as_slice() {
            match decision {
                Decision::Commit { tx, .. } => committed.push(*tx)?,
                Decision::Refuse { tx, .. } => others.push(*tx)?,
                Decision::Withdraw { tx } => others.push(*tx)?,
            }
        }
        Ok(StuckSet {
            committed,
            others,
            circles: self.circles(alloc, history)?,
        })
    }
}

/// The decisions in order, as far as there are some.
fn decide_all(alloc: Global, history: &History, order: &[u32]) -> Result<Greedy, AllocError> {
    let mut greedy = Greedy::new(alloc, history, order)?;
    for _ in 0..history.count() {
        match greedy.choice(alloc, history)? {
            Some(choice) => greedy.decide(alloc, history, choice)?,
            None => break,
        }
    }
    Ok(greedy)
}

/// Why there are no ranks: a cycle of ends, or else one of committed conflicts, of which these are ranked.
fn unranked_reason(alloc: Global, history: &History, order: &[u32]) -> Result<Finding, AllocError> {
    match order_of_ends(alloc, history)? {
        Ends::Order(ends) => {
            let cycle = rank_cycle(alloc, history, order)?;
            Ok(Finding::Ranks(cycle, ends))
        }
        Ends::Cycle(cycle) => Ok(Finding::Order(cycle)),
    }
}

/// Why there are no more decisions than these: a cycle of ends, or else that only refused ones without a walk are free.
fn stuck_reason(
    alloc: Global,
    history: &History,
    greedy: Greedy,
    order: Vec<u32>,
) -> Result<Finding, AllocError> {
    let mut greedy = greedy;
    match order_of_ends(alloc, history)? {
        Ends::Order(ends) => Ok(Finding::Walk(Stuck {
            set: greedy.stuck_set(alloc, history)?,
            ends,
            ranks: order,
        })),
        Ends::Cycle(cycle) => Ok(Finding::Order(cycle)),
    }
}

/// The decisions, or the first of the reasons why there are none. Where all are decided, no cycle of ends is looked for:
/// there is none.
pub fn search(alloc: Global, history: &History) -> Result<Finding, AllocError> {
    let order = rank_order(alloc, history)?;
    if order.len() < committed_count(history) {
        return unranked_reason(alloc, history, order.as_slice());
    }
    let greedy = decide_all(alloc, history, order.as_slice())?;
    if greedy.front.decided >= history.count() {
        return Ok(Finding::Decided(greedy.decisions));
    }
    stuck_reason(alloc, history, greedy, order)
}
