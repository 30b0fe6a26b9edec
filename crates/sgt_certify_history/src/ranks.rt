//! Ranks of the committed transactions: along the conflicts, the least number first.

use crate::history::{Act, History, Operation};
use crate::lists::{count_down, short};
use crate::ready::Ready;
use std::alloc::{AllocError, Global};

/// How far the committed operations on an item are ranked, run by run: reads in a row, increments in a row, and each
/// other change alone.
#[derive(Clone, Copy)]
struct Turn {
    /// The place of the first operation behind the run, and the place behind the item's last one.
    behind: u32,
    end: u32,
    /// How many of the run's transactions aren't ranked, and the exclusive or of them: where there is one, that one.
    left: u32,
    mixed: u32,
    /// Who alone is left, if one is and stands in the next run too: it waits there for nobody.
    alone: Option<u32>,
}

/// Who waits for its turn, and who is ready to be ranked.
#[derive(Drop)]
struct Turns<'a> {
    history: &'a History,
    /// Of each item.
    turns: Vec<Turn>,
    /// Of each transaction, how many of its operations wait.
    waits: Vec<u32>,
    ready: Ready,
}

/// The first run of these operations: what it consists of, as far as it was read.
#[derive(Clone, Copy)]
struct Run {
    act: Option<Act>,
}

impl Run {
    /// Whether the committed operation belongs to the run. The first one does.
    fn takes(&mut self, act: Act) -> bool {
        match self.act {
            None => {
                self.act = Some(act);
                true
            }
            Some(first) => act == first && act != Act::Put,
        }
    }
}

impl<'a> Turns<'a> {
    /// Each committed transaction waits with all its operations.
    fn new(alloc: Global, history: &'a History) -> Result<Turns<'a>, AllocError> {
        let mut turns = Turns {
            history,
            turns: Vec::with_capacity(alloc, history.items.len())?,
            waits: Vec::with_capacity(alloc, history.count())?,
            ready: Ready::new(alloc, history.count())?,
        };
        for (tx, life) in history.lives.as_slice().iter().enumerate() {
            turns.waits.push(life.operations)?;
            if life.operations == 0 && history.is_committed(short(tx)) {
                turns.ready.insert(short(tx));
            }
        }
        for item in 0..history.items.len() {
            let span = history.by_item.span(item);
            let turn = Turn {
                behind: short(span.start),
                end: short(span.end),
                left: 0,
                mixed: 0,
                alone: None,
            };
            turns.turns.push(turn)?;
            turns.open(item, turn);
        }
        Ok(turns)
    }

    /// The operations of the item behind its run.
    fn behind(&self, turn: &Turn) -> &'a [Operation] {
        match self
            .history
            .operations
            .get(turn.behind as usize..turn.end as usize)
        {
            Some(operations) => operations,
            None => &[],
        }
    }

    /// One of the transaction's operations waits no longer.
    fn lower(&mut self, tx: u32) {
        if count_down(self.waits.as_mut_slice(), tx as usize) == 0 {
            self.ready.insert(tx);
        }
    }

    /// The next run of the item has its turn, behind this one.
    #[inline(always)]
    fn open(&mut self, item: usize, before: Turn) {
        let mut turn = before;
        let mut run = Run { act: None };
        for operation in self.behind(&turn) {
            if operation.is_committed {
                if !run.takes(operation.act) {
                    break;
                }
                turn.left = turn.left.saturating_add(1);
                turn.mixed ^= operation.tx;
                if turn.alone != Some(operation.tx) {
                    self.lower(operation.tx);
                }
            }
            turn.behind = turn.behind.saturating_add(1);
        }
        turn.alone = None;
        self.put(item, turn);
    }

    /// The item's run is this far. Where one is left alone, and stands in the next run too, it waits there no longer.
    #[inline(always)]
    fn put(&mut self, item: usize, turn: Turn) {
        let mut turn = turn;
        if turn.left == 1 && self.follows_itself(&turn) {
            turn.alone = Some(turn.mixed);
            self.lower(turn.mixed);
        }
        if let Some(old) = self.turns.get_mut(item) {
            *old = turn;
        }
    }

    /// Whether the one that is left stands in the next run too.
    fn follows_itself(&self, turn: &Turn) -> bool {
        let mut run = Run { act: None };
        for operation in self.behind(turn) {
            if operation.is_committed {
                if !run.takes(operation.act) {
                    return false;
                }
                if operation.tx == turn.mixed {
                    return true;
                }
            }
        }
        false
    }

    /// The item's run has one transaction less. What it is then, if not more than one is left.
    fn lessen(&mut self, item: usize, tx: u32) -> Option<Turn> {
        let turn = self.turns.get_mut(item)?;
        turn.left = turn.left.saturating_sub(1);
        turn.mixed ^= tx;
        if turn.left > 1 { None } else { Some(*turn) }
    }

    /// The transaction is ranked, of which an operation is in the item's run.
    fn leave(&mut self, item: usize, tx: u32) {
        let Some(turn) = self.lessen(item, tx) else {
            return;
        };
        if turn.left == 0 {
            self.open(item, turn);
        } else {
            self.put(item, turn);
        }
    }

    /// The least transaction that is ready. It is ranked.
    fn next(&mut self) -> Option<u32> {
        let tx = self.ready.pop_first()?;
        for place in self.history.places(tx) {
            self.leave(usize::from(place.item), tx);
        }
        Some(tx)
    }
}

/// The committed transactions in the order of their ranks: all of them where their conflicts are in no cycle.
pub fn rank_order(alloc: Global, history: &History) -> Result<Vec<u32>, AllocError> {
    let mut turns = Turns::new(alloc, history)?;
    let mut order = Vec::new(alloc);
    for _ in 0..history.count() {
        let Some(tx) = turns.next() else {
            break;
        };
        order.push(tx)?;
    }
    Ok(order)
}
