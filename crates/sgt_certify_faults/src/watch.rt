//! Lines of a text of logs, judged as they come in.

ghost use Rattle.std.specs.Prelude.{◌<◌, length, IfSome};

use crate::asked::{Asked, asked_by};
use sgt_audit::{Known, Place, Rules, enter_line, judge_line, read_format, read_line};
use sgt_audit_cells::SiteState;
use sgt_audit_decisions::Ruling;
use sgt_names::{Entry, MAX_SITES, Tx};
use sgt_notation::{SectionLine, front_line, split_line};
use std::alloc::{AllocError, Global};
use std::collections::BTreeMap;

/// So many transactions there is room for at first.
const ROOM: usize = 1_024;

/// So many bytes of a text have a transaction at most, but for short ones.
const EACH: usize = 64;

/// How many hints there are.
const HINTS: usize = 16_384;

/// A transaction of the lines so far, and the kind of end that it asks for first.
#[derive(Clone, Copy)]
struct Party {
    tx: Tx,
    end: Option<Asked>,
}

/// The transactions of the lines so far, each with the number by which it came.
#[derive(Drop)]
struct Parties {
    numbers: BTreeMap<Tx, usize>,
    list: Vec<Party>,
    /// The number that a transaction may have, by its own.
    hints: Vec<usize>,
}

/// Judges the lines of a text of logs as they come in, and tells where one may have a fault. Nothing is proved of it:
/// `fault_within` decides whether there is a fault, and this decides when that is asked.
#[derive(Drop)]
pub struct Watch {
    alloc: Global,
    /// Whether the format is the second, once the first line was read.
    second: Option<bool>,
    parties: Parties,
    place: Place,
    state: SiteState,
    /// There is room for so many transactions.
    room: usize,
    /// So many bytes stand before the open section, and before the line that comes next.
    begun: usize,
    seen: usize,
}

impl Parties {
    fn new(alloc: Global) -> Result<Parties, AllocError> {
        Ok(Parties {
            numbers: BTreeMap::new(alloc),
            list: Vec::new(alloc),
            hints: vec![in alloc; 0usize; HINTS]?,
        })
    }

    /// The number of the transaction, if it came before.
    fn number_of(&self, tx: Tx) -> Option<usize> {
        let hint = self.hints.get(tx.number() as usize % HINTS)?;
        if let Some(party) = self.list.get(*hint) {
            if party.tx == tx {
                return Some(*hint);
            }
        }
        match self.numbers.get(&tx) {
            Some(number) => Some(*number),
            None => None,
        }
    }

    /// Where to look for the transaction first.
    fn hint(&mut self, tx: Tx, number: usize) {
        if let Some(hint) = self.hints.get_mut(tx.number() as usize % HINTS) {
            *hint = number;
        }
    }

    /// One more entry of the transaction: its number.
    fn add(&mut self, entry: &Entry) -> Result<usize, AllocError> {
        let tx = entry.tx();
        let asked = asked_by(entry);
        let Some(number) = self.number_of(tx) else {
            let number = self.list.len();
            self.numbers.insert(tx, number)?;
            self.list.push(Party { tx, end: asked })?;
            self.hint(tx, number);
            return Ok(number);
        };
        if let Some(party) = self.list.get_mut(number) {
            if party.end.is_none() {
                party.end = asked;
            }
        }
        self.hint(tx, number);
        Ok(number)
    }

    /// What is asked for by the transaction of this number, as if that were decided.
    fn ruling_on(&self, number: usize, entry: &Entry) -> Ruling {
        let end = match self.list.get(number) {
            Some(party) => party.end,
            None => None,
        };
        let suits = match asked_by(entry) {
            Some(asked) => end == Some(asked),
            None => true,
        };
        Ruling {
            number: Some(number),
            rank: None,
            suiting: if suits { Some(number) } else { None },
        }
    }
}

/// Whether the format has such lines.
fn is_allowed(second: bool, line: &SectionLine) -> bool {
    match line {
        SectionLine::Logged(entry) => second || !entry.is_increment(),
        _ => true,
    }
}

/// The line at the front, if it is one of a section of this format, and what stands behind it; none where no line stands
/// whole there.
fn split_front(second: bool, text: &[u8]) -> Option<(Option<SectionLine>, &[u8])>
    ensures { IfSome result (λ split. length split.1.now < length text.now) }
{
    if let Some((line, n)) = front_line(text) {
        if n > 0 && is_allowed(second, &line) {
            return Some((Some(line), &text[n..]));
        }
    }
    let (line, behind) = split_line(text)?;
    Some((read_line(second, line), behind))
}

impl Watch {
    /// Before the first line.
    pub fn new(alloc: Global) -> Result<Watch, AllocError> {
        Ok(Watch {
            alloc,
            second: None,
            parties: Parties::new(alloc)?,
            place: Place::new(alloc, MAX_SITES),
            state: SiteState::new(alloc, ROOM)?,
            room: ROOM,
            begun: 0,
            seen: 0,
        })
    }

    /// What is known of the entry, of the transaction of this number.
    fn look_up(&self, number: usize, entry: &Entry) -> Known {
        Known {
            place: self.state.place_of_entry(entry),
            ruling: self.parties.ruling_on(number, entry),
        }
    }

    /// Takes the line in once more.
    fn enter(&mut self, line: &SectionLine) -> Result<(), AllocError> {
        let known = match line {
            SectionLine::Logged(entry) => {
                let number = self.parties.add(entry)?;
                Some(self.look_up(number, entry))
            }
            _ => None,
        };
        enter_line(&mut self.state, line, &known)
    }

    /// Makes room for twice as many transactions, or as many as the text may have: the lines of the open section are taken
    /// in anew.
    fn grow(&mut self, text: &[u8], second: bool) -> Result<(), AllocError> {
        self.room = self.room.saturating_mul(2).max(text.len() / EACH);
        self.state = SiteState::new(self.alloc, self.room)?;
        let Some(section) = text.get(self.begun..self.seen) else {
            return Ok(());
        };
        let mut rest = section;
        'lines: while let Some((line, more)) = split_front(second, rest) {
            if let Some(line) = line {
                self.enter(&line)?;
            }
            rest = more;
        }
        Ok(())
    }

    /// Whether the next line, in front of this place, may have a fault.
    fn next(&mut self, text: &[u8], second: bool, line: &SectionLine) -> Result<bool, AllocError> {
        if self.place.is_complete() {
            return Ok(true);
        }
        let known = match line {
            SectionLine::Logged(entry) => {
                let number = self.parties.add(entry)?;
                if self.parties.list.len() > self.room {
                    self.grow(text, second)?;
                }
                Some(self.look_up(number, entry))
            }
            SectionLine::Site(_) => {
                self.begun = self.seen;
                None
            }
            _ => None,
        };
        if judge_line(Rules::Asked, &self.state, &self.place, line, &known).is_some() {
            return Ok(true);
        }
        enter_line(&mut self.state, line, &known)?;
        self.place.enter(line)?;
        Ok(false)
    }

    /// The same of the first line, where there is one. What stands behind it is left.
    fn first(&mut self, text: &[u8]) -> bool {
        let Some((line, more)) = split_line(text) else {
            return false;
        };
        self.second = read_format(line);
        self.seen = text.len().saturating_sub(more.len());
        self.second.is_none()
    }

    /// Whether a line that came in may have a fault, where this is the text so far.
    pub fn suspects(&mut self, text: &[u8]) -> Result<bool, AllocError> {
        if self.second.is_none() && self.first(text) {
            return Ok(true);
        }
        let Some(second) = self.second else {
            return Ok(false);
        };
        let Some(left) = text.get(self.seen..) else {
            return Ok(true);
        };
        let mut rest = left;
        'lines: while let Some((line, more)) = split_front(second, rest) {
            let Some(line) = line else {
                return Ok(true);
            };
            if self.next(text, second, &line)? {
                return Ok(true);
            }
            rest = more;
            self.seen = text.len().saturating_sub(more.len());
        }
        Ok(false)
    }
}
