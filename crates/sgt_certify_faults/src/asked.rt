//! The kinds of end that the transactions of a text of logs ask for.

ghost use Rattle.std.specs.Prelude.{◌≡◌, ◌∷◌, ◌++◌, [], List, IfOk, OnOk, Some, map, slice_get, slice_set};
ghost use Rattle.std.specs.List.{filter_map};
ghost use Rattle.sgt_names.specs.declared.entry.Entry.{Entry};
ghost use Rattle.sgt_audit.specs.Faults.{logged_in};
ghost use Rattle.sgt_certify_faults.specs.declared.asked.Asking.{Asking};
ghost use Rattle.sgt_certify_faults.specs.private.Asked.{asked_end, asking_with, AreAskings, IsAskedIn, AreDecidedAsAsked, decision_of};

use crate::lines::split_read;
use sgt_audit_decisions::Decided;
use sgt_bundle::{Certificate, Decision, Walk};
use sgt_names::{Entry, Listed, Tx};
use sgt_notation::SectionLine;
use std::alloc::{AllocError, Global};
use std::collections::BTreeMap;

/// A kind of end.
#[derive(Clone, Copy, PartialEq, Eq)]
pub enum Asked {
    Commit,
    Refusal,
    Withdrawal,
}

/// A transaction, and the kind of end that its entries ask for first, if one asks.
#[derive(Clone, Copy)]
pub struct Asking {
    pub tx: Tx,
    pub end: Option<Asked>,
}

/// The transactions of some entries, each once, and where each stands.
#[derive(Drop)]
pub struct Askings {
    numbers: BTreeMap<Tx, usize>,
    list: Vec<Asking>,
}

/// The kind of end that an entry asks for. A read asks for none.
pub fn asked_by(entry: &Entry) -> Option<Asked>
    ensures { result ≡ asked_end entry.now }
{
    match entry {
        Entry::Read { .. } => None,
        Entry::Write { .. } | Entry::Add { .. } | Entry::Commit { .. } => Some(Asked::Commit),
        Entry::Want { .. } | Entry::WantAdd { .. } | Entry::Refuse { .. } => Some(Asked::Refusal),
        Entry::Withdraw { .. } => Some(Asked::Withdrawal),
    }
}

impl Asking {
    /// The same, behind one more entry of the transaction.
    fn with(self, entry: &Entry) -> Asking
        ensures { result ≡ asking_with self entry.now }
    {
        match self.end {
            Some(_) => self,
            None => Asking {
                tx: self.tx,
                end: asked_by(entry),
            },
        }
    }

    /// A decision of the kind that is asked for first.
    fn decision(&self, alloc: Global) -> Result<Decision, AllocError>
        ensures { IfOk result (λ decision. decision ≡ decision_of self.now) }
    {
        let tx = self.tx;
        match self.end {
            Some(Asked::Commit) => Ok(Decision::Commit { tx, rank: 0 }),
            Some(Asked::Refusal) => Ok(Decision::Refuse {
                tx,
                walk: Walk::from_vec(alloc, Vec::new(alloc))?,
            }),
            Some(Asked::Withdrawal) | None => Ok(Decision::Withdraw { tx }),
        }
    }
}

/// One more entry of the transaction that stands at this place.
fn note_again(list: &mut [Asking], number: usize, entry: &Entry)
    ensures { (k : Asking) → slice_get list.old number ≡ Some k
        → list.new ≡ slice_set list.old number (asking_with k entry.now) }
{
    if number < list.len() {
        list[number] = list[number].with(entry);
    }
}

impl Askings {
    /// Those of no entry.
    fn new(alloc: Global) -> Askings
        ensures { AreAskings [] result }
    {
        Askings {
            numbers: BTreeMap::new(alloc),
            list: Vec::new(alloc),
        }
    }

    /// One more entry.
    fn add(&mut self, entry: &Entry) -> Result<(), AllocError>
        ensures { OnOk result
            ((entries : List Entry) → AreAskings entries self.old
            → AreAskings (entries ++ entry.now ∷ []) self.new) }
    {
        let tx = entry.tx();
        if let Some(number) = self.numbers.get(&tx) {
            note_again(self.list.as_mut_slice(), *number, entry);
            return Ok(());
        }
        let number = self.list.as_slice().len();
        self.numbers.insert(tx, number)?;
        self.list.push(Asking {
            tx,
            end: asked_by(entry),
        })?;
        Ok(())
    }

    /// One more line.
    fn add_line(&mut self, line: &SectionLine) -> Result<(), AllocError>
        ensures { OnOk result ((entries : List Entry) → AreAskings entries self.old
            → AreAskings (entries ++ filter_map logged_in (line.now ∷ [])) self.new) }
    {
        match line {
            SectionLine::Logged(entry) => self.add(entry),
            _ => Ok(()),
        }
    }

    /// A decision on each transaction.
    fn decisions(&self, alloc: Global) -> Result<Vec<Decision>, AllocError>
        ensures { IfOk result (λ decisions. decisions.items ≡ map decision_of self.now.list.items) }
    {
        let mut decisions = Vec::new(alloc);
        for asking in self.list.as_slice() {
            decisions.push(asking.decision(alloc)?)?;
        }
        Ok(decisions)
    }
}

/// The transactions of the lines at the front of the bytes, as far as these are lines of the format.
fn askings_of(alloc: Global, second: bool, bytes: &[u8]) -> Result<Askings, AllocError>
    ensures { IfOk result (IsAskedIn second bytes.now) }
{
    let mut askings = Askings::new(alloc);
    let mut rest = bytes;
    'lines: while let Some((line, behind)) = split_read(second, rest) {
        askings.add_line(&line)?;
        rest = behind;
    }
    Ok(askings)
}

/// A decision on each transaction of the lines at the front of the bytes, of the kind that its entries ask for first.
pub fn decided_as_asked(alloc: Global, second: bool, bytes: &[u8]) -> Result<Decided, AllocError>
    ensures { IfOk result (λ decided. AreDecidedAsAsked second bytes.now decided.decisions) }
{
    let askings = askings_of(alloc, second, bytes)?;
    let certificate = Certificate {
        sites: 1,
        decisions: Listed::new(askings.decisions(alloc)?),
    };
    match Decided::new(alloc, certificate)? {
        Some(decided) => Ok(decided),
        None => unreachable!(),
    }
}
