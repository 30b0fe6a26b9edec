//! Where the next line of the sections stands: what is kept of the lines before it, by which it is told whether it
//! may stand there.

ghost use Rattle.std.specs.Prelude.{◌≡◌, ◌-◌, ◌↔◌, [], ◌∷◌, ◌++◌, IsTrue, OnOk, Some, None, length, slice_get};
ghost use Rattle.std.specs.Option.{ForSome};
ghost use Rattle.sgt_bundle.specs.Parts.{ComesBefore};
ghost use Rattle.sgt_bundle.specs.Text.{Begins, AreSections};
ghost use Rattle.sgt_bundle.specs.declared.bundle.SiteLog.{SiteLog};
ghost use Rattle.sgt_audit.specs.Kept.{IsOpenPlace, IsPlace, last_of};
ghost use Rattle.sgt_audit.specs.Reading.{Begun, IsBegun, IsOpenLog, lines_read};
ghost use Rattle.sgt_audit.specs.private.Following.{Fits, FitsAt, MayFollow, with_line, with_next};

use sgt_names::{Entry, Item, MAX_ITEMS, Tx};
use sgt_notation::SectionLine;
use std::alloc::{AllocError, Global};

/// What is kept of the entry that was read last.
#[derive(Clone, Copy)]
pub enum Last {
    /// There is none.
    NoEntry,
    /// It leaves no block open.
    Shut,
    /// This transaction's changes may go on behind it, or its commit follows.
    Changes(Tx),
    /// What this transaction asks for may go on behind it, or its refusal follows.
    Wants(Tx),
}

/// What is kept of the entry.
#[inline(always)]
fn last_of(entry: &Entry) -> Last
    ensures { result ≡ last_of (Some entry.now) }
{
    match *entry {
        Entry::Write { tx, .. } | Entry::Add { tx, .. } => Last::Changes(tx),
        Entry::Want { tx, .. } | Entry::WantAdd { tx, .. } => Last::Wants(tx),
        _ => Last::Shut,
    }
}

/// What is kept of the lines of the open section: its items, what the entry that was read last asks of the next, and
/// how many finals there are.
#[derive(Drop)]
pub struct OpenPlace {
    pub items: Vec<Item>,
    pub last: Last,
    pub finals: usize,
}

/// Whether the last of the items, if there is one, comes before this one.
fn come_before(items: &[Item], item: &Item) -> bool
    ensures { IsTrue result
        ↔ ForSome (slice_get items.now (length items.now - 1)) (λ x. ComesBefore x item.now) }
{
    match items.last() {
        Some(last) => *last < *item,
        None => true,
    }
}

impl OpenPlace {
    /// Whether the line may stand next.
    #[inline(always)]
    pub(crate) fn has_room_for(&self, line: &SectionLine) -> bool
        ensures { IsTrue result ↔ FitsAt self.now line.now }
    {
        match line {
            SectionLine::Site(_) => false,
            SectionLine::Initial(holding) => {
                matches!(self.last, Last::NoEntry)
                    && self.finals == 0
                    && self.items.len() < MAX_ITEMS
                    && come_before(self.items.as_slice(), &holding.item)
            }
            SectionLine::Logged(_) => self.finals == 0,
            SectionLine::Final(holding) => match self.items.get(self.finals) {
                Some(item) => *item == holding.item,
                None => false,
            },
            SectionLine::End => self.finals == self.items.len(),
        }
    }

    /// One more line.
    #[inline(always)]
    fn enter(&mut self, line: &SectionLine) -> Result<(), AllocError>
        ensures { OnOk result ((log : SiteLog) → IsOpenLog log → Fits log line.now
            → IsOpenPlace log self.old → IsOpenPlace (with_line log line.now) self.new) }
    {
        match line {
            SectionLine::Initial(holding) => {
                self.items.push(holding.item)?;
                Ok(())
            }
            SectionLine::Logged(entry) => {
                self.last = last_of(entry);
                Ok(())
            }
            SectionLine::Final(_) => {
                self.finals = self.finals.saturating_add(1);
                Ok(())
            }
            SectionLine::Site(_) => Ok(()),
            SectionLine::End => Ok(()),
        }
    }
}

/// What is kept of the lines of sections: of how many sites they are to be, how many sections are whole, and the open
/// one.
#[derive(Drop)]
pub struct Place {
    pub alloc: Global,
    pub sites: u8,
    pub whole: usize,
    pub current: Option<OpenPlace>,
}

impl Place {
    ghost use Rattle.sgt_names.specs.declared.entry.Entry.{Entry as AnyEntry};
    ghost use Rattle.sgt_notation.specs.declared.SectionLine.TheVariants.{Logged};

    /// Before the first section, of so many sites.
    pub fn new(alloc: Global, sites: u8) -> Place
        ensures { (b : Begun) → b ≡ record { sites = sites; whole = []; current = None }
            → IsPlace b result }
    {
        Place {
            alloc,
            sites,
            whole: 0,
            current: None,
        }
    }

    /// Whether all sections were read, and none is open.
    #[inline(always)]
    pub fn is_complete(&self) -> bool
        ensures { (b : Begun) → IsBegun b → IsPlace b self.now
            → (IsTrue result ↔ AreSections b.sites (lines_read b)) }
    {
        match &self.current {
            Some(_) => false,
            None => self.whole == self.sites as usize,
        }
    }

    /// Whether some sections begin with the lines that were read and this one.
    #[inline(always)]
    pub fn may_go_on(&self, line: &SectionLine) -> bool
        ensures { (b : Begun) → IsBegun b → IsPlace b self.now
            → (IsTrue result ↔ Begins b.sites (lines_read b ++ line.now ∷ [])) }
    {
        match &self.current {
            Some(here) => here.has_room_for(line),
            None => match line {
                SectionLine::Site(site) => {
                    site.number() as usize == self.whole && site.number() < self.sites
                }
                _ => false,
            },
        }
    }

    /// Whether some sections begin with the lines that were read and an entry.
    #[inline(always)]
    pub(crate) fn takes_entries(&self) -> bool
        ensures { (b : Begun) (e : AnyEntry) → IsBegun b → IsPlace b self.now
            → (IsTrue result ↔ Begins b.sites (lines_read b ++ Logged e ∷ [])) }
    {
        match &self.current {
            Some(here) => here.finals == 0,
            None => false,
        }
    }

    /// One more line, which is this entry.
    #[inline(always)]
    pub(crate) fn enter_entry(&mut self, entry: &Entry)
        ensures { (b : Begun) → IsBegun b → MayFollow b b.current (Logged entry.now)
            → IsPlace b self.old → IsPlace (with_next b b.current (Logged entry.now)) self.new }
    {
        if let Some(here) = &mut self.current {
            here.last = last_of(entry);
        }
    }

    /// One more line.
    #[inline(always)]
    pub fn enter(&mut self, line: &SectionLine) -> Result<(), AllocError>
        ensures { OnOk result ((b : Begun) → IsBegun b → MayFollow b b.current line.now
            → IsPlace b self.old → IsPlace (with_next b b.current line.now) self.new) }
    {
        match &mut self.current {
            None => {
                self.current = Some(OpenPlace {
                    items: Vec::new(self.alloc),
                    last: Last::NoEntry,
                    finals: 0,
                });
                Ok(())
            }
            Some(here) => match line {
                SectionLine::End => {
                    self.whole = self.whole.saturating_add(1);
                    self.current = None;
                    Ok(())
                }
                _ => here.enter(line),
            },
        }
    }
}
