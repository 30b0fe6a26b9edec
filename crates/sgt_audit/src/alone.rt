//! One section judged by itself, whatever the sections before it are: the decisions are lent, and nothing of another
//! section is kept.

ghost use Rattle.std.specs.Prelude.{◌≡◌, ℕ, List, length, IfOk};
ghost use Rattle.sgt_notation.specs.Spelling.{IsLine, line_text};
ghost use Rattle.sgt_audit.specs.Alone.{FollowsAlone, IsReadyAlone, MeetsSteps, StandsAlone};
ghost use Rattle.sgt_audit.specs.Reading.{Begun};

use crate::faults::Fault;
use crate::format::{is_allowed, read_line};
use crate::judging::{judge_line, judge_next_entry};
use crate::known::{Known, look_up_at_hand, look_up_entry};
use crate::place::Place;
use crate::rules::Rules;
use crate::tracked::{enter, enter_line};
use crate::walks::are_met;
use sgt_audit_cells::SiteState;
use sgt_audit_decisions::{Decided, Edge};
use sgt_names::Entry;
use sgt_notation::SectionLine;
use std::alloc::{AllocError, Global};

/// What is kept of the lines of one section, by which the next one is judged.
#[derive(Drop)]
pub struct Alone {
    /// Whether the format is the second.
    pub second: bool,
    pub place: Place,
    pub state: SiteState,
    /// Whether each step of a walk at its site is a conflict in its log, once that is whole.
    pub met: bool,
    /// Where the item of the last entry is listed, if it has one.
    pub latest: usize,
}

impl Alone {
    ghost use Rattle.std.specs.Prelude.{None, IfSome, IsTrue, ◌≢◌, ◌↔◌, ◌<◌};
    ghost use Rattle.sgt_bundle.specs.Certificate.{IsDecidedOnce, AreRanks, ranks};
    ghost use Rattle.sgt_bundle.specs.declared.certificate.Certificate.{Certificate};
    ghost use Rattle.sgt_notation.specs.declared.SectionLine.TheVariants.{Logged};
    ghost use Rattle.sgt_audit.specs.Faults.{IsLineIn};
    ghost use Rattle.sgt_audit.specs.Reading.{IsBegun};
    ghost use Rattle.sgt_audit.specs.private.Known.{IsKnownOf};
    ghost use Rattle.sgt_audit_decisions.specs.declared.steps.Edge.{Edge as AnyEdge};
    ghost use Rattle.sgt_names.specs.declared.entry.Entry.{Entry as AnyEntry};

    /// Before the section of the first of so many sites.
    pub fn new(
        alloc: Global,
        second: bool,
        sites: u8,
        certificate: &Decided,
    ) -> Result<Alone, AllocError>
        ensures ready { sites ≡ certificate.now.sites
            → IfOk result (IsReadyAlone certificate.now 0) }
        ensures second { IfOk result (λ a. a.second ≡ second) }
    {
        Ok(Alone {
            second,
            place: Place::new(alloc, sites),
            state: SiteState::new(alloc, certificate.decisions().len())?,
            met: true,
            latest: 0,
        })
    }

    /// Before the section of this site, which is none before those that were judged.
    pub fn begin(&mut self, site: usize)
        ensures stands { (c : Certificate) (b : Begun) → IsReadyAlone c site self.old
            → IsDecidedOnce c.decisions
            → AreRanks (ranks c.decisions) → IsBegun b
            → b.sites ≡ c.sites → length b.whole ≡ site → b.current ≡ None
            → StandsAlone c b self.new }
        ensures second { self.new.second ≡ self.old.second }
    {
        self.place.whole = site;
        self.place.current = None;
    }

    /// Whether the section of this site was read whole.
    #[inline(always)]
    pub fn is_behind(&self, site: usize) -> bool
        ensures { (c : Certificate) (b : Begun) → StandsAlone c b self.now
            → (IsTrue result ↔ (site < length b.whole)) }
    {
        self.place.whole > site
    }

    /// The next line, which was read already: its least fault, but for the walks. The steps are those at this site. The
    /// entries that are most frequent go ways of their own, on which their kind is known and not asked for again.
    #[inline(always)]
    pub fn next_read(
        &mut self,
        certificate: &Decided,
        edges: &[Edge],
        line: &SectionLine,
    ) -> Result<Option<Fault>, AllocError>
        ensures follows { IsLine line.now → (b : Begun) → StandsAlone certificate.now b self.old
            → IfOk result (FollowsAlone certificate.now edges.now b (line_text line.now) self.new) }
        ensures second { self.new.second ≡ self.old.second }
    {
        match line {
            SectionLine::Logged(entry) => match *entry {
                Entry::Read { tx, item, value } => {
                    self.follow_entry(certificate, Entry::Read { tx, item, value })
                }
                Entry::Write { tx, item, value } => {
                    self.follow_entry(certificate, Entry::Write { tx, item, value })
                }
                Entry::Commit { tx } => self.follow_entry(certificate, Entry::Commit { tx }),
                _ => self.next_line(certificate, edges, *line),
            },
            _ => self.next_line(certificate, edges, *line),
        }
    }

    /// What is known of the entry, where nothing need be searched for and no room need be made for what is kept of it.
    #[inline(always)]
    fn plain(&self, certificate: &Decided, entry: &Entry) -> Option<Known>
        ensures { IfSome result (IsKnownOf certificate.now.decisions self.now.state entry.now) }
    {
        let known = look_up_at_hand(certificate, &self.state, entry)?;
        let number = known.ruling.number?;
        if self.place.current.is_some() && self.state.has_room(number) {
            Some(known)
        } else {
            None
        }
    }

    /// The next line, which is this entry: at once, if that can be.
    #[inline(always)]
    pub(crate) fn follow_entry(
        &mut self,
        certificate: &Decided,
        entry: Entry,
    ) -> Result<Option<Fault>, AllocError>
        ensures follows { let line = Logged entry in
            IsLineIn self.old.second line → (edges : List AnyEdge) (b : Begun)
            → StandsAlone certificate.now b self.old
            → IfOk result (FollowsAlone certificate.now edges b (line_text line) self.new) }
        ensures second { self.new.second ≡ self.old.second }
    {
        match self.plain(certificate, &entry) {
            Some(known) => self.follow_known(&known, &entry, true),
            None => self.follow(certificate, entry),
        }
    }

    /// The same, by way of memory that only this way touches.
    #[inline(never)]
    fn follow(&mut self, certificate: &Decided, entry: Entry) -> Result<Option<Fault>, AllocError>
        ensures follows { let line = Logged entry in
            IsLineIn self.old.second line → (edges : List AnyEdge) (b : Begun)
            → StandsAlone certificate.now b self.old
            → IfOk result (FollowsAlone certificate.now edges b (line_text line) self.new) }
        ensures second { self.new.second ≡ self.old.second }
    {
        let known = look_up_entry(certificate, &self.state, &entry);
        self.follow_known(&known, &entry, false)
    }

    /// The next line, which is this entry, of which this is known, and whether it is plain.
    #[inline(always)]
    fn follow_known(
        &mut self,
        known: &Known,
        entry: &Entry,
        plain: bool,
    ) -> Result<Option<Fault>, AllocError>
        ensures follows { let line = Logged entry.now in
            IsLineIn self.old.second line → (c : Certificate) (edges : List AnyEdge) (b : Begun)
            → IsKnownOf c.decisions self.old.state entry.now known.now → StandsAlone c b self.old
            → IfOk result (FollowsAlone c edges b (line_text line) self.new) }
        ensures second { self.new.second ≡ self.old.second }
    {
        let found = judge_next_entry(Rules::Certified, &self.state, &self.place, known, entry);
        if let Some(fault) = found {
            return Ok(Some(fault));
        }
        enter(&mut self.state, known, entry, plain)?;
        self.place.enter_entry(entry);
        self.latest = known.place.unwrap_or(0);
        Ok(None)
    }

    /// The next line, of a kind that is less frequent, by way of memory that only this way touches.
    #[inline(never)]
    pub(crate) fn next_line(
        &mut self,
        certificate: &Decided,
        edges: &[Edge],
        line: SectionLine,
    ) -> Result<Option<Fault>, AllocError>
        ensures follows { IsLine line → (b : Begun) → StandsAlone certificate.now b self.old
            → IfOk result (FollowsAlone certificate.now edges.now b (line_text line) self.new) }
        ensures second { self.new.second ≡ self.old.second }
    {
        match line {
            SectionLine::Logged(entry) => {
                if !is_allowed(self.second, &SectionLine::Logged(entry)) {
                    return Ok(Some(Fault::Notation));
                }
                match self.plain(certificate, &entry) {
                    Some(known) => self.follow_known(&known, &entry, true),
                    None => self.follow(certificate, entry),
                }
            }
            SectionLine::Initial(holding) => {
                self.follow_other(&SectionLine::Initial(holding), true)
            }
            SectionLine::Final(holding) => self.follow_other(&SectionLine::Final(holding), true),
            SectionLine::Site(site) => self.follow_other(&SectionLine::Site(site), true),
            SectionLine::End => {
                let met = are_met(certificate, &self.state, edges);
                self.follow_other(&SectionLine::End, met)
            }
        }
    }

    /// The next line, which is no entry: nothing is looked up of it. With the section's last line it is known whether
    /// each of the steps is a conflict in its log.
    #[inline(always)]
    pub(crate) fn follow_other(
        &mut self,
        line: &SectionLine,
        met: bool,
    ) -> Result<Option<Fault>, AllocError>
        ensures follows { IsLine line.now → ((e : AnyEntry) → line.now ≢ Logged e) → (c : Certificate)
            (edges : List AnyEdge) (b : Begun) → StandsAlone c b self.old → MeetsSteps edges b.current line.now met
            → IfOk result (FollowsAlone c edges b (line_text line.now) self.new) }
        ensures second { self.new.second ≡ self.old.second }
    {
        if let Some(fault) = judge_line(Rules::Certified, &self.state, &self.place, line, &None) {
            return Ok(Some(fault));
        }
        self.met = met;
        self.place.enter(line)?;
        enter_line(&mut self.state, line, &None)?;
        Ok(None)
    }

    /// The next line, without its LF: its least fault, but for the walks. The steps are those at this site.
    pub fn next(
        &mut self,
        certificate: &Decided,
        edges: &[Edge],
        line: &[u8],
    ) -> Result<Option<Fault>, AllocError>
        ensures follows { (b : Begun) → StandsAlone certificate.now b self.old
            → IfOk result (FollowsAlone certificate.now edges.now b line.now self.new) }
        ensures second { self.new.second ≡ self.old.second }
    {
        match read_line(self.second, line) {
            Some(read) => self.next_line(certificate, edges, read),
            None => Ok(Some(Fault::Notation)),
        }
    }
}
