//! The lines of logs without a certificate, kept for the search. They aren't judged.

use sgt_certify_history::{History, Logs, Named, said_by};
use sgt_names::{Entry, Holding, Item, SiteNo};
use sgt_notation::SectionLine;
use std::alloc::{AllocError, Global};

/// The section that is open.
#[derive(Clone, Copy)]
struct Section {
    site: SiteNo,
    /// The number of its first item.
    first: usize,
}

/// How many slots names have: twice as many as a section may have items.
const SLOTS: usize = 2048;

/// The slot of a name.
fn slot_of(item: &Item) -> usize {
    let spread = item.key().wrapping_mul(0x9E37_79B9_7F4A_7C15);
    (spread >> 53) as usize
}

/// The lines so far.
#[derive(Drop)]
pub struct Reader {
    logs: Logs,
    open: Option<Section>,
    /// In each slot which item of its section was listed last, of those whose names have it.
    slots: Vec<u16>,
    line: usize,
}

impl Reader {
    /// Behind the first line of a text of so many bytes.
    pub fn new(alloc: Global, bytes: usize) -> Result<Reader, AllocError> {
        Ok(Reader {
            logs: Logs::new(alloc, bytes)?,
            open: None,
            slots: vec![in alloc; 0u16; SLOTS]?,
            line: 1,
        })
    }

    /// What the logs say.
    pub fn finish(self) -> Result<History, AllocError> {
        let Reader { logs, .. } = self;
        logs.finish()
    }

    /// The next line. Whether there is a place for it.
    pub fn next(&mut self, line: &SectionLine) -> Result<bool, AllocError> {
        self.line = self.line.saturating_add(1);
        match line {
            SectionLine::Site(site) => self.begin(*site),
            SectionLine::Initial(holding) => self.list(holding),
            SectionLine::Logged(entry) => self.log(entry),
            SectionLine::Final(_) => Ok(true),
            SectionLine::End => {
                self.open = None;
                Ok(true)
            }
        }
    }

    /// The next line, where it is an entry's. Whether it is, and there is a place for it.
    #[inline(always)]
    pub fn next_entry(&mut self, line: &SectionLine) -> Result<bool, AllocError> {
        self.line = self.line.saturating_add(1);
        match line {
            SectionLine::Logged(entry) => self.log(entry),
            _ => Ok(false),
        }
    }

    /// A section begins, of the site that is next.
    fn begin(&mut self, site: SiteNo) -> Result<bool, AllocError> {
        if site.number() as usize != self.logs.sections() {
            return Ok(false);
        }
        self.logs.begin()?;
        self.open = Some(Section {
            site,
            first: self.logs.items.len(),
        });
        Ok(true)
    }

    /// An item of the open section.
    fn list(&mut self, holding: &Holding) -> Result<bool, AllocError> {
        let Some(section) = self.open else {
            return Ok(false);
        };
        let place = self.logs.items.len().saturating_sub(section.first);
        self.logs.list(section.site, holding.item)?;
        if let (Some(slot), Ok(place)) = (
            self.slots.get_mut(slot_of(&holding.item)),
            u16::try_from(place),
        ) {
            *slot = place;
        }
        Ok(true)
    }

    /// The place of the item among these, if it is the one of its slot.
    fn guess(&self, here: &[Named], item: &Item) -> Option<usize> {
        let place = usize::from(*self.slots.get(slot_of(item))?);
        match here.get(place) {
            Some(named) if named.item == *item => Some(place),
            _ => None,
        }
    }

    /// The number of the item, if it is one of those of the section that begin here.
    #[inline(always)]
    fn find(&self, first: usize, item: &Item) -> Option<usize> {
        let here = self.logs.items.as_slice().get(first..)?;
        if let Some(place) = self.guess(here, item) {
            return Some(first.saturating_add(place));
        }
        let at = here.partition_point(|other| other.item < *item);
        match here.get(at) {
            Some(other) if other.item == *item => Some(first.saturating_add(at)),
            _ => None,
        }
    }

    /// An operation on an item of the open section, or an end.
    #[inline(always)]
    fn log(&mut self, entry: &Entry) -> Result<bool, AllocError> {
        let Some(section) = self.open else {
            return Ok(false);
        };
        let said = said_by(entry);
        match said.operation {
            Some((item, act)) => match self.find(section.first, &item) {
                Some(item) => self.logs.add_operation(&said, act, item, self.line),
                None => Ok(false),
            },
            None => self.logs.add_end(&said, self.line),
        }
    }
}
