//! What the lines of a section say, up to a line of it.

ghost use Rattle.std.specs.Prelude.{◌≡◌, ℕ, List, ◌∷◌, [], Some, None, IfOk, OnOk, unwrap_or};
ghost use Rattle.sgt_notation.specs.Spelling.{line_text, IsLine};
ghost use Rattle.sgt_notation.specs.Reading.{SpellsNone};
ghost use Rattle.sgt_notation.specs.declared.SectionLine.{SectionLine};
ghost use Rattle.sgt_explain_lines.specs.Numbered.{HasLine, IsSectionOf, HasOneMore, entry_in, site_behind};

use crate::input::{after_line, cut_line};
use sgt_names::{Entry, Holding, SiteNo};
use sgt_notation::{SectionLine, read_section};
use std::alloc::{AllocError, Global};

/// An entry with the number of its line.
#[derive(Clone, Copy)]
pub struct Logged {
    pub line: u64,
    pub entry: Entry,
}

/// An item with a value, and the number of the line that says so.
#[derive(Clone, Copy)]
pub struct Stated {
    pub line: u64,
    pub holding: Holding,
}

/// The section that is open before a line: its site, if there is one, and what was said of it; and the line before.
#[derive(Drop)]
pub struct Section {
    pub site: Option<SiteNo>,
    pub items: Vec<Stated>,
    pub entries: Vec<Logged>,
    pub finals: Vec<Stated>,
    pub last: Option<SectionLine>,
}

impl Section {
    /// Before the first section.
    fn new(alloc: Global) -> Section
        ensures { IsSectionOf [] result }
    {
        Section {
            site: None,
            items: Vec::new(alloc),
            entries: Vec::new(alloc),
            finals: Vec::new(alloc),
            last: None,
        }
    }

    /// A section begins.
    fn begin(&mut self, site: SiteNo)
        ensures site { self.new.site ≡ Some site }
        ensures items { self.new.items.items ≡ [] }
        ensures entries { self.new.entries.items ≡ [] }
        ensures finals { self.new.finals.items ≡ [] }
    {
        self.site = Some(site);
        self.items.clear();
        self.entries.clear();
        self.finals.clear();
    }

    /// One more line.
    fn add(&mut self, line: u64, read: SectionLine) -> Result<(), AllocError>
        ensures { OnOk result (HasOneMore self.old self.new line read) }
    {
        match &read {
            SectionLine::Site(site) => self.begin(*site),
            SectionLine::Initial(holding) => self.items.push(Stated {
                line,
                holding: *holding,
            })?,
            SectionLine::Logged(entry) => self.entries.push(Logged {
                line,
                entry: *entry,
            })?,
            SectionLine::Final(holding) => self.finals.push(Stated {
                line,
                holding: *holding,
            })?,
            SectionLine::End => {}
        }
        self.last = Some(read);
        Ok(())
    }

    /// What one more line says. A line that spells nothing is left out.
    fn add_text(&mut self, line: u64, text: &[u8]) -> Result<(), AllocError>
        ensures { OnOk result ((read : SectionLine) → IsLine read → text.now ≡ line_text read
            → HasOneMore self.old self.new line read) }
    {
        match read_section(text) {
            Ok(read) => self.add(line, read),
            Err(_) => Ok(()),
        }
    }

    /// The number of the site, 0 where none was begun.
    pub fn site_number(&self) -> u8
        ensures { result ≡ unwrap_or self.now.site 0 }
    {
        match self.site {
            Some(site) => site.number(),
            None => 0,
        }
    }
}

/// The section that is open before the line of this number: what its lines say, from line 3 on. Lines that spell
/// nothing are left out.
pub fn section_before(alloc: Global, bytes: &[u8], number: u64) -> Result<Section, AllocError>
    ensures { IfOk result (λ s. (before : List SectionLine) (line : SectionLine) → HasLine bytes.now number before line
        → IsSectionOf before s) }
{
    let mut section = Section::new(alloc);
    let mut rest = after_line(bytes, 2);
    for line in 3..number {
        let (text, behind) = cut_line(rest);
        section.add_text(line, text)?;
        rest = behind;
    }
    Ok(section)
}

/// What the line of this number spells as a line of a section.
pub fn section_line_at(bytes: &[u8], number: u64) -> Option<SectionLine>
    ensures { (before : List SectionLine) (line : SectionLine) → HasLine bytes.now number before line
        → result ≡ Some line }
{
    let (text, _) = cut_line(after_line(bytes, number.saturating_sub(1)));
    match read_section(text) {
        Ok(read) => Some(read),
        Err(_) => None,
    }
}

/// The entry that the line spells, if it is an entry's. Where it begins a section, the site becomes that of the
/// section.
pub fn entry_of(site: &mut u8, text: &[u8]) -> Option<Entry>
    ensures spelled { (read : SectionLine) → IsLine read → text.now ≡ line_text read
        → (result ≡ entry_in read) × (site.new ≡ site_behind site.old read) }
    ensures none { SpellsNone IsLine line_text text.now → (result ≡ None) × (site.new ≡ site.old) }
{
    let Ok(read) = read_section(text) else {
        return None;
    };
    match &read {
        SectionLine::Site(begun) => {
            *site = begun.number();
            None
        }
        SectionLine::Logged(entry) => Some(*entry),
        _ => None,
    }
}
