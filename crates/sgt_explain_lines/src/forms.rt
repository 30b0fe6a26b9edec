//! What is said of a line by itself, or by its place: of line 1, of a line that spells nothing, of the end of the
//! input.

ghost use Rattle.std.specs.Prelude.{◌≡◌, ℕ, ◌-◌, ◌<◌, List, [], ◌++◌, IfNone, IfSome, IsFalse, IsTrue, None, OnOk, Some, codes, string_bytes};
ghost use Rattle.sgt_names.specs.Name.{Name};
ghost use Rattle.sgt_names.specs.declared.entry.Holding.{Holding as AnyHolding};
ghost use Rattle.sgt_notation.specs.Spelling.{IsLine, line_text};
ghost use Rattle.sgt_notation.specs.declared.SectionLine.TheVariants as Line;
ghost use Rattle.sgt_explain_lines.specs.Beside.{ComesBefore, name_at};
ghost use Rattle.sgt_explain_lines.specs.Numbered.{IsLineAt};
ghost use Rattle.sgt_explain_lines.specs.Places.{HasMark, HasUpTo, IsAwaited, IsEndSlip, IsFormatSlip, IsItemRule, IsLineBefore, IsSectionRule, TellsBroken, TellsFormat, TellsLine, TellsMissing, TellsSection};
ghost use Rattle.sgt_explain_lines.specs.Places.{allowed_by, allowed_text, falling_text, initial_in, last_name, next_name, next_site, next_text, no_lf_text, not_there_text, or_next, trailing_head, trailing_rule};
ghost use Rattle.sgt_explain_lines.specs.Slips.{EndsWith, TellsSlip};
ghost use Rattle.sgt_explain_lines.specs.Told.{Adds, ShowsLine, ShowsNumbered};

use crate::input::{line_at, text_at};
use crate::section::{Section, Stated};
use crate::shown::push_numbered;
use crate::slips::{behind_word, last_of, push_slip};
use sgt_names::{Item, MAX_ITEMS, MAX_LINE};
use sgt_notation::{SectionLine, read_section};
use std::alloc::AllocError;
use std::fmt::Write;

fn push_text(out: &mut String, text: &str) -> Result<(), AllocError>
    ensures { OnOk result (string_bytes out.new ≡ string_bytes out.old ++ text.now) }
{
    out.push_str(text)
}

/// The name of a fault, and what it says.
fn push_words(out: &mut String, name: &str, words: &str) -> Result<(), AllocError>
    ensures begins { OnOk result (Adds (string_bytes out.old ++ name.now) (string_bytes out.new)) }
    ensures text { OnOk result (string_bytes out.new ≡ string_bytes out.old ++ (name.now ++ words.now)) }
{
    out.push_str(name)?;
    out.push_str(words)
}

/// Whether the line begins with a byte order mark.
fn has_mark(line: &[u8]) -> bool
    ensures yes { IsTrue result → HasMark line.now }
    ensures no { IsFalse result → HasMark line.now → ⊥ }
{
    match behind_word(line, b"\xef\xbb\xbf") {
        Some(_) => true,
        None => false,
    }
}

/// Why a line with this last byte is no format, where that can be said by it.
fn slip_by_end(line: &[u8], last: u8) -> &'static str
    ensures { EndsWith last line.now → IsEndSlip line.now result.now }
{
    if last == b'\r' {
        return "a CR stands at its end: a line ends with LF alone\n";
    }
    if last == b'}' {
        return "the certificate is line 2: the line before it was left out\n";
    }
    ""
}

/// Why the line is no format, where that can be said.
fn format_slip(line: &[u8]) -> &'static str
    ensures { IsFormatSlip line.now result.now }
{
    if line.len() > MAX_LINE {
        return "it is longer than 1048576 bytes\n";
    }
    let Some(last) = last_of(line) else {
        return "it is empty\n";
    };
    if has_mark(line) {
        return "a byte order mark stands before it: the text begins without one\n";
    }
    slip_by_end(line, last)
}

fn push_format_slip(out: &mut String, line: &[u8]) -> Result<(), AllocError>
    ensures { OnOk result ((told : List ℕ) × IsFormatSlip line.now told
        × (string_bytes out.new ≡ string_bytes out.old ++ told)) }
{
    push_text(out, format_slip(line))
}

/// F1: line 1 is no format.
pub fn push_format(out: &mut String, bytes: &[u8]) -> Result<(), AllocError>
    ensures line { (line : List ℕ) → IsLineAt bytes.now 1 line
        → OnOk result (ShowsLine (codes "Format: ") 1 line (string_bytes out.old) (string_bytes out.new)) }
    ensures text { (line : List ℕ) → IsLineAt bytes.now 1 line
        → OnOk result (TellsFormat line (string_bytes out.old) (string_bytes out.new)) }
{
    push_words(
        out,
        "Format: ",
        "line 1 has to be `sgt 1`, or `sgt 2` where there are increments\n",
    )?;
    let line = text_at(bytes, 1);
    push_numbered(out, 1, line)?;
    push_format_slip(out, line)
}

/// F2: a line spells nothing.
pub fn push_notation(out: &mut String, bytes: &[u8], number: u64) -> Result<(), AllocError>
    ensures line { (line : List ℕ) → IsLineAt bytes.now number line
        → OnOk result (ShowsLine (codes "Notation: ") number line (string_bytes out.old) (string_bytes out.new)) }
    ensures slip { (line : List ℕ) → IsLineAt bytes.now number line
        → OnOk result (TellsSlip number line (string_bytes out.old) (string_bytes out.new)) }
{
    push_words(out, "Notation: ", "this line is none that a section has\n")?;
    let line = text_at(bytes, number);
    push_numbered(out, number, line)?;
    push_slip(out, line)
}

/// The name of the item at this place, if there is one.
fn name_of(items: &[Stated], place: usize) -> Option<Item>
    ensures { result ≡ name_at items.now place }
{
    match items.get(place) {
        Some(stated) => Some(stated.holding.item),
        None => None,
    }
}

/// The name of the next final, where one is wanted.
fn next_final(section: &Section) -> Option<Item>
    ensures { result ≡ next_name section.now }
{
    name_of(section.items.as_slice(), section.finals.as_slice().len())
}

/// The next line behind the entries.
fn push_next_final(out: &mut String, next: Option<Item>) -> Result<(), AllocError>
    ensures { OnOk result (string_bytes out.new ≡ string_bytes out.old ++ next_text next) }
{
    match next {
        Some(item) => write!(out, "`final {item}=..`"),
        None => out.push_str("`end`"),
    }
}

/// These words, and the next line behind the entries.
fn push_or_next(out: &mut String, words: &str, next: Option<Item>) -> Result<(), AllocError>
    ensures { OnOk result (string_bytes out.new ≡ string_bytes out.old ++ or_next words.now next) }
{
    out.push_str(words)?;
    push_next_final(out, next)?;
    out.push_str("\n")
}

/// That the section of the site is over, and the next site.
fn push_next_site(out: &mut String, site: u8, next: u32) -> Result<(), AllocError>
    ensures { OnOk result (string_bytes out.new ≡ string_bytes out.old ++ next_site site next) }
{
    write!(
        out,
        "the section of site {site} is over, and line 2 says more sites: next is `site {next}`\n"
    )
}

/// What may follow the last line, in the section of the site, where that is the next final.
fn push_allowed_by(
    out: &mut String,
    last: &Option<SectionLine>,
    site: u8,
    next: Option<Item>,
) -> Result<(), AllocError>
    ensures { OnOk result (string_bytes out.new ≡ string_bytes out.old
        ++ allowed_by last.now site next) }
{
    match last {
        None => out.push_str("the first section begins with `site 0`\n"),
        Some(SectionLine::End) => push_next_site(out, site, u32::from(site) + 1),
        Some(SectionLine::Site(_) | SectionLine::Initial(_)) => push_or_next(
            out,
            "here may stand: an item of a greater name, an entry, or ",
            next,
        ),
        Some(SectionLine::Logged(_)) => push_or_next(out, "here may stand: an entry, or ", next),
        Some(SectionLine::Final(_)) => push_or_next(out, "here has to stand: ", next),
    }
}

/// What may follow the lines of the section, as a line.
fn push_allowed(out: &mut String, section: &Section) -> Result<(), AllocError>
    ensures { OnOk result (string_bytes out.new ≡ string_bytes out.old ++ allowed_text section.now) }
{
    let site = section.site_number();
    let next = next_final(section);
    push_allowed_by(out, &section.last, site, next)
}

/// That the line has no LF.
fn push_no_lf(out: &mut String, number: u64) -> Result<(), AllocError>
    ensures { OnOk result (string_bytes out.new ≡ string_bytes out.old ++ no_lf_text number) }
{
    write!(out, "line {number} has no LF, so it isn't whole\n")
}

/// That there is no line of this number.
fn push_not_there(out: &mut String, number: u64) -> Result<(), AllocError>
    ensures { OnOk result (string_bytes out.new ≡ string_bytes out.old ++ not_there_text number) }
{
    write!(out, "line {number} isn't there\n")
}

/// The line where the input ends, which has no LF, or that there is none.
fn push_broken_off(out: &mut String, bytes: &[u8], number: u64) -> Result<(), AllocError>
    ensures line { (line : List ℕ) → IsLineAt bytes.now number line
        → OnOk result (ShowsLine [] number line (string_bytes out.old) (string_bytes out.new)) }
    ensures behind { OnOk result (Adds (string_bytes out.old) (string_bytes out.new)) }
    ensures broken { (line : List ℕ) → IsLineAt bytes.now number line
        → OnOk result (TellsLine [] number line (no_lf_text number) (string_bytes out.old) (string_bytes out.new)) }
    ensures missing { HasUpTo bytes.now number
        → OnOk result (string_bytes out.new ≡ string_bytes out.old ++ not_there_text number) }
{
    match line_at(bytes, number) {
        Some(line) => {
            push_numbered(out, number, line)?;
            push_no_lf(out, number)
        }
        None => push_not_there(out, number),
    }
}

/// What the line of this number has to be.
fn push_awaited(out: &mut String, number: u64, section: &Section) -> Result<(), AllocError>
    ensures { OnOk result ((told : List ℕ) × IsAwaited number section.now told
        × (string_bytes out.new ≡ string_bytes out.old ++ told)) }
{
    match number {
        1 => out.push_str("line 1 has to be `sgt 1` or `sgt 2`\n"),
        2 => out.push_str("line 2 has to be the certificate\n"),
        _ => push_allowed(out, section),
    }
}

/// F18: the input ends.
pub fn push_truncated(
    out: &mut String,
    bytes: &[u8],
    number: u64,
    section: &Section,
) -> Result<(), AllocError>
    ensures line { (line : List ℕ) → IsLineAt bytes.now number line
        → OnOk result (ShowsLine (codes "Truncated: ") number line (string_bytes out.old) (string_bytes out.new)) }
    ensures begins { OnOk result (Adds (string_bytes out.old ++ codes "Truncated: ") (string_bytes out.new)) }
    ensures broken { (line : List ℕ) → IsLineAt bytes.now number line
        → OnOk result (TellsBroken number section.now line (string_bytes out.old) (string_bytes out.new)) }
    ensures missing { HasUpTo bytes.now number
        → OnOk result (TellsMissing number section.now (string_bytes out.old) (string_bytes out.new)) }
{
    push_words(
        out,
        "Truncated: ",
        "the input ends before its bundle does\n",
    )?;
    push_broken_off(out, bytes, number)?;
    push_awaited(out, number, section)
}

/// Which line ends the bundle that this line follows.
fn push_trailing_rule(out: &mut String, number: u64) -> Result<(), AllocError>
    ensures { OnOk result (string_bytes out.new ≡ string_bytes out.old ++ trailing_rule number) }
{
    let last = number.saturating_sub(1);
    write!(
        out,
        "line {last} ends the last site that line 2 says: nothing may stand behind it\n"
    )
}

/// F19: more follows the last section.
pub fn push_trailing(out: &mut String, bytes: &[u8], number: u64) -> Result<(), AllocError>
    ensures line { (line : List ℕ) → IsLineAt bytes.now number line
        → OnOk result (ShowsLine (codes "Trailing: ") number line (string_bytes out.old) (string_bytes out.new)) }
    ensures text { (line : List ℕ) → IsLineAt bytes.now number line → OnOk result
        (TellsLine trailing_head number line (trailing_rule number) (string_bytes out.old) (string_bytes out.new)) }
{
    push_words(
        out,
        "Trailing: ",
        "the bundle is over, and more bytes follow\n",
    )?;
    push_numbered(out, number, text_at(bytes, number))?;
    push_trailing_rule(out, number)
}

/// That an item of this name doesn't come behind the last.
fn push_falling(out: &mut String, item: Item, before: Item) -> Result<(), AllocError>
    ensures { OnOk result (string_bytes out.new ≡ string_bytes out.old ++ falling_text item before) }
{
    write!(
        out,
        "the names of items rise by their bytes, and {item} isn't behind {before}\n"
    )
}

/// The name of the last of the items.
fn last_item(items: &[Stated]) -> Option<Item>
    ensures { result ≡ last_name items.now }
{
    name_of(items, items.len().saturating_sub(1))
}

/// The last of the items, if the name doesn't come behind it.
fn not_behind(items: &[Stated], item: Item) -> Option<Item>
    ensures some { IfSome result (λ y. (last_name items.now ≡ Some y) × (ComesBefore y item → ⊥)) }
    ensures none { IfNone result ((y : Name) → last_name items.now ≡ Some y → ComesBefore y item) }
{
    let last = last_item(items)?;
    if last < item { None } else { Some(last) }
}

/// Why an item's line isn't allowed where an item may stand.
fn push_item_rule(out: &mut String, items: &[Stated], item: Item) -> Result<(), AllocError>
    ensures { OnOk result ((told : List ℕ) × IsItemRule items.now item told
        × (string_bytes out.new ≡ string_bytes out.old ++ told)) }
{
    if items.len() >= MAX_ITEMS {
        return out.push_str("a site has at most 1024 items\n");
    }
    match not_behind(items, item) {
        Some(last) => push_falling(out, item, last),
        None => out.push_str(""),
    }
}

/// The line before the one of this number, where it is one of a section.
fn push_line_before(out: &mut String, bytes: &[u8], number: u64) -> Result<(), AllocError>
    ensures line { (line : List ℕ) → 3 < number → IsLineAt bytes.now (number - 1) line
        → OnOk result (ShowsNumbered (number - 1) line (string_bytes out.old) (string_bytes out.new)) }
    ensures behind { OnOk result (Adds (string_bytes out.old) (string_bytes out.new)) }
    ensures text { OnOk result ((told : List ℕ) × IsLineBefore bytes.now number told
        × (string_bytes out.new ≡ string_bytes out.old ++ told)) }
{
    let before = number.saturating_sub(1);
    if before > 2 {
        push_numbered(out, before, text_at(bytes, before))
    } else {
        push_text(out, "")
    }
}

fn initial_item(line: &SectionLine) -> Option<Item>
    ensures { result ≡ initial_in line.now }
{
    match line {
        SectionLine::Initial(holding) => Some(holding.item),
        _ => None,
    }
}

/// The name of the item, if the line is an item's.
fn item_in(line: &[u8]) -> Option<Item>
    ensures some { IfSome result (λ x. (h : AnyHolding) × IsLine (Line.Initial h)
        × (line.now ≡ line_text (Line.Initial h)) × (x ≡ h.item)) }
    ensures none { IfNone result ((h : AnyHolding) → IsLine (Line.Initial h) → line.now ≡ line_text (Line.Initial h)
        → ⊥) }
{
    match read_section(line) {
        Ok(read) => initial_item(&read),
        Err(_) => None,
    }
}

/// Why an item of this name isn't allowed, and what may stand there.
fn push_item_rules(out: &mut String, section: &Section, item: Item) -> Result<(), AllocError>
    ensures { OnOk result ((rule : List ℕ) × IsItemRule section.now.items.items item rule
        × (string_bytes out.new ≡ string_bytes out.old ++ (rule ++ allowed_text section.now))) }
{
    push_item_rule(out, section.items.as_slice(), item)?;
    push_allowed(out, section)
}

/// Why the section doesn't allow the line, and what may stand there.
fn push_section_rule(out: &mut String, section: &Section, line: &[u8]) -> Result<(), AllocError>
    ensures { OnOk result ((told : List ℕ) × IsSectionRule section.now line.now told
        × (string_bytes out.new ≡ string_bytes out.old ++ told)) }
{
    match item_in(line) {
        Some(item) => push_item_rules(out, section, item),
        None => push_allowed(out, section),
    }
}

/// F7: a line that the section doesn't allow.
pub fn push_section(
    out: &mut String,
    bytes: &[u8],
    number: u64,
    section: &Section,
) -> Result<(), AllocError>
    ensures line { (line : List ℕ) → IsLineAt bytes.now number line
        → OnOk result (ShowsLine (codes "Section: ") number line (string_bytes out.old) (string_bytes out.new)) }
    ensures before { (line : List ℕ) → 3 < number → IsLineAt bytes.now (number - 1) line
        → OnOk result (ShowsLine (codes "Section: ") (number - 1) line (string_bytes out.old) (string_bytes out.new)) }
    ensures text { (line : List ℕ) → IsLineAt bytes.now number line
        → OnOk result (TellsSection bytes.now number section.now line (string_bytes out.old) (string_bytes out.new)) }
{
    push_words(
        out,
        "Section: ",
        "the section doesn't allow this line here\n",
    )?;
    push_line_before(out, bytes, number)?;
    let line = text_at(bytes, number);
    push_numbered(out, number, line)?;
    push_section_rule(out, section, line)
}
