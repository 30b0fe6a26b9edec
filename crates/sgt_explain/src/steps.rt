//! What is shown of a step of a walk that is no conflict of the logs.

ghost use Rattle.std.specs.Prelude.{◌≡◌, ◌↔◌, ◌≤◌, ◌<◌, ◌-◌, ◌∷◌, ◌++◌, [], ℕ, List, Option, Some, IfOk, OnOk, IfSome, IfNone, IsSome, IsSomeAnd, IsTrue, string_bytes};
ghost use Rattle.sgt_notation.specs.Spelling.{line_text, IsLine};
ghost use Rattle.sgt_notation.specs.declared.SectionLine.{SectionLine};
ghost use Rattle.sgt_audit.specs.Faults.{FirstFault, bytes_of};
ghost use Rattle.sgt_audit.specs.declared.faults.Fault.TheVariants.{WalkStep};
ghost use Rattle.sgt_audit.specs.declared.verdict.Verdict.TheVariants.{No};
ghost use Rattle.sgt_explain_lines.specs.Numbered.{HasLine, with_site};
ghost use Rattle.sgt_explain_steps.specs.Told.{walk_step_text};
ghost use Rattle.sgt_explain.specs.Explained.{Tells};
ghost use Rattle.sgt_explain.specs.Shown.{lines_before, decisions_before};
ghost use Rattle.sgt_explain.specs.Steps.{IsOpenAt, EndsAt, NoneEnds, EndsNowhere, IsWhole, IsUnmetStep, IsStepThere, ShowsStep};

use crate::shown::{certificate_of, text_before};
use sgt_explain_decisions::{sought_in, unmet_in};
use sgt_explain_lines::{Section, after_line, cut_line, section_before, section_line_at};
use sgt_explain_steps::{Unmet, push_walk_step, step_at, with_entries};
use sgt_names::SiteNo;
use sgt_notation::{SectionLine, read_section};
use std::alloc::{AllocError, Global};

fn is_end(line: &SectionLine) -> bool
    ensures { IsTrue result ↔ line.now ≡ SectionLine.End }
{
    matches!(line, SectionLine::End)
}

/// Whether the section of the site is open behind a line, where it was or was not before that.
fn is_open_behind(line: &SectionLine, site: SiteNo, was_open: bool) -> bool
    ensures { (opened : Option ℕ) → IsOpenAt was_open opened site
        → IsOpenAt result (with_site opened line.now) site }
{
    match line {
        SectionLine::Site(begun) => *begun == site,
        _ => was_open,
    }
}

/// Whether a line ends the section of the site, and whether that section is open behind the line.
/// A line that spells nothing changes nothing.
fn pass(text: &[u8], site: SiteNo, was_open: bool) -> (bool, bool)
    ensures ends { (read : SectionLine) → IsLine read → text.now ≡ line_text read
        → (IsTrue result.0 ↔ (read ≡ SectionLine.End) × IsTrue was_open) }
    ensures opens { (read : SectionLine) → IsLine read → text.now ≡ line_text read
        → (opened : Option ℕ) → IsOpenAt was_open opened site
        → IsOpenAt result.1 (with_site opened read) site }
{
    match read_section(text) {
        Ok(read) => (
            was_open && is_end(&read),
            is_open_behind(&read, site, was_open),
        ),
        Err(_) => (false, was_open),
    }
}

/// The number of the first line before this one that ends the section of the site, else of this one.
fn end_of(bytes: &[u8], number: u64, site: SiteNo) -> u64
    ensures low { 3 ≤ number → 3 ≤ result }
    ensures high { result ≤ number }
    ensures ends { (before : List SectionLine) (line : SectionLine)
        → HasLine bytes.now number before line → result < number → EndsAt before site (result - 3) }
    ensures first { (before : List SectionLine) (line : SectionLine)
        → HasLine bytes.now number before line → NoneEnds before site (result - 3) }
{
    let mut rest = after_line(bytes, 2);
    let mut is_open = false;
    for line in 3..number {
        let (text, behind) = cut_line(rest);
        let (ends, opens) = pass(text, site, is_open);
        if ends {
            return line;
        }
        is_open = opens;
        rest = behind;
    }
    number
}

fn is_of(section: &Section, site: SiteNo) -> bool
    ensures { IsTrue result ↔ section.now.site ≡ Some site }
{
    match section.site {
        Some(begun) => begun == site,
        None => false,
    }
}

/// Whether the line ends the section, and that is the site's.
fn is_end_of(line: &SectionLine, section: &Section, site: SiteNo) -> bool
    ensures { IsTrue result ↔ (line.now ≡ SectionLine.End) × (section.now.site ≡ Some site) }
{
    is_end(line) && is_of(section, site)
}

/// The section of the site, whole, where it ends at the line of this number or before.
fn whole_section(
    alloc: Global,
    bytes: &[u8],
    number: u64,
    site: SiteNo,
) -> Result<Option<Section>, AllocError>
    ensures some { IfOk result
        (λ found. (before : List SectionLine) (line : SectionLine)
        → HasLine bytes.now number before line
        → IfSome found (IsWhole (before ++ line ∷ []) site)) }
    ensures none { IfOk result
        (λ found. (before : List SectionLine) (line : SectionLine)
        → HasLine bytes.now number before line
        → IfNone found (EndsNowhere (before ++ line ∷ []) site)) }
{
    let end = end_of(bytes, number, site);
    let section = section_before(alloc, bytes, end)?;
    let Some(line) = section_line_at(bytes, end) else {
        return Ok(None);
    };
    if is_end_of(&line, &section, site) {
        return Ok(Some(section));
    }
    Ok(None)
}

/// The first step of a walk of the certificate that the lines before this one don't show.
fn unmet_step(alloc: Global, bytes: &[u8], number: u64) -> Result<Option<Unmet>, AllocError>
    ensures { (first : FirstFault bytes.now number WalkStep) → IfOk result (λ found.
        IsSomeAnd found
        (IsUnmetStep (decisions_before first.stage) (lines_before first.stage))) }
{
    let Some(certificate) = certificate_of(alloc, bytes)? else {
        return Ok(None);
    };
    let decisions = certificate.decisions();
    let sought = sought_in(alloc, decisions, text_before(bytes, number))?;
    let Some((decision, place)) = unmet_in(decisions, &sought) else {
        return Ok(None);
    };
    Ok(step_at(decisions, decision, place))
}

/// The step with its entries in the section of its site, where they have no conflict of the step. A
/// certificate names no site that its bundle has no section of, so each step has one at the end of
/// the last section.
fn step_there(
    alloc: Global,
    bytes: &[u8],
    number: u64,
    unmet: &Unmet,
) -> Result<Option<Unmet>, AllocError>
    ensures some { (first : FirstFault bytes.now number WalkStep)
        → IsUnmetStep (decisions_before first.stage) (lines_before first.stage) unmet.now
        → IfOk result IsSome }
    ensures there { IfOk result
        (λ found. (before : List SectionLine) (line : SectionLine)
        → HasLine bytes.now number before line
        → IfSome found (IsStepThere (before ++ line ∷ []) unmet.now)) }
{
    let found = whole_section(alloc, bytes, number, unmet.step.label.site)?;
    match found {
        Some(section) => Ok(with_entries(unmet, section.entries.as_slice())),
        None => Ok(None),
    }
}

/// F17: the first step of a walk that is no conflict of the logs.
fn step_shown(alloc: Global, bytes: &[u8], number: u64) -> Result<Option<Unmet>, AllocError>
    ensures { (first : FirstFault bytes.now number WalkStep) → IfOk result (λ found.
        IsSomeAnd found (ShowsStep (decisions_before first.stage) (lines_before first.stage)
        (bytes_of first.next))) }
{
    let found = unmet_step(alloc, bytes, number)?;
    match found {
        Some(unmet) => step_there(alloc, bytes, number, &unmet),
        None => Ok(None),
    }
}

fn push_step_shown(out: &mut String, found: &Option<Unmet>) -> Result<(), AllocError>
    ensures { OnOk result
        (IfSome found.now (λ u. string_bytes out.new ≡ string_bytes out.old ++ walk_step_text u)) }
{
    match found {
        Some(shown) => push_walk_step(out, shown),
        None => Ok(()),
    }
}

/// F17, in words.
pub fn push_unmet_step(
    alloc: Global,
    out: &mut String,
    bytes: &[u8],
    number: u64,
) -> Result<(), AllocError>
    ensures { OnOk result
        (Tells bytes.now (No number WalkStep) (string_bytes out.old) (string_bytes out.new)) }
{
    match step_shown(alloc, bytes, number) {
        Ok(found) => push_step_shown(out, &found),
        Err(fault) => Err(fault),
    }
}
