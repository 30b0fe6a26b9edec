//! A section judged by itself.

ghost use Rattle.std.specs.Prelude.{◌≡◌, ◌<◌, ◌≤◌, ◌+◌, ◌^◌, Bool, ℕ, List, length, take, drop, IfOk, IfSome, IfNone};
ghost use Rattle.sgt_notation.specs.Spelling.{HasNoLf};
ghost use Rattle.sgt_audit_decisions.specs.Steps.{AreStepsAt};
ghost use Rattle.sgt_audit.specs.Alone.{IsReadyAlone};
ghost use Rattle.sgt_audit_sections.specs.Sections.{IsFaultlessCertificate};
ghost use Rattle.sgt_audit_sections.specs.Judged.{GoesOn, IsFrom, IsJudgedSection, IsUnderway, IsWhole};
ghost use Rattle.sgt_audit_sections.specs.private.Feeding.{FedAlone};

use sgt_audit::{Alone, Fault};
use sgt_audit_decisions::{Decided, Edge};
use sgt_names::MAX_LINE;
use sgt_notation::{find_lf, front_line};
use std::alloc::AllocError;

/// What the bytes of a section were found to be.
#[derive(Clone, Copy, Debug, PartialEq, Eq)]
pub enum Judged {
    /// A whole section of so many lines, with no fault but perhaps one of a walk; and whether each step at its site
    /// is a conflict there.
    Whole { lines: u64, met: bool },
    /// The section has this fault, at this line first. Lines are counted from 1.
    Faulty { line: u64, fault: Fault },
    /// The section goes on at this line, of which the last bytes stand here, so many, with no LF; where the text ends
    /// there, that line has F18.
    Open { line: u64, rest: usize },
    /// More than one section.
    Unfit,
}

/// A line of a section: of which site, and its number in the section. Lines are counted from 1.
#[derive(Clone, Copy)]
pub struct NextLine {
    pub site: usize,
    pub line: u64,
}

/// Before the section of this site: its first line.
pub fn begin_section(alone: &mut Alone, certificate: &Decided, site: usize) -> NextLine
    requires ready { IsReadyAlone certificate.now site alone.old }
    requires good { IsFaultlessCertificate certificate.now }
    requires site { site < certificate.now.sites }
    ensures underway { (bytes : List ℕ)
        → IsUnderway alone.old.second certificate.now site bytes bytes 1 alone.new }
    ensures next { result ≡ record { site = site; line = 1 } }
    ensures second { alone.new.second ≡ alone.old.second }
{
    alone.begin(site);
    NextLine { site, line: 1 }
}

/// The first n bytes.
#[inline(always)]
fn front(bytes: &[u8], n: usize) -> &[u8]
    requires { n ≤ length bytes.now }
    ensures { result.now ≡ take n bytes.now }
{
    let (first, _) = bytes.split_at(n);
    first
}

/// The bytes behind the first n.
#[inline(always)]
fn behind(bytes: &[u8], n: usize) -> &[u8]
    requires { n ≤ length bytes.now }
    ensures { result.now ≡ drop n bytes.now }
{
    let (_, rest) = bytes.split_at(n);
    rest
}

/// Feeds the line at the front of the bytes, if a whole one stands there: how many bytes it has with its LF, and its
/// fault.
#[inline(always)]
fn feed_front(
    alone: &mut Alone,
    certificate: &Decided,
    edges: &[Edge],
    bytes: &[u8],
) -> Result<Option<(usize, Option<Fault>)>, AllocError>
    ensures fed { IfOk result
        (λ found. IfSome found
        (λ r. FedAlone certificate.now edges.now alone.old alone.new bytes.now r.0 r.1)) }
    ensures none { IfOk result (λ found. IfNone found (HasNoLf bytes.now)) }
    ensures same { IfOk result (λ found. IfNone found (alone.new ≡ alone.old)) }
    ensures second { alone.new.second ≡ alone.old.second }
{
    if let Some((line, n)) = front_line(bytes) {
        let fault = alone.next_read(certificate, edges, &line)?;
        return Ok(Some((n, fault)));
    }
    match find_lf(bytes) {
        Some(n) => {
            let fault = alone.next(certificate, edges, front(bytes, n))?;
            Ok(Some((n + 1, fault)))
        }
        None => Ok(None),
    }
}

/// Judges these bytes, which come next of the section of this site, with the certificate and the steps at the site
/// lent. The line is the number of the next one in the section, and what was kept of those before it is passed. What
/// is found is of all bytes of the section so far. Where it goes on, the last bytes, which are no whole line, are to
/// be passed once more, with those behind them.
pub fn judge_lines(
    alone: &mut Alone,
    certificate: &Decided,
    edges: &[Edge],
    next: NextLine,
    bytes: &[u8],
) -> Result<Judged, AllocError>
    requires good { IsFaultlessCertificate certificate.now }
    requires site { next.site < certificate.now.sites }
    requires steps { AreStepsAt certificate.now.decisions next.site edges.now }
    requires room { next.line + length bytes.now < 2 ^ 64 }
    ensures judged { (second : Bool) (read : List ℕ)
        → IsUnderway second certificate.now next.site read bytes.now next.line alone.old
        → IfOk result (IsJudgedSection second certificate.now next.site read) }
    ensures underway { (second : Bool) (read : List ℕ)
        → IsUnderway second certificate.now next.site read bytes.now next.line alone.old
        → IfOk result (GoesOn second certificate.now next.site read bytes.now alone.new) }
    ensures later { IfOk result (IsFrom next.line) }
    ensures ready { (second : Bool) (read : List ℕ)
        → IsUnderway second certificate.now next.site read bytes.now next.line alone.old
        → IfOk result (λ j. IsWhole j → IsReadyAlone certificate.now (next.site + 1) alone.new) }
    ensures second { alone.new.second ≡ alone.old.second }
{
    let mut rest = bytes;
    let mut line = next.line;
    'lines: while let Some((n, fault)) = feed_front(alone, certificate, edges, rest)? {
        if let Some(fault) = fault {
            return Ok(Judged::Faulty { line, fault });
        }
        rest = behind(rest, n);
        if alone.is_behind(next.site) {
            if !rest.is_empty() {
                return Ok(Judged::Unfit);
            }
            return Ok(Judged::Whole {
                lines: line,
                met: alone.met,
            });
        }
        line += 1;
    }
    if rest.len() > MAX_LINE {
        return Ok(Judged::Faulty {
            line,
            fault: Fault::Notation,
        });
    }
    Ok(Judged::Open {
        line,
        rest: rest.len(),
    })
}

/// Judges the bytes as the section of this site, with the certificate and the steps at the site lent.
pub fn judge_section(
    alone: &mut Alone,
    certificate: &Decided,
    edges: &[Edge],
    site: usize,
    bytes: &[u8],
) -> Result<Judged, AllocError>
    requires ready { IsReadyAlone certificate.now site alone.old }
    requires good { IsFaultlessCertificate certificate.now }
    requires site { site < certificate.now.sites }
    requires steps { AreStepsAt certificate.now.decisions site edges.now }
    ensures judged { IfOk result (IsJudgedSection alone.old.second certificate.now site bytes.now) }
    ensures ready { IfOk result
        (λ j. IsWhole j → IsReadyAlone certificate.now (site + 1) alone.new) }
    ensures second { alone.new.second ≡ alone.old.second }
{
    let next = begin_section(alone, certificate, site);
    judge_lines(alone, certificate, edges, next, bytes)
}
