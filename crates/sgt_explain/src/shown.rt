//! What is shown of a line that gives an item another value than the item has there, and of one that stands against
//! the ranks.

ghost use Rattle.std.specs.Prelude.{◌≡◌, ◌⊎◌, ◌≤◌, ◌+◌, [], ℕ, List, ◌++◌, All, Some, length, take, IfOk, OnOk, IfSome, IsSomeAnd, string_bytes};
ghost use Rattle.sgt_notation.specs.Spelling.{HasNoLf, text_of_lines};
ghost use Rattle.sgt_notation.specs.declared.SectionLine.{SectionLine};
ghost use Rattle.sgt_bundle.specs.declared.certificate.Certificate.{Certificate};
ghost use Rattle.sgt_audit.specs.Faults.{FirstFault, bytes_of};
ghost use Rattle.sgt_audit.specs.declared.faults.Fault.TheVariants.{ReadValue, Final, RankOrder};
ghost use Rattle.sgt_audit.specs.declared.verdict.Verdict.TheVariants.{No};
ghost use Rattle.sgt_explain_lines.specs.Numbered.{HasLine, IsLineAt, logged_in};
ghost use Rattle.sgt_explain_lines.specs.Told.{read_text, final_text};
ghost use Rattle.sgt_explain_decisions.specs.Told.{rank_order_text};
ghost use Rattle.sgt_explain.specs.Asked.{HoldsCertificate};
ghost use Rattle.sgt_explain.specs.Explained.{Tells};
ghost use Rattle.sgt_explain.specs.Shown.{lines_before, decisions_before, ShowsRead, ShowsFinal, ShowsRanks, read_in, final_in};

use sgt_bundle::{CertFault, Certificate, from_line};
use sgt_explain_decisions::{RanksShown, against_ranks, placed_in, push_rank_order};
use sgt_explain_lines::{
    Logged, Misvalued, after_line, push_final, push_read, section_before, section_line_at,
    value_against,
};
use sgt_names::{Entry, Item, Tx, Value};
use sgt_notation::{SectionLine, split_line};
use std::alloc::{AllocError, Global};

/// The first bytes, so many of them, or all where there are fewer.
fn front_of(bytes: &[u8], count: usize) -> &[u8]
    ensures { count ≤ length bytes.now → result.now ≡ take count bytes.now }
{
    if count > bytes.len() {
        return bytes;
    }
    &bytes[..count]
}

/// The lines before the line of this number.
pub(crate) fn text_before(bytes: &[u8], number: u64) -> &[u8]
    ensures { (lines : List (List ℕ)) (rest : List ℕ) → All HasNoLf lines
        → number ≡ length lines + 1 → bytes.now ≡ text_of_lines lines ++ rest
        → result.now ≡ text_of_lines lines }
{
    let rest = after_line(bytes, number.saturating_sub(1));
    front_of(bytes, bytes.len().saturating_sub(rest.len()))
}

/// Line 2 without its LF, of which it has none where it is the last; nothing where the text ends before it.
fn second_line(bytes: &[u8]) -> &[u8]
    ensures only { (line : List ℕ) → IsLineAt bytes.now 2 line → result.now ≡ line }
    ensures there { (result.now ≡ []) ⊎ IsLineAt bytes.now 2 result.now }
{
    let Some((_, behind)) = split_line(bytes) else {
        return &bytes[..0];
    };
    match split_line(behind) {
        Some((line, _)) => line,
        None => behind,
    }
}

/// The certificate of line 2, if it is one. Err: memory ran out.
pub fn certificate_of(alloc: Global, bytes: &[u8]) -> Result<Option<Certificate>, AllocError>
    ensures only { (c : Certificate) → HoldsCertificate bytes.now c → IfOk result (λ found. found ≡ Some c) }
    ensures some { IfOk result (λ found. IfSome found (HoldsCertificate bytes.now)) }
{
    match from_line(alloc, second_line(bytes)) {
        Ok(certificate) => Ok(Some(certificate)),
        Err(fault) => match fault {
            CertFault::Memory => Err(AllocError),
            _ => Ok(None),
        },
    }
}

/// The line as an entry with this number, if it is an entry's.
fn logged_on(number: u64, line: &SectionLine) -> Option<Logged>
    ensures { result ≡ logged_in (number, line.now) }
{
    match line {
        SectionLine::Logged(entry) => Some(Logged {
            line: number,
            entry: *entry,
        }),
        _ => None,
    }
}

/// The entry of a line, if it is one.
pub fn logged_at(bytes: &[u8], number: u64) -> Option<Logged>
    ensures { (before : List SectionLine) (line : SectionLine)
        → HasLine bytes.now number before line
        → result ≡ logged_in (number, line) }
{
    match section_line_at(bytes, number) {
        Some(line) => logged_on(number, &line),
        None => None,
    }
}

/// The transaction, the item and the value of a read.
fn read_in_line(line: &SectionLine) -> Option<(Tx, Item, Value)>
    ensures { result ≡ read_in line.now }
{
    match line {
        SectionLine::Logged(Entry::Read { tx, item, value }) => Some((*tx, *item, *value)),
        _ => None,
    }
}

/// The item and the value of a final.
fn final_in_line(line: &SectionLine) -> Option<(Item, Value)>
    ensures { result ≡ final_in line.now }
{
    match line {
        SectionLine::Final(holding) => Some((holding.item, holding.value)),
        _ => None,
    }
}

/// F10: the transaction that reads at this line, and the value that its item has there.
fn read_shown(
    alloc: Global,
    bytes: &[u8],
    number: u64,
) -> Result<Option<(Tx, Misvalued)>, AllocError>
    ensures { (first : FirstFault bytes.now number ReadValue) → IfOk result (λ found.
        IsSomeAnd found (λ s. ShowsRead (lines_before first.stage) (bytes_of first.next) s.0 s.1)) }
{
    let section = section_before(alloc, bytes, number)?;
    let Some(line) = section_line_at(bytes, number) else {
        return Ok(None);
    };
    let Some((tx, item, value)) = read_in_line(&line) else {
        return Ok(None);
    };
    match value_against(&section, &item, value) {
        Some(shown) => Ok(Some((tx, shown))),
        None => Ok(None),
    }
}

/// F16: the value that the item of this final has at the end of its section.
fn final_shown(alloc: Global, bytes: &[u8], number: u64) -> Result<Option<Misvalued>, AllocError>
    ensures { (first : FirstFault bytes.now number Final) → IfOk result (λ found.
        IsSomeAnd found (ShowsFinal (lines_before first.stage) (bytes_of first.next))) }
{
    let section = section_before(alloc, bytes, number)?;
    let Some(line) = section_line_at(bytes, number) else {
        return Ok(None);
    };
    let Some((item, value)) = final_in_line(&line) else {
        return Ok(None);
    };
    match value_against(&section, &item, value) {
        Some(shown) => Ok(Some(shown)),
        None => Ok(None),
    }
}

/// F11: this entry and one before it that stands against it.
fn ranks_shown(alloc: Global, bytes: &[u8], number: u64) -> Result<Option<RanksShown>, AllocError>
    ensures { (first : FirstFault bytes.now number RankOrder) → IfOk result (λ found.
        IsSomeAnd found (ShowsRanks (decisions_before first.stage) (lines_before first.stage)
        (bytes_of first.next) number)) }
{
    let section = section_before(alloc, bytes, number)?;
    let Some(certificate) = certificate_of(alloc, bytes)? else {
        return Ok(None);
    };
    let Some(logged) = logged_at(bytes, number) else {
        return Ok(None);
    };
    let decisions = certificate.decisions();
    let placed = placed_in(alloc, decisions)?;
    Ok(against_ranks(decisions, placed.as_slice(), &section, &logged))
}

fn push_read_shown(out: &mut String, found: &Option<(Tx, Misvalued)>) -> Result<(), AllocError>
    ensures { OnOk result
        (IfSome found.now (λ s. string_bytes out.new ≡ string_bytes out.old ++ read_text s.0 s.1)) }
{
    match found {
        Some(read) => push_read(out, read.0, &read.1),
        None => Ok(()),
    }
}

/// F10, in words.
pub fn push_read_value(
    alloc: Global,
    out: &mut String,
    bytes: &[u8],
    number: u64,
) -> Result<(), AllocError>
    ensures { OnOk result
        (Tells bytes.now (No number ReadValue) (string_bytes out.old) (string_bytes out.new)) }
{
    match read_shown(alloc, bytes, number) {
        Ok(found) => push_read_shown(out, &found),
        Err(fault) => Err(fault),
    }
}

fn push_final_shown(out: &mut String, found: &Option<Misvalued>) -> Result<(), AllocError>
    ensures { OnOk result
        (IfSome found.now (λ m. string_bytes out.new ≡ string_bytes out.old ++ final_text m)) }
{
    match found {
        Some(shown) => push_final(out, shown),
        None => Ok(()),
    }
}

/// F16, in words.
pub fn push_final_value(
    alloc: Global,
    out: &mut String,
    bytes: &[u8],
    number: u64,
) -> Result<(), AllocError>
    ensures { OnOk result
        (Tells bytes.now (No number Final) (string_bytes out.old) (string_bytes out.new)) }
{
    match final_shown(alloc, bytes, number) {
        Ok(found) => push_final_shown(out, &found),
        Err(fault) => Err(fault),
    }
}

fn push_ranks_shown(out: &mut String, found: &Option<RanksShown>) -> Result<(), AllocError>
    ensures { OnOk result
        (IfSome found.now (λ m. string_bytes out.new ≡ string_bytes out.old ++ rank_order_text m)) }
{
    match found {
        Some(shown) => push_rank_order(out, shown),
        None => Ok(()),
    }
}

/// F11, in words.
pub fn push_rank_order_of(
    alloc: Global,
    out: &mut String,
    bytes: &[u8],
    number: u64,
) -> Result<(), AllocError>
    ensures { OnOk result
        (Tells bytes.now (No number RankOrder) (string_bytes out.old) (string_bytes out.new)) }
{
    match ranks_shown(alloc, bytes, number) {
        Ok(found) => push_ranks_shown(out, &found),
        Err(fault) => Err(fault),
    }
}
