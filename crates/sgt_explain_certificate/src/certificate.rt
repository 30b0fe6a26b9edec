//! What is said of a second line that is no certificate.

ghost use Rattle.std.specs.Prelude.{◌≡◌, ◌≢◌, ◌<◌, ◌≤◌, ◌++◌, ℕ, List, Some, OnOk, codes, length, slice_get, string_bytes};
ghost use Rattle.sgt_bundle.specs.Line.{Refuses};
ghost use Rattle.sgt_bundle.specs.Text.{certificate_text, IsCertificate};
ghost use Rattle.sgt_bundle.specs.declared.certificate.Certificate.{Certificate};
ghost use Rattle.sgt_bundle.specs.declared.fault.CertFault.{CertFault};
ghost use Rattle.sgt_explain_lines.specs.Told.{Adds, ShowsLine};
ghost use Rattle.sgt_explain_certificate.specs.Columns.{IsBehind, IsFoundAt, IsStanding, IsToldByte, ShowsBetween, bytes_before, column_text};
ghost use Rattle.sgt_explain_certificate.specs.Told.{fault_words};

use crate::compact::{Turn, turn_in};
use serde_json::Value;
use sgt_bundle::{CertFault, from_line};
use sgt_explain_lines::{push_numbered, push_shown};
use std::alloc::{AllocError, Global};
use std::fmt::Write;

fn push_text(out: &mut String, text: &str) -> Result<(), AllocError>
    ensures { OnOk result (string_bytes out.new ≡ string_bytes out.old ++ text.now) }
{
    out.push_str(text)
}

/// A text between these words.
fn push_between(out: &mut String, before: &str, text: &[u8], behind: &str) -> Result<(), AllocError>
    ensures { OnOk result ((told : List ℕ) × ShowsBetween before.now text.now behind.now told
        × (string_bytes out.new ≡ string_bytes out.old ++ told)) }
{
    out.push_str(before)?;
    push_shown(out, text)?;
    push_text(out, behind)
}

/// A byte that stands at a place.
fn push_byte(out: &mut String, byte: u8) -> Result<(), AllocError>
    ensures { OnOk result ((told : List ℕ) × IsToldByte (Some byte) told
        × (string_bytes out.new ≡ string_bytes out.old ++ told)) }
{
    if byte == b' ' {
        push_text(out, "a space stands")
    } else {
        push_between(out, "`", &[byte], "` stands")
    }
}

/// What stands at a place, if a byte does.
fn push_if_byte(out: &mut String, byte: Option<u8>) -> Result<(), AllocError>
    ensures { OnOk result ((told : List ℕ) × IsToldByte byte told
        × (string_bytes out.new ≡ string_bytes out.old ++ told)) }
{
    match byte {
        Some(byte) => push_byte(out, byte),
        None => push_text(out, "the line ends"),
    }
}

fn byte_at(line: &[u8], at: usize) -> Option<u8>
    ensures { result ≡ slice_get line.now at }
{
    match line.get(at) {
        Some(byte) => Some(*byte),
        None => None,
    }
}

/// What stands at a place of the line.
fn push_standing(out: &mut String, line: &[u8], at: usize) -> Result<(), AllocError>
    ensures { OnOk result ((told : List ℕ) × IsStanding line.now at told
        × (string_bytes out.new ≡ string_bytes out.old ++ told)) }
{
    push_if_byte(out, byte_at(line, at))
}

/// The bytes before a place of the line, sixteen at most.
fn bytes_before(line: &[u8], at: usize) -> &[u8]
    ensures { at ≤ length line.now → result.now ≡ bytes_before line.now at }
{
    if at > line.len() {
        return &line[..0];
    }
    &line[at.saturating_sub(16)..at]
}

/// What stands before a place of the line, if it isn't the first.
fn push_before(out: &mut String, line: &[u8], at: usize) -> Result<(), AllocError>
    ensures { OnOk result ((told : List ℕ) × IsBehind line.now at told
        × (string_bytes out.new ≡ string_bytes out.old ++ told)) }
{
    if at == 0 {
        push_text(out, "")
    } else {
        push_between(out, " behind `", bytes_before(line, at), "`")
    }
}

fn push_column(out: &mut String, column: usize) -> Result<(), AllocError>
    ensures { OnOk result (string_bytes out.new ≡ string_bytes out.old ++ column_text column) }
{
    write!(out, "column {column}: ")
}

/// A place of the line, from 1: `column 14: a space stands behind "decisions":`.
fn push_found(out: &mut String, line: &[u8], at: usize) -> Result<(), AllocError>
    ensures more { OnOk result (Adds (string_bytes out.old) (string_bytes out.new)) }
    ensures found { at < 18446744073709551615 → OnOk result ((told : List ℕ) × IsFoundAt line.now at told
        × (string_bytes out.new ≡ string_bytes out.old ++ told)) }
{
    push_column(out, at.saturating_add(1))?;
    push_standing(out, line, at)?;
    push_before(out, line, at)
}

fn push_turn(out: &mut String, line: &[u8], turn: Option<Turn>) -> Result<(), AllocError>
    ensures { OnOk result (Adds (string_bytes out.old) (string_bytes out.new)) }
{
    let Some(turn) = turn else {
        return Ok(());
    };
    push_found(out, line, turn.at)?;
    let wanted = turn.wanted;
    writeln!(out, "\nthe compact text has there: {wanted}")
}

/// Where the JSON in the line breaks off: the column, or nothing where the line ends first.
fn json_break(alloc: Global, line: &[u8]) -> Result<Option<usize>, AllocError> {
    match Value::from_slice(alloc, line) {
        Ok(_) => Ok(None),
        Err(e) => {
            if e.is_memory() {
                return Err(AllocError);
            }
            if e.is_eof() {
                return Ok(None);
            }
            Ok(Some(e.column()))
        }
    }
}

/// Why line 2 is no certificate, and line 2.
fn push_refused(out: &mut String, name: &str, words: &str, line: &[u8]) -> Result<(), AllocError>
    ensures { OnOk result (ShowsLine name.now 2 line.now
        (string_bytes out.old) (string_bytes out.new)) }
{
    out.push_str(name)?;
    out.push_str(words)?;
    push_numbered(out, 2, line)
}

/// Where the JSON breaks off.
fn push_break(alloc: Global, out: &mut String, line: &[u8]) -> Result<(), AllocError>
    ensures { OnOk result (Adds (string_bytes out.old) (string_bytes out.new)) }
{
    match json_break(alloc, line)? {
        Some(column) => {
            push_found(out, line, column.saturating_sub(1))?;
            out.push_str(", where the JSON breaks off\n")
        }
        None => {
            push_found(out, line, line.len())?;
            out.push_str(", before its JSON does\nthe whole certificate stands in line 2\n")
        }
    }
}

/// What to do where the line is one of a section.
fn push_remedy(out: &mut String, line: &[u8]) -> Result<(), AllocError>
    ensures { OnOk result (Adds (string_bytes out.old) (string_bytes out.new)) }
{
    if line.starts_with(b"site ") {
        out.push_str(
            "the certificate is missing: `sgt certify` makes one for a text such as this\n",
        )
    } else {
        out.push_str("")
    }
}

/// K1: no JSON value.
fn push_no_json(alloc: Global, out: &mut String, line: &[u8]) -> Result<(), AllocError>
    ensures { OnOk result (ShowsLine (codes "Certificate: K1, ") 2 line.now
        (string_bytes out.old) (string_bytes out.new)) }
{
    push_refused(out, "Certificate: K1, ", "line 2 is no JSON value\n", line)?;
    push_break(alloc, out, line)?;
    push_remedy(out, line)
}

/// The first place that leaves the compact text, with its members in the order of their keys, or
/// as they are.
fn first_turn(line: &[u8]) -> Option<Turn> {
    match turn_in(line, true) {
        Some(turn) => Some(turn),
        None => turn_in(line, false),
    }
}

/// K2: a member is missing, unknown or of another type.
fn push_shape(out: &mut String, line: &[u8]) -> Result<(), AllocError>
    ensures { OnOk result (ShowsLine (codes "Certificate: K2, ") 2 line.now
        (string_bytes out.old) (string_bytes out.new)) }
{
    push_refused(
        out,
        "Certificate: K2, ",
        "a member is missing, unknown or of another JSON type\n",
        line,
    )?;
    push_turn(out, line, first_turn(line))
}

/// Whether the JSON value in the line says a certificate, in whatever order of keys and with
/// whatever spaces.
fn says_certificate(alloc: Global, line: &[u8]) -> Result<bool, AllocError> {
    let value = match Value::from_slice(alloc, line) {
        Ok(value) => value,
        Err(e) if e.is_memory() => return Err(AllocError),
        Err(_) => return Ok(false),
    };
    let text = value.to_string(alloc)?;
    match from_line(alloc, text.as_bytes()) {
        Ok(_) => Ok(true),
        Err(CertFault::Memory) => Err(AllocError),
        Err(_) => Ok(false),
    }
}

/// K3, of a line that says no certificate.
fn push_no_text(out: &mut String, line: &[u8], turn: Option<Turn>) -> Result<(), AllocError>
    ensures { OnOk result (ShowsLine (codes "Certificate: K3, ") 2 line.now
        (string_bytes out.old) (string_bytes out.new)) }
{
    push_refused(
        out,
        "Certificate: K3, ",
        "it isn't the text of a certificate\n",
        line,
    )?;
    push_turn(out, line, turn)
}

fn push_spelling(out: &mut String) -> Result<(), AllocError>
    ensures { OnOk result (Adds (string_bytes out.old) (string_bytes out.new)) }
{
    out.push_str("write it without spaces and with keys in byte order; in Python:\n")?;
    out.push_str("json.dumps(c, separators=(\",\", \":\"), sort_keys=True)\n")
}

/// K3, of a line that says a certificate, and is spelled otherwise.
fn push_not_compact(out: &mut String, line: &[u8]) -> Result<(), AllocError>
    ensures { OnOk result (ShowsLine (codes "Certificate: K3, ") 2 line.now
        (string_bytes out.old) (string_bytes out.new)) }
{
    push_refused(
        out,
        "Certificate: K3, ",
        "the line isn't the compact text, though it says a certificate\n",
        line,
    )?;
    push_turn(out, line, turn_in(line, false))?;
    push_spelling(out)
}

/// K3: out of range, or not the compact text.
fn push_range(alloc: Global, out: &mut String, line: &[u8]) -> Result<(), AllocError>
    ensures { OnOk result (ShowsLine (codes "Certificate: K3, ") 2 line.now
        (string_bytes out.old) (string_bytes out.new)) }
{
    let turn = turn_in(line, true);
    if turn.is_some() && !says_certificate(alloc, line)? {
        return push_no_text(out, line, turn);
    }
    push_not_compact(out, line)
}

/// Why the line is refused with this fault.
fn push_fault(
    alloc: Global,
    out: &mut String,
    line: &[u8],
    fault: CertFault,
) -> Result<(), AllocError>
    ensures shown { OnOk result (ShowsLine (fault_words fault) 2 line.now
        (string_bytes out.old) (string_bytes out.new)) }
    ensures memory { fault ≡ CertFault.Memory → OnOk result ⊥ }
{
    match fault {
        CertFault::NotJson => push_no_json(alloc, out, line),
        CertFault::Shape => push_shape(out, line),
        CertFault::Range => push_range(alloc, out, line),
        CertFault::Memory => Err(AllocError),
    }
}

/// F3: line 2 is no certificate. K1, K2 or K3, the column of the first place where the line goes
/// wrong, what stands there and what would.
pub fn push_certificate(alloc: Global, out: &mut String, line: &[u8]) -> Result<(), AllocError>
    ensures refused { (e : CertFault) → e ≢ CertFault.Memory → Refuses line.now e
        → OnOk result (ShowsLine (fault_words e) 2 line.now
        (string_bytes out.old) (string_bytes out.new)) }
    ensures read { (c : Certificate) → IsCertificate c → line.now ≡ certificate_text c
        → OnOk result (string_bytes out.new ≡ string_bytes out.old) }
{
    match from_line(alloc, line) {
        Ok(_) => Ok(()),
        Err(fault) => push_fault(alloc, out, line, fault),
    }
}
