//! Why a line spells nothing.

ghost use Rattle.std.specs.Prelude.{◌≡◌, ◌≢◌, ◌↔◌, ◌<◌, ◌⊎◌, ◌++◌, ◌∷◌, [], ◌≤◌, ℕ, List, All, IfErr, IfNone, IfOk, IfSome, IsTrue, MatchOption, OnOk, decimal, get_or, length, string_bytes};
ghost use Rattle.sgt_names.specs.Limits.{max_line};
ghost use Rattle.sgt_names.specs.Name.{Name, IsName};
ghost use Rattle.sgt_names.specs.declared.entry.Entry.{Entry};
ghost use Rattle.sgt_names.specs.declared.entry.Holding.{Holding};
ghost use Rattle.sgt_notation.specs.Private.{IsOperation, operation_text};
ghost use Rattle.sgt_notation.specs.Reading.{Finds};
ghost use Rattle.sgt_notation.specs.Spelling.{IsEntry, IsHolding, IsLine, IsSite, IsTx, IsValue, assignment, entry_text, line_text};
ghost use Rattle.sgt_explain_lines.specs.Slips.{Spells, IsDigit, IsFirstOther, IsNumberSlip, IsTxSlip, IsSiteSlip, IsNameSlip, IsCutAt, Lacks, IsPairSlip, IsAssignmentSlip, HasAccess, SpellsAccess, IsAccessSlip, IsOperationSlip, is_operation_letter, is_end_letter, IsEntrySlip, IsWordsSlip, EndsWith, IsSlipWithin, IsSlip, advice_text, advice_line, long_name_text, no_digit_text, slip_text};

use fast_float::parse_u64;
use sgt_names::{Item, MAX_LINE, SiteNo, Tx, Value};
use std::alloc::AllocError;
use std::fmt::Write;

/// What keeps a line from being one of a section.
#[derive(Clone, Copy)]
enum Slip {
    /// It is longer than lines are.
    TooLong,
    /// It has no bytes.
    Empty,
    /// Its last byte is a CR.
    CarriageReturn,
    /// Its last byte is a space.
    EndsWithSpace,
    /// It is an increment, which the first format has not.
    Increment,
    /// It has none of the forms.
    Form,
    /// A name of so many bytes.
    LongName(usize),
    /// Bytes that are no name.
    BadName,
    /// A space in a name.
    InnerSpace,
    /// No digits where a number is wanted.
    NoNumber,
    /// A number that begins with a zero.
    LeadingZero,
    /// A byte in a number that is no digit.
    NoDigit(u8),
    /// A number from 2^64 on.
    TooGreat,
    /// A number that no transaction has.
    NoTransaction,
    /// A number that no site has.
    NoSite,
}

/// What stands before the first such byte, and what behind it.
fn cut_at(text: &[u8], byte: u8) -> Option<(&[u8], &[u8])>
    ensures some { IfSome result (λ r. IsCutAt byte text.now r.0.now r.1.now) }
    ensures none { IfNone result (Lacks byte text.now) }
{
    let n = text.iter().position(|other| *other == byte)?;
    Some((&text[..n], &text[n + 1..]))
}

fn is_digit(byte: u8) -> bool
    ensures { IsTrue result ↔ IsDigit byte }
{
    byte >= 48 && byte <= 57
}

/// The first byte that is no digit.
fn first_other(text: &[u8]) -> Option<u8>
    ensures some { IfSome result (IsFirstOther text.now) }
    ensures none { IfNone result (All IsDigit text.now) }
{
    for byte in text {
        if !is_digit(*byte) {
            return Some(*byte);
        }
    }
    None
}

/// The number that these digits spell, if it is below 2^64. No zero is the first of them.
fn number_of(digits: &[u8]) -> Option<Value>
    ensures { get_or digits.now 0 0 ≢ 43 → get_or digits.now 0 0 ≢ 48
        → Finds IsValue decimal digits.now result }
{
    parse_u64(digits).ok()
}

/// The number that these digits spell, or why they spell none.
fn read_digits(text: &[u8]) -> Result<Value, Slip>
    ensures ok { All IsDigit text.now → IfOk result (λ n. IsValue n × (text.now ≡ decimal n)) }
    ensures err { All IsDigit text.now → IfErr result (IsNumberSlip text.now) }
{
    if text.is_empty() {
        return Err(Slip::NoNumber);
    }
    if text[0] == b'0' {
        return if text.len() == 1 {
            Ok(0)
        } else {
            Err(Slip::LeadingZero)
        };
    }
    match number_of(text) {
        Some(number) => Ok(number),
        None => Err(Slip::TooGreat),
    }
}

/// The number that the bytes spell, or why they spell none.
fn read_number(text: &[u8]) -> Result<Value, Slip>
    ensures ok { IfOk result (λ n. IsValue n × (text.now ≡ decimal n)) }
    ensures err { IfErr result (IsNumberSlip text.now) }
{
    match first_other(text) {
        Some(byte) => Err(Slip::NoDigit(byte)),
        None => read_digits(text),
    }
}

fn slip_of_value(text: &[u8]) -> Option<Slip>
    ensures some { IfSome result (IsNumberSlip text.now) }
    ensures none { IfNone result (Spells IsValue decimal text.now) }
{
    match read_number(text) {
        Ok(_) => None,
        Err(slip) => Some(slip),
    }
}

fn slip_of_tx(text: &[u8]) -> Option<Slip>
    ensures some { IfSome result (IsTxSlip text.now) }
    ensures none { IfNone result (Spells IsTx decimal text.now) }
{
    match read_number(text) {
        Ok(number) => {
            if Tx::new(number).is_ok() {
                None
            } else {
                Some(Slip::NoTransaction)
            }
        }
        Err(slip) => Some(slip),
    }
}

fn slip_of_site(text: &[u8]) -> Option<Slip>
    ensures some { IfSome result (IsSiteSlip text.now) }
    ensures none { IfNone result (Spells IsSite decimal text.now) }
{
    match read_number(text) {
        Ok(number) => {
            if SiteNo::new(number).is_ok() {
                None
            } else {
                Some(Slip::NoSite)
            }
        }
        Err(slip) => Some(slip),
    }
}

fn slip_of_name(text: &[u8]) -> Option<Slip>
    ensures some { IfSome result (IsNameSlip text.now) }
    ensures none { IfNone result (IsName text.now) }
{
    if Item::new(text).is_ok() {
        return None;
    }
    if text.contains(&b' ') {
        Some(Slip::InnerSpace)
    } else if text.len() > 16 {
        Some(Slip::LongName(text.len()))
    } else {
        Some(Slip::BadName)
    }
}

/// Why the first bytes are no name, or the second no number.
fn slip_of_pair(name: &[u8], value: &[u8]) -> Option<Slip>
    ensures some { IfSome result (IsPairSlip name.now value.now) }
    ensures none { IfNone result (IsName name.now × Spells IsValue decimal value.now) }
{
    match slip_of_name(name) {
        Some(slip) => Some(slip),
        None => slip_of_value(value),
    }
}

/// Why the bytes are no `NAME=NUM`.
fn slip_of_assignment(text: &[u8]) -> Option<Slip>
    ensures some { IfSome result (IsAssignmentSlip text.now) }
    ensures none { IfNone result (Spells IsHolding (λ h. assignment h.item h.value) text.now) }
{
    match cut_at(text, b'=') {
        Some((name, value)) => slip_of_pair(name, value),
        None => Some(Slip::Form),
    }
}

/// What stands behind a byte at the front.
fn behind_byte(text: &[u8], byte: u8) -> Option<&[u8]>
    ensures some { IfSome result (λ r. text.now ≡ byte ∷ r.now) }
    ensures none { IfNone result ((behind : List ℕ) → text.now ≢ byte ∷ behind) }
{
    let (first, behind) = text.split_first()?;
    if *first == byte { Some(behind) } else { None }
}

/// What stands before the first `]`, and what behind it, where that is followed by `=`.
fn cut_at_access(text: &[u8]) -> Option<(&[u8], &[u8])>
    ensures some { IfSome result (λ r. IsCutAt 93 text.now r.0.now (61 ∷ r.1.now)) }
    ensures none { IfNone result (HasAccess text.now → ⊥) }
{
    let (name, behind) = cut_at(text, b']')?;
    match behind_byte(behind, b'=') {
        Some(value) => Some((name, value)),
        None => None,
    }
}

/// Why the bytes are no `NAME]=NUM`.
fn slip_of_access(text: &[u8]) -> Option<Slip>
    ensures some { IfSome result (IsAccessSlip text.now) }
    ensures none { IfNone result (SpellsAccess text.now) }
{
    match cut_at_access(text) {
        Some((name, value)) => slip_of_pair(name, value),
        None => Some(Slip::Form),
    }
}

/// Why the first bytes are no transaction's number, or the others no `NAME]=NUM`.
fn slip_of_tx_access(tx: &[u8], behind: &[u8]) -> Option<Slip>
    ensures some { IfSome result (λ s. IsTxSlip tx.now s
        ⊎ (Spells IsTx decimal tx.now × IsAccessSlip behind.now s)) }
    ensures none { IfNone result (Spells IsTx decimal tx.now × SpellsAccess behind.now) }
{
    match slip_of_tx(tx) {
        Some(slip) => Some(slip),
        None => slip_of_access(behind),
    }
}

/// Why the bytes are no `TX[NAME]=NUM`.
fn slip_of_operation(text: &[u8]) -> Option<Slip>
    ensures some { IfSome result (IsOperationSlip text.now) }
    ensures none { IfNone result (Spells IsOperation operation_text text.now) }
{
    match cut_at(text, b'[') {
        Some((tx, behind)) => slip_of_tx_access(tx, behind),
        None => Some(Slip::Form),
    }
}

fn is_operation_letter(byte: u8) -> bool
    ensures { result ≡ is_operation_letter byte }
{
    byte == b'r' || (byte == b'w' || (byte == b'p' || (byte == b'd' || byte == b'q')))
}

fn is_end_letter(byte: u8) -> bool
    ensures { result ≡ is_end_letter byte }
{
    byte == b'c' || (byte == b'n' || byte == b'a')
}

/// Why the line is no entry's.
fn slip_of_entry(line: &[u8]) -> Option<Slip>
    ensures some { IfSome result (IsEntrySlip line.now) }
    ensures none { IfNone result (Spells IsEntry entry_text line.now) }
{
    let Some((letter, rest)) = line.split_first() else {
        return Some(Slip::Form);
    };
    if is_operation_letter(*letter) {
        slip_of_operation(rest)
    } else if is_end_letter(*letter) {
        slip_of_tx(rest)
    } else {
        Some(Slip::Form)
    }
}

/// What stands behind this word at the front.
pub(crate) fn behind_word<'a>(line: &'a [u8], word: &[u8]) -> Option<&'a [u8]>
    ensures { MatchOption result ((behind : List ℕ) → line.entry.now ≢ word.now ++ behind)
        (λ r. line.entry.now ≡ word.now ++ r.now) }
{
    line.strip_prefix(word)
}

/// Why the line is none, by its first word.
fn slip_of_words(line: &[u8]) -> Option<Slip>
    ensures some { IfSome result (IsWordsSlip line.now) }
    ensures none { IfNone result (Spells IsLine line_text line.now) }
{
    if let Some(number) = behind_word(line, b"site ") {
        return slip_of_site(number);
    }
    if let Some(text) = behind_word(line, b"item ") {
        return slip_of_assignment(text);
    }
    if let Some(text) = behind_word(line, b"final ") {
        return slip_of_assignment(text);
    }
    slip_of_entry(line)
}

/// The last byte.
pub(crate) fn last_of(line: &[u8]) -> Option<u8>
    ensures some { IfSome result (λ b. EndsWith b line.now) }
    ensures none { IfNone result (line.now ≡ []) }
{
    match line.split_last() {
        Some((last, _)) => Some(*last),
        None => None,
    }
}

/// Why a line that isn't empty, and ends with this byte, spells nothing.
fn slip_by_last(line: &[u8], last: u8) -> Slip
    ensures { EndsWith last line.now → IsSlipWithin line.now result }
{
    if last == b'\r' {
        return Slip::CarriageReturn;
    }
    if last == b' ' {
        return Slip::EndsWithSpace;
    }
    match slip_of_words(line) {
        Some(slip) => slip,
        None => Slip::Increment,
    }
}

/// Why a line, which is not one of the format, spells nothing.
fn slip_of(line: &[u8]) -> Slip
    ensures { IsSlip line.now result }
{
    if line.len() > MAX_LINE {
        return Slip::TooLong;
    }
    match last_of(line) {
        None => Slip::Empty,
        Some(last) => slip_by_last(line, last),
    }
}

/// What has to be otherwise in a line of this slip.
fn advice_on(slip: Slip) -> &'static str
    ensures { result.now ≡ advice_text slip }
{
    match slip {
        Slip::TooLong => "it is longer than 1048576 bytes",
        Slip::Empty => "it is empty: blank lines aren't skipped",
        Slip::CarriageReturn => "a CR stands at its end: a line ends with LF alone",
        Slip::EndsWithSpace => "a space stands at its end",
        Slip::Increment => "increments are read under `sgt 2` alone, and line 1 is `sgt 1`",
        Slip::BadName => "a name is a letter a to z, then up to 15 of a to z, 0 to 9 and _",
        Slip::InnerSpace => "a space stands in its name, or before or behind it",
        Slip::NoNumber => "a number is missing",
        Slip::LeadingZero => "a number has no leading zero",
        Slip::TooGreat => "a number is at most 18446744073709551615",
        Slip::NoTransaction => "the number of a transaction is 1 to 4294967295",
        Slip::NoSite => "the number of a site is 0 to 63",
        Slip::LongName(_) | Slip::NoDigit(_) | Slip::Form => {
            "the forms are: site K, item NAME=NUM, final NAME=NUM, end; cTX, nTX, aTX;\n\
             rTX[NAME]=NUM, and with w, p and under `sgt 2` d, q in the place of r"
        }
    }
}

/// What has to be otherwise, as a line or two.
fn push_advice(out: &mut String, slip: Slip) -> Result<(), AllocError>
    ensures { OnOk result (string_bytes out.new ≡ string_bytes out.old ++ advice_line slip) }
{
    out.push_str(advice_on(slip))?;
    out.push_str("\n")
}

fn push_long_name(out: &mut String, length: usize) -> Result<(), AllocError>
    ensures { OnOk result (string_bytes out.new ≡ string_bytes out.old ++ long_name_text length) }
{
    writeln!(out, "its name has {length} bytes: a name has at most 16")
}

fn push_char(out: &mut String, byte: u8) -> Result<(), AllocError>
    requires { byte < 127 }
    ensures { OnOk result (string_bytes out.new ≡ string_bytes out.old ++ byte ∷ []) }
{
    out.push(char::from(byte))
}

/// A byte in a number, which can be printed.
fn push_printed(out: &mut String, byte: u8) -> Result<(), AllocError>
    requires { byte < 127 }
    ensures { OnOk result (string_bytes out.new ≡ string_bytes out.old ++ no_digit_text byte) }
{
    out.push_str("`")?;
    push_char(out, byte)?;
    out.push_str("` stands in a number, which has digits alone\n")
}

/// What is said of a slip.
fn push_of(out: &mut String, slip: Slip) -> Result<(), AllocError>
    ensures { OnOk result (string_bytes out.new ≡ string_bytes out.old ++ slip_text slip) }
{
    match slip {
        Slip::LongName(length) => push_long_name(out, length),
        Slip::NoDigit(byte) => {
            if byte > 32 && byte < 127 {
                push_printed(out, byte)
            } else {
                push_advice(out, slip)
            }
        }
        _ => push_advice(out, slip),
    }
}

/// Why a line, which is not one of the format, spells nothing: a line or two.
pub fn push_slip(out: &mut String, line: &[u8]) -> Result<(), AllocError>
    ensures { OnOk result ((s : Slip) × IsSlip line.now s
        × (string_bytes out.new ≡ string_bytes out.old ++ slip_text s)) }
{
    push_of(out, slip_of(line))
}
