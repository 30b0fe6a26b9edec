//! What is said of the ends of transactions.

ghost use Rattle.std.specs.Prelude.{◌≡◌, ◌↔◌, ◌⊎◌, ◌<◌, ◌≤◌, ◌++◌, ℕ, List, All, Contains, IfNone, IfOk, IfSome, IsSomeAnd, IsTrue, IsFalse, OnOk, string_bytes, unwrap_or};
ghost use Rattle.sgt_names.specs.Entry.{tx_of, IsEnd};
ghost use Rattle.sgt_bundle.specs.declared.certificate.Decision.{Decision};
ghost use Rattle.sgt_explain_decisions.specs.Placed.{ArePlaced, IsUndecided};
ghost use Rattle.sgt_explain_decisions.specs.Ends.{EndsTx, HasEnd, HasNoEnd, letters_of, letters_text, reason_text, IsReason, end_head, TellsEnd, without_end, not_ended_head};
ghost use Rattle.sgt_explain_decisions.specs.Ends.{IsFirstUnended, IsLastBefore, IsFirstBehind, wanted_end, wanted_text, beside_text, both_beside, TellsPlace, TellsNotEnded};

use crate::order::{Decided, decided_end};
use crate::placed::{Placed, decision_on};
use crate::words::{push_decision, push_no_decision};
use sgt_bundle::Decision;
use sgt_explain_lines::{Logged, Section, push_if_there, push_logged};
use sgt_names::{Entry, Tx};
use std::alloc::{AllocError, Global};
use std::fmt::Write;

fn ends(entry: &Entry, tx: Tx) -> bool
    ensures { IsTrue result ↔ EndsTx tx entry.now }
{
    entry.is_end() && entry.tx() == tx
}

/// The end of the transaction among these entries.
fn end_of(entries: &[Logged], tx: Tx) -> Option<Logged>
    ensures there { IfSome result (λ l. Contains entries.now l × EndsTx tx l.entry) }
    ensures none { IfNone result (HasNoEnd entries.now tx) }
{
    for logged in entries {
        if ends(&logged.entry, tx) {
            return Some(*logged);
        }
    }
    None
}

/// The entries that a transaction has that is decided so.
fn letters(decision: &Decision) -> &'static str
    ensures { result.now ≡ letters_of decision.now }
{
    match decision {
        Decision::Commit { .. } => "r, w, d and c",
        Decision::Refuse { .. } => "r, p, q and n",
        Decision::Withdraw { .. } => "r and a",
    }
}

/// Which entries a transaction may have that is decided so.
fn push_letters(out: &mut String, number: usize, decision: &Decision) -> Result<(), AllocError>
    ensures { OnOk result (string_bytes out.new ≡ string_bytes out.old
        ++ letters_text number decision.now) }
{
    push_decision(out, number, decision)?;
    let tx = decision.tx();
    let letters = letters(decision);
    write!(out, ": of {tx} may stand {letters} alone\n")
}

/// Why an entry may not stand where its transaction is decided so, and has ended or not.
fn push_end_reason(
    out: &mut String,
    number: usize,
    decision: &Decision,
    has_ended: bool,
) -> Result<(), AllocError>
    ensures { OnOk result (string_bytes out.new ≡ string_bytes out.old
        ++ reason_text number decision.now has_ended) }
{
    if has_ended {
        let tx = decision.tx();
        write!(
            out,
            "transaction {tx} has ended at this site: nothing of it may follow\n"
        )
    } else {
        push_letters(out, number, decision)
    }
}

/// Why an entry may not stand behind that end of its transaction, or by the decision on that.
fn push_reason(
    out: &mut String,
    decisions: &[Decision],
    placed: &[Placed],
    tx: Tx,
    has_ended: bool,
) -> Result<(), AllocError>
    ensures { OnOk result ((reason : List ℕ) × IsReason decisions.now placed.now tx has_ended reason
        × (string_bytes out.new ≡ string_bytes out.old ++ reason)) }
{
    match decision_on(decisions, placed, tx) {
        Some((number, decision)) => push_end_reason(out, number, decision, has_ended),
        None => push_no_decision(out, tx),
    }
}

/// The end of the transaction, if it has one, and the entry.
fn push_both(out: &mut String, ended: &Option<Logged>, logged: &Logged) -> Result<(), AllocError>
    ensures { OnOk result (string_bytes out.new ≡ string_bytes out.old
        ++ end_head ended.now logged.now) }
{
    out.push_str("End: the transaction isn't decided as this entry says, or has ended here\n")?;
    push_if_there(out, ended)?;
    push_logged(out, logged)?;
    out.push_str("\n")
}

/// F13: an entry whose transaction isn't decided so, or has ended.
pub fn push_end(
    out: &mut String,
    decisions: &[Decision],
    placed: &[Placed],
    section: &Section,
    logged: &Logged,
) -> Result<(), AllocError>
    ensures { OnOk result (TellsEnd decisions.now placed.now section.now.entries.items logged.now
        (string_bytes out.old) (string_bytes out.new)) }
{
    let tx = logged.entry.tx();
    let ended = end_of(section.entries.as_slice(), tx);
    push_both(out, &ended, logged)?;
    push_reason(out, decisions, placed, tx, ended.is_some())
}

/// Adds the number of the entry's transaction, if the entry is an end.
fn add_end(ended: &mut Vec<u32>, logged: &Logged) -> Result<(), AllocError>
    ensures { (entries : List Logged) → Contains entries logged.now
        → All (HasEnd entries) ended.old.items → OnOk result (All (HasEnd entries) ended.new.items) }
{
    if logged.entry.is_end() {
        ended.push(logged.entry.tx().number())?;
        return Ok(());
    }
    Ok(())
}

/// The numbers of the transactions that end among these entries, sorted.
fn ended_in(alloc: Global, entries: &[Logged]) -> Result<Vec<u32>, AllocError>
    ensures { IfOk result (λ ended. All (HasEnd entries.now) ended.items) }
{
    let mut ended = Vec::new(alloc);
    for logged in entries {
        add_end(&mut ended, logged)?;
    }
    ended.sort()?;
    Ok(ended)
}

/// Whether the transaction is among these, which are sorted.
fn is_among(ended: &[u32], tx: Tx) -> bool
    ensures { IsTrue result → Contains ended.now tx }
{
    ended.binary_search(&tx.number()).is_ok()
}

/// Whether the transaction doesn't end among these, of which the ends' numbers are given.
fn lacks_end(entries: &[Logged], ended: &[u32], tx: Tx) -> bool
    ensures lacks { IsTrue result → HasNoEnd entries.now tx }
    ensures has { All (HasEnd entries.now) ended.now → IsFalse result → HasEnd entries.now tx }
{
    if is_among(ended, tx) {
        return false;
    }
    match end_of(entries, tx) {
        Some(_) => false,
        None => true,
    }
}

/// The first entry whose transaction doesn't end among these.
fn unended(alloc: Global, entries: &[Logged]) -> Result<Option<Logged>, AllocError>
    ensures some { IfOk result (λ found. IfSome found (IsFirstUnended entries.now)) }
    ensures none { IfOk result (λ found. IfNone found
        (All (λ l. HasEnd entries.now (tx_of l.entry)) entries.now)) }
{
    let ended = ended_in(alloc, entries)?;
    for logged in entries {
        if lacks_end(entries, ended.as_slice(), logged.entry.tx()) {
            return Ok(Some(*logged));
        }
    }
    Ok(None)
}

/// Whether an end was found that was decided later than by this number.
fn has_later(found: &Option<Decided>, number: usize) -> bool
    ensures yes { IsTrue result → IsSomeAnd found.now (λ d. number ≤ d.number) }
    ensures no { IsFalse result → IfSome found.now (λ d. d.number ≤ number) }
{
    match found {
        Some(other) => other.number > number,
        None => false,
    }
}

/// Whether an end was found that was decided earlier than by this number.
fn has_earlier(found: &Option<Decided>, number: usize) -> bool
    ensures yes { IsTrue result → IsSomeAnd found.now (λ d. d.number ≤ number) }
    ensures no { IsFalse result → IfSome found.now (λ d. number ≤ d.number) }
{
    match found {
        Some(other) => other.number < number,
        None => false,
    }
}

/// Whichever was decided later, of ends that were decided before the decision of this number.
fn later_of(found: Option<Decided>, end: Option<Decided>, own: usize) -> Option<Decided>
    ensures one { (result ≡ found) ⊎ ((result ≡ end) × IfSome end (λ d. d.number < own)) }
    ensures kept { IfSome found (λ d. IsSomeAnd result (λ g. d.number ≤ g.number)) }
    ensures more { IfSome end (λ d. d.number < own → IsSomeAnd result (λ g. d.number ≤ g.number)) }
{
    let number = match &end {
        Some(one) => one.number,
        None => return found,
    };
    if number >= own || has_later(&found, number) {
        return found;
    }
    end
}

/// Whichever was decided earlier, of ends that were decided behind the decision of this number.
fn earlier_of(found: Option<Decided>, end: Option<Decided>, own: usize) -> Option<Decided>
    ensures one { (result ≡ found) ⊎ ((result ≡ end) × IfSome end (λ d. own < d.number)) }
    ensures kept { IfSome found (λ d. IsSomeAnd result (λ g. g.number ≤ d.number)) }
    ensures more { IfSome end (λ d. own < d.number → IsSomeAnd result (λ g. g.number ≤ d.number)) }
{
    let number = match &end {
        Some(one) => one.number,
        None => return found,
    };
    if number <= own || has_earlier(&found, number) {
        return found;
    }
    end
}

/// Of the ends that were decided before the decision of this number, the last decided.
fn last_before(placed: &[Placed], entries: &[Logged], own: usize) -> Option<Decided>
    ensures { (decisions : List Decision) → ArePlaced decisions placed.now
        → IsLastBefore decisions entries.now own result }
{
    let mut found = None;
    for logged in entries {
        found = later_of(found, decided_end(placed, logged), own);
    }
    found
}

/// Of the ends that were decided behind the decision of this number, the first decided.
fn first_behind(placed: &[Placed], entries: &[Logged], own: usize) -> Option<Decided>
    ensures { (decisions : List Decision) → ArePlaced decisions placed.now
        → IsFirstBehind decisions entries.now own result }
{
    let mut found = None;
    for logged in entries {
        found = earlier_of(found, decided_end(placed, logged), own);
    }
    found
}

/// How the end of a decision reads: `n2`.
fn push_wanted_end(out: &mut String, decision: &Decision) -> Result<(), AllocError>
    ensures { OnOk result (string_bytes out.new ≡ string_bytes out.old ++ wanted_end decision.now) }
{
    let tx = decision.tx();
    match decision {
        Decision::Commit { .. } => write!(out, ": c{tx} has to stand among the entries\n"),
        Decision::Refuse { .. } => write!(out, ": n{tx} has to stand among the entries\n"),
        Decision::Withdraw { .. } => write!(out, ": a{tx} has to stand among the entries\n"),
    }
}

/// The decision, and its end.
fn push_wanted(out: &mut String, number: usize, decision: &Decision) -> Result<(), AllocError>
    ensures { OnOk result (string_bytes out.new ≡ string_bytes out.old
        ++ wanted_text number decision.now) }
{
    push_decision(out, number, decision)?;
    push_wanted_end(out, decision)
}

/// An end and the number of its decision, in a line of words.
fn push_beside(out: &mut String, word: &str, found: &Option<Decided>) -> Result<(), AllocError>
    ensures { OnOk result (string_bytes out.new ≡ string_bytes out.old
        ++ beside_text word.now found.now) }
{
    match found {
        Some(end) => {
            let number = end.number;
            let line = end.logged.line;
            write!(out, "{word} the end of decision {number} (line {line})\n")
        }
        None => out.push_str(""),
    }
}

/// The ends that the missing one has to stand behind and before.
fn push_both_beside(
    out: &mut String,
    before: &Option<Decided>,
    behind: &Option<Decided>,
) -> Result<(), AllocError>
    ensures { OnOk result (string_bytes out.new ≡ string_bytes out.old
        ++ both_beside before.now behind.now) }
{
    push_beside(out, "behind", before)?;
    push_beside(out, "before", behind)
}

/// Where the end of a transaction would have to stand.
fn push_place(
    out: &mut String,
    decisions: &[Decision],
    placed: &[Placed],
    entries: &[Logged],
    tx: Tx,
) -> Result<(), AllocError>
    ensures { ArePlaced decisions.now placed.now → (IsUndecided decisions.now tx → ⊥)
        → OnOk result ((told : List ℕ) × TellsPlace decisions.now entries.now tx told
        × (string_bytes out.new ≡ string_bytes out.old ++ told)) }
{
    let Some((number, decision)) = decision_on(decisions, placed, tx) else {
        return Ok(());
    };
    let before = last_before(placed, entries, number);
    let behind = first_behind(placed, entries, number);
    push_wanted(out, number, decision)?;
    push_both_beside(out, &before, &behind)
}

/// That the transaction has no end at the site.
fn push_without_end(out: &mut String, site: u8, tx: Tx) -> Result<(), AllocError>
    ensures { OnOk result (string_bytes out.new ≡ string_bytes out.old ++ without_end site tx) }
{
    write!(
        out,
        "NotEnded: transaction {tx} has an entry at site {site} and no end\n"
    )
}

/// The same of the transaction of an entry, and the entry.
fn push_unended(out: &mut String, site: u8, logged: &Logged) -> Result<(), AllocError>
    ensures { OnOk result (string_bytes out.new ≡ string_bytes out.old
        ++ not_ended_head site logged.now) }
{
    push_without_end(out, site, logged.entry.tx())?;
    push_logged(out, logged)?;
    out.push_str("\n")
}

/// F15: a transaction with entries and no end.
pub fn push_not_ended(
    alloc: Global,
    out: &mut String,
    decisions: &[Decision],
    placed: &[Placed],
    section: &Section,
) -> Result<(), AllocError>
    ensures { ArePlaced decisions.now placed.now
        → All (λ l. IsUndecided decisions.now (tx_of l.entry) → ⊥) section.now.entries.items
        → (All (λ l. HasEnd section.now.entries.items (tx_of l.entry)) section.now.entries.items → ⊥)
        → OnOk result (TellsNotEnded decisions.now section.now.entries.items
        (unwrap_or section.now.site 0) (string_bytes out.old) (string_bytes out.new)) }
{
    let entries = section.entries.as_slice();
    let Some(logged) = unended(alloc, entries)? else {
        return Ok(());
    };
    push_unended(out, section.site_number(), &logged)?;
    push_place(out, decisions, placed, entries, logged.entry.tx())
}
