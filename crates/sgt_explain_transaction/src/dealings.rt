//! What one transaction did: its entries at each site.

ghost use Rattle.std.specs.Prelude.{◌≡◌, ◌↔◌, IsTrue, ◌≤◌, ◌<◌, ◌++◌, [], ℕ, List, None, Option, All, IfOk, OnOk, string_bytes};
ghost use Rattle.std.specs.List.{cons_option, filter};
ghost use Rattle.sgt_notation.specs.Spelling.{line_text, IsLine};
ghost use Rattle.sgt_notation.specs.declared.SectionLine.{SectionLine};
ghost use Rattle.sgt_explain_lines.specs.Numbered.{entry_in, site_behind};
ghost use Rattle.sgt_explain_lines.specs.Sited.{HasBefore};
ghost use Rattle.sgt_explain_transaction.specs.Dealings.{IsOwn, entry_from, is_own, own_of, site_if_new, one_text, own_text, own_head, IsAnyOwn, TellsDealings, TellsAllOwn};

use crate::conflicts::{push_conflicts, push_count};
use crate::sorted::by_item;
use sgt_explain_lines::{Logged, cut_line, entry_of, push_logged};
use sgt_names::{Entry, Tx};
use std::alloc::{AllocError, Global};
use std::fmt::Write;

/// An entry at a site.
#[derive(Clone, Copy)]
pub struct Own {
    pub site: u8,
    pub logged: Logged,
}

/// The entry of a line of a section. Lines 1 and 2 are none.
pub(crate) fn entry_at(site: &mut u8, line: u64, text: &[u8]) -> Option<Entry>
    ensures head { line ≤ 2 → (result ≡ None) × (site.new ≡ site.old) }
    ensures spelled { 2 < line → (read : SectionLine) → IsLine read → text.now ≡ line_text read
        → (result ≡ entry_in read) × (site.new ≡ site_behind site.old read) }
{
    if line > 2 { entry_of(site, text) } else { None }
}

/// Puts the entry behind the others, if it is one of the transaction.
fn push_from(
    own: &mut Vec<Own>,
    tx: Tx,
    site: u8,
    line: u64,
    found: Option<Entry>,
) -> Result<(), AllocError>
    ensures { OnOk result (own.new.items
        ≡ own.old.items ++ filter (is_own tx) (cons_option (entry_from site line found) [])) }
{
    let Some(entry) = found else {
        return Ok(());
    };
    if entry.tx() == tx {
        own.push(Own {
            site,
            logged: Logged { line, entry },
        })?;
    }
    Ok(())
}

/// The entries of the transaction in the lines before this one.
fn own_in(alloc: Global, bytes: &[u8], end: u64, tx: Tx) -> Result<Vec<Own>, AllocError>
    ensures own { IfOk result (λ own. All (IsOwn tx) own.items) }
    ensures all { IfOk result (λ own. (lines : List SectionLine) → HasBefore bytes.now end lines
        → own.items ≡ own_of tx lines) }
{
    let mut own = Vec::new(alloc);
    let mut site = 0u8;
    let mut rest = bytes;
    for line in 1..end {
        let (text, behind) = cut_line(rest);
        let found = entry_at(&mut site, line, text);
        push_from(&mut own, tx, site, line, found)?;
        rest = behind;
        if rest.is_empty() {
            return Ok(own);
        }
    }
    Ok(own)
}

/// The site of an entry, where that isn't the last one.
fn push_site(out: &mut String, last: Option<u8>, site: u8) -> Result<(), AllocError>
    ensures { OnOk result (string_bytes out.new ≡ string_bytes out.old ++ site_if_new last site) }
{
    if last == Some(site) {
        out.push_str("")
    } else {
        write!(out, "site {site}\n")
    }
}

/// An entry, behind its site where that isn't the last one.
fn push_one_own(out: &mut String, last: Option<u8>, own: &Own) -> Result<(), AllocError>
    ensures { OnOk result (string_bytes out.new ≡ string_bytes out.old ++ one_text last own.now) }
{
    push_site(out, last, own.site)?;
    push_logged(out, &own.logged)?;
    out.push_str("\n")
}

/// The entries, site by site.
fn push_own(out: &mut String, own: &[Own]) -> Result<(), AllocError>
    ensures { OnOk result (string_bytes out.new ≡ string_bytes out.old ++ own_text None own.now) }
{
    let mut last: Option<u8> = None;
    for one in own {
        push_one_own(out, last, one)?;
        last = Some(one.site);
    }
    Ok(())
}

/// The entries of the transaction, and the words before its conflicts.
fn push_own_head(out: &mut String, own: &[Own]) -> Result<(), AllocError>
    ensures { OnOk result (string_bytes out.new ≡ string_bytes out.old ++ own_head own.now) }
{
    push_own(out, own)?;
    out.push_str("in conflict:\n")
}

fn has_none(own: &Vec<Own>) -> bool
    ensures { IsTrue result ↔ (own.now.items ≡ []) }
{
    own.as_slice().is_empty()
}

/// What the transaction did in the lines before this one: its entries at each site with their lines,
/// and its conflicts with other transactions, each in its direction, by the line of the other's entry
/// and then by that of its own. Forty conflicts are shown, and the others counted. Ok: whether it has
/// an entry there.
pub fn push_dealings(
    alloc: Global,
    out: &mut String,
    bytes: &[u8],
    end: u64,
    tx: Tx,
) -> Result<bool, AllocError>
    ensures told { OnOk result (TellsDealings tx (string_bytes out.old) (string_bytes out.new)) }
    ensures all { OnOk result (TellsAllOwn bytes.now end tx
        (string_bytes out.old) (string_bytes out.new)) }
    ensures any { IfOk result (IsAnyOwn bytes.now end tx) }
{
    let own = own_in(alloc, bytes, end, tx)?;
    if has_none(&own) {
        out.push_str("it has no entry\n")?;
        return Ok(false);
    }
    push_own_head(out, own.as_slice())?;
    let sorted = by_item(own)?;
    let count = push_conflicts(out, sorted.as_slice(), bytes, end)?;
    push_count(out, count)?;
    Ok(true)
}
