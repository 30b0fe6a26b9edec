//! What is said of entries that stand against the ranks or the decisions.

ghost use Rattle.std.specs.Prelude.{◌≡◌, ◌<◌, ◌++◌, ℕ, List, All, IfSome, IfNone, OnOk, Contains, string_bytes, unwrap_or};
ghost use Rattle.sgt_names.specs.Name.{Name};
ghost use Rattle.sgt_names.specs.Entry.{tx_of, IsEnd};
ghost use Rattle.sgt_bundle.specs.Certificate.{IsCommitted, IsDecidedOnce};
ghost use Rattle.sgt_bundle.specs.Valid.{RiseInRank};
ghost use Rattle.sgt_bundle.specs.declared.certificate.Decision.{Decision};
ghost use Rattle.sgt_explain_decisions.specs.Against.{StandAgainst, IsAgainst, IsFirstAgainst};
ghost use Rattle.sgt_explain_decisions.specs.Decided.{IsDecidedEnd, IsNotLater, IsFirstLater, IsOvertaken, decided_text, decision_order_head, TellsDecisionOrder};
ghost use Rattle.sgt_explain_decisions.specs.Placed.{ArePlaced, IsUndecided, IsUncommitted};
ghost use Rattle.sgt_explain_decisions.specs.Told.{ranked_text, both_ranked, first_deed, second_deed, rank_wish, ranks_wanted, rank_order_head, rank_order_text};

use crate::placed::{Placed, number_on, rank_on};
use sgt_bundle::Decision;
use sgt_explain_lines::{Logged, Section, clash, kind_name, push_aside, verb};
use sgt_names::{Item, Kind, Tx};
use std::alloc::AllocError;
use std::fmt::Write;

/// An entry of a committed transaction, with the rank of that and the number of its decision.
#[derive(Clone, Copy)]
pub struct Ranked {
    pub logged: Logged,
    pub rank: u32,
    pub number: usize,
}

/// An end of a decided transaction, with the number of its decision.
#[derive(Clone, Copy)]
pub struct Decided {
    pub logged: Logged,
    pub number: usize,
}

/// Two entries of a site in conflict on an item, of which the first stands against the second.
#[derive(Clone, Copy)]
pub struct RanksShown {
    pub site: u8,
    pub item: Item,
    pub kind: Kind,
    pub first: Ranked,
    pub second: Ranked,
}

/// The entry with the rank of its transaction, if that is committed.
fn with_rank(decisions: &[Decision], placed: &[Placed], logged: &Logged) -> Option<Ranked>
    ensures same { IfSome result (λ r. r.logged ≡ logged.now) }
    ensures rank { IfSome result
        (λ r. IsCommitted decisions.now r.number (tx_of r.logged.entry) r.rank) }
    ensures none { ArePlaced decisions.now placed.now → IsDecidedOnce decisions.now
        → IfNone result (IsUncommitted decisions.now (tx_of logged.now.entry)) }
{
    match rank_on(decisions, placed, logged.entry.tx()) {
        Some((rank, number)) => Some(Ranked {
            logged: *logged,
            rank,
            number,
        }),
        None => None,
    }
}

/// The item and the kind of the conflict of two entries of which the first stands against the
/// second: its transaction has no smaller rank.
fn stand_against(first: &Ranked, second: &Ranked) -> Option<(Item, Kind)>
    ensures some { IfSome result (λ c. StandAgainst first.now second.now c.1 c.0) }
    ensures none { IfNone result ((kind : Kind) (item : Name)
        → StandAgainst first.now second.now kind item → ⊥) }
{
    if second.rank > first.rank {
        return None;
    }
    clash(&first.logged.entry, &second.logged.entry)
}

/// This entry and the other, which has its rank, if it stands against that. Of the section of the
/// site.
fn shown_against(
    decisions: &[Decision],
    placed: &[Placed],
    site: u8,
    one: &Logged,
    second: &Ranked,
) -> Option<RanksShown>
    ensures some { IfSome result (IsAgainst decisions.now site one.now second.now) }
    ensures none { ArePlaced decisions.now placed.now → IsDecidedOnce decisions.now
        → IsCommitted decisions.now second.now.number (tx_of second.now.logged.entry) second.now.rank
        → IfNone result (RiseInRank decisions.now one.now.entry second.now.logged.entry) }
{
    let first = with_rank(decisions, placed, one)?;
    let (item, kind) = stand_against(&first, second)?;
    Some(RanksShown {
        site,
        item,
        kind,
        first,
        second: *second,
    })
}

/// The first of these entries, of the site, that stands against this one, with the ranks of both.
pub fn against_ranks(
    decisions: &[Decision],
    placed: &[Placed],
    section: &Section,
    logged: &Logged,
) -> Option<RanksShown>
    ensures site { IfSome result (λ s. s.site ≡ unwrap_or section.now.site 0) }
    ensures among { IfSome result (λ s. Contains section.now.entries.items s.first.logged) }
    ensures same { IfSome result (λ s. s.second.logged ≡ logged.now) }
    ensures first { IfSome result
        (λ s. IsCommitted decisions.now s.first.number (tx_of s.first.logged.entry) s.first.rank) }
    ensures second { IfSome result
        (λ s. IsCommitted decisions.now s.second.number (tx_of s.second.logged.entry) s.second.rank) }
    ensures stand { IfSome result (λ s. StandAgainst s.first s.second s.kind s.item) }
    ensures earlier { ArePlaced decisions.now placed.now → IsDecidedOnce decisions.now
        → IfSome result (λ s. IsFirstAgainst decisions.now section.now.entries.items s.first.logged logged.now.entry) }
    ensures none { ArePlaced decisions.now placed.now → IsDecidedOnce decisions.now
        → IfNone result
        (All (λ l. RiseInRank decisions.now l.entry logged.now.entry) section.now.entries.items) }
{
    let second = with_rank(decisions, placed, logged)?;
    let site = section.site_number();
    for other in section.entries.as_slice() {
        let shown = shown_against(decisions, placed, site, other, &second);
        if shown.is_some() {
            return shown;
        }
    }
    None
}

/// An entry with the rank of its transaction.
fn push_ranked(out: &mut String, ranked: &Ranked) -> Result<(), AllocError>
    ensures { OnOk result (string_bytes out.new ≡ string_bytes out.old ++ ranked_text ranked.now) }
{
    let tx = ranked.logged.entry.tx();
    let rank = ranked.rank;
    let number = ranked.number;
    push_aside(out, &ranked.logged)?;
    write!(
        out,
        "transaction {tx} has rank {rank} (decision {number})\n"
    )
}

/// Both entries, each with the rank of its transaction.
fn push_both_ranked(out: &mut String, shown: &RanksShown) -> Result<(), AllocError>
    ensures { OnOk result (string_bytes out.new ≡ string_bytes out.old ++ both_ranked shown.now) }
{
    push_ranked(out, &shown.first)?;
    push_ranked(out, &shown.second)
}

/// What the first of the entries did.
fn push_first_deed(out: &mut String, shown: &RanksShown) -> Result<(), AllocError>
    ensures { OnOk result (string_bytes out.new ≡ string_bytes out.old ++ first_deed shown.now) }
{
    let site = shown.site;
    let item = shown.item;
    let from = shown.first.logged.entry.tx();
    let before = verb(&shown.first.logged.entry);
    write!(out, "{from} {before} {item} of site {site} ")
}

/// What the second did.
fn push_second_deed(out: &mut String, shown: &RanksShown) -> Result<(), AllocError>
    ensures { OnOk result (string_bytes out.new ≡ string_bytes out.old ++ second_deed shown.now) }
{
    let to = shown.second.logged.entry.tx();
    let after = verb(&shown.second.logged.entry);
    let name = kind_name(shown.kind);
    write!(out, "before {to} {after} it ({name}): ")
}

/// What the conflict asks of the ranks.
fn push_rank_wish(out: &mut String, shown: &RanksShown) -> Result<(), AllocError>
    ensures { OnOk result (string_bytes out.new ≡ string_bytes out.old ++ rank_wish shown.now) }
{
    let from = shown.first.logged.entry.tx();
    write!(out, "{from} has to have the smaller rank\n")
}

/// Which conflict two entries are in, and what it asks of the ranks.
fn push_wanted_ranks(out: &mut String, shown: &RanksShown) -> Result<(), AllocError>
    ensures { OnOk result (string_bytes out.new ≡ string_bytes out.old ++ ranks_wanted shown.now) }
{
    push_first_deed(out, shown)?;
    push_second_deed(out, shown)?;
    push_rank_wish(out, shown)
}

fn push_order_head(out: &mut String) -> Result<(), AllocError>
    ensures { OnOk result (string_bytes out.new ≡ string_bytes out.old ++ rank_order_head) }
{
    out.push_str("RankOrder: two operations in conflict stand against the ranks\n")
}

/// F11: two entries of a site that stand against the ranks.
pub fn push_rank_order(out: &mut String, shown: &RanksShown) -> Result<(), AllocError>
    ensures { OnOk result (string_bytes out.new ≡ string_bytes out.old
        ++ rank_order_text shown.now) }
{
    push_order_head(out)?;
    push_both_ranked(out, shown)?;
    push_wanted_ranks(out, shown)
}

/// The entry as an end with the number of the first decision on its transaction, if it is an end and decided.
pub(crate) fn decided_end(placed: &[Placed], logged: &Logged) -> Option<Decided>
    ensures same { IfSome result (λ d. d.logged ≡ logged.now) }
    ensures is { (decisions : List Decision) → ArePlaced decisions placed.now
        → IfSome result (IsDecidedEnd decisions) }
    ensures none { (decisions : List Decision) → ArePlaced decisions placed.now
        → IfNone result (IsEnd logged.now.entry → IsUndecided decisions (tx_of logged.now.entry)) }
{
    if !logged.entry.is_end() {
        return None;
    }
    match number_on(placed, logged.entry.tx()) {
        Some(number) => Some(Decided {
            logged: *logged,
            number,
        }),
        None => None,
    }
}

/// The same, if the decision is later than that of this number.
fn later_decided(placed: &[Placed], other: &Logged, own: usize) -> Option<Decided>
    ensures same { IfSome result (λ d. d.logged ≡ other.now) }
    ensures some { (decisions : List Decision) → ArePlaced decisions placed.now
        → IfSome result (λ d. IsDecidedEnd decisions d × (own < d.number)) }
    ensures none { (decisions : List Decision) → ArePlaced decisions placed.now
        → IfNone result (IsNotLater decisions own other.now) }
{
    let end = decided_end(placed, other)?;
    if end.number > own { Some(end) } else { None }
}

/// The first of these ends that was decided later than by the decision of this number.
fn decided_later(placed: &[Placed], entries: &[Logged], own: usize) -> Option<Decided>
    ensures some { (decisions : List Decision) → ArePlaced decisions placed.now
        → IfSome result (IsFirstLater decisions entries.now own) }
    ensures none { (decisions : List Decision) → ArePlaced decisions placed.now
        → IfNone result (All (IsNotLater decisions own) entries.now) }
{
    for other in entries {
        if let Some(end) = later_decided(placed, other, own) {
            return Some(end);
        }
    }
    None
}

/// An end with the number of its decision.
fn push_decided(out: &mut String, decided: &Decided) -> Result<(), AllocError>
    ensures { OnOk result (string_bytes out.new ≡ string_bytes out.old
        ++ decided_text decided.now) }
{
    let number = decided.number;
    push_aside(out, &decided.logged)?;
    write!(out, "decision {number}\n")
}

fn push_decision_order_head(out: &mut String) -> Result<(), AllocError>
    ensures { OnOk result (string_bytes out.new ≡ string_bytes out.old ++ decision_order_head) }
{
    out.push_str("DecisionOrder: the ends of a log stand in the order of their decisions\n")
}

/// F14: an end behind one that was decided later.
pub fn push_decision_order(
    out: &mut String,
    placed: &[Placed],
    section: &Section,
    logged: &Logged,
) -> Result<(), AllocError>
    ensures { (decisions : List Decision) → ArePlaced decisions placed.now
        → IsOvertaken decisions section.now.entries.items logged.now
        → OnOk result (TellsDecisionOrder decisions section.now.entries.items logged.now
        (string_bytes out.old) (string_bytes out.new)) }
{
    push_decision_order_head(out)?;
    let Some(number) = number_on(placed, logged.entry.tx()) else {
        return Ok(());
    };
    let own = Decided {
        logged: *logged,
        number,
    };
    let Some(first) = decided_later(placed, section.entries.as_slice(), number) else {
        return Ok(());
    };
    push_decided(out, &first)?;
    push_decided(out, &own)
}
