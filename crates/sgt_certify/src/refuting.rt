//! Why a text of logs has no certificate, checked against the logs.

ghost use Rattle.std.specs.Prelude.{◌≡◌, ◌≤◌, ◌↔◌, ◌++◌, List, [], length, Contains, IsTrue, IfOk, IfErr, IfSome, IfNone};
ghost use Rattle.std.specs.List.{flat_map};
ghost use Rattle.sgt_names.specs.Limits.{max_sites};
ghost use Rattle.sgt_bundle.specs.declared.bundle.SiteLog.{SiteLog};
ghost use Rattle.sgt_certify.specs.Answer.{Excludes, IsFirst, IsRefused, refusal_text};
ghost use Rattle.sgt_certify.specs.Lines.{AreLeftLines, AreLinesOf, conflict_line, end_line};
ghost use Rattle.sgt_certify.specs.Reasons.{AreNumbered, Holds, IsToldBy, Passes, Tells};
ghost use Rattle.sgt_certify_logs.specs.Steps.{IsConflictCycle, IsEndCycle};
ghost use Rattle.sgt_certify_stuck.specs.Circles.{ShowsStuck, members_of};
ghost use Rattle.sgt_certify_stuck.specs.Onward.{ConflictsFollow, EndsFollow};
ghost use Rattle.sgt_certify_faults.specs.Faults.{IsFaultless};
ghost use Rattle.sgt_certify_logs.specs.Certifiable.{SpellsLogs};
ghost use Rattle.sgt_certify.specs.declared.refuting.Refusal.{Refusal as AnyRefusal};
ghost use Rattle.sgt_certify_logs.specs.Witness.{HaveConflictsInACycle, HaveEndsInACycle};
ghost use Rattle.sgt_bundle.specs.Text.{certificate_text};
ghost use Rattle.sgt_notation.specs.Spelling.{HasNoLf};

use crate::left::left_lines;
use crate::making::with_line;
use crate::telling::{conflict_lines, end_lines};
use sgt_audit::read_bundle;
use sgt_bundle::{Bundle, Certificate, SiteLog, to_line};
use sgt_certify_logs::{ConflictStep, EndStep, is_conflict_cycle, is_end_cycle};
use sgt_certify_search::{Proof, Reason};
use sgt_certify_stuck::{StuckSet, conflicts_follow, ends_follow, is_stuck};
use sgt_names::{EngineFail, Listed, MAX_SITES, Tx};
use std::alloc::{AllocError, Global};

/// Why logs have no certificate.
#[derive(Clone, Copy, Debug, PartialEq, Eq)]
pub enum Refusal {
    /// Their ends stand in no common order.
    Order,
    /// Their committed transactions conflict in a cycle.
    Ranks,
    /// Who could be decided next is refused, and has no walk.
    Walk,
}

/// The first line of a refusal.
pub fn line_of(refusal: Refusal) -> &'static [u8]
    ensures { result.now ≡ refusal_text refusal }
{
    match refusal {
        Refusal::Order => b"no order\n",
        Refusal::Ranks => b"no ranks\n",
        Refusal::Walk => b"no walk\n",
    }
}

/// Whether the ends and the committed conflicts of the logs lead onward in these orders, which then show that none
/// are in a cycle.
fn are_in_order(
    alloc: Global,
    sites: &[SiteLog],
    ends: &[Tx],
    ranks: &[Tx],
) -> Result<bool, AllocError>
    ensures exact { IfOk result
        (λ are. IsTrue are ↔ EndsFollow sites.now ends.now × ConflictsFollow sites.now ranks.now) }
    ensures no_cycle { IfOk result
        (λ are. IsTrue are
        → (HaveEndsInACycle sites.now → ⊥) × (HaveConflictsInACycle sites.now → ⊥)) }
{
    let along = ends_follow(alloc, sites, ends)?;
    if !along {
        return Ok(false);
    }
    conflicts_follow(alloc, sites, ranks)
}

/// A refusal, and the lines behind its first.
#[derive(Drop)]
struct Told {
    refusal: Refusal,
    lines: Vec<u8>,
}

/// What the proof shows of the logs, if it does: the first of the reasons that they have.
fn shown(alloc: Global, sites: &[SiteLog], proof: &Proof) -> Result<Option<Told>, AllocError>
    ensures shown { IfOk result (λ told. IfSome told (λ t. Excludes t.refusal sites.now)) }
    ensures first { IfOk result (λ told. IfSome told (λ t. IsFirst t.refusal sites.now)) }
    ensures lines { IfOk result
        (λ told. IfSome told (λ t. AreLinesOf t.refusal sites.now t.lines.items)) }
    ensures tells { IfOk result
        (λ told. IfSome told (λ t. Tells sites.now proof.now t.refusal t.lines.items)) }
    ensures none { IfOk result
        (λ told. IfNone told (AreNumbered sites.now → Holds sites.now proof.now → ⊥)) }
{
    match proof {
        Proof::Ends(steps) => order_shown(alloc, sites, steps.as_slice()),
        Proof::Conflicts { cycle, ends } => {
            ranks_shown(alloc, sites, cycle.as_slice(), ends.as_slice())
        }
        Proof::Stuck { set, ends, ranks } => {
            if !are_in_order(alloc, sites, ends.as_slice(), ranks.as_slice())? {
                return Ok(None);
            }
            walk_lines(alloc, sites, set)
        }
    }
}

/// `no walk` with the next ends, if the set is stuck.
fn walk_lines(alloc: Global, sites: &[SiteLog], set: &StuckSet) -> Result<Option<Told>, AllocError>
    ensures refusal { IfOk result (λ told. IfSome told (λ t. t.refusal ≡ Refusal.Walk)) }
    ensures shown { IfOk result (λ told. IfSome told (λ t. Excludes Refusal.Walk sites.now)) }
    ensures lines { IfOk result
        (λ told. IfSome told (λ t. AreLinesOf Refusal.Walk sites.now t.lines.items)) }
    ensures stuck { IfOk result (λ told. IfSome told (λ t. ShowsStuck sites.now set.now)) }
    ensures left { IfOk result
        (λ told. IfSome told
        (λ t. AreLeftLines sites.now (Contains (members_of set.now)) 0 sites.now t.lines.items)) }
    ensures none { IfOk result
        (λ told. IfNone told (AreNumbered sites.now → ShowsStuck sites.now set.now → ⊥)) }
{
    if !is_stuck(alloc, sites, set)? {
        return Ok(None);
    }
    let mut decided = Vec::from_slice(alloc, set.committed.as_slice())?;
    decided.extend_from_slice(set.others.as_slice())?;
    let Some(lines) = left_lines(alloc, sites, decided.as_slice())? else {
        return Ok(None);
    };
    Ok(Some(Told {
        refusal: Refusal::Walk,
        lines,
    }))
}

/// `no order` with these steps, if they are a cycle.
fn order_shown(
    alloc: Global,
    sites: &[SiteLog],
    steps: &[EndStep],
) -> Result<Option<Told>, AllocError>
    ensures shown { IfOk result (λ told. IfSome told (λ t. Excludes t.refusal sites.now)) }
    ensures first { IfOk result (λ told. IfSome told (λ t. IsFirst t.refusal sites.now)) }
    ensures lines { IfOk result
        (λ told. IfSome told (λ t. AreLinesOf t.refusal sites.now t.lines.items)) }
    ensures tells { IfOk result
        (λ told. IfSome told (λ t. (t.refusal ≡ Refusal.Order) × IsEndCycle sites.now steps.now
        × (t.lines.items ≡ flat_map (end_line sites.now) steps.now))) }
    ensures none { IfOk result
        (λ told. IfNone told (AreNumbered sites.now → IsEndCycle sites.now steps.now → ⊥)) }
{
    if !is_end_cycle(sites, steps) {
        return Ok(None);
    }
    let Some(lines) = end_lines(alloc, sites, steps)? else {
        return Ok(None);
    };
    Ok(Some(Told {
        refusal: Refusal::Order,
        lines,
    }))
}

/// `no ranks` with these steps, if they are a cycle, and the order shows that no ends are in one.
fn ranks_shown(
    alloc: Global,
    sites: &[SiteLog],
    cycle: &[ConflictStep],
    ends: &[Tx],
) -> Result<Option<Told>, AllocError>
    ensures shown { IfOk result (λ told. IfSome told (λ t. Excludes t.refusal sites.now)) }
    ensures first { IfOk result (λ told. IfSome told (λ t. IsFirst t.refusal sites.now)) }
    ensures lines { IfOk result
        (λ told. IfSome told (λ t. AreLinesOf t.refusal sites.now t.lines.items)) }
    ensures tells { IfOk result
        (λ told. IfSome told (λ t. (t.refusal ≡ Refusal.Ranks)
        × (IsConflictCycle sites.now cycle.now × EndsFollow sites.now ends.now)
        × (t.lines.items ≡ flat_map (conflict_line sites.now) cycle.now))) }
    ensures none { IfOk result
        (λ told. IfNone told (AreNumbered sites.now
        → IsConflictCycle sites.now cycle.now × EndsFollow sites.now ends.now → ⊥)) }
{
    if !is_conflict_cycle(sites, cycle) {
        return Ok(None);
    }
    if !ends_follow(alloc, sites, ends)? {
        return Ok(None);
    }
    let Some(lines) = conflict_lines(alloc, sites, cycle)? else {
        return Ok(None);
    };
    Ok(Some(Told {
        refusal: Refusal::Ranks,
        lines,
    }))
}

/// The line of a certificate that decides nothing, of so many sites.
fn empty_line(alloc: Global, sites: u8) -> Result<Vec<u8>, AllocError>
    ensures text { IfOk result
        (λ line. line.items ≡ certificate_text (record { decisions = []; sites = sites })) }
    ensures one_line { IfOk result (λ line. HasNoLf line.items) }
{
    let empty = Certificate {
        sites,
        decisions: Listed::new(Vec::new(alloc)),
    };
    to_line(alloc, &empty)
}

/// Whether there can be so many sites.
fn is_count(sites: u8) -> bool
    ensures { IsTrue result ↔ (1 ≤ sites) × (sites ≤ max_sites) }
{
    1 <= sites && sites <= MAX_SITES
}

/// The logs that the text spells, if they are of so many sites.
pub fn logs_of(alloc: Global, text: &[u8], sites: u8) -> Result<Option<Bundle>, EngineFail>
    ensures logs { IfOk result (λ found. IfSome found (λ b. SpellsLogs text.now b.sites)) }
    ensures many { IfOk result (λ found. IfSome found (λ b. length b.sites ≡ sites)) }
    ensures none { IfOk result
        (λ found. IfNone found
        ((logs : List SiteLog) → SpellsLogs text.now logs → length logs ≡ sites → ⊥)) }
    ensures err { IfErr result (λ e. e ≡ EngineFail.Memory) }
{
    if !is_count(sites) {
        return Ok(None);
    }
    let line = empty_line(alloc, sites)?;
    let found = with_line(alloc, text, line.as_slice())?;
    drop(line);
    match found {
        Some(made) => read_bundle(alloc, made.as_slice()),
        None => Ok(None),
    }
}

/// One text, and then another.
pub fn joined(alloc: Global, head: &[u8], rest: &[u8]) -> Result<Vec<u8>, AllocError>
    ensures { IfOk result (λ text. text.items ≡ head.now ++ rest.now) }
{
    let mut text = Vec::from_slice(alloc, head)?;
    text.extend_from_slice(rest)?;
    Ok(text)
}

/// The text of the reason, where it passes its check against the logs of a text that has no fault.
pub fn refused(alloc: Global, text: &[u8], reason: &Reason) -> Result<Option<Vec<u8>>, EngineFail>
    requires { IsFaultless text.now }
    ensures told { IfOk result (λ told. IfSome told (λ t. IsRefused text.now t.items)) }
    ensures by { IfOk result (λ told. IfSome told (λ t. IsToldBy text.now reason.now t.items)) }
    ensures none { IfOk result (λ told. IfNone told (Passes text.now reason.now → ⊥)) }
    ensures err { IfErr result (λ e. e ≡ EngineFail.Memory) }
{
    let Some(bundle) = logs_of(alloc, text, reason.sites)? else {
        return Ok(None);
    };
    let Some(told) = shown(alloc, bundle.sites(), &reason.proof)? else {
        return Ok(None);
    };
    let Told { refusal, lines } = told;
    Ok(Some(joined(alloc, line_of(refusal), lines.as_slice())?))
}
