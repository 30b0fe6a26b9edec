//! The certificate whose text a line is, read in one pass and without a tree. A line of which nothing is read here may
//! still be that of a certificate.

ghost use Rattle.std.specs.Prelude.{◌≡◌, ◌≢◌, ◌++◌, ◌<◌, ◌≤◌, ◌↔◌, ℕ, List, length, drop, IsTrue, All, IfOk, IfSome, MatchOption, codes};
ghost use Rattle.std.specs.Prelude.{decimal, false};
ghost use Rattle.serde_json.specs.Written.{compact_text, items_text};
ghost use Rattle.sgt_names.specs.Limits.{max_sites};
ghost use Rattle.sgt_names.specs.Name.{IsName};
ghost use Rattle.sgt_notation.specs.Spelling.{IsTx};
ghost use Rattle.sgt_bundle.specs.Private.{with_commas};
ghost use Rattle.sgt_bundle.specs.Text.{IsDecision, IsStep, certificate_text, decision_data, items_data, kind_name, step_data};

use crate::certificate::{Certificate, Decision, Step};
use crate::walk::Walk;
use sgt_names::{Item, Kind, Label, Listed, MAX_SITES, SiteNo, Tx};
use sgt_notation::{behind, front_number};
use std::alloc::{AllocError, Global};

/// The transaction in front.
#[inline(always)]
fn transaction(bytes: &[u8]) -> Option<(Tx, &[u8])>
    ensures { IfSome result (λ r. IsTx r.0 × (bytes.now ≡ decimal r.0 ++ r.1.now)) }
{
    let (number, rest) = front_number(bytes)?;
    let tx = Tx::new(number).ok()?;
    Some((tx, rest))
}

/// The name in front, of bytes that have at least sixteen: behind a name a step has more than so many.
#[inline(always)]
fn item(bytes: &[u8]) -> Option<(Item, &[u8])>
    ensures { IfSome result (λ r. IsName r.0 × (bytes.now ≡ r.0 ++ r.1.now)) }
{
    let chunk = bytes.first_chunk::<16>()?;
    let (item, length) = Item::leading(chunk)?;
    let (_, rest) = bytes.split_at_checked(length)?;
    Some((item, rest))
}

#[inline(always)]
fn kind(bytes: &[u8]) -> Option<(Kind, &[u8])>
    ensures { IfSome result (λ r. bytes.now ≡ kind_name r.0 ++ r.1.now) }
{
    if let Some(rest) = behind(bytes, b"wr") {
        return Some((Kind::Wr, rest));
    }
    if let Some(rest) = behind(bytes, b"rw") {
        return Some((Kind::Rw, rest));
    }
    let rest = behind(bytes, b"ww")?;
    Some((Kind::Ww, rest))
}

/// The item, the kind and the site of a step.
#[inline(always)]
fn label(bytes: &[u8]) -> Option<(Label, &[u8])>
    ensures in_range { IfSome result (λ r. IsName r.0.item × (r.0.site < max_sites)) }
    ensures text { IfSome result (λ r. bytes.now ≡ codes "{\"item\":\"" ++ (r.0.item ++ (codes "\",\"kind\":\""
        ++ (kind_name r.0.kind ++ (codes "\",\"site\":" ++ (decimal r.0.site ++ r.1.now)))))) }
{
    let rest = behind(bytes, b"{\"item\":\"")?;
    let Some((item, rest)) = item(rest) else {
        return None;
    };
    let rest = behind(rest, b"\",\"kind\":\"")?;
    let Some((kind, rest)) = kind(rest) else {
        return None;
    };
    let rest = behind(rest, b"\",\"site\":")?;
    let Some((site, rest)) = front_number(rest) else {
        return None;
    };
    let site = SiteNo::new(site).ok()?;
    Some((Label { site, item, kind }, rest))
}

#[inline(always)]
fn step(bytes: &[u8]) -> Option<(Step, &[u8])>
    ensures { IfSome result (λ r. IsStep max_sites r.0 × (bytes.now ≡ compact_text (step_data r.0) ++ r.1.now)) }
{
    let Some((label, rest)) = label(bytes) else {
        return None;
    };
    let rest = behind(rest, b",\"to\":")?;
    let Some((to, rest)) = transaction(rest) else {
        return None;
    };
    let rest = behind(rest, b"}")?;
    Some((Step { label, to }, rest))
}

/// The steps up to the closing bracket, behind those that the walk has, and what stands behind the bracket.
#[inline(always)]
fn add_steps<'b>(walk: &mut Vec<Step>, bytes: &'b [u8]) -> Result<Option<&'b [u8]>, AllocError>
    ensures in_range { IfOk result (λ found. IfSome found (λ _.
        All (IsStep max_sites) walk.old.items → All (IsStep max_sites) walk.new.items)) }
    ensures text { IfOk result (λ found. IfSome found (λ rest. with_commas step_data walk.old.items ++ bytes.now
        ≡ items_text false (items_data step_data walk.new.items) ++ rest.now)) }
{
    let mut rest = bytes;
    for _ in 0..bytes.len() {
        let Some((step, after)) = step(rest) else {
            return Ok(None);
        };
        walk.push(step)?;
        let Some(more) = behind(after, b",") else {
            return Ok(behind(after, b"]"));
        };
        rest = more;
    }
    Ok(None)
}

#[inline(always)]
fn commit(bytes: &[u8]) -> Option<(Decision, &[u8])>
    ensures { IfSome result (λ r. IsDecision max_sites r.0
        × (bytes.now ≡ compact_text (decision_data r.0) ++ r.1.now)) }
{
    let rest = behind(bytes, b"{\"commit\":")?;
    let Some((tx, rest)) = transaction(rest) else {
        return None;
    };
    let rest = behind(rest, b",\"rank\":")?;
    let Some((rank, rest)) = front_number(rest) else {
        return None;
    };
    let rest = behind(rest, b"}")?;
    let rank = u32::try_from(rank).ok()?;
    Some((Decision::Commit { tx, rank }, rest))
}

#[inline(always)]
fn withdrawal(bytes: &[u8]) -> Option<(Decision, &[u8])>
    ensures { IfSome result (λ r. IsDecision max_sites r.0
        × (bytes.now ≡ compact_text (decision_data r.0) ++ r.1.now)) }
{
    let rest = behind(bytes, b"{\"withdraw\":")?;
    let Some((tx, rest)) = transaction(rest) else {
        return None;
    };
    let rest = behind(rest, b"}")?;
    Some((Decision::Withdraw { tx }, rest))
}

/// The transaction of a refusal, and what stands from its first step on.
#[inline(always)]
fn refused(bytes: &[u8]) -> Option<(Tx, &[u8])>
    ensures { IfSome result (λ r. IsTx r.0 × (bytes.now ≡ codes "{\"refuse\":" ++ (decimal r.0 ++ (codes ",\"walk\":[" ++ r.1.now)))) }
{
    let rest = behind(bytes, b"{\"refuse\":")?;
    let Some((tx, rest)) = transaction(rest) else {
        return None;
    };
    let rest = behind(rest, b",\"walk\":[")?;
    Some((tx, rest))
}

/// How many steps a walk has room for from the start. Most cycles are of two transactions.
const FEW_STEPS: usize = 2;

#[inline(never)]
fn refusal(alloc: Global, bytes: &[u8]) -> Result<Option<(Decision, &[u8])>, AllocError>
    ensures { IfOk result (λ found. IfSome found (λ r.
        IsDecision max_sites r.0 × (bytes.now ≡ compact_text (decision_data r.0) ++ r.1.now))) }
{
    let Some((tx, rest)) = refused(bytes) else {
        return Ok(None);
    };
    let mut walk = Vec::with_capacity(alloc, FEW_STEPS)?;
    let Some(rest) = add_steps(&mut walk, rest)? else {
        return Ok(None);
    };
    let Some(rest) = behind(rest, b"}") else {
        return Ok(None);
    };
    let walk = Walk::from_vec(alloc, walk)?;
    Ok(Some((Decision::Refuse { tx, walk }, rest)))
}

#[inline(always)]
fn decision(alloc: Global, bytes: &[u8]) -> Result<Option<(Decision, &[u8])>, AllocError>
    ensures { IfOk result (λ found. IfSome found (λ r.
        IsDecision max_sites r.0 × (bytes.now ≡ compact_text (decision_data r.0) ++ r.1.now))) }
{
    if let Some(found) = commit(bytes) {
        return Ok(Some(found));
    }
    if let Some(found) = withdrawal(bytes) {
        return Ok(Some(found));
    }
    refusal(alloc, bytes)
}

/// The decisions up to the closing bracket, behind those that there are, and what stands behind the bracket.
#[inline(always)]
fn add_decisions<'b>(
    alloc: Global,
    decisions: &mut Vec<Decision>,
    bytes: &'b [u8],
) -> Result<Option<&'b [u8]>, AllocError>
    ensures in_range { IfOk result (λ found. IfSome found (λ _.
        All (IsDecision max_sites) decisions.old.items → All (IsDecision max_sites) decisions.new.items)) }
    ensures text { IfOk result (λ found. IfSome found (λ rest. with_commas decision_data decisions.old.items ++ bytes.now
        ≡ items_text false (items_data decision_data decisions.new.items) ++ rest.now)) }
{
    let mut rest = bytes;
    for _ in 0..bytes.len() {
        let Some((decision, after)) = decision(alloc, rest)? else {
            return Ok(None);
        };
        decisions.push(decision)?;
        let Some(more) = behind(after, b",") else {
            return Ok(behind(after, b"]"));
        };
        rest = more;
    }
    Ok(None)
}

/// The number of sites, with which the line ends.
fn sites(bytes: &[u8]) -> Option<u8>
    ensures in_range { IfSome result (λ sites. (1 ≤ sites) × (sites ≤ max_sites)) }
    ensures text { IfSome result (λ sites. bytes.now ≡ codes ",\"sites\":" ++ (decimal sites ++ codes "}")) }
{
    let rest = behind(bytes, b",\"sites\":")?;
    let Some((number, rest)) = front_number(rest) else {
        return None;
    };
    let last = behind(rest, b"}")?;
    let sites = u8::try_from(number).ok()?;
    if last.is_empty() && 1 <= sites && sites <= MAX_SITES {
        Some(sites)
    } else {
        None
    }
}

/// A decision mostly has about so many bytes: there is room for the decisions from the start.
const BYTES_A_DECISION: usize = 32;

/// The certificate that the line spells, were there `MAX_SITES` sites.
pub(crate) fn spelled(alloc: Global, line: &[u8]) -> Result<Option<Certificate>, AllocError>
    ensures sites { IfOk result
        (λ found. IfSome found (λ c. (1 ≤ c.sites) × (c.sites ≤ max_sites))) }
    ensures in_range { IfOk result
        (λ found. IfSome found (λ c. All (IsDecision max_sites) c.decisions)) }
    ensures text { IfOk result (λ found. IfSome found (λ c. line.now ≡ certificate_text c)) }
{
    let Some(rest) = behind(line, b"{\"decisions\":[") else {
        return Ok(None);
    };
    let mut decisions = Vec::with_capacity(alloc, line.len() / BYTES_A_DECISION)?;
    let Some(rest) = add_decisions(alloc, &mut decisions, rest)? else {
        return Ok(None);
    };
    let Some(sites) = sites(rest) else {
        return Ok(None);
    };
    let decisions = Listed::new(decisions);
    Ok(Some(Certificate { sites, decisions }))
}
