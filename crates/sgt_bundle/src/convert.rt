//! The certificate in a JSON value that has the shape of one.

ghost use Rattle.std.specs.Prelude.{◌≡◌, ◌≤◌, IfOk, map, option_map};
ghost use Rattle.serde_json.specs.View.{view};
ghost use Rattle.sgt_names.specs.Limits.{max_sites};
ghost use Rattle.sgt_bundle.specs.Private.{certificate_in, commit_in, decision_in, decisions_in, kind_at, kind_if, list_at, name_at, name_if};
ghost use Rattle.sgt_bundle.specs.Private.{refuse_in, step_in, text_at, tx_at, walk_in, whole_at, withdraw_in};

use crate::certificate::{Certificate, Decision, Step};
use crate::shape::{shows_commit, shows_refuse};
use crate::walk::Walk;
use serde_json::Value;
use sgt_names::{Item, Kind, Label, Listed, MAX_SITES, SiteNo, Tx};
use std::alloc::{AllocError, Global};

/// Numbers of transactions and ranks are below this.
const NUMBERS: u64 = 1 << 32;

/// The number of the member, where it is a whole one from `least` on and below `limit`.
fn whole(value: &Value, key: &str, least: u64, limit: u64) -> Option<u64>
    ensures { result ≡ whole_at key.now least limit (view value.now) }
{
    let n = value.get(key).and_then(Value::as_u64)?;
    if least <= n && n < limit {
        Some(n)
    } else {
        None
    }
}

fn tx(value: &Value, key: &str) -> Option<Tx>
    ensures { result ≡ tx_at key.now (view value.now) }
{
    let n = whole(value, key, 1, NUMBERS)?;
    Tx::new(n).ok()
}

fn text<'v>(value: &'v Value, key: &str) -> Option<&'v str>
    ensures { option_map (λ s. s.now) result ≡ text_at key.now (view value.now) }
{
    match value.get(key) {
        Some(found) => found.as_str(),
        None => None,
    }
}

fn named(text: &str) -> Option<Item>
    ensures { result ≡ name_if text.now }
{
    Item::new(text.as_bytes()).ok()
}

fn name(value: &Value, key: &str) -> Option<Item>
    ensures { result ≡ name_at key.now (view value.now) }
{
    match text(value, key) {
        Some(found) => named(found),
        None => None,
    }
}

fn kind_named(text: &str) -> Option<Kind>
    ensures { result ≡ kind_if text.now }
{
    match text {
        "wr" => Some(Kind::Wr),
        "rw" => Some(Kind::Rw),
        "ww" => Some(Kind::Ww),
        _ => None,
    }
}

fn kind(value: &Value, key: &str) -> Option<Kind>
    ensures { result ≡ kind_at key.now (view value.now) }
{
    match text(value, key) {
        Some(found) => kind_named(found),
        None => None,
    }
}

fn list<'v>(value: &'v Value, key: &str) -> Option<&'v Vec<Value>>
    ensures { option_map (λ v. map view v.now.items) result ≡ list_at key.now (view value.now) }
{
    match value.get(key) {
        Some(found) => found.as_array(),
        None => None,
    }
}

fn step(value: &Value, sites: u8) -> Option<Step>
    requires { sites ≤ max_sites }
    ensures { result ≡ step_in sites (view value.now) }
{
    let item = name(value, "item")?;
    let kind = kind(value, "kind")?;
    let site = whole(value, "site", 0, sites as u64)?;
    let site = SiteNo::new(site).ok()?;
    let to = tx(value, "to")?;
    Some(Step {
        label: Label { site, item, kind },
        to,
    })
}

/// The steps, or `None` where a number, a name or a kind is out of its range.
fn walk(alloc: Global, items: &[Value], sites: u8) -> Result<Option<Vec<Step>>, AllocError>
    requires { sites ≤ max_sites }
    ensures { IfOk result
        (λ found. option_map (λ v. v.items) found ≡ walk_in sites (map view items.now)) }
{
    let mut found = Vec::new(alloc);
    for item in items {
        match step(item, sites) {
            Some(step) => found.push(step)?,
            None => return Ok(None),
        }
    }
    Ok(Some(found))
}

fn commit(value: &Value) -> Option<Decision>
    ensures { result ≡ commit_in (view value.now) }
{
    let tx = tx(value, "commit")?;
    let rank = whole(value, "rank", 0, NUMBERS)?;
    Some(Decision::Commit {
        tx,
        rank: rank as u32,
    })
}

fn withdraw(value: &Value) -> Option<Decision>
    ensures { result ≡ withdraw_in (view value.now) }
{
    let tx = tx(value, "withdraw")?;
    Some(Decision::Withdraw { tx })
}

fn refuse(alloc: Global, value: &Value, sites: u8) -> Result<Option<Decision>, AllocError>
    requires { sites ≤ max_sites }
    ensures { IfOk result (λ found. found ≡ refuse_in sites (view value.now)) }
{
    let Some(tx) = tx(value, "refuse") else {
        return Ok(None);
    };
    let Some(items) = list(value, "walk") else {
        return Ok(None);
    };
    let Some(walk) = walk(alloc, items, sites)? else {
        return Ok(None);
    };
    Ok(Some(Decision::Refuse {
        tx,
        walk: Walk::from_vec(alloc, walk)?,
    }))
}

fn decision(alloc: Global, value: &Value, sites: u8) -> Result<Option<Decision>, AllocError>
    requires { sites ≤ max_sites }
    ensures { IfOk result (λ found. found ≡ decision_in sites (view value.now)) }
{
    if shows_commit(value) {
        Ok(commit(value))
    } else if shows_refuse(value) {
        refuse(alloc, value, sites)
    } else {
        Ok(withdraw(value))
    }
}

/// The decisions, or `None` where a number, a name or a kind is out of its range.
fn decisions(alloc: Global, items: &[Value], sites: u8) -> Result<Option<Vec<Decision>>, AllocError>
    requires { sites ≤ max_sites }
    ensures { IfOk result
        (λ found. option_map (λ v. v.items) found ≡ decisions_in sites (map view items.now)) }
{
    let mut found = Vec::new(alloc);
    for item in items {
        match decision(alloc, item, sites)? {
            Some(decision) => found.push(decision)?,
            None => return Ok(None),
        }
    }
    Ok(Some(found))
}

/// The certificate, or `None` where a number, a name or a kind is out of its range.
pub(crate) fn certificate(alloc: Global, value: &Value) -> Result<Option<Certificate>, AllocError>
    ensures { IfOk result (λ found. found ≡ certificate_in (view value.now)) }
{
    let Some(sites) = whole(value, "sites", 1, MAX_SITES as u64 + 1) else {
        return Ok(None);
    };
    let sites = sites as u8;
    let Some(items) = list(value, "decisions") else {
        return Ok(None);
    };
    let Some(found) = decisions(alloc, items, sites)? else {
        return Ok(None);
    };
    Ok(Some(Certificate {
        sites,
        decisions: Listed::new(found),
    }))
}
