//! One more line of an input.

ghost use Rattle.std.specs.Prelude.{◌≡◌, ◌↔◌, Any, All, IsTrue, IfOk, IfSome, IfNone};
ghost use Rattle.sgt_service.specs.Input.{HasPlace, IsPlaced};
ghost use Rattle.sgt_service.specs.private.Taking.{Takes, TakesScript};

use sgt_input::take_site;
use sgt_names::{Holding, Item, MAX_SCRIPTS, SiteNo};
use sgt_notation::{NotationFault, Op, Script, SiteLine, read_script};
use std::alloc::{AllocError, Global};
use std::cmp::Ordering;

fn is_named(held: &Holding, item: Item) -> bool
    ensures { IsTrue result ↔ (held.now.item ≡ item) }
{
    held.item == item
}

// Whether the item is at this place.
fn is_at(items: &[Holding], at: usize, item: Item) -> bool
    ensures { IsTrue result → Any (λ h. h.item ≡ item) items.now }
{
    match items.get(at) {
        Some(held) => is_named(held, item),
        None => false,
    }
}

fn is_below(held: &Holding, item: &Item) -> bool {
    held.item.cmp(item) == Ordering::Less
}

// Where the item is, if it is there: looked for behind this place and at it, then where it would stand among names
// that rise, as those of a site do, and then everywhere.
fn place_near(items: &[Holding], near: usize, item: Item) -> Option<usize>
    ensures some { IfSome result (λ at. Any (λ h. h.item ≡ item) items.now) }
    ensures none { IfNone result (Any (λ h. h.item ≡ item) items.now → ⊥) }
{
    let next = near.saturating_add(1);
    if is_at(items, next, item) {
        return Some(next);
    }
    if is_at(items, near, item) {
        return Some(near);
    }
    let place = items.partition_point(|held| is_below(held, &item));
    if is_at(items, place, item) {
        return Some(place);
    }
    if items.iter().any(|held| is_named(held, item)) {
        Some(near)
    } else {
        None
    }
}

// Where the item is at the site, if the site is there and has the item.
#[tactic(auto, using(crate::proofs::Placing::place_there, crate::proofs::Placing::place_missing, crate::proofs::Placing::place_none))]
fn find_place(sites: &[SiteLine], near: usize, site: SiteNo, item: Item) -> Option<usize>
    ensures some { IfSome result (λ at. HasPlace sites.now site item) }
    ensures none { IfNone result (HasPlace sites.now site item → ⊥) }
{
    match sites.get(site.number() as usize) {
        Some(line) => place_near(line.items.as_slice(), near, item),
        None => None,
    }
}

// Where the item of the operation is, if it is there.
fn place_of(sites: &[SiteLine], near: usize, op: &Op) -> Option<usize>
    ensures some { IfSome result (λ at. IsPlaced sites.now op.now) }
    ensures none { IfNone result (IsPlaced sites.now op.now → ⊥) }
{
    match *op {
        Op::Read { site, item } => find_place(sites, near, site, item),
        Op::Put { site, item, .. } => find_place(sites, near, site, item),
        Op::Add { site, item, .. } => find_place(sites, near, site, item),
        Op::Sum { site, item, .. } => find_place(sites, near, site, item),
    }
}

/// Whether each operation of the script is of an item that is there. Each is looked for near the one before.
fn are_placed(sites: &[SiteLine], script: &Script) -> bool
    ensures { IsTrue result ↔ All (IsPlaced sites.now) script.now.operations }
{
    let mut near = 0;
    for op in script.operations.as_slice() {
        let Some(at) = place_of(sites, near, op) else {
            return false;
        };
        near = at;
    }
    true
}

/// Keeps the script, if the line spells one over these sites, and there may be one more.
fn take_script(
    alloc: Global,
    sites: &[SiteLine],
    scripts: &mut Vec<Script>,
    line: &[u8],
) -> Result<bool, AllocError>
    ensures { IfOk result (TakesScript sites.now scripts.old.items line.now scripts.new.items) }
{
    if scripts.len() >= MAX_SCRIPTS {
        return Ok(false);
    }
    let script = match read_script(alloc, line) {
        Ok(script) => script,
        Err(NotationFault::Memory) => return Err(AllocError),
        Err(NotationFault::NotALine | NotationFault::TooLong) => return Ok(false),
    };
    if !are_placed(sites, &script) {
        return Ok(false);
    }
    scripts.push(script)?;
    Ok(true)
}

/// Keeps what the line says, if it may stand behind those that were read: a site before the first script, or a script
/// over the sites.
pub fn take_line(
    alloc: Global,
    sites: &mut Vec<SiteLine>,
    scripts: &mut Vec<Script>,
    line: &[u8],
) -> Result<bool, AllocError>
    ensures { IfOk result
        (Takes (record { sites = sites.old.items; scripts = scripts.old.items }) line.now
        (record { sites = sites.new.items; scripts = scripts.new.items })) }
{
    if !scripts.is_empty() {
        return take_script(alloc, sites.as_slice(), scripts, line);
    }
    if take_site(alloc, sites, line)? {
        return Ok(true);
    }
    take_script(alloc, sites.as_slice(), scripts, line)
}
