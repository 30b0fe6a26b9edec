//! A transaction is gathered at a site, and its edges are added to the open step.

ghost use Rattle.std.specs.Prelude.{◌≡◌, ◌≢◌, ◌↔◌, ◌++◌, ◌<◌, Some, None, Any, length, slice_get, slice_set, IsTrue, IfOk, IfErr, OnOk, OnErr};
ghost use Rattle.sgt_site.specs.State.{IsPledged};
ghost use Rattle.sgt_site.specs.Refused.{MayPledge};
ghost use Rattle.sgt_core_machine.specs.Gathered.{GivesAt, step_with, IsReleased, AreReleased, IsMissedAt};
ghost use Rattle.sgt_core_machine.specs.declared.machine.Place.{Place as APlace};
ghost use Rattle.sgt_core_machine.specs.declared.machine.Part.TheVariants.{Idle, Due};
ghost use Rattle.sgt_core_machine.specs.declared.machine.Running.{Running as ARunning};

use crate::machine::{Open, Part, Phase, Place, Running};
use sgt_edges::EdgeList;
use sgt_names::{Draft, Part as DraftPart, Touch, Tx};
use sgt_site::SiteFault;
use sgt_step::{gather, give_back};
use std::alloc::{AllocError, Global};
use std::mem;

// Gathers the transaction at a site: its pledge there, and its edges in a list. It errs for want of memory alone.
pub(crate) fn gather_there(
    places: &mut Vec<Place>,
    at: usize,
    running: &Option<Running>,
    tx: Tx,
    edges: &mut EdgeList,
) -> Result<(), SiteFault>
    requires site { at < length places.old.items }
    requires running { (r : ARunning) × (running.now ≡ Some r) }
    requires may { (p : APlace) (r : ARunning) → slice_get places.old.items at ≡ Some p
        → running.now ≡ Some r → MayPledge p.site tx r.draft.touched }
    ensures ok { OnOk result (GivesAt places.old.items places.new.items running.now at tx edges.new) }
    ensures err { OnErr result (places.new.items ≡ places.old.items) }
    ensures memory { IfErr result (λ f. f ≡ SiteFault.Memory) }
{
    let place = &mut places[at];
    let _items = place.site.items();
    match running {
        Some(running) => gather(&mut place.site, tx, running.handle, &running.draft, edges),
        None => unreachable!(),
    }
}

// The block of the open step is due at the site.
pub(crate) fn make_due(places: &mut Vec<Place>, at: usize)
    requires { at < length places.old.items }
    ensures { (p : APlace) → slice_get places.old.items at ≡ Some p
        → places.new.items ≡ slice_set places.old.items at (record p { part = Due }) }
{
    places[at].part = Part::Due;
}

// Gives the transaction's pledge back that stands at the site.
pub(crate) fn give_back_at(places: &mut Vec<Place>, at: usize, tx: Tx)
    requires { at < length places.old.items }
    ensures { (p : APlace) → slice_get places.old.items at ≡ Some p → IsPledged p.site tx
        → places.new.items
        ≡ slice_set places.old.items at (record p { site = record p.site { pledge = None } }) }
{
    give_back(&mut places[at].site, tx);
}

// Adds edges to the step of the transaction. Where none is open it is opened with their list, and the spare one is
// left there.
pub(crate) fn add_edges(
    alloc: Global,
    step: &mut Option<Open>,
    tx: Tx,
    more: &mut EdgeList,
    spare: &mut EdgeList,
) -> Result<(), AllocError>
    ensures { OnOk result (step.new ≡ step_with step.old tx more.old) }
{
    match step {
        Some(open) => match &mut open.phase {
            Phase::Gathering(edges) => edges.append(more),
            _ => Ok(()),
        },
        None => {
            let next = mem::replace(spare, EdgeList::new(alloc));
            let edges = mem::replace(more, next);
            let phase = Phase::Gathering(edges);
            *step = Some(Open { tx, phase });
            Ok(())
        }
    }
}

// Takes back the part of the step that the transaction has at a site.
fn release(place: &mut Place, tx: Tx)
    ensures { IsReleased tx place.old place.new }
{
    give_back(&mut place.site, tx);
    place.part = Part::Idle;
}

// Takes back each part of the transaction's step.
pub(crate) fn release_all(places: &mut Vec<Place>, tx: Tx)
    ensures { AreReleased tx places.old.items places.new.items }
{
    for at in 0..places.len() {
        release(&mut places[at], tx);
    }
}

// Whether the open step has come to the site.
pub(crate) fn is_gathered(places: &[Place], at: usize) -> bool
    requires { at < length places.now }
    ensures { (p : APlace) → slice_get places.now at ≡ Some p → IsTrue result ↔ (p.part ≢ Idle) }
{
    match places[at].part {
        Part::Idle => false,
        _ => true,
    }
}

// Whether the transaction at a place of the table touches a site to which the open step hasn't come.
pub(crate) fn misses(places: &[Place], table: &[Option<Running>], slot: usize) -> bool
    requires { slot < length table.now }
    ensures { (r : ARunning) → slice_get table.now slot ≡ Some (Some r)
        → IsTrue result ↔ Any (IsMissedAt places.now) r.draft.touched }
{
    match &table[slot] {
        Some(running) => misses_any(places, &running.draft),
        None => false,
    }
}

// Whether the draft touches a site to which the open step hasn't come.
fn misses_any(places: &[Place], draft: &Draft) -> bool
    ensures { IsTrue result ↔ Any (IsMissedAt places.now) draft.now.touched }
{
    let (few, parts) = draft.touched();
    if are_missed(places, few) {
        return true;
    }
    any_missed(places, parts)
}

fn any_missed(places: &[Place], parts: &[DraftPart]) -> bool
    ensures { IsTrue result ↔ Any (λ p. Any (IsMissedAt places.now) p.touched) parts.now }
{
    parts.iter().any(|part| is_part_missed(places, part))
}

fn is_part_missed(places: &[Place], part: &DraftPart) -> bool
    ensures { IsTrue result ↔ Any (IsMissedAt places.now) part.now.touched }
{
    are_missed(places, part.touched())
}

// Whether the open step hasn't come to the site of one of the touched items.
fn are_missed(places: &[Place], touched: &[Touch]) -> bool
    ensures { IsTrue result ↔ Any (IsMissedAt places.now) touched.now }
{
    touched.iter().any(|touch| is_missed(places, touch))
}

// Whether the open step hasn't come to the site of the touched item.
fn is_missed(places: &[Place], touch: &Touch) -> bool
    ensures { IsTrue result ↔ IsMissedAt places.now touch.now }
{
    let at = touch.site.number() as usize;
    match places.get(at) {
        Some(place) => match place.part {
            Part::Idle => true,
            _ => false,
        },
        None => true,
    }
}
