//! A committed transaction with its neighbours: those that it is in conflict with, as the operations on an item follow
//! one another.

ghost use Rattle.std.specs.Prelude.{◌≡◌, ◌≢◌, ℕ, All, Contains, Some, IfNone, IfOk, IfSome, OnOk, length, map, min, slice_get};
ghost use Rattle.sgt_bundle.specs.Certificate.{IsCommitted};
ghost use Rattle.sgt_draw.specs.Private.{row_node};
ghost use Rattle.sgt_draw.specs.Wanted.{AreAround};
ghost use Rattle.sgt_draw.specs.declared.scene.Numbered.{Numbered as AnyNumbered};

use crate::edges::{Edge, edges_at};
use crate::scene::{MOST_DRAWN, Numbered, Scene};
use sgt_bundle::Bundle;
use sgt_names::Tx;
use std::alloc::{AllocError, Global};

/// More than each rank.
const EVERY_RANK: u64 = 1 << 32;

/// The transactions that are drawn, and the conflicts between one of them and the others.
#[derive(Drop)]
pub struct Around {
    pub scene: Scene,
    pub edges: Vec<Edge>,
    /// How many neighbours it has, drawn or not.
    pub neighbours: u64,
}

/// The places of a transaction and of its neighbours.
fn ends_near(alloc: Global, edges: &[Edge], place: usize) -> Result<Vec<usize>, AllocError>
    ensures { IfOk result (λ ends. Contains ends.items place) }
{
    let mut ends = Vec::new(alloc);
    ends.push(place)?;
    for edge in edges {
        let (from, to) = (edge.from as usize, edge.to as usize);
        ends.push(if from == place { to } else { from })?;
    }
    Ok(ends)
}

/// One more place, if it isn't the last one.
fn add_once(places: &mut Vec<usize>, end: usize) -> Result<(), AllocError>
    ensures added { OnOk result (Contains places.new.items end) }
    ensures kept { OnOk result
        ((place : ℕ) → Contains places.old.items place → Contains places.new.items place) }
{
    match places.as_slice().last() {
        Some(last) if *last == end => Ok(()),
        _ => {
            places.push(end)?;
            Ok(())
        }
    }
}

/// Places that rise, each once.
fn each_once(alloc: Global, ends: &[usize]) -> Result<Vec<usize>, AllocError>
    ensures { IfOk result (λ places. All (Contains places.items) ends.now) }
{
    let mut places = Vec::new(alloc);
    for end in ends {
        add_once(&mut places, *end)?;
    }
    Ok(places)
}

/// The places of a transaction and of its neighbours, by rank, each once.
fn places_near(alloc: Global, edges: &[Edge], place: usize) -> Result<Vec<usize>, AllocError>
    ensures { IfOk result (λ places. Contains places.items place) }
{
    let mut ends = ends_near(alloc, edges, place)?;
    ends.sort_by_key(|end| *end)?;
    each_once(alloc, ends.as_slice())
}

/// Where a place stands among these.
fn standing_of(places: &[usize], place: usize) -> usize
    ensures { Contains places.now place → slice_get places.now result ≡ Some place }
{
    for at in 0..places.len() {
        if places[at] == place {
            return at;
        }
    }
    0
}

/// Those of the places that are drawn: two hundred, with this one among them.
fn drawn_of(places: &[usize], place: usize) -> &[usize]
    ensures own { Contains places.now place → Contains result.now place }
    ensures many { length result.now ≡ min 200 (length places.now) }
{
    let most = MOST_DRAWN as usize;
    let at = standing_of(places, place);
    let begin = at
        .saturating_sub(most / 2)
        .min(places.len().saturating_sub(most));
    let end = begin.saturating_add(most).min(places.len());
    &places[begin..end]
}

/// The edges between places of one scene that are drawn in another one, by its places.
fn edges_within(
    alloc: Global,
    whole: &Scene,
    drawn: &Scene,
    edges: &[Edge],
) -> Result<Vec<Edge>, AllocError> {
    let committed = whole.committed.as_slice();
    let mut found = Vec::new(alloc);
    for edge in edges {
        let from = committed.get(edge.from as usize);
        let to = committed.get(edge.to as usize);
        if let (Some(from), Some(to)) = (from, to) {
            if let (Some(from), Some(to)) = (drawn.place_of(from.tx), drawn.place_of(to.tx)) {
                let mut moved = *edge;
                moved.from = from;
                moved.to = to;
                found.push(moved)?;
            }
        }
    }
    Ok(found)
}

/// The place of a transaction among these.
fn place_in(committed: &[Numbered], tx: Tx) -> Option<usize>
    ensures some { IfSome result
        (λ place. (c : AnyNumbered) × (slice_get committed.now place ≡ Some c) × (c.tx ≡ tx)) }
    ensures none { IfNone result (All (λ c. c.tx ≢ tx) committed.now) }
{
    for place in 0..committed.len() {
        if committed[place].tx.number() == tx.number() {
            return Some(place);
        }
    }
    None
}

/// The committed transaction at this place with its neighbours.
fn around_place(
    alloc: Global,
    bundle: &Bundle,
    whole: &Scene,
    place: usize,
) -> Result<Around, AllocError>
    ensures own { IfOk result (λ around. (c : AnyNumbered) → slice_get whole.now.committed.items place ≡ Some c
        → Contains around.scene.committed.items c) }
    ensures others { IfOk result
        (λ around. All (Contains whole.now.committed.items) around.scene.committed.items) }
{
    let counted = place.min(u32::MAX as usize) as u32;
    let edges = edges_at(alloc, whole, bundle.sites(), counted)?;
    let places = places_near(alloc, edges.as_slice(), place)?;
    let scene = whole.only(alloc, drawn_of(places.as_slice(), place))?;
    let edges = edges_within(alloc, whole, &scene, edges.as_slice())?;
    Ok(Around {
        scene,
        edges,
        neighbours: (places.len() as u64).saturating_sub(1),
    })
}

/// A committed transaction, given with its rank, and its neighbours.
pub(crate) fn neighbours_of(
    alloc: Global,
    bundle: &Bundle,
    one: Numbered,
) -> Result<Around, AllocError>
    requires { (number : ℕ) × IsCommitted bundle.now.certificate.decisions number one.tx one.number }
    ensures { IfOk result (λ around. AreAround one.tx bundle.now.certificate.decisions
        (map (row_node (Some one.tx)) around.scene.committed.items)) }
{
    let whole = Scene::of(alloc, bundle.certificate().decisions(), EVERY_RANK)?;
    match place_in(whole.committed.as_slice(), one.tx) {
        Some(place) => around_place(alloc, bundle, &whole, place),
        None => unreachable!(),
    }
}
