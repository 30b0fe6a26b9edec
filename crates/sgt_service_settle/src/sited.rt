//! The edges that decisions were handed, by their sites.

ghost use Rattle.std.specs.Prelude.{◌≡◌, ◌++◌, ◌∷◌, [], List, map, length, OnOk, IfOk};
ghost use Rattle.sgt_service_settle.specs.declared.handed.Handed.{Handed as AHanded};
ghost use Rattle.sgt_service_settle.specs.Told.{handed_by, handed_in};
ghost use Rattle.sgt_service_settle.specs.private.Words.{with_number, AreBySite};

use crate::handed::{Handed, edges_in, number_of};
use crate::rows::{no_rows, push_at, share};
use sgt_certifier::{Call, HandedEdges};
use std::alloc::{AllocError, Global};

// Adds the edge at its site, where that is there.
fn add_at_site(rows: &mut [Vec<Handed>], one: &Handed) -> Result<(), AllocError>
    ensures { OnOk result ((before : List AHanded) → AreBySite before rows.old
        → AreBySite (before ++ one.now ∷ []) rows.new) }
{
    let site = one.edge.label.site.number() as usize;
    if site < rows.len() {
        push_at(rows, site, *one)?;
    }
    Ok(())
}

// Adds these edges with the number, each at its site.
fn add_at_sites(
    rows: &mut [Vec<Handed>],
    edges: &HandedEdges,
    number: u64,
) -> Result<(), AllocError>
    ensures { OnOk result ((before : List AHanded) → AreBySite before rows.old
        → AreBySite (before ++ map (with_number number) edges.now) rows.new) }
{
    for place in 0..edges.count() {
        let edge = edges.at(place);
        add_at_site(rows, &Handed { edge, number })?;
    }
    Ok(())
}

// Adds the edges that the call hands to a decision, each at its site.
fn add_call(rows: &mut [Vec<Handed>], call: &Call) -> Result<(), AllocError>
    ensures { OnOk result ((before : List AHanded) → AreBySite before rows.old
        → AreBySite (before ++ handed_by call.now) rows.new) }
{
    match call {
        Call::Decide { edges, reply, .. } => add_at_sites(rows, edges, number_of(reply)),
        _ => Ok(()),
    }
}

/// The edges that the decisions of the history were handed, at each of the first so many sites.
pub(crate) fn by_site(
    alloc: Global,
    history: &[Call],
    sites: usize,
) -> Result<Vec<Vec<Handed>>, AllocError>
    ensures long { IfOk result (λ rows. length rows.items ≡ sites) }
    ensures sited { IfOk result (λ rows. AreBySite (handed_in history.now) rows.items) }
{
    let mut rows = no_rows(alloc, sites, share(edges_in(history), sites))?;
    for call in history {
        add_call(rows.as_mut_slice(), call)?;
    }
    Ok(rows)
}
