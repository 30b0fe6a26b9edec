//! The steps of the walks of a certificate, by their sites.

ghost use Rattle.std.specs.Prelude.{◌≡◌, ◌∷◌, ◌++◌, ◌<◌, [], List, IfOk, OnOk, Some, All, length, slice_get, slice_set};
ghost use Rattle.sgt_bundle.specs.declared.certificate.Decision.{Decision};
ghost use Rattle.sgt_audit_decisions.specs.Steps.{AreStepsAt, AreStepsOf, edges_from, edges_of, edges_in};
ghost use Rattle.sgt_audit_decisions.specs.private.Grouped.{AreGrouped};
ghost use Rattle.sgt_audit_decisions.specs.declared.steps.Edge.{Edge};
ghost use Rattle.sgt_audit_decisions.specs.declared.steps.Group.{Group};

use sgt_bundle::{Decision, Step};
use sgt_names::Tx;
use std::alloc::{AllocError, Global};

/// A step of a walk, with the transaction that it comes from.
#[derive(Clone, Copy)]
pub struct Edge {
    pub from: Tx,
    pub step: Step,
}

/// The steps at one site.
#[derive(Drop)]
struct Group {
    edges: Vec<Edge>,
}

/// The steps of all walks of a certificate, by their sites.
#[derive(Drop)]
pub struct Steps {
    groups: Vec<Group>,
}

impl Group {
    fn add(&mut self, edge: &Edge) -> Result<(), AllocError>
        ensures { OnOk result (self.new.edges.items ≡ self.old.edges.items ++ edge.now ∷ []) }
    {
        self.edges.push(*edge)?;
        Ok(())
    }
}

/// One more step, if its site is among them.
fn add_edge(groups: &mut [Group], edge: &Edge) -> Result<(), AllocError>
    ensures { OnOk result
        ((edges : List Edge) → AreGrouped edges groups.old
        → AreGrouped (edges ++ edge.now ∷ []) groups.new) }
{
    let site = edge.step.label.site.number() as usize;
    if site >= groups.len() {
        return Ok(());
    }
    groups[site].add(edge)
}

/// The steps of a walk from the transaction.
fn add_walk(groups: &mut [Group], from: Tx, walk: &[Step]) -> Result<(), AllocError>
    ensures { OnOk result
        ((edges : List Edge) → AreGrouped edges groups.old
        → AreGrouped (edges ++ edges_from from walk.now) groups.new) }
{
    let mut at = from;
    for step in walk {
        let edge = Edge {
            from: at,
            step: *step,
        };
        add_edge(groups, &edge)?;
        at = step.to;
    }
    Ok(())
}

/// The steps of the decision's walk, if it refuses.
fn add_decision(groups: &mut [Group], decision: &Decision) -> Result<(), AllocError>
    ensures { OnOk result
        ((edges : List Edge) → AreGrouped edges groups.old
        → AreGrouped (edges ++ edges_of decision.now) groups.new) }
{
    match decision {
        Decision::Refuse { tx, walk } => add_walk(groups, *tx, walk.as_slice()),
        _ => Ok(()),
    }
}

fn add_decisions(groups: &mut [Group], decisions: &[Decision]) -> Result<(), AllocError>
    ensures { OnOk result
        (AreGrouped [] groups.old → AreGrouped (edges_in decisions.now) groups.new) }
{
    for decision in decisions {
        add_decision(groups, decision)?;
    }
    Ok(())
}

/// How many steps the walks of these have, as far as that is counted.
fn count_steps(decisions: &[Decision]) -> usize {
    let mut count = 0usize;
    for decision in decisions {
        if let Some(walk) = decision.walk() {
            count = count.saturating_add(walk.len());
        }
    }
    count
}

/// No step at any of so many sites, and room for so many at each.
fn fresh(alloc: Global, sites: usize, room: usize) -> Result<Vec<Group>, AllocError>
    ensures { IfOk result
        (λ groups. (length groups.items ≡ sites) × All (λ g. g.edges.items ≡ []) groups.items) }
{
    let mut groups = Vec::new(alloc);
    for _ in 0..sites {
        let edges = Vec::with_capacity(alloc, room)?;
        groups.push(Group { edges })?;
    }
    Ok(groups)
}

impl Steps {
    /// The steps of the walks, at so many sites.
    pub(crate) fn new(
        alloc: Global,
        sites: usize,
        decisions: &[Decision],
    ) -> Result<Steps, AllocError>
        ensures { IfOk result
            (λ steps. All (λ e. e.step.label.site < sites) (edges_in decisions.now)
            → AreStepsOf decisions.now steps) }
    {
        let room = count_steps(decisions) / sites.max(1);
        let mut groups = fresh(alloc, sites, room)?;
        add_decisions(groups.as_mut_slice(), decisions)?;
        Ok(Steps { groups })
    }

    /// The steps at the site of this number.
    pub fn at(&self, site: usize) -> &[Edge]
        ensures { (decisions : List Decision) → AreStepsOf decisions self.now
            → AreStepsAt decisions site result.now }
    {
        match self.groups.get(site) {
            Some(group) => group.edges.as_slice(),
            None => &[],
        }
    }
}
