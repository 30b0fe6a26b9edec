//! The walks of refused transactions, against the logs.

ghost use Rattle.std.specs.Prelude.{◌≡◌, ◌↔◌, ℕ, [], List, length, IsTrue, All, Contains};
ghost use Rattle.sgt_names.specs.declared.entry.Entry.{Entry};
ghost use Rattle.sgt_names.specs.declared.entry.Holding.{Holding};
ghost use Rattle.sgt_notation.specs.declared.SectionLine.TheVariants.{End};
ghost use Rattle.sgt_bundle.specs.Text.{IsCertificate};
ghost use Rattle.sgt_bundle.specs.Valid.{AreLogged};
ghost use Rattle.sgt_bundle.specs.declared.bundle.SiteLog.{SiteLog};
ghost use Rattle.sgt_bundle.specs.declared.certificate.Certificate.{Certificate};
ghost use Rattle.sgt_bundle.specs.declared.certificate.Decision.{Decision};
ghost use Rattle.sgt_bundle.specs.declared.certificate.Decision.TheVariants.{Refuse};
ghost use Rattle.sgt_bundle.specs.declared.certificate.Step.{Step};
ghost use Rattle.sgt_audit_decisions.specs.Steps.{AreStepsAt, AreStepsOf};
ghost use Rattle.sgt_audit_decisions.specs.declared.steps.Edge.{Edge};
ghost use Rattle.sgt_audit_cells.specs.Tracks.{TracksOpen};
ghost use Rattle.sgt_audit.specs.Alone.{MeetsSteps};
ghost use Rattle.sgt_audit.specs.Kept.{IsMet, MeansMet};
ghost use Rattle.sgt_audit.specs.Reading.{Begun};
ghost use Rattle.sgt_audit.specs.private.Following.{MayFollow, with_next};

use sgt_audit_cells::SiteState;
use sgt_audit_decisions::{Decided, Edge, Steps};

/// The steps of all walks, and whether each at a site whose log is whole is a conflict there.
#[derive(Drop)]
pub struct Walks {
    pub steps: Steps,
    pub met: bool,
}

/// Whether the step is a conflict in the open log.
fn is_met(certificate: &Decided, state: &SiteState, edge: &Edge) -> bool
    ensures { (items : List Holding) (entries : List Entry)
        → TracksOpen certificate.now.decisions items entries state.now
        → (IsTrue result ↔ IsMet entries edge.now) }
{
    let from = edge.from;
    let to = edge.step.to;
    if from == to {
        return false;
    }
    let label = edge.step.label;
    let first = certificate.number_of(from);
    let second = certificate.number_of(to);
    state.have_conflict(label.kind, &label.item, first, second)
}

/// Whether each of the steps is a conflict in the open log.
pub(crate) fn are_met(certificate: &Decided, state: &SiteState, edges: &[Edge]) -> bool
    ensures { (items : List Holding) (entries : List Entry)
        → TracksOpen certificate.now.decisions items entries state.now
        → (IsTrue result ↔ All (IsMet entries) edges.now) }
{
    for edge in edges {
        if !is_met(certificate, state, edge) {
            return false;
        }
    }
    true
}

impl Walks {
    /// Before the first section.
    pub(crate) fn new(steps: Steps) -> Walks
        ensures { (decisions : List Decision) → AreStepsOf decisions steps
            → MeansMet decisions [] result }
    {
        Walks { steps, met: true }
    }

    /// The log of one more site is whole, and it is known whether the steps at the site are conflicts there.
    pub(crate) fn pass(&mut self, met: bool)
        ensures { (decisions : List Decision) (b : Begun) (edges : List Edge) → MayFollow b b.current End
            → AreStepsAt decisions (length b.whole) edges
            → MeetsSteps edges b.current End met
            → MeansMet decisions b.whole self.old
            → MeansMet decisions (with_next b b.current End).whole self.new }
    {
        if !met {
            self.met = false;
        }
    }
}
