//! The picture as Graphviz text.

ghost use Rattle.std.specs.Prelude.{◌≡◌, true, [], ◌∷◌, None, Some, OnOk, flat_map, map};
ghost use Rattle.std.specs.Option.{option_map_or};
ghost use Rattle.sgt_draw.specs.Node.{node};
ghost use Rattle.sgt_draw.specs.Private.{refused_at, row_node, scene_nodes};
ghost use Rattle.sgt_draw.specs.Sheet.{Adds};
ghost use Rattle.sgt_draw.specs.Wanted.{cycle_nodes};
ghost use Rattle.sgt_draw.specs.declared.node.Fate.TheVariants.{Neither, Refused, Withdrawn};

use crate::canvas::Part;
use crate::cycles::Cycle;
use crate::drawing::Drawing;
use crate::edges::Edge;
use crate::increments::Increments;
use crate::marks::{put_edge_label, put_step_label};
use crate::node::{Fate, Node};
use crate::scene::{Numbered, Scene};
use crate::svg::fate_in_row;
use crate::ways::{Ways, key_at, key_of};
use sgt_bundle::{Decision, Step};
use sgt_names::{Kind, Tx};
use std::alloc::{AllocError, Global};

/// What is drawn of a bundle.
#[derive(Drop)]
pub struct Graph<'a> {
    pub scene: &'a Scene,
    pub decisions: &'a [Decision],
    pub edges: &'a [Edge],
    pub increments: &'a Increments,
}

fn style_of(kind: Kind) -> &'static str {
    match kind {
        Kind::Wr => "\", color=\"#0072b2\", style=solid",
        Kind::Rw => "\", color=\"#d55e00\", style=dashed",
        Kind::Ww => "\", color=\"#007a5a\", style=dotted",
    }
}

fn put_ends(canvas: &mut Drawing, from: Tx, to: Tx) -> Result<(), AllocError>
    ensures { OnOk result (canvas.new.shown ≡ canvas.old.shown) }
{
    canvas.put(&[
        Part::Markup("  "),
        Part::Number(u64::from(from.number())),
        Part::Markup(" -> "),
        Part::Number(u64::from(to.number())),
        Part::Markup(" [label=\""),
    ])
}

/// The end of an edge: its kind's look, and a thick line where it is in a cycle.
fn put_style(canvas: &mut Drawing, kind: Kind, is_in_cycle: bool) -> Result<(), AllocError>
    ensures { OnOk result (canvas.new.shown ≡ canvas.old.shown) }
{
    canvas.put(&[
        Part::Markup(style_of(kind)),
        Part::Markup(if is_in_cycle {
            ", penwidth=3];\n"
        } else {
            "];\n"
        }),
    ])
}

fn put_edge(
    canvas: &mut Drawing,
    scene: &Scene,
    edge: &Edge,
    is_in_cycle: bool,
) -> Result<(), AllocError>
    ensures { OnOk result (canvas.new.shown ≡ canvas.old.shown) }
{
    let committed = scene.committed.as_slice();
    let (Some(from), Some(to)) = (
        committed.get(edge.from as usize),
        committed.get(edge.to as usize),
    ) else {
        return Ok(());
    };
    put_ends(canvas, from.tx, to.tx)?;
    put_edge_label(canvas, edge)?;
    put_style(canvas, edge.kind, is_in_cycle)
}

/// A step of a cycle from this transaction.
fn put_step(
    canvas: &mut Drawing,
    from: Tx,
    step: &Step,
    is_increment: bool,
) -> Result<(), AllocError>
    ensures { OnOk result (canvas.new.shown ≡ canvas.old.shown) }
{
    put_ends(canvas, from, step.to)?;
    put_step_label(canvas, step, is_increment)?;
    put_style(canvas, step.label.kind, true)
}

fn put_head(canvas: &mut Drawing) -> Result<(), AllocError>
    ensures { OnOk result (canvas.new.shown ≡ canvas.old.shown) }
{
    canvas.put(&[Part::Markup("  rankdir=LR;\n  node [shape=box];\n")])
}

/// The edges that are written: none twice.
#[derive(Drop)]
struct Written {
    edges: Ways,
    walks: Ways,
}

/// The nodes of committed transactions.
fn put_row(
    canvas: &mut Drawing,
    committed: &[Numbered],
    asked: &Option<Tx>,
) -> Result<(), AllocError>
    ensures { OnOk result (Adds (map (row_node asked.now) committed.now) canvas.old.shown canvas.new.shown) }
{
    for one in committed {
        canvas.put_node(&Node {
            fate: fate_in_row(asked, one.tx),
            tx: one.tx,
        })?;
    }
    Ok(())
}

/// The nodes of withdrawn transactions.
fn put_grey(canvas: &mut Drawing, withdrawn: &[Tx]) -> Result<(), AllocError>
    ensures { OnOk result (Adds (map (node Withdrawn) withdrawn.now) canvas.old.shown canvas.new.shown) }
{
    for tx in withdrawn {
        canvas.put_node(&Node {
            fate: Fate::Withdrawn,
            tx: *tx,
        })?;
    }
    Ok(())
}

impl Graph<'_> {
    /// The conflicts. Those that are steps of cycles, too, have thick lines.
    fn put_edges(&self, canvas: &mut Drawing, written: &Written) -> Result<(), AllocError>
        ensures { OnOk result (canvas.new.shown ≡ canvas.old.shown) }
    {
        for edge in self.edges {
            let is_in_cycle = match key_at(self.scene, edge) {
                Some(key) => written.walks.first(&key).is_some(),
                None => false,
            };
            put_edge(canvas, self.scene, edge, is_in_cycle)?;
        }
        Ok(())
    }

    /// A step of the cycle with this number, if it is not written yet.
    fn put_new_step(
        &self,
        canvas: &mut Drawing,
        leg: (Tx, &Step),
        number: usize,
        written: &Written,
    ) -> Result<(), AllocError>
        ensures { OnOk result (canvas.new.shown ≡ canvas.old.shown) }
    {
        let (from, step) = leg;
        let key = key_of(from, step);
        if written.edges.first(&key).is_none() && written.walks.first(&key) == Some(number) {
            let is_increment = self.increments.has_step(from, step);
            put_step(canvas, from, step, is_increment)?;
        }
        Ok(())
    }

    /// The steps of a refused transaction's cycle that are not written yet.
    fn put_steps(
        &self,
        canvas: &mut Drawing,
        tx: Tx,
        number: usize,
        written: &Written,
    ) -> Result<(), AllocError>
        ensures { OnOk result (canvas.new.shown ≡ canvas.old.shown) }
    {
        let Some(decision) = self.decisions.get(number) else {
            return Ok(());
        };
        let walk = decision.walk().unwrap_or(&[]);
        let mut from = tx;
        for step in walk {
            self.put_new_step(canvas, (from, step), number, written)?;
            from = step.to;
        }
        Ok(())
    }

    /// The transaction of the refusal with this number.
    fn refused(&self, number: usize) -> Option<Tx>
        ensures { option_map_or (λ tx. node Refused tx ∷ []) result []
            ≡ refused_at true self.now.decisions.now number }
    {
        match self.decisions.get(number)? {
            Decision::Refuse { tx, .. } => Some(*tx),
            _ => None,
        }
    }

    /// The refused transaction of the decision with this number, with the steps of its cycle that are not written yet.
    fn put_refused(
        &self,
        canvas: &mut Drawing,
        number: usize,
        written: &Written,
    ) -> Result<(), AllocError>
        ensures { OnOk result (Adds (refused_at true self.now.decisions.now number) canvas.old.shown
            canvas.new.shown) }
    {
        match self.refused(number) {
            Some(tx) => {
                canvas.put_node(&Node {
                    fate: Fate::Refused,
                    tx,
                })?;
                self.put_steps(canvas, tx, number, written)?;
                Ok(())
            }
            None => Ok(()),
        }
    }

    fn put_cycles(
        &self,
        canvas: &mut Drawing,
        refusals: &[usize],
        written: &Written,
    ) -> Result<(), AllocError>
        ensures { OnOk result (Adds (flat_map (refused_at true self.now.decisions.now) refusals.now)
            canvas.old.shown canvas.new.shown) }
    {
        for number in refusals {
            self.put_refused(canvas, *number, written)?;
        }
        Ok(())
    }

    /// The head, and a line that says that some are left out.
    fn put_above(&self, canvas: &mut Drawing) -> Result<(), AllocError>
        ensures { OnOk result (canvas.new.shown ≡ canvas.old.shown) }
    {
        put_head(canvas)?;
        if self.scene.leaves_out() {
            canvas.put(&[Part::Markup(
                "  label=\"The first 200 ranks, and the first 200 refused and withdrawn ones.\";\n",
            )])?;
        }
        Ok(())
    }

    /// All that is drawn.
    pub(crate) fn put(&self, alloc: Global, canvas: &mut Drawing) -> Result<(), AllocError>
        ensures { OnOk result (Adds (scene_nodes true self.now.decisions.now self.now.scene.now)
            canvas.old.shown canvas.new.shown) }
    {
        self.put_above(canvas)?;
        let written = Written {
            edges: Ways::of_edges(alloc, self.scene, self.edges)?,
            walks: Ways::of_walks(alloc, self.scene, self.decisions)?,
        };
        put_row(canvas, self.scene.committed.as_slice(), &None)?;
        self.put_edges(canvas, &written)?;
        self.put_cycles(canvas, self.scene.refusals.as_slice(), &written)?;
        put_grey(canvas, self.scene.withdrawn.as_slice())
    }

    /// The edges between a committed transaction and its neighbours.
    fn put_thin_edges(&self, canvas: &mut Drawing) -> Result<(), AllocError>
        ensures { OnOk result (canvas.new.shown ≡ canvas.old.shown) }
    {
        for edge in self.edges {
            put_edge(canvas, self.scene, edge, false)?;
        }
        Ok(())
    }

    /// A committed transaction with its neighbours.
    pub(crate) fn put_around(&self, canvas: &mut Drawing, tx: Tx) -> Result<(), AllocError>
        ensures { OnOk result (Adds (map (row_node (Some tx)) self.now.scene.now.committed.items)
            canvas.old.shown canvas.new.shown) }
    {
        put_head(canvas)?;
        put_row(canvas, self.scene.committed.as_slice(), &Some(tx))?;
        self.put_thin_edges(canvas)
    }
}

/// The steps of a cycle.
fn put_walk(canvas: &mut Drawing, cycle: &Cycle) -> Result<(), AllocError>
    ensures { OnOk result (canvas.new.shown ≡ canvas.old.shown) }
{
    let mut from = cycle.tx;
    for step in cycle.walk {
        let is_increment = cycle.increments.has_step(from, step);
        put_step(canvas, from, step, is_increment)?;
        from = step.to;
    }
    Ok(())
}

/// The cycle of one refused transaction alone.
pub(crate) fn put_cycle(canvas: &mut Drawing, cycle: &Cycle) -> Result<(), AllocError>
    ensures { OnOk result (Adds (cycle_nodes true cycle.now.tx cycle.now.walk.now) canvas.old.shown
        canvas.new.shown) }
{
    put_head(canvas)?;
    canvas.put_node(&Node {
        fate: Fate::Refused,
        tx: cycle.tx,
    })?;
    put_walk(canvas, cycle)
}

/// A transaction alone that was neither refused nor committed.
pub(crate) fn put_neither(canvas: &mut Drawing, tx: Tx) -> Result<(), AllocError>
    ensures { OnOk result (Adds (node Neither tx ∷ []) canvas.old.shown canvas.new.shown) }
{
    put_head(canvas)?;
    canvas.put_node(&Node {
        fate: Fate::Neither,
        tx,
    })
}
