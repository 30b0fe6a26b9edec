//! What is drawn of a bundle, and how.

ghost use Rattle.std.specs.Prelude.{◌≡◌, [], ◌∷◌, Some, IfOk, OnOk, map, option_map};
ghost use Rattle.sgt_draw.specs.Drawn.{IsBundlePicture};
ghost use Rattle.sgt_draw.specs.Node.{node};
ghost use Rattle.sgt_draw.specs.Private.{row_node, scene_nodes};
ghost use Rattle.sgt_draw.specs.Sheet.{Adds};
ghost use Rattle.sgt_draw.specs.Gathering.{AddsWanted};
ghost use Rattle.sgt_draw.specs.Wanted.{all_nodes, cycle_nodes, decision_on};
ghost use Rattle.sgt_draw.specs.declared.node.Fate.TheVariants.{Neither};

use crate::around::{Around, neighbours_of};
use crate::cycles::Cycle;
use crate::dot;
use crate::drawing::Drawing;
use crate::edges::edges_in;
use crate::increments::Increments;
use crate::lanes::laid_in;
use crate::row::Row;
use crate::scene::{MOST_DRAWN, Numbered, Scene};
use crate::svg::{self, Picture};
use sgt_bundle::{Bundle, Decision, Step};
use sgt_names::Tx;
use std::alloc::{AllocError, Global};

/// What is to be drawn of a bundle, and how.
#[derive(Clone, Copy, Debug, PartialEq, Eq)]
pub struct Wanted {
    /// This transaction alone, in place of all: the cycle of a refused one, a committed one with its neighbours.
    pub tx: Option<Tx>,
    /// Whether Graphviz text is written in place of SVG.
    pub is_dot: bool,
}

/// The first decision on a transaction.
fn decision_on(decisions: &[Decision], tx: Tx) -> Option<&Decision>
    ensures { option_map (λ d. d.now) result ≡ decision_on tx decisions.now }
{
    for decision in decisions {
        if decision.tx().number() == tx.number() {
            return Some(decision);
        }
    }
    None
}

/// A bundle that is to be drawn, and how.
#[derive(Clone, Copy)]
struct Task<'a> {
    alloc: Global,
    is_dot: bool,
    bundle: &'a Bundle,
}

impl Task<'_> {
    fn decisions(&self) -> &[Decision]
        ensures { result.now ≡ self.now.bundle.now.certificate.decisions }
    {
        self.bundle.certificate().decisions()
    }

    /// Draws a scene.
    fn put_scene(&self, canvas: &mut Drawing, scene: &Scene) -> Result<(), AllocError>
        ensures { OnOk result (Adds (scene_nodes self.now.is_dot self.now.bundle.now.certificate.decisions scene.now)
            canvas.old.shown canvas.new.shown) }
    {
        let alloc = self.alloc;
        let increments = Increments::of(alloc, self.bundle.sites())?;
        let mut edges = edges_in(alloc, scene, self.bundle.sites())?;
        if self.is_dot {
            let graph = dot::Graph {
                scene,
                decisions: self.decisions(),
                edges: edges.as_slice(),
                increments: &increments,
            };
            return graph.put(alloc, canvas);
        }
        let most = scene.committed.len().max(scene.withdrawn.len());
        let row = Row {
            count: most as u64,
            is_named: scene.is_small(),
        };
        let laid = laid_in(alloc, &mut edges, &row)?;
        let picture = Picture {
            scene,
            decisions: self.decisions(),
            laid: laid.as_slice(),
            row,
            increments: &increments,
        };
        picture.put(canvas)
    }

    /// Draws all of it.
    fn put_all(&self, canvas: &mut Drawing) -> Result<(), AllocError>
        ensures { OnOk result (Adds (all_nodes self.now.is_dot self.now.bundle.now.certificate.decisions)
            canvas.old.shown canvas.new.shown) }
    {
        let scene = Scene::of(self.alloc, self.decisions(), u64::from(MOST_DRAWN))?;
        self.put_scene(canvas, &scene)
    }

    /// Draws the cycle of a refused transaction.
    fn put_cycle(&self, canvas: &mut Drawing, tx: Tx, walk: &[Step]) -> Result<(), AllocError>
        ensures { OnOk result (Adds (cycle_nodes self.now.is_dot tx walk.now) canvas.old.shown canvas.new.shown) }
    {
        let increments = Increments::of(self.alloc, self.bundle.sites())?;
        let cycle = Cycle {
            tx,
            walk,
            is_named: true,
            increments: &increments,
        };
        if self.is_dot {
            return dot::put_cycle(canvas, &cycle);
        }
        svg::put_cycle(canvas, &cycle)
    }

    /// Draws a committed transaction with its neighbours.
    fn put_around(
        &self,
        canvas: &mut Drawing,
        tx: Tx,
        around: &mut Around,
    ) -> Result<(), AllocError>
        ensures { OnOk result (Adds (map (row_node (Some tx)) around.old.scene.committed.items)
            canvas.old.shown canvas.new.shown) }
    {
        let increments = Increments::none(self.alloc);
        if self.is_dot {
            let graph = dot::Graph {
                scene: &around.scene,
                decisions: self.decisions(),
                edges: around.edges.as_slice(),
                increments: &increments,
            };
            return graph.put_around(canvas, tx);
        }
        let row = Row {
            count: around.scene.committed.len() as u64,
            is_named: around.scene.is_small(),
        };
        let laid = laid_in(self.alloc, &mut around.edges, &row)?;
        let picture = Picture {
            scene: &around.scene,
            decisions: self.decisions(),
            laid: laid.as_slice(),
            row,
            increments: &increments,
        };
        picture.put_around(canvas, tx, around.neighbours)
    }

    /// Draws a transaction alone that was neither refused nor committed.
    fn put_neither(&self, canvas: &mut Drawing, tx: Tx) -> Result<(), AllocError>
        ensures { OnOk result (Adds (node Neither tx ∷ []) canvas.old.shown canvas.new.shown) }
    {
        if self.is_dot {
            return dot::put_neither(canvas, tx);
        }
        svg::put_neither(canvas, tx)
    }

    /// Draws a transaction on which this is the first decision.
    fn put_decided(
        &self,
        canvas: &mut Drawing,
        tx: Tx,
        decision: &Decision,
    ) -> Result<(), AllocError>
        requires { decision_on tx self.now.bundle.now.certificate.decisions ≡ Some decision.now }
        ensures { OnOk result (AddsWanted self.now.is_dot (Some tx) self.now.bundle.now.certificate.decisions
            canvas.old.shown canvas.new.shown) }
    {
        match decision {
            Decision::Refuse { walk, .. } => self.put_cycle(canvas, tx, walk.as_slice()),
            Decision::Commit { rank, .. } => {
                let one = Numbered { tx, number: *rank };
                let mut found = neighbours_of(self.alloc, self.bundle, one)?;
                self.put_around(canvas, tx, &mut found)
            }
            Decision::Withdraw { .. } => self.put_neither(canvas, tx),
        }
    }

    /// Draws one transaction: a refused one's cycle, a committed one's neighbours.
    fn put_one(&self, canvas: &mut Drawing, tx: Tx) -> Result<(), AllocError>
        ensures { OnOk result (AddsWanted self.now.is_dot (Some tx) self.now.bundle.now.certificate.decisions
            canvas.old.shown canvas.new.shown) }
    {
        match decision_on(self.decisions(), tx) {
            Some(decision) => self.put_decided(canvas, tx, decision),
            None => self.put_neither(canvas, tx),
        }
    }

    /// Draws what is wanted of it.
    fn put(&self, canvas: &mut Drawing, tx: Option<Tx>) -> Result<(), AllocError>
        ensures { OnOk result (AddsWanted self.now.is_dot tx self.now.bundle.now.certificate.decisions
            canvas.old.shown canvas.new.shown) }
    {
        match tx {
            Some(tx) => self.put_one(canvas, tx),
            None => self.put_all(canvas),
        }
    }
}

/// The picture of a bundle, which is to be valid: one that isn't is drawn, too, as far as its decisions and its logs go.
pub fn picture(alloc: Global, wanted: Wanted, bundle: &Bundle) -> Result<Vec<u8>, AllocError>
    ensures { IfOk result (λ text. IsBundlePicture wanted bundle.now text.items) }
{
    let is_dot = wanted.is_dot;
    let mut canvas = Drawing::new(alloc, is_dot)?;
    let task = Task {
        alloc,
        is_dot,
        bundle,
    };
    task.put(&mut canvas, wanted.tx)?;
    canvas.into_text()
}
