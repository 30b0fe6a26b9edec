//! The cycle as Graphviz text.

ghost use Rattle.std.specs.Prelude.{◌≡◌, ◌++◌, IfOk, OnOk, flat_map, map};
ghost use Rattle.sgt_history_picture.specs.Graph.{edge_text, graph_text, look_text};
ghost use Rattle.sgt_history_picture.specs.Told.{step_of};

use crate::picture::kind_word;
use crate::told::{Kind, Told};
use sgt_draw::{Canvas, Part};
use std::alloc::{AllocError, Global};

/// What ends an edge: its look, of the first three kinds as `sgt draw` has it.
fn look_of(kind: Kind) -> &'static str
    ensures { result.now ≡ look_text kind }
{
    match kind {
        Kind::WriteRead => "\", color=\"#0072b2\", style=solid, penwidth=3];\n",
        Kind::ReadWrite => "\", color=\"#d55e00\", style=dashed, penwidth=3];\n",
        Kind::WriteWrite => "\", color=\"#007a5a\", style=dotted, penwidth=3];\n",
        Kind::Session => "\", color=\"#7b3294\", style=solid, penwidth=3];\n",
        Kind::Moment => "\", color=\"#555555\", style=dashed, penwidth=3];\n",
        Kind::End => "\", color=\"#333333\", style=solid, penwidth=3];\n",
    }
}

/// The edge of a step.
fn put_edge(canvas: &mut Canvas, step: &Told<'_>) -> Result<(), AllocError>
    ensures { OnOk result (canvas.new ≡ canvas.old ++ edge_text (step_of step.now)) }
{
    canvas.put(&[
        Part::Markup("  \""),
        Part::Name(step.from),
        Part::Markup("\" -> \""),
        Part::Name(step.to),
        Part::Markup("\" [label=\""),
        Part::Markup(kind_word(step.kind)),
        Part::Markup(" "),
        Part::Name(step.about),
        Part::Markup(look_of(step.kind)),
    ])
}

/// The edges of steps.
fn put_edges(canvas: &mut Canvas, steps: &[Told<'_>]) -> Result<(), AllocError>
    ensures { OnOk result (canvas.new ≡ canvas.old ++ flat_map (λ t. edge_text (step_of t)) steps.now) }
{
    for step in steps {
        put_edge(canvas, step)?;
    }
    Ok(())
}

/// The graph of a cycle's steps.
pub(crate) fn graph(alloc: Global, steps: &[Told<'_>]) -> Result<Vec<u8>, AllocError>
    ensures { IfOk result (λ text. text.items ≡ graph_text (map step_of steps.now)) }
{
    let mut canvas = Canvas::new(alloc, true)?;
    canvas.put(&[Part::Markup("  rankdir=LR;\n  node [shape=box];\n")])?;
    put_edges(&mut canvas, steps)?;
    canvas.into_text()
}
