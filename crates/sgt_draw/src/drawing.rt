//! A picture that grows, and which transactions stand in it.

ghost use Rattle.std.specs.Prelude.{◌≡◌, ◌++◌, true, false, IfOk, OnOk};
ghost use Rattle.sgt_draw.specs.Node.{before, behind, node_text};
ghost use Rattle.sgt_draw.specs.Parts.{parts_text};
ghost use Rattle.sgt_draw.specs.Picture.{IsPictureOf};

use crate::canvas::{Canvas, Part};
use crate::node::{Fate, Node, Nodes};
use std::alloc::{AllocError, Global};
use std::marker::Model;

/// What stands before the number of a transaction.
fn before(is_dot: bool, fate: Fate) -> &'static str
    ensures { result.now ≡ before is_dot fate }
{
    match (is_dot, fate) {
        (true, _) => "  ",
        (false, Fate::Neither) => "transaction ",
        (false, _) => "<g><title>transaction ",
    }
}

/// What stands behind its number, in Graphviz text: how it looks.
fn style_of(fate: Fate) -> &'static str
    ensures { result.now ≡ behind true fate }
{
    match fate {
        Fate::Committed | Fate::Neither => ";\n",
        Fate::Asked => " [style=filled, fillcolor=\"#fff2cc\"];\n",
        Fate::Refused => " [style=filled, fillcolor=\"#ffd9d0\", color=\"#a00000\"];\n",
        Fate::Withdrawn => " [style=filled, fillcolor=\"#dddddd\", color=\"#888888\"];\n",
    }
}

/// What stands behind its number, in SVG.
fn words_of(fate: Fate) -> &'static str
    ensures { result.now ≡ behind false fate }
{
    match fate {
        Fate::Committed | Fate::Asked => ", committed</title>",
        Fate::Refused => ", refused</title>",
        Fate::Withdrawn => ", withdrawn</title>",
        Fate::Neither => " was neither refused nor committed: it has no cycle and no conflicts",
    }
}

fn behind(is_dot: bool, fate: Fate) -> &'static str
    ensures { result.now ≡ behind is_dot fate }
{
    if is_dot {
        style_of(fate)
    } else {
        words_of(fate)
    }
}

/// A canvas, and the transactions that were drawn on it. `put_node` alone notes them.
#[derive(Drop)]
pub struct Drawing {
    canvas: Canvas,
    is_dot: bool,
    nodes: Nodes,
}

impl Model for Drawing {
    ghost use Rattle.sgt_draw.specs.Sheet.{IsKept, Sheet};

    ghost Value = { Sheet };

    ghost view = { λ d. record { text = d.canvas; shown = record { is_dot = d.is_dot; nodes = d.nodes.items } } };

    ghost invariant = { λ d. IsKept d.is_dot d.nodes.items d.canvas };
}

impl Drawing {
    ghost use Rattle.sgt_draw.specs.Sheet.{blank, with_node};

    /// The head of Graphviz text, or of SVG.
    pub(crate) fn new(alloc: Global, is_dot: bool) -> Result<Drawing, AllocError>
        ensures { IfOk result (λ drawing. drawing ≡ blank is_dot) }
    {
        Ok(Drawing {
            canvas: Canvas::new(alloc, is_dot)?,
            is_dot,
            nodes: Nodes::none(),
        })
    }

    /// Writes these parts, as a canvas does.
    pub(crate) fn put(&mut self, parts: &[Part]) -> Result<(), AllocError>
        ensures text { OnOk result (self.new.text ≡ self.old.text ++ parts_text parts.now) }
        ensures shown { OnOk result (self.new.shown ≡ self.old.shown) }
    {
        self.canvas.write(parts)
    }

    /// Writes a transaction's number and its fate, and notes that it was drawn.
    pub(crate) fn put_node(&mut self, node: &Node) -> Result<(), AllocError>
        ensures text { OnOk result (self.new.text ≡ self.old.text ++ node_text self.old.shown.is_dot node.now) }
        ensures shown { OnOk result (self.new.shown ≡ with_node self.old.shown node.now) }
    {
        self.canvas.write(&[
            Part::Markup(before(self.is_dot, node.fate)),
            Part::Number(u64::from(node.tx.number())),
            Part::Markup(behind(self.is_dot, node.fate)),
        ])?;
        self.nodes = self.nodes.with(node);
        Ok(())
    }

    /// The text with its foot.
    pub(crate) fn into_text(self) -> Result<Vec<u8>, AllocError>
        ensures { IfOk result (λ text. IsPictureOf self.shown.is_dot self.shown.nodes text.items) }
    {
        let Drawing { canvas, .. } = self;
        canvas.into_text()
    }
}
