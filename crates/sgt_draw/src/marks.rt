//! What transactions and kinds of conflicts look like.

ghost use Rattle.std.specs.Prelude.{◌≡◌, ◌++◌, OnOk};
ghost use Rattle.sgt_draw.specs.Parts.{kind_text, label_text};
ghost use Rattle.sgt_draw.specs.Sheet.{with_node};

use crate::canvas::Part;
use crate::drawing::Drawing;
use crate::edges::Edge;
use crate::node::{Fate, Node};
use crate::row::LETTER;
use sgt_bundle::Step;
use sgt_names::{Item, Kind};
use std::alloc::AllocError;

/// The markup of a colour and of dashes.
pub(crate) fn stroke_of(kind: Kind) -> &'static str {
    match kind {
        Kind::Wr => " fill=\"none\" stroke=\"#0072b2\"",
        Kind::Rw => " fill=\"none\" stroke=\"#d55e00\" stroke-dasharray=\"8 4\"",
        Kind::Ww => " fill=\"none\" stroke=\"#007a5a\" stroke-dasharray=\"2 3\"",
    }
}

/// The markup of the same colour for the tip of an arrow.
fn fill_of_tip(kind: Kind) -> &'static str {
    match kind {
        Kind::Wr => "<path fill=\"#0072b2\" d=\"M",
        Kind::Rw => "<path fill=\"#d55e00\" d=\"M",
        Kind::Ww => "<path fill=\"#007a5a\" d=\"M",
    }
}

/// Where the tip of an arrow shows to.
#[derive(Clone, Copy, PartialEq, Eq)]
pub enum Tip {
    Right,
    Up,
    Down,
    /// Down, and smaller.
    Small,
}

/// How long a tip is.
pub const TIP: u64 = 9;

/// The tip of an arrow, with its point here. It is drawn as any other shape is: not all that shows SVG has markers.
pub(crate) fn put_tip(
    canvas: &mut Drawing,
    at: Point,
    tip: Tip,
    kind: Kind,
) -> Result<(), AllocError>
    ensures { OnOk result (canvas.new.shown ≡ canvas.old.shown) }
{
    let (x, y) = (at.x, at.y);
    let (left, top, shape) = match tip {
        Tip::Right => (
            x.saturating_sub(TIP),
            y.saturating_sub(5),
            "v10l9 -5z\"/>\n",
        ),
        Tip::Up => (
            x.saturating_sub(5),
            y.saturating_add(TIP),
            "h10l-5 -9z\"/>\n",
        ),
        Tip::Down => (
            x.saturating_sub(5),
            y.saturating_sub(TIP),
            "h10l-5 9z\"/>\n",
        ),
        Tip::Small => (x.saturating_sub(3), y.saturating_sub(7), "h6l-3 7z\"/>\n"),
    };
    canvas.put(&[
        Part::Markup(fill_of_tip(kind)),
        Part::Number(left),
        Part::Markup(" "),
        Part::Number(top),
        Part::Markup(shape),
    ])
}

/// The name of a kind of conflict.
pub(crate) fn kind_name(kind: Kind) -> &'static str
    ensures { result.now ≡ kind_text kind }
{
    match kind {
        Kind::Wr => "wr",
        Kind::Rw => "rw",
        Kind::Ww => "ww",
    }
}

/// A conflict as it is named: `rw 0.x`.
pub(crate) fn put_label(
    canvas: &mut Drawing,
    kind: Kind,
    site: u64,
    item: &Item,
) -> Result<(), AllocError>
    ensures text { OnOk result (canvas.new.text ≡ canvas.old.text ++ label_text kind site item.now) }
    ensures shown { OnOk result (canvas.new.shown ≡ canvas.old.shown) }
{
    canvas.put(&[
        Part::Markup(kind_name(kind)),
        Part::Markup(" "),
        Part::Number(site),
        Part::Markup("."),
        Part::Name(item.as_bytes()),
    ])
}

/// A plus, where an increment is in the conflict.
fn put_plus(canvas: &mut Drawing, is_increment: bool) -> Result<(), AllocError>
    ensures { OnOk result (canvas.new.shown ≡ canvas.old.shown) }
{
    if is_increment {
        canvas.put(&[Part::Markup("+")])?;
    }
    Ok(())
}

/// The label of a step: `rw 0.x`, and a plus for an increment.
pub(crate) fn put_step_label(
    canvas: &mut Drawing,
    step: &Step,
    is_increment: bool,
) -> Result<(), AllocError>
    ensures { OnOk result (canvas.new.shown ≡ canvas.old.shown) }
{
    let label = &step.label;
    let site = u64::from(label.site.number());
    put_label(canvas, label.kind, site, &label.item)?;
    put_plus(canvas, is_increment)
}

/// The label of an edge: `wr 0.x`, a plus for an increment, and how many more there are.
pub(crate) fn put_edge_label(canvas: &mut Drawing, edge: &Edge) -> Result<(), AllocError>
    ensures { OnOk result (canvas.new.shown ≡ canvas.old.shown) }
{
    put_label(canvas, edge.kind, edge.site, &edge.item)?;
    put_plus(canvas, edge.is_increment)?;
    if edge.more > 0 {
        canvas.put(&[
            Part::Markup(" and "),
            Part::Number(edge.more),
            Part::Markup(" more"),
        ])?;
    }
    Ok(())
}

/// How many digits a number has.
fn digits_of(number: u64) -> u64 {
    let mut count = 1u64;
    let mut rest = number / 10;
    for _ in 0..20u8 {
        if rest == 0 {
            return count;
        }
        count = count.saturating_add(1);
        rest /= 10;
    }
    count
}

/// The number that the first two digits of a number are.
fn first_two_of(number: u64) -> u64 {
    let mut front = number;
    for _ in 0..20u8 {
        if front < 100 {
            return front;
        }
        front /= 10;
    }
    front
}

/// How wide a conflict's kind, site and item are, and a plus.
pub(crate) fn conflict_width(site: u64, item: &Item) -> u64 {
    let letters = (item.as_bytes().len() as u64).saturating_add(5);
    letters
        .saturating_add(digits_of(site))
        .saturating_mul(LETTER)
}

/// How wide the label of an edge is.
pub(crate) fn label_width(edge: &Edge) -> u64 {
    let more = if edge.more > 0 {
        digits_of(edge.more)
            .saturating_add(10)
            .saturating_mul(LETTER)
    } else {
        0
    };
    conflict_width(edge.site, &edge.item).saturating_add(more)
}

fn fill_of(fate: Fate) -> &'static str {
    match fate {
        Fate::Committed => " fill=\"#e8f0f8\" stroke=\"#333333\"/>",
        Fate::Asked => " fill=\"#fff2cc\" stroke=\"#333333\" stroke-width=\"2\"/>",
        Fate::Refused => " fill=\"#ffd9d0\" stroke=\"#a00000\" stroke-width=\"2\"/>",
        Fate::Withdrawn | Fate::Neither => {
            " fill=\"#dddddd\" stroke=\"#888888\" stroke-dasharray=\"3 2\"/>"
        }
    }
}

/// A point of the picture, from its left upper corner.
#[derive(Clone, Copy)]
pub struct Point {
    pub x: u64,
    pub y: u64,
}

/// Text whose middle is at this point.
pub(crate) fn put_text(canvas: &mut Drawing, at: Point, parts: &[Part]) -> Result<(), AllocError>
    ensures { OnOk result (canvas.new.shown ≡ canvas.old.shown) }
{
    canvas.put(&[
        Part::Markup("<text x=\""),
        Part::Number(at.x),
        Part::Markup("\" y=\""),
        Part::Number(at.y),
        Part::Markup("\" text-anchor=\"middle\">"),
    ])?;
    canvas.put(parts)?;
    canvas.put(&[Part::Markup("</text>\n")])
}

/// Text that begins at this point.
pub(crate) fn put_left(canvas: &mut Drawing, at: Point, parts: &[Part]) -> Result<(), AllocError>
    ensures { OnOk result (canvas.new.shown ≡ canvas.old.shown) }
{
    canvas.put(&[
        Part::Markup("<text x=\""),
        Part::Number(at.x),
        Part::Markup("\" y=\""),
        Part::Number(at.y),
        Part::Markup("\">"),
    ])?;
    canvas.put(parts)?;
    canvas.put(&[Part::Markup("</text>\n")])
}

/// A number with its middle at this point. Where it has more digits than there is room for, the first two stand
/// there, an ellipsis, and the last two.
pub(crate) fn put_number(
    canvas: &mut Drawing,
    at: Point,
    number: u64,
    room: u64,
) -> Result<(), AllocError>
    ensures { OnOk result (canvas.new.shown ≡ canvas.old.shown) }
{
    if digits_of(number) <= room.max(4) {
        return put_text(canvas, at, &[Part::Number(number)]);
    }
    put_text(
        canvas,
        at,
        &[
            Part::Number(first_two_of(number)),
            Part::Markup("&#8230;"),
            Part::Number(number / 10 % 10),
            Part::Number(number % 10),
        ],
    )
}

/// A transaction as a box of this half width with its number; as a dot where that is no wider than one.
pub(crate) fn put_node(
    canvas: &mut Drawing,
    at: Point,
    node: &Node,
    half: u64,
) -> Result<(), AllocError>
    ensures { OnOk result (canvas.new.shown ≡ with_node canvas.old.shown node.now) }
{
    canvas.put_node(node)?;
    put_shape(canvas, at, node, half)
}

/// The box of a transaction, or the dot.
fn put_shape(canvas: &mut Drawing, at: Point, node: &Node, half: u64) -> Result<(), AllocError>
    ensures { OnOk result (canvas.new.shown ≡ canvas.old.shown) }
{
    if half <= 4 {
        return canvas.put(&[
            Part::Markup("<circle r=\"3\" cx=\""),
            Part::Number(at.x),
            Part::Markup("\" cy=\""),
            Part::Number(at.y),
            Part::Markup("\""),
            Part::Markup(fill_of(node.fate)),
            Part::Markup("</g>\n"),
        ]);
    }
    canvas.put(&[
        Part::Markup("<rect height=\"24\" rx=\"5\" width=\""),
        Part::Number(half.saturating_mul(2)),
        Part::Markup("\" x=\""),
        Part::Number(at.x.saturating_sub(half)),
        Part::Markup("\" y=\""),
        Part::Number(at.y.saturating_sub(12)),
        Part::Markup("\""),
        Part::Markup(fill_of(node.fate)),
    ])?;
    let middle = Point {
        x: at.x,
        y: at.y.saturating_add(4),
    };
    let number = u64::from(node.tx.number());
    put_number(canvas, middle, number, half.saturating_mul(2) / LETTER)?;
    canvas.put(&[Part::Markup("</g>\n")])
}
