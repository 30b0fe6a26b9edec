//! The picture of a cycle: its transactions one below the other, an arrow for each step, and the last one's way back
//! to the first.

ghost use Rattle.std.specs.Prelude.{◌≡◌, ◌++◌, List, ℕ, IfNone, IfOk, IfSome, OnOk, map, take};
ghost use Rattle.sgt_history_picture.specs.Drawn.{IsCyclePicture, IsPictureOf, most_steps};
ghost use Rattle.sgt_history_picture.specs.Label.{box_text, headline_text, name_text, title_text, words_text};
ghost use Rattle.sgt_history_picture.specs.Private.{ArePut, Grows, IsMorePut, IsPut, IsQuiet};
ghost use Rattle.sgt_history_picture.specs.Told.{IsCycleTold, Step, kind_text, step_of};

use crate::cycle::cycle_in;
use crate::places::{HIGH, WORDS, box_width, height, top_of, width};
use crate::short::put_shown;
use crate::told::{Kind, Told};
use sgt_draw::{Canvas, Part};
use std::alloc::{AllocError, Global};

/// What ends the line of an arrow and begins its tip. The first three kinds look as `sgt draw` has them.
fn tip_of(kind: Kind) -> &'static str
    ensures { IsQuiet result.now }
{
    match kind {
        Kind::WriteRead => "\" fill=\"none\" stroke=\"#0072b2\"/><path fill=\"#0072b2\" d=\"M",
        Kind::ReadWrite => {
            "\" fill=\"none\" stroke=\"#d55e00\" stroke-dasharray=\"8 4\"/><path fill=\"#d55e00\" d=\"M"
        }
        Kind::WriteWrite => {
            "\" fill=\"none\" stroke=\"#007a5a\" stroke-dasharray=\"2 3\"/><path fill=\"#007a5a\" d=\"M"
        }
        Kind::Session => {
            "\" fill=\"none\" stroke=\"#7b3294\" stroke-dasharray=\"10 3 2 3\"/><path fill=\"#7b3294\" d=\"M"
        }
        Kind::Moment => {
            "\" fill=\"none\" stroke=\"#555555\" stroke-dasharray=\"5 2\"/><path fill=\"#555555\" d=\"M"
        }
        Kind::End => "\" fill=\"none\" stroke=\"#333333\"/><path fill=\"#333333\" d=\"M",
    }
}

/// What a kind means.
fn meaning_of(kind: Kind) -> &'static str
    ensures { IsQuiet result.now }
{
    match kind {
        Kind::WriteWrite => "\">ww: write, next write</text>\n",
        Kind::WriteRead => "\">wr: write, read</text>\n",
        Kind::ReadWrite => "\">rw: read, next write</text>\n",
        Kind::Session => "\">po: one session</text>\n",
        Kind::Moment => "\">rt: done before the other begins</text>",
        Kind::End => "\">before: an end, and a later end</text>",
    }
}

/// A kind, as the answer names it.
pub(crate) fn kind_word(kind: Kind) -> &'static str
    ensures { result.now ≡ kind_text kind }
{
    match kind {
        Kind::WriteWrite => "ww",
        Kind::WriteRead => "wr",
        Kind::ReadWrite => "rw",
        Kind::Session => "po",
        Kind::Moment => "rt",
        Kind::End => "before",
    }
}

/// The size, the tip of an arrow, a white ground, and where the headline is.
fn put_head(canvas: &mut Canvas, size: (u64, u64)) -> Result<(), AllocError>
    ensures { OnOk result (Grows canvas.old canvas.new) }
{
    let (width, height) = size;
    canvas.put(&[
        Part::Markup("xmlns=\"http://www.w3.org/2000/svg\" width=\""),
        Part::Number(width),
        Part::Markup("\" height=\""),
        Part::Number(height),
        Part::Markup("\" viewBox=\"0 0 "),
        Part::Number(width),
        Part::Markup(" "),
        Part::Number(height),
        Part::Markup("\" font-family=\"monospace\" font-size=\"11\">\n"),
        Part::Markup("<rect width=\"100%\" height=\"100%\" fill=\"#ffffff\"/>\n"),
        Part::Markup("<text x=\"20\" y=\"22\""),
    ])
}

/// The name of the cycle, or the refusal.
fn put_headline(canvas: &mut Canvas, name: &[u8]) -> Result<(), AllocError>
    ensures { OnOk result (canvas.new ≡ canvas.old ++ headline_text name.now) }
{
    canvas.put(&[
        Part::Markup(">"),
        Part::Name(name),
        Part::Markup(": each stands before the next in every order</text>\n"),
    ])
}

/// An arrow of a kind, and what that means.
fn put_sample(canvas: &mut Canvas, at: (u64, u64), kind: Kind) -> Result<(), AllocError>
    ensures { OnOk result (Grows canvas.old canvas.new) }
{
    let (x, y) = at;
    canvas.put(&[
        Part::Markup("<path stroke-width=\"2.5\" d=\"M"),
        Part::Number(x),
        Part::Markup(" "),
        Part::Number(y),
        Part::Markup("h25"),
        Part::Markup(tip_of(kind)),
        Part::Number(x.saturating_add(25)),
        Part::Markup(" "),
        Part::Number(y.saturating_sub(5)),
        Part::Markup("v10l9 -5z\"/><text x=\""),
        Part::Number(x.saturating_add(42)),
        Part::Markup("\" y=\""),
        Part::Number(y.saturating_add(4)),
        Part::Markup(meaning_of(kind)),
    ])
}

/// So many steps are drawn at most. More are too many to look at.
const MOST_STEPS: usize = 200;

/// What else than conflicts stands in a cycle.
#[derive(Clone, Copy, PartialEq, Eq)]
pub(crate) enum Legend {
    /// In one of a history: sessions and moments.
    History,
    /// In one of logs: ends.
    Logs,
}

/// What the kinds look like, and mean, that are no conflicts.
fn put_others(canvas: &mut Canvas, legend: Legend) -> Result<(), AllocError>
    ensures { OnOk result (Grows canvas.old canvas.new) }
{
    match legend {
        Legend::History => {
            put_sample(canvas, (20, 62), Kind::Session)?;
            put_sample(canvas, (236, 62), Kind::Moment)
        }
        Legend::Logs => put_sample(canvas, (20, 62), Kind::End),
    }
}

/// What the kinds look like, and mean.
fn put_kinds(canvas: &mut Canvas, legend: Legend) -> Result<(), AllocError>
    ensures { OnOk result (Grows canvas.old canvas.new) }
{
    put_sample(canvas, (20, 42), Kind::WriteWrite)?;
    put_sample(canvas, (236, 42), Kind::WriteRead)?;
    put_sample(canvas, (420, 42), Kind::ReadWrite)?;
    put_others(canvas, legend)
}

/// Where a box or an arrow begins.
fn put_begin(canvas: &mut Canvas) -> Result<(), AllocError>
    ensures { OnOk result (Grows canvas.old canvas.new) }
{
    canvas.put(&[Part::Markup("\n<g>")])
}

/// The whole name of a transaction. It is shown where its box is pointed at.
fn put_name(canvas: &mut Canvas, name: &[u8]) -> Result<(), AllocError>
    ensures { OnOk result (canvas.new ≡ canvas.old ++ name_text name.now) }
{
    canvas.put(&[
        Part::Markup("<title>"),
        Part::Name(name),
        Part::Markup("</title>"),
    ])
}

/// The box of a transaction, as far as its name.
fn put_frame(canvas: &mut Canvas, at: (u64, u64)) -> Result<(), AllocError>
    ensures { OnOk result (Grows canvas.old canvas.new) }
{
    let (top, boxes) = at;
    canvas.put(&[
        Part::Markup(
            "<rect rx=\"5\" fill=\"#e8f0f8\" stroke=\"#333333\" height=\"26\" x=\"60\" width=\"",
        ),
        Part::Number(boxes),
        Part::Markup("\" y=\""),
        Part::Number(top),
        Part::Markup("\"/><text x=\"70\" y=\""),
        Part::Number(top.saturating_add(17)),
        Part::Markup("\""),
    ])
}

/// The name in a box.
fn put_box(canvas: &mut Canvas, name: &[u8]) -> Result<(), AllocError>
    ensures { OnOk result (canvas.new ≡ canvas.old ++ box_text name.now) }
{
    canvas.put(&[Part::Markup(">")])?;
    put_shown(canvas, name, 18, 18)?;
    canvas.put(&[Part::Markup("</text></g>")])
}

/// The step, as its line tells it. It is shown where the arrow or its words are pointed at.
fn put_title(canvas: &mut Canvas, step: &Told<'_>) -> Result<(), AllocError>
    ensures { OnOk result (canvas.new ≡ canvas.old ++ title_text (step_of step.now)) }
{
    canvas.put(&[
        Part::Markup("<title>"),
        Part::Name(step.from),
        Part::Markup(" "),
        Part::Markup(kind_word(step.kind)),
        Part::Markup(" "),
        Part::Name(step.to),
        Part::Markup(" "),
        Part::Name(step.about),
        Part::Markup("</title>"),
    ])
}

/// The arrow of a step down to the next box, and where its words are.
fn put_down(canvas: &mut Canvas, top: u64, kind: Kind) -> Result<(), AllocError>
    ensures { OnOk result (Grows canvas.old canvas.new) }
{
    canvas.put(&[
        Part::Markup("<path stroke-width=\"2.5\" d=\"M90 "),
        Part::Number(top.saturating_add(HIGH)),
        Part::Markup("v31"),
        Part::Markup(tip_of(kind)),
        Part::Markup("85 "),
        Part::Number(top.saturating_add(HIGH + 31)),
        Part::Markup("h10l-5 9z\"/><text x=\""),
        Part::Number(WORDS),
        Part::Markup("\" y=\""),
        Part::Number(top.saturating_add(HIGH + 23)),
        Part::Markup("\""),
    ])
}

/// The arrow of the last step, from below its box back to the first box, and where its words are.
fn put_back(canvas: &mut Canvas, top: u64, kind: Kind) -> Result<(), AllocError>
    ensures { OnOk result (Grows canvas.old canvas.new) }
{
    canvas.put(&[
        Part::Markup("<path stroke-width=\"2.5\" d=\"M90 "),
        Part::Number(top.saturating_add(HIGH)),
        Part::Markup("v18H24V"),
        Part::Number(top_of(0).saturating_add(HIGH / 2)),
        Part::Markup("H51"),
        Part::Markup(tip_of(kind)),
        Part::Markup("51 "),
        Part::Number(top_of(0).saturating_add(HIGH / 2 - 5)),
        Part::Markup("v10l9 -5z\"/><text x=\""),
        Part::Number(WORDS),
        Part::Markup("\" y=\""),
        Part::Number(top.saturating_add(HIGH + 22)),
        Part::Markup("\""),
    ])
}

/// The arrow of a step.
fn put_arrow(canvas: &mut Canvas, top: u64, kind: Kind, is_last: bool) -> Result<(), AllocError>
    ensures { OnOk result (Grows canvas.old canvas.new) }
{
    if is_last {
        put_back(canvas, top, kind)
    } else {
        put_down(canvas, top, kind)
    }
}

/// The kind of a step, and what shows it.
fn put_words(canvas: &mut Canvas, step: &Told<'_>) -> Result<(), AllocError>
    ensures { OnOk result (canvas.new ≡ canvas.old ++ words_text (step_of step.now)) }
{
    canvas.put(&[
        Part::Markup(">"),
        Part::Markup(kind_word(step.kind)),
        Part::Markup(" "),
    ])?;
    put_shown(canvas, step.about, 40, 64)?;
    canvas.put(&[Part::Markup("</text></g>")])
}

/// A step: the box of its first transaction, and its arrow.
fn put_step(
    canvas: &mut Canvas,
    step: &Told<'_>,
    at: (u64, u64),
    is_last: bool,
) -> Result<(), AllocError>
    ensures { OnOk result (IsPut (step_of step.now) canvas.old canvas.new) }
{
    put_begin(canvas)?;
    put_name(canvas, step.from)?;
    put_frame(canvas, at)?;
    put_box(canvas, step.from)?;
    put_begin(canvas)?;
    put_title(canvas, step)?;
    put_arrow(canvas, at.0, step.kind, is_last)?;
    put_words(canvas, step)
}

/// The steps, one below the other: all that there are, or more are left out.
fn put_steps(
    canvas: &mut Canvas,
    steps: &[Told<'_>],
    boxes: u64,
    are_all: bool,
) -> Result<(), AllocError>
    ensures { OnOk result (ArePut (map step_of steps.now) canvas.old canvas.new) }
{
    for place in 0..steps.len() {
        let is_last = are_all && steps.len() - place == 1;
        put_step(
            canvas,
            &steps[place],
            (top_of(place as u64), boxes),
            is_last,
        )?;
    }
    Ok(())
}

/// How many steps are left out, below the arrow of the last one that is drawn.
fn put_more(canvas: &mut Canvas, steps: usize, more: usize) -> Result<(), AllocError>
    ensures { OnOk result (IsMorePut more canvas.old canvas.new) }
{
    if more == 0 {
        return Ok(());
    }
    canvas.put(&[
        Part::Markup("\n<text x=\"60\" y=\""),
        Part::Number(top_of(steps as u64).saturating_add(12)),
        Part::Markup("\""),
        Part::Markup(">and "),
        Part::Number(more as u64),
        Part::Markup(" more, the last of them back to the first</text>\n"),
    ])
}

/// The steps that are drawn: two hundred at most.
fn drawn_of<'a, 'b>(steps: &'a [Told<'b>]) -> &'a [Told<'b>]
    ensures { result.now ≡ take most_steps steps.now }
{
    let most = steps.len().min(MOST_STEPS);
    &steps[..most]
}

/// The picture of a cycle's steps, under a headline.
pub(crate) fn picture(
    alloc: Global,
    headline: &[u8],
    steps: &[Told<'_>],
    legend: Legend,
) -> Result<Vec<u8>, AllocError>
    ensures { IfOk result (λ text. IsCyclePicture headline.now (map step_of steps.now) text.items) }
{
    let drawn = drawn_of(steps);
    let more = steps.len().saturating_sub(MOST_STEPS);
    let boxes = box_width(drawn);
    let size = (width(headline, drawn, boxes), height(drawn.len(), more));
    let mut canvas = Canvas::new(alloc, false)?;
    put_head(&mut canvas, size)?;
    put_headline(&mut canvas, headline)?;
    put_kinds(&mut canvas, legend)?;
    put_steps(&mut canvas, drawn, boxes, more == 0)?;
    put_more(&mut canvas, drawn.len(), more)?;
    canvas.into_text()
}

/// The picture of the cycle that an answer of `sgt check` tells, as SVG: its name stands there, and each of its steps
/// is drawn once, in the order in which it is told, and no other: of more than 200 the first, and a line says how many
/// more there are. None where it tells no cycle.
pub fn picture_of(alloc: Global, answer: &[u8]) -> Result<Option<Vec<u8>>, AllocError>
    ensures some { IfOk result (λ r. IfSome r (λ text. IsPictureOf answer.now text.items)) }
    ensures none { IfOk result
        (λ r. IfNone r ((name : List ℕ) (steps : List Step) → IsCycleTold answer.now name steps → ⊥)) }
{
    match cycle_in(alloc, answer)? {
        Some(cycle) => {
            let steps = cycle.steps.as_slice();
            Ok(Some(picture(alloc, cycle.name, steps, Legend::History)?))
        }
        None => Ok(None),
    }
}
