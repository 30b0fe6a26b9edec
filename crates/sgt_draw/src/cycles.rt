//! The cycle of a refused transaction, in rows from left to right.

ghost use Rattle.std.specs.Prelude.{◌≡◌, false, [], ◌∷◌, OnOk, flat_map};
ghost use Rattle.sgt_draw.specs.Node.{node};
ghost use Rattle.sgt_draw.specs.Sheet.{Adds};
ghost use Rattle.sgt_draw.specs.Wanted.{cycle_nodes, other_on};
ghost use Rattle.sgt_draw.specs.declared.node.Fate.TheVariants.{Refused};

use crate::canvas::Part;
use crate::drawing::Drawing;
use crate::increments::Increments;
use crate::marks::{
    Point, TIP, Tip, conflict_width, put_node, put_step_label, put_text, put_tip, stroke_of,
};
use crate::node::{Fate, Node};
use crate::row::{MOST_WIDTH, quotient};
use sgt_bundle::Step;
use sgt_names::Tx;
use std::alloc::AllocError;

/// Where the way back runs, on the left of the rows.
const EDGE: u64 = 12;

/// A refused transaction with the walk that leads from it back to it.
#[derive(Clone, Copy)]
pub struct Cycle<'a> {
    pub tx: Tx,
    pub walk: &'a [Step],
    pub is_named: bool,
    pub increments: &'a Increments,
}

/// A step from a transaction that stands here.
#[derive(Clone, Copy)]
struct Leg<'a> {
    at: Point,
    from: Tx,
    step: &'a Step,
}

/// Where an arrow comes back: the end of its line, and its tip.
#[derive(Clone, Copy)]
struct Back {
    line: Point,
    end: Point,
    tip: Tip,
}

impl Cycle<'_> {
    /// How wide the longest label is.
    fn longest(&self) -> u64 {
        let mut longest = 0u64;
        for step in self.walk {
            let site = u64::from(step.label.site.number());
            longest = longest.max(conflict_width(site, &step.label.item));
        }
        longest
    }

    /// How far two transactions of a row are apart: labels fit between.
    fn pitch(&self) -> u64 {
        if self.is_named {
            self.longest().saturating_add(100)
        } else {
            26
        }
    }

    /// How far two rows are apart.
    fn row_height(&self) -> u64 {
        if self.is_named { 80 } else { 34 }
    }

    /// Half of a transaction's width, and of its height.
    fn half(&self) -> (u64, u64) {
        if self.is_named { (38, 12) } else { (3, 3) }
    }

    /// Where the first transaction stands.
    fn left(&self) -> u64 {
        let (half, _) = self.half();
        half.saturating_add(28)
    }

    /// How many transactions stand in a row at most.
    fn columns(&self) -> u64 {
        let room = MOST_WIDTH.saturating_sub(self.left().saturating_mul(2));
        quotient(room, self.pitch()).saturating_add(1)
    }

    /// How many rows there are.
    fn rows(&self) -> u64 {
        let count = self.walk.len() as u64;
        quotient(count.saturating_sub(1), self.columns()).saturating_add(1)
    }

    /// Where the transaction at this place stands, below the first row.
    fn point_of(&self, place: u64, y: u64) -> Point {
        let columns = self.columns();
        let row = quotient(place, columns);
        let column = place.saturating_sub(row.saturating_mul(columns));
        Point {
            x: self
                .left()
                .saturating_add(column.saturating_mul(self.pitch())),
            y: y.saturating_add(row.saturating_mul(self.row_height())),
        }
    }

    /// How wide it is, with the room on both sides.
    pub(crate) fn width(&self) -> u64 {
        let count = (self.walk.len() as u64).min(self.columns());
        self.point_of(count.saturating_sub(1), 0)
            .x
            .saturating_add(self.left())
    }

    /// How high it is.
    pub(crate) fn height(&self) -> u64 {
        let below = self
            .rows()
            .saturating_sub(1)
            .saturating_mul(self.row_height());
        below.saturating_add(if self.is_named { 112 } else { 44 })
    }

    /// What is shown of a step when its arrow or its label is pointed at.
    fn put_title(&self, canvas: &mut Drawing, leg: &Leg) -> Result<(), AllocError>
        ensures { OnOk result (canvas.new.shown ≡ canvas.old.shown) }
    {
        canvas.put(&[
            Part::Markup("<g><title>"),
            Part::Number(u64::from(leg.from.number())),
            Part::Markup(" to "),
            Part::Number(u64::from(leg.step.to.number())),
            Part::Markup(": "),
        ])?;
        let is_increment = self.increments.has_step(leg.from, leg.step);
        put_step_label(canvas, leg.step, is_increment)?;
        canvas.put(&[Part::Markup("</title>")])
    }

    /// The label of a step, with its middle at this point, or as far on the right that it isn't cut.
    fn put_name(&self, canvas: &mut Drawing, at: Point, leg: &Leg) -> Result<(), AllocError>
        ensures { OnOk result (canvas.new.shown ≡ canvas.old.shown) }
    {
        if self.is_named {
            let middle = at.x.max((self.longest() / 2).saturating_add(EDGE).saturating_add(8));
            canvas.put(&[
                Part::Markup("<text text-anchor=\"middle\" x=\""),
                Part::Number(middle),
                Part::Markup("\" y=\""),
                Part::Number(at.y),
                Part::Markup("\">"),
            ])?;
            let is_increment = self.increments.has_step(leg.from, leg.step);
            put_step_label(canvas, leg.step, is_increment)?;
            canvas.put(&[Part::Markup("</text>")])?;
        }
        canvas.put(&[Part::Markup("</g>\n")])
    }

    /// A step to the next transaction, on the right.
    fn put_step(&self, canvas: &mut Drawing, leg: &Leg, next: Point) -> Result<(), AllocError>
        ensures { OnOk result (canvas.new.shown ≡ canvas.old.shown) }
    {
        let (half, _) = self.half();
        let kind = leg.step.label.kind;
        let end = Point {
            x: next.x.saturating_sub(half),
            y: next.y,
        };
        self.put_title(canvas, leg)?;
        canvas.put(&[
            Part::Markup("<path stroke-width=\"2.5\" d=\"M"),
            Part::Number(leg.at.x.saturating_add(half)),
            Part::Markup(" "),
            Part::Number(end.y),
            Part::Markup("H"),
            Part::Number(end.x.saturating_sub(TIP)),
            Part::Markup("\""),
            Part::Markup(stroke_of(kind)),
            Part::Markup("/>\n"),
        ])?;
        put_tip(canvas, end, Tip::Right, kind)?;
        let middle = Point {
            x: leg.at.x.saturating_add(next.x) / 2,
            y: end.y.saturating_sub(9),
        };
        self.put_name(canvas, middle, leg)
    }

    /// How far below a transaction a way back to the left runs.
    fn depth(&self) -> u64 {
        if self.is_named { 24 } else { 10 }
    }

    /// A step from the end of a row down to the first transaction of the next one.
    fn put_turn(&self, canvas: &mut Drawing, leg: &Leg, next: Point) -> Result<(), AllocError>
        ensures { OnOk result (canvas.new.shown ≡ canvas.old.shown) }
    {
        let (_, half) = self.half();
        let kind = leg.step.label.kind;
        let top = leg.at.y.saturating_add(half);
        let low = top.saturating_add(self.depth());
        let end = Point {
            x: next.x,
            y: next.y.saturating_sub(half),
        };
        self.put_title(canvas, leg)?;
        canvas.put(&[
            Part::Markup("<path stroke-width=\"2.5\" d=\"M"),
            Part::Number(leg.at.x),
            Part::Markup(" "),
            Part::Number(top),
            Part::Markup("V"),
            Part::Number(low),
            Part::Markup("H"),
            Part::Number(end.x),
            Part::Markup("V"),
            Part::Number(end.y.saturating_sub(TIP)),
            Part::Markup("\""),
            Part::Markup(stroke_of(kind)),
            Part::Markup("/>\n"),
        ])?;
        put_tip(canvas, end, Tip::Down, kind)?;
        let middle = Point {
            x: leg.at.x.saturating_add(next.x) / 2,
            y: low.saturating_add(14),
        };
        self.put_name(canvas, middle, leg)
    }

    /// Where the last step comes back to the refused transaction: from below in its row, else from the left.
    fn back_from(&self, at: Point, first: Point) -> Back {
        let (half, half_height) = self.half();
        if at.y == first.y && at.x > first.x {
            let end = Point {
                x: first.x,
                y: first.y.saturating_add(half_height),
            };
            let line = Point {
                x: end.x,
                y: end.y.saturating_add(TIP),
            };
            return Back {
                line,
                end,
                tip: Tip::Up,
            };
        }
        let end = Point {
            x: first.x.saturating_sub(half),
            y: first.y,
        };
        let line = Point {
            x: end.x.saturating_sub(TIP),
            y: end.y,
        };
        Back {
            line,
            end,
            tip: Tip::Right,
        }
    }

    /// The last step, from below its transaction back to the refused one.
    fn put_last(&self, canvas: &mut Drawing, leg: &Leg, first: Point) -> Result<(), AllocError>
        ensures { OnOk result (canvas.new.shown ≡ canvas.old.shown) }
    {
        let (_, half_height) = self.half();
        let kind = leg.step.label.kind;
        let top = leg.at.y.saturating_add(half_height);
        let low = top.saturating_add(self.depth());
        let back = self.back_from(leg.at, first);
        let turn = match back.tip {
            Tip::Up => back.end.x,
            _ => EDGE,
        };
        self.put_title(canvas, leg)?;
        canvas.put(&[
            Part::Markup("<path stroke-width=\"2.5\" d=\"M"),
            Part::Number(leg.at.x),
            Part::Markup(" "),
            Part::Number(top),
            Part::Markup("V"),
            Part::Number(low),
            Part::Markup("H"),
            Part::Number(turn),
            Part::Markup("V"),
            Part::Number(back.line.y),
            Part::Markup("H"),
            Part::Number(back.line.x),
            Part::Markup("\""),
            Part::Markup(stroke_of(kind)),
            Part::Markup("/>\n"),
        ])?;
        put_tip(canvas, back.end, back.tip, kind)?;
        let middle = Point {
            x: leg.at.x.saturating_add(turn) / 2,
            y: low.saturating_add(14),
        };
        self.put_name(canvas, middle, leg)
    }

    /// A step that doesn't lead back, to the transaction that stands there.
    fn put_arrow(&self, canvas: &mut Drawing, leg: &Leg, next: Point) -> Result<(), AllocError>
        ensures { OnOk result (canvas.new.shown ≡ canvas.old.shown) }
    {
        if next.y == leg.at.y {
            return self.put_step(canvas, leg, next);
        }
        self.put_turn(canvas, leg, next)
    }

    /// A step, and the transaction that it leads to, if that isn't the refused one.
    fn put_leg(
        &self,
        canvas: &mut Drawing,
        leg: &Leg,
        next: Point,
        first: Point,
    ) -> Result<(), AllocError>
        ensures { OnOk result (Adds (other_on self.now.tx leg.now.step.now) canvas.old.shown canvas.new.shown) }
    {
        if leg.step.to.number() == self.tx.number() {
            return self.put_last(canvas, leg, first);
        }
        self.put_arrow(canvas, leg, next)?;
        let (half, _) = self.half();
        let node = Node {
            fate: Fate::Committed,
            tx: leg.step.to,
        };
        put_node(canvas, next, &node, half)
    }

    /// The steps, from the refused transaction that stands here.
    fn put_walk(&self, canvas: &mut Drawing, first: Point, y: u64) -> Result<(), AllocError>
        ensures { OnOk result (Adds (flat_map (other_on self.now.tx) self.now.walk.now) canvas.old.shown
            canvas.new.shown) }
    {
        let mut leg_at = first;
        let mut from = self.tx;
        let mut place = 0u64;
        for step in self.walk {
            let leg = Leg {
                at: leg_at,
                from,
                step,
            };
            place = place.saturating_add(1);
            let next = self.point_of(place, y);
            self.put_leg(canvas, &leg, next, first)?;
            leg_at = next;
            from = step.to;
        }
        Ok(())
    }

    /// The refused transaction.
    fn put_first(&self, canvas: &mut Drawing, first: Point) -> Result<(), AllocError>
        ensures { OnOk result (Adds (node Refused self.now.tx ∷ []) canvas.old.shown canvas.new.shown) }
    {
        let (half, _) = self.half();
        if self.is_named {
            let above = Point {
                x: first.x,
                y: first.y.saturating_sub(20),
            };
            put_text(canvas, above, &[Part::Markup("refused")])?;
        }
        let node = Node {
            fate: Fate::Refused,
            tx: self.tx,
        };
        put_node(canvas, first, &node, half)
    }

    /// Draws the cycle below this height.
    pub(crate) fn put(&self, canvas: &mut Drawing, top: u64) -> Result<(), AllocError>
        ensures { OnOk result (Adds (cycle_nodes false self.now.tx self.now.walk.now) canvas.old.shown
            canvas.new.shown) }
    {
        let y = top.saturating_add(if self.is_named { 46 } else { 12 });
        let first = self.point_of(0, y);
        self.put_first(canvas, first)?;
        self.put_walk(canvas, first, y)
    }
}
