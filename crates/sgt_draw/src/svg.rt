//! The picture as SVG.

ghost use Rattle.std.specs.Prelude.{◌≡◌, ◌++◌, false, [], ◌∷◌, None, Some, OnOk, flat_map, map};
ghost use Rattle.std.specs.Option.{option_map_or};
ghost use Rattle.sgt_draw.specs.Node.{node};
ghost use Rattle.sgt_draw.specs.Private.{fate_in_row, refused_at, row_node, scene_nodes, shown_cycle};
ghost use Rattle.sgt_draw.specs.Sheet.{Adds};
ghost use Rattle.sgt_draw.specs.Wanted.{cycle_nodes};
ghost use Rattle.sgt_draw.specs.declared.node.Fate.TheVariants.{Neither, Withdrawn};

use crate::canvas::Part;
use crate::cycles::Cycle;
use crate::drawing::Drawing;
use crate::increments::Increments;
use crate::lanes::Laid;
use crate::marks::{
    Point, Tip, put_edge_label, put_left, put_node, put_number, put_text, put_tip, stroke_of,
};
use crate::node::{Fate, Node};
use crate::row::{LEAST_WIDTH, LETTER, Row};
use crate::scene::{Numbered, Scene};
use sgt_bundle::Decision;
use sgt_names::{Kind, Tx};
use std::alloc::AllocError;

/// Below the headline and the legend.
const TOP: u64 = 78;

/// What is drawn, and where.
#[derive(Drop)]
pub struct Picture<'a> {
    pub scene: &'a Scene,
    pub decisions: &'a [Decision],
    pub laid: &'a [Laid],
    pub row: Row,
    pub increments: &'a Increments,
}

/// The head of the text: its size, and a white ground.
fn put_head(canvas: &mut Drawing, width: u64, height: u64) -> Result<(), AllocError>
    ensures { OnOk result (canvas.new.shown ≡ canvas.old.shown) }
{
    canvas.put(&[
        Part::Markup("xmlns=\"http://www.w3.org/2000/svg\" width=\""),
        Part::Number(width),
        Part::Markup("\" height=\""),
        Part::Number(height),
        Part::Markup("\" viewBox=\"0 0 "),
        Part::Number(width),
        Part::Markup(" "),
        Part::Number(height),
        Part::Markup("\" font-family=\"monospace\" font-size=\"11\">\n"),
        Part::Markup("<rect width=\"100%\" height=\"100%\" fill=\"#ffffff\"/>\n"),
    ])
}

/// What a kind looks like, and its name in words.
fn put_sample(
    canvas: &mut Drawing,
    x: u64,
    kind: Kind,
    words: &'static str,
) -> Result<(), AllocError>
    ensures { OnOk result (canvas.new.shown ≡ canvas.old.shown) }
{
    canvas.put(&[
        Part::Markup("<path stroke-width=\"2\" d=\"M"),
        Part::Number(x),
        Part::Markup(" 54h25\""),
        Part::Markup(stroke_of(kind)),
        Part::Markup("/>\n"),
    ])?;
    let end = Point {
        x: x.saturating_add(34),
        y: 54,
    };
    put_tip(canvas, end, Tip::Right, kind)?;
    let at = Point {
        x: x.saturating_add(42),
        y: 58,
    };
    put_left(canvas, at, &[Part::Markup(words)])
}

/// What the kinds look like.
fn put_legend(canvas: &mut Drawing) -> Result<(), AllocError>
    ensures { OnOk result (canvas.new.shown ≡ canvas.old.shown) }
{
    put_sample(canvas, 20, Kind::Wr, "wr: write, read")?;
    put_sample(canvas, 190, Kind::Rw, "rw: read, write")?;
    put_sample(canvas, 360, Kind::Ww, "ww: write, write")?;
    let at = Point { x: 530, y: 58 };
    put_left(canvas, at, &[Part::Markup("+: increment")])
}

impl Picture<'_> {
    /// How high an edge is above the row.
    fn rise(&self, laid: &Laid) -> u64 {
        if self.row.is_named {
            return laid.lane.saturating_mul(20).saturating_add(26);
        }
        let kind = match laid.edge.kind {
            Kind::Wr => 0u64,
            Kind::Rw => 3,
            Kind::Ww => 6,
        };
        laid.lane
            .saturating_mul(3)
            .saturating_add(6)
            .saturating_add(kind)
    }

    /// How far from the middle of a transaction an edge begins, and another one ends.
    fn port(&self, kind: Kind) -> u64 {
        if !self.row.is_named {
            return 0;
        }
        match kind {
            Kind::Wr => 2,
            Kind::Rw => 8,
            Kind::Ww => 14,
        }
    }

    /// Where the row of committed transactions is.
    fn row_y(&self) -> u64 {
        let mut highest = 0u64;
        for laid in self.laid {
            highest = highest.max(self.rise(laid));
        }
        highest.saturating_add(TOP).saturating_add(26)
    }

    /// The cycle of the refusal with this number.
    fn cycle(&self, number: usize) -> Option<Cycle<'_>>
        ensures { option_map_or shown_cycle result [] ≡ refused_at false self.now.decisions.now number }
    {
        match self.decisions.get(number)? {
            Decision::Refuse { tx, walk } => Some(Cycle {
                tx: *tx,
                walk: walk.as_slice(),
                is_named: self.row.is_named,
                increments: self.increments,
            }),
            _ => None,
        }
    }

    /// How wide the widest cycle is, and how high they are, one below the other.
    fn cycles_size(&self) -> (u64, u64) {
        let mut width = 0u64;
        let mut height = 0u64;
        for number in self.scene.refusals.as_slice() {
            if let Some(cycle) = self.cycle(*number) {
                width = width.max(cycle.width());
                height = height.saturating_add(cycle.height());
            }
        }
        (width, height)
    }

    /// What is shown of an edge when it is pointed at.
    fn put_title(&self, canvas: &mut Drawing, laid: &Laid) -> Result<(), AllocError>
        ensures { OnOk result (canvas.new.shown ≡ canvas.old.shown) }
    {
        let edge = &laid.edge;
        canvas.put(&[Part::Markup("<title>")])?;
        put_pair(canvas, self.scene, edge.from, edge.to)?;
        put_edge_label(canvas, edge)?;
        canvas.put(&[Part::Markup("</title></path>\n")])
    }

    /// An edge, as half of an ellipse.
    fn put_arc(&self, canvas: &mut Drawing, laid: &Laid, row: u64) -> Result<(), AllocError>
        ensures { OnOk result (canvas.new.shown ≡ canvas.old.shown) }
    {
        let kind = laid.edge.kind;
        let from = self
            .row
            .x_of(u64::from(laid.edge.from))
            .saturating_add(self.port(kind));
        let to = self
            .row
            .x_of(u64::from(laid.edge.to))
            .saturating_sub(self.port(kind));
        let foot = row.saturating_sub(self.row.half_height());
        canvas.put(&[
            Part::Markup("<path stroke-width=\"1.5\" d=\"M"),
            Part::Number(from),
            Part::Markup(" "),
            Part::Number(foot),
            Part::Markup("A"),
            Part::Number(to.saturating_sub(from) / 2),
            Part::Markup(" "),
            Part::Number(self.rise(laid)),
            Part::Markup(" 0 0 1 "),
            Part::Number(to),
            Part::Markup(" "),
            Part::Number(foot),
            Part::Markup("\""),
            Part::Markup(stroke_of(kind)),
            Part::Markup(">"),
        ])?;
        self.put_title(canvas, laid)?;
        if self.row.is_named {
            put_tip(canvas, Point { x: to, y: foot }, Tip::Small, kind)?;
        }
        Ok(())
    }

    /// The label of an edge, above its arc.
    fn put_arc_label(&self, canvas: &mut Drawing, laid: &Laid, row: u64) -> Result<(), AllocError>
        ensures { OnOk result (canvas.new.shown ≡ canvas.old.shown) }
    {
        canvas.put(&[
            Part::Markup("<text text-anchor=\"middle\" stroke=\"#ffffff\" stroke-width=\"6\" "),
            Part::Markup("stroke-linejoin=\"round\" paint-order=\"stroke\" x=\""),
            Part::Number(laid.middle),
            Part::Markup("\" y=\""),
            Part::Number(row.saturating_sub(self.rise(laid)).saturating_sub(15)),
            Part::Markup("\">"),
        ])?;
        put_edge_label(canvas, &laid.edge)?;
        canvas.put(&[Part::Markup("</text>\n")])
    }

    fn put_arcs(&self, canvas: &mut Drawing, row: u64) -> Result<(), AllocError>
        ensures { OnOk result (canvas.new.shown ≡ canvas.old.shown) }
    {
        for laid in self.laid {
            self.put_arc(canvas, laid, row)?;
        }
        Ok(())
    }

    fn put_arc_labels(&self, canvas: &mut Drawing, row: u64) -> Result<(), AllocError>
        ensures { OnOk result (canvas.new.shown ≡ canvas.old.shown) }
    {
        for laid in self.laid {
            self.put_arc_label(canvas, laid, row)?;
        }
        Ok(())
    }

    fn put_edges(&self, canvas: &mut Drawing, row: u64) -> Result<(), AllocError>
        ensures { OnOk result (canvas.new.shown ≡ canvas.old.shown) }
    {
        self.put_arcs(canvas, row)?;
        if self.row.is_named {
            return self.put_arc_labels(canvas, row);
        }
        Ok(())
    }

    /// The rank below a transaction.
    fn put_rank(&self, canvas: &mut Drawing, at: Point, rank: u64) -> Result<(), AllocError>
        ensures { OnOk result (canvas.new.shown ≡ canvas.old.shown) }
    {
        let pitch = self.row.pitch();
        if pitch >= 104 {
            return put_text(canvas, at, &[Part::Markup("rank "), Part::Number(rank)]);
        }
        put_number(canvas, at, rank, pitch.saturating_sub(3) / LETTER)
    }

    /// A committed transaction above its rank.
    fn put_ranked(
        &self,
        canvas: &mut Drawing,
        at: Point,
        one: &Numbered,
        asked: &Option<Tx>,
    ) -> Result<(), AllocError>
        ensures { OnOk result (Adds (row_node asked.now one.now ∷ []) canvas.old.shown canvas.new.shown) }
    {
        let node = Node {
            fate: fate_in_row(asked, one.tx),
            tx: one.tx,
        };
        put_node(canvas, at, &node, self.row.half())?;
        if self.row.is_named {
            let below = Point {
                x: at.x,
                y: at.y.saturating_add(26),
            };
            self.put_rank(canvas, below, u64::from(one.number))?;
        }
        Ok(())
    }

    /// The committed transactions, each above its rank.
    fn put_row(
        &self,
        canvas: &mut Drawing,
        y: u64,
        committed: &[Numbered],
        asked: &Option<Tx>,
    ) -> Result<(), AllocError>
        ensures { OnOk result (Adds (map (row_node asked.now) committed.now) canvas.old.shown canvas.new.shown) }
    {
        let mut place = 0u64;
        for one in committed {
            let x = self.row.x_of(place);
            self.put_ranked(canvas, Point { x, y }, one, asked)?;
            place = place.saturating_add(1);
        }
        Ok(())
    }

    /// The cycle of the refusal with this number, below this height. How high it is.
    fn put_refused(&self, canvas: &mut Drawing, number: usize, top: u64) -> Result<u64, AllocError>
        ensures { OnOk result (Adds (refused_at false self.now.decisions.now number) canvas.old.shown
            canvas.new.shown) }
    {
        match self.cycle(number) {
            Some(cycle) => {
                cycle.put(canvas, top)?;
                Ok(cycle.height())
            }
            None => Ok(0),
        }
    }

    fn put_cycles(
        &self,
        canvas: &mut Drawing,
        refusals: &[usize],
        below: u64,
    ) -> Result<(), AllocError>
        ensures { OnOk result (Adds (flat_map (refused_at false self.now.decisions.now) refusals.now)
            canvas.old.shown canvas.new.shown) }
    {
        let mut top = below;
        for number in refusals {
            let height = self.put_refused(canvas, *number, top)?;
            top = top.saturating_add(height);
        }
        Ok(())
    }

    /// A row of withdrawn transactions.
    fn put_grey(&self, canvas: &mut Drawing, y: u64, withdrawn: &[Tx]) -> Result<(), AllocError>
        ensures { OnOk result (Adds (map (node Withdrawn) withdrawn.now) canvas.old.shown canvas.new.shown) }
    {
        let mut place = 0u64;
        for tx in withdrawn {
            let x = self.row.x_of(place);
            let node = Node {
                fate: Fate::Withdrawn,
                tx: *tx,
            };
            put_node(canvas, Point { x, y }, &node, self.row.half())?;
            place = place.saturating_add(1);
        }
        Ok(())
    }

    fn put_withdrawn(
        &self,
        canvas: &mut Drawing,
        top: u64,
        withdrawn: &[Tx],
    ) -> Result<(), AllocError>
        ensures { OnOk result (Adds (map (node Withdrawn) withdrawn.now) canvas.old.shown canvas.new.shown) }
    {
        if !withdrawn.is_empty() {
            let words = Point {
                x: 20,
                y: top.saturating_add(20),
            };
            put_left(canvas, words, &[Part::Markup("withdrawn")])?;
        }
        self.put_grey(canvas, top.saturating_add(40), withdrawn)
    }

    /// The headline, and the line that says that some are left out.
    fn put_headline(&self, canvas: &mut Drawing) -> Result<(), AllocError>
        ensures { OnOk result (canvas.new.shown ≡ canvas.old.shown) }
    {
        let counts = self.scene.counts;
        put_left(
            canvas,
            Point { x: 20, y: 22 },
            &[
                Part::Number(u64::from(counts.committed)),
                Part::Markup(if self.row.is_named {
                    " committed, each above its rank; "
                } else {
                    " committed, by rank; "
                }),
                Part::Number(u64::from(counts.refused)),
                Part::Markup(" refused; "),
                Part::Number(u64::from(counts.withdrawn)),
                Part::Markup(" withdrawn"),
            ],
        )?;
        if self.scene.leaves_out() {
            put_left(
                canvas,
                Point { x: 20, y: 40 },
                &[Part::Markup(
                    "Drawn: the first 200 ranks, and the first 200 refused and withdrawn ones.",
                )],
            )?;
        }
        put_legend(canvas)
    }

    /// The head, the headline and the conflicts.
    fn put_above(&self, canvas: &mut Drawing, size: (u64, u64), row: u64) -> Result<(), AllocError>
        ensures { OnOk result (canvas.new.shown ≡ canvas.old.shown) }
    {
        let (width, height) = size;
        put_head(canvas, width, height)?;
        self.put_headline(canvas)?;
        self.put_edges(canvas, row)
    }

    /// Draws all.
    pub(crate) fn put(&self, canvas: &mut Drawing) -> Result<(), AllocError>
        ensures { OnOk result (Adds (scene_nodes false self.now.decisions.now self.now.scene.now)
            canvas.old.shown canvas.new.shown) }
    {
        let row = self.row_y();
        let cycles = row.saturating_add(46);
        let (wide, high) = self.cycles_size();
        let withdrawn = cycles.saturating_add(high);
        let rest = if self.scene.withdrawn.is_empty() {
            0u64
        } else {
            70
        };
        let size = (self.row.width().max(wide), withdrawn.saturating_add(rest));
        self.put_above(canvas, size, row)?;
        self.put_row(canvas, row, self.scene.committed.as_slice(), &None)?;
        self.put_cycles(canvas, self.scene.refusals.as_slice(), cycles)?;
        self.put_withdrawn(canvas, withdrawn, self.scene.withdrawn.as_slice())
    }

    /// The headline over a committed transaction with its neighbours.
    fn put_neighbours(
        &self,
        canvas: &mut Drawing,
        tx: Tx,
        neighbours: u64,
    ) -> Result<(), AllocError>
        ensures { OnOk result (canvas.new.shown ≡ canvas.old.shown) }
    {
        put_left(
            canvas,
            Point { x: 20, y: 22 },
            &[
                Part::Markup("committed transaction "),
                Part::Number(u64::from(tx.number())),
                Part::Markup(" and its neighbours in conflict: "),
                Part::Number(neighbours),
                Part::Markup(if self.row.is_named {
                    ", each above its rank"
                } else {
                    ", by rank"
                }),
            ],
        )?;
        if neighbours > (self.scene.committed.len() as u64).saturating_sub(1) {
            put_left(
                canvas,
                Point { x: 20, y: 40 },
                &[Part::Markup("Drawn: 199 of them, as near by rank as there are.")],
            )?;
        }
        put_legend(canvas)
    }

    /// Draws a committed transaction with its neighbours.
    pub(crate) fn put_around(
        &self,
        canvas: &mut Drawing,
        tx: Tx,
        neighbours: u64,
    ) -> Result<(), AllocError>
        ensures { OnOk result (Adds (map (row_node (Some tx)) self.now.scene.now.committed.items)
            canvas.old.shown canvas.new.shown) }
    {
        let row = self.row_y();
        put_head(canvas, self.row.width(), row.saturating_add(46))?;
        self.put_neighbours(canvas, tx, neighbours)?;
        self.put_edges(canvas, row)?;
        self.put_row(canvas, row, self.scene.committed.as_slice(), &Some(tx))
    }
}

/// The fate that a committed transaction is drawn with, where one is asked for.
pub(crate) fn fate_in_row(asked: &Option<Tx>, tx: Tx) -> Fate
    ensures { result ≡ fate_in_row asked.now tx }
{
    match asked {
        Some(one) if one.number() == tx.number() => Fate::Asked,
        _ => Fate::Committed,
    }
}

/// The transactions at two places: `3 to 4: `.
fn put_pair(canvas: &mut Drawing, scene: &Scene, from: u32, to: u32) -> Result<(), AllocError>
    ensures { OnOk result (canvas.new.shown ≡ canvas.old.shown) }
{
    let committed = scene.committed.as_slice();
    if let (Some(one), Some(other)) = (committed.get(from as usize), committed.get(to as usize)) {
        canvas.put(&[
            Part::Number(u64::from(one.tx.number())),
            Part::Markup(" to "),
            Part::Number(u64::from(other.tx.number())),
            Part::Markup(": "),
        ])?;
    }
    Ok(())
}

/// The cycle of one refused transaction alone, each step with its label.
pub(crate) fn put_cycle(canvas: &mut Drawing, cycle: &Cycle) -> Result<(), AllocError>
    ensures { OnOk result (Adds (cycle_nodes false cycle.now.tx cycle.now.walk.now) canvas.old.shown
        canvas.new.shown) }
{
    put_head(
        canvas,
        cycle.width().max(LEAST_WIDTH),
        TOP.saturating_add(cycle.height()),
    )?;
    put_legend(canvas)?;
    put_left(
        canvas,
        Point { x: 20, y: 22 },
        &[
            Part::Markup("the cycle that transaction "),
            Part::Number(u64::from(cycle.tx.number())),
            Part::Markup(" would close"),
        ],
    )?;
    cycle.put(canvas, TOP)
}

/// A line alone: a transaction that was neither refused nor committed.
pub(crate) fn put_neither(canvas: &mut Drawing, tx: Tx) -> Result<(), AllocError>
    ensures { OnOk result (Adds (node Neither tx ∷ []) canvas.old.shown canvas.new.shown) }
{
    put_head(canvas, LEAST_WIDTH, 40)?;
    canvas.put(&[Part::Markup("<text x=\"20\" y=\"22\">")])?;
    canvas.put_node(&Node {
        fate: Fate::Neither,
        tx,
    })?;
    canvas.put(&[Part::Markup("</text>\n")])
}
