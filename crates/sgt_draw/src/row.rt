//! Where the transactions of a row stand, side by side.

/// No row is wider.
pub const MOST_WIDTH: u64 = 1_600;

/// The headline and the legend fit.
pub const LEAST_WIDTH: u64 = 640;

/// How wide a letter is, at most.
pub const LETTER: u64 = 7;

/// How often the second number is in the first.
pub(crate) fn quotient(whole: u64, part: u64) -> u64 {
    if part == 0 { 0 } else { whole / part }
}

/// A row of so many transactions: boxes with names, or dots.
#[derive(Clone, Copy)]
pub struct Row {
    pub count: u64,
    pub is_named: bool,
}

impl Row {
    /// How far two transactions are apart: less where there are more of them.
    pub(crate) fn pitch(&self) -> u64 {
        let (least, most) = if self.is_named {
            (38u64, 104u64)
        } else {
            (7, 12)
        };
        let gaps = self.count.saturating_sub(1).max(1);
        quotient(MOST_WIDTH - 80, gaps).min(most).max(least)
    }

    /// Half of a transaction's width.
    pub(crate) fn half(&self) -> u64 {
        if self.is_named {
            (self.pitch().saturating_sub(2) / 2).min(38)
        } else {
            3
        }
    }

    /// Half of a transaction's height.
    pub(crate) fn half_height(&self) -> u64 {
        if self.is_named { 12 } else { 3 }
    }

    /// Where the first one stands.
    pub(crate) fn left(&self) -> u64 {
        self.half().saturating_add(20)
    }

    /// Where the one at this place stands.
    pub(crate) fn x_of(&self, place: u64) -> u64 {
        self.left()
            .saturating_add(place.saturating_mul(self.pitch()))
    }

    /// How wide the row is, with the room on both sides.
    pub(crate) fn width(&self) -> u64 {
        self.x_of(self.count.saturating_sub(1))
            .saturating_add(self.left())
            .max(LEAST_WIDTH)
    }

    /// The middle of a text of this width, as near to a point as the text is not cut.
    pub(crate) fn middle(&self, wanted: u64, wide: u64) -> u64 {
        let half = (wide / 2).saturating_add(4);
        wanted.min(self.width().saturating_sub(half)).max(half)
    }
}
