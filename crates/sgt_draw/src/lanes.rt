//! Heights for edges, so that no label stands on another.

use crate::edges::Edge;
use crate::marks::label_width;
use crate::row::{Row, quotient};
use std::alloc::{AllocError, Global};

/// An edge with its height, counted in lanes, and the middle of its label.
#[derive(Clone, Copy)]
pub struct Laid {
    pub edge: Edge,
    pub lane: u64,
    pub middle: u64,
}

fn span(edge: &Edge) -> u32 {
    edge.to.saturating_sub(edge.from)
}

/// The middle of an edge's label, and its width.
fn label_place(row: &Row, edge: &Edge) -> (u64, u64) {
    let from = row.x_of(u64::from(edge.from));
    let to = row.x_of(u64::from(edge.to));
    let wide = label_width(edge);
    (row.middle(from.saturating_add(to) / 2, wide), wide)
}

/// The number of the gap between places that this is in. The first one is before all places.
fn gap_at(row: &Row, x: u64) -> u64 {
    let pitch = row.pitch();
    quotient(x.saturating_add(pitch).saturating_sub(row.left()), pitch)
}

/// The gaps between places that an edge and its label stand over, a bit each. A label may be wider than its edge.
fn gaps_under(row: &Row, edge: &Edge) -> u64 {
    let (middle, wide) = label_place(row, edge);
    let half_gap = row.pitch() / 2;
    let from = row.x_of(u64::from(edge.from)).saturating_add(half_gap);
    let to = row.x_of(u64::from(edge.to)).saturating_sub(half_gap);
    let low = from.min(middle.saturating_sub(wide / 2));
    let high = to.max(middle.saturating_add(wide / 2));
    let mut gaps = 0u64;
    for gap in gap_at(row, low)..gap_at(row, high).saturating_add(1) {
        gaps |= 1u64.checked_shl(gap.min(64) as u32).unwrap_or(0);
    }
    gaps
}

/// The first lane where these gaps are free, which they are then no longer.
fn take_lane(lanes: &mut Vec<u64>, gaps: u64) -> Result<u64, AllocError> {
    let mut number = 0u64;
    for lane in lanes.iter_mut() {
        if *lane & gaps == 0 {
            *lane |= gaps;
            return Ok(number);
        }
        number = number.saturating_add(1);
    }
    lanes.push(gaps)?;
    Ok(number)
}

/// The edges with their heights, short ones below long ones. Where they get no labels, an edge is as high as it is
/// long.
pub(crate) fn laid_in(
    alloc: Global,
    edges: &mut Vec<Edge>,
    row: &Row,
) -> Result<Vec<Laid>, AllocError> {
    edges.sort_by_key(|edge| (edge.to.saturating_sub(edge.from), edge.from))?;
    let mut lanes = Vec::new(alloc);
    let mut laid = Vec::new(alloc);
    for edge in edges.as_slice() {
        let lane = if row.is_named {
            take_lane(&mut lanes, gaps_under(row, edge))?
        } else {
            u64::from(span(edge))
        };
        let (middle, _) = label_place(row, edge);
        laid.push(Laid {
            edge: *edge,
            lane,
            middle,
        })?;
    }
    Ok(laid)
}
