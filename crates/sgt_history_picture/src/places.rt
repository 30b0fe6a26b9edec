//! Where the transactions of a cycle stand: one below the other.

use crate::short::shown_len;
use crate::told::Told;

/// How far two transactions are apart.
const PITCH: u64 = 66;

/// How high a transaction's box is.
pub(crate) const HIGH: u64 = 26;

/// Where the words beside an arrow begin. The way back runs on the left.
pub(crate) const WORDS: u64 = 104;

/// Below the headline and the legend.
const TOP: u64 = 84;

/// The legend fits.
const LEAST_WIDTH: u64 = 640;

/// What stands behind the name in the headline, in letters.
const BEHIND_NAME: usize = 43;

/// How wide a text is, with room on both sides.
fn wide(letters: usize) -> u64 {
    (letters as u64).saturating_mul(7).saturating_add(20)
}

/// How wide the boxes are: the longest name that is drawn fits.
pub(crate) fn box_width(steps: &[Told<'_>]) -> u64 {
    let mut most = 60u64;
    for step in steps {
        most = most.max(wide(shown_len(step.from, 36)));
    }
    most
}

/// How wide the picture is: the headline fits, the boxes, and the longest of the texts beside the steps.
pub(crate) fn width(headline: &[u8], steps: &[Told<'_>], boxes: u64) -> u64 {
    let mut most = boxes;
    for step in steps {
        most = most.max(wide(shown_len(step.about, 104)).saturating_add(21));
    }
    let above = wide(headline.len().saturating_add(BEHIND_NAME));
    most.saturating_add(WORDS).max(LEAST_WIDTH).max(above)
}

/// How high the picture of so many steps is, with room for a line below where more are left out.
pub(crate) fn height(steps: usize, more: usize) -> u64 {
    let below = if more == 0 { 0u64 } else { PITCH / 2 };
    top_of(steps as u64).saturating_add(below)
}

/// Where the box of the transaction at this place begins.
pub(crate) fn top_of(place: u64) -> u64 {
    place.saturating_mul(PITCH).saturating_add(TOP)
}
