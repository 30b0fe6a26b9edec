//! Labels of lines by which a cycle is shown to be the first. What a search tells of them is checked here.

ghost use Rattle.std.specs.Prelude.{◌≡◌, ◌+◌, ◌*◌, ◌<◌, ◌≤◌, ◌^◌, ℕ, IsTrue, length};
ghost use Rattle.sgt_history_kept.specs.Labels.{IsKeyed, IsLabeled, IsLeveled, LeadHome, LeadsHome};

use crate::rising::number_of_line;
use crate::round::line_behind;
use std::alloc::{AllocError, Global};

/// By line: two levels, how far it is to the cycle's first line, and keys.
#[derive(Drop)]
pub(crate) struct Labels {
    /// The level to which steps come, and that from which they lead on.
    pub enters: Vec<u64>,
    pub leaves: Vec<u64>,
    pub distances: Vec<u64>,
    /// The distance, and then the line.
    pub keys: Vec<u64>,
    /// No step leads from the line to one of a lesser key.
    pub least: Vec<u64>,
}

impl Labels {
    /// None, with room for so many lines.
    pub(crate) fn with_capacity(alloc: Global, lines: usize) -> Result<Labels, AllocError> {
        Ok(Labels {
            enters: Vec::with_capacity(alloc, lines)?,
            leaves: Vec::with_capacity(alloc, lines)?,
            distances: Vec::with_capacity(alloc, lines)?,
            keys: Vec::with_capacity(alloc, lines)?,
            least: Vec::with_capacity(alloc, lines)?,
        })
    }
}

/// How many keys there are for one distance.
pub(crate) const KEYS: u64 = 4_294_967_296;

/// Whether the line is left on no lower level than it is come to, below the node on a higher one.
fn is_leveled(labels: &Labels, node: usize, line: usize) -> bool
    ensures { IsTrue result → IsLeveled node labels.now line }
{
    let enters = number_of_line(labels.enters.as_slice(), line);
    let leaves = number_of_line(labels.leaves.as_slice(), line);
    if enters > leaves {
        return false;
    }
    line >= node || enters < leaves
}

/// Whether the line's key is that of its distance, and the least key behind it is that of one which is nearer by one at
/// most.
fn is_keyed(labels: &Labels, line: usize) -> bool
    requires { line < 2 ^ 32 }
    ensures { IsTrue result → IsKeyed labels.now line }
{
    let distance = number_of_line(labels.distances.as_slice(), line);
    if distance > u32::MAX as u64 {
        return false;
    }
    let first = distance * KEYS;
    if number_of_line(labels.keys.as_slice(), line) != first + line as u64 {
        return false;
    }
    first.saturating_sub(number_of_line(labels.least.as_slice(), line)) <= KEYS
}

/// Whether the labels of all lines are as they are to be for a cycle from this node.
pub(crate) fn are_labeled(labels: &Labels, node: usize, lines: usize) -> bool
    requires { lines ≤ 2 ^ 32 }
    ensures { IsTrue result → (line : ℕ) → line < lines → IsLabeled node labels.now line }
{
    for line in 0..lines {
        if !is_leveled(labels, node, line) || !is_keyed(labels, line) {
            return false;
        }
    }
    true
}

/// Whether it is so far from the next line, and that has the least key of those behind the line.
fn leads_home(labels: &Labels, left: usize, line: u32, next: u32) -> bool
    ensures { IsTrue result → LeadsHome labels.now left line next }
{
    if number_of_line(labels.distances.as_slice(), next as usize) != left as u64 {
        return false;
    }
    number_of_line(labels.keys.as_slice(), next as usize)
        <= number_of_line(labels.least.as_slice(), line as usize)
}

/// Whether the cycle leads from each line to the nearest next one.
pub(crate) fn all_lead_home(labels: &Labels, cycle: &[u32]) -> bool
    ensures { IsTrue result → LeadHome labels.now cycle.now (length cycle.now) }
{
    for place in 0..cycle.len() {
        let left = cycle.len() - place - 1;
        let next = line_behind(cycle, place);
        if !leads_home(labels, left, cycle[place], next) {
            return false;
        }
    }
    true
}
