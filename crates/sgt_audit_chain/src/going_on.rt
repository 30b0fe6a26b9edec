//! Whether a bundle goes on from the values that the one before it left.

ghost use Rattle.std.specs.Prelude.{◌≡◌, ◌≢◌, ◌+◌, ℕ, List, length, map, take, slice_get, IfSome, IfNone, IfOk};
ghost use Rattle.sgt_bundle.specs.Text.{section_lines};
ghost use Rattle.sgt_audit_chain.specs.Break.{FirstBreak};
ghost use Rattle.sgt_audit_chain.specs.Chain.{final_of, initial_of};
ghost use Rattle.sgt_audit_chain.specs.Sums.{in_64_bits};

use sgt_compact::CompactLog;
use sgt_names::{Holding, Listed};
use std::alloc::{AllocError, Global};

/// The first place at which the items are not the same, with the same values.
fn first_difference(items: &[Holding], left: &[Holding]) -> Option<usize>
    ensures none { IfNone result (items.now ≡ left.now) }
    ensures some { IfSome result (λ n. (take n items.now ≡ take n left.now)
        × (slice_get items.now n ≢ slice_get left.now n)) }
{
    for (n, holding) in items.iter().enumerate() {
        match left.get(n) {
            Some(other) if *other == *holding => (),
            _ => return Some(n),
        }
    }
    if items.len() < left.len() {
        Some(items.len())
    } else {
        None
    }
}

/// How many lines the section of a log has.
fn lines_of(log: &CompactLog) -> u64
    ensures { (k : ℕ) → result ≡ in_64_bits (length (section_lines k log.now)) }
{
    let items = log.items().len() as u64;
    let entries = log.entries().len() as u64;
    let finals = log.finals().len() as u64;
    items
        .saturating_add(entries)
        .saturating_add(finals)
        .saturating_add(2)
}

/// The first line of a bundle with these logs that doesn't go on from what was left.
pub(crate) fn first_break(left: &[Listed<Holding>], logs: &[CompactLog]) -> Option<u64>
    ensures none { IfNone result (map initial_of logs.now ≡ left.now) }
    ensures some { IfSome result (λ line. (n : ℕ) × FirstBreak left.now logs.now n
        × (line ≡ in_64_bits n)) }
{
    let mut line = 3u64;
    for (site, log) in logs.iter().enumerate() {
        let Some(values) = left.get(site) else {
            return Some(line);
        };
        if let Some(place) = first_difference(log.items(), values.as_slice()) {
            return Some(line.saturating_add(place as u64).saturating_add(1));
        }
        line = line.saturating_add(lines_of(log));
    }
    if logs.len() < left.len() {
        Some(line)
    } else {
        None
    }
}

/// The final values of the logs, which are let go.
pub(crate) fn values_left(
    alloc: Global,
    logs: Vec<CompactLog>,
) -> Result<Vec<Listed<Holding>>, AllocError>
    ensures { IfOk result (λ left. left.items ≡ map final_of logs.items) }
{
    let mut left = Vec::new(alloc);
    for log in logs {
        left.push(log.into_finals())?;
    }
    Ok(left)
}
