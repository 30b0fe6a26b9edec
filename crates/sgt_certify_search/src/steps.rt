//! The cycles that were found, as steps that can be checked against the logs.

use sgt_certify_history::{Before, History, Link};
use sgt_certify_logs::{ConflictStep, EndStep, Spot};
use std::alloc::{AllocError, Global};

/// The place of the entry of this line.
fn entry_at(history: &History, site: usize, line: u32) -> usize {
    match history.bases.get(site) {
        Some(base) => (line as usize).saturating_sub(*base),
        None => line as usize,
    }
}

/// Where the transaction ends first.
fn first_end(history: &History, tx: u32) -> Option<Spot> {
    let ending = history.endings(tx).first()?;
    let end = history.end_at(ending.at)?;
    let site = ending.site as usize;
    Some(Spot {
        site,
        entry: entry_at(history, site, end.line),
    })
}

fn end_step(history: &History, step: &Before) -> Option<EndStep> {
    let from = history.life(step.from)?;
    let to = history.life(step.to)?;
    let site = step.site as usize;
    Some(EndStep {
        from: from.tx,
        to: to.tx,
        first: Spot {
            site,
            entry: entry_at(history, site, step.first),
        },
        second: entry_at(history, site, step.second),
    })
}

fn conflict_step(history: &History, link: &Link) -> Option<ConflictStep> {
    let from = history.life(link.from)?;
    let to = history.life(link.to)?;
    let site = link.conflict.label.site.number() as usize;
    Some(ConflictStep {
        from: from.tx,
        to: to.tx,
        kind: link.conflict.label.kind,
        item: link.conflict.label.item,
        first: Spot {
            site,
            entry: entry_at(history, site, link.conflict.first),
        },
        second: entry_at(history, site, link.conflict.second),
        from_end: first_end(history, link.from)?,
        to_end: first_end(history, link.to)?,
    })
}

/// The steps of a cycle of ends.
pub fn end_steps(
    alloc: Global,
    history: &History,
    cycle: &[Before],
) -> Result<Vec<EndStep>, AllocError> {
    let mut steps = Vec::new(alloc);
    for step in cycle {
        if let Some(step) = end_step(history, step) {
            steps.push(step)?;
        }
    }
    Ok(steps)
}

/// The steps of a cycle of conflicts.
pub fn conflict_steps(
    alloc: Global,
    history: &History,
    cycle: &[Link],
) -> Result<Vec<ConflictStep>, AllocError> {
    let mut steps = Vec::new(alloc);
    for link in cycle {
        if let Some(step) = conflict_step(history, link) {
            steps.push(step)?;
        }
    }
    Ok(steps)
}
