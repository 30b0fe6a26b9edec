//! The text of a yes.

ghost use Rattle.std.specs.Prelude.{◌≡◌, ◌++◌, ◌-◌, ◌≤◌, codes, length, OnOk, count_by};
ghost use Rattle.std.specs.List.{flat_map};
ghost use Rattle.sgt_check.specs.Told.{commits_at, id_part, spelled};
ghost use Rattle.sgt_check.specs.Text.{counts_text};
ghost use Rattle.sgt_history.specs.declared.history.Line.{Line};

use crate::naming::{Naming, push_name};
use sgt_history::Line;
use sgt_notation::push_number;
use std::alloc::AllocError;

/// How many of the lines commit.
fn count_committed(lines: &[Line]) -> usize
    ensures count { result ≡ count_by (λ (l : Line). l.commits) lines.now }
    ensures most { result ≤ length lines.now }
{
    let mut count = 0;
    for line in lines {
        if line.commits {
            count += 1;
        }
    }
    count
}

/// Puts how many lines commit, and how many don't.
pub fn push_counts(out: &mut Vec<u8>, lines: &[Line]) -> Result<(), AllocError>
    ensures { let committed = count_by (λ (l : Line). l.commits) lines.now in
        OnOk result (out.new.items ≡ out.old.items ++ counts_text committed (length lines.now - committed)) }
{
    let committed = count_committed(lines);
    out.extend_from_slice(b"yes ")?;
    push_number(out, committed as u64)?;
    out.extend_from_slice(b" committed ")?;
    push_number(out, (lines.len() - committed) as u64)?;
    out.extend_from_slice(b" aborted\n")
}

/// Whether the line commits.
fn commits(lines: &[Line], line: u32) -> bool
    ensures { result ≡ commits_at lines.now line }
{
    match lines.get(line as usize) {
        Some(line) => line.commits,
        None => false,
    }
}

/// Puts the id of the line, if it commits.
fn push_committed(
    out: &mut Vec<u8>,
    naming: &Naming,
    lines: &[Line],
    line: u32,
) -> Result<(), AllocError>
    ensures { OnOk result (out.new.items ≡ out.old.items ++ id_part (spelled naming.now) lines.now line) }
{
    if !commits(lines, line) {
        return Ok(());
    }
    push_name(out, &naming.ids, line)?;
    out.extend_from_slice(b"\n")
}

/// Puts the ids of those of the lines that commit, in this order.
pub fn push_order(
    out: &mut Vec<u8>,
    naming: &Naming,
    lines: &[Line],
    order: &[u32],
) -> Result<(), AllocError>
    ensures { OnOk result (out.new.items ≡ out.old.items
        ++ (codes "---\n" ++ flat_map (id_part (spelled naming.now) lines.now) order.now)) }
{
    out.extend_from_slice(b"---\n")?;
    for line in order {
        push_committed(out, naming, lines, *line)?;
    }
    Ok(())
}
