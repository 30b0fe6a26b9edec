//! What is said of a step of a walk that is no conflict of the logs.

ghost use Rattle.std.specs.Prelude.{◌≡◌, ◌++◌, ◌&&◌, OnOk, string_bytes};
ghost use Rattle.sgt_names.specs.Entry.{is_increment};
ghost use Rattle.sgt_explain_steps.specs.Told.{begins_with_read, ends_with_read, deed_text, step_head, wish_text, absent_text, pair_text, misfit_reason, misfit_text, reason_text, met_head, met_text, other_text, walk_step_text};

use crate::unmet::{Met, Unmet};
use sgt_bundle::Step;
use sgt_explain_lines::{Logged, kind_name, push_logged};
use sgt_names::{Kind, Tx};
use std::alloc::AllocError;
use std::fmt::Write;

/// Whether a step of the kind begins with a read.
pub fn begins_with_read(kind: Kind) -> bool
    ensures { result ≡ begins_with_read kind }
{
    matches!(kind, Kind::Rw)
}

/// Whether a step of the kind ends with a read.
pub fn ends_with_read(kind: Kind) -> bool
    ensures { result ≡ ends_with_read kind }
{
    matches!(kind, Kind::Wr)
}

fn deed(reads: bool) -> &'static str
    ensures { result.now ≡ deed_text reads }
{
    if reads { "read" } else { "write" }
}

/// Which step it is.
fn push_head(out: &mut String, unmet: &Unmet) -> Result<(), AllocError>
    ensures { OnOk result (string_bytes out.new ≡ string_bytes out.old ++ step_head unmet.now) }
{
    let tx = unmet.tx;
    let number = unmet.number;
    let count = unmet.count;
    let counted = unmet.place + 1;
    write!(
        out,
        "WalkStep: step {counted} of {count} in the walk of refused transaction {tx} (decision {number})\n"
    )
}

/// What a step from this transaction wants.
fn push_wish(out: &mut String, from: Tx, step: &Step) -> Result<(), AllocError>
    ensures { OnOk result (string_bytes out.new ≡ string_bytes out.old ++ wish_text from step.now) }
{
    let to = step.to;
    let item = step.label.item;
    let site = step.label.site;
    let kind = kind_name(step.label.kind);
    let first = deed(begins_with_read(step.label.kind));
    let second = deed(ends_with_read(step.label.kind));
    write!(
        out,
        "{from} -> {to} by {kind} on {item} at site {site}: a {first} by {from} before a {second} by {to}\n"
    )
}

/// That the transaction has no such entry on the item.
fn push_absent(out: &mut String, tx: Tx, step: &Step, reads: bool) -> Result<(), AllocError>
    ensures { OnOk result
        (string_bytes out.new ≡ string_bytes out.old ++ absent_text tx step.now reads) }
{
    let item = step.label.item;
    let what = deed(reads);
    write!(out, "transaction {tx} has no {what} of {item} there\n")
}

/// Two entries, with a line break between them.
fn push_pair(out: &mut String, one: &Logged, other: &Logged) -> Result<(), AllocError>
    ensures { OnOk result
        (string_bytes out.new ≡ string_bytes out.old ++ pair_text one.now other.now) }
{
    push_logged(out, one)?;
    out.push_str("\n")?;
    push_logged(out, other)
}

fn are_increments(one: &Logged, other: &Logged) -> bool
    ensures { result ≡ (is_increment one.now.entry && is_increment other.now.entry) }
{
    one.entry.is_increment() && other.entry.is_increment()
}

fn misfit_reason(adds: bool) -> &'static str
    ensures { result.now ≡ misfit_reason adds }
{
    if adds {
        "\nboth are increments, which are in no conflict\n"
    } else {
        "\nthe two are there in the other order\n"
    }
}

/// Why two entries that are there are no such conflict.
fn push_misfit(out: &mut String, one: &Logged, other: &Logged) -> Result<(), AllocError>
    ensures { OnOk result
        (string_bytes out.new ≡ string_bytes out.old ++ misfit_text one.now other.now) }
{
    let adds = are_increments(one, other);
    push_pair(out, one, other)?;
    out.push_str(misfit_reason(adds))
}

/// Why a step is no conflict of the logs.
fn push_reason(out: &mut String, unmet: &Unmet) -> Result<(), AllocError>
    ensures { OnOk result
        (string_bytes out.new
        ≡ string_bytes out.old ++ reason_text unmet.now unmet.now.first unmet.now.second) }
{
    let step = &unmet.step;
    let kind = step.label.kind;
    match (unmet.first, unmet.second) {
        (Some(one), Some(other)) => push_misfit(out, &one, &other),
        (Some(_), None) => push_absent(out, step.to, step, ends_with_read(kind)),
        (None, Some(_)) => push_absent(out, unmet.from, step, begins_with_read(kind)),
        (None, None) => {
            push_absent(out, unmet.from, step, begins_with_read(kind))?;
            push_absent(out, step.to, step, ends_with_read(kind))
        }
    }
}

/// That there is a conflict of the kind with this name.
fn push_met_head(out: &mut String, name: &str) -> Result<(), AllocError>
    ensures { OnOk result (string_bytes out.new ≡ string_bytes out.old ++ met_head name.now) }
{
    write!(out, "the log has {name} there:\n")
}

/// The conflict of another kind that is there.
fn push_met(out: &mut String, met: &Met) -> Result<(), AllocError>
    ensures { OnOk result (string_bytes out.new ≡ string_bytes out.old ++ met_text met.now) }
{
    push_met_head(out, kind_name(met.kind))?;
    push_pair(out, &met.first, &met.second)?;
    out.push_str("\n")
}

/// The same, where there is one.
fn push_other(out: &mut String, other: &Option<Met>) -> Result<(), AllocError>
    ensures { OnOk result (string_bytes out.new ≡ string_bytes out.old ++ other_text other.now) }
{
    match other {
        Some(met) => push_met(out, met),
        None => out.push_str(""),
    }
}

/// F17: a step of a walk that is no conflict of the logs.
pub fn push_walk_step(out: &mut String, unmet: &Unmet) -> Result<(), AllocError>
    ensures { OnOk result
        (string_bytes out.new ≡ string_bytes out.old ++ walk_step_text unmet.now) }
{
    push_head(out, unmet)?;
    push_wish(out, unmet.from, &unmet.step)?;
    push_reason(out, unmet)?;
    push_other(out, &unmet.other)
}
