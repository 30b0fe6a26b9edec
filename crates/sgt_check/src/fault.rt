//! The text of a fault.

ghost use Rattle.std.specs.Prelude.{◌≡◌, ◌++◌, OnOk};
ghost use Rattle.sgt_check.specs.Told.{IsToldAs, spelled};
ghost use Rattle.sgt_check.specs.Text.{evidence_text, fault_text, flaw_text, kind_text, operation_text, told_text, value_at, value_text, values_text, writer_text};
ghost use Rattle.sgt_history.specs.Flaws.{IsFirstFault};
ghost use Rattle.sgt_history.specs.History.{closed_of};

use crate::naming::{Naming, push_line_number, push_name};
use sgt_history::{Flaw, History, Kind, Operation};
use sgt_history_evidence::{Evidence, evidence_of, operation_at, transaction_of};
use sgt_history_faults::Fault;
use sgt_notation::push_number;
use std::alloc::AllocError;

/// The name of a fault, in a line.
fn flaw_line(flaw: Flaw) -> &'static [u8]
    ensures { result.now ≡ flaw_text flaw }
{
    match flaw {
        Flaw::Internal => b"no internal\n",
        Flaw::Duplicate => b"no duplicate\n",
        Flaw::AbortedRead => b"no G1a\n",
        Flaw::Unwritten => b"no unwritten\n",
        Flaw::IntermediateRead => b"no G1b\n",
        Flaw::Value => b"no value\n",
    }
}

/// A kind of operation, between spaces.
fn kind_word(kind: Kind) -> &'static [u8]
    ensures { result.now ≡ kind_text kind }
{
    match kind {
        Kind::Read => b" r ",
        Kind::Write => b" w ",
    }
}

/// Puts an operation's kind, item and version.
pub fn push_operation(
    out: &mut Vec<u8>,
    naming: &Naming,
    operation: Operation<u32, u32>,
) -> Result<(), AllocError>
    ensures { OnOk result (out.new.items ≡ out.old.items ++ operation_text (spelled naming.now) operation) }
{
    out.extend_from_slice(kind_word(operation.kind))?;
    push_name(out, &naming.items, operation.item)?;
    out.extend_from_slice(b" ")?;
    push_number(out, operation.version)
}

/// Puts the line that wrote a version.
fn push_writer(out: &mut Vec<u8>, naming: &Naming, line: u32) -> Result<(), AllocError>
    ensures { OnOk result (out.new.items ≡ out.old.items ++ writer_text (spelled naming.now) line) }
{
    out.extend_from_slice(b" written by ")?;
    push_name(out, &naming.ids, line)?;
    out.extend_from_slice(b" line ")?;
    push_line_number(out, line)
}

/// Puts the value, if there is one.
fn push_value(out: &mut Vec<u8>, naming: &Naming, value: Option<u32>) -> Result<(), AllocError>
    ensures { OnOk result (out.new.items ≡ out.old.items ++ value_text (spelled naming.now) value) }
{
    match value {
        Some(value) => push_name(out, &naming.values, value),
        None => Ok(()),
    }
}

/// The value that the operation at the place of the line gives, if it is there.
fn value_of(history: &History, line: u32, place: u32) -> Option<u32>
    ensures { result ≡ value_at (closed_of history.now) line place }
{
    if line as usize >= history.lines.len() {
        return None;
    }
    let (_, operations) = transaction_of(history, line as usize);
    if place as usize >= operations.len() {
        return None;
    }
    operations[place as usize].value
}

/// Puts which line gives which other value.
fn push_values(
    out: &mut Vec<u8>,
    naming: &Naming,
    value: Option<u32>,
    line: u32,
    other: Option<u32>,
) -> Result<(), AllocError>
    ensures { OnOk result (out.new.items ≡ out.old.items ++ values_text (spelled naming.now) value line other) }
{
    out.extend_from_slice(b" value ")?;
    push_value(out, naming, value)?;
    out.extend_from_slice(b", line ")?;
    push_line_number(out, line)?;
    out.extend_from_slice(b" gives ")?;
    push_value(out, naming, other)
}

/// Puts what stands behind a fault of an operation of this line.
fn push_evidence(
    out: &mut Vec<u8>,
    naming: &Naming,
    history: &History,
    faulty: (u32, Operation<u32, u32>),
    evidence: Evidence,
) -> Result<(), AllocError>
    ensures { OnOk result (out.new.items ≡ out.old.items
        ++ evidence_text (spelled naming.now) (closed_of history.now) faulty.0 faulty.1 evidence) }
{
    let (line, operation) = faulty;
    match evidence {
        Evidence::Nothing => Ok(()),
        Evidence::Wrote(version) => {
            out.extend_from_slice(b" wrote ")?;
            push_number(out, version)
        }
        Evidence::WritesLater => {
            out.extend_from_slice(b" writes it in line ")?;
            push_line_number(out, line)
        }
        Evidence::Writer(by) => push_writer(out, naming, by),
        Evidence::Surpassed(by, version) => {
            push_writer(out, naming, by)?;
            out.extend_from_slice(b", which wrote ")?;
            push_number(out, version)
        }
        Evidence::Gives(by, place) => {
            push_values(
                out,
                naming,
                operation.value,
                by,
                value_of(history, by, place),
            )
        }
    }
}

/// Puts the line of an operation that has a fault.
fn push_told(
    out: &mut Vec<u8>,
    naming: &Naming,
    history: &History,
    faulty: (u32, Operation<u32, u32>),
    evidence: Evidence,
) -> Result<(), AllocError>
    ensures { OnOk result (out.new.items ≡ out.old.items
        ++ told_text (spelled naming.now) (closed_of history.now) faulty.0 faulty.1 evidence) }
{
    let (line, operation) = faulty;
    out.extend_from_slice(b"line ")?;
    push_line_number(out, line)?;
    out.extend_from_slice(b" ")?;
    push_name(out, &naming.ids, line)?;
    push_operation(out, naming, operation)?;
    push_evidence(out, naming, history, faulty, evidence)?;
    out.extend_from_slice(b"\n")
}

/// Puts the first fault of a history, with what stands behind it.
pub fn push_fault(
    out: &mut Vec<u8>,
    naming: &Naming,
    history: &History,
    fault: Fault,
) -> Result<(), AllocError>
    requires { IsFirstFault (closed_of history.now) fault.line fault.flaw fault.place }
    ensures { OnOk result ((told : IsToldAs (closed_of history.now) fault)
        × (out.new.items ≡ out.old.items ++ fault_text (spelled naming.now) (closed_of history.now) fault.line
        fault.flaw told.o told.evidence)) }
{
    let Fault { line, flaw, place } = fault;
    let operation = operation_at(history, line, place);
    let evidence = evidence_of(history, line, flaw, place);
    out.extend_from_slice(flaw_line(flaw))?;
    push_told(out, naming, history, (line, operation), evidence)
}
