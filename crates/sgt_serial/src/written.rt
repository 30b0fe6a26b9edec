//! The text of a bundle's serial run, written a block at a time.

ghost use Rattle.std.specs.Prelude.{◌≡◌, ◌≤◌, ◌+◌, ◌++◌, [], map, codes, decimal, vec_len, vec_capacity, OnOk, OnErr, IfOk};
ghost use Rattle.std.specs.List.{flat_map};
ghost use Rattle.std.specs.Io.KnownBytes.{Appends};
ghost use Rattle.sgt_names.specs.Device.{CountsFailures, WritesFront};
ghost use Rattle.sgt_bundle.specs.Parts.{Parts};
ghost use Rattle.sgt_notation.specs.Spelling.{text_of_lines};
ghost use Rattle.sgt_serial.specs.Report.{reads_of, writes_of, run_of, report_of};
ghost use Rattle.sgt_serial.specs.Text.{operation_line, change_line, run_lines, final_line, report_text};
ghost use Rattle.sgt_serial.specs.private.Grouped.{AreOperationsOf};
ghost use Rattle.sgt_serial.specs.declared.entries.SiteEntry.{SiteEntry};
ghost use Rattle.sgt_serial.specs.private.Reads.{change_by, read_by};
ghost use Rattle.sgt_serial.specs.private.Written.{IsPlanOf, PassesOn, with_lf, text_of_read, text_of_change};

use crate::finals::finals;
use crate::operations::Operations;
use crate::order::order_and_sites;
use crate::report::{SiteChange, SiteValue};
use crate::text::{push_change, push_final, push_head, push_read};
use sgt_compact::{CompactBundle, CompactLog};
use sgt_names::{Failed, Sink, Tx, write_all};
use sgt_notation::LINE_ROOM;
use std::alloc::{AllocError, Global};

/// How many bytes are written at a time, and up to a line more.
const BLOCK: usize = 65_536;

/// All that the writing of a run needs, so that nothing is allocated once it begins.
#[derive(Drop)]
pub struct Plan {
    sites: Vec<CompactLog>,
    order: Vec<Tx>,
    operations: Operations,
    finals: Vec<SiteValue>,
    /// Room for a block and a line.
    out: Vec<u8>,
}

/// Makes room for a line: writes what is held back, once it is a block.
#[inline(always)]
fn make_room<W: Sink>(writer: &mut W, out: &mut Vec<u8>) -> Result<(), Failed>
    requires { 65600 ≤ vec_capacity out.old }
    ensures ok { OnOk result
        (PassesOn (W.holds writer.old) (W.holds writer.new) out.old.items [] out.new.items) }
    ensures err { OnErr result
        (WritesFront (W.holds writer.old) (W.holds writer.new) out.old.items) }
    ensures room { OnOk result (vec_len out.new + 64 ≤ vec_capacity out.new) }
    ensures capacity { vec_capacity out.old ≤ vec_capacity out.new }
    ensures fails { CountsFailures result (W.failures writer.old) (W.failures writer.new) }
{
    if out.len() < BLOCK {
        return Ok(());
    }
    write_all(writer, out.as_slice())?;
    out.clear();
    Ok(())
}

/// Writes the line of an entry, if it is a read.
#[inline(always)]
fn write_read<W: Sink>(
    writer: &mut W,
    out: &mut Vec<u8>,
    tx: Tx,
    read: Option<SiteValue>,
) -> Result<(), Failed>
    requires { 65600 ≤ vec_capacity out.old }
    ensures ok { (e : SiteEntry) → read ≡ read_by e
        → OnOk result (PassesOn (W.holds writer.old) (W.holds writer.new) out.old.items
        (text_of_read tx e) out.new.items) }
    ensures err { (e : SiteEntry) → read ≡ read_by e
        → OnErr result (WritesFront (W.holds writer.old) (W.holds writer.new)
        (out.old.items ++ text_of_read tx e)) }
    ensures capacity { vec_capacity out.old ≤ vec_capacity out.new }
    ensures fails { CountsFailures result (W.failures writer.old) (W.failures writer.new) }
{
    match read {
        Some(read) => {
            make_room(writer, out)?;
            push_read(out, tx, &read).unwrap();
            Ok(())
        }
        None => Ok(()),
    }
}

/// Writes the line of an entry, if it is a write or an increment.
#[inline(always)]
fn write_change<W: Sink>(
    writer: &mut W,
    out: &mut Vec<u8>,
    tx: Tx,
    change: Option<SiteChange>,
) -> Result<(), Failed>
    requires { 65600 ≤ vec_capacity out.old }
    ensures ok { (e : SiteEntry) → change ≡ change_by e
        → OnOk result (PassesOn (W.holds writer.old) (W.holds writer.new) out.old.items
        (text_of_change tx e) out.new.items) }
    ensures err { (e : SiteEntry) → change ≡ change_by e
        → OnErr result (WritesFront (W.holds writer.old) (W.holds writer.new)
        (out.old.items ++ text_of_change tx e)) }
    ensures capacity { vec_capacity out.old ≤ vec_capacity out.new }
    ensures fails { CountsFailures result (W.failures writer.old) (W.failures writer.new) }
{
    match change {
        Some(write) => {
            make_room(writer, out)?;
            push_change(out, tx, &write).unwrap();
            Ok(())
        }
        None => Ok(()),
    }
}

/// Writes the line of the transaction's number.
fn write_head<W: Sink>(writer: &mut W, out: &mut Vec<u8>, tx: Tx) -> Result<(), Failed>
    requires { 65600 ≤ vec_capacity out.old }
    ensures ok { OnOk result (PassesOn (W.holds writer.old) (W.holds writer.new) out.old.items
        (with_lf (codes "t" ++ decimal tx)) out.new.items) }
    ensures err { OnErr result (WritesFront (W.holds writer.old) (W.holds writer.new)
        (out.old.items ++ with_lf (codes "t" ++ decimal tx))) }
    ensures capacity { vec_capacity out.old ≤ vec_capacity out.new }
    ensures fails { CountsFailures result (W.failures writer.old) (W.failures writer.new) }
{
    make_room(writer, out)?;
    push_head(out, tx).unwrap();
    Ok(())
}

/// Writes the line of a final value.
fn write_final<W: Sink>(writer: &mut W, out: &mut Vec<u8>, value: &SiteValue) -> Result<(), Failed>
    requires { 65600 ≤ vec_capacity out.old }
    ensures ok { OnOk result (PassesOn (W.holds writer.old) (W.holds writer.new) out.old.items
        (with_lf (final_line value.now)) out.new.items) }
    ensures err { OnErr result (WritesFront (W.holds writer.old) (W.holds writer.new)
        (out.old.items ++ with_lf (final_line value.now))) }
    ensures capacity { vec_capacity out.old ≤ vec_capacity out.new }
    ensures fails { CountsFailures result (W.failures writer.old) (W.failures writer.new) }
{
    make_room(writer, out)?;
    push_final(out, value).unwrap();
    Ok(())
}

/// Writes the lines of the transaction's reads.
fn write_reads<W: Sink>(
    writer: &mut W,
    out: &mut Vec<u8>,
    logs: &[CompactLog],
    operations: &Operations,
    tx: Tx,
) -> Result<(), Failed>
    requires room { 65600 ≤ vec_capacity out.old }
    requires of { AreOperationsOf logs.now operations.now }
    ensures ok { OnOk result (PassesOn (W.holds writer.old) (W.holds writer.new) out.old.items
        (text_of_lines (map (operation_line (codes "r") tx) (reads_of logs.now tx))) out.new.items) }
    ensures err { OnErr result (WritesFront (W.holds writer.old) (W.holds writer.new)
        (out.old.items ++ text_of_lines (map (operation_line (codes "r") tx) (reads_of logs.now tx)))) }
    ensures capacity { vec_capacity out.old ≤ vec_capacity out.new }
    ensures fails { CountsFailures result (W.failures writer.old) (W.failures writer.new) }
{
    let span = operations.span(tx);
    for place in span.from..span.to {
        if operations.is_read(logs, place) {
            write_read(writer, out, tx, operations.read_at(logs, place))?;
        }
    }
    Ok(())
}

/// Writes the lines of the transaction's writes and increments.
fn write_changes<W: Sink>(
    writer: &mut W,
    out: &mut Vec<u8>,
    logs: &[CompactLog],
    operations: &Operations,
    tx: Tx,
) -> Result<(), Failed>
    requires room { 65600 ≤ vec_capacity out.old }
    requires of { AreOperationsOf logs.now operations.now }
    ensures ok { OnOk result (PassesOn (W.holds writer.old) (W.holds writer.new) out.old.items
        (text_of_lines (map (change_line tx) (writes_of logs.now tx))) out.new.items) }
    ensures err { OnErr result (WritesFront (W.holds writer.old) (W.holds writer.new)
        (out.old.items ++ text_of_lines (map (change_line tx) (writes_of logs.now tx)))) }
    ensures capacity { vec_capacity out.old ≤ vec_capacity out.new }
    ensures fails { CountsFailures result (W.failures writer.old) (W.failures writer.new) }
{
    let span = operations.span(tx);
    for place in span.from..span.to {
        if operations.is_change(logs, place) {
            write_change(writer, out, tx, operations.change_at(logs, place))?;
        }
    }
    Ok(())
}

/// Writes the lines of the transaction.
fn write_run<W: Sink>(
    writer: &mut W,
    out: &mut Vec<u8>,
    logs: &[CompactLog],
    operations: &Operations,
    tx: Tx,
) -> Result<(), Failed>
    requires room { 65600 ≤ vec_capacity out.old }
    requires of { AreOperationsOf logs.now operations.now }
    ensures ok { OnOk result (PassesOn (W.holds writer.old) (W.holds writer.new) out.old.items
        (text_of_lines (run_lines (run_of logs.now tx))) out.new.items) }
    ensures err { OnErr result (WritesFront (W.holds writer.old) (W.holds writer.new)
        (out.old.items ++ text_of_lines (run_lines (run_of logs.now tx)))) }
    ensures capacity { vec_capacity out.old ≤ vec_capacity out.new }
    ensures fails { CountsFailures result (W.failures writer.old) (W.failures writer.new) }
{
    write_head(writer, out, tx)?;
    write_reads(writer, out, logs, operations, tx)?;
    write_changes(writer, out, logs, operations, tx)?;
    Ok(())
}

/// Writes the lines of these transactions, one after another.
fn write_runs<W: Sink>(
    writer: &mut W,
    out: &mut Vec<u8>,
    logs: &[CompactLog],
    operations: &Operations,
    order: &[Tx],
) -> Result<(), Failed>
    requires room { 65600 ≤ vec_capacity out.old }
    requires of { AreOperationsOf logs.now operations.now }
    ensures ok { OnOk result (PassesOn (W.holds writer.old) (W.holds writer.new) out.old.items
        (text_of_lines (flat_map run_lines (map (run_of logs.now) order.now))) out.new.items) }
    ensures err { OnErr result (WritesFront (W.holds writer.old) (W.holds writer.new)
        (out.old.items ++ text_of_lines (flat_map run_lines (map (run_of logs.now) order.now)))) }
    ensures capacity { vec_capacity out.old ≤ vec_capacity out.new }
    ensures fails { CountsFailures result (W.failures writer.old) (W.failures writer.new) }
{
    for tx in order {
        write_run(writer, out, logs, operations, *tx)?;
    }
    Ok(())
}

/// Writes the lines of the final values.
fn write_finals<W: Sink>(
    writer: &mut W,
    out: &mut Vec<u8>,
    finals: &[SiteValue],
) -> Result<(), Failed>
    requires { 65600 ≤ vec_capacity out.old }
    ensures ok { OnOk result (PassesOn (W.holds writer.old) (W.holds writer.new) out.old.items
        (text_of_lines (map final_line finals.now)) out.new.items) }
    ensures err { OnErr result (WritesFront (W.holds writer.old) (W.holds writer.new)
        (out.old.items ++ text_of_lines (map final_line finals.now))) }
    ensures capacity { vec_capacity out.old ≤ vec_capacity out.new }
    ensures fails { CountsFailures result (W.failures writer.old) (W.failures writer.new) }
{
    for value in finals {
        write_final(writer, out, value)?;
    }
    Ok(())
}

impl Plan {
    /// That of the bundle's run. The bundle's certificate is let go.
    pub fn new(alloc: Global, bundle: CompactBundle) -> Result<Plan, AllocError>
        ensures { IfOk result (IsPlanOf bundle 65600) }
    {
        let (order, sites) = order_and_sites(alloc, bundle)?;
        let operations = Operations::new(alloc, sites.as_slice())?;
        let finals = finals(alloc, sites.as_slice())?;
        let out = Vec::with_capacity(alloc, BLOCK + LINE_ROOM)?;
        Ok(Plan {
            sites,
            order,
            operations,
            finals,
            out,
        })
    }

    /// Writes the text of the report of the serial run of the bundle that it is of. Nothing is
    /// compared: whether the run agrees with the record is not asked.
    pub fn write<W: Sink>(self, writer: &mut W) -> Result<(), Failed>
        requires { (b : Parts) × IsPlanOf b 65600 self }
        ensures ok { (b : Parts) → IsPlanOf b 65600 self → OnOk result
            (Appends (W.holds writer.old) (W.holds writer.new) (report_text (report_of b))) }
        ensures err { (b : Parts) → IsPlanOf b 65600 self → OnErr result
            (WritesFront (W.holds writer.old) (W.holds writer.new) (report_text (report_of b))) }
        ensures fails { CountsFailures result (W.failures writer.old) (W.failures writer.new) }
    {
        let Plan {
            sites,
            order,
            operations,
            finals,
            mut out,
        } = self;
        let logs = sites.as_slice();
        write_runs(writer, &mut out, logs, &operations, order.as_slice())?;
        write_finals(writer, &mut out, finals.as_slice())?;
        write_all(writer, out.as_slice())?;
        Ok(())
    }
}
