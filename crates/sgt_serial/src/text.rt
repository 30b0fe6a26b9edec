//! A serial run, written.

ghost use Rattle.std.specs.Prelude.{◌≡◌, ◌≤◌, ◌+◌, [], ◌∷◌, ◌++◌, map, codes, decimal, vec_len, vec_capacity, IsOk, OnOk, IfOk};
ghost use Rattle.sgt_notation.specs.Spelling.{text_of_lines};
ghost use Rattle.sgt_serial.specs.Text.{operation_line, change_line, run_lines, final_line, report_text};
ghost use Rattle.sgt_serial.specs.private.Written.{with_lf};

use crate::line::{put_final, put_head, put_operation};
use crate::report::{SerialReport, SerialTx, SiteChange, SiteValue};
use sgt_names::{Change, Tx};
use sgt_notation::LINE_ROOM;
use std::alloc::{AllocError, Global};

/// Writes a line of this letter, of the transaction.
#[inline(always)]
fn push_operation(
    out: &mut Vec<u8>,
    letter: u8,
    tx: Tx,
    value: &SiteValue,
) -> Result<(), AllocError>
    ensures ok { OnOk result
        (out.new.items ≡ out.old.items ++ with_lf (operation_line (letter ∷ []) tx value.now)) }
    ensures room { vec_len out.old + 64 ≤ vec_capacity out.old → IsOk result }
    ensures capacity { vec_capacity out.old ≤ vec_capacity out.new }
{
    let mut line = [0u8; LINE_ROOM];
    let at = put_operation(&mut line, letter, tx, value);
    out.extend_from_slice(&line[at..])
}

/// Writes the line of a read.
pub fn push_read(out: &mut Vec<u8>, tx: Tx, read: &SiteValue) -> Result<(), AllocError>
    ensures ok { OnOk result (out.new.items ≡ out.old.items ++ with_lf (operation_line (codes "r") tx read.now)) }
    ensures room { vec_len out.old + 64 ≤ vec_capacity out.old → IsOk result }
    ensures capacity { vec_capacity out.old ≤ vec_capacity out.new }
{
    push_operation(out, b'r', tx, read)
}

/// Writes the line of a write or an increment.
pub fn push_change(out: &mut Vec<u8>, tx: Tx, write: &SiteChange) -> Result<(), AllocError>
    ensures ok { OnOk result (out.new.items ≡ out.old.items ++ with_lf (change_line tx write.now)) }
    ensures room { vec_len out.old + 64 ≤ vec_capacity out.old → IsOk result }
    ensures capacity { vec_capacity out.old ≤ vec_capacity out.new }
{
    let (letter, value) = match write.change {
        Change::Put(value) => (b'w', value),
        Change::Add(value) => (b'd', value),
    };
    let value = SiteValue {
        site: write.site,
        item: write.item,
        value,
    };
    push_operation(out, letter, tx, &value)
}

/// Writes the line of the transaction's number.
pub fn push_head(out: &mut Vec<u8>, tx: Tx) -> Result<(), AllocError>
    ensures ok { OnOk result (out.new.items ≡ out.old.items ++ with_lf (codes "t" ++ decimal tx)) }
    ensures room { vec_len out.old + 64 ≤ vec_capacity out.old → IsOk result }
    ensures capacity { vec_capacity out.old ≤ vec_capacity out.new }
{
    let mut line = [0u8; LINE_ROOM];
    let at = put_head(&mut line, tx);
    out.extend_from_slice(&line[at..])
}

/// Writes the line of a final value.
pub fn push_final(out: &mut Vec<u8>, value: &SiteValue) -> Result<(), AllocError>
    ensures ok { OnOk result (out.new.items ≡ out.old.items ++ with_lf (final_line value.now)) }
    ensures room { vec_len out.old + 64 ≤ vec_capacity out.old → IsOk result }
    ensures capacity { vec_capacity out.old ≤ vec_capacity out.new }
{
    let mut line = [0u8; LINE_ROOM];
    let at = put_final(&mut line, value);
    out.extend_from_slice(&line[at..])
}

fn push_reads(out: &mut Vec<u8>, tx: Tx, reads: &[SiteValue]) -> Result<(), AllocError>
    ensures { OnOk result (out.new.items ≡ out.old.items ++ text_of_lines (map (operation_line (codes "r") tx) reads.now)) }
{
    for read in reads {
        push_read(out, tx, read)?;
    }
    Ok(())
}

fn push_changes(out: &mut Vec<u8>, tx: Tx, writes: &[SiteChange]) -> Result<(), AllocError>
    ensures { OnOk result
        (out.new.items ≡ out.old.items ++ text_of_lines (map (change_line tx) writes.now)) }
{
    for write in writes {
        push_change(out, tx, write)?;
    }
    Ok(())
}

fn push_run(out: &mut Vec<u8>, run: &SerialTx) -> Result<(), AllocError>
    ensures { OnOk result (out.new.items ≡ out.old.items ++ text_of_lines (run_lines run.now)) }
{
    push_head(out, run.tx)?;
    push_reads(out, run.tx, run.reads.as_slice())?;
    push_changes(out, run.tx, run.writes.as_slice())
}

fn push_finals(out: &mut Vec<u8>, values: &[SiteValue]) -> Result<(), AllocError>
    ensures { OnOk result
        (out.new.items ≡ out.old.items ++ text_of_lines (map final_line values.now)) }
{
    for value in values {
        push_final(out, value)?;
    }
    Ok(())
}

impl SerialReport {
    /// The text of the run: of each transaction a line of its number, its reads, and its writes and increments; then
    /// the final values. Err: memory ran out.
    pub fn to_text(&self, alloc: Global) -> Result<Vec<u8>, AllocError>
        ensures { IfOk result (λ text. text.items ≡ report_text self.now) }
    {
        let mut out = Vec::new(alloc);
        for run in self.runs.as_slice() {
            push_run(&mut out, run)?;
        }
        push_finals(&mut out, self.finals.as_slice())?;
        Ok(out)
    }
}
