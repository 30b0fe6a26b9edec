//! Whether the program answers a row as the row says.

use crate::answer::{Answer, answer_to};
use crate::row::{Row, words_of};
use crate::streams::Kept;
use sgt_driver::drive;
use std::alloc::{AllocError, Global};
use std::io;
use std::sync::Wait;
use std::thread::Threads;

/// Whether the bundle behind `---`, if there is one, audits as yes, and as the output says where it says so. (Behind
/// that of a check there is an order, which the row's output has.)
fn has_a_valid_bundle<H: Threads + Wait + Sync>(
    rt: &HostRuntime,
    threads: &H,
    output: &str,
) -> io::Result<bool> {
    let Some((front, bundle)) = output.split_once("---\n") else {
        return Ok(true);
    };
    if !bundle.starts_with("sgt ") {
        return Ok(true);
    }
    let words = words_of(rt.alloc(), "audit")?;
    let streams = Kept::new(rt.alloc(), Some(bundle), 65_536);
    let status = drive(rt, &&streams, threads, Ok(words));
    let (verdict, _) = streams.into_texts();
    let told = front.contains("\nyes ") || front.starts_with("yes ");
    Ok(status == 0 && (!told || front.as_bytes().ends_with(verdict.as_slice())))
}

/// How many of the scripts were committed, where each line of a script, the verdict and the last value of x agree on
/// that.
fn agreed_count(alloc: Global, output: &str, scripts: usize) -> Result<Option<usize>, AllocError> {
    let mut committed = 0usize;
    for line in output.lines().take(scripts) {
        if line.starts_with('s') && line.contains(" committed ") {
            committed = committed.saturating_add(1);
        }
    }
    let verdict = format!(in alloc; "\nyes {committed} committed ")?;
    let last = format!(in alloc; "\nfinal x={committed}\nend\n")?;
    if output.contains(verdict.as_str()) && output.ends_with(last.as_str()) {
        return Ok(Some(committed));
    }
    Ok(None)
}

/// Whether the output and the status are those of scripts that add 1 to x, one a line behind the line of the site.
fn counts_sums(alloc: Global, row: &Row, output: &str, status: u8) -> Result<bool, AllocError> {
    let scripts = match &row.given.input {
        Some(text) => text.lines().count().saturating_sub(1),
        None => 0,
    };
    let Some(count) = agreed_count(alloc, output, scripts)? else {
        return Ok(false);
    };
    Ok(status == if count == scripts { 0 } else { 1 })
}

/// Whether the output has each of the lines that it must have.
fn has_lines(output: &str, must: &str) -> bool {
    for line in must.lines() {
        if !output.lines().any(|told| told == line) {
            return false;
        }
    }
    true
}

/// Whether this is the row's output and status.
fn is_answer(alloc: Global, row: &Row, output: &str, status: u8) -> Result<bool, AllocError> {
    match &row.wanted.output {
        Some(wanted) => Ok(status == row.wanted.status && output == wanted.as_str()),
        None => counts_sums(alloc, row, output, status),
    }
}

/// Whether the error stream was told what the row says; where the row says nothing of it, something exactly where the
/// words are no command.
fn has_errors(answer: &Answer, row: &Row) -> bool {
    match &row.wanted.errors {
        Some(wanted) => answer.errors.as_slice() == wanted.as_bytes(),
        None => answer.errors.is_empty() != (answer.status == 2 && answer.output.is_empty()),
    }
}

/// Whether the program, which is given so many bytes of standard input at once, answers as the row says.
fn answers<H: Threads + Wait + Sync>(
    rt: &HostRuntime,
    threads: &H,
    row: &Row,
    per_read: usize,
) -> io::Result<bool> {
    let answer = answer_to(rt, threads, row, per_read)?;
    if !answer.is_written {
        return Ok(false);
    }
    let Ok(output) = str::from_utf8(answer.output.as_slice()) else {
        return Ok(false);
    };
    if !has_errors(&answer, row) || !has_lines(output, row.wanted.must.as_str()) {
        return Ok(false);
    }
    Ok(
        is_answer(rt.alloc(), row, output, answer.status)?
            && has_a_valid_bundle(rt, threads, output)?,
    )
}

/// Whether the program answers as the row says, whatever pieces it reads.
pub(crate) fn holds<H: Threads + Wait + Sync>(
    rt: &HostRuntime,
    threads: &H,
    row: &Row,
) -> io::Result<bool> {
    for per_read in [1usize, 3, 65_536] {
        if !answers(rt, threads, row, per_read)? {
            return Ok(false);
        }
    }
    Ok(true)
}
