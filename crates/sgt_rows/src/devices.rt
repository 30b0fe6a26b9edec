//! Devices that fail, at each of their calls in turn, and words that are no command, for which no device is read.

use crate::row::{Row, words_of};
use sgt_names::{EngineFail, MemSink, MemSource};
use sgt_program::{give_up, program, refuse_words};
use std::alloc::{AllocError, Global};
use std::sync::Wait;
use std::thread::Threads;

/// The words' status, if nothing is written and the error stream, which takes so many bytes, is told something as far
/// as it can be. The first read would fail.
fn status_of<H: Threads + Wait + Sync>(
    rt: &H,
    alloc: Global,
    line: &str,
    takes: usize,
) -> Result<Option<u8>, AllocError> {
    let words = words_of(alloc, line)?;
    let mut input = MemSource::new(b"sgt 1\n", 9, Some(1));
    let mut output = MemSink::new(alloc, 2000)?;
    let mut errors = MemSink::new(alloc, takes)?;
    let status = program(
        rt,
        alloc,
        words.as_slice(),
        &mut input,
        &mut output,
        &mut errors,
    );
    let told = output.bytes().is_empty() && errors.bytes().is_empty() == (takes == 0);
    Ok(if told { Some(status) } else { None })
}

/// Whether the words are no command, also where the error stream takes nothing.
pub(crate) fn are_no_command<H: Threads + Wait + Sync>(
    rt: &H,
    alloc: Global,
    line: &str,
) -> Result<bool, AllocError> {
    for takes in [2000usize, 0] {
        if status_of(rt, alloc, line, takes)? != Some(2) {
            return Ok(false);
        }
    }
    Ok(true)
}

/// Whether the program says that a device failed, having written a front of the row's output: nothing where a read
/// failed, and else all that the writer takes.
fn gives_up<H: Threads + Wait + Sync>(
    rt: &H,
    alloc: Global,
    row: &Row,
    fail_at: Option<u64>,
    takes: usize,
) -> Result<bool, AllocError> {
    let (text, wanted) = match (&row.given.input, &row.wanted.output) {
        (Some(text), Some(wanted)) => (text.as_str(), wanted.as_str()),
        (None, Some(wanted)) => ("", wanted.as_str()),
        _ => return Ok(false),
    };
    let mut input = MemSource::new(text.as_bytes(), 1, fail_at);
    let mut output = MemSink::new(alloc, takes)?;
    let mut errors = MemSink::new(alloc, 100)?;
    let words = row.given.words.as_slice();
    let status = program(rt, alloc, words, &mut input, &mut output, &mut errors);
    let (told, length) = match fail_at {
        Some(_) => ("sgt: read fault\n", 0),
        None => ("sgt: write fault\n", takes),
    };
    let front = wanted.as_bytes().starts_with(output.bytes()) && output.bytes().len() == length;
    Ok(status == 4 && front && errors.bytes() == told.as_bytes())
}

/// Whether the program gives up at each read that fails, with the read that would tell the end, and at each byte that
/// the writer doesn't take.
pub(crate) fn devices_tell<H: Threads + Wait + Sync>(
    rt: &H,
    alloc: Global,
    row: &Row,
) -> Result<bool, AllocError> {
    let reads = match &row.given.input {
        Some(text) => (text.len() as u64).saturating_add(1),
        None => 0,
    };
    for at in 1..=reads {
        if !gives_up(rt, alloc, row, Some(at), 10_000)? {
            return Ok(false);
        }
    }
    let length = match &row.wanted.output {
        Some(text) => text.len(),
        None => 0,
    };
    for takes in 0..length {
        if !gives_up(rt, alloc, row, None, takes)? {
            return Ok(false);
        }
    }
    Ok(true)
}

/// Whether an error stream that takes so many bytes is told the words' and memory's faults, as far as it takes them.
pub(crate) fn faults_are_told(alloc: Global, takes: usize) -> Result<bool, AllocError> {
    let mut errors = MemSink::new(alloc, takes)?;
    let statuses = (
        refuse_words(&mut errors),
        give_up(&mut errors, EngineFail::Memory),
    );
    let told = "sgt: the arguments are not UTF-8\nsgt: memory\n";
    Ok(statuses == (2, 3) && told.as_bytes().starts_with(errors.bytes()))
}
