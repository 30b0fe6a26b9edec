//! Several files, a bundle that goes to a file, a strict replay, and a status alone.

ghost use Rattle.std.specs.Prelude.{IfOk, IfSome};
ghost use Rattle.sgt_driver.specs.Status.{IsStatus};

use crate::devices::Held;
use crate::host::{Host, over, write_file, writer};
use crate::streams::Streams;
use crate::why::tell_refusal;
use sgt_line::{Line, cut, shown, strict_status};
use sgt_names::{EngineFail, MemSink, Nowhere, write_all};
use sgt_status::{LineName, greater};
use std::sync::Wait;
use std::thread::Threads;

// How much of a verdict's line is kept where it isn't written at once.
const LINE: usize = 200;

/// A line for each file, its name in front; quietly for each that fails. The status is the greatest.
pub(crate) fn audit_each<S: Streams, H: Threads + Wait + Sync>(
    host: &Host<'_, S, H>,
    line: &Line,
) -> Result<u8, EngineFail>
    ensures { IfOk result IsStatus }
{
    let rt = host.rt;
    let mut status = 0;
    let mut output = writer(host);
    for name in &line.files {
        let mut verdict = MemSink::new(rt.alloc(), LINE)?;
        let found = over(host, line.words.as_slice(), name.as_str(), &mut verdict);
        status = greater(status, found);
        if found == 1 || (found == 0 && !line.is_quiet) {
            let title = LineName {
                name: name.as_str(),
            };
            let head = format!(in rt.alloc(); "{title}: ")?;
            for text in [head.as_bytes(), verdict.bytes()] {
                if write_all(&mut output, text).is_err() {
                    return Err(EngineFail::WriteFault);
                }
            }
        }
    }
    Ok(status)
}

// The bundle goes to its file, and what is in front of it to standard output.
fn deliver<S: Streams, H>(
    host: &Host<'_, S, H>,
    line: &Line,
    text: &[u8],
) -> Result<Option<u8>, EngineFail>
    ensures { IfOk result (λ r. IfSome r IsStatus) }
{
    let mut output = writer(host);
    let (front, bundle) = shown(line, text);
    if write_all(&mut output, front).is_err() {
        return Err(EngineFail::WriteFault);
    }
    match (&line.place, bundle) {
        (Some(name), Some(bundle)) => Ok(write_file(host, name.as_str(), bundle)),
        _ => Ok(None),
    }
}

/// A replay or a run whose bundle has a file of its own, or a strict replay.
pub(crate) fn run_held<S: Streams, H: Threads + Wait + Sync>(
    host: &Host<'_, S, H>,
    line: &Line,
    name: &str,
) -> Result<u8, EngineFail>
    ensures { IfOk result IsStatus }
{
    let mut held = Held::new(host.rt.alloc(), host.hush);
    let status = over(host, line.words.as_slice(), name, &mut held);
    if held.refused > 0 {
        return Err(EngineFail::Memory);
    }
    if let Some(failed) = deliver(host, line, held.bytes())? {
        return Ok(failed);
    }
    if line.is_strict {
        let replies = cut(held.bytes()).0;
        let strict = strict_status(status, replies);
        if host.tells_why && strict != status {
            tell_refusal(host, replies);
        }
        return Ok(strict);
    }
    Ok(status)
}

/// Runs the program over a file for its status alone.
pub(crate) fn judge<S: Streams, H: Threads + Wait + Sync>(
    host: &Host<'_, S, H>,
    line: &Line,
    name: &str,
) -> Result<u8, EngineFail>
    ensures { IfOk result IsStatus }
{
    Ok(over(host, line.words.as_slice(), name, &mut Nowhere))
}
