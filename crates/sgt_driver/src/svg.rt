//! A check whose cycle is drawn.

ghost use Rattle.std.specs.Prelude.{IfOk};
ghost use Rattle.sgt_driver.specs.Status.{IsStatus};

use crate::host::{Host, over, write_file, writer};
use crate::streams::Streams;
use sgt_history_picture::picture_of;
use sgt_line::Line;
use sgt_names::{EngineFail, Failed, Nowhere, Sink};
use sgt_status::behind;
use std::alloc::Global;
use std::sync::Wait;
use std::thread::Threads;

// How a no begins.
const NO: &[u8] = b"no ";

/// A writer that keeps a copy of a no.
#[derive(Drop)]
pub struct Copied<'a, W> {
    inner: &'a mut W,
    copy: Vec<u8>,
    /// Whether a growth of the copy was refused.
    is_cut: bool,
}

impl<'a, W: Sink> Copied<'a, W> {
    // The writer, which was given nothing.
    fn new(alloc: Global, inner: &'a mut W) -> Copied<'a, W> {
        Copied {
            inner,
            copy: Vec::new(alloc),
            is_cut: false,
        }
    }
}

impl<W: Sink> Sink for Copied<'_, W> {
    ghost use Rattle.std.specs.Prelude.{None};

    ghost holds = { λ s. None };

    ghost failures = { λ s. W.failures s.inner.now };

    fn write(&mut self, bytes: &[u8]) -> Result<usize, Failed> {
        let taken = self.inner.write(bytes)?;
        let new = bytes.get(..taken).unwrap_or(&[]);
        let is_no = self.copy.len() < NO.len() || self.copy.starts_with(NO);
        if is_no && !self.is_cut {
            self.is_cut = self.copy.extend_from_slice(new).is_err();
        }
        Ok(taken)
    }
}

/// Judges the history, and draws the cycle that the answer tells, if it tells one, in the file of this name.
pub(crate) fn drawn<S: Streams, H: Threads + Wait + Sync, W: Sink>(
    host: &Host<'_, S, H>,
    line: &Line,
    names: (&str, &str),
    writer: &mut W,
) -> Result<u8, EngineFail>
    ensures { IfOk result IsStatus }
{
    let (name, place) = names;
    let mut copied = Copied::new(host.rt.alloc(), writer);
    let status = over(host, line.words.as_slice(), name, &mut copied);
    if status != 1 {
        return Ok(status);
    }
    if copied.is_cut {
        return Err(EngineFail::Memory);
    }
    match picture_of(host.rt.alloc(), copied.copy.as_slice())? {
        Some(picture) => {
            let failed = write_file(host, place, picture.as_slice());
            Ok(behind(status, failed))
        }
        None => Ok(status),
    }
}

/// Judges the history of this name, and draws the cycle of a no in the file of the other, behind the answer.
pub(crate) fn check_drawn<S: Streams, H: Threads + Wait + Sync>(
    host: &Host<'_, S, H>,
    line: &Line,
    name: &str,
    place: &str,
) -> Result<u8, EngineFail>
    ensures { IfOk result IsStatus }
{
    let names = (name, place);
    if line.is_quiet {
        return drawn(host, line, names, &mut Nowhere);
    }
    let mut output = writer(host);
    drawn(host, line, names, &mut output)
}
