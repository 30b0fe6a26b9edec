//! An audit of one system's bundles in a row.

ghost use Rattle.std.specs.Prelude.{IfSome};
ghost use Rattle.sgt_driver.specs.Status.{IsStatus};

use crate::devices::LastWords;
use crate::expected::expected_status;
use crate::host::{Host, ended, open, writer};
use crate::streams::Streams;
use crate::unreadable::Fronted;
use crate::why::tell_why;
use sgt_audit_chain::ChainAuditor;
use sgt_line::Line;
use sgt_names::{EngineFail, FromRead, Nowhere, Sink, ToWrite};
use sgt_program::{audit_next, end_chain, give_up};
use sgt_status::LineName;

// The status of the file as the next bundle, if the chain ends with it.
fn next<S: Streams, H, W: Sink>(
    host: &Host<'_, S, H>,
    auditor: &mut ChainAuditor,
    name: &str,
    writer: &mut W,
) -> Option<u8>
    ensures { IfSome result IsStatus }
{
    let mut steady = match open(host, name) {
        Ok(steady) => steady,
        Err(status) => return Some(status),
    };
    let mut errors = ToWrite::new(LastWords::new(host.streams.errors(), host.hush));
    let Ok(title) = format!(in host.rt.alloc(); "{}", LineName { name }) else {
        return Some(give_up(&mut errors, EngineFail::Memory));
    };
    let mut fronted = Fronted::new(writer);
    let status = {
        let mut reader = FromRead::new(&mut steady);
        audit_next(
            auditor,
            host.rt.alloc(),
            title.as_str(),
            &mut reader,
            &mut fronted,
            &mut errors,
        )?
    };
    tell_why(host, &steady, name, fronted.front(), status);
    Some(ended(host, &steady, name, status))
}

/// The status of the files, up to the first that doesn't go on, and the name of the last that was read.
pub(crate) fn audit_files<'f, S: Streams, H, W: Sink>(
    host: &Host<'_, S, H>,
    files: &'f [String],
    writer: &mut W,
) -> (u8, &'f str)
    ensures { IsStatus result.0 }
{
    let mut last = "-";
    let mut auditor = ChainAuditor::new(host.rt.alloc());
    for name in files {
        last = name.as_str();
        if let Some(status) = next(host, &mut auditor, last, writer) {
            return (status, last);
        }
    }
    let mut errors = ToWrite::new(LastWords::new(host.streams.errors(), host.hush));
    let mut fronted = Fronted::new(writer);
    let status = end_chain(&auditor, host.rt.alloc(), &mut fronted, &mut errors);
    (expected_status(host, last, fronted.front(), status), last)
}

/// Audits the files as a chain; quietly by the status alone.
pub(crate) fn audit_chain<S: Streams, H>(host: &Host<'_, S, H>, line: &Line) -> u8
    ensures { IsStatus result }
{
    let files = line.files.as_slice();
    if line.is_quiet {
        return audit_files(host, files, &mut Nowhere).0;
    }
    let mut output = writer(host);
    audit_files(host, files, &mut output).0
}
