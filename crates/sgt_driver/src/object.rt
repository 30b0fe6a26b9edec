//! Answers as objects of JSON.

ghost use Rattle.std.specs.Prelude.{◌≡◌, IfOk};
ghost use Rattle.sgt_driver.specs.Status.{IsStatus};

use crate::against::judged;
use crate::chain::audit_files;
use crate::devices::Hush;
use crate::host::{Host, file_of, over, word_of, writer};
use crate::output::Output;
use crate::streams::Streams;
use crate::svg::drawn;
use sgt_command_line::{Choice, NoChoice, Way, wanted_by, way_of};
use sgt_json::{Asked, Tally, object_of};
use sgt_line::{CommandName, Line};
use sgt_names::{EngineFail, Failed, Sink, ToWrite, write_all};
use sgt_status::{LineName, greater};
use std::alloc::{AllocError, Global};
use std::sync::Wait;
use std::thread::Threads;

// How a bundle begins, and no other answer.
const BUNDLE: &[u8] = b"sgt ";

/// An answer that is kept; of a bundle its decisions are counted, and it goes to the file that is named for it.
#[derive(Drop)]
pub struct Answer<'a, S> {
    kept: Vec<u8>,
    tally: Tally,
    is_bundle: bool,
    file: Option<ToWrite<Output<'a, S>>>,
    // Whether the file took it.
    is_written: bool,
    hush: &'a Hush,
    refused: u64,
}

// Whether the file, if there is one, took these bytes.
fn is_written<S: Streams>(file: &mut Option<ToWrite<Output<'_, S>>>, bytes: &[u8]) -> bool {
    match file {
        Some(file) => write_all(file, bytes).is_ok(),
        None => true,
    }
}

impl<'a, S: Streams> Answer<'a, S> {
    // Nothing yet.
    fn new<H>(host: &Host<'a, S, H>) -> Answer<'a, S> {
        let file = match host.output {
            Some(_) if host.command == CommandName::Certify => Some(writer(host)),
            _ => None,
        };
        Answer {
            kept: Vec::new(host.rt.alloc()),
            tally: Tally::new(),
            is_bundle: false,
            file,
            is_written: true,
            hush: host.hush,
            refused: 0,
        }
    }

    // Some bytes of a bundle; whether the file took them.
    fn pass(&mut self, bytes: &[u8]) -> bool
        ensures { self.new.refused ≡ self.old.refused }
    {
        self.tally.pass(bytes);
        self.is_written = is_written(&mut self.file, bytes);
        self.is_written
    }

    // Some bytes more; whether they were taken. Where memory is wanting no words on a device that failed are wanted.
    fn take(&mut self, bytes: &[u8]) -> bool
        ensures { self.new.refused ≡ self.old.refused }
    {
        if self.kept.is_empty() && (self.is_bundle || bytes.starts_with(BUNDLE)) {
            self.is_bundle = true;
            return self.pass(bytes);
        }
        let is_kept = self.kept.extend_from_slice(bytes).is_ok();
        if !is_kept {
            self.hush.set();
        }
        is_kept
    }

    // The answer; of a bundle the line that an audit says of it.
    fn into_text(self, alloc: Global) -> Result<Vec<u8>, AllocError> {
        if !self.is_bundle {
            return Ok(self.kept);
        }
        let tally = self.tally;
        let line = format!(in alloc;
            "yes {} committed {} refused {} withdrawn\n",
            tally.committed, tally.refused, tally.withdrawn
        )?;
        Ok(line.into_bytes())
    }
}

impl<S: Streams> Sink for Answer<'_, S> {
    ghost use Rattle.std.specs.Prelude.{None};

    ghost holds = { λ s. None };

    ghost failures = { λ s. s.refused };

    fn write(&mut self, bytes: &[u8]) -> Result<usize, Failed> {
        let is_taken = self.take(bytes);
        if is_taken {
            return Ok(bytes.len());
        }
        if self.refused == u64::MAX {
            return Ok(bytes.len());
        }
        self.refused += 1;
        Err(Failed)
    }
}

// Writes the answer on the file of this name as an object, where there is an answer.
fn tell<S: Streams, H, W: Sink>(
    host: &Host<'_, S, H>,
    line: &Line,
    name: &str,
    answer: Vec<u8>,
    output: &mut W,
) -> Result<(), EngineFail> {
    if answer.is_empty() {
        return Ok(());
    }
    let asked = Asked {
        command: word_of(line),
        file: name,
    };
    let text = object_of(host.rt.alloc(), asked, answer.as_slice())?;
    match write_all(output, text.as_slice()) {
        Ok(()) => Ok(()),
        Err(_) => Err(EngineFail::WriteFault),
    }
}

// The answer's text, where it could be kept whole.
fn whole<S: Streams>(alloc: Global, answer: Answer<'_, S>) -> Result<Vec<u8>, EngineFail> {
    if answer.refused > 0 && answer.is_written {
        return Err(EngineFail::Memory);
    }
    if !answer.is_written {
        return Ok(Vec::new(alloc));
    }
    Ok(answer.into_text(alloc)?)
}

/// The status of a file, on which the answer is written.
pub(crate) fn answer_into<S: Streams, H: Threads + Wait + Sync, W: Sink>(
    host: &Host<'_, S, H>,
    line: &Line,
    choice: &Result<Choice, NoChoice>,
    name: &str,
    output: &mut W,
) -> Result<u8, EngineFail>
    ensures { IfOk result IsStatus }
{
    match way_of(line, choice) {
        Way::Against => {
            let order = file_of(line.against.as_ref());
            Ok(judged(host, wanted_by(choice), order, name, output))
        }
        Way::Drawn => {
            let names = (name, file_of(line.place.as_ref()));
            drawn(host, line, names, output)
        }
        _ => Ok(over(host, line.words.as_slice(), name, output)),
    }
}

// The status of a file, whose object is written.
fn answered<S: Streams, H: Threads + Wait + Sync, W: Sink>(
    host: &Host<'_, S, H>,
    line: &Line,
    choice: &Result<Choice, NoChoice>,
    name: &str,
    output: &mut W,
) -> Result<u8, EngineFail>
    ensures { IfOk result IsStatus }
{
    let mut answer = Answer::new(host);
    let status = answer_into(host, line, choice, name, &mut answer)?;
    let text = whole(host.rt.alloc(), answer)?;
    tell(host, line, name, text, output)?;
    Ok(status)
}

// The answer on a chain, without the name of the file that is named behind `no`.
fn unnamed(alloc: Global, answer: Vec<u8>, name: &str) -> Result<Vec<u8>, AllocError> {
    let head = format!(in alloc; "no {}", LineName { name })?;
    let Some(behind) = answer.as_slice().strip_prefix(head.as_bytes()) else {
        return Ok(answer);
    };
    let mut text = Vec::from_slice(alloc, b"no")?;
    text.extend_from_slice(behind)?;
    Ok(text)
}

// The status of a chain, whose object is written.
fn chained<S: Streams, H, W: Sink>(
    host: &Host<'_, S, H>,
    line: &Line,
    output: &mut W,
) -> Result<u8, EngineFail>
    ensures { IfOk result IsStatus }
{
    let alloc = host.rt.alloc();
    let mut answer = Answer::new(host);
    let (status, name) = audit_files(host, line.files.as_slice(), &mut answer);
    let text = unnamed(alloc, whole(alloc, answer)?, name)?;
    tell(host, line, name, text, output)?;
    Ok(status)
}

// The greatest status of the files, whose objects are written.
fn answered_each<S: Streams, H: Threads + Wait + Sync, W: Sink>(
    host: &Host<'_, S, H>,
    line: &Line,
    choice: &Result<Choice, NoChoice>,
    output: &mut W,
) -> Result<u8, EngineFail>
    ensures { IfOk result IsStatus }
{
    let mut status = 0;
    for name in &line.files {
        let found = answered(host, line, choice, name.as_str(), output)?;
        status = greater(status, found);
    }
    Ok(status)
}

/// Whether the answer is to be written as an object.
pub(crate) fn asks_object(line: &Line, choice: &Result<Choice, NoChoice>) -> bool {
    match choice {
        Ok(Choice::Audit | Choice::AuditWith { .. } | Choice::Certify) => line.is_json,
        Ok(Choice::Explain(_) | Choice::Check(_)) => line.is_json,
        _ => false,
    }
}

/// Answers with an object for each file. A certified bundle goes to the file that is named for it, and its object to
/// standard output.
pub(crate) fn answer_objects<S: Streams, H: Threads + Wait + Sync>(
    host: &Host<'_, S, H>,
    line: &Line,
    choice: &Result<Choice, NoChoice>,
) -> Result<u8, EngineFail>
    ensures { IfOk result IsStatus }
{
    let mut output = match host.command {
        CommandName::Certify => ToWrite::new(Output::new(host, None)),
        _ => writer(host),
    };
    match way_of(line, choice) {
        Way::Each => answered_each(host, line, choice, &mut output),
        Way::Chain => chained(host, line, &mut output),
        _ => answered(host, line, choice, file_of(line.files.first()), &mut output),
    }
}
