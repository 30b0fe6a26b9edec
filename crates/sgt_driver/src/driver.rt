//! The program over files, standard streams and threads.

ghost use Rattle.std.specs.Prelude.{IfErr, IfOk, IfSome};
ghost use Rattle.sgt_driver.specs.Status.{IsStatus};

use crate::against::judge_order;
use crate::chain::audit_chain;
use crate::devices::{Hush, LastWords};
use crate::expected::expected_of;
use crate::folder::is_growth;
use crate::host::{Host, file_of, over, refuse_file, writer};
use crate::object::{answer_objects, asks_object};
use crate::ordinary::{audit_each, judge, run_held};
use crate::page::{answer_page, asks_page};
use crate::same::{Unknown, written_over};
use crate::streams::Streams;
use crate::svg::check_drawn;
use crate::talk::serve_events;
use crate::unreadable::asked_by;
use sgt_command_line::{Choice, NoChoice, Way, awaited, choose, wanted_by, way_of};
use sgt_line::{CommandName, Line, named};
use sgt_names::{EngineFail, ToWrite};
use sgt_program::{give_up, refuse_words};
use sgt_status::LineName;
use std::alloc::AllocError;
use std::sync::Wait;
use std::thread::Threads;
use std::{fs, io};

/// Why the words of the command line can't be had.
#[derive(Clone, Copy, Debug, PartialEq, Eq)]
pub enum NoWords {
    /// A growth was refused.
    Memory,
    /// One of them is no UTF-8.
    NotText,
}

// The word that stands in a command's place and is none: it may name a file.
fn file_word(given: &[String]) -> Option<&str> {
    let word = given.get(1)?.as_str();
    let is_command = named(word).is_some() || word == "help";
    if is_command || word.starts_with('-') {
        return None;
    }
    Some(word)
}

// Whether a file of this name is there. What no file can be called is none's name.
fn is_there(rt: &HostRuntime, name: &str) -> io::Result<bool> {
    match fs::exists(rt, name) {
        Ok(is_there) => Ok(is_there),
        Err(why) => match why.kind() {
            io::ErrorKind::InvalidFilename | io::ErrorKind::NotADirectory => Ok(false),
            _ => Err(why),
        },
    }
}

// Whether a file is named in a command's place; the status, where the system doesn't say whether it is there.
fn names_file<S: Streams>(
    rt: &HostRuntime,
    streams: &S,
    hush: &Hush,
    given: &[String],
) -> Result<bool, u8>
    ensures { IfErr result IsStatus }
{
    let Some(word) = file_word(given) else {
        return Ok(false);
    };
    match is_there(rt, word) {
        Ok(is_there) => Ok(is_there),
        Err(why) if is_growth(&why) => Err(refuse(streams, hush, NoWords::Memory)),
        Err(why) => Err(refuse_file(streams, word, &why)),
    }
}

// The command line of these words; a file in a command's place is audited.
fn line_with(rt: &HostRuntime, given: Vec<String>, names_file: bool) -> Result<Line, AllocError> {
    let mut given = given;
    if given.len() > 1 && names_file {
        given.insert(1, String::from_str(rt.alloc(), "audit")?)?;
    }
    Line::of(rt.alloc(), given.as_slice())?.settled(rt.alloc())
}

// The status where words or memory are wanting.
fn refuse<S: Streams>(streams: &S, hush: &Hush, why: NoWords) -> u8
    ensures { IsStatus result }
{
    let mut errors = ToWrite::new(LastWords::new(streams.errors(), hush));
    match why {
        NoWords::Memory => give_up(&mut errors, EngineFail::Memory),
        NoWords::NotText => refuse_words(&mut errors),
    }
}

// Whether lines are told as they are read also where nobody asks for it, on a terminal.
fn tells_terminal(choice: &Result<Choice, NoChoice>) -> bool {
    match choice {
        Ok(Choice::Audit | Choice::AuditWith { .. } | Choice::Serial) => true,
        Ok(Choice::Replay | Choice::Check(_) | Choice::Certify) => true,
        _ => false,
    }
}

// The command that the words name.
fn command_of(line: &Line) -> CommandName {
    match line.words.get(1) {
        Some(word) => named(word.as_str()).unwrap_or(CommandName::Audit),
        None => CommandName::Audit,
    }
}

// Answers as the line says.
fn answer<S: Streams, H: Threads + Wait + Sync>(
    host: &Host<'_, S, H>,
    line: &Line,
    choice: &Result<Choice, NoChoice>,
) -> Result<u8, EngineFail>
    ensures { IfOk result IsStatus }
{
    if asks_object(line, choice) {
        return answer_objects(host, line, choice);
    }
    if asks_page(line, choice) {
        return answer_page(host, line, choice);
    }
    let name = file_of(line.files.first());
    match way_of(line, choice) {
        Way::Talk => Ok(serve_events(host, line, name)),
        Way::Against => {
            let order = file_of(line.against.as_ref());
            Ok(judge_order(host, line, wanted_by(choice), order, name))
        }
        Way::Drawn => check_drawn(host, line, name, file_of(line.place.as_ref())),
        Way::Chain => Ok(audit_chain(host, line)),
        Way::Each => audit_each(host, line),
        Way::Held => run_held(host, line, name),
        Way::Quiet => judge(host, line, name),
        Way::Plain => {
            let mut output = writer(host);
            Ok(over(host, line.words.as_slice(), name, &mut output))
        }
    }
}

// The status, where a file would be written over or the system doesn't say whether one would.
fn writes_over<S: Streams>(rt: &HostRuntime, streams: &S, hush: &Hush, line: &Line) -> Option<u8>
    ensures { IfSome result IsStatus }
{
    match written_over(rt, line) {
        Ok(None) => None,
        Ok(Some(name)) => {
            let name = LineName { name };
            let _ = eprintln!(streams;
                "sgt: {name} is to be written, and is read or written already"
            );
            Some(2)
        }
        Err(Unknown::Memory) => Some(refuse(streams, hush, NoWords::Memory)),
        Err(Unknown::Refused(name, why)) => Some(refuse_file(streams, name, &why)),
    }
}

// The status of what ended so. What was refused for want of memory is told as such, whatever was told before.
fn give_up_on<S: Streams>(streams: &S, hush: &Hush, fail: EngineFail) -> u8
    ensures { IsStatus result }
{
    if let EngineFail::Memory = fail {
        hush.lift();
    }
    give_up(
        &mut ToWrite::new(LastWords::new(streams.errors(), hush)),
        fail,
    )
}

// The status of what the line asks for.
fn run<S: Streams, H: Threads + Wait + Sync>(
    rt: &HostRuntime,
    streams: &S,
    threads: &H,
    hush: &Hush,
    line: &Line,
) -> u8
    ensures { IsStatus result }
{
    if let Some(status) = writes_over(rt, streams, hush, line) {
        return status;
    }
    let expected = match expected_of(streams, line) {
        Ok(expected) => expected,
        Err(status) => return status,
    };
    let choice = choose(rt.alloc(), line.words.as_slice());
    // The words are read once more where they are run: what is read then has to be what they name.
    if let Err(NoChoice::Memory) = &choice {
        return refuse(streams, hush, NoWords::Memory);
    }
    let is_shown = !line.is_quiet && streams.is_shown();
    let host = Host {
        rt,
        streams,
        threads,
        awaits: awaited(line, &choice),
        asked: asked_by(&choice),
        tells_lines: line.tells_lines || (is_shown && tells_terminal(&choice)),
        tells_why: line.tells_why || is_shown,
        command: command_of(line),
        hush,
        output: line.output.as_ref(),
        expected,
    };
    match answer(&host, line, &choice) {
        Ok(status) => status,
        Err(fail) => give_up_on(streams, hush, fail),
    }
}

/// Does what the words ask for, the program's name first among them, and gives the exit status: files are read and
/// written by their names, and the rest goes by the streams. It errs by a status and a line on standard error alone.
pub fn drive<S: Streams, H: Threads + Wait + Sync>(
    rt: &HostRuntime,
    streams: &S,
    threads: &H,
    given: Result<Vec<String>, NoWords>,
) -> u8
    ensures { IsStatus result }
{
    let hush = Hush::new();
    let words = match given {
        Ok(words) => words,
        Err(why) => return refuse(streams, &hush, why),
    };
    let names_file = match names_file(rt, streams, &hush, words.as_slice()) {
        Ok(names_file) => names_file,
        Err(status) => return status,
    };
    match line_with(rt, words, names_file) {
        Ok(line) => run(rt, streams, threads, &hush, &line),
        Err(_) => refuse(streams, &hush, NoWords::Memory),
    }
}
