//! The system, and what is read of it.

ghost use Rattle.std.specs.Prelude.{IfErr, IfSome};
ghost use Rattle.sgt_driver.specs.Status.{IsStatus};

use crate::devices::{Hush, Input, LastWords, Steady};
use crate::expected::expected_status;
use crate::output::Output;
use crate::progress::Progress;
use crate::streams::Streams;
use crate::unreadable::{Fronted, tell_unreadable};
use crate::why::tell_why;
use sgt_history_words::{Asked, Tail};
use sgt_line::{CommandName, Line};
use sgt_names::{FromRead, Sink, ToWrite};
use sgt_program::program;
use sgt_status::LineName;
use std::fs::File;
use std::io;
use std::io::{Read, Write};
use std::sync::Wait;
use std::thread::Threads;

/// The system: its files, its standard streams and its threads; what is awaited from a terminal, if something is read, and
/// what a history's transactions have to have, if one is; whether lines are told as they are read, and behind a no what
/// to type to learn more; whether last words are wanted; the file that is written in place of standard output; and how
/// many transactions are to be committed.
#[derive(Drop)]
pub struct Host<'a, S, H> {
    pub rt: &'a HostRuntime,
    pub streams: &'a S,
    pub threads: &'a H,
    pub awaits: Option<&'static str>,
    pub asked: Option<Asked>,
    pub tells_lines: bool,
    pub tells_why: bool,
    pub command: CommandName,
    pub hush: &'a Hush,
    pub output: Option<&'a String>,
    pub expected: Option<u64>,
}

/// The file of this name; with none, standard input.
pub(crate) fn file_of(name: Option<&String>) -> &str {
    match name {
        Some(name) => name.as_str(),
        None => "-",
    }
}

/// The word of the command.
pub(crate) fn word_of(line: &Line) -> &str {
    match line.words.get(1) {
        Some(word) => word.as_str(),
        None => "audit",
    }
}

/// The writer of the answer, which was given nothing.
pub(crate) fn writer<'a, S: Streams, H>(host: &Host<'a, S, H>) -> ToWrite<Output<'a, S>> {
    ToWrite::new(Output::new(host, host.output))
}

/// Says why a file could not be read or written, if it isn't that its reader went away, and gives the status.
pub(crate) fn refuse_file<S: Streams>(streams: &S, name: &str, why: &io::Error) -> u8
    ensures { IsStatus result }
{
    if why.kind() != io::ErrorKind::BrokenPipe {
        let _ = eprintln!(streams; "sgt: {}: {why}", LineName { name });
    }
    4
}

/// Writes the text to a file; the status, where it can't be written.
pub(crate) fn write_file<S: Streams, H>(
    host: &Host<'_, S, H>,
    name: &str,
    text: &[u8],
) -> Option<u8>
    ensures { IfSome result IsStatus }
{
    let written = match File::create(host.rt, name) {
        Ok(mut file) => file.write_all(text),
        Err(why) => Err(why),
    };
    match written {
        Ok(()) => None,
        Err(why) => Some(refuse_file(host.streams, name, &why)),
    }
}

// Standard input or a file, which is opened only where it will be read.
fn input_of<S: Streams, H>(host: &Host<'_, S, H>, name: &str) -> io::Result<Input<S::Input>> {
    let streams = host.streams;
    if let Some(text) = host.awaits {
        if name != "-" {
            return Ok(Input::File(File::open(host.rt, name)?));
        }
        if streams.is_typed() {
            let _ = eprintln!(streams;
                "sgt: waiting for {text} from the terminal, which Ctrl-D ends; sgt --help says more"
            );
        }
    }
    Ok(Input::Standard(streams.input()))
}

/// The reader of standard input or a file; the status, where it can't be opened.
pub(crate) fn open<'a, S: Streams, H>(
    host: &Host<'a, S, H>,
    name: &str,
) -> Result<Steady<'a, S, Input<S::Input>>, u8>
    ensures { IfErr result IsStatus }
{
    let input = match input_of(host, name) {
        Ok(input) => input,
        Err(why) => return Err(refuse_file(host.streams, name, &why)),
    };
    let progress = if host.tells_lines {
        Some(Progress::new(host.streams))
    } else {
        None
    };
    host.hush.lift();
    let tail = match host.asked {
        Some(_) => Some(Tail::new(host.rt.alloc())),
        None => None,
    };
    Ok(Steady::new(input, progress, tail, host.hush))
}

/// What is read, as a source.
pub(crate) fn source_of<'a, 'b, S: Streams, I: Read>(
    rt: &HostRuntime,
    steady: &'b mut Steady<'a, S, Input<I>>,
) -> FromRead<&'b mut Steady<'a, S, Input<I>>> {
    if steady.is_still(rt) {
        FromRead::still(steady)
    } else {
        FromRead::new(steady)
    }
}

/// The status of what ended with this one; why a read failed is told.
pub(crate) fn ended<S: Streams, H>(
    host: &Host<'_, S, H>,
    steady: &Steady<'_, S, Input<S::Input>>,
    name: &str,
    status: u8,
) -> u8
    ensures { IsStatus status → IsStatus result }
{
    match &steady.why {
        Some(why) => refuse_file(host.streams, steady.name(name), why),
        None => status,
    }
}

/// Runs the program over standard input or a file and a writer, and gives the status.
pub(crate) fn over<S: Streams, H: Threads + Wait + Sync, W: Sink>(
    host: &Host<'_, S, H>,
    words: &[String],
    name: &str,
    writer: &mut W,
) -> u8
    ensures { IsStatus result }
{
    let mut steady = match open(host, name) {
        Ok(steady) => steady,
        Err(status) => return status,
    };
    let mut errors = ToWrite::new(LastWords::new(host.streams.errors(), host.hush));
    let mut fronted = Fronted::new(writer);
    let status = {
        let mut reader = source_of(host.rt, &mut steady);
        program(
            host.threads,
            host.rt.alloc(),
            words,
            &mut reader,
            &mut fronted,
            &mut errors,
        )
    };
    tell_unreadable(host, &steady, fronted.front());
    tell_why(host, &steady, name, fronted.front(), status);
    let status = expected_status(host, steady.name(name), fronted.front(), status);
    ended(host, &steady, name, status)
}
