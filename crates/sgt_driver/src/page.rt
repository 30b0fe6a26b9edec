//! An answer as a page of HTML.

ghost use Rattle.std.specs.Prelude.{IfOk, IfErr};
ghost use Rattle.sgt_driver.specs.Status.{IsStatus};

use crate::devices::{Held, LastWords};
use crate::host::{Host, ended, file_of, open, source_of, word_of, writer};
use crate::object::answer_into;
use crate::streams::Streams;
use sgt_command_line::{Choice, NoChoice};
use sgt_explain::read_judged;
use sgt_explain_logs::{peek, read_logs};
use sgt_history_picture::picture_of;
use sgt_line::{CommandName, Line};
use sgt_names::{Asks, Bytes, EngineFail, Nowhere, Source, ToWrite, write_all};
use sgt_page::{Answered, page_of_answer, rule_in};
use sgt_program::program;
use std::alloc::{AllocError, Global};
use std::sync::Wait;
use std::thread::Threads;

// The status of want of memory.
const MEMORY: u8 = 3;

/// Whether the answer is to be written as a page.
pub(crate) fn asks_page(line: &Line, choice: &Result<Choice, NoChoice>) -> bool {
    match choice {
        Ok(Choice::Explain(_) | Choice::Check(_)) => line.is_page,
        _ => false,
    }
}

// As much of what a reader gives as an explanation is told of: nothing behind a fault has to be there.
fn read_explained<R: Source>(alloc: Global, reader: &mut R) -> Result<Vec<u8>, EngineFail> {
    let peeked = peek(alloc, reader)?;
    if peeked.are_logs {
        Ok(read_logs(alloc, reader, peeked.text)?.text)
    } else {
        Ok(read_judged(alloc, reader, peeked.text)?.text)
    }
}

// What is explained of what is read under this name; the status, where it can't be opened or a read failed.
fn explained<S: Streams, H>(
    host: &Host<'_, S, H>,
    name: &str,
) -> Result<Result<Vec<u8>, u8>, EngineFail>
    ensures { IfOk result (λ r. IfErr r IsStatus) }
{
    let mut steady = match open(host, name) {
        Ok(steady) => steady,
        Err(status) => return Ok(Err(status)),
    };
    let read = {
        let mut reader = source_of(host.rt, &mut steady);
        read_explained(host.rt.alloc(), &mut reader)
    };
    match read {
        Ok(text) => Ok(Ok(text)),
        Err(EngineFail::ReadFault) if steady.why.is_some() => {
            Ok(Err(ended(host, &steady, name, 4)))
        }
        Err(fail) => Err(fail),
    }
}

// What the program writes for these words over the text, and its status.
fn told<'a, S: Streams, H: Threads + Wait + Sync>(
    host: &Host<'a, S, H>,
    words: &[String],
    text: &[u8],
    is_quiet: bool,
) -> (u8, Held<'a>)
    ensures { IsStatus result.0 }
{
    let alloc = host.rt.alloc();
    let mut held = Held::new(alloc, host.hush);
    let mut reader = Bytes {
        rest: text,
        asks: Asks::none(),
        last: 0,
    };
    let status = if is_quiet {
        program(
            host.threads,
            alloc,
            words,
            &mut reader,
            &mut held,
            &mut Nowhere,
        )
    } else {
        let mut errors = ToWrite::new(LastWords::new(host.streams.errors(), host.hush));
        program(
            host.threads,
            alloc,
            words,
            &mut reader,
            &mut held,
            &mut errors,
        )
    };
    (status, held)
}

// The same for a part of the page, which is wanted whole: want of memory is the page's too.
fn told_part<'a, S: Streams, H: Threads + Wait + Sync>(
    host: &Host<'a, S, H>,
    words: &[String],
    text: &[u8],
) -> Result<(u8, Held<'a>), EngineFail> {
    let (status, held) = told(host, words, text, true);
    if status == MEMORY || held.refused > 0 {
        return Err(EngineFail::Memory);
    }
    Ok((status, held))
}

// The words of an explanation, for a picture of the same.
fn drawing(alloc: Global, words: &[String]) -> Result<Vec<String>, AllocError> {
    let mut given = Vec::new(alloc);
    for word in words {
        let same = match word.as_str() {
            "--all" => continue,
            _ if given.len() == 1 => "draw",
            same => same,
        };
        given.push(String::from_str(alloc, same)?)?;
    }
    Ok(given)
}

// The picture of the same text, where there is one.
fn picture<'a, S: Streams, H: Threads + Wait + Sync>(
    host: &Host<'a, S, H>,
    line: &Line,
    text: &[u8],
) -> Result<Held<'a>, EngineFail> {
    let alloc = host.rt.alloc();
    let words = drawing(alloc, line.words.as_slice())?;
    let (status, held) = told_part(host, words.as_slice(), text)?;
    if status <= 1 && held.bytes().starts_with(b"<svg ") {
        return Ok(held);
    }
    Ok(Held::new(alloc, host.hush))
}

// The words that ask what a rule is.
fn asking(alloc: Global, rule: &str) -> Result<Vec<String>, AllocError> {
    let mut words = Vec::new(alloc);
    for word in ["sgt", "explain", rule] {
        words.push(String::from_str(alloc, word)?)?;
    }
    Ok(words)
}

// What `sgt explain` says of a rule.
fn meaning<'a, S: Streams, H: Threads + Wait + Sync>(
    host: &Host<'a, S, H>,
    rule: Option<&str>,
) -> Result<Held<'a>, EngineFail> {
    let alloc = host.rt.alloc();
    let Some(rule) = rule else {
        return Ok(Held::new(alloc, host.hush));
    };
    let words = asking(alloc, rule)?;
    let (_, held) = told_part(host, words.as_slice(), &[])?;
    Ok(held)
}

// Writes the page of the answer that was held, with this picture.
fn write_page<S: Streams, H: Threads + Wait + Sync>(
    host: &Host<'_, S, H>,
    line: &Line,
    held: &Held<'_>,
    picture: &[u8],
) -> Result<(), EngineFail> {
    let command = word_of(line);
    let text = str::from_utf8(held.bytes()).unwrap_or("");
    let rule = meaning(host, rule_in(command, text))?;
    let made = page_of_answer(
        host.rt.alloc(),
        Answered {
            command,
            file: file_of(line.files.first()),
            text,
            rule: str::from_utf8(rule.bytes()).unwrap_or(""),
            picture,
        },
    )?;
    let mut output = writer(host);
    match write_all(&mut output, made.as_slice()) {
        Ok(()) => Ok(()),
        Err(_) => Err(EngineFail::WriteFault),
    }
}

// Writes the explanation of a file as a page.
fn explain_page<S: Streams, H: Threads + Wait + Sync>(
    host: &Host<'_, S, H>,
    line: &Line,
) -> Result<u8, EngineFail>
    ensures { IfOk result IsStatus }
{
    let text = match explained(host, file_of(line.files.first()))? {
        Ok(text) => text,
        Err(status) => return Ok(status),
    };
    let (status, held) = told(host, line.words.as_slice(), text.as_slice(), false);
    if held.refused > 0 {
        return Err(EngineFail::Memory);
    }
    if status > 1 {
        return Ok(status);
    }
    let drawn = picture(host, line, text.as_slice())?;
    write_page(host, line, &held, drawn.bytes())?;
    Ok(status)
}

// Writes the verdict on a history as a page.
fn check_page<S: Streams, H: Threads + Wait + Sync>(
    host: &Host<'_, S, H>,
    line: &Line,
    choice: &Result<Choice, NoChoice>,
) -> Result<u8, EngineFail>
    ensures { IfOk result IsStatus }
{
    let alloc = host.rt.alloc();
    let mut held = Held::new(alloc, host.hush);
    let status = answer_into(host, line, choice, file_of(line.files.first()), &mut held)?;
    if held.refused > 0 {
        return Err(EngineFail::Memory);
    }
    if held.bytes().is_empty() {
        return Ok(status);
    }
    match picture_of(alloc, held.bytes())? {
        Some(drawn) => write_page(host, line, &held, drawn.as_slice())?,
        None => write_page(host, line, &held, b"")?,
    }
    Ok(status)
}

/// Writes the answer on a file as a page.
pub(crate) fn answer_page<S: Streams, H: Threads + Wait + Sync>(
    host: &Host<'_, S, H>,
    line: &Line,
    choice: &Result<Choice, NoChoice>,
) -> Result<u8, EngineFail>
    ensures { IfOk result IsStatus }
{
    match host.command {
        CommandName::Check => check_page(host, line, choice),
        _ => explain_page(host, line),
    }
}
