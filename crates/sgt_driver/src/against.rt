//! An order in a file, judged by a history.

ghost use Rattle.std.specs.Prelude.{IfErr};
ghost use Rattle.sgt_driver.specs.Status.{IsStatus};

use crate::devices::{Input, LastWords, Steady};
use crate::host::{Host, ended, open, refuse_file, writer};
use crate::streams::Streams;
use crate::unreadable::{Fronted, tell_unreadable};
use crate::why::tell_why;
use sgt_command_line::CheckWanted;
use sgt_line::Line;
use sgt_names::{FromRead, Nowhere, Sink, ToWrite};
use sgt_program::check_order;
use std::fs::File;

// The reader of the order; the status, where it can't be opened. Standard input gives one text, so not this one and
// the history too.
fn open_order<'a, S: Streams, H>(
    host: &Host<'a, S, H>,
    order: &str,
    name: &str,
) -> Result<Steady<'a, S, Input<S::Input>>, u8>
    ensures { IfErr result IsStatus }
{
    let streams = host.streams;
    if order == "-" && name == "-" {
        let _ = eprintln!(streams; "sgt: the order and the history can't both be standard input");
        return Err(2);
    }
    if order == "-" {
        return Ok(Steady::new(Input::Standard(streams.input()), None, None, host.hush));
    }
    match File::open(host.rt, order) {
        Ok(file) => Ok(Steady::new(Input::File(file), None, None, host.hush)),
        Err(why) => Err(refuse_file(streams, order, &why)),
    }
}

/// The status of the order in the file of this name, by the history in the other.
pub(crate) fn judged<S: Streams, H, W: Sink>(
    host: &Host<'_, S, H>,
    wanted: CheckWanted,
    order: &str,
    name: &str,
    writer: &mut W,
) -> u8
    ensures { IsStatus result }
{
    let mut given = match open_order(host, order, name) {
        Ok(given) => given,
        Err(status) => return status,
    };
    let mut steady = match open(host, name) {
        Ok(steady) => steady,
        Err(status) => return status,
    };
    let mut errors = ToWrite::new(LastWords::new(host.streams.errors(), host.hush));
    let mut fronted = Fronted::new(writer);
    let status = {
        let mut lines = FromRead::new(&mut given);
        let mut reader = FromRead::new(&mut steady);
        check_order(
            host.rt.alloc(),
            wanted,
            &mut lines,
            &mut reader,
            &mut fronted,
            &mut errors,
        )
    };
    tell_unreadable(host, &steady, fronted.front());
    tell_why(host, &steady, name, fronted.front(), status);
    let status = ended(host, &given, order, status);
    ended(host, &steady, name, status)
}

/// Judges the order in the file; quietly by the status alone.
pub(crate) fn judge_order<S: Streams, H>(
    host: &Host<'_, S, H>,
    line: &Line,
    wanted: CheckWanted,
    order: &str,
    name: &str,
) -> u8
    ensures { IsStatus result }
{
    if line.is_quiet {
        return judged(host, wanted, order, name, &mut Nowhere);
    }
    let mut output = writer(host);
    judged(host, wanted, order, name, &mut output)
}
