//! The lines of the scripts, written.

ghost use Rattle.std.specs.Prelude.{◌≡◌, ◌++◌, ◌↔◌, None, Some, All, IsTrue, OnOk, map};
ghost use Rattle.std.specs.List.{last_or};
ghost use Rattle.sgt_notation.specs.Spelling.{text_of_lines};
ghost use Rattle.sgt_service.specs.Results.{IsCommitted, done_text, ending_text, last_ticket, told_text};

use sgt_notation::push_number;
use sgt_workers::{Done, Ending, Ticket};
use std::alloc::AllocError;

// The last of these tickets.
fn last_of(tickets: &[Ticket]) -> Option<Ticket>
    ensures { result ≡ last_or None tickets.now }
{
    let mut last = None;
    for ticket in tickets {
        last = Some(*ticket);
    }
    last
}

// Whether the last try of the script was committed.
fn is_committed(done: &Done) -> bool
    ensures { IsTrue result ↔ IsCommitted done.now }
{
    match last_of(done.tickets.as_slice()) {
        Some(ticket) => ticket.verdict == Ending::Committed,
        None => false,
    }
}

/// Whether the last try of each script was committed.
pub fn are_committed(dones: &[Done]) -> bool
    ensures { IsTrue result ↔ All IsCommitted dones.now }
{
    dones.iter().all(|done| is_committed(done))
}

fn push_ending(out: &mut Vec<u8>, ending: Ending) -> Result<(), AllocError>
    ensures { OnOk result (out.new.items ≡ out.old.items ++ ending_text ending) }
{
    match ending {
        Ending::Committed => out.extend_from_slice(b" committed "),
        Ending::Refused => out.extend_from_slice(b" refused "),
        Ending::Withdrawn => out.extend_from_slice(b" withdrawn "),
    }
}

fn push_told(out: &mut Vec<u8>, done: &Done, ticket: Ticket) -> Result<(), AllocError>
    ensures { OnOk result (out.new.items ≡ out.old.items ++ told_text done.now (Some ticket)) }
{
    out.extend_from_slice(b"s")?;
    push_number(out, done.job)?;
    push_ending(out, ticket.verdict)?;
    push_number(out, u64::from(ticket.tx.number()))?;
    out.extend_from_slice(b" tries ")?;
    push_number(out, done.tickets.len() as u64)
}

// Writes the line of a script, without an LF. Err: memory ran out.
fn push_done(out: &mut Vec<u8>, done: &Done) -> Result<(), AllocError>
    ensures { OnOk result (out.new.items ≡ out.old.items ++ done_text done.now) }
{
    match last_of(done.tickets.as_slice()) {
        Some(ticket) => push_told(out, done, ticket),
        None => Ok(()),
    }
}

/// Writes a line for each script. Err: memory ran out.
pub fn push_dones(out: &mut Vec<u8>, dones: &[Done]) -> Result<(), AllocError>
    ensures { OnOk result
        (out.new.items ≡ out.old.items ++ text_of_lines (map done_text dones.now)) }
{
    for done in dones {
        push_done(out, done)?;
        out.extend_from_slice(b"\n")?;
    }
    Ok(())
}
