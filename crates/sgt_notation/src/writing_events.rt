//! The lines of events, written as they are spelled.

ghost use Rattle.std.specs.Prelude.{◌≡◌, ◌≤◌, ◌+◌, ◌++◌, length, take, vec_len, vec_capacity, IsOk, OnOk, OnErr};
ghost use Rattle.sgt_names.specs.Name.{IsName};
ghost use Rattle.sgt_notation.specs.Events.{HasLine, IsEventLine, access, event_text, update, visit};
ghost use Rattle.sgt_notation.specs.Spelling.{IsSite, IsTx, IsValue};

use crate::event::{Event, EventLine};
use crate::writing::push_number;
use sgt_names::{Item, SiteNo, Tx, Value};
use std::alloc::AllocError;

fn push_access(out: &mut Vec<u8>, tx: Tx, site: SiteNo, item: &Item) -> Result<(), AllocError>
    ensures ok { OnOk result (out.new.items ≡ out.old.items ++ access tx site item.now) }
    ensures in_range { OnOk result (IsTx tx × (IsSite site × IsName item.now)) }
    ensures err { OnErr result (take (vec_len out.old) out.new.items ≡ out.old.items) }
    ensures room { vec_len out.old + length (access tx site item.now) ≤ vec_capacity out.old
        → IsOk result }
    ensures capacity { vec_capacity out.old ≤ vec_capacity out.new }
{
    push_number(out, tx.number() as u64)?;
    out.extend_from_slice(b"[")?;
    push_number(out, site.number() as u64)?;
    out.extend_from_slice(b".")?;
    out.extend_from_slice(item.as_bytes())?;
    out.extend_from_slice(b"]")
}

fn push_update(
    out: &mut Vec<u8>,
    tx: Tx,
    site: SiteNo,
    item: &Item,
    value: Value,
) -> Result<(), AllocError>
    ensures ok { OnOk result (out.new.items ≡ out.old.items ++ update tx site item.now value) }
    ensures in_range { OnOk result ((IsTx tx × (IsSite site × IsName item.now)) × IsValue value) }
    ensures err { OnErr result (take (vec_len out.old) out.new.items ≡ out.old.items) }
    ensures room { vec_len out.old + length (update tx site item.now value) ≤ vec_capacity out.old
        → IsOk result }
    ensures capacity { vec_capacity out.old ≤ vec_capacity out.new }
{
    push_access(out, tx, site, item)?;
    out.extend_from_slice(b"=")?;
    push_number(out, value)
}

fn push_visit(out: &mut Vec<u8>, tx: Tx, site: SiteNo) -> Result<(), AllocError>
    ensures ok { OnOk result (out.new.items ≡ out.old.items ++ visit tx site) }
    ensures in_range { OnOk result (IsTx tx × IsSite site) }
    ensures err { OnErr result (take (vec_len out.old) out.new.items ≡ out.old.items) }
    ensures room { vec_len out.old + length (visit tx site) ≤ vec_capacity out.old → IsOk result }
    ensures capacity { vec_capacity out.old ≤ vec_capacity out.new }
{
    push_number(out, tx.number() as u64)?;
    out.extend_from_slice(b"@")?;
    push_number(out, site.number() as u64)
}

fn push_event(out: &mut Vec<u8>, event: &EventLine) -> Result<(), AllocError>
    requires { HasLine event.now }
    ensures ok { OnOk result (out.new.items ≡ out.old.items ++ event_text event.now) }
    ensures in_range { OnOk result (IsEventLine event.now) }
    ensures err { OnErr result (take (vec_len out.old) out.new.items ≡ out.old.items) }
    ensures room { vec_len out.old + length (event_text event.now) ≤ vec_capacity out.old
        → IsOk result }
    ensures capacity { vec_capacity out.old ≤ vec_capacity out.new }
{
    match event {
        EventLine::One(Event::Begin) => out.extend_from_slice(b"b"),
        EventLine::One(Event::Read { tx, site, item }) => {
            out.extend_from_slice(b"r")?;
            push_access(out, *tx, *site, item)
        }
        EventLine::One(
            Event::Put {
                tx,
                site,
                item,
                value,
            },
        ) => {
            out.extend_from_slice(b"w")?;
            push_update(out, *tx, *site, item, *value)
        }
        EventLine::One(
            Event::Add {
                tx,
                site,
                item,
                value,
            },
        ) => {
            out.extend_from_slice(b"d")?;
            push_update(out, *tx, *site, item, *value)
        }
        EventLine::One(Event::Gather { .. } | Event::Decide { .. }) => Ok(()),
        EventLine::One(Event::Install { tx, site }) => {
            out.extend_from_slice(b"i")?;
            push_visit(out, *tx, *site)
        }
        EventLine::One(Event::Commit { tx }) => {
            out.extend_from_slice(b"c")?;
            push_number(out, tx.number() as u64)
        }
        EventLine::One(Event::Withdraw { tx }) => {
            out.extend_from_slice(b"a")?;
            push_number(out, tx.number() as u64)
        }
        EventLine::One(Event::Close) => out.extend_from_slice(b"z"),
        EventLine::ToDecide(tx) => {
            out.extend_from_slice(b"v")?;
            push_number(out, tx.number() as u64)
        }
    }
}

/// Writes the line of the event, without an LF, behind what is there. Where a growth is refused nothing is written.
/// `read_event` reads it again as this event. `Gather` and `Decide` have no line (`EventLine::has_line`).
pub fn write_event(out: &mut Vec<u8>, event: &EventLine) -> Result<(), AllocError>
    requires { HasLine event.now }
    ensures ok { OnOk result (out.new.items ≡ out.old.items ++ event_text event.now) }
    ensures in_range { OnOk result (IsEventLine event.now) }
    ensures err { OnErr result (out.new.items ≡ out.old.items) }
    ensures room { vec_len out.old + length (event_text event.now) ≤ vec_capacity out.old
        → IsOk result }
    ensures capacity { vec_capacity out.old ≤ vec_capacity out.new }
{
    let before = out.len();
    let written = push_event(out, event);
    if written.is_err() {
        out.truncate(before);
    }
    written
}
