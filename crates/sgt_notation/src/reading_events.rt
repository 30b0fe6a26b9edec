//! The lines of events, read exactly where they are spelled.

ghost use Rattle.std.specs.Prelude.{◌≡◌, IfSome};
ghost use Rattle.sgt_notation.specs.Events.{IsEventLine, event_text};
ghost use Rattle.sgt_notation.specs.PrivateEvents.{IsAccess, IsPlace, IsUpdate, IsVisit, access_text, place_text, update_text, visit_text};
ghost use Rattle.sgt_notation.specs.Reading.{Finds, Reads};

use crate::event::{Event, EventLine};
use crate::fault::NotationFault;
use crate::front::{access_at, update_at};
use crate::number::{find_site, find_tx, find_value};
use crate::reading::{cut, refusal};
use sgt_names::{Item, SiteNo, Tx, Value};

/// An item at a site.
pub(crate) type Place = (SiteNo, Item);

/// Reads `SITE.NAME`.
pub(crate) fn find_place(bytes: &[u8]) -> Option<Place>
    ensures { Finds IsPlace place_text bytes.now result }
{
    let (number, name) = cut(bytes, b'.')?;
    let site = find_site(number)?;
    let item = Item::new(name).ok()?;
    Some((site, item))
}

/// The access that these bytes spell, where that is seen from the front on.
#[inline(always)]
fn seen_access(bytes: &[u8]) -> Option<(Tx, Place)>
    ensures { IfSome result (λ found. IsAccess found × (bytes.now ≡ access_text found)) }
{
    let (access, to) = access_at(bytes, 0)?;
    if to == bytes.len() {
        Some(access)
    } else {
        None
    }
}

/// Reads `TX[SITE.NAME]`, cut at its brackets.
#[inline(never)]
fn cut_access(bytes: &[u8]) -> Option<(Tx, Place)>
    ensures { Finds IsAccess access_text bytes.now result }
{
    let (number, tail) = cut(bytes, b'[')?;
    let (inside, behind) = cut(tail, b']')?;
    if !behind.is_empty() {
        return None;
    }
    let tx = find_tx(number)?;
    let place = find_place(inside)?;
    Some((tx, place))
}

/// Reads `TX[SITE.NAME]`.
fn find_access(bytes: &[u8]) -> Option<(Tx, Place)>
    ensures { Finds IsAccess access_text bytes.now result }
{
    match seen_access(bytes) {
        Some(access) => Some(access),
        None => cut_access(bytes),
    }
}

/// The update that these bytes spell, where that is seen from the front on.
#[inline(always)]
fn seen_update(bytes: &[u8]) -> Option<((Tx, Place), Value)>
    ensures { IfSome result (λ found. IsUpdate found × (bytes.now ≡ update_text found)) }
{
    let (update, to) = update_at(bytes, 0)?;
    if to == bytes.len() {
        Some(update)
    } else {
        None
    }
}

/// Reads `TX[SITE.NAME]=NUM`, cut at the equals sign.
#[inline(never)]
fn cut_update(bytes: &[u8]) -> Option<((Tx, Place), Value)>
    ensures { Finds IsUpdate update_text bytes.now result }
{
    let (front, number) = cut(bytes, b'=')?;
    let access = cut_access(front)?;
    let value = find_value(number)?;
    Some((access, value))
}

/// Reads `TX[SITE.NAME]=NUM`.
fn find_update(bytes: &[u8]) -> Option<((Tx, Place), Value)>
    ensures { Finds IsUpdate update_text bytes.now result }
{
    match seen_update(bytes) {
        Some(update) => Some(update),
        None => cut_update(bytes),
    }
}

/// Reads `TX@SITE`.
fn find_visit(bytes: &[u8]) -> Option<(Tx, SiteNo)>
    ensures { Finds IsVisit visit_text bytes.now result }
{
    let (number, place) = cut(bytes, b'@')?;
    let tx = find_tx(number)?;
    let site = find_site(place)?;
    Some((tx, site))
}

/// Reads the line of an event.
fn find_event(line: &[u8]) -> Option<EventLine>
    ensures { Finds IsEventLine event_text line.now result }
{
    let (letter, rest) = line.split_first()?;
    match *letter {
        b'b' if rest.is_empty() => Some(EventLine::One(Event::Begin)),
        b'z' if rest.is_empty() => Some(EventLine::One(Event::Close)),
        b'r' => find_access(rest).map(|(tx, (site, item))| EventLine::One(Event::Read {
            tx,
            site,
            item,
        })),
        b'w' => find_update(rest).map(|((tx, (site, item)), value)| EventLine::One(Event::Put {
            tx,
            site,
            item,
            value,
        })),
        b'd' => find_update(rest).map(|((tx, (site, item)), value)| EventLine::One(Event::Add {
            tx,
            site,
            item,
            value,
        })),
        b'i' => find_visit(rest).map(|(tx, site)| EventLine::One(Event::Install { tx, site })),
        b'c' => find_tx(rest).map(|tx| EventLine::One(Event::Commit { tx })),
        b'a' => find_tx(rest).map(|tx| EventLine::One(Event::Withdraw { tx })),
        b'v' => find_tx(rest).map(EventLine::ToDecide),
        _ => None,
    }
}

/// The event that this line, without its LF, spells. L2 for a line that is too long, and L1 for any other line.
/// It takes no memory.
pub fn read_event(line: &[u8]) -> Result<EventLine, NotationFault>
    ensures { Reads IsEventLine event_text line.now result }
{
    match find_event(line) {
        Some(event) => Ok(event),
        None => Err(refusal(line)),
    }
}
