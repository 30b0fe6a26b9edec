//! The line of an event, read at the front of bytes that hold more: its LF is not looked for first.

ghost use Rattle.std.specs.Prelude.{◌≡◌, ◌≤◌, ◌++◌, ◌∷◌, [], ℕ, List, length, take, IfSome, decimal};
ghost use Rattle.sgt_names.specs.Name.{IsName};
ghost use Rattle.sgt_notation.specs.Events.{IsEventLine, event_text, update, visit};
ghost use Rattle.sgt_notation.specs.Private.{Spans};
ghost use Rattle.sgt_notation.specs.Spelling.{IsSite, IsTx, IsValue};

use crate::event::{Event, EventLine};
use crate::front::{access_at, byte_at, site_at, tx_at, update_at};
use sgt_names::{Item, SiteNo, Tx, Value};

/// The event that this letter alone spells.
#[inline(always)]
fn of_letter(letter: u8) -> Option<EventLine>
    ensures { IfSome result (λ e. (event_text e ≡ letter ∷ []) × IsEventLine e) }
{
    match letter {
        b'b' => Some(EventLine::One(Event::Begin)),
        b'z' => Some(EventLine::One(Event::Close)),
        _ => None,
    }
}

/// The event that this letter and a transaction's number spell.
#[inline(always)]
fn of_tx(letter: u8, tx: Tx) -> Option<EventLine>
    ensures { IfSome result (λ e. (event_text e ≡ letter ∷ decimal tx) × (IsTx tx → IsEventLine e)) }
{
    match letter {
        b'c' => Some(EventLine::One(Event::Commit { tx })),
        b'a' => Some(EventLine::One(Event::Withdraw { tx })),
        b'v' => Some(EventLine::ToDecide(tx)),
        _ => None,
    }
}

/// The event that this letter and a change of an item spell.
#[inline(always)]
fn of_update(letter: u8, tx: Tx, site: SiteNo, item: Item, value: Value) -> Option<EventLine>
    ensures { IfSome result (λ e. (event_text e ≡ letter ∷ update tx site item value)
        × (IsTx tx → IsSite site → IsName item → IsValue value → IsEventLine e)) }
{
    match letter {
        b'w' => Some(EventLine::One(Event::Put {
            tx,
            site,
            item,
            value,
        })),
        b'd' => Some(EventLine::One(Event::Add {
            tx,
            site,
            item,
            value,
        })),
        _ => None,
    }
}

/// A read behind its letter, and the place behind it.
#[inline(always)]
fn read_at(bytes: &[u8], from: usize) -> Option<(EventLine, usize)>
    ensures { IfSome result (λ r. IsEventLine r.0
        × ((t : List ℕ) × (event_text r.0 ≡ 114 ∷ t) × Spans bytes.now from t r.1)) }
{
    let ((tx, (site, item)), to) = access_at(bytes, from)?;
    Some((EventLine::One(Event::Read { tx, site, item }), to))
}

/// `TX@SITE`, and the place behind it.
#[inline(always)]
fn visit_at(bytes: &[u8], from: usize) -> Option<((Tx, SiteNo), usize)>
    ensures { IfSome result
        (λ r. IsTx r.0.0 × IsSite r.0.1 × Spans bytes.now from (visit r.0.0 r.0.1) r.1) }
{
    let (tx, to) = tx_at(bytes, from)?;
    let (site, to) = site_at(bytes, byte_at(bytes, to, b'@')?)?;
    Some(((tx, site), to))
}

/// An install behind its letter, and the place behind it.
#[inline(always)]
fn install_at(bytes: &[u8], from: usize) -> Option<(EventLine, usize)>
    ensures { IfSome result (λ r. IsEventLine r.0
        × ((t : List ℕ) × (event_text r.0 ≡ 105 ∷ t) × Spans bytes.now from t r.1)) }
{
    let ((tx, site), to) = visit_at(bytes, from)?;
    Some((EventLine::One(Event::Install { tx, site }), to))
}

/// The event whose line stands at the front, and the place behind it.
#[inline(always)]
fn front_asked(bytes: &[u8]) -> Option<(EventLine, usize)>
    ensures { IfSome result (λ r. IsEventLine r.0 × Spans bytes.now 0 (event_text r.0) r.1) }
{
    let letter = *bytes.first()?;
    match letter {
        b'r' => read_at(bytes, 1),
        b'w' | b'd' => {
            let (((tx, (site, item)), value), to) = update_at(bytes, 1)?;
            Some((of_update(letter, tx, site, item, value)?, to))
        }
        b'i' => install_at(bytes, 1),
        b'a' | b'c' | b'v' => {
            let (tx, to) = tx_at(bytes, 1)?;
            Some((of_tx(letter, tx)?, to))
        }
        _ => Some((of_letter(letter)?, 1)),
    }
}

/// The event whose line stands at the front with its LF, and the place behind both.
#[inline(always)]
fn front_ended(bytes: &[u8]) -> Option<(EventLine, usize)>
    ensures { IfSome result
        (λ r. IsEventLine r.0 × Spans bytes.now 0 (event_text r.0 ++ 10 ∷ []) r.1) }
{
    let (event, to) = front_asked(bytes)?;
    Some((event, byte_at(bytes, to, b'\n')?))
}

/// The line of an event that stands at the front with its LF, and how many bytes both have. They are read once.
/// None says nothing of the bytes: there may be such a line, but this function doesn't find it.
#[inline(always)]
pub fn front_event(bytes: &[u8]) -> Option<(EventLine, usize)>
    ensures { IfSome result (λ r. IsEventLine r.0 × (r.1 ≤ length bytes.now)
        × (take r.1 bytes.now ≡ event_text r.0 ++ 10 ∷ [])) }
{
    front_ended(bytes)
}
