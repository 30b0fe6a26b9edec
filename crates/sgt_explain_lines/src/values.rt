//! The value of an item, and the line that made it.

ghost use Rattle.std.specs.Prelude.{◌≡◌, ◌≢◌, ◌-◌, Some, None, IfSome, IfNone, Contains, option_map, unwrap_or, fold};
ghost use Rattle.sgt_names.specs.Entry.{change_of};
ghost use Rattle.sgt_names.specs.Log.{value_in, value_with_any, value_after, value_at};
ghost use Rattle.sgt_explain_lines.specs.Values.{holdings_of, entries_of, latest, last_change, stated_as, HadUntil};

use crate::section::{Logged, Section, Stated};
use sgt_names::{Item, Value};

/// A value of an item: the line of the item that says so, and the entry that made it, where one did.
#[derive(Clone, Copy)]
pub struct Made {
    pub value: Value,
    pub listed: u64,
    pub by: Option<Logged>,
}

/// A value that a line gives an item of its section, and what the item has before that line: its value there and the
/// entry that made it, and the last line up to which it had the value given, where there is one.
#[derive(Clone, Copy)]
pub struct Misvalued {
    pub site: u8,
    pub item: Item,
    pub given: Value,
    pub made: Made,
    pub until: Option<u64>,
}

/// The value that the item is listed with.
fn initial_of(items: &[Stated], item: &Item) -> Option<Made>
    ensures value { option_map (λ m. m.value) result ≡ value_in (holdings_of items.now) item.now }
    ensures by { IfSome result (λ m. m.by ≡ None) }
    ensures listed { IfSome result (λ m. Contains items.now (stated_as m.listed item.now m.value)) }
{
    for stated in items {
        if stated.holding.item == *item {
            return Some(Made {
                value: stated.holding.value,
                listed: stated.line,
                by: None,
            });
        }
    }
    None
}

/// What a value of the item becomes by an entry.
fn made_by(made: Made, logged: &Logged, item: &Item) -> Made
    ensures value { Some result.value ≡ value_with_any (Some made.value) (change_of item.now logged.now.entry) }
    ensures by { result.by ≡ latest item.now made.by logged.now }
    ensures kept { result.by ≡ None → (made.by ≡ None) × (result.value ≡ made.value) }
    ensures listed { result.listed ≡ made.listed }
{
    match logged.entry.change(item) {
        Some(change) => Made {
            value: change.apply(made.value),
            listed: made.listed,
            by: Some(*logged),
        },
        None => made,
    }
}

/// What a value of the item becomes by these entries.
fn made_by_all(first: &Made, entries: &[Logged], item: &Item) -> Made
    ensures value { Some result.value ≡ value_after (Some first.now.value) (entries_of entries.now) item.now }
    ensures by { result.by ≡ fold (latest item.now) first.now.by entries.now }
    ensures kept { result.by ≡ None → result.value ≡ first.now.value }
    ensures listed { result.listed ≡ first.now.listed }
{
    let mut made = *first;
    for logged in entries {
        made = made_by(made, logged, item);
    }
    made
}

/// The last line up to which an item had this value, behind an entry of this line that brings it from one value to
/// another.
fn last_behind(last: Option<u64>, step: (Value, Value), value: Value, line: u64) -> Option<u64>
    ensures changed { step.0 ≡ value → step.1 ≢ value → result ≡ Some (line - 1) }
    ensures kept { step.0 ≢ value → result ≡ last }
{
    if step.0 == value && step.1 != value {
        Some(line.saturating_sub(1))
    } else {
        last
    }
}

/// The last line up to which the item had this value, where it has another one behind these entries.
fn last_had(first: &Made, entries: &[Logged], item: &Item, value: Value) -> Option<u64>
    ensures { value_after (Some first.now.value) (entries_of entries.now) item.now ≢ Some value
        → HadUntil (Some first.now.value) entries.now item.now value result }
{
    let mut made = *first;
    let mut last = None;
    for logged in entries {
        let before = made.value;
        made = made_by(made, logged, item);
        let after = made.value;
        last = last_behind(last, (before, after), value, logged.line);
    }
    last
}

/// What is shown of this value of the item, given behind the entries of the section. `None` where the section lists
/// no such item.
pub fn value_against(section: &Section, item: &Item, given: Value) -> Option<Misvalued>
    ensures given { IfSome result (λ m. (m.item ≡ item.now) × (m.given ≡ given)) }
    ensures site { IfSome result (λ m. m.site ≡ unwrap_or section.now.site 0) }
    ensures value { IfSome result (λ m.
        value_at (holdings_of section.now.items.items) (entries_of section.now.entries.items) m.item ≡ Some m.made.value) }
    ensures by { IfSome result (λ m. m.made.by ≡ last_change m.item section.now.entries.items) }
    ensures listed { IfSome result (λ m. m.made.by ≡ None
        → Contains section.now.items.items (stated_as m.made.listed m.item m.made.value)) }
    ensures until { IfSome result (λ m. m.made.value ≢ m.given
        → HadUntil (value_in (holdings_of section.now.items.items) m.item) section.now.entries.items m.item m.given
        m.until) }
    ensures none { IfNone result (value_in (holdings_of section.now.items.items) item.now ≡ None) }
{
    let Some(first) = initial_of(section.items.as_slice(), item) else {
        return None;
    };
    let entries = section.entries.as_slice();
    let until = last_had(&first, entries, item, given);
    Some(Misvalued {
        site: section.site_number(),
        item: *item,
        given,
        made: made_by_all(&first, entries, item),
        until,
    })
}
