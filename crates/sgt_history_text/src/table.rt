//! The numbers of texts.

ghost use Rattle.std.specs.Prelude.{ℕ, [], ◌≡◌, ◌==◌, ◌+◌, ◌^◌, ◌<◌, ◌↔◌, List, IfOk, IfSome, OnOk, IsTrue, MatchOption, Some, length, slice_get, slice_set};
ghost use Rattle.sgt_history.specs.Serial.{StandOnce};
ghost use Rattle.sgt_history_text.specs.Table.{mixed, start_of, AreFound, AreKnown, EndsAt, IsInterned, IsNew, IsTable, KeepsOthers, More, number_in};

use crate::names::Names;
use std::alloc::{AllocError, Global};
use std::collections::BTreeMap;
use std::marker::Model;

/// The slots that are tried at most. Texts that are chosen so that more would be are kept in an ordered map.
pub(crate) const TRIES: usize = 64;

/// Where hashes begin, and by what they are multiplied.
pub(crate) const SEED: u64 = 0xcbf2_9ce4_8422_2325;

pub(crate) const MULTIPLIER: u64 = 0x9e37_79b9_7f4a_7c15;

/// How many slots lie between the first ones of two texts whose last letters follow one another. Such texts often
/// come together, and are found where the memory is near then.
pub(crate) const STRIDE: usize = 5;

/// Where texts are found.
#[derive(Drop)]
struct Places {
    slots: Vec<u32>,
    more: BTreeMap<Vec<u8>, u32>,
}

/// The number of a text.
#[derive(Clone, Copy, Debug, PartialEq, Eq)]
pub enum Interned {
    /// It had this number before.
    Old(u32),
    /// It got this number now.
    New(u32),
}

/// Where the tries for a text end.
#[derive(Clone, Copy)]
pub(crate) enum Place {
    /// At its number.
    At(u32),
    /// At a free slot.
    Free(usize),
    /// With all slots taken by others.
    Crowded,
}

/// The hash with a further byte.
#[inline(always)]
fn mix(hash: u64, byte: u8) -> u64
    ensures { result ≡ mixed hash byte }
{
    (hash ^ u64::from(byte)).wrapping_mul(MULTIPLIER)
}

/// Where the tries for a text begin.
fn start_of(text: &[u8]) -> usize
    ensures is { result ≡ start_of text.now }
    ensures small { result < 2 ^ 33 }
{
    let size = text.len();
    if size < 2 {
        return 0;
    }
    let hash = text[..size - 2]
        .iter()
        .fold(mix(SEED, text[size - 1]), |hash, byte| mix(hash, *byte));
    (hash >> 32) as usize + STRIDE * text[size - 2] as usize
}

fn is_at(names: &Names, number: u32, text: &[u8]) -> bool
    requires { number < length names.now }
    ensures { IsTrue result ↔ (slice_get names.now number ≡ Some text.now) }
{
    names.get(number as usize) == text
}

/// Tries the slots of the text.
fn place_of(names: &Names, slots: &[u32], text: &[u8]) -> Place
    requires some { 0 < length slots.now }
    requires known { AreKnown (length names.now) slots.now }
    ensures { EndsAt names.now slots.now text.now result }
{
    let start = start_of(text);
    let last = slots.len() - 1;
    for tried in 0..TRIES {
        let slot = (start + tried) & last;
        let taken = slots[slot];
        if taken == 0 {
            return Place::Free(slot);
        }
        if is_at(names, taken - 1, text) {
            return Place::At(taken - 1);
        }
    }
    Place::Crowded
}

/// The number that a further text gets.
fn next_number(names: &Names) -> Option<u32>
    ensures { IfSome result (λ number. (number ≡ length names.now) × (number + 1 < 2 ^ 32)) }
{
    let number = names.len();
    if number >= u32::MAX as usize {
        return None;
    }
    Some(number as u32)
}

/// Puts the number of a text into the free slot where the tries for it end.
fn occupy(slots: &mut [u32], slot: usize, number: u32)
    requires slot { slot < length slots.old }
    requires number { number + 1 < 2 ^ 32 }
    ensures { slots.new ≡ slice_set slots.old slot (number + 1) }
{
    slots[slot] = number + 1;
}

/// One more text, whose tries end at a free slot.
fn take_slot(
    names: &mut Names,
    slots: &mut Vec<u32>,
    slot: usize,
    text: &[u8],
) -> Result<Interned, AllocError>
    requires { EndsAt names.old slots.old.items text.now (Place.Free slot) }
    ensures interned { (more : More) → IsTable names.old slots.old.items more
        → IfOk result (λ number. IsInterned names.old text.now number names.new) }
    ensures table { (more : More) → IsTable names.old slots.old.items more
        → IsTable names.new slots.new.items more }
{
    let Some(next) = next_number(names) else {
        return Err(AllocError);
    };
    names.push(text)?;
    slots[slot] = next + 1;
    Ok(Interned::New(next))
}

/// The number that the map has of the text.
fn found_besides(names: &Names, more: &BTreeMap<Vec<u8>, u32>, text: &[u8]) -> Option<u32>
    ensures { MatchOption result
        ((number : ℕ) → number_in more.now text.now ≡ Some number → slice_get names.now number ≡ Some text.now → ⊥)
        (λ number. slice_get names.now number ≡ Some text.now) }
{
    let number = *more.get(text)?;
    if (number as usize) < names.len() && is_at(names, number, text) {
        Some(number)
    } else {
        None
    }
}

/// Puts the number of the text into the map.
fn insert_besides(
    alloc: Global,
    more: &mut BTreeMap<Vec<u8>, u32>,
    text: &[u8],
    number: u32,
) -> Result<(), AllocError>
    ensures ok { OnOk result (number_in more.new text.now ≡ Some number) }
    ensures others { KeepsOthers more.old more.new text.now }
{
    let mut key = Vec::new(alloc);
    key.extend_from_slice(text)?;
    let Ok(_) = more.insert(key, number) else {
        return Err(AllocError);
    };
    Ok(())
}

/// One more text, whose tries end with all slots taken.
fn add_besides(
    alloc: Global,
    names: &mut Names,
    more: &mut BTreeMap<Vec<u8>, u32>,
    text: &[u8],
) -> Result<Interned, AllocError>
    requires { IsNew names.old text.now }
    ensures interned { IfOk result (λ number. IsInterned names.old text.now number names.new) }
    ensures table { (slots : List ℕ) → EndsAt names.old slots text.now Place.Crowded → IsTable names.old slots more.old
        → IsTable names.new slots more.new }
{
    let Some(next) = next_number(names) else {
        return Err(AllocError);
    };
    insert_besides(alloc, more, text, next)?;
    names.push(text)?;
    Ok(Interned::New(next))
}

/// Gives a text, of which it has no number below this one, the place where it is found from then on.
fn place_one(
    alloc: Global,
    names: &Names,
    slots: &mut [u32],
    more: &mut BTreeMap<Vec<u8>, u32>,
    number: u32,
) -> Result<(), AllocError>
    requires number { (number < length names.now) × (number + 1 < 2 ^ 32) }
    requires some { 0 < length slots.old }
    requires known { AreKnown (length names.now) slots.old }
    requires once { StandOnce names.now }
    requires found { AreFound number names.now slots.old more.old }
    ensures known { AreKnown (length names.now) slots.new }
    ensures found { OnOk result (AreFound (number + 1) names.now slots.new more.new) }
{
    let text = names.get(number as usize);
    match place_of(names, slots, text) {
        Place::At(_) => {}
        Place::Free(slot) => occupy(slots, slot, number),
        Place::Crowded => insert_besides(alloc, more, text, number)?,
    }
    Ok(())
}

/// Slots, so many, and a map by which all the names are found.
fn place_all(alloc: Global, names: &Names, count: usize) -> Result<Places, AllocError>
    requires some { 0 < count }
    requires once { StandOnce names.now }
    requires few { length names.now < 2 ^ 32 }
    ensures { IfOk result (λ places. IsTable names.now places.slots.items places.more) }
{
    let mut slots = vec![in alloc; 0; count]?;
    let mut more = BTreeMap::new(alloc);
    for number in 0..names.len() {
        place_one(alloc, names, slots.as_mut_slice(), &mut more, number as u32)?;
    }
    Ok(Places { slots, more })
}

/// How many slots there are first.
const FIRST_SLOTS: usize = 64;

/// Texts, each with one number from 0 on: equal ones have the same. Contracts see the list of them.
#[derive(Drop)]
pub struct Table {
    names: Names,
    places: Places,
}

impl Model for Table {
    ghost use Rattle.std.specs.Prelude.{ℕ, List};

    ghost Value = { List (List ℕ) };

    ghost use Rattle.sgt_history_text.specs.Table.{IsTable};

    ghost view = { λ a. a.names };

    ghost invariant = { λ a. IsTable a.names a.places.slots.items a.places.more };
}

impl Table {
    /// No text yet.
    pub fn new(alloc: Global) -> Result<Table, AllocError>
        ensures { IfOk result (λ table. table ≡ []) }
    {
        let names = Names::new(alloc);
        let places = place_all(alloc, &names, FIRST_SLOTS)?;
        Ok(Table { names, places })
    }

    /// How many texts there are.
    #[inline]
    pub fn len(&self) -> usize
        ensures length { result ≡ length self.now }
        ensures few { result < 2 ^ 32 }
    {
        self.names.len()
    }

    /// Whether there is none.
    pub fn is_empty(&self) -> bool
        ensures { result ≡ (length self.now == 0) }
    {
        self.names.is_empty()
    }

    /// The texts, of which no two are equal.
    pub fn into_names(self) -> Names
        ensures names { result ≡ self }
        ensures once { StandOnce result }
    {
        let Table { names, .. } = self;
        names
    }

    /// Makes room for a further text.
    #[inline]
    fn widen(&mut self, alloc: Global) -> Result<(), AllocError>
        ensures { self.new ≡ self.old }
    {
        let count = self.places.slots.len();
        if self.names.len() >= count / 4 && count <= u32::MAX as usize {
            self.places = place_all(alloc, &self.names, count * 2)?;
        }
        Ok(())
    }

    /// The number of the text, if it is one of the texts.
    pub fn number_of(&self, text: &[u8]) -> Option<u32>
        ensures { MatchOption result (IsNew self.now text.now) (λ number. slice_get self.now number ≡ Some text.now) }
    {
        number_in_places(&self.names, &self.places, text)
    }

    /// The number of the text.
    #[inline]
    pub fn intern(&mut self, alloc: Global, text: &[u8]) -> Result<Interned, AllocError>
        ensures { IfOk result (λ number. IsInterned self.old text.now number self.new) }
    {
        self.widen(alloc)?;
        let Table { names, places } = self;
        intern_in(alloc, names, places, text)
    }
}

/// The number of the text, if it is among the names.
fn number_in_places(names: &Names, places: &Places, text: &[u8]) -> Option<u32>
    requires { IsTable names.now places.now.slots.items places.now.more }
    ensures { MatchOption result (IsNew names.now text.now) (λ number. slice_get names.now number ≡ Some text.now) }
{
    match place_of(names, places.slots.as_slice(), text) {
        Place::At(number) => Some(number),
        Place::Free(_) => None,
        Place::Crowded => found_besides(names, &places.more, text),
    }
}

/// The number of the text, which is among the names then.
fn intern_in(
    alloc: Global,
    names: &mut Names,
    places: &mut Places,
    text: &[u8],
) -> Result<Interned, AllocError>
    requires { IsTable names.old places.old.slots.items places.old.more }
    ensures interned { IfOk result (λ number. IsInterned names.old text.now number names.new) }
    ensures table { IsTable names.new places.new.slots.items places.new.more }
{
    match place_of(names, places.slots.as_slice(), text) {
        Place::At(number) => Ok(Interned::Old(number)),
        Place::Free(slot) => take_slot(names, &mut places.slots, slot, text),
        Place::Crowded => {
            if let Some(number) = found_besides(names, &places.more, text) {
                return Ok(Interned::Old(number));
            }
            add_besides(alloc, names, &mut places.more, text)
        }
    }
}
