//! The names of items.

ghost use Rattle.std.specs.Prelude.{◌≡◌, ◌≤◌, ◌-◌, ◌++◌, ◌↔◌, IsTrue, take, drop, replicate};
ghost use Rattle.std.specs.Int.{w64, from_be_bytes, from_le_bytes};
ghost use Rattle.std.specs.List.{prefix_len};
ghost use Rattle.std.specs.Prelude.{Some, refl, bytes_eq};
ghost use Rattle.std.specs.Ordering.{nat_cmp};
ghost use Rattle.std.specs.Cmp.{partial_equiv_from_equiv};
ghost use Rattle.std.proofs.Common.{rules};
ghost use Rattle.std.specs.Hash as fed;
ghost use Rattle.std.specs.Cmp.Rules.{hashing};
ghost use Rattle.std.specs.Cmp.Lexicographic.{slice_cmp, nat_list_eq_equiv, nat_list_cmp_total, texts_ties, texts_po};
ghost use Rattle.sgt_names.specs.Key.{bytes_key};
ghost use Rattle.sgt_names.specs.Name.{is_name_byte, is_small_letter};
ghost use Rattle.sgt_names.specs.Stored.{BeginsName, AreNameBytes, first_set, is_positive, padded_name};

use std::cmp::Ordering;
use std::fmt::{self, Debug, Display, Formatter, Write};
use std::hash::{Hash, Hasher};
use std::marker::Model;
use std::simd::prelude::*;
use thiserror::Error;

/// N1: bytes that are no name of an item.
#[derive(Clone, Copy, Debug, PartialEq, Eq, Error)]
#[error("N1: a name is a small letter and then up to 15 small letters, digits and underscores")]
pub struct BadName;

/// The name of an item: a small letter, then up to fifteen small letters, digits and underscores.
/// Contracts see it as its bytes.
#[derive(Clone, Copy)]
pub struct Item {
    // the name, and zeros up to 16
    bytes: [u8; 16],
}

impl Model for Item {
    ghost use Rattle.std.specs.Prelude.{ℕ, List};
    ghost use Rattle.std.specs.Coded.{coded_list, coded_ℕ};

    ghost Value = { List ℕ };

    ghost coded = { coded_list coded_ℕ };

    ghost use Rattle.sgt_names.specs.Stored.{name_of, IsStored, stored_name, stored_name-name_of};

    ghost view = { name_of };

    ghost invariant = { IsStored };

    ghost inverse = { stored_name };

    ghost inverse_ok = { stored_name-name_of };
}

impl Item {
    ghost use Rattle.std.specs.List.{prefix_len};
    ghost use Rattle.std.specs.Prelude.{ℕ, ◌≡◌, ◌↔◌, take, IsSome, IfSome};
    ghost use Rattle.std.specs.Result.{OkIff};
    ghost use Rattle.sgt_names.specs.Key.{name_key};
    ghost use Rattle.sgt_names.specs.Name.{IsName, SpellsFront, is_name_byte};

    /// The name that these bytes spell. N1 for all other bytes; nothing is trimmed or cut off.
    pub fn new(bytes: &[u8]) -> Result<Item, BadName>
        ensures { OkIff result (IsName bytes.now) bytes.now }
    {
        let mut padded = [0u8; 16];
        if !is_first(bytes) || !keep_name(&mut padded, bytes) {
            return Err(BadName);
        }
        Ok(Item { bytes: padded })
    }

    /// The longest name that stands at the front, and how many bytes it has. None where no name stands there.
    #[inline(always)]
    pub fn leading(bytes: &[u8; 16]) -> Option<(Item, usize)>
        ensures is { IsSome result ↔ ((len : ℕ) × SpellsFront bytes.now len) }
        ensures some { IfSome result (λ r. SpellsFront bytes.now r.1 × (r.0 ≡ take r.1 bytes.now)) }
        ensures longest { IfSome result (λ r. r.1 ≡ prefix_len is_name_byte bytes.now) }
    {
        if letters_len(bytes) == 0 {
            return None;
        }
        let len = name_bytes_len(bytes);
        let item = Item {
            bytes: kept_to(bytes, len),
        };
        Some((item, len))
    }

    /// A number made of the name, by which names can mostly be told apart at once. It is a hint: the same name always
    /// has the same number, but other names may have it too.
    #[inline(always)]
    pub fn key(&self) -> u64
        ensures { result ≡ name_key self.now }
    {
        bytes_key(&self.bytes)
    }

    /// The bytes of the name.
    #[inline(always)]
    pub fn as_bytes(&self) -> &[u8]
        ensures bytes { result.now ≡ self.now }
        ensures name { IsName self.now }
    {
        &self.bytes[..name_len(&self.bytes)]
    }
}

impl PartialEq for Item {
    ghost eq = { bytes_eq };

    ghost laws = { partial_equiv_from_equiv nat_list_eq_equiv };

    #[inline(always)]
    fn eq(&self, other: &Item) -> bool {
        are_same(&self.bytes, &other.bytes)
    }
}

impl Eq for Item {
    ghost laws = { nat_list_eq_equiv };
}

impl PartialOrd for Item {
    ghost partial_cmp = { λ a b. Some (slice_cmp nat_cmp a b) };

    ghost laws = { texts_po };

    fn partial_cmp(&self, other: &Item) -> Option<Ordering> {
        Some(self.cmp(other))
    }
}

impl Ord for Item {
    ghost cmp = { slice_cmp nat_cmp };

    ghost total = { nat_list_cmp_total };

    ghost matches_partial_cmp = { λ a b. refl };

    ghost matches_eq = { texts_ties };

    #[inline(always)]
    fn cmp(&self, other: &Item) -> Ordering {
        order(&self.bytes, &other.bytes)
    }
}

impl Hash for Item {
    ghost hash_input = { fed.slice fed.u8 };

    ghost respects_eq = { Prim.search (hashing, rules) };

    fn hash<H: Hasher>(&self, state: &mut H) {
        self.as_bytes().hash(state);
    }
}

/// The name itself.
impl Display for Item {
    ghost output = { λ name. Some name };

    fn fmt<W: Write>(&self, f: &mut Formatter<W>) -> fmt::Result {
        match str::from_utf8(self.as_bytes()) {
            Ok(name) => f.write_str(name),
            Err(_) => unreachable!(),
        }
    }
}

impl Debug for Item {
    fn fmt<W: Write>(&self, f: &mut Formatter<W>) -> fmt::Result {
        Display::fmt(self, f)
    }
}

fn is_letter(byte: u8) -> bool
    ensures { result ≡ is_small_letter byte }
{
    byte.is_ascii_lowercase()
}

fn is_later_byte(byte: u8) -> bool
    ensures { result ≡ is_name_byte byte }
{
    is_letter(byte) || byte.is_ascii_digit() || byte == b'_'
}

// Whether a name may begin so.
#[inline(always)]
fn is_first(bytes: &[u8]) -> bool
    ensures { IsTrue result ↔ BeginsName bytes.now }
{
    match bytes.first() {
        Some(first) => is_letter(*first),
        None => false,
    }
}

// The place of the lowest bit that is set, or 16.
#[inline(always)]
fn first_set(mask: u64) -> usize
    ensures { result ≡ first_set mask }
{
    if mask == 0 {
        16
    } else {
        mask.trailing_zeros() as usize
    }
}

// How many bytes stand in front of the first that may not stand in a name.
#[inline(always)]
fn name_bytes_len(bytes: &[u8; 16]) -> usize
    ensures { result ≡ prefix_len is_name_byte bytes.now }
{
    let lanes = u8x16::from_array(*bytes);
    let is_no_letter = lanes.simd_lt(u8x16::splat(b'a')) | lanes.simd_gt(u8x16::splat(b'z'));
    let is_no_digit = lanes.simd_lt(u8x16::splat(b'0')) | lanes.simd_gt(u8x16::splat(b'9'));
    let stops = is_no_letter & is_no_digit & lanes.simd_ne(u8x16::splat(b'_'));
    first_set(stops.to_bitmask())
}

// How many small letters stand at the front.
#[inline(always)]
fn letters_len(bytes: &[u8; 16]) -> usize
    ensures { result ≡ prefix_len is_small_letter bytes.now }
{
    let lanes = u8x16::from_array(*bytes);
    let is_no_letter = lanes.simd_lt(u8x16::splat(b'a')) | lanes.simd_gt(u8x16::splat(b'z'));
    first_set(is_no_letter.to_bitmask())
}

// Keeps the bytes in front of zeros, if there are at most 16 and each may stand in a name.
fn keep_name(padded: &mut [u8; 16], bytes: &[u8]) -> bool
    requires { padded.old ≡ replicate 16 0 }
    ensures is { IsTrue result ↔ AreNameBytes bytes.now }
    ensures kept { IsTrue result → padded.new ≡ padded_name bytes.now }
{
    if bytes.len() > 16 {
        return false;
    }
    for at in 0..bytes.len() {
        if !is_later_byte(bytes[at]) {
            return false;
        }
        padded[at] = bytes[at];
    }
    true
}

// The number of the first eight bytes, and that of the others.
#[inline(always)]
fn halves(bytes: &[u8; 16]) -> (u64, u64)
    ensures front { result.0 ≡ from_le_bytes w64 (take 8 bytes.now) }
    ensures back { result.1 ≡ from_le_bytes w64 (drop 8 bytes.now) }
{
    match (bytes.first_chunk::<8>(), bytes.last_chunk::<8>()) {
        (Some(front), Some(back)) => (u64::from_le_bytes(*front), u64::from_le_bytes(*back)),
        _ => (0, 0),
    }
}

// The number of the first eight bytes, and that of the others, the first byte the most.
#[inline(always)]
fn front_and_back(bytes: &[u8; 16]) -> (u64, u64)
    ensures front { result.0 ≡ from_be_bytes w64 (take 8 bytes.now) }
    ensures back { result.1 ≡ from_be_bytes w64 (drop 8 bytes.now) }
{
    match (bytes.first_chunk::<8>(), bytes.last_chunk::<8>()) {
        (Some(front), Some(back)) => (u64::from_be_bytes(*front), u64::from_be_bytes(*back)),
        _ => (0, 0),
    }
}

// The order of the bytes, eight at a time.
#[inline(always)]
fn order(bytes: &[u8; 16], others: &[u8; 16]) -> Ordering
    ensures { result ≡ slice_cmp nat_cmp bytes.now others.now }
{
    let (front, back) = front_and_back(bytes);
    let (other_front, other_back) = front_and_back(others);
    match front.cmp(&other_front) {
        Ordering::Equal => back.cmp(&other_back),
        unequal => unequal,
    }
}

// A number made of the bytes.
#[inline(always)]
fn bytes_key(bytes: &[u8; 16]) -> u64
    ensures { result ≡ bytes_key bytes.now }
{
    let (front, back) = halves(bytes);
    front ^ back.rotate_left(29)
}

// How many bytes stand in front of the first zero.
#[inline(always)]
fn name_len(bytes: &[u8; 16]) -> usize
    ensures { result ≡ prefix_len is_positive bytes.now }
{
    let zeros = u8x16::from_array(*bytes).simd_eq(u8x16::splat(0));
    first_set(zeros.to_bitmask())
}

// Whether the bytes are the same.
#[inline(always)]
fn are_same(bytes: &[u8; 16], others: &[u8; 16]) -> bool
    ensures { result ≡ bytes_eq bytes.now others.now }
{
    let (front, back) = halves(bytes);
    let (other_front, other_back) = halves(others);
    (front == other_front) & (back == other_back)
}

// These bytes up to a place, and zeros from there on.
#[inline(always)]
fn kept_to(bytes: &[u8; 16], len: usize) -> [u8; 16]
    requires { len ≤ 16 }
    ensures { result ≡ take len bytes.now ++ replicate (16 - len) 0 }
{
    let places = u8x16::from_array([0, 1, 2, 3, 4, 5, 6, 7, 8, 9, 10, 11, 12, 13, 14, 15]);
    let is_kept = places.simd_lt(u8x16::splat(len as u8));
    is_kept
        .select(u8x16::from_array(*bytes), u8x16::splat(0))
        .to_array()
}
