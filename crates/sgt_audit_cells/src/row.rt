//! What a transaction with many operations did in the open section, by bits.

ghost use Rattle.std.specs.Prelude.{◌≡◌, ◌≤◌, ◌<◌, ◌/◌, ◌↔◌, ◌⊎◌, ℕ, Bool, List, Any, length, IsTrue, IfOk, IfSome};
ghost use Rattle.sgt_audit_cells.specs.private.Deeds.{IsOf, act_of};
ghost use Rattle.sgt_audit_cells.specs.private.Linked.{AreLinked, chain};
ghost use Rattle.sgt_audit_cells.specs.private.Rows.{HasBit, HasMark, IsRowOf, AreRows};
ghost use Rattle.sgt_audit_cells.specs.declared.record.Node.{Node as Linked};

use crate::act::Done;
use crate::record::Node;
use std::alloc::{AllocError, Global};

/// How many words have a bit for each item of a site.
const WORDS: usize = 16;

/// Which items were read and which were changed at a node and at those linked in front of it: by a bit at each item's
/// place.
#[derive(Drop)]
pub struct Row {
    /// The node, counted from 1 over the section.
    pub upto: usize,
    pub reads: Vec<u64>,
    pub changes: Vec<u64>,
}

/// Sets the bit at a place.
fn set(words: &mut [u64], at: usize)
    requires { at / 64 < length words.old }
    ensures { (i : ℕ) → HasBit words.new i ↔ (HasBit words.old i ⊎ (i ≡ at)) }
{
    words[at / 64] |= 1 << (at % 64);
}

/// Whether the bit at a place is set.
fn has_bit(words: &[u64], at: usize) -> bool
    ensures { IsTrue result ↔ HasBit words.now at }
{
    if at / 64 < words.len() {
        words[at / 64] >> (at % 64) & 1 == 1
    } else {
        false
    }
}

/// Words for the bits of all items, none of which is set.
fn no_bits(alloc: Global) -> Result<Vec<u64>, AllocError>
    ensures { IfOk result (λ words. (i : ℕ) → HasBit words.items i → ⊥) }
{
    let words = vec![in alloc; 0; WORDS]?;
    Ok(words)
}

impl Row {
    /// Sets the bit of what was done. Where its item has none, nothing is set.
    fn add(&mut self, done: Done) -> bool
        ensures node { self.new.upto ≡ self.old.upto }
        ensures set { IsTrue result → (at place : ℕ) (change : Bool) → HasMark self.new change place
            ↔ (HasMark self.old change place ⊎ IsOf place change (act_of at done)) }
        ensures none { (IsTrue result → ⊥) → self.new ≡ self.old }
    {
        let at = done.place as usize;
        if at / 64 >= self.reads.len() {
            return false;
        }
        if at / 64 >= self.changes.len() {
            return false;
        }
        if done.deed.changes() {
            set(self.changes.as_mut_slice(), at);
        } else {
            set(self.reads.as_mut_slice(), at);
        }
        true
    }

    /// Takes in what was done at this node, where the row shows all that is linked in front of it. Whether it shows
    /// what was done up to there.
    fn follow(&mut self, nodes: &[Node], last: usize) -> bool
        requires linked { AreLinked nodes.now }
        requires within { last ≤ length nodes.now }
        requires some { 0 < last }
        requires row { IsRowOf nodes.now self.old }
        ensures { IsRowOf nodes.now self.new }
    {
        if self.upto == last {
            return true;
        }
        let Some(node) = nodes.get(last - 1) else {
            return false;
        };
        if self.upto != node.before as usize {
            return false;
        }
        if self.add(node.done) {
            self.upto = last;
            return true;
        }
        false
    }
}

/// The row of what was done at this node and at those linked in front of it, if all of it has bits.
fn row_of(alloc: Global, nodes: &[Node], last: usize) -> Result<Option<Row>, AllocError>
    requires linked { AreLinked nodes.now }
    requires within { last ≤ length nodes.now }
    ensures { IfOk result (λ found. IfSome found (IsRowOf nodes.now)) }
{
    let reads = no_bits(alloc)?;
    let changes = no_bits(alloc)?;
    let mut row = Row {
        upto: last,
        reads,
        changes,
    };
    let mut at = last;
    'nodes: while at > 0 {
        match nodes.get(at - 1) {
            Some(node) => {
                if row.add(node.done) {
                    at = node.before as usize;
                } else {
                    return Ok(None);
                }
            }
            None => return Ok(None),
        }
    }
    Ok(Some(row))
}

/// One more row, if there is one, and its number or this one.
fn put(rows: &mut Vec<Row>, found: Option<Row>, number: u32) -> Result<u32, AllocError>
    ensures { (nodes : List Linked) → AreRows nodes rows.old.items → IfSome found (IsRowOf nodes)
        → AreRows nodes rows.new.items }
{
    let Some(row) = found else {
        return Ok(number);
    };
    let Ok(next) = u32::try_from(rows.len()) else {
        return Ok(number);
    };
    rows.push(row)?;
    Ok(next)
}

/// Whether the item at this place was changed, or read, up to this node, if the row of this number shows it.
#[inline(never)]
pub(crate) fn shown(
    rows: &[Row],
    number: u32,
    last: usize,
    place: usize,
    change: bool,
) -> Option<bool>
    ensures { IfSome result (λ done. (nodes : List Linked) → AreRows nodes rows.now
        → (IsTrue done ↔ Any (IsOf place change) (chain nodes last))) }
{
    let Some(row) = rows.get(number as usize) else {
        return None;
    };
    if row.upto != last {
        return None;
    }
    if change {
        return Some(has_bit(row.changes.as_slice(), place));
    }
    Some(has_bit(row.reads.as_slice(), place))
}

/// Brings the row of this number up to this node, or makes one for it; and the number of the row.
#[inline(never)]
pub(crate) fn extend(
    rows: &mut Vec<Row>,
    nodes: &[Node],
    number: u32,
    last: usize,
) -> Result<u32, AllocError>
    requires linked { AreLinked nodes.now }
    requires within { last ≤ length nodes.now }
    requires rows { AreRows nodes.now rows.old.items }
    ensures { AreRows nodes.now rows.new.items }
{
    if last == 0 {
        return Ok(number);
    }
    let at = number as usize;
    if at < rows.len() {
        if rows[at].follow(nodes, last) {
            return Ok(number);
        }
    }
    let found = row_of(*rows.allocator(), nodes, last)?;
    put(rows, found, number)
}
