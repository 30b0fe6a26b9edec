//! The lines of scripts, read exactly where they are spelled.

ghost use Rattle.std.specs.Prelude.{◌≡◌, ◌≢◌, ◌↔◌, List, [], Any, All, IfSome, IfNone, IsTrue, map};
ghost use Rattle.sgt_notation.specs.PrivateEvents.{words};
ghost use Rattle.sgt_notation.specs.PrivateScripts.{IsAim, IsTail, IsTotal, KeepsAll, KeepsScript, aim_text, parts_of, tail_text, total_text};
ghost use Rattle.sgt_notation.specs.Reading.{Finds};
ghost use Rattle.sgt_notation.specs.Scripts.{AreSourcesNamed, HasSource, IsOp, Names, ReadsScript, op_text};
ghost use Rattle.sgt_notation.specs.declared.script.Op.{Op as AnOp};

use crate::fault::NotationFault;
use crate::number::find_value;
use crate::reading::cut;
use crate::reading_events::{Place, find_place};
use crate::reading_sites::first_word;
use crate::script::{Op, Script};
use sgt_names::{Item, Listed, MAX_LINE, SiteNo, Value};
use std::alloc::Global;
use std::collections::BTreeMap;

/// What stands behind the place of an operation and its bracket.
#[derive(Clone, Copy)]
enum Tail {
    Nothing,
    /// `=NUM`
    Number(Value),
    /// `=SITE.NAME+NUM`
    Total(Place, Value),
}

/// Reads `SITE.NAME+NUM`.
fn find_total(bytes: &[u8]) -> Option<(Place, Value)>
    ensures { Finds IsTotal total_text bytes.now result }
{
    let (source, number) = cut(bytes, b'+')?;
    let place = find_place(source)?;
    let value = find_value(number)?;
    Some((place, value))
}

/// Reads nothing, `=NUM` or `=SITE.NAME+NUM`.
fn find_tail(bytes: &[u8]) -> Option<Tail>
    ensures { Finds IsTail tail_text bytes.now result }
{
    let Some((first, rest)) = bytes.split_first() else {
        return Some(Tail::Nothing);
    };
    if *first != b'=' {
        return None;
    }
    if let Some(value) = find_value(rest) {
        return Some(Tail::Number(value));
    }
    find_total(rest).map(|(place, value)| Tail::Total(place, value))
}

/// Reads `[SITE.NAME]` and a tail.
fn find_aim(bytes: &[u8]) -> Option<(Place, Tail)>
    ensures { Finds IsAim aim_text bytes.now result }
{
    let (bracket, inside) = bytes.split_first()?;
    if *bracket != b'[' {
        return None;
    }
    let (front, behind) = cut(inside, b']')?;
    let place = find_place(front)?;
    let tail = find_tail(behind)?;
    Some((place, tail))
}

/// The operation of this letter and what stands behind it.
fn op_of(letter: u8, place: Place, tail: Tail) -> Option<Op>
    ensures some { IfSome result (λ op. parts_of op ≡ (letter, (place, tail))) }
    ensures none { IfNone result ((op : AnOp) → parts_of op ≢ (letter, (place, tail))) }
{
    let (site, item) = place;
    match tail {
        Tail::Nothing => match letter {
            b'r' => Some(Op::Read { site, item }),
            _ => None,
        },
        Tail::Number(value) => match letter {
            b'w' => Some(Op::Put { site, item, value }),
            b'd' => Some(Op::Add { site, item, value }),
            _ => None,
        },
        Tail::Total((from_site, from_item), value) => match letter {
            b'w' => Some(Op::Sum {
                site,
                item,
                from_site,
                from_item,
                value,
            }),
            _ => None,
        },
    }
}

/// Reads an operation.
fn find_op(word: &[u8]) -> Option<Op>
    ensures { Finds IsOp op_text word.now result }
{
    let (letter, rest) = word.split_first()?;
    let (place, tail) = find_aim(rest)?;
    op_of(*letter, place, tail)
}

/// Keeps the operations that the words of the line spell: whether there was room for all. `None` where they spell none.
fn keep_ops(ops: &mut Vec<Op>, line: &[u8]) -> Option<bool>
    requires { ops.old.items ≡ [] }
    ensures some { IfSome result (KeepsAll (words line.now) ops.new.items) }
    ensures none { IfNone result
        ((os : List AnOp) → All IsOp os → words line.now ≢ map op_text os) }
{
    let mut rest = Some(line);
    let mut kept = true;
    'words: while let Some(text) = rest {
        let (word, more) = first_word(text);
        let op = find_op(word)?;
        if ops.push(op).is_err() {
            kept = false;
        }
        rest = more;
    }
    Some(kept)
}

/// Whether the operation reads the item or is to write it.
fn is_naming(op: &Op, site: SiteNo, item: Item) -> bool
    ensures { IsTrue result ↔ Names site item op.now }
{
    match op {
        Op::Read { site: at, item: of }
        | Op::Put {
            site: at,
            item: of,
            ..
        }
        | Op::Sum {
            site: at,
            item: of,
            ..
        } => *at == site && *of == item,
        Op::Add { .. } => false,
    }
}

/// Where an operation stands that names the item of the site. Nothing need be known of the places.
#[derive(Drop)]
struct Naming {
    places: BTreeMap<(SiteNo, Item), usize>,
}

impl Naming {
    fn new(alloc: Global) -> Naming {
        Naming {
            places: BTreeMap::new(alloc),
        }
    }

    /// Notes the operation at the place. Where memory is refused it isn't noted.
    fn note(&mut self, op: &Op, place: usize) {
        match op {
            Op::Read { site, item } | Op::Put { site, item, .. } | Op::Sum { site, item, .. } => {
                let _ = self.places.insert((*site, *item), place);
            }
            Op::Add { .. } => {}
        }
    }

    fn place(&self, site: SiteNo, item: Item) -> usize {
        match self.places.get(&(site, item)) {
            Some(place) => *place,
            None => 0,
        }
    }
}

fn is_named_at(earlier: &[Op], place: usize, site: SiteNo, item: Item) -> bool
    ensures { IsTrue result → Any (Names site item) earlier.now }
{
    match earlier.get(place) {
        Some(op) => is_naming(op, site, item),
        None => false,
    }
}

/// Whether one of the earlier operations names the item. The noted place is tried first.
fn is_named(earlier: &[Op], naming: &Naming, site: SiteNo, item: Item) -> bool
    ensures { IsTrue result ↔ Any (Names site item) earlier.now }
{
    is_named_at(earlier, naming.place(site, item), site, item)
        || earlier.iter().any(|e| is_naming(e, site, item))
}

/// Whether one of the earlier operations names the source, if this is a sum.
fn has_source(earlier: &[Op], naming: &Naming, op: &Op) -> bool
    ensures { IsTrue result ↔ HasSource earlier.now op.now }
{
    match op {
        Op::Sum {
            from_site,
            from_item,
            ..
        } => is_named(earlier, naming, *from_site, *from_item),
        _ => true,
    }
}

/// Whether the source of each sum is named before it. A search of the items that are named for each, and of the
/// operations where that finds none.
fn are_sources_named(alloc: Global, ops: &[Op]) -> bool
    ensures { IsTrue result ↔ AreSourcesNamed ops.now }
{
    let mut naming = Naming::new(alloc);
    for n in 0..ops.len() {
        if !has_source(&ops[..n], &naming, &ops[n]) {
            return false;
        }
        naming.note(&ops[n], n);
    }
    true
}

/// Keeps the operations of the line, if it spells a script.
fn keep_script(alloc: Global, ops: &mut Vec<Op>, line: &[u8]) -> Result<(), NotationFault>
    requires { ops.old.items ≡ [] }
    ensures { KeepsScript line.now ops.new.items result }
{
    if line.len() > MAX_LINE {
        return Err(NotationFault::TooLong);
    }
    let Some(kept) = keep_ops(ops, line) else {
        return Err(NotationFault::NotALine);
    };
    if !kept {
        return Err(NotationFault::Memory);
    }
    if !are_sources_named(alloc, ops.as_slice()) {
        return Err(NotationFault::NotALine);
    }
    Ok(())
}

/// The script that this line, without its LF, spells: one or more operations with single spaces between, each
/// `r[SITE.NAME]`,
/// `w[SITE.NAME]=NUM`, `d[SITE.NAME]=NUM` or `w[SITE.NAME]=SITE.NAME+NUM`. The source of a sum stands in an earlier `r` or `w` of
/// the line. L2 for a line that is too long, and L1 for any other line. L3 where a growth was refused: only of a line
/// that spells operations. Each source is looked for by the item, in the logarithm of those that are named.
pub fn read_script(alloc: Global, line: &[u8]) -> Result<Script, NotationFault>
    ensures { ReadsScript line.now result }
{
    let mut ops = Vec::new(alloc);
    keep_script(alloc, &mut ops, line)?;
    Ok(Script {
        operations: Listed::new(ops),
    })
}
