//! The entries that the steps of walks are about, found in one pass over the logs.

ghost use Rattle.std.specs.Prelude.{◌≡◌, ◌<◌, ◌≤◌, ◌%◌, ◌⊎◌, ℕ, List, Bool, true, false, Some, IfOk, IfSome, IfNone, IsSome, IsTrue, OnOk, get_or, length, slice_get};
ghost use Rattle.sgt_names.specs.Name.{Name};
ghost use Rattle.sgt_names.specs.Entry.{tx_of, item_of, Reads, Writes};
ghost use Rattle.sgt_notation.specs.Spelling.{line_text, IsLine};
ghost use Rattle.sgt_notation.specs.declared.SectionLine.{SectionLine};
ghost use Rattle.sgt_bundle.specs.declared.certificate.Step.{Step};
ghost use Rattle.sgt_bundle.specs.declared.certificate.Decision.TheVariants.{Refuse};
ghost use Rattle.sgt_explain_lines.specs.Numbered.{site_behind};
ghost use Rattle.sgt_explain_lines.specs.Sited.{HasBefore};
ghost use Rattle.sgt_explain_decisions.specs.declared.sought.Found.{Found};
ghost use Rattle.sgt_explain_decisions.specs.Sought.{Key, found_at, AreFoundIn, AreFound, AreSoughtFor, WalksAreSought, IsSoughtFor, key_of, found_of, begun_by, ended_by, nothing};
ghost use Rattle.sgt_explain_decisions.specs.Sought.{AreUnfound, IsUnfound, KeepsKeys, Seeks, PutsAt, IsWith, TakesPlace, TakesOne, FindsOne, FindsFirst, FindsAny, AreMarked};

use sgt_bundle::{Decision, Step};
use sgt_explain_lines::{Logged, cut_line, entry_of};
use sgt_names::{Entry, Item, Kind, Tx};
use sgt_notation::{SectionLine, front_line};
use std::alloc::{AllocError, Global};
use std::collections::BTreeMap;

/// What was found of a transaction on an item of a site: its read of it, and its change of it,
/// made or asked for.
#[derive(Clone, Copy)]
pub struct Found {
    pub read: Option<Logged>,
    pub change: Option<Logged>,
}

/// What the steps of walks are about: the site, the item and the transaction, with what was found.
#[derive(Drop)]
pub struct Sought {
    pub found: BTreeMap<(u8, Item, Tx), Found>,
}

// Into so many classes transactions are put by their numbers.
const CLASSES: usize = 65536;

fn nothing() -> Found
    ensures { result ≡ nothing }
{
    Found {
        read: None,
        change: None,
    }
}

/// With an entry of the transaction on the item.
fn with_entry(found: Found, line: u64, entry: Entry) -> Found
    ensures read { (x : Name) → item_of entry ≡ Some x
        → TakesPlace (Reads x entry) (record { line = line; entry = entry }) found.read result.read }
    ensures change { (x : Name) → item_of entry ≡ Some x
        → TakesPlace (Writes x entry) (record { line = line; entry = entry }) found.change result.change }
{
    let logged = Some(Logged { line, entry });
    match &entry {
        Entry::Read { .. } => Found {
            read: logged,
            ..found
        },
        Entry::Write { .. } | Entry::Add { .. } | Entry::Want { .. } | Entry::WantAdd { .. } => {
            Found {
                change: logged,
                ..found
            }
        }
        Entry::Commit { .. } | Entry::Refuse { .. } | Entry::Withdraw { .. } => found,
    }
}

/// Puts at the key what was found, with an entry where one is given.
fn put(
    sought: &mut Sought,
    key: (u8, Item, Tx),
    found: Found,
    given: &Option<Logged>,
) -> Result<(), AllocError>
    ensures none { IfNone given.now (OnOk result (PutsAt key found sought.old sought.new)) }
    ensures some { IfSome given.now (λ l. OnOk result ((more : Found) × IsWith l found more
        × PutsAt key more sought.old sought.new)) }
{
    match given {
        Some(logged) => {
            let more = with_entry(found, logged.line, logged.entry);
            sought.found.insert(key, more)?;
        }
        None => {
            sought.found.insert(key, found)?;
        }
    }
    Ok(())
}

/// Marks the class of the transaction.
fn mark(classes: &mut Vec<bool>, tx: Tx)
    requires { length classes.old.items ≡ 65536 }
    ensures length { length classes.new.items ≡ 65536 }
    ensures own { get_or classes.new.items (tx % 65536) false ≡ true }
    ensures kept { (n : ℕ) → get_or classes.old.items n false ≡ true
        → get_or classes.new.items n false ≡ true }
{
    classes[tx.number() as usize % CLASSES] = true;
}

/// Whether the class of the transaction is marked.
fn is_marked(classes: &[bool], tx: Tx) -> bool
    requires { length classes.now ≡ 65536 }
    ensures { result ≡ get_or classes.now (tx % 65536) false }
{
    classes[tx.number() as usize % CLASSES]
}

/// Seeks the transaction on the item of a step.
fn seek_one(
    sought: &mut Sought,
    classes: &mut Vec<bool>,
    step: &Step,
    tx: Tx,
) -> Result<(), AllocError>
    requires { length classes.old.items ≡ 65536 }
    ensures length { length classes.new.items ≡ 65536 }
    ensures seeks { OnOk result
        (Seeks sought.old classes.old.items sought.new classes.new.items) }
    ensures own { OnOk result (IsSome (found_at sought.new (key_of step.now tx))) }
{
    let site = step.label.site.number();
    let item = step.label.item;
    mark(classes, tx);
    put(sought, (site, item, tx), nothing(), &None)
}

/// Seeks both transactions of a step on its item.
fn seek(
    sought: &mut Sought,
    classes: &mut Vec<bool>,
    step: &Step,
    from: Tx,
) -> Result<(), AllocError>
    requires { length classes.old.items ≡ 65536 }
    ensures length { length classes.new.items ≡ 65536 }
    ensures seeks { OnOk result
        (Seeks sought.old classes.old.items sought.new classes.new.items) }
    ensures both { OnOk result (IsSoughtFor sought.new from step.now) }
{
    seek_one(sought, classes, step, from)?;
    seek_one(sought, classes, step, step.to)
}

/// Seeks what the steps of a walk from this transaction are about.
fn add_walk(
    sought: &mut Sought,
    classes: &mut Vec<bool>,
    tx: Tx,
    walk: &[Step],
) -> Result<(), AllocError>
    requires { length classes.old.items ≡ 65536 }
    ensures length { length classes.new.items ≡ 65536 }
    ensures seeks { OnOk result
        (Seeks sought.old classes.old.items sought.new classes.new.items) }
    ensures walk { OnOk result (AreSoughtFor sought.new tx walk.now (length walk.now)) }
{
    let mut from = tx;
    for step in walk {
        seek(sought, classes, step, from)?;
        from = step.to;
    }
    Ok(())
}

/// The same of the walk of a decision, if it is a refusal.
fn add_walk_of(
    sought: &mut Sought,
    classes: &mut Vec<bool>,
    decision: &Decision,
) -> Result<(), AllocError>
    requires { length classes.old.items ≡ 65536 }
    ensures length { length classes.new.items ≡ 65536 }
    ensures seeks { OnOk result
        (Seeks sought.old classes.old.items sought.new classes.new.items) }
    ensures walk { (tx : ℕ) (walk : List Step) → decision.now ≡ Refuse tx walk
        → OnOk result (AreSoughtFor sought.new tx walk (length walk)) }
{
    match decision {
        Decision::Refuse { tx, walk } => add_walk(sought, classes, *tx, walk.as_slice()),
        _ => Ok(()),
    }
}

/// Puts an entry where it is sought.
fn take(sought: &mut Sought, classes: &[bool], site: u8, logged: Logged) -> Result<(), AllocError>
    requires { length classes.now ≡ 65536 }
    ensures { AreMarked sought.old classes.now
        → OnOk result (TakesOne site logged sought.old sought.new) }
{
    let Some(item) = logged.entry.item() else {
        return Ok(());
    };
    let tx = logged.entry.tx();
    if !is_marked(classes, tx) {
        return Ok(());
    }
    match sought.found.get(&(site, item, tx)).copied() {
        Some(found) => put(sought, (site, item, tx), found, &Some(logged)),
        None => Ok(()),
    }
}

/// Finds in a line what is sought. Lines 1 and 2 have none.
fn find_in(
    sought: &mut Sought,
    classes: &[bool],
    site: &mut u8,
    line: u64,
    text: &[u8],
) -> Result<(), AllocError>
    requires length { length classes.now ≡ 65536 }
    requires marked { AreMarked sought.old classes.now }
    ensures head { line ≤ 2 → (sought.new ≡ sought.old) × (site.new ≡ site.old) }
    ensures spelled { 2 < line → (read : SectionLine) → IsLine read → text.now ≡ line_text read
        → OnOk result ((site.new ≡ site_behind site.old read)
        × FindsOne site.new line read sought.old sought.new) }
    ensures any { OnOk result (FindsAny sought.old sought.new) }
{
    if line <= 2 {
        return Ok(());
    }
    match entry_of(site, text) {
        Some(entry) => take(sought, classes, *site, Logged { line, entry }),
        None => Ok(()),
    }
}

/// The same, of a line of a section that was read.
fn find_read(
    sought: &mut Sought,
    classes: &[bool],
    site: &mut u8,
    line: u64,
    read: &SectionLine,
) -> Result<(), AllocError>
    requires length { length classes.now ≡ 65536 }
    requires marked { AreMarked sought.old classes.now }
    ensures read { OnOk result ((site.new ≡ site_behind site.old read.now)
        × FindsOne site.new line read.now sought.old sought.new) }
    ensures any { OnOk result (FindsAny sought.old sought.new) }
{
    match read {
        SectionLine::Site(begun) => {
            *site = begun.number();
            Ok(())
        }
        SectionLine::Logged(entry) => take(
            sought,
            classes,
            *site,
            Logged {
                line,
                entry: *entry,
            },
        ),
        SectionLine::Initial(_) | SectionLine::Final(_) | SectionLine::End => Ok(()),
    }
}

/// Finds in the first line what is sought: what stands behind it. A line of a section that is found at the front is
/// read once, each other one is cut off first.
fn find_first<'a>(
    sought: &mut Sought,
    classes: &[bool],
    site: &mut u8,
    line: u64,
    bytes: &'a [u8],
) -> Result<&'a [u8], AllocError>
    requires length { length classes.now ≡ 65536 }
    requires marked { AreMarked sought.old classes.now }
    ensures first { IfOk result (λ behind. FindsFirst line bytes.now behind.now site.old site.new sought.old
        sought.new) }
    ensures any { IfOk result (λ _. FindsAny sought.old sought.new) }
{
    if line > 2 {
        if let Some((read, n)) = front_line(bytes) {
            find_read(sought, classes, site, line, &read)?;
            return Ok(&bytes[n..]);
        }
    }
    let (text, behind) = cut_line(bytes);
    find_in(sought, classes, site, line, text)?;
    Ok(behind)
}

/// Finds what is sought in the logs of the text.
fn find_all(sought: &mut Sought, classes: &[bool], bytes: &[u8]) -> Result<(), AllocError>
    requires length { length classes.now ≡ 65536 }
    requires marked { AreMarked sought.old classes.now }
    requires unfound { AreUnfound sought.old }
    ensures found { OnOk result (AreFound sought.new) }
    ensures keys { OnOk result (KeepsKeys sought.old sought.new) }
    ensures lines { (lines : List SectionLine) → HasBefore bytes.now 18446744073709551615 lines
        → OnOk result (AreFoundIn lines (length lines) sought.new) }
{
    let mut rest = bytes;
    let mut site = 0u8;
    for line in 1..u64::MAX {
        rest = find_first(sought, classes, &mut site, line, rest)?;
        if rest.is_empty() {
            return Ok(());
        }
    }
    Ok(())
}

/// What the walks of all refusals are about, with nothing found, and the classes of the transactions.
fn unfound_in(alloc: Global, decisions: &[Decision]) -> Result<(Sought, Vec<bool>), AllocError>
    ensures { IfOk result (λ s. IsUnfound decisions.now s.0 s.1.items) }
{
    let mut sought = Sought {
        found: BTreeMap::new(alloc),
    };
    let mut classes = vec![in alloc; false; CLASSES]?;
    for decision in decisions {
        add_walk_of(&mut sought, &mut classes, decision)?;
    }
    Ok((sought, classes))
}

/// What the walks of all refusals are about, each with its entries in the logs of the text. Where
/// there is no refusal, the text isn't gone over.
pub fn sought_in(alloc: Global, decisions: &[Decision], bytes: &[u8]) -> Result<Sought, AllocError>
    ensures found { IfOk result AreFound }
    ensures walks { IfOk result (λ s. WalksAreSought s decisions.now (length decisions.now)) }
    ensures lines { (lines : List SectionLine) → HasBefore bytes.now 18446744073709551615 lines
        → IfOk result (AreFoundIn lines (length lines)) }
{
    let (mut sought, classes) = unfound_in(alloc, decisions)?;
    if sought.found.is_empty() {
        return Ok(sought);
    }
    find_all(&mut sought, classes.as_slice(), bytes)?;
    Ok(sought)
}

/// What was found of the transaction on the item of a step.
pub(crate) fn found_of(sought: &Sought, step: &Step, tx: Tx) -> Found
    ensures { result ≡ found_of sought.now step.now tx }
{
    let key = (step.label.site.number(), step.label.item, tx);
    match sought.found.get(&key) {
        Some(found) => *found,
        None => nothing(),
    }
}

/// The entry of the transaction that a step of this kind begins with.
pub(crate) fn first_of(found: &Found, kind: Kind) -> Option<Logged>
    ensures { result ≡ begun_by kind found.now }
{
    match kind {
        Kind::Rw => found.read,
        Kind::Wr | Kind::Ww => found.change,
    }
}

/// The entry of the transaction that a step of this kind ends with.
pub(crate) fn second_of(found: &Found, kind: Kind) -> Option<Logged>
    ensures { result ≡ ended_by kind found.now }
{
    match kind {
        Kind::Wr => found.read,
        Kind::Rw | Kind::Ww => found.change,
    }
}
