//! What was done to an item, as its operations are decided one by one, and which of them the next one has to be
//! joined to. Then walks lead from and to all others that it conflicts with: over a read that stands between them,
//! over a write, or over what an older read was followed by.

ghost use Rattle.std.specs.Prelude.{◌≡◌, ◌↔◌, ◌<◌, ◌≤◌, ◌+◌, ◌⊎◌, ◌++◌, ◌∷◌, [], ℕ, suc, List, length, true, false, All, IsTrue, IfOk, OnOk};
ghost use Rattle.sgt_service_settle.specs.declared.deeds.Deed.{Deed as ADeed};
ghost use Rattle.sgt_service_settle.specs.private.Course.{IsWriteAt, IsReadAt, IsTurn, IsEnd, IsShaped, IsCourse, Fits, IsNoted, AreFrontNoted, AreBackNoted, AreReadsNoted, IsLastWriteNoted, FollowsAsIncrement, FollowsAsWrite, Follows, IsReadAdded, IsChangeAdded};

use crate::deeds::Deed;
use crate::rows::push_at;
use sgt_names::Tx;
use std::alloc::{AllocError, Global};

// For how many reads of a version the first one makes room.
const FIRST_READS: usize = 8;

/// What was done to an item by the transactions that are decided.
#[derive(Drop)]
pub struct Course {
    /// The changes, in the order of the log. That at place k changed version k.
    pub changes: Vec<Deed>,
    /// The reads of each version.
    pub reads: Vec<Vec<Deed>>,
    /// The version that the last write made, 0 where there is none.
    pub written: usize,
    /// The last version that was read, 0 where there is none.
    pub last_read: usize,
    // lists of reads of other items, whose room is used again
    spare: Vec<Vec<Deed>>,
}

/// In which step an edge was noted that comes from a transaction, and in which one that leads to it.
#[derive(Drop)]
pub struct Marks {
    pub from: Vec<usize>,
    pub to: Vec<usize>,
    pub step: usize,
}

// Whether it is the transaction's own, or has the step's mark.
fn is_noted(marks: &[usize], step: usize, tx: Tx, deed: &Deed) -> bool
    ensures { IsTrue result ↔ IsNoted marks.now step tx deed.now }
{
    if deed.tx == tx {
        return true;
    }
    match marks.get(deed.tx.number() as usize) {
        Some(mark) => *mark == step,
        None => false,
    }
}

fn are_noted(marks: &[usize], step: usize, tx: Tx, deeds: &[Deed]) -> bool
    ensures { IsTrue result ↔ All (IsNoted marks.now step tx) deeds.now }
{
    deeds.iter().all(|deed| is_noted(marks, step, tx, deed))
}

// Whether the change of this version is a write.
fn is_write_at(course: &Course, version: usize) -> bool
    ensures { IsTrue result ↔ IsWriteAt course.now version }
{
    match course.changes.get(version) {
        Some(change) => !change.increment,
        None => false,
    }
}

// Whether the version was read.
fn is_read_at(course: &Course, version: usize) -> bool
    ensures { IsTrue result → IsReadAt course.now version }
{
    let Some(reads) = course.reads.get(version) else {
        return false;
    };
    match reads.get(0) {
        Some(_) => true,
        None => false,
    }
}

// Whether what comes before the version is led on over the change of it, or over its reads.
fn is_turn(course: &Course, version: usize) -> bool
    ensures { IsTrue result → IsTurn course.now version }
{
    is_write_at(course, version)
        || is_read_at(course, version)
        || (version > 0 && is_write_at(course, version - 1))
}

// From where on changes stand directly in front of a version: those of the run of increments there that stand behind
// the last version that was read, or the write where that run is empty.
fn front_of(course: &Course, version: usize) -> usize
    ensures within { result ≤ version }
    ensures turn { (result ≡ 0) ⊎ ((result < version) × IsTurn course.now result) }
{
    for at in (0..version).rev() {
        if is_turn(course, at) {
            return at;
        }
    }
    0
}

// Up to where changes stand directly behind a version: up to and with the next write, but before the next version
// that was read.
fn back_of(course: &Course, version: usize) -> usize
    requires { version ≤ length course.now.changes.items }
    ensures from { version ≤ result }
    ensures within { result ≤ length course.now.changes.items }
    ensures end { (result ≡ length course.now.changes.items) ⊎ IsEnd course.now version result }
{
    for at in version..course.changes.len() {
        if is_write_at(course, at) || is_read_at(course, at + 1) {
            return at + 1;
        }
    }
    course.changes.len()
}

// Whether the changes directly in front of the version are noted.
fn are_front_noted(course: &Course, version: usize, tx: Tx, marks: &Marks) -> bool
    requires { version ≤ length course.now.changes.items }
    ensures { IsTrue result
        → AreFrontNoted (IsNoted marks.now.from.items marks.now.step tx) course.now version }
{
    let first = front_of(course, version);
    let front = &course.changes[first..version];
    are_noted(marks.from.as_slice(), marks.step, tx, front)
}

// Whether those directly behind it are.
fn are_back_noted(course: &Course, version: usize, tx: Tx, marks: &Marks) -> bool
    requires { version ≤ length course.now.changes.items }
    ensures { IsTrue result
        → AreBackNoted (IsNoted marks.now.to.items marks.now.step tx) course.now version }
{
    let end = back_of(course, version);
    let back = &course.changes[version..end];
    are_noted(marks.to.as_slice(), marks.step, tx, back)
}

// Whether the reads of the version are noted.
fn are_reads_noted(course: &Course, version: usize, tx: Tx, marks: &Marks) -> bool
    ensures { IsTrue result
        → AreReadsNoted (IsNoted marks.now.from.items marks.now.step tx) course.now version }
{
    match course.reads.get(version) {
        Some(reads) => are_noted(marks.from.as_slice(), marks.step, tx, reads.as_slice()),
        None => true,
    }
}

// Whether the last write is noted, if there is one.
fn is_write_noted(course: &Course, tx: Tx, marks: &Marks) -> bool
    ensures { IsTrue result
        → IsLastWriteNoted (IsNoted marks.now.from.items marks.now.step tx) course.now }
{
    if course.written == 0 {
        return true;
    }
    match course.changes.get(course.written - 1) {
        Some(write) => is_noted(marks.from.as_slice(), marks.step, tx, write),
        None => true,
    }
}

// Whether an increment follows: the last write, and the reads of the last version that was read since.
fn follows_as_increment(course: &Course, tx: Tx, marks: &Marks) -> bool
    ensures { IsTrue result
        → FollowsAsIncrement (IsNoted marks.now.from.items marks.now.step tx) course.now }
{
    is_write_noted(course, tx, marks)
        && (course.last_read < course.written
            || are_reads_noted(course, course.last_read, tx, marks))
}

// Whether a write follows: the reads of the present version, or the changes directly in front of it where there are
// none.
fn follows_as_write(course: &Course, tx: Tx, marks: &Marks) -> bool
    ensures { IsTrue result
        → FollowsAsWrite (IsNoted marks.now.from.items marks.now.step tx) course.now }
{
    let present = course.changes.len();
    are_reads_noted(course, present, tx, marks)
        && (is_read_at(course, present) || are_front_noted(course, present, tx, marks))
}

/// Whether the deed is joined to its neighbours among those before, by edges that are marked.
pub(crate) fn follows(course: &Course, deed: &Deed, marks: &Marks) -> bool
    requires { Fits course.now deed.now }
    ensures { IsTrue result → Follows (IsNoted marks.now.from.items marks.now.step deed.now.tx)
        (IsNoted marks.now.to.items marks.now.step deed.now.tx) course.now deed.now }
{
    if deed.read {
        are_front_noted(course, deed.version, deed.tx, marks)
            && are_back_noted(course, deed.version, deed.tx, marks)
    } else if deed.increment {
        follows_as_increment(course, deed.tx, marks)
    } else {
        follows_as_write(course, deed.tx, marks)
    }
}

/// Whether the deed reads a version that is there, or changes the present one.
pub(crate) fn fits(course: &Course, deed: &Deed) -> bool
    ensures { IsTrue result → Fits course.now deed.now }
{
    let present = course.changes.len();
    if deed.read {
        deed.version <= present
    } else {
        deed.version == present
    }
}

/// Nothing was done.
pub(crate) fn no_course(alloc: Global) -> Result<Course, AllocError>
    ensures { IfOk result (IsCourse []) }
{
    let mut reads = Vec::new(alloc);
    reads.push(Vec::new(alloc))?;
    Ok(Course {
        changes: Vec::new(alloc),
        reads,
        written: 0,
        last_read: 0,
        spare: Vec::new(alloc),
    })
}

// A list with nothing in it, with the room of a spare one, if there is one.
fn no_reads(alloc: Global, spare: &mut Vec<Vec<Deed>>) -> Vec<Deed>
    ensures { result.items ≡ [] }
{
    match spare.pop() {
        Some(mut reads) => {
            reads.clear();
            reads
        }
        None => Vec::new(alloc),
    }
}

/// Nothing was done. The lists of the item before are used again.
pub(crate) fn restart(alloc: Global, course: &mut Course) -> Result<(), AllocError>
    ensures { OnOk result (IsCourse [] course.new) }
{
    course.changes.clear();
    course.spare.append(&mut course.reads)?;
    course.written = 0;
    course.last_read = 0;
    let none = no_reads(alloc, &mut course.spare);
    course.reads.push(none)?;
    Ok(())
}

// Room for some reads, where there are none yet.
fn make_room(reads: &mut Vec<Deed>) -> Result<(), AllocError>
    ensures { OnOk result (reads.new.items ≡ reads.old.items) }
{
    if reads.is_empty() {
        reads.reserve(FIRST_READS)?;
    }
    Ok(())
}

fn add_read(course: &mut Course, deed: &Deed) -> Result<(), AllocError>
    requires within { deed.now.version < length course.old.reads.items }
    ensures { OnOk result (IsReadAdded course.old deed.now course.new) }
{
    let reads = &mut course.reads[deed.version];
    make_room(reads)?;
    reads.push(*deed)?;
    if course.last_read < deed.version {
        course.last_read = deed.version;
    }
    Ok(())
}

fn add_change(alloc: Global, course: &mut Course, deed: &Deed) -> Result<(), AllocError>
    ensures { OnOk result (IsChangeAdded course.old deed.now course.new) }
{
    let none = no_reads(alloc, &mut course.spare);
    course.reads.push(none)?;
    course.changes.push(*deed)?;
    if !deed.increment {
        course.written = course.changes.len();
    }
    Ok(())
}

/// Adds the deed.
pub(crate) fn add(alloc: Global, course: &mut Course, deed: &Deed) -> Result<(), AllocError>
    requires shaped { IsShaped course.old }
    requires fits { Fits course.old deed.now }
    ensures { OnOk result
        ((done : List ADeed) → IsCourse done course.old
        → IsCourse (done ++ deed.now ∷ []) course.new) }
{
    if deed.read {
        add_read(course, deed)
    } else {
        add_change(alloc, course, deed)
    }
}
