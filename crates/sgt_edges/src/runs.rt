//! The neighbours of a draft's operations: of the committed transactions that wrote or read an item, those directly
//! in front of and behind a version, and those that a change follows.

ghost use Rattle.std.specs.Prelude.{◌≡◌, ◌↔◌, ◌≤◌, ◌<◌, ◌-◌, ◌⊎◌, ℕ, List, suc, true, false, Some, ltb, length, slice_get, AllPairs, Contains, IsTrue};
ghost use Rattle.std.specs.List.Sorted.{IsPartitionPoint};
ghost use Rattle.sgt_names.specs.Name.{Name};
ghost use Rattle.sgt_site.specs.State.{SiteState, IsVersionWritten};
ghost use Rattle.sgt_site.specs.declared.cell.Reader.{Reader as CommittedReader};
ghost use Rattle.sgt_site.specs.declared.cell.Writer.{Writer as CommittedWriter};
ghost use Rattle.sgt_edges.specs.Edges.{HaveOwnHandles};
ghost use Rattle.sgt_edges.specs.Neighbours.{IsInFront, IsBehind, IsLastWrite, IsLastReader};
ghost use Rattle.sgt_edges.specs.private.Gathered.{AreWriters, AreAccesses, AreOrdered, IsRunLength, IsBeforeWrite, ChangesBefore, ReadsBefore, WritersApart, ReadersApart};

use sgt_names::{Change, Item};
use sgt_site::{Accesses, Reader, Site, Writer};

/// Who wrote the item and who read it. One that isn't at the site has neither.
pub(crate) fn accesses_at(site: &Site, item: Item) -> Accesses<'_>
    ensures are { AreAccesses site.now item result.writers.now result.readers.now }
    ensures ordered { AreOrdered result.writers.now result.readers.now }
    ensures written { IsVersionWritten result.writers.now result.version_written }
    ensures writers_apart { HaveOwnHandles site.now → WritersApart result.writers.now }
    ensures readers_apart { HaveOwnHandles site.now → ReadersApart result.readers.now }
{
    match site.accesses(item) {
        Ok(found) => found,
        Err(_) => Accesses {
            writers: &[],
            version_written: 0,
            readers: &[],
        },
    }
}

// The greatest version below this one that was read, 0 where there is none.
fn read_below(readers: &[Reader], version: u64) -> u64
    requires { AllPairs (λ a b. a.version ≤ b.version) readers.now }
    ensures below { (result ≡ 0) ⊎ (result < version) }
    ensures read { (result ≡ 0)
        ⊎ ((r : CommittedReader) × Contains readers.now r × (r.version ≡ result)) }
    ensures unread { (r : CommittedReader) → Contains readers.now r → suc result ≤ r.version
        → r.version < version → ⊥ }
{
    let older = older_readers(readers, version);
    match readers[..older].last() {
        Some(r) => r.version,
        None => 0,
    }
}

// How many of the readers read an older version, by a binary search.
fn older_readers(readers: &[Reader], version: u64) -> usize
    requires { AllPairs (λ a b. a.version ≤ b.version) readers.now }
    ensures within { result ≤ length readers.now }
    ensures point { IsPartitionPoint (λ r. ltb r.version version ≡ true)
        (λ r. ltb r.version version ≡ false) readers.now result }
{
    readers.partition_point(|r| r.version < version)
}

// The least version above this one that was read, or the present one where there is none.
fn read_above(readers: &[Reader], version: u64, present: u64) -> u64
    requires by_version { AllPairs (λ a b. a.version ≤ b.version) readers.now }
    requires reached { (r : CommittedReader) → Contains readers.now r → r.version ≤ present }
    requires below { version < present }
    ensures above { version < result }
    ensures upto { result ≤ present }
    ensures read { (result ≡ present)
        ⊎ ((r : CommittedReader) × Contains readers.now r × (r.version ≡ result)) }
    ensures unread { (r : CommittedReader) → Contains readers.now r → suc version ≤ r.version
        → r.version < result → ⊥ }
{
    let older = older_readers(readers, version + 1);
    match readers[older..].first() {
        Some(r) => r.version,
        None => present,
    }
}

// Whether the present version was read.
fn is_read(readers: &[Reader], present: u64) -> bool
    requires by_version { AllPairs (λ a b. a.version ≤ b.version) readers.now }
    requires reached { (r : CommittedReader) → Contains readers.now r → r.version ≤ present }
    ensures { IsTrue result
        ↔ ((r : CommittedReader) × Contains readers.now r × (r.version ≡ present)) }
{
    match readers.last() {
        Some(r) => r.version == present,
        None => false,
    }
}

/// Of an item's writers those directly in front of a version: the increments of the run there since the last read of
/// an older version, or the write at its beginning where it is empty.
#[inline(always)]
pub(crate) fn in_front<'a>(writers: &'a [Writer], readers: &[Reader], version: u64) -> &'a [Writer]
    requires by_version { AllPairs (λ a b. a.version ≤ b.version) readers.now }
    requires known { version ≤ length writers.now }
    ensures neighbours { (s : SiteState) (x : Name) → AreAccesses s x writers.now readers.now
        → (w : CommittedWriter)
        → Contains result.now w ↔ ((k : ℕ) × IsInFront s x version k w) }
    ensures apart { WritersApart writers.now → WritersApart result.now }
{
    let before = &writers[..version as usize];
    if !ends_with_increment(before) {
        return &before[before.len().saturating_sub(1)..];
    }
    let unread = &before[read_below(readers, version) as usize..];
    &unread[last_written(unread)..]
}

// Whether the last of the writers added to the item.
fn ends_with_increment(writers: &[Writer]) -> bool
    ensures { IsTrue result
        ↔ ((w : CommittedWriter) × (slice_get writers.now (length writers.now - 1) ≡ Some w)
        × (w.increment ≡ true)) }
{
    match writers.last() {
        Some(w) => w.increment,
        None => false,
    }
}

// How many of the writers come up to and with the last write.
fn last_written(writers: &[Writer]) -> usize
    ensures { IsVersionWritten writers.now result }
{
    match writers.iter().rposition(|w| !w.increment) {
        Some(at) => at + 1,
        None => 0,
    }
}

/// Of an item's writers those from a version on, up to and with the next write, but none behind the next version that
/// was read.
pub(crate) fn behind<'a>(writers: &'a [Writer], readers: &[Reader], version: u64) -> &'a [Writer]
    requires ordered { AreOrdered writers.now readers.now }
    requires known { version ≤ length writers.now }
    ensures neighbours { (s : SiteState) (x : Name) → AreAccesses s x writers.now readers.now
        → (w : CommittedWriter)
        → Contains result.now w ↔ ((k : ℕ) × IsBehind s x version k w) }
    ensures apart { WritersApart writers.now → WritersApart result.now }
{
    let present = writers.len() as u64;
    if version == present {
        return &[];
    }
    let upto = read_above(readers, version, present);
    let after = &writers[version as usize..upto as usize];
    let run = run_length(after);
    if run < after.len() {
        &after[..run + 1]
    } else {
        after
    }
}

// How many of the writers come before the first write.
fn run_length(writers: &[Writer]) -> usize
    ensures { IsRunLength writers.now result }
{
    match writers.iter().position(|w| !w.increment) {
        Some(at) => at,
        None => writers.len(),
    }
}

/// Of the item's writers those that a change has its edges from: for a write those directly in front of it, but no
/// increment where the present version was read, and for an increment the last write.
pub(crate) fn changes_before<'a>(item: &Accesses<'a>, change: Change) -> &'a [Writer]
    requires ordered { AreOrdered item.now.writers.now item.now.readers.now }
    requires written { IsVersionWritten item.now.writers.now item.now.version_written }
    ensures before { (s : SiteState) (x : Name)
        → AreAccesses s x item.now.writers.now item.now.readers.now → (w : CommittedWriter)
        → Contains result.now w ↔ ChangesBefore s x change w }
    ensures apart { WritersApart item.now.writers.now → WritersApart result.now }
{
    match change {
        Change::Put(_) => before_write(item.writers, item.readers),
        Change::Add(_) => last_write(item.writers, item.version_written),
    }
}

// Of the item's writers those that a write has its edges from.
fn before_write<'a>(writers: &'a [Writer], readers: &[Reader]) -> &'a [Writer]
    requires { AreOrdered writers.now readers.now }
    ensures before { (s : SiteState) (x : Name) → AreAccesses s x writers.now readers.now
        → (w : CommittedWriter)
        → Contains result.now w ↔ ((k : ℕ) × IsBeforeWrite s x k w) }
    ensures apart { WritersApart writers.now → WritersApart result.now }
{
    let present = writers.len() as u64;
    if ends_with_increment(writers) && is_read(readers, present) {
        &[]
    } else {
        in_front(writers, readers, present)
    }
}

// Of the item's writers the last one that is a write, if there is one.
fn last_write(writers: &[Writer], written: u64) -> &[Writer]
    requires { IsVersionWritten writers.now written }
    ensures last { (s : SiteState) (x : Name) → AreWriters s x writers.now → (w : CommittedWriter)
        → Contains result.now w ↔ ((k : ℕ) × IsLastWrite s x k w) }
    ensures apart { WritersApart writers.now → WritersApart result.now }
{
    let upto = written as usize;
    &writers[upto.saturating_sub(1)..upto]
}

/// The readers that a change has its edges from: for a write those of the present version, for an increment those of
/// the last version that was read, if it was read since the last write.
pub(crate) fn reads_before<'a>(item: &Accesses<'a>, change: Change) -> &'a [Reader]
    requires ordered { AreOrdered item.now.writers.now item.now.readers.now }
    requires written { IsVersionWritten item.now.writers.now item.now.version_written }
    ensures before { (s : SiteState) (x : Name)
        → AreAccesses s x item.now.writers.now item.now.readers.now → (r : CommittedReader)
        → Contains result.now r ↔ ReadsBefore s x change r }
    ensures apart { ReadersApart item.now.readers.now → ReadersApart result.now }
{
    match change {
        Change::Put(_) => readers_since(item.readers, item.writers.len() as u64),
        Change::Add(_) => last_readers(item.readers, item.version_written),
    }
}

// The readers of the last version that was read, if it was read since the last write.
fn last_readers(readers: &[Reader], written: u64) -> &[Reader]
    requires { AllPairs (λ a b. a.version ≤ b.version) readers.now }
    ensures last { (s : SiteState) (x : Name) (writers : List CommittedWriter)
        → AreAccesses s x writers readers.now → IsVersionWritten writers written
        → (r : CommittedReader) → Contains result.now r ↔ IsLastReader s x r }
    ensures apart { ReadersApart readers.now → ReadersApart result.now }
{
    let Some(last) = readers.last() else {
        return &[];
    };
    if last.version < written {
        return &[];
    }
    readers_since(readers, last.version)
}

// The readers of this version and of later ones.
fn readers_since(readers: &[Reader], version: u64) -> &[Reader]
    requires { AllPairs (λ a b. a.version ≤ b.version) readers.now }
    ensures since { (r : CommittedReader)
        → Contains result.now r ↔ (Contains readers.now r × (version ≤ r.version)) }
    ensures apart { ReadersApart readers.now → ReadersApart result.now }
{
    match readers.iter().rposition(|r| r.version < version) {
        Some(at) => &readers[at + 1..],
        None => readers,
    }
}
