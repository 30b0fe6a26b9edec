//! Which names are of one file.

ghost use Rattle.std.specs.Prelude.{◌≡◌, ◌↔◌, ℕ, List, IsTrue, IfNone, IfSome};
ghost use Rattle.sgt_status.specs.Places.{IsSame, IsSameFile, IsTaken};
ghost use Rattle.sgt_status.specs.Same.{IsOver, IsOverwritten, IsTwice, MayBeSame};

/// A file or a folder, whatever its names: its device, and its number there.
#[derive(Clone, Copy, Debug, PartialEq, Eq)]
pub struct FileId {
    pub device: u64,
    pub number: u64,
}

/// A name, and what the system says of it: the file that is there, if one is; the folder that it is in; and what it is
/// called there.
#[derive(Clone, Copy, Drop)]
pub struct Place<'a> {
    pub name: &'a str,
    pub file: Option<FileId>,
    pub folder: Option<FileId>,
    pub inner: &'a str,
}

fn is_same(one: FileId, other: FileId) -> bool
    ensures { IsTrue result ↔ IsSame one other }
{
    one.device == other.device && one.number == other.number
}

// Whether both are there and are one.
fn are_same(one: Option<FileId>, other: Option<FileId>) -> bool
    ensures { IsTrue result ↔ IsSameFile one other }
{
    match (one, other) {
        (Some(one), Some(other)) => is_same(one, other),
        _ => false,
    }
}

fn is_text(one: &str, other: &str) -> bool
    ensures { IsTrue result ↔ (one.now ≡ other.now) }
{
    one == other
}

// Whether the file of this place is one of those that are taken.
fn is_taken(place: &Place<'_>, taken: &[FileId]) -> bool
    ensures { IsTrue result ↔ IsTaken place.now.file taken.now }
{
    let Some((first, behind)) = taken.split_first() else {
        return false;
    };
    if are_same(place.file, Some(*first)) {
        return true;
    }
    is_taken(place, behind)
}

// Whether the names are of one file, which may not be there yet.
fn may_be_same(one: &Place<'_>, other: &Place<'_>) -> bool
    ensures { IsTrue result ↔ MayBeSame one.now other.now }
{
    if are_same(one.file, other.file) {
        return true;
    }
    are_same(one.folder, other.folder) && is_text(one.inner, other.inner)
}

// The name of this place, where it is written and its file is taken.
fn over<'a>(place: Option<Place<'a>>, taken: &[FileId]) -> Option<&'a str>
    ensures some { IfSome result (λ name. IsOver place.entry taken.now name.now) }
    ensures none { IfNone result ((name : List ℕ) → IsOver place.entry taken.now name → ⊥) }
{
    let place = place?;
    if is_taken(&place, taken) {
        return Some(place.name);
    }
    None
}

// The name of the second place, where both are written and may be of one file.
fn twice<'a>(one: Option<Place<'a>>, other: Option<Place<'a>>) -> Option<&'a str>
    ensures some { IfSome result (λ name. IsTwice one.entry other.entry name.now) }
    ensures none { IfNone result ((name : List ℕ) → IsTwice one.entry other.entry name → ⊥) }
{
    let (one, other) = (one?, other?);
    if may_be_same(&one, &other) {
        return Some(other.name);
    }
    None
}

/// The name of what would be written over what is taken (read, or standard output), or would be written twice.
pub fn overwritten<'a>(
    output: Option<Place<'a>>,
    place: Option<Place<'a>>,
    taken: &[FileId],
) -> Option<&'a str>
    ensures some { IfSome result (λ name. IsOverwritten output.entry place.entry taken.now name.now) }
    ensures none { IfNone result ((name : List ℕ)
        → IsOverwritten output.entry place.entry taken.now name → ⊥) }
{
    if let Some(name) = over(output, taken) {
        return Some(name);
    }
    if let Some(name) = over(place, taken) {
        return Some(name);
    }
    twice(output, place)
}
