//! The rules of a line, by what is kept of the open section.

ghost use Rattle.std.specs.Prelude.{◌≡◌, ◌≢◌, ◌↔◌, ◌∷◌, ◌++◌, [], ℕ, List, IsTrue, OnOk, All, AllPairs, Contains};
ghost use Rattle.std.specs.Option.{ForSome};
ghost use Rattle.sgt_names.specs.Name.{Name};
ghost use Rattle.sgt_names.specs.Entry.{tx_of, item_of, IsEnd, Repeats};
ghost use Rattle.sgt_names.specs.Log.{names};
ghost use Rattle.sgt_names.specs.declared.entry.Entry.{Entry};
ghost use Rattle.sgt_names.specs.declared.entry.Holding.{Holding};
ghost use Rattle.sgt_bundle.specs.Certificate.{IsDecidedOnce, AreRanks, ranks};
ghost use Rattle.sgt_bundle.specs.Valid.{IsDecided, EndInOrder, RiseInRank};
ghost use Rattle.sgt_bundle.specs.declared.certificate.Decision.{Decision};
ghost use Rattle.sgt_audit_cells.specs.Tracks.{TracksOpen};
ghost use Rattle.sgt_audit.specs.Kept.{Tracks};
ghost use Rattle.sgt_audit.specs.Reading.{Begun, IsBegun};
ghost use Rattle.sgt_audit.specs.Rules.{OfCertificate};
ghost use Rattle.sgt_audit.specs.private.Following.{MayFollow, with_next};
ghost use Rattle.sgt_audit.specs.private.Judging.{IsLegalRead, AdmitsLine};
ghost use Rattle.sgt_audit.specs.private.Known.{IsKnownOf, IsKnownLine};
ghost use Rattle.sgt_audit_cells.specs.declared.state.SiteState.{SiteState};

use crate::known::Known;
use crate::rules::Rules;
use sgt_audit_cells::{SiteState, item_in};
use sgt_names::Entry;
use sgt_notation::SectionLine;
use std::alloc::AllocError;

/// Whether the entry's item is listed. An end has none.
#[inline(always)]
pub(crate) fn is_listed(known: &Known, entry: &Entry) -> bool
    ensures { (ds : List Decision) (state : SiteState) (items : List Holding) (entries : List Entry)
        → IsKnownOf ds state entry.now known.now → TracksOpen ds items entries state
        → (IsTrue result ↔ ForSome (item_of entry.now) (Contains (names items))) }
{
    match known.place {
        Some(_) => true,
        None => item_in(entry).is_none(),
    }
}

/// Whether the entry is not the second read of its item by its transaction, nor its second change, made or asked for.
#[inline(always)]
pub(crate) fn is_first(state: &SiteState, known: &Known, entry: &Entry) -> bool
    ensures { (ds : List Decision) (items : List Holding) (entries : List Entry)
        → IsKnownOf ds state.now entry.now known.now
        → TracksOpen ds items entries state.now
        → ForSome (item_of entry.now) (Contains (names items))
        → (IsTrue result ↔ All (λ f. (x : Name) → Repeats x f entry.now → ⊥) entries) }
{
    match known.place {
        Some(place) => state.is_first(place, entry, known.ruling.number),
        None => true,
    }
}

/// Whether the entry, on a listed item if it is a read, has the value of its item then.
#[inline(always)]
pub(crate) fn is_legal(state: &SiteState, known: &Known, entry: &Entry) -> bool
    ensures { (ds : List Decision) (items : List Holding) (entries : List Entry)
        → IsKnownOf ds state.now entry.now known.now
        → TracksOpen ds items entries state.now
        → ForSome (item_of entry.now) (Contains (names items))
        → (IsTrue result ↔ IsLegalRead items entries entry.now) }
{
    match *entry {
        Entry::Read { value, .. } => match known.place {
            Some(place) => state.has_value(place, value),
            None => false,
        },
        _ => true,
    }
}

/// Whether the entry conflicts with no entry before it of a committed transaction of greater rank, if its own is
/// committed. It is asked of a certificate alone.
#[inline(always)]
pub(crate) fn is_in_rank(rules: Rules, state: &SiteState, known: &Known, entry: &Entry) -> bool
    ensures { (ds : List Decision) (items : List Holding) (entries : List Entry) → IsDecidedOnce ds
        → OfCertificate rules (AreRanks (ranks ds))
        → IsKnownOf ds state.now entry.now known.now
        → TracksOpen ds items entries state.now
        → ForSome (item_of entry.now) (Contains (names items))
        → (IsTrue result ↔ OfCertificate rules (All (λ f. RiseInRank ds f entry.now) entries)) }
{
    match rules {
        Rules::Asked => true,
        Rules::Certified => match known.place {
            Some(place) => state.is_in_rank(place, entry, known.ruling.rank),
            None => true,
        },
    }
}

/// Whether the entry of which this is known has its transaction decided as it says, with no end before it.
#[inline(always)]
pub(crate) fn is_active(state: &SiteState, known: &Known) -> bool
    ensures { (ds : List Decision) (e : Entry) (items : List Holding) (entries : List Entry)
        → IsKnownOf ds state.now e known.now
        → TracksOpen ds items entries state.now
        → (IsTrue result ↔ (((number : ℕ) × IsDecided ds e number)
        × All (λ f. IsEnd f → tx_of f ≢ tx_of e) entries)) }
{
    match known.ruling.suiting {
        Some(number) => state.is_active(number),
        None => false,
    }
}

/// Whether no end before the entry, if it is one, was decided later. It is asked of a certificate alone.
#[inline(always)]
pub(crate) fn is_in_order(rules: Rules, state: &SiteState, known: &Known, entry: &Entry) -> bool
    ensures { (ds : List Decision) (items : List Holding) (entries : List Entry) → IsDecidedOnce ds
        → IsKnownOf ds state.now entry.now known.now → TracksOpen ds items entries state.now
        → (IsTrue result ↔ OfCertificate rules (All (λ f. EndInOrder ds f entry.now) entries)) }
{
    match rules {
        Rules::Asked => true,
        Rules::Certified => match known.ruling.suiting {
            Some(number) => state.is_in_order(entry, number),
            None => true,
        },
    }
}

/// One more entry, of which this is known, and whether it is taken in without memory.
#[inline(always)]
pub(crate) fn enter(
    state: &mut SiteState,
    known: &Known,
    entry: &Entry,
    plain: bool,
) -> Result<(), AllocError>
    ensures section { state.new.section ≡ state.old.section }
    ensures tracks { OnOk result ((ds : List Decision) (items : List Holding) (entries : List Entry)
        → IsKnownOf ds state.old entry.now known.now → IsDecidedOnce ds
        → AllPairs (λ x y. x ≢ y) (names items)
        → ForSome (item_of entry.now) (Contains (names items))
        → ((number : ℕ) × IsDecided ds entry.now number)
        → TracksOpen ds items entries state.old
        → TracksOpen ds items (entries ++ entry.now ∷ []) state.new) }
{
    let rank = known.ruling.rank;
    match known.ruling.suiting {
        Some(number) => {
            if plain {
                return state.enter_plain(known.place, entry, number, rank);
            }
            state.enter(known.place, entry, number, rank)
        }
        None => Ok(()),
    }
}

/// One more line, which has no fault but perhaps one of a walk.
#[inline(always)]
pub fn enter_line(
    state: &mut SiteState,
    line: &SectionLine,
    known: &Option<Known>,
) -> Result<(), AllocError>
    ensures { OnOk result
        ((ds : List Decision) → IsKnownLine ds state.old line.now known.now → (b : Begun)
        → IsDecidedOnce ds → IsBegun b
        → MayFollow b b.current line.now → AdmitsLine ds b.current line.now
        → Tracks ds b state.old → Tracks ds (with_next b b.current line.now) state.new) }
{
    match line {
        SectionLine::Site(site) => {
            state.begin(site.number() as usize + 1);
            Ok(())
        }
        SectionLine::Initial(holding) => state.list(holding),
        SectionLine::Logged(entry) => match known {
            Some(known) => enter(state, known, entry, false),
            None => Ok(()),
        },
        SectionLine::Final(_) => Ok(()),
        SectionLine::End => Ok(()),
    }
}
