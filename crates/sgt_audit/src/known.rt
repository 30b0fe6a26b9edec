//! What is looked up of a line, once for all that judges it and takes it in.

ghost use Rattle.std.specs.Prelude.{IfSome};
ghost use Rattle.sgt_audit.specs.private.Known.{IsKnownOf, IsKnownLine};

use sgt_audit_cells::SiteState;
use sgt_audit_decisions::{Decided, Ruling};
use sgt_names::Entry;
use sgt_notation::SectionLine;

/// What is known of an entry.
#[derive(Clone, Copy)]
pub struct Known {
    /// The place of its item in the open section, if it has one that is listed.
    pub place: Option<usize>,
    /// What is decided on its transaction.
    pub ruling: Ruling,
}

/// What is known of the entry.
#[inline(always)]
pub(crate) fn look_up_entry(certificate: &Decided, state: &SiteState, entry: &Entry) -> Known
    ensures { IsKnownOf certificate.now.decisions state.now entry.now result }
{
    Known {
        place: state.place_of_entry(entry),
        ruling: certificate.ruling_on(entry),
    }
}

/// What is known of the line, if it is an entry.
pub fn look_up(certificate: &Decided, state: &SiteState, line: &SectionLine) -> Option<Known>
    ensures { IsKnownLine certificate.now.decisions state.now line.now result }
{
    match line {
        SectionLine::Logged(entry) => Some(look_up_entry(certificate, state, entry)),
        _ => None,
    }
}

/// What is known of the entry, where no search is needed for it.
#[inline(always)]
pub(crate) fn look_up_at_hand(
    certificate: &Decided,
    state: &SiteState,
    entry: &Entry,
) -> Option<Known>
    ensures { IfSome result (IsKnownOf certificate.now.decisions state.now entry.now) }
{
    let ruling = certificate.ruling_at_hand(entry)?;
    let place = state.place_at_hand(entry)?;
    Some(Known { place, ruling })
}
