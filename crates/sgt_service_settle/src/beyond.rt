//! The edges at sites that aren't there.

ghost use Rattle.std.specs.Prelude.{◌≡◌, ◌++◌, ℕ, List, map};
ghost use Rattle.sgt_service_settle.specs.declared.handed.Handed.{Handed as AHanded};
ghost use Rattle.sgt_service_settle.specs.Told.{handed_by, handed_in};
ghost use Rattle.sgt_service_settle.specs.private.Words.{with_number, lesser};
ghost use Rattle.sgt_service_settle.specs.private.Sites.{IsLeastBeyond};

use sgt_certifier::{Call, HandedEdges};
use sgt_names::SiteNo;

// The lesser, where there is a first.
fn lesser(least: Option<SiteNo>, site: SiteNo) -> SiteNo
    ensures { result ≡ lesser least site }
{
    match least {
        Some(least) if least.number() < site.number() => least,
        _ => site,
    }
}

// The least site beyond those that there are, of these edges and of those before, whose least this one is.
fn beyond_among(edges: &HandedEdges, sites: usize, first: Option<SiteNo>) -> Option<SiteNo>
    ensures { (before : List AHanded) (number : ℕ) → IsLeastBeyond sites before first
        → IsLeastBeyond sites (before ++ map (with_number number) edges.now) result }
{
    let mut least = first;
    for place in 0..edges.count() {
        let site = edges.at(place).label.site;
        if sites <= site.number() as usize {
            least = Some(lesser(least, site));
        }
    }
    least
}

// The same of the edges that the call hands to a decision.
fn beyond_of(call: &Call, sites: usize, first: Option<SiteNo>) -> Option<SiteNo>
    ensures { (before : List AHanded) → IsLeastBeyond sites before first
        → IsLeastBeyond sites (before ++ handed_by call.now) result }
{
    match call {
        Call::Decide { edges, .. } => beyond_among(edges, sites, first),
        _ => first,
    }
}

/// The least site beyond those that there are, of the edges that the decisions of the history were handed.
pub(crate) fn first_beyond(history: &[Call], sites: usize) -> Option<SiteNo>
    ensures { IsLeastBeyond sites (handed_in history.now) result }
{
    let mut least = None;
    for call in history {
        least = beyond_of(call, sites, least);
    }
    least
}
