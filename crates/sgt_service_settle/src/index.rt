//! What is looked up in a history.

ghost use Rattle.std.specs.Prelude.{◌≡◌, ◌↔◌, ◌<◌, ℕ, Some, Contains, length, IfOk, IfSome, IfNone};
ghost use Rattle.sgt_service_settle.specs.declared.link.Link.{Link as ALink};
ghost use Rattle.sgt_service_settle.specs.declared.handed.Handed.{Handed as AHanded};
ghost use Rattle.sgt_service_settle.specs.private.Index.{IsEnd, IsLinkOf, AreLinks, IsHandedIn, IsIndex, IsPaired};

use crate::committed::{commits, number_of};
use crate::handed::Handed;
use crate::link::Link;
use crate::names::{tx_under, windows};
use crate::sited::by_site;
use sgt_arena::Handle;
use sgt_certifier::{Call, Certifier};
use sgt_names::{SiteNo, Tx};
use std::alloc::{AllocError, Global};

/// What is looked up in a history. The table of commits is by the numbers of transactions.
#[derive(Drop)]
pub struct Index<'a> {
    /// The calls of the history.
    pub history: &'a [Call],
    /// The transactions of each window, in the order in which they began.
    pub windows: Vec<Vec<Tx>>,
    /// The numbers of the decisions that commit.
    pub commits: Vec<Option<u64>>,
    /// The edges that the decisions were handed, at each site.
    pub sited: Vec<Vec<Handed>>,
}

// The committed transaction under the handle.
fn end_of(windows: &[Vec<Tx>], commits: &[Option<u64>], handle: Handle) -> Option<usize>
    ensures { (tx : ℕ) → (result ≡ Some tx) ↔ IsEnd windows.now commits.now handle tx }
{
    let Some(tx) = tx_under(windows, handle) else {
        return None;
    };
    let Some(_) = number_of(commits, tx) else {
        return None;
    };
    Some(tx.number() as usize)
}

/// The edge, where it is between committed transactions.
pub(crate) fn link_of(windows: &[Vec<Tx>], commits: &[Option<u64>], handed: &Handed) -> Option<Link>
    ensures some { IfSome result (IsLinkOf windows.now commits.now handed.now) }
    ensures none { IfNone result ((l : ALink) → IsLinkOf windows.now commits.now handed.now l → ⊥) }
{
    let Some(from) = end_of(windows, commits, handed.edge.from) else {
        return None;
    };
    let Some(to) = end_of(windows, commits, handed.edge.to) else {
        return None;
    };
    Some(Link {
        from,
        to,
        label: handed.edge.label,
        number: handed.number,
    })
}

/// The edges between committed transactions.
pub(crate) fn links_of(
    alloc: Global,
    windows: &[Vec<Tx>],
    commits: &[Option<u64>],
    handed: &[Handed],
) -> Result<Vec<Link>, AllocError>
    ensures { IfOk result (λ links. AreLinks windows.now commits.now handed.now links.items) }
{
    let mut links = Vec::new(alloc);
    links.reserve(handed.len())?;
    for one in handed {
        if let Some(link) = link_of(windows, commits, one) {
            links.push(link)?;
        }
    }
    Ok(links)
}

/// The edges that were handed at the site.
pub(crate) fn edges_at<'a>(index: &'a Index<'_>, site: SiteNo) -> &'a [Handed]
    requires paired { IsPaired index.now }
    requires there { site < length index.now.sited.items }
    ensures { (h : AHanded) → Contains result.now h
        ↔ (IsHandedIn index.now h × (h.edge.label.site ≡ site)) }
{
    let place = site.number() as usize;
    index.sited[place].as_slice()
}

/// The index of a certifier's history, with the edges at so many sites. Linear in the history with its edges, and in
/// the sites, in time and memory.
pub(crate) fn index_of<'a>(
    alloc: Global,
    certifier: &'a Certifier,
    sites: usize,
) -> Result<Index<'a>, AllocError>
    ensures index { IfOk result
        (IsIndex certifier.now.history certifier.now.state.rulings) }
    ensures long { IfOk result (λ index. length index.sited.items ≡ sites) }
{
    let history = certifier.history();
    let windows = windows(alloc, certifier)?;
    let commits = commits(alloc, certifier)?;
    let sited = by_site(alloc, history, sites)?;
    Ok(Index {
        history,
        windows,
        commits,
        sited,
    })
}
