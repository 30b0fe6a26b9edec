//! Whether the sites of a run are those that were put there.

ghost use Rattle.std.specs.Prelude.{◌≡◌, ◌≤◌, ◌↔◌, IsTrue, length, map, MatchOption};
ghost use Rattle.sgt_names.specs.Limits.{max_sites};
ghost use Rattle.sgt_service.specs.Report.{BeganOtherwise};

use sgt_names::{Holding, Listed, SiteNo};
use sgt_site::Site;

fn has_items(site: &Site, items: &[Holding]) -> bool
    ensures { IsTrue result ↔ (site.now.items ≡ items.now) }
{
    site.items() == items
}

/// The first site that has other items than those that were put there, or other first values.
pub fn first_other(sites: &[Site], given: &[Listed<Holding>]) -> Option<SiteNo>
    requires many { length sites.now ≡ length given.now }
    requires few { length sites.now ≤ max_sites }
    ensures { MatchOption result (map (λ s. s.items) sites.now ≡ given.now)
        (BeganOtherwise given.now (map (λ s. s.items) sites.now)) }
{
    for place in 0..sites.len() {
        if !has_items(&sites[place], given[place].as_slice()) {
            return SiteNo::new(place as u64).ok();
        }
    }
    None
}
