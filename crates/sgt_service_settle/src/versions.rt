//! Whether the versions of the sites are those that the history counts.

ghost use Rattle.std.specs.Prelude.{◌≡◌, ◌≤◌, ◌<◌, ℕ, All, MatchOption, Some, length, slice_get};
ghost use Rattle.sgt_names.specs.Limits.{max_sites};
ghost use Rattle.sgt_site.specs.State.{SiteState};
ghost use Rattle.sgt_service_agreement.specs.Agreed.{VersionsAgree};

use sgt_certifier::Certifier;
use sgt_names::SiteNo;
use sgt_service_agreement::agrees;
use sgt_site::Site;

/// The least site with a version that isn't the number of installs that the history counts. It takes no memory; the
/// cost is that of
/// `agrees` at each site.
pub(crate) fn first_uncounted(certifier: &Certifier, sites: &[Site]) -> Option<SiteNo>
    requires { length sites.now ≤ max_sites }
    ensures { MatchOption result (All (VersionsAgree certifier.now.history) sites.now)
        (λ site. ((s : SiteState) × (slice_get sites.now site ≡ Some s)
        × (VersionsAgree certifier.now.history s → ⊥))
        × ((k : ℕ) (s : SiteState) → k < site → slice_get sites.now k ≡ Some s
        → VersionsAgree certifier.now.history s)) }
{
    for k in 0..sites.len() {
        let Ok(site) = SiteNo::new(k as u64) else {
            unreachable!();
        };
        if !agrees(certifier, &sites[k]) {
            return Some(site);
        }
    }
    None
}
