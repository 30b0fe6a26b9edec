//! What a draft touches that may be at a site.

ghost use Rattle.std.specs.Prelude.{◌≡◌, length, IsTrue};
ghost use Rattle.sgt_names.specs.Draft.{AreRising, at_site};

use sgt_names::{Draft, Part, SiteNo, Touch};

// Up to how many touched items are gone over, in place of a search for those of a site.
const NEAR: usize = 16;

/// Touched items of the draft, all of those at the site among them, by rising site and name. They are all that it
/// touches, while they are few, and else those at the site alone, which binary searches find. Copies nothing.
pub fn touched_near(draft: &Draft, site: SiteNo) -> &[Touch]
    ensures here { at_site site result.now ≡ at_site site draft.now.touched }
    ensures rising { AreRising result.now }
{
    let (few, parts) = draft.touched();
    if are_near(few, parts) {
        few
    } else {
        draft.at(site)
    }
}

// Whether a draft with these has no parts, and few items.
fn are_near(few: &[Touch], parts: &[Part]) -> bool
    ensures { IsTrue result → length parts.now ≡ 0 }
{
    parts.is_empty() && few.len() <= NEAR
}
