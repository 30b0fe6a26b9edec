//! What the definitions imply: each refused call has one reason.

ghost use Rattle.std.specs.Prelude.{◌≡◌, ℕ, List};
ghost use Rattle.sgt_names.specs.Name.{Name};
ghost use Rattle.sgt_names.specs.declared.draft.Touch.{Touch};
ghost use Rattle.sgt_names.specs.declared.entry.Holding.{Holding};
ghost use Rattle.sgt_site.specs.State.{SiteState};
ghost use Rattle.sgt_site.specs.Refused.{RefusesItems, RefusesRead, RefusesPledge};
ghost use Rattle.sgt_site.specs.declared.fault.SiteFault.{SiteFault};

/// No items are refused for two reasons; want of memory stands where there is no other.
pub fn items_are_refused_once()
    ensures { (items : List Holding) (f g : SiteFault) → RefusesItems items f → RefusesItems items g
        → f ≡ g }
{}

/// No read is refused for two reasons; want of memory stands where there is no other, so a read that may be made has
/// none.
pub fn reads_are_refused_once()
    ensures { (s : SiteState) (tx : ℕ) (x : Name) (f g : SiteFault) → RefusesRead s tx x f
        → RefusesRead s tx x g → f ≡ g }
{}

/// No pledge is refused for two reasons; want of memory stands where there is no other, so a pledge that may be given
/// has none.
pub fn pledges_are_refused_once()
    ensures { (s : SiteState) (tx : ℕ) (touched : List Touch) (f g : SiteFault)
        → RefusesPledge s tx touched f → RefusesPledge s tx touched g → f ≡ g }
{}
