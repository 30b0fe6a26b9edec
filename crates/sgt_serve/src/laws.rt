//! A law of talks.

ghost use Rattle.std.specs.Prelude.{List, ◌++◌, All, map};
ghost use Rattle.sgt_notation.specs.declared.event.SiteLine.{SiteLine};
ghost use Rattle.sgt_bundle.specs.Parts.{FitTogether};
ghost use Rattle.sgt_bundle.specs.Valid.{IsValid};
ghost use Rattle.sgt_core_model.specs.Runs.{AreSites};
ghost use Rattle.sgt_courses.specs.Course.{Numbered, bundles_in};
ghost use Rattle.sgt_courses.specs.Chained.{GoOn};
ghost use Rattle.sgt_serve.specs.Ended.{EndsWith};
ghost use Rattle.sgt_serve.specs.Talk.{IsTalk, Talk};

/// All bundles that a talk hands out, those of its cuts and the last one, are valid, and each one's items begin with
/// the values that the one before it ended with. What the place was handed are their texts (`served` of `serve`).
pub fn talks_are_chains()
    ensures valid { (t : Talk) (last : List Numbered) → IsTalk t → EndsWith t.last last
        → All IsValid (bundles_in (t.bundles ++ last)) }
    ensures fit { (t : Talk) (last : List Numbered) → AreSites (map (λ (l : SiteLine). l.items) t.sites)
        → IsTalk t → EndsWith t.last last → All FitTogether (bundles_in (t.bundles ++ last)) }
    ensures go_on { (t : Talk) (last : List Numbered) → IsTalk t → EndsWith t.last last
        → GoOn (bundles_in (t.bundles ++ last)) }
{}
