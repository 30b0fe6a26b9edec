//! Laws of courses.

ghost use Rattle.std.specs.Prelude.{◌≡◌, List, ◌++◌, ◌∷◌, ℕ, suc, Some, slice_get, All, map};
ghost use Rattle.sgt_names.specs.declared.entry.Holding.{Holding};
ghost use Rattle.sgt_bundle.specs.Parts.{Parts, FitTogether};
ghost use Rattle.sgt_bundle.specs.Valid.{IsValid};
ghost use Rattle.sgt_core_model.specs.Core.{CoreState, bundle_of, fresh};
ghost use Rattle.sgt_core_model.specs.Runs.{AreSites};
ghost use Rattle.sgt_courses.specs.Course.{AreRuns, Course, Numbered, Turn, bundles_in};
ghost use Rattle.sgt_courses.specs.Chained.{GoOn};

/// Each front of a course is a course, and what comes behind it is one from where it ended. So what is said of
/// courses holds at every moment.
pub fn fronts_are_courses()
    ensures { (old new : CoreState) (turns more : List Turn) (bundles : List Numbered)
        → Course old (turns ++ more) bundles new
        → (mid : CoreState) × (handed : List Numbered) × (later : List Numbered)
        × Course old turns handed mid × (bundles ≡ handed ++ later) × Course mid more later new }
{}

/// A course is a list of runs of the model: the first over the items that it starts from, and each other one over the
/// last values of the one before it, which left no transaction active. Its bundles are those of the runs that are
/// over.
pub fn courses_are_runs()
    ensures { (items : List (List Holding)) (turns : List Turn) (bundles : List Numbered) (c : CoreState)
        → Course (fresh items) turns bundles c
        → (ended : List CoreState) × AreRuns items ended c
        × (bundles_in bundles ≡ map bundle_of ended) }
{}

/// The bundles of a course are valid, and each one's items begin with the values that the one before it ended with.
pub fn courses_are_chains()
    ensures valid { (items : List (List Holding)) (turns : List Turn) (bundles : List Numbered) (c : CoreState)
        → Course (fresh items) turns bundles c → All IsValid (bundles_in bundles) }
    ensures fit { (items : List (List Holding)) (turns : List Turn) (bundles : List Numbered) (c : CoreState)
        → AreSites items → Course (fresh items) turns bundles c → All FitTogether (bundles_in bundles) }
    ensures go_on { (items : List (List Holding)) (turns : List Turn) (bundles : List Numbered) (c : CoreState)
        → Course (fresh items) turns bundles c → GoOn (bundles_in bundles) }
{}
