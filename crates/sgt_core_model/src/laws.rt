//! Laws of every run of the core.

ghost use Rattle.std.specs.Prelude.{◌≡◌, ◌⊎◌, ◌↔◌, ◌<◌, ℕ, List, [], length, All, AllPairs, Contains, count_by};
ghost use Rattle.sgt_names.specs.Name.{Name};
ghost use Rattle.sgt_names.specs.declared.entry.Holding.{Holding};
ghost use Rattle.sgt_site.specs.State.{version_at};
ghost use Rattle.sgt_bundle.specs.Parts.{FitTogether};
ghost use Rattle.sgt_bundle.specs.Valid.{IsValid};
ghost use Rattle.sgt_order.specs.Graph.{IsAcyclic, IsTopological};
ghost use Rattle.sgt_certifier.specs.Certifier.{Install, Joins, serial};
ghost use Rattle.sgt_certifier.specs.History.{changes_item};
ghost use Rattle.sgt_core_model.specs.Core.{CoreState, fresh, touched, bundle_of};
ghost use Rattle.sgt_core_model.specs.Step.{IsRefused, IsAllowed, MayStep, MayDecide, Run, parts_of_decision, replies_of_decision};
ghost use Rattle.sgt_core_model.specs.Runs.{AreSites, AreAlike, IsLoggedConflict, IsLoggedInstall, IsAnswer, IsMemory};
ghost use Rattle.sgt_notation.specs.declared.event.Event.TheVariants.{Commit as ACommit};
ghost use Rattle.sgt_notation.specs.declared.event.Event.{Event};
ghost use Rattle.sgt_core_model.specs.declared.reply.Reply.{Reply};
ghost use Rattle.sgt_core_model.specs.declared.reply.CoreFault.{CoreFault};

/// After whatever events, the edges among committed transactions make no cycle, and no logged conflict between
/// committed transactions goes back in rank, across windows too and while blocks of a step are still due. Whenever no
/// transaction is active, the logs with the certificate are valid. They fit together as a bundle at any time, where
/// the items are in order.
pub fn runs_are_serializable()
    ensures acyclic { (items : List (List Holding))
        (events : List Event) (replies : List Reply) (c : CoreState)
        → Run (fresh items) events replies c → IsAcyclic (Joins c.certifier.arcs) }
    ensures ranked { (items : List (List Holding))
        (events : List Event) (replies : List Reply) (c : CoreState)
        → Run (fresh items) events replies c
        → IsTopological (IsLoggedConflict c.entries) (serial c.certifier) }
    ensures valid { (items : List (List Holding))
        (events : List Event) (replies : List Reply) (c : CoreState)
        → Run (fresh items) events replies c → c.certifier.active ≡ [] → IsValid (bundle_of c) }
    ensures fits { (items : List (List Holding))
        (events : List Event) (replies : List Reply) (c : CoreState)
        → AreSites items → Run (fresh items) events replies c → FitTogether (bundle_of c) }
{}

/// After whatever events, the version of each item, which is the number of its changes in the log, is the number of
/// the installs that change it and that the certifier was told of.
pub fn installs_are_versions()
    ensures { (items : List (List Holding))
        (events : List Event) (replies : List Reply) (c : CoreState) (s : ℕ) (x : Name)
        → Run (fresh items) events replies c
        → version_at (c.entries s) x ≡ count_by (changes_item s x) c.certifier.installs }
{}

/// After whatever events, an install is noted exactly where the commit of its transaction stands in the site's log,
/// and its items are those that the transaction changes there, in the order of the log. Each is of a committed
/// transaction and of a site of the run, and none is noted twice.
pub fn installs_are_logged()
    ensures noted { (items : List (List Holding))
        (events : List Event) (replies : List Reply) (c : CoreState) (install : Install)
        → Run (fresh items) events replies c
        → Contains c.certifier.installs install ↔ IsLoggedInstall c.entries install }
    ensures committed { (items : List (List Holding))
        (events : List Event) (replies : List Reply) (c : CoreState) (install : Install)
        → Run (fresh items) events replies c
        → Contains c.certifier.installs install → Contains (serial c.certifier) install.tx }
    ensures sited { (items : List (List Holding))
        (events : List Event) (replies : List Reply) (c : CoreState) (install : Install)
        → Run (fresh items) events replies c
        → Contains c.certifier.installs install → install.site < length c.items }
    ensures once { (items : List (List Holding))
        (events : List Event) (replies : List Reply) (c : CoreState)
        → Run (fresh items) events replies c
        → AllPairs (λ (a b : Install). (a.tx ≡ b.tx) × (a.site ≡ b.site) → ⊥) c.certifier.installs }
{}

/// In every state each event is allowed or refused, and refused with one fault alone.
pub fn refusals_are_determined()
    ensures told { (c : CoreState) (event : Event)
        → IsAllowed c event ⊎ ((f : CoreFault) × IsRefused c event f) }
    ensures one { (c : CoreState) (event : Event) (f g : CoreFault) → IsRefused c event f
        → IsRefused c event g → f ≡ g }
{}

/// Every list of events has a run in which want of memory is never answered, and after each run an event that is
/// allowed has an answer.
pub fn runs_go_on()
    ensures run { (items : List (List Holding)) (events : List Event)
        → (replies : List Reply) × (c : CoreState) × Run (fresh items) events replies c
        × All (λ reply. IsMemory reply → ⊥) replies }
    ensures answered { (items : List (List Holding))
        (events : List Event) (replies : List Reply) (c : CoreState) (event : Event)
        → Run (fresh items) events replies c → IsAllowed c event
        → (reply : Reply) × (new : CoreState) × MayStep c event reply new × IsAnswer reply }
{}

/// In every state an event has one reply, but that want of memory may stand in its place.
pub fn replies_are_determined()
    ensures { (c : CoreState) (event : Event) (r q : Reply) (new other : CoreState)
        → MayStep c event r new → MayStep c event q other
        → (IsMemory r → ⊥) → (IsMemory q → ⊥) → r ≡ q }
{}

/// Two runs of the same events with the same replies, want of memory included, leave the same state, but for the
/// order of the edges and the walks that refusals show: the same logs, private changes, orders and ranks.
pub fn states_are_determined()
    ensures { (items : List (List Holding))
        (events : List Event) (replies : List Reply) (c d : CoreState)
        → Run (fresh items) events replies c → Run (fresh items) events replies d → AreAlike c d }
{}

/// A transaction that is gathered wherever it touches and decided is so by a run of these gathers and this decision;
/// and where that is refused, as its commit is.
pub fn decisions_are_runs()
    ensures decided { (c : CoreState) (tx : ℕ) (reply : Reply) (d : CoreState)
        → MayDecide c tx reply d → IsAnswer reply
        → Run c (parts_of_decision (touched c tx) tx) (replies_of_decision (touched c tx) reply) d }
    ensures refused { (c : CoreState) (tx : ℕ) (reply : Reply) (d : CoreState)
        → MayDecide c tx reply d → (IsAnswer reply → ⊥)
        → MayStep c (ACommit tx) reply d }
{}
