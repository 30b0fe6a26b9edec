//! What the edges mean.

ghost use Rattle.std.specs.Prelude.{◌≡◌, ◌≢◌, ℕ, List, All, ◌↔◌};
ghost use Rattle.sgt_names.specs.Name.{Name};
ghost use Rattle.sgt_names.specs.declared.draft.Touch.{Touch};
ghost use Rattle.sgt_names.specs.declared.entry.Kind.{Kind};
ghost use Rattle.sgt_arena.specs.declared.handle.Handle.{Handle};
ghost use Rattle.sgt_site.specs.State.{SiteState, IsSite, IsPledgedFor};
ghost use Rattle.sgt_edges.specs.Edges.{IsActive, IsEdge, IsConflict, JoinsCommitted, StandsForAll, SeesTooNew, RefusesEdges};
ghost use Rattle.sgt_edges.specs.Neighbours.{IsNeighbour, HaveNeighbours};
ghost use Rattle.sgt_edges.specs.declared.edge.Edge.{Edge};
ghost use Rattle.sgt_edges.specs.Sites.{Gathering, IsGathered, IsGivenStep, IsStep, Leads};
ghost use Rattle.sgt_edges.specs.declared.fault.EdgeFault.{EdgeFault};

/// The edges of an active transaction at a site are its conflicts with the committed ones under other handles, in the
/// site's log followed by its private changes there.
pub fn edges_are_conflicts()
    ensures { (s : SiteState) (tx : ℕ) (touched : List Touch) (me : Handle) → IsSite s
        → IsActive s tx touched
        → (x : Name) (from to : Handle) (kind : Kind)
        → IsEdge s touched me x from to kind ↔ IsConflict s tx touched me x from to kind }
{}

/// A transaction whose pledge for its draft stands is active, so that its edges are its conflicts.
pub fn pledged_are_active()
    ensures { (s : SiteState) (tx : ℕ) (touched : List Touch) → IsSite s → IsPledgedFor s tx touched
        → IsActive s tx touched }
{}

/// Each edge leads to me from a committed transaction of the site, or from me to one, and one end alone is me.
pub fn edges_join_committed()
    ensures { (s : SiteState) (touched : List Touch) (me : Handle) (x : Name) (from to : Handle) (kind : Kind)
        → IsEdge s touched me x from to kind → JoinsCommitted s me from to }
{}

/// No draft is refused for two reasons; want of memory stands where no version is too new.
pub fn gathers_are_refused_once()
    ensures { (s : SiteState) (touched : List Touch) (f g : EdgeFault)
        → RefusesEdges s touched f → RefusesEdges s touched g → f ≡ g }
{}

/// Of one draft at several sites: a walk over edges of the draft at any of them and logged conflicts between committed
/// transactions is one over the edges that were given and such conflicts, and the other way round. So a certifier
/// that is handed the given edges decides as on all of them.
pub fn given_edges_lead_as_all_do()
    ensures { (touched : List Touch) (me : Handle) (gs : List Gathering)
        → All (IsGathered touched me) gs
        → (from to : Handle)
        → Leads (IsStep touched me gs) from to ↔ Leads (IsGivenStep gs) from to }
{}

/// Edges to neighbours carry every conflict: where they are all given, they stand for all edges of the draft at the
/// site. Each of them is one.
pub fn neighbours_carry_every_conflict()
    ensures carry { (s : SiteState) (touched : List Touch) (me : Handle) (edges : List Edge)
        → IsSite s → (SeesTooNew s touched → ⊥)
        → HaveNeighbours s touched me edges → StandsForAll s touched me edges }
    ensures edges { (s : SiteState) (touched : List Touch) (me : Handle) (x : Name) (from to : Handle) (kind : Kind)
        → from ≢ to → IsNeighbour s touched me x from to kind → IsEdge s touched me x from to kind }
{}
