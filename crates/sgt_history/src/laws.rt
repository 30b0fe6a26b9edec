//! What excludes an order that serves, and what makes an order serve.

ghost use Rattle.std.specs.Prelude.{ℕ, ◌↔◌, List, map};
ghost use Rattle.sgt_history.specs.Conflicts.{HasCycle, HaveConflict, Precedes};
ghost use Rattle.sgt_history.specs.Flaws.{IsFaultless, IsFaulty};
ghost use Rattle.sgt_history.specs.Serial.{IsOrder, IsSerializable, KeepApart, Serves};
ghost use Rattle.sgt_history.specs.Transaction.{ArePositive, Transaction, renamed};
ghost use Rattle.sgt_history.specs.declared.named.Conflict.{Conflict};
ghost use Rattle.sgt_history.specs.declared.named.Flaw.{Flaw};
ghost use Rattle.sgt_history.specs.declared.named.Graph.{Graph};

/// Each of ww, wr and rw makes its first transaction stand before its second in every order that serves.
pub fn conflicts_go_forward<I, V>()
    ensures { (h : List (Transaction I V)) (order : List ℕ) (kind : Conflict) (from to : ℕ) (x : I) (v w : ℕ)
        → Serves h order → HaveConflict h kind from to x v w → Precedes order from to }
{}

/// So where conflicts form a cycle, of whatever kinds, no order serves.
pub fn cycles_exclude_every_order<I, V>()
    ensures { (h : List (Transaction I V)) (g : Graph) → HasCycle h g → IsSerializable h → ⊥ }
{}

/// Where a line has a fault, of whatever kind, no order serves.
pub fn faults_exclude_every_order<I, V>()
    ensures { (h : List (Transaction I V)) (line : ℕ) (flaw : Flaw) (place : ℕ) → IsFaulty h line flaw place
        → IsSerializable h → ⊥ }
{}

/// An order of all committed transactions of a history without faults, whose items and values are numbered, serves
/// exactly where all conflicts go forward in it.
pub fn orders_serve_exactly_where_conflicts_go_forward()
    ensures { (h : List (Transaction ℕ ℕ)) (order : List ℕ) → ArePositive h → IsFaultless h → IsOrder h order
        → Serves h order ↔ ((kind : Conflict) (from to x v w : ℕ) → HaveConflict h kind from to x v w
        → Precedes order from to) }
{}

/// Other names of items and values, which keep these apart, change nothing.
pub fn names_do_not_matter<I, J, V, W>()
    ensures { (f : I → J) (g : V → W) (h : List (Transaction I V)) → KeepApart f g h
        → IsSerializable h ↔ IsSerializable (map (renamed f g) h) }
{}
