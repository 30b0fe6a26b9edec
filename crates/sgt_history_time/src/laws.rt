//! What excludes an order that serves and keeps what is asked, and what makes an order do so.

ghost use Rattle.std.specs.Prelude.{ℕ, ◌↔◌, List, Option};
ghost use Rattle.sgt_history.specs.Conflicts.{IsCycle, Precedes};
ghost use Rattle.sgt_history.specs.Flaws.{IsFaultless};
ghost use Rattle.sgt_history.specs.Serial.{IsOrder};
ghost use Rattle.sgt_history.specs.Transaction.{ArePositive, Transaction};
ghost use Rattle.sgt_history_time.specs.Serializable.{AreOfCommitted, IsSerializableKeeping, ServesKeeping};
ghost use Rattle.sgt_history_time.specs.Steps.{StandsBefore};
ghost use Rattle.sgt_history_time.specs.declared.times.Times.{Times};

/// Each of ww, wr, rw, po and rt makes its first transaction stand before its second in every order that serves and
/// keeps.
pub fn steps_go_forward<I, V, S>()
    ensures { (h : List (Transaction I V)) (times : List (Option Times)) (sessions : List (Option S))
        → AreOfCommitted h times
        → AreOfCommitted h sessions → (order : List ℕ) → ServesKeeping h times sessions order → (from to : ℕ)
        → StandsBefore h times sessions from to → Precedes order from to }
{}

/// So where they form a cycle, no order serves and keeps.
pub fn cycles_exclude_orders_that_keep<I, V, S>()
    ensures { (h : List (Transaction I V)) (times : List (Option Times)) (sessions : List (Option S))
        → AreOfCommitted h times
        → AreOfCommitted h sessions → (cycle : List ℕ) → IsCycle (StandsBefore h times sessions) cycle
        → IsSerializableKeeping h times sessions → ⊥ }
{}

/// An order of all committed transactions of a history without faults serves and keeps exactly where they all go
/// forward in it.
pub fn orders_keep_exactly_where_steps_go_forward<S>()
    ensures { (h : List (Transaction ℕ ℕ)) (times : List (Option Times)) (sessions : List (Option S)) (order : List ℕ)
        → ArePositive h
        → IsFaultless h → IsOrder h order → AreOfCommitted h times → AreOfCommitted h sessions
        → ServesKeeping h times sessions order ↔ ((from to : ℕ) → StandsBefore h times sessions from to
        → Precedes order from to) }
{}
