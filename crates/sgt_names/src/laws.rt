//! What the definitions of a log and of a draft imply.

ghost use Rattle.std.specs.Prelude.{◌≡◌, ◌≢◌, ◌<◌, ◌+◌, ◌%◌, ◌^◌, ◌++◌, ◌∷◌, ℕ, List, All, Option, Some};
ghost use Rattle.sgt_names.specs.Name.{Name};
ghost use Rattle.sgt_names.specs.Entry.{Clash, IsIncrement, Reads, Writes};
ghost use Rattle.sgt_names.specs.Log.{value_with, value_with_any, value_after};
ghost use Rattle.sgt_names.specs.Sums.{sum_added, Overwrites};
ghost use Rattle.sgt_names.specs.Draft.{Place, place_of, AreRising, touched_at, added_to, ChangesOnly};
ghost use Rattle.sgt_names.specs.declared.draft.Touch.{Touch};
ghost use Rattle.sgt_names.specs.declared.entry.Change.{Change};
ghost use Rattle.sgt_names.specs.declared.entry.Entry.{Entry};
ghost use Rattle.sgt_names.specs.declared.entry.Kind.{Kind};

/// Where one item of a draft is changed, a look at its place finds it as it is now, and a look at any other place
/// finds what it found before.
pub fn changes_show_at_their_place()
    ensures there { (old new : List Touch) (t : Touch) → AreRising new → ChangesOnly old new t
        → touched_at new (place_of t) ≡ Some t }
    ensures others { (old new : List Touch) (t : Touch) (p : Place) → p ≢ place_of t
        → ChangesOnly old new t
        → touched_at new p ≡ touched_at old p }
{}

/// A change of an item with an increment behind it does what the two as one change do.
pub fn additions_sum_up()
    ensures { (first : Option ℕ) (c : Option Change) (v : ℕ)
        → value_with_any first (Some (added_to c v))
        ≡ value_with (value_with_any first c) (Change.Add v) }
{}

/// The value of an item is the last one written, or else the first, plus all increments behind it, modulo 2^64.
pub fn value_is_of_the_last_write()
    ensures written { (first : Option ℕ) (front back : List Entry) (tx v : ℕ) (x : Name)
        → v < 2 ^ 64
        → All (λ e. Overwrites x e → ⊥) back
        → value_after first (front ++ Entry.Write tx x v ∷ back) x
        ≡ Some ((v + sum_added x back) % 2 ^ 64) }
    ensures first { (u : ℕ) (entries : List Entry) (x : Name) → u < 2 ^ 64
        → All (λ e. Overwrites x e → ⊥) entries
        → value_after (Some u) entries x ≡ Some ((u + sum_added x entries) % 2 ^ 64) }
{}

/// The order of two neighbouring increments changes no value.
pub fn increments_commute()
    ensures { (first : Option ℕ) (front back : List Entry) (a b : Entry) (x : Name) → IsIncrement a
        → IsIncrement b
        → value_after first (front ++ a ∷ b ∷ back) x
        ≡ value_after first (front ++ b ∷ a ∷ back) x }
{}

/// Two increments, made or asked for, are in no conflict.
pub fn increments_do_not_conflict()
    ensures { (kind : Kind) (x : Name) (e f : Entry) → IsIncrement e → IsIncrement f
        → Clash kind x e f → ⊥ }
{}

/// An increment is in conflict with each read of its item, and with each write of it that is no increment, in both
/// orders.
pub fn increments_conflict_with_others()
    ensures reads { (x : Name) (e f : Entry) → IsIncrement e → Writes x e → Reads x f
        → Clash Kind.Wr x e f × Clash Kind.Rw x f e }
    ensures writes { (x : Name) (e f : Entry) → IsIncrement e → Writes x e → Writes x f
        → (IsIncrement f → ⊥)
        → Clash Kind.Ww x e f × Clash Kind.Ww x f e }
{}
