ghost use Rattle.std.specs.Prelude.{◌≡◌, ◌↔◌, ◌≤◌, ◌<◌, ◌&&◌, true, false, ℕ, List, None, IfSome};
ghost use Rattle.relations_spec.specs.Sets.{In, Ascends, IsExact};
ghost use Rattle.relations_spec.specs.Spans.{Span, covers, common};
ghost use Rattle.relations_spec.specs.Timed.{Entry, at};
ghost use Rattle.relations_spec.specs.Listing.{Covered};

/// The common moments of two periods are those that both have: a period that is not empty, or none
/// where there are none.
pub fn common_moments_are_in_both()
    ensures covers { (p : Span) → (m : ℕ) → covers p m ≡ true ↔ ((p.start ≤ m) × (m < p.end)) }
    ensures moments { (p : Span) → (q : Span) → (m : ℕ)
        → IfSome (common p q) (λ r. covers r m ≡ (covers p m && covers q m)) }
    ensures lasting { (p : Span) → (q : Span) → IfSome (common p q) (λ r. r.start < r.end) }
    ensures none { (p : Span) → (q : Span) → common p q ≡ None → (m : ℕ)
        → (covers p m && covers q m) ≡ false }
{}

/// The relation that items with periods make at a moment has just the items of which a period has
/// the moment.
pub fn held_at_its_moments<T: Ord>()
    ensures ascends { IsExact T.cmp → (entries : List (Entry T)) → (m : ℕ)
        → Ascends T.cmp (at T.cmp entries m) }
    ensures members { IsExact T.cmp → (entries : List (Entry T)) → (x : T) → (m : ℕ)
        → In x (at T.cmp entries m) ↔ Covered entries x m }
{}
