ghost use Rattle.std.specs.Prelude.{◌≡◌, ℕ, List};
ghost use Rattle.relations_spec.specs.Sets.{IsExact};
ghost use Rattle.relations_spec.specs.Spans.{Span, always};
ghost use Rattle.relations_spec.specs.Timed.{Entry};
ghost use Rattle.relations_spec.specs.Listing.{IsListing};
ghost use Rattle.relations_spec.specs.Timeline.{Stage, IsTimeline, relation_at, listing_of};

/// At most one list lists a relation that changes over time.
pub fn at_most_one_listing<T: Ord>()
    ensures { IsExact T.cmp → (relation : ℕ → List T) → (slice : Span) → (a : List (Entry T))
        → (b : List (Entry T)) →
        IsListing T.cmp relation slice a → IsListing T.cmp relation slice b → a ≡ b }
{}

/// The listing that is made stage by stage is the list of what holds at each moment.
pub fn timeline_is_listed<T: Ord>()
    ensures { IsExact T.cmp → (stages : List (Stage T)) → IsTimeline stages →
        IsListing T.cmp (relation_at stages) always (listing_of T.cmp stages) }
{}
