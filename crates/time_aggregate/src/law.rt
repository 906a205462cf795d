ghost use Rattle.std.specs.Prelude.{◌≡◌, ◌≤◌, ◌++◌, ◌∷◌, [], ℕ, List};
ghost use Rattle.relations_spec.specs.Sets.{Ascends};
ghost use Rattle.relations_spec.specs.Spans.{Span, always, forever};
ghost use Rattle.relations_spec.specs.Timed.{Entry, at};
ghost use Rattle.relations_spec.specs.Listing.{IsListing};
ghost use Rattle.prima_base.specs.Order.{row_cmp};
ghost use Rattle.prima_base.specs.Keeping.{kept};
ghost use Rattle.prima_base.specs.declared.keep.Keep.{Keep};
ghost use Rattle.temporal_lang_types.specs.declared.agg_item.AggItem.{AggItem};
ghost use Rattle.prima_base.specs.declared.value.Value.{Value};
ghost use Rattle.prima_base.specs.Groups.{Group};
ghost use Rattle.time_aggregate.specs.Aggregates.{Row, IsAggregated, groups, amounts_of};
ghost use Rattle.time_aggregate.specs.Aggregated.{aggregated};
ghost use Rattle.time_aggregate.specs.Parts.{AreOf, AreBefore};

/// What aggregates have of a listing is what they have of the relation that it lists, at each
/// moment of the slice.
pub fn aggregates_of_a_listing()
    ensures itself { (relation : ℕ → List Row) → (slice : Span) → (entries : List (Entry Row))
        → slice.end ≤ forever → IsListing row_cmp relation slice entries
        → IsListing row_cmp (at row_cmp entries) always entries }
    ensures told { (g : ℕ) → (items : List AggItem) → (relation : ℕ → List Row) → (slice : Span)
        → (entries : List (Entry Row)) → (told : List (Entry Group)) → slice.end ≤ forever
        → ((m : ℕ) → Ascends row_cmp (relation m)) → IsListing row_cmp relation slice entries
        → IsAggregated g items (at row_cmp entries) always told
        → IsAggregated g items relation slice told }
    ensures kept { (relation : ℕ → List Row) → (slice : Span) → (entries : List (Entry Row))
        → (conditions : List Keep) → slice.end ≤ forever
        → IsListing row_cmp relation slice entries
        → IsListing row_cmp (at row_cmp (kept conditions entries)) always
        (kept conditions entries) }
{}

/// The list that `aggregated` makes is the one of the groups of the rows that entries hold.
pub fn aggregated_is_the_one_list()
    ensures { (g : ℕ) → (items : List AggItem) → (entries : List (Entry Row))
        → IsAggregated g items (at row_cmp entries) always (aggregated g items entries) }
{}

/// There is at most one list of the groups of a relation that changes over time.
pub fn aggregates_are_one()
    ensures { (g : ℕ) → (items : List AggItem) → (relation : ℕ → List Row) → (slice : Span)
        → (a : List (Entry Group)) → (b : List (Entry Group))
        → IsAggregated g items relation slice a → IsAggregated g items relation slice b → a ≡ b }
{}

/// Rows that begin with the same values are one group; the groups of rows of which the first ones
/// begin with lesser values than the others are those of both, one after the other.
pub fn groups_side_by_side()
    ensures one { (g : ℕ) → (items : List AggItem) → (key : List Value) → (row : Row)
        → (rows : List Row) → AreOf g key (row ∷ rows) → groups g items (row ∷ rows)
        ≡ record { key = key; amounts = amounts_of items (row ∷ rows) } ∷ [] }
    ensures both { (g : ℕ) → (items : List AggItem) → (rows : List Row) → (others : List Row)
        → AreBefore g rows others
        → groups g items (rows ++ others) ≡ groups g items rows ++ groups g items others }
{}
