ghost use Rattle.std.specs.Prelude.{◌≡◌, ◌≤◌, ◌<◌, ℕ, List, Some, None};
ghost use Rattle.relations_spec.specs.Spans.{forever};
ghost use Rattle.relations_spec.specs.Timed.{Entry};
ghost use Rattle.smo_ops_spec.specs.OneRow.{Row};
ghost use Rattle.smo_ops_spec.specs.Past.{Past};
ghost use Rattle.smo_ops_spec.specs.ValidPast.{AreStates, EachStarts};
ghost use Rattle.smo_ops_spec.specs.Losses.{Loss};
ghost use Rattle.prima_base.specs.declared.refusal.OpKind.{OpKind};
ghost use Rattle.prima_base.specs.declared.refusal.Refusal.TheVariants.{NoInverse};
ghost use Rattle.temporal_lang_spec.specs.Accepted.{fault_of_query, HasNoWayBack};
ghost use Rattle.temporal_lang_spec.specs.Losing.{loss_at, first_lost};
ghost use Rattle.temporal_lang_types.specs.Queries.{PlainQuery, slice_of, IsLasting};
ghost use Rattle.prima_base.specs.Keeping.{kept};
ghost use Rattle.temporal_lang_spec.specs.Answers.{IsListingOf, listing, answer};

/// The listing that is made stage by stage is the list of what a query asks of each moment of its
/// slice, and at most one list is: over a past whose states ascend from moment 0 and begin with
/// each version. The answer is what of that list meets every condition of KEEP.
pub fn listing_is_the_one_list()
    ensures is { (past : Past) → (query : PlainQuery) → AreStates past.states
        → EachStarts past.states past.versions → IsLasting query.when
        → (slice_of query.when).end ≤ forever → IsListingOf past query (listing past query) }
    ensures answer { (past : Past) → (query : PlainQuery) → (entries : List (Entry Row))
        → AreStates past.states → EachStarts past.states past.versions → IsLasting query.when
        → (slice_of query.when).end ≤ forever → IsListingOf past query entries
        → answer past query ≡ kept query.keep entries }
    ensures one { (past : Past) → (query : PlainQuery) → (a : List (Entry Row))
        → (b : List (Entry Row)) → IsListingOf past query a → IsListingOf past query b → a ≡ b }
{}

/// The first loss is that of the least moment of the slice at which an item of the query is lost,
/// and none where none is at any moment of it.
pub fn first_loss_is_at_the_least_moment()
    ensures some { (past : Past) → (query : PlainQuery) → (m : ℕ) → (loss : Loss)
        → (slice_of query.when).start ≤ m → m < (slice_of query.when).end
        → ((n : ℕ) → (slice_of query.when).start ≤ n → n < m → loss_at past query n ≡ None)
        → loss_at past query m ≡ Some loss → first_lost past query ≡ Some loss }
    ensures none { (past : Past) → (query : PlainQuery)
        → ((n : ℕ) → (slice_of query.when).start ≤ n → n < (slice_of query.when).end
        → loss_at past query n ≡ None)
        → first_lost past query ≡ None }
{}

/// A query is refused for want of an inverse over a version only where, at the least moment of its
/// slice at which an item of it is lost by names alone, that version is gone back over on the way
/// from the version in force to the query's one, names no inverse, and loses the item by a member of
/// its operator that has none that is derived: its table, or the first lost column of it that the
/// branch names. The member is of the kind that is told.
pub fn a_query_is_refused_for_want_of_an_inverse_alone()
    ensures { (past : Past) → (query : PlainQuery) → (k : ℕ) → (kind : OpKind)
        → fault_of_query past query ≡ Some (NoInverse k kind) → HasNoWayBack past query k kind }
{}
