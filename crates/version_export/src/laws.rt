ghost use Rattle.std.specs.Prelude.{◌≡◌, ◌≤◌, ◌<◌, ℕ, List, [], ◌∷◌, length, None};
ghost use Rattle.schema_catalog.specs.Places.{NamedColumns};
ghost use Rattle.smo_ops_types.specs.Commands.{PlainBody, PlainCommand};
ghost use Rattle.smo_ops_spec.specs.History.{past_of};
ghost use Rattle.relations_spec.specs.Spans.{forever};
ghost use Rattle.smo_ops_spec.specs.Past.{Past, tables_of};
ghost use Rattle.smo_ops_spec.specs.ValidPast.{AreStates, EachStarts};
ghost use Rattle.smo_ops_versions_spec.specs.Migration.{migrated};
ghost use Rattle.temporal_lang_types.specs.Queries.{PlainQuery, slice_of, IsLasting};
ghost use Rattle.temporal_lang_spec.specs.Answers.{answer};
ghost use Rattle.version_export_past_spec.specs.Showing.{tables_in};
ghost use Rattle.version_export.specs.Exported.{on_version, exported, creating_one};
ghost use Rattle.version_export.specs.Refused.{export_fault};
ghost use Rattle.version_export.specs.Whole.{IsExportable, Creates, IsGood};

/// An answer is of the migrated databases of the slice's moments alone: where two pasts have the
/// same tables in a version each, and show the same there at each moment of a query's slice, the
/// query has the same answer on both.
pub fn answers_are_of_the_migrated_databases()
    ensures is { (p : Past) → (r : Past) → (query : PlainQuery) → (version : ℕ)
        → tables_of p query.version ≡ tables_of r version
        → ((m : ℕ) → (slice_of query.when).start ≤ m → m < (slice_of query.when).end
        → migrated p m query.version ≡ migrated r m version)
        → AreStates p.states → EachStarts p.states p.versions → AreStates r.states
        → EachStarts r.states r.versions → IsLasting query.when
        → (slice_of query.when).end ≤ forever
        → answer p query ≡ answer r (on_version version query) }
{}

/// An export that is not refused is good: its script is cut into as many statements as there are
/// commands, each is read as its command, the commands are a history, and each query that is
/// accepted on the exported version is accepted on version 1 of that history's past and has the
/// same answer there. `creating` is the body of the EVOLVE that creates the version's tables.
pub fn an_export_answers_alike()
    ensures some { (history : List PlainCommand) → (version : ℕ) → IsExportable history version
        → (creating : List NamedColumns → PlainBody)
        → 1 ≤ length (tables_in (past_of history) version)
        → Creates creating (past_of history) version
        → export_fault (past_of history) version ≡ None
        → IsGood (exported creating (past_of history) version) (past_of history) version }
    ensures one { (history : List PlainCommand) → (version : ℕ) → IsExportable history version
        → (t : NamedColumns) → tables_in (past_of history) version ≡ t ∷ []
        → export_fault (past_of history) version ≡ None
        → IsGood (exported creating_one (past_of history) version) (past_of history) version }
{}
