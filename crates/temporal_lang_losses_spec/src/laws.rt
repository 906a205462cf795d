ghost use Rattle.std.specs.Prelude.{◌≡◌, ◌<◌, ◌≤◌, ℕ, List, None};
ghost use Rattle.prima_base.specs.declared.value.Value.{Value as OneValue};
ghost use Rattle.prima_base.specs.declared.value.ColType.{ColType as Kind};
ghost use Rattle.schema_catalog.specs.Databases.{Database, IsDatabase};
ghost use Rattle.cond_expr.specs.Kinds.{value_kind};
ghost use Rattle.smo_ops_types.specs.Commands.{PlainVersion};
ghost use Rattle.smo_ops_spec.specs.Past.{Past, no_tables, tables_from};
ghost use Rattle.smo_ops_spec.specs.ValidPast.{AreVersions, IsPast};
ghost use Rattle.smo_ops_versions_spec.specs.Migration.{migrated_from};
ghost use Rattle.smo_ops_versions_spec.specs.LostNames.{lost_names};
ghost use Rattle.plain_answers_spec.specs.Branches.{PlainBranch, plain};
ghost use Rattle.temporal_lang_types.specs.Queries.{PlainQuery, slice_of};
ghost use Rattle.temporal_lang_spec.specs.Answers.{asked_at};
ghost use Rattle.temporal_lang_spec.specs.Losing.{items_loss, first_lost};
ghost use Rattle.temporal_lang_losses_spec.specs.Filled.{migrated_with, asked_with};
ghost use Rattle.temporal_lang_losses_spec.specs.LawOfLosses.{LawOfLosses};

/// Two databases that agree up to losses agree again, up to the losses that are told by names
/// alone, behind each step of a way: an operator that is accepted on the schema; two fillings of
/// one column, one for each database, by any two constants of one type; and the way back over an
/// operator that has none. And the plain answer of branches none of whose items is lost is the same
/// over two databases that agree up to the losses.
pub fn databases_agree_up_to_losses()
    ensures { LawOfLosses }
{}

/// Along the versions of a past databases that are filled by different constants agree up to the
/// losses that are told by names alone. So the plain answer of branches none of whose items is lost
/// shows no filling: it would be the same with any other constants. Neither does what a query asks
/// of any moment of its slice, where it has no first loss.
pub fn no_answer_shows_a_filling()
    ensures plain { (versions : List PlainVersion) → (v : ℕ) → (q : ℕ) → (database : Database)
        → (branches : List PlainBranch) → (constants : Kind → OneValue)
        → ((k : Kind) → value_kind (constants k) ≡ k)
        → AreVersions None no_tables versions
        → IsDatabase (tables_from no_tables versions v) database
        → items_loss (lost_names versions v q) branches ≡ None
        → plain (tables_from no_tables versions q) branches
        (migrated_from versions v q database)
        ≡ plain (tables_from no_tables versions q) branches
        (migrated_with constants versions v q database) }
    ensures asked { (past : Past) → (query : PlainQuery) → (m : ℕ)
        → (constants : Kind → OneValue) → ((k : Kind) → value_kind (constants k) ≡ k)
        → IsPast past → first_lost past query ≡ None
        → (slice_of query.when).start ≤ m → m < (slice_of query.when).end
        → asked_at past query m ≡ asked_with constants past query m }
{}
