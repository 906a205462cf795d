ghost use Rattle.std.specs.Prelude.{◌≡◌, ◌↔◌, ◌+◌, ◌<◌, ◌≤◌, ℕ, List, [], ◌∷◌, ◌++◌, Some, None};
ghost use Rattle.std.specs.Prelude.{length, slice_get};
ghost use Rattle.std.specs.FinMap.{get, insert};
ghost use Rattle.prima_base.specs.declared.refusal.OpRefusal.{OpRefusal};
ghost use Rattle.prima_base.specs.declared.refusal.Refusal.TheVariants.{InverseMisses, InverseOp};
ghost use Rattle.relations_spec.specs.Sets.{In, Ascends, set_of};
ghost use Rattle.relations_spec.specs.Spans.{forever};
ghost use Rattle.prima_base.specs.Order.{row_cmp};
ghost use Rattle.prima_base.specs.declared.value.Value.{Value};
ghost use Rattle.prima_base.specs.Columns.{Column, AreColumns, IsRelation, IsValid as IsValidValue};
ghost use Rattle.schema_catalog.specs.Tables.{Tables, IsSchema};
ghost use Rattle.schema_catalog.specs.Databases.{Database, IsDatabase, Rows};
ghost use Rattle.smo_ops_types.specs.Operators.{Operator, create_table};
ghost use Rattle.smo_ops_types.specs.Changes.{PlainChange};
ghost use Rattle.smo_ops_spec.specs.First.{first_refusal};
ghost use Rattle.smo_ops_spec.specs.OneRow.{Row, Relation};
ghost use Rattle.smo_ops_spec.specs.Effects.{relation_after, after_each, gained_rows, gained, lost};
ghost use Rattle.smo_ops_spec.specs.Inserting.{relation_after_each, insertions};
ghost use Rattle.smo_ops_spec.specs.After.{op_fault, schema_after, migrate, IsValid};
ghost use Rattle.smo_ops_spec.specs.After.{HaveFewNodes, AllHaveFewNodes};
ghost use Rattle.smo_ops_spec.specs.Evolutions.{schema_after_each, AllOperatorsAccepted};
ghost use Rattle.smo_ops_spec.specs.Evolutions.{members_nodes, counted_from, evolution_fault};
ghost use Rattle.smo_ops_spec.specs.Inverses.{inverse_fault, schema_after_all};
ghost use Rattle.smo_ops_spec.specs.Inverses.{AllAcceptedInTurn, IsFirstRefused, IsMissed};
ghost use Rattle.smo_ops_spec.specs.Checks.{tests_after, changes_fault};
ghost use Rattle.smo_ops_types.specs.Commands.{PlainCommand, PlainVersion, evolving};
ghost use Rattle.smo_ops_spec.specs.Counts.{first_excess};
ghost use Rattle.smo_ops_spec.specs.Past.{Past, beginning, newest_tables, tables_of, past_with};
ghost use Rattle.smo_ops_spec.specs.Past.{version_at, database_at, next_database};
ghost use Rattle.smo_ops_spec.specs.InForce.{in_force};
ghost use Rattle.smo_ops_spec.specs.ValidPast.{IsPast};
ghost use Rattle.smo_ops_spec.specs.ValidValues.{HoldsValues, OperatorHolds, ChangesHold};
ghost use Rattle.smo_ops_spec.specs.ValidValues.{BodyHolds};
ghost use Rattle.smo_ops_spec.specs.ValidValues.{CommandsHold, PastHolds};
ghost use Rattle.smo_ops_spec.specs.Accepts.{command_fault};
ghost use Rattle.smo_ops_spec.specs.History.{past_of, state_at, IsHistory, HasState};

/// A change that the check accepts keeps a relation of the table's columns: its rows stay in
/// ascending order, each with a value of its type for each column.
pub fn change_keeps_a_relation()
    ensures { (columns : List Column) → (change : PlainChange) → (at : ℕ) → (rows : Relation)
        → AreColumns columns → IsRelation columns rows
        → first_refusal (tests_after columns change at) ≡ None
        → IsRelation columns (relation_after columns change rows) }
{}

/// A command's changes that the check accepts keep a database of the schema.
pub fn changes_keep_a_database()
    ensures { (tables : Tables) → (database : Database) → (changes : List PlainChange)
        → IsSchema tables → IsDatabase tables database
        → changes_fault tables changes ≡ None
        → IsDatabase tables (after_each tables changes database) }
{}

/// Changes that are all INSERTs, one after the other, make of a relation its union with the rows
/// that they give.
pub fn insertions_are_a_union()
    ensures relation { (columns : List Column) → (changes : List PlainChange) → (given : Relation)
        → (rows : Relation)
        → Ascends row_cmp rows → insertions columns changes ≡ Some given
        → relation_after_each columns changes rows ≡ set_of row_cmp (rows ++ given) }
    ensures listed { (columns : List Column) → (changes : List PlainChange) → (given : Relation)
        → (rows : Relation)
        → insertions columns changes ≡ Some given
        → relation_after_each columns changes (set_of row_cmp rows)
        ≡ set_of row_cmp (rows ++ given) }
{}

/// After an accepted CREATE TABLE the schema is valid, and has a database with the new table, whose
/// rows are none.
pub fn create_table_is_valid()
    ensures schema { (tables : Tables) → (r : List ℕ) → (columns : List Column) → IsValid tables
        → op_fault tables (create_table r columns) ≡ None
        → IsValid (schema_after tables (create_table r columns)) }
    ensures database { (tables : Tables) → (database : Database) → (r : List ℕ)
        → (columns : List Column) → IsDatabase tables database
        → IsDatabase (schema_after tables (create_table r columns))
        (migrate tables (create_table r columns) database) }
{}

/// Operators that together make a version are refused by the first of them that is refused on the
/// schema behind those before it, with its refusal, in which the number of a node counts on behind
/// the nodes of those before it. They are accepted just where each is accepted on the schema behind
/// those before it; and one operator alone is refused as it is by itself.
pub fn a_list_is_refused_by_its_first_refused_member()
    ensures refused { (now : Tables) → (earlier : List Operator) → (op : Operator)
        → (later : List Operator) → (refusal : OpRefusal) → AllOperatorsAccepted now earlier
        → op_fault (schema_after_each now earlier) op ≡ Some refusal
        → evolution_fault now (earlier ++ op ∷ later)
        ≡ Some (counted_from (members_nodes earlier) refusal) }
    ensures accepted { (now : Tables) → (ops : List Operator) → AllOperatorsAccepted now ops
        → evolution_fault now ops ≡ None }
    ensures each { (now : Tables) → (ops : List Operator) → evolution_fault now ops ≡ None
        → AllOperatorsAccepted now ops }
    ensures one { (now : Tables) → (op : Operator)
        → evolution_fault now (op ∷ []) ≡ op_fault now op }
{}

/// Where a command's counts are within their limits, its operator and those of its inverse have few
/// nodes, and the inverse has at most 8 of them.
pub fn counted_operators_are_few()
    ensures { (op : List Operator) → (inverse : List (List Operator))
        → first_excess (evolving op inverse) ≡ None
        → HaveFewNodes op × AllHaveFewNodes inverse × (length inverse ≤ 8) }
{}

/// An inverse is refused at the first of its operators that is refused on the schema that stands
/// then. Where none is, it is refused at the first name, in name order, under which the last schema
/// and the one before the operator differ, and accepted where they do not; and it is accepted where
/// it names no operator. So of a named inverse that is not refused each operator is accepted on the
/// schema that stands then, and the last schema is the one before the operator.
pub fn an_inverse_leads_back()
    ensures refused { (before : Tables) → (op : List Operator) → (earlier : List (List Operator))
        → (x : List Operator) → (later : List (List Operator)) → (refusal : OpRefusal)
        → IsFirstRefused (schema_after_each before op) earlier x refusal
        → inverse_fault before op (earlier ++ x ∷ later)
        ≡ Some (InverseOp (length earlier + 1) refusal) }
    ensures misses { (before : Tables) → (op : List Operator) → (x : List Operator)
        → (inverse : List (List Operator)) → (name : List ℕ)
        → IsMissed before (schema_after_each before op) (x ∷ inverse) name
        → inverse_fault before op (x ∷ inverse) ≡ Some (InverseMisses name) }
    ensures accepted { (before : Tables) → (op : List Operator) → (inverse : List (List Operator))
        → AllAcceptedInTurn (schema_after_each before op) inverse
        → schema_after_all (schema_after_each before op) inverse ≡ before
        → inverse_fault before op inverse ≡ None }
    ensures leads { (before : Tables) → (op : List Operator) → (x : List Operator) → (inverse : List (List Operator))
        → inverse_fault before op (x ∷ inverse) ≡ None
        → AllAcceptedInTurn (schema_after_each before op) (x ∷ inverse)
        × (schema_after_all (schema_after_each before op) (x ∷ inverse) ≡ before) }
    ensures unnamed { (before : Tables) → (op : List Operator) → inverse_fault before op [] ≡ None }
{}

/// The rows gained and lost fit the numbers of rows before and after.
pub fn gains_and_losses_fit()
    ensures { (columns : List Column) → (old : Relation) → (new : Relation) → IsRelation columns old
        → IsRelation columns new
        → length new + length (gained_rows new old) ≡ length old + length (gained_rows old new) }
{}

/// The rows gained and lost are counted table by table: from a database to itself none are; and
/// where one table's rows `was`, which are `a` in the old database, become `now`, only that table's
/// counts change.
pub fn counts_are_by_table()
    ensures none { (database : Database) → (gained database database ≡ 0)
        × (lost database database ≡ 0) }
    ensures gained { (old : Database) → (new : Database) → (t : List ℕ) → (a : Relation)
        → (was : Relation) → (now : Relation)
        → get old t ≡ Some (Rows a) → get new t ≡ Some (Rows was)
        → gained old (insert new t (Rows now)) + length (gained_rows a was)
        ≡ gained old new + length (gained_rows a now) }
    ensures lost { (old : Database) → (new : Database) → (t : List ℕ) → (a : Relation)
        → (was : Relation) → (now : Relation)
        → get old t ≡ Some (Rows a) → get new t ≡ Some (Rows was)
        → lost old (insert new t (Rows now)) + length (gained_rows was a)
        ≡ lost old new + length (gained_rows now a) }
{}

/// Two databases of the same tables are one where no row is gained and none lost from one to the
/// other.
pub fn no_gain_and_no_loss_is_no_change()
    ensures { (tables : Tables) → (a : Database) → (b : Database) → IsDatabase tables a
        → IsDatabase tables b → gained a b ≡ 0 → lost a b ≡ 0 → a ≡ b }
{}

/// A past that accepted commands have made is valid: its newest database is one of its newest
/// schema, and at each moment its database is one of the version then in force; its states ascend
/// from moment 0, and neither a state nor a version begins after the last stamp. A state begins
/// with each version, and else only where the database changes. Each version has evolved from the
/// one before, by an operator and an inverse that are not refused there and whose counts are within
/// their limits.
pub fn commands_make_valid_pasts()
    ensures beginning { IsPast beginning }
    ensures step { (past : Past) → (command : PlainCommand) → IsPast past
        → command_fault past command ≡ None
        → IsPast (past_with past command) }
    ensures counted { (past : Past) → (k : ℕ) → (v : PlainVersion) → IsPast past
        → slice_get past.versions k ≡ Some v
        → first_excess (evolving v.op v.inverse) ≡ None }
    ensures accepted { (past : Past) → (k : ℕ) → (v : PlainVersion) → IsPast past
        → slice_get past.versions k ≡ Some v
        → evolution_fault (tables_of past k) v.op ≡ None }
    ensures inverse { (past : Past) → (k : ℕ) → (v : PlainVersion) → IsPast past
        → slice_get past.versions k ≡ Some v
        → inverse_fault (tables_of past k) v.op v.inverse ≡ None }
    ensures evolved { (past : Past) → (k : ℕ) → (v : PlainVersion) → IsPast past
        → slice_get past.versions k ≡ Some v
        → v.tables ≡ schema_after_each (tables_of past k) v.op }
{}

/// Whether a command is accepted depends on the newest schema, on how many versions there are, and
/// on the last stamp alone.
pub fn a_command_is_checked_by_the_newest_schema()
    ensures { (p : Past) → (q : Past) → newest_tables p ≡ newest_tables q
        → length p.versions ≡ length q.versions → p.last ≡ q.last
        → (command : PlainCommand) → command_fault p command ≡ command_fault q command }
{}

/// A version of a valid past is in force just at the moments from its own stamp, version 0 from
/// moment 0, up to the stamp of the next version, the newest to the end of time.
pub fn a_version_is_in_force_up_to_the_next()
    ensures { (past : Past) → (k : ℕ) → (m : ℕ) → IsPast past → k ≤ length past.versions
        → m < forever
        → (version_at past m ≡ k) ↔ ((in_force past.versions k).start ≤ m
        × m < (in_force past.versions k).end) }
{}

/// With an accepted command the past is as before at each moment before the command's stamp, and
/// from the stamp on it has the changed or carried database.
pub fn a_command_is_seen_from_its_stamp_on()
    ensures before { (past : Past) → (command : PlainCommand) → (m : ℕ) → m < command.stamp
        → database_at (past_with past command) m ≡ database_at past m }
    ensures from { (past : Past) → (command : PlainCommand) → (m : ℕ) → IsPast past
        → command_fault past command ≡ None → command.stamp ≤ m
        → database_at (past_with past command) m ≡ next_database command.body past }
{}

/// The past of a history, in which each command is accepted after those before it, has at each
/// moment what the commands of stamp at most it make one after the other, from version 0 and the
/// empty database: the version in force, its tables, and a database of them. And it counts the
/// commands.
pub fn a_past_has_the_states_of_its_history()
    ensures states { (commands : List PlainCommand) → (m : ℕ) → IsHistory commands
        → HasState (past_of commands) m (state_at commands m) }
    ensures count { (commands : List PlainCommand) → (past_of commands).commands ≡ length commands }
{}

/// Two valid pasts of the same versions that have the same database at each moment have the same
/// states.
pub fn pasts_that_agree_have_the_same_states()
    ensures { (p : Past) → (q : Past) → IsPast p → IsPast q → p.versions ≡ q.versions
        → ((m : ℕ) → database_at p m ≡ database_at q m)
        → p.states ≡ q.states }
{}

/// A database holds valid values just where each value of each row of each of its tables is valid:
/// an INT from -2^63 to 2^63 - 1, or a TEXT of at most 4,096 bytes and no control byte. Valid
/// values stay valid: over an operator and over changes whose constants are; and so a past whose
/// commands have valid constants holds valid values in its database at each moment, and in the
/// operators and the inverses of its versions.
pub fn valid_values_stay()
    ensures migrate { (tables : Tables) → (op : Operator) → (database : Database) → OperatorHolds op
        → HoldsValues database
        → HoldsValues (migrate tables op database) }
    ensures changed { (tables : Tables) → (changes : List PlainChange) → (database : Database)
        → ChangesHold changes → HoldsValues database
        → HoldsValues (after_each tables changes database) }
    ensures beginning { PastHolds beginning }
    ensures step { (past : Past) → (command : PlainCommand) → IsPast past
        → command_fault past command ≡ None → BodyHolds command.body → PastHolds past
        → PastHolds (past_with past command) }
    ensures history { (commands : List PlainCommand) → IsHistory commands → CommandsHold commands
        → PastHolds (past_of commands) }
    ensures each { (database : Database) → (n : List ℕ) → (rows : Relation) → (row : Row)
        → (v : Value) → HoldsValues database
        → get database n ≡ Some (Rows rows) → In row rows → In v row → IsValidValue v }
    ensures all { (database : Database)
        → ((n : List ℕ) → (rows : Relation) → (row : Row) → (v : Value)
        → get database n ≡ Some (Rows rows) → In row rows → In v row → IsValidValue v)
        → HoldsValues database }
{}
