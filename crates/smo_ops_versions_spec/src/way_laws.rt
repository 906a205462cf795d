ghost use Rattle.std.specs.Prelude.{◌≡◌, ◌+◌, ◌<◌, ◌≤◌, ℕ, List, [], ◌∷◌, None, Some, true, false};
ghost use Rattle.std.specs.Prelude.{slice_get};
ghost use Rattle.std.specs.FinMap.{get, empty};
ghost use Rattle.schema_catalog.specs.Tables.{Tables};
ghost use Rattle.schema_catalog.specs.Databases.{Database, IsDatabase, Rows, Lost};
ghost use Rattle.smo_ops_types.specs.Operators.{Operator};
ghost use Rattle.smo_ops_types.specs.Commands.{PlainVersion};
ghost use Rattle.smo_ops_spec.specs.Losses.{IsDatabaseWithLosses, Loss, loss_in};
ghost use Rattle.smo_ops_spec.specs.Touching.{makes, consumes};
ghost use Rattle.smo_ops_spec.specs.After.{op_fault, schema_after, migrate, IsValid};
ghost use Rattle.smo_ops_spec.specs.Evolutions.{carried_each, members_of_all};
ghost use Rattle.smo_ops_spec.specs.Past.{no_tables, tables_from};
ghost use Rattle.smo_ops_spec.specs.ValidPast.{AreVersions};
ghost use Rattle.smo_ops_spec.specs.ValidValues.{HoldsValues, VersionsHold};
ghost use Rattle.smo_ops_spec.specs.WaysBack.{FilledColumn, by_inverse, by_filling, no_way};
ghost use Rattle.smo_ops_spec.specs.WaysBack.{way_back_over, blank, filled_with, WayLeadsBack};
ghost use Rattle.smo_ops_versions_spec.specs.TableColumns.{HaveColumns};
ghost use Rattle.smo_ops_versions_spec.specs.Steps.{carrying_each, taken};
ghost use Rattle.smo_ops_versions_spec.specs.Ways.{step_back, back_over_members};
ghost use Rattle.smo_ops_versions_spec.specs.Ways.{to_next, from_next};
ghost use Rattle.smo_ops_versions_spec.specs.Migration.{stepped, migrate_over, migrate_along};
ghost use Rattle.smo_ops_versions_spec.specs.Migration.{back, migrated_from};
ghost use Rattle.smo_ops_versions_spec.specs.LostTables.{LostTables, AreLosses, lost_stepped};
ghost use Rattle.smo_ops_versions_spec.specs.LostTables.{lost_over};
ghost use Rattle.smo_ops_versions_spec.specs.LostTables.{lost_undone, lost_tables};
ghost use Rattle.smo_ops_versions_spec.specs.ColumnLosses.{table_loss, column_loss, NothingLost};
ghost use Rattle.smo_ops_versions_spec.specs.LostNames.{lost_names, IsUnnamed};
ghost use Rattle.smo_ops_versions_spec.specs.LostAsEmpty.{whole};

/// The way from version to version, one step at a time and by way of a version between: to where
/// one stands it changes nothing; to the next version it is carrying over that version's operator
/// after the way up to it; to the version before it is the step back after the way down to it;
/// and by way of a version between it is the two ways one after the other. The same of the tables
/// that are lost on it, by names alone: where one stands none is.
pub fn the_way_is_step_by_step()
    ensures stays { (versions : List PlainVersion) → (v : ℕ) → (database : Database)
        → migrated_from versions v v database ≡ database }
    ensures forward { (versions : List PlainVersion) → (v : ℕ) → (q : ℕ)
        → (database : Database) → v ≤ q
        → migrated_from versions v (q + 1) database
        ≡ migrate_along versions q (migrated_from versions v q database) }
    ensures back { (versions : List PlainVersion) → (v : ℕ) → (q : ℕ) → (database : Database)
        → q < v
        → migrated_from versions v q database
        ≡ back versions q (migrated_from versions v (q + 1) database) }
    ensures forward_by { (versions : List PlainVersion) → (v : ℕ) → (m : ℕ) → (q : ℕ)
        → (database : Database) → v ≤ m → m ≤ q
        → migrated_from versions v q database
        ≡ migrated_from versions m q (migrated_from versions v m database) }
    ensures back_by { (versions : List PlainVersion) → (v : ℕ) → (m : ℕ) → (q : ℕ)
        → (database : Database) → q ≤ m → m ≤ v
        → migrated_from versions v q database
        ≡ migrated_from versions m q (migrated_from versions v m database) }
    ensures losses_stay { (versions : List PlainVersion) → (v : ℕ)
        → lost_tables versions v v ≡ empty }
    ensures losses_forward { (versions : List PlainVersion) → (v : ℕ) → (q : ℕ) → v ≤ q
        → lost_tables versions v (q + 1)
        ≡ taken lost_stepped (to_next versions q) (lost_tables versions v q) }
    ensures losses_back { (versions : List PlainVersion) → (v : ℕ) → (q : ℕ) → q < v
        → lost_tables versions v q
        ≡ taken lost_stepped (from_next versions q) (lost_tables versions v (q + 1)) }
{}

/// What one step of a way is, at the version number `k + 1`, the one after the tables of version
/// `k`. To it a database is carried over the members of the version's operator, first to last. Back
/// from it, where an inverse is named, it is carried over the members of the inverse's operators,
/// first to last, each after the one before. Where none is named, it is taken back over the members
/// of the operator, last to first, each by what stands before it: over a member that has a derived
/// inverse it is carried over that; a dropped column is filled with the constant of its type; and
/// where the member has no way back, each table that it consumed is lost by it, each that it made
/// and did not consume is gone, and all others stay. The first member of version `k + 1` has the
/// loss `(k + 1, 1)`, the next one `(k + 1, 2)`. The same, by names alone, of the tables that are
/// lost.
pub fn a_step_is_over_its_version()
    ensures forward { (versions : List PlainVersion) → (k : ℕ) → (v : PlainVersion)
        → (database : Database) → slice_get versions k ≡ Some v
        → migrate_along versions k database
        ≡ carried_each (tables_from no_tables versions k) v.op database }
    ensures named { (versions : List PlainVersion) → (k : ℕ) → (v : PlainVersion)
        → (database : Database) → (op : List Operator) → (rest : List (List Operator))
        → slice_get versions k ≡ Some v → v.inverse ≡ op ∷ rest
        → back versions k database ≡ migrate_over v.tables (members_of_all v.inverse) database }
    ensures over_none { (tables : Tables) → (database : Database)
        → migrate_over tables [] database ≡ database }
    ensures over_each { (tables : Tables) → (op : Operator) → (ops : List Operator)
        → (database : Database) → migrate_over tables (op ∷ ops) database
        ≡ migrate_over (schema_after tables op) ops (migrate tables op database) }
    ensures unnamed { (versions : List PlainVersion) → (k : ℕ) → (v : PlainVersion)
        → (database : Database) → slice_get versions k ≡ Some v → v.inverse ≡ []
        → back versions k database
        ≡ taken stepped (back_over_members (k + 1) 1 (tables_from no_tables versions k) v.op)
        database }
    ensures back_none { (k : ℕ) → (i : ℕ) → (before : Tables) → (database : Database)
        → taken stepped (back_over_members k i before []) database ≡ database }
    ensures back_each { (k : ℕ) → (i : ℕ) → (before : Tables) → (op : Operator)
        → (ops : List Operator) → (database : Database)
        → taken stepped (back_over_members k i before (op ∷ ops)) database
        ≡ stepped (step_back (k, i) before op)
        (taken stepped (back_over_members k (i + 1) (schema_after before op) ops) database) }
    ensures derived { (loss : Loss) → (before : Tables) → (op : Operator) → (database : Database)
        → (inverse : Operator) → way_back_over before op ≡ by_inverse inverse
        → stepped (step_back loss before op) database
        ≡ migrate (schema_after before op) inverse database }
    ensures filled { (loss : Loss) → (before : Tables) → (op : Operator) → (database : Database)
        → (f : FilledColumn) → way_back_over before op ≡ by_filling f
        → stepped (step_back loss before op) database
        ≡ migrate (schema_after before op) (filled_with blank f) database }
    ensures lost { (loss : Loss) → (before : Tables) → (op : Operator) → (database : Database)
        → (n : List ℕ) → way_back_over before op ≡ no_way → consumes before op n ≡ true
        → get (stepped (step_back loss before op) database) n ≡ Some (Lost loss.0 loss.1) }
    ensures gone { (loss : Loss) → (before : Tables) → (op : Operator) → (database : Database)
        → (n : List ℕ) → way_back_over before op ≡ no_way → makes before op n ≡ true
        → consumes before op n ≡ false
        → get (stepped (step_back loss before op) database) n ≡ None }
    ensures others { (loss : Loss) → (before : Tables) → (op : Operator) → (database : Database)
        → (n : List ℕ) → way_back_over before op ≡ no_way → makes before op n ≡ false
        → consumes before op n ≡ false
        → get (stepped (step_back loss before op) database) n ≡ get database n }
    ensures losses_over { (versions : List PlainVersion) → (k : ℕ) → (v : PlainVersion)
        → (losses : LostTables) → slice_get versions k ≡ Some v
        → taken lost_stepped (to_next versions k) losses
        ≡ taken lost_stepped (carrying_each (tables_from no_tables versions k) v.op) losses }
    ensures losses_over_none { (tables : Tables) → (losses : LostTables)
        → taken lost_stepped (carrying_each tables []) losses ≡ losses }
    ensures losses_over_each { (tables : Tables) → (op : Operator) → (ops : List Operator)
        → (losses : LostTables) → taken lost_stepped (carrying_each tables (op ∷ ops)) losses
        ≡ taken lost_stepped (carrying_each (schema_after tables op) ops)
        (lost_over tables op losses) }
    ensures losses_named { (versions : List PlainVersion) → (k : ℕ) → (v : PlainVersion)
        → (losses : LostTables) → (op : List Operator) → (rest : List (List Operator))
        → slice_get versions k ≡ Some v → v.inverse ≡ op ∷ rest
        → taken lost_stepped (from_next versions k) losses
        ≡ taken lost_stepped (carrying_each v.tables (members_of_all v.inverse)) losses }
    ensures losses_unnamed { (versions : List PlainVersion) → (k : ℕ) → (v : PlainVersion)
        → (losses : LostTables) → slice_get versions k ≡ Some v → v.inverse ≡ []
        → taken lost_stepped (from_next versions k) losses
        ≡ taken lost_stepped (back_over_members (k + 1) 1 (tables_from no_tables versions k) v.op)
        losses }
    ensures losses_back_none { (k : ℕ) → (i : ℕ) → (before : Tables) → (losses : LostTables)
        → taken lost_stepped (back_over_members k i before []) losses ≡ losses }
    ensures losses_back_each { (k : ℕ) → (i : ℕ) → (before : Tables) → (op : Operator)
        → (ops : List Operator) → (losses : LostTables)
        → taken lost_stepped (back_over_members k i before (op ∷ ops)) losses
        ≡ lost_stepped (step_back (k, i) before op)
        (taken lost_stepped (back_over_members k (i + 1) (schema_after before op) ops) losses) }
    ensures losses_derived { (loss : Loss) → (before : Tables) → (op : Operator)
        → (losses : LostTables) → (inverse : Operator)
        → way_back_over before op ≡ by_inverse inverse
        → lost_stepped (step_back loss before op) losses
        ≡ lost_over (schema_after before op) inverse losses }
    ensures losses_filled { (loss : Loss) → (before : Tables) → (op : Operator)
        → (losses : LostTables) → (f : FilledColumn) → way_back_over before op ≡ by_filling f
        → lost_stepped (step_back loss before op) losses
        ≡ lost_over (schema_after before op) (filled_with blank f) losses }
    ensures losses_undone { (loss : Loss) → (before : Tables) → (op : Operator)
        → (losses : LostTables) → way_back_over before op ≡ no_way
        → lost_stepped (step_back loss before op) losses ≡ lost_undone loss before op losses }
{}

/// What is taken along the versions of a past is a database of the version that is reached, in
/// which tables may be lost: over each operator, and back over each.
pub fn the_way_keeps_a_database()
    ensures way { (versions : List PlainVersion) → (v : ℕ) → (q : ℕ) → (database : Database)
        → AreVersions None no_tables versions
        → IsDatabaseWithLosses (tables_from no_tables versions v) database
        → IsDatabaseWithLosses (tables_from no_tables versions q)
        (migrated_from versions v q database) }
    ensures forward { (versions : List PlainVersion) → (k : ℕ) → (database : Database)
        → AreVersions None no_tables versions
        → IsDatabaseWithLosses (tables_from no_tables versions k) database
        → IsDatabaseWithLosses (tables_from no_tables versions (k + 1))
        (migrate_along versions k database) }
    ensures back { (versions : List PlainVersion) → (k : ℕ) → (database : Database)
        → AreVersions None no_tables versions
        → IsDatabaseWithLosses (tables_from no_tables versions (k + 1)) database
        → IsDatabaseWithLosses (tables_from no_tables versions k) (back versions k database) }
{}

/// Along versions whose operators and inverses have valid constants valid values stay valid: over
/// each operator, and back over each.
pub fn the_way_keeps_valid_values()
    ensures way { (versions : List PlainVersion) → (v : ℕ) → (q : ℕ) → (database : Database)
        → VersionsHold versions → HoldsValues database
        → HoldsValues (migrated_from versions v q database) }
    ensures forward { (versions : List PlainVersion) → (k : ℕ) → (database : Database)
        → VersionsHold versions → HoldsValues database
        → HoldsValues (migrate_along versions k database) }
    ensures back { (versions : List PlainVersion) → (k : ℕ) → (database : Database)
        → VersionsHold versions → HoldsValues database → HoldsValues (back versions k database) }
{}

/// The tables that are lost in a database on the way from one version to another are told by names
/// alone, each with its loss. A table that is not mapped by the losses of tables and columns is
/// none of them.
pub fn names_tell_what_is_lost()
    ensures database { (versions : List PlainVersion) → (v : ℕ) → (q : ℕ) → (database : Database)
        → IsDatabase (tables_from no_tables versions v) database
        → AreLosses (lost_tables versions v q) (migrated_from versions v q database) }
    ensures mapped { (versions : List PlainVersion) → (v : ℕ) → (q : ℕ) → (n : List ℕ)
        → table_loss (lost_names versions v q) n ≡ None
        → get (lost_tables versions v q) n ≡ None }
{}

/// A table or a column that is lost on the way from one version to another is lost by a version
/// that is gone back over on that way, that names no inverse, and by a member of its operator that
/// has no derived one. So nothing is lost on the way forward, nor back over versions with a named or a derived
/// inverse.
pub fn what_is_lost_has_no_inverse()
    ensures table { (versions : List PlainVersion) → (v : ℕ) → (q : ℕ) → (n : List ℕ)
        → (loss : Loss)
        → table_loss (lost_names versions v q) n ≡ Some loss → IsUnnamed versions v q loss }
    ensures column { (versions : List PlainVersion) → (v : ℕ) → (q : ℕ) → (n : List ℕ)
        → (c : List ℕ) → (loss : Loss)
        → column_loss (lost_names versions v q) n c ≡ Some loss → IsUnnamed versions v q loss }
{}

/// What is lost on the way back to a version is lost on the way from each later version too, be it
/// a table or a column; and forward nothing is lost.
pub fn what_is_lost_is_lost_from_later_versions()
    ensures table { (versions : List PlainVersion) → (w : ℕ) → (v : ℕ) → (q : ℕ) → (n : List ℕ)
        → q ≤ v → v ≤ w → table_loss (lost_names versions w q) n ≡ None
        → table_loss (lost_names versions v q) n ≡ None }
    ensures column { (versions : List PlainVersion) → (w : ℕ) → (v : ℕ) → (q : ℕ) → (n : List ℕ)
        → (c : List ℕ)
        → q ≤ v → v ≤ w → table_loss (lost_names versions w q) n ≡ None
        → column_loss (lost_names versions w q) n c ≡ None
        → column_loss (lost_names versions v q) n c ≡ None }
    ensures forward { (versions : List PlainVersion) → (v : ℕ) → (q : ℕ) → v ≤ q
        → NothingLost (lost_names versions v q) }
{}

/// Where each table has a column, and so it is behind each accepted operator, a derived inverse is
/// accepted behind its operator and leads back to the tables before it, and so does the filling of
/// a dropped column by any constant of the column's type.
pub fn what_is_derived_leads_back()
    ensures { (before : Tables) → (op : Operator) → IsValid before → HaveColumns before
        → op_fault before op ≡ None → WayLeadsBack before op (way_back_over before op) }
{}

/// Each table of an accepted schema has a column: none of no tables lacks one, each operator that
/// is accepted keeps that, and so it is at every version of a past.
pub fn each_table_has_a_column()
    ensures beginning { HaveColumns no_tables }
    ensures kept { (tables : Tables) → (op : Operator) → IsValid tables → HaveColumns tables
        → op_fault tables op ≡ None → HaveColumns (schema_after tables op) }
    ensures versions { (versions : List PlainVersion) → (k : ℕ)
        → AreVersions None no_tables versions
        → HaveColumns (tables_from no_tables versions k) }
{}

/// With the empty relation in the place of each lost table a database with losses is one without,
/// in which each other table is as it was; and what is carried from it has the same in each table
/// that is not lost after the operator.
pub fn a_lost_table_may_be_taken_for_an_empty_one()
    ensures kept { (database : Database) → (n : List ℕ) → loss_in database n ≡ None
        → get (whole database) n ≡ get database n }
    ensures emptied { (database : Database) → (n : List ℕ) → (loss : Loss)
        → loss_in database n ≡ Some loss → get (whole database) n ≡ Some (Rows []) }
    ensures database { (tables : Tables) → (database : Database)
        → IsDatabaseWithLosses tables database → IsDatabase tables (whole database) }
    ensures migrate { (tables : Tables) → (op : Operator) → (database : Database)
        → op_fault tables op ≡ None → (n : List ℕ)
        → loss_in (migrate tables op database) n ≡ None
        → get (migrate tables op (whole database)) n ≡ get (whole (migrate tables op database)) n }
{}
