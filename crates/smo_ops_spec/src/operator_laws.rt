ghost use Rattle.std.specs.Prelude.{◌≡◌, ◌↔◌, ◌⊎◌, if◌then◌else◌, ℕ, List, [], ◌∷◌, Some, None};
ghost use Rattle.std.specs.Prelude.{true, false};
ghost use Rattle.std.specs.FinMap.{get, contains_key};
ghost use Rattle.relations_spec.specs.Sets.{In};
ghost use Rattle.prima_base.specs.Columns.{Column, IsRow, names_of};
ghost use Rattle.schema_catalog.specs.Tables.{Tables, IsSchema};
ghost use Rattle.schema_catalog.specs.Databases.{cell, Database, IsDatabase, Rows};
ghost use Rattle.cond_expr.specs.Trees.{Tree, Test, always};
ghost use Rattle.cond_expr.specs.Values.{value};
ghost use Rattle.cond_expr.specs.Kinds.{kind_of};
ghost use Rattle.smo_ops_types.specs.Operators.{Operator, nop, create_table, rename_table};
ghost use Rattle.smo_ops_types.specs.Operators.{copy_table};
ghost use Rattle.smo_ops_types.specs.Operators.{merge_table, partition_table, decompose_table};
ghost use Rattle.smo_ops_types.specs.Operators.{join_table, add_column, drop_column, rename_column};
ghost use Rattle.smo_ops_spec.specs.OneRow.{Row, Relation, same, own_cells, own_kinds, meets};
ghost use Rattle.smo_ops_spec.specs.Effects.{columns_of};
ghost use Rattle.smo_ops_spec.specs.Preconditions.{among, type_in};
ghost use Rattle.smo_ops_spec.specs.Making.{union, joined_columns, join_rows};
ghost use Rattle.smo_ops_spec.specs.OperatorTable.{Made, line};
ghost use Rattle.smo_ops_spec.specs.Losses.{IsDatabaseWithLosses, loss_in, first_loss};
ghost use Rattle.smo_ops_spec.specs.Agreeing.{AgreeOn};
ghost use Rattle.smo_ops_spec.specs.Touching.{makes, consumes, made_of};
ghost use Rattle.smo_ops_spec.specs.RowMeaning.{AreParts, RowsFollow, SameBut, SameIn, IsOfJoin};
ghost use Rattle.smo_ops_spec.specs.After.{op_fault, schema_after, migrate, IsValid};

/// After an operator whose preconditions hold, a valid schema is followed by a valid one: each
/// table's columns stand in the order of their names, each once, at most 32 of them, and there are
/// at most 64 tables.
pub fn next_schema_is_valid()
    ensures { (tables : Tables) → (op : Operator) → IsValid tables → op_fault tables op ≡ None
        → IsValid (schema_after tables op) }
{}

/// A table that the operator neither makes nor consumes stays: in the schema with its columns, and
/// in the database with what it has.
pub fn other_tables_stay()
    ensures schema { (tables : Tables) → (op : Operator) → (n : List ℕ) → makes tables op n ≡ false
        → consumes tables op n ≡ false
        → get (schema_after tables op) n ≡ get tables n }
    ensures database { (tables : Tables) → (op : Operator) → (database : Database) → (n : List ℕ)
        → makes tables op n ≡ false → consumes tables op n ≡ false
        → get (migrate tables op database) n ≡ get database n }
{}

/// A consumed table that is not made again is gone. Each consumed table was there.
pub fn consumed_tables_are_gone()
    ensures schema { (tables : Tables) → (op : Operator) → (n : List ℕ) → makes tables op n ≡ false
        → consumes tables op n ≡ true
        → get (schema_after tables op) n ≡ None }
    ensures database { (tables : Tables) → (op : Operator) → (database : Database) → (n : List ℕ)
        → makes tables op n ≡ false → consumes tables op n ≡ true
        → get (migrate tables op database) n ≡ None }
    ensures before { (tables : Tables) → (op : Operator) → (n : List ℕ) → op_fault tables op ≡ None
        → consumes tables op n ≡ true
        → contains_key tables n ≡ true }
{}

/// Each made table is there, with its columns and what it has by its line. It stands in the place
/// of no other table than one that the operator consumes.
pub fn made_tables_are_there()
    ensures schema { (tables : Tables) → (op : Operator) → (m : Made) → op_fault tables op ≡ None
        → In m (line tables op).made
        → get (schema_after tables op) m.name ≡ Some m.columns }
    ensures database { (tables : Tables) → (op : Operator) → (database : Database) → (m : Made)
        → op_fault tables op ≡ None → In m (line tables op).made
        → get (migrate tables op database) m.name ≡ Some (m.entry database) }
    ensures free { (tables : Tables) → (op : Operator) → (n : List ℕ) → op_fault tables op ≡ None
        → makes tables op n ≡ true
        → contains_key tables n ≡ true → consumes tables op n ≡ true }
{}

/// The columns of made tables, by their names: those that a CREATE TABLE names; of a MERGE and of
/// both tables of a PARTITION those before; of a DECOMPOSE those named; of a JOIN those of both
/// tables; and after ADD, DROP and RENAME COLUMN the others as before.
pub fn made_columns_by_name()
    ensures create { (tables : Tables) → (r : List ℕ) → (cs : List Column) → (n : List ℕ)
        → op_fault tables (create_table r cs) ≡ None
        → type_in (columns_of (schema_after tables (create_table r cs)) r) n ≡ type_in cs n }
    ensures merge { (tables : Tables) → (r : List ℕ) → (s : List ℕ) → (t : List ℕ)
        → op_fault tables (merge_table r s t) ≡ None
        → get (schema_after tables (merge_table r s t)) t ≡ get tables r }
    ensures partition { (tables : Tables) → (r : List ℕ) → (s : List ℕ) → (t : List ℕ) → (c : Test)
        → op_fault tables (partition_table r s c t) ≡ None
        → (get (schema_after tables (partition_table r s c t)) s ≡ get tables r)
        × (get (schema_after tables (partition_table r s c t)) t ≡ get tables r) }
    ensures decompose { (tables : Tables) → IsSchema tables → (r : List ℕ) → (s : List ℕ)
        → (xs : List (List ℕ)) → (t : List ℕ) → (ys : List (List ℕ))
        → (n : List ℕ) → op_fault tables (decompose_table r s xs t ys) ≡ None
        → (type_in (columns_of (schema_after tables (decompose_table r s xs t ys)) s) n
        ≡ (if among n xs then type_in (columns_of tables r) n else None))
        × (type_in (columns_of (schema_after tables (decompose_table r s xs t ys)) t) n
        ≡ (if among n ys then type_in (columns_of tables r) n else None)) }
    ensures join { (tables : Tables) → IsSchema tables → (r : List ℕ) → (s : List ℕ) → (t : List ℕ)
        → (c : Test) → (n : List ℕ)
        → op_fault tables (join_table r s t c) ≡ None
        → type_in (columns_of (schema_after tables (join_table r s t c)) t) n
        ≡ (if among n (names_of (columns_of tables r)) then type_in (columns_of tables r) n
        else type_in (columns_of tables s) n) }
    ensures add { (tables : Tables) → IsSchema tables → (r : List ℕ) → (c : List ℕ) → (e : Tree)
        → (n : List ℕ) → op_fault tables (add_column c e r) ≡ None
        → type_in (columns_of (schema_after tables (add_column c e r)) r) n
        ≡ (if same n c then kind_of (own_kinds (columns_of tables r)) e
        else type_in (columns_of tables r) n) }
    ensures drop { (tables : Tables) → IsSchema tables → (r : List ℕ) → (c : List ℕ) → (n : List ℕ)
        → op_fault tables (drop_column c r) ≡ None
        → type_in (columns_of (schema_after tables (drop_column c r)) r) n
        ≡ (if same n c then None else type_in (columns_of tables r) n) }
    ensures rename { (tables : Tables) → IsSchema tables → (r : List ℕ) → (b : List ℕ)
        → (c : List ℕ) → (n : List ℕ) → op_fault tables (rename_column b r c) ≡ None
        → type_in (columns_of (schema_after tables (rename_column b r c)) r) n
        ≡ (if same n c then type_in (columns_of tables r) b else if same n b then None
        else type_in (columns_of tables r) n) }
{}

/// NOP changes nothing.
pub fn nop_changes_nothing()
    ensures schema { (tables : Tables) → schema_after tables nop ≡ tables }
    ensures database { (tables : Tables) → (database : Database)
        → migrate tables nop database ≡ database }
{}

/// The carried database is one of the next schema: it has just its tables, each a relation of its
/// columns; and where tables of the database before are lost, each that is not lost.
pub fn migrated_database_is_of_the_next_schema()
    ensures whole { (tables : Tables) → (op : Operator) → (database : Database) → IsSchema tables
        → op_fault tables op ≡ None → IsDatabase tables database
        → IsDatabase (schema_after tables op) (migrate tables op database) }
    ensures losses { (tables : Tables) → (op : Operator) → (database : Database) → IsSchema tables
        → op_fault tables op ≡ None
        → IsDatabaseWithLosses tables database
        → IsDatabaseWithLosses (schema_after tables op) (migrate tables op database) }
{}

/// A made table is lost just where a table that it is made of is lost, by the loss of the first of
/// these that the operator names.
pub fn losses_are_handed_on()
    ensures { (tables : Tables) → (op : Operator) → (database : Database) → (m : Made)
        → op_fault tables op ≡ None
        → In m (line tables op).made → loss_in (migrate tables op database) m.name
        ≡ first_loss (loss_in database) (made_of op) }
{}

/// What an operator makes depends on the tables that it is made of alone: databases that have the
/// same under their names have the same in each made table.
pub fn made_tables_depend_on_their_inputs()
    ensures entry { (tables : Tables) → (op : Operator) → (a : Database) → (b : Database)
        → AgreeOn (made_of op) a b
        → (m : Made) → In m (line tables op).made → m.entry a ≡ m.entry b }
    ensures migrate { (tables : Tables) → (op : Operator) → (a : Database) → (b : Database)
        → op_fault tables op ≡ None → AgreeOn (made_of op) a b
        → (m : Made) → In m (line tables op).made
        → get (migrate tables op a) m.name ≡ get (migrate tables op b) m.name }
{}

/// The table of a CREATE TABLE has no row.
pub fn created_table_is_empty()
    ensures { (tables : Tables) → (r : List ℕ) → (cs : List Column) → (database : Database)
        → op_fault tables (create_table r cs) ≡ None
        → get (migrate tables (create_table r cs) database) r ≡ Some (Rows []) }
{}

/// RENAME TABLE keeps the table's columns and rows under the new name.
pub fn rename_keeps_the_rows()
    ensures schema { (tables : Tables) → (r : List ℕ) → (t : List ℕ)
        → op_fault tables (rename_table r t) ≡ None
        → get (schema_after tables (rename_table r t)) t ≡ get tables r }
    ensures database { (tables : Tables) → (r : List ℕ) → (t : List ℕ) → (database : Database)
        → op_fault tables (rename_table r t) ≡ None
        → IsDatabaseWithLosses tables database
        → get (migrate tables (rename_table r t) database) t ≡ get database r }
{}

/// COPY TABLE makes a table of the same columns and rows, and the old one stays.
pub fn copy_keeps_the_rows()
    ensures schema { (tables : Tables) → (r : List ℕ) → (t : List ℕ)
        → op_fault tables (copy_table r t) ≡ None
        → (get (schema_after tables (copy_table r t)) t ≡ get tables r)
        × (get (schema_after tables (copy_table r t)) r ≡ get tables r) }
    ensures database { (tables : Tables) → (r : List ℕ) → (t : List ℕ) → (database : Database)
        → op_fault tables (copy_table r t) ≡ None
        → IsDatabaseWithLosses tables database
        → (get (migrate tables (copy_table r t) database) t ≡ get database r)
        × (get (migrate tables (copy_table r t) database) r ≡ get database r) }
{}

/// The two tables of a PARTITION have no common row, the first has those that meet the condition
/// and the second the others, and their union is the table before.
pub fn partition_is_in_two_parts()
    ensures { (tables : Tables) → (r : List ℕ) → (s : List ℕ) → (t : List ℕ) → (c : Test)
        → (database : Database)
        → (rows : Relation) → (meeting : Relation) → (others : Relation)
        → op_fault tables (partition_table r s c t) ≡ None
        → IsDatabaseWithLosses tables database
        → get database r ≡ Some (Rows rows) → get
        (migrate tables (partition_table r s c t) database) s ≡ Some (Rows meeting)
        → get (migrate tables (partition_table r s c t) database) t ≡ Some (Rows others)
        → AreParts (meets (columns_of tables r) c) rows meeting others }
{}

/// MERGE TABLE is the union of the rows, and the order of the two tables makes no difference.
pub fn merge_is_the_union()
    ensures members { (tables : Tables) → (r : List ℕ) → (s : List ℕ) → (t : List ℕ)
        → (database : Database)
        → (first : Relation) → (second : Relation) → (made : Relation) → (row : Row)
        → op_fault tables (merge_table r s t) ≡ None
        → get database r ≡ Some (Rows first) → get database s ≡ Some (Rows second)
        → get (migrate tables (merge_table r s t) database) t ≡ Some (Rows made)
        → In row made ↔ (In row first ⊎ In row second) }
    ensures turned { (first : Relation) → (second : Relation)
        → union first second ≡ union second first }
    ensures fault { (tables : Tables) → (r : List ℕ) → (s : List ℕ) → (t : List ℕ)
        → op_fault tables (merge_table r s t) ≡ None
        → op_fault tables (merge_table s r t) ≡ None }
    ensures schema { (tables : Tables) → (r : List ℕ) → (s : List ℕ) → (t : List ℕ)
        → op_fault tables (merge_table r s t) ≡ None
        → schema_after tables (merge_table r s t) ≡ schema_after tables (merge_table s r t) }
    ensures database { (tables : Tables) → (r : List ℕ) → (s : List ℕ) → (t : List ℕ)
        → (database : Database) → op_fault tables (merge_table r s t) ≡ None
        → IsDatabase tables database → migrate tables (merge_table r s t) database
        ≡ migrate tables (merge_table s r t) database }
{}

/// ADD COLUMN gives each row the expression's value in the new column, computed over the old row,
/// and keeps its other cells.
pub fn add_column_keeps_the_cells()
    ensures { (tables : Tables) → (c : List ℕ) → (r : List ℕ) → (e : Tree) → (database : Database)
        → (rows : Relation) → (made : Relation)
        → op_fault tables (add_column c e r) ≡ None → get database r ≡ Some (Rows rows)
        → get (migrate tables (add_column c e r) database) r ≡ Some (Rows made)
        → RowsFollow (λ row new. SameBut (c ∷ []) (columns_of tables r)
        (columns_of (schema_after tables (add_column c e r)) r) row new
        × (cell (columns_of (schema_after tables (add_column c e r)) r) new c
        ≡ value (own_cells (columns_of tables r) row) e)) rows made }
{}

/// DROP COLUMN keeps the other cells of each row.
pub fn drop_column_keeps_the_other_cells()
    ensures { (tables : Tables) → (c : List ℕ) → (r : List ℕ) → (database : Database)
        → (rows : Relation) → (made : Relation)
        → op_fault tables (drop_column c r) ≡ None → get database r ≡ Some (Rows rows)
        → get (migrate tables (drop_column c r) database) r ≡ Some (Rows made)
        → RowsFollow (SameBut (c ∷ []) (columns_of tables r)
        (columns_of (schema_after tables (drop_column c r)) r)) rows made }
{}

/// RENAME COLUMN keeps each row's cell under the new name, and its other cells.
pub fn rename_column_keeps_the_cells()
    ensures { (tables : Tables) → (b : List ℕ) → (r : List ℕ) → (c : List ℕ) → (database : Database)
        → (rows : Relation) → (made : Relation)
        → op_fault tables (rename_column b r c) ≡ None → get database r ≡ Some (Rows rows)
        → get (migrate tables (rename_column b r c) database) r ≡ Some (Rows made)
        → RowsFollow (λ row new. SameBut (b ∷ c ∷ []) (columns_of tables r)
        (columns_of (schema_after tables (rename_column b r c)) r) row new
        × (cell (columns_of (schema_after tables (rename_column b r c)) r) new c
        ≡ cell (columns_of tables r) row b)) rows made }
{}

/// A row of the made table's columns is in a JOIN just where it meets the condition and has the
/// cells of a row of the first table and of a row of the second.
pub fn join_has_the_cells_of_both()
    ensures { (tables : Tables) → (r : List ℕ) → (s : List ℕ) → (t : List ℕ) → (c : Test)
        → (database : Database)
        → (first : Relation) → (second : Relation) → (made : Relation) → (row : Row)
        → op_fault tables (join_table r s t c) ≡ None
        → get database r ≡ Some (Rows first) → get database s ≡ Some (Rows second)
        → get (migrate tables (join_table r s t c) database) t ≡ Some (Rows made)
        → IsRow (columns_of (schema_after tables (join_table r s t c)) t) row
        → In row made ↔ IsOfJoin (columns_of tables r) (columns_of tables s)
        (columns_of (schema_after tables (join_table r s t c)) t) c first second row }
{}

/// The two tables of a DECOMPOSE are the projections on the columns named.
pub fn decompose_makes_the_projections()
    ensures first { (tables : Tables) → (r : List ℕ) → (s : List ℕ) → (xs : List (List ℕ))
        → (t : List ℕ) → (ys : List (List ℕ)) → (database : Database)
        → (rows : Relation) → (made : Relation)
        → op_fault tables (decompose_table r s xs t ys) ≡ None
        → get database r ≡ Some (Rows rows)
        → get (migrate tables (decompose_table r s xs t ys) database) s ≡ Some (Rows made)
        → RowsFollow (SameIn xs (columns_of tables r)
        (columns_of (schema_after tables (decompose_table r s xs t ys)) s)) rows made }
    ensures second { (tables : Tables) → (r : List ℕ) → (s : List ℕ) → (xs : List (List ℕ))
        → (t : List ℕ) → (ys : List (List ℕ)) → (database : Database)
        → (rows : Relation) → (made : Relation)
        → op_fault tables (decompose_table r s xs t ys) ≡ None
        → get database r ≡ Some (Rows rows)
        → get (migrate tables (decompose_table r s xs t ys) database) t ≡ Some (Rows made)
        → RowsFollow (SameIn ys (columns_of tables r)
        (columns_of (schema_after tables (decompose_table r s xs t ys)) t)) rows made }
{}

/// The two tables of a DECOMPOSE, joined again, have the columns of the table before and each of
/// its rows.
pub fn decomposed_and_joined_again()
    ensures columns { (tables : Tables) → (r : List ℕ) → (s : List ℕ) → (xs : List (List ℕ))
        → (t : List ℕ) → (ys : List (List ℕ))
        → IsSchema tables → op_fault tables (decompose_table r s xs t ys) ≡ None
        → joined_columns (columns_of (schema_after tables (decompose_table r s xs t ys)) s)
        (columns_of (schema_after tables (decompose_table r s xs t ys)) t)
        ≡ columns_of tables r }
    ensures rows { (tables : Tables) → (r : List ℕ) → (s : List ℕ) → (xs : List (List ℕ))
        → (t : List ℕ) → (ys : List (List ℕ)) → (database : Database)
        → (rows : Relation) → (left : Relation) → (right : Relation) → IsSchema tables
        → IsDatabaseWithLosses tables database
        → op_fault tables (decompose_table r s xs t ys) ≡ None → get database r ≡ Some (Rows rows)
        → get (migrate tables (decompose_table r s xs t ys) database) s ≡ Some (Rows left)
        → get (migrate tables (decompose_table r s xs t ys) database) t ≡ Some (Rows right)
        → (row : Row) → In row rows
        → In row (join_rows (columns_of (schema_after tables (decompose_table r s xs t ys)) s)
        (columns_of (schema_after tables (decompose_table r s xs t ys)) t) always left right) }
{}
