ghost use Rattle.std.specs.Prelude.{◌≡◌, ◌↔◌, ℕ, List};
ghost use Rattle.std.specs.FinMap as map;
ghost use Rattle.prima_base.specs.Order.{bytes_cmp};
ghost use Rattle.prima_base.specs.Columns.{Column, AreColumns, IsRelation, IsRow};
ghost use Rattle.prima_base.specs.declared.value.Value.{Value};
ghost use Rattle.schema_catalog.specs.Tables.{Tables};
ghost use Rattle.schema_catalog.specs.Databases.{Database, DatabaseEntry, IsDatabase, Rows};
ghost use Rattle.schema_catalog.specs.Databases.{cells_of};

/// The one database of the schema with no table has nothing.
pub fn empty_database()
    ensures { (database : Database) → IsDatabase map.empty database ↔ (database ≡ map.empty) }
{}

/// A schema with one table more, or another in its place, has the database with a relation of that
/// table.
pub fn database_with_table()
    ensures { (tables : Tables) → (database : Database) → (name : List ℕ) → (columns : List Column)
        → (rows : List (List Value))
        → IsDatabase tables database → IsRelation columns rows
        → IsDatabase (map.insert tables name columns) (map.insert database name (Rows rows)) }
{}

/// A row of a table is the list of its cells, column by column.
pub fn row_is_its_cells()
    ensures { (columns : List Column) → (row : List Value) → AreColumns columns → IsRow columns row
        → cells_of columns row ≡ row }
{}
