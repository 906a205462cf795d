use crate::place::{copy_tables, copy_without, place_of, put_table};
use crate::table::{SharedTable, Table};
use prima_base::{ColType, Name, NoMemory};
use std::alloc::Global;
use std::marker::Model;

/// The tables of one version. Schemas share the tables that they have in common: a copy, and one
/// with a table more or less, costs a word a table, whatever their columns. A contract sees the map
/// from their names to their columns.
pub struct Schema {
    alloc: Global,
    tables: Vec<SharedTable>,
}

// Written out, not derived: each crate above would prove a derived one again.
impl Drop for Schema {
    fn drop(self) {
        let Schema {
            alloc: _alloc,
            tables: _tables,
        } = self;
    }
}

impl Model for Schema {
    ghost use Rattle.std.specs.FinMap.{from_sorted};
    ghost use Rattle.schema_catalog.specs.Tables.{Tables, tables_code};
    ghost use Rattle.schema_catalog.specs.Places.{AreTables};

    ghost Value = { Tables };

    ghost coded = { tables_code };

    ghost view = { λ s. from_sorted s.tables.items };

    ghost invariant = { λ s. AreTables s.tables.items };
}

impl Schema {
    ghost use Rattle.std.specs.Prelude.{◌≡◌, ◌<◌, Some, None, length, slice_get, MatchOption, IfOk};
    ghost use Rattle.std.specs.Prelude.{IfSome};
    ghost use Rattle.std.specs.FinMap as map;
    ghost use Rattle.prima_base.specs.Columns.{AreColumns};
    ghost use Rattle.schema_catalog.specs.Tables.{IsSchema, columns_of, name_at};
    ghost use Rattle.schema_catalog.specs.Places.{AreTablesOf};

    /// The schema with no table. It takes no memory.
    pub fn empty(alloc: Global) -> Schema
        ensures { result ≡ map.empty }
    {
        Schema {
            alloc,
            tables: Vec::new(alloc),
        }
    }

    /// How many tables there are.
    pub fn len(&self) -> usize
        ensures count { result ≡ map.len self.now }
        ensures valid { IsSchema self.now }
    {
        self.tables.len()
    }

    /// The table with this name, and its place, from 0, in the order of names: `None` exactly where
    /// there is none. It takes no memory.
    pub fn find(&self, name: &Name) -> Option<(usize, &Table)>
        ensures table { MatchOption result (map.get self.now name.now ≡ None)
            (λ found. (found.1.now.0 ≡ name.now)
            × (map.get self.now name.now ≡ Some found.1.now.1)) }
        ensures place { IfSome result (λ found. name_at self.now found.0 ≡ Some name.now) }
        ensures valid { IsSchema self.now }
    {
        match place_of(&self.tables, name) {
            Ok(i) => Some((i, self.tables[i].table())),
            Err(_) => None,
        }
    }

    /// The table with this name: `None` exactly where there is none. It takes no memory.
    pub fn table(&self, name: &Name) -> Option<&Table>
        ensures table { MatchOption result (map.get self.now name.now ≡ None)
            (λ t. (t.now.0 ≡ name.now) × (map.get self.now name.now ≡ Some t.now.1)) }
        ensures valid { IsSchema self.now }
    {
        match self.find(name) {
            Some((_, table)) => Some(table),
            None => None,
        }
    }

    /// The columns of the table with this name; none where there is no such table. It takes no
    /// memory.
    pub fn columns_of(&self, name: &Name) -> &[(Name, ColType)]
        ensures columns { result.now ≡ columns_of self.now name.now }
        ensures valid { AreColumns result.now }
    {
        match self.table(name) {
            Some(found) => found.columns(),
            None => &[],
        }
    }

    /// The table at this place, from 0, in the order of names. It takes no memory.
    pub fn at(&self, place: usize) -> &Table
        requires there { place < map.len self.now }
        ensures table { slice_get (map.entries self.now) place ≡ Some result.now }
        ensures valid { IsSchema self.now }
    {
        self.tables[place].table()
    }

    /// An equal schema. The one error is `NoMemory`, where memory runs out.
    pub fn copy(&self) -> Result<Schema, NoMemory>
        ensures { IfOk result (λ s. s ≡ self.now) }
    {
        Ok(Schema {
            alloc: self.alloc,
            tables: copy_tables(self.alloc, &self.tables)?,
        })
    }

    /// The schema with this table, in place of one with its name if there is such a one; the old
    /// schema stays. The one error is `NoMemory`, where memory runs out.
    pub fn with(&self, table: Table) -> Result<Schema, NoMemory>
        ensures { IfOk result (λ s. s ≡ map.insert self.now table.0 table.1) }
    {
        let mut tables = copy_tables(self.alloc, &self.tables)?;
        put_table(&mut tables, SharedTable::new(self.alloc, table)?)?;
        Ok(Schema {
            alloc: self.alloc,
            tables,
        })
    }

    /// The schema without the table of this name, if there is such a one; the old schema stays. The
    /// one error is `NoMemory`, where memory runs out.
    pub fn without(&self, name: &Name) -> Result<Schema, NoMemory>
        ensures { IfOk result (λ s. s ≡ map.remove self.now name.now) }
    {
        Ok(Schema {
            alloc: self.alloc,
            tables: copy_without(self.alloc, &self.tables, name)?,
        })
    }

    // The tables, in the order of their names.
    pub(crate) fn tables(&self) -> &[SharedTable]
        ensures { AreTablesOf result.now self.now }
    {
        &self.tables
    }
}
