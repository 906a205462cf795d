use prima_base::{ColType, Name, NoMemory};
use std::alloc::Global;
use std::marker::Model;
use std::rc::Rc;

/// A table: its name, and its columns in the order of their names, each once. A contract sees it as
/// the pair of both.
pub struct Table {
    name: Name,
    columns: Vec<(Name, ColType)>,
}

// Written out, not derived: each crate above would prove a derived one again.
impl Drop for Table {
    fn drop(self) {
        let Table {
            name: _name,
            columns: _columns,
        } = self;
    }
}

impl Model for Table {
    ghost use Rattle.std.specs.Prelude.{ℕ, List};
    ghost use Rattle.prima_base.specs.Columns.{Column, AreColumns};

    ghost Value = { List ℕ × List Column };

    ghost view = { λ t. (t.name, t.columns.items) };

    ghost invariant = { λ t. AreColumns t.columns.items };
}

ghost use Rattle.std.specs.Prelude.{◌≡◌, ◌↔◌, IfOk, IsTrue};
ghost use Rattle.prima_base.specs.Columns.{AreColumns};

/// Whether the columns stand in the order of their names, each once. It takes no memory.
pub fn are_columns(columns: &[(Name, ColType)]) -> bool
    ensures { IsTrue result ↔ AreColumns columns.now }
{
    match columns {
        [] => true,
        [_] => true,
        [first, rest @ ..] => first.0.cmp(&rest[0].0).is_lt() && are_columns(rest),
    }
}

impl Table {
    /// The table of this name and these columns, which stand in the order of their names, each once
    /// (`are_columns`). It takes no memory.
    pub fn new(name: Name, columns: Vec<(Name, ColType)>) -> Table
        requires { AreColumns columns.items }
        ensures { result ≡ (name, columns.items) }
    {
        Table { name, columns }
    }

    /// The table's name.
    pub fn name(&self) -> &Name
        ensures value { result.now ≡ self.now.0 }
        ensures valid { AreColumns self.now.1 }
    {
        &self.name
    }

    /// The columns, in the order of their names.
    pub fn columns(&self) -> &[(Name, ColType)]
        ensures value { result.now ≡ self.now.1 }
        ensures valid { AreColumns self.now.1 }
    {
        &self.columns
    }
}

/// A table that several schemas have: the table itself stands once.
pub(crate) struct SharedTable {
    table: Rc<Table>,
}

// Written out, not derived: each crate above would prove a derived one again.
impl Drop for SharedTable {
    fn drop(self) {
        let SharedTable { table: _table } = self;
    }
}

impl Model for SharedTable {
    ghost use Rattle.std.specs.Prelude.{ℕ, List};
    ghost use Rattle.prima_base.specs.Columns.{Column};

    ghost Value = { List ℕ × List Column };

    ghost view = { λ s. s.table.value };
}

impl SharedTable {
    // The first of those that share the table.
    pub(crate) fn new(alloc: Global, table: Table) -> Result<SharedTable, NoMemory>
        ensures { IfOk result (λ s. s ≡ table) }
    {
        match Rc::new(alloc, table) {
            Ok(table) => Ok(SharedTable { table }),
            Err(_) => Err(NoMemory),
        }
    }

    // The table.
    pub(crate) fn table(&self) -> &Table
        ensures { result.now ≡ self.now }
    {
        &self.table
    }

    // The table's name.
    pub(crate) fn name(&self) -> &Name
        ensures value { result.now ≡ self.now.0 }
        ensures valid { AreColumns self.now.1 }
    {
        self.table().name()
    }

    // The table's columns.
    pub(crate) fn columns(&self) -> &[(Name, ColType)]
        ensures { result.now ≡ self.now.1 }
    {
        self.table().columns()
    }

    // The table, shared by one more. It takes no memory.
    pub(crate) fn share(&self) -> Result<SharedTable, NoMemory>
        ensures { IfOk result (λ s. s ≡ self.now) }
    {
        match self.table.clone() {
            Ok(table) => Ok(SharedTable { table }),
            Err(_) => Err(NoMemory),
        }
    }
}
