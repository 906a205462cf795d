use cond_expr::{Column, columns_at};
use prima_base::{ColType, Name, NoMemory};
use std::alloc::Global;
use std::marker::Model;

/// The columns of one table, as those of atom 0: what conditions and expressions over the table are
/// typed and evaluated with. A contract sees the table's columns.
#[derive(Drop)]
pub struct OwnColumns<'a> {
    columns: &'a [(Name, ColType)],
    atoms: Vec<Column>,
}

impl<'a> Model for OwnColumns<'a> {
    ghost use Rattle.std.specs.Prelude.{◌≡◌, List};
    ghost use Rattle.prima_base.specs.Columns.{Column as OneColumn};
    ghost use Rattle.cond_expr.specs.AtomColumns.{columns_at};

    ghost Value = { List OneColumn };

    ghost view = { λ c. c.columns.now };

    ghost invariant = { λ c. c.atoms.items ≡ columns_at 0 c.columns.now };
}

ghost use Rattle.std.specs.Prelude.{◌≡◌, IfOk};
ghost use Rattle.cond_expr.specs.AtomColumns.{columns_at};
ghost use Rattle.smo_ops_spec.specs.Preconditions.{among, type_in};
ghost use Rattle.smo_ops_spec.specs.Checks.{pair_names};

impl<'a> OwnColumns<'a> {
    /// Those of a table with these columns. The one error is `NoMemory`, where memory runs out.
    pub fn new(alloc: Global, columns: &'a [(Name, ColType)]) -> Result<OwnColumns<'a>, NoMemory>
        ensures { IfOk result (λ c. c ≡ columns.now) }
    {
        Ok(OwnColumns {
            columns,
            atoms: columns_at(alloc, 0, columns)?,
        })
    }

    /// The table's columns.
    pub fn columns(&self) -> &'a [(Name, ColType)]
        ensures { result.now ≡ self.now }
    {
        self.columns
    }

    /// The same, as those of atom 0.
    pub fn atoms(&self) -> &[Column]
        ensures { result.now ≡ columns_at 0 self.now }
    {
        &self.atoms
    }
}

/// The type of the column with this name. A table has few columns, so they are looked through.
pub fn type_in(columns: &[(Name, ColType)], name: &Name) -> Option<ColType>
    ensures { result ≡ type_in columns.now name.now }
{
    for (column, kind) in columns {
        if column == name {
            return Some(*kind);
        }
    }
    None
}

/// Whether one of these has the name.
pub fn has_name<T>(pairs: &[(Name, T)], name: &Name) -> bool
    ensures { result ≡ among name.now (pair_names pairs.now) }
{
    for (other, _) in pairs {
        if name == other {
            return true;
        }
    }
    false
}
