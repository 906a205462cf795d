//! The columns of tables, as those of atoms.

ghost use Rattle.std.specs.Prelude.{◌≡◌, ◌++◌, IfOk, OnOk};
ghost use Rattle.cond_expr.specs.AtomColumns.{columns_at};

use crate::Column;
use prima_base::{ColType, Name, NoMemory};
use std::alloc::Global;

/// Puts a table's columns, as those of the atom with this number, after what is there: those of
/// several atoms stand one after the other. The one error is `NoMemory`, where memory runs out.
pub fn push_columns_at(
    into: &mut Vec<Column>,
    atom: u32,
    columns: &[(Name, ColType)],
) -> Result<(), NoMemory>
    ensures { OnOk result (into.new.items ≡ into.old.items ++ columns_at atom columns.now) }
{
    for (name, kind) in columns {
        into.push(Column {
            atom,
            name: name.copy()?,
            kind: *kind,
        })?;
    }
    Ok(())
}

/// A table's columns, as those of the atom with this number: what expressions and conditions over
/// the table are typed and evaluated with. The one error is `NoMemory`, where memory runs out.
pub fn columns_at(
    alloc: Global,
    atom: u32,
    columns: &[(Name, ColType)],
) -> Result<Vec<Column>, NoMemory>
    ensures { IfOk result (λ v. v.items ≡ columns_at atom columns.now) }
{
    let mut atoms = Vec::with_capacity(alloc, columns.len())?;
    push_columns_at(&mut atoms, atom, columns)?;
    Ok(atoms)
}
