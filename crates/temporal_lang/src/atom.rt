ghost use Rattle.std.specs.Prelude.{◌≡◌, ◌++◌, ◌≤◌, ◌<◌, OnOk, IfOk, length};
ghost use Rattle.cond_expr.specs.AtomColumns.{columns_at, atoms_from};
ghost use Rattle.plain_answers_spec.specs.Branches.{item_columns};
ghost use Rattle.smo_ops_spec.specs.Effects.{columns_of};

use cond_expr::{Column, push_columns_at};
use prima_base::{Name, NoMemory};
use schema_catalog::Schema;
use std::alloc::Global;

// Puts the columns of the table of this name, as those of an atom, after what is there; none where
// there is no such table.
fn push_table(
    into: &mut Vec<Column>,
    atom: u32,
    schema: &Schema,
    table: &Name,
) -> Result<(), NoMemory>
    ensures { OnOk result (into.new.items ≡ into.old.items
        ++ columns_at atom (columns_of schema.now table.now)) }
{
    push_columns_at(into, atom, schema.columns_of(table))
}

/// The columns of the items, each as those of the atom that is the item's place.
pub(crate) fn columns_of_items(
    alloc: Global,
    schema: &Schema,
    from: &[(Name, Name)],
) -> Result<Vec<Column>, NoMemory>
    requires { length from.now ≤ 8 }
    ensures { IfOk result (λ v. v.items ≡ atoms_from 0 (item_columns schema.now from.now)) }
{
    let mut columns = Vec::new(alloc);
    for (i, (table, _)) in from.iter().enumerate() {
        push_table(&mut columns, i as u32, schema, table)?;
    }
    Ok(columns)
}
