ghost use Rattle.std.specs.Prelude.{◌≡◌, [], ◌∷◌, ◌++◌, IfOk, OnOk, T, not, if◌then◌else◌};
ghost use Rattle.std.specs.Ordering.{eq_by_cmp};
ghost use Rattle.std.specs.FinMap.{is_sorted, put};
ghost use Rattle.std.specs.FinMap.Entries.{where_key};
ghost use Rattle.prima_base.specs.Order.{bytes_cmp};
ghost use Rattle.prima_base.specs.Columns.{AreColumns};
ghost use Rattle.schema_catalog.specs.Places.{IsPlace};

use crate::table::SharedTable;
use prima_base::{Name, NoMemory};
use std::alloc::Global;

/// Where the table with this name stands among tables in the order of their names, or else where
/// one would go.
pub(crate) fn place_of(tables: &[SharedTable], name: &Name) -> Result<usize, usize>
    requires { T (is_sorted bytes_cmp tables.now) }
    ensures { IsPlace tables.now name.now result }
{
    tables.binary_search_by(|table| table.name().cmp(name))
}

/// Puts the table in its place, or in the place of the one with its name.
pub(crate) fn put_table(tables: &mut Vec<SharedTable>, table: SharedTable) -> Result<(), NoMemory>
    requires { T (is_sorted bytes_cmp tables.old.items) }
    ensures put { OnOk result (tables.new.items ≡ put bytes_cmp table.0 table.1 tables.old.items) }
    ensures valid { AreColumns table.1 }
{
    match place_of(tables, table.name()) {
        Ok(i) => {
            tables[i] = table;
            Ok(())
        }
        Err(i) => {
            tables.insert(i, table)?;
            Ok(())
        }
    }
}

/// The same tables, with room for one more.
pub(crate) fn copy_tables(
    alloc: Global,
    tables: &[SharedTable],
) -> Result<Vec<SharedTable>, NoMemory>
    ensures { IfOk result (λ v. v.items ≡ tables.now) }
{
    let mut copied = Vec::with_capacity(alloc, tables.len().saturating_add(1))?;
    for table in tables {
        copied.push(table.share()?)?;
    }
    Ok(copied)
}

// Puts the table after the others, unless it has this name.
fn push_unless(
    copied: &mut Vec<SharedTable>,
    table: &SharedTable,
    name: &Name,
) -> Result<(), NoMemory>
    ensures { OnOk result (copied.new.items ≡ copied.old.items
        ++ (if eq_by_cmp bytes_cmp name.now table.now.0 then [] else table.now ∷ [])) }
{
    if name == table.name() {
        return Ok(());
    }
    copied.push(table.share()?)?;
    Ok(())
}

/// The same tables, without the one of this name.
pub(crate) fn copy_without(
    alloc: Global,
    tables: &[SharedTable],
    name: &Name,
) -> Result<Vec<SharedTable>, NoMemory>
    ensures { IfOk result (λ v. v.items ≡ where_key bytes_cmp
        (λ n. not (eq_by_cmp bytes_cmp name.now n)) tables.now) }
{
    let mut copied = Vec::with_capacity(alloc, tables.len())?;
    for table in tables {
        push_unless(&mut copied, table, name)?;
    }
    Ok(copied)
}
