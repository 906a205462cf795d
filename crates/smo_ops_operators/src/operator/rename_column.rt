// The schema after RENAME COLUMN.
ghost use Rattle.smo_ops_types.specs.Operators.{rename_column};
ghost use Rattle.smo_ops_spec.specs.After.{IsAfter};

use crate::made_schema::with_table;
use crate::operator::precondition::{check_known, check_new, columns_there};
use prima_base::Name;
use schema_catalog::Schema;
use smo_ops_columns::columns_renamed;
use smo_ops_types::OpFault;
use std::alloc::Global;

pub(crate) fn after_rename_column(
    alloc: Global,
    schema: &Schema,
    column: &Name,
    table: &Name,
    into: &Name,
) -> Result<Schema, OpFault>
    ensures { IsAfter schema.now (rename_column column.now table.now into.now) result }
{
    let columns = columns_there(schema, table)?;
    check_known(table, columns, column)?;
    check_new(table, columns, into)?;
    let made = columns_renamed(alloc, columns, column, into)?;
    let next = with_table(alloc, schema, table, &made)?;
    Ok(next)
}
