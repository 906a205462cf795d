// The schema after DROP COLUMN.
ghost use Rattle.smo_ops_types.specs.Operators.{drop_column};
ghost use Rattle.smo_ops_spec.specs.After.{IsAfter};

use crate::made_schema::with_table;
use crate::operator::precondition::{check_another, check_known, columns_there};
use prima_base::Name;
use schema_catalog::Schema;
use smo_ops_columns::columns_without;
use smo_ops_types::OpFault;
use std::alloc::Global;

pub(crate) fn after_drop_column(
    alloc: Global,
    schema: &Schema,
    column: &Name,
    table: &Name,
) -> Result<Schema, OpFault>
    ensures { IsAfter schema.now (drop_column column.now table.now) result }
{
    let columns = columns_there(schema, table)?;
    check_known(table, columns, column)?;
    check_another(table, columns)?;
    let rest = columns_without(alloc, columns, column)?;
    let next = with_table(alloc, schema, table, &rest)?;
    Ok(next)
}
