// The schema after RENAME TABLE.
ghost use Rattle.smo_ops_types.specs.Operators.{rename_table};
ghost use Rattle.smo_ops_spec.specs.After.{IsAfter};

use crate::made_schema::with_table;
use crate::operator::precondition::{check_differ, check_free, columns_there};
use prima_base::Name;
use schema_catalog::Schema;
use smo_ops_types::OpFault;
use std::alloc::Global;

pub(crate) fn after_rename(
    alloc: Global,
    schema: &Schema,
    table: &Name,
    into: &Name,
) -> Result<Schema, OpFault>
    ensures { IsAfter schema.now (rename_table table.now into.now) result }
{
    let columns = columns_there(schema, table)?;
    check_differ(table, into)?;
    check_free(schema, into, into == table)?;
    let rest = schema.without(table)?;
    let next = with_table(alloc, &rest, into, columns)?;
    Ok(next)
}
