// The schema after COPY TABLE.
ghost use Rattle.smo_ops_types.specs.Operators.{copy_table};
ghost use Rattle.smo_ops_spec.specs.After.{IsAfter};

use crate::made_schema::with_table;
use crate::operator::precondition::{check_free, check_tables, columns_there};
use prima_base::Name;
use schema_catalog::Schema;
use smo_ops_types::OpFault;
use std::alloc::Global;

pub(crate) fn after_copy(
    alloc: Global,
    schema: &Schema,
    table: &Name,
    into: &Name,
) -> Result<Schema, OpFault>
    ensures { IsAfter schema.now (copy_table table.now into.now) result }
{
    let columns = columns_there(schema, table)?;
    check_free(schema, into, false)?;
    let next = with_table(alloc, schema, into, columns)?;
    check_tables(&next)?;
    Ok(next)
}
