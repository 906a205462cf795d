// The schema after MERGE TABLE.
ghost use Rattle.smo_ops_types.specs.Operators.{merge_table};
ghost use Rattle.smo_ops_spec.specs.After.{IsAfter};

use crate::made_schema::in_one;
use crate::operator::column_precondition::check_alike;
use crate::operator::precondition::{check_differ, check_free, columns_there};
use prima_base::Name;
use schema_catalog::Schema;
use smo_ops_columns::is_either;
use smo_ops_types::OpFault;
use std::alloc::Global;

pub(crate) fn after_merge(
    alloc: Global,
    schema: &Schema,
    left: &Name,
    right: &Name,
    into: &Name,
) -> Result<Schema, OpFault>
    ensures { IsAfter schema.now (merge_table left.now right.now into.now) result }
{
    let columns = columns_there(schema, left)?;
    let others = columns_there(schema, right)?;
    check_differ(left, right)?;
    check_free(schema, into, is_either(into, left, right))?;
    check_alike(left, columns, right, others)?;
    let next = in_one(alloc, schema, left, right, into, columns)?;
    Ok(next)
}
