// The schema after PARTITION TABLE.
ghost use Rattle.std.specs.Prelude.{◌<◌, ◌^◌};
ghost use Rattle.cond_expr.specs.Seen.{test};
ghost use Rattle.cond_expr.specs.Sizes.{test_nodes};
ghost use Rattle.smo_ops_types.specs.Operators.{partition_table};
ghost use Rattle.smo_ops_spec.specs.After.{IsAfter};

use crate::made_schema::in_two;
use crate::operator::precondition::{check_tables, check_two_names, columns_there};
use crate::operator::tree_precondition::check_test;
use cond_expr::Cond;
use prima_base::Name;
use schema_catalog::Schema;
use smo_ops_types::OpFault;
use std::alloc::Global;

pub(crate) fn after_partition(
    alloc: Global,
    schema: &Schema,
    table: &Name,
    yes: &Name,
    cond: &Cond,
    no: &Name,
) -> Result<Schema, OpFault>
    requires { test_nodes (test cond.now) < 2 ^ 32 }
    ensures { IsAfter schema.now (partition_table table.now yes.now (test cond.now) no.now) result }
{
    let columns = columns_there(schema, table)?;
    check_two_names(schema, table, yes, no)?;
    check_test(alloc, table, columns, cond)?;
    let next = in_two(alloc, schema, table, (yes, columns), (no, columns))?;
    check_tables(&next)?;
    Ok(next)
}
