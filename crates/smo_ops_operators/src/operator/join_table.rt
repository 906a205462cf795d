// The schema after JOIN TABLE.
ghost use Rattle.std.specs.Prelude.{◌<◌, ◌^◌, [], ◌∷◌};
ghost use Rattle.cond_expr.specs.Seen.{test};
ghost use Rattle.cond_expr.specs.Sizes.{test_nodes};
ghost use Rattle.smo_ops_types.specs.Operators.{join_table};
ghost use Rattle.smo_ops_spec.specs.First.{first_refusal};
ghost use Rattle.smo_ops_spec.specs.Preconditions.{few_columns, test_known_in, test_typed_in};
ghost use Rattle.prima_base.specs.Faults.{IsTested};
ghost use Rattle.smo_ops_spec.specs.After.{IsAfter};

use crate::made_schema::in_one;
use crate::operator::column_precondition::check_joinable;
use crate::operator::precondition::{check_differ, check_free, columns_there};
use crate::operator::tree_precondition::{check_few_columns, check_test};
use cond_expr::Cond;
use prima_base::{ColType, Name};
use schema_catalog::Schema;
use smo_ops_columns::{is_either, joined_columns};
use smo_ops_types::OpFault;
use std::alloc::Global;

// The joined columns are few enough, and the condition is over them, and well-typed.
fn check_joined(
    alloc: Global,
    table: &Name,
    columns: &[(Name, ColType)],
    cond: &Cond,
) -> Result<(), OpFault>
    requires { test_nodes (test cond.now) < 2 ^ 32 }
    ensures { IsTested (first_refusal (few_columns columns.now
        ∷ test_known_in table.now columns.now (test cond.now)
        ∷ test_typed_in columns.now (test cond.now) ∷ [])) result }
{
    check_few_columns(columns)?;
    check_test(alloc, table, columns, cond)
}

pub(crate) fn after_join(
    alloc: Global,
    schema: &Schema,
    left: &Name,
    right: &Name,
    into: &Name,
    cond: &Cond,
) -> Result<Schema, OpFault>
    requires { test_nodes (test cond.now) < 2 ^ 32 }
    ensures { IsAfter schema.now (join_table left.now right.now into.now (test cond.now)) result }
{
    let columns = columns_there(schema, left)?;
    let others = columns_there(schema, right)?;
    check_differ(left, right)?;
    check_free(schema, into, is_either(into, left, right))?;
    check_joinable(left, columns, right, others)?;
    let joined = joined_columns(alloc, columns, others)?;
    check_joined(alloc, into, &joined, cond)?;
    let next = in_one(alloc, schema, left, right, into, &joined)?;
    Ok(next)
}
