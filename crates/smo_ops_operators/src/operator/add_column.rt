// The schema after ADD COLUMN.
ghost use Rattle.std.specs.Prelude.{◌<◌, ◌^◌};
ghost use Rattle.cond_expr.specs.Seen.{tree};
ghost use Rattle.cond_expr.specs.Sizes.{nodes_of};
ghost use Rattle.smo_ops_types.specs.Operators.{add_column};
ghost use Rattle.smo_ops_spec.specs.After.{IsAfter};

use crate::made_schema::with_table;
use crate::operator::precondition::{check_new, columns_there};
use crate::operator::tree_precondition::{check_few_columns, check_tree};
use cond_expr::Expr;
use prima_base::Name;
use schema_catalog::Schema;
use smo_ops_columns::columns_with;
use smo_ops_types::OpFault;
use std::alloc::Global;

pub(crate) fn after_add_column(
    alloc: Global,
    schema: &Schema,
    column: &Name,
    expr: &Expr,
    table: &Name,
) -> Result<Schema, OpFault>
    requires { nodes_of (tree expr.now) < 2 ^ 32 }
    ensures { IsAfter schema.now (add_column column.now (tree expr.now) table.now) result }
{
    let columns = columns_there(schema, table)?;
    check_new(table, columns, column)?;
    let kind = check_tree(alloc, table, columns, expr)?;
    let made = columns_with(alloc, columns, column, kind)?;
    check_few_columns(&made)?;
    let next = with_table(alloc, schema, table, &made)?;
    Ok(next)
}
