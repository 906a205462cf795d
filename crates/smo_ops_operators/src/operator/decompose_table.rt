// The schema after DECOMPOSE TABLE.
ghost use Rattle.std.specs.Prelude.{[], ◌∷◌, ◌++◌};
ghost use Rattle.smo_ops_types.specs.Operators.{decompose_table};
ghost use Rattle.smo_ops_spec.specs.First.{first_refusal};
ghost use Rattle.smo_ops_spec.specs.Preconditions.{each_known, each_once, cover};
ghost use Rattle.prima_base.specs.Faults.{IsTested};
ghost use Rattle.smo_ops_spec.specs.After.{IsAfter};

use crate::made_schema::in_two;
use crate::operator::column_precondition::{check_cover, check_each_known, check_each_once};
use crate::operator::precondition::{check_tables, check_two_names, columns_there};
use prima_base::{ColType, Name};
use schema_catalog::Schema;
use smo_ops_columns::columns_named;
use smo_ops_types::OpFault;
use std::alloc::Global;

// The columns that are named for two parts are the table's, none stands twice in a part, and the
// parts cover the table.
fn check_parts(
    alloc: Global,
    table: &Name,
    columns: &[(Name, ColType)],
    left: &Name,
    left_columns: &[Name],
    right: &Name,
    right_columns: &[Name],
) -> Result<(), OpFault>
    ensures { IsTested (first_refusal (each_known table.now columns.now
        (left_columns.now ++ right_columns.now) ∷ each_once left.now left_columns.now
        ∷ each_once right.now right_columns.now
        ∷ cover table.now columns.now left_columns.now right_columns.now ∷ [])) result }
{
    check_each_known(table, columns, left_columns)?;
    check_each_known(table, columns, right_columns)?;
    check_each_once(alloc, left, left_columns)?;
    check_each_once(alloc, right, right_columns)?;
    check_cover(table, columns, left_columns, right_columns)
}

pub(crate) fn after_decompose(
    alloc: Global,
    schema: &Schema,
    table: &Name,
    left: &Name,
    left_columns: &[Name],
    right: &Name,
    right_columns: &[Name],
) -> Result<Schema, OpFault>
    ensures { IsAfter schema.now (decompose_table table.now left.now left_columns.now right.now
        right_columns.now) result }
{
    let columns = columns_there(schema, table)?;
    check_two_names(schema, table, left, right)?;
    check_parts(
        alloc,
        table,
        columns,
        left,
        left_columns,
        right,
        right_columns,
    )?;
    let first = columns_named(alloc, columns, left_columns)?;
    let second = columns_named(alloc, columns, right_columns)?;
    let next = in_two(alloc, schema, table, (left, &first), (right, &second))?;
    check_tables(&next)?;
    Ok(next)
}
