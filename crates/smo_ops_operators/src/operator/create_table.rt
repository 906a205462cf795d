// The schema after CREATE TABLE.
ghost use Rattle.smo_ops_types.specs.Operators.{create_table};
ghost use Rattle.smo_ops_spec.specs.After.{op_fault, IsAfter};
ghost use Rattle.prima_base.specs.Faults.{IsTested};

use prima_base::limits::{MAX_COLUMNS, MAX_TABLES};
use prima_base::{ColType, Name, OpRefusal, What};
use schema_catalog::{Schema, Table};
use smo_ops_columns::{first_again, in_order};
use smo_ops_types::OpFault;
use std::alloc::Global;

// The preconditions of CREATE TABLE, in their order.
fn check_new_table(
    alloc: Global,
    schema: &Schema,
    table: &Name,
    columns: &[(Name, ColType)],
) -> Result<(), OpFault>
    ensures { IsTested (op_fault schema.now (create_table table.now columns.now)) result }
{
    if schema.table(table).is_some() {
        return Err(OpFault::Refused(OpRefusal::Exists(table.copy()?)));
    }
    if columns.is_empty() {
        return Err(OpFault::Refused(OpRefusal::LastColumn(table.copy()?)));
    }
    if let Some(name) = first_again(alloc, columns)? {
        return Err(OpFault::Refused(OpRefusal::ColumnExists(table.copy()?, name.copy()?)));
    }
    if columns.len() > MAX_COLUMNS {
        return Err(OpFault::Refused(OpRefusal::TooMany(What::Columns, MAX_COLUMNS as u64)));
    }
    if schema.len() >= MAX_TABLES {
        return Err(OpFault::Refused(OpRefusal::TooMany(What::Tables, MAX_TABLES as u64)));
    }
    Ok(())
}

pub(crate) fn create(
    alloc: Global,
    schema: &Schema,
    table: &Name,
    columns: &[(Name, ColType)],
) -> Result<Schema, OpFault>
    ensures { IsAfter schema.now (create_table table.now columns.now) result }
{
    check_new_table(alloc, schema, table, columns)?;
    let made = Table::new(table.copy()?, in_order(alloc, columns)?);
    let next = schema.with(made)?;
    Ok(next)
}
