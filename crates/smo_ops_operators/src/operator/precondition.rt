ghost use Rattle.std.specs.Prelude.{◌≡◌, [], ◌∷◌, None, IfOk, if◌then◌else◌};
ghost use Rattle.prima_base.specs.Columns.{AreColumns};
ghost use Rattle.smo_ops_spec.specs.First.{first_refusal};
ghost use Rattle.smo_ops_spec.specs.Effects.{columns_of};
ghost use Rattle.smo_ops_spec.specs.Preconditions.{is_there, is_free, differ, few_tables};
ghost use Rattle.smo_ops_spec.specs.Preconditions.{each_known, is_new, another_column};
ghost use Rattle.prima_base.specs.Faults.{IsTested};

use prima_base::limits::MAX_TABLES;
use prima_base::{ColType, Name, OpRefusal, What};
use schema_catalog::Schema;
use smo_ops_columns::has_name;
use smo_ops_types::OpFault;

// The columns of the table of this name.
pub(crate) fn columns_there<'a>(
    schema: &'a Schema,
    table: &Name,
) -> Result<&'a [(Name, ColType)], OpFault>
    ensures there { IsTested (is_there schema.now table.now) result }
    ensures columns { IfOk result (λ cs. cs.now ≡ columns_of schema.now table.now) }
    ensures valid { IfOk result (λ cs. AreColumns cs.now) }
{
    match schema.table(table) {
        Some(found) => Ok(found.columns()),
        None => Err(OpFault::Refused(OpRefusal::NoTable(table.copy()?))),
    }
}

// Two names are not one.
pub(crate) fn check_differ(first: &Name, second: &Name) -> Result<(), OpFault>
    ensures { IsTested (differ first.now second.now) result }
{
    if first == second {
        return Err(OpFault::Refused(OpRefusal::SameTable(first.copy()?)));
    }
    Ok(())
}

// The name is free: no table has it, or the operator consumes the one that has it.
pub(crate) fn check_free(schema: &Schema, name: &Name, consumed: bool) -> Result<(), OpFault>
    ensures { IsTested (if consumed then None else is_free schema.now [] name.now) result }
{
    if consumed {
        return Ok(());
    }
    if schema.table(name).is_some() {
        return Err(OpFault::Refused(OpRefusal::Exists(name.copy()?)));
    }
    Ok(())
}

// Two tables made of one have names that are not one, and each name is free.
pub(crate) fn check_two_names(
    schema: &Schema,
    table: &Name,
    first: &Name,
    second: &Name,
) -> Result<(), OpFault>
    ensures { IsTested (first_refusal (differ first.now second.now
        ∷ is_free schema.now (table.now ∷ []) first.now
        ∷ is_free schema.now (table.now ∷ []) second.now ∷ [])) result }
{
    check_differ(first, second)?;
    check_free(schema, first, first == table)?;
    check_free(schema, second, second == table)
}

// The schema after an operator has few enough tables.
pub(crate) fn check_tables(after: &Schema) -> Result<(), OpFault>
    ensures { IsTested (few_tables after.now) result }
{
    if after.len() > MAX_TABLES {
        return Err(OpFault::Refused(OpRefusal::TooMany(What::Tables, MAX_TABLES as u64)));
    }
    Ok(())
}

// The table has the column.
pub(crate) fn check_known(
    table: &Name,
    columns: &[(Name, ColType)],
    column: &Name,
) -> Result<(), OpFault>
    ensures { IsTested (each_known table.now columns.now (column.now ∷ [])) result }
{
    if has_name(columns, column) {
        return Ok(());
    }
    Err(OpFault::Refused(OpRefusal::NoColumn(table.copy()?, column.copy()?)))
}

// The table does not have the column.
pub(crate) fn check_new(
    table: &Name,
    columns: &[(Name, ColType)],
    column: &Name,
) -> Result<(), OpFault>
    ensures { IsTested (is_new table.now columns.now column.now) result }
{
    if has_name(columns, column) {
        return Err(OpFault::Refused(OpRefusal::ColumnExists(table.copy()?, column.copy()?)));
    }
    Ok(())
}

// The table has another column beside one.
pub(crate) fn check_another(table: &Name, columns: &[(Name, ColType)]) -> Result<(), OpFault>
    ensures { IsTested (another_column table.now columns.now) result }
{
    if columns.len() < 2 {
        return Err(OpFault::Refused(OpRefusal::LastColumn(table.copy()?)));
    }
    Ok(())
}
