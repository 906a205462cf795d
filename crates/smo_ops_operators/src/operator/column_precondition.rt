// What operators ask of the columns of a table, or of two.
ghost use Rattle.std.specs.Prelude.{◌≡◌};
ghost use Rattle.smo_ops_spec.specs.Preconditions.{alike, joinable, each_known, each_once, cover};
ghost use Rattle.prima_base.specs.Faults.{IsTested};

use prima_base::{ColType, Name, OpRefusal};
use smo_ops_columns::{are_cover, are_joinable, first_name_again, has_name, same_columns};
use smo_ops_types::OpFault;
use std::alloc::Global;

// The two tables have the same columns, of the same types.
pub(crate) fn check_alike(
    left: &Name,
    columns: &[(Name, ColType)],
    right: &Name,
    others: &[(Name, ColType)],
) -> Result<(), OpFault>
    ensures { IsTested (alike left.now columns.now right.now others.now) result }
{
    if !same_columns(columns, others) {
        return Err(OpFault::Refused(OpRefusal::ColumnsDiffer(left.copy()?, right.copy()?)));
    }
    Ok(())
}

// The columns that the two tables have in common have one type in both.
pub(crate) fn check_joinable(
    left: &Name,
    columns: &[(Name, ColType)],
    right: &Name,
    others: &[(Name, ColType)],
) -> Result<(), OpFault>
    ensures { IsTested (joinable left.now columns.now right.now others.now) result }
{
    if !are_joinable(columns, others) {
        return Err(OpFault::Refused(OpRefusal::ColumnsDiffer(left.copy()?, right.copy()?)));
    }
    Ok(())
}

// The table has each column that is named.
pub(crate) fn check_each_known(
    table: &Name,
    columns: &[(Name, ColType)],
    names: &[Name],
) -> Result<(), OpFault>
    ensures { IsTested (each_known table.now columns.now names.now) result }
{
    for name in names {
        if !has_name(columns, name) {
            return Err(OpFault::Refused(OpRefusal::NoColumn(table.copy()?, name.copy()?)));
        }
    }
    Ok(())
}

// No column is named twice.
pub(crate) fn check_each_once(alloc: Global, table: &Name, names: &[Name]) -> Result<(), OpFault>
    ensures { IsTested (each_once table.now names.now) result }
{
    match first_name_again(alloc, names)? {
        Some(name) => Err(OpFault::Refused(OpRefusal::ColumnExists(table.copy()?, name.copy()?))),
        None => Ok(()),
    }
}

// Two parts have a column in common, and together all columns of the table.
pub(crate) fn check_cover(
    table: &Name,
    columns: &[(Name, ColType)],
    left: &[Name],
    right: &[Name],
) -> Result<(), OpFault>
    ensures { IsTested (cover table.now columns.now left.now right.now) result }
{
    if !are_cover(columns, left, right) {
        return Err(OpFault::Refused(OpRefusal::BadCover(table.copy()?)));
    }
    Ok(())
}
