//! The rows of the table that DROP COLUMN makes: those of the old one without a column.

ghost use Rattle.std.specs.Prelude.{◌≡◌, IfOk};
ghost use Rattle.schema_catalog.specs.Databases.{cell};
ghost use Rattle.smo_ops_spec.specs.Making.{without, image};

use crate::projection::projection;
use prima_base::{ColType, Name, NoMemory, Row};
use smo_ops_columns::columns_without;
use std::alloc::Global;

/// The projection without a column.
pub(crate) fn without_column(
    alloc: Global,
    columns: &[(Name, ColType)],
    column: &Name,
    rows: &[Row],
) -> Result<Vec<Row>, NoMemory>
    ensures { IfOk result (λ v. v.items ≡ image (without column.now columns.now) (cell columns.now)
        rows.now) }
{
    let kept = columns_without(alloc, columns, column)?;
    projection(alloc, columns, &kept, rows)
}
