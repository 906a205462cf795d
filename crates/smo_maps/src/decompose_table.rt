//! The rows of a table that DECOMPOSE TABLE makes: those of the old one in the columns that are
//! named.

ghost use Rattle.std.specs.Prelude.{◌≡◌, IfOk};
ghost use Rattle.schema_catalog.specs.Databases.{cell};
ghost use Rattle.smo_ops_spec.specs.Making.{named, image};

use crate::projection::projection;
use prima_base::{ColType, Name, NoMemory, Row};
use smo_ops_columns::columns_named;
use std::alloc::Global;

/// The projection to the columns that are named.
pub(crate) fn with_names(
    alloc: Global,
    columns: &[(Name, ColType)],
    chosen: &[Name],
    rows: &[Row],
) -> Result<Vec<Row>, NoMemory>
    ensures { IfOk result (λ v. v.items ≡ image (named chosen.now columns.now) (cell columns.now)
        rows.now) }
{
    let kept = columns_named(alloc, columns, chosen)?;
    projection(alloc, columns, &kept, rows)
}
