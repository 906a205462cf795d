//! The rows of the table that RENAME COLUMN makes: those of the old one with one column under
//! another name.

ghost use Rattle.std.specs.Prelude.{◌≡◌, [], IfOk, map, if◌then◌else◌};
ghost use Rattle.smo_ops_spec.specs.OneRow.{same};
ghost use Rattle.smo_ops_spec.specs.Making.{renamed, image, moved};
ghost use Rattle.smo_maps.specs.Picking.{source_of};

use crate::name::names_of;
use crate::projection::image;
use crate::source::{Source, source_of};
use prima_base::{ColType, Name, NoMemory, Row};
use smo_ops_columns::columns_renamed;
use std::alloc::Global;

// The name that the column had.
fn old_name<'a>(name: &'a Name, column: &'a Name, into: &Name) -> &'a Name
    ensures { result.now ≡ (if same into.now name.now then column.now else name.now) }
{
    if into == name { column } else { name }
}

// Where the values stand of rows with one column under another name.
fn moved_sources(
    alloc: Global,
    columns: &[(Name, ColType)],
    names: &[Name],
    column: &Name,
    into: &Name,
) -> Result<Vec<Source>, NoMemory>
    ensures { IfOk result (λ v. v.items
        ≡ map (λ n. source_of columns.now [] (if same into.now n then column.now else n))
        names.now) }
{
    let mut sources = Vec::with_capacity(alloc, names.len())?;
    for name in names {
        sources.push(source_of(columns, &[], old_name(name, column, into)))?;
    }
    Ok(sources)
}

/// The rows with one column under another name.
pub(crate) fn under_another_name(
    alloc: Global,
    columns: &[(Name, ColType)],
    column: &Name,
    into: &Name,
    rows: &[Row],
) -> Result<Vec<Row>, NoMemory>
    ensures { IfOk result (λ v. v.items
        ≡ image (renamed column.now into.now columns.now) (moved columns.now column.now into.now)
        rows.now) }
{
    let made = columns_renamed(alloc, columns, column, into)?;
    let names = names_of(alloc, &made)?;
    let sources = moved_sources(alloc, columns, &names, column, into)?;
    image(alloc, &sources, rows)
}
