//! The relation of the rows that are picked out of the rows of one table.

ghost use Rattle.std.specs.Prelude.{◌≡◌, [], IfOk, map};
ghost use Rattle.relations_spec.specs.Sets.{set_of};
ghost use Rattle.prima_base.specs.Order.{row_cmp};
ghost use Rattle.schema_catalog.specs.Databases.{cell};
ghost use Rattle.smo_ops_spec.specs.OneRow.{Row as OneRow};
ghost use Rattle.smo_ops_spec.specs.Making.{image};
ghost use Rattle.smo_maps.specs.Picking.{picked_row};

use crate::name::names_of;
use crate::source::{Source, picked_row, sources_of};
use prima_base::{ColType, Name, NoMemory, Row};
use smo_ops::make_set;
use std::alloc::Global;

/// The relation of the rows that are picked out of rows.
pub(crate) fn image(alloc: Global, sources: &[Source], rows: &[Row]) -> Result<Vec<Row>, NoMemory>
    ensures { IfOk result (λ v. v.items ≡ set_of row_cmp
        (map (λ (row : OneRow). picked_row sources.now row []) rows.now)) }
{
    let mut made = Vec::with_capacity(alloc, rows.len())?;
    for row in rows {
        made.push(picked_row(alloc, sources, row.values(), &[])?)?;
    }
    make_set(&mut made);
    Ok(made)
}

/// The relation of the rows in these of their columns.
pub(crate) fn projection(
    alloc: Global,
    columns: &[(Name, ColType)],
    kept: &[(Name, ColType)],
    rows: &[Row],
) -> Result<Vec<Row>, NoMemory>
    ensures { IfOk result (λ v. v.items ≡ image kept.now (cell columns.now) rows.now) }
{
    let names = names_of(alloc, kept)?;
    let sources = sources_of(alloc, columns, &[], &names)?;
    image(alloc, &sources, rows)
}
