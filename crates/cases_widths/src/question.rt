//! A query of all columns of a table.

use cond_expr::{ColRef, Cond, Expr, Whose};
use prima_base::{ColType, Name, NoMemory};
use schema_catalog::Table;
use std::alloc::Global;
use temporal_lang::{Branch, Query, When};

// A reference to each of the columns.
fn references(alloc: Global, columns: &[(Name, ColType)]) -> Result<Vec<Expr>, NoMemory> {
    let mut outs = Vec::with_capacity(alloc, columns.len())?;
    for (name, _) in columns {
        outs.push(Expr::Col(ColRef {
            whose: Whose::Free,
            name: name.copy()?,
        }))?;
    }
    Ok(outs)
}

/// The query of all columns of a table of version `asked` at these moments; none where the table has
/// no column.
pub(crate) fn question(
    alloc: Global,
    asked: u32,
    table: &Table,
    when: When,
) -> Result<Option<Query>, NoMemory> {
    let mut from = Vec::with_capacity(alloc, 1)?;
    from.push((table.name().copy()?, table.name().copy()?))?;
    let mut branches = Vec::with_capacity(alloc, 1)?;
    branches.push(Branch {
        outs: references(alloc, table.columns())?,
        from,
        cond: Cond::True,
    })?;
    Ok(Query::new(asked, branches, when, Vec::new(alloc)))
}
