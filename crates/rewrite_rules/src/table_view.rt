ghost use Rattle.std.specs.Prelude.{◌≡◌, [], ◌∷◌, IfOk};
ghost use Rattle.piece_ir.specs.Shown.{view_of, table_views_of, all_views_of};

use piece_ir::{TableViews, View};
use prima_base::{Name, NoMemory};
use std::alloc::Global;

/// A made table with one view.
pub(crate) fn one_view(alloc: Global, table: &Name, view: View) -> Result<TableViews, NoMemory>
    ensures { IfOk result (λ t. table_views_of t ≡ (table.now, view_of view ∷ [])) }
{
    let mut views = Vec::new(alloc);
    views.push(view)?;
    Ok(TableViews {
        table: table.copy()?,
        views,
    })
}

/// A made table with two views.
pub(crate) fn two_views(
    alloc: Global,
    table: &Name,
    first: View,
    second: View,
) -> Result<TableViews, NoMemory>
    ensures { IfOk result (λ t. table_views_of t
        ≡ (table.now, view_of first ∷ view_of second ∷ [])) }
{
    let mut views = Vec::new(alloc);
    views.push(first)?;
    views.push(second)?;
    Ok(TableViews {
        table: table.copy()?,
        views,
    })
}

/// One made table.
pub(crate) fn one(alloc: Global, table: TableViews) -> Result<Vec<TableViews>, NoMemory>
    ensures { IfOk result (λ v. all_views_of v.items ≡ table_views_of table ∷ []) }
{
    let mut made = Vec::new(alloc);
    made.push(table)?;
    Ok(made)
}

/// Two made tables.
pub(crate) fn two(
    alloc: Global,
    first: TableViews,
    second: TableViews,
) -> Result<Vec<TableViews>, NoMemory>
    ensures { IfOk result (λ v. all_views_of v.items ≡ table_views_of first ∷ table_views_of second
        ∷ []) }
{
    let mut made = Vec::new(alloc);
    made.push(first)?;
    made.push(second)?;
    Ok(made)
}
