//! The rows of the table that ADD COLUMN makes: those of the old one with the expression's value in
//! one column more.

ghost use Rattle.std.specs.Prelude.{◌≡◌, [], ◌∷◌, false, IfOk, map};
ghost use Rattle.relations_spec.specs.Sets.{set_of};
ghost use Rattle.prima_base.specs.declared.value.ColType.{ColType as OneType};
ghost use Rattle.prima_base.specs.Order.{row_cmp};
ghost use Rattle.prima_base.specs.Columns.{names_of, AreColumns};
ghost use Rattle.cond_expr.specs.Seen.{tree};
ghost use Rattle.cond_expr.specs.Values.{value};
ghost use Rattle.smo_ops_spec.specs.OneRow.{own_cells, Row as OneRow};
ghost use Rattle.smo_ops_spec.specs.Preconditions.{among};
ghost use Rattle.smo_ops_spec.specs.Making.{with_column, image, added_value};
ghost use Rattle.smo_maps.specs.Picking.{picked_row};

use crate::name::{names_of, put_in_order};
use crate::one_row::value_over;
use crate::source::{Source, picked_row, sources_of};
use cond_expr::Expr;
use prima_base::{ColType, Name, NoMemory, Row};
use smo_ops::{OwnColumns, make_set};
use std::alloc::Global;

// The names of columns with one column more.
fn names_with(
    alloc: Global,
    columns: &[(Name, ColType)],
    column: &Name,
) -> Result<Vec<Name>, NoMemory>
    requires { AreColumns columns.now }
    ensures { (kind : OneType) → IfOk result (λ v.
        v.items ≡ names_of (with_column column.now kind columns.now)) }
{
    let mut names = names_of(alloc, columns)?;
    names.push(column.copy()?)?;
    put_in_order(&mut names);
    Ok(names)
}

// The row with the expression's value beside its own, each where it stands.
fn added_row(
    alloc: Global,
    own: &OwnColumns<'_>,
    sources: &[Source],
    expr: &Expr,
    row: &Row,
) -> Result<Row, NoMemory>
    ensures { IfOk result (λ made. made ≡ picked_row sources.now row.now
        (value (own_cells own.now row.now) (tree expr.now) ∷ [])) }
{
    let value = value_over(alloc, own, expr, row)?;
    picked_row(alloc, sources, row.values(), &[value])
}

// The relation of the rows with the expression's value beside their own, each where it stands.
fn added_rows(
    alloc: Global,
    columns: &[(Name, ColType)],
    sources: &[Source],
    expr: &Expr,
    rows: &[Row],
) -> Result<Vec<Row>, NoMemory>
    ensures { IfOk result (λ v. v.items ≡ set_of row_cmp (map (λ (row : OneRow).
        picked_row sources.now row (value (own_cells columns.now row) (tree expr.now) ∷ []))
        rows.now)) }
{
    let own = OwnColumns::new(alloc, columns)?;
    let mut added_value = Vec::with_capacity(alloc, rows.len())?;
    for row in rows {
        added_value.push(added_row(alloc, &own, sources, expr, row)?)?;
    }
    make_set(&mut added_value);
    Ok(added_value)
}

/// The rows with the expression's value in one column more.
pub(crate) fn with_value(
    alloc: Global,
    columns: &[(Name, ColType)],
    column: &Name,
    expr: &Expr,
    rows: &[Row],
) -> Result<Vec<Row>, NoMemory>
    requires valid { AreColumns columns.now }
    requires new { among column.now (names_of columns.now) ≡ false }
    ensures { (kind : OneType) → IfOk result (λ v. v.items
        ≡ image (with_column column.now kind columns.now)
        (added_value columns.now column.now (tree expr.now)) rows.now) }
{
    let names = names_with(alloc, columns, column)?;
    // Of the new column too only the name counts.
    let new = [(column.copy()?, ColType::Int)];
    let sources = sources_of(alloc, columns, &new, &names)?;
    added_rows(alloc, columns, &sources, expr, rows)
}
