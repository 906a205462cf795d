//! What a condition and an expression have over one row of a table.

ghost use Rattle.std.specs.Prelude.{◌≡◌, IfOk};
ghost use Rattle.cond_expr.specs.Seen.{tree, test};
ghost use Rattle.cond_expr.specs.Values.{value};
ghost use Rattle.smo_ops_spec.specs.OneRow.{own_cells, meets};

use cond_expr::{Cond, Expr, lend_row};
use prima_base::{NoMemory, Row, Value};
use smo_ops::{OwnColumns, row_meets, row_value};
use std::alloc::Global;

/// Whether the row of a table of these columns meets the condition.
pub(crate) fn is_met(
    alloc: Global,
    own: &OwnColumns<'_>,
    cond: &Cond,
    row: &Row,
) -> Result<bool, NoMemory>
    ensures { IfOk result (λ b. b ≡ meets own.now (test cond.now) row.now) }
{
    let values = lend_row(alloc, row.values())?;
    row_meets(alloc, own, cond, &values)
}

/// What the expression has over the row of a table of these columns.
pub(crate) fn value_over(
    alloc: Global,
    own: &OwnColumns<'_>,
    expr: &Expr,
    row: &Row,
) -> Result<Value, NoMemory>
    ensures { IfOk result (λ v. v ≡ value (own_cells own.now row.now) (tree expr.now)) }
{
    let values = lend_row(alloc, row.values())?;
    row_value(alloc, own, expr, &values)
}
