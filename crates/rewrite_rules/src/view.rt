ghost use Rattle.std.specs.Prelude.{◌≡◌, IfOk, map};
ghost use Rattle.cond_expr.specs.Seen.{tree, test};
ghost use Rattle.piece_ir.specs.Shown.{view_of};
ghost use Rattle.piece_ir_spec.specs.OperatorViews.{selected, computed};

use cond_expr::{Cond, Expr};
use piece_ir::View;
use prima_base::{Name, NoMemory};
use std::alloc::Global;

/// The rows of the table that meet all parts.
pub(crate) fn selected(alloc: Global, table: &Name, parts: Vec<Cond>) -> Result<View, NoMemory>
    ensures { IfOk result (λ v. view_of v ≡ selected table.now (map test parts.items)) }
{
    View::of_table(alloc, table, parts, Vec::new(alloc))
}

/// The rows of the table, with the expression's value in one column.
pub(crate) fn computed(
    alloc: Global,
    table: &Name,
    column: &Name,
    expr: Expr,
) -> Result<View, NoMemory>
    ensures { IfOk result (λ v. view_of v ≡ computed table.now column.now (tree expr)) }
{
    let mut outs = Vec::new(alloc);
    outs.push((column.copy()?, expr))?;
    View::of_table(alloc, table, Vec::new(alloc), outs)
}
