//! Rows that are joined, each on its own.

ghost use Rattle.std.specs.Prelude.{◌≡◌, List, IfOk};
ghost use Rattle.prima_base.specs.Timed.{entries_of};
ghost use Rattle.cond_expr.specs.declared.expr.Column.{Column as OneColumn};
ghost use Rattle.join_exec_spec.specs.BorrowedOutputs.{BorrowedValues, RowsBorrow};

use prima_base::{NoMemory, TimedRow, copy_vals};
use prima_base_rows::TimedRows;
use std::alloc::Global;

/// The rows, in their order, each with a list of its own values. Borrowed texts stay borrowed.
pub(crate) fn listed<'a>(alloc: Global, rows: &TimedRows<'a>) -> Result<Vec<TimedRow<'a>>, NoMemory>
    ensures entries { IfOk result (λ v. entries_of v.items ≡ entries_of rows.now.items) }
    ensures borrowed { (which : BorrowedValues) → (columns : List OneColumn)
        → RowsBorrow which columns rows.now.items
        → IfOk result (λ v. RowsBorrow which columns v.items) }
{
    let mut list = Vec::with_capacity(alloc, rows.len())?;
    for i in 0..rows.len() {
        list.push(TimedRow {
            values: copy_vals(alloc, rows.values(i), 0)?,
            period: rows.period(i),
        })?;
    }
    Ok(list)
}
