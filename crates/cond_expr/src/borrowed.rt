ghost use Rattle.std.specs.Prelude.{◌≡◌, IfOk, map};
ghost use Rattle.prima_base.specs.Order.{shown};
ghost use Rattle.cond_expr.specs.Rows.{AreValid, AreBorrowed};

use prima_base::{NoMemory, Val, Value};
use std::alloc::Global;

/// The values of a row, borrowed, as `eval` and `holds` take them.
pub fn lend_row<'a>(alloc: Global, row: &'a [Value]) -> Result<Vec<Val<'a>>, NoMemory>
    ensures values { IfOk result (λ v. map shown v.items ≡ row.now) }
    ensures valid { IfOk result (λ v. AreValid v.items) }
    ensures borrowed { IfOk result (λ v. AreBorrowed v.items) }
{
    let mut borrowed = Vec::with_capacity(alloc, row.len())?;
    for value in row {
        borrowed.push(value.lend())?;
    }
    Ok(borrowed)
}
