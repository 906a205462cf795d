//! Columns of a table: their names and types.

ghost use Rattle.std.specs.Prelude.{◌≡◌, IfOk};

use crate::{ColType, Name, NoMemory};
use std::alloc::Global;

/// Equal columns. The one error is `NoMemory`, where memory runs out.
pub fn copy_columns(
    alloc: Global,
    columns: &[(Name, ColType)],
) -> Result<Vec<(Name, ColType)>, NoMemory>
    ensures { IfOk result (λ v. v.items ≡ columns.now) }
{
    let mut copied = Vec::with_capacity(alloc, columns.len())?;
    for (name, kind) in columns {
        copied.push((name.copy()?, *kind))?;
    }
    Ok(copied)
}
