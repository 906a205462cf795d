//! The rows of the table that RENAME TABLE or COPY TABLE makes: those of the old one as they are.

ghost use Rattle.std.specs.Prelude.{◌≡◌, IfOk};

use prima_base::{NoMemory, Row};
use std::alloc::Global;

/// Equal rows.
pub(crate) fn copied(alloc: Global, rows: &[Row]) -> Result<Vec<Row>, NoMemory>
    ensures { IfOk result (λ v. v.items ≡ rows.now) }
{
    let mut copies = Vec::with_capacity(alloc, rows.len())?;
    for row in rows {
        copies.push(row.copy()?)?;
    }
    Ok(copies)
}
