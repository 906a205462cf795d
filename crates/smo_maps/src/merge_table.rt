//! The rows of the table that MERGE TABLE makes: those of two tables together.

ghost use Rattle.std.specs.Prelude.{◌≡◌, ◌++◌, IfOk, OnOk};
ghost use Rattle.smo_ops_spec.specs.Making.{union};

use prima_base::{NoMemory, Row};
use smo_ops::make_set;
use std::alloc::Global;

// Puts equal rows after the others.
fn append(made: &mut Vec<Row>, rows: &[Row]) -> Result<(), NoMemory>
    ensures { OnOk result (made.new.items ≡ made.old.items ++ rows.now) }
{
    for row in rows {
        made.push(row.copy()?)?;
    }
    Ok(())
}

/// The union of two relations.
pub(crate) fn united(alloc: Global, first: &[Row], second: &[Row]) -> Result<Vec<Row>, NoMemory>
    ensures { IfOk result (λ v. v.items ≡ union first.now second.now) }
{
    let mut made = Vec::with_capacity(alloc, first.len().saturating_add(second.len()))?;
    append(&mut made, first)?;
    append(&mut made, second)?;
    make_set(&mut made);
    Ok(made)
}
