//! The values of a row from a place on: to be looked at, or to keep.

ghost use Rattle.std.specs.Prelude.{◌≡◌, ◌++◌, All, drop, map, IfOk, OnOk};
ghost use Rattle.prima_base.specs.Columns.{IsValid};
ghost use Rattle.prima_base.specs.Order.{shown};

use history_store::GivenRow;
use prima_base::{NoMemory, Val};
use std::alloc::Global;

/// The values of the row without the first ones, so many of them, borrowed. The one error is
/// `NoMemory`, where memory runs out.
pub(crate) fn lend_values<'r>(
    alloc: Global,
    row: &'r GivenRow<'_>,
    skip: usize,
) -> Result<Vec<Val<'r>>, NoMemory>
    ensures values { IfOk result (λ v. map shown v.items ≡ drop skip row.now) }
    ensures valid { IfOk result (λ v. All (λ v. IsValid (shown v)) v.items) }
{
    let mut values = Vec::with_capacity(alloc, row.len())?;
    for at in skip..row.len() {
        values.push(row.value(at))?;
    }
    Ok(values)
}

/// Puts the values of the row without the first ones, so many of them, after those that are there:
/// each text of them that stands elsewhere stays there, and one of the row's own is copied. The one
/// error is `NoMemory`, where memory runs out.
pub(crate) fn put_values<'a>(
    row: &GivenRow<'a>,
    skip: usize,
    values: &mut Vec<Val<'a>>,
) -> Result<(), NoMemory>
    ensures values { OnOk result (map shown values.new.items
        ≡ map shown values.old.items ++ drop skip row.now) }
    ensures valid { All (λ v. IsValid (shown v)) values.old.items
        → OnOk result (All (λ v. IsValid (shown v)) values.new.items) }
{
    for at in skip..row.len() {
        values.push(row.copy_value(at)?)?;
    }
    Ok(())
}

/// These values alone.
pub(crate) fn copy_values<'a>(
    alloc: Global,
    row: &GivenRow<'a>,
    skip: usize,
) -> Result<Vec<Val<'a>>, NoMemory>
    ensures values { IfOk result (λ v. map shown v.items ≡ drop skip row.now) }
    ensures valid { IfOk result (λ v. All (λ v. IsValid (shown v)) v.items) }
{
    let mut values = Vec::with_capacity(alloc, row.len())?;
    put_values(row, skip, &mut values)?;
    Ok(values)
}
