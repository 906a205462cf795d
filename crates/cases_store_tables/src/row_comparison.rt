//! The order of the rows that scans show now: made, and tested to be what a table that is made
//! again wants. A test says what `true` means, which is what is required then. Where it said
//! `false` too often no table would be made again, and the reply of the case notes that.

ghost use Rattle.std.specs.Prelude.{◌≡◌, ◌++◌, ◌-◌, true, List, [], ◌∷◌, All, IfOk, OnOk, map};
ghost use Rattle.relations_spec.specs.Sets.{Same, Ascends};
ghost use Rattle.relations_spec.specs.Spans.{forever};
ghost use Rattle.prima_base.specs.Order.{row_cmp, shown};
ghost use Rattle.prima_base.specs.Columns.{IsValid};
ghost use Rattle.history_store.specs.Store.{shown_at, row_at, cell_cmp};
ghost use Rattle.history_store.specs.Change.{ids_from, rows_along};
ghost use Rattle.history_store.specs.Restoring.{cell_of, entries_of, IsInOrder};

use crate::moment::has;
use history_store::{Cell, GivenRow};
use prima_base::{FOREVER, NoMemory, Period, Val};
use std::alloc::Global;
use std::cmp::Ordering;

/// The moment of what is there now, from the last stamp on.
pub const NOW: u64 = FOREVER - 1;

// The ids of the keys that go on.
fn open_ids(alloc: Global, keys: &[Period]) -> Result<Vec<usize>, NoMemory>
    ensures { IfOk result (λ ids. ids.items ≡ ids_from 0 (forever - 1) keys.now) }
{
    let mut ids = Vec::new(alloc);
    for (id, key) in keys.iter().enumerate() {
        if has(*key, NOW) {
            ids.push(id)?;
        }
    }
    Ok(ids)
}

// Whether both are the same ids in the same order.
fn are_equal(ids: &[usize], others: &[usize]) -> bool
    ensures { result ≡ true → ids.now ≡ others.now }
{
    if ids.len() != others.len() {
        return false;
    }
    for place in 0..ids.len() {
        if ids[place] != others[place] {
            return false;
        }
    }
    true
}

// Whether the ids are those of the keys that go on.
fn are_open(alloc: Global, keys: &[Period], ids: &[usize]) -> Result<bool, NoMemory>
    ensures { IfOk result (λ b. b ≡ true → Same ids.now (ids_from 0 (forever - 1) keys.now)) }
{
    let open = open_ids(alloc, keys)?;
    let mut sorted = Vec::from_slice(alloc, ids)?;
    sorted.sort_unstable();
    Ok(are_equal(&sorted, &open))
}

// Puts the value of the cell after the others, where it is what the row with this id has now.
fn add_value<'a>(cell: &Cell<'a>, id: usize, values: &mut Vec<Val<'a>>) -> Result<(), NoMemory>
    requires cell { IsValid (shown cell.now.value) }
    requires values { All (λ v. IsValid (shown v)) values.old.items }
    ensures values { OnOk result (map shown values.new.items ≡ map shown values.old.items
        ++ shown_at id (forever - 1) (cell_of cell.now ∷ [])) }
    ensures valid { OnOk result (All (λ v. IsValid (shown v)) values.new.items) }
{
    if cell.id == id as u64 && has(cell.period, NOW) {
        values.push(cell.value.copy()?)?;
    }
    Ok(())
}

// Puts what the row with this id has in the column now after its other values. The cells ascend by
// id, and are halved until those of this id alone are left.
fn add_values<'a>(cells: &[Cell<'a>], id: usize, values: &mut Vec<Val<'a>>) -> Result<(), NoMemory>
    requires cells { All (λ c. IsValid c.value) (map cell_of cells.now) }
    requires ascending { Ascends cell_cmp (map cell_of cells.now) }
    requires values { All (λ v. IsValid (shown v)) values.old.items }
    ensures values { OnOk result (map shown values.new.items ≡ map shown values.old.items
        ++ shown_at id (forever - 1) (map cell_of cells.now)) }
    ensures valid { OnOk result (All (λ v. IsValid (shown v)) values.new.items) }
{
    match cells {
        [] => Ok(()),
        [cell] => add_value(cell, id, values),
        _ => {
            let (left, right) = cells.split_at(cells.len() / 2);
            match right[0].id.cmp(&(id as u64)) {
                Ordering::Less => add_values(right, id, values),
                Ordering::Greater => add_values(left, id, values),
                Ordering::Equal => {
                    add_values(left, id, values)?;
                    add_values(right, id, values)
                }
            }
        }
    }
}

// The row with this id, as it is now.
fn row_of<'a>(alloc: Global, columns: &[Vec<Cell<'a>>], id: usize) -> Result<GivenRow<'a>, NoMemory>
    requires values { All (All (λ c. IsValid c.value)) (entries_of columns.now) }
    requires ascending { All (Ascends cell_cmp) (entries_of columns.now) }
    ensures { IfOk result (λ row. row ≡ row_at id (forever - 1) (entries_of columns.now)) }
{
    let mut values = Vec::new(alloc);
    for cells in columns {
        add_values(cells, id, &mut values)?;
    }
    Ok(GivenRow::of(values))
}

// The rows with these ids, as they are now.
fn rows_of<'a>(
    alloc: Global,
    columns: &[Vec<Cell<'a>>],
    ids: &[usize],
) -> Result<Vec<GivenRow<'a>>, NoMemory>
    requires values { All (All (λ c. IsValid c.value)) (entries_of columns.now) }
    requires ascending { All (Ascends cell_cmp) (entries_of columns.now) }
    ensures { IfOk result (λ v. v.items
        ≡ rows_along ids.now (forever - 1) (entries_of columns.now)) }
{
    let mut rows = Vec::new(alloc);
    for id in ids {
        rows.push(row_of(alloc, columns, *id)?)?;
    }
    Ok(rows)
}

// Whether each row is before the next.
fn ascend(rows: &[GivenRow<'_>]) -> bool
    ensures { result ≡ true → Ascends row_cmp rows.now }
{
    for place in 1..rows.len() {
        match rows[place - 1].cmp(&rows[place]) {
            Ordering::Less => {}
            Ordering::Equal | Ordering::Greater => return false,
        }
    }
    true
}

/// Whether the ids are those of the rows that go on, in the order of these.
pub(crate) fn are_in_order(
    alloc: Global,
    keys: &[Period],
    columns: &[Vec<Cell<'_>>],
    ids: &[usize],
) -> Result<bool, NoMemory>
    requires values { All (All (λ c. IsValid c.value)) (entries_of columns.now) }
    requires ascending { All (Ascends cell_cmp) (entries_of columns.now) }
    ensures { IfOk result (λ b. b ≡ true → IsInOrder keys.now (entries_of columns.now) ids.now) }
{
    if !are_open(alloc, keys, ids)? {
        return Ok(false);
    }
    let rows = rows_of(alloc, columns, ids)?;
    Ok(ascend(&rows))
}
