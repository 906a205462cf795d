//! What a table that is made again is made of.

ghost use Rattle.std.specs.Prelude.{◌≡◌, ◌<◌, ◌^◌, ℕ, All, IfOk, OnOk, length, map};
ghost use Rattle.prima_base.specs.Columns.{IsValid};
ghost use Rattle.history_store_row_order.specs.Logs.{cells_of};
ghost use Rattle.history_store_writes.specs.Logs.{kinds_of, types_of};
ghost use Rattle.history_store.specs.Store.{cells_in};
ghost use Rattle.history_store.specs.Restoring.{cell_of, entries_of};
ghost use Rattle.history_store_change_spec.specs.Restoring.{write_of, writes_of, AreInTurn};
ghost use Rattle.history_store_change_spec.specs.Restoring.{ids_known};
ghost use Rattle.history_store_change_spec.specs.Restoring.{AreCellsOf, AreValidCells};
ghost use Rattle.history_store_change_spec.specs.Restoring.{AreEntriesOf};

use history_store_columns::{Column, text_bytes};
use prima_base::{ColType, Name, NoMemory, Period, Val};
use std::alloc::Global;

/// A cell of a column: the row with this id has this value in this period.
#[derive(Drop)]
pub struct Cell<'a> {
    /// The row's id: the place of its key, from 0 on.
    pub id: u64,
    /// What the row has in the column, a text where it stands.
    pub value: Val<'a>,
    /// The moments at which it has it.
    pub period: Period,
}

/// Whether the cells can be counted. A table has fewer than 2^64 cells: more are refused as out of
/// memory.
pub(crate) fn check_cells(cells: &[Vec<Cell<'_>>]) -> Result<(), NoMemory>
    ensures { OnOk result (cells_in (entries_of cells.now) < 2 ^ 64) }
{
    let mut count = 0u64;
    for list in cells {
        count = match count.checked_add(list.len() as u64) {
            Some(count) => count,
            None => return Err(NoMemory),
        };
    }
    Ok(())
}

// Room for these cells, in proportion to what they have: the last of them has the greatest id.
fn reserve_cells(column: &mut Column, cells: &[Cell<'_>]) -> Result<(), NoMemory>
    ensures kind { column.new.kind ≡ column.old.kind }
    ensures ids { column.new.ids ≡ column.old.ids }
    ensures cells { column.new.cells ≡ column.old.cells }
{
    let mut bytes = 0usize;
    for cell in cells {
        bytes = bytes.saturating_add(text_bytes(&cell.value));
    }
    let ids = match cells.last() {
        Some(cell) => (cell.id as usize).saturating_add(1),
        None => 0,
    };
    column.reserve_writes(cells.len(), ids.min(cells.len()), bytes)
}

// The column of this type with these cells, which come by id and start.
fn column_of(alloc: Global, kind: ColType, cells: Vec<Cell<'_>>) -> Result<Column, NoMemory>
    requires valid { AreValidCells (map cell_of cells.items) }
    requires turn { AreInTurn 0 (map cell_of cells.items) }
    requires typed { AreCellsOf kind (map cell_of cells.items) }
    ensures kind { IfOk result (λ c. c.kind ≡ kind) }
    ensures ids { IfOk result (λ c. c.ids ≡ ids_known 0 (map cell_of cells.entry.items)) }
    ensures cells { IfOk result (λ c. c.cells ≡ map write_of (map cell_of cells.entry.items)) }
{
    let mut column = Column::new(alloc, kind);
    reserve_cells(&mut column, &cells)?;
    for cell in cells {
        column.add(cell.id as usize, &cell.value, cell.period.start())?;
    }
    Ok(column)
}

/// These columns with these cells.
pub(crate) fn restored_columns(
    alloc: Global,
    columns: &[(Name, ColType)],
    cells: Vec<Vec<Cell<'_>>>,
) -> Result<Vec<Column>, NoMemory>
    requires valid { All (All (λ c. IsValid c.value)) (entries_of cells.items) }
    requires turn { All (AreInTurn 0) (entries_of cells.items) }
    requires width { length cells.items ≡ length columns.now }
    requires typed { AreEntriesOf (types_of columns.now) (entries_of cells.items) }
    ensures kinds { IfOk result (λ v. kinds_of v.items ≡ types_of columns.now) }
    ensures cells { IfOk result (λ v. cells_of v.items ≡ writes_of (entries_of cells.entry.items)) }
    ensures ids { (n : ℕ) → All (λ list. ids_known 0 list ≡ n) (entries_of cells.entry.items)
        → IfOk result (λ v. All (λ c. c.ids ≡ n) v.items) }
{
    let mut restored = Vec::with_capacity(alloc, cells.len())?;
    for list in cells {
        let kind = columns[restored.len()].1;
        restored.push(column_of(alloc, kind, list)?)?;
    }
    Ok(restored)
}
